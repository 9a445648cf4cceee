//! Phrases of the report and of the page: numbers, lists of names, terms and conditions (ACPI 6.5, 19.2.5).
//!
//! ```text
//! put_names(&mut text, &names, Some(6))?;      // C000-C003 DIMM and 4 more
//! put_expression(&mut text, &term)?;           // LEqual (A, 1) as A == 1
//! ```
//!
//! Texts are characters of ASCII, since all that comes from tables is escaped, and `NO_BREAK`. Numbers below ten are bare, others
//! hexadecimal with `0x`; counts, sizes, interrupts, DMA channels, pins, bits, seconds and degrees are decimal.
#![tactic(auto)]

mod lists;
mod names;
mod numbers;
mod terms;

pub use lists::{Steps, folded_names, put_list, put_names, put_piece};
pub use names::{around, last_name, last_two, put_last, put_last_two};
pub use numbers::{
    NO_BREAK, function_number, put_decimal_runs, put_function, put_joined, put_number_of,
    put_short_joined, put_span, put_uuid,
};
pub use terms::{put_code, put_condition, put_expression, put_expressions};

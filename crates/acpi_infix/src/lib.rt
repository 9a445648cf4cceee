//! Terms with the signs of arithmetic, as source code has them (ACPI 6.5, 19.6): `CNT += 1` for Add(CNT, One, CNT).
//!
//! ```text
//! put_infix(&mut text, &names, &term)?;     // If (LEqual(Arg0, One)): If (Arg0 == 1)
//! ```
//!
//! The text of a term says nothing of how its constants are spelled, and is the same for `Store(Add(a, b), c)` and
//! `Add(a, b, c)`. How names and bytes are printed is the caller's choice (`TermStyle`).
#![tactic(auto)]

mod constants;
mod declarations;
mod operators;
mod pieces;
mod signs;
mod style;
mod terms;

pub use constants::put_constant;
pub use style::TermStyle;
pub use terms::put_infix;

//! Printed forms of what an overview says of a machine: ids, addresses, numbers and resources, as an engineer writes them (ACPI
//! 6.5). The report, the page and what `diff` and `check` print are made of them.
//!
//! A call `put_..` puts one form behind a text, which remembers where a growth of memory was refused.
#![tactic(auto)]

mod descriptors;
mod device_words;
mod spaces;
mod words;

pub use descriptors::put_descriptor;
pub use device_words::{put_address, put_id, put_mark, what_of};
pub use spaces::space_word;
pub use words::{
    is_empty, length_of, put_between, put_count, put_counted, put_escaped, put_hex,
    put_path_around, put_size,
};

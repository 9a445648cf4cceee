//! A survey as JSON, for programs: all that the other commands print of tables (ACPI 6.5, 5.3 and 20.2.5).
//!
//! ```text
//! Survey ── put_survey ──► format, depth, tables, entries, bodies, problems, notes, conditions
//! ```
//!
//! ```text
//! let mut text = Text::new(alloc);
//! put_survey(&mut text, &survey, &findings)?;        // an object, without its end
//! put_line_member(&mut text, "more");                // further members: a name, and a value
//! put_end(&mut text);
//! ```
//!
//! The other calls put members and arrays piece by piece: `put_number_member(text, "{", "line", 3)` puts `{"line":3`.
//! Nothing here opens a file or reads an argument. Only an allocation failure is an error.
#![tactic(auto)]

mod bodies;
mod conditions;
mod entries;
mod found;
mod frame;
mod members;
mod objects;
mod tables;
mod values;

pub use entries::put_links;
pub use found::put_site;
pub use frame::{put_end, put_line_member, put_survey};
pub use members::{
    put_boolean_member, put_form_member, put_member, put_name_member, put_number_member,
    put_path_member, put_paths_member, put_some_name_member, put_some_number_member,
    put_some_path_member, put_some_term_member, put_some_value_member, put_text_member,
    put_value_member, put_word_member,
};
pub use objects::put_object;
pub use values::{
    put_element_start, put_form, put_line_start, put_lines_end, put_number, put_path_text, put_text,
};

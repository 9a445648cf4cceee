//! Laws of loads, of their order and of rewriting, on the definitions alone: the functions do nothing, and their
//! contracts state the laws.

pub use acpi_declare::laws::{one_list_of_notes, one_listing, one_load};
pub use acpi_order::laws::{
    awaited_is_found, independent_tables_load, one_join, one_machine, one_verdict, order_is_free,
    singles_tell_clashes, untouched_stays, verdict_is_found_in_order,
};
pub use acpi_rewrite::rewriting_laws::{
    none_grows, one_rewriting, rewritten_load_alike, rewritten_stay,
};
pub use acpi_space::laws::search_is_kept;

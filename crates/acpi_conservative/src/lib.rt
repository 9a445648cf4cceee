//! Where the strict load lists tables, the survey lists the same, without conditions (ACPI 6.5, 5.3): definitions and
//! laws.
//!
//! ```text
//! bytes of a table ──► item tree ──► sites ──► strict listing: paths and objects
//!     │                    │                        ║ the same paths (strict_load_is_survey)
//!     │                    └──► nodes ──► survey: entries, none with a condition
//!     │                                             ║ the same but for places (strict_read_is_survey)
//!     └──► outline ──► nodes at their places ──► entries that are read of the bytes
//! ```
#![tactic(auto)]

pub mod laws;

//! What the program `acpins-survey` prints of tables: texts of their survey.
//!
//! ```text
//! tables ── acpi_survey ──► Survey ── acpi_findings ──► Findings
//! both ── acpins_survey_output, acpins_survey_json, acpins_json_uses, acpins_json_machine ──► text
//!      ── acpi_check_machine ──► Machine ── acpi_*_checks ──► list of Finding ── acpins_check_text ──► text
//!                             2 Machines ── acpi_moves, acpi_diff ──► Diff ── acpins_diff_text ──► text
//!                             Machine ── acpi_machine_facts ──► MachineFacts ── acpins_report, acpins_page ──► text
//! ```
//!
//! `SurveyPrinter` is the `Printer` of a run (`acpins_survey_run`); it gives no survey back. `findings_in` and `output_of` make a text of
//! one that the caller has.
#![tactic(auto)]

mod checks;
mod diffs;
mod json;
mod texts;

pub use texts::{SurveyPrinter, findings_in, output_of};

//! Methods in JSON.

use acpi_ranges::{Site, site_of};
use acpi_survey::Survey;
use acpins_survey_json::{put_member, put_path_member};
use text_buffer::Text;

/// Puts the member of the method of the entry of that number, behind others.
pub fn put_method(text: &mut Text, survey: &Survey, number: usize) {
    match survey.entry(number) {
        Some(entry) => put_path_member(text, ",", "method", &entry.path),
        None => put_no_method(text),
    }
}

/// Puts that there is no method.
pub(crate) fn put_no_method(text: &mut Text) {
    put_member(text, ",", "method");
    text.put("null")
}

/// Where the term of the entry of that number stands.
pub(crate) fn method_site(survey: &Survey, number: usize) -> Site {
    match survey.entry(number) {
        Some(entry) => site_of(entry.term.place),
        None => site_of(0),
    }
}

//! Values in JSON that may be missing.

use acpins_survey_json::{put_member, put_number_member};
use text_buffer::Text;

/// Puts a member that is null, behind others.
pub(crate) fn put_null_member(text: &mut Text, name: &str) {
    put_member(text, ",", name);
    text.put("null")
}

/// Puts a member that is a number or null, behind others.
pub(crate) fn put_some_u64_member(text: &mut Text, name: &str, n: Option<u64>) {
    match n {
        Some(n) => put_number_member(text, ",", name, n),
        None => put_null_member(text, name),
    }
}

/// The last address of so many from a first one on; None where there is none.
pub(crate) fn last_of(from: u64, count: u64) -> Option<u64> {
    Some(from.saturating_add(count.checked_sub(1)?))
}

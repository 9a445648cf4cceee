//! What is found in tables, in JSON.

use acpi_check_machine::Finding;
use acpins_check_text::in_order;
use acpins_survey_json::{
    put_line_start, put_lines_end, put_number_member, put_path_member, put_some_number_member,
    put_text_member, put_word_member,
};
use std::alloc::{AllocError, Global};
use text_buffer::Text;

fn put_finding(text: &mut Text, finding: &Finding) {
    put_word_member(text, "{", "id", finding.id.text());
    put_word_member(text, ",", "level", finding.id.level().text());
    put_path_member(text, ",", "path", &finding.path);
    put_number_member(text, ",", "table", finding.table as u64);
    put_number_member(text, ",", "offset", finding.offset as u64);
    put_some_number_member(text, ",", "line", finding.line);
    put_text_member(text, ",", "text", &finding.text);
    text.put("}")
}

/// Puts an array of findings, in the order in which `check` prints them, each on a line.
pub fn put_findings(text: &mut Text, alloc: Global, found: &[Finding]) -> Result<(), AllocError> {
    text.put("[");
    let mut is_first = true;
    for finding in in_order(alloc, found)? {
        put_line_start(text, is_first);
        put_finding(text, finding);
        is_first = false;
    }
    put_lines_end(text, is_first);
    Ok(())
}

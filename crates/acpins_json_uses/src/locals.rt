//! What methods declare, in JSON.

use crate::methods::{method_site, put_method};
use acpi_locals::LocalObject;
use acpi_survey::Survey;
use acpins_survey_json::{
    put_line_start, put_lines_end, put_links, put_number_member, put_object, put_path_member,
    put_site,
};
use text_buffer::Text;

fn put_local(text: &mut Text, survey: &Survey, object: &LocalObject<'_>) {
    put_path_member(text, "{", "path", &object.path);
    put_object(text, &object.object);
    put_links(text, &object.links);
    put_method(text, survey, object.method);
    put_site(text, method_site(survey, object.method));
    put_number_member(text, ",", "line", object.line as u64);
    text.put("}")
}

/// Puts an array of the objects that methods declare, in their order, each on a line.
pub fn put_locals(text: &mut Text, survey: &Survey, locals: &[LocalObject<'_>]) {
    text.put("[");
    let mut is_first = true;
    for object in locals {
        put_line_start(text, is_first);
        put_local(text, survey, object);
        is_first = false;
    }
    put_lines_end(text, is_first)
}

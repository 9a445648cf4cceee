//! Uses of names in JSON.

use crate::methods::{put_method, put_no_method};
use acpi_ranges::site_of;
use acpi_survey::Survey;
use acpi_use_list::{Use, UseSite};
use acpins_survey_json::{
    put_boolean_member, put_line_start, put_lines_end, put_name_member, put_site,
    put_some_number_member, put_some_path_member, put_word_member,
};
use acpins_survey_uses::role_text;
use text_buffer::Text;

// Puts where a name stands, behind other members.
fn put_use_site(text: &mut Text, survey: &Survey, site: UseSite) {
    match site {
        UseSite::Node { place } => {
            put_no_method(text);
            put_site(text, site_of(place));
            put_some_number_member(text, ",", "line", None)
        }
        UseSite::Line {
            method,
            place,
            line,
        } => {
            put_method(text, survey, method);
            put_site(text, site_of(place));
            put_some_number_member(text, ",", "line", Some(line))
        }
    }
}

fn put_use(text: &mut Text, survey: &Survey, found: &Use) {
    put_some_path_member(text, "{", "path", &found.path);
    put_name_member(text, ",", "name", &found.name);
    put_word_member(text, ",", "role", role_text(found.role));
    put_boolean_member(text, ",", "sure", found.is_sure);
    put_use_site(text, survey, found.site);
    text.put("}")
}

/// Puts an array of uses, in their order, each on a line.
pub fn put_uses(text: &mut Text, survey: &Survey, uses: &[Use]) {
    text.put("[");
    let mut is_first = true;
    for found in uses {
        put_line_start(text, is_first);
        put_use(text, survey, found);
        is_first = false;
    }
    put_lines_end(text, is_first)
}

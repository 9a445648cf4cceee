//! Constants by their values.

use acpi_overview::integer_value;
use acpi_overview_text::put_hex;
use acpi_tree::Int;
use text_buffer::Text;

/// Puts the value of a constant: below ten as a decimal digit, else in hexadecimal; the greatest is `Ones`.
pub fn put_constant(text: &mut Text, number: u64) {
    if number == u64::MAX {
        return text.put("Ones");
    }
    if number > 9 {
        text.put("0x");
    }
    put_hex(text, number, 1)
}

/// Puts a constant integer; Revision has no value before a program runs.
pub(crate) fn put_int(text: &mut Text, int: Int) {
    match integer_value(int) {
        Some(number) => put_constant(text, number),
        None => text.put("Revision"),
    }
}

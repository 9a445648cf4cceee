//! Tables in JSON.

ghost use Rattle.std.specs.Prelude.{◌≡◌, ◌++◌, ◌+◌, ◌-◌, ◌≤◌, drop, length, take};
ghost use Rattle.std.specs.List.{flat_map};
ghost use Rattle.acpi_text.specs.Constants.{char_text};
ghost use Rattle.acpi_table.specs.Tables.{header_of, table_at};
ghost use Rattle.byteorder.specs.Endian.{little_number};
ghost use Rattle.acpins_survey_json.specs.Json.{array_lines, member, value_text};
ghost use Rattle.acpins_survey_json.specs.JsonTables.{front_members, header_members, label_value, null_members, sum_value, table_value, table_values, without_zeros};
ghost use Rattle.acpins_survey_json.specs.JsonValues.{number_value};
ghost use Rattle.acpins_survey_json.specs.steps.JsonPuts.{PutsMembers};

use crate::members::{put_form_member, put_member, put_number_member};
use crate::values::{put_boolean, put_line_start, put_lines_end};
use acpi_survey::SurveyedTable;
use acpi_table::{HEADER_BYTES, TableFault, split_table};
use acpi_text::put_char;
use byteorder::{ByteOrder, LittleEndian};
use text_buffer::Text;

// ---- the header

// Bytes of a header, without those that are 0 at their end.
fn without_end(bytes: &[u8]) -> &[u8]
    ensures { result.now ≡ without_zeros bytes.now }
{
    let mut rest = bytes;
    while let [front @ .., last] = rest {
        if *last != 0 {
            return rest;
        }
        rest = front;
    }
    rest
}

fn put_characters(text: &mut Text, bytes: &[u8])
    ensures { text.new ≡ text.old ++ flat_map char_text bytes.now }
{
    for b in bytes {
        put_char(text, *b);
    }
}

// A text of a header, these bytes of it, behind other members.
fn put_label(text: &mut Text, name: &str, bytes: &[u8], from: usize, to: usize)
    requires { (from ≤ to) × (to ≤ length bytes.now) }
    ensures { PutsMembers (member name.now
        (label_value (take (to - from) (drop from bytes.now)))) text.old text.new }
{
    let mut form = Text::new(text.alloc());
    put_characters(&mut form, without_end(&bytes[from..to]));
    put_form_member(text, ",", name, &form)
}

// A number of a header, four bytes of it, behind other members.
fn put_dword(text: &mut Text, name: &str, bytes: &[u8], from: usize)
    requires { from + 4 ≤ length bytes.now }
    ensures { PutsMembers (member name.now
        (number_value (little_number 4 (drop from bytes.now)))) text.old text.new }
{
    let n = LittleEndian::read_u32(&bytes[from..]);
    put_number_member(text, ",", name, u64::from(n))
}

// The members of a header (ACPI 6.5, table 5.4).
fn put_header(text: &mut Text, bytes: &[u8])
    requires { 36 ≤ length bytes.now }
    ensures { PutsMembers (header_members (header_of bytes.now))
        text.old text.new }
{
    put_label(text, "signature", bytes, 0, 4);
    put_dword(text, "length", bytes, 4);
    put_number_member(text, ",", "revision", u64::from(bytes[8]));
    put_label(text, "oem_id", bytes, 10, 16);
    put_label(text, "oem_table_id", bytes, 16, 24);
    put_dword(text, "oem_revision", bytes, 24);
    put_label(text, "creator_id", bytes, 28, 32);
    put_dword(text, "creator_revision", bytes, 32)
}

// The members of a header that isn't there.
fn put_no_header(text: &mut Text)
    ensures { PutsMembers null_members text.old text.new }
{
    text.put(
        ",\"signature\":null,\"length\":null,\"revision\":null,\"oem_id\":null,\
        \"oem_table_id\":null,\"oem_revision\":null,\"creator_id\":null,\"creator_revision\":null",
    )
}

fn put_front(text: &mut Text, bytes: &[u8])
    ensures { PutsMembers (front_members bytes.now) text.old text.new }
{
    if bytes.len() < HEADER_BYTES {
        return put_no_header(text);
    }
    put_header(text, bytes)
}

// ---- tables

// Whether the bytes of a table sum to 0, where all of it is there.
fn put_sum(text: &mut Text, bytes: &[u8])
    ensures { text.new ≡ text.old ++ value_text (sum_value (table_at bytes.now)) }
{
    match split_table(bytes) {
        Ok(_) => put_boolean(text, true),
        Err(TableFault::BadSum) => put_boolean(text, false),
        Err(_) => text.put("null"),
    }
}

fn put_table(text: &mut Text, number: usize, bytes: &[u8])
    ensures { text.new ≡ text.old ++ value_text (table_value number bytes.now) }
{
    put_number_member(text, "{", "table", number as u64);
    put_front(text, bytes);
    put_number_member(text, ",", "bytes", bytes.len() as u64);
    put_member(text, ",", "checksum_good");
    put_sum(text, bytes);
    text.put("}")
}

/// Puts an array of the tables, each on a line.
pub(crate) fn put_tables(text: &mut Text, tables: &[SurveyedTable])
    ensures { text.new ≡ text.old ++ array_lines (table_values 0 tables.now) }
{
    text.put("[");
    let mut is_first = true;
    for number in 0..tables.len() {
        put_line_start(text, is_first);
        put_table(text, number, &tables[number].bytes);
        is_first = false;
    }
    put_lines_end(text, is_first)
}

//! Numbers, texts and terms in JSON.

ghost use Rattle.std.specs.Prelude.{◌≡◌, ◌++◌};
ghost use Rattle.std.specs.Option.{option_map};
ghost use Rattle.acpi_tree.specs.TermView.{term_view};
ghost use Rattle.acpins_survey_json.specs.Json.{boolean_text, character_text, element_start, line_start, lines_end, string, value_text};
ghost use Rattle.acpins_survey_json.specs.JsonValues.{constant_number, name_value, number_value, path_value, paths_value, printed_term, term_value, value_or_null};

use acpi_name::{Name, Path};
use acpi_text::{put_decimal, put_name, put_path, put_term};
use acpi_tree::{Int, Term};
use text_buffer::{Spelled, Spelling, Text};

// The first number that not every program keeps exactly: 2^53.
const FIRST_TEXT: u64 = 9_007_199_254_740_992;

/// A quote and a backslash behind a backslash.
pub(crate) struct Quoted;

impl Spelled for Quoted {
    ghost spelled = { character_text };
}

impl Spelling for Quoted {
    fn spell(text: &mut Text, byte: u8) {
        if byte == b'"' || byte == b'\\' {
            text.put("\\");
        }
        text.put_one(byte)
    }
}

/// Puts characters as a text.
pub fn put_text(text: &mut Text, characters: &[u8])
    ensures { text.new ≡ text.old ++ value_text (string characters.now) }
{
    text.put("\"");
    text.put_spelled::<Quoted>(characters);
    text.put("\"")
}

/// Puts what another text says as a text.
pub fn put_form(text: &mut Text, form: &Text)
    ensures { text.new ≡ text.old ++ value_text (string form.now) }
{
    text.put("\"");
    text.put_spelled_text::<Quoted>(form);
    text.put("\"")
}

/// Puts a word as a text.
pub(crate) fn put_word(text: &mut Text, word: &str)
    ensures { text.new ≡ text.old ++ value_text (string word.now) }
{
    put_text(text, word.as_bytes())
}

/// Puts a number, as a text of its digits where not every program keeps it exactly.
pub fn put_number(text: &mut Text, n: u64)
    ensures { text.new ≡ text.old ++ value_text (number_value n) }
{
    if n < FIRST_TEXT {
        return put_decimal(text, n);
    }
    let mut form = Text::new(text.alloc());
    put_decimal(&mut form, n);
    put_form(text, &form)
}

/// Puts a number, or null.
pub(crate) fn put_some_number(text: &mut Text, n: Option<usize>)
    ensures { text.new ≡ text.old ++ value_text (value_or_null number_value n) }
{
    match n {
        Some(n) => put_number(text, n as u64),
        None => text.put("null"),
    }
}

/// Puts true or false.
pub(crate) fn put_boolean(text: &mut Text, is_true: bool)
    ensures { text.new ≡ text.old ++ boolean_text is_true }
{
    if is_true {
        text.put("true")
    } else {
        text.put("false")
    }
}

/// Puts a path as a text.
pub fn put_path_text(text: &mut Text, path: &Path)
    ensures { text.new ≡ text.old ++ value_text (path_value path.now) }
{
    let mut form = Text::new(text.alloc());
    put_path(&mut form, path);
    put_form(text, &form)
}

/// Puts a name as a text.
pub(crate) fn put_name_text(text: &mut Text, name: &Name)
    ensures { text.new ≡ text.old ++ value_text (name_value name.now) }
{
    let mut form = Text::new(text.alloc());
    put_name(&mut form, name.view());
    put_form(text, &form)
}

/// Puts a term as a text.
pub(crate) fn put_term_text(text: &mut Text, term: &Term)
    ensures { text.new ≡ text.old ++ value_text (printed_term (term_view term.now)) }
{
    let mut form = Text::new(text.alloc());
    put_term(&mut form, term);
    put_form(text, &form)
}

// The number of a term that is one.
fn number_of(term: &Term) -> Option<u64>
    ensures { result ≡ constant_number (term_view term.now) }
{
    match term {
        Term::Int(int) => match int {
            Int::Zero => Some(0),
            Int::One => Some(1),
            Int::Byte(n) => Some(u64::from(*n)),
            Int::Word(n) => Some(u64::from(*n)),
            Int::DWord(n) => Some(u64::from(*n)),
            Int::QWord(n) => Some(*n),
            Int::Ones => None,
            Int::Revision => None,
        },
        _ => None,
    }
}

/// Puts the value of a term: its number where it is one, and else its text.
pub(crate) fn put_value(text: &mut Text, term: &Term)
    ensures { text.new ≡ text.old ++ value_text (term_value (term_view term.now)) }
{
    match number_of(term) {
        Some(n) => put_number(text, n),
        None => put_term_text(text, term),
    }
}

/// Puts the value of a term, or null.
pub(crate) fn put_some_value(text: &mut Text, term: Option<&Term>)
    ensures { text.new ≡ text.old
        ++ value_text (value_or_null term_value (option_map (λ t. term_view t.now) term.entry)) }
{
    match term {
        Some(term) => put_value(text, term),
        None => text.put("null"),
    }
}

/// Puts a term as a text, or null.
pub(crate) fn put_some_term(text: &mut Text, term: Option<&Term>)
    ensures { text.new ≡ text.old
        ++ value_text (value_or_null printed_term (option_map (λ t. term_view t.now) term.entry)) }
{
    match term {
        Some(term) => put_term_text(text, term),
        None => text.put("null"),
    }
}

/// Puts a name as a text, or null.
pub(crate) fn put_some_name(text: &mut Text, name: Option<&Name>)
    ensures { text.new ≡ text.old
        ++ value_text (value_or_null name_value (option_map (λ n. n.now) name.entry)) }
{
    match name {
        Some(name) => put_name_text(text, name),
        None => text.put("null"),
    }
}

/// Puts a path as a text, or null.
pub(crate) fn put_some_path(text: &mut Text, path: &Option<Path>)
    ensures { text.new ≡ text.old
        ++ value_text (value_or_null path_value path.now) }
{
    match path {
        Some(path) => put_path_text(text, path),
        None => text.put("null"),
    }
}

/// Puts paths as an array of texts.
pub(crate) fn put_path_texts(text: &mut Text, paths: &[Path])
    ensures { text.new ≡ text.old ++ value_text (paths_value paths.now) }
{
    text.put("[");
    let mut is_first = true;
    for path in paths {
        put_element_start(text, is_first);
        put_path_text(text, path);
        is_first = false;
    }
    text.put("]")
}

// ---- arrays

/// Puts what stands before an element.
pub fn put_element_start(text: &mut Text, is_first: bool)
    ensures { text.new ≡ text.old ++ element_start is_first }
{
    if is_first {
        return;
    }
    text.put(",")
}

/// Puts what stands before an element that stands on a line of its own.
pub fn put_line_start(text: &mut Text, is_first: bool)
    ensures { text.new ≡ text.old ++ line_start is_first }
{
    if is_first {
        text.put("\n")
    } else {
        text.put(",\n")
    }
}

/// Puts what stands behind the elements of a list, each on a line of its own.
pub fn put_lines_end(text: &mut Text, is_empty: bool)
    ensures { text.new ≡ text.old ++ lines_end is_empty }
{
    if is_empty {
        text.put("]")
    } else {
        text.put("\n]")
    }
}

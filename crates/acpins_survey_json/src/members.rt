//! Members of objects in JSON.

ghost use Rattle.std.specs.Prelude.{◌≡◌, ◌++◌, codes};
ghost use Rattle.std.specs.Option.{option_map};
ghost use Rattle.acpi_tree.specs.TermView.{term_view};
ghost use Rattle.acpins_survey_json.specs.Json.{boolean, name_start, null, string};
ghost use Rattle.acpins_survey_json.specs.JsonValues.{name_value, number_value, path_value, paths_value, printed_term, term_value, value_or_null};
ghost use Rattle.acpins_survey_json.specs.steps.JsonPuts.{PutsMember};

use crate::values::{
    put_boolean, put_form, put_name_text, put_number, put_path_text, put_path_texts, put_some_name,
    put_some_number, put_some_path, put_some_term, put_some_value, put_text, put_value, put_word,
};
use acpi_name::{Name, Path};
use acpi_tree::Term;
use text_buffer::Text;

/// Puts a brace before the first member of an object, or a comma before another one, and its name between quotes.
pub fn put_member(text: &mut Text, start: &str, name: &str)
    ensures { text.new ≡ text.old ++ (start.now ++ name_start name.now) }
{
    text.put(start);
    text.put("\"");
    text.put(name);
    text.put("\":")
}

/// Puts a member that is a number.
pub fn put_number_member(text: &mut Text, start: &str, name: &str, n: u64)
    ensures { PutsMember start.now name.now (number_value n)
        text.old text.new }
{
    put_member(text, start, name);
    put_number(text, n)
}

/// Puts a member that is a number, or null.
pub fn put_some_number_member(text: &mut Text, start: &str, name: &str, n: Option<usize>)
    ensures { PutsMember start.now name.now (value_or_null number_value n)
        text.old text.new }
{
    put_member(text, start, name);
    put_some_number(text, n)
}

/// Puts a member that is true or false.
pub fn put_boolean_member(text: &mut Text, start: &str, name: &str, is_true: bool)
    ensures { PutsMember start.now name.now (boolean is_true)
        text.old text.new }
{
    put_member(text, start, name);
    put_boolean(text, is_true)
}

/// Puts a member that is what another text says, as a text.
pub fn put_form_member(text: &mut Text, start: &str, name: &str, form: &Text)
    ensures { PutsMember start.now name.now (string form.now) text.old text.new }
{
    put_member(text, start, name);
    put_form(text, form)
}

/// Puts a member that is a text of these characters.
pub fn put_text_member(text: &mut Text, start: &str, name: &str, characters: &[u8])
    ensures { PutsMember start.now name.now (string characters.now)
        text.old text.new }
{
    put_member(text, start, name);
    put_text(text, characters)
}

/// Puts a member that is a word.
pub fn put_word_member(text: &mut Text, start: &str, name: &str, word: &str)
    ensures { PutsMember start.now name.now (string word.now)
        text.old text.new }
{
    put_member(text, start, name);
    put_word(text, word)
}

/// Puts a member that is a path.
pub fn put_path_member(text: &mut Text, start: &str, name: &str, path: &Path)
    ensures { PutsMember start.now name.now (path_value path.now)
        text.old text.new }
{
    put_member(text, start, name);
    put_path_text(text, path)
}

/// Puts a member that is a path, or null.
pub fn put_some_path_member(text: &mut Text, start: &str, name: &str, path: &Option<Path>)
    ensures { PutsMember start.now name.now (value_or_null path_value path.now)
        text.old text.new }
{
    put_member(text, start, name);
    put_some_path(text, path)
}

/// Puts a member that is paths.
pub fn put_paths_member(text: &mut Text, start: &str, name: &str, paths: &[Path])
    ensures { PutsMember start.now name.now (paths_value paths.now)
        text.old text.new }
{
    put_member(text, start, name);
    put_path_texts(text, paths)
}

/// Puts a member that is a name.
pub fn put_name_member(text: &mut Text, start: &str, name: &str, name_of: &Name)
    ensures { PutsMember start.now name.now (name_value name_of.now)
        text.old text.new }
{
    put_member(text, start, name);
    put_name_text(text, name_of)
}

/// Puts a member that is a name, or null.
pub fn put_some_name_member(text: &mut Text, start: &str, name: &str, name_of: Option<&Name>)
    ensures { PutsMember start.now name.now (value_or_null name_value (option_map
        (λ n. n.now) name_of.entry))
        text.old text.new }
{
    put_member(text, start, name);
    put_some_name(text, name_of)
}

/// Puts a member that is the value of a term.
pub fn put_value_member(text: &mut Text, start: &str, name: &str, term: &Term)
    ensures { PutsMember start.now name.now (term_value (term_view term.now))
        text.old text.new }
{
    put_member(text, start, name);
    put_value(text, term)
}

/// Puts a member that is the value of a term, or null.
pub fn put_some_value_member(text: &mut Text, start: &str, name: &str, term: Option<&Term>)
    ensures { PutsMember start.now name.now (value_or_null term_value (option_map
        (λ t. term_view t.now) term.entry))
        text.old text.new }
{
    put_member(text, start, name);
    put_some_value(text, term)
}

/// Puts a member that is the text of a term, or null.
pub fn put_some_term_member(text: &mut Text, start: &str, name: &str, term: Option<&Term>)
    ensures { PutsMember start.now name.now (value_or_null printed_term (option_map
        (λ t. term_view t.now) term.entry))
        text.old text.new }
{
    put_member(text, start, name);
    put_some_term(text, term)
}

//! Conditions, in words.

ghost use Rattle.std.specs.Prelude.{◌≡◌, ◌++◌, codes, decimal};
ghost use Rattle.std.specs.Option.{option_map};
ghost use Rattle.acpi_tree.specs.TermView.{term_view};
ghost use Rattle.acpi_entries.specs.ConditionViews.{placed_view, placed_views};
ghost use Rattle.acpins_survey_output.specs.Conditions.{test_text, literal_text, condition_text};

use acpi_entries::{Literal, PlacedLiteral};
use acpi_ranges::Site;
use acpi_text::{put_decimal, put_name, put_path, put_term};
use acpi_tree::Term;
use text_buffer::Text;

// A word and a parenthesis, a test, which may be lost, and a parenthesis.
fn put_test(text: &mut Text, word: &str, test: Option<&Term>)
    ensures { text.new
        ≡ text.old ++ (word.now ++ test_text (option_map (λ t. term_view t.now) test.entry)
        ++ codes ")") }
{
    text.put(word);
    match test {
        Some(term) => put_term(text, term),
        None => text.put("?"),
    }
    text.put(")")
}

fn put_past(text: &mut Text, site: Site)
    ensures { text.new
        ≡ text.old ++ (codes "past(" ++ decimal site.table ++ codes ":" ++ decimal site.offset
        ++ codes ")") }
{
    text.put("past(");
    put_decimal(text, site.table as u64);
    text.put(":");
    put_decimal(text, site.offset as u64);
    text.put(")")
}

/// Puts a literal of a condition.
pub fn put_literal(text: &mut Text, placed: &PlacedLiteral<'_>)
    ensures { text.new ≡ text.old ++ literal_text (placed_view placed.now) }
{
    match &placed.literal {
        Literal::If(test) => put_test(text, "if(", *test),
        Literal::Not(test) => put_test(text, "not(", *test),
        Literal::While(test) => put_test(text, "while(", *test),
        Literal::Past => put_past(text, placed.site),
        Literal::Has(path) => {
            text.put("has(");
            put_path(text, path);
            text.put(")")
        }
        Literal::No(path) => {
            text.put("no(");
            put_path(text, path);
            text.put(")")
        }
        Literal::Needs(name) => {
            text.put("needs(");
            put_name(text, name.view());
            text.put(")")
        }
    }
}

/// Puts a condition: ` ?` and the literals, each behind a blank; nothing where there are none.
pub fn put_condition(text: &mut Text, condition: &[PlacedLiteral<'_>])
    ensures { text.new ≡ text.old ++ condition_text (placed_views condition.now) }
{
    if condition.is_empty() {
        return;
    }
    text.put(" ?");
    for literal in condition {
        text.put(" ");
        put_literal(text, literal);
    }
}

//! Statements of method bodies, a line for each.

ghost use Rattle.std.specs.Prelude.{◌≡◌, ◌++◌, []};
ghost use Rattle.acpi_tree.specs.TermView.{term_view, terms_tree};
ghost use Rattle.acpi_text.specs.Terms.{deeper, block_text, statement_text, statements_text, opaque_text};

use crate::numbers::put_byte;
use crate::terms::put_term;
use acpi_tree::Term;
use text_buffer::Text;

// A block behind its head: its lines stand two blanks deeper than the margin, which is given back.
#[cycle(put_statement)]
fn put_block(text: &mut Text, margin: &mut Text, statements: &[Term])
    ensures text { text.new ≡ text.old ++ block_text margin.old (statements_text (deeper margin.old)
        (terms_tree statements.now)) }
    ensures margin { margin.new ≡ margin.old }
{
    text.put(" {\n");
    margin.put("  ");
    put_statements(text, margin, statements);
    margin.remove_last(2);
    text.put_text(margin);
    text.put("}")
}

// A statement, and the blocks behind it.
#[cycle(put_statement)]
fn put_statement(text: &mut Text, margin: &mut Text, statement: &Term)
    ensures text { text.new ≡ text.old ++ statement_text margin.old (term_view statement.now) }
    ensures margin { margin.new ≡ margin.old }
{
    put_term(text, statement);
    match statement {
        Term::If(_, then, other) => {
            put_block(text, margin, then);
            match other {
                None => {}
                Some(other) => {
                    text.put("\n");
                    text.put_text(margin);
                    text.put("Else");
                    put_block(text, margin, other)
                }
            }
        }
        Term::While(_, then) => put_block(text, margin, then),
        _ => {}
    }
}

// A line for each statement, behind the margin.
#[cycle(put_statement)]
fn put_statements(text: &mut Text, margin: &mut Text, statements: &[Term])
    ensures text { text.new ≡ text.old ++ statements_text margin.old (terms_tree statements.now) }
    ensures margin { margin.new ≡ margin.old }
{
    for statement in statements {
        text.put_text(margin);
        put_statement(text, margin, statement);
        text.put("\n");
    }
}

/// Puts the statements of a body that was read, a line for each (docs/COMMAND.md); the lines of a block stand
/// two blanks deeper than its head.
pub fn put_terms(text: &mut Text, statements: &[Term])
    ensures { text.new ≡ text.old ++ statements_text [] (terms_tree statements.now) }
{
    let mut margin = Text::new(text.alloc());
    put_statements(text, &mut margin, statements)
}

/// Puts the line of a body that is kept as its bytes: `Opaque`, and two digits for each byte.
pub fn put_opaque(text: &mut Text, bytes: &[u8])
    ensures { text.new ≡ text.old ++ opaque_text bytes.now }
{
    text.put("Opaque");
    for b in bytes {
        text.put(" ");
        put_byte(text, *b);
    }
    text.put("\n")
}

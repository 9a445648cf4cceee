//! Terms of method bodies, each in one line.

ghost use Rattle.std.specs.Prelude.{◌≡◌, ◌++◌, codes};
ghost use Rattle.acpi_tree.specs.Terms.{terms_of};
ghost use Rattle.acpi_tree.specs.TermView.{term_view, operand_view, decl_view, terms_tree, operands_view};
ghost use Rattle.acpi_text.specs.Terms.{joined, arguments_text, term_text, term_texts};

use crate::bytes::{put_bytes, put_string};
use crate::data::put_count;
use crate::declarations::put_decl;
use crate::names::put_name;
use crate::numbers::{put_int, put_number};
use acpi_tree::{Int, Operand, Term};
use text_buffer::Text;

/// Puts a term in one line (ACPI 6.5, 20.2.5); of an If or a While its head alone.
#[cycle(put_term)]
pub fn put_term(text: &mut Text, term: &Term)
    ensures { text.new ≡ text.old ++ term_text (term_view term.now) }
{
    match term {
        Term::Int(int) => put_int(text, *int),
        Term::Str(bytes) => put_string(text, bytes),
        Term::Buffer(size, bytes) => {
            put_of(text, "Buffer", size);
            put_bytes(text, bytes)
        }
        Term::Package(count, elems) => {
            put_count(text, u64::from(*count));
            put_joined(text, "{", elems, "}")
        }
        Term::VarPackage(count, elems) => {
            put_of(text, "VarPackage", count);
            put_joined(text, "{", elems, "}")
        }
        Term::Local(number) => put_number(text, "Local", u64::from(*number)),
        Term::Arg(number) => put_number(text, "Arg", u64::from(*number)),
        Term::Debug => text.put("Debug"),
        Term::NoTarget => text.put("-"),
        Term::Ref(name) => put_name(text, name.view()),
        Term::Call(name, args) => {
            put_name(text, name.view());
            put_args(text, args)
        }
        Term::Op(op, operands) => {
            text.put(op.row().word);
            put_operands(text, operands)
        }
        Term::If(test, _, _) => put_of(text, "If ", test),
        Term::While(test, _) => put_of(text, "While ", test),
        Term::Declare(decl) => put_decl(text, decl),
    }
}

// A word, and a term in parentheses.
#[cycle(put_term)]
fn put_of(text: &mut Text, word: &str, term: &Term)
    ensures { text.new ≡ text.old ++ (word.now ++ codes "(" ++ term_text (term_view term.now) ++
        codes ")") }
{
    text.put(word);
    text.put("(");
    put_term(text, term);
    text.put(")")
}

// Terms with a comma between each two, and what stands before and behind them.
#[cycle(put_term)]
fn put_joined(text: &mut Text, before: &str, terms: &[Term], behind: &str)
    ensures { text.new ≡ text.old ++ (before.now ++ joined (term_texts (terms_tree terms.now)) ++
        behind.now) }
{
    text.put(before);
    match terms {
        [] => text.put(behind),
        [first, rest @ ..] => {
            put_term(text, first);
            for term in rest {
                text.put(", ");
                put_term(text, term);
            }
            text.put(behind)
        }
    }
}

// The arguments of a call.
#[cycle(put_term)]
fn put_args(text: &mut Text, args: &[Term])
    ensures { text.new ≡ text.old ++ arguments_text (term_texts (terms_tree args.now)) }
{
    if args.is_empty() {} else {
        put_joined(text, "(", args, ")")
    }
}

// The operands of an operator.
#[cycle(put_term)]
fn put_operands(text: &mut Text, operands: &[Operand])
    ensures { text.new ≡ text.old ++ arguments_text (term_texts (terms_of (operands_view
        operands.now))) }
{
    match operands {
        [] => {}
        [first, rest @ ..] => {
            text.put("(");
            put_operand(text, first);
            for operand in rest {
                text.put(", ");
                put_operand(text, operand);
            }
            text.put(")")
        }
    }
}

#[cycle(put_term)]
fn put_operand(text: &mut Text, operand: &Operand)
    ensures { text.new ≡ text.old ++ term_text (operand_view operand.now) }
{
    match operand {
        Operand::Term(term) => put_term(text, term),
        Operand::Byte(number) => put_int(text, Int::Byte(*number)),
        Operand::Word(number) => put_int(text, Int::Word(*number)),
        Operand::DWord(number) => put_int(text, Int::DWord(*number)),
    }
}

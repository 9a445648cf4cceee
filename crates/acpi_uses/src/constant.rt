//! Predicates that are constants.

ghost use Rattle.std.specs.Prelude.{◌≡◌};
ghost use Rattle.acpi_tree.specs.TermView.{term_view};
ghost use Rattle.acpi_uses.specs.Truth as defined;
ghost use Rattle.acpi_uses.specs.Truth.{int_truth};

use acpi_tree::{Int, Term};

fn int_truth(int: Int) -> Option<bool>
    ensures { result ≡ int_truth int }
{
    match int {
        Int::Zero => Some(false),
        Int::One => Some(true),
        Int::Ones => Some(true),
        Int::Revision => None,
        Int::Byte(number) => Some(number != 0),
        Int::Word(number) => Some(number != 0),
        Int::DWord(number) => Some(number != 0),
        Int::QWord(number) => Some(number != 0),
    }
}

/// Whether a predicate that is a constant is true, which any but 0 is, as it is written. Revision is none here.
pub fn truth_of(predicate: &Term) -> Option<bool>
    ensures { result ≡ defined.truth_of (term_view predicate.now) }
{
    match predicate {
        Term::Int(int) => int_truth(*int),
        Term::Declare(_) => None,
        _ => None,
    }
}

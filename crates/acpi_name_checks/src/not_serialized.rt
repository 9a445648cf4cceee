//! Methods that declare objects and aren't Serialized.

ghost use Rattle.std.specs.Prelude.{◌≡◌, ◌<◌, ◌+◌, ◌^◌, IfOk, IfSome, position};
ghost use Rattle.acpi_tree.specs.TermView.{decl_view, term_view, terms_tree};
ghost use Rattle.std.specs.Borrow.{Bor};
ghost use Rattle.acpi_tree.specs.declared.term.Term.{Term as TermForm};
ghost use Rattle.acpi_uses.specs.Statements.{statements_of};
ghost use Rattle.acpi_name_checks.specs.Serialized.{declares, is_serialized, unserialized_line as first_line};

use acpi_tree::{Decl, Term};
use acpi_uses::statements_of;
use std::alloc::{AllocError, Global};

// Whether a declaration is of an object that calls share; a Create field is a part of a buffer (ACPI 6.5, 5.5.2.3).
fn declares_object(decl: &Decl) -> bool
    ensures { result ≡ declares (decl_view decl.now) }
{
    match decl {
        Decl::Name(_, _) => true,
        Decl::Create { .. } => false,
        Decl::CreateField { .. } => false,
        Decl::Mutex(_, _) => true,
        Decl::Event(_) => true,
        Decl::Region { .. } => true,
        Decl::Field { .. } => true,
        Decl::IndexField { .. } => true,
        Decl::BankField { .. } => true,
    }
}

fn declares(statement: &Term) -> bool
    ensures { result ≡ declares (term_view statement.now) }
{
    match statement {
        Term::Declare(decl) => declares_object(decl),
        _ => false,
    }
}

// The number of the first statement that declares an object.
fn first_declaring(statements: &[&Term]) -> Option<usize>
    ensures is { result ≡ position (λ (t : Bor TermForm). declares (term_view t.now))
        statements.now }
    ensures fits { IfSome result (λ n. n + 1 < 2 ^ 64) }
{
    statements.iter().position(|s| declares(s))
}

fn first_of_body(alloc: Global, body: &[Term]) -> Result<Option<usize>, AllocError>
    ensures is { IfOk result (λ r. r ≡ position declares (statements_of (terms_tree body.now))) }
    ensures fits { IfOk result (λ r. IfSome r (λ n. n + 1 < 2 ^ 64)) }
{
    let statements = statements_of(alloc, body)?;
    Ok(first_declaring(&statements))
}

fn is_serialized(flags: u8) -> bool
    ensures { result ≡ is_serialized flags }
{
    flags / 8 % 2 == 1
}

/// The first line of the body of a method with these flags that declares an object, if the method isn't Serialized (ACPI 6.5,
/// 19.6.83 and 20.2.5.2): a Name, OperationRegion, field form, Mutex or Event.
pub fn unserialized_line(
    alloc: Global,
    flags: u8,
    body: &[Term],
) -> Result<Option<usize>, AllocError>
    ensures { IfOk result (λ r. r ≡ first_line flags (terms_tree body.now)) }
{
    if is_serialized(flags) {
        return Ok(None);
    }
    match first_of_body(alloc, body)? {
        Some(number) => Ok(Some(number + 1)),
        None => Ok(None),
    }
}

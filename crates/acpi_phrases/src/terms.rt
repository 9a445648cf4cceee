//! Terms and conditions as people write them.

use acpi_check_machine::Machine;
use acpi_entries::{Literal, PlacedLiteral, condition_of};
use acpi_infix::{TermStyle, put_constant, put_infix};
use acpi_kinds::ObjectKind;
use acpi_name::Name;
use acpi_overview::Object;
use acpi_overview_text::put_counted;
use acpi_text::put_decimal;
use acpi_tree::{Op, Operand, Term};
use acpi_trimmed::{put_trimmed_name, put_trimmed_path};
use std::alloc::{AllocError, Global};
use text_buffer::Text;

// Names as they are spelled, but for the `_` at the ends of their segments.
#[derive(Drop)]
struct Spelled;

impl TermStyle for Spelled {
    fn put_name(&self, text: &mut Text, name: &Name) -> Result<(), AllocError> {
        put_trimmed_name(text, name.view());
        Ok(())
    }

    fn put_bytes(&self, _text: &mut Text, _bytes: &[u8]) -> Result<bool, AllocError> {
        Ok(false)
    }
}

/// Puts a term with the signs of arithmetic.
pub fn put_expression(text: &mut Text, term: &Term) -> Result<(), AllocError> {
    put_infix(text, &Spelled, term)
}

/// A term with the signs of arithmetic.
pub(crate) fn expression(alloc: Global, term: &Term) -> Result<Vec<u8>, AllocError> {
    let mut text = Text::new(alloc);
    put_expression(&mut text, term)?;
    text.into_bytes()
}

/// Puts terms with a separator between each two.
pub fn put_expressions(text: &mut Text, separator: &str, terms: &[Term]) -> Result<(), AllocError> {
    let mut between = "";
    for term in terms {
        text.put(between);
        between = separator;
        put_expression(text, term)?;
    }
    Ok(())
}

// ---- bodies

// What a statement returns, or the statement.
fn returned(statement: &Term) -> &Term {
    match statement {
        Term::Op(Op::Return, operands) => match operands.as_slice() {
            [Operand::Term(value)] => value,
            _ => statement,
        },
        _ => statement,
    }
}

/// Puts what the code of a method does, where that is one statement, or else how large it is.
pub fn put_code(
    text: &mut Text,
    machine: &Machine<'_>,
    object: &Object<'_>,
) -> Result<(), AllocError> {
    let ObjectKind::Method(_) = object.kind else {
        text.put("no constant");
        return Ok(());
    };
    match machine.body(object.number) {
        None => text.put("a method that is not read"),
        Some(body) => match body.terms {
            [statement] => put_expression(text, returned(statement))?,
            _ => {
                text.put("a method of ");
                put_counted(text, object.code, "byte");
            }
        },
    }
    Ok(())
}

// ---- conditions

// Puts a test, which may be lost.
fn put_test(text: &mut Text, test: Option<&Term>) -> Result<(), AllocError> {
    match test {
        Some(term) => put_expression(text, term),
        None => {
            text.put("?");
            Ok(())
        }
    }
}

fn put_literal(text: &mut Text, placed: &PlacedLiteral<'_>) -> Result<(), AllocError> {
    match &placed.literal {
        Literal::If(test) => put_test(text, *test)?,
        Literal::Not(test) => {
            text.put("not (");
            put_test(text, *test)?;
            text.put(")");
        }
        Literal::While(test) => {
            text.put("while ");
            put_test(text, *test)?;
        }
        Literal::Past => {
            text.put("control passes byte ");
            put_constant(text, placed.site.offset as u64);
            text.put(" of table ");
            put_decimal(text, placed.site.table as u64);
        }
        Literal::Has(path) => {
            put_trimmed_path(text, path);
            text.put(" was made");
        }
        Literal::No(path) => {
            text.put("no ");
            put_trimmed_path(text, *path);
            text.put(" was made before");
        }
        Literal::Needs(name) => {
            put_trimmed_name(text, name.view());
            text.put(" is found");
        }
    }
    Ok(())
}

/// Puts what has to be so that an object exists; nothing where it has no condition.
pub fn put_condition(
    text: &mut Text,
    machine: &Machine<'_>,
    object: &Object<'_>,
) -> Result<(), AllocError> {
    let mut separator = "";
    for placed in &condition_of(machine.survey, object.number)? {
        text.put(separator);
        separator = " and ";
        put_literal(text, placed)?;
    }
    Ok(())
}

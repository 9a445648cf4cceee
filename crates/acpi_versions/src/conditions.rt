//! Conditions of objects in a few words.

use crate::names::{Names, TermPlace};
use crate::sides::Side;
use acpi_entries::{Literal, condition_of};
use acpi_infix::{TermStyle, put_infix};
use acpi_name::Path;
use acpi_overview::Object;
use acpi_tree::Term;
use std::alloc::AllocError;
use text_buffer::Text;

// A test, which may be lost.
fn put_test(text: &mut Text, names: &Names<'_, '_>, test: Option<&Term>) -> Result<(), AllocError> {
    match test {
        Some(term) => put_infix(text, names, term),
        None => {
            text.put("?");
            Ok(())
        }
    }
}

fn put_literal(
    text: &mut Text,
    names: &Names<'_, '_>,
    literal: &Literal<'_>,
) -> Result<(), AllocError> {
    match literal {
        Literal::If(test) => put_test(text, names, *test)?,
        Literal::Not(test) => {
            text.put("not (");
            put_test(text, names, *test)?;
            text.put(")");
        }
        Literal::While(test) => {
            text.put("while ");
            put_test(text, names, *test)?;
        }
        Literal::Past => text.put("not stopped before"),
        Literal::Has(path) => {
            text.put("a scope at ");
            names.put_path(text, &names.side.moves.new_path(path)?);
        }
        Literal::No(path) => {
            text.put("nothing before at ");
            names.put_path(text, &names.side.moves.new_path(*path)?);
        }
        Literal::Needs(name) => {
            text.put("found ");
            names.put_name(text, *name)?;
        }
    }
    Ok(())
}

// The condition of an object, whose names are printed so.
fn put_condition(
    text: &mut Text,
    names: &Names<'_, '_>,
    object: &Object<'_>,
) -> Result<(), AllocError> {
    let mut separator = "";
    for placed in &condition_of(names.side.machine.survey, object.number)? {
        text.put(separator);
        separator = " and ";
        put_literal(text, names, &placed.literal)?;
    }
    Ok(())
}

/// The condition of an object: as it is printed within the container around, at a path of the new version, or as it is
/// compared, where none is given. Nothing where it has none.
pub fn condition_text<'m, 'a>(
    side: Side<'m, 'a>,
    object: &'m Object<'a>,
    around: Option<&'m Path>,
) -> Result<Vec<u8>, AllocError> {
    let mut text = Text::new(side.machine.alloc);
    if object.is_conditional {
        let names = Names {
            side,
            place: TermPlace::Object(object),
            around,
        };
        put_condition(&mut text, &names, object)?;
    }
    text.into_bytes()
}

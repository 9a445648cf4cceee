//! The sleep states of a machine (ACPI 6.5, 7.4.2).

use crate::machine_words::RowSource;
use crate::start_rows::sleep_calls;
use acpi_check_machine::{constant, name_read, terms_on_line};
use acpi_entries::{Literal, condition_of};
use acpi_infix::put_constant;
use acpi_kinds::ObjectKind;
use acpi_name::Name;
use acpi_overview::Object;
use acpi_overview_text::{is_empty, put_between};
use acpi_phrases::{put_condition, put_piece, put_short_joined};
use acpi_text::put_decimal;
use acpi_tree::Term;
use acpi_trimmed::put_trimmed_name;
use std::alloc::AllocError;
use text_buffer::Text;

// The test of a literal.
fn test_of<'l>(literal: &Literal<'l>) -> Option<&'l Term> {
    match literal {
        Literal::If(test) => *test,
        Literal::Not(test) => *test,
        Literal::While(test) => *test,
        _ => None,
    }
}

impl<'f, 'm, 'a> RowSource<'f, 'm, 'a> {
    // Puts the names in the tests of an object's condition that stand for a number, and with which number they are declared.
    fn put_declared(&self, row: &mut Text, object: &Object<'a>) -> Result<(), AllocError> {
        let machine = self.facts.machine;
        for placed in &condition_of(machine.survey, object.number)? {
            let Some(test) = test_of(&placed.literal) else {
                continue;
            };
            for term in terms_on_line(machine.alloc, test)? {
                if let Some(name) = name_read(term) {
                    self.put_declaration(row, object, name)?;
                }
            }
        }
        Ok(())
    }

    // Puts with which number a name is declared, unless it is put already.
    fn put_declaration(
        &self,
        row: &mut Text,
        object: &Object<'a>,
        name: &Name,
    ) -> Result<(), AllocError> {
        let machine = self.facts.machine;
        let Some(found) = machine.search(object, name.view())? else {
            return Ok(());
        };
        let [path] = found.paths.as_slice() else {
            return Ok(());
        };
        let [declared] = machine.at(path) else {
            return Ok(());
        };
        let ObjectKind::Name(Some(value)) = declared.kind else {
            return Ok(());
        };
        let Some(number) = constant(value) else {
            return Ok(());
        };
        let mut words = self.text();
        put_trimmed_name(&mut words, name.view());
        words.put(" is declared ");
        put_constant(&mut words, number);
        let words = words.into_bytes()?;
        let is_known = row
            .bytes()?
            .windows(words.len().max(1))
            .any(|w| w == words.as_slice());
        if !is_known {
            put_piece(row, ", ", &words);
        }
        Ok(())
    }
}

/// The sleep states with their conditions, and the methods that a system calls before and after sleep.
pub(crate) fn sleep_text(source: &RowSource<'_, '_, '_>) -> Result<Text, AllocError> {
    let machine = source.facts.machine;
    let mut row = source.text();
    let mut declared = source.text();
    for state in &source.facts.sleep_states {
        let mut words = source.text();
        words.put("S");
        put_decimal(&mut words, u64::from(state.number));
        if state.object.is_conditional {
            words.put(" if ");
            put_condition(&mut words, machine, &state.object)?;
            source.put_declared(&mut declared, &state.object)?;
        }
        put_between(&mut row, ", ");
        put_short_joined(&mut row, words.bytes()?);
    }
    if !is_empty(&declared) {
        row.put(" (");
        row.put_text(&declared);
        row.put(")");
    }
    let calls = sleep_calls(source)?;
    if !is_empty(&calls) {
        put_between(&mut row, "; ");
        row.put("calls ");
        row.put_text(&calls);
    }
    Ok(row)
}

//! Comparisons that are never true.

use crate::comparing::{Comparison, comparison_of};
use acpi_check_machine::{
    Body, CheckId, Finding, Line, Machine, constant, name_read, put_finding, terms_on_line,
};
use acpi_kinds::ObjectKind;
use acpi_name::Name;
use acpi_overview_text::put_hex;
use acpi_text::{put_decimal, put_name};
use acpi_tree::{Op, Operand, Term};
use std::alloc::AllocError;
use text_buffer::Text;

// A line with a comparison on it.
#[derive(Clone, Copy)]
struct Comparing<'m, 'a> {
    machine: &'m Machine<'a>,
    body: &'m Body<'a>,
    line: &'m Line<'a>,
}

// The masks of an And that is compared.
fn masks_of(term: &Term) -> &[Operand] {
    match term {
        Term::Op(Op::And, operands) => match operands.as_slice() {
            [values @ .., _] => values,
            _ => &[],
        },
        _ => &[],
    }
}

fn mask_of(operand: &Operand) -> Option<u64> {
    match operand {
        Operand::Term(term) => constant(term),
        _ => None,
    }
}

impl<'m, 'a> Comparing<'m, 'a> {
    // The name and the bits of the field unit that a term reads, where no other object may be meant.
    fn unit<'t>(self, term: &'t Term) -> Option<(&'t Name, u32)> {
        let name = name_read(term)?;
        let found = self
            .machine
            .found_by(self.body, self.line.number, self.line.name(name)?)?;
        match found.kind() {
            ObjectKind::Field { bits, .. } => Some((name, bits)),
            _ => None,
        }
    }

    fn put_finding(self, text: Text, found: &mut Vec<Finding>) -> Result<(), AllocError> {
        let line = Some(self.line.number);
        put_finding(found, CheckId::Never, &self.body.object, line, text)
    }

    // Puts what is said of a field unit that has too few bits for a number.
    fn check_unit(
        self,
        term: &Term,
        number: u64,
        found: &mut Vec<Finding>,
    ) -> Result<(), AllocError> {
        let Some((name, bits)) = self.unit(term) else {
            return Ok(());
        };
        if bits >= 64 || number >> bits == 0 {
            return Ok(());
        }
        let mut text = Text::new(self.machine.alloc);
        text.put("compares ");
        put_name(&mut text, name.view());
        text.put(" of ");
        put_decimal(&mut text, u64::from(bits));
        text.put(if bits == 1 {
            " bit with "
        } else {
            " bits with "
        });
        put_hex(&mut text, number, 1);
        self.put_finding(text, found)
    }

    // Puts what is said of an And whose mask leaves out bits of a number.
    fn check_masks(
        self,
        term: &Term,
        number: u64,
        found: &mut Vec<Finding>,
    ) -> Result<(), AllocError> {
        for mask in masks_of(term).iter().filter_map(|m| mask_of(m)) {
            if number & !mask != 0 {
                let mut text = Text::new(self.machine.alloc);
                text.put("And with ");
                put_hex(&mut text, mask, 1);
                text.put(" is never ");
                put_hex(&mut text, number, 1);
                self.put_finding(text, found)?;
            }
        }
        Ok(())
    }

    // Puts what is said of a term that is compared with another.
    fn check_side(
        self,
        op: Op,
        term: &Term,
        other: &Term,
        found: &mut Vec<Finding>,
    ) -> Result<(), AllocError> {
        let Some(number) = constant(other) else {
            return Ok(());
        };
        self.check_unit(term, number, found)?;
        if op == Op::LEqual {
            self.check_masks(term, number, found)?;
        }
        Ok(())
    }

    fn check_comparison(
        self,
        compared: Comparison<'_>,
        found: &mut Vec<Finding>,
    ) -> Result<(), AllocError> {
        self.check_side(compared.op, compared.first, compared.second, found)?;
        self.check_side(compared.op, compared.second, compared.first, found)
    }

    fn check_line(self, found: &mut Vec<Finding>) -> Result<(), AllocError> {
        for term in &terms_on_line(self.machine.alloc, self.line.statement)? {
            if let Some(compared) = comparison_of(term) {
                self.check_comparison(compared, found)?;
            }
        }
        Ok(())
    }
}

/// Field units that are compared with what they have no bits for, and And with what its mask leaves out (ACPI 6.5, 19.6).
pub(crate) fn never(machine: &Machine<'_>, found: &mut Vec<Finding>) -> Result<(), AllocError> {
    for body in &machine.bodies {
        for line in &body.lines {
            let comparing = Comparing {
                machine,
                body,
                line,
            };
            comparing.check_line(found)?;
        }
    }
    Ok(())
}

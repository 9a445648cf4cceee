//! Regions that are alike: they have one row.

use crate::region_words::{put_bound, put_rest};
use acpi_machine_facts::{MachineFacts, RegionFact};
use acpi_name::Path;
use acpi_overview::{Bound, Value};
use acpi_phrases::{Steps, last_name, put_expression, put_last};
use acpi_text::put_decimal;
use acpi_tree::{Op, Operand, Term};
use acpi_trimmed::put_trimmed_path;
use std::alloc::{AllocError, Global};
use std::collections::BTreeMap;
use text_buffer::Text;

/// Regions that are alike so far.
#[derive(Drop)]
pub(crate) struct Group {
    /// The numbers of the regions.
    pub(crate) numbers: Vec<usize>,
    // By what the names of their devices count up.
    names: Steps,
    // By how much what is added to the first byte counts up.
    step: Option<u64>,
}

// A term and the number that is added to it, where a bound is their sum.
fn split_sum<'t>(bound: &Bound<'t>) -> Option<(&'t Term, u64)> {
    let Bound::Read(term) = *bound else {
        return None;
    };
    let Term::Op(Op::Add, operands) = term else {
        return None;
    };
    match operands.as_slice() {
        [
            Operand::Term(base),
            Operand::Term(number),
            Operand::Term(Term::NoTarget),
        ] => Some((base, Value::of_term(number).number()?)),
        _ => None,
    }
}

/// The number that is added to a term, where a bound is their sum.
pub(crate) fn addend(bound: &Bound<'_>) -> Option<u64> {
    split_sum(bound).map(|sum| sum.1)
}

// Puts what gives the first byte of a region, without the number that is added to it.
fn put_base(key: &mut Text, bound: &Bound<'_>) -> Result<(), AllocError> {
    match split_sum(bound) {
        Some((base, _)) => {
            put_expression(key, base)?;
            key.put(" +");
            Ok(())
        }
        None => put_bound(key, bound),
    }
}

// A key that regions of devices have in common where they may stand in one row, and so do those that methods of one device
// declare.
fn key_of(
    alloc: Global,
    facts: &MachineFacts<'_, '_>,
    region: &RegionFact<'_, '_>,
) -> Result<Vec<u8>, AllocError> {
    let mut key = Text::new(alloc);
    put_decimal(&mut key, u64::from(region.space));
    key.put(" ");
    if region.is_local {
        put_bound(&mut key, &region.offset)?;
    } else {
        put_base(&mut key, &region.offset)?;
    }
    key.put(" ");
    put_bound(&mut key, &region.length)?;
    key.put(" ");
    put_last(&mut key, region.path);
    key.put(" ");
    if region.is_local {
        let mut device = region.object.path.copy()?;
        device.pop();
        put_trimmed_path(&mut key, &device);
    } else {
        put_decimal(&mut key, region.units as u64);
        put_rest(&mut key, facts, region);
    }
    key.into_bytes()
}

// The name of the device around a region.
fn device_name(alloc: Global, path: &Path) -> Result<Vec<u8>, AllocError> {
    let mut device = path.copy()?;
    device.pop();
    last_name(alloc, &device)
}

// By how much what is added to the first byte of a region is more than that of another; 0 where nothing is added.
fn step_of(one: &RegionFact<'_, '_>, next: &RegionFact<'_, '_>) -> Option<u64> {
    match (addend(&one.offset), addend(&next.offset)) {
        (Some(from), Some(to)) => to.checked_sub(from),
        _ => Some(0),
    }
}

impl Group {
    // Puts a region behind the others, if it goes on as these do; whether it does.
    fn put(
        &mut self,
        facts: &MachineFacts<'_, '_>,
        region: &RegionFact<'_, '_>,
        number: usize,
    ) -> Result<bool, AllocError> {
        let Some(last) = self.numbers.last().and_then(|n| facts.regions.get(*n)) else {
            return Ok(false);
        };
        if !region.is_local {
            let alloc = facts.machine.alloc;
            let before = device_name(alloc, last.path)?;
            let names = self
                .names
                .onward(&before, &device_name(alloc, region.path)?);
            let (Some(names), Some(step)) = (names, step_of(last, region)) else {
                return Ok(false);
            };
            if self.step.unwrap_or(step) != step {
                return Ok(false);
            }
            self.names = names;
            self.step = Some(step);
        }
        self.numbers.push(number)?;
        Ok(true)
    }
}

/// The regions, those that are alike together, or each for itself.
pub(crate) fn groups_of(
    facts: &MachineFacts<'_, '_>,
    is_whole: bool,
) -> Result<Vec<Group>, AllocError> {
    let alloc = facts.machine.alloc;
    let mut groups: Vec<Group> = Vec::new(alloc);
    let mut latest: BTreeMap<Vec<u8>, usize> = BTreeMap::new(alloc);
    for (number, region) in facts.regions.iter().enumerate() {
        if !is_whole {
            let key = key_of(alloc, facts, region)?;
            let place = latest.get(key.as_slice()).copied();
            if let Some(group) = place.and_then(|p| groups.get_mut(p)) {
                if group.put(facts, region, number)? {
                    continue;
                }
            }
            latest.insert(key, groups.len())?;
        }
        let mut numbers = Vec::new(alloc);
        numbers.push(number)?;
        groups.push(Group {
            numbers,
            names: Steps::ANY,
            step: None,
        })?;
    }
    Ok(groups)
}

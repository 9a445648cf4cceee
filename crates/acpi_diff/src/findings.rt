//! What checks find in one version alone.

use acpi_check_machine::{CheckId, Finding, Level};
use acpi_moves::Moves;
use acpi_name::Path;
use std::alloc::{AllocError, Global};
use std::collections::BTreeMap;

/// A finding that only one version has.
#[derive(Debug, Clone, Copy)]
pub struct FindingChange<'f> {
    /// Whether it is the new version.
    pub is_new: bool,
    /// The finding.
    pub finding: &'f Finding,
}

/// A name that nothing declares and that methods use.
#[derive(Debug, Drop)]
pub struct LostName {
    /// The name, as it is spelled.
    pub name: Vec<u8>,
    /// How many methods of the old version use it.
    pub old: usize,
    /// How many methods of the new version use it.
    pub new: usize,
}

// A finding apart from where it stands: its check, its path in the new version, and its text.
type Key<'f> = (CheckId, Path, &'f [u8]);

/// The findings of both versions while they are counted.
#[derive(Drop)]
struct Counting<'f> {
    alloc: Global,
    findings: BTreeMap<Key<'f>, (Vec<&'f Finding>, Vec<&'f Finding>)>,
    names: BTreeMap<&'f [u8], (usize, usize)>,
}

// The name that a finding tells to be declared nowhere: the first word of its text.
fn lost_name(finding: &Finding) -> &[u8] {
    let end = finding.text.iter().position(|b| *b == b' ');
    match end {
        Some(end) => finding.text.get(..end).unwrap_or(&finding.text),
        None => &finding.text,
    }
}

impl<'f> Counting<'f> {
    fn put_name(&mut self, name: &'f [u8], is_new: bool) -> Result<(), AllocError> {
        let (old, new) = self.names.get(&name).copied().unwrap_or((0, 0));
        let counts = if is_new {
            (old, new.saturating_add(1))
        } else {
            (old.saturating_add(1), new)
        };
        self.names.insert(name, counts)?;
        Ok(())
    }

    fn put(&mut self, key: Key<'f>, finding: &'f Finding, is_new: bool) -> Result<(), AllocError> {
        if self.findings.get(&key).is_none() {
            let none = (Vec::new(self.alloc), Vec::new(self.alloc));
            self.findings.insert((key.0, key.1.copy()?, key.2), none)?;
        }
        if let Some(lists) = self.findings.get_mut(&key) {
            if is_new {
                lists.1.push(finding)?;
            } else {
                lists.0.push(finding)?;
            }
        }
        Ok(())
    }

    fn put_all(
        &mut self,
        findings: &'f [Finding],
        moves: &Moves,
        is_new: bool,
    ) -> Result<(), AllocError> {
        for finding in findings {
            match (finding.id, finding.id.level()) {
                (CheckId::NoName, _) => self.put_name(lost_name(finding), is_new)?,
                (_, Level::Remark) => {}
                _ => {
                    let path = moves.new_path(&finding.path)?;
                    self.put((finding.id, path, &finding.text), finding, is_new)?
                }
            }
        }
        Ok(())
    }
}

/// The errors and warnings that only one version has, but for names that nothing declares: each of these that more methods, or
/// fewer, use.
pub(crate) fn finding_changes<'f>(
    alloc: Global,
    old: (&'f [Finding], &Moves),
    new: (&'f [Finding], &Moves),
) -> Result<(Vec<FindingChange<'f>>, Vec<LostName>), AllocError> {
    let mut counting = Counting {
        alloc,
        findings: BTreeMap::new(alloc),
        names: BTreeMap::new(alloc),
    };
    counting.put_all(old.0, old.1, false)?;
    counting.put_all(new.0, new.1, true)?;
    let mut changes = Vec::new(alloc);
    for (_, (in_old, in_new)) in counting.findings.iter() {
        for finding in in_old.iter().skip(in_new.len()) {
            changes.push(FindingChange {
                is_new: false,
                finding: *finding,
            })?;
        }
        for finding in in_new.iter().skip(in_old.len()) {
            changes.push(FindingChange {
                is_new: true,
                finding: *finding,
            })?;
        }
    }
    let mut names = Vec::new(alloc);
    for (name, (in_old, in_new)) in counting.names.iter() {
        if *in_old != *in_new {
            names.push(LostName {
                name: Vec::from_slice(alloc, *name)?,
                old: *in_old,
                new: *in_new,
            })?;
        }
    }
    Ok((changes, names))
}

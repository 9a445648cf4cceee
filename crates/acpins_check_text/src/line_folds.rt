//! Findings that stand on one line.
//!
//! Findings of one check and one text whose paths differ in one segment alone, the same for all, stand on the line of the first
//! of them. The paths that differ in that segment alone are a family. Of findings with one path only the first that stands on
//! no line yet is in the families of its path.
//!
//! Only a segment at which a path differs first from another one of its length can be the one that a family leaves out: of deep
//! paths there are few.

use acpi_check_machine::{CheckId, Finding};
use acpi_name::Seg;
use std::alloc::{AllocError, Global};
use std::collections::{BTreeMap, BTreeSet};

// A finding: its check, its text, the length of its path in segments, the path, and its number.
type Row<'f> = (CheckId, &'f [u8], usize, &'f [Seg], usize);

// A family: the check and the text of its findings, and the segments before and behind the one that is left out.
type Family<'f> = (CheckId, &'f [u8], &'f [Seg], &'f [Seg]);

// A finding among others.
#[derive(Drop)]
struct Member {
    // The families of its path, by their numbers.
    families: Vec<usize>,
    // The next finding of its check, text and path.
    next: Option<usize>,
    // Whether it stands on a line.
    has_line: bool,
}

// The findings of which some stand on no line yet.
#[derive(Drop)]
struct Folding {
    alloc: Global,
    members: Vec<Member>,
    // By family, the first finding of each path that stands on no line yet.
    waiting: BTreeSet<(usize, usize)>,
}

impl Folding {
    fn enter(&mut self, number: usize) -> Result<(), AllocError> {
        if let Some(member) = self.members.get(number) {
            for family in &member.families {
                self.waiting.insert((*family, number))?;
            }
        }
        Ok(())
    }

    // The first finding of each path stands on no line yet; the last one stands first in the list.
    fn enter_rows(&mut self, rows: &[Row<'_>]) -> Result<(), AllocError> {
        let mut behind: Option<usize> = None;
        for (place, row) in rows.iter().enumerate() {
            if let Some(member) = self.members.get_mut(row.4) {
                member.next = behind;
            }
            let before = rows.get(place.saturating_add(1));
            behind = match before.and_then(|b| alike(b, row)) {
                Some(count) if count >= row.2 => Some(row.4),
                _ => {
                    self.enter(row.4)?;
                    None
                }
            };
        }
        Ok(())
    }

    // The finding stands on a line now.
    fn place(&mut self, number: usize) {
        if let Some(member) = self.members.get_mut(number) {
            member.has_line = true;
            for family in &member.families {
                self.waiting.remove(&(*family, number));
            }
        }
    }

    // The first finding of a family that stands on no line yet.
    fn first_of(&self, family: usize) -> Option<usize> {
        match self.waiting.range((family, 0)..).next() {
            Some((other, number)) if *other == family => Some(*number),
            _ => None,
        }
    }

    // The family of a finding that has the first such finding.
    fn family_of(&self, number: usize) -> Option<usize> {
        let member = self.members.get(number)?;
        let mut first: Option<(usize, usize)> = None;
        for family in &member.families {
            if let Some(other) = self.first_of(*family) {
                match first {
                    Some((least, _)) if least <= other => {}
                    _ => first = Some((other, *family)),
                }
            }
        }
        first.map(|found| found.1)
    }

    // Puts all such findings of a family on a line.
    fn place_all(&mut self, line: &mut Vec<usize>, family: usize) -> Result<(), AllocError> {
        for _ in 0..self.members.len() {
            let Some(other) = self.first_of(family) else {
                return Ok(());
            };
            self.place(other);
            line.push(other)?;
        }
        Ok(())
    }

    // The next findings of the paths on a line stand on none yet.
    fn enter_next(&mut self, line: &[usize]) -> Result<(), AllocError> {
        for number in line {
            let next = self.members.get(*number).and_then(|m| m.next);
            if let Some(next) = next {
                self.enter(next)?;
            }
        }
        Ok(())
    }

    // The line that begins with a finding.
    fn line_of(&mut self, number: usize) -> Result<Vec<usize>, AllocError> {
        let mut line = Vec::new(self.alloc);
        line.push(number)?;
        self.place(number);
        if let Some(family) = self.family_of(number) {
            self.place_all(&mut line, family)?;
        }
        self.enter_next(&line)?;
        Ok(line)
    }
}

// How many segments two findings have alike at the front of their paths; nothing where their check, text or length is another.
fn alike(one: &Row<'_>, other: &Row<'_>) -> Option<usize> {
    if (one.0, one.1, one.2) != (other.0, other.1, other.2) {
        return None;
    }
    let both = one.3.iter().zip(other.3.iter());
    Some(both.take_while(|(a, b)| *a == *b).count())
}

// The families while findings are put into them.
#[derive(Drop)]
struct Families<'f> {
    alloc: Global,
    numbers: BTreeMap<Family<'f>, usize>,
    members: Vec<Member>,
}

impl<'f> Families<'f> {
    fn number(&mut self, family: Family<'f>) -> Result<usize, AllocError> {
        if let Some(number) = self.numbers.get(&family) {
            return Ok(*number);
        }
        let number = self.numbers.len();
        self.numbers.insert(family, number)?;
        Ok(number)
    }

    // Puts a finding into the families that leave out one of these segments.
    fn put(&mut self, row: &Row<'f>, forks: &[usize]) -> Result<(), AllocError> {
        let (id, text, length, path, number) = *row;
        for fork in forks {
            let (before, rest) = path.split_at((*fork).min(length).min(path.len()));
            let [_, behind @ ..] = rest else {
                continue;
            };
            let family = self.number((id, text, before, behind))?;
            if let Some(member) = self.members.get_mut(number) {
                if !member.families.contains(&family) {
                    member.families.push(family)?;
                }
            }
        }
        Ok(())
    }

    // Puts each finding into the families that leave out a segment at which its path differs first from one before it.
    fn put_rows(&mut self, rows: &[Row<'f>]) -> Result<(), AllocError> {
        let mut forks: Vec<usize> = Vec::new(self.alloc);
        let mut last: Option<Row<'f>> = None;
        for row in rows {
            let count = last.and_then(|l| alike(&l, row));
            match count {
                None => forks.clear(),
                Some(count) if count < row.2 => {
                    let kept = forks.iter().take_while(|f| **f < count).count();
                    forks.truncate(kept);
                    forks.push(count)?;
                }
                Some(_) => {}
            }
            self.put(row, &forks)?;
            last = Some(*row);
        }
        Ok(())
    }
}

// Findings by check, text, length of path, path, and number.
fn rows_of<'f>(alloc: Global, findings: &[&'f Finding]) -> Result<Vec<Row<'f>>, AllocError> {
    let mut rows = Vec::new(alloc);
    for (number, finding) in findings.iter().enumerate() {
        let path = finding.path.segs();
        rows.push((
            finding.id,
            finding.text.as_slice(),
            path.len(),
            path,
            number,
        ))?;
    }
    rows.sort()?;
    Ok(rows)
}

// Findings of which none stands on a line.
fn folding_of(alloc: Global, findings: &[&Finding]) -> Result<Folding, AllocError> {
    let mut families = Families {
        alloc,
        numbers: BTreeMap::new(alloc),
        members: Vec::new(alloc),
    };
    for _ in findings {
        families.members.push(Member {
            families: Vec::new(alloc),
            next: None,
            has_line: false,
        })?;
    }
    let mut rows = rows_of(alloc, findings)?;
    families.put_rows(&rows)?;
    rows.reverse();
    families.put_rows(&rows)?;
    let mut folding = Folding {
        alloc,
        members: families.members,
        waiting: BTreeSet::new(alloc),
    };
    folding.enter_rows(&rows)?;
    Ok(folding)
}

/// The lines of findings: each by its findings, from the first on. Findings of one check and text whose paths differ from that
/// of the first in one segment, the same for all, stand on its line, each path once.
pub fn folds(alloc: Global, findings: &[&Finding]) -> Result<Vec<Vec<usize>>, AllocError> {
    let mut folding = folding_of(alloc, findings)?;
    let mut lines = Vec::new(alloc);
    for number in 0..findings.len() {
        let has_line = folding.members.get(number).map_or(true, |m| m.has_line);
        if !has_line {
            lines.push(folding.line_of(number)?)?;
        }
    }
    Ok(lines)
}

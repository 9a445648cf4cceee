//! Which lines of two bodies are the same.

use std::alloc::{AllocError, Global};
use std::collections::BTreeMap;

/// How often a range of lines is cut at lines that stand in it once.
const MOST_CUTS: usize = 32;

/// Lines of two bodies, from a first one to the one behind the last one.
#[derive(Debug, Clone, Copy)]
struct Ranges {
    old: (usize, usize),
    new: (usize, usize),
    cuts: usize,
}

/// Where a line stands in the old lines and in the new ones, and whether it does so once in each.
#[derive(Debug, Clone, Copy)]
struct Standing {
    old: usize,
    new: usize,
    old_count: usize,
    new_count: usize,
}

/// The lines of two bodies, each by a number that equal lines have, while they are matched.
#[derive(Drop)]
struct Matching<'l> {
    alloc: Global,
    old: &'l [usize],
    new: &'l [usize],
    found: Vec<(usize, usize)>,
    open: Vec<Ranges>,
}

impl<'l> Matching<'l> {
    // Whether there are two such lines, and they are equal.
    fn is_match(&self, old: usize, new: usize) -> bool {
        match (self.old.get(old), self.new.get(new)) {
            (Some(one), Some(other)) => one == other,
            _ => false,
        }
    }

    // Matches the equal lines at the beginning and at the end of ranges, and answers what is left between them.
    fn trim(&mut self, ranges: Ranges) -> Result<Ranges, AllocError> {
        let mut left = ranges;
        for _ in ranges.old.0..ranges.old.1 {
            let is_left = left.old.0 < left.old.1 && left.new.0 < left.new.1;
            if !is_left || !self.is_match(left.old.0, left.new.0) {
                break;
            }
            self.found.push((left.old.0, left.new.0))?;
            left.old.0 = left.old.0.saturating_add(1);
            left.new.0 = left.new.0.saturating_add(1);
        }
        for _ in left.old.0..left.old.1 {
            let (old, new) = (left.old.1.saturating_sub(1), left.new.1.saturating_sub(1));
            let is_left = left.old.0 < left.old.1 && left.new.0 < left.new.1;
            if !is_left || !self.is_match(old, new) {
                break;
            }
            self.found.push((old, new))?;
            left.old.1 = old;
            left.new.1 = new;
        }
        Ok(left)
    }

    // The lines of ranges that stand once in each, by their place in the old lines.
    fn singles(&self, ranges: Ranges) -> Result<Vec<(usize, usize)>, AllocError> {
        let mut standing: BTreeMap<usize, Standing> = BTreeMap::new(self.alloc);
        for place in ranges.old.0..ranges.old.1 {
            if let Some(line) = self.old.get(place) {
                count_old(&mut standing, *line, place)?;
            }
        }
        for place in ranges.new.0..ranges.new.1 {
            if let Some(found) = self.new.get(place).and_then(|line| standing.get_mut(line)) {
                found.new = place;
                found.new_count = found.new_count.saturating_add(1);
            }
        }
        let mut singles = Vec::new(self.alloc);
        for (_, found) in standing.iter() {
            if found.old_count == 1 && found.new_count == 1 {
                singles.push((found.old, found.new))?;
            }
        }
        singles.sort_unstable();
        Ok(singles)
    }

    // Comes to ranges: matches what is equal at their ends and the lines that stand once in each, and leaves open what stands
    // between these.
    fn next(&mut self, ranges: Ranges) -> Result<(), AllocError> {
        let left = self.trim(ranges)?;
        if left.cuts >= MOST_CUTS {
            return Ok(());
        }
        let anchors = ascending(self.alloc, &self.singles(left)?)?;
        if anchors.is_empty() {
            return Ok(());
        }
        let cuts = left.cuts.saturating_add(1);
        let mut from = (left.old.0, left.new.0);
        for (old, new) in &anchors {
            self.found.push((*old, *new))?;
            self.open.push(Ranges {
                old: (from.0, *old),
                new: (from.1, *new),
                cuts,
            })?;
            from = (old.saturating_add(1), new.saturating_add(1));
        }
        self.open.push(Ranges {
            old: (from.0, left.old.1),
            new: (from.1, left.new.1),
            cuts,
        })?;
        Ok(())
    }
}

fn count_old(
    standing: &mut BTreeMap<usize, Standing>,
    line: usize,
    place: usize,
) -> Result<(), AllocError> {
    if let Some(found) = standing.get_mut(&line) {
        found.old_count = found.old_count.saturating_add(1);
        return Ok(());
    }
    standing.insert(
        line,
        Standing {
            old: place,
            new: 0,
            old_count: 1,
            new_count: 0,
        },
    )?;
    Ok(())
}

// Of pairs in the order of their first numbers the longest list whose second numbers ascend.
fn ascending(alloc: Global, pairs: &[(usize, usize)]) -> Result<Vec<(usize, usize)>, AllocError> {
    // By the length of a list less one: the pair that ends it with the least second number. Of each pair: that before it.
    let mut ends: Vec<usize> = Vec::new(alloc);
    let mut before: Vec<Option<usize>> = Vec::new(alloc);
    for number in 0..pairs.len() {
        let second = pairs[number].1;
        let place = ends.partition_point(|e| pairs.get(*e).map_or(false, |p| p.1 < second));
        before.push(place.checked_sub(1).and_then(|p| ends.get(p).copied()))?;
        match ends.get_mut(place) {
            Some(end) => *end = number,
            None => ends.push(number)?,
        }
    }
    let mut list = Vec::new(alloc);
    let mut next = ends.last().copied();
    for _ in 0..pairs.len() {
        let Some(number) = next else {
            break;
        };
        if let Some(pair) = pairs.get(number) {
            list.push(*pair)?;
        }
        next = before.get(number).copied().flatten();
    }
    list.reverse();
    Ok(list)
}

/// The lines of two bodies that are the same, each by its place in the old ones and in the new ones, in order. The lines are
/// given by numbers that equal lines have.
pub(crate) fn match_lines<'l>(
    alloc: Global,
    old: &'l [usize],
    new: &'l [usize],
) -> Result<Vec<(usize, usize)>, AllocError> {
    let mut matching = Matching {
        alloc,
        old,
        new,
        found: Vec::new(alloc),
        open: Vec::new(alloc),
    };
    matching.open.push(Ranges {
        old: (0, old.len()),
        new: (0, new.len()),
        cuts: 0,
    })?;
    for _ in 0..u64::MAX {
        let Some(ranges) = matching.open.pop() else {
            break;
        };
        matching.next(ranges)?;
    }
    let mut found = matching.found;
    found.sort_unstable();
    Ok(found)
}

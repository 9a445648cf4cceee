//! Which lines control can come to.

use crate::graph::{Graph, Way, Ways};
use std::alloc::{AllocError, Global};

/// Lines that control can come to from others.
#[derive(Debug, Drop)]
pub(crate) struct Reached {
    is_reached: Vec<bool>,
    waiting: Vec<usize>,
}

fn falses(alloc: Global, count: usize) -> Result<Vec<bool>, AllocError> {
    let mut marks = Vec::with_capacity(alloc, count)?;
    for _ in 0..count {
        marks.push(false)?;
    }
    Ok(marks)
}

impl Reached {
    /// None yet.
    pub(crate) fn new(alloc: Global, graph: &Graph) -> Result<Reached, AllocError> {
        Ok(Reached {
            is_reached: falses(alloc, graph.len())?,
            waiting: Vec::new(alloc),
        })
    }

    /// Whether control can come to the line.
    pub(crate) fn contains(&self, line: usize) -> bool {
        self.is_reached.get(line).copied().unwrap_or(false)
    }

    /// Control comes to where a way leads.
    pub(crate) fn take(&mut self, way: Way) -> Result<(), AllocError> {
        let Some(line) = way.to else {
            return Ok(());
        };
        match self.is_reached.get_mut(line) {
            Some(mark) if !*mark => *mark = true,
            _ => return Ok(()),
        }
        self.waiting.push(line)?;
        Ok(())
    }

    /// Control takes all ways from a line.
    pub(crate) fn take_all(&mut self, ways: Ways) -> Result<(), AllocError> {
        if let Some(way) = ways.first {
            self.take(way)?;
        }
        if let Some(way) = ways.second {
            self.take(way)?;
        }
        Ok(())
    }

    /// A line that control has come to, and has not gone on from.
    pub(crate) fn next(&mut self) -> Option<usize> {
        self.waiting.pop()
    }
}

/// The lines that control can come to from one of these, themselves only where it comes back to them.
pub(crate) fn lines_after(
    alloc: Global,
    graph: &Graph,
    lines: &[usize],
) -> Result<Reached, AllocError> {
    let mut reached = Reached::new(alloc, graph)?;
    for line in lines {
        reached.take_all(graph.ways(*line))?;
    }
    for _ in 0..graph.len() {
        let Some(line) = reached.next() else {
            return Ok(reached);
        };
        reached.take_all(graph.ways(line))?;
    }
    Ok(reached)
}

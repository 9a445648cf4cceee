//! Lines that control can come back to.

use crate::graph::{Graph, Way};
use std::alloc::{AllocError, Global};

/// For each line the least that control can come to from it, without a second round of a While. It can come back to the line
/// where that is the line itself, or one before it, which is then that of a While around.
#[derive(Debug, Drop)]
pub(crate) struct Rounds {
    least: Vec<usize>,
}

impl Rounds {
    // The least line that a way from a line leads to, if the lines behind it are known.
    fn least_by(&self, line: usize, way: Option<Way>) -> usize {
        let Some(to) = way.and_then(|w| w.to) else {
            return usize::MAX;
        };
        if to <= line {
            return to;
        }
        to.min(self.least_behind(to))
    }

    fn least_behind(&self, line: usize) -> usize {
        self.least.get(line).copied().unwrap_or(usize::MAX)
    }

    /// Those of a body.
    pub(crate) fn new(alloc: Global, graph: &Graph) -> Result<Rounds, AllocError> {
        let mut least = Vec::with_capacity(alloc, graph.len())?;
        for _ in 0..graph.len() {
            least.push(usize::MAX)?;
        }
        let mut rounds = Rounds { least };
        for line in (0..graph.len()).rev() {
            let ways = graph.ways(line);
            let first = rounds.least_by(line, ways.first);
            let second = rounds.least_by(line, ways.second);
            if let Some(place) = rounds.least.get_mut(line) {
                *place = first.min(second);
            }
        }
        Ok(rounds)
    }

    /// Whether control comes back to a line that it can come to.
    pub(crate) fn contains(&self, line: usize) -> bool {
        self.least_behind(line) <= line
    }
}

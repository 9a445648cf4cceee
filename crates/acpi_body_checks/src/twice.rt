//! Terms in bodies that declare a path again.

use crate::graph::Graph;
use crate::reach::{Reached, lines_after};
use crate::rounds::Rounds;
use crate::visits::Visits;
use acpi_check_machine::{Body, CheckId, Finding, Machine, put_finding};
use acpi_name::Path;
use std::alloc::{AllocError, Global};
use text_buffer::Text;

// A body, with what is known of the ways through it.
#[derive(Drop)]
struct Declaring<'b, 'a> {
    alloc: Global,
    body: &'b Body<'a>,
    graph: Graph,
    live: Reached,
    rounds: Rounds,
}

fn text_of(alloc: Global, path: &Path, words: &str) -> Text {
    let mut text = Text::new(alloc);
    text.put("declares ");
    if let Some(segment) = path.segs().last() {
        text.put_all(&segment.bytes());
    }
    text.put(words);
    text
}

impl<'b, 'a> Declaring<'b, 'a> {
    fn new(alloc: Global, body: &'b Body<'a>) -> Result<Declaring<'b, 'a>, AllocError> {
        let graph = Graph::new(alloc, body.terms)?;
        Ok(Declaring {
            alloc,
            body,
            live: lines_after(alloc, &graph, &[0])?,
            rounds: Rounds::new(alloc, &graph)?,
            graph,
        })
    }

    // The lines of the body that declare something and that control can come to, by the paths.
    fn declared(&self) -> Result<Vec<(&'b Path, usize)>, AllocError> {
        let mut declared = Vec::new(self.alloc);
        for local in &self.body.locals {
            if self.live.contains(local.line) {
                declared.push((&local.path, local.line))?;
            }
        }
        declared.sort()?;
        declared.dedup();
        Ok(declared)
    }

    // The least line that declares a path behind another that does, where control doesn't come back to it.
    fn second(&self, declared: &[(&Path, usize)]) -> Result<Option<usize>, AllocError> {
        let mut lines = Vec::new(self.alloc);
        for (_, line) in declared {
            lines.push(*line)?;
        }
        let after = lines_after(self.alloc, &self.graph, &lines)?;
        let second = lines
            .iter()
            .find(|l| after.contains(**l) && !self.rounds.contains(**l));
        Ok(second.copied())
    }

    // Puts what is said of the lines that declare one path.
    fn check_path(
        &self,
        visits: &mut Visits,
        declared: &[(&Path, usize)],
        found: &mut Vec<Finding>,
    ) -> Result<(), AllocError> {
        for (path, line) in declared {
            if self.rounds.contains(*line) {
                let words = " in each round (the second aborts: AE_ALREADY_EXISTS)";
                let text = text_of(self.alloc, path, words);
                put_finding(found, CheckId::Twice, &self.body.object, Some(*line), text)?;
            }
        }
        let [(path, _), _, ..] = declared else {
            return Ok(());
        };
        if !visits.take(self.graph.len()) {
            return Ok(());
        }
        if let Some(line) = self.second(declared)? {
            let words = " twice on one way (aborts: AE_ALREADY_EXISTS)";
            let text = text_of(self.alloc, path, words);
            put_finding(found, CheckId::Twice, &self.body.object, Some(line), text)?;
        }
        Ok(())
    }
}

/// Terms in bodies that control can come to again, and paths that one term declares behind another (ACPI 6.5, 5.5.2.3).
pub(crate) fn twice(machine: &Machine<'_>, found: &mut Vec<Finding>) -> Result<(), AllocError> {
    let mut visits = Visits::new();
    for body in &machine.bodies {
        if !body.locals.is_empty() {
            let declaring = Declaring::new(machine.alloc, body)?;
            let declared = declaring.declared()?;
            for of_path in declared.chunk_by(|a, b| a.0 == b.0) {
                declaring.check_path(&mut visits, of_path, found)?;
            }
        }
    }
    Ok(())
}

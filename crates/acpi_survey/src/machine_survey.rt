//! What a survey keeps of the tables that it reads.

ghost use Rattle.std.specs.Prelude.{◌≡◌, [], map, slice_get, IfOk};
ghost use Rattle.std.specs.Option.{option_map};
ghost use Rattle.acpi_conditions.specs.EntryForms.{entry_view, refusal_of};
ghost use Rattle.acpi_survey.specs.SourceViews.{source_of, unknown_of};
ghost use Rattle.acpi_pieces.specs.Tables.{code_read};
ghost use Rattle.acpi_survey.specs.Surveys.{lies_below, numbers_at, numbers_below, without_way};

use crate::reading::Reading;
use crate::remarks::{AliasSource, OpenedScope, Unknown};
use acpi_code::Depth;
use acpi_conditions::{Entries, Entry, Met, Refusal};
use acpi_counts::Counts;
use acpi_name::Path;
use acpi_outline::Nodes;
use acpi_pieces::TableContent;
use bytes::Bytes;
use std::alloc::{AllocError, Global};

/// A table, and what is read of it.
#[derive(Drop)]
pub struct SurveyedTable {
    /// Its bytes, and those behind it.
    pub bytes: Bytes,
    /// What of them is read.
    pub judged: TableContent,
    /// The nodes of its code.
    pub nodes: Nodes,
    /// What its Externals say.
    pub expected: Counts,
}

/// The survey of tables.
#[derive(Drop)]
pub struct Survey {
    /// The tables, in the order of their numbers.
    pub tables: Vec<SurveyedTable>,
    /// The greatest level that a term may have.
    pub depth: Depth,
    /// What is known behind them.
    pub(crate) reading: Reading,
}

// Whether a path begins with the segments of another, and has more.
fn lies_below(above: &Path, path: &Path) -> bool
    ensures { result ≡ lies_below above.now path.now }
{
    above.len() < path.len() && path.segs().starts_with(above.segs())
}

// The numbers of the entries below a path.
fn numbers_below(alloc: Global, path: &Path, entries: &[Entry]) -> Result<Vec<usize>, AllocError>
    ensures { IfOk result (λ v. v.items
        ≡ numbers_below path.now 0 (map (entry_view []) entries.now)) }
{
    let mut found = Vec::new(alloc);
    'each: for number in 0..entries.len() {
        if lies_below(path, &entries[number].path) {
            found.push(number)?;
        }
    }
    Ok(found)
}

impl SurveyedTable {
    /// Its code, of which nothing is read where the table isn't.
    pub fn code(&self) -> &[u8]
        ensures { result.now ≡ code_read self.now.judged }
    {
        self.judged.code()
    }
}

impl Survey {
    /// The nodes of the table of that number.
    pub fn nodes(&self, table: usize) -> Option<&Nodes>
        ensures { option_map (λ n. n.now) result
            ≡ option_map (λ t. t.nodes) (slice_get self.now.tables.items table) }
    {
        let table = self.tables.get(table)?;
        Some(&table.nodes)
    }

    /// What the tables and the predefined objects may declare: the entries, by path, and their ways.
    pub fn entries(&self) -> Entries<'_>
        ensures { map (entry_view result.ways.now) result.paths.now.entries
            ≡ self.now.reading.walk.entries }
    {
        self.reading.entries()
    }

    /// The entry of that number, from 0. Its way is one of those that `entries` gives.
    pub fn entry(&self, number: usize) -> Option<&Entry>
        ensures { option_map (λ e. without_way (entry_view [] e.now)) result
            ≡ option_map without_way (slice_get self.now.reading.walk.entries number) }
    {
        self.reading.entries().paths.entries().get(number)
    }

    /// The terms and Scopes that are refused.
    pub fn refused(&self) -> &[Refusal]
        ensures { map refusal_of result.now ≡ self.now.reading.walk.refused }
    {
        self.reading.refused()
    }

    /// The Scopes that are entered, in the order of their places.
    pub fn opened(&self) -> &[OpenedScope]
        ensures { map (λ o. (o.place, o.path)) result.now ≡ self.now.reading.opened }
    {
        self.reading.remarks().opened()
    }

    /// The nodes with names of which nothing is known, in the order of their places.
    pub fn unknown(&self) -> &[Unknown]
        ensures { map unknown_of result.now ≡ self.now.reading.unknown }
    {
        self.reading.remarks().unknown()
    }

    /// Where the sources of Aliases may be found, in the order of their places.
    pub fn sources(&self) -> &[AliasSource]
        ensures { map source_of result.now ≡ self.now.reading.sources }
    {
        self.reading.remarks().sources()
    }

    /// Of each entry how many values follow its name, where that is sure.
    pub fn counts(&self) -> &[Option<u8>]
        ensures { result.now ≡ self.now.reading.counts }
    {
        self.reading.counts()
    }

    /// Where memory comes from.
    pub fn memory(&self) -> Global {
        self.reading.memory()
    }

    /// The numbers, from 0 and in order, of the entries at a path.
    pub fn at(&self, path: &Path) -> Result<Vec<usize>, AllocError>
        ensures { IfOk result (λ v. v.items
            ≡ numbers_at path.now self.now.reading.walk.entries) }
    {
        let entries = self.reading.entries();
        let met = Met::new(entries.paths, entries.ways, entries.ways.empty())?;
        met.numbers_at(self.reading.memory(), path)
    }

    /// The numbers, from 0 and in order, of the entries whose path lies below a path, at any depth. Those at the path
    /// are none of them.
    pub fn below(&self, path: &Path) -> Result<Vec<usize>, AllocError>
        ensures { IfOk result (λ v. v.items
            ≡ numbers_below path.now 0 self.now.reading.walk.entries) }
    {
        let entries = self.reading.entries();
        numbers_below(self.reading.memory(), path, entries.paths.entries())
    }
}

//! What is lost, refused and noticed in surveyed tables.

ghost use Rattle.std.specs.Prelude.{◌≡◌, ◌++◌, map, IfOk, OnOk};
ghost use Rattle.acpi_outline.specs.View.{nodes_view};
ghost use Rattle.acpi_findings.specs.Problems.{table_problems};
ghost use Rattle.acpi_findings.specs.Notes.{table_notes};
ghost use Rattle.acpi_findings.specs.ProblemViews.{problem_view};
ghost use Rattle.acpi_findings.specs.Findings.{notes_by, notes_in, problems_by, problems_in};
ghost use Rattle.acpi_findings.specs.FindingsOrder.{AreBySite, note_number};
ghost use Rattle.acpi_ranges.specs.steps.Indexes.{index_entered, index_refusals, index_unknowns};

use crate::notes::{Note, put_notes};
use crate::problems::{Problem, ReadTable, put_problems};
use acpi_ranges::{PlaceIndex, index_of};
use acpi_survey::{Survey, SurveyedTable, place_in};
use std::alloc::{AllocError, Global};

// The site of a note, as one number.
fn note_number(note: &Note) -> u128
    ensures { result ≡ note_number note.now }
{
    place_in(note.site.table, note.site.offset)
}

/// What is found in tables.
#[derive(Drop)]
pub struct Findings {
    problems: Vec<Problem>,
    notes: Vec<Note>,
}

impl Findings {
    /// What is lost or refused in the tables, in the order of the sites.
    pub fn problems(&self) -> &[Problem]
        ensures { result.now ≡ self.now.problems.items }
    {
        &self.problems
    }

    /// What is noticed in the tables and loses nothing, in the order of the sites.
    pub fn notes(&self) -> &[Note]
        ensures { result.now ≡ self.now.notes.items }
    {
        &self.notes
    }

    /// Adds notes, each where its site stands in the order, behind those of the same site.
    pub fn add_notes(&mut self, notes: Vec<Note>) -> Result<(), AllocError>
        ensures problems { self.new.problems ≡ self.old.problems }
        ensures notes { OnOk result
            (AreBySite (self.old.notes.items ++ notes.items) self.new.notes.items) }
    {
        'each: for note in notes {
            self.notes.push(note)?;
        }
        self.notes.sort_by_key(|note| note_number(note))
    }

    // Puts what is found in a table of that number.
    fn put_table<'a>(
        &mut self,
        alloc: Global,
        number: usize,
        table: &'a SurveyedTable,
        index: &PlaceIndex<'a>,
    ) -> Result<(), AllocError>
        ensures problems { OnOk result (map problem_view self.new.problems.items
            ≡ map problem_view self.old.problems.items
            ++ table_problems (index_entered index.now number) (index_refusals index.now)
            number table.now.bytes table.now.judged (nodes_view table.now.nodes)) }
        ensures notes { OnOk result (self.new.notes.items ≡ self.old.notes.items
            ++ table_notes (index_entered index.now number) (index_unknowns index.now) number
            table.now.judged (nodes_view table.now.nodes)) }
    {
        let table = ReadTable {
            number,
            bytes: &table.bytes,
            judged: &table.judged,
            nodes: &table.nodes,
            index,
        };
        put_problems(alloc, &mut self.problems, &table)?;
        put_notes(alloc, &mut self.notes, &table)
    }
}

// What is found in tables, by what the reading of all gave.
fn found_by<'a>(
    alloc: Global,
    tables: &'a [SurveyedTable],
    index: &PlaceIndex<'a>,
) -> Result<Findings, AllocError>
    ensures problems { IfOk result (λ f. map problem_view f.problems.items
        ≡ problems_by (index_entered index.now) (index_refusals index.now) 0 tables.now) }
    ensures notes { IfOk result (λ f. f.notes.items
        ≡ notes_by (index_entered index.now) (index_unknowns index.now) 0 tables.now) }
{
    let mut found = Findings {
        problems: Vec::new(alloc),
        notes: Vec::new(alloc),
    };
    'each: for number in 0..tables.len() {
        found.put_table(alloc, number, &tables[number], index)?;
    }
    Ok(found)
}

/// What is found in the tables of a survey, in the order of the sites.
pub fn found_in(alloc: Global, survey: &Survey) -> Result<Findings, AllocError>
    // What is lost or refused in them is told.
    ensures problems { IfOk result (λ f. map problem_view f.problems.items
        ≡ problems_in survey.now.reading survey.now.tables.items) }
    // What is noticed in them is told.
    ensures notes { IfOk result (λ f. f.notes.items
        ≡ notes_in survey.now.reading survey.now.tables.items) }
{
    let index = index_of(survey)?;
    found_by(alloc, &survey.tables, &index)
}

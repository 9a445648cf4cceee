//! What is noticed of a table that loses nothing.

ghost use Rattle.std.specs.Prelude.{◌≡◌, ◌++◌, ◌∷◌, [], drop, length, Some, None, IfSome, OnOk};
ghost use Rattle.std.specs.List.{flat_map};
ghost use Rattle.acpi_tree.specs.TermView.{term_view};
ghost use Rattle.acpi_outline.specs.Outline.{is_stray};
ghost use Rattle.acpi_outline.specs.View.{fixed_view, node_view, nodes_view, plain_view};
ghost use Rattle.acpi_findings.specs.Marks.{called};
ghost use Rattle.acpi_needs.specs.Needs.{is_among};
ghost use Rattle.acpi_findings.specs.Notes.{all_mark_reasons, else_reasons, fixed_reasons, is_else, mark_reasons, misplaced, node_reasons, note_at, part_reasons, plain_reasons, range_notes, stray_reasons, table_notes, whole_note, whole_notes};
ghost use Rattle.acpi_pieces.specs.Tables.{code_read};
ghost use Rattle.acpi_findings.specs.Problems.{table_ranges};
ghost use Rattle.acpi_ranges.specs.SpanViews.{part_of, range_of, scope_of};
ghost use Rattle.acpi_survey.specs.Survey.{place_in};
ghost use Rattle.acpi_findings.specs.steps.MarkViews.{mark_view, mark_views};
ghost use Rattle.acpi_findings.specs.steps.NoteSiteViews.{notes_at};
ghost use Rattle.acpi_findings.specs.steps.ReadTables.{entered_at, unknowns_of};

use crate::marks::{CalledName, marks_of_fixed, marks_of_plain};
use crate::problems::{ReadTable, scope_copy};
use acpi_name::{Name, Path};
use acpi_needs::is_among;
use acpi_outline::{Fixed, Node, Plain};
use acpi_pieces::TableContent;
use acpi_ranges::{ScopedSpan, Site, SpanContent, bytes_behind, site_at};
use acpi_tree::Term;
use std::alloc::{AllocError, Global};

/// What is noticed of a table that loses nothing.
#[derive(Debug, Drop)]
pub enum NoteReason {
    /// The table's bytes don't sum to 0.
    BadSum,
    /// Table 0 is no DSDT.
    NotDsdt,
    /// A later table is no SSDT.
    NotSsdt,
    /// Nothing is known of a name that is called.
    Unknown(Name),
    /// A term that has no effect where it stands.
    Stray,
    /// An Else that belongs to no If.
    StrayElse,
    /// LoadTable, Load or Unload.
    Loads,
}

/// What is noticed of a table.
#[derive(Debug, Drop)]
pub struct Note {
    /// Where it stands.
    pub site: Site,
    /// What is noticed.
    pub reason: NoteReason,
    /// The scope in which it stands; none of what concerns the table as a whole.
    pub scope: Option<Path>,
}

// ---- the table as a whole

fn of_table(number: usize, reason: NoteReason) -> Note
    ensures { result ≡ whole_note number reason }
{
    Note {
        site: Site {
            table: number,
            offset: 0,
        },
        reason,
        scope: None,
    }
}

fn place_reason(number: usize) -> NoteReason
    ensures { result ≡ misplaced number }
{
    if number == 0 {
        NoteReason::NotDsdt
    } else {
        NoteReason::NotSsdt
    }
}

fn put_whole(found: &mut Vec<Note>, table: &ReadTable<'_, '_>) -> Result<(), AllocError>
    ensures { OnOk result (found.new.items ≡ found.old.items
        ++ whole_notes table.now.number table.now.judged.now) }
{
    if let TableContent::Read {
        has_bad_sum,
        is_out_of_place,
        ..
    } = table.judged
    {
        if *has_bad_sum {
            found.push(of_table(table.number, NoteReason::BadSum))?;
        }
        if *is_out_of_place {
            found.push(of_table(table.number, place_reason(table.number)))?;
        }
    }
    Ok(())
}

// ---- one node

// Whether a term has no effect where a statement stands.
fn is_stray(term: &Term) -> bool
    ensures { result ≡ is_stray (term_view term.now) }
{
    match term {
        Term::Int(_) => true,
        Term::Str(_) => true,
        Term::Local(_) => true,
        Term::Arg(_) => true,
        Term::Debug => true,
        _ => false,
    }
}

// The node in which notes are made: the number of its table, the table's code, its place there, the names in it of which
// nothing is known, and the scope around.
#[derive(Clone, Copy)]
struct NoteSite<'a> {
    number: usize,
    code: &'a [u8],
    place: usize,
    unknown: &'a [Name],
    around: Option<&'a Path>,
}

impl<'a> NoteSite<'a> {
    // Puts a note of what stands at a place of the code.
    fn put(
        self,
        alloc: Global,
        found: &mut Vec<Note>,
        place: usize,
        reason: NoteReason,
    ) -> Result<(), AllocError>
        ensures { OnOk result (found.new.items ≡ found.old.items
            ++ note_at self.entry.number (scope_of self.entry.around) (place, reason) ∷ []) }
    {
        found.push(Note {
            site: site_at(self.number, place),
            reason,
            scope: Some(scope_copy(alloc, self.around)?),
        })?;
        Ok(())
    }

    // Puts the note of a name that stands at a place of the code, if nothing is known of it.
    fn put_name(
        self,
        alloc: Global,
        found: &mut Vec<Note>,
        place: usize,
        name: &Name,
    ) -> Result<(), AllocError>
        ensures { OnOk result (found.new.items ≡ found.old.items
            ++ notes_at self.entry (mark_reasons self.entry.unknown.now (place, called name.now))) }
    {
        if is_among(self.unknown, name) {
            self.put(alloc, found, place, NoteReason::Unknown(name.copy()?))?;
        }
        Ok(())
    }

    // Puts the note of a call or a load, if there is one.
    fn put_mark(
        self,
        alloc: Global,
        found: &mut Vec<Note>,
        mark: &CalledName<'_>,
    ) -> Result<(), AllocError>
        ensures { OnOk result (found.new.items ≡ found.old.items
            ++ notes_at self.entry (mark_reasons self.entry.unknown.now (mark_view mark.now))) }
    {
        match mark.name {
            Some(name) => self.put_name(alloc, found, mark.place, name),
            None => self.put(alloc, found, mark.place, NoteReason::Loads),
        }
    }

    // Puts the notes of calls and loads.
    fn put_marks(
        self,
        alloc: Global,
        found: &mut Vec<Note>,
        marks: &[CalledName<'_>],
    ) -> Result<(), AllocError>
        ensures { OnOk result (found.new.items ≡ found.old.items
            ++ notes_at self.entry
            (all_mark_reasons self.entry.unknown.now (mark_views marks.now))) }
    {
        'each: for mark in marks {
            self.put_mark(alloc, found, mark)?;
        }
        Ok(())
    }

    // Puts that a plain node has no effect, if it has none.
    fn put_stray(
        self,
        alloc: Global,
        found: &mut Vec<Note>,
        plain: &Plain,
    ) -> Result<(), AllocError>
        ensures { OnOk result (found.new.items ≡ found.old.items
            ++ notes_at self.entry (stray_reasons self.entry.place (plain_view plain.now))) }
    {
        match plain {
            Plain::Term(term) => {
                if is_stray(term) {
                    self.put(alloc, found, self.place, NoteReason::Stray)?;
                }
                Ok(())
            }
            Plain::Alias(_, _) => Ok(()),
            Plain::External(_) => Ok(()),
            Plain::TableRegion(_, _, _, _) => Ok(()),
        }
    }

    // The bytes of the code from the node on.
    fn bytes(self) -> &'a [u8]
        ensures { result.now ≡ drop self.entry.place self.entry.code.now }
    {
        bytes_behind(self.code, self.place)
    }

    fn put_plain(
        self,
        alloc: Global,
        found: &mut Vec<Note>,
        plain: &Plain,
    ) -> Result<(), AllocError>
        ensures { OnOk result (found.new.items ≡ found.old.items
            ++ notes_at self.entry (plain_reasons self.entry.unknown.now
            self.entry.code.now self.entry.place (plain_view plain.now))) }
    {
        self.put_stray(alloc, found, plain)?;
        let marks = marks_of_plain(alloc, self.code.len(), plain, self.bytes())?;
        self.put_marks(alloc, found, &marks)
    }

    fn put_fixed(
        self,
        alloc: Global,
        found: &mut Vec<Note>,
        fixed: &Fixed,
    ) -> Result<(), AllocError>
        ensures { OnOk result (found.new.items ≡ found.old.items
            ++ notes_at self.entry (fixed_reasons self.entry.unknown.now
            self.entry.code.now self.entry.place (fixed_view fixed.now))) }
    {
        let marks = marks_of_fixed(alloc, self.code.len(), fixed, self.bytes())?;
        self.put_marks(alloc, found, &marks)
    }

    // Puts the notes of a node, but for what is noticed of an Else.
    fn put_node(self, alloc: Global, found: &mut Vec<Note>, node: &Node) -> Result<(), AllocError>
        ensures { OnOk result (found.new.items ≡ found.old.items
            ++ notes_at self.entry (node_reasons self.entry.unknown.now
            self.entry.code.now self.entry.place (node_view node.now))) }
    {
        match node {
            Node::Plain(plain) => self.put_plain(alloc, found, plain),
            Node::Holds(fixed, _) => self.put_fixed(alloc, found, fixed),
            Node::Fields(fixed, _, _) => self.put_fixed(alloc, found, fixed),
            _ => Ok(()),
        }
    }

    // Puts that an Else belongs to no If.
    fn put_else(
        self,
        alloc: Global,
        found: &mut Vec<Note>,
        node: &Node,
        is_behind_if: bool,
    ) -> Result<(), AllocError>
        ensures { OnOk result (found.new.items ≡ found.old.items
            ++ notes_at self.entry (else_reasons self.entry.place is_behind_if
            (node_view node.now))) }
    {
        if is_else(node) && !is_behind_if {
            self.put(alloc, found, self.place, NoteReason::StrayElse)?;
        }
        Ok(())
    }

    // Puts the notes of what stands in a range.
    fn put_part(
        self,
        alloc: Global,
        found: &mut Vec<Note>,
        range: &ScopedSpan<'_>,
    ) -> Result<(), AllocError>
        ensures { OnOk result (found.new.items ≡ found.old.items
            ++ notes_at self.entry (part_reasons self.entry.unknown.now
            self.entry.code.now self.entry.place range.now.is_behind_if
            (part_of range.now.span.what))) }
    {
        match range.span.what {
            SpanContent::Node(node) => {
                self.put_else(alloc, found, node, range.is_behind_if)?;
                self.put_node(alloc, found, node)
            }
            _ => Ok(()),
        }
    }
}

// Whether a node is an Else.
fn is_else(node: &Node) -> bool
    ensures { result ≡ is_else (node_view node.now) }
{
    match node {
        Node::Holds(Fixed::Else, _) => true,
        _ => false,
    }
}

// ---- all

// Puts the notes of a range.
fn put_of_range(
    alloc: Global,
    found: &mut Vec<Note>,
    table: &ReadTable<'_, '_>,
    range: &ScopedSpan<'_>,
) -> Result<(), AllocError>
    ensures { OnOk result (found.new.items ≡ found.old.items
        ++ range_notes (unknowns_of table.now) (code_read table.now.judged.now)
        table.now.number (range_of range.now)) }
{
    let noted = NoteSite {
        number: table.number,
        code: table.judged.code(),
        place: range.span.from,
        unknown: table.index.unknown_at(table.number, range.span.from),
        around: range.around,
    };
    noted.put_part(alloc, found, range)
}

// Puts the notes of the table's code.
fn put_of_code(
    alloc: Global,
    found: &mut Vec<Note>,
    table: &ReadTable<'_, '_>,
) -> Result<(), AllocError>
    ensures { OnOk result (found.new.items ≡ found.old.items
        ++ flat_map (range_notes (unknowns_of table.now) (code_read table.now.judged.now)
        table.now.number)
        (table_ranges (entered_at table.now) table.now.judged.now
        (nodes_view table.now.nodes.now))) }
{
    let mut ranges = table.ranges(alloc)?;
    while let Some(range) = table.next_range(&mut ranges)? {
        put_of_range(alloc, found, table, &range)?;
    }
    Ok(())
}

/// Puts the notes of a table behind others, in the order of their sites.
pub(crate) fn put_notes(
    alloc: Global,
    found: &mut Vec<Note>,
    table: &ReadTable<'_, '_>,
) -> Result<(), AllocError>
    ensures { OnOk result (found.new.items ≡ found.old.items
        ++ table_notes (entered_at table.now) (unknowns_of table.now) table.now.number
        table.now.judged.now (nodes_view table.now.nodes.now)) }
{
    put_whole(found, table)?;
    put_of_code(alloc, found, table)
}

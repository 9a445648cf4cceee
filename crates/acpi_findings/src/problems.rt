//! What is lost or refused in a table.

ghost use Rattle.std.specs.Prelude.{◌≡◌, ◌+◌, ◌++◌, ◌∷◌, [], drop, length, map, IfOk, OnOk, Some};
ghost use Rattle.std.specs.Option.{option_copied, option_map, option_to_list};
ghost use Rattle.std.specs.List.{flat_map};
ghost use Rattle.acpi_name.specs.NameRefs.{name_parts};
ghost use Rattle.acpi_outline.specs.View.{node_view, nodes_view};
ghost use Rattle.acpi_ranges.specs.LostRanges.{bytes_between, front_kept, name_front, named_front, package_front, range_lost, unsure_name};
ghost use Rattle.acpi_findings.specs.Problems.{front_problems, lost_in, range_problems, refused_in, table_problem, table_problems, table_ranges, trailing_problems, why_lost};
ghost use Rattle.acpi_ranges.specs.Sites.{offset_of, site_at};
ghost use Rattle.acpi_pieces.specs.Tables.{code_read};
ghost use Rattle.acpi_findings.specs.ProblemViews.{problem_view, reason_view};
ghost use Rattle.acpi_ranges.specs.Ranges.{of_node};
ghost use Rattle.acpi_ranges.specs.SpanViews.{part_of, range_of, ranges_left, scope_of, with_first_range};
ghost use Rattle.acpi_findings.specs.steps.ReadTables.{entered_at, refusals_of};

use acpi_conditions::Reason;
use acpi_name::{Name, Path};
use acpi_outline::{LostFault, Node, Nodes};
use acpi_pieces::{TableContent, TableReason};
use acpi_ranges::{
    LostRange, PlaceIndex, ScopedSpan, Site, SpanContent, Spans, bytes_between, range_lost,
    site_at, unsure_name,
};
use bytes::Bytes;
use std::alloc::{AllocError, Global};

/// Why something of a table is lost.
#[derive(Debug, Drop)]
pub enum ProblemReason {
    /// The table isn't read.
    Unread(TableReason),
    /// The table is cut.
    Cut,
    /// Bytes stand behind the table.
    Trailing,
    /// A part of its code can't be read.
    Lost(LostFault),
    /// A term declares nothing, or a Scope isn't entered.
    Refused(Reason),
}

/// What is lost of a table, and why.
#[derive(Debug, Drop)]
pub struct Problem {
    /// Where it stands.
    pub site: Site,
    /// Why it is lost.
    pub reason: ProblemReason,
    /// The name of which it isn't sure how many values follow it, where that is the reason.
    pub name: Option<Name>,
    /// The bytes that are lost, if some are.
    pub lost: Option<LostRange>,
    /// The scope in which it stands; none of what concerns the table as a whole.
    pub scope: Option<Path>,
}

/// A table that is read, and what the reading of all tables gave.
#[derive(Clone, Copy)]
pub(crate) struct ReadTable<'b, 'a> {
    /// Its number, the first being 0.
    pub number: usize,
    /// Its bytes, and those behind it.
    pub bytes: &'a Bytes,
    /// What of its bytes is read.
    pub judged: &'a TableContent,
    /// Its nodes.
    pub nodes: &'a Nodes,
    /// What the reading of all tables gave, by place.
    pub index: &'b PlaceIndex<'a>,
}

impl<'b, 'a> ReadTable<'b, 'a> {
    /// The ranges of its code.
    pub(crate) fn ranges(&self, alloc: Global) -> Result<Spans<'a>, AllocError>
        ensures { IfOk result (λ s. ranges_left (entered_at self.now) s
            ≡ table_ranges (entered_at self.now) self.now.judged.now
            (nodes_view self.now.nodes.now)) }
    {
        Spans::new(alloc, self.nodes, self.judged.code().len())
    }

    /// The next of its ranges.
    pub(crate) fn next_range(
        &self,
        ranges: &mut Spans<'a>,
    ) -> Result<Option<ScopedSpan<'a>>, AllocError>
        ensures { IfOk result (λ range. ranges_left (entered_at self.now) ranges.old
            ≡ with_first_range range (ranges_left (entered_at self.now) ranges.new)) }
    {
        ranges.next_in(self.index, self.number)
    }
}

/// The path of a scope around, or that of the root.
pub(crate) fn scope_copy(alloc: Global, around: Option<&Path>) -> Result<Path, AllocError>
    ensures { IfOk result (λ p. p ≡ scope_of around.entry) }
{
    match around {
        Some(path) => path.copy(),
        None => Ok(Path::root(alloc)),
    }
}

// ---- the table as a whole

fn of_table(number: usize, offset: usize, reason: ProblemReason, lost: Option<LostRange>) -> Problem
    ensures { problem_view result ≡ table_problem number offset (reason_view reason) lost }
{
    Problem {
        site: Site {
            table: number,
            offset,
        },
        reason,
        name: None,
        lost,
        scope: None,
    }
}

fn put_first(found: &mut Vec<Problem>, table: &ReadTable<'_, '_>) -> Result<(), AllocError>
    ensures { OnOk result (map problem_view found.new.items ≡ map problem_view found.old.items
        ++ front_problems table.now.number table.now.bytes.now table.now.judged.now) }
{
    match table.judged {
        TableContent::Unread(reason) => {
            let lost = LostRange {
                from: 0,
                to: table.bytes.len(),
            };
            found.push(of_table(table.number, 0, ProblemReason::Unread(*reason), Some(lost)))?;
        }
        TableContent::Read { is_cut, .. } => {
            if *is_cut {
                found.push(of_table(table.number, 0, ProblemReason::Cut, None))?;
            }
        }
    }
    Ok(())
}

fn put_trailing(found: &mut Vec<Problem>, table: &ReadTable<'_, '_>) -> Result<(), AllocError>
    ensures { OnOk result (map problem_view found.new.items ≡ map problem_view found.old.items
        ++ trailing_problems table.now.number table.now.bytes.now table.now.judged.now) }
{
    if let TableContent::Read { trailing, .. } = table.judged {
        if *trailing > 0 {
            let to = table.bytes.len();
            let from = to.saturating_sub(*trailing);
            let lost = LostRange { from, to };
            found.push(of_table(table.number, from, ProblemReason::Trailing, Some(lost)))?;
        }
    }
    Ok(())
}

// ---- what is refused

// Puts the refusal of the term or the element in a range, if it is refused.
fn put_refused(
    alloc: Global,
    found: &mut Vec<Problem>,
    table: &ReadTable<'_, '_>,
    range: &ScopedSpan<'_>,
) -> Result<(), AllocError>
    ensures { OnOk result (map problem_view found.new.items ≡ map problem_view found.old.items
        ++ refused_in (refusals_of table.now) table.now.number (range_of range.now)) }
{
    let span = &range.span;
    if let Some(reason) = table.index.refusal_at(table.number, span.from) {
        found.push(Problem {
            site: site_at(table.number, span.from),
            reason: ProblemReason::Refused(reason.copy(alloc)?),
            name: None,
            lost: Some(bytes_between(span.from, span.to)),
            scope: Some(scope_copy(alloc, range.around)?),
        })?;
    }
    Ok(())
}

// ---- what is lost

fn fault_in(node: &Node) -> Option<LostFault>
    ensures { option_to_list result ≡ why_lost (of_node (node_view node.now)) }
{
    match node {
        Node::PackageLost(_, fault) => Some(*fault),
        Node::DataLost(_, fault) => Some(*fault),
        Node::NameLost(_, _, fault) => Some(*fault),
        _ => None,
    }
}

fn fault_of(what: SpanContent<'_>) -> Option<LostFault>
    ensures { option_to_list result ≡ why_lost (part_of what.entry) }
{
    match what {
        SpanContent::Node(node) => fault_in(node),
        SpanContent::Element(_, _, _) => None,
        SpanContent::Lost(fault) => Some(fault),
    }
}

// Puts what is lost of a range, if something is.
fn put_lost(
    alloc: Global,
    found: &mut Vec<Problem>,
    table: &ReadTable<'_, '_>,
    range: &ScopedSpan<'_>,
) -> Result<(), AllocError>
    ensures { OnOk result (map problem_view found.new.items ≡ map problem_view found.old.items
        ++ lost_in (code_read table.now.judged.now) table.now.number (range_of range.now)) }
{
    if let Some(fault) = fault_of(range.span.what) {
        let code = table.judged.code();
        found.push(Problem {
            site: site_at(table.number, fault.place),
            reason: ProblemReason::Lost(fault),
            name: unsure_name(alloc, code, fault.place, fault.reason)?,
            lost: Some(range_lost(code, &range.span)),
            scope: Some(scope_copy(alloc, range.around)?),
        })?;
    }
    Ok(())
}

// ---- all

// Puts the problems of a range.
fn put_of_range(
    alloc: Global,
    found: &mut Vec<Problem>,
    table: &ReadTable<'_, '_>,
    range: &ScopedSpan<'_>,
) -> Result<(), AllocError>
    ensures { OnOk result (map problem_view found.new.items ≡ map problem_view found.old.items
        ++ range_problems (refusals_of table.now) (code_read table.now.judged.now)
        table.now.number (range_of range.now)) }
{
    put_refused(alloc, found, table, range)?;
    put_lost(alloc, found, table, range)
}

// Puts the problems of the table's code.
fn put_of_code(
    alloc: Global,
    found: &mut Vec<Problem>,
    table: &ReadTable<'_, '_>,
) -> Result<(), AllocError>
    ensures { OnOk result (map problem_view found.new.items ≡ map problem_view found.old.items
        ++ flat_map (range_problems (refusals_of table.now) (code_read table.now.judged.now)
        table.now.number)
        (table_ranges (entered_at table.now) table.now.judged.now
        (nodes_view table.now.nodes.now))) }
{
    let mut ranges = table.ranges(alloc)?;
    while let Some(range) = table.next_range(&mut ranges)? {
        put_of_range(alloc, found, table, &range)?;
    }
    Ok(())
}

/// Puts the problems of a table behind others, in the order of their sites.
pub(crate) fn put_problems(
    alloc: Global,
    found: &mut Vec<Problem>,
    table: &ReadTable<'_, '_>,
) -> Result<(), AllocError>
    ensures { OnOk result (map problem_view found.new.items ≡ map problem_view found.old.items
        ++ table_problems (entered_at table.now) (refusals_of table.now) table.now.number
        table.now.bytes.now table.now.judged.now (nodes_view table.now.nodes.now)) }
{
    put_first(found, table)?;
    put_of_code(alloc, found, table)?;
    put_trailing(found, table)
}

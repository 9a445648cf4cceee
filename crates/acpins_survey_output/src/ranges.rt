//! What each byte of tables belongs to.

ghost use Rattle.std.specs.Prelude.{◌≡◌, ◌<◌, ◌+◌, ◌-◌, ◌^◌, ◌++◌, suc, OnOk, IfOk, codes, length};
ghost use Rattle.std.specs.List.{flat_map};
ghost use Rattle.acpi_outline.specs.View.{fixed_view, node_view, nodes_view, plain_view};
ghost use Rattle.acpi_ranges.specs.LostRanges.{bytes_from};
ghost use Rattle.acpi_ranges.specs.Ranges.{code_ranges, nothing_entered};
ghost use Rattle.acpi_ranges.specs.SpanViews.{part_of, range_of};
ghost use Rattle.acpi_pieces.specs.Tables.{code_read};
ghost use Rattle.acpi_ranges.specs.steps.Indexes.{index_entered, index_refusals};
ghost use Rattle.acpi_tree.specs.TermView.{decl_view, term_view};
ghost use Rattle.acpi_tree.specs.View.{field_view};
ghost use Rattle.acpins_survey_output.specs.Maps.{indent, start_text, declaring_text, term_in_map, plain_in_map, package_in_map, node_in_map, element_in_map, part_in_map, kept_line, lost_line, lost_in_map, node_lines, range_lines, code_lines, table_lines, map_by, map_text};
ghost use Rattle.acpins_survey_output.specs.steps.MapViews.{places_view};

use crate::found::put_range;
use acpi_outline::{Fixed, LostFault, Node, PackedForm, Plain};
use acpi_pieces::TableContent;
use acpi_ranges::{
    LostRange, PlaceIndex, ScopedSpan, SpanContent, Spans, index_of, range_lost, unsure_name,
};
use acpi_survey::{Survey, SurveyedTable};
use acpi_table::HEADER_BYTES;
use acpi_text::{put_decimal, put_path, put_term};
use acpi_tree::{Decl, FieldElem, Term};
use acpins_survey_reasons::{lost_reason_name, put_named, put_refusal, table_reason_name};
use std::alloc::{AllocError, Global};
use text_buffer::Text;

/// A table's number, and what begins at the places of tables.
#[derive(Clone, Copy)]
pub(crate) struct TablePlaces<'b, 'a> {
    /// The number of the table, the first being 0.
    pub number: usize,
    /// What begins at the places of all tables.
    pub index: &'b PlaceIndex<'a>,
}

// ---- what stands in a range

// Why what begins at a place is refused, or a word and the path that it declares or enters.
fn put_declaring(text: &mut Text, places: TablePlaces<'_, '_>, word: &str, place: usize)
    ensures { text.new ≡ text.old ++ declaring_text (places_view places.entry) word.now place }
{
    if let Some(reason) = places.index.refusal_at(places.number, place) {
        text.put("Refused ");
        return put_refusal(text, reason);
    }
    match places.index.path_at(places.number, place) {
        Some(path) => {
            text.put(word);
            put_path(text, path)
        }
        None => {},
    }
}

// What a declaration declares; whatever its form is, its place tells.
fn put_decl(text: &mut Text, places: TablePlaces<'_, '_>, place: usize, decl: &Decl)
    ensures { text.new
        ≡ text.old ++ term_in_map (places_view places.entry) place (decl_view decl.now) }
{
    match decl {
        Decl::Name(_, _) => put_declaring(text, places, "Declares ", place),
        Decl::Create { .. } => put_declaring(text, places, "Declares ", place),
        Decl::CreateField { .. } => put_declaring(text, places, "Declares ", place),
        Decl::Mutex(_, _) => put_declaring(text, places, "Declares ", place),
        Decl::Event(_) => put_declaring(text, places, "Declares ", place),
        Decl::Region { .. } => put_declaring(text, places, "Declares ", place),
        Decl::Field { .. } => put_declaring(text, places, "Declares ", place),
        Decl::IndexField { .. } => put_declaring(text, places, "Declares ", place),
        Decl::BankField { .. } => put_declaring(text, places, "Declares ", place),
    }
}

fn put_term_part(text: &mut Text, places: TablePlaces<'_, '_>, place: usize, term: &Term)
    ensures { text.new
        ≡ text.old ++ term_in_map (places_view places.entry) place (term_view term.now) }
{
    match term {
        Term::Declare(decl) => put_decl(text, places, place, decl),
        _ => {
            text.put("Statement ");
            put_term(text, term)
        }
    }
}

fn put_plain(text: &mut Text, places: TablePlaces<'_, '_>, place: usize, plain: &Plain)
    ensures { text.new
        ≡ text.old ++ plain_in_map (places_view places.entry) place (plain_view plain.now) }
{
    match plain {
        Plain::Term(term) => put_term_part(text, places, place, term),
        Plain::External(_) => text.put("External"),
        _ => put_declaring(text, places, "Declares ", place),
    }
}

fn put_package(text: &mut Text, places: TablePlaces<'_, '_>, place: usize, fixed: &Fixed)
    ensures { text.new ≡ text.old ++ package_in_map (places_view places.entry) place
        (fixed_view fixed.now) }
{
    match fixed {
        Fixed::Scope(_) => put_declaring(text, places, "Scope ", place),
        Fixed::If(_) => text.put("If"),
        Fixed::Else => text.put("Else"),
        Fixed::While(_) => text.put("While"),
        _ => put_declaring(text, places, "Declares ", place),
    }
}

fn put_node(text: &mut Text, places: TablePlaces<'_, '_>, place: usize, node: &Node)
    ensures { text.new
        ≡ text.old ++ node_in_map (places_view places.entry) place (node_view node.now) }
{
    match node {
        Node::Plain(plain) => put_plain(text, places, place, plain),
        Node::Holds(fixed, _) => put_package(text, places, place, fixed),
        Node::Closed(fixed, _) => put_package(text, places, place, fixed),
        Node::Fields(_, _, _) => text.put("Fields"),
        Node::PackageLost(PackedForm::While, _) => text.put("While"),
        Node::PackageLost(_, _) => text.put("If"),
        Node::DataLost(_, _) => {},
        Node::NameLost(_, _, _) => put_declaring(text, places, "Declares ", place),
    }
}

fn put_element(text: &mut Text, places: TablePlaces<'_, '_>, place: usize, element: &FieldElem)
    ensures { text.new ≡ text.old ++ element_in_map (places_view places.entry) place
        (field_view element.now) }
{
    match element {
        FieldElem::Unit(_, _) => put_declaring(text, places, "Declares ", place),
        _ => text.put("Layout"),
    }
}

// What stands in a range of which not all is lost.
fn put_part(text: &mut Text, places: TablePlaces<'_, '_>, place: usize, what: SpanContent<'_>)
    ensures { text.new
        ≡ text.old ++ part_in_map (places_view places.entry) place (part_of what.entry) }
{
    match what {
        SpanContent::Node(node) => put_node(text, places, place, node),
        SpanContent::Element(_, element, _) => put_element(text, places, place, element),
        SpanContent::Lost(_) => {},
    }
}

// ---- lines

// Two blanks for each range around.
fn put_indent(text: &mut Text, depth: usize)
    ensures { text.new ≡ text.old ++ indent depth }
{
    for _ in 0..depth {
        text.put("  ");
    }
}

// What stands before the text of a range.
fn put_start(text: &mut Text, depth: usize, number: usize, range: LostRange)
    ensures { text.new ≡ text.old ++ start_text depth number range.from range.to }
{
    put_indent(text, depth);
    put_decimal(text, number as u64);
    text.put(" ");
    put_range(text, range.from, range.to);
    text.put(" ")
}

// The line of a range of which not all is lost.
fn put_kept(text: &mut Text, places: TablePlaces<'_, '_>, range: &ScopedSpan<'_>)
    ensures { text.new ≡ text.old ++ kept_line (places_view places.entry) (range_of range.now) }
{
    let span = range.span;
    let bytes = LostRange {
        from: span.from.saturating_add(HEADER_BYTES),
        to: span.to.saturating_add(HEADER_BYTES),
    };
    put_start(text, span.depth, places.number, bytes);
    put_part(text, places, span.from, span.what);
    text.put("\n")
}

// The line of bytes that are lost; none where there are none.
fn put_lost_bytes(text: &mut Text, depth: usize, number: usize, lost: LostRange, reason: &Text)
    ensures { text.new ≡ text.old ++ lost_line depth number lost reason.now }
{
    if lost.from == lost.to {
        return;
    }
    put_start(text, depth, number, lost);
    text.put("Lost ");
    text.put_text(reason);
    text.put("\n")
}

// The line of what is lost of a range of the code of the table of that number.
fn put_lost(
    text: &mut Text,
    number: usize,
    table: &SurveyedTable,
    depth: usize,
    range: &ScopedSpan<'_>,
    fault: LostFault,
) -> Result<(), AllocError>
    ensures { OnOk result (text.new ≡ text.old
        ++ lost_in_map number (code_read table.now.judged) depth (range_of range.now) fault) }
{
    let name = unsure_name(text.alloc(), table.code(), fault.place, fault.reason)?;
    let mut reason = Text::new(text.alloc());
    reason.put(lost_reason_name(fault.reason));
    put_named(&mut reason, name.as_ref());
    put_lost_bytes(
        text,
        depth,
        number,
        range_lost(table.code(), &range.span),
        &reason,
    );
    Ok(())
}

// The line of an If or While of which a part is lost, and that of the part.
fn put_branch(
    text: &mut Text,
    places: TablePlaces<'_, '_>,
    table: &SurveyedTable,
    range: &ScopedSpan<'_>,
    fault: LostFault,
) -> Result<(), AllocError>
    requires { range.now.span.depth + 1 < 2 ^ 64 }
    ensures { OnOk result (text.new ≡ text.old
        ++ (kept_line (places_view places.entry) (range_of range.now)
        ++ lost_in_map places.entry.number (code_read table.now.judged)
        (suc range.now.span.depth) (range_of range.now) fault)) }
{
    put_kept(text, places, range);
    let depth = range.span.depth + 1;
    put_lost(text, places.number, table, depth, range, fault)
}

// The lines of a node.
fn put_node_lines(
    text: &mut Text,
    places: TablePlaces<'_, '_>,
    table: &SurveyedTable,
    range: &ScopedSpan<'_>,
    node: &Node,
) -> Result<(), AllocError>
    requires { range.now.span.depth + 1 < 2 ^ 64 }
    ensures { OnOk result (text.new ≡ text.old
        ++ node_lines (places_view places.entry) (code_read table.now.judged)
        (range_of range.now) (node_view node.now)) }
{
    match node {
        Node::PackageLost(PackedForm::If, fault) => {
            put_branch(text, places, table, range, *fault)
        }
        Node::PackageLost(PackedForm::While, fault) => {
            put_branch(text, places, table, range, *fault)
        }
        Node::PackageLost(_, fault) => {
            put_lost(text, places.number, table, range.span.depth, range, *fault)
        }
        Node::DataLost(_, fault) => {
            put_lost(text, places.number, table, range.span.depth, range, *fault)
        }
        _ => {
            put_kept(text, places, range);
            Ok(())
        }
    }
}

// The lines of a range.
fn put_span(
    text: &mut Text,
    places: TablePlaces<'_, '_>,
    table: &SurveyedTable,
    range: &ScopedSpan<'_>,
) -> Result<(), AllocError>
    requires { range.now.span.depth + 1 < 2 ^ 64 }
    ensures { OnOk result (text.new ≡ text.old
        ++ range_lines (places_view places.entry) (code_read table.now.judged)
        (range_of range.now)) }
{
    match range.span.what {
        SpanContent::Node(node) => put_node_lines(text, places, table, range, node),
        SpanContent::Element(_, _, _) => {
            put_kept(text, places, range);
            Ok(())
        }
        SpanContent::Lost(fault) => put_lost(
            text,
            places.number,
            table,
            range.span.depth,
            range,
            fault,
        ),
    }
}

// ---- tables

// The lines of the ranges of a table's code.
fn put_spans(
    alloc: Global,
    text: &mut Text,
    places: TablePlaces<'_, '_>,
    table: &SurveyedTable,
) -> Result<(), AllocError>
    ensures { OnOk result (text.new ≡ text.old
        ++ flat_map (range_lines (places_view places.entry) (code_read table.now.judged))
        (code_ranges nothing_entered (length (code_read table.now.judged))
        (nodes_view table.now.nodes))) }
{
    let mut spans = Spans::new(alloc, &table.nodes, table.code().len())?;
    while let Some(range) = spans.next()? {
        put_span(text, places, table, &range)?;
    }
    Ok(())
}

// The lines of a table's header and code.
fn put_code(
    alloc: Global,
    text: &mut Text,
    places: TablePlaces<'_, '_>,
    table: &SurveyedTable,
) -> Result<(), AllocError>
    ensures { OnOk result (text.new ≡ text.old
        ++ code_lines (places_view places.entry) (code_read table.now.judged)
        (nodes_view table.now.nodes)) }
{
    let header = LostRange {
        from: 0,
        to: HEADER_BYTES,
    };
    put_start(text, 0, places.number, header);
    text.put("Header\n");
    put_spans(alloc, text, places, table)
}

// The line of the bytes behind a table, which are so many.
fn put_trailing(text: &mut Text, number: usize, table: &SurveyedTable, trailing: usize)
    ensures { text.new ≡ text.old ++ lost_line 0 number
        (bytes_from (length table.now.bytes - trailing) table.now.bytes) (codes "L3 Trailing") }
{
    let to = table.bytes.len();
    let from = to.saturating_sub(trailing);
    let mut why = Text::new(text.alloc());
    why.put("L3 Trailing");
    put_lost_bytes(text, 0, number, LostRange { from, to }, &why)
}

// The lines of a table.
fn put_table(
    alloc: Global,
    text: &mut Text,
    places: TablePlaces<'_, '_>,
    table: &SurveyedTable,
) -> Result<(), AllocError>
    ensures { OnOk result (text.new ≡ text.old
        ++ table_lines (places_view places.entry) table.now.bytes table.now.judged
        (nodes_view table.now.nodes)) }
{
    let to = table.bytes.len();
    match &table.judged {
        TableContent::Unread(reason) => {
            let lost = LostRange { from: 0, to };
            let mut why = Text::new(alloc);
            why.put(table_reason_name(*reason));
            put_lost_bytes(text, 0, places.number, lost, &why);
            Ok(())
        }
        TableContent::Read { trailing, .. } => {
            put_code(alloc, text, places, table)?;
            put_trailing(text, places.number, table, *trailing);
            Ok(())
        }
    }
}

// The lines of tables.
fn put_tables(
    alloc: Global,
    text: &mut Text,
    index: &PlaceIndex<'_>,
    tables: &[SurveyedTable],
) -> Result<(), AllocError>
    ensures { OnOk result (text.new ≡ text.old
        ++ map_by (index_entered index.now) (index_refusals index.now) 0 tables.now) }
{
    for number in 0..tables.len() {
        let places = TablePlaces { number, index };
        put_table(alloc, text, places, &tables[number])?;
    }
    Ok(())
}

/// What each byte of each table belongs to, in byte order, a line for each range: the number of the table, the first
/// byte and the first behind, and what stands there. Two blanks stand before a line for each range around.
pub fn map(alloc: Global, survey: &Survey) -> Result<Vec<u8>, AllocError>
    ensures { IfOk result (λ text. text.items ≡ map_text survey.now) }
{
    let index = index_of(survey)?;
    let mut text = Text::new(alloc);
    put_tables(alloc, &mut text, &index, &survey.tables)?;
    text.into_bytes()
}

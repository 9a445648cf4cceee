//! Records of a namespace.

ghost use Rattle.std.specs.Prelude.{◌≡◌, ◌++◌, [], map, length, IfOk, OnOk, unwrap_or, slice_index};
ghost use Rattle.std.specs.FinMap.{get};
ghost use Rattle.acpi_tree.specs.Objects.{object_view};
ghost use Rattle.acpi_declare.specs.Links.{links_at};
ghost use Rattle.acpins_output.specs.steps.Lines.{objects_by_path};
ghost use Rattle.acpins_records.specs.Records.{part_of, no_code, own_links};
ghost use Rattle.acpins_records.specs.steps.Adding.{PutsLine, PutsData, AddsEntry, AreRecords, placed, placed_from};
ghost use Rattle.acpins_records.specs.steps.Kinds.{AllSuit, code_by, links_by};
ghost use Rattle.acpins_records.specs.steps.Seeing.{AreSeen};

use crate::in_order::InOrder;
use crate::numbers::{kind_of, numbers_of};
use crate::parts::Parts;
use crate::paths::Paths;
use crate::records::ObjectRecord;
use crate::targets::put_targets;
use crate::tree::{Tree, tree_of};
use acpi_declare::LinkMap;
use acpi_name::Path;
use acpi_places::CodePlace;
use acpi_space::{Space, TreeSpace, Visitor};
use acpi_terms::Object;
use acpi_text::{put_links, put_object, put_path};
use acpins_lent::NONE;
use std::alloc::{AllocError, Global};
use text_buffer::Text;

/// What stands in the caller's arrays when a load is written.
#[derive(Drop)]
pub(crate) struct Records {
    /// A record for each object.
    pub objects: Vec<ObjectRecord>,
    /// What links find.
    pub targets: Vec<u64>,
    /// A line for each object.
    pub text: Vec<u8>,
    /// The constant data of Names, and its bytes.
    pub data: Parts,
}

// An object with what its record says of it, whatever stands round it.
#[derive(Clone, Copy)]
struct Entry<'a> {
    path: &'a Path,
    object: &'a Object,
    // What its links find.
    links: &'a [Option<Path>],
    // The place of the first of its targets.
    target: usize,
    // Where its code stands.
    code: Option<CodePlace>,
}

// The links of an object; only fields and buffer fields have some.
fn links_of<'a>(path: &Path, object: &Object, links: &'a LinkMap) -> &'a [Option<Path>]
    ensures { result.now ≡ links_by (object_view object.now)
        (own_links (links_at links.now) path.now) }
{
    match object {
        Object::Field { .. } | Object::Create { .. } | Object::CreateField { .. } => {
            match links.get(path) {
                Some(links) => links,
                None => &[],
            }
        }
        _ => &[],
    }
}

// Where the code of a method stands, where a table declares one there.
fn code_of(path: &Path, object: &Object, codes: &mut InOrder<'_, CodePlace>) -> Option<CodePlace>
    ensures code { result ≡ code_by (object_view object.now) (get codes.old path.now) }
    ensures stays { codes.new ≡ codes.old }
{
    match object {
        Object::Method(_) => codes.get(path).copied(),
        _ => None,
    }
}

fn code_table_of(code: Option<CodePlace>) -> u64
    ensures { result ≡ (unwrap_or code no_code).table }
{
    match code {
        Some(code) => code.table as u64,
        None => NONE,
    }
}

fn code_place_of(code: Option<CodePlace>) -> u64
    ensures { result ≡ (unwrap_or code no_code).place }
{
    match code {
        Some(code) => code.place as u64,
        None => 0,
    }
}

fn code_length_of(code: Option<CodePlace>) -> u64
    ensures { result ≡ (unwrap_or code no_code).length }
{
    match code {
        Some(code) => code.length as u64,
        None => 0,
    }
}

// The place of an object's data, if that place is next.
fn part_of(object: &Object, next: usize) -> u64
    ensures { result ≡ part_of (object_view object.now) next }
{
    match object {
        Object::Name(_) => next as u64,
        _ => NONE,
    }
}

// Puts a line, and gives how many of its bytes are the path's.
fn put_line(
    text: &mut Vec<u8>,
    path: &Path,
    object: &Object,
    links: &[Option<Path>],
) -> Result<usize, AllocError>
    ensures { IfOk result (λ n. PutsLine path.now
        (object_view object.now) links.now text.old.items text.new.items n) }
{
    let mut line = Text::new(*text.allocator());
    put_path(&mut line, path);
    let path_length = line.bytes()?.len();
    line.put(" ");
    put_object(&mut line, object);
    put_links(&mut line, links);
    line.put("\n");
    text.extend_from_slice(line.bytes()?)?;
    Ok(path_length)
}

// Puts the data of a Name.
fn put_data(data: &mut Parts, object: &Object) -> Result<(), AllocError>
    ensures { OnOk result (PutsData (object_view object.now) «data».old «data».new) }
{
    match object {
        Object::Name(of_name) => data.put_data(of_name),
        _ => Ok(()),
    }
}

impl Records {
    // Nothing yet.
    fn new(alloc: Global) -> Records
        ensures objects { result.objects.items ≡ [] }
        ensures targets { result.targets.items ≡ [] }
        ensures text { result.text.items ≡ [] }
        ensures parts { result.«data».parts.items ≡ [] }
        ensures bytes { result.«data».bytes.items ≡ [] }
    {
        Records {
            objects: Vec::new(alloc),
            targets: Vec::new(alloc),
            text: Vec::new(alloc),
            data: Parts::new(alloc),
        }
    }

    // Puts an object behind the others. Its places among them are not known yet.
    fn put(&mut self, entry: &Entry<'_>) -> Result<(), AllocError>
        ensures { OnOk result (AddsEntry entry.now self.old self.new) }
    {
        let line = self.text.len();
        let part = part_of(entry.object, self.data.parts.len());
        let path_length = put_line(&mut self.text, entry.path, entry.object, entry.links)?;
        put_data(&mut self.data, entry.object)?;
        self.objects.push(ObjectRecord {
            kind: kind_of(entry.object),
            line: line as u64,
            line_length: (self.text.len() - line) as u64,
            path_length: path_length as u64,
            target: entry.target as u64,
            targets: entry.links.len() as u64,
            numbers: numbers_of(entry.object),
            parent: 0,
            below: 0,
            part,
            code_table: code_table_of(entry.code),
            code_place: code_place_of(entry.code),
            code_length: code_length_of(entry.code),
        })?;
        Ok(())
    }
}

/// The objects so far: their records, their paths, and what their links find.
#[derive(Drop)]
pub(crate) struct RecordCollector<'a> {
    // Each without its parent and the end of what is below it; there are no targets yet.
    records: Records,
    paths: Paths,
    // A link for each target.
    wanted: Vec<&'a Option<Path>>,
    links: &'a LinkMap,
    codes: InOrder<'a, CodePlace>,
}

// Puts what some links find behind the others.
fn put_wanted<'a>(
    wanted: &mut Vec<&'a Option<Path>>,
    links: &'a [Option<Path>],
) -> Result<(), AllocError>
    ensures { OnOk result (map (λ a. a.now) wanted.new.items ≡ map (λ a. a.now) wanted.old.items
        ++ links.now) }
{
    for answer in links {
        wanted.push(answer)?;
    }
    Ok(())
}

impl Visitor<Object> for RecordCollector<'_> {
    ghost was_shown = { AreSeen };

    fn visit(&mut self, path: &Path, object: &Object) -> Result<(), AllocError> {
        let links = links_of(path, object, self.links);
        let entry = Entry {
            path,
            object,
            links,
            target: self.wanted.len(),
            code: code_of(path, object, &mut self.codes),
        };
        self.records.put(&entry)?;
        put_wanted(&mut self.wanted, links)?;
        self.paths.put(path.segs())
    }
}

// Sets the places of an object among the others.
fn set_place(object: &mut ObjectRecord, parent: u64, below: u64)
    ensures { object.new ≡ placed parent below object.old }
{
    object.parent = parent;
    object.below = below;
}

// .. of each of them.
fn set_places(objects: &mut [ObjectRecord], tree: &Tree)
    requires parents { length tree.now.parents.items ≡ length objects.old }
    requires ends { length tree.now.ends.items ≡ length objects.old }
    ensures { objects.new ≡ placed_from 0 (slice_index tree.now.parents.items)
        (slice_index tree.now.ends.items) objects.old }
{
    for k in 0..objects.len() {
        set_place(&mut objects[k], tree.parents[k], tree.ends[k] as u64);
    }
}

/// The records of all objects, in the order of the paths.
pub(crate) fn build_records<'a>(
    alloc: Global,
    objects: &TreeSpace<Object>,
    links: &'a LinkMap,
    codes: &'a TreeSpace<CodePlace>,
) -> Result<Records, AllocError>
    ensures { AllSuit (links_at links.now) (get codes.now) (objects_by_path objects.now)
        → IfOk result (λ r. AreRecords (objects_by_path objects.now) (links_at links.now)
        (get codes.now) r) }
{
    let in_order = InOrder::of(codes)?;
    let mut seen = RecordCollector {
        records: Records::new(alloc),
        paths: Paths::new(alloc),
        wanted: Vec::new(alloc),
        links,
        codes: in_order,
    };
    objects.visit_pairs(&mut seen)?;
    let RecordCollector {
        mut records,
        paths,
        wanted,
        ..
    } = seen;
    put_targets(&mut records.targets, &paths, &wanted)?;
    let tree = tree_of(alloc, &paths)?;
    set_places(&mut records.objects, &tree);
    Ok(records)
}

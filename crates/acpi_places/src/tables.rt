//! The places of the code of methods, table after table.

ghost use Rattle.std.specs.Prelude.{◌≡◌, ◌<◌, ◌∷◌, length, map, slice_get, IfOk, OnOk, Some};
ghost use Rattle.std.specs.FinMap.{get};
ghost use Rattle.acpi_space.specs.Lookups.{singleton, union};
ghost use Rattle.acpi_tree.specs.Tree.{ItemTrees};
ghost use Rattle.acpi_declare.specs.Loads.{AreNotes};
ghost use Rattle.acpi_declare.specs.Notes.{method_of, notes_of};
ghost use Rattle.acpi_declare.specs.Tables.{IsTableOf, code_of};
ghost use Rattle.acpi_places.specs.Places.{AreCodePlaces, SpellsItemsAt, by_path};
ghost use Rattle.acpi_places.specs.steps.Adding.{AddsTable};

use crate::items::add_places;
use crate::place::CodePlace;
use acpi_code::{Code, Depth};
use acpi_declare::{Method, TableNotes};
use acpi_name::Path;
use acpi_space::{Refused, Space, TreeSpace};
use acpi_table::HEADER_BYTES;
use bytes::Bytes;
use std::alloc::{AllocError, Global};

// The places of the code of a table's methods, in byte order.
fn table_places(
    alloc: Global,
    number: usize,
    table: &Bytes,
    depth: Depth,
) -> Result<Vec<CodePlace>, AllocError>
    requires { (is : ItemTrees) × IsTableOf depth number table.now is }
    ensures { (is : ItemTrees) → IsTableOf depth number table.now is
        → IfOk result (λ v. SpellsItemsAt number 36 is (code_of table.now) v.items) }
{
    let mut code = Code::shared(table);
    code.skip(HEADER_BYTES);
    let mut places = Vec::new(alloc);
    add_places(alloc, number, depth.get(), code, &mut places)?;
    Ok(places)
}

// Adds a place. A path that has one keeps it.
fn put(places: &mut TreeSpace<CodePlace>, path: Path, place: CodePlace) -> Result<(), AllocError>
    ensures { OnOk result (get places.new ≡ union (get places.old) (singleton path place)) }
{
    match places.insert(path, place) {
        Ok(()) => Ok(()),
        Err(Refused::Taken(_)) => Ok(()),
        Err(Refused::Memory(_)) => Err(AllocError),
    }
}

// Adds these places, by the paths of the methods.
fn put_all(
    places: &mut TreeSpace<CodePlace>,
    methods: &[Method],
    found: &[CodePlace],
) -> Result<(), AllocError>
    ensures { OnOk result (get places.new ≡ union (get places.old)
        (by_path (map method_of methods.now) found.now)) }
{
    for (method, place) in methods.iter().zip(found) {
        put(places, method.path.copy()?, *place)?;
    }
    Ok(())
}

// Adds the places of the code of a table's methods, by their paths.
fn add_table(
    alloc: Global,
    places: &mut TreeSpace<CodePlace>,
    number: usize,
    table: &Bytes,
    notes: &TableNotes,
    depth: Depth,
) -> Result<(), AllocError>
    requires { (is : ItemTrees) × IsTableOf depth number table.now is }
    ensures { (is : ItemTrees) → IsTableOf depth number table.now is
        → OnOk result (AddsTable number table.now is (notes_of notes.now) (get places.old)
        (get places.new)) }
{
    let found = table_places(alloc, number, table, depth)?;
    put_all(places, &notes.methods, &found)
}

// The notes of the table of that number.
fn notes_at(notes: &[TableNotes], number: usize) -> &TableNotes
    requires { number < length notes.now }
    ensures { slice_get notes.now number ≡ Some result.now }
{
    &notes[number]
}

/// Where the code of each method stands that a DSDT and SSDTs declare (ACPI 6.5, 20.2.5.2), by the method's path. The
/// notes are all notes of their load (`declare_shared`), and `depth` is that of the load. The predefined method `_OSI`
/// has no code. Only an allocation failure is an error.
pub fn code_places(
    alloc: Global,
    dsdt: &Bytes,
    ssdts: &[Bytes],
    notes: &[TableNotes],
    depth: Depth,
) -> Result<TreeSpace<CodePlace>, AllocError>
    requires { AreNotes depth (dsdt.now ∷ ssdts.now) (map notes_of notes.now) }
    ensures { IfOk result (λ s. AreCodePlaces depth (dsdt.now ∷ ssdts.now) (get s)) }
{
    let mut places = TreeSpace::new(alloc);
    add_table(alloc, &mut places, 0, dsdt, &notes[0], depth)?;
    for (i, ssdt) in ssdts.iter().enumerate() {
        add_table(
            alloc,
            &mut places,
            i + 1,
            ssdt,
            notes_at(notes, i + 1),
            depth,
        )?;
    }
    Ok(places)
}

//! The declaration pass over a list of tables.

ghost use Rattle.std.specs.Prelude.{◌≡◌, ◌≢◌, ◌∷◌, [], ◌≤◌, ℕ, List, map, true, IsTrue, ◌↔◌, IfOk, IfErr, length};
ghost use Rattle.acpi_tree.specs.Fits.{items_fit};
ghost use Rattle.acpi_tree.specs.Offsets.{OffsetsFit};
ghost use Rattle.acpi_tree.specs.View.{items_tree};
ghost use Rattle.acpi_declare.specs.Declaring.{HasTables, state_of};
ghost use Rattle.acpi_declare.specs.Keeping.{AreKeptNotes};
ghost use Rattle.acpi_pass.specs.Namespace.{Namespace, namespace_of};
ghost use Rattle.acpi_pass.specs.Links.{links_at};
ghost use Rattle.acpi_pass.specs.Notes.{notes_of};
ghost use Rattle.acpi_declare.specs.Tables.{signature_of, IsTableOf};
ghost use Rattle.acpi_declare.specs.Loads.{IsLoad, AreNotes, HasNoLoad};
ghost use Rattle.acpi_declare.specs.Refusals.{HasOtherSignature, IsLoadReason, IsLoadFault};
ghost use Rattle.acpi_declare.specs.DeclaredView.{objects_in, links_in, notes_in};
ghost use Rattle.acpi_declare.specs.steps.Adding.{AddsTable, HasKept};
ghost use Rattle.acpi_declare.specs.steps.Outcomes.{IsCodeOf, IsTableFault};

use crate::declaring::Declaring;
use crate::fault::{LoadFault, LoadReason};
use acpi_name::Path;
use acpi_pass::{Keep, LinkMap, Pass, PassError, TableNotes, predefined_space, put_kept};
use acpi_space::Space;
use acpi_table::{HEADER_BYTES, split_table};
use acpi_terms::{Depth, Item, ItemFault, Object, read_items_shared};
use bytes::Bytes;
use std::alloc::{AllocError, Global};

/// What the tables of a load declare: the namespace, the links of its fields, and what each table notes for
/// the bodies of its methods.
#[derive(Drop)]
pub struct Declared<S> {
    pub(crate) objects: S,
    pub(crate) links: LinkMap,
    pub(crate) notes: Vec<TableNotes>,
}

impl<S> Declared<S> {
    ghost use Rattle.acpi_declare.specs.DeclaredView.{objects_in, links_in, notes_in};

    /// The namespace.
    pub fn objects(&self) -> &S
        ensures { result.now ≡ objects_in self.now }
    {
        &self.objects
    }

    /// What the search of each link answers, by the path of the field: the region of a field; index and data
    /// register of an index field; region and bank register of a bank field; the source of a buffer field.
    pub fn links(&self) -> &LinkMap
        ensures { result.now ≡ links_in self.now }
    {
        &self.links
    }

    /// What is kept of what the tables note (`Keep`), in their order; where all is kept, by the table's number: the
    /// argument counts that its Externals give, its methods, and the paths that its Scope terms missed.
    pub fn notes(&self) -> &[TableNotes]
        ensures { result.now ≡ notes_in self.now }
    {
        &self.notes
    }

    /// The namespace, the links and the notes, each for its new owner.
    pub fn into_parts(self) -> (S, LinkMap, Vec<TableNotes>)
        ensures objects { result.0 ≡ objects_in self }
        ensures links { result.1 ≡ links_in self }
        ensures notes { result.2.items ≡ notes_in self }
    {
        let Declared {
            objects,
            links,
            notes,
        } = self;
        (objects, links, notes)
    }
}

fn table_fault(table: usize, reason: LoadReason) -> LoadFault
    ensures { result ≡ LoadFault.At table reason }
{
    LoadFault::At { table, reason }
}

// Whether it is the signature of table `number`.
fn is_signed(number: usize, signature: [u8; 4]) -> bool
    ensures { IsTrue result ↔ (signature ≡ signature_of number) }
{
    if number == 0 {
        signature == *b"DSDT"
    } else {
        signature == *b"SSDT"
    }
}

// Why table `number` is refused where it has another signature.
fn other_signature(number: usize) -> LoadReason
    ensures { (depth : ℕ) (objects : Namespace) (bytes : List ℕ) → HasOtherSignature number bytes
        → IsLoadReason depth number objects bytes result }
{
    if number == 0 {
        LoadReason::NotDsdt
    } else {
        LoadReason::NotSsdt
    }
}

// The code of table `number`; or why the bytes are no such table.
fn table_code(number: usize, bytes: &Bytes) -> Result<Bytes, LoadFault>
    ensures ok { IfOk result (λ b. IsCodeOf number bytes.now b) }
    ensures short { IfOk result (λ b. length b ≤ 16777216) }
    ensures err { (depth : ℕ) (objects : Namespace)
        → IfErr result (λ e. IsTableFault depth number objects bytes.now e) }
{
    match split_table(bytes.as_slice()) {
        Ok((table, rest)) => {
            if !is_signed(number, table.header().signature) {
                return Err(table_fault(number, other_signature(number)));
            }
            if rest.len() > 0 {
                return Err(table_fault(number, LoadReason::Trailing));
            }
            Ok(bytes.slice(HEADER_BYTES..)?)
        }
        Err(fault) => Err(table_fault(number, LoadReason::Table(fault))),
    }
}

// The items of table `number`; or why it has none.
fn table_items(
    alloc: Global,
    number: usize,
    bytes: &Bytes,
    depth: Depth,
) -> Result<Vec<Item>, LoadFault>
    ensures ok { IfOk result (λ v. IsTableOf depth number bytes.now (items_tree v.items)) }
    ensures room { IfOk result (λ v. OffsetsFit (items_tree v.items)) }
    ensures fits { IfOk result (λ v. items_fit (items_tree v.items) ≡ true) }
    ensures err { (objects : Namespace) → IfErr result
        (λ e. IsTableFault depth number objects bytes.now e) }
{
    let code = table_code(number, bytes)?;
    match read_items_shared(alloc, &code, depth) {
        Ok(items) => Ok(items),
        Err(ItemFault::At { reason, place }) => Err(table_fault(
            number,
            LoadReason::Item { reason, place },
        )),
        Err(ItemFault::Memory) => Err(LoadFault::Memory),
    }
}

/// Declares the items of table `number` over what is there, and keeps so much of its notes.
pub(crate) fn add_table<S: Space<Object>>(
    alloc: Global,
    loaded: Declaring<S>,
    number: usize,
    bytes: &Bytes,
    keep: Keep<'_>,
    depth: Depth,
) -> Result<Declaring<S>, LoadFault>
    ensures ok { IfOk result (λ r. AddsTable keep.entry depth number bytes.now
        (state_of S.contents loaded) (state_of S.contents r)) }
    ensures lower { IfOk result (λ r. S.lower r.objects ≡ S.lower loaded.objects) }
    ensures err { IfErr result (λ e. IsTableFault depth number
        (namespace_of (S.contents loaded.objects)) bytes.now e) }
{
    let items = table_items(alloc, number, bytes, depth)?;
    let Declaring {
        objects,
        links,
        notes,
    } = loaded;
    let mut notes = notes;
    let mut pass = Pass {
        alloc,
        objects,
        links,
        notes: TableNotes::new(alloc),
    };
    match pass.declare_items(&mut Path::root(alloc), items) {
        Ok(()) => {}
        Err(PassError::Refused(refusal, path)) => return Err(table_fault(
            number,
            LoadReason::Refused { refusal, path },
        )),
        Err(PassError::Memory) => return Err(LoadFault::Memory),
    }
    let Pass {
        objects,
        links,
        notes: noted,
        ..
    } = pass;
    put_kept(&mut notes, noted, keep)?;
    Ok(Declaring {
        objects,
        links,
        notes,
    })
}

/// Declares the items of a DSDT and of SSDTs, one after another, and searches the links of their fields over
/// the final namespace. Nothing is executed. Each table is one whole table in its bytes; `depth` is the
/// greatest level that a term may have. The first table without a listing refuses the load.
pub fn declare_shared<S: Space<Object>>(
    alloc: Global,
    dsdt: &Bytes,
    ssdts: &[Bytes],
    depth: Depth,
) -> Result<Declared<S>, LoadFault>
    ensures ok { IfOk result (λ d. IsLoad depth (dsdt.now ∷ ssdts.now)
        (namespace_of (S.contents (objects_in d))) (links_at (links_in d))) }
    ensures notes { IfOk result (λ d. AreNotes depth (dsdt.now ∷ ssdts.now)
        (map notes_of (notes_in d))) }
    ensures err { IfErr result (λ e. IsLoadFault depth (dsdt.now ∷ ssdts.now) e) }
    ensures none { IfErr result (λ e. e ≢ LoadFault.Memory
        → HasNoLoad depth (dsdt.now ∷ ssdts.now)) }
{
    declare_keeping(alloc, dsdt, ssdts, Keep::All, depth)
}

/// The same as `declare_shared`, but it keeps only so much of what the tables note.
pub fn declare_keeping<S: Space<Object>>(
    alloc: Global,
    dsdt: &Bytes,
    ssdts: &[Bytes],
    keep: Keep<'_>,
    depth: Depth,
) -> Result<Declared<S>, LoadFault>
    ensures ok { IfOk result (λ d. IsLoad depth (dsdt.now ∷ ssdts.now)
        (namespace_of (S.contents (objects_in d))) (links_at (links_in d))) }
    ensures notes { IfOk result (λ d. AreKeptNotes depth (dsdt.now ∷ ssdts.now) keep.entry
        (map notes_of (notes_in d))) }
    ensures err { IfErr result (λ e. IsLoadFault depth (dsdt.now ∷ ssdts.now) e) }
    ensures none { IfErr result (λ e. e ≢ LoadFault.Memory
        → HasNoLoad depth (dsdt.now ∷ ssdts.now)) }
{
    declare_all(alloc, dsdt, ssdts, keep, depth)?.finish(alloc)
}

/// Each table's bytes, once more: copies that can be shared.
pub fn shared_tables(alloc: Global, tables: &[&[u8]]) -> Result<Vec<Bytes>, AllocError>
    ensures { IfOk result (λ v. v.items ≡ map (λ b. b.now) tables.now) }
{
    let mut copies = Vec::new(alloc);
    for table in tables {
        copies.push(Bytes::copy_from_slice(alloc, *table)?)?;
    }
    Ok(copies)
}

/// The same as `declare_shared`, over one copy of each table.
pub fn declare<S: Space<Object>>(
    alloc: Global,
    dsdt: &[u8],
    ssdts: &[&[u8]],
    depth: Depth,
) -> Result<Declared<S>, LoadFault>
    ensures ok { IfOk result (λ d. IsLoad depth (dsdt.now ∷ map (λ b. b.now) ssdts.now)
        (namespace_of (S.contents (objects_in d))) (links_at (links_in d))) }
    ensures notes { IfOk result (λ d. AreNotes depth (dsdt.now ∷ map (λ b. b.now) ssdts.now)
        (map notes_of (notes_in d))) }
    ensures err { IfErr result (λ e. IsLoadFault depth (dsdt.now ∷ map (λ b. b.now) ssdts.now) e) }
    ensures none { IfErr result (λ e. e ≢ LoadFault.Memory
        → HasNoLoad depth (dsdt.now ∷ map (λ b. b.now) ssdts.now)) }
{
    let dsdt = Bytes::copy_from_slice(alloc, dsdt)?;
    let ssdts = shared_tables(alloc, ssdts)?;
    declare_shared(alloc, &dsdt, &ssdts, depth)
}

/// The predefined objects, and nothing else.
pub(crate) fn start<S: Space<Object>>(alloc: Global) -> Result<Declaring<S>, LoadFault>
    ensures ok { IfOk result (λ r. HasTables 0 [] (state_of S.contents r)) }
    ensures memory { IfErr result (λ e. e ≡ LoadFault.Memory) }
{
    Ok(Declaring {
        objects: predefined_space(alloc)?,
        links: Vec::new(alloc),
        notes: Vec::new(alloc),
    })
}

/// Declares all tables, and keeps so much of their notes.
pub(crate) fn declare_all<S: Space<Object>>(
    alloc: Global,
    dsdt: &Bytes,
    ssdts: &[Bytes],
    keep: Keep<'_>,
    depth: Depth,
) -> Result<Declaring<S>, LoadFault>
    ensures ok { IfOk result (λ r. HasKept keep.entry depth (dsdt.now ∷ ssdts.now)
        (state_of S.contents r)) }
    ensures err { IfErr result (λ e. IsLoadFault depth (dsdt.now ∷ ssdts.now) e) }
{
    let mut loaded = add_table(alloc, start(alloc)?, 0, dsdt, keep, depth)?;
    for (i, ssdt) in ssdts.iter().enumerate() {
        loaded = add_table(alloc, loaded, i + 1, ssdt, keep, depth)?;
    }
    Ok(loaded)
}

//! Tables in their shortest spelling.

ghost use Rattle.std.specs.Prelude.{◌≡◌, ◌≢◌, ◌↔◌, ◌<◌, ◌≤◌, ◌++◌, ◌∷◌, ℕ, List, length, get_or, map, All, IfOk, IfErr, true};
ghost use Rattle.std.specs.FinMap.{get};
ghost use Rattle.std.specs.List.{AllZip};
ghost use Rattle.std.specs.Vec.Iter.{into_iter_items};
ghost use Rattle.acpi_tree.specs.Fits.{items_fit};
ghost use Rattle.acpi_tree.specs.Tree.{ItemTrees};
ghost use Rattle.acpi_tree.specs.View.{item_view, items_tree};
ghost use Rattle.acpi_declare.specs.Listing.{Placement};
ghost use Rattle.acpi_declare.specs.Loads.{HasNoLoad};
ghost use Rattle.acpi_declare.specs.Namespace.{namespace_of};
ghost use Rattle.acpi_declare.specs.Notes.{method_of, notes_of};
ghost use Rattle.acpi_declare.specs.Refusals.{IsLoadFault};
ghost use Rattle.acpi_declare.specs.Tables.{IsTableOf};
ghost use Rattle.acpi_order.specs.Bodies.{with_counts};
ghost use Rattle.acpi_order.specs.Machines.{Machine, IsMachine};
ghost use Rattle.acpi_order.specs.Orders.{TellsOfJoin};
ghost use Rattle.acpi_rewrite.specs.Rewriting.{AreTablesOfBytes, item_codes, codes, item_without_code, without_code, IsNewCode, IsRewritten, AreRewritten, LoadToJoin};
ghost use Rattle.acpi_order.specs.steps.Noted.{noted};
ghost use Rattle.acpi_rewrite.specs.steps.Recoding.{IsNoted};

use crate::rewriting_laws::{none_grows, one_rewriting, rewritten_load_alike, rewritten_stay};
use acpi_body::{Body, read_body};
use acpi_counts::Counts;
use acpi_declare::{Declared, LoadFault, Method, TableNotes, declare_shared, shared_tables};
use acpi_space::Space;
use acpi_table::{HEADER_BYTES, split_table};
use acpi_terms::{Depth, Item, ItemFault, Object, read_items_shared};
use acpi_write::{WriteFault, write_table, write_terms};
use bytes::Bytes;
use std::alloc::{AllocError, Global};
use std::vec::IntoIter;

// The items of a slice are bytes.
fn has_bytes(bytes: &[u8])
    ensures { All (λ b. b < 256) bytes.now }
{}

// What is written in the place of a method's code: the terms of its body in their shortest spelling, or the same
// bytes where it isn't read.
fn new_code<S: Space<Object>>(
    alloc: Global,
    objects: &S,
    counts: &Counts,
    method: &Method,
    depth: Depth,
) -> Result<Bytes, AllocError>
    ensures { IfOk result (λ c. IsNewCode depth (namespace_of (S.contents objects.now))
        (with_counts (get counts.now) (method_of method.now)) c) }
{
    let code = method.code.as_slice();
    has_bytes(code);
    match read_body(alloc, objects, &method.path, code, depth, counts)? {
        Body::Terms(terms) => match write_terms(alloc, &terms) {
            Ok(bytes) => Ok(Bytes::from_vec(bytes)?),
            Err(WriteFault::TooLong) => unreachable!(),
            Err(WriteFault::Memory) => Err(AllocError),
        },
        Body::Opaque(_) => method.code.clone(),
    }
}

// .. of the methods that one table notes.
fn new_codes<S: Space<Object>>(
    alloc: Global,
    objects: &S,
    notes: &TableNotes,
    depth: Depth,
) -> Result<Vec<Bytes>, AllocError>
    ensures { IfOk result (λ v. AllZip (IsNewCode depth (namespace_of (S.contents objects.now)))
        (noted (notes_of notes.now)) v.items) }
{
    let mut codes = Vec::new(alloc);
    for method in &notes.methods {
        codes.push(new_code(alloc, objects, &notes.counts, method, depth)?)?;
    }
    Ok(codes)
}

// Puts the next of these codes into the methods of an item, in byte order.
#[cycle(recode)]
fn recode_item(item: &mut Item, fresh: &mut IntoIter<Bytes>)
    requires { length (item_codes (item_view item.old)) ≤ length (into_iter_items fresh.old) }
    ensures alike { item_without_code (item_view item.new)
        ≡ item_without_code (item_view item.old) }
    ensures codes { item_codes (item_view item.new) ++ into_iter_items fresh.new
        ≡ into_iter_items fresh.old }
{
    match item {
        Item::Method { code, .. } => match fresh.next() {
            Some(next) => *code = next,
            None => unreachable!(),
        },
        Item::Scope(_, items) => recode_items(items, fresh),
        Item::Device(_, items) => recode_items(items, fresh),
        Item::Processor { items, .. } => recode_items(items, fresh),
        Item::Power { items, .. } => recode_items(items, fresh),
        Item::Thermal(_, items) => recode_items(items, fresh),
        _ => {}
    }
}

// .. of the items of a list, in order.
#[cycle(recode)]
fn recode_items(items: &mut [Item], fresh: &mut IntoIter<Bytes>)
    requires { length (codes (items_tree items.old)) ≤ length (into_iter_items fresh.old) }
    ensures alike { without_code (items_tree items.new) ≡ without_code (items_tree items.old) }
    ensures codes { codes (items_tree items.new) ++ into_iter_items fresh.new
        ≡ into_iter_items fresh.old }
{
    for item in items.iter_mut() {
        recode_item(item, fresh);
    }
}

// The items of a table that has some.
fn table_items(alloc: Global, table: &Bytes, depth: Depth) -> Result<Vec<Item>, AllocError>
    requires { (number : ℕ) × (is : ItemTrees) × IsTableOf depth number table.now is }
    ensures same { (number : ℕ) (is : ItemTrees) → IsTableOf depth number table.now is
        → IfOk result (λ v. items_tree v.items ≡ is) }
    ensures fits { IfOk result (λ v. items_fit (items_tree v.items) ≡ true) }
{
    let code = table.slice(HEADER_BYTES..)?;
    match read_items_shared(alloc, &code, depth) {
        Ok(items) => Ok(items),
        Err(ItemFault::At { .. }) => unreachable!(),
        Err(ItemFault::Memory) => Err(AllocError),
    }
}

// One table of a load, rewritten over the objects of all.
fn rewritten_table<S: Space<Object>>(
    alloc: Global,
    objects: &S,
    notes: &TableNotes,
    table: &Bytes,
    depth: Depth,
) -> Result<Vec<u8>, AllocError>
    requires { (t : List Placement) × IsNoted depth table.now t (notes_of notes.now) }
    ensures bytes { IfOk result (λ b. All (λ n. n < 256) table.now × All (λ n. n < 256) b.items) }
    ensures rewritten { (t : List Placement) → IsNoted depth table.now t (notes_of notes.now)
        → IfOk result (λ b. IsRewritten depth (namespace_of (S.contents objects.now)) t table.now
        b.items) }
{
    let mut items = table_items(alloc, table, depth)?;
    let mut fresh = new_codes(alloc, objects, notes, depth)?.into_iter();
    recode_items(&mut items, &mut fresh);
    let bytes = table.as_slice();
    has_bytes(bytes);
    let Ok((old, _)) = split_table(bytes) else {
        unreachable!()
    };
    match write_table(alloc, &old.header(), &items) {
        Ok(bytes) => {
            has_bytes(&bytes);
            Ok(bytes)
        }
        Err(WriteFault::TooLong) => unreachable!(),
        Err(WriteFault::Memory) => Err(AllocError),
    }
}

// The table of this number.
fn table_at<'a>(dsdt: &'a Bytes, ssdts: &'a [Bytes], number: usize) -> &'a Bytes
    requires { number ≤ length ssdts.now }
    ensures { result.now ≡ get_or (dsdt.now ∷ ssdts.now) number result.now }
{
    match number.checked_sub(1) {
        None => dsdt,
        Some(i) => &ssdts[i],
    }
}

// The tables of a load, rewritten one after another. What a table noted is dropped with it.
fn rewrite_tables<S: Space<Object>>(
    alloc: Global,
    dsdt: &Bytes,
    ssdts: &[Bytes],
    depth: Depth,
) -> Result<Vec<Vec<u8>>, LoadFault>
    ensures ok { IfOk result (λ v. AreRewritten depth (dsdt.now ∷ ssdts.now)
        (map (λ b. b.items) v.items)) }
    ensures bytes { IfOk result (λ v. AreTablesOfBytes (dsdt.now ∷ ssdts.now)
        × AreTablesOfBytes (map (λ b. b.items) v.items)) }
    ensures err { IfErr result (λ e. IsLoadFault depth (dsdt.now ∷ ssdts.now) e) }
    ensures none { IfErr result (λ e. e ≢ LoadFault.Memory
        → HasNoLoad depth (dsdt.now ∷ ssdts.now)) }
{
    let declared: Declared<S> = declare_shared(alloc, dsdt, ssdts, depth)?;
    let (objects, _, notes) = declared.into_parts();
    let mut rewritten = Vec::new(alloc);
    for noted in notes {
        let table = table_at(dsdt, ssdts, rewritten.len());
        rewritten.push(rewritten_table(alloc, &objects, &noted, table, depth)?)?;
    }
    Ok(rewritten)
}

/// Rewrites a DSDT and SSDTs that load, each in its shortest spelling: package lengths, bit counts and names are as
/// short as they can be, in items and in the bodies of methods that are read. A body that isn't read stays as it is.
/// Length and Checksum of the headers are computed, and all else of them is kept. It is refused as `load_shared`.
pub fn rewrite_shared<S: Space<Object>>(
    alloc: Global,
    dsdt: &Bytes,
    ssdts: &[Bytes],
    depth: Depth,
) -> Result<Vec<Vec<u8>>, LoadFault>
    ensures ok { IfOk result (λ v. AreRewritten depth (dsdt.now ∷ ssdts.now)
        (map (λ b. b.items) v.items)) }
    // They load to the same machine.
    ensures alike { IfOk result (λ v. (m : Machine) → IsMachine depth (dsdt.now ∷ ssdts.now) m
        ↔ IsMachine depth (map (λ b. b.items) v.items) m) }
    // No table has grown.
    ensures no_longer { IfOk result (λ v. AllZip (λ old now. length now ≤ length old)
        (dsdt.now ∷ ssdts.now) (map (λ b. b.items) v.items)) }
    // Rewritten again, they stay as they are, and nothing else is their rewriting.
    ensures stay { IfOk result (λ v. AreRewritten depth (map (λ b. b.items) v.items)
        (map (λ b. b.items) v.items)) }
    ensures only { IfOk result (λ v. (again : List (List ℕ)) → AreTablesOfBytes again
        → AreRewritten depth (map (λ b. b.items) v.items) again → again
        ≡ map (λ b. b.items) v.items) }
    ensures bytes { IfOk result (λ v. AreTablesOfBytes (dsdt.now ∷ ssdts.now)
        × AreTablesOfBytes (map (λ b. b.items) v.items)) }
    // Of independent SSDTs in any order they load to the join of the single loads.
    ensures any_order { TellsOfJoin (λ Part v. LoadToJoin Part depth (map (λ b. b.items) v.items))
        depth dsdt.now ssdts.now result }
    ensures err { IfErr result (λ e. IsLoadFault depth (dsdt.now ∷ ssdts.now) e) }
    ensures none { IfErr result (λ e. e ≢ LoadFault.Memory
        → HasNoLoad depth (dsdt.now ∷ ssdts.now)) }
{
    rewritten_load_alike();
    none_grows();
    rewritten_stay();
    one_rewriting();
    rewrite_tables::<S>(alloc, dsdt, ssdts, depth)
}

/// The same as `rewrite_shared`, over one copy of each table.
pub fn rewrite<S: Space<Object>>(
    alloc: Global,
    dsdt: &[u8],
    ssdts: &[&[u8]],
    depth: Depth,
) -> Result<Vec<Vec<u8>>, LoadFault>
    ensures ok { IfOk result (λ v. AreRewritten depth (dsdt.now ∷ map (λ b. b.now) ssdts.now)
        (map (λ b. b.items) v.items)) }
    ensures alike { IfOk result (λ v. (m : Machine)
        → IsMachine depth (dsdt.now ∷ map (λ b. b.now) ssdts.now) m
        ↔ IsMachine depth (map (λ b. b.items) v.items) m) }
    ensures no_longer { IfOk result (λ v. AllZip (λ old now. length now ≤ length old)
        (dsdt.now ∷ map (λ b. b.now) ssdts.now) (map (λ b. b.items) v.items)) }
    ensures stay { IfOk result (λ v. AreRewritten depth (map (λ b. b.items) v.items)
        (map (λ b. b.items) v.items)) }
    ensures only { IfOk result (λ v. (again : List (List ℕ)) → AreTablesOfBytes again
        → AreRewritten depth (map (λ b. b.items) v.items) again → again
        ≡ map (λ b. b.items) v.items) }
    ensures bytes { IfOk result (λ v. AreTablesOfBytes (dsdt.now ∷ map (λ b. b.now) ssdts.now)
        × AreTablesOfBytes (map (λ b. b.items) v.items)) }
    ensures any_order { TellsOfJoin (λ Part v. LoadToJoin Part depth (map (λ b. b.items) v.items))
        depth dsdt.now (map (λ b. b.now) ssdts.now) result }
    ensures err { IfErr result (λ e. IsLoadFault depth (dsdt.now ∷ map (λ b. b.now) ssdts.now) e) }
    ensures none { IfErr result (λ e. e ≢ LoadFault.Memory
        → HasNoLoad depth (dsdt.now ∷ map (λ b. b.now) ssdts.now)) }
{
    let dsdt = Bytes::copy_from_slice(alloc, dsdt)?;
    let ssdts = shared_tables(alloc, ssdts)?;
    rewrite_shared::<S>(alloc, &dsdt, &ssdts, depth)
}

//! Why the body of a method is not read.

ghost use Rattle.std.specs.Prelude.{◌≡◌, ◌≢◌, ◌∷◌, find, map, IfOk, IfErr};
ghost use Rattle.std.specs.Option.{option_copied};
ghost use Rattle.acpi_space.specs.Lookups.{is_same_path};
ghost use Rattle.acpi_declare.specs.Loads.{HasNoLoad};
ghost use Rattle.acpi_declare.specs.Namespace.{namespace_of};
ghost use Rattle.acpi_declare.specs.Notes.{notes_of};
ghost use Rattle.acpi_declare.specs.Refusals.{IsLoadFault};
ghost use Rattle.acpi_machine.specs.Explaining.{IsReasonAt, IsExplained};
ghost use Rattle.acpi_order.specs.steps.Noted.{all_noted};

use acpi_body::{BodyFault, why};
use acpi_declare::{Declared, Keep, LoadFault, Method, TableNotes, declare_keeping, shared_tables};
use acpi_name::Path;
use acpi_space::Space;
use acpi_terms::{Depth, Object};
use bytes::Bytes;
use std::alloc::{AllocError, Global};

// The method of that path.
fn method_at<'a>(methods: &'a [Method], path: &Path) -> Option<&'a Method>
    ensures { option_copied result ≡ find (λ m. is_same_path m.path path.now) methods.now }
{
    methods.iter().find(|method| method.path == *path)
}

// Why the method of that path, as the tables note it, has no reading; None where they note none there.
fn reason_at<S: Space<Object>>(
    alloc: Global,
    objects: &S,
    notes: &[TableNotes],
    path: &Path,
    depth: Depth,
) -> Result<Option<BodyFault>, AllocError>
    ensures { IfOk result (λ w. IsReasonAt depth (namespace_of (S.contents objects.now))
        (all_noted (map notes_of notes.now)) path.now w) }
{
    for table in notes {
        if let Some(method) = method_at(&table.methods, path) {
            return why(
                alloc,
                objects,
                &method.path,
                &method.code,
                depth,
                &table.counts,
            );
        }
    }
    Ok(None)
}

/// Why the body of the method at a path is not read, where the tables are loaded: a reason, and its place in bytes
/// from the body's first byte. None where no table declares a method at the path, or its body is read. It is refused
/// as `load_shared`.
pub fn explain_shared<S: Space<Object>>(
    alloc: Global,
    dsdt: &Bytes,
    ssdts: &[Bytes],
    path: &Path,
    depth: Depth,
) -> Result<Option<BodyFault>, LoadFault>
    ensures ok { IfOk result (λ w. IsExplained depth (dsdt.now ∷ ssdts.now) path.now w) }
    ensures err { IfErr result (λ e. IsLoadFault depth (dsdt.now ∷ ssdts.now) e) }
    ensures none { IfErr result (λ e. e ≢ LoadFault.Memory
        → HasNoLoad depth (dsdt.now ∷ ssdts.now)) }
{
    let declared: Declared<S> = declare_keeping(alloc, dsdt, ssdts, Keep::MethodAt(path), depth)?;
    Ok(reason_at(alloc, declared.objects(), declared.notes(), path, depth)?)
}

/// The same as `explain_shared`, over one copy of each table.
pub fn explain<S: Space<Object>>(
    alloc: Global,
    dsdt: &[u8],
    ssdts: &[&[u8]],
    path: &Path,
    depth: Depth,
) -> Result<Option<BodyFault>, LoadFault>
    ensures ok { IfOk result (λ w. IsExplained depth
        (dsdt.now ∷ map (λ b. b.now) ssdts.now) path.now w) }
    ensures err { IfErr result (λ e. IsLoadFault depth (dsdt.now ∷ map (λ b. b.now) ssdts.now) e) }
    ensures none { IfErr result (λ e. e ≢ LoadFault.Memory
        → HasNoLoad depth (dsdt.now ∷ map (λ b. b.now) ssdts.now)) }
{
    let dsdt = Bytes::copy_from_slice(alloc, dsdt)?;
    let ssdts = shared_tables(alloc, ssdts)?;
    explain_shared::<S>(alloc, &dsdt, &ssdts, path, depth)
}

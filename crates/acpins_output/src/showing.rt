//! The printed form of one object, with the body of its method.

ghost use Rattle.std.specs.Prelude.{◌≡◌, ◌∷◌, ◌++◌, ℕ, List, IfErr, IfOk, OnOk};
ghost use Rattle.std.specs.Option.{option_map, option_copied};
ghost use Rattle.acpi_body.specs.Bodies.{body_view};
ghost use Rattle.acpi_declare.specs.Refusals.{IsLoadFault};
ghost use Rattle.acpi_machine.specs.MachineView.{bodies_of, machine_of};
ghost use Rattle.acpins_output.specs.Shown.{reason_text, IsBodyText, ShowsOrNone, ShowsLoaded};

use crate::listing::links_of;
use acpi_body::{Body, BodyFault};
use acpi_declare::LoadFault;
use acpi_machine::{Machine, explain_shared, load_with_body_at};
use acpi_name::Path;
use acpi_space::Space;
use acpi_terms::{Depth, Object};
use acpi_text::{put_decimal, put_line, put_opaque, put_terms};
use bytes::Bytes;
use std::alloc::Global;
use std::collections::BTreeMap;
use text_buffer::Text;

// Puts the line that says why a body is not read, and where.
fn put_reason(text: &mut Text, fault: Option<BodyFault>)
    ensures { text.new ≡ text.old ++ reason_text fault }
{
    if let Some(fault) = fault {
        text.put("At ");
        put_decimal(text, fault.place as u64);
        text.put(": ");
        text.put(fault.reason.text());
        text.put("\n");
    }
}

/// The body of the method at the path, where a table declares one.
pub fn body_at<'a>(path: &Path, bodies: &'a BTreeMap<Path, Body>) -> Option<&'a Body>
    ensures { option_map body_view (option_copied result) ≡ bodies_of bodies.now path.now }
{
    bodies.get(path)
}

// Puts the body of the method at the path: its statements, or its bytes and why they are not read. Where no table
// declares a method there, nothing is put.
fn put_body<S: Space<Object>>(
    alloc: Global,
    dsdt: &Bytes,
    ssdts: &[Bytes],
    depth: Depth,
    bodies: &BTreeMap<Path, Body>,
    path: &Path,
    text: &mut Text,
) -> Result<(), LoadFault>
    ensures ok { OnOk result ((added : List ℕ)
        × IsBodyText depth (dsdt.now ∷ ssdts.now) path.now (bodies_of bodies.now path.now) added
        × (text.new ≡ text.old ++ added)) }
    ensures err { IfErr result (λ e. IsLoadFault depth (dsdt.now ∷ ssdts.now) e) }
{
    match body_at(path, bodies) {
        None => Ok(()),
        Some(Body::Terms(terms)) => {
            put_terms(text, terms);
            Ok(())
        }
        Some(Body::Opaque(bytes)) => {
            put_opaque(text, bytes);
            let fault = explain_shared::<S>(alloc, dsdt, ssdts, path, depth)?;
            put_reason(text, fault);
            Ok(())
        }
    }
}

// The line of the object at the path, and the body of the method there; None where no object is there.
fn shown_of<S: Space<Object>>(
    alloc: Global,
    dsdt: &Bytes,
    ssdts: &[Bytes],
    depth: Depth,
    machine: &Machine<S>,
    path: &Path,
) -> Result<Option<Vec<u8>>, LoadFault>
    ensures ok { IfOk result (λ text. ShowsOrNone depth (dsdt.now ∷ ssdts.now)
        (machine_of S.contents machine.now) path.now
        (option_map (λ v. v.items) text)) }
    ensures err { IfErr result (λ e. IsLoadFault depth (dsdt.now ∷ ssdts.now) e) }
{
    let Some(object) = machine.objects().get(path) else {
        return Ok(None);
    };
    let mut text = Text::new(alloc);
    put_line(&mut text, path, object, links_of(path, machine.links()));
    put_body::<S>(alloc, dsdt, ssdts, depth, machine.bodies(), path, &mut text)?;
    Ok(Some(text.into_bytes()?))
}

/// The line of the object at the path, and the body of the method there, of what the tables load to; None where no
/// object is there. No other body is read.
pub fn show<S: Space<Object>>(
    alloc: Global,
    dsdt: &Bytes,
    ssdts: &[Bytes],
    depth: Depth,
    path: &Path,
) -> Result<Option<Vec<u8>>, LoadFault>
    ensures ok { IfOk result (λ text. ShowsLoaded depth (dsdt.now ∷ ssdts.now) path.now
        (option_map (λ v. v.items) text)) }
    ensures err { IfErr result (λ e. IsLoadFault depth (dsdt.now ∷ ssdts.now) e) }
{
    let machine: Machine<S> = load_with_body_at(alloc, dsdt, ssdts, path, depth)?;
    shown_of(alloc, dsdt, ssdts, depth, &machine, path)
}

//! What is printed of SSDTs: that they may be loaded in any order, or why perhaps not.

ghost use Rattle.std.specs.Prelude.{◌≡◌, ◌≢◌, ◌∷◌, ℕ, ◌++◌, [], codes, decimal, IfErr, IfOk};
ghost use Rattle.std.specs.List.{flat_map};
ghost use Rattle.acpi_declare.specs.Refusals.{IsLoadFault};
ghost use Rattle.acpins_output.specs.Checked.{triple_line, satisfied_line, Checks};
ghost use Rattle.acpins_output.specs.FaultTexts.{fault_text};

use crate::faults::put_fault;
use crate::output::Output;
use acpi_declare::{LoadFault, LoadReason};
use acpi_name::Path;
use acpi_space::Space;
use acpi_terms::{Depth, Object};
use acpi_text::{put_decimal, put_path};
use acpi_verdict::{Checked, Satisfied, Verdict, check_shared};
use acpins_io::IntoText;
use bytes::Bytes;
use std::alloc::{AllocError, Global};
use text_buffer::Text;

// A line of a word, two numbers of tables and a path.
fn put_triple(text: &mut Text, word: &str, first: usize, second: usize, path: &Path)
    ensures { text.new ≡ text.old
        ++ triple_line word.now first second path.now }
{
    text.put(word);
    text.put(" ");
    put_decimal(text, first as u64);
    text.put(" ");
    put_decimal(text, second as u64);
    text.put(" ");
    put_path(text, path);
    text.put("\n")
}

// Why a table can't be loaded.
fn put_reason(text: &mut Text, reason: &LoadReason)
    ensures { text.new ≡ text.old ++ fault_text reason.now }
{
    put_fault(&mut IntoText, text, reason)
}

// The reason of a fault that is no allocation failure.
fn reason_of(fault: LoadFault) -> LoadReason
    requires { fault ≢ LoadFault.Memory }
    ensures { (table : ℕ) × (fault ≡ LoadFault.At table result) }
{
    match fault {
        LoadFault::At { reason, .. } => reason,
        LoadFault::Memory => unreachable!(),
    }
}

// The line of an SSDT that is refused over the DSDT alone.
fn put_not_alone(text: &mut Text, ssdt: usize, reason: &LoadReason)
    ensures { text.new ≡ text.old
        ++ (codes "not alone " ++ decimal ssdt ++ codes ": " ++ fault_text reason.now ++ 10 ∷ []) }
{
    text.put("not alone ");
    put_decimal(text, ssdt as u64);
    text.put(": ");
    put_reason(text, reason);
    text.put("\n")
}

// A line for each External that another table satisfies.
fn put_satisfied(text: &mut Text, satisfied: &[Satisfied])
    ensures { text.new ≡ text.old
        ++ flat_map satisfied_line satisfied.now }
{
    for triple in satisfied {
        put_triple(text, "satisfied", triple.user, triple.definer, &triple.path);
    }
}

/// Whether the SSDTs may be loaded in any order over the DSDT: `commute`, with status 0, and a line for each External
/// that another table satisfies; or the line of the first reason why perhaps not, with status 3. Only the DSDT is
/// refused: an SSDT that doesn't load is a verdict.
pub fn check<S: Space<Object>>(
    alloc: Global,
    dsdt: &Bytes,
    ssdts: &[Bytes],
    depth: Depth,
) -> Result<Output, LoadFault>
    ensures ok { IfOk result (λ m. Checks depth dsdt.now ssdts.now m.status m.text.items) }
    ensures err { IfErr result (λ e. IsLoadFault depth (dsdt.now ∷ []) e) }
{
    let mut text = Text::new(alloc);
    let Checked { verdict, satisfied } = check_shared::<S>(alloc, dsdt, ssdts, depth)?;
    match verdict {
        Verdict::Commute => {
            text.put("commute\n");
            put_satisfied(&mut text, &satisfied);
            let text = text.into_bytes()?;
            Ok(Output { text, status: 0 })
        }
        Verdict::NotAlone { i, fault } => {
            put_not_alone(&mut text, i, &reason_of(fault));
            let text = text.into_bytes()?;
            Ok(Output { text, status: 3 })
        }
        Verdict::Same { i, j, path } => {
            put_triple(&mut text, "same", i, j, &path);
            let text = text.into_bytes()?;
            Ok(Output { text, status: 3 })
        }
        Verdict::Missed {
            searcher,
            definer,
            path,
        } => {
            put_triple(&mut text, "missed", searcher, definer, &path);
            let text = text.into_bytes()?;
            Ok(Output { text, status: 3 })
        }
    }
}

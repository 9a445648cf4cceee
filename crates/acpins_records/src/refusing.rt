//! Refusals, and what all calls share.

ghost use Rattle.std.specs.Prelude.{◌≡◌, ◌≢◌, ◌⊎◌, ◌<◌, length, IfOk, OnErr};
ghost use Rattle.acpi_name.specs.Text.{path_text};
ghost use Rattle.acpins_records.specs.Outcomes.{refused_as};
ghost use Rattle.acpins_lent.specs.Lent.{IsFront};
ghost use Rattle.acpins_records.specs.Written.{TellsPath};

use crate::outcome::Outcome;
use acpi_declare::LoadReason;
use acpi_name::Path;
use acpi_text::put_path;
use acpins_lent::{MEMORY, REFUSED, put_front};
use std::alloc::{AllocError, Global};
use text_buffer::Text;

/// The text of a path.
pub(crate) fn path_bytes(alloc: Global, path: &Path) -> Result<Vec<u8>, AllocError>
    ensures { IfOk result (λ v. v.items ≡ path_text path.now) }
{
    let mut text = Text::new(alloc);
    put_path(&mut text, path);
    text.into_bytes()
}

/// Writes the text of a path, where there is room for it, and gives its length.
pub(crate) fn write_path(alloc: Global, path: &Path, text: &mut [u8]) -> Result<usize, AllocError>
    ensures count { IfOk result (λ n. n ≡ length (path_text path.now)) }
    ensures put { IfOk result (λ n. IsFront (path_text path.now) text.old text.new
        ⊎ ((length text.old < n) × (text.new ≡ text.old))) }
    ensures err { OnErr result (text.new ≡ text.old) }
{
    let bytes = path_bytes(alloc, path)?;
    if bytes.len() <= text.len() {
        put_front(text, &bytes);
    }
    Ok(bytes.len())
}

/// Writes why a table is refused.
pub(crate) fn write_refusal(
    alloc: Global,
    table: usize,
    reason: &LoadReason,
    text: &mut [u8],
    outcome: &mut Outcome,
) -> u32
    ensures refused { result ≡ REFUSED → outcome.new
        ≡ refused_as table reason.now outcome.new.text }
    ensures path { result ≡ REFUSED → TellsPath reason.now outcome.new.text text.old text.new }
    ensures status { (result ≡ REFUSED) ⊎ (result ≡ MEMORY) }
    ensures stay { result ≢ REFUSED → text.new ≡ text.old }
    ensures outcome_stays { result ≢ REFUSED → outcome.new ≡ outcome.old }
{
    let length = match reason {
        LoadReason::Refused { path, .. } => match write_path(alloc, path, text) {
            Ok(length) => length,
            Err(_) => return MEMORY,
        },
        _ => 0,
    };
    *outcome = Outcome::refused(table, reason, length);
    REFUSED
}

//! Which text is asked for.

ghost use Rattle.std.specs.Prelude.{◌≡◌, ◌≢◌, IfOk, IfErr, IfSome, Err, None};
ghost use Rattle.acpi_name.specs.Text.{IsPathText};
ghost use Rattle.acpins_survey_calls.specs.Asked.{IsPrintedBy, command_of};

use acpi_name::PathFault;
use acpins_lent::path_in;
use acpins_survey_run::Print;
use std::alloc::Global;

/// What `list` prints: a line for each entry, problem and note.
pub const LIST: u32 = 1;

/// What `list --bodies` prints: with the objects that methods declare.
pub const LIST_BODIES: u32 = 2;

/// What `map` prints: what each byte is.
pub const MAP: u32 = 3;

/// What `bodies` prints: the methods.
pub const BODIES: u32 = 4;

/// What `show` prints: the objects at a path.
pub const SHOW: u32 = 5;

/// What `uses` prints, of all objects, or of those at a path and below.
pub const USES: u32 = 6;

/// What `check` prints: what is wrong or probably a mistake.
pub const CHECK: u32 = 7;

/// What `report` prints.
pub const REPORT: u32 = 8;

/// What `report -v` prints.
pub const REPORT_ALL: u32 = 9;

/// What `json` prints.
pub const JSON: u32 = 10;

/// The page that `html` writes.
pub const HTML: u32 = 11;

// The uses of what is at a path and below, or of all where it has no bytes.
fn uses_of(alloc: Global, path: &[u8]) -> Result<Print, PathFault>
    ensures ok { IfOk result (λ p. IsPrintedBy 6 path.now p) }
    ensures bad { result ≡ Err PathFault.BadText → IsPathText path.now → ⊥ }
{
    if path.is_empty() {
        return Ok(Print::Uses { path: None });
    }
    Ok(Print::Uses {
        path: Some(path_in(alloc, path)?),
    })
}

/// What is made of tables; None where the number means no text.
pub(crate) fn print_of(alloc: Global, what: u32, path: &[u8]) -> Result<Option<Print>, PathFault>
    ensures ok { IfOk result (λ found. IfSome found (IsPrintedBy what path.now)) }
    ensures none { IfOk result (λ found. found ≡ None → command_of what path.now ≡ None) }
    ensures asked { IfErr result (λ _. command_of what path.now ≢ None) }
    ensures bad { result ≡ Err PathFault.BadText → IsPathText path.now → ⊥ }
{
    let print = match what {
        LIST => Print::List { has_bodies: false },
        LIST_BODIES => Print::List { has_bodies: true },
        MAP => Print::Map,
        BODIES => Print::Bodies,
        SHOW => Print::Show(path_in(alloc, path)?),
        USES => uses_of(alloc, path)?,
        CHECK => Print::Check {
            is_verbose: false,
            ignored: Vec::new(alloc),
        },
        REPORT => Print::Report {
            is_verbose: false,
            width: None,
        },
        REPORT_ALL => Print::Report {
            is_verbose: true,
            width: None,
        },
        JSON => Print::Json,
        HTML => Print::Html,
        _ => return Ok(None),
    };
    Ok(Some(print))
}

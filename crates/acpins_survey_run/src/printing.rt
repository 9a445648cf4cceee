//! What commands print of tables.

ghost use Rattle.std.specs.Prelude.{◌≡◌, ◌⊎◌, ℕ, List, IfOk, IfErr, Err, Some};
ghost use Rattle.acpi_name.specs.Text.{SpellsPathText};
ghost use Rattle.acpins_survey_words.specs.Words.{Command as AskedCommand, command_in};
ghost use Rattle.acpins_survey_run.specs.Machines.{Machines, machines_in};
ghost use Rattle.acpins_survey_run.specs.Prints.{IsPrintOf};
ghost use Rattle.acpins_survey_run.specs.Runs.{path_word};
ghost use Rattle.acpins_survey_run.specs.steps.Refusals.{IsUnprinted};
ghost use Rattle.acpins_survey_run.specs.declared.failure.PrintFault.{PrintFault};

use crate::failure::{Failure, PrintFault};
use crate::lines::printed_name;
use crate::tables::FoundMachines;
use acpi_check_ids::CheckId;
use acpi_code::Depth;
use acpi_name::{Path, PathFault};
use acpins_survey_words::Command;
use std::alloc::Global;

/// What is made of tables.
#[derive(Debug, Drop)]
pub enum Print {
    /// The lines of objects, problems and notes.
    List {
        /// Whether the objects that methods declare have lines too.
        has_bodies: bool,
    },
    /// The objects at this path.
    Show(Path),
    /// Where objects are used.
    Uses {
        /// Of the objects at this path and below, or of all.
        path: Option<Path>,
    },
    /// What each byte is.
    Map,
    /// The methods.
    Bodies,
    /// What is wrong or probably a mistake.
    Check {
        /// Whether findings that are alike have a line each.
        is_verbose: bool,
        /// The ids of the findings that are left out.
        ignored: Vec<CheckId>,
    },
    /// What differs between two machines.
    Diff {
        /// Whether nothing is folded.
        is_verbose: bool,
    },
    /// The overview for people.
    Report {
        /// Whether all is told.
        is_verbose: bool,
        /// The most characters of a line, where they are given.
        width: Option<usize>,
    },
    /// All of it, as JSON.
    Json,
    /// The overview as a page.
    Html,
}

/// What a run prints, and the status with which it ends once that is printed.
#[derive(Debug, Drop)]
pub struct Output {
    /// The bytes for standard output.
    pub text: Vec<u8>,
    /// 0, or 3 where there is a problem in a table; of `check` 3 where there is an error or a warning, of `diff` where the
    /// machines differ.
    pub status: u8,
}

/// Makes texts of tables. Contracts see which texts these may be.
pub trait Printer {
    // Which text, with which status, a command makes of tables that are read to a depth.
    ghost makes: { AskedCommand → ℕ → Machines → ℕ → List ℕ → Type 0 };

    // Whether no object may be at the path that the word of a command spells.
    ghost has_nothing: { AskedCommand → ℕ → Machines → Type 0 };

    /// The text that is made of the tables of machines, with at most `depth` levels of terms; a report has colours or not.
    fn text(
        &self,
        alloc: Global,
        print: &Print,
        found: &FoundMachines,
        depth: Depth,
        is_coloured: bool,
    ) -> Result<Output, PrintFault>
        ensures made { IfOk result (λ m. (command : AskedCommand) → IsPrintOf command print.now
            → makes command depth (machines_in found.now) m.status m.text.items) }
        ensures statuses { IfOk result (λ m. (m.status ≡ 0) ⊎ (m.status ≡ 3)) }
        ensures nothing { result ≡ Err PrintFault.NoSuchPath → (command : AskedCommand)
            → IsPrintOf command print.now → has_nothing command depth (machines_in found.now) };
}

// The path that the word spells.
fn path_of(alloc: Global, word: &str) -> Result<Path, Failure>
    ensures ok { IfOk result (λ p. SpellsPathText p word.now) }
    ensures err { IfErr result (IsUnprinted (Some word.now)) }
{
    match Path::from_text(alloc, word) {
        Ok(path) => Ok(path),
        Err(PathFault::BadText) => Err(Failure::BadPath(printed_name(alloc, word)?)),
        Err(PathFault::Memory) => Err(Failure::Memory),
    }
}

/// What the command makes, with the path that its word spells.
pub fn print_of(alloc: Global, command: &Command<'_>) -> Result<Print, Failure>
    ensures ok { IfOk result (IsPrintOf (command_in command.now)) }
    ensures err { IfErr result (IsUnprinted (path_word (command_in command.now))) }
{
    match command {
        Command::List { has_bodies } => Ok(Print::List {
            has_bodies: *has_bodies,
        }),
        Command::Show(word) => Ok(Print::Show(path_of(alloc, word)?)),
        Command::Uses(None) => Ok(Print::Uses { path: None }),
        Command::Uses(Some(word)) => Ok(Print::Uses {
            path: Some(path_of(alloc, word)?),
        }),
        Command::Map => Ok(Print::Map),
        Command::Bodies => Ok(Print::Bodies),
        Command::Check {
            is_verbose,
            ignored,
        } => Ok(Print::Check {
            is_verbose: *is_verbose,
            ignored: Vec::from_slice(alloc, ignored)?,
        }),
        Command::Diff { is_verbose } => Ok(Print::Diff {
            is_verbose: *is_verbose,
        }),
        Command::Report { is_verbose, width } => Ok(Print::Report {
            is_verbose: *is_verbose,
            width: *width,
        }),
        Command::Json => Ok(Print::Json),
        Command::Html(_) => Ok(Print::Html),
    }
}

//! The words that commands over tables share, as clap's forms.

ghost use Rattle.std.specs.Prelude.{◌≡◌, ◌⊎◌, true, false, IfOk, IsOkAnd, None, Some, codes};
ghost use Rattle.clap.specs.Built.{AddsSubcommand};
ghost use Rattle.clap.specs.Faults.{is_simple_and_free};
ghost use Rattle.clap.specs.Matches.{found_of};
ghost use Rattle.clap.specs.Simple.{app_of, new_app, with_rule};
ghost use Rattle.clap.specs.Takes.{is_given};
ghost use Rattle.clap.specs.Values.{kind_of};
ghost use Rattle.clap.specs.Walk.{all_of, first_of, rows_of, rule_of, texts};
ghost use Rattle.clap.specs.declared.builder.command.Command.TheViews.{out-Command as fields_of};
ghost use Rattle.acpins_words.specs.Arguments.{alone, depth_or_usual, depth_rule, depth_said, file_rule, files_shape, found_in};
ghost use Rattle.acpins_words.specs.Arguments.{hex_rule, out_rule, out_shape, path_rule, path_shape, program_shape};

use crate::fault::WordsFault;
use acpi_code::Depth;
use clap::error::ErrorKind;
use clap::parser::ValueSource;
use clap::{Arg, ArgAction, ArgMatches, Command, Error};
use std::alloc::{AllocError, Global};

/// The levels that terms may have where no word says so.
const USUAL_DEPTH: u32 = 1024;

fn hex<'a>(alloc: Global) -> Arg<'a>
    ensures rule { rule_of result ≡ hex_rule }
    ensures local { result.global ≡ false }
{
    Arg::new(alloc, "hex")
        .long("hex")
        .action(ArgAction::SetTrue)
}

fn depth<'a>(alloc: Global) -> Arg<'a>
    ensures rule { rule_of result ≡ depth_rule }
    ensures local { result.global ≡ false }
{
    Arg::new(alloc, "depth")
        .long("depth")
        .action(ArgAction::Set)
}

fn path<'a>(alloc: Global) -> Arg<'a>
    ensures rule { rule_of result ≡ path_rule }
    ensures local { result.global ≡ false }
{
    Arg::new(alloc, "path").required(true)
}

fn out<'a>(alloc: Global) -> Arg<'a>
    ensures rule { rule_of result ≡ out_rule }
    ensures local { result.global ≡ false }
{
    Arg::new(alloc, "out").required(true)
}

fn files<'a>(alloc: Global) -> Arg<'a>
    ensures rule { rule_of result ≡ file_rule }
    ensures local { result.global ≡ false }
{
    Arg::new(alloc, "file")
        .required(true)
        .num_args(1..)
        .action(ArgAction::Append)
}

// A command over tables, with the options that each has.
fn over_tables<'a>(alloc: Global, name: &'a str) -> Result<Command<'a>, AllocError>
    ensures app { IfOk result (λ command. app_of command
        ≡ with_rule (with_rule (new_app name.now) hex_rule) depth_rule) }
    ensures local { IfOk result (λ command. (fields_of command).has_globals ≡ false) }
{
    Command::new(alloc, name).arg(hex(alloc))?.arg(depth(alloc))
}

/// A command of that name: `--hex`, `--depth NUMBER`, and one file or more.
pub fn over_files<'a>(alloc: Global, name: &'a str) -> Result<Command<'a>, AllocError>
    ensures app { IfOk result (λ command. app_of command ≡ alone (files_shape name.now)) }
    ensures local { IfOk result (λ command. (fields_of command).has_globals ≡ false) }
{
    over_tables(alloc, name)?.arg(files(alloc))
}

/// The same, with the path of an object before the files.
pub fn over_path<'a>(alloc: Global, name: &'a str) -> Result<Command<'a>, AllocError>
    ensures app { IfOk result (λ command. app_of command ≡ alone (path_shape name.now)) }
    ensures local { IfOk result (λ command. (fields_of command).has_globals ≡ false) }
{
    over_tables(alloc, name)?
        .arg(path(alloc))?
        .arg(files(alloc))
}

/// The same, with the file that is written before those that are read.
pub fn over_out<'a>(alloc: Global, name: &'a str) -> Result<Command<'a>, AllocError>
    ensures app { IfOk result (λ command. app_of command ≡ alone (out_shape name.now)) }
    ensures local { IfOk result (λ command. (fields_of command).has_globals ≡ false) }
{
    over_tables(alloc, name)?.arg(out(alloc))?.arg(files(alloc))
}

/// A program of that name, which wants a subcommand and has none yet.
pub fn program<'a>(alloc: Global, name: &'a str) -> Command<'a>
    ensures { app_of result ≡ alone (program_shape name.now) }
{
    Command::new(alloc, name)
        .no_binary_name(true)
        .disable_help_flag(true)
        .disable_version_flag(true)
        .disable_help_subcommand(true)
        .subcommand_required(true)
}

/// A command with one more subcommand, where that could be made.
pub fn with<'a>(
    command: Command<'a>,
    subcommand: Result<Command<'a>, AllocError>,
) -> Result<Command<'a>, AllocError>
    ensures { IfOk result (λ new. IsOkAnd subcommand.entry
        (λ added. AddsSubcommand command.entry added new)) }
{
    command.subcommand(subcommand?)
}

// A number of decimal digits, from 1 to 4,096.
fn depth_of(text: &str) -> Option<Depth>
    ensures { result ≡ depth_said text.now }
{
    let mut depth: u32 = 0;
    for digit in text.as_bytes() {
        if !digit.is_ascii_digit() || depth > 4096 {
            return None;
        }
        depth = depth * 10 + u32::from(*digit - b'0');
    }
    Depth::new(depth)
}

// The greatest level that a term may have, where a command was found with these words: 1,024 where none says it. None
// where what says it is no number from 1 to 4,096.
fn depth_in(found: &ArgMatches<'_>) -> Option<Depth>
    ensures { result ≡ depth_or_usual (first_of (codes "depth") (rows_of (found_of found.now))) }
{
    match found.get_str("depth") {
        Some(text) => depth_of(text),
        None => Depth::new(USUAL_DEPTH),
    }
}

/// Whether the flag of that id is one of a command's words. A flag has a value even where it isn't.
pub fn has_flag(found: &ArgMatches<'_>, id: &str) -> bool
    ensures { result ≡ is_given id.now (rows_of (found_of found.now)) }
{
    match found.value_source(id) {
        Some(ValueSource::CommandLine) => true,
        Some(ValueSource::DefaultValue) => false,
        None => found.contains_id(id),
    }
}

/// What each command over tables is given.
#[derive(Debug, Drop)]
pub struct TableArguments<'a> {
    /// Whether the files are hexadecimal text.
    pub hex: bool,
    /// The greatest level that a term may have.
    pub depth: Depth,
    /// The files, in order.
    pub files: Vec<&'a str>,
}

/// What a command over tables is given by the words that were found for it. `WordsFault::Wrong` where the depth is no
/// number from 1 to 4,096, or where there are no files.
pub fn read_arguments<'a>(
    alloc: Global,
    found: &ArgMatches<'a>,
) -> Result<TableArguments<'a>, WordsFault>
    ensures hex { IfOk result (λ read.
        read.hex ≡ is_given (codes "hex") (rows_of (found_of found.now))) }
    ensures depth { IfOk result (λ read.
        depth_or_usual (first_of (codes "depth") (rows_of (found_of found.now)))
        ≡ Some read.depth) }
    ensures files { IfOk result (λ read.
        all_of (codes "file") (rows_of (found_of found.now)) ≡ Some (texts read.files.items)) }
    ensures wrong { result ≡ Err WordsFault.Wrong
        → (depth_or_usual (first_of (codes "depth") (rows_of (found_of found.now))) ≡ None)
        ⊎ (all_of (codes "file") (rows_of (found_of found.now)) ≡ None) }
{
    let Some(depth) = depth_in(found) else {
        return Err(WordsFault::Wrong);
    };
    let Some(files) = found.get_strs("file") else {
        return Err(WordsFault::Wrong);
    };
    let files = Vec::from_slice(alloc, files)?;
    Ok(TableArguments {
        hex: has_flag(found, "hex"),
        depth,
        files,
    })
}

// Why clap finds no command in words.
fn fault_of(error: &Error) -> WordsFault
    ensures memory { kind_of error.now ≡ ErrorKind.OutOfMemory → result ≡ WordsFault.Memory }
    ensures words { (kind_of error.now ≡ ErrorKind.OutOfMemory → ⊥) → result ≡ WordsFault.Wrong }
{
    match error.kind() {
        ErrorKind::OutOfMemory => WordsFault::Memory,
        _ => WordsFault::Wrong,
    }
}

/// The subcommand that words name, with what clap found for it. `WordsFault::Wrong` where they are none that the
/// command knows.
pub fn find_subcommand<'a>(
    command: Command<'a>,
    words: &'a [&'a str],
) -> Result<(&'a str, ArgMatches<'a>), WordsFault>
    requires { is_simple_and_free (app_of command) ≡ true }
    ensures found { IfOk result (λ found. found_in (app_of command.entry) (texts words.now)
        ≡ Some (found.0.now, rows_of (found_of found.1))) }
    ensures wrong { result ≡ Err WordsFault.Wrong
        → found_in (app_of command.entry) (texts words.now) ≡ None }
{
    let mut matches = match command.try_get_matches_from(words) {
        Ok(matches) => matches,
        Err(error) => return Err(fault_of(&error)),
    };
    match matches.remove_subcommand() {
        Some((name, found)) => Ok((name, found)),
        None => Err(WordsFault::Wrong),
    }
}

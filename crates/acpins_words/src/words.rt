//! The words of the command.

ghost use Rattle.std.specs.Prelude.{◌≡◌, IfOk, option_map};
ghost use Rattle.clap.specs.Matches.{found_of};
ghost use Rattle.clap.specs.Simple.{app_of};
ghost use Rattle.clap.specs.Walk.{rows_of, texts};
ghost use Rattle.acpins_words.specs.Words.{acpins_app, asked_in, asked_of, command_by, command_in};

use crate::arguments::{
    TableArguments, find_subcommand, over_files, over_out, over_path, program, read_arguments, with,
};
use crate::fault::WordsFault;
use acpi_code::Depth;
use clap::ArgMatches;
use std::alloc::{AllocError, Global};

/// What is made of the tables.
#[derive(Debug, Drop)]
pub enum Command<'a> {
    /// A line for each object.
    List,
    /// The object whose path this text spells. Whether it spells one has not been looked at.
    Show(&'a str),
    /// Whether the SSDTs may be loaded in any order.
    Check,
    /// Nothing: the tables are written to this file, each in its shortest spelling.
    Rewrite(&'a str),
}

/// What the words ask for: a command over the tables in these files.
#[derive(Debug, Drop)]
pub struct Request<'a> {
    /// What is made.
    pub command: Command<'a>,
    /// Whether the files are hexadecimal text.
    pub hex: bool,
    /// The greatest level that a term may have.
    pub depth: Depth,
    /// The files, in order.
    pub files: Vec<&'a str>,
}

fn forms<'a>(alloc: Global) -> Result<clap::Command<'a>, AllocError>
    ensures { IfOk result (λ command. app_of command ≡ acpins_app) }
{
    let command = with(program(alloc, "acpins"), over_files(alloc, "list"))?;
    let command = with(command, over_path(alloc, "show"))?;
    let command = with(command, over_files(alloc, "check"))?;
    with(command, over_out(alloc, "rewrite"))
}

// The command of this name, with what was found for it.
fn command_in<'a>(name: &str, found: &ArgMatches<'a>) -> Option<Command<'a>>
    ensures { option_map command_in result ≡ command_by name.now (rows_of (found_of found.now)) }
{
    match name {
        "list" => Some(Command::List),
        "show" => Some(Command::Show(found.get_str("path")?)),
        "check" => Some(Command::Check),
        "rewrite" => Some(Command::Rewrite(found.get_str("out")?)),
        _ => None,
    }
}

/// Reads the words that follow the program's name. `WordsFault::Wrong` where they ask for nothing.
pub fn read_words<'a>(alloc: Global, words: &'a [&'a str]) -> Result<Request<'a>, WordsFault>
    ensures found { IfOk result (λ request.
        asked_of (texts words.now) ≡ Some (asked_in request)) }
    ensures wrong { result ≡ Err WordsFault.Wrong → asked_of (texts words.now) ≡ None }
{
    let (name, found) = find_subcommand(forms(alloc)?, words)?;
    let Some(command) = command_in(name, &found) else {
        return Err(WordsFault::Wrong);
    };
    let TableArguments { hex, depth, files } = read_arguments(alloc, &found)?;
    Ok(Request {
        command,
        hex,
        depth,
        files,
    })
}

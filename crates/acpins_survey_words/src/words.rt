//! What the arguments ask for.

ghost use Rattle.std.specs.Prelude.{◌≡◌, ◌∷◌, [], false, IfOk, None, codes, is_some, option_map};
ghost use Rattle.clap.specs.Matches.{found_of};
ghost use Rattle.clap.specs.Simple.{app_of};
ghost use Rattle.clap.specs.Walk.{rows_of, rule_of, texts};
ghost use Rattle.clap.specs.declared.builder.command.Command.TheViews.{out-Command as fields_of};
ghost use Rattle.acpins_words.specs.Arguments.{alone};
ghost use Rattle.acpins_survey_words.specs.Words.{asked_in, asked_of, asks_help, bodies_rule, check_by, command_by, command_in};
ghost use Rattle.acpins_survey_words.specs.Words.{check_shape, files_behind, ids_of, ignore_rule, ignored_by};
ghost use Rattle.acpins_survey_words.specs.Words.{is_rooted, list_shape, path_first, plain_command};
ghost use Rattle.acpins_survey_words.specs.Words.{help_in, invocation_in, invocation_of, is_end, is_help};
ghost use Rattle.acpins_survey_words.specs.Words.{lone_invocation, named_invocation, survey_app};
ghost use Rattle.acpins_survey_words.specs.Words.{is_width, report_by, report_shape, topic_in, topic_of, verbose_rule, verbose_shape, width_rule};

use acpi_check_ids::CheckId;
use acpi_code::Depth;
use acpins_words::WordsFault;
use acpins_words::arguments::{
    TableArguments, find_subcommand, has_flag, over_files, over_out, over_path, program,
    read_arguments, with,
};
use clap::{Arg, ArgAction, ArgMatches};
use std::alloc::{AllocError, Global};

/// What is made of the survey of the tables.
#[derive(Debug, Drop)]
pub enum Command<'a> {
    /// A line for each object that may exist, then the problems and notes.
    List {
        /// Whether the objects that methods declare have lines too.
        has_bodies: bool,
    },
    /// The objects at the path that this text spells. Whether it spells one has not been looked at.
    Show(&'a str),
    /// Where the objects at this path and below are used, or all that are used. Whether the text spells a path has not
    /// been looked at.
    Uses(Option<&'a str>),
    /// What each byte of each table is.
    Map,
    /// Every method: read, or why not.
    Bodies,
    /// What is wrong or probably a mistake.
    Check {
        /// Whether findings that are alike have a line each.
        is_verbose: bool,
        /// The ids of the findings that are left out.
        ignored: Vec<CheckId>,
    },
    /// What differs between two machines: the tables of the first file and those of the second one.
    Diff {
        /// Whether nothing is folded.
        is_verbose: bool,
    },
    /// An overview for people.
    Report {
        /// Whether siblings that are alike have a line each, and long lists are whole.
        is_verbose: bool,
        /// The most characters of a line, from 60 to 1,000, where they are given.
        width: Option<usize>,
    },
    /// All of it, as JSON.
    Json,
    /// The overview as a page of HTML, which is written to this file.
    Html(&'a str),
}

/// A survey that the arguments ask for: a command over the tables in these files.
#[derive(Debug, Drop)]
pub struct Request<'a> {
    /// What is made.
    pub command: Command<'a>,
    /// Whether the files are hexadecimal text.
    pub hex: bool,
    /// The greatest level that a term may have.
    pub depth: Depth,
    /// The files and folders, in order.
    pub files: Vec<&'a str>,
}

/// What help is about.
#[derive(Clone, Copy, Debug, PartialEq, Eq)]
pub enum Topic {
    /// The whole program.
    Program,
    /// `list`
    List,
    /// `show`
    Show,
    /// `uses`
    Uses,
    /// `map`
    Map,
    /// `bodies`
    Bodies,
    /// `check`
    Check,
    /// `diff`
    Diff,
    /// `report`
    Report,
    /// `json`
    Json,
    /// `html`
    Html,
}

/// What the arguments ask for.
#[derive(Debug, Drop)]
pub enum Invocation<'a> {
    /// How the program is called.
    Help(Topic),
    /// Which program this is.
    Version,
    /// A survey.
    Survey(Request<'a>),
}

// What help is about behind the name of a command.
pub(crate) fn topic_of(name: &str) -> Option<Topic>
    ensures { result ≡ topic_of name.now }
{
    match name {
        "list" => Some(Topic::List),
        "show" => Some(Topic::Show),
        "uses" => Some(Topic::Uses),
        "map" => Some(Topic::Map),
        "bodies" => Some(Topic::Bodies),
        "check" => Some(Topic::Check),
        "diff" => Some(Topic::Diff),
        "report" => Some(Topic::Report),
        "json" => Some(Topic::Json),
        "html" => Some(Topic::Html),
        _ => None,
    }
}

// What help is about among these arguments: the command that the first one names, or the program.
fn topic_in(words: &[&str]) -> Topic
    ensures { result ≡ topic_in (texts words.now) }
{
    match words {
        [name, ..] => topic_of(name).unwrap_or(Topic::Program),
        [] => Topic::Program,
    }
}

fn is_help(word: &str) -> bool
    ensures { result ≡ is_help word.now }
{
    word == "--help" || word == "-h"
}

fn is_end(word: &str) -> bool
    ensures { result ≡ is_end word.now }
{
    word == "--"
}

// Whether `--help` or `-h` is an argument, before `--` if that is one.
fn asks_help(words: &[&str]) -> bool
    ensures { result ≡ asks_help (texts words.now) }
{
    words
        .iter()
        .take_while(|word| !is_end(word))
        .any(|word| is_help(word))
}

// What an argument asks for that stands alone.
fn lone_invocation<'a>(word: &str) -> Option<Invocation<'a>>
    ensures { option_map invocation_in result ≡ lone_invocation word.now }
{
    match word {
        "help" => Some(Invocation::Help(Topic::Program)),
        "--version" => Some(Invocation::Version),
        _ => None,
    }
}

// The help on a command that two arguments ask for.
fn command_help<'a>(word: &str, name: &str) -> Option<Invocation<'a>>
    ensures { option_map invocation_in result
        ≡ named_invocation (word.now ∷ name.now ∷ []) }
{
    match word {
        "help" => Some(Invocation::Help(topic_of(name)?)),
        _ => None,
    }
}

// The help or the version that arguments ask for.
fn help_in<'a>(words: &[&str]) -> Option<Invocation<'a>>
    ensures { option_map invocation_in result ≡ help_in (texts words.now) }
{
    if asks_help(words) {
        return Some(Invocation::Help(topic_in(words)));
    }
    match words {
        [word] => lone_invocation(word),
        [word, name] => command_help(word, name),
        _ => None,
    }
}

fn verbose<'a>(alloc: Global) -> Arg<'a>
    ensures rule { rule_of result ≡ verbose_rule }
    ensures local { result.global ≡ false }
{
    Arg::new(alloc, "verbose")
        .short('v')
        .action(ArgAction::SetTrue)
}

fn ignore<'a>(alloc: Global) -> Arg<'a>
    ensures rule { rule_of result ≡ ignore_rule }
    ensures local { result.global ≡ false }
{
    Arg::new(alloc, "ignore")
        .long("ignore")
        .action(ArgAction::Append)
}

fn width<'a>(alloc: Global) -> Arg<'a>
    ensures rule { rule_of result ≡ width_rule }
    ensures local { result.global ≡ false }
{
    Arg::new(alloc, "width")
        .long("width")
        .action(ArgAction::Set)
}

fn bodies<'a>(alloc: Global) -> Arg<'a>
    ensures rule { rule_of result ≡ bodies_rule }
    ensures local { result.global ≡ false }
{
    Arg::new(alloc, "bodies")
        .long("bodies")
        .action(ArgAction::SetTrue)
}

// The list's form: a command over files with `--bodies`.
fn list_form<'a>(alloc: Global) -> Result<clap::Command<'a>, AllocError>
    ensures app { IfOk result (λ command. app_of command ≡ alone list_shape) }
    ensures local { IfOk result (λ command. (fields_of command).has_globals ≡ false) }
{
    over_files(alloc, "list")?.arg(bodies(alloc))
}

// The form of the check: a command over files with `-v` and `--ignore ID`.
fn check_form<'a>(alloc: Global) -> Result<clap::Command<'a>, AllocError>
    ensures app { IfOk result (λ command. app_of command ≡ alone check_shape) }
    ensures local { IfOk result (λ command. (fields_of command).has_globals ≡ false) }
{
    over_files(alloc, "check")?
        .arg(verbose(alloc))?
        .arg(ignore(alloc))
}

// The form of the report: a command over files with `-v` and `--width NUMBER`.
fn report_form<'a>(alloc: Global) -> Result<clap::Command<'a>, AllocError>
    ensures app { IfOk result (λ command. app_of command ≡ alone report_shape) }
    ensures local { IfOk result (λ command. (fields_of command).has_globals ≡ false) }
{
    over_files(alloc, "report")?
        .arg(verbose(alloc))?
        .arg(width(alloc))
}

// The form of `diff`: a command of that name over files with `-v`.
fn verbose_form<'a>(alloc: Global, name: &'a str) -> Result<clap::Command<'a>, AllocError>
    ensures app { IfOk result (λ command. app_of command ≡ alone (verbose_shape name.now)) }
    ensures local { IfOk result (λ command. (fields_of command).has_globals ≡ false) }
{
    over_files(alloc, name)?.arg(verbose(alloc))
}

fn forms<'a>(alloc: Global) -> Result<clap::Command<'a>, AllocError>
    ensures { IfOk result (λ command. app_of command ≡ survey_app) }
{
    let command = with(program(alloc, "acpins-survey"), list_form(alloc))?;
    let command = with(command, over_path(alloc, "show"))?;
    let command = with(command, over_files(alloc, "uses"))?;
    let command = with(command, over_files(alloc, "map"))?;
    let command = with(command, over_files(alloc, "bodies"))?;
    let command = with(command, check_form(alloc))?;
    let command = with(command, verbose_form(alloc, "diff"))?;
    let command = with(command, report_form(alloc))?;
    let command = with(command, over_files(alloc, "json"))?;
    with(command, over_out(alloc, "html"))
}

// Whether a word begins with `\`, as paths do.
pub(crate) fn is_rooted(word: &str) -> bool
    ensures { result ≡ is_rooted word.now }
{
    word.starts_with('\\')
}

// A first operand, where it begins with `\`.
fn path_first(first: Option<&str>) -> Option<&str>
    ensures { option_map (λ path. path.now) result
        ≡ path_first (option_map (λ word. word.now) first.entry) }
{
    match first {
        Some(word) if is_rooted(word) => Some(word),
        _ => None,
    }
}

// The ids that these words spell; None where one is no id.
fn ids_of(alloc: Global, words: &[&str]) -> Result<Option<Vec<CheckId>>, AllocError>
    ensures { IfOk result (λ ids. option_map (λ v. v.items) ids ≡ ids_of (texts words.now)) }
{
    let mut ids = Vec::new(alloc);
    for word in words {
        let Some(id) = CheckId::of(word) else {
            return Ok(None);
        };
        ids.push(id)?;
    }
    Ok(Some(ids))
}

// The ids that stand behind `--ignore`.
fn ignored_in(alloc: Global, found: &ArgMatches<'_>) -> Result<Option<Vec<CheckId>>, AllocError>
    ensures { IfOk result (λ ids. option_map (λ v. v.items) ids
        ≡ ignored_by (rows_of (found_of found.now))) }
{
    match found.get_strs("ignore") {
        Some(words) => ids_of(alloc, words),
        None => Ok(Some(Vec::new(alloc))),
    }
}

// The check, with what was found for it.
fn check_in<'a>(alloc: Global, found: &ArgMatches<'a>) -> Result<Option<Command<'a>>, AllocError>
    ensures { IfOk result (λ command. option_map command_in command
        ≡ check_by (rows_of (found_of found.now))) }
{
    let is_verbose = has_flag(found, "verbose");
    match ignored_in(alloc, found)? {
        Some(ignored) => Ok(Some(Command::Check {
            is_verbose,
            ignored,
        })),
        None => Ok(None),
    }
}

/// The number of columns that decimal digits say, from 60 to 1,000.
pub(crate) fn width_of(text: &str) -> Option<usize>
    ensures { is_some result ≡ is_width text.now }
{
    let mut width: usize = 0;
    for digit in text.as_bytes() {
        if !digit.is_ascii_digit() || width > 1000 {
            return None;
        }
        width = width * 10 + usize::from(*digit - b'0');
    }
    if width < 60 || width > 1000 {
        return None;
    }
    Some(width)
}

// The report, with what was found for it; None where its width is none.
fn report_in<'a>(found: &ArgMatches<'a>) -> Option<Command<'a>>
    ensures { option_map command_in result ≡ report_by (rows_of (found_of found.now)) }
{
    let is_verbose = has_flag(found, "verbose");
    let width = match found.get_str("width") {
        Some(text) => Some(width_of(text)?),
        None => None,
    };
    Some(Command::Report { is_verbose, width })
}

// The command of this name, where it is another than `check`, with what was found for it.
fn plain_command<'a>(name: &str, found: &ArgMatches<'a>) -> Option<Command<'a>>
    ensures { option_map command_in result ≡ plain_command name.now (rows_of (found_of found.now)) }
{
    match name {
        "list" => Some(Command::List {
            has_bodies: has_flag(found, "bodies"),
        }),
        "show" => Some(Command::Show(found.get_str("path")?)),
        "uses" => Some(Command::Uses(path_first(found.get_str("file")))),
        "map" => Some(Command::Map),
        "bodies" => Some(Command::Bodies),
        "diff" => Some(Command::Diff {
            is_verbose: has_flag(found, "verbose"),
        }),
        "report" => report_in(found),
        "json" => Some(Command::Json),
        "html" => Some(Command::Html(found.get_str("out")?)),
        _ => None,
    }
}

// The command of this name, with what was found for it.
fn command_in<'a>(
    alloc: Global,
    name: &str,
    found: &ArgMatches<'a>,
) -> Result<Option<Command<'a>>, AllocError>
    ensures { IfOk result (λ command. option_map command_in command
        ≡ command_by name.now (rows_of (found_of found.now))) }
{
    if name == "check" {
        check_in(alloc, found)
    } else {
        Ok(plain_command(name, found))
    }
}

// The files among the operands of a command: of `uses PATH` those behind PATH, at least one; of `diff` all, which are two.
fn files_behind<'s, 'a>(command: &Command<'a>, operands: &'s [&'a str]) -> Option<&'s [&'a str]>
    ensures { option_map (λ files. texts files.now) result
        ≡ files_behind (command_in command.now) (texts operands.now) }
{
    match command {
        Command::Uses(Some(_)) => match operands {
            [_, files @ ..] if !files.is_empty() => Some(files),
            _ => None,
        },
        Command::Diff { .. } => match operands {
            [_, _] => Some(operands),
            _ => None,
        },
        _ => Some(operands),
    }
}

// The survey that the arguments ask for.
fn read_request<'a>(alloc: Global, words: &'a [&'a str]) -> Result<Request<'a>, WordsFault>
    ensures found { IfOk result (λ request. asked_of (texts words.now) ≡ Some (asked_in request)) }
    ensures wrong { result ≡ Err WordsFault.Wrong → asked_of (texts words.now) ≡ None }
{
    let (name, found) = find_subcommand(forms(alloc)?, words)?;
    let Some(command) = command_in(alloc, name, &found)? else {
        return Err(WordsFault::Wrong);
    };
    let TableArguments { hex, depth, files } = read_arguments(alloc, &found)?;
    let Some(files) = files_behind(&command, &files) else {
        return Err(WordsFault::Wrong);
    };
    let files = Vec::from_slice(alloc, files)?;
    Ok(Request {
        command,
        hex,
        depth,
        files,
    })
}

/// Reads the arguments that follow the program's name. `WordsFault::Wrong` where they ask for nothing; `fault_text` says
/// why.
pub fn read_words<'a>(alloc: Global, words: &'a [&'a str]) -> Result<Invocation<'a>, WordsFault>
    ensures found { IfOk result (λ invocation. invocation_of (texts words.now)
        ≡ Some (invocation_in invocation)) }
    ensures wrong { result ≡ Err WordsFault.Wrong → invocation_of (texts words.now) ≡ None }
{
    match help_in(words) {
        Some(invocation) => Ok(invocation),
        None => Ok(Invocation::Survey(read_request(alloc, words)?)),
    }
}

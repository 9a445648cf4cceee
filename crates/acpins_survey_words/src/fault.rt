//! Why arguments ask for nothing, in one line.

use crate::words::{is_rooted, topic_of, width_of};
use acpi_check_ids::CheckId;
use acpi_code::Depth;
use acpi_text::put_byte;
use std::alloc::{AllocError, Global};
use text_buffer::Text;

// Why arguments ask for nothing.
#[derive(Debug, Drop)]
enum Fault<'a> {
    NoCommand,
    UnknownCommand(&'a str),
    // An option before the command.
    UnknownOption(&'a str),
    NotOfCommand { option: &'a str, command: &'a str },
    Twice(&'a str),
    TakesNoValue(&'a str),
    NoDepth,
    BadDepth(&'a str),
    NoId,
    NoWidth,
    BadWidth(&'a str),
    BadId(&'a str),
    Missing { command: &'a str, operand: &'a str },
    // An operand behind those of the command.
    MoreThanTwo,
    ManyCommands,
    MoreThanVersion,
}

// What the next argument is.
#[derive(Clone, Copy)]
enum Value {
    // The number of `--depth`.
    Depth,
    // An id of `--ignore`.
    Id,
    // The number of `--width`.
    Width,
}

// The arguments of a command, as far as they are read.
#[derive(Drop)]
struct Operation<'a> {
    command: &'a str,
    has_hex: bool,
    has_depth: bool,
    has_bodies: bool,
    has_verbose: bool,
    has_width: bool,
    // What the next argument is, where an option needs it.
    needed: Option<Value>,
    // Whether `--` ended the options.
    has_ended: bool,
    // Whether the first operand of `uses` is a path.
    has_path: bool,
    operands: usize,
}

// A command that is none; an empty text stands for no command.
fn unknown_command(name: &str) -> Fault<'_> {
    if name.is_empty() {
        Fault::NoCommand
    } else {
        Fault::UnknownCommand(name)
    }
}

// Whether an argument is an option where the options have not ended: `-` alone is none.
fn is_option(argument: &str) -> bool {
    argument.len() > 1 && argument.starts_with('-')
}

// Whether an option is `-v` several times.
fn is_verbose_again(option: &str) -> bool {
    match option.strip_prefix('-') {
        Some(flags) => flags.len() > 1 && flags.bytes().all(|flag| flag == b'v'),
        None => false,
    }
}

fn check_no_value<'a>(name: &'a str, value: Option<&str>) -> Result<(), Fault<'a>> {
    match value {
        Some(_) => Err(Fault::TakesNoValue(name)),
        None => Ok(()),
    }
}

fn check_depth(value: &str) -> Result<(), Fault<'_>> {
    let is_depth = match value.parse::<u32>() {
        Ok(limit) => !value.starts_with('+') && Depth::new(limit).is_some(),
        Err(_) => false,
    };
    if is_depth {
        Ok(())
    } else if value.is_empty() {
        Err(Fault::NoDepth)
    } else {
        Err(Fault::BadDepth(value))
    }
}

fn check_id(value: &str) -> Result<(), Fault<'_>> {
    match CheckId::of(value) {
        Some(_) => Ok(()),
        None if value.is_empty() => Err(Fault::NoId),
        None => Err(Fault::BadId(value)),
    }
}

fn check_width(value: &str) -> Result<(), Fault<'_>> {
    match width_of(value) {
        Some(_) => Ok(()),
        None if value.is_empty() => Err(Fault::NoWidth),
        None => Err(Fault::BadWidth(value)),
    }
}

fn check_value(needed: Value, value: &str) -> Result<(), Fault<'_>> {
    match needed {
        Value::Depth => check_depth(value),
        Value::Id => check_id(value),
        Value::Width => check_width(value),
    }
}

// Why an option without its value is wrong.
fn no_value<'a>(needed: Value) -> Fault<'a> {
    match needed {
        Value::Depth => Fault::NoDepth,
        Value::Id => Fault::NoId,
        Value::Width => Fault::NoWidth,
    }
}

// Notes an option that may be given once.
fn note_once<'a>(is_given: &mut bool, name: &'a str) -> Result<(), Fault<'a>> {
    if *is_given {
        return Err(Fault::Twice(name));
    }
    *is_given = true;
    Ok(())
}

impl<'a> Operation<'a> {
    fn new(command: &'a str) -> Operation<'a> {
        Operation {
            command,
            has_hex: false,
            has_depth: false,
            has_bodies: false,
            has_verbose: false,
            has_width: false,
            needed: None,
            has_ended: false,
            has_path: false,
            operands: 0,
        }
    }

    // Reads one more argument.
    fn read(&mut self, argument: &'a str) -> Result<(), Fault<'a>> {
        if let Some(value) = self.needed {
            self.needed = None;
            return check_value(value, argument);
        }
        if self.has_ended || !is_option(argument) {
            self.note_operand(argument);
            return Ok(());
        }
        if argument == "--" {
            self.has_ended = true;
            return Ok(());
        }
        self.read_option(argument)
    }

    fn note_operand(&mut self, operand: &str) {
        if self.operands == 0 {
            self.has_path = self.command == "uses" && is_rooted(operand);
        }
        self.operands = self.operands.saturating_add(1);
    }

    fn read_option(&mut self, option: &'a str) -> Result<(), Fault<'a>> {
        let (name, value) = match option.split_once('=') {
            Some((name, value)) => (name, Some(value)),
            None => (option, None),
        };
        match name {
            "--hex" => {
                check_no_value(name, value)?;
                note_once(&mut self.has_hex, name)
            }
            "--depth" => {
                note_once(&mut self.has_depth, name)?;
                self.read_value(Value::Depth, value)
            }
            "--ignore" if self.command == "check" => self.read_value(Value::Id, value),
            "--width" if self.command == "report" => {
                note_once(&mut self.has_width, name)?;
                self.read_value(Value::Width, value)
            }
            "--bodies" if self.command == "list" => {
                check_no_value(name, value)?;
                note_once(&mut self.has_bodies, name)
            }
            _ if matches!(self.command, "check" | "diff" | "report") => {
                self.read_verbose(option, name, value)
            }
            _ => Err(self.unknown(option)),
        }
    }

    fn read_value(&mut self, needed: Value, value: Option<&'a str>) -> Result<(), Fault<'a>> {
        match value {
            Some(value) => check_value(needed, value),
            None => {
                self.needed = Some(needed);
                Ok(())
            }
        }
    }

    // Reads an option that only `check`, `diff` and `report` have.
    fn read_verbose(
        &mut self,
        option: &'a str,
        name: &'a str,
        value: Option<&'a str>,
    ) -> Result<(), Fault<'a>> {
        if name == "-v" {
            check_no_value(name, value)?;
            note_once(&mut self.has_verbose, name)
        } else if is_verbose_again(name) {
            Err(Fault::Twice("-v"))
        } else {
            Err(self.unknown(option))
        }
    }

    fn unknown(&self, option: &'a str) -> Fault<'a> {
        Fault::NotOfCommand {
            option,
            command: self.command,
        }
    }

    // The first operand of the command, where that is no FILE.
    fn first_operand(&self) -> Option<&'static str> {
        match self.command {
            "show" => Some("a PATH"),
            "uses" if self.has_path => Some("a PATH"),
            "html" => Some("an OUT"),
            "diff" => Some("OLD"),
            _ => None,
        }
    }

    // Whether something is missing behind the last argument.
    fn finish(&self) -> Result<(), Fault<'a>> {
        if let Some(value) = self.needed {
            return Err(no_value(value));
        }
        if self.command == "diff" && self.operands > 2 {
            return Err(Fault::MoreThanTwo);
        }
        let operand = match (self.first_operand(), self.operands) {
            (Some(first), 0) => first,
            (Some("OLD"), 1) => "NEW",
            (Some(_), 1) | (None, 0) => "a FILE",
            _ => return Ok(()),
        };
        Err(Fault::Missing {
            command: self.command,
            operand,
        })
    }
}

// Finds what is wrong of the arguments of a command.
fn check_operation<'a>(command: &'a str, arguments: &[&'a str]) -> Result<(), Fault<'a>> {
    let mut operation = Operation::new(command);
    for argument in arguments {
        operation.read(argument)?;
    }
    operation.finish()
}

// Finds what is wrong of what follows `help`.
fn check_help<'a>(arguments: &[&'a str]) -> Result<(), Fault<'a>> {
    match arguments {
        [] => Ok(()),
        [name, rest @ ..] => {
            if topic_of(name).is_none() {
                Err(unknown_command(name))
            } else if rest.is_empty() {
                Ok(())
            } else {
                Err(Fault::ManyCommands)
            }
        }
    }
}

// Finds what is wrong of arguments.
fn check<'a>(arguments: &[&'a str]) -> Result<(), Fault<'a>> {
    match arguments {
        [] => Err(Fault::NoCommand),
        ["help", rest @ ..] => check_help(rest),
        ["--version"] => Ok(()),
        ["--version", ..] => Err(Fault::MoreThanVersion),
        [first, rest @ ..] => {
            if topic_of(first).is_some() {
                check_operation(first, rest)
            } else if is_option(first) {
                Err(Fault::UnknownOption(first))
            } else {
                Err(unknown_command(first))
            }
        }
    }
}

// Puts an argument as it is printed: `\x` and two digits stand for a control character.
fn put_printed(text: &mut Text, argument: &str) {
    for byte in argument.as_bytes() {
        if byte.is_ascii_control() {
            text.put("\\x");
            put_byte(text, *byte);
        } else {
            text.put_one(*byte);
        }
    }
}

fn put_each(text: &mut Text, parts: &[&str]) {
    for part in parts {
        put_printed(text, part);
    }
}

fn put_fault(text: &mut Text, fault: &Fault<'_>) {
    match fault {
        Fault::NoCommand => text.put("a command is missing"),
        Fault::UnknownCommand(name) => put_each(text, &["unknown command ", name]),
        Fault::UnknownOption(option) => put_each(text, &["unknown option ", option]),
        Fault::NotOfCommand { option, command } => {
            put_each(text, &["unknown option ", option, " of ", command])
        }
        Fault::Twice(name) => put_each(text, &[name, " is given twice"]),
        Fault::TakesNoValue(name) => put_each(text, &[name, " takes no value"]),
        Fault::NoDepth => text.put("--depth needs a number"),
        Fault::BadDepth(value) => put_each(text, &["--depth ", value, ": from 1 to 4096"]),
        Fault::NoId => text.put("--ignore needs an ID"),
        Fault::NoWidth => text.put("--width needs a number"),
        Fault::BadWidth(value) => put_each(text, &["--width ", value, ": from 60 to 1000"]),
        Fault::BadId(value) => put_each(text, &["--ignore ", value, ": no such ID"]),
        Fault::Missing { command, operand } => {
            put_each(text, &[command, ": ", operand, " is missing"])
        }
        Fault::MoreThanTwo => text.put("diff takes OLD and NEW alone"),
        Fault::ManyCommands => text.put("help takes one command"),
        Fault::MoreThanVersion => text.put("--version takes no arguments"),
    }
}

/// Why these arguments ask for nothing, as one line says it, with no line end: for arguments of which `read_words` answers
/// `WordsFault::Wrong`. Control characters of arguments are `\x` and their two digits.
pub fn fault_text(alloc: Global, arguments: &[&str]) -> Result<Vec<u8>, AllocError> {
    let mut text = Text::new(alloc);
    match check(arguments) {
        Err(fault) => put_fault(&mut text, &fault),
        Ok(()) => text.put("wrong arguments"),
    }
    text.put(" (see acpins-survey --help)");
    text.into_bytes()
}

//! The arguments, the folders and the terminal of the host.

ghost use Rattle.std.specs.Prelude.{◌≡◌};
ghost use Rattle.std.specs.declared.io.ErrorKind.{ErrorKind};
ghost use Rattle.acpins_survey_run.specs.declared.failure.Failure.{Failure};

use crate::console::Console;
use crate::failure::Failure;
use crate::folders::Folders;
use acpins_io::FileFault;
use std::alloc::Global;
use std::env::{Env, VarError};
use std::io::{ErrorKind, IsTerminal};
use std::{env, fs, str};

/// The most bytes of an argument, as Linux has it.
const ARGUMENT_BYTES: usize = 1 << 17;

// The number of the first argument that is not UTF-8. None where it isn't found.
fn find_not_utf8(rt: &HostRuntime, alloc: Global) -> Result<Option<usize>, Failure> {
    let mut bytes = vec![in alloc; 0; ARGUMENT_BYTES]?;
    for number in 0..usize::MAX {
        match rt.arg(number, &mut bytes) {
            Ok(length) if str::from_utf8(&bytes[..length]).is_err() => return Ok(Some(number)),
            Ok(_) => {}
            Err(_) => return Ok(None),
        }
    }
    Ok(None)
}

// Why the host's arguments can't be had: there is no memory for them, or one is not UTF-8.
fn arguments_failure(rt: &HostRuntime, alloc: Global, kind: ErrorKind) -> Failure
    ensures { kind ≡ ErrorKind.OutOfMemory → result ≡ Failure.Memory }
{
    match kind {
        ErrorKind::OutOfMemory => Failure::Memory,
        _ => match find_not_utf8(rt, alloc) {
            Ok(number) => Failure::NotUtf8(number),
            Err(failure) => failure,
        },
    }
}

/// The arguments of the process, the program's name first.
pub fn arguments(rt: &HostRuntime, alloc: Global) -> Result<Vec<String>, Failure> {
    match env::args(rt) {
        Ok(arguments) => Ok(arguments.collect(alloc)?),
        Err(error) => Err(arguments_failure(rt, alloc, error.kind())),
    }
}

/// The name of standard input.
const STREAM_NAME: &str = "-";

/// The folders of the host, by the paths that it knows. `-` is none of them: it is standard input.
#[derive(Drop)]
pub struct HostFolders<'a> {
    rt: &'a HostRuntime,
    // The kind of the error with which reading a folder failed last.
    last_error: Option<ErrorKind>,
}

impl<'a> HostFolders<'a> {
    /// The host's folders.
    pub fn new(rt: &'a HostRuntime) -> HostFolders<'a> {
        HostFolders {
            rt,
            last_error: None,
        }
    }

    // The names in the folder; None where what has that name is no folder.
    fn listing(&self, folder: &str) -> Result<Option<Vec<String>>, FileFault> {
        if folder == STREAM_NAME {
            return Ok(None);
        }
        let alloc = self.rt.alloc();
        let listing = match fs::read_dir(self.rt, folder) {
            Ok(listing) => listing,
            Err(e) if e.kind() == ErrorKind::NotADirectory => return Ok(None),
            Err(e) => return Err(FileFault::from(e)),
        };
        let mut names = Vec::new(alloc);
        for entry in listing {
            match entry {
                Ok(entry) => names.push(String::from_str(alloc, entry.file_name())?)?,
                Err(e) if e.kind() == ErrorKind::InvalidFilename => {}
                Err(e) => return Err(FileFault::from(e)),
            }
        }
        Ok(Some(names))
    }
}

impl<'a> Folders for HostFolders<'a> {
    ghost last_error = { λ folders. folders.last_error };

    fn names(&mut self, folder: &str) -> Result<Option<Vec<String>>, FileFault> {
        match self.listing(folder) {
            Ok(names) => Ok(names),
            Err(FileFault::Memory) => Err(FileFault::Memory),
            Err(FileFault::Host(kind)) => {
                self.last_error = Some(kind);
                Err(FileFault::Host(kind))
            }
        }
    }
}

/// From so many bytes of tables on, a line is written before work over them begins: it may take longer than a second.
const MANY_BYTES: usize = 1 << 20;

/// The terminal of the host: a report has colours where standard output is one and `NO_COLOR` is unset or empty; a line
/// says that long work begins where standard error is one.
#[derive(Drop)]
pub struct HostConsole<'a> {
    rt: &'a HostRuntime,
}

impl<'a> HostConsole<'a> {
    /// The host's terminal.
    pub fn new(rt: &'a HostRuntime) -> HostConsole<'a> {
        HostConsole { rt }
    }
}

// Whether the environment asks for no colours: `NO_COLOR` is there and not empty.
fn asks_no_colours(rt: &HostRuntime) -> bool {
    match env::var(rt, "NO_COLOR") {
        Ok(value) => !value.is_empty(),
        Err(VarError::NotPresent) => false,
        Err(_) => true,
    }
}

impl<'a> Console for HostConsole<'a> {
    fn shows_colours(&self) -> bool {
        self.rt.stdout().is_terminal() && !asks_no_colours(self.rt)
    }

    fn work_begins(&mut self, bytes: usize) {
        if bytes >= MANY_BYTES && self.rt.stderr().is_terminal() {
            let _ = eprintln!(self.rt; "acpins-survey: reading {bytes} bytes of tables ..");
        }
    }
}

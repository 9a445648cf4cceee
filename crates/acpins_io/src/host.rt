//! The files of the host.

ghost use Rattle.std.specs.Prelude.{◌≡◌};
ghost use Rattle.std.specs.Option.{option_or};
ghost use Rattle.acpins_io.specs.Faults.{error_of};

use crate::dump::begins_as_tables;
use crate::files::{FileFault, Files};
use crate::open_file::OpenFile;
use std::alloc::AllocError;
use std::fs::{File, Metadata};
use std::io::{ErrorKind, Read, Stdin, Stdout, Write};
use std::os::unix::fs::{MetadataExt, OpenOptionsExt, fchown};
use std::path::{Path, PathBuf};
use std::{fs, io};

/// The most symbolic links that are followed to a file, as Linux has it.
const MOST_LINKS: u32 = 40;

/// How many names are tried for a new file: each may be that of one which a run left that was killed.
const MOST_NAMES: u32 = 1000;

/// How many bytes show whether tables begin there: those of a header of `acpidump`'s text.
const FRONT_BYTES: u64 = 10;

/// The name of the standard streams.
const STREAM_NAME: &str = "-";

/// The files of the host. One that is made is written beside the one in whose place it is to stand, and put there
/// once it is whole: until then, and where that fails, the old one stays as it was. Pipes and devices are written as
/// they are.
#[derive(Drop)]
pub struct HostFiles<'a> {
    rt: &'a HostRuntime,
    has_streams: bool,
    // The kind of the error with which opening or reading a file failed last.
    last_error: Option<ErrorKind>,
}

/// A file of the host that is read, or its standard input.
#[derive(Drop)]
pub struct HostReader {
    source: HostInput,
}

#[derive(Drop)]
enum HostInput {
    Stdin(Stdin),
    File(File),
}

/// A file of the host that is written, or its standard output.
#[derive(Drop)]
pub struct HostFile {
    sink: Sink,
}

#[derive(Drop)]
enum Sink {
    Stdout(Stdout),
    // A file that is written in its place.
    InPlace(File),
    // A new file, which gets its path once it is whole.
    Beside(File, Rename),
}

// The path of a new file, and the one that it gets once it is whole.
#[derive(Drop)]
struct Rename {
    from: PathBuf,
    to: PathBuf,
}

// What stands under the name of a file that is to be written.
#[derive(Drop)]
enum Target {
    Absent,
    Regular(Metadata),
    // A pipe or a device, open to be written.
    Stream(File),
}

impl Read for HostReader {
    fn read(&mut self, bytes: &mut [u8]) -> io::Result<usize> {
        match &mut self.source {
            HostInput::Stdin(stdin) => stdin.read(bytes),
            HostInput::File(file) => file.read(bytes),
        }
    }
}

impl Write for HostFile {
    fn write(&mut self, bytes: &[u8]) -> io::Result<usize> {
        match &mut self.sink {
            Sink::Stdout(stdout) => stdout.write(bytes),
            Sink::InPlace(file) => file.write(bytes),
            Sink::Beside(file, _) => file.write(bytes),
        }
    }

    fn flush(&mut self) -> io::Result<()> {
        match &mut self.sink {
            Sink::Stdout(stdout) => stdout.flush(),
            Sink::InPlace(file) => file.flush(),
            Sink::Beside(file, _) => file.flush(),
        }
    }
}

// The folder in which a path's last name stands.
fn folder_of<'a>(path: Path<'a>) -> Path<'a> {
    match path.parent() {
        Some(folder) if !folder.as_str().is_empty() => folder,
        _ => Path::new("."),
    }
}

// Brings a file to its disk. A pipe or a terminal has nothing to bring there, and says so.
fn sync(file: &File) -> io::Result<()> {
    match file.sync_all() {
        Err(e) if e.kind() != ErrorKind::InvalidInput => Err(e),
        _ => Ok(()),
    }
}

// Gives a file the permissions of another, and its owner where the host allows that.
fn copy_owner_and_permissions(file: &File, old: &Metadata) -> io::Result<()> {
    let _ = fchown(file, Some(old.uid()), Some(old.gid()));
    file.set_permissions(old.permissions())
}

impl<'a> HostFiles<'a> {
    /// The host's files, by the paths that it knows.
    pub fn new(rt: &'a HostRuntime) -> HostFiles<'a> {
        HostFiles {
            rt,
            has_streams: false,
            last_error: None,
        }
    }

    /// The same, where `-` is no file: opened it is standard input, made it is standard output. A file of that name is
    /// `./-`.
    pub fn with_streams(rt: &'a HostRuntime) -> HostFiles<'a> {
        HostFiles {
            rt,
            has_streams: true,
            last_error: None,
        }
    }

    fn is_standard(&self, name: &str) -> bool {
        self.has_streams && name == STREAM_NAME
    }

    // Where the bytes of the file of that name are read from.
    fn input(&self, name: &str) -> io::Result<HostInput> {
        if self.is_standard(name) {
            return Ok(HostInput::Stdin(self.rt.stdin()));
        }
        Ok(HostInput::File(File::open(self.rt, name)?))
    }

    // What stands under that name. It is opened to be written, and not changed.
    fn target(&self, name: &str) -> io::Result<Target> {
        let file = match File::options().write(true).open(self.rt, name) {
            Ok(file) => file,
            Err(e) if e.kind() == ErrorKind::NotFound => return Ok(Target::Absent),
            Err(e) => return Err(e),
        };
        let found = file.metadata()?;
        if found.is_file() {
            Ok(Target::Regular(found))
        } else {
            Ok(Target::Stream(file))
        }
    }

    // The first bytes of the file of that name; none of a pipe, a device or a standard stream.
    fn read_front(&self, name: &str) -> io::Result<Vec<u8>> {
        let mut front = Vec::new(self.rt.alloc());
        if !self.is_standard(name) && fs::metadata(self.rt, name)?.is_file() {
            let file = File::open(self.rt, name)?;
            file.take(FRONT_BYTES).read_to_end(&mut front)?;
        }
        Ok(front)
    }

    // The path to which symbolic links lead from that name. None where one of them is the system's, to a file that is
    // open, as that of `/dev/stdout`: a file that took its place would not be the one that is open.
    fn path_past_links(&self, name: &str) -> io::Result<Option<PathBuf>> {
        let mut path = PathBuf::from_str(self.rt.alloc(), name)?;
        for _ in 0..MOST_LINKS {
            match fs::symlink_metadata(self.rt, path.as_path()) {
                Ok(found) if found.is_symlink() => {}
                Ok(_) => return Ok(Some(path)),
                Err(e) if e.kind() == ErrorKind::NotFound => return Ok(Some(path)),
                Err(e) => return Err(e),
            }
            let mut next = fs::canonicalize(self.rt, folder_of(path.as_path()))?;
            if next.starts_with("/proc") {
                return Ok(None);
            }
            next.push(fs::read_link(self.rt, path.as_path())?)?;
            path = next;
        }
        Err(io::Error::from(ErrorKind::FilesystemLoop))
    }

    // A new file in the folder of that path, with no more permissions than these, and its own path.
    fn create_beside(&self, path: Path<'_>, mode: u32) -> io::Result<(File, PathBuf)> {
        let alloc = self.rt.alloc();
        for number in 0..MOST_NAMES {
            let name = format!(in alloc; ".acpins-{number}.new")?;
            let beside = path.with_file_name(alloc, name.as_str())?;
            let mut options = File::options();
            options.write(true).create_new(true).mode(mode);
            match options.open(self.rt, beside.as_path()) {
                Ok(file) => return Ok((file, beside)),
                Err(e) if e.kind() == ErrorKind::AlreadyExists => {}
                Err(e) => return Err(e),
            }
        }
        Err(io::Error::from(ErrorKind::AlreadyExists))
    }

    // Brings a file to its disk, and to its place. Standard output belongs to others too, and stays as it is.
    fn finish(&self, file: &HostFile) -> io::Result<()> {
        match &file.sink {
            Sink::Stdout(_) => Ok(()),
            Sink::InPlace(file) => sync(file),
            Sink::Beside(file, rename) => {
                sync(file)?;
                fs::rename(self.rt, rename.from.as_path(), rename.to.as_path())
            }
        }
    }
}

impl<'a> Files for HostFiles<'a> {
    ghost last_error = { λ files. files.last_error };

    type R = HostReader;

    type W = HostFile;

    fn open(&mut self, name: &str) -> Result<HostReader, FileFault> {
        match self.input(name) {
            Ok(source) => Ok(HostReader { source }),
            Err(error) if error.kind() == ErrorKind::OutOfMemory => Err(FileFault::Memory),
            Err(error) => {
                self.last_error = Some(error.kind());
                Err(FileFault::Host(error.kind()))
            }
        }
    }

    fn end_reading(&mut self, file: OpenFile<HostReader>)
        ensures error { self.new.last_error
            ≡ option_or (error_of file.failures file.error) self.old.last_error }
    {
        self.last_error = file.last_error().or(self.last_error);
    }

    fn holds_tables(&mut self, name: &str) -> Result<bool, AllocError> {
        match self.read_front(name) {
            Ok(front) => Ok(begins_as_tables(&front)),
            Err(e) if e.kind() == ErrorKind::OutOfMemory => Err(AllocError),
            Err(_) => Ok(false),
        }
    }

    fn create(&mut self, name: &str) -> Result<HostFile, FileFault> {
        if self.is_standard(name) {
            let sink = Sink::Stdout(self.rt.stdout());
            return Ok(HostFile { sink });
        }
        let old = match self.target(name)? {
            Target::Absent => None,
            Target::Regular(found) => Some(found),
            Target::Stream(file) => {
                let sink = Sink::InPlace(file);
                return Ok(HostFile { sink });
            }
        };
        let Some(to) = self.path_past_links(name)? else {
            let sink = Sink::InPlace(File::create(self.rt, name)?);
            return Ok(HostFile { sink });
        };
        let mode = old.as_ref().map_or(0o666, |old| old.mode() & 0o777);
        let (file, from) = self.create_beside(to.as_path(), mode)?;
        if let Some(old) = old
            && let Err(e) = copy_owner_and_permissions(&file, &old)
        {
            let _ = fs::remove_file(self.rt, from.as_path());
            return Err(FileFault::from(e));
        }
        let sink = Sink::Beside(file, Rename { from, to });
        Ok(HostFile { sink })
    }

    fn close(&mut self, file: HostFile) -> Result<(), FileFault> {
        if let Err(e) = self.finish(&file) {
            self.abandon(file);
            return Err(FileFault::from(e));
        }
        Ok(())
    }

    fn abandon(&mut self, file: HostFile) {
        if let Sink::Beside(_, rename) = &file.sink {
            let _ = fs::remove_file(self.rt, rename.from.as_path());
        }
    }
}

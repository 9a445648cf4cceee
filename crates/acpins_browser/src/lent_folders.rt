//! The folders of a run that a page lends.

ghost use Rattle.std.specs.Prelude.{◌≡◌, ◌≢◌, Some, None, Err, IfOk, map, option_map, string_bytes};
ghost use Rattle.std.specs.declared.io.ErrorKind.{ErrorKind};
ghost use Rattle.acpins_io.specs.declared.files.FileFault.{FileFault};
ghost use Rattle.acpins_browser.specs.LentFiles.{names_in};

use crate::lent_files::bytes_in;
use crate::records::{LentFile, LentFolder, LentText};
use acpins_survey_run::{FileFault, Folders};
use std::alloc::Global;
use std::io::ErrorKind;
use std::str::from_utf8;

// The names in the first folder of that name.
#[tactic(auto, unfolding(crate::specs::LentFiles::names_in))]
fn names_in<'a>(folders: &'a [LentFolder<'a>], name: &[u8]) -> Option<&'a [LentText<'a>]>
    ensures { Some (option_map (λ names. map (λ n. n.bytes.now) names.now) result)
        ≡ names_in folders.now name.now }
{
    match folders {
        [] => None,
        [folder, rest @ ..] => {
            if folder.name == name {
                Some(folder.names)
            } else {
                names_in(rest, name)
            }
        }
    }
}

// Copies of names. One that is no text can't be had.
fn copy_names(alloc: Global, lent: &[LentText<'_>]) -> Result<Vec<String>, FileFault>
    ensures names { IfOk result (λ names. map string_bytes names.items
        ≡ map (λ n. n.bytes.now) lent.now) }
    ensures there { result ≢ Err (FileFault.Host ErrorKind.NotFound) }
{
    let mut names = Vec::new(alloc);
    for name in lent {
        let Ok(text) = from_utf8(name.bytes) else {
            return Err(FileFault::Host(ErrorKind::InvalidFilename));
        };
        names.push(String::from_str(alloc, text)?)?;
    }
    Ok(names)
}

/// The folders that a page lends, and its files, whose names are those of no folder.
#[derive(Drop)]
pub(crate) struct LentFolders<'a> {
    alloc: Global,
    folders: &'a [LentFolder<'a>],
    files: &'a [LentFile<'a>],
    // The kind of the error with which reading a folder failed last.
    last_error: Option<ErrorKind>,
}

impl<'a> LentFolders<'a> {
    /// These folders and files.
    pub(crate) fn new(
        alloc: Global,
        folders: &'a [LentFolder<'a>],
        files: &'a [LentFile<'a>],
    ) -> LentFolders<'a>
        ensures { result.folders ≡ folders.entry }
    {
        LentFolders {
            alloc,
            folders,
            files,
            last_error: None,
        }
    }

    // The names in the folder; None where a file has that name.
    fn listing(&self, folder: &[u8]) -> Result<Option<Vec<String>>, FileFault>
        ensures names { IfOk result (λ found.
            Some (option_map (λ v. map string_bytes v.items) found)
            ≡ names_in self.now.folders.now folder.now) }
        ensures missing { result ≡ Err (FileFault.Host ErrorKind.NotFound)
            → names_in self.now.folders.now folder.now ≡ Some None }
    {
        match names_in(self.folders, folder) {
            Some(lent) => Ok(Some(copy_names(self.alloc, lent)?)),
            None if bytes_in(self.files, folder).is_some() => Ok(None),
            None => Err(FileFault::Host(ErrorKind::NotFound)),
        }
    }
}

impl<'a> Folders for LentFolders<'a> {
    ghost names_in = { λ s. names_in s.folders.now };

    ghost last_error = { λ s. s.last_error };

    fn names(&mut self, folder: &str) -> Result<Option<Vec<String>>, FileFault> {
        match self.listing(folder.as_bytes()) {
            Ok(names) => Ok(names),
            Err(FileFault::Memory) => Err(FileFault::Memory),
            Err(FileFault::Host(kind)) => {
                self.last_error = Some(kind);
                Err(FileFault::Host(kind))
            }
        }
    }
}

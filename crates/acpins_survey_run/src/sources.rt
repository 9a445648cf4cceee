//! The files that arguments stand for.

ghost use Rattle.std.specs.Prelude.{◌≡◌, ◌⊎◌, [], ◌∷◌, Option, IfOk, IfErr, OnOk, map, string_bytes};
ghost use Rattle.std.specs.declared.io.ErrorKind.{ErrorKind};
ghost use Rattle.acpins_io.specs.Faults.{IsLastError};
ghost use Rattle.acpins_survey_run.specs.Folders.{AreDynamicFiles, AreFilesAt, AreFilesIn, AreSsdtFiles, dsdts_among, dynamic_in};
ghost use Rattle.acpins_survey_run.specs.Input.{AreFilesOf, IsFolderFault, IsFoldersFault, IsUnread, IsWithoutDsdt};
ghost use Rattle.acpins_survey_run.specs.steps.Adding.{Adds};
ghost use Rattle.acpins_survey_run.specs.steps.Refusals.{IsReadOf};

use crate::failure::{Failure, ReadCause};
use crate::folders::{Folders, dsdts_among, path_in, ssdts_among};
use crate::lines::printed_name;
use acpins_io::FileFault;
use std::alloc::{AllocError, Global};
use std::io::ErrorKind;

// The failure to read what has that name, for that cause.
fn read_failure(alloc: Global, name: &str, cause: ReadCause) -> Failure
    ensures { IsReadOf name.now cause result }
{
    match printed_name(alloc, name) {
        Ok(file) => Failure::Read(file, cause),
        Err(_) => Failure::Memory,
    }
}

/// .. for that fault.
pub(crate) fn read_failure_by(alloc: Global, name: &str, fault: FileFault) -> Failure
    ensures { (last : Option ErrorKind) → IsLastError fault last → IsUnread name.now last result }
{
    match fault {
        FileFault::Host(kind) => read_failure(alloc, name, ReadCause::Host(kind)),
        FileFault::Memory => Failure::Memory,
    }
}

// Adds the files of SSDTs with that extension, among these names in a folder, to others.
fn add_ssdts(
    alloc: Global,
    folder: &str,
    names: &[String],
    extension: &str,
    files: &mut Vec<String>,
) -> Result<(), AllocError>
    ensures { OnOk result (Adds (AreSsdtFiles extension.now folder.now (map string_bytes names.now))
        (map string_bytes files.old.items) (map string_bytes files.new.items)) }
{
    let ssdts = ssdts_among(alloc, names, extension)?;
    for name in &ssdts {
        let path = path_in(alloc, folder, *name)?;
        files.push(path)?;
    }
    Ok(())
}

// Adds those in the folder `dynamic` of a folder, where there is one.
fn add_dynamic<D: Folders>(
    alloc: Global,
    folders: &mut D,
    folder: &str,
    extension: &str,
    files: &mut Vec<String>,
) -> Result<(), Failure>
    ensures ok { OnOk result (Adds
        (AreDynamicFiles (D.names_in folders.old) extension.now folder.now)
        (map string_bytes files.old.items) (map string_bytes files.new.items)) }
    ensures err { IfErr result (IsUnread (dynamic_in folder.now) (D.last_error folders.new)) }
    ensures stays { D.names_in folders.new ≡ D.names_in folders.old }
{
    let dynamic = path_in(alloc, folder, "dynamic")?;
    match folders.names(dynamic.as_str()) {
        Ok(Some(names)) => Ok(add_ssdts(alloc, dynamic.as_str(), &names, extension, files)?),
        Ok(None) | Err(FileFault::Host(ErrorKind::NotFound)) => Ok(()),
        Err(fault) => Err(read_failure_by(alloc, dynamic.as_str(), fault)),
    }
}

// The name of the one DSDT's file among these names in a folder, and its extension.
fn dsdt_among<'a>(
    alloc: Global,
    folder: &str,
    names: &'a [String],
) -> Result<(&'a str, &'static str), Failure>
    ensures ok { IfOk result (λ dsdt.
        dsdts_among (map string_bytes names.now) ≡ (dsdt.0.now, dsdt.1.now) ∷ []) }
    ensures err { IfErr result (IsWithoutDsdt folder.now (map string_bytes names.now)) }
{
    let dsdts = dsdts_among(alloc, names)?;
    match dsdts.as_slice() {
        [] => Err(read_failure(alloc, folder, ReadCause::NoDsdt)),
        [dsdt] => Ok(*dsdt),
        _ => Err(read_failure(alloc, folder, ReadCause::ManyDsdts)),
    }
}

// Adds the files of tables in a folder with these names to others.
fn add_folder<D: Folders>(
    alloc: Global,
    folders: &mut D,
    folder: &str,
    names: &[String],
    files: &mut Vec<String>,
) -> Result<(), Failure>
    ensures ok { OnOk result (Adds
        (AreFilesIn (D.names_in folders.old) folder.now (map string_bytes names.now))
        (map string_bytes files.old.items) (map string_bytes files.new.items)) }
    ensures err { IfErr result (λ f. IsWithoutDsdt folder.now (map string_bytes names.now) f
        ⊎ IsUnread (dynamic_in folder.now) (D.last_error folders.new) f) }
    ensures stays { D.names_in folders.new ≡ D.names_in folders.old }
{
    let (dsdt, extension) = dsdt_among(alloc, folder, names)?;
    let path = path_in(alloc, folder, dsdt)?;
    files.push(path)?;
    add_ssdts(alloc, folder, names, extension, files)?;
    add_dynamic(alloc, folders, folder, extension, files)
}

// Adds the file of that name, or the files of tables in the folder, to others.
fn add_files<D: Folders>(
    alloc: Global,
    folders: &mut D,
    name: &str,
    files: &mut Vec<String>,
) -> Result<(), Failure>
    ensures ok { OnOk result (Adds (AreFilesAt (D.names_in folders.old) name.now)
        (map string_bytes files.old.items) (map string_bytes files.new.items)) }
    ensures err { IfErr result
        (IsFolderFault (D.names_in folders.old) (D.last_error folders.new) name.now) }
    ensures stays { D.names_in folders.new ≡ D.names_in folders.old }
{
    match folders.names(name) {
        Ok(Some(names)) => add_folder(alloc, folders, name, &names, files),
        Ok(None) => {
            let file = String::from_str(alloc, name)?;
            Ok(files.push(file)?)
        }
        Err(fault) => Err(read_failure_by(alloc, name, fault)),
    }
}

/// The files that these arguments stand for, in order.
pub fn files_of<'a, D: Folders>(
    alloc: Global,
    folders: &mut D,
    names: &[&'a str],
) -> Result<Vec<String>, Failure>
    ensures ok { IfOk result (λ files. AreFilesOf (D.names_in folders.old)
        (map (λ name. name.now) names.now) (map string_bytes files.items)) }
    ensures err { IfErr result (IsFoldersFault (D.names_in folders.old)
        (D.last_error folders.new) (map (λ name. name.now) names.now)) }
    ensures stays { D.names_in folders.new ≡ D.names_in folders.old }
{
    let mut files = Vec::new(alloc);
    for name in names {
        add_files(alloc, folders, *name, &mut files)?;
    }
    Ok(files)
}

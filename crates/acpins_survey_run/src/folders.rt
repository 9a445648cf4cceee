//! Folders of tables, as `/sys/firmware/acpi/tables` is one.

ghost use Rattle.std.specs.Prelude.{◌≡◌, ℕ, List, Option, Some, None, IfOk, IfErr, IfSome, map, option_map, string_bytes, Err};
ghost use Rattle.std.specs.Str.{str_to_ascii_lowercase};
ghost use Rattle.std.specs.declared.io.ErrorKind.{ErrorKind};
ghost use Rattle.acpins_io.specs.Faults.{IsLastError};
ghost use Rattle.acpins_io.specs.declared.files.FileFault.{FileFault};
ghost use Rattle.acpins_survey_run.specs.Folders.{AreSsdtsAmong, dsdt_extension, dsdts_among};
ghost use Rattle.acpins_survey_run.specs.Folders.{number_of, path_in, ssdt_number, stem};

use acpins_io::FileFault;
use std::alloc::{AllocError, Global};
use std::io::ErrorKind;

/// Folders by name. Contracts see the names in each folder, where they are known, and the error with which a folder
/// failed last to be read.
pub trait Folders {
    // The names in the folder of each name before the run; Some None where no folder has that name.
    ghost names_in: { Self → List ℕ → Option (Option (List (List ℕ))) } = { λ _ _. None };

    // The kind of the error with which reading a folder failed last.
    ghost last_error: { Self → Option ErrorKind };

    /// The names in the folder, in any order; None where what has that name is no folder, `NotFound` where nothing
    /// has it. A name that is no text is left out.
    fn names(&mut self, folder: &str) -> Result<Option<Vec<String>>, FileFault>
        ensures names { IfOk result (λ found. IfSome (names_in self.old folder.now)
            (λ known. option_map (λ v. map string_bytes v.items) found ≡ known)) }
        ensures missing { result ≡ Err (FileFault.Host ErrorKind.NotFound)
            → IfSome (names_in self.old folder.now) (λ known. known ≡ None) }
        ensures failed { IfErr result (λ fault. IsLastError fault (last_error self.new)) }
        ensures stays { names_in self.new ≡ names_in self.old };
}

/// The path of a name in a folder.
pub fn path_in(alloc: Global, folder: &str, name: &str) -> Result<String, AllocError>
    ensures { IfOk result (λ path. string_bytes path ≡ path_in folder.now name.now) }
{
    let mut path = String::from_str(alloc, folder)?;
    if !folder.ends_with('/') {
        path.push_str("/")?;
    }
    path.push_str(name)?;
    Ok(path)
}

// What stands behind `dsdt` in the name of a DSDT's file, which is in lower case.
fn dsdt_extension(name: &str) -> Option<&'static str>
    ensures { option_map (λ extension. extension.now) result ≡ dsdt_extension name.now }
{
    match name {
        "dsdt" => Some(""),
        "dsdt.dat" => Some(".dat"),
        "dsdt.aml" => Some(".aml"),
        _ => None,
    }
}

// .. of a name in any case of letters.
fn extension_of(alloc: Global, name: &str) -> Result<Option<&'static str>, AllocError>
    ensures { IfOk result (λ found. option_map (λ extension. extension.now) found
        ≡ dsdt_extension (str_to_ascii_lowercase name.now)) }
{
    let lower = name.to_ascii_lowercase(alloc)?;
    Ok(dsdt_extension(lower.as_str()))
}

/// The names of DSDTs' files among these, each with its extension.
pub fn dsdts_among<'a>(
    alloc: Global,
    names: &'a [String],
) -> Result<Vec<(&'a str, &'static str)>, AllocError>
    ensures { IfOk result (λ dsdts. map (λ d. (d.0.now, d.1.now)) dsdts.items
        ≡ dsdts_among (map string_bytes names.now)) }
{
    let mut dsdts = Vec::new(alloc);
    for name in names {
        let found = extension_of(alloc, name.as_str())?;
        if let Some(extension) = found {
            dsdts.push((name.as_str(), extension))?;
        }
    }
    Ok(dsdts)
}

// The number that decimal digits spell, if it has 32 bits; 0 where there are none.
fn number_of(digits: &[u8]) -> Option<u32>
    ensures { result ≡ number_of digits.now }
{
    let mut number = 0u32;
    for c in digits {
        if !c.is_ascii_digit() {
            return None;
        }
        number = number.checked_mul(10)?.checked_add(u32::from(*c - b'0'))?;
    }
    Some(number)
}

// What stands before an extension.
fn stem<'a>(name: &'a [u8], extension: &str) -> Option<&'a [u8]>
    ensures { option_map (λ front. front.now) result ≡ stem extension.now name.now }
{
    name.strip_suffix(extension.as_bytes())
}

// The number between `ssdt` and an extension; 0 where none is there. None where no SSDT's file is called so.
fn ssdt_number(name: &[u8], extension: &str) -> Option<u32>
    ensures { result ≡ ssdt_number extension.now name.now }
{
    number_of(stem(name.strip_prefix(b"ssdt")?, extension)?)
}

// .. of a name in any case of letters.
fn number_in(alloc: Global, name: &str, extension: &str) -> Result<Option<u32>, AllocError>
    ensures { IfOk result (λ found. found
        ≡ ssdt_number extension.now (str_to_ascii_lowercase name.now)) }
{
    let lower = name.to_ascii_lowercase(alloc)?;
    Ok(ssdt_number(lower.as_bytes(), extension))
}

/// The names of SSDTs' files with that extension among these, by their numbers.
pub fn ssdts_among<'a>(
    alloc: Global,
    names: &'a [String],
    extension: &str,
) -> Result<Vec<&'a str>, AllocError>
    ensures { IfOk result (λ ssdts. AreSsdtsAmong extension.now (map string_bytes names.now)
        (map (λ s. s.now) ssdts.items)) }
{
    let mut numbered: Vec<(u32, &'a str)> = Vec::new(alloc);
    for name in names {
        let found = number_in(alloc, name.as_str(), extension)?;
        if let Some(number) = found {
            numbered.push((number, name.as_str()))?;
        }
    }
    numbered.sort()?;
    let mut ssdts = Vec::new(alloc);
    for pair in &numbered {
        ssdts.push(pair.1)?;
    }
    Ok(ssdts)
}

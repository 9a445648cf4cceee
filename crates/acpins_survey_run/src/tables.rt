//! Files into tables.

ghost use Rattle.std.specs.Prelude.{◌≡◌, ◌≢◌, ◌++◌, [], true, Option, Some, None, IfOk, IfErr, OnOk, IfSome, map, string_bytes};
ghost use Rattle.std.specs.Option.{option_or};
ghost use Rattle.std.specs.declared.io.ErrorKind.{ErrorKind};
ghost use Rattle.acpi_pieces.specs.Pieces.{ArePieces};
ghost use Rattle.acpins_io.specs.Dump.{tables_of_dump};
ghost use Rattle.acpins_io.specs.Faults.{IsLastError, error_of};
ghost use Rattle.acpins_io.specs.Hexadecimal.{SpellsInHex};
ghost use Rattle.acpins_survey_run.specs.Input.{ArePiecesOfEach, AreTablesIn, AreTablesOfFiles};
ghost use Rattle.acpins_survey_run.specs.Input.{IsFileFault, IsFilesFault};

use crate::failure::Failure;
use crate::lines::printed_name;
use crate::sources::read_failure_by;
use acpi_pieces::pieces;
use acpins_io::{FileFault, Files, HexFault, OpenFile, from_hex, is_header, tables_in_dump};
use bytes::Bytes;
use std::alloc::{AllocError, Global};
use std::io::{ErrorKind, Read};

/// A file that holds tables.
#[derive(Debug, Drop)]
pub struct TableFile {
    /// The name of the file.
    pub name: String,
    /// How many tables stand in it and in the files before it.
    pub end: usize,
}

/// Tables, and the files that hold them, both in order.
#[derive(Debug, Drop)]
pub struct FoundTables {
    /// The tables.
    pub tables: Vec<Bytes>,
    /// The files.
    pub sources: Vec<TableFile>,
}

/// The tables of the machine that a command is over, or of two.
#[derive(Debug, Drop)]
pub struct FoundMachines {
    /// The machine; of `diff` the old one.
    pub first: FoundTables,
    /// Of `diff` the new one.
    pub second: Option<FoundTables>,
}

impl FoundTables {
    // No tables.
    fn new(alloc: Global) -> FoundTables
        ensures { result.tables.items ≡ [] }
    {
        FoundTables {
            tables: Vec::new(alloc),
            sources: Vec::new(alloc),
        }
    }

    // Puts the tables of the file of that name behind the others.
    fn add(&mut self, alloc: Global, name: &str, tables: &mut Vec<Bytes>) -> Result<(), AllocError>
        ensures { OnOk result (self.new.tables.items
            ≡ self.old.tables.items ++ tables.old.items) }
    {
        self.tables.append(tables)?;
        let name = String::from_str(alloc, name)?;
        let end = self.tables.len();
        self.sources.push(TableFile { name, end })?;
        Ok(())
    }

    /// For each table the name of the file that holds it.
    pub fn names(&self, alloc: Global) -> Result<Vec<&str>, AllocError> {
        let mut names = Vec::new(alloc);
        for source in &self.sources {
            for _ in names.len()..source.end {
                names.push(source.name.as_str())?;
            }
        }
        Ok(names)
    }
}

// Why reading a file failed with an error of this kind: a read did, or there was no memory for what it gave.
fn fault_of<R: Read>(file: &OpenFile<R>, kind: ErrorKind) -> FileFault
    ensures { (last : Option ErrorKind) → IsLastError result
        (option_or (error_of file.now.failures file.now.error) last) }
{
    match file.last_error() {
        Some(last) if last == kind && kind != ErrorKind::OutOfMemory => FileFault::Host(last),
        _ => FileFault::Memory,
    }
}

// The bytes that are still to come of a file.
fn read_rest<R: Read>(alloc: Global, file: &mut OpenFile<R>) -> Result<Vec<u8>, FileFault>
    ensures bytes { IfOk result (λ v. IfSome (R.remaining file.old.reader)
        (λ content. v.items ≡ content)) }
    ensures failed { IfErr result (λ fault. (last : Option ErrorKind) → IsLastError fault
        (option_or (error_of file.new.failures file.new.error) last)) }
{
    let mut bytes = Vec::new(alloc);
    match file.read_to_end(&mut bytes) {
        Ok(_) => Ok(bytes),
        Err(error) => Err(fault_of(file, error.kind())),
    }
}

// The bytes of a file, whole.
fn read_file<F: Files>(alloc: Global, files: &mut F, name: &str) -> Result<Vec<u8>, FileFault>
    ensures bytes { IfOk result (λ v. IfSome (F.bytes_of files.old name.now)
        (λ content. v.items ≡ content)) }
    ensures failed { IfErr result (λ fault. IsLastError fault (F.last_error files.new)) }
    ensures stays { F.bytes_of files.new ≡ F.bytes_of files.old }
    ensures others { F.written_to files.new ≡ F.written_to files.old }
{
    let mut file = OpenFile::new(files.open(name)?);
    let bytes = read_rest(alloc, &mut file);
    files.end_reading(file);
    bytes
}

// The tables that stand one behind another in these bytes.
fn pieces_of(alloc: Global, bytes: Vec<u8>) -> Result<Vec<Bytes>, AllocError>
    ensures { IfOk result (λ v. ArePieces v.items bytes.items) }
{
    let bytes = Bytes::from_vec(bytes)?;
    pieces(alloc, &bytes)
}

// .. in each of these byte strings.
fn pieces_of_each(alloc: Global, sources: &[Vec<u8>]) -> Result<Vec<Bytes>, AllocError>
    ensures { IfOk result (λ v. ArePiecesOfEach (map (λ v. v.items) sources.now) v.items) }
{
    let mut tables = Vec::new(alloc);
    for source in sources {
        let bytes = Vec::from_slice(alloc, source.as_slice())?;
        let mut added = pieces_of(alloc, bytes)?;
        tables.append(&mut added)?;
    }
    Ok(tables)
}

// The tables of the text that `acpidump` writes.
fn tables_of_dump(alloc: Global, text: &[u8]) -> Result<Vec<Bytes>, AllocError>
    ensures { IfOk result (λ v. ArePiecesOfEach (tables_of_dump text.now) v.items) }
{
    let sources = tables_in_dump(alloc, text)?;
    pieces_of_each(alloc, &sources)
}

// The bytes that a hexadecimal text of that name spells.
fn decode_hex(alloc: Global, name: &str, text: &[u8]) -> Result<Vec<u8>, Failure>
    ensures ok { IfOk result (λ v. SpellsInHex v.items text.now) }
    ensures err { IfErr result (IsFileFault true name.now (Some text.now) None) }
{
    match from_hex(alloc, text) {
        Ok(bytes) => Ok(bytes),
        Err(HexFault::BadHex) => Err(Failure::BadHex(printed_name(alloc, name)?)),
        Err(HexFault::Memory) => Err(Failure::Memory),
    }
}

/// The tables of a file that has this content, hexadecimal text or not. A failure names the file.
pub fn tables_in(
    alloc: Global,
    name: &str,
    hex: bool,
    content: Vec<u8>,
) -> Result<Vec<Bytes>, Failure>
    ensures ok { IfOk result (λ v. AreTablesIn hex (Some content.items) v.items) }
    ensures err { IfErr result (IsFileFault hex name.now (Some content.items) None) }
{
    if hex {
        let bytes = decode_hex(alloc, name, &content)?;
        return Ok(pieces_of(alloc, bytes)?);
    }
    if is_header(&content) {
        return Ok(tables_of_dump(alloc, &content)?);
    }
    Ok(pieces_of(alloc, content)?)
}

// .. one at least.
fn some_tables_in(
    alloc: Global,
    name: &str,
    hex: bool,
    content: Vec<u8>,
) -> Result<Vec<Bytes>, Failure>
    ensures ok { IfOk result (λ v.
        (v.items ≢ []) × AreTablesIn hex (Some content.items) v.items) }
    ensures err { IfErr result (IsFileFault hex name.now (Some content.items) None) }
{
    let tables = tables_in(alloc, name, hex, content)?;
    if tables.is_empty() {
        return Err(Failure::NoTable(printed_name(alloc, name)?));
    }
    Ok(tables)
}

// The tables of the file of that name.
fn tables_at<F: Files>(
    alloc: Global,
    files: &mut F,
    name: &str,
    hex: bool,
) -> Result<Vec<Bytes>, Failure>
    ensures ok { IfOk result (λ v.
        (v.items ≢ []) × AreTablesIn hex (F.bytes_of files.old name.now) v.items) }
    ensures err { IfErr result
        (IsFileFault hex name.now (F.bytes_of files.old name.now) (F.last_error files.new)) }
    ensures stays { F.bytes_of files.new ≡ F.bytes_of files.old }
    ensures others { F.written_to files.new ≡ F.written_to files.old }
{
    match read_file(alloc, files, name) {
        Ok(content) => some_tables_in(alloc, name, hex, content),
        Err(fault) => Err(read_failure_by(alloc, name, fault)),
    }
}

/// The tables of the files of these names, one file after another. Each has to hold one at least.
pub fn read_tables<F: Files>(
    alloc: Global,
    files: &mut F,
    names: &[String],
    hex: bool,
) -> Result<FoundTables, Failure>
    ensures ok { IfOk result (λ found. AreTablesOfFiles (F.bytes_of files.old) hex
        (map string_bytes names.now) found.tables.items) }
    ensures err { IfErr result (IsFilesFault (F.bytes_of files.old) hex
        (F.last_error files.new) (map string_bytes names.now)) }
    ensures stays { F.bytes_of files.new ≡ F.bytes_of files.old }
    ensures others { F.written_to files.new ≡ F.written_to files.old }
{
    let mut found = FoundTables::new(alloc);
    for name in names {
        let mut tables = tables_at(alloc, files, name.as_str(), hex)?;
        found.add(alloc, name.as_str(), &mut tables)?;
    }
    Ok(found)
}

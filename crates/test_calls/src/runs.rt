//! Runs over files of a caller's own, whose bytes contracts know, and over a map of paths in place of a tree.

ghost use Rattle.std.specs.Prelude.{◌≡◌, ℕ, List, Option, Some, IfOk};
ghost use Rattle.std.specs.List.{concat};
ghost use Rattle.std.specs.Option.{option_or};
ghost use Rattle.acpins_io.specs.Faults.{error_of};

use crate::expect::{expect_bytes, expect_number};
use crate::tables::DSDT;
use acpi_space::MapSpace;
use acpi_terms::Object;
use acpins_io::{OpenFile, begins_as_tables};
use acpins_run::{Failure, FileFault, Files, add_tables, output_of, run};
use bytes::Bytes;
use std::alloc::{AllocError, Global};
use std::io::ErrorKind;
use std::process::Abort;

// Every name is that of a file of these bytes. The last file that was written is kept.
#[derive(Drop)]
struct OneFile<'a> {
    alloc: Global,
    bytes: &'a [u8],
    written: Vec<u8>,
    last_error: Option<ErrorKind>,
}

impl<'a> Files for OneFile<'a> {
    ghost bytes_of = { λ s _. Some s.bytes.now };

    ghost last_error = { λ s. s.last_error };

    type R = &'a [u8];

    type W = Vec<u8>;

    fn open(&mut self, _name: &str) -> Result<&'a [u8], FileFault> {
        Ok(self.bytes)
    }

    fn end_reading(&mut self, file: OpenFile<&'a [u8]>)
        ensures error { self.new.last_error
            ≡ option_or (error_of file.entry.failures file.entry.error) self.old.last_error }
        ensures stays { let old : List ℕ → Option (List ℕ) = λ _. Some self.old.bytes.now in
            let new : List ℕ → Option (List ℕ) = λ _. Some self.new.bytes.now in new ≡ old }
    {
        self.last_error = file.last_error().or(self.last_error);
    }

    fn holds_tables(&mut self, _name: &str) -> Result<bool, AllocError> {
        Ok(begins_as_tables(self.bytes))
    }

    fn create(&mut self, _name: &str) -> Result<Vec<u8>, FileFault> {
        Ok(Vec::new(self.alloc))
    }

    fn close(&mut self, file: Vec<u8>) -> Result<(), FileFault> {
        self.written = file;
        Ok(())
    }
}

fn files_of(alloc: Global, bytes: &[u8]) -> OneFile<'_> {
    OneFile {
        alloc,
        bytes,
        written: Vec::new(alloc),
        last_error: None,
    }
}

// The tables in a file are all of its bytes.
fn tables_in(alloc: Global, bytes: &[u8]) -> Result<Vec<Bytes>, Failure<'static>>
    ensures { IfOk result (λ tables. bytes.now ≡ concat tables.items) }
{
    let (mut tables, written) = (Vec::new(alloc), Vec::new(alloc));
    let mut files = OneFile {
        alloc,
        bytes,
        written,
        last_error: None,
    };
    add_tables(alloc, &mut files, "a", false, &mut tables)?;
    Ok(tables)
}

#[test]
fn cuts_one_table(rt: HostRuntime) {
    let tables = tables_in(rt.alloc(), DSDT).ok().expect(&rt, "tables");
    expect_number(&rt, tables.len(), 1);
}

#[test]
fn writes_own_files(rt: HostRuntime) {
    let alloc = rt.alloc();
    let mut files = files_of(alloc, DSDT);
    let (mut out, mut err) = (Vec::new(alloc), Vec::new(alloc));
    let words = ["rewrite", "out", "a"];
    let status = run(alloc, &words, &mut files, &mut out, &mut err);
    expect_number(&rt, status as usize, 0);
    expect_bytes(&rt, &files.written, DSDT);
    assert!(&rt; out.is_empty() && err.is_empty());
}

// What is printed over a map of paths.
fn expect_output(rt: &impl Abort, alloc: Global, words: &[&str], wanted: &[u8]) {
    let mut files = files_of(alloc, DSDT);
    let output = output_of::<MapSpace<Object>, OneFile<'_>>(alloc, words, &mut files);
    expect_bytes(rt, &output.ok().expect(rt, "an output").text, wanted);
}

#[test]
fn runs_over_a_map(rt: HostRuntime) {
    let alloc = rt.alloc();
    let words = ["show", "\\_SB_.PCI0", "a"];
    expect_output(&rt, alloc, &words, b"\\_SB_.PCI0 Device\n");
    expect_output(&rt, alloc, &["check", "a"], b"commute\n");
    expect_output(&rt, alloc, &["rewrite", "out", "a"], b"");
    expect_output(&rt, alloc, &["list", "a"], LISTING);
}

const LISTING: &[u8] = b"\\ Root\n\
\\_GL_ Mutex 00\n\
\\_GPE Scope\n\
\\_OSI Method 1\n\
\\_OS_ Predefined\n\
\\_PR_ Scope\n\
\\_REV Predefined\n\
\\_SB_ Scope\n\
\\_SB_.PCI0 Device\n\
\\_SB_.PCI0._ADR Name Zero\n\
\\_SI_ Scope\n\
\\_TZ_ Scope\n";

//! Tables read from a source, one after another.

ghost use Rattle.std.specs.Prelude.{◌≡◌, ◌≢◌, ◌+◌, ◌≤◌, ◌<◌, [], IfOk, IfSome, IfNone, OnOk, IfErr, IsErrOf, vec_len};
ghost use Rattle.std.specs.Io.KnownBytes.{Consumes, IsAtEnd};
ghost use Rattle.acpi_table.specs.Tables.{IsTable, IsRefusedAs};
ghost use Rattle.acpi_table.specs.Sources.{CountsFailures};
ghost use Rattle.acpi_table.specs.steps.Taking.{IsNoTableFault, TakesOnto};

use crate::sources::{Source, SourceFault};
use crate::sums::byte_sum;
use crate::tables::{HEADER_BYTES, TABLE_LIMIT, TableFault, length_at};
use std::alloc::{AllocError, Global};
use thiserror::Error;

/// Why no table could be read from a source.
#[derive(Debug, Clone, Copy, PartialEq, Eq, Error)]
pub enum ReadFault {
    /// What was read is no table.
    #[error("{0}")]
    Table(TableFault),
    /// A read failed.
    #[error("D1 Device")]
    Device,
    /// There was no memory for the table.
    #[error("D2 Memory")]
    Memory,
}

impl From<SourceFault> for ReadFault {
    ghost use Rattle.std.specs.Prelude.{◌≡◌};
    ghost use Rattle.acpi_table.specs.declared.streams.ReadFault.TheVariants.{Device};

    ghost from_gives = { λ _ e. e ≡ Device };

    fn from(_fault: SourceFault) -> ReadFault {
        ReadFault::Device
    }
}

impl From<AllocError> for ReadFault {
    ghost use Rattle.std.specs.Prelude.{◌≡◌};
    ghost use Rattle.acpi_table.specs.declared.streams.ReadFault.TheVariants.{Memory};

    ghost from_gives = { λ _ e. e ≡ Memory };

    fn from(_error: AllocError) -> ReadFault {
        ReadFault::Memory
    }
}

// The most bytes that are asked for at once.
const PIECE: usize = 4096;

/// The next table of a source, or `None` at the end of its input. It asks for at most 36 bytes, then
/// for at most 4,096 at a time, and never past the table's end; its memory grows by at most 4,096 bytes
/// beyond what was read. A read that fails isn't tried again. After a fault nothing is said of the
/// source's place.
pub fn read_table<S: Source>(alloc: Global, source: &mut S) -> Result<Option<Vec<u8>>, ReadFault>
    // A table is taken, and no more.
    ensures table { IfOk result (λ o. IfSome o (λ v. IsTable v.items)) }
    ensures taken { IfOk result (λ o. IfSome o
        (λ v. Consumes (S.coming source.old) (S.coming source.new) v.items)) }
    // No table: the input is at its end, and was.
    ensures ended { IfOk result (λ o. IfNone o
        (IsAtEnd (S.coming source.old) × IsAtEnd (S.coming source.new))) }

    // What was read is no table: the bytes show it, and there are some.
    ensures refused { (fault : TableFault) → IsErrOf result (ReadFault.Table fault)
        → IfSome (S.coming source.old) (λ bytes. IsRefusedAs fault bytes × (bytes ≢ [])) }
    // A device's fault is one failed read, and no other answer has one.
    ensures failures { CountsFailures result (S.failures source.old) (S.failures source.new) }
{
    let mut table = Vec::new(alloc);
    fill(source, &mut table, HEADER_BYTES)?;
    if table.is_empty() {
        return Ok(None);
    }
    if table.len() < HEADER_BYTES {
        return Err(ReadFault::Table(TableFault::Short));
    }
    let length = length_at(&table);
    if length < HEADER_BYTES {
        return Err(ReadFault::Table(TableFault::BadLength));
    }
    if length > TABLE_LIMIT {
        return Err(ReadFault::Table(TableFault::TooLong));
    }
    fill(source, &mut table, length)?;
    if table.len() < length {
        return Err(ReadFault::Table(TableFault::Cut));
    }
    if byte_sum(&table) != 0 {
        return Err(ReadFault::Table(TableFault::BadSum));
    }
    Ok(Some(table))
}

// Reads on until the table has so many bytes, or the input ends.
fn fill<S: Source>(source: &mut S, table: &mut Vec<u8>, target: usize) -> Result<(), ReadFault>
    requires { vec_len table.old ≤ target }
    ensures within { OnOk result (vec_len table.new ≤ target) }
    ensures taken { OnOk result (TakesOnto (S.coming source.old)
        (S.coming source.new) table.old.items table.new.items) }
    ensures ended { OnOk result (vec_len table.new < target → IsAtEnd (S.coming source.new)) }
    ensures faults { IfErr result IsNoTableFault }
    ensures failures { CountsFailures result (S.failures source.old) (S.failures source.new) }
{
    while table.len() < target {
        let wanted = (target - table.len()).min(PIECE);
        if read_piece(source, table, wanted)? == 0 {
            break;
        }
    }
    Ok(())
}

// Reads once, so many bytes at most, and appends what came. None come only at the end of the input.
fn read_piece<S: Source>(
    source: &mut S,
    table: &mut Vec<u8>,
    wanted: usize,
) -> Result<usize, ReadFault>
    requires some { 0 < wanted }
    requires few { wanted ≤ PIECE }
    ensures within { IfOk result (λ n. (n ≤ wanted) × (vec_len table.new ≡ vec_len table.old + n)) }
    ensures taken { OnOk result (TakesOnto (S.coming source.old)
        (S.coming source.new) table.old.items table.new.items) }
    ensures ended { IfOk result (λ n. n ≡ 0 → IsAtEnd (S.coming source.new)) }
    ensures faults { IfErr result IsNoTableFault }
    ensures failures { CountsFailures result (S.failures source.old) (S.failures source.new) }
{
    let mut piece = [0; PIECE];
    let count = source.read(&mut piece[..wanted])?;
    if table.capacity() - table.len() < count {
        table.reserve_exact(wanted)?;
    }
    table.extend_from_slice(&piece[..count])?;
    Ok(count)
}

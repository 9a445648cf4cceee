//! Package lengths (ACPI 6.5, 20.2.4).

ghost use Rattle.std.specs.Prelude.{◌≡◌, ℕ, ◌+◌, ◌^◌, ◌<◌, ◌≤◌, ◌↔◌, ◌++◌, List, length, take, All, IfOk, IfSome, IsNone, IsErrOf, Ok, Some};
ghost use Rattle.byteorder.specs.Endian.{little_number};
ghost use Rattle.acpi_table.specs.PkgLength.{SpellsPkgLength, HasReservedBits, EndsInPkgLength, shortest_pkg_length, package_number};

use std::marker::Model;
use thiserror::Error;

/// Why no package length could be read.
#[derive(Debug, Clone, Copy, PartialEq, Eq, Error)]
pub enum PkgFault {
    /// The bytes end before the package length does.
    #[error("P1 Cut")]
    Cut,
    /// The lead byte says that bytes follow it, and its bits 5 and 4 aren't zero.
    #[error("P2 ReservedBits")]
    ReservedBits,
}

/// The bytes of a package length, one to four.
#[derive(Debug, Drop)]
pub struct PkgBytes {
    bytes: [u8; 4],
    count: usize,
}

impl Model for PkgBytes {
    ghost use Rattle.std.specs.Prelude.{◌≤◌, ℕ, List, take};

    ghost Value = { List ℕ };

    ghost view = { λ p. take p.count p.bytes };

    ghost invariant = { λ p. p.count ≤ 4 };
}

impl PkgBytes {
    /// The bytes, as they stand in a table.
    pub fn bytes(&self) -> &[u8]
        ensures { result.now ≡ self.now }
    {
        &self.bytes[..self.count]
    }
}

/// The number of the package length at the front of the bytes, and how many bytes spell it.
pub fn read_pkg_length(bytes: &[u8]) -> Result<(u32, usize), PkgFault>
    // What is read is spelled so.
    ensures found { IfOk result (λ x. SpellsPkgLength x.0 (take x.1 bytes.now)) }
    ensures within { IfOk result (λ x. (x.1 ≤ length bytes.now) × (1 ≤ x.1) × (x.1 ≤ 4)
        × (x.0 < 2 ^ 28)) }
    // What is spelled so is read.
    ensures only { (n : ℕ) (front rest : List ℕ) → SpellsPkgLength n front → bytes.now ≡ front
        ++ rest
        → result ≡ Ok (n, length front) }

    ensures reserved { IsErrOf result PkgFault.ReservedBits ↔ HasReservedBits bytes.now }
    ensures cut { IsErrOf result PkgFault.Cut ↔ EndsInPkgLength bytes.now }
{
    let Some((lead, rest)) = bytes.split_first() else {
        return Err(PkgFault::Cut);
    };
    let lead = *lead;
    if lead < 64 {
        return Ok((lead as u32, 1));
    }
    if lead % 64 > 15 {
        return Err(PkgFault::ReservedBits);
    }
    let follow = (lead / 64) as usize;
    if rest.len() < follow {
        return Err(PkgFault::Cut);
    }
    Ok((
        (lead % 64) as u32 + 16 * low_number(follow, rest),
        1 + follow,
    ))
}

// The number in so many bytes, the lowest first.
fn low_number(count: usize, bytes: &[u8]) -> u32
    requires few { count < 4 }
    requires there { count ≤ length bytes.now }
    ensures number { result ≡ little_number count bytes.now }
    ensures fits { result < 2 ^ 24 }
{
    match count {
        0 => 0,
        1 => bytes[0] as u32,
        2 => bytes[0] as u32 + 256 * bytes[1] as u32,
        _ => bytes[0] as u32 + 256 * bytes[1] as u32 + 65536 * bytes[2] as u32,
    }
}

/// The shortest spelling of the number, or `None` above 268,435,455, the greatest that has one.
#[tactic(auto, using(crate::proofs::PkgLengths::shortest_is), unfolding(crate::specs::PkgLength::shortest_pkg_length))]
pub fn write_pkg_length(number: u32) -> Option<PkgBytes>
    ensures none { IsNone result ↔ (268435455 < number) }
    ensures spells { IfSome result (λ bytes. SpellsPkgLength number bytes) }
    ensures shortest { IfSome result (λ bytes. (other : List ℕ) → All (λ b. b < 256) other
        → SpellsPkgLength number other → length bytes ≤ length other) }
    ensures exact { IfSome result (λ bytes. bytes ≡ shortest_pkg_length number) }
{
    let low = (number % 16) as u8;
    let high = number / 16;
    let (bytes, count) = if number < 64 {
        ([number as u8, 0, 0, 0], 1)
    } else if number < 4096 {
        ([64 + low, high as u8, 0, 0], 2)
    } else if number < 1_048_576 {
        ([128 + low, (high % 256) as u8, (high / 256) as u8, 0], 3)
    } else if number < 268_435_456 {
        (
            [
                192 + low,
                (high % 256) as u8,
                (high / 256 % 256) as u8,
                (high / 65536) as u8,
            ],
            4,
        )
    } else {
        return None;
    };
    Some(PkgBytes { bytes, count })
}

/// The number of a package with so many bytes after its package length: those and the package length's
/// own bytes, as few as serve. `None` above 268,435,451 bytes, where no number serves.
#[tactic(auto, using(crate::proofs::PkgLengths::own_bytes), unfolding(crate::specs::PkgLength::package_number))]
pub fn package_length(payload: u32) -> Option<u32>
    ensures none { IsNone result ↔ (268435451 < payload) }
    ensures counts { IfSome result (λ number. number
        ≡ length (shortest_pkg_length number) + payload) }
    ensures least { IfSome result (λ number. (other : ℕ) (bytes : List ℕ) → All (λ b. b < 256) bytes
        → SpellsPkgLength other bytes → other ≡ length bytes + payload → number ≤ other) }
    ensures exact { IfSome result (λ number. number ≡ package_number payload) }
{
    if payload < 63 {
        Some(payload + 1)
    } else if payload < 4094 {
        Some(payload + 2)
    } else if payload < 1_048_573 {
        Some(payload + 3)
    } else if payload < 268_435_452 {
        Some(payload + 4)
    } else {
        None
    }
}

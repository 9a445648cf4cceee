//! Name segments.

ghost use Rattle.std.specs.Prelude.{◌≡◌, if◌then◌else◌, Some, None, IsTrue};
ghost use Rattle.std.specs.Cmp.{partial_order_from_agreeing_total};
ghost use Rattle.std.specs.Cmp.Lexicographic.{nat_list_cmp_total};
ghost use Rattle.std.specs.Cmp.Rules.{comparing};
ghost use Rattle.std.specs.Ordering.{as_partial_cmp};
ghost use Rattle.std.proofs.Common.{rules};
ghost use Rattle.acpi_name.specs.Names.{is_segment, is_lead_char, is_name_char};
ghost use Rattle.acpi_name.specs.Paths.{segment_cmp};

use std::cmp::Ordering;
use std::marker::Model;

/// A name segment (ACPI 6.5, 20.2.2 NameSeg): four bytes, ordered by them. The first is A to Z or `_`,
/// the others are A to Z, 0 to 9 or `_`.
#[derive(Debug, Clone, Copy, PartialEq, Eq)]
pub struct Seg {
    bytes: [u8; 4],
}

impl Model for Seg {
    ghost use Rattle.std.specs.Prelude.{IsTrue};
    ghost use Rattle.acpi_name.specs.Names.{Segment, is_segment};
    ghost use Rattle.std.specs.Coded.{coded_ℕ, coded_list};

    ghost Value = { Segment };

    ghost coded = { coded_list coded_ℕ };

    ghost view = { λ s. s.bytes };

    ghost invariant = { λ s. IsTrue (is_segment s.bytes) };

    ghost inverse = { λ b. record { bytes = b } };
}

impl PartialOrd for Seg {
    ghost partial_cmp = { as_partial_cmp segment_cmp };

    ghost laws = { partial_order_from_agreeing_total segment_cmp nat_list_cmp_total
        (Prim.search (comparing, rules)) (Prim.search (comparing, rules)) };

    fn partial_cmp(&self, other: &Seg) -> Option<Ordering> {
        Some(self.cmp(other))
    }
}

impl Ord for Seg {
    ghost cmp = { segment_cmp };

    ghost total = { nat_list_cmp_total };

    ghost matches_partial_cmp = { Prim.search (comparing, rules) };

    ghost matches_eq = { Prim.search (comparing, rules) };

    // By the bytes as one number: one comparison in place of one for each byte.
    fn cmp(&self, other: &Seg) -> Ordering {
        u32::from_be_bytes(self.bytes()).cmp(&u32::from_be_bytes(other.bytes()))
    }
}

/// Whether the byte may begin a segment (ACPI 6.5, 20.2.2 LeadNameChar): A to Z or `_`.
pub fn is_lead_char(b: u8) -> bool
    ensures { result ≡ is_lead_char b }
{
    (b'A' <= b && b <= b'Z') || b == b'_'
}

/// Whether the byte may stand in a segment behind the first (ACPI 6.5, 20.2.2 NameChar): A to Z, 0 to 9
/// or `_`.
pub fn is_name_char(b: u8) -> bool
    ensures { result ≡ is_name_char b }
{
    is_lead_char(b) || (b'0' <= b && b <= b'9')
}

impl Seg {
    /// The segment of these bytes, where they are one.
    pub fn new(bytes: [u8; 4]) -> Option<Seg>
        ensures { result ≡ (if is_segment bytes then Some bytes else None) }
    {
        let [a, b, c, d] = bytes;
        if is_lead_char(a) && is_name_char(b) && is_name_char(c) && is_name_char(d) {
            Some(Seg { bytes })
        } else {
            None
        }
    }

    /// The segment of bytes that are known to be one.
    pub(crate) fn of_checked(bytes: [u8; 4]) -> Seg
        requires { IsTrue (is_segment bytes) }
        ensures { result ≡ bytes }
    {
        Seg { bytes }
    }

    /// The four bytes.
    pub fn bytes(self) -> [u8; 4]
        ensures value { result ≡ self }
        ensures segment { IsTrue (is_segment self) }
    {
        self.bytes
    }
}

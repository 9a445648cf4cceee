//! How deep terms may be nested.

ghost use Rattle.std.specs.Prelude.{◌≡◌, ◌&&◌, nat_le, if◌then◌else◌, Some, None};

use std::marker::Model;

/// The greatest level that a term may have, 1 to 4,096. A term of the outermost list has level 1, and
/// what stands inside a term has one level more than it.
#[derive(Clone, Copy, Debug, PartialEq, Eq)]
pub struct Depth {
    limit: u32,
}

impl Model for Depth {
    ghost use Rattle.std.specs.Prelude.{ℕ, ◌≤◌};
    ghost use Rattle.std.specs.Coded.{coded_ℕ};

    ghost Value = { ℕ };

    ghost coded = { coded_ℕ };

    ghost view = { λ d. d.limit };

    ghost invariant = { λ d. (1 ≤ d.limit) × (d.limit ≤ 4096) };

    ghost inverse = { λ n. record { limit = n } };
}

impl Depth {
    ghost use Rattle.std.specs.Prelude.{◌≤◌};

    /// The limit of so many levels. `None` unless it is 1 to 4,096.
    pub fn new(limit: u32) -> Option<Depth>
        ensures { result ≡ (if nat_le 1 limit && nat_le limit 4096 then Some limit else None) }
    {
        if 1 <= limit && limit <= 4096 {
            Some(Depth { limit })
        } else {
            None
        }
    }

    /// The number of levels.
    pub fn get(self) -> u32
        ensures number { result ≡ self }
        ensures least { 1 ≤ result }
        ensures most { result ≤ 4096 }
    {
        self.limit
    }
}

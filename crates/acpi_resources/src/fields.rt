//! Fields of fixed size, read one after the other.

ghost use Rattle.std.specs.Prelude.{◌≡◌, ◌+◌, ◌≤◌, ◌∷◌, ◌++◌, length};
ghost use Rattle.std.specs.Int.{w16, w32, w64, to_le_bytes};
ghost use Rattle.acpi_resources.specs.Descriptors.{number_bytes};
ghost use Rattle.acpi_resources.specs.steps.Descriptors.{number_size};

use crate::descriptor::AddressWidth;
use std::marker::Model;

// What is left of an item's bytes. A contract sees it as those bytes.
#[derive(Drop)]
pub(crate) struct Fields<'a> {
    left: &'a [u8],
}

impl<'a> Model for Fields<'a> {
    ghost use Rattle.std.specs.Prelude.{ℕ, List};

    ghost Value = { List ℕ };

    ghost view = { λ f. f.left.now };
}

impl<'a> Fields<'a> {
    pub(crate) fn new(left: &'a [u8]) -> Fields<'a>
        ensures { result ≡ left.now }
    {
        Fields { left }
    }

    pub(crate) fn byte(&mut self) -> u8
        requires { 1 ≤ length self.old }
        ensures spelled { self.old ≡ result ∷ self.new }
    {
        let byte = self.left[0];
        self.left = &self.left[1..];
        byte
    }

    // Two bytes, the lower first.
    pub(crate) fn word(&mut self) -> u16
        requires { 2 ≤ length self.old }
        ensures spelled { self.old ≡ to_le_bytes w16 result ++ self.new }
        ensures left { length self.old ≡ 2 + length self.new }
    {
        let left = self.left;
        let word = u16::from_le_bytes([left[0], left[1]]);
        self.left = &left[2..];
        word
    }

    // Four bytes, the lowest first.
    pub(crate) fn dword(&mut self) -> u32
        requires { 4 ≤ length self.old }
        ensures spelled { self.old ≡ to_le_bytes w32 result ++ self.new }
        ensures left { length self.old ≡ 4 + length self.new }
    {
        let left = self.left;
        let dword = u32::from_le_bytes([left[0], left[1], left[2], left[3]]);
        self.left = &left[4..];
        dword
    }

    // Eight bytes, the lowest first.
    pub(crate) fn qword(&mut self) -> u64
        requires { 8 ≤ length self.old }
        ensures spelled { self.old ≡ to_le_bytes w64 result ++ self.new }
        ensures left { length self.old ≡ 8 + length self.new }
    {
        let left = self.left;
        let qword = u64::from_le_bytes([
            left[0], left[1], left[2], left[3], left[4], left[5], left[6], left[7],
        ]);
        self.left = &left[8..];
        qword
    }

    // A number of an address range.
    pub(crate) fn number(&mut self, width: AddressWidth) -> u64
        requires { number_size width ≤ length self.old }
        ensures spelled { self.old ≡ number_bytes width result ++ self.new }
        ensures left { length self.old ≡ number_size width + length self.new }
    {
        match width {
            AddressWidth::Word => u64::from(self.word()),
            AddressWidth::DWord => u64::from(self.dword()),
            AddressWidth::QWord => self.qword(),
        }
    }

    // All that is left.
    pub(crate) fn rest(&self) -> &'a [u8]
        ensures { result.now ≡ self.now }
    {
        self.left
    }
}

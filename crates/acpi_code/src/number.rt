//! Reading numbers, package lengths and packages.

ghost use Rattle.std.specs.Prelude.{◌≤◌, length, drop, IfOk};
ghost use Rattle.acpi_table.specs.Gives.{Gives};
ghost use Rattle.acpi_table.specs.steps.PkgLengthRead.{pkg_length_at};
ghost use Rattle.acpi_code.specs.steps.Reading.{byte_at, number_at, length_in};
ghost use Rattle.acpi_code.specs.steps.Cursor.{Finds, Opens};

use crate::code::Code;
use crate::fault::{CodeFault, CodeReason};
use acpi_table::{PkgFault, read_pkg_length};
use byteorder::{ByteOrder, LittleEndian};

impl<'a> Code<'a> {
    /// ByteData: one byte (ACPI 6.5, 20.2.3). `Cut` where none is left.
    #[tactic(auto, using(crate::proofs::Remaining::first_byte), unfolding(crate::specs::steps::Reading::byte_at))]
    pub fn byte(&mut self) -> Result<u8, CodeFault>
        ensures { Finds (λ n. n) byte_at self.old self.new result }
    {
        let left = self.left();
        if left.is_empty() {
            return Err(self.cut());
        }
        self.skip(1);
        Ok(left[0])
    }

    /// WordData: two bytes, the lower first (20.2.3). `Cut` where fewer are left.
    #[tactic(auto, unfolding(crate::specs::steps::Reading::number_at))]
    pub fn word(&mut self) -> Result<u16, CodeFault>
        ensures { Finds (λ n. n) (number_at 2) self.old self.new result }
    {
        let left = self.left();
        if left.len() < 2 {
            return Err(self.cut());
        }
        self.skip(2);
        Ok(LittleEndian::read_u16(left))
    }

    /// DWordData: four bytes, the lowest first (20.2.3). `Cut` where fewer are left.
    #[tactic(auto, unfolding(crate::specs::steps::Reading::number_at))]
    pub fn dword(&mut self) -> Result<u32, CodeFault>
        ensures { Finds (λ n. n) (number_at 4) self.old self.new result }
    {
        let left = self.left();
        if left.len() < 4 {
            return Err(self.cut());
        }
        self.skip(4);
        Ok(LittleEndian::read_u32(left))
    }

    /// QWordData: eight bytes, the lowest first (20.2.3). `Cut` where fewer are left.
    #[tactic(auto, unfolding(crate::specs::steps::Reading::number_at))]
    pub fn qword(&mut self) -> Result<u64, CodeFault>
        ensures { Finds (λ n. n) (number_at 8) self.old self.new result }
    {
        let left = self.left();
        if left.len() < 8 {
            return Err(self.cut());
        }
        self.skip(8);
        Ok(LittleEndian::read_u64(left))
    }

    /// A number spelled as a PkgLength: one to four bytes, a number below 2^28 (20.2.4). A field element has a
    /// number of bits so. `ReservedBits` where bit 4 or 5 of a lead byte that has more bytes behind it is set, at
    /// that byte; `Cut` where bytes lack.
    #[tactic(auto, unfolding(crate::specs::steps::Reading::length_in))]
    pub fn pkg_length(&mut self) -> Result<u32, CodeFault>
        ensures { Finds (λ n. n) length_in self.old self.new result }
    {
        match front_length(self.left()) {
            Ok((number, used)) => {
                self.skip(used);
                Ok(number)
            }
            Err(PkgFault::Cut) => Err(self.cut()),
            Err(PkgFault::ReservedBits) => Err(self.fault_here(CodeReason::ReservedBits)),
        }
    }

    /// What the package holds whose length stands there; what is behind the package is left (20.2.4). The faults of
    /// `pkg_length`, and `Overrun` at the length where its number is less than its own bytes, or goes past the end
    /// of the list.
    #[tactic(auto, unfolding(crate::specs::steps::Reading::package_at))]
    pub fn package(&mut self) -> Result<Code<'a>, CodeFault>
        ensures { Opens self.old self.new result }
    {
        let front = self.fork();
        let number = self.pkg_length()?;
        let size = number as usize;
        let used = front.left().len() - self.left().len();
        if size < used || front.left().len() < size {
            return Err(front.fault_here(CodeReason::Overrun));
        }
        Ok(self.split(size - used))
    }
}

// The number at the front, and how many bytes spell it, as the reading of package lengths has it.
fn front_length(bytes: &[u8]) -> Result<(u32, usize), PkgFault>
    ensures exact { Gives (λ x. (x.0, drop x.1 bytes.now)) result (pkg_length_at bytes.now) }
    ensures within { IfOk result (λ x. (x.1 ≤ length bytes.now) × (1 ≤ x.1)) }
{
    read_pkg_length(bytes)
}

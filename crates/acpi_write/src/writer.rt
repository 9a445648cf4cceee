//! A buffer that is written from its end.

ghost use Rattle.std.specs.Prelude.{◌≡◌, ◌++◌, ◌∷◌, [], ◌≤◌, ℕ, List, length, reverse, OnOk, Some};
ghost use Rattle.byteorder.specs.Endian.{little_bytes};
ghost use Rattle.acpi_name.specs.Spelling.{name_bytes};
ghost use Rattle.acpi_write.specs.Canonical.{int_bytes, filled_with};
ghost use Rattle.acpi_write.specs.steps.Writing.{argument_piece, pieces, length_bytes, Puts, IsArgumentTyped, AreArgumentsTyped};
ghost use Rattle.acpi_name.specs.Names.{IsName};
ghost use Rattle.acpi_write.specs.Laws.{IsIntTyped};

use crate::fault::WriteFault;
use acpi_name::{Name, write_name};
use acpi_table::{package_length, write_pkg_length};
use acpi_tree::Int;
use std::alloc::{AllocError, Global};
use std::marker::Model;

/// The most bytes that a package may have behind its package length.
const PAYLOAD_LIMIT: usize = 268_435_451;

/// Bytes that are written from the last to the first, so that a package's length is known where it is put.
/// Contracts see them in their order in the table.
#[derive(Drop)]
pub(crate) struct Writer {
    alloc: Global,
    reversed: Vec<u8>,
}

impl Model for Writer {
    ghost use Rattle.std.specs.Prelude.{ℕ, List, reverse};

    ghost Value = { List ℕ };

    ghost view = { λ w. reverse w.reversed.items };
}

/// A fixed argument of a form.
#[derive(Clone, Copy)]
pub(crate) enum Argument<'a> {
    Name(&'a Name),
    Byte(u8),
    Word(u16),
    DWord(u32),
    Int(Int),
}

// Puts bytes behind the others, the last one first.
fn put_reversed(reversed: &mut Vec<u8>, bytes: &[u8]) -> Result<(), AllocError>
    ensures { OnOk result (reverse reversed.new.items ≡ bytes.now ++ reverse reversed.old.items) }
{
    for i in (0..bytes.len()).rev() {
        reversed.push(bytes[i])?;
    }
    Ok(())
}

impl Writer {
    pub(crate) fn new(alloc: Global) -> Writer
        ensures { result ≡ [] }
    {
        Writer {
            alloc,
            reversed: Vec::new(alloc),
        }
    }

    /// The bytes in their order in the table.
    pub(crate) fn into_bytes(self) -> Vec<u8>
        ensures { result.items ≡ self }
    {
        let mut bytes = self.reversed;
        bytes.reverse();
        bytes
    }

    pub(crate) fn len(&self) -> usize
        ensures { result ≡ length self.now }
    {
        self.reversed.len()
    }

    pub(crate) fn byte(&mut self, byte: u8) -> Result<(), AllocError>
        ensures { OnOk result (self.new ≡ byte ∷ self.old) }
    {
        self.reversed.push(byte)?;
        Ok(())
    }

    pub(crate) fn bytes(&mut self, bytes: &[u8]) -> Result<(), AllocError>
        ensures { OnOk result (self.new ≡ bytes.now ++ self.old) }
    {
        put_reversed(&mut self.reversed, bytes)
    }

    pub(crate) fn name(&mut self, name: &Name) -> Result<(), AllocError>
        ensures put { OnOk result (self.new ≡ name_bytes name.now ++ self.old) }
        ensures typed { IsName name.now }
    {
        let bytes = write_name(self.alloc, name.view())?;
        self.bytes(&bytes)
    }

    pub(crate) fn int(&mut self, int: Int) -> Result<(), AllocError>
        ensures put { OnOk result (self.new ≡ int_bytes int ++ self.old) }
        ensures typed { IsIntTyped int }
    {
        match int {
            Int::Zero => self.byte(0x00),
            Int::One => self.byte(0x01),
            Int::Ones => self.byte(0xFF),
            Int::Revision => self.bytes(&[0x5B, 0x30]),
            Int::Byte(number) => self.bytes(&[0x0A, number]),
            Int::Word(number) => self.prefixed(0x0B, &number.to_le_bytes()),
            Int::DWord(number) => self.prefixed(0x0C, &number.to_le_bytes()),
            Int::QWord(number) => self.prefixed(0x0E, &number.to_le_bytes()),
        }
    }

    fn prefixed(&mut self, prefix: u8, bytes: &[u8]) -> Result<(), AllocError>
        ensures { OnOk result (self.new ≡ prefix ∷ (bytes.now ++ self.old)) }
    {
        self.bytes(bytes)?;
        self.byte(prefix)
    }

    pub(crate) fn argument(&mut self, argument: Argument<'_>) -> Result<(), AllocError>
        ensures put { OnOk result (self.new ≡ argument_piece argument.entry ++ self.old) }
        ensures typed { IsArgumentTyped argument.entry }
    {
        match argument {
            Argument::Name(name) => self.name(name),
            Argument::Byte(number) => self.byte(number),
            Argument::Word(number) => self.bytes(&number.to_le_bytes()),
            Argument::DWord(number) => self.bytes(&number.to_le_bytes()),
            Argument::Int(int) => self.int(int),
        }
    }

    pub(crate) fn arguments(&mut self, arguments: &[Argument<'_>]) -> Result<(), AllocError>
        ensures put { OnOk result (self.new ≡ pieces arguments.now ++ self.old) }
        ensures typed { OnOk result (AreArgumentsTyped arguments.now) }
    {
        for i in (0..arguments.len()).rev() {
            self.argument(arguments[i])?;
        }
        Ok(())
    }

    /// The package length of so many bytes behind it (ACPI 6.5, 20.2.4).
    fn package_length(&mut self, payload: usize) -> Result<(), WriteFault>
        ensures { Puts result (length_bytes payload) self.old self.new }
    {
        if payload > PAYLOAD_LIMIT {
            return Err(WriteFault::TooLong);
        }
        let Some(number) = package_length(payload as u32) else {
            unreachable!()
        };
        let Some(bytes) = write_pkg_length(number) else {
            unreachable!()
        };
        self.bytes(bytes.bytes())?;
        Ok(())
    }

    /// The front of a package that ends where the writer had so many bytes: fixed arguments, length and opcode.
    pub(crate) fn fill(
        &mut self,
        end: usize,
        opcode: &[u8],
        arguments: &[Argument<'_>],
    ) -> Result<(), WriteFault>
        requires { end ≤ length self.old }
        ensures put { (content rest : List ℕ) → self.old ≡ content ++ rest → length rest ≡ end
            → Puts result (filled_with opcode.now (pieces arguments.now) (Some content)) rest
            self.new }
        ensures typed { OnOk result (AreArgumentsTyped arguments.now) }
    {
        self.arguments(arguments)?;
        self.package_length(self.len() - end)?;
        self.bytes(opcode)?;
        Ok(())
    }

    /// A form that is no package: opcode and fixed arguments.
    pub(crate) fn form(
        &mut self,
        opcode: &[u8],
        arguments: &[Argument<'_>],
    ) -> Result<(), WriteFault>
        ensures put { Puts result (Some (opcode.now ++ pieces arguments.now)) self.old self.new }
        ensures typed { OnOk result (AreArgumentsTyped arguments.now) }
    {
        self.arguments(arguments)?;
        self.bytes(opcode)?;
        Ok(())
    }
}

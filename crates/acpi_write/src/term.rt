//! Terms of method bodies.

ghost use Rattle.std.specs.Prelude.{◌≡◌, ◌≤◌, ◌+◌, ◌%◌, ◌∷◌, ◌++◌, [], ℕ, List, length, Some, OnOk};
ghost use Rattle.std.specs.Fmt.{option_append};
ghost use Rattle.acpi_tree.specs.Terms.{terms_of};
ghost use Rattle.acpi_tree.specs.TermView.{term_view, terms_tree, operand_view, operands_view};
ghost use Rattle.acpi_name.specs.Spelling.{name_bytes};
ghost use Rattle.acpi_code.specs.Opcodes as opcodes;
ghost use Rattle.acpi_write.specs.Canonical.{int_bytes, filled_with};
ghost use Rattle.acpi_write.specs.CanonicalTerms.{term_bytes, terms_bytes};
ghost use Rattle.acpi_write.specs.steps.Writing.{Puts};
ghost use Rattle.acpi_name.specs.Names.{IsName};
ghost use Rattle.acpi_write.specs.Laws.{IsIntTyped, IsTermTyped, AreTermsTyped};

use crate::fault::WriteFault;
use crate::writer::{Argument, Writer};
use acpi_name::Name;
use acpi_tree::{Int, Op, Operand, Term};

impl Writer {
    /// Terms one after another (ACPI 6.5, 20.2.5).
    #[cycle(terms)]
    pub(crate) fn terms(&mut self, terms: &[Term]) -> Result<(), WriteFault>
        ensures put { Puts result (terms_bytes (terms_tree terms.now)) self.old self.new }
        ensures typed { OnOk result (AreTermsTyped (terms_tree terms.now)) }
    {
        for i in (0..terms.len()).rev() {
            self.term(&terms[i])?;
        }
        Ok(())
    }

    #[cycle(terms)]
    pub(crate) fn term(&mut self, term: &Term) -> Result<(), WriteFault>
        ensures put { Puts result (term_bytes (term_view term.now)) self.old self.new }
        ensures typed { OnOk result (IsTermTyped (term_view term.now)) }
    {
        match term {
            Term::Int(int) => self.constant(*int),
            Term::Str(text) => self.string(text),
            Term::Buffer(size, content) => {
                let end = self.len();
                self.bytes(content)?;
                self.term(size)?;
                self.fill(end, &[0x11], &[])
            }
            Term::Package(count, elems) => {
                let end = self.len();
                self.terms(elems)?;
                self.fill(end, &[0x12], &[Argument::Byte(*count)])
            }
            Term::VarPackage(count, elems) => {
                let end = self.len();
                self.terms(elems)?;
                self.term(count)?;
                self.fill(end, &[0x13], &[])
            }
            Term::Local(number) => self.numbered(0x60, *number),
            Term::Arg(number) => self.numbered(0x68, *number),
            Term::Debug => self.fixed(&[0x5B, 0x31]),
            Term::NoTarget => self.fixed(&[0x00]),
            Term::Ref(name) => self.reference(name),
            Term::Call(name, args) => self.call(name, args),
            Term::Op(op, operands) => self.operation(*op, operands),
            Term::If(test, then, other) => {
                if let Some(terms) = other {
                    self.alternative(terms)?;
                }
                let end = self.len();
                self.terms(then)?;
                self.term(test)?;
                self.fill(end, &[0xA0], &[])
            }
            Term::While(test, then) => {
                let end = self.len();
                self.terms(then)?;
                self.term(test)?;
                self.fill(end, &[0xA2], &[])
            }
            Term::Declare(decl) => self.declaration(decl),
        }
    }

    #[inline(never)]
    fn constant(&mut self, int: Int) -> Result<(), WriteFault>
        ensures put { Puts result (Some (int_bytes int)) self.old self.new }
        ensures typed { IsIntTyped int }
    {
        self.int(int)?;
        Ok(())
    }

    #[inline(never)]
    pub(crate) fn fixed(&mut self, bytes: &[u8]) -> Result<(), WriteFault>
        ensures { Puts result (Some bytes.now) self.old self.new }
    {
        self.bytes(bytes)?;
        Ok(())
    }

    // LocalObj, ArgObj
    #[inline(never)]
    fn numbered(&mut self, first: u8, number: u8) -> Result<(), WriteFault>
        ensures { Puts result (Some (((number + first) % 256) ∷ [])) self.old self.new }
    {
        self.byte(number.wrapping_add(first))?;
        Ok(())
    }

    #[inline(never)]
    pub(crate) fn reference(&mut self, name: &Name) -> Result<(), WriteFault>
        ensures put { Puts result (Some (name_bytes name.now)) self.old self.new }
        ensures typed { IsName name.now }
    {
        self.name(name)?;
        Ok(())
    }

    // The package of an Else.
    #[cycle(terms)]
    fn alternative(&mut self, terms: &[Term]) -> Result<(), WriteFault>
        ensures put { Puts result (filled_with (0xA1 ∷ []) [] (terms_bytes (terms_tree terms.now)))
            self.old self.new }
        ensures typed { OnOk result (AreTermsTyped (terms_tree terms.now)) }
    {
        let end = self.len();
        self.terms(terms)?;
        self.fill(end, &[0xA1], &[])
    }

    // A name and its arguments.
    #[cycle(terms)]
    fn call(&mut self, name: &Name, args: &[Term]) -> Result<(), WriteFault>
        ensures put { Puts result (option_append (Some (name_bytes name.now))
            (terms_bytes (terms_tree args.now))) self.old self.new }
        ensures typed { OnOk result (IsName name.now × AreTermsTyped (terms_tree args.now)) }
    {
        self.terms(args)?;
        self.reference(name)
    }

    // An operator and its operands.
    #[cycle(terms)]
    fn operation(&mut self, op: Op, operands: &[Operand]) -> Result<(), WriteFault>
        ensures put { Puts result (option_append (Some (opcodes.operator_bytes op))
            (terms_bytes (terms_of (operands_view operands.now)))) self.old self.new }
        ensures typed { OnOk result (AreTermsTyped (terms_of (operands_view operands.now))) }
    {
        self.operands(operands)?;
        self.fixed(op.row().opcode)
    }

    #[cycle(terms)]
    fn operands(&mut self, operands: &[Operand]) -> Result<(), WriteFault>
        ensures put { Puts result (terms_bytes (terms_of (operands_view operands.now))) self.old
            self.new }
        ensures typed { OnOk result (AreTermsTyped (terms_of (operands_view operands.now))) }
    {
        for i in (0..operands.len()).rev() {
            self.operand(&operands[i])?;
        }
        Ok(())
    }

    #[cycle(terms)]
    fn operand(&mut self, operand: &Operand) -> Result<(), WriteFault>
        ensures put { Puts result (term_bytes (operand_view operand.now)) self.old self.new }
        ensures typed { OnOk result (IsTermTyped (operand_view operand.now)) }
    {
        match operand {
            Operand::Term(term) => self.term(term),
            Operand::Byte(number) => self.raw_byte(*number),
            Operand::Word(number) => self.fixed(&number.to_le_bytes()),
            Operand::DWord(number) => self.fixed(&number.to_le_bytes()),
        }
    }
}

//! Reading constants.

ghost use Rattle.acpi_code.specs.steps.Reading.{constant_at};
ghost use Rattle.acpi_code.specs.steps.Fields.{int_in};
ghost use Rattle.acpi_code.specs.steps.Cursor.{Finds, FindsOn};

use crate::code::Code;
use crate::fault::{CodeFault, ConstantFault};
use crate::opcode::{ConstantForm, Opcode};
use acpi_tree::Int;

impl Code<'_> {
    /// The constant whose opcode was read (ACPI 6.5, 20.2.3). `Cut` where the list ends inside its number.
    pub fn constant(&mut self, form: ConstantForm) -> Result<Int, CodeFault>
        ensures { FindsOn (λ i. i) (constant_at form) self.old self.new result }
    {
        Ok(match form {
            ConstantForm::Zero => Int::Zero,
            ConstantForm::One => Int::One,
            ConstantForm::Ones => Int::Ones,
            ConstantForm::Revision => Int::Revision,
            ConstantForm::Byte => Int::Byte(self.byte()?),
            ConstantForm::Word => Int::Word(self.word()?),
            ConstantForm::DWord => Int::DWord(self.dword()?),
            ConstantForm::QWord => Int::QWord(self.qword()?),
        })
    }

    /// A constant: its opcode, and what stands behind it. `NotConstant` where something else begins.
    #[tactic(auto, unfolding(crate::specs::steps::Fields::int_in))]
    pub fn int(&mut self) -> Result<Int, ConstantFault>
        ensures { Finds (λ i. i) int_in self.old self.new result }
    {
        let place = self.place();
        match self.opcode()? {
            Opcode::Constant(form) => Ok(self.constant(form)?),
            opcode => Err(ConstantFault::NotConstant { opcode, place }),
        }
    }
}

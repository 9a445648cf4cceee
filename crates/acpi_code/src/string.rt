//! Reading strings.

ghost use Rattle.std.specs.Prelude.{◌≡◌, ◌≤◌, length};
ghost use Rattle.std.specs.List.{take_while};
ghost use Rattle.acpi_code.specs.steps.Reading.{is_text, string_at};
ghost use Rattle.acpi_code.specs.steps.Cursor.{Finds};

use crate::code::Code;
use crate::fault::{CodeFault, CodeReason};

fn text_len(bytes: &[u8]) -> usize
    ensures exact { result ≡ length (take_while is_text bytes.now) }
    ensures within { result ≤ length bytes.now }
{
    bytes.iter().take_while(|b| **b > 0 && **b < 128).count()
}

impl<'a> Code<'a> {
    /// The text up to the 00 that ends it, which is no part of it: bytes 01 to 7F (ACPI 6.5, 20.2.3). `BadString` at
    /// a byte above 7F, `Cut` where no 00 is left.
    #[tactic(auto, unfolding(crate::specs::steps::Reading::string_at))]
    pub fn string(&mut self) -> Result<&'a [u8], CodeFault>
        ensures { Finds (λ s. s.now) string_at self.old self.new result }
    {
        let text = self.split(text_len(self.left()));
        let closing = self.fork();
        if self.byte()? != 0 {
            return Err(closing.fault_here(CodeReason::BadString));
        }
        Ok(text.left())
    }
}

//! Reading names and segments.

ghost use Rattle.std.specs.Prelude.{◌≡◌, ◌<◌, ◌≤◌, true, length, take, drop, IfOk};
ghost use Rattle.acpi_name.specs.Reading.{Answers, name_at};
ghost use Rattle.acpi_name.specs.NameRefs.{name_parts};
ghost use Rattle.acpi_name.specs.Names.{is_segment_front};
ghost use Rattle.acpi_code.specs.steps.Reading.{name_in, segment_in};
ghost use Rattle.acpi_code.specs.steps.Cursor.{Finds};

use crate::code::Code;
use crate::fault::{CodeFault, CodeReason};
use acpi_name::{NameFault, NameRef, Seg, begins_segment, read_name};

impl<'a> Code<'a> {
    /// A NameString (ACPI 6.5, 20.2.2). `BadName` where none begins there, however the bytes go on; `Cut` where the
    /// list ends inside one.
    #[tactic(auto, unfolding(crate::specs::steps::Reading::name_in))]
    pub fn name(&mut self) -> Result<NameRef<'a>, CodeFault>
        ensures { Finds name_parts name_in self.old self.new result }
    {
        match front_name(self.left()) {
            Ok((name, used)) => {
                self.skip(used);
                Ok(name)
            }
            Err(NameFault::Cut) => Err(self.cut()),
            Err(NameFault::BadChar) => Err(self.fault_here(CodeReason::BadName)),
            Err(NameFault::ZeroCount) => Err(self.fault_here(CodeReason::BadName)),
            Err(NameFault::TooManyUps) => Err(self.fault_here(CodeReason::BadName)),
        }
    }

    /// A NameSeg: four characters, the first no digit (20.2.2). `BadName` where up to four bytes that are left can
    /// begin none, `Cut` where fewer than four are left.
    #[tactic(auto, unfolding(crate::specs::steps::Reading::segment_in, acpi_name::specs::Reading::segment_at))]
    pub fn segment(&mut self) -> Result<Seg, CodeFault>
        ensures { Finds (λ s. s) segment_in self.old self.new result }
    {
        let left = self.left();
        if !begins_segment(left) {
            return Err(self.fault_here(CodeReason::BadName));
        }
        if left.len() < 4 {
            return Err(self.cut());
        }
        self.skip(4);
        Ok(first_segment(left))
    }
}

// The name at the front, and how many bytes spell it, as the reading of names has it.
fn front_name(bytes: &[u8]) -> Result<(NameRef<'_>, usize), NameFault>
    ensures exact { Answers (λ x. (name_parts x.0, drop x.1 bytes.now)) result (name_at bytes.now) }
    ensures used { IfOk result (λ x. (0 < x.1) × (x.1 ≤ length bytes.now)) }
{
    read_name(bytes)
}

fn first_segment(bytes: &[u8]) -> Seg
    requires segment { is_segment_front bytes.now ≡ true }
    requires whole { 4 ≤ length bytes.now }
    ensures { result ≡ take 4 bytes.now }
{
    match Seg::new([bytes[0], bytes[1], bytes[2], bytes[3]]) {
        Some(seg) => seg,
        None => unreachable!(),
    }
}

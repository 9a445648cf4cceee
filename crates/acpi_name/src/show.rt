//! Printed segments, paths and names.

ghost use Rattle.std.specs.Prelude.{◌≡◌, Some, IsTrue, replicate};
ghost use Rattle.std.specs.Fmt.{WritesOnOk};
ghost use Rattle.acpi_name.specs.NameRefs.{name_parts};
ghost use Rattle.acpi_name.specs.Names.{AreSegments, is_segment};
ghost use Rattle.acpi_name.specs.Text.{path_text, name_text, dotted};

use crate::name::{Name, NameRef};
use crate::path::Path;
use crate::seg::Seg;
use std::fmt;

impl fmt::Display for Seg {
    ghost output = { λ s. Some s };

    fn fmt<W: fmt::Write>(&self, f: &mut fmt::Formatter<W>) -> fmt::Result {
        let bytes = self.bytes();
        f.write_str(text_of(&bytes))
    }
}

impl fmt::Display for Path {
    ghost output = { λ p. Some (path_text p) };

    fn fmt<W: fmt::Write>(&self, f: &mut fmt::Formatter<W>) -> fmt::Result {
        f.write_str("\\")?;
        match self.segs() {
            [] => Ok(()),
            [first, rest @ ..] => {
                write!(f, "{first}")?;
                for seg in rest {
                    write!(f, ".{seg}")?;
                }
                Ok(())
            }
        }
    }
}

impl fmt::Display for NameRef<'_> {
    ghost output = { λ n. Some (name_text (name_parts n)) };

    fn fmt<W: fmt::Write>(&self, f: &mut fmt::Formatter<W>) -> fmt::Result {
        if !self.rooted() && self.parents() == 0 && self.len() == 0 {
            return f.write_str(".");
        }
        if self.rooted() {
            f.write_str("\\")?;
        }
        put_carets(f, self.parents())?;
        put_dotted(f, self.chunks())
    }
}

impl fmt::Display for Name {
    ghost output = { λ n. Some (name_text n) };

    fn fmt<W: fmt::Write>(&self, f: &mut fmt::Formatter<W>) -> fmt::Result {
        let name = self.view();
        write!(f, "{name}")
    }
}

// The text of a segment: its characters are ASCII.
fn text_of(segment: &[u8; 4]) -> &str
    requires { IsTrue (is_segment segment.now) }
    ensures { result.now ≡ segment.now }
{
    match std::str::from_utf8(segment) {
        Ok(text) => text,
        Err(_) => unreachable!(),
    }
}

fn put_carets<W: fmt::Write>(f: &mut fmt::Formatter<W>, count: usize) -> fmt::Result
    ensures { WritesOnOk W.write_str_gives f.old result (replicate count 94) f.new }
{
    for _ in 0..count {
        f.write_str("^")?;
    }
    Ok(())
}

fn put_dotted<W: fmt::Write>(f: &mut fmt::Formatter<W>, segs: &[[u8; 4]]) -> fmt::Result
    requires { AreSegments segs.now }
    ensures { WritesOnOk W.write_str_gives f.old result (dotted segs.now) f.new }
{
    match segs {
        [] => Ok(()),
        [first, rest @ ..] => {
            f.write_str(text_of(first))?;
            for seg in rest {
                f.write_str(".")?;
                f.write_str(text_of(seg))?;
            }
            Ok(())
        }
    }
}

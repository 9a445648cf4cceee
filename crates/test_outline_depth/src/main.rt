//! Outlines of codes that are nested as deep as may be, and of some with faults. The gate runs this program as two compilers
//! build it; its stack is what the tests give it.
#![tactic(auto)]

ghost use Rattle.std.specs.Prelude.{true};

use acpi_code::Depth;
use acpi_name::{Name, NameRef};
use acpi_outline::{Fixed, Known, Lost, Node, Nodes, PackedForm, Plain, read_outline};
use acpi_tree::FieldElem;
use bytes::Bytes;
use std::alloc::{AllocError, Global};

/// The most levels that a node may have.
const LEVELS: u32 = 4096;

/// Codes with an Else, with faults and with further forms, and what they are.
const CODES: [(&str, &[u8]); 7] = [
    (
        "an If with an Else",
        &[
            0x08, 0x41, 0x41, 0x41, 0x41, 0x01, 0xA0, 0x12, 0x41, 0x41, 0x41, 0x41, 0x5B, 0x82,
            0x0B, 0x44, 0x45, 0x56, 0x30, 0x08, 0x5F, 0x41, 0x44, 0x52, 0x01, 0xA1, 0x0E, 0x5B,
            0x82, 0x0B, 0x44, 0x45, 0x56, 0x30, 0x08, 0x5F, 0x55, 0x49, 0x44, 0x01,
        ],
    ),
    (
        "a fault in a Device",
        &[
            0x5B, 0x82, 0x13, 0x44, 0x45, 0x56, 0x30, 0x08, 0x41, 0x41, 0x41, 0x41, 0x01, 0x04,
            0x04, 0x08, 0x43, 0x43, 0x43, 0x43, 0x01, 0x08, 0x42, 0x42, 0x42, 0x42, 0x01,
        ],
    ),
    (
        "a Device without a name",
        &[
            0x5B, 0x82, 0x03, 0x30, 0x30, 0x08, 0x42, 0x42, 0x42, 0x42, 0x01, 0x10,
        ],
    ),
    (
        "data that is no data",
        &[
            0x08, 0x42, 0x42, 0x42, 0x42, 0x12, 0x03, 0x01, 0x04, 0x11, 0x03, 0x5B, 0x82, 0x08,
            0x43, 0x43, 0x43, 0x43, 0x01,
        ],
    ),
    (
        "a fault in a Field",
        &[
            0x5B, 0x81, 0x0B, 0x52, 0x45, 0x47, 0x30, 0x01, 0x41, 0x41, 0x41, 0x41, 0x08, 0x5B,
            0x81, 0x0D, 0x52, 0x45, 0x47, 0x30, 0x01, 0x41, 0x41, 0x41, 0x41, 0x08, 0x30, 0x08,
            0x08, 0x43, 0x43, 0x43, 0x43, 0x01,
        ],
    ),
    (
        "a buffer whose size is a Local",
        &[
            0x5B, 0x81, 0x0A, 0x52, 0x45, 0x47, 0x30, 0x01, 0x02, 0x11, 0x02, 0x60,
        ],
    ),
    (
        "further forms",
        &[
            0x06, 0x41, 0x41, 0x41, 0x41, 0x42, 0x42, 0x42, 0x42, 0x5B, 0x83, 0x0B, 0x43, 0x50,
            0x55, 0x30, 0x01, 0x10, 0x08, 0x00, 0x00, 0x06, 0x5B, 0x84, 0x08, 0x50, 0x57, 0x52,
            0x30, 0x01, 0x02, 0x00, 0x5B, 0x85, 0x05, 0x54, 0x48, 0x4D, 0x30, 0xA2, 0x03, 0x01,
            0xA5, 0x5B, 0x86, 0x0F, 0x49, 0x4E, 0x44, 0x30, 0x44, 0x41, 0x54, 0x30, 0x01, 0x46,
            0x4C, 0x44, 0x31, 0x08, 0x5B, 0x87, 0x10, 0x52, 0x45, 0x47, 0x30, 0x42, 0x4E, 0x4B,
            0x30, 0x00, 0x01, 0x46, 0x4C, 0x44, 0x32, 0x08, 0x5B, 0x88, 0x52, 0x45, 0x47, 0x31,
            0x0D, 0x46, 0x41, 0x43, 0x50, 0x00, 0x0D, 0x00, 0x0D, 0x00, 0x00, 0x5B, 0x31, 0x60,
            0x8A, 0x41, 0x41, 0x41, 0x41, 0x00, 0x42, 0x42, 0x42, 0x42, 0x5B, 0x20, 0x41, 0x41,
            0x41, 0x41, 0x00,
        ],
    ),
];

/// A Name whose data is a package.
const DEEP: [u8; 8] = [0x08, 0x41, 0x41, 0x41, 0x41, 0x12, 0x02, 0x00];

/// A Create field whose source is a name, and one whose source is a Local.
const NAMED_SOURCE: [u8; 10] = [0x8A, 0x42, 0x55, 0x46, 0x30, 0x00, 0x43, 0x52, 0x45, 0x30];

const LOCAL_SOURCE: [u8; 7] = [0x8A, 0x60, 0x00, 0x43, 0x52, 0x45, 0x30];

/// An If that asks a name, a Name, and a Store of a name.
const CALLS: [u8; 19] = [
    0xA0, 0x06, 0x41, 0x41, 0x41, 0x41, 0xA3, 0x08, 0x42, 0x42, 0x42, 0x42, 0x01, 0x70, 0x41, 0x41,
    0x41, 0x41, 0x60,
];

/// A state in which nothing is known: as many values follow each name, if that is sure, and all may be gone into.
#[derive(Clone, Copy)]
struct Nothing {
    alloc: Global,
    count: Option<u8>,
}

impl Known for Nothing {
    ghost rules = { record {
      args = λ k n. k.count;
      opens = λ k f. true;
      after_plain = λ k p t. k;
      after_name = λ k p n. k;
      after_lost = λ k p f. k;
      enter = λ k p f. k;
      leave = λ k. k;
      begin_fields = λ k p f. k;
      after_field = λ k p f e. k;
      after_closed = λ k p f c. k;
    } };

    fn alloc(&self) -> Global {
        self.alloc
    }

    fn count(&self, _name: NameRef<'_>) -> Result<Option<u8>, AllocError> {
        Ok(self.count)
    }

    fn opens(&self, _fixed: &Fixed) -> Result<bool, AllocError> {
        Ok(true)
    }

    fn pass_plain(&mut self, _place: usize, _plain: &Plain) -> Result<(), AllocError> {
        Ok(())
    }

    fn pass_name(&mut self, _place: usize, _name: &Name) -> Result<(), AllocError> {
        Ok(())
    }

    fn pass_lost(&mut self, _place: usize, _form: Option<PackedForm>) -> Result<(), AllocError> {
        Ok(())
    }

    fn enter(&mut self, _place: usize, _fixed: &Fixed) -> Result<(), AllocError> {
        Ok(())
    }

    fn begin_fields(&mut self, _place: usize, _fixed: &Fixed) -> Result<(), AllocError> {
        Ok(())
    }

    fn pass_field(
        &mut self,
        _place: usize,
        _fixed: &Fixed,
        _element: &FieldElem,
    ) -> Result<(), AllocError> {
        Ok(())
    }

    fn leave(&mut self) -> Result<(), AllocError> {
        Ok(())
    }

    fn pass_closed(
        &mut self,
        _place: usize,
        _fixed: &Fixed,
        _content: &Bytes,
    ) -> Result<(), AllocError> {
        Ok(())
    }
}

// So many packages, each inside the one before: the opcode, a length of four bytes that counts all that follows, and
// what stands first in each.
fn nested(alloc: Global, opcode: u8, first: u8, levels: u32) -> Result<Vec<u8>, AllocError> {
    let mut code = Vec::new(alloc);
    for left in (1..=levels).rev() {
        let length = left.saturating_mul(6).saturating_sub(1);
        let [low, middle, high, _] = (length >> 4).to_le_bytes();
        code.push(opcode)?;
        code.push(0xC0 | (length % 16) as u8)?;
        code.extend_from_slice(&[low, middle, high, first])?;
    }
    Ok(code)
}

// What a package is, by its fixed arguments.
fn package_word(fixed: &Fixed) -> &'static str {
    match fixed {
        Fixed::Scope(_) => "Scope",
        Fixed::Device(_) => "Device",
        Fixed::Processor(_, _, _, _) => "Processor",
        Fixed::Power(_, _, _) => "PowerResource",
        Fixed::Thermal(_) => "ThermalZone",
        Fixed::Method(_, _) => "Method",
        Fixed::If(_) => "If",
        Fixed::Else => "Else",
        Fixed::While(_) => "While",
        Fixed::Field(_, _) => "Field",
        Fixed::IndexField(_, _, _) => "IndexField",
        Fixed::BankField(_, _, _, _) => "BankField",
    }
}

// What a node is.
fn word(node: &Node) -> &'static str {
    match node {
        Node::Plain(Plain::Term(_)) => "term",
        Node::Plain(Plain::External(_)) => "External",
        Node::Plain(Plain::Alias(_, _)) => "Alias",
        Node::Plain(Plain::TableRegion(_, _, _, _)) => "DataTableRegion",
        Node::Holds(fixed, _) => package_word(fixed),
        Node::Fields(fixed, _, _) => package_word(fixed),
        Node::Closed(_, _) => "closed",
        Node::PackageLost(_, _) => "unread",
        Node::DataLost(_, _) => "unread data",
        Node::NameLost(_, _, _) => "Name ?",
    }
}

// The nodes in order, each behind its place, with those in it in brackets.
fn put_nodes(text: &mut String, nodes: &Nodes, levels: u32) -> Result<(), AllocError> {
    for placed in &nodes.read {
        write!(text, " {} {}", placed.place, word(&placed.node))?;
        if let Node::Holds(_, inner) = &placed.node {
            if levels > 0 {
                text.push_str(" [")?;
                put_nodes(text, inner, levels - 1)?;
                text.push_str(" ]")?;
            }
        }
        if let Node::Fields(_, read, lost) = &placed.node {
            for field in read {
                write!(text, " .{}", field.place)?;
            }
            if let Some(Lost { place, fault }) = lost {
                write!(
                    text,
                    " .{} lost ({} at {})",
                    place, fault.reason, fault.place
                )?;
            }
        }
        if let Node::NameLost(_, _, fault) = &placed.node {
            write!(text, " ({} at {})", fault.reason, fault.place)?;
        }
        if let Node::DataLost(_, fault) = &placed.node {
            write!(text, " ({} at {})", fault.reason, fault.place)?;
        }
        if let Node::PackageLost(_, fault) = &placed.node {
            write!(text, " ({} at {})", fault.reason, fault.place)?;
        }
    }
    if let Some(Lost { place, fault }) = nodes.lost {
        write!(
            text,
            " {} lost ({} at {})",
            place, fault.reason, fault.place
        )?;
    }
    Ok(())
}

fn outline_of(known: Nothing, code: &[u8], levels: u32, shown: u32) -> Result<String, AllocError> {
    let mut known = known;
    let mut text = String::new(known.alloc);
    let code = Bytes::copy_from_slice(known.alloc, code)?;
    let Some(depth) = Depth::new(levels) else {
        return Ok(text);
    };
    let nodes = read_outline(&mut known, &code, depth)?;
    put_nodes(&mut text, &nodes, shown)?;
    Ok(text)
}

fn main(rt: HostRuntime) -> anyhow::Result<()> {
    let alloc = rt.alloc();
    let known = Nothing {
        alloc,
        count: Some(0),
    };
    let scopes = nested(alloc, 0x10, 0x00, LEVELS)?;
    println!(rt; "Scopes:{}", outline_of(known, &scopes, LEVELS, 1)?)?;
    println!(rt;
        "Scopes, a level less:{}",
        outline_of(known, &scopes, LEVELS - 1, 1)?
    )?;
    let ifs = nested(alloc, 0xA0, 0x00, LEVELS)?;
    println!(rt; "Ifs:{}", outline_of(known, &ifs, LEVELS, 1)?)?;
    let ones = nested(alloc, 0xA0, 0x01, LEVELS)?;
    println!(rt; "Ifs (One):{}", outline_of(known, &ones, LEVELS, 1)?)?;
    let elses = nested(alloc, 0xA1, 0xA3, LEVELS)?;
    println!(rt; "Elses:{}", outline_of(known, &elses, LEVELS, 1)?)?;
    for (what, code) in &CODES {
        println!(rt; "{what}:{}", outline_of(known, code, 8, 8)?)?;
    }
    println!(rt;
        "a Name at the last level:{}",
        outline_of(known, &DEEP, 1, 8)?
    )?;
    println!(rt;
        "a named source at the last level:{}",
        outline_of(known, &NAMED_SOURCE, 1, 8)?
    )?;
    println!(rt;
        "a Local as source at the last level:{}",
        outline_of(known, &LOCAL_SOURCE, 1, 8)?
    )?;
    let unsure = Nothing { alloc, count: None };
    println!(rt;
        "names with no sure count:{}",
        outline_of(unsure, &CALLS, 8, 8)?
    )?;
    Ok(())
}

//! UUIDs with which methods compare their first argument.

use acpi_check_machine::{Body, Line, Machine, name_read, terms_on_line};
use acpi_kinds::ObjectKind;
use acpi_name::Path;
use acpi_tree::{Op, Operand, Term};
use std::alloc::AllocError;

/// A UUID with which methods compare their first argument.
#[derive(Debug, Drop)]
pub struct UuidUse<'a> {
    /// Its bytes, as a buffer has them.
    pub bytes: [u8; 16],
    /// The methods, by path.
    pub methods: Vec<&'a Path>,
}

// UUIDs, as a buffer has their bytes, and what calls with them are of (the PCI Firmware Specification, 4.5 and 4.6; ACPI 6.5,
// 6.2.11 and 9.18; the USB4, CXL 3.0 and HID over I2C specifications; Linux's drivers).
static NAMES: [([u8; 16], &str); 9] = [
    (
        [
            0x6E, 0xB0, 0x11, 0x08, 0x27, 0x4A, 0xF9, 0x44, 0x8D, 0x60, 0x3C, 0xBB, 0xC2, 0x2E,
            0x7B, 0x48,
        ],
        "platform _OSC",
    ),
    (
        [
            0x3A, 0xD1, 0xA0, 0x23, 0xAB, 0x26, 0x6C, 0x48, 0x9C, 0x5F, 0x0F, 0xFA, 0x52, 0x5A,
            0x57, 0x5A,
        ],
        "USB4 _OSC",
    ),
    (
        [
            0xF7, 0xF6, 0xDF, 0x3C, 0x67, 0x42, 0x55, 0x45, 0xAD, 0x05, 0xB3, 0x0A, 0x3D, 0x89,
            0x38, 0xDE,
        ],
        "HID over I2C _DSM",
    ),
    (
        [
            0xB3, 0x56, 0xEC, 0xEE, 0x42, 0x34, 0x8F, 0x40, 0xA7, 0x92, 0x4E, 0xDD, 0x4D, 0x75,
            0x80, 0x54,
        ],
        "Intel HID events _DSM",
    ),
    (
        [
            0x85, 0xE3, 0x2E, 0xCE, 0xE6, 0x00, 0xCB, 0x48, 0x9F, 0x05, 0x2E, 0xDB, 0x92, 0x7C,
            0x48, 0x99,
        ],
        "Intel USB controller _DSM",
    ),
    (
        [
            0x5B, 0x4D, 0xDB, 0x33, 0xF7, 0x1F, 0x1C, 0x40, 0x96, 0x57, 0x74, 0x41, 0xC0, 0x3D,
            0xD7, 0x66,
        ],
        "PCI host bridge _OSC",
    ),
    (
        [
            0xD0, 0x37, 0xC9, 0xE5, 0x53, 0x35, 0x7A, 0x4D, 0x91, 0x17, 0xEA, 0x4D, 0x19, 0xC3,
            0x43, 0x4D,
        ],
        "PCI firmware _DSM",
    ),
    (
        [
            0x0B, 0xD5, 0xF2, 0x68, 0x69, 0xC4, 0x8A, 0x4D, 0xBD, 0x3D, 0x94, 0x1A, 0x10, 0x3F,
            0xD3, 0xFC,
        ],
        "CXL host bridge _OSC",
    ),
    (
        [
            0x6E, 0x88, 0x9F, 0xA6, 0xEB, 0x6C, 0x94, 0x45, 0xA4, 0x1F, 0x7B, 0x5D, 0xCE, 0x24,
            0xC5, 0x53,
        ],
        "Intel audio NHLT _DSM",
    ),
];

/// What calls with a UUID are of, if it is well known.
pub fn uuid_name(bytes: &[u8; 16]) -> Option<&'static str> {
    for (uuid, name) in &NAMES {
        if uuid == bytes {
            return Some(*name);
        }
    }
    None
}

// The term with which a comparison compares the first argument.
fn compared(term: &Term) -> Option<&Term> {
    let Term::Op(Op::LEqual, operands) = term else {
        return None;
    };
    match operands.as_slice() {
        [Operand::Term(Term::Arg(0)), Operand::Term(value)] => Some(value),
        [Operand::Term(value), Operand::Term(Term::Arg(0))] => Some(value),
        _ => None,
    }
}

// The bytes of a buffer of 16.
fn uuid_in(term: &Term) -> Option<[u8; 16]> {
    match term {
        Term::Buffer(_, bytes) => <[u8; 16]>::try_from(bytes.as_slice()).ok(),
        _ => None,
    }
}

// The UUID that a term on a line is, or names.
fn uuid_of<'a>(
    machine: &Machine<'a>,
    body: &Body<'a>,
    line: &Line<'a>,
    term: &Term,
) -> Option<[u8; 16]> {
    let Some(name) = name_read(term) else {
        return uuid_in(term);
    };
    match machine
        .found_by(body, line.number, line.name(name)?)?
        .kind()
    {
        ObjectKind::Name(Some(value)) => uuid_in(value),
        _ => None,
    }
}

// Puts that a method compares with a UUID.
fn put<'a>(
    machine: &Machine<'a>,
    found: &mut Vec<UuidUse<'a>>,
    bytes: [u8; 16],
    method: &'a Path,
) -> Result<(), AllocError> {
    for uuid in found.iter_mut() {
        if uuid.bytes == bytes {
            if uuid.methods.last().copied() != Some(method) {
                uuid.methods.push(method)?;
            }
            return Ok(());
        }
    }
    let mut methods = Vec::new(machine.alloc);
    methods.push(method)?;
    found.push(UuidUse { bytes, methods })?;
    Ok(())
}

// Puts those of a line.
fn put_line<'a>(
    machine: &Machine<'a>,
    found: &mut Vec<UuidUse<'a>>,
    body: &Body<'a>,
    line: &Line<'a>,
) -> Result<(), AllocError> {
    for term in terms_on_line(machine.alloc, line.statement)? {
        if let Some(value) = compared(term) {
            if let Some(bytes) = uuid_of(machine, body, line, value) {
                put(machine, found, bytes, body.object.path)?;
            }
        }
    }
    Ok(())
}

/// The UUIDs with which methods compare their first argument, in the order in which they do so first.
pub fn uuids_of<'a>(machine: &Machine<'a>) -> Result<Vec<UuidUse<'a>>, AllocError> {
    let mut found = Vec::new(machine.alloc);
    for object in &machine.objects {
        let Some(body) = machine.body(object.number) else {
            continue;
        };
        for line in &body.lines {
            put_line(machine, &mut found, body, line)?;
        }
    }
    Ok(found)
}

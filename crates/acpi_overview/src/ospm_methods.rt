//! What an operating system runs without being asked.

ghost use Rattle.std.specs.Prelude.{◌≡◌};
ghost use Rattle.acpi_overview.specs.OspmMethods.{is_hex_digit, named_kind, numbered_kind, ospm_kind, system_kind};

use crate::containers::last_segment;
use crate::objects::Object;
use acpi_kinds::ObjectKind;
use std::alloc::{AllocError, Global};

/// A kind of methods that an operating system runs by itself (ACPI 6.5, 5.6, 6.2, 6.3, 6.5 and 7).
#[derive(Debug, Clone, Copy, PartialEq, Eq)]
pub enum OspmKind {
    /// `_INI`, when the namespace is loaded (6.5.1).
    Init,
    /// `_REG`, when an address space comes or goes (6.5.4).
    Reg,
    /// `_OSC`, to agree on features (6.2.11).
    Osc,
    /// `_STA`, to see whether a device is there (6.3.7).
    Sta,
    /// `_PRW`, to see by what a device wakes the machine (7.3.13).
    Wake,
    /// `_Qxx`, for an event of an embedded controller (5.6.4.1.2).
    Query,
    /// `_Lxx` and `_Exx`, for an event of `\_GPE` or of a GPIO controller (5.6.4.1.1 and 5.6.5.1).
    Event,
    /// `\_PIC`, `\_PTS`, `\_WAK` and the like, for the machine as a whole (5.8.1 and 7.4).
    System,
}

/// All kinds, in the order in which they are shown.
pub const OSPM_KINDS: [OspmKind; 8] = [
    OspmKind::Init,
    OspmKind::Reg,
    OspmKind::Osc,
    OspmKind::Sta,
    OspmKind::Wake,
    OspmKind::Query,
    OspmKind::Event,
    OspmKind::System,
];

/// A method that an operating system runs by itself.
#[derive(Debug, Clone, Copy)]
pub struct OspmMethod<'a> {
    /// What the operating system runs it for.
    pub kind: OspmKind,
    /// The object of the method.
    pub object: Object<'a>,
}

fn is_hex(b: u8) -> bool
    ensures { result ≡ is_hex_digit b }
{
    (b'0' <= b && b <= b'9') || (b'A' <= b && b <= b'F')
}

// By a name that has no number in it.
fn named_kind(segment: [u8; 4]) -> Option<OspmKind>
    ensures { result ≡ named_kind segment }
{
    match segment.as_slice() {
        b"_INI" => Some(OspmKind::Init),
        b"_REG" => Some(OspmKind::Reg),
        b"_OSC" => Some(OspmKind::Osc),
        b"_STA" => Some(OspmKind::Sta),
        b"_PRW" => Some(OspmKind::Wake),
        _ => None,
    }
}

// Of a method at the root.
fn system_kind(segment: [u8; 4]) -> Option<OspmKind>
    ensures { result ≡ system_kind segment }
{
    match segment.as_slice() {
        b"_PIC" | b"_PTS" | b"_WAK" | b"_TTS" | b"_GTS" | b"_BFS" => Some(OspmKind::System),
        _ => None,
    }
}

// By a name that ends with a number.
fn numbered_kind(segment: [u8; 4]) -> Option<OspmKind>
    ensures { result ≡ numbered_kind segment }
{
    let [first, second, high, low] = segment;
    if first != b'_' || !is_hex(high) || !is_hex(low) {
        return None;
    }
    match second {
        b'Q' => Some(OspmKind::Query),
        b'L' | b'E' => Some(OspmKind::Event),
        _ => None,
    }
}

/// The kind of a method, if an operating system runs it by itself.
pub fn ospm_kind(object: &Object<'_>) -> Option<OspmKind>
    ensures { result ≡ ospm_kind object.now.kind object.now.path.now }
{
    let ObjectKind::Method(_) = object.kind else {
        return None;
    };
    let segment = last_segment(object.path);
    match named_kind(segment) {
        Some(kind) => Some(kind),
        None => {
            if object.path.len() == 1 {
                system_kind(segment)
            } else {
                numbered_kind(segment)
            }
        }
    }
}

/// The methods that an operating system runs by itself, in the order of their paths.
pub fn ospm_methods_of<'a>(
    alloc: Global,
    objects: &[Object<'a>],
) -> Result<Vec<OspmMethod<'a>>, AllocError> {
    let mut ospm_methods = Vec::new(alloc);
    for object in objects {
        if object.site.is_none() {
            continue;
        }
        if let Some(kind) = ospm_kind(object) {
            ospm_methods.push(OspmMethod {
                kind,
                object: *object,
            })?;
        }
    }
    Ok(ospm_methods)
}

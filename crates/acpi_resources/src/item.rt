//! Items, and the descriptors that they spell (ACPI 6.5, 6.4.2 and 6.4.3).

ghost use Rattle.std.specs.Prelude.{◌≡◌, ◌+◌, ◌<◌, ◌++◌, length, drop, is_some, IfSome, IfNone};
ghost use Rattle.acpi_resources.specs.Items.{IsItem, IsCut, item_bytes};
ghost use Rattle.acpi_resources.specs.steps.Descriptors.{Describes};
ghost use Rattle.acpi_resources.specs.Descriptors.{IsProper, descriptor_bytes, is_known, is_end_tag};

use crate::descriptor::{AddressWidth, Descriptor, Item};
use crate::{large, small};

// The item at the front, and the bytes after it; `None` where none stands there whole.
fn split_item(bytes: &[u8]) -> Option<(Item<'_>, &[u8])>
    ensures item { IfSome result (λ x. IsItem x.0.tag x.0.body.now) }
    ensures spelled { IfSome result (λ x. bytes.now ≡ item_bytes x.0.tag x.0.body.now ++ x.1.now) }
    ensures shorter { IfSome result (λ x. length x.1.now < length bytes.now) }
    ensures cut { IfNone result (IsCut bytes.now) }
{
    let [tag, rest @ ..] = bytes else {
        return None;
    };
    if *tag < 128 {
        return split_body(*tag, (*tag % 8) as usize, rest);
    }
    let [low, high, rest @ ..] = rest else {
        return None;
    };
    split_body(*tag, u16::from_le_bytes([*low, *high]) as usize, rest)
}

// The item of this tag whose body is so long, and the bytes after it.
fn split_body(tag: u8, count: usize, bytes: &[u8]) -> Option<(Item<'_>, &[u8])>
    ensures none { IfNone result (length bytes.now < count) }
    ensures tag { IfSome result (λ x. x.0.tag ≡ tag) }
    ensures counted { IfSome result (λ x. length x.0.body.now ≡ count) }
    ensures spelled { IfSome result (λ x. bytes.now ≡ x.0.body.now ++ x.1.now) }
{
    if bytes.len() < count {
        return None;
    }
    let (body, rest) = bytes.split_at(count);
    Some((Item { tag, body }, rest))
}

// The descriptor of a described kind that an item spells.
fn described(tag: u8, body: &[u8]) -> Option<Descriptor<'_>>
    requires { IsItem tag body.now }
    ensures known { is_some result ≡ is_known tag body.now }
    ensures spelled { IfSome result (λ d. Describes tag body.now d) }
{
    match tag {
        0x22 => small::irq(body),
        0x23 => small::irq_with_flags(body),
        0x2A => small::dma(body),
        0x30 => small::start(body),
        0x31 => small::start_with_priority(body),
        0x38 => small::end_dependent(body),
        0x47 => small::io(body),
        0x4B => small::fixed_io(body),
        0x55 => small::fixed_dma(body),
        0x70..=0x77 => small::vendor_short(tag, body),
        0x79 => small::end_tag(body),
        0x81 => large::memory24(body),
        0x82 => large::generic_register(body),
        0x84 => large::vendor_long(body),
        0x85 => large::memory32(body),
        0x86 => large::fixed_memory32(body),
        0x87 => large::address_space(AddressWidth::DWord, body),
        0x88 => large::address_space(AddressWidth::Word, body),
        0x89 => large::extended_interrupt(body),
        0x8A => large::address_space(AddressWidth::QWord, body),
        0x8B => large::extended_address_space(body),
        0x8C => large::gpio(body),
        0x8E => large::serial_bus(body),
        _ => None,
    }
}

/// The descriptor at the front, and the bytes after it (ACPI 6.5, 6.4). `None` where no whole item stands there.
/// It takes no memory.
pub fn split_descriptor(bytes: &[u8]) -> Option<(Descriptor<'_>, &[u8])>
    ensures spelled { IfSome result (λ x. bytes.now ≡ descriptor_bytes x.0 ++ x.1.now) }
    ensures proper { IfSome result (λ x. IsProper x.0) }
    ensures shorter { IfSome result (λ x. length x.1.now < length bytes.now) }
    ensures cut { IfNone result (IsCut bytes.now) }
{
    let (item, rest) = split_item(bytes)?;
    let descriptor = match described(item.tag, item.body) {
        Some(descriptor) => descriptor,
        None => Descriptor::Other(item),
    };
    Some((descriptor, rest))
}

impl Descriptor<'_> {
    /// Whether it ends the template (ACPI 6.5, 6.4.2.9).
    pub fn is_end_tag(&self) -> bool
        ensures { result ≡ is_end_tag self.now }
    {
        matches!(self, Descriptor::EndTag(_))
    }
}

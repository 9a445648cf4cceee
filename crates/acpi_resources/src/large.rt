//! Large items (ACPI 6.5, 6.4.3).

ghost use Rattle.std.specs.Prelude.{◌≡◌, ◌==◌, ◌+◌, ◌*◌, ◌≤◌, ◌++◌, ◌&&◌, true, length, is_some, IfSome, nat_le, slice_index};
ghost use Rattle.std.specs.List.{flat_map};
ghost use Rattle.acpi_resources.specs.Descriptors.{address_tag};
ghost use Rattle.acpi_resources.specs.steps.Descriptors.{Describes, number_size};

use crate::descriptor::{
    AddressSpace, AddressWidth, Descriptor, ExtendedAddressSpace, ExtendedInterrupt, FixedMemory32,
    GenericRegister, Gpio, Memory24, Memory32, SerialBus,
};
use crate::fields::Fields;

pub(crate) fn memory24(body: &[u8]) -> Option<Descriptor<'_>>
    ensures fits { is_some result ≡ (length body.now == 9) }
    ensures spelled { IfSome result (λ d. Describes 0x81 body.now d) }
{
    if body.len() != 9 {
        return None;
    }
    let mut fields = Fields::new(body);
    Some(Descriptor::Memory24(Memory24 {
        info: fields.byte(),
        min: fields.word(),
        max: fields.word(),
        alignment: fields.word(),
        length: fields.word(),
    }))
}

pub(crate) fn generic_register(body: &[u8]) -> Option<Descriptor<'_>>
    ensures fits { is_some result ≡ (length body.now == 12) }
    ensures spelled { IfSome result (λ d. Describes 0x82 body.now d) }
{
    if body.len() != 12 {
        return None;
    }
    let mut fields = Fields::new(body);
    Some(Descriptor::GenericRegister(GenericRegister {
        space: fields.byte(),
        bit_width: fields.byte(),
        bit_offset: fields.byte(),
        access: fields.byte(),
        address: fields.qword(),
    }))
}

pub(crate) fn vendor_long(body: &[u8]) -> Option<Descriptor<'_>>
    ensures fits { is_some result ≡ true }
    ensures spelled { IfSome result (λ d. Describes 0x84 body.now d) }
{
    Some(Descriptor::VendorLong(body))
}

pub(crate) fn memory32(body: &[u8]) -> Option<Descriptor<'_>>
    ensures fits { is_some result ≡ (length body.now == 17) }
    ensures spelled { IfSome result (λ d. Describes 0x85 body.now d) }
{
    if body.len() != 17 {
        return None;
    }
    let mut fields = Fields::new(body);
    Some(Descriptor::Memory32(Memory32 {
        info: fields.byte(),
        min: fields.dword(),
        max: fields.dword(),
        alignment: fields.dword(),
        length: fields.dword(),
    }))
}

pub(crate) fn fixed_memory32(body: &[u8]) -> Option<Descriptor<'_>>
    ensures fits { is_some result ≡ (length body.now == 9) }
    ensures spelled { IfSome result (λ d. Describes 0x86 body.now d) }
{
    if body.len() != 9 {
        return None;
    }
    let mut fields = Fields::new(body);
    Some(Descriptor::FixedMemory32(FixedMemory32 {
        info: fields.byte(),
        base: fields.dword(),
        length: fields.dword(),
    }))
}

// The bytes of one number.
fn number_size(width: AddressWidth) -> usize
    ensures { result ≡ number_size width }
{
    match width {
        AddressWidth::Word => 2,
        AddressWidth::DWord => 4,
        AddressWidth::QWord => 8,
    }
}

pub(crate) fn address_space(width: AddressWidth, body: &[u8]) -> Option<Descriptor<'_>>
    ensures fits { is_some result ≡ nat_le (3 + 5 * number_size width) (length body.now) }
    ensures spelled { IfSome result (λ d. Describes (address_tag width) body.now d) }
{
    if body.len() < 3 + 5 * number_size(width) {
        return None;
    }
    let mut fields = Fields::new(body);
    Some(Descriptor::AddressSpace(AddressSpace {
        width,
        kind: fields.byte(),
        flags: fields.byte(),
        kind_flags: fields.byte(),
        granularity: fields.number(width),
        min: fields.number(width),
        max: fields.number(width),
        translation: fields.number(width),
        length: fields.number(width),
        source: fields.rest(),
    }))
}

pub(crate) fn extended_address_space(body: &[u8]) -> Option<Descriptor<'_>>
    ensures fits { is_some result ≡ (length body.now == 53) }
    ensures spelled { IfSome result (λ d. Describes 0x8B body.now d) }
{
    if body.len() != 53 {
        return None;
    }
    let mut fields = Fields::new(body);
    Some(Descriptor::ExtendedAddressSpace(ExtendedAddressSpace {
        kind: fields.byte(),
        flags: fields.byte(),
        kind_flags: fields.byte(),
        revision: fields.byte(),
        reserved: fields.byte(),
        granularity: fields.qword(),
        min: fields.qword(),
        max: fields.qword(),
        translation: fields.qword(),
        length: fields.qword(),
        attributes: fields.qword(),
    }))
}

pub(crate) fn extended_interrupt(body: &[u8]) -> Option<Descriptor<'_>>
    ensures fits { is_some result
        ≡ (nat_le 2 (length body.now)
        && nat_le (2 + 4 * slice_index body.now 1) (length body.now)) }
    ensures spelled { IfSome result (λ d. Describes 0x89 body.now d) }
{
    let [flags, count, rest @ ..] = body else {
        return None;
    };
    if rest.len() < 4 * *count as usize {
        return None;
    }
    let (numbers, source) = split_numbers(*count, rest);
    Some(Descriptor::ExtendedInterrupt(ExtendedInterrupt {
        flags: *flags,
        numbers,
        source,
    }))
}

// So many numbers of four bytes, and the bytes after them.
fn split_numbers(count: u8, bytes: &[u8]) -> (&[[u8; 4]], &[u8])
    requires { 4 * count ≤ length bytes.now }
    ensures spelled { bytes.now ≡ flat_map (λ n. n) result.0.now ++ result.1.now }
    ensures counted { length result.0.now ≡ count }
{
    let (front, rest) = bytes.split_at(4 * count as usize);
    let (numbers, _) = front.as_chunks::<4>();
    (numbers, rest)
}

pub(crate) fn gpio(body: &[u8]) -> Option<Descriptor<'_>>
    ensures fits { is_some result ≡ nat_le 20 (length body.now) }
    ensures spelled { IfSome result (λ d. Describes 0x8C body.now d) }
{
    if body.len() < 20 {
        return None;
    }
    let mut fields = Fields::new(body);
    Some(Descriptor::Gpio(Gpio {
        revision: fields.byte(),
        kind: fields.byte(),
        flags: fields.word(),
        pin_flags: fields.word(),
        pull: fields.byte(),
        drive: fields.word(),
        debounce: fields.word(),
        pins_place: fields.word(),
        source_index: fields.byte(),
        source_place: fields.word(),
        vendor_place: fields.word(),
        vendor_length: fields.word(),
        tail: fields.rest(),
    }))
}

pub(crate) fn serial_bus(body: &[u8]) -> Option<Descriptor<'_>>
    ensures fits { is_some result ≡ nat_le 9 (length body.now) }
    ensures spelled { IfSome result (λ d. Describes 0x8E body.now d) }
{
    if body.len() < 9 {
        return None;
    }
    let mut fields = Fields::new(body);
    Some(Descriptor::SerialBus(SerialBus {
        revision: fields.byte(),
        source_index: fields.byte(),
        kind: fields.byte(),
        flags: fields.byte(),
        kind_flags: fields.word(),
        kind_revision: fields.byte(),
        data_length: fields.word(),
        tail: fields.rest(),
    }))
}

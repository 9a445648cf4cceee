//! Small items (ACPI 6.5, 6.4.2).

ghost use Rattle.std.specs.Prelude.{◌≡◌, ◌==◌, ◌+◌, true, length, is_some, IfSome};
ghost use Rattle.acpi_resources.specs.steps.Descriptors.{Describes};

use crate::descriptor::{Descriptor, Dma, FixedDma, FixedIo, Io, Irq};
use crate::fields::Fields;

pub(crate) fn irq(body: &[u8]) -> Option<Descriptor<'_>>
    ensures fits { is_some result ≡ (length body.now == 2) }
    ensures spelled { IfSome result (λ d. Describes 0x22 body.now d) }
{
    if body.len() != 2 {
        return None;
    }
    let mut fields = Fields::new(body);
    Some(Descriptor::Irq(Irq {
        mask: fields.word(),
        flags: None,
    }))
}

pub(crate) fn irq_with_flags(body: &[u8]) -> Option<Descriptor<'_>>
    ensures fits { is_some result ≡ (length body.now == 3) }
    ensures spelled { IfSome result (λ d. Describes 0x23 body.now d) }
{
    if body.len() != 3 {
        return None;
    }
    let mut fields = Fields::new(body);
    let mask = fields.word();
    let flags = Some(fields.byte());
    Some(Descriptor::Irq(Irq { mask, flags }))
}

pub(crate) fn dma(body: &[u8]) -> Option<Descriptor<'_>>
    ensures fits { is_some result ≡ (length body.now == 2) }
    ensures spelled { IfSome result (λ d. Describes 0x2A body.now d) }
{
    match body {
        [mask, flags] => Some(Descriptor::Dma(Dma {
            mask: *mask,
            flags: *flags,
        })),
        _ => None,
    }
}

pub(crate) fn start(body: &[u8]) -> Option<Descriptor<'_>>
    ensures fits { is_some result ≡ (length body.now == 0) }
    ensures spelled { IfSome result (λ d. Describes 0x30 body.now d) }
{
    match body {
        [] => Some(Descriptor::StartDependent(None)),
        _ => None,
    }
}

pub(crate) fn start_with_priority(body: &[u8]) -> Option<Descriptor<'_>>
    ensures fits { is_some result ≡ (length body.now == 1) }
    ensures spelled { IfSome result (λ d. Describes 0x31 body.now d) }
{
    match body {
        [priority] => Some(Descriptor::StartDependent(Some(*priority))),
        _ => None,
    }
}

pub(crate) fn end_dependent(body: &[u8]) -> Option<Descriptor<'_>>
    ensures fits { is_some result ≡ (length body.now == 0) }
    ensures spelled { IfSome result (λ d. Describes 0x38 body.now d) }
{
    match body {
        [] => Some(Descriptor::EndDependent),
        _ => None,
    }
}

pub(crate) fn io(body: &[u8]) -> Option<Descriptor<'_>>
    ensures fits { is_some result ≡ (length body.now == 7) }
    ensures spelled { IfSome result (λ d. Describes 0x47 body.now d) }
{
    if body.len() != 7 {
        return None;
    }
    let mut fields = Fields::new(body);
    Some(Descriptor::Io(Io {
        info: fields.byte(),
        min: fields.word(),
        max: fields.word(),
        alignment: fields.byte(),
        length: fields.byte(),
    }))
}

pub(crate) fn fixed_io(body: &[u8]) -> Option<Descriptor<'_>>
    ensures fits { is_some result ≡ (length body.now == 3) }
    ensures spelled { IfSome result (λ d. Describes 0x4B body.now d) }
{
    if body.len() != 3 {
        return None;
    }
    let mut fields = Fields::new(body);
    Some(Descriptor::FixedIo(FixedIo {
        base: fields.word(),
        length: fields.byte(),
    }))
}

pub(crate) fn fixed_dma(body: &[u8]) -> Option<Descriptor<'_>>
    ensures fits { is_some result ≡ (length body.now == 5) }
    ensures spelled { IfSome result (λ d. Describes 0x55 body.now d) }
{
    if body.len() != 5 {
        return None;
    }
    let mut fields = Fields::new(body);
    Some(Descriptor::FixedDma(FixedDma {
        request: fields.word(),
        channel: fields.word(),
        width: fields.byte(),
    }))
}

pub(crate) fn vendor_short(tag: u8, body: &[u8]) -> Option<Descriptor<'_>>
    requires { tag ≡ 0x70 + length body.now }
    ensures fits { is_some result ≡ true }
    ensures spelled { IfSome result (λ d. Describes tag body.now d) }
{
    Some(Descriptor::VendorShort(body))
}

pub(crate) fn end_tag(body: &[u8]) -> Option<Descriptor<'_>>
    ensures fits { is_some result ≡ (length body.now == 1) }
    ensures spelled { IfSome result (λ d. Describes 0x79 body.now d) }
{
    match body {
        [sum] => Some(Descriptor::EndTag(*sum)),
        _ => None,
    }
}

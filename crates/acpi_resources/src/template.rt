//! Resource templates (ACPI 6.5, 6.4).

ghost use Rattle.std.specs.Prelude.{◌≡◌, ◌+◌, List, [], length, IfOk, IfSome, IfNone};
ghost use Rattle.acpi_resources.specs.Templates.{Decodes, EndsAs};
ghost use Rattle.acpi_resources.specs.steps.TemplateRead.{Splits, IsRead};
ghost use Rattle.acpi_resources.specs.declared.descriptor.Descriptor.{Descriptor};

use crate::descriptor::Descriptor;
use crate::item::split_descriptor;
use std::alloc::{AllocError, Global};
use thiserror::Error;

/// Why bytes are no resource template.
#[derive(Debug, Clone, Copy, PartialEq, Eq, Error)]
pub enum TemplateFault {
    /// The bytes end behind an item that is no end tag.
    #[error("NoEndTag")]
    NoEndTag,
    /// The bytes end within an item.
    #[error("Cut")]
    Cut,
    /// Bytes follow the end tag.
    #[error("BehindEndTag")]
    BehindEndTag,
}

/// Where reading stops before the end of a template, and why.
#[derive(Debug, Clone, Copy, PartialEq, Eq)]
pub struct TemplateStop {
    /// The number of bytes that were read.
    pub place: usize,
    /// Why the bytes behind it are not read.
    pub fault: TemplateFault,
}

/// The descriptors at the front of some bytes (ACPI 6.5, 6.4).
#[derive(Debug, Drop)]
pub struct Template<'a> {
    /// The descriptors in their order, the end tag among them.
    pub descriptors: Vec<Descriptor<'a>>,
    /// Where reading stopped; `None` where all bytes are a template.
    pub stop: Option<TemplateStop>,
}

/// The descriptors that the bytes spell, up to the end tag or to where reading stops (ACPI 6.5, 6.4). Their
/// spellings are the bytes up to that place. It takes memory for the list alone.
pub fn decode(alloc: Global, bytes: &[u8]) -> Result<Template<'_>, AllocError>
    ensures { IfOk result (λ t. Decodes t.descriptors.items t.stop bytes.now) }
{
    let (descriptors, left, ended) = read(alloc, bytes)?;
    let stop = stop_of(bytes.len() - left.len(), left, ended);
    Ok(Template { descriptors, stop })
}

// The descriptors up to the end tag or a cut item, the bytes behind them, and whether the end tag was read.
fn read(alloc: Global, bytes: &[u8]) -> Result<(Vec<Descriptor<'_>>, &[u8], bool), AllocError>
    ensures split { IfOk result (λ x. Splits x.0.items x.1.now bytes.now) }
    ensures read { IfOk result (λ x. IsRead x.2 x.0.items x.1.now) }
{
    let mut descriptors = Vec::new(alloc);
    let mut left = bytes;
    while let Some((descriptor, rest)) = split_descriptor(left) {
        let ended = descriptor.is_end_tag();
        descriptors.push(descriptor)?;
        left = rest;
        if ended {
            return Ok((descriptors, left, true));
        }
    }
    Ok((descriptors, left, false))
}

// Why reading stops at the place, where these bytes are left.
fn stop_of(place: usize, left: &[u8], ended: bool) -> Option<TemplateStop>
    ensures place { IfSome result (λ s. s.place ≡ place) }
    ensures none { IfNone result (left.now ≡ []) }
    ensures ends { (ds : List Descriptor) → IsRead ended ds left.now → EndsAs result ds left.now }
{
    let fault = match (ended, left.is_empty()) {
        (true, true) => return None,
        (true, false) => TemplateFault::BehindEndTag,
        (false, true) => TemplateFault::NoEndTag,
        (false, false) => TemplateFault::Cut,
    };
    Some(TemplateStop { place, fault })
}

//! Resource templates and ids of devices (ACPI 6.5, 6.4, 6.1.5 and 5.6.7), as a table has them in the constant
//! objects `_CRS`, `_PRS`, `_HID` and `_CID`.
//!
//! ```text
//! bytes ──split_descriptor──► Descriptor, bytes      number ──eisa_id──► id ──name_of──► name
//!   └─────decode────► Template: Descriptor ..               ◄─eisa_number─┘
//! ```
//!
//! ```text
//! let template = decode(alloc, bytes)?;
//! for descriptor in template.descriptors.iter() { .. }
//! if let Some(stop) = template.stop { .. }
//! ```
//!
//! A descriptor lends its bytes of variable length from the buffer. Each bit of the buffer is kept: a descriptor's
//! spelling is exactly the bytes that it was read from.
#![tactic(auto)]

mod descriptor;
mod eisa;
mod fields;
mod item;
mod large;
pub mod laws;
mod meaning;
mod names;
mod small;
mod template;

pub use descriptor::{
    AddressSpace, AddressWidth, Descriptor, Dma, ExtendedAddressSpace, ExtendedInterrupt, FixedDma,
    FixedIo, FixedMemory32, GenericRegister, Gpio, Io, Irq, Item, Memory24, Memory32, SerialBus,
};
pub use eisa::{eisa_id, eisa_number};
pub use item::split_descriptor;
pub use meaning::{AddressKind, BusKind, InterruptMode, ItemKind};
pub use names::name_of;
pub use template::{Template, TemplateFault, TemplateStop, decode};

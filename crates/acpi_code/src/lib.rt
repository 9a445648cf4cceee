//! What items and method bodies read alike: the parts of AML byte code (ACPI 6.5, 20.2).
//!
//! A `Code` is what is left of a list of terms. Each reader takes what stands at its front, and leaves what is
//! behind it:
//!
//! ```text
//!   10 0B 5F 53 42 5F ..       opcode()  ─► Opcode::Scope
//!      0B 5F 53 42 5F ..       package() ─► a Code of what the package holds; what is behind it is left
//!         5F 53 42 5F ..       name()    ─► \_SB_
//! ```
//!
//! A reader that goes on to forms of its own has a fault of its own, and takes these by `?` and `From`:
//!
//! ```text
//! fn region(code: &mut Code<'_>) -> Result<.., ItemFault> {
//!     let name = code.name()?;
//!     let space = code.byte()?;
//!     ..
//! ```
#![tactic(auto)]

mod code;
mod constant;
mod depth;
mod fault;
mod field;
pub mod laws;
mod name;
mod number;
mod opcode;
mod string;

pub use code::Code;
pub use depth::Depth;
pub use fault::{CodeFault, CodeReason, ConstantFault, FieldFault};
pub use field::{field_element, field_elements};
pub use opcode::{ConstantForm, Opcode, is_name, name_start};

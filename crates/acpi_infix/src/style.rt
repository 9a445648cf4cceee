//! How names and bytes in terms are printed.

use acpi_name::Name;
use std::alloc::AllocError;
use text_buffer::Text;

/// How names and bytes in terms are printed.
pub trait TermStyle {
    /// Puts a name.
    fn put_name(&self, text: &mut Text, name: &Name) -> Result<(), AllocError>;

    /// Puts the bytes of a buffer that has a form of its own, and answers whether it has one. Else its size and its bytes are
    /// printed.
    fn put_bytes(&self, text: &mut Text, bytes: &[u8]) -> Result<bool, AllocError>;
}

//! The place of a method's code.

/// Where the code of a method stands, which is the TermList of a DefMethod (ACPI 6.5, 20.2.5.2).
#[derive(Clone, Copy, Debug, PartialEq, Eq)]
pub struct CodePlace {
    /// The number of its table: the DSDT is 0, and the SSDTs follow in their order.
    pub table: usize,
    /// The offset of its first byte from the first byte of the table's header, in bytes.
    pub place: usize,
    /// How many bytes it has.
    pub length: usize,
}

//! What a command prints of tables.

/// What a command prints, and the status with which it ends once that is printed.
#[derive(Debug, Drop)]
pub struct Output {
    /// The bytes for standard output.
    pub text: Vec<u8>,
    /// 0, or 3 where SSDTs may not be loaded in any order.
    pub status: u8,
}

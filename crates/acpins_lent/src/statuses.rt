//! How a call ended, for C.

/// All that was asked for is written.
pub const OK: u32 = 0;

/// A table can't be loaded. A survey is never refused.
pub const REFUSED: u32 = 1;

/// An allocation failed.
pub const MEMORY: u32 = 2;

/// The arrays have too little room: the outcome has how much they need.
pub const NO_ROOM: u32 = 3;

/// There is no table, the depth is none from 1 to 4096, or another number means nothing.
pub const CALL: u32 = 4;

/// No table declares a method at the path.
pub const NO_METHOD: u32 = 5;

/// The bytes spell no path.
pub const BAD_PATH: u32 = 6;

/// No object may be at the path.
pub const NO_OBJECT: u32 = 7;

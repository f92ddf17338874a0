//! The statuses of a call that no input comes to.

/// A read failed.
pub(crate) const READ_FAILED: u8 = 4;

/// A put failed.
pub const WRITE_FAILED: u8 = 5;

/// There was no memory.
pub const OUT_OF_MEMORY: u8 = 6;

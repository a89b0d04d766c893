//! The limits of a fold.

/// The greatest number that the next file may have.
pub const FILE_NUMBER_LIMIT: u64 = 1 << 63;

/// The lowest level of tables; the highest is 0.
pub const LOWEST_LEVEL: u32 = 6;

//! The limit of what a memtable says of its size.

/// The most bytes that a memtable says that it has.
pub const BYTES_LIMIT: u64 = (1 << 63) - 1;

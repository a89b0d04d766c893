//! The limits of a store and of what it holds.

/// The most bytes that a key has.
pub const KEY_LIMIT: usize = 1024;

/// The most bytes that a value has.
pub const VALUE_LIMIT: usize = 65536;

/// The most bytes that a name has.
pub const NAME_LIMIT: usize = 32;

/// The most operations that a batch has.
pub const BATCH_LIMIT: usize = 64;

/// The most families that a store has.
pub const FAMILY_LIMIT: usize = 16;

/// The greatest timestamp of a version.
pub const STAMP_LIMIT: u64 = u64::MAX - 1;

/// The greatest sequence of a version; the least is 1.
pub const SEQUENCE_LIMIT: u64 = (1 << 56) - 1;

/// The most snapshots that are registered at once.
pub const SNAPSHOT_LIMIT: usize = 1024;

/// The number of the log of a new store.
pub const FIRST_LOG: u64 = 1;

/// The bytes of a timestamp.
pub const STAMP_SIZE: u8 = 8;

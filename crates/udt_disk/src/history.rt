//! The calls of a file in memory, as they are noted.

/// A call that a file in memory took.
#[derive(Drop)]
pub(crate) enum FileCall {
    /// So many bytes were written at the offset, over these.
    Wrote(u64, u64, Vec<u8>),
    Synced,
}

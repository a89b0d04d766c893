//! Where a block of a table stands.

/// An entry of the index: where a block begins, how many bytes it has, and how many versions.
#[derive(Clone, Copy, Debug)]
pub struct BlockHandle {
    pub offset: u64,
    pub length: u64,
    pub versions: u32,
}

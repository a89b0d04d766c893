//! Why a folder isn't opened as a store, or no store is made in it.

use thiserror::Error;

/// Why a folder isn't opened as a store. The first that holds is told, in this order.
#[derive(Clone, Copy, Debug, PartialEq, Eq, Error)]
pub enum OpenFault {
    /// There is no store.
    #[error("no store")]
    NoStore,
    /// The manifest is missing or outside its grammar. Its first frame that is stands at the offset `at`.
    #[error("bad manifest {at}")]
    BadManifest { at: u64 },
    /// The live log `number` is missing or outside its grammar. Its first frame that is stands at the offset `at`.
    #[error("bad log {number} {at}")]
    BadLog { number: u64, at: u64 },
    /// The disk failed. Its count of faults rose.
    #[error("disk fault")]
    DiskFault,
    /// There was no memory.
    #[error("no memory")]
    NoMemory,
}

/// Why a store isn't made.
#[derive(Clone, Copy, Debug, PartialEq, Eq, Error)]
pub enum InitFault {
    /// There is a store. Nothing was made.
    #[error("store exists")]
    StoreExists,
    /// The manifest is missing or outside its grammar. Its first frame that is stands at the offset `at`. Nothing was
    /// made.
    #[error("bad manifest {at}")]
    BadManifest { at: u64 },
    /// The disk failed. Its count of faults rose. Where there was no store, there is none still, or all of the new one.
    #[error("disk fault")]
    DiskFault,
    /// There was no memory. Nothing was changed where there was a store, and none was made where there was none.
    #[error("no memory")]
    NoMemory,
}

//! Why a folder isn't opened as a store, or no store is made in it.

use std::alloc::AllocError;
use thiserror::Error;
use udt_disk::Failed;

/// Why a folder isn't opened as a store. The first that holds is told, in this order; of the tables, and then of the logs, the
/// first by number.
#[derive(Clone, Copy, Debug, PartialEq, Eq, Error)]
pub enum OpenFault {
    /// There is no store.
    #[error("no store")]
    NoStore,
    /// The manifest is missing or outside its grammar. Its first frame that is stands at the offset `at`.
    #[error("bad manifest {at}")]
    BadManifest { at: u64 },
    /// The file of the live table `number` is missing.
    #[error("missing table {number}")]
    MissingTable { number: u64 },
    /// The file of the live table `number` is outside its grammar; or the table is of another family or form than the manifest
    /// says, was collected by more than the family's floor, or has a sequence above the family's `through`; or, on a level from
    /// 1 on, its keys' span meets that of a live table of its family and level with a smaller number.
    #[error("bad table {number}")]
    BadTable { number: u64 },
    /// The live log `number` is missing or outside its grammar. Its first frame that is stands at the offset `at`. Where each
    /// live log is within, its first batch doesn't follow that of the logs before, and `at` is 0. Where each follows, and the
    /// last batch of all ends below the manifest's last sequence, it is the newest log, and `at` is 0.
    #[error("bad log {number} {at}")]
    BadLog { number: u64, at: u64 },
    /// The disk failed. Its count of faults rose.
    #[error("disk fault")]
    DiskFault,
    /// There was no memory.
    #[error("no memory")]
    NoMemory,
}

impl OpenFault {
    ghost use Rattle.std.specs.Prelude.{◌≡◌, false};
    ghost use Rattle.std.specs.Bool.{OnTrue, OnFalse};
    ghost use Rattle.recovery.specs.Fault.{IsStop, is_open_disk_fault};

    /// Whether it tells nothing of the folder: the disk failed, or memory ran out.
    pub(crate) fn is_stop(self) -> bool
        ensures yes { OnTrue result (IsStop self) }
        ensures no { OnFalse result (is_open_disk_fault self ≡ false) }
    {
        matches!(self, OpenFault::DiskFault | OpenFault::NoMemory)
    }
}

impl From<AllocError> for OpenFault {
    ghost use Rattle.std.specs.Prelude.{◌≡◌};
    ghost use Rattle.recovery.specs.declared.fault.OpenFault.{OpenFault};

    ghost from_gives = { λ _ fault. fault ≡ OpenFault.NoMemory };

    fn from(_: AllocError) -> OpenFault {
        OpenFault::NoMemory
    }
}

impl From<Failed> for OpenFault {
    ghost use Rattle.std.specs.Prelude.{◌≡◌};
    ghost use Rattle.recovery.specs.declared.fault.OpenFault.{OpenFault};

    ghost from_gives = { λ _ fault. fault ≡ OpenFault.DiskFault };

    fn from(_: Failed) -> OpenFault {
        OpenFault::DiskFault
    }
}

/// Why a store isn't made.
#[derive(Clone, Copy, Debug, PartialEq, Eq, Error)]
pub enum InitFault {
    /// There is a store. Nothing was made.
    #[error("store exists")]
    StoreExists,
    /// The manifest is missing or outside its grammar. Its first frame that is stands at the offset `at`. Nothing was made.
    #[error("bad manifest {at}")]
    BadManifest { at: u64 },
    /// The disk failed. Its count of faults rose. Where there was no store, there is none still, or all of the new one.
    #[error("disk fault")]
    DiskFault,
    /// There was no memory. Nothing was changed where there was a store, and none was made where there was none.
    #[error("no memory")]
    NoMemory,
}

//! Why an engine doesn't do what it is asked.

use std::alloc::AllocError;
use thiserror::Error;
use ts_key::{Seq, Ts};

/// Why an engine doesn't do what it is asked. The first that holds is told, in this order; of a batch `UnknownFamily` is tested
/// over all operations first, and then `BelowFloor` and `Fell` operation by operation.
#[derive(Clone, Copy, Debug, PartialEq, Eq, Error)]
pub enum EngineFault {
    /// There is no family of a number that is named.
    #[error("unknown family")]
    UnknownFamily,
    /// The timestamp of the operation `op` of the batch, counted from 1, is below the floor of its family.
    #[error("operation {op} is below the floor")]
    BelowFloor { op: u32, floor: Ts },
    /// The timestamp of the operation `op` of the batch, counted from 1, is below the newest one of its key. The operations
    /// before it in the batch count.
    #[error("operation {op} falls below its key's newest timestamp")]
    Fell { op: u32, newest: Ts },
    /// The batch has more operations than there are sequences above the last one.
    #[error("no sequence left")]
    SequenceFull { last: Seq },
    /// The floor that is asked for is below the floor of the family.
    #[error("the floor would fall")]
    FloorFell { floor: Ts },
    /// There are no file numbers left from `next` on.
    #[error("no file number left from {next}")]
    FilesFull { next: u64 },
    /// There was no memory. Nothing changed.
    #[error("no memory")]
    NoMemory,
    /// The disk failed. Its count of faults rose, and the engine has failed.
    #[error("disk fault")]
    DiskFault,
}

impl From<AllocError> for EngineFault {
    ghost use Rattle.std.specs.Prelude.{◌≡◌};
    ghost use Rattle.store_engine.specs.declared.fault.EngineFault.{EngineFault};

    ghost from_gives = { λ _ fault. fault ≡ EngineFault.NoMemory };

    fn from(_: AllocError) -> EngineFault {
        EngineFault::NoMemory
    }
}

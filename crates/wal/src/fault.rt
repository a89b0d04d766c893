//! Why a log, or a part of it, is not read.

use std::alloc::AllocError;
use thiserror::Error;

/// Why a log wasn't read.
#[derive(Clone, Copy, Debug, PartialEq, Eq, Error)]
pub enum ReplayFault {
    /// Log `number` is outside of its grammar. Its first frame that is stands at the offset `at`.
    #[error("log {number} is bad at {at}")]
    BadLog { number: u64, at: u64 },
    /// The file failed. Its count of faults rose in the call.
    #[error("disk fault")]
    DiskFault,
    /// Memory ran out.
    #[error("no memory")]
    NoMemory,
}

/// Why a body, or a part of one, wasn't read.
#[derive(Clone, Copy, Debug, PartialEq, Eq)]
pub(crate) enum BodyFault {
    /// It is outside of its grammar.
    Bad,
    /// Memory ran out.
    NoMemory,
}

/// Why the bodies of frames weren't read.
#[derive(Clone, Copy, Debug, PartialEq, Eq)]
pub(crate) enum FrameFault {
    /// The first body that is outside of the grammar is that of the frame at this offset.
    Bad { at: u64 },
    /// Memory ran out.
    NoMemory,
}

impl From<AllocError> for BodyFault {
    ghost use Rattle.std.specs.Prelude.{◌≡◌};
    ghost use Rattle.wal.specs.declared.fault.BodyFault.{BodyFault};

    ghost from_gives = { λ _ fault. fault ≡ BodyFault.NoMemory };

    fn from(_: AllocError) -> BodyFault {
        BodyFault::NoMemory
    }
}

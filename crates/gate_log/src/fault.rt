//! Why a log is not made, or not read.

use crate::Frame;
use std::alloc::AllocError;

/// Why a log wasn't made: a gate log, or a log that stands on one.
#[derive(Clone, Copy, Debug, PartialEq, Eq)]
pub enum LogFault {
    /// The disk or the file failed. Its count of faults rose in the call.
    DiskFault,
    /// Memory ran out.
    NoMemory,
}

/// Why a file wasn't read as a gate log.
#[derive(Debug, Drop)]
pub enum FramesFault {
    /// At this offset stands an open gate before a frame that isn't whole, or the file is empty. `before` has the frames
    /// that stand before it, so that a caller can name the first one that is outside of its own grammar.
    BadFrame { at: u64, before: Vec<Frame> },
    /// The file failed. Its count of faults rose in the call.
    DiskFault,
    /// Memory ran out.
    NoMemory,
}

impl From<LogFault> for FramesFault {
    ghost use Rattle.std.specs.Prelude.{◌≡◌};
    ghost use Rattle.gate_log.specs.Faults.{frames_fault};

    ghost from_gives = { λ fault e. e ≡ frames_fault fault };

    fn from(fault: LogFault) -> FramesFault {
        match fault {
            LogFault::DiskFault => FramesFault::DiskFault,
            LogFault::NoMemory => FramesFault::NoMemory,
        }
    }
}

impl From<AllocError> for FramesFault {
    ghost use Rattle.std.specs.Prelude.{◌≡◌};
    ghost use Rattle.gate_log.specs.declared.fault.FramesFault.{FramesFault};

    ghost from_gives = { λ _ e. e ≡ FramesFault.NoMemory };

    fn from(_: AllocError) -> FramesFault {
        FramesFault::NoMemory
    }
}

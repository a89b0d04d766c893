//! What is told of an engine's faults.

ghost use Rattle.std.specs.Prelude.{◌≡◌};
ghost use Rattle.solo_store.specs.Replies.{told_of_fault};

use store_engine::EngineFault;
use udt_model::Reply;

/// The reply that a fault is.
pub(crate) fn reply_of(fault: EngineFault) -> Reply
    ensures { result ≡ told_of_fault fault }
{
    match fault {
        EngineFault::UnknownFamily => Reply::Unknown,
        EngineFault::BelowFloor { op, floor } => Reply::Below { op, floor },
        EngineFault::Fell { op, newest } => Reply::Fell { op, newest },
        EngineFault::SequenceFull { last } => Reply::Full { last },
        EngineFault::FloorFell { floor } => Reply::Floor { floor },
        EngineFault::FilesFull { next } => Reply::Files { next },
        EngineFault::NoMemory => Reply::NoMemory,
        EngineFault::DiskFault => Reply::Fault,
    }
}

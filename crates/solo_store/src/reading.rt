//! What is told of a read.

ghost use Rattle.std.specs.Prelude.{◌≡◌, ◌⊎◌};
ghost use Rattle.udt_model.specs.Steps.{reply_of_read as model_reply};
ghost use Rattle.point_read.specs.Tells.{model_read};

use point_read::Read;
use std::alloc::Global;
use ts_key::Value;
use udt_model::{Reply, Stamp};

/// A value that was found, copied, where there is memory for it.
fn found(alloc: Global, value: &[u8], stamp: Stamp) -> Reply
    ensures { (result ≡ Reply.Found value.now stamp) ⊎ (result ≡ Reply.NoMemory) }
{
    match Value::of(alloc, value) {
        Ok(value) => Reply::Found { value, stamp },
        Err(_) => Reply::NoMemory,
    }
}

/// The reply that a read is, where there is memory for its value.
pub(crate) fn reply_of_read(alloc: Global, read: Read<'_>) -> Reply
    ensures { (result ≡ model_reply (model_read read.entry)) ⊎ (result ≡ Reply.NoMemory) }
{
    match read {
        Read::Collapsed { floor } => Reply::Collapsed { floor },
        Read::Absent => Reply::Absent,
        Read::Found { value, stamp } => found(alloc, value, stamp),
    }
}

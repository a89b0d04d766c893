//! Replies to events.

use crate::items::Items;
use ts_key::{Key, Seq, Ts, Value};

/// The timestamp of a version that a read found, or that it lies below the history floor, where it isn't told.
#[derive(Clone, Copy, Debug, PartialEq, Eq)]
pub enum Stamp {
    At(Ts),
    Below,
}

/// A key that a scan found, with its value.
#[derive(Debug, Drop)]
pub struct Row {
    pub key: Key,
    pub value: Value,
    pub stamp: Stamp,
}

/// A table that a compaction made, and how many versions it holds.
#[derive(Clone, Copy, Debug, PartialEq, Eq)]
pub struct Piece {
    pub table: u64,
    pub count: u64,
}

/// All keys from `low` to `high`, both included.
#[derive(Debug, Drop)]
pub struct KeySpan {
    pub low: Key,
    pub high: Key,
}

/// The reply to an event.
#[derive(Debug, Drop)]
pub enum Reply {
    /// Done, with no number to tell.
    Done,
    /// Done, with the last sequence or what the event tells.
    OkAt { number: u64 },
    /// The operation `op` of the batch, counted from 1, is below the floor of its family.
    Below { op: u32, floor: Ts },
    /// The timestamp of the operation `op`, counted from 1, is below the newest one of its key.
    Fell { op: u32, newest: Ts },
    /// There are no sequences left for the batch after `last`.
    Full { last: Seq },
    /// The value that a read found.
    Found { value: Value, stamp: Stamp },
    /// A read found no value.
    Absent,
    /// The read is below the floor.
    Collapsed { floor: Ts },
    /// The keys that a scan found, in order.
    Rows { rows: Items<Row> },
    /// The floor of the family.
    Floor { floor: Ts },
    /// So many snapshots are registered, and no more may be.
    Snapshots { count: u32 },
    /// There is nothing to do.
    Nothing,
    /// Such a job, started by this event, hasn't ended.
    Busy { start: u64 },
    /// There are no file numbers left from `next` on.
    Files { next: u64 },
    /// A flush made this table of `kept` versions and left the floor here.
    Table { table: u64, kept: u64, floor: Ts },
    /// A compaction takes these tables to a level.
    Inputs { tables: Items<u64>, level: u32 },
    /// A compaction kept so many versions, in these tables.
    Kept { kept: u64, pieces: Items<Piece> },
    /// A job was dropped for a fault of the disk.
    DroppedFault,
    /// A job was dropped for want of memory.
    DroppedMemory,
    /// A job was dropped since there are no file numbers left from `next` on.
    DroppedFiles { next: u64 },
    /// The store has no family of a name that the event names.
    Unknown,
    /// The event `since` met a fault of the disk, and the store takes no more work.
    Halted { since: u64 },
    /// The disk failed.
    Fault,
    /// There was no memory; nothing changed.
    NoMemory,
    /// The name's snapshot or view was refused.
    Unbound,
    /// The history is as long as it may be.
    History,
}

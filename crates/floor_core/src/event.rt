//! Events of the core and its replies.

use ts_key::{Batch, Family, Key, Seq, Ts};
use udt_model::{Items, ModelRead, Piece};

/// An event of the core. The events are numbered from 1; a snapshot and a view are known by the numbers of their events.
#[derive(Debug, Drop)]
pub enum CoreEvent {
    /// The operations take effect together.
    Write {
        batch: Batch,
    },
    /// The value of a key at the timestamp `t`, now or with a registered snapshot.
    Get {
        family: Family,
        key: Key,
        t: Ts,
        snap: Option<u64>,
    },
    /// Raises the history floor of a family.
    Raise {
        family: Family,
        floor: Ts,
    },
    /// Registers a snapshot of the last sequence.
    Snap,
    /// Gives the snapshot of this number up.
    Release {
        id: u64,
    },
    /// Keeps a view of the state of this moment.
    Pin,
    /// A get in the view of the pin of this number.
    PinnedGet {
        pin: u64,
        family: Family,
        key: Key,
        t: Ts,
        snap: Option<u64>,
    },
    /// A flush starts of all versions of a family that are in no table.
    FlushStart {
        family: Family,
    },
    /// The running flush ends with this table.
    FlushEnd {
        table: u64,
    },
    /// The running flush is dropped.
    FlushDrop,
    /// A compaction of these tables to this level starts.
    CompactStart {
        family: Family,
        inputs: Items<u64>,
        level: u32,
    },
    /// The running compaction ends with these tables.
    CompactEnd {
        pieces: Items<Piece>,
    },
    /// The running compaction is dropped.
    CompactDrop,
    /// The store takes no more writes, raises, starts and ends of jobs.
    Halt,
}

/// The reply to an event of the core.
#[derive(Debug, Drop)]
pub enum CoreReply {
    Done,
    /// The operations were written, up to this sequence.
    Written { last: Seq },
    /// What a read gives.
    Read(ModelRead),
    /// The event was refused, and nothing changed but the count of events.
    Refused,
}

//! Events: what a client asks of the store, and what its jobs do.

use crate::items::Items;
use ts_key::{Key, Name, Op, Ts};

/// One operation of a write, on a key of the family of this name.
#[derive(Debug, Drop)]
pub struct NamedOp {
    pub family: Name,
    pub key: Key,
    pub ts: Ts,
    pub op: Op,
}

/// An event of a history. A read without a snapshot sees every sequence of its moment.
#[derive(Debug, Drop)]
pub enum Event {
    /// The operations take effect together; with `sync` they are on the disk when the reply comes.
    Write {
        ops: Items<NamedOp>,
        sync: bool,
    },
    /// The value of a key at the timestamp `t`.
    Get {
        family: Name,
        key: Key,
        t: Ts,
        snap: Option<Name>,
    },
    /// The first `limit` keys with values at the timestamp `t`, from `low` on and below `high`.
    Scan {
        family: Name,
        low: Option<Key>,
        high: Option<Key>,
        t: Ts,
        limit: u32,
        forward: bool,
        snap: Option<Name>,
    },
    /// Raises the history floor of a family.
    Raise {
        family: Name,
        floor: Ts,
    },
    /// The history floor of a family.
    Floor {
        family: Name,
    },
    /// Registers a snapshot of the last sequence under a name.
    Snap {
        name: Name,
    },
    /// Gives a snapshot up.
    Release {
        name: Name,
    },
    /// Keeps a view of the store of this moment under a name.
    Pin {
        name: Name,
    },
    /// Gives a view up.
    Unpin {
        name: Name,
    },
    /// A get in a view.
    ViewGet {
        view: Name,
        family: Name,
        key: Key,
        t: Ts,
        snap: Option<Name>,
    },
    /// A scan in a view.
    ViewScan {
        view: Name,
        family: Name,
        low: Option<Key>,
        high: Option<Key>,
        t: Ts,
        limit: u32,
        forward: bool,
        snap: Option<Name>,
    },
    /// The history floor of a family in a view.
    ViewFloor {
        view: Name,
        family: Name,
    },
    /// Puts every accepted write on the disk.
    Sync,
    /// A flush of a family starts.
    FlushStart {
        family: Name,
    },
    /// The flush that the event `start` started ends.
    FlushEnd {
        family: Name,
        start: u64,
    },
    /// A compaction of a family starts, of all its tables or of a `pick` of them.
    CompactStart {
        family: Name,
        pick: bool,
    },
    /// The compaction that the event `start` started ends.
    CompactEnd {
        family: Name,
        start: u64,
    },
}

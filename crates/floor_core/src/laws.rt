//! What the core shows over every list of events. A function states the laws; it does nothing.
ghost use Rattle.floor_core.specs.Runs.{CompactionsEndByTheirStart, CompactionsMakeTheirTables, CountsEvents, FlushesEndByTheirStart, FlushesMakeTheirTable, FreshIsSound, GetsAnswer, HaltsKeepTheirNumber, IsSoundBehindAll, OpenedIsSound, PinnedGetsAnswer, RefusedChangesNothing, RefusesExactly, SnapshotsKeepTheirNumber};

/// A fresh core is sound, and so is one that begins with an opened store. Behind every list of events a sound core is sound:
/// each family's lists stand for every version that was ever written, at its floor and with the registered snapshots. So each
/// get answers as the list that was never collected, and each pinned get as that list was at its pin, by the floor there.
pub fn core_is_safe()
    ensures fresh { FreshIsSound }
    ensures opened { OpenedIsSound }
    ensures sound { IsSoundBehindAll }
    ensures gets { GetsAnswer }
    ensures pinned { PinnedGetsAnswer }
{}

/// `Refused` is the answer exactly where an event is refused, and then nothing changes but the count of events, which every
/// event raises by one.
pub fn core_refuses_exactly()
    ensures exactly { RefusesExactly }
    ensures kept { RefusedChangesNothing }
    ensures counted { CountsEvents }
{}

/// A job that runs is the one that its start made, with the last sequence, the floor and the snapshots of its start, and a
/// compaction with its inputs, its level and the deeper spans, whatever came between. Its end makes tables of exactly the
/// collection by these.
pub fn jobs_end_by_their_start()
    ensures flush { FlushesEndByTheirStart }
    ensures compaction { CompactionsEndByTheirStart }
    ensures flushed { FlushesMakeTheirTable }
    ensures compacted { CompactionsMakeTheirTables }
{}

/// A snapshot is known by the number of its event until it is given up, and a halted core by that of the first event that
/// halted it.
pub fn numbers_are_kept()
    ensures snapshot { SnapshotsKeepTheirNumber }
    ensures halt { HaltsKeepTheirNumber }
{}

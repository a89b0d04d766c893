//! The collection of a whole vector.
ghost use Rattle.std.specs.Prelude.{◌≡◌, ◌≤◌, ◌+◌, List, [], length, vec_len, vec_capacity, OnOk, OnErr};
ghost use Rattle.ts_key.specs.declared.numbers.Family.{Family as FamilyOf};
ghost use Rattle.ts_key.specs.declared.version.Version.{Version as VersionOf};
ghost use Rattle.collection_laws.specs.Places.{AreApart, AreOfFamily};
ghost use Rattle.udt_model.specs.Collecting as collecting;
ghost use Rattle.history_gc.specs.Pushed.{AreInOrder};
ghost use Rattle.history_gc.specs.Collecting.{CollectsAlike, HasCollected, HasFinished, collection, held_of, room_of};

use crate::Collector;
use std::alloc::Global;
use std::mem;
use ts_key::{NoMemory, Seq, Ts, Version, compare};
use udt_model::KeySpan;

/// Pushes versions that stand in order, for which there is room.
fn push_all(collector: &mut Collector<'_>, versions: Vec<Version>)
    requires { held_of collector.old + length versions.items ≤ room_of collector.old }
    ensures pushed { HasCollected collector.old [] [] → AreInOrder versions.items → HasCollected collector.new versions.items [] }
    ensures held { held_of collector.new ≤ held_of collector.old + length versions.items }
    ensures alike { CollectsAlike collector.old collector.new }
{
    let mut rest = versions.into_iter();
    while let Some(version) = rest.next() {
        let _ = collector.push(version);
    }
}

/// Appends what a collector that was finished has left to a vector with room for it.
fn pop_all(collector: &mut Collector<'_>, out: &mut Vec<Version>)
    requires { length out.old.items + held_of collector.old ≤ vec_capacity out.old }
    ensures { (ps : List VersionOf) → HasFinished collector.old ps out.old.items → out.new.items ≡ collection collector.old ps }
{
    while let Some(version) = collector.pop() {
        let _ = out.push(version);
    }
}

/// Leaves of the versions those that a collection keeps, in the stored order: by the history floor, by the sequences of the
/// registered snapshots, in any order, and by the spans of keys that may have versions deeper. The versions are of one family,
/// and no two have one key, timestamp and sequence. All memory is taken first, and where it is wanting the versions stay as
/// they were. It takes the time of a sort, and for each version the logarithm of the number of snapshots.
pub fn collect(
    alloc: Global,
    versions: &mut Vec<Version>,
    floor: Ts,
    seqs: &[Seq],
    deeper: &[KeySpan],
) -> Result<(), NoMemory>
    ensures collected { (family : FamilyOf) → AreOfFamily family versions.old.items → AreApart versions.old.items → OnOk result (versions.new.items ≡ collecting.collect versions.old.items floor seqs.now deeper.now) }
    ensures refused { OnErr result (versions.new.items ≡ versions.old.items) }
{
    let count = versions.len();
    let mut collector = Collector::with_capacity(alloc, count, floor, seqs, deeper)?;
    let kept = Vec::with_capacity(alloc, count)?;
    let mut given = mem::replace(versions, kept);
    given.sort_unstable_by(|a, b| compare(&a.key_ref(), &b.key_ref()));
    push_all(&mut collector, given);
    collector.finish();
    pop_all(&mut collector, versions);
    Ok(())
}

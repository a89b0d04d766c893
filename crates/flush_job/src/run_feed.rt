//! The versions of memtables, one by one.
ghost use Rattle.std.specs.Prelude.{◌≡◌, ◌≤◌, ◌++◌, All, IfOk, OnOk, map};
ghost use Rattle.std.specs.List.{flat_map};
ghost use Rattle.std.specs.Arc.{arc_value};
ghost use Rattle.std.specs.Option.{option_copied};
ghost use Rattle.ts_key.specs.Lists.{standing};
ghost use Rattle.collection_laws.specs.Places.{AreStored};
ghost use Rattle.history_gc.specs.Pushed.{AreInOrder};
ghost use Rattle.flush_job.specs.Props.{in_order_prop};
ghost use Rattle.flush_job.specs.Walks.{IsSpanOf, runs_of, walk_place, walked};

use crate::NoMemory;
use crate::feed::Feed;
use memtable::Mem;
use merge_cursor::{Cursor, Merge, SliceCursor};
use std::alloc::Global;
use std::sync::Arc;
use ts_key::{Family, Version};
use udt_model::KeySpan;

/// The versions of several runs, in the stored order.
#[derive(Drop)]
pub(crate) struct RunFeed<'a> {
    merge: Merge<SliceCursor<'a>>,
    ghost started: { 1 ≤ walk_place merge.before merge.children.items },
    ghost in_order: { AreInOrder (walked merge.children.items) } by { in_order_prop (walked merge.children.items) },
}

/// Puts cursors over the runs of a memtable at the end, each at its first version.
fn push_runs<'a>(cursors: &mut Vec<SliceCursor<'a>>, mem: &'a Mem) -> Result<(), NoMemory>
    requires { All (λ c. c.place ≡ 1) cursors.old.items }
    ensures first { OnOk result (All (λ c. c.place ≡ 1) cursors.new.items) }
    ensures runs { OnOk result (runs_of cursors.new.items ≡ runs_of cursors.old.items ++ mem.now.runs) }
{
    for index in 0..mem.runs() {
        let Some(run) = mem.run(index) else {
            return Ok(());
        };
        cursors.push(SliceCursor::new(run.versions()))?;
    }
    Ok(())
}

/// Cursors over the runs of memtables, each at its first version.
pub(crate) fn cursors_over(
    alloc: Global,
    mems: &[Arc<Mem>],
) -> Result<Vec<SliceCursor<'_>>, NoMemory>
    ensures first { IfOk result (λ cs. All (λ c. c.place ≡ 1) cs.items) }
    ensures runs { IfOk result (λ cs. runs_of cs.items ≡ flat_map (λ m. m.runs) (map arc_value mems.now)) }
{
    let mut cursors = Vec::new(alloc);
    for mem in mems {
        push_runs(&mut cursors, mem.as_ref())?;
    }
    Ok(cursors)
}

/// The version where a walk over runs stands.
fn version_at<'a>(merge: &Merge<SliceCursor<'a>>) -> Option<&'a Version>
    ensures { AreStored (walked merge.now.children.items) → option_copied result ≡ standing (walked merge.now.children.items) (walk_place merge.now.before merge.now.children.items) }
{
    match merge.child() {
        None => None,
        Some(cursor) => cursor.version(),
    }
}

/// The family of the first version, and the span of all keys. It leaves the walk at the first version.
pub(crate) fn span_of(
    merge: &mut Merge<SliceCursor<'_>>,
) -> Result<Option<(Family, KeySpan)>, NoMemory>
    requires { walk_place merge.old.before merge.old.children.items ≡ 1 }
    ensures same { runs_of merge.new.children.items ≡ runs_of merge.old.children.items }
    ensures first { AreStored (walked merge.old.children.items) → OnOk result (walk_place merge.new.before merge.new.children.items ≡ 1) }
    ensures span { AreStored (walked merge.old.children.items) → IfOk result (IsSpanOf (walked merge.old.children.items)) }
{
    let Some(first) = version_at(merge) else {
        return Ok(None);
    };
    merge.seek_end();
    merge.prev();
    let Some(last) = version_at(merge) else {
        return Ok(None);
    };
    let span = KeySpan {
        low: first.key.copy()?,
        high: last.key.copy()?,
    };
    merge.seek(&first.key_ref());
    Ok(Some((first.family, span)))
}

impl<'a> RunFeed<'a> {
    ghost use Rattle.std.specs.Prelude.{◌≡◌};
    ghost use Rattle.history_gc.specs.Pushed.{AreInOrder};
    ghost use Rattle.flush_job.specs.Walks.{walk_place, walked};

    /// The versions of a walk that stands at its first.
    pub(crate) fn new(merge: Merge<SliceCursor<'a>>) -> RunFeed<'a>
        requires first { walk_place merge.before merge.children.items ≡ 1 }
        requires in_order { AreInOrder (walked merge.children.items) }
        ensures { result.merge ≡ merge.entry }
    {
        RunFeed { merge }
    }
}

impl Feed for RunFeed<'_> {
    ghost use Rattle.history_gc.specs.Pushed.{AreInOrder};
    ghost use Rattle.flush_job.specs.Walks.{left_at, passed_at, walk_place};
    ghost use Rattle.flush_job.specs.Fronts.{passed_in_order};

    ghost taken = { λ f. passed_at (walk_place f.merge.before f.merge.children.items) f.merge.children.items };

    ghost coming = { λ f. left_at (walk_place f.merge.before f.merge.children.items) f.merge.children.items };

    fn next(&mut self) -> Result<Option<Version>, NoMemory> {
        let Some(version) = version_at(&self.merge) else {
            return Ok(None);
        };
        let version = version.copy()?;
        self.merge.next();
        Ok(Some(version))
    }

    ghost in_order = { λ f. passed_in_order (walk_place f.merge.before f.merge.children.items) f.merge.children.items f.in_order };
}

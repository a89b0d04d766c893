//! The flush of memtables.
ghost use Rattle.std.specs.Prelude.{◌≡◌, [], IfOk, IsTrue, map};
ghost use Rattle.std.specs.Arc.{arc_value};
ghost use Rattle.ts_key.specs.declared.numbers.Family.{Family as FamilyOf};
ghost use Rattle.sorted_run.specs.Runs.{latest_of};
ghost use Rattle.udt_model.specs.Jobs.{floor_over};
ghost use Rattle.block_table.specs.Pushed.{HasPushed};
ghost use Rattle.flush_job.specs.Flushes.{AreFlushable, Flushes, flush_contents};
ghost use Rattle.sorted_run.specs.Sorts.{sorted};
ghost use Rattle.flush_job.specs.Walks.{versions_of_all, walk_place, walked};

use crate::NoMemory;
use crate::kept::Kept;
use crate::run_feed::{RunFeed, cursors_over, span_of};
use crate::writing::write_in_form;
use block_table::{TableWriteFault, TableWriter};
use memtable::Mem;
use merge_cursor::{Merge, SliceCursor};
use std::alloc::Global;
use std::sync::Arc;
use super_version::{JobCause, TableOut};
use ts_key::{Form, Seq, Ts};
use udt_disk::DiskFile;

/// The greatest timestamp of the memtables, 0 where they have no version.
fn latest_in(mems: &[Arc<Mem>]) -> Ts
    ensures { result.0 ≡ latest_of (versions_of_all (map arc_value mems.now)) }
{
    let mut latest = 0u64;
    for mem in mems {
        latest = latest.max(mem.as_ref().latest().0);
    }
    Ts(latest)
}

/// The floor that the family has with the flush: where timestamps are stripped it is above all of them.
fn floor_behind(mems: &[Arc<Mem>], form: Form, floor: Ts) -> Ts
    requires { (family : FamilyOf) × AreFlushable family (versions_of_all (map arc_value mems.now)) }
    ensures { result ≡ floor_over form floor (versions_of_all (map arc_value mems.now)) }
{
    match form {
        Form::Persist => floor,
        Form::Strip => Ts(floor.0.max(latest_in(mems).0 + 1)),
    }
}

/// A walk over the versions of memtables, at the first.
fn walk_over(alloc: Global, mems: &[Arc<Mem>]) -> Result<Merge<SliceCursor<'_>>, NoMemory>
    ensures first { IfOk result (λ m. walk_place m.before m.children.items ≡ 1) }
    ensures walked { IfOk result (λ m. walked m.children.items ≡ sorted (versions_of_all (map arc_value mems.now))) }
{
    let cursors = cursors_over(alloc, mems)?;
    Ok(Merge::new(cursors))
}

/// The table's writer, with all versions pushed that the flush keeps.
fn writer_of(
    alloc: Global,
    mems: &[Arc<Mem>],
    form: Form,
    floor: Ts,
    seqs: &[Seq],
) -> Result<TableWriter, NoMemory>
    requires { (family : FamilyOf) × AreFlushable family (versions_of_all (map arc_value mems.now)) }
    ensures { (family : FamilyOf) → let vs = versions_of_all (map arc_value mems.now) in AreFlushable family vs
        → IfOk result (λ w. HasPushed w (flush_contents family form floor seqs.now vs)) }
{
    let mut merge = walk_over(alloc, mems)?;
    let Some((family, span)) = span_of(&mut merge)? else {
        unreachable!();
    };
    let spans = [span];
    let feed = RunFeed::new(merge);
    let mut kept = Kept::new(alloc, feed, floor, seqs, &spans)?;
    let mut writer = TableWriter::new(alloc, family, form, floor)?;
    write_in_form(alloc, form, &mut kept, &mut writer)?;
    Ok(writer)
}

/// Writes the table of the memtables' versions to a file that was just made, and syncs it: what a collection keeps of them by
/// the history floor and by the sequences of the registered snapshots, in any order, where every key may have versions deeper.
/// For `Form::Strip` their timestamps are stripped, and the floor that it answers is above all that the memtables have.
/// The memtables have versions of one family, at least one, and no two with one sequence. `Fault` comes only where the file
/// failed, and `Memory` before any call of the file. Beside the table's bytes it holds the versions of one key.
pub fn run_flush<F: DiskFile>(
    alloc: Global,
    mems: &[Arc<Mem>],
    form: Form,
    floor: Ts,
    seqs: &[Seq],
    file: &mut F,
) -> Result<TableOut, JobCause>
    requires flushable { (family : FamilyOf) × AreFlushable family (versions_of_all (map arc_value mems.now)) }
    requires empty { IsTrue (F.is_told file.old) → F.seen file.old ≡ [] }
    ensures { (family : FamilyOf) → let vs = versions_of_all (map arc_value mems.now) in AreFlushable family vs
        → Flushes F.DiskFile family form floor seqs.now vs file.old file.new result }
{
    let writer = match writer_of(alloc, mems, form, floor, seqs) {
        Ok(writer) => writer,
        Err(_) => return Err(JobCause::Memory),
    };
    let table = match writer.finish(alloc, file) {
        Ok(table) => table,
        Err(TableWriteFault::DiskFault) => return Err(JobCause::Fault),
        Err(TableWriteFault::NoMemory) => return Err(JobCause::Memory),
    };
    let kept = table.properties().count;
    Ok(TableOut {
        table,
        kept,
        floor: floor_behind(mems, form, floor),
    })
}

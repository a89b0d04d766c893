//! Seals: what a family has in memory is made ready for a flush, and the log goes on with a new file.

ghost use Rattle.std.specs.Prelude.{◌≡◌, ℕ, ◌+◌, ◌<◌, [], ◌∷◌, length, slice_get, IfErr, IfOk, None, false, map, reverse};
ghost use Rattle.std.specs.Arc.{arc_value};
ghost use Rattle.wal.specs.Wals.{wal_pending};
ghost use Rattle.udt_model.specs.Crashes.{Course};
ghost use Rattle.udt_model.specs.State.{State};
ghost use Rattle.manifest_fold.specs.declared.limits.TheConstants.{FILE_NUMBER_LIMIT};
ghost use Rattle.manifest_fold.specs.Folds.{IsAccepted, newest_log};
ghost use Rattle.manifest.specs.Manifest.{IsEditReserved, manifest_folded};
ghost use Rattle.engine_laws.specs.Installs.{roll_edit as edit_of_roll};
ghost use Rattle.store_engine.specs.Replies.{is_disk_fault};
ghost use Rattle.store_engine.specs.Sealing.{AnswersSeal, IsLogRolled, IsRolled, IsSealed, SealsActive, ShowsSeal, ShowsSealed, TellsSeal, after_seal, course_after_seal, rolled_count, version_after};
ghost use Rattle.store_engine.specs.Steps.{IsEdited};
ghost use Rattle.store_engine.specs.Together.{IsReadyFor};

use crate::NoMemory;
use crate::engine::Engine;
use crate::fault::EngineFault;
use crate::older::OlderLogs;
use crate::unflushed::{has_unflushed, has_versions};
use manifest_edit::Edit;
use manifest_fold::FILE_NUMBER_LIMIT;
use memtable::Mem;
use std::alloc::Global;
use std::sync::Arc;
use super_version::{SharedList, SuperVersion};
use ts_key::{Family, Seq};
use udt_disk::{Disk, Failed};
use udt_model::Items;

/// What a seal did.
#[derive(Drop)]
pub enum Sealed {
    /// Nothing: no version of the family is unflushed.
    Nothing,
    /// Nothing: the active memtable is empty, and sealed ones wait.
    Waiting,
    /// The active memtable is sealed: the super version that shows it, and the family's sealed memtables there from the oldest on.
    Rolled {
        version: Arc<SuperVersion>,
        mems: Vec<Arc<Mem>>,
    },
}

/// The newest of the logs, which ascend, 0 where there is none.
fn newest_of(logs: &[u64]) -> u64
    ensures { result ≡ newest_log logs.now }
{
    match logs.last() {
        Some(number) => *number,
        None => 0,
    }
}

/// The edit that adds a log.
fn roll_edit(alloc: Global, number: u64, last: Seq) -> Result<Edit, NoMemory>
    requires { number < FILE_NUMBER_LIMIT }
    ensures { IfOk result (λ edit. edit ≡ edit_of_roll last number) }
{
    let mut add_logs = Vec::new(alloc);
    add_logs.push(number)?;
    Ok(Edit {
        add_logs: Items::of(add_logs),
        drop_logs: Items::of(Vec::new(alloc)),
        next_file: number + 1,
        last,
        family: None,
    })
}

/// The items of a list, shared.
fn shared<T: Drop>(alloc: Global, items: &SharedList<T>) -> Result<Vec<Arc<T>>, NoMemory>
    ensures { IfOk result (λ out. map arc_value out.items ≡ items.now) }
{
    let mut out = Vec::with_capacity(alloc, items.len())?;
    for item in items.as_slice() {
        out.push(Arc::try_clone(item)?)?;
    }
    Ok(out)
}

/// The items of a list from the last on, shared.
fn from_last<T: Drop>(alloc: Global, items: &SharedList<T>) -> Result<Vec<Arc<T>>, NoMemory>
    ensures { IfOk result (λ out. map arc_value out.items ≡ reverse items.now) }
{
    let mut out = shared(alloc, items)?;
    out.reverse();
    Ok(out)
}

/// The super version with the active memtable of a family sealed, and its sealed memtables then.
fn version_with_seal(
    alloc: Global,
    now: &SuperVersion,
    family: Family,
) -> Result<(Arc<SuperVersion>, Vec<Arc<Mem>>), NoMemory>
    requires { family.0 < length now.now.families }
    ensures { IfOk result (λ r. ShowsSeal family now.now (arc_value r.0) (map arc_value r.1.items)) }
{
    let version = now.sealed(alloc, family)?;
    let Some(state) = version.family(family) else {
        unreachable!()
    };
    let mems = from_last(alloc, &state.sealed)?;
    Ok((Arc::new(alloc, version)?, mems))
}

impl<D: Disk> Engine<D> {
    ghost use Rattle.store_engine.specs.Calls.{RanOn};
    ghost use Rattle.store_engine.specs.Engines.{HoldsAsBefore, HoldsNow, IsCurrent, IsRunning, has_failed};

    /// Goes on with a log of a new file, whose number is that of the next one, and gives the old file back. Nothing may wait. It
    /// takes no memory.
    fn roll_log(&mut self, older: OlderLogs) -> Result<(), EngineFault>
        requires runs { has_failed self.old ≡ false }
        requires pending { wal_pending self.old.wal ≡ 0 }
        requires next { self.old.next < FILE_NUMBER_LIMIT }
        ensures { IsLogRolled D.Disk D.File.DiskFile older self.old self.new result }
    {
        match self.wal.roll(&mut self.disk, self.next) {
            Ok(()) => {
                self.next += 1;
                self.older = older;
                Ok(())
            }
            Err(Failed) => {
                self.failed = true;
                Err(EngineFault::DiskFault)
            }
        }
    }

    /// Adds the log to which it has gone on to the manifest, by an edit that was reserved. It takes no memory.
    fn append_roll(&mut self, edit: &Edit) -> Result<(), EngineFault>
        requires runs { has_failed self.old ≡ false }
        requires ready { IsReadyFor self.old.manifest self.old.wal self.old.next edit.now }
        requires accepted { IsAccepted (manifest_folded self.old.manifest) edit.now }
        requires reserved { IsEditReserved D.File.DiskFile self.old.manifest edit.now }
        ensures { IsEdited D.File.DiskFile edit.now self.old self.new result }
    {
        match self.manifest.append(edit) {
            Ok(()) => Ok(()),
            Err(Failed) => {
                self.failed = true;
                Err(EngineFault::DiskFault)
            }
        }
    }

    /// Puts all that waits on the disk, goes on with a log of a new file, and adds that to the manifest. The edit, of the log whose number
    /// is that of the next file, was reserved. It takes no memory.
    fn roll(&mut self, edit: &Edit, older: OlderLogs) -> Result<(), EngineFault>
        requires running { IsRunning self.old }
        requires next { self.old.next < FILE_NUMBER_LIMIT }
        requires accepted { IsAccepted (manifest_folded self.old.manifest) edit.now }
        requires adds { (edit.now.add_logs ≡ self.old.next ∷ []) × (edit.now.next_file ≡ self.old.next + 1) }
        requires reserved { IsEditReserved D.File.DiskFile self.old.manifest edit.now }
        ensures { IsRolled D.Disk D.File.DiskFile edit.now older self.old self.new result }
    {
        match self.sync_log() {
            Ok(()) => {}
            Err(fault) => return Err(fault),
        }
        match self.roll_log(older) {
            Ok(()) => {}
            Err(fault) => return Err(fault),
        }
        self.append_roll(edit)
    }

    /// Seals the active memtable of a family, which there is, and rolls the log. Memory is taken before the first call on the disk.
    fn seal_active(
        &mut self,
        alloc: Global,
        now: &SuperVersion,
        family: Family,
    ) -> Result<Sealed, EngineFault>
        requires running { IsRunning self.old }
        requires current { IsCurrent self.old now.now }
        requires known { family.0 < length now.now.families }
        requires next { self.old.next < FILE_NUMBER_LIMIT }
        ensures { SealsActive D.Disk D.File.DiskFile now.now family self.old self.new result }
    {
        let newest = newest_of(self.manifest.fold().logs.as_slice());
        let (version, mems) = match version_with_seal(alloc, now, family) {
            Ok(made) => made,
            Err(_) => return Err(EngineFault::NoMemory),
        };
        let older = match self.older.with(alloc, newest, now.last) {
            Ok(older) => older,
            Err(_) => return Err(EngineFault::NoMemory),
        };
        let edit = match roll_edit(alloc, self.next, now.last) {
            Ok(edit) => edit,
            Err(_) => return Err(EngineFault::NoMemory),
        };
        match self.reserve_edit(alloc, &edit) {
            Ok(()) => {}
            Err(fault) => return Err(fault),
        }
        match self.roll(&edit, older) {
            Ok(()) => Ok(Sealed::Rolled { version, mems }),
            Err(fault) => Err(fault),
        }
    }

    /// Makes ready for a flush what a family has in memory: its active memtable is sealed, and the log goes on with a new file, which
    /// the manifest names then; nothing waits any more. `Nothing` comes exactly where no version of the family is unflushed, then `FilesFull`
    /// where the next file number is 2^63, and `Waiting` where the active memtable is empty. A crash at any moment loses nothing that was
    /// synced. Memory is taken before the first call on the disk.
    pub fn seal(
        &mut self,
        alloc: Global,
        now: &SuperVersion,
        family: Family,
    ) -> Result<Sealed, EngineFault>
        requires running { IsRunning self.old }
        requires current { IsCurrent self.old now.now }

        // While no flush runs.
        ensures tells { (m : State) (c : Course) → HoldsNow D.Disk D.File.DiskFile self.old now.now m c → m.flush ≡ None → TellsSeal m family result }
        ensures holds { (m : State) (c : Course) (number : ℕ) → HoldsNow D.Disk D.File.DiskFile self.old now.now m c → m.flush ≡ None → IfOk result (λ done. HoldsNow D.Disk D.File.DiskFile self.new (version_after now.now done) (after_seal m number family done) (course_after_seal m number c family done)) }
        ensures moments { (m : State) (c : Course) → HoldsNow D.Disk D.File.DiskFile self.old now.now m c → RanOn D.Disk D.File.DiskFile m c self.old self.new }
        ensures refused { IfErr result (λ fault. is_disk_fault fault ≡ false → HoldsAsBefore D.Disk D.File.DiskFile self.old self.new) }
        ensures current { IfOk result (λ done. IsCurrent self.new (version_after now.now done)) }

        // Whether or not the disk tells what it holds.
        ensures answers { AnswersSeal (slice_get now.now.families family.0) self.old.next result }
        ensures shown { IfOk result (ShowsSealed family now.now) }
        ensures still { IfOk result (λ done. rolled_count result ≡ 0 → self.new ≡ self.old) }
        ensures called { IsSealed D.Disk D.File.DiskFile now.now.last self.old self.new result }
    {
        let Some(state) = now.family(family) else {
            return Err(EngineFault::UnknownFamily);
        };
        if !has_unflushed(state) {
            return Ok(Sealed::Nothing);
        }
        if self.next == FILE_NUMBER_LIMIT {
            return Err(EngineFault::FilesFull { next: self.next });
        }
        if !has_versions(&state.active) {
            return Ok(Sealed::Waiting);
        }
        self.seal_active(alloc, now, family)
    }
}

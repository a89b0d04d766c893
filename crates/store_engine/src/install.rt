//! The installs of flushes: an edit makes a table live, and drops the logs that no family needs any more.

ghost use Rattle.std.specs.Prelude.{◌≡◌, ◌⊎◌, ◌≤◌, ℕ, [], Contains, IfErr, IfOk, Ok, Err, Some, false, map, slice_get};
ghost use Rattle.std.specs.Arc.{arc_value};
ghost use Rattle.udt_disk.specs.Touches.{Touches};
ghost use Rattle.udt_disk.specs.declared.name.FileName.TheVariants.{Log};
ghost use Rattle.manifest_edit.specs.declared.edit.Edit.{Edit as EditOf};
ghost use Rattle.manifest_fold.specs.Folds.{IsAccepted};
ghost use Rattle.manifest.specs.Manifest.{IsEditReserved, manifest_folded};
ghost use Rattle.udt_model.specs.Acts.Act.{flush_end as flush_end_act};
ghost use Rattle.udt_model.specs.Crashes.{Course};
ghost use Rattle.udt_model.specs.State.{Flush, State};
ghost use Rattle.super_version.specs.Changes.{ChangesFamily, family_with_flush};
ghost use Rattle.super_version.specs.declared.family.FamilyState.{FamilyState as StateOf};
ghost use Rattle.engine_laws.specs.Installs.{flush_edit as edit_of_flush};
ghost use Rattle.store_engine.specs.Asides.{IsRemoval};
ghost use Rattle.store_engine.specs.Dropping.{AreGone, lets_go as lets_log_go, needs_log as needs_its_log};
ghost use Rattle.store_engine.specs.Installing.{floor_over_now};
ghost use Rattle.store_engine.specs.Replies.{is_disk_fault};

use crate::EngineFault;
use crate::engine::Engine;
use crate::older::OlderLogs;
use crate::unflushed::has_unflushed;
use block_table::Table;
use manifest_edit::{Edit, FamilyEdit, TableAt};
use std::alloc::Global;
use std::sync::Arc;
use super_version::{FamilyState, LiveTable, NoMemory, SuperVersion, TableOut};
use ts_key::{Family, Seq, Ts};
use udt_disk::{Disk, FileName};
use udt_model::Items;

/// How a flush ended: with the table of this number, which takes the place of the `gone` oldest sealed memtables of a family and
/// has its versions up to `through`, and with this floor.
#[derive(Clone, Copy)]
struct FlushEnd {
    family: Family,
    gone: usize,
    through: Seq,
    number: u64,
    floor: Ts,
}

/// An install that is ready for its first call on the disk.
#[derive(Drop)]
struct Install {
    next: Arc<SuperVersion>,
    /// It makes the table live, and drops logs.
    edit: Edit,
    /// The files that are live no more with it.
    gone: Vec<FileName>,
}

/// Whether the family needs a log that holds no sequence above `last`: it has an unflushed version, which may be there.
fn needs_log(state: &FamilyState, last: Seq) -> bool
    ensures { result ≡ needs_its_log last.0 state.now }
{
    state.through.0 < last.0 && has_unflushed(state)
}

/// Whether no family needs a log that holds no sequence above `last`.
fn lets_go(families: &[Arc<FamilyState>], last: Seq) -> bool
    ensures { result ≡ lets_log_go last.0 (map arc_value families.now) }
{
    for state in families {
        if needs_log(state.as_ref(), last) {
            return false;
        }
    }
    true
}

/// How many of the live logs may be dropped, from the oldest on. The newest stays.
fn count_gone(logs: &[u64], older: &OlderLogs, families: &[Arc<FamilyState>]) -> usize
    ensures { AreGone (map arc_value families.now) older.now logs.now result }
{
    let mut count = 0;
    while count + 1 < logs.len() && lets_go(families, older.last_in(logs[count])) {
        count += 1;
    }
    count
}

/// The floor of the family behind a flush that leaves this one: it doesn't fall.
fn floor_behind(now: &SuperVersion, family: Family, floor: Ts) -> Ts
    ensures { result ≡ floor_over_now now.now family floor }
{
    match now.family(family) {
        None => floor,
        Some(state) => Ts(state.floor.0.max(floor.0)),
    }
}

/// The edit that makes the table live, on level 0, and drops these logs.
fn flush_edit(
    alloc: Global,
    next_file: u64,
    last: Seq,
    drop_logs: &[u64],
    end: FlushEnd,
) -> Result<Edit, NoMemory>
    ensures { IfOk result (λ edit. edit ≡ edit_of_flush last next_file drop_logs.now end.family end.floor end.through end.number) }
{
    let table = TableAt {
        level: 0,
        number: end.number,
    };
    Ok(Edit {
        add_logs: Items::of(Vec::new(alloc)),
        drop_logs: Items::of(Vec::from_slice(alloc, drop_logs)?),
        next_file,
        last,
        family: Some(FamilyEdit {
            family: end.family,
            floor: end.floor,
            through: end.through,
            add: Items::of(Vec::from_slice(alloc, &[table])?),
            remove: Items::of(Vec::new(alloc)),
        }),
    })
}

/// The names of logs.
fn names_of_logs(alloc: Global, logs: &[u64]) -> Result<Vec<FileName>, NoMemory>
    ensures { IfOk result (λ names. names.items ≡ map Log logs.now) }
{
    let mut names = Vec::with_capacity(alloc, logs.len())?;
    for number in logs {
        names.push(FileName::Log(*number))?;
    }
    Ok(names)
}

/// Removes files. One that can't be removed stays: it is in nobody's way.
fn remove_files<D: Disk>(disk: &mut D, names: &[FileName])
    ensures touches { Touches D.Disk (Contains names.now) disk.old disk.new }
    ensures gone { IsRemoval D.Disk names.now disk.old disk.new }
{
    for name in names {
        let _ = disk.remove(*name);
    }
}

impl<D: Disk> Engine<D> {
    ghost use Rattle.store_engine.specs.Calls.{RanUnder, Tells};
    ghost use Rattle.store_engine.specs.Engines.{HoldsAsBefore, HoldsNow, IsCurrent, IsRunning};
    ghost use Rattle.store_engine.specs.Installing.{EndsFlushBy, IsFlushEnded, IsFlushInstall, IsFlushInstalled, IsInstallCalled, IsInstalled, MayInstall, after_flush_end, course_after_flush_end, flush_end_reply, live_with};
    ghost use Rattle.store_engine.specs.Steps.{ReservesEdit};

    /// The install of a flush that ended so, with this table. No call is made on the disk.
    fn flush_install(
        &self,
        alloc: Global,
        now: &SuperVersion,
        end: FlushEnd,
        table: Table,
    ) -> Result<Install, NoMemory>
        ensures { IfOk result (λ install. IsFlushInstall self.now now.now end table install) }
    {
        let added = LiveTable {
            number: end.number,
            table: Arc::new(alloc, table)?,
        };
        let next = now.with_flush(alloc, end.family, end.gone, end.through, end.floor, added)?;
        let logs = self.manifest.fold().logs.as_slice();
        let count = count_gone(logs, &self.older, next.families.as_slice());
        let dropped = &logs[..count];
        let edit = flush_edit(alloc, self.next, now.last, dropped, end)?;
        let gone = names_of_logs(alloc, dropped)?;
        Ok(Install {
            next: Arc::new(alloc, next)?,
            edit,
            gone,
        })
    }

    /// The same, and the manifest is ready for its edit.
    fn ready_flush(
        &mut self,
        alloc: Global,
        now: &SuperVersion,
        end: FlushEnd,
        table: Table,
    ) -> Result<Install, EngineFault>
        requires { IsRunning self.old }
        ensures made { IfOk result (λ install. IsFlushInstall self.old now.now end table install) }
        ensures ready { IfOk result (λ install. ReservesEdit D.File.DiskFile install.edit self.old self.new (Ok tt)) }
        ensures refused { IfErr result (λ fault. (edit : EditOf) → ReservesEdit D.File.DiskFile edit self.old self.new (Err fault)) }
    {
        let install = match self.flush_install(alloc, now, end, table) {
            Ok(install) => install,
            Err(_) => return Err(EngineFault::NoMemory),
        };
        match self.reserve_edit(alloc, &install.edit) {
            Ok(()) => Ok(install),
            Err(fault) => Err(fault),
        }
    }

    /// Puts all that waits in the log and then the edit on the disk, and removes the files that are live no more. It takes no memory.
    fn install(&mut self, install: &Install) -> Result<(), EngineFault>
        requires running { IsRunning self.old }
        requires accepted { IsAccepted (manifest_folded self.old.manifest) install.now.edit }
        requires reserved { IsEditReserved D.File.DiskFile self.old.manifest install.now.edit }
        requires logs { install.now.edit.add_logs ≡ [] }
        requires next { install.now.edit.next_file ≤ self.old.next }
        ensures { IsInstalled D.Disk D.File.DiskFile install.now self.old self.new result }
    {
        match self.sync_log() {
            Ok(()) => {}
            Err(fault) => return Err(fault),
        }
        match self.append_edit(&install.edit) {
            Ok(()) => {}
            Err(fault) => return Err(fault),
        }
        remove_files(&mut self.disk, &install.gone);
        Ok(())
    }

    /// Ends a flush so, with this table. Its file is given back in any case.
    fn end_flush(
        &mut self,
        alloc: Global,
        now: &SuperVersion,
        end: FlushEnd,
        table: Table,
        file: D::File,
    ) -> Result<Arc<SuperVersion>, EngineFault>
        requires running { IsRunning self.old }
        requires current { IsCurrent self.old now.now }
        requires may { MayInstall D.File.DiskFile self.old now.now end.family end.through end.number file }
        requires floor { (g : StateOf) → slice_get now.now.families end.family.0 ≡ Some g → g.floor.0 ≤ end.floor.0 }
        ensures { IsFlushEnded D.Disk D.File.DiskFile arc_value now.now end table file self.old self.new result }
    {
        let ready = self.ready_flush(alloc, now, end, table);
        self.give_back(file);
        let install = match ready {
            Ok(install) => install,
            Err(fault) => return Err(fault),
        };
        match self.install(&install) {
            Ok(()) => Ok(install.next),
            Err(fault) => Err(fault),
        }
    }

    /// Makes the table of a flush live in place of the `gone` oldest sealed memtables of a family, which has its versions up to
    /// `through` in tables then, and the greater of its floor and that of `out`. The table's file is given back in any case. After `Ok`
    /// this is on the disk, with all that waited, and logs that no family needs any more are gone, from the oldest on. A crash at any
    /// moment leaves the folder from before, or this with all that was written. Memory is taken before the first call on the disk.
    pub fn install_flush(
        &mut self,
        alloc: Global,
        now: &SuperVersion,
        family: Family,
        gone: usize,
        through: Seq,
        number: u64,
        file: D::File,
        out: TableOut,
    ) -> Result<Arc<SuperVersion>, EngineFault>
        requires running { IsRunning self.old }
        requires current { IsCurrent self.old now.now }
        requires may { MayInstall D.File.DiskFile self.old now.now family through number file }

        ensures tells { (m : State) (c : Course) (job : Flush) → HoldsNow D.Disk D.File.DiskFile self.old now.now m c → EndsFlushBy D.File.DiskFile m now.now job family gone through number file out
            → Tells m (flush_end_act family job.start) (flush_end_reply now.now family number out) result }
        ensures holds { (m : State) (c : Course) (event : ℕ) (job : Flush) → HoldsNow D.Disk D.File.DiskFile self.old now.now m c → EndsFlushBy D.File.DiskFile m now.now job family gone through number file out
            → IfOk result (λ next. HoldsNow D.Disk D.File.DiskFile self.new (arc_value next) (after_flush_end m event family job (flush_end_reply now.now family number out)) (course_after_flush_end m event c family job (flush_end_reply now.now family number out))) }
        ensures moments { (m : State) (c : Course) (event : ℕ) (job : Flush) → HoldsNow D.Disk D.File.DiskFile self.old now.now m c → EndsFlushBy D.File.DiskFile m now.now job family gone through number file out
            → RanUnder D.Disk D.File.DiskFile m c event (flush_end_act family job.start) self.old self.new }
        ensures refused { IfErr result (λ fault. is_disk_fault fault ≡ false → HoldsAsBefore D.Disk D.File.DiskFile self.old self.new) }
        ensures current { IfOk result (λ next. IsCurrent self.new (arc_value next)) }

        // Whether or not the disk tells what it holds.
        ensures shown { IfOk result (λ next. ChangesFamily family.0 (family_with_flush gone through (floor_over_now now.now family out.floor) (live_with number out.table)) now.now (arc_value next)) }
        ensures installed { IfOk result (λ next. IsFlushInstalled D.Disk D.File.DiskFile now.now family (floor_over_now now.now family out.floor) through number file self.old self.new (arc_value next)) }
        ensures called { IsInstallCalled D.Disk D.File.DiskFile number file self.old self.new result }
        ensures fault { IfErr result (λ fault. (fault ≡ EngineFault.NoMemory) ⊎ (fault ≡ EngineFault.DiskFault)) }
    {
        let TableOut {
            table,
            kept: _,
            floor,
        } = out;
        let end = FlushEnd {
            family,
            gone,
            through,
            number,
            floor: floor_behind(now, family, floor),
        };
        self.end_flush(alloc, now, end, table, file)
    }
}

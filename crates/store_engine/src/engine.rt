//! The engine of a store: its folder, its manifest and its newest log, and the calls that write to them.

ghost use Rattle.std.specs.Prelude.{◌≡◌, ◌≢◌, ◌⊎◌, ◌+◌, ◌<◌, ◌≤◌, ◌∷◌, [], List, ℕ, length, slice_get, All, false, true, IfErr, IfOk, IsOk, OnOk, IsTrue};
ghost use Rattle.std.specs.Arc.{arc_value};
ghost use Rattle.udt_disk.specs.Joint.{LeavesNow};
ghost use Rattle.udt_disk.specs.Moments.{OnlyReads, alone, holding};
ghost use Rattle.wal.specs.declared.wal.TheConstants.{PENDING_LIMIT};
ghost use Rattle.ts_key.specs.declared.batch.WriteOp.{WriteOp as Operation};
ghost use Rattle.ts_key.specs.declared.limits.TheConstants.{SEQUENCE_LIMIT};
ghost use Rattle.wal.specs.declared.numbered.Numbered.{Numbered};
ghost use Rattle.wal.specs.Wals.{MayGoOn, wal_file, wal_pending};
ghost use Rattle.manifest_fold.specs.Folds.{IsAccepted};
ghost use Rattle.manifest.specs.Manifest.{IsEditReserved, manifest_file, manifest_folded};
ghost use Rattle.udt_model.specs.Acts.Act.{raise as raise_act, sync_all, write as write_act};
ghost use Rattle.udt_model.specs.declared.reply.Reply.TheVariants.{Done, OkAt};
ghost use Rattle.udt_model.specs.Crashes.{Course, course_after, course_start, settled};
ghost use Rattle.udt_model.specs.State.{State};
ghost use Rattle.udt_model.specs.Steps.{after};
ghost use Rattle.super_version.specs.Changes.{ChangesFamily, family_with_floor};
ghost use Rattle.super_version.specs.declared.version.SuperVersion.{SuperVersion as Version};
ghost use Rattle.engine_laws.specs.Laws.{after_write, course_after_write};
ghost use Rattle.engine_laws.specs.Standing.{FolderSays, FolderStands, Says};
ghost use Rattle.recovery.specs.Opening.{AreLiveClean};
ghost use Rattle.recovery.specs.Tables.{ReadsAsTable};
ghost use Rattle.store_engine.specs.Parts.{ArePartsOf, parts_of};
ghost use Rattle.store_engine.specs.Replies.{is_disk_fault};

use crate::EngineFault;
use crate::admission::{admit, admit_raise};
use crate::older::OlderLogs;
use manifest::Manifest;
use manifest_edit::{Edit, FamilyEdit};
use std::alloc::Global;
use std::sync::Arc;
use super_version::SuperVersion;
use ts_key::{Batch, Family, Seq, Ts};
use udt_disk::{Disk, DiskFile, Failed};
use udt_model::Items;
use wal::{PENDING_LIMIT, Wal};

/// The engine of a store: the folder, and in files that it holds the manifest and the newest live log. The super version that a
/// call takes is the one that the last call gave, and at first that of the opening. Where the disk failed in a call, only `failed`
/// and `close` may be called.
pub struct Engine<D: Disk> {
    pub(crate) disk: D,
    pub(crate) manifest: Manifest<D::File>,
    pub(crate) wal: Wal<D::File>,
    /// The number of the next file.
    pub(crate) next: u64,
    pub(crate) failed: bool,
    pub(crate) older: OlderLogs,
}

/// The edit that gives a family another floor.
fn raise_edit(alloc: Global, next: u64, last: Seq, family: Family, floor: Ts, through: Seq) -> Edit
    ensures { result ≡ record { add_logs = []; drop_logs = []; next_file = next; last = last; family = Some (record { family = family; floor = floor; through = through; add = []; remove = [] }) } }
{
    Edit {
        add_logs: Items::of(Vec::new(alloc)),
        drop_logs: Items::of(Vec::new(alloc)),
        next_file: next,
        last,
        family: Some(FamilyEdit {
            family,
            floor,
            through,
            add: Items::of(Vec::new(alloc)),
            remove: Items::of(Vec::new(alloc)),
        }),
    }
}

impl<D: Disk> Engine<D> {
    ghost use Rattle.store_engine.specs.Admission.{raise_fault, told_refusal, write_fault};
    ghost use Rattle.store_engine.specs.Calls.{LeavesOutcomes, RanOn, RanUnder, Tells};
    ghost use Rattle.store_engine.specs.Engines.{HoldsAsBefore, HoldsNow, IsCurrent, IsEngineOf, IsOneFolder, IsRunning, engine_faults, has_failed, held};
    ghost use Rattle.store_engine.specs.Steps.{IsAdded, IsBatchWritten, IsCalled, IsEdited, IsLogSynced, ReservesEdit};

    /// The engine of an opened store, whose folder, manifest, newest log and super version these are. It takes no memory.
    pub fn from_parts(
        alloc: Global,
        disk: D,
        manifest: Manifest<D::File>,
        wal: Wal<D::File>,
        version: &SuperVersion,
    ) -> Engine<D>
        requires { (old : D) × ArePartsOf D.Disk D.File.DiskFile old (parts_of disk manifest wal version.now) }
        ensures held { held result ≡ holding disk (wal_file wal ∷ manifest_file manifest ∷ []) }
        ensures next { result.next ≡ (manifest_folded manifest).next_file }
        ensures older { (result.older.opened ≡ version.now.last) × (result.older.rolled.items ≡ []) }
        ensures running { IsRunning result }
        ensures one { IsOneFolder D.Disk D.File.DiskFile result }
        ensures current { IsCurrent result version.now }
        // It and the version of the opening hold each state that the folder stands for.
        ensures holds { (old : D) (m : State) → ArePartsOf D.Disk D.File.DiskFile old (parts_of disk manifest wal version.now)
            → IsTrue (D.is_told old) → AreLiveClean D.Disk old (manifest_folded manifest) → FolderStands ReadsAsTable (D.stands old) m → HoldsNow D.Disk D.File.DiskFile result version.now m (course_start m) }
    {
        let next = manifest.fold().next_file;
        Engine {
            disk,
            manifest,
            wal,
            next,
            failed: false,
            older: OlderLogs::new(alloc, version.last),
        }
    }

    /// Has the disk failed in a call?
    pub fn failed(&self) -> bool
        ensures { result ≡ has_failed self.now }
    {
        self.failed
    }

    /// Adds a batch to those that wait in the log.
    fn add_batch(&mut self, first: Seq, batch: &Batch) -> Result<(), EngineFault>
        requires running { IsRunning self.old }
        requires first { 1 ≤ first.0 }
        requires last { first.0 + length batch.now ≤ SEQUENCE_LIMIT + 1 }
        requires families { All (λ (op : Operation). op.family.0 < length (manifest_folded self.old.manifest).families) batch.now }
        requires room { wal_pending self.old.wal < PENDING_LIMIT }
        requires next { MayGoOn D.File.DiskFile self.old.wal first.0 }
        ensures { IsAdded D.File.DiskFile (record { first = first; batch = batch.now }) self.old self.new result }
    {
        match self.wal.append(first, batch) {
            Ok(()) => Ok(()),
            Err(_) => Err(EngineFault::NoMemory),
        }
    }

    /// Puts all that waits in the log on the disk. It takes no memory.
    pub(crate) fn sync_log(&mut self) -> Result<(), EngineFault>
        requires { IsRunning self.old }
        ensures { IsLogSynced D.File.DiskFile self.old self.new result }
    {
        match self.wal.sync() {
            Ok(()) => Ok(()),
            Err(Failed) => {
                self.failed = true;
                Err(EngineFault::DiskFault)
            }
        }
    }

    /// The same where that is asked for, or `PENDING_LIMIT` bytes or more wait.
    fn sync_due(&mut self, sync: bool) -> Result<(), EngineFault>
        requires { IsRunning self.old }
        ensures due { (sync ≡ true) ⊎ (PENDING_LIMIT ≤ wal_pending self.old.wal) → IsLogSynced D.File.DiskFile self.old self.new result }
        ensures waits { sync ≡ false → wal_pending self.old.wal < PENDING_LIMIT → IsOk result × (self.new ≡ self.old) }
    {
        if sync || self.wal.pending() >= PENDING_LIMIT {
            self.sync_log()
        } else {
            Ok(())
        }
    }

    /// Makes the manifest ready for an edit.
    pub(crate) fn reserve_edit(&mut self, alloc: Global, edit: &Edit) -> Result<(), EngineFault>
        requires { IsRunning self.old }
        ensures { ReservesEdit D.File.DiskFile edit.now self.old self.new result }
    {
        match self.manifest.reserve(alloc, edit) {
            Ok(()) => Ok(()),
            Err(_) => Err(EngineFault::NoMemory),
        }
    }

    /// Adds a reserved edit that adds no log to the manifest. It takes no memory.
    pub(crate) fn append_edit(&mut self, edit: &Edit) -> Result<(), EngineFault>
        requires running { IsRunning self.old }
        requires accepted { IsAccepted (manifest_folded self.old.manifest) edit.now }
        requires reserved { IsEditReserved D.File.DiskFile self.old.manifest edit.now }
        requires logs { edit.now.add_logs ≡ [] }
        requires next { edit.now.next_file ≤ self.old.next }
        ensures { IsEdited D.File.DiskFile edit.now self.old self.new result }
    {
        match self.manifest.append(edit) {
            Ok(()) => Ok(()),
            Err(Failed) => {
                self.failed = true;
                Err(EngineFault::DiskFault)
            }
        }
    }

    /// Writes a batch, whose operations get the sequences behind the last one, or refuses it. With `sync` it is on the disk after
    /// `Ok`, with all that waited. Else it waits, where fewer than `PENDING_LIMIT` bytes wait with it; then no call is made on the disk. A
    /// crash at any moment leaves none of it, or all of it and all before it. Memory is taken before the first call on the disk.
    pub fn write(
        &mut self,
        alloc: Global,
        now: &SuperVersion,
        batch: &Batch,
        sync: bool,
    ) -> Result<Arc<SuperVersion>, EngineFault>
        requires running { IsRunning self.old }
        requires current { IsCurrent self.old now.now }

        ensures tells { (m : State) (c : Course) → HoldsNow D.Disk D.File.DiskFile self.old now.now m c → Tells m (write_act batch.now sync) (OkAt (m.last.0 + length batch.now)) result }
        ensures holds { (m : State) (c : Course) (number : ℕ) → HoldsNow D.Disk D.File.DiskFile self.old now.now m c
            → IfOk result (λ next. HoldsNow D.Disk D.File.DiskFile self.new (arc_value next) (after_write m number batch.now sync) (course_after_write m number c batch.now sync)) }
        ensures moments { (m : State) (c : Course) (number : ℕ) → HoldsNow D.Disk D.File.DiskFile self.old now.now m c → RanUnder D.Disk D.File.DiskFile m c number (write_act batch.now sync) self.old self.new }
        ensures refused { IfErr result (λ fault. is_disk_fault fault ≡ false → HoldsAsBefore D.Disk D.File.DiskFile self.old self.new) }
        ensures current { IfOk result (λ next. IsCurrent self.new (arc_value next)) }

        // Whether or not the disk tells what it holds.
        ensures answers { told_refusal result ≡ write_fault now.now batch.now }
        ensures written { IfOk result (λ next. IsBatchWritten now.now batch.now sync self.old self.new (arc_value next)) }
        ensures manifest { self.new.manifest ≡ self.old.manifest }
        ensures called { IsCalled D.Disk D.File.DiskFile self.old self.new result }
    {
        let next = match admit(alloc, now, batch) {
            Ok(next) => next,
            Err(fault) => return Err(fault),
        };
        match self.add_batch(Seq(now.last.0 + 1), batch) {
            Ok(()) => {}
            Err(fault) => return Err(fault),
        }
        match self.sync_due(sync) {
            Ok(()) => Ok(next),
            Err(fault) => Err(fault),
        }
    }

    /// Gives a family another floor, or refuses it. After `Ok` the floor is on the disk, with all that waited. A crash at any moment
    /// leaves the floor from before, or the new one with all that was written. Memory is taken before the first call on the disk.
    pub fn raise(
        &mut self,
        alloc: Global,
        now: &SuperVersion,
        family: Family,
        floor: Ts,
    ) -> Result<Arc<SuperVersion>, EngineFault>
        requires running { IsRunning self.old }
        requires current { IsCurrent self.old now.now }

        ensures tells { (m : State) (c : Course) → HoldsNow D.Disk D.File.DiskFile self.old now.now m c → Tells m (raise_act family floor) Done result }
        ensures holds { (m : State) (c : Course) (number : ℕ) → HoldsNow D.Disk D.File.DiskFile self.old now.now m c
            → IfOk result (λ next. HoldsNow D.Disk D.File.DiskFile self.new (arc_value next) (after m number (raise_act family floor) Done) (course_after m number c (raise_act family floor) Done)) }
        ensures moments { (m : State) (c : Course) (number : ℕ) → HoldsNow D.Disk D.File.DiskFile self.old now.now m c → RanUnder D.Disk D.File.DiskFile m c number (raise_act family floor) self.old self.new }
        ensures refused { IfErr result (λ fault. is_disk_fault fault ≡ false → HoldsAsBefore D.Disk D.File.DiskFile self.old self.new) }
        ensures current { IfOk result (λ next. IsCurrent self.new (arc_value next)) }

        // Whether or not the disk tells what it holds.
        ensures answers { told_refusal result ≡ raise_fault (slice_get now.now.families family.0) floor }
        ensures raised { IfOk result (λ next. ChangesFamily family.0 (family_with_floor floor) now.now (arc_value next)) }
        ensures synced { OnOk result (wal_pending self.new.wal ≡ 0) }
        ensures called { IsCalled D.Disk D.File.DiskFile self.old self.new result }
    {
        let next = match admit_raise(alloc, now, family, floor) {
            Ok(next) => next,
            Err(fault) => return Err(fault),
        };
        let Some(state) = now.family(family) else {
            unreachable!()
        };
        let edit = raise_edit(alloc, self.next, now.last, family, floor, state.through);
        match self.reserve_edit(alloc, &edit) {
            Ok(()) => {}
            Err(fault) => return Err(fault),
        }
        match self.sync_log() {
            Ok(()) => {}
            Err(fault) => return Err(fault),
        }
        match self.append_edit(&edit) {
            Ok(()) => Ok(next),
            Err(fault) => Err(fault),
        }
    }

    /// Puts all that waits on the disk. Where nothing waits no call is made on it. It takes no memory.
    pub fn sync(&mut self) -> Result<(), EngineFault>
        requires { IsRunning self.old }

        ensures tells { (now : Version) (m : State) (c : Course) → HoldsNow D.Disk D.File.DiskFile self.old now m c → Tells m sync_all Done result }
        ensures holds { (now : Version) (m : State) (c : Course) (number : ℕ) → HoldsNow D.Disk D.File.DiskFile self.old now m c
            → OnOk result (HoldsNow D.Disk D.File.DiskFile self.new now (after m number sync_all Done) (course_after m number c sync_all Done)) }
        ensures moments { (now : Version) (m : State) (c : Course) → HoldsNow D.Disk D.File.DiskFile self.old now m c → RanOn D.Disk D.File.DiskFile m c self.old self.new }
        ensures current { (now : Version) → IsCurrent self.old now → OnOk result (IsCurrent self.new now) }

        // Whether or not the disk tells what it holds.
        ensures none { wal_pending self.old.wal ≡ 0 → held self.new ≡ held self.old }
        ensures manifest { self.new.manifest ≡ self.old.manifest }
        ensures synced { OnOk result (wal_pending self.new.wal ≡ 0) }
        ensures called { IsCalled D.Disk D.File.DiskFile self.old self.new result }
        ensures fault { IfErr result (λ fault. fault ≡ EngineFault.DiskFault) }
    {
        self.sync_log()
    }

    /// Gives the log and the manifest back to the disk, and that back. It writes nothing, so what waits is lost.
    pub fn close(self) -> D
        ensures reads { IsOneFolder D.Disk D.File.DiskFile self → OnlyReads D.Disk D.File.DiskFile (held self) (alone result) }
        ensures leaves { (now : Version) (m : State) (c : Course) → HoldsNow D.Disk D.File.DiskFile self now m c → LeavesOutcomes D.Disk D.File.DiskFile m c (alone result) }
        // All that reached the disk, and all there is where nothing waits.
        ensures reached { (s : Says) (waiting : List Numbered) → IsEngineOf D.Disk D.File.DiskFile self s waiting → LeavesNow D.Disk D.File.DiskFile (λ folder. FolderSays ReadsAsTable folder s) (alone result) }
        ensures whole { (now : Version) (m : State) (c : Course) → HoldsNow D.Disk D.File.DiskFile self now m c
            → wal_pending self.wal ≡ 0 → LeavesNow D.Disk D.File.DiskFile (λ folder. FolderStands ReadsAsTable folder (settled m)) (alone result) }
        ensures counted { D.faults result ≡ engine_faults D.Disk D.File.DiskFile self }
    {
        let Engine {
            mut disk,
            manifest,
            wal,
            next: _,
            failed: _,
            older: _,
        } = self;
        disk.retire(wal.into_file());
        disk.retire(manifest.into_file());
        disk
    }
}

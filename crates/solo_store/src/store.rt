//! The store of one client.

ghost use Rattle.std.specs.Prelude.{◌≡◌, ◌∷◌, [], ◌<◌, ◌≤◌, ℕ, None, Some, All, IfErr, IfOk, IsTrue, length, slice_get};
ghost use Rattle.std.specs.Arc.{arc_value};
ghost use Rattle.ts_key.specs.declared.limits.TheConstants.{BATCH_LIMIT, FAMILY_LIMIT, STAMP_LIMIT};
ghost use Rattle.udt_disk.specs.Joint.{LeavesNow};
ghost use Rattle.udt_disk.specs.Moments.{OnlyReads, alone, holding};
ghost use Rattle.udt_model.specs.declared.event.Event.TheVariants.{Floor as FloorEvent, Get as GetEvent, Raise as RaiseEvent, Sync as SyncEvent, Write as WriteEvent};
ghost use Rattle.udt_model.specs.declared.event.NamedOp.{NamedOp as Named};
ghost use Rattle.udt_model.specs.Crashes.{Course, course_start, settled};
ghost use Rattle.udt_model.specs.State.{State};
ghost use Rattle.engine_laws.specs.Standing.{FolderStands};
ghost use Rattle.manifest.specs.Manifest.{manifest_file, manifest_folded};
ghost use Rattle.wal.specs.Wals.{wal_file};
ghost use Rattle.recovery.specs.Opening.{AreLiveClean};
ghost use Rattle.recovery.specs.Tables.{ReadsAsTable};
ghost use Rattle.store_engine.specs.Parts.{ArePartsOf};
ghost use Rattle.solo_store.specs.Names.{family_named as number_named};
ghost use Rattle.solo_store.specs.Replies.{halted_behind, halted_told, told_of_fault};

use crate::NoMemory;
use crate::batch::batch_of;
use crate::names::{any_unnamed, family_named, names_of};
use crate::reading::reply_of_read;
use crate::refusals::reply_of;
use point_read::get;
use recovery::Parts;
use std::alloc::{AllocError, Global};
use std::sync::Arc;
use store_engine::{Engine, EngineFault};
use super_version::SuperVersion;
use ts_key::{Family, Key, Name, Seq, Ts};
use udt_disk::Disk;
use udt_model::{NamedOp, Reply};

/// A flush that runs: the number of its start, its family, and the last sequence and the floor there.
#[derive(Clone, Copy)]
pub(crate) struct RunningFlush {
    pub(crate) start: u64,
    pub(crate) family: Family,
    pub(crate) through: Seq,
    pub(crate) floor: Ts,
}

/// The store of one client: an engine with its super version, the names of the families, and the flush that runs. Once the disk failed
/// under an event, the store goes on reading, and refuses what works on the disk.
pub struct Store<D: Disk> {
    pub(crate) engine: Engine<D>,
    pub(crate) version: Arc<SuperVersion>,
    pub(crate) names: Vec<Name>,
    pub(crate) flush: Option<RunningFlush>,
    /// The number of the event under which the disk failed.
    pub(crate) halted: Option<u64>,
}

impl<D: Disk> Store<D> {
    ghost use Rattle.store_engine.specs.Calls.{LeavesOutcomes};
    ghost use Rattle.store_engine.specs.Engines.{held};
    ghost use Rattle.solo_store.specs.Steps.{IsSameDisk, IsStep};
    ghost use Rattle.solo_store.specs.Stores.{HoldsStore, IsStoreReady, engine_of, names_of_fold, now_of, parts_faults, store_faults, store_next, store_pending};

    /// The store over the parts of an opened one. Where there is no memory for it, the folder is given back as it was.
    pub fn of(alloc: Global, parts: Parts<D>) -> Result<Store<D>, (D, NoMemory)>
        requires { (old : D) × ArePartsOf D.Disk D.File.DiskFile old parts }
        ensures ready { IfOk result (IsStoreReady D.Disk D.File.DiskFile) }
        ensures idle { IfOk result (λ store. (store.halted ≡ None) × (store.flush ≡ None)) }
        ensures shown { IfOk result (λ store. now_of store ≡ parts.version) }
        ensures held { IfOk result (λ store. held (engine_of store) ≡ holding parts.disk (wal_file parts.wal ∷ manifest_file parts.manifest ∷ [])) }
        ensures next { IfOk result (λ store. store_next store ≡ (manifest_folded parts.manifest).next_file) }
        ensures names { IfOk result (λ store. store.names.items ≡ names_of_fold (manifest_folded parts.manifest)) }
        // It holds each state that the folder stands for.
        ensures holds { IfOk result (λ store. (old : D) (m : State) → ArePartsOf D.Disk D.File.DiskFile old parts
            → IsTrue (D.is_told old) → AreLiveClean D.Disk old (manifest_folded parts.manifest) → FolderStands ReadsAsTable (D.stands old) m → HoldsStore D.Disk D.File.DiskFile store m (course_start m)) }
        ensures closed { IfErr result (λ left. (old : D) → ArePartsOf D.Disk D.File.DiskFile old parts → OnlyReads D.Disk D.File.DiskFile (alone old) (alone left.0)) }
        ensures counted { IfOk result (λ store. store_faults D.Disk D.File.DiskFile store ≡ parts_faults D.Disk D.File.DiskFile parts) }
        ensures left { IfErr result (λ left. D.faults left.0 ≡ parts_faults D.Disk D.File.DiskFile parts) }
    {
        let Parts {
            disk,
            manifest,
            wal,
            version,
        } = parts;
        let names = names_of(alloc, manifest.fold().families.as_slice());
        let engine = Engine::from_parts(alloc, disk, manifest, wal, &version);
        match (names, Arc::new(alloc, version)) {
            (Ok(names), Ok(version)) => Ok(Store {
                engine,
                version,
                names,
                flush: None,
                halted: None,
            }),
            _ => Err((engine.close(), AllocError)),
        }
    }

    /// The number of the family of this name; where there is none, the one behind the last.
    pub(crate) fn family_of(&self, name: &Name) -> Family
        requires { length self.now.names.items ≤ FAMILY_LIMIT }
        ensures { result ≡ number_named self.now.names.items name.now }
    {
        family_named(&self.names, name)
    }

    /// What is told of a fault of the engine. After one of the disk the store is halted.
    pub(crate) fn refused(&mut self, number: u64, fault: EngineFault) -> Reply
        ensures told { result ≡ told_of_fault fault }
        ensures halted { self.new ≡ record self.old { halted = halted_behind self.old.halted number fault } }
    {
        match fault {
            EngineFault::DiskFault => {
                self.halted = Some(number);
                Reply::Fault
            }
            fault => reply_of(fault),
        }
    }

    /// What a halted store tells of an event that works on the disk, on a family.
    fn halted_reply(&self, family: Family, since: u64) -> Reply
        ensures { result ≡ halted_told (slice_get (now_of self.now).families family.0) since }
    {
        match self.version.as_ref().family(family) {
            None => Reply::Unknown,
            Some(_) => Reply::Halted { since },
        }
    }

    /// The floor of a family.
    pub fn floor(&self, family: &Name) -> Reply
        requires { IsStoreReady D.Disk D.File.DiskFile self.now }
        ensures { (number : ℕ) → IsStep D.Disk D.File.DiskFile self.now self.now number (FloorEvent family.now) result }
    {
        match self.version.as_ref().family(self.family_of(family)) {
            None => Reply::Unknown,
            Some(state) => Reply::Floor { floor: state.floor },
        }
    }

    /// The value of a key at a timestamp. It is copied once.
    pub fn get(&self, alloc: Global, family: &Name, key: &Key, t: Ts) -> Reply
        requires { IsStoreReady D.Disk D.File.DiskFile self.now }
        ensures { (number : ℕ) → IsStep D.Disk D.File.DiskFile self.now self.now number (GetEvent family.now key.now t None) result }
    {
        let now = self.version.as_ref();
        let family = self.family_of(family);
        match now.family(family) {
            None => Reply::Unknown,
            Some(_) => reply_of_read(alloc, get(now, family, key.bytes(), t, now.last)),
        }
    }

    /// Takes a write whole, as the event of this number, or leaves the store as it was. The batch shares the bytes of keys and values.
    pub fn write(&mut self, alloc: Global, number: u64, ops: &[NamedOp], sync: bool) -> Reply
        requires some { 0 < length ops.now }
        requires within { length ops.now ≤ BATCH_LIMIT }
        requires stamped { All (λ (o : Named). o.ts.0 ≤ STAMP_LIMIT) ops.now }
        requires ready { IsStoreReady D.Disk D.File.DiskFile self.old }
        ensures { IsStep D.Disk D.File.DiskFile self.old self.new number (WriteEvent ops.now sync) result }
    {
        match self.halted {
            None => self.take(alloc, number, ops, sync),
            Some(_) if any_unnamed(&self.names, ops) => Reply::Unknown,
            Some(since) => Reply::Halted { since },
        }
    }

    /// The same where the disk hasn't failed.
    fn take(&mut self, alloc: Global, number: u64, ops: &[NamedOp], sync: bool) -> Reply
        requires some { 0 < length ops.now }
        requires within { length ops.now ≤ BATCH_LIMIT }
        requires stamped { All (λ (o : Named). o.ts.0 ≤ STAMP_LIMIT) ops.now }
        requires ready { IsStoreReady D.Disk D.File.DiskFile self.old }
        requires works { self.old.halted ≡ None }
        ensures { IsStep D.Disk D.File.DiskFile self.old self.new number (WriteEvent ops.now sync) result }
    {
        let Ok(batch) = batch_of(alloc, &self.names, ops) else {
            return Reply::NoMemory;
        };
        match self
            .engine
            .write(alloc, self.version.as_ref(), &batch, sync)
        {
            Ok(next) => {
                let last = next.as_ref().last;
                self.version = next;
                Reply::OkAt { number: last.0 }
            }
            Err(fault) => self.refused(number, fault),
        }
    }

    /// Gives a family another floor, as the event of this number, or leaves the store as it was.
    pub fn raise(&mut self, alloc: Global, number: u64, family: &Name, floor: Ts) -> Reply
        requires { IsStoreReady D.Disk D.File.DiskFile self.old }
        ensures { IsStep D.Disk D.File.DiskFile self.old self.new number (RaiseEvent family.now floor) result }
    {
        let family = self.family_of(family);
        if let Some(since) = self.halted {
            return self.halted_reply(family, since);
        }
        match self
            .engine
            .raise(alloc, self.version.as_ref(), family, floor)
        {
            Ok(next) => {
                self.version = next;
                Reply::Done
            }
            Err(fault) => self.refused(number, fault),
        }
    }

    /// Puts every accepted write on the disk, as the event of this number. It takes no memory.
    pub fn sync(&mut self, number: u64) -> Reply
        requires { IsStoreReady D.Disk D.File.DiskFile self.old }
        ensures step { IsStep D.Disk D.File.DiskFile self.old self.new number SyncEvent result }
        ensures settled { result ≡ Reply.Done → (self.new.halted ≡ None) × (store_pending self.new ≡ 0) }
    {
        if let Some(since) = self.halted {
            return Reply::Halted { since };
        }
        match self.engine.sync() {
            Ok(()) => Reply::Done,
            Err(fault) => self.refused(number, fault),
        }
    }

    /// Gives the folder back. It writes nothing, so what waits is lost.
    pub fn close(self) -> D
        requires { IsStoreReady D.Disk D.File.DiskFile self }
        ensures leaves { (m : State) (c : Course) → HoldsStore D.Disk D.File.DiskFile self m c → LeavesOutcomes D.Disk D.File.DiskFile m c (alone result) }
        // All there is where nothing waits.
        ensures whole { (m : State) (c : Course) → HoldsStore D.Disk D.File.DiskFile self m c → self.halted ≡ None
            → store_pending self ≡ 0 → LeavesNow D.Disk D.File.DiskFile (λ folder. FolderStands ReadsAsTable folder (settled m)) (alone result) }
        ensures counted { D.faults result ≡ store_faults D.Disk D.File.DiskFile self }
        ensures same { IsSameDisk D.Disk (engine_of self).disk result }
    {
        let Store {
            engine,
            version: _,
            names: _,
            flush: _,
            halted: _,
        } = self;
        engine.close()
    }
}

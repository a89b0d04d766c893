//! Opening a folder as a store: its manifest is read, and its live log replayed. It writes nothing.
ghost use Rattle.std.specs.Prelude.{◌≡◌, ◌⊎◌, ℕ, List, ◌+◌, ◌<◌, ◌≤◌, [], ◌∷◌, ◌++◌, length, map, IfOk, IfErr, IfSome, OnOk, IsTrue};
ghost use Rattle.ts_key.specs.declared.limits.TheConstants.{FAMILY_LIMIT, SEQUENCE_LIMIT};
ghost use Rattle.udt_disk.specs.Causes.{IsCause};
ghost use Rattle.udt_disk.specs.Joint.{Folder, IsFree};
ghost use Rattle.udt_disk.specs.Moments.{OnlyReads, alone, holding};
ghost use Rattle.udt_disk.specs.Runs.{IsOnlyRead, file_after};
ghost use Rattle.udt_disk.specs.declared.name.FileName.TheVariants.{Manifest0, Manifest1, Log};
ghost use Rattle.wal.specs.Replays.{IsReplayFault, is_replay_disk_fault};
ghost use Rattle.wal.specs.Wals.{wal_file, wal_sizes, wal_pending, MayGoOn};
ghost use Rattle.head_manifest.specs.Answers.{is_manifest_disk_fault};
ghost use Rattle.head_manifest.specs.Folders.{Means, told_by_fault};
ghost use Rattle.head_manifest.specs.Folds.{IsUsable};
ghost use Rattle.head_manifest.specs.Manifest.{manifest_file};
ghost use Rattle.plain_recovery.specs.Stores.{sizes_of};
ghost use Rattle.plain_recovery.specs.Fault.{is_open_disk_fault, RefusesOpening};
ghost use Rattle.plain_recovery.specs.Opening.{IsReplayed, IsTaken, IsOpened, RefusesFile, RefusesLog, files_taken, disk_after};

use crate::OpenFault;
use crate::said::{Said, said_of};
use head_manifest::{FamilyFold, Folded, Manifest, ManifestFault};
use std::alloc::Global;
use ts_key::{NoMemory, STAMP_SIZE, Seq, Version};
use udt_disk::{Disk, DiskFile, Failed, FileName};
use udt_model::FamilyHead;
use wal::{ReplayFault, Sizes, Wal};

/// A store that was opened: its folder, the manifest and the live log in files that it holds, and what they say.
pub struct Parts<D: Disk> {
    pub disk: D,
    pub manifest: Manifest<D::File>,
    pub wal: Wal<D::File>,
    pub heads: Vec<FamilyHead>,
    pub versions: Vec<Version>,
    pub last: Seq,
}

/// The number of the live log of a fold.
fn live_log(fold: &Folded) -> u64
    requires { (number : ℕ) × IsUsable fold.now number }
    ensures { IsUsable fold.now result }
{
    fold.logs.as_slice()[0]
}

/// The size of the timestamps of each family.
fn family_sizes(alloc: Global, families: &[FamilyFold]) -> Result<Sizes, NoMemory>
    requires some { 1 ≤ length families.now }
    requires few { length families.now ≤ FAMILY_LIMIT }
    ensures { IfOk result (λ sizes. sizes ≡ map (λ f. 8) families.now) }
{
    let sizes: Vec<u8> = families.iter().map(|_| STAMP_SIZE).collect(alloc)?;
    Sizes::of(alloc, &sizes)
}

/// What is told of a live log, by why it wasn't replayed.
fn log_fault(fault: ReplayFault) -> OpenFault
    ensures refused { (sizes : List ℕ) (number : ℕ) (bytes : List ℕ) → IsReplayFault sizes number bytes fault → RefusesFile sizes number bytes result }
    ensures cause { is_open_disk_fault result ≡ is_replay_disk_fault fault }
{
    match fault {
        ReplayFault::BadLog { number, at } => OpenFault::BadLog { number, at },
        ReplayFault::DiskFault => OpenFault::DiskFault,
        ReplayFault::NoMemory => OpenFault::NoMemory,
    }
}

/// What is told of a manifest, by why it wasn't read.
fn manifest_fault(fault: ManifestFault) -> OpenFault
    ensures refused { (folder : Folder) → IfSome (told_by_fault fault) (Means folder) → RefusesOpening folder result }
    ensures cause { is_open_disk_fault result ≡ is_manifest_disk_fault fault }
{
    match fault {
        ManifestFault::BadManifest { at } => OpenFault::BadManifest { at },
        ManifestFault::DiskFault => OpenFault::DiskFault,
        ManifestFault::NoMemory => OpenFault::NoMemory,
    }
}

/// The live log of a fold in its file, and what both say. The file is only read, and handed back where that fails.
fn replay_log<F: DiskFile>(
    alloc: Global,
    file: F,
    number: u64,
    fold: &Folded,
) -> Result<(Wal<F>, Said), (F, OpenFault)>
    requires { IsUsable fold.now number }
    ensures replayed { IfOk result (λ r. IsTrue (F.is_told file) → IsReplayed F.DiskFile fold.now file r.0 r.1) }
    ensures sizes { IfOk result (λ r. wal_sizes r.0 ≡ sizes_of fold.now) }
    ensures pending { IfOk result (λ r. wal_pending r.0 ≡ 0) }
    ensures heads { IfOk result (λ r. length r.1.heads.items ≡ length fold.now.families) }
    ensures within { IfOk result (λ r. r.1.last.0 < SEQUENCE_LIMIT + 1) }
    ensures goes_on { IfOk result (λ r. MayGoOn F.DiskFile r.0 (r.1.last.0 + 1)) }
    ensures same { IsOnlyRead F.DiskFile file (file_after (λ r. wal_file r.0) result) }
    ensures kept { IfOk result (λ r. F.faults (wal_file r.0) ≡ F.faults file) }
    ensures refused { IfErr result (λ e. IsTrue (F.is_told file) → RefusesFile (sizes_of fold.now) number (F.seen file) e.1) }
    ensures cause { IfErr result (λ e. IsCause (is_open_disk_fault e.1) (F.faults file) (F.faults e.0)) }
{
    let Ok(sizes) = family_sizes(alloc, fold.families.as_slice()) else {
        return Err((file, OpenFault::NoMemory));
    };
    let (wal, batches) = match Wal::replay(alloc, file, number, sizes) {
        Ok(read) => read,
        Err((file, fault)) => return Err((file, log_fault(fault))),
    };
    match said_of(alloc, fold, &batches) {
        Ok(said) => Ok((wal, said)),
        Err(_) => Err((wal.into_file(), OpenFault::NoMemory)),
    }
}

/// Opens the live log of a fold, whatever other files are held. Its file is given back where that fails.
fn open_log<D: Disk>(
    alloc: Global,
    disk: &mut D,
    fold: &Folded,
    number: u64,
) -> Result<(Wal<D::File>, Said), OpenFault>
    requires { IsUsable fold.now number }
    ensures taken { IfOk result (λ r. IsTrue (D.is_told disk.old) → IsTaken D.Disk D.File.DiskFile disk.old fold.now number r.0 r.1) }
    ensures few { IfOk result (λ r. length r.1.heads.items ≤ FAMILY_LIMIT) }
    ensures sizes { IfOk result (λ r. wal_sizes r.0 ≡ sizes_of fold.now) }
    ensures heads { IfOk result (λ r. length r.1.heads.items ≡ length fold.now.families) }
    ensures pending { IfOk result (λ r. wal_pending r.0 ≡ 0) }
    ensures within { IfOk result (λ r. r.1.last.0 < SEQUENCE_LIMIT + 1) }
    ensures goes_on { IfOk result (λ r. MayGoOn D.File.DiskFile r.0 (r.1.last.0 + 1)) }
    ensures fresh { IfOk result (λ r. D.File.faults (wal_file r.0) ≡ 0) }
    ensures file_told { IfOk result (λ r. D.File.is_told (wal_file r.0) ≡ D.is_told disk.old) }
    ensures file_model { IfOk result (λ r. D.File.keeps_model (wal_file r.0) ≡ D.keeps_model disk.old) }
    ensures name { IfOk result (λ r. D.File.name (wal_file r.0) ≡ Log number) }
    ensures reads { (others : List D.File) → IsFree D.Disk D.File.DiskFile (holding disk.old others) (Log number)
        → OnlyReads D.Disk D.File.DiskFile (holding disk.old others) (holding disk.new (files_taken result ++ others)) }
    ensures told { D.is_told disk.new ≡ D.is_told disk.old }
    ensures model { D.keeps_model disk.new ≡ D.keeps_model disk.old }
    ensures refused { IfErr result (λ e. IsTrue (D.is_told disk.old) → RefusesLog fold.now number (D.stands disk.old) e) }
    ensures kept { OnOk result (D.faults disk.new ≡ D.faults disk.old) }
    ensures cause { IfErr result (λ fault. IsCause (is_open_disk_fault fault) (D.faults disk.old) (D.faults disk.new)) }
    ensures later { D.faults disk.old ≤ D.faults disk.new }
{
    let file = match disk.open_file(FileName::Log(number)) {
        Ok(Some(file)) => file,
        Ok(None) => return Err(OpenFault::BadLog { number, at: 0 }),
        Err(Failed) => return Err(OpenFault::DiskFault),
    };
    match replay_log(alloc, file, number, fold) {
        Ok(taken) => Ok(taken),
        Err((file, fault)) => {
            disk.retire(file);
            Err(fault)
        }
    }
}

/// Opens a folder as a store. It writes nothing, so a folder that is refused stays as it was. Each operation of the
/// live log is taken as it is: none is judged again. On `Err` the files are given back, and the disk is handed back.
pub fn open_store<D: Disk>(alloc: Global, mut disk: D) -> Result<Parts<D>, (D, OpenFault)>
    ensures opened { IfOk result (λ p. IsTrue (D.is_told disk) → IsOpened D.Disk D.File.DiskFile disk p) }
    ensures refused { IfErr result (λ e. IsTrue (D.is_told disk) → RefusesOpening (D.stands disk) e.1) }

    // What a caller needs of the parts.
    ensures few { IfOk result (λ p. length p.heads.items ≤ FAMILY_LIMIT) }
    ensures sizes { IfOk result (λ p. length (wal_sizes p.wal) ≡ length p.heads.items) }
    ensures pending { IfOk result (λ p. wal_pending p.wal ≡ 0) }
    ensures within { IfOk result (λ p. p.last.0 < SEQUENCE_LIMIT + 1) }
    ensures goes_on { IfOk result (λ p. MayGoOn D.File.DiskFile p.wal (p.last.0 + 1)) }

    // It only reads.
    ensures reads { IfOk result (λ p. OnlyReads D.Disk D.File.DiskFile (alone disk) (holding p.disk (wal_file p.wal ∷ manifest_file p.manifest ∷ []))) }
    ensures gives_back { IfErr result (λ e. OnlyReads D.Disk D.File.DiskFile (alone disk) (alone e.0)) }
    ensures wal_name { IfOk result (λ p. (number : ℕ) × (D.File.name (wal_file p.wal) ≡ Log number)) }
    ensures manifest_name { IfOk result (λ p. (D.File.name (manifest_file p.manifest) ≡ Manifest0) ⊎ (D.File.name (manifest_file p.manifest) ≡ Manifest1)) }

    ensures told { D.is_told (disk_after result) ≡ D.is_told disk }
    ensures model { D.keeps_model (disk_after result) ≡ D.keeps_model disk }
    ensures manifest_told { IfOk result (λ p. D.File.is_told (manifest_file p.manifest) ≡ D.is_told disk) }
    ensures manifest_model { IfOk result (λ p. D.File.keeps_model (manifest_file p.manifest) ≡ D.keeps_model disk) }
    ensures wal_told { IfOk result (λ p. D.File.is_told (wal_file p.wal) ≡ D.is_told disk) }
    ensures wal_model { IfOk result (λ p. D.File.keeps_model (wal_file p.wal) ≡ D.keeps_model disk) }

    ensures manifest_fresh { IfOk result (λ p. D.File.faults (manifest_file p.manifest) ≡ 0) }
    ensures wal_fresh { IfOk result (λ p. D.File.faults (wal_file p.wal) ≡ 0) }
    ensures kept { IfOk result (λ p. D.faults p.disk ≡ D.faults disk) }
    ensures cause { IfErr result (λ e. IsCause (is_open_disk_fault e.1) (D.faults disk) (D.faults e.0)) }
    ensures later { D.faults disk ≤ D.faults (disk_after result) }
{
    let (manifest, fold) = match Manifest::read(alloc, &mut disk) {
        Ok(Some(read)) => read,
        Ok(None) => return Err((disk, OpenFault::NoStore)),
        Err(fault) => return Err((disk, manifest_fault(fault))),
    };
    let number = live_log(&fold);
    match open_log(alloc, &mut disk, &fold, number) {
        Ok((wal, said)) => Ok(Parts {
            disk,
            manifest,
            wal,
            heads: said.heads,
            versions: said.versions,
            last: said.last,
        }),
        Err(fault) => {
            disk.retire(manifest.into_file());
            Err((disk, fault))
        }
    }
}

//! Opening a folder as a store: its manifest is read, and then its live tables and logs. It writes nothing.

ghost use Rattle.std.specs.Prelude.{◌≡◌, ◌≤◌, ◌++◌, ◌∷◌, [], ℕ, List, length, IfOk, IfErr, IfSome, OnOk, IsTrue};
ghost use Rattle.ts_key.specs.declared.limits.TheConstants.{FAMILY_LIMIT, SEQUENCE_LIMIT};
ghost use Rattle.udt_disk.specs.Causes.{IsCause};
ghost use Rattle.udt_disk.specs.Joint.{Folder, IsFree};
ghost use Rattle.udt_disk.specs.Moments.{OnlyReads, alone, holding};
ghost use Rattle.udt_disk.specs.declared.name.FileName.{FileName as NameOf};
ghost use Rattle.udt_disk.specs.declared.name.FileName.TheVariants.{Log};
ghost use Rattle.wal.specs.declared.numbered.Numbered.{Numbered};
ghost use Rattle.wal.specs.Sequences.{next_sequence};
ghost use Rattle.wal.specs.Wals.{wal_file, wal_sizes, wal_pending};
ghost use Rattle.manifest_fold.specs.Folds.{newest_log};
ghost use Rattle.manifest.specs.Answers.{is_manifest_disk_fault};
ghost use Rattle.manifest.specs.Folders.{IsManifestName, Means, told_by_fault};
ghost use Rattle.manifest.specs.Folds.{IsManifestFold, sizes_of};
ghost use Rattle.manifest.specs.Manifest.{IsManifestReady, manifest_file, manifest_folded};
ghost use Rattle.engine_laws.specs.Logs.{last_over};
ghost use Rattle.recovery.specs.Fault.{is_open_disk_fault};
ghost use Rattle.recovery.specs.Opening.{IsOpenedAs, IsShown, IsUsable, RefusesFiles, RefusesOpening, disk_after};
ghost use Rattle.recovery.specs.Places.{IsTableName};
ghost use Rattle.recovery.specs.Versions.{FitsFold};
ghost use Rattle.recovery.specs.Replayed.{IsLogName, IsNewestLog, IsNextWithin, files_taken};

use crate::OpenFault;
use crate::logs::open_logs;
use crate::tables::open_tables;
use crate::version::version_of;
use manifest::{Manifest, ManifestFault};
use manifest_fold::Folded;
use std::alloc::Global;
use super_version::SuperVersion;
use ts_key::Seq;
use udt_disk::{Disk, DiskFile};
use wal::Wal;

/// A store that was opened: its folder, the manifest and the newest live log in files that it holds, and what all live files
/// say. The manifest tells its fold.
pub struct Parts<D: Disk> {
    pub disk: D,
    pub manifest: Manifest<D::File>,
    pub wal: Wal<D::File>,
    pub version: SuperVersion,
}

/// The last sequence: the greater of the manifest's and the last of the logs.
fn last_sequence(last: Seq, next: Option<u64>) -> Seq
    ensures over { (batches : List Numbered) → next ≡ next_sequence batches → result.0 ≡ last_over last.0 batches }
    ensures low { last.0 ≤ result.0 }
    ensures within { last.0 ≤ SEQUENCE_LIMIT → IsNextWithin next → result.0 ≤ SEQUENCE_LIMIT }
{
    match next {
        None => last,
        Some(next) => Seq(last.0.max(next.saturating_sub(1))),
    }
}

/// What is told of a manifest, by why it wasn't read.
fn manifest_fault(fault: ManifestFault) -> OpenFault
    ensures refused { (folder : Folder) → IfSome (told_by_fault fault) (Means folder) → RefusesOpening folder result }
    ensures cause { is_open_disk_fault result ≡ is_manifest_disk_fault fault }
{
    match fault {
        ManifestFault::BadManifest { at } => OpenFault::BadManifest { at },
        ManifestFault::DiskFault => OpenFault::DiskFault,
        ManifestFault::NoMemory => OpenFault::NoMemory,
    }
}

/// Opens the live files of a fold, whatever files of other names are held: the newest log, and the super version of all.
fn open_files<D: Disk>(
    alloc: Global,
    disk: &mut D,
    fold: &Folded,
) -> Result<(Wal<D::File>, SuperVersion), OpenFault>
    requires usable { IsUsable fold.now }
    ensures shown { IfOk result (λ r. IsTrue (D.is_told disk.old) → IsShown (D.stands disk.old) fold.now r.1) }
    ensures fits { IfOk result (λ r. FitsFold fold.now r.1) }
    ensures newest { IfOk result (λ r. IsTrue (D.is_told disk.old) → IsNewestLog D.Disk D.File.DiskFile disk.old fold.now r.0) }
    ensures sizes { IfOk result (λ r. wal_sizes r.0 ≡ sizes_of fold.now) }
    ensures pending { IfOk result (λ r. wal_pending r.0 ≡ 0) }
    ensures fresh { IfOk result (λ r. D.File.faults (wal_file r.0) ≡ 0) }
    ensures file_told { IfOk result (λ r. D.File.is_told (wal_file r.0) ≡ D.is_told disk.old) }
    ensures file_model { IfOk result (λ r. D.File.keeps_model (wal_file r.0) ≡ D.keeps_model disk.old) }
    ensures name { IfOk result (λ r. D.File.name (wal_file r.0) ≡ Log (newest_log fold.now.logs)) }
    ensures reads { (others : List D.File) → ((n : NameOf) → IsTableName n → IsFree D.Disk D.File.DiskFile (holding disk.old others) n)
        → ((n : NameOf) → IsLogName n → IsFree D.Disk D.File.DiskFile (holding disk.old others) n)
        → OnlyReads D.Disk D.File.DiskFile (holding disk.old others) (holding disk.new (files_taken result ++ others)) }
    ensures refused { IfErr result (λ e. IsTrue (D.is_told disk.old) → RefusesFiles fold.now (D.stands disk.old) e) }
    ensures kept { OnOk result (D.faults disk.new ≡ D.faults disk.old) }
    ensures cause { IfErr result (λ fault. IsCause (is_open_disk_fault fault) (D.faults disk.old) (D.faults disk.new)) }
    ensures later { D.faults disk.old ≤ D.faults disk.new }
{
    let opened = match open_tables(alloc, disk, fold) {
        Ok(opened) => opened,
        Err(fault) => return Err(fault),
    };
    let (wal, gathered) = match open_logs(alloc, disk, fold) {
        Ok(logs) => logs,
        Err(fault) => return Err(fault),
    };
    let last = last_sequence(fold.last, gathered.next);
    match version_of(alloc, fold, &opened, &gathered.versions, last) {
        Ok(version) => Ok((wal, version)),
        Err(_) => {
            disk.retire(wal.into_file());
            Err(OpenFault::NoMemory)
        }
    }
}

/// Opens a folder as a store. It writes nothing, so a folder that is refused stays as it was. Each operation of the live logs is
/// taken as it is: none is judged again. On `Err` the files are given back, and the disk is handed back. It takes time linear in
/// the bytes of the live files, times a logarithm.
pub fn open_store<D: Disk>(alloc: Global, mut disk: D) -> Result<Parts<D>, (D, OpenFault)>
    ensures opened { IfOk result (λ p. IsTrue (D.is_told disk) → IsOpenedAs D.Disk D.File.DiskFile disk p) }
    ensures refused { IfErr result (λ e. IsTrue (D.is_told disk) → RefusesOpening (D.stands disk) e.1) }

    // What a caller needs of the parts, whether or not the disk tells what it holds.
    ensures folds { IfOk result (λ p. IsManifestFold (manifest_folded p.manifest)) }
    ensures fits { IfOk result (λ p. FitsFold (manifest_folded p.manifest) p.version) }
    ensures ready { IfOk result (λ p. IsManifestReady D.File.DiskFile p.manifest) }
    ensures sizes { IfOk result (λ p. wal_sizes p.wal ≡ sizes_of (manifest_folded p.manifest)) }
    ensures pending { IfOk result (λ p. wal_pending p.wal ≡ 0) }
    ensures wal_name { IfOk result (λ p. D.File.name (wal_file p.wal) ≡ Log (newest_log (manifest_folded p.manifest).logs)) }
    ensures manifest_name { IfOk result (λ p. IsManifestName (D.File.name (manifest_file p.manifest))) }

    // It only reads.
    ensures reads { IfOk result (λ p. OnlyReads D.Disk D.File.DiskFile (alone disk) (holding p.disk (wal_file p.wal ∷ manifest_file p.manifest ∷ []))) }
    ensures gives_back { IfErr result (λ e. OnlyReads D.Disk D.File.DiskFile (alone disk) (alone e.0)) }

    ensures told { D.is_told (disk_after result) ≡ D.is_told disk }
    ensures model { D.keeps_model (disk_after result) ≡ D.keeps_model disk }
    ensures manifest_told { IfOk result (λ p. D.File.is_told (manifest_file p.manifest) ≡ D.is_told disk) }
    ensures manifest_model { IfOk result (λ p. D.File.keeps_model (manifest_file p.manifest) ≡ D.keeps_model disk) }
    ensures wal_told { IfOk result (λ p. D.File.is_told (wal_file p.wal) ≡ D.is_told disk) }
    ensures wal_model { IfOk result (λ p. D.File.keeps_model (wal_file p.wal) ≡ D.keeps_model disk) }

    ensures manifest_fresh { IfOk result (λ p. D.File.faults (manifest_file p.manifest) ≡ 0) }
    ensures wal_fresh { IfOk result (λ p. D.File.faults (wal_file p.wal) ≡ 0) }
    ensures kept { IfOk result (λ p. D.faults p.disk ≡ D.faults disk) }
    ensures cause { IfErr result (λ e. IsCause (is_open_disk_fault e.1) (D.faults disk) (D.faults e.0)) }
    ensures later { D.faults disk ≤ D.faults (disk_after result) }
{
    let manifest = match Manifest::read(alloc, &mut disk) {
        Ok(Some(manifest)) => manifest,
        Ok(None) => return Err((disk, OpenFault::NoStore)),
        Err(fault) => return Err((disk, manifest_fault(fault))),
    };
    match open_files(alloc, &mut disk, manifest.fold()) {
        Ok((wal, version)) => Ok(Parts {
            disk,
            manifest,
            wal,
            version,
        }),
        Err(fault) => {
            disk.retire(manifest.into_file());
            Err((disk, fault))
        }
    }
}

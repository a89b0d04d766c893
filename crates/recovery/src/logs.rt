//! The live logs of a fold: each is replayed, and then they are judged together.

ghost use Rattle.std.specs.Prelude.{◌≡◌, ◌≤◌, ◌++◌, ℕ, List, None, Some, false, length, All, IfOk, IfErr, OnOk, IsTrue};
ghost use Rattle.std.specs.List.Sorted.{IsStrictlyIncreasing};
ghost use Rattle.ts_key.specs.declared.limits.TheConstants.{FAMILY_LIMIT};
ghost use Rattle.udt_disk.specs.Causes.{IsCause};
ghost use Rattle.udt_disk.specs.Joint.{Folder, IsFree};
ghost use Rattle.udt_disk.specs.Moments.{OnlyReads, holding};
ghost use Rattle.udt_disk.specs.declared.name.FileName.{FileName as NameOf};
ghost use Rattle.udt_disk.specs.declared.name.FileName.TheVariants.{Log};
ghost use Rattle.wal.specs.Replays.{IsReplayFault, ReadsAs, is_replay_disk_fault};
ghost use Rattle.wal.specs.Sequences.{IsInSequence, IsNumberedWithin};
ghost use Rattle.wal.specs.Wals.{wal_file, wal_pending, wal_sizes};
ghost use Rattle.manifest.specs.Folds.{sizes_of};
ghost use Rattle.manifest_fold.specs.Folds.{newest_log};
ghost use Rattle.recovery.specs.Fault.{is_open_disk_fault};
ghost use Rattle.recovery.specs.Looks.{Looks};
ghost use Rattle.recovery.specs.Replayed.{AreInLine, IsGathered, IsJudged, IsLogName, IsNewestLog, IsNewestOf, IsNextWithin, IsReplayed, RefusesLog, RefusesLogs, RefusesOldest, files_taken, is_last_ahead};

use crate::gathered::Gathered;
use crate::{NoMemory, OpenFault};
use manifest_fold::Folded;
use std::alloc::Global;
use ts_key::{STAMP_SIZE, Seq};
use udt_disk::{Disk, DiskFile, Failed, FileName};
use wal::{Numbered, ReplayFault, Sizes, Wal};

/// The size of the timestamps of each family.
fn family_sizes(alloc: Global, fold: &Folded) -> Result<Sizes, NoMemory>
    requires some { 1 ≤ length fold.now.families }
    requires few { length fold.now.families ≤ FAMILY_LIMIT }
    ensures { IfOk result (λ sizes. sizes ≡ sizes_of fold.now) }
{
    let sizes: Vec<u8> = fold
        .families
        .as_slice()
        .iter()
        .map(|_| STAMP_SIZE)
        .collect(alloc)?;
    Sizes::of(alloc, &sizes)
}

/// What is told of a live log, by why it wasn't replayed.
fn log_fault(fault: ReplayFault) -> OpenFault
    ensures refused { (sizes : List ℕ) (number : ℕ) (bytes : List ℕ) → IsReplayFault sizes number bytes fault → RefusesLog sizes (Some bytes) number result }
    ensures cause { is_open_disk_fault result ≡ is_replay_disk_fault fault }
{
    match fault {
        ReplayFault::BadLog { number, at } => OpenFault::BadLog { number, at },
        ReplayFault::DiskFault => OpenFault::DiskFault,
        ReplayFault::NoMemory => OpenFault::NoMemory,
    }
}

/// A live log, and its batches. Its file is given back where that fails.
pub(crate) fn open_log<D: Disk>(
    alloc: Global,
    disk: &mut D,
    fold: &Folded,
    number: u64,
) -> Result<(Wal<D::File>, Vec<Numbered>), OpenFault>
    requires some { 1 ≤ length fold.now.families }
    requires few { length fold.now.families ≤ FAMILY_LIMIT }
    ensures replayed { IfOk result (λ r. IsTrue (D.is_told disk.old) → IsReplayed D.Disk D.File.DiskFile disk.old (sizes_of fold.now) number r.0 r.1.items) }
    ensures within { IfOk result (λ r. All IsNumberedWithin r.1.items) }
    ensures sizes { IfOk result (λ r. wal_sizes r.0 ≡ sizes_of fold.now) }
    ensures pending { IfOk result (λ r. wal_pending r.0 ≡ 0) }
    ensures name { IfOk result (λ r. D.File.name (wal_file r.0) ≡ Log number) }
    ensures fresh { IfOk result (λ r. D.File.faults (wal_file r.0) ≡ 0) }
    ensures file_told { IfOk result (λ r. D.File.is_told (wal_file r.0) ≡ D.is_told disk.old) }
    ensures file_model { IfOk result (λ r. D.File.keeps_model (wal_file r.0) ≡ D.keeps_model disk.old) }
    ensures reads { (others : List D.File) → IsFree D.Disk D.File.DiskFile (holding disk.old others) (Log number)
        → OnlyReads D.Disk D.File.DiskFile (holding disk.old others) (holding disk.new (files_taken result ++ others)) }
    ensures told { D.is_told disk.new ≡ D.is_told disk.old }
    ensures refused { IfErr result (λ e. IsTrue (D.is_told disk.old) → RefusesLog (sizes_of fold.now) (D.stands disk.old (Log number)) number e) }
    ensures kept { OnOk result (D.faults disk.new ≡ D.faults disk.old) }
    ensures cause { IfErr result (λ fault. IsCause (is_open_disk_fault fault) (D.faults disk.old) (D.faults disk.new)) }
    ensures later { D.faults disk.old ≤ D.faults disk.new }
{
    let Ok(sizes) = family_sizes(alloc, fold) else {
        return Err(OpenFault::NoMemory);
    };
    let file = match disk.open_file(FileName::Log(number)) {
        Ok(Some(file)) => file,
        Ok(None) => return Err(OpenFault::BadLog { number, at: 0 }),
        Err(Failed) => return Err(OpenFault::DiskFault),
    };
    match Wal::replay(alloc, file, number, sizes) {
        Ok(replayed) => Ok(replayed),
        Err((file, fault)) => {
            disk.retire(file);
            Err(log_fault(fault))
        }
    }
}

/// The batches of a live log, whose file is given back.
fn read_log<D: Disk>(
    alloc: Global,
    disk: &mut D,
    fold: &Folded,
    number: u64,
) -> Result<Vec<Numbered>, OpenFault>
    requires some { 1 ≤ length fold.now.families }
    requires few { length fold.now.families ≤ FAMILY_LIMIT }
    ensures held { IfOk result (λ batches. IsTrue (D.is_told disk.old) → ReadsAs (sizes_of fold.now) batches.items (D.stands disk.old (Log number))) }
    ensures sequence { IfOk result (λ batches. IsTrue (D.is_told disk.old) → IsInSequence batches.items) }
    ensures within { IfOk result (λ batches. All IsNumberedWithin batches.items) }
    ensures looks { Looks D.Disk D.File.DiskFile (λ (n : NameOf). n ≡ Log number) disk.old disk.new }
    ensures refused { IfErr result (λ e. IsTrue (D.is_told disk.old) → RefusesLog (sizes_of fold.now) (D.stands disk.old (Log number)) number e) }
    ensures kept { OnOk result (D.faults disk.new ≡ D.faults disk.old) }
    ensures cause { IfErr result (λ fault. IsCause (is_open_disk_fault fault) (D.faults disk.old) (D.faults disk.new)) }
    ensures later { D.faults disk.old ≤ D.faults disk.new }
{
    let (wal, batches) = open_log(alloc, disk, fold, number)?;
    disk.retire(wal.into_file());
    Ok(batches)
}

/// What the oldest live logs say together. Their files are given back.
pub(crate) fn read_logs<D: Disk>(
    alloc: Global,
    disk: &mut D,
    fold: &Folded,
    oldest: &[u64],
) -> Result<Gathered, OpenFault>
    requires some { 1 ≤ length fold.now.families }
    requires few { length fold.now.families ≤ FAMILY_LIMIT }
    requires ascending { IsStrictlyIncreasing fold.now.logs }
    requires oldest { (rest : List ℕ) × (fold.now.logs ≡ oldest.now ++ rest) }
    ensures gathered { IfOk result (λ g. IsTrue (D.is_told disk.old) → IsGathered fold.now (D.stands disk.old) oldest.now g) }
    ensures within { IfOk result (λ g. IsNextWithin g.next) }
    ensures looks { Looks D.Disk D.File.DiskFile IsLogName disk.old disk.new }
    ensures refused { IfErr result (λ e. IsTrue (D.is_told disk.old) → RefusesOldest fold.now (D.stands disk.old) e) }
    ensures kept { OnOk result (D.faults disk.new ≡ D.faults disk.old) }
    ensures cause { IfErr result (λ fault. IsCause (is_open_disk_fault fault) (D.faults disk.old) (D.faults disk.new)) }
    ensures later { D.faults disk.old ≤ D.faults disk.new }
{
    let mut gathered = Gathered::new(alloc);
    for number in oldest {
        let batches = match read_log(alloc, disk, fold, *number) {
            Ok(batches) => batches,
            Err(fault) => return Err(fault),
        };
        gathered.add(fold.families.as_slice(), *number, &batches)?;
    }
    Ok(gathered)
}

/// Whether the manifest's last sequence is above that of the logs, where these have a batch.
fn is_ahead(last: Seq, next: Option<u64>) -> bool
    ensures { result ≡ is_last_ahead last.0 next }
{
    match next {
        None => false,
        Some(next) => next.saturating_sub(1) < last.0,
    }
}

/// Judges the live logs together, each of which was read.
fn judge(gathered: &Gathered, fold: &Folded, newest: u64) -> Result<(), OpenFault>
    ensures whole { OnOk result (gathered.now.gap ≡ None) }
    ensures behind { OnOk result (is_last_ahead fold.now.last.0 gathered.now.next ≡ false) }
    ensures refused { IfErr result (IsJudged fold.now.last.0 newest gathered.now) }
{
    if let Some(number) = gathered.gap {
        return Err(OpenFault::BadLog { number, at: 0 });
    }
    if is_ahead(fold.last, gathered.next) {
        return Err(OpenFault::BadLog {
            number: newest,
            at: 0,
        });
    }
    Ok(())
}

/// Adds what the newest live log says, and judges them all.
fn with_newest(
    gathered: Gathered,
    fold: &Folded,
    newest: u64,
    batches: &[Numbered],
) -> Result<Gathered, OpenFault>
    requires { All IsNumberedWithin batches.now }
    ensures line { IfOk result (λ g. (folder : Folder) (oldest : List ℕ) → IsNewestOf fold.now folder oldest newest batches.now gathered → AreInLine fold.now folder g) }
    ensures within { IsNextWithin gathered.next → IfOk result (λ g. IsNextWithin g.next) }
    ensures refused { IfErr result (λ e. (folder : Folder) (oldest : List ℕ) → IsNewestOf fold.now folder oldest newest batches.now gathered → RefusesLogs fold.now folder e) }
    ensures stops { IfErr result (λ e. is_open_disk_fault e ≡ false) }
{
    let mut gathered = gathered;
    gathered.add(fold.families.as_slice(), newest, batches)?;
    match judge(&gathered, fold, newest) {
        Ok(()) => Ok(gathered),
        Err(fault) => Err(fault),
    }
}

/// Opens the live logs of a fold, by ascending number: the newest, which is held, and what they all say. The first that isn't
/// in its grammar is told; where each is, the first that leaves a gap, and then the newest, where the manifest is ahead.
pub(crate) fn open_logs<D: Disk>(
    alloc: Global,
    disk: &mut D,
    fold: &Folded,
) -> Result<(Wal<D::File>, Gathered), OpenFault>
    requires some { 1 ≤ length fold.now.families }
    requires few { length fold.now.families ≤ FAMILY_LIMIT }
    requires logs { 1 ≤ length fold.now.logs }
    requires ascending { IsStrictlyIncreasing fold.now.logs }
    ensures line { IfOk result (λ r. IsTrue (D.is_told disk.old) → AreInLine fold.now (D.stands disk.old) r.1) }
    ensures within { IfOk result (λ r. IsNextWithin r.1.next) }
    ensures newest { IfOk result (λ r. IsTrue (D.is_told disk.old) → IsNewestLog D.Disk D.File.DiskFile disk.old fold.now r.0) }
    ensures sizes { IfOk result (λ r. wal_sizes r.0 ≡ sizes_of fold.now) }
    ensures pending { IfOk result (λ r. wal_pending r.0 ≡ 0) }
    ensures fresh { IfOk result (λ r. D.File.faults (wal_file r.0) ≡ 0) }
    ensures file_told { IfOk result (λ r. D.File.is_told (wal_file r.0) ≡ D.is_told disk.old) }
    ensures file_model { IfOk result (λ r. D.File.keeps_model (wal_file r.0) ≡ D.keeps_model disk.old) }
    ensures name { IfOk result (λ r. D.File.name (wal_file r.0) ≡ Log (newest_log fold.now.logs)) }
    ensures reads { (others : List D.File) → ((n : NameOf) → IsLogName n → IsFree D.Disk D.File.DiskFile (holding disk.old others) n)
        → OnlyReads D.Disk D.File.DiskFile (holding disk.old others) (holding disk.new (files_taken result ++ others)) }
    ensures refused { IfErr result (λ e. IsTrue (D.is_told disk.old) → RefusesLogs fold.now (D.stands disk.old) e) }
    ensures kept { OnOk result (D.faults disk.new ≡ D.faults disk.old) }
    ensures cause { IfErr result (λ fault. IsCause (is_open_disk_fault fault) (D.faults disk.old) (D.faults disk.new)) }
    ensures later { D.faults disk.old ≤ D.faults disk.new }
{
    let Some((newest, oldest)) = fold.logs.as_slice().split_last() else {
        unreachable!()
    };
    let gathered = match read_logs(alloc, disk, fold, oldest) {
        Ok(gathered) => gathered,
        Err(fault) => return Err(fault),
    };
    let (wal, batches) = match open_log(alloc, disk, fold, *newest) {
        Ok(opened) => opened,
        Err(fault) => return Err(fault),
    };
    match with_newest(gathered, fold, *newest, &batches) {
        Ok(gathered) => Ok((wal, gathered)),
        Err(fault) => {
            disk.retire(wal.into_file());
            Err(fault)
        }
    }
}

//! The manifest of a folder: how it is made and read.

ghost use Rattle.std.specs.Prelude.{◌≡◌, ◌⊎◌, ◌∷◌, ◌++◌, ◌≤◌, [], ℕ, List, map, None, Some, IfOk, IfErr, IfSome, OnOk, OnErr, IsTrue};
ghost use Rattle.udt_disk.specs.Causes.{HasCause, IsCause};
ghost use Rattle.udt_disk.specs.Crash.{Image, Only};
ghost use Rattle.udt_disk.specs.Joint.{Folder, LeavesNow, Ran};
ghost use Rattle.udt_disk.specs.Moments.{OnlyReads, alone, holding};
ghost use Rattle.udt_disk.specs.Runs.{IsOnlyRead, IsSameFile, file_after};
ghost use Rattle.udt_disk.specs.Touches.{Touches};
ghost use Rattle.udt_disk.specs.declared.name.FileName.{FileName as NameOf};
ghost use Rattle.udt_disk.specs.declared.name.FileName.TheVariants.{Manifest0, Manifest1, Current, Made};
ghost use Rattle.gate_log.specs.Faults.{is_log_disk_fault, is_frames_disk_fault};
ghost use Rattle.gate_log.specs.Frames.{IsBody, framed};
ghost use Rattle.gate_log.specs.GateLog.{IsAtRest, IsLogOf, log_file};
ghost use Rattle.gate_log.specs.Reads.{body_of};
ghost use Rattle.gate_log.specs.Outcomes.{IsFramesFault};
ghost use Rattle.head_manifest.specs.Answers.{IsRefusal, IsFoldFault, is_manifest_disk_fault};
ghost use Rattle.head_manifest.specs.Files.{HasFold};
ghost use Rattle.head_manifest.specs.Folders.{chosen_by};
ghost use Rattle.head_manifest.specs.Folds.{IsManifest, IsUsable};
ghost use Rattle.head_manifest.specs.Making.{emptied, IsUnmade};

use crate::fold::fold_frames;
use crate::folder::{chosen, is_there, make_empty};
use crate::head::write_head;
use crate::{Folded, Head, ManifestFault};
use gate_log::{Frame, FramesFault, GateLog, LogFault};
use std::alloc::Global;
use udt_disk::{Disk, DiskFile, Failed, FileName};

/// The manifest of a folder, in a file that it holds.
pub struct Manifest<F: DiskFile> {
    log: GateLog<F>,
}

impl<F: DiskFile> Manifest<F> {
    ghost use Rattle.std.specs.Prelude.{IsErrOf};
    ghost use Rattle.head_manifest.specs.Folds.{fold_of};
    ghost use Rattle.head_manifest.specs.Folders.{Meaning, Means, chosen as chosen_in, told_by};
    ghost use Rattle.head_manifest.specs.Folders.Meaning.{no_store, store};
    ghost use Rattle.head_manifest.specs.Heads.{AreNew};
    ghost use Rattle.head_manifest.specs.Making.{IsEarlyName, IsStoreName, IsReadName, IsUnmade, IsNoneOrAll, IsMade};
    ghost use Rattle.head_manifest.specs.Manifest.{manifest_file, files_made, files_read, Shows, Rests};

    /// Makes a store of these families in a folder that has none, and holds its manifest. `MADE` comes last, once the head is on
    /// the disk, so a folder in which this was stopped has no store, or all of it. Where memory runs out `MADE` isn't made.
    pub fn create<D: Disk<File = F>>(
        alloc: Global,
        disk: &mut D,
        head: &Head,
    ) -> Result<Manifest<F>, LogFault>
        requires { AreNew head.now.families }
        ensures made { IfOk result (λ m. IsTrue (D.is_told disk.old) → IsMade D.Disk F.DiskFile disk.old disk.new m head.now.families) }
        ensures fresh { IfOk result (λ m. F.faults (manifest_file m) ≡ 0) }
        ensures file_told { IfOk result (λ m. F.is_told (manifest_file m) ≡ D.is_told disk.old) }
        ensures file_model { IfOk result (λ m. F.keeps_model (manifest_file m) ≡ D.keeps_model disk.old) }

        // A crash at any moment leaves no store or all of it, and after `Ok` all of it.
        ensures moments { IsUnmade D.Disk disk.old → Ran D.Disk F.DiskFile (IsNoneOrAll D.Disk disk.old head.now.families) (alone disk.old) (holding disk.new (files_made result)) }
        ensures durable { IsUnmade D.Disk disk.old → OnOk result (LeavesNow D.Disk F.DiskFile (λ (folder : Folder). Means folder (store (fold_of head.now.families))) (holding disk.new (files_made result))) }

        ensures stopped { OnErr result (IsTrue (D.is_told disk.old) → D.stands disk.old Made ≡ None
            → Means (D.stands disk.new) no_store ⊎ Means (D.stands disk.new) (store (fold_of head.now.families))) }
        ensures no_memory { IsErrOf result LogFault.NoMemory → Touches D.Disk IsEarlyName disk.old disk.new }
        ensures unmade { IsErrOf result LogFault.NoMemory → IsUnmade D.Disk disk.old → IsUnmade D.Disk disk.new }
        ensures touches { Touches D.Disk IsStoreName disk.old disk.new }
        ensures kept { OnOk result (D.faults disk.new ≡ D.faults disk.old) }
        ensures cause { IfErr result (λ fault. IsCause (is_log_disk_fault fault) (D.faults disk.old) (D.faults disk.new)) }
    {
        let Ok(body) = write_head(alloc, head.families.as_slice()) else {
            return Err(LogFault::NoMemory);
        };
        match empty_current(disk) {
            Ok(()) => {}
            Err(Failed) => return Err(LogFault::DiskFault),
        }
        let log = make_log(alloc, disk, &body)?;
        match make_empty(disk, FileName::Made) {
            Ok(()) => Ok(Manifest { log }),
            Err(Failed) => {
                disk.retire(log.into_file());
                Err(LogFault::DiskFault)
            }
        }
    }

    /// The manifest of a folder and its fold, or None where there is no store. `BadManifest` comes exactly where the chosen
    /// manifest is outside the grammar, at its first frame that is; 0 where it is missing, empty or has no frame.
    pub fn read<D: Disk<File = F>>(
        alloc: Global,
        disk: &mut D,
    ) -> Result<Option<(Manifest<F>, Folded)>, ManifestFault>
        // It tells what the folder means, and nothing else.
        ensures means { IsTrue (D.is_told disk.old) → IfSome (told_by result) (Means (D.stands disk.old)) }
        ensures only { IsTrue (D.is_told disk.old) → (m : Meaning) → Means (D.stands disk.old) m → IfSome (told_by result) (λ told. told ≡ m) }

        // The manifest that it gives.
        ensures shows { IfOk result (λ o. IfSome o (λ r. IsTrue (D.is_told disk.old) → Shows F.DiskFile r.0 r.1)) }
        ensures rests { IfOk result (λ o. IfSome o (λ r. IsTrue (D.is_told disk.old)
            → ((c : Image) → D.may_leave disk.old (chosen_in (D.stands disk.old)) c → c ≡ D.stands disk.old (chosen_in (D.stands disk.old))) → Rests F.DiskFile r.0 r.1)) }
        ensures usable { IfOk result (λ o. IfSome o (λ r. (number : ℕ) × IsUsable r.1 number)) }
        ensures name { IfOk result (λ o. IfSome o (λ r. IsTrue (D.is_told disk.old) → F.name (manifest_file r.0) ≡ chosen_in (D.stands disk.old))) }
        ensures either { IfOk result (λ o. IfSome o (λ r. (F.name (manifest_file r.0) ≡ Manifest0) ⊎ (F.name (manifest_file r.0) ≡ Manifest1))) }
        ensures fresh { IfOk result (λ o. IfSome o (λ r. F.faults (manifest_file r.0) ≡ 0)) }
        ensures file_told { IfOk result (λ o. IfSome o (λ r. F.is_told (manifest_file r.0) ≡ D.is_told disk.old)) }
        ensures file_model { IfOk result (λ o. IfSome o (λ r. F.keeps_model (manifest_file r.0) ≡ D.keeps_model disk.old)) }

        ensures reads { OnlyReads D.Disk F.DiskFile (alone disk.old) (holding disk.new (files_read result)) }
        ensures touches { Touches D.Disk IsReadName disk.old disk.new }
        ensures kept { OnOk result (D.faults disk.new ≡ D.faults disk.old) }
        ensures cause { IfErr result (λ fault. IsCause (is_manifest_disk_fault fault) (D.faults disk.old) (D.faults disk.new)) }
        ensures later { D.faults disk.old ≤ D.faults disk.new }
    {
        if !is_there(disk, FileName::Made)? {
            return Ok(None);
        }
        let name = chosen(disk)?;
        let Some(file) = disk.open_file(name)? else {
            return Err(ManifestFault::BadManifest { at: 0 });
        };
        match read_log(alloc, file) {
            Ok((log, fold)) => Ok(Some((Manifest { log }, fold))),
            Err((file, fault)) => {
                disk.retire(file);
                Err(fault)
            }
        }
    }

    /// The file that it holds.
    pub fn into_file(self) -> F
        ensures { result ≡ manifest_file self }
    {
        let Manifest { log } = self;
        log.into_file()
    }
}

/// Empties `CURRENT`, where it is there, so that it chooses `MANIFEST-0`.
#[tactic(auto, using(crate::proofs::Files::emptied_some, crate::proofs::Files::emptied_none))]
fn empty_current<D: Disk>(disk: &mut D) -> Result<(), Failed>
    ensures emptied { OnOk result (IsTrue (D.is_told disk.old) → D.stands disk.new Current ≡ emptied (D.stands disk.old Current)) }
    ensures chooses { OnOk result (IsTrue (D.is_told disk.old) → chosen_by (D.stands disk.new Current) ≡ Manifest0) }
    ensures durable { OnOk result (IsTrue (D.is_told disk.old) → (D.stands disk.old Current ≡ None → (c : Image) → D.may_leave disk.old Current c → c ≡ None)
        → (c : Image) → D.may_leave disk.new Current c → chosen_by c ≡ Manifest0) }
    ensures unmade { OnOk result (IsUnmade D.Disk disk.old → IsUnmade D.Disk disk.new) }
    ensures touches { Touches D.Disk (λ (n : NameOf). n ≡ Current) disk.old disk.new }
    ensures cause { HasCause (D.faults disk.old) (D.faults disk.new) result }
{
    if is_there(disk, FileName::Current)? {
        make_empty(disk, FileName::Current)
    } else {
        Ok(())
    }
}

/// A log of this one frame in a file that was just made, on the disk. The file is handed back where that fails.
fn first_frame<F: DiskFile>(
    alloc: Global,
    file: F,
    body: &[u8],
) -> Result<GateLog<F>, (F, LogFault)>
    requires size { IsBody body.now }
    requires empty { IsTrue (F.is_told file) → F.seen file ≡ [] }
    ensures at_rest { IfOk result (λ log. IsTrue (F.is_told file) → IsAtRest F.DiskFile log (body.now ∷ [])) }
    ensures written { IfOk result (λ log. IsTrue (F.is_told file) → F.seen (log_file log) ≡ framed (body.now ∷ []) ++ 90 ∷ []) }
    ensures same { IsSameFile F.DiskFile file (file_after log_file result) }
    ensures kept { IfOk result (λ log. F.faults (log_file log) ≡ F.faults file) }
    ensures cause { IfErr result (λ e. IsCause (is_log_disk_fault e.1) (F.faults file) (F.faults e.0)) }
{
    let mut log = GateLog::create(alloc, file)?;
    match log.reserve(body.len()) {
        Ok(()) => {}
        Err(_) => return Err((log.into_file(), LogFault::NoMemory)),
    }
    match log.append(body) {
        Ok(()) => Ok(log),
        Err(Failed) => Err((log.into_file(), LogFault::DiskFault)),
    }
}

/// Makes `MANIFEST-0` as a log of this one frame, on the disk. Its file is given back where that fails.
fn make_log<D: Disk>(alloc: Global, disk: &mut D, body: &[u8]) -> Result<GateLog<D::File>, LogFault>
    requires { IsBody body.now }
    ensures at_rest { IfOk result (λ log. IsTrue (D.is_told disk.old) → IsAtRest D.File.DiskFile log (body.now ∷ [])) }
    ensures written { IfOk result (λ log. IsTrue (D.is_told disk.old) → D.File.seen (log_file log) ≡ framed (body.now ∷ []) ++ 90 ∷ []) }
    ensures name { IfOk result (λ log. D.File.name (log_file log) ≡ Manifest0) }
    ensures fresh { IfOk result (λ log. D.File.faults (log_file log) ≡ 0) }
    ensures file_told { IfOk result (λ log. D.File.is_told (log_file log) ≡ D.is_told disk.old) }
    ensures file_model { IfOk result (λ log. D.File.keeps_model (log_file log) ≡ D.keeps_model disk.old) }
    ensures touches { Touches D.Disk (λ (n : NameOf). n ≡ Manifest0) disk.old disk.new }
    ensures kept { OnOk result (D.faults disk.new ≡ D.faults disk.old) }
    ensures cause { IfErr result (λ fault. IsCause (is_log_disk_fault fault) (D.faults disk.old) (D.faults disk.new)) }
{
    let Ok(file) = disk.create(FileName::Manifest0) else {
        return Err(LogFault::DiskFault);
    };
    match first_frame(alloc, file, body) {
        Ok(log) => Ok(log),
        Err((file, fault)) => {
            disk.retire(file);
            Err(fault)
        }
    }
}

/// The log of a file, and the fold of its frames. The file is only read, and handed back where that fails.
fn read_log<F: DiskFile>(alloc: Global, file: F) -> Result<(GateLog<F>, Folded), (F, ManifestFault)>
    ensures shows { IfOk result (λ r. IsTrue (F.is_told file) → (bodies : List (List ℕ)) × IsLogOf F.DiskFile r.0 bodies × IsManifest bodies r.1) }
    ensures usable { IfOk result (λ r. (number : ℕ) × IsUsable r.1 number) }
    ensures at_rest { IfOk result (λ r. IsTrue (F.is_told file) → Only (F.seen file) (F.may_leave file) → (bodies : List (List ℕ)) × IsAtRest F.DiskFile r.0 bodies × IsManifest bodies r.1) }
    ensures refused { IfErr result (λ e. IsTrue (F.is_told file) → IsRefusal (Some (F.seen file)) e.1) }
    ensures same { IsOnlyRead F.DiskFile file (file_after (λ r. log_file r.0) result) }
    ensures kept { IfOk result (λ r. F.faults (log_file r.0) ≡ F.faults file) }
    ensures cause { IfErr result (λ e. IsCause (is_manifest_disk_fault e.1) (F.faults file) (F.faults e.0)) }
{
    match GateLog::of(alloc, file) {
        Ok((log, frames)) => match fold_log(alloc, &frames) {
            Ok(fold) => Ok((log, fold)),
            Err(fault) => Err((log.into_file(), fault)),
        },
        Err((file, fault)) => Err((file, refusal(alloc, fault))),
    }
}

/// The fold of the frames of a whole log.
fn fold_log(alloc: Global, frames: &[Frame]) -> Result<Folded, ManifestFault>
    ensures folds { IfOk result (IsManifest (map body_of frames.now)) }
    ensures refused { IfErr result (IsFoldFault frames.now) }
{
    match fold_frames(alloc, frames)? {
        Some(fold) => Ok(fold),
        None => Err(ManifestFault::BadManifest { at: 0 }),
    }
}

/// Why the manifest is refused where its file isn't a whole log. A frame that is outside the grammar stands before the place
/// where the log is torn.
fn refusal(alloc: Global, fault: FramesFault) -> ManifestFault
    ensures refusal { (bytes : List ℕ) → IsFramesFault fault bytes → IsRefusal (Some bytes) result }
    ensures cause { is_manifest_disk_fault result ≡ is_frames_disk_fault fault }
{
    match fault {
        FramesFault::BadFrame { at, before } => match fold_frames(alloc, &before) {
            Ok(_) => ManifestFault::BadManifest { at },
            Err(fault) => fault,
        },
        FramesFault::DiskFault => ManifestFault::DiskFault,
        FramesFault::NoMemory => ManifestFault::NoMemory,
    }
}

//! The manifest of a folder: how it is made and read.

ghost use Rattle.std.specs.Prelude.{◌≡◌, ◌⊎◌, ◌∷◌, ◌++◌, ◌≤◌, [], ℕ, List, map, None, Some, IfOk, IfErr, IfSome, OnOk, OnErr, IsTrue};
ghost use Rattle.udt_disk.specs.Causes.{HasCause, IsCause};
ghost use Rattle.udt_disk.specs.Crash.{Image, Only};
ghost use Rattle.udt_disk.specs.Joint.{Folder, LeavesNow, Ran};
ghost use Rattle.udt_disk.specs.Moments.{OnlyReads, alone, holding};
ghost use Rattle.udt_disk.specs.Runs.{IsOnlyRead, IsSameFile, Leaves, file_after};
ghost use Rattle.udt_disk.specs.Touches.{Touches};
ghost use Rattle.udt_disk.specs.declared.name.FileName.{FileName as NameOf};
ghost use Rattle.udt_disk.specs.declared.name.FileName.TheVariants.{Manifest0, Manifest1, Current, Made};
ghost use Rattle.gate_log.specs.Faults.{is_log_disk_fault, is_frames_disk_fault};
ghost use Rattle.gate_log.specs.Frames.{IsBody, framed, with_frame};
ghost use Rattle.gate_log.specs.GateLog.{IsAtRest, IsLogOf, log_file};
ghost use Rattle.gate_log.specs.Reads.{body_of};
ghost use Rattle.gate_log.specs.Outcomes.{IsFramesFault};
ghost use Rattle.manifest_edit.specs.Edits.{edit_text};
ghost use Rattle.manifest_fold.specs.Folds.{IsAccepted, fold_with};
ghost use Rattle.manifest.specs.Answers.{IsRefusal, IsFoldFault, is_manifest_disk_fault};
ghost use Rattle.manifest.specs.Files.{IsEditImage};
ghost use Rattle.manifest.specs.Folders.{IsManifestName, chosen_by};
ghost use Rattle.manifest.specs.Folds.{IsManifest, IsManifestFold};
ghost use Rattle.manifest.specs.Making.{emptied, IsUnmade};
ghost use Rattle.manifest.specs.Manifest.{manifest_file, manifest_folded, ShowsFold, FoldRests};

use crate::fold::{fold_frames, new_fold};
use crate::folder::{chosen, is_there, make_empty};
use crate::head::write_head;
use crate::{Head, ManifestFault, NoMemory};
use edit_log::EditLog;
use gate_log::{Frame, FramesFault, GateLog, LogFault};
use manifest_edit::Edit;
use manifest_fold::Folded;
use std::alloc::Global;
use udt_disk::{Disk, DiskFile, Failed, FileName};

/// The manifest of a folder, in a file that it holds, and its fold. After an `append` that answered `Failed` it only allows
/// `into_file`.
pub struct Manifest<F: DiskFile> {
    edits: EditLog<F>,
}

impl<F: DiskFile> Manifest<F> {
    ghost use Rattle.std.specs.Prelude.{IsErrOf};
    ghost use Rattle.manifest.specs.Folds.{fold_of};
    ghost use Rattle.manifest.specs.Folders.{Meaning, Means, chosen as chosen_in};
    ghost use Rattle.manifest.specs.Folders.Meaning.{no_store, store};
    ghost use Rattle.manifest.specs.Heads.{AreNew};
    ghost use Rattle.manifest.specs.Making.{IsEarlyName, IsStoreName, IsReadName, IsUnmade, IsNoneOrAll, IsMade};
    ghost use Rattle.manifest.specs.Manifest.{manifest_end, files_made, files_read, told_by, IsManifestReady, IsEditReserved};

    /// Makes a store of these families in a folder that has none, and holds its manifest. `MADE` comes last, once the head is on
    /// the disk, so a folder in which this was stopped has no store, or all of it. Where memory runs out `MADE` isn't made.
    pub fn create<D: Disk<File = F>>(
        alloc: Global,
        disk: &mut D,
        head: &Head,
    ) -> Result<Manifest<F>, LogFault>
        requires { AreNew head.now.families }
        ensures made { IfOk result (λ m. IsTrue (D.is_told disk.old) → IsMade D.Disk F.DiskFile disk.old disk.new m head.now.families) }
        ensures ready { IfOk result (λ m. IsManifestReady F.DiskFile m) }
        ensures fresh { IfOk result (λ m. F.faults (manifest_file m) ≡ 0) }
        ensures file_told { IfOk result (λ m. F.is_told (manifest_file m) ≡ D.is_told disk.old) }
        ensures file_model { IfOk result (λ m. F.keeps_model (manifest_file m) ≡ D.keeps_model disk.old) }

        // A crash at any moment leaves no store or all of it, and after `Ok` all of it.
        ensures moments { IsUnmade D.Disk disk.old → Ran D.Disk F.DiskFile (IsNoneOrAll D.Disk disk.old head.now.families) (alone disk.old) (holding disk.new (files_made result)) }
        ensures durable { IsUnmade D.Disk disk.old → OnOk result (LeavesNow D.Disk F.DiskFile (λ (folder : Folder). Means folder (store (fold_of head.now.families))) (holding disk.new (files_made result))) }

        ensures stopped { OnErr result (IsTrue (D.is_told disk.old) → D.stands disk.old Made ≡ None
            → Means (D.stands disk.new) no_store ⊎ Means (D.stands disk.new) (store (fold_of head.now.families))) }
        ensures no_memory { IsErrOf result LogFault.NoMemory → Touches D.Disk IsEarlyName disk.old disk.new }
        ensures unmade { IsErrOf result LogFault.NoMemory → IsUnmade D.Disk disk.old → IsUnmade D.Disk disk.new }
        ensures touches { Touches D.Disk IsStoreName disk.old disk.new }
        ensures kept { OnOk result (D.faults disk.new ≡ D.faults disk.old) }
        ensures cause { IfErr result (λ fault. IsCause (is_log_disk_fault fault) (D.faults disk.old) (D.faults disk.new)) }
    {
        let Ok(body) = write_head(alloc, head.families.as_slice()) else {
            return Err(LogFault::NoMemory);
        };
        let Ok(fold) = new_fold(alloc, head.families.as_slice()) else {
            return Err(LogFault::NoMemory);
        };
        match empty_current(disk) {
            Ok(()) => {}
            Err(Failed) => return Err(LogFault::DiskFault),
        }
        let log = make_log(alloc, disk, &body)?;
        match make_empty(disk, FileName::Made) {
            Ok(()) => Ok(manifest_of(log, fold)),
            Err(Failed) => {
                disk.retire(log.into_file());
                Err(LogFault::DiskFault)
            }
        }
    }

    /// The manifest of a folder, or None where there is no store. `BadManifest` comes exactly where the chosen manifest is
    /// outside the grammar, at its first frame that is: one that isn't whole, no head, no edit, or an edit that the fold of
    /// those before it doesn't accept; 0 where it is missing, empty or has no frame.
    pub fn read<D: Disk<File = F>>(
        alloc: Global,
        disk: &mut D,
    ) -> Result<Option<Manifest<F>>, ManifestFault>
        // It tells what the folder means, and nothing else.
        ensures means { IsTrue (D.is_told disk.old) → IfSome (told_by result) (Means (D.stands disk.old)) }
        ensures only { IsTrue (D.is_told disk.old) → (m : Meaning) → Means (D.stands disk.old) m → IfSome (told_by result) (λ told. told ≡ m) }

        // The manifest that it gives.
        ensures shows { IfOk result (λ o. IfSome o (λ m. IsTrue (D.is_told disk.old) → ShowsFold F.DiskFile m)) }
        ensures rests { IfOk result (λ o. IfSome o (λ m. IsTrue (D.is_told disk.old)
            → ((c : Image) → D.may_leave disk.old (chosen_in (D.stands disk.old)) c → c ≡ D.stands disk.old (chosen_in (D.stands disk.old))) → FoldRests F.DiskFile m)) }
        ensures folds { IfOk result (λ o. IfSome o (λ m. IsManifestFold (manifest_folded m))) }
        ensures ready { IfOk result (λ o. IfSome o (λ m. IsManifestReady F.DiskFile m)) }
        ensures name { IfOk result (λ o. IfSome o (λ m. IsTrue (D.is_told disk.old) → F.name (manifest_file m) ≡ chosen_in (D.stands disk.old))) }
        ensures either { IfOk result (λ o. IfSome o (λ m. IsManifestName (F.name (manifest_file m)))) }
        ensures fresh { IfOk result (λ o. IfSome o (λ m. F.faults (manifest_file m) ≡ 0)) }
        ensures file_told { IfOk result (λ o. IfSome o (λ m. F.is_told (manifest_file m) ≡ D.is_told disk.old)) }
        ensures file_model { IfOk result (λ o. IfSome o (λ m. F.keeps_model (manifest_file m) ≡ D.keeps_model disk.old)) }

        ensures reads { OnlyReads D.Disk F.DiskFile (alone disk.old) (holding disk.new (files_read result)) }
        ensures touches { Touches D.Disk IsReadName disk.old disk.new }
        ensures kept { OnOk result (D.faults disk.new ≡ D.faults disk.old) }
        ensures cause { IfErr result (λ fault. IsCause (is_manifest_disk_fault fault) (D.faults disk.old) (D.faults disk.new)) }
        ensures later { D.faults disk.old ≤ D.faults disk.new }
    {
        if !is_there(disk, FileName::Made)? {
            return Ok(None);
        }
        let name = chosen(disk)?;
        let Some(file) = disk.open_file(name)? else {
            return Err(ManifestFault::BadManifest { at: 0 });
        };
        match read_log(alloc, file) {
            Ok(manifest) => Ok(Some(manifest)),
            Err((file, fault)) => {
                disk.retire(file);
                Err(fault)
            }
        }
    }

    /// What its frames add up to. Its `accepts` tells which edits may be added.
    pub fn fold(&self) -> &Folded
        ensures { result.now ≡ manifest_folded self.now }
    {
        self.edits.fold()
    }

    /// Makes ready for an edit, so that the `append` of that edit takes no memory. No memory is found also where the edit's
    /// body is past `FRAME_LIMIT`. It makes no call on the file. It costs time linear in the fold and in the edit.
    pub fn reserve(&mut self, alloc: Global, edit: &Edit) -> Result<(), NoMemory>
        ensures reserved { OnOk result (IsEditReserved F.DiskFile self.new edit.now) }
        ensures file { manifest_file self.new ≡ manifest_file self.old }
        ensures end { manifest_end self.new ≡ manifest_end self.old }
        ensures fold { manifest_folded self.new ≡ manifest_folded self.old }
        ensures shows { ShowsFold F.DiskFile self.old → ShowsFold F.DiskFile self.new }
        ensures rests { FoldRests F.DiskFile self.old → FoldRests F.DiskFile self.new }
        ensures ready { IsManifestReady F.DiskFile self.old → IsManifestReady F.DiskFile self.new }
    {
        self.edits.reserve(alloc, edit)
    }

    /// Adds an edit that the fold accepts and that was reserved last. After `Ok` it is on the disk. A crash at any moment of the
    /// call leaves the manifest from before it, or with the edit. It takes no memory.
    pub fn append(&mut self, edit: &Edit) -> Result<(), Failed>
        requires accepted { IsAccepted (manifest_folded self.old) edit.now }
        requires reserved { IsEditReserved F.DiskFile self.old edit.now }
        requires ready { IsManifestReady F.DiskFile self.old }

        ensures appended { ShowsFold F.DiskFile self.old → OnOk result (FoldRests F.DiskFile self.new) }
        ensures fold { OnOk result (manifest_folded self.new ≡ fold_with (manifest_folded self.old) edit.now) }
        ensures still_ready { OnOk result (IsManifestReady F.DiskFile self.new) }
        ensures moments { FoldRests F.DiskFile self.old
            → Leaves F.DiskFile (manifest_file self.old) (manifest_file self.new) (IsEditImage (manifest_folded self.old) edit.now) }
        ensures written { OnOk result (IsTrue (F.is_told (manifest_file self.old))
            → F.seen (manifest_file self.new) ≡ with_frame (F.seen (manifest_file self.old)) (manifest_end self.old) (edit_text edit.now)) }
        ensures unchanged { OnErr result (manifest_folded self.new ≡ manifest_folded self.old) }
        ensures cause { HasCause (F.faults (manifest_file self.old)) (F.faults (manifest_file self.new)) result }
        ensures same { IsSameFile F.DiskFile (manifest_file self.old) (manifest_file self.new) }
    {
        self.edits.append(edit)
    }

    /// The file that it holds.
    pub fn into_file(self) -> F
        ensures { result ≡ manifest_file self }
    {
        let Manifest { edits } = self;
        edits.into_file()
    }
}

/// The manifest in a log whose frames mean this fold.
fn manifest_of<F: DiskFile>(log: GateLog<F>, fold: Folded) -> Manifest<F>
    ensures file { manifest_file result ≡ log_file log }
    ensures fold { manifest_folded result ≡ fold }
    ensures shows { (bodies : List (List ℕ)) → IsLogOf F.DiskFile log bodies → IsManifest bodies fold → ShowsFold F.DiskFile result }
    ensures rests { (bodies : List (List ℕ)) → IsAtRest F.DiskFile log bodies → IsManifest bodies fold → FoldRests F.DiskFile result }
{
    Manifest {
        edits: EditLog::of(log, fold),
    }
}

/// Empties `CURRENT`, where it is there, so that it chooses `MANIFEST-0`.
#[tactic(auto, using(crate::proofs::Files::emptied_some, crate::proofs::Files::emptied_none))]
fn empty_current<D: Disk>(disk: &mut D) -> Result<(), Failed>
    ensures emptied { OnOk result (IsTrue (D.is_told disk.old) → D.stands disk.new Current ≡ emptied (D.stands disk.old Current)) }
    ensures chooses { OnOk result (IsTrue (D.is_told disk.old) → chosen_by (D.stands disk.new Current) ≡ Manifest0) }
    ensures durable { OnOk result (IsTrue (D.is_told disk.old) → (D.stands disk.old Current ≡ None → (c : Image) → D.may_leave disk.old Current c → c ≡ None)
        → (c : Image) → D.may_leave disk.new Current c → chosen_by c ≡ Manifest0) }
    ensures unmade { OnOk result (IsUnmade D.Disk disk.old → IsUnmade D.Disk disk.new) }
    ensures touches { Touches D.Disk (λ (n : NameOf). n ≡ Current) disk.old disk.new }
    ensures cause { HasCause (D.faults disk.old) (D.faults disk.new) result }
{
    if is_there(disk, FileName::Current)? {
        make_empty(disk, FileName::Current)
    } else {
        Ok(())
    }
}

/// A log of this one frame in a file that was just made, on the disk. The file is handed back where that fails.
fn first_frame<F: DiskFile>(
    alloc: Global,
    file: F,
    body: &[u8],
) -> Result<GateLog<F>, (F, LogFault)>
    requires size { IsBody body.now }
    requires empty { IsTrue (F.is_told file) → F.seen file ≡ [] }
    ensures at_rest { IfOk result (λ log. IsTrue (F.is_told file) → IsAtRest F.DiskFile log (body.now ∷ [])) }
    ensures written { IfOk result (λ log. IsTrue (F.is_told file) → F.seen (log_file log) ≡ framed (body.now ∷ []) ++ 90 ∷ []) }
    ensures same { IsSameFile F.DiskFile file (file_after log_file result) }
    ensures kept { IfOk result (λ log. F.faults (log_file log) ≡ F.faults file) }
    ensures cause { IfErr result (λ e. IsCause (is_log_disk_fault e.1) (F.faults file) (F.faults e.0)) }
{
    let mut log = GateLog::create(alloc, file)?;
    match log.reserve(body.len()) {
        Ok(()) => {}
        Err(_) => return Err((log.into_file(), LogFault::NoMemory)),
    }
    match log.append(body) {
        Ok(()) => Ok(log),
        Err(Failed) => Err((log.into_file(), LogFault::DiskFault)),
    }
}

/// Makes `MANIFEST-0` as a log of this one frame, on the disk. Its file is given back where that fails.
fn make_log<D: Disk>(alloc: Global, disk: &mut D, body: &[u8]) -> Result<GateLog<D::File>, LogFault>
    requires { IsBody body.now }
    ensures at_rest { IfOk result (λ log. IsTrue (D.is_told disk.old) → IsAtRest D.File.DiskFile log (body.now ∷ [])) }
    ensures written { IfOk result (λ log. IsTrue (D.is_told disk.old) → D.File.seen (log_file log) ≡ framed (body.now ∷ []) ++ 90 ∷ []) }
    ensures name { IfOk result (λ log. D.File.name (log_file log) ≡ Manifest0) }
    ensures fresh { IfOk result (λ log. D.File.faults (log_file log) ≡ 0) }
    ensures file_told { IfOk result (λ log. D.File.is_told (log_file log) ≡ D.is_told disk.old) }
    ensures file_model { IfOk result (λ log. D.File.keeps_model (log_file log) ≡ D.keeps_model disk.old) }
    ensures touches { Touches D.Disk (λ (n : NameOf). n ≡ Manifest0) disk.old disk.new }
    ensures kept { OnOk result (D.faults disk.new ≡ D.faults disk.old) }
    ensures cause { IfErr result (λ fault. IsCause (is_log_disk_fault fault) (D.faults disk.old) (D.faults disk.new)) }
{
    let Ok(file) = disk.create(FileName::Manifest0) else {
        return Err(LogFault::DiskFault);
    };
    match first_frame(alloc, file, body) {
        Ok(log) => Ok(log),
        Err((file, fault)) => {
            disk.retire(file);
            Err(fault)
        }
    }
}

/// The manifest in a file. The file is only read, and handed back where that fails.
fn read_log<F: DiskFile>(alloc: Global, file: F) -> Result<Manifest<F>, (F, ManifestFault)>
    ensures folds { IfOk result (λ m. IsManifestFold (manifest_folded m)) }
    ensures shows { IfOk result (λ m. IsTrue (F.is_told file) → ShowsFold F.DiskFile m) }
    ensures rests { IfOk result (λ m. IsTrue (F.is_told file) → Only (F.seen file) (F.may_leave file) → FoldRests F.DiskFile m) }
    ensures refused { IfErr result (λ e. IsTrue (F.is_told file) → IsRefusal (Some (F.seen file)) e.1) }
    ensures same { IsOnlyRead F.DiskFile file (file_after manifest_file result) }
    ensures kept { IfOk result (λ m. F.faults (manifest_file m) ≡ F.faults file) }
    ensures cause { IfErr result (λ e. IsCause (is_manifest_disk_fault e.1) (F.faults file) (F.faults e.0)) }
{
    match GateLog::of(alloc, file) {
        Ok((log, frames)) => match fold_log(alloc, &frames) {
            Ok(fold) => Ok(manifest_of(log, fold)),
            Err(fault) => Err((log.into_file(), fault)),
        },
        Err((file, fault)) => Err((file, refusal(alloc, fault))),
    }
}

/// The fold of the frames of a whole log.
fn fold_log(alloc: Global, frames: &[Frame]) -> Result<Folded, ManifestFault>
    ensures folds { IfOk result (IsManifest (map body_of frames.now)) }
    ensures refused { IfErr result (IsFoldFault frames.now) }
{
    match fold_frames(alloc, frames)? {
        Some(fold) => Ok(fold),
        None => Err(ManifestFault::BadManifest { at: 0 }),
    }
}

/// Why the manifest is refused where its file isn't a whole log. A frame that is outside the grammar stands before the place
/// where the log is torn.
fn refusal(alloc: Global, fault: FramesFault) -> ManifestFault
    ensures refusal { (bytes : List ℕ) → IsFramesFault fault bytes → IsRefusal (Some bytes) result }
    ensures cause { is_manifest_disk_fault result ≡ is_frames_disk_fault fault }
{
    match fault {
        FramesFault::BadFrame { at, before } => match fold_frames(alloc, &before) {
            Ok(_) => ManifestFault::BadManifest { at },
            Err(fault) => fault,
        },
        FramesFault::DiskFault => ManifestFault::DiskFault,
        FramesFault::NoMemory => ManifestFault::NoMemory,
    }
}

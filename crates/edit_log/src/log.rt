//! A log of edits with its fold, to which an edit is added.

ghost use Rattle.std.specs.Prelude.{◌≡◌, ◌⊎◌, ℕ, List, ◌∷◌, map, IfOk, OnOk, OnErr, IsTrue};
ghost use Rattle.udt_disk.specs.Causes.{HasCause};
ghost use Rattle.udt_disk.specs.Crash.{Image};
ghost use Rattle.udt_disk.specs.Runs.{Leaves, IsSameFile, file_after};
ghost use Rattle.gate_log.specs.Frames.{with_frame};
ghost use Rattle.gate_log.specs.GateLog.{log_file, IsLogOf, IsAtRest};
ghost use Rattle.gate_log.specs.Reads.{body_of};
ghost use Rattle.manifest_edit.specs.Edits.{edit_text};
ghost use Rattle.manifest_fold.specs.Folds.{IsAccepted, fold_with};
ghost use Rattle.manifest_fold.specs.Bodies.{LeadAll};
ghost use Rattle.manifest_fold.specs.declared.fold.Folded.{Folded as Fold};
ghost use Rattle.edit_log.specs.Logs.{HasEdits};
ghost use Rattle.edit_log.specs.Replays.{FoldsEdits};

use crate::replay::fold_edits;
use crate::{EditsFault, NoMemory};
use gate_log::{FRAME_LIMIT, Frame, GateLog};
use manifest_edit::{Edit, write_edit};
use manifest_fold::{FamilyFold, Folded};
use std::alloc::{AllocError, Global};
use udt_disk::{DiskFile, Failed};
use udt_model::Items;

/// What the next edit leads to, and its body.
#[derive(Drop)]
struct Prepared {
    body: Vec<u8>,
    families: Items<FamilyFold>,
    logs: Items<u64>,
}

/// A log in a file that it holds, whose frames behind the first are edits, and what they add up to. After an `append` that
/// answered `Failed` it only allows `into_file`.
pub struct EditLog<F: DiskFile> {
    log: GateLog<F>,
    fold: Folded,
    next: Option<Prepared>,
}

impl<F: DiskFile> EditLog<F> {
    ghost use Rattle.edit_log.specs.Logs.{edit_file, edit_end, edit_fold, fold_read, IsReserved, IsEditLogReady, ShowsEdits, EditsRest};

    /// The log whose frames add up to this fold. It takes no memory.
    pub fn of(log: GateLog<F>, fold: Folded) -> EditLog<F>
        ensures file { edit_file result ≡ log_file log }
        ensures fold { edit_fold result ≡ fold }
        ensures shows { (head : List ℕ) (start : Fold) (bodies : List (List ℕ)) → IsLogOf F.DiskFile log (head ∷ bodies) → LeadAll start bodies fold → ShowsEdits F.DiskFile result head start }
        ensures rests { (head : List ℕ) (start : Fold) (bodies : List (List ℕ)) → IsAtRest F.DiskFile log (head ∷ bodies) → LeadAll start bodies fold → EditsRest F.DiskFile result head start }
    {
        EditLog {
            log,
            fold,
            next: None,
        }
    }

    /// The log whose first frame stands for the fold `start`, and whose later frames are these. It is refused, and its file handed
    /// back, as `fold_edits` refuses the frames.
    pub fn read(
        alloc: Global,
        log: GateLog<F>,
        start: Folded,
        frames: &[Frame],
    ) -> Result<EditLog<F>, (F, EditsFault)>
        ensures folds { FoldsEdits start frames.now (fold_read result) }
        ensures file { file_after edit_file result ≡ log_file log }
        ensures shows { IfOk result (λ edits. (head : List ℕ) → IsLogOf F.DiskFile log (head ∷ map body_of frames.now) → ShowsEdits F.DiskFile edits head start) }
        ensures rests { IfOk result (λ edits. (head : List ℕ) → IsAtRest F.DiskFile log (head ∷ map body_of frames.now) → EditsRest F.DiskFile edits head start) }
    {
        match fold_edits(alloc, start, frames) {
            Ok(fold) => Ok(EditLog::of(log, fold)),
            Err(fault) => Err((log.into_file(), fault)),
        }
    }

    /// What its edits add up to. Its `accepts` tells which edits may be added.
    pub fn fold(&self) -> &Folded
        ensures { result.now ≡ edit_fold self.now }
    {
        &self.fold
    }

    /// Makes ready for an edit, so that the `append` of that edit takes no memory. No memory is found also where the edit's
    /// body is past `FRAME_LIMIT`. It makes no call on the file. It costs time linear in the fold and in the edit.
    pub fn reserve(&mut self, alloc: Global, edit: &Edit) -> Result<(), NoMemory>
        ensures reserved { OnOk result (IsReserved F.DiskFile self.new edit.now) }
        ensures file { edit_file self.new ≡ edit_file self.old }
        ensures end { edit_end self.new ≡ edit_end self.old }
        ensures fold { edit_fold self.new ≡ edit_fold self.old }
        ensures shows { (head : List ℕ) (start : Fold) → ShowsEdits F.DiskFile self.old head start → ShowsEdits F.DiskFile self.new head start }
        ensures rests { (head : List ℕ) (start : Fold) → EditsRest F.DiskFile self.old head start → EditsRest F.DiskFile self.new head start }
        ensures ready { IsEditLogReady F.DiskFile self.old → IsEditLogReady F.DiskFile self.new }
    {
        let body = write_edit(alloc, edit)?;
        if body.len() > FRAME_LIMIT {
            return Err(AllocError);
        }
        let next = self.fold.copy(alloc)?.with(edit)?;
        self.log.reserve(body.len())?;
        self.next = Some(Prepared {
            body,
            families: next.families,
            logs: next.logs,
        });
        Ok(())
    }

    /// Adds an edit that the fold accepts and that was reserved last. After `Ok` it is on the disk. A crash at any moment of the
    /// call leaves the edits from before it, with the new one or without. It takes no memory.
    pub fn append(&mut self, edit: &Edit) -> Result<(), Failed>
        requires accepted { IsAccepted (edit_fold self.old) edit.now }
        requires reserved { IsReserved F.DiskFile self.old edit.now }
        requires ready { IsEditLogReady F.DiskFile self.old }

        ensures appended { (head : List ℕ) (start : Fold) → ShowsEdits F.DiskFile self.old head start → OnOk result (EditsRest F.DiskFile self.new head start) }
        ensures fold { OnOk result (edit_fold self.new ≡ fold_with (edit_fold self.old) edit.now) }
        ensures still_ready { OnOk result (IsEditLogReady F.DiskFile self.new) }
        ensures moments { (head : List ℕ) (start : Fold) → EditsRest F.DiskFile self.old head start
            → Leaves F.DiskFile (edit_file self.old) (edit_file self.new) (λ (image : Image). HasEdits head start image (edit_fold self.old) ⊎ HasEdits head start image (fold_with (edit_fold self.old) edit.now)) }
        ensures written { OnOk result (IsTrue (F.is_told (edit_file self.old))
            → F.seen (edit_file self.new) ≡ with_frame (F.seen (edit_file self.old)) (edit_end self.old) (edit_text edit.now)) }
        ensures unchanged { OnErr result (edit_fold self.new ≡ edit_fold self.old) }
        ensures cause { HasCause (F.faults (edit_file self.old)) (F.faults (edit_file self.new)) result }
        ensures same { IsSameFile F.DiskFile (edit_file self.old) (edit_file self.new) }
    {
        let Some(next) = self.next.take() else {
            unreachable!()
        };
        self.log.append(&next.body)?;
        self.fold = Folded {
            families: next.families,
            logs: next.logs,
            next_file: edit.next_file,
            last: edit.last,
        };
        Ok(())
    }

    /// The file that it holds.
    pub fn into_file(self) -> F
        ensures { result ≡ edit_file self }
    {
        let EditLog {
            log,
            fold: _,
            next: _,
        } = self;
        log.into_file()
    }
}

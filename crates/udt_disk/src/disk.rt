//! The trait of folders.

ghost use Rattle.std.specs.Prelude.{◌≡◌, ◌≢◌, ◌⊎◌, ◌≤◌, ℕ, [], Bool, List, Option, Some, None, IsTrue, IfOk, OnOk, OnErr, OnSome, IfSome, IfNone, MatchOption};
ghost use Rattle.udt_disk.specs.declared.name.FileName.{FileName as NameOf};
ghost use Rattle.udt_disk.specs.Causes.{HasCause, plus_faults};
ghost use Rattle.udt_disk.specs.Crash.{Image, NoMore, Created};
ghost use Rattle.udt_disk.specs.Folder.{OthersStay, FolderElapses, Every, opened};

use crate::{DiskFile, Failed, FileName};

/// A folder of files.
///
/// It has a model of crashes, which it keeps or doesn't, and no call changes that. A created file may be missing until its
/// first sync that answers `Ok`, and an emptied one may hold any bytes until then. A removed file may come back until the
/// folder is opened again. Files are independent of one another.
pub trait Disk: Send {
    type File: DiskFile;

    /// How often it has failed, with the faults of the files that were given back. The count ends at 2^64 - 1.
    ghost faults: { Self → ℕ };

    /// It tells what stands under its names. A folder of the operating system doesn't.
    ghost is_told: { Self → Bool };

    /// What stands under a name, where it is told. It means nothing for a name whose file is held.
    ghost stands: { Self → NameOf → Image };

    /// It keeps the model of crashes.
    ghost keeps_model: { Self → Bool };

    /// What a crash at this moment may leave under a name, unless its file is held. A disk that doesn't keep the model
    /// names nothing.
    ghost may_leave: { Self → NameOf → Image → Type 0 };

    /// The moment, as a number that doesn't fall. It rises at least where a file is given back.
    ghost moment: { Self → ℕ };

    /// What a crash at some moment from that one on might have left under a name, unless its file was held then.
    ghost left_since: { Self → ℕ → NameOf → Image → Type 0 };

    /// Makes an empty file of the name, or empties the one of that name. Where it fails, the file may have been made.
    fn create(&mut self, name: FileName) -> Result<Self::File, Failed>
        ensures name { IfOk result (λ f. Self.File.name f ≡ name) }
        ensures empty { IfOk result (λ f. IsTrue (is_told self.old) → Self.File.seen f ≡ []) }
        ensures crash { IfOk result (λ f. (c : Image) → Self.File.may_leave f c → Created (may_leave self.old name) c) }
        ensures fresh { IfOk result (λ f. Self.File.faults f ≡ 0) }
        ensures file_told { IfOk result (λ f. Self.File.is_told f ≡ is_told self.old) }
        ensures file_model { IfOk result (λ f. Self.File.keeps_model f ≡ keeps_model self.old) }
        // The file is held now, so the disk knows nothing of what a crash leaves of it.
        ensures out { OnOk result (IsTrue (keeps_model self.old) → (c : Image) → may_leave self.new name c) }

        ensures failed { OnErr result (IsTrue (is_told self.old) → (stands self.new name ≡ stands self.old name) ⊎ (stands self.new name ≡ Some [])) }
        ensures failed_crash { OnErr result ((c : Image) → may_leave self.new name c → may_leave self.old name c ⊎ Created (may_leave self.old name) c) }
        ensures others { OthersStay name (stands self.old) (stands self.new) (may_leave self.old) (may_leave self.new) }
        ensures time { FolderElapses (λ (n : NameOf). OnOk result (n ≢ name)) (moment self.old) (moment self.new) (left_since self.old) (left_since self.new) (may_leave self.new) }
        ensures cause { HasCause (faults self.old) (faults self.new) result }
        ensures told { is_told self.new ≡ is_told self.old }
        ensures model { keeps_model self.new ≡ keeps_model self.old };

    /// Gives the file of the name; `None` exactly where there is none. That changes nothing but who holds the file.
    fn open_file(&mut self, name: FileName) -> Result<Option<Self::File>, Failed>
        ensures stood { IsTrue (is_told self.old) → IfOk result (λ o. MatchOption o (stands self.old name ≡ None) (λ f. stands self.old name ≡ Some (Self.File.seen f))) }
        ensures name { IfSome (opened result) (λ f. Self.File.name f ≡ name) }
        ensures crash { IfSome (opened result) (λ f. NoMore (may_leave self.old name) (Self.File.may_leave f)) }
        ensures fresh { IfSome (opened result) (λ f. Self.File.faults f ≡ 0) }
        ensures file_told { IfSome (opened result) (λ f. Self.File.is_told f ≡ is_told self.old) }
        ensures file_model { IfSome (opened result) (λ f. Self.File.keeps_model f ≡ keeps_model self.old) }
        ensures out { OnSome (opened result) (IsTrue (keeps_model self.old) → (c : Image) → may_leave self.new name c) }

        ensures stays { IfNone (opened result) (stands self.new name ≡ stands self.old name) }
        ensures stays_crash { IfNone (opened result) (NoMore (may_leave self.old name) (may_leave self.new name)) }
        ensures others { OthersStay name (stands self.old) (stands self.new) (may_leave self.old) (may_leave self.new) }
        ensures time { FolderElapses (λ (n : NameOf). OnSome (opened result) (n ≢ name)) (moment self.old) (moment self.new) (left_since self.old) (left_since self.new) (may_leave self.new) }
        ensures cause { HasCause (faults self.old) (faults self.new) result }
        ensures told { is_told self.new ≡ is_told self.old }
        ensures model { keeps_model self.new ≡ keeps_model self.old };

    /// Removes the file of the name, if there is one. Where it fails, the file may be gone. A removed file may come back
    /// after a crash, until the folder is opened again.
    fn remove(&mut self, name: FileName) -> Result<(), Failed>
        ensures gone { OnOk result (IsTrue (is_told self.old) → stands self.new name ≡ None) }
        ensures failed { OnErr result (IsTrue (is_told self.old) → (stands self.new name ≡ stands self.old name) ⊎ (stands self.new name ≡ None)) }
        ensures crash { (c : Image) → may_leave self.new name c → (c ≡ None) ⊎ may_leave self.old name c }
        ensures others { OthersStay name (stands self.old) (stands self.new) (may_leave self.old) (may_leave self.new) }
        ensures time { FolderElapses Every (moment self.old) (moment self.new) (left_since self.old) (left_since self.new) (may_leave self.new) }
        ensures cause { HasCause (faults self.old) (faults self.new) result }
        ensures told { is_told self.new ≡ is_told self.old }
        ensures model { keeps_model self.new ≡ keeps_model self.old };

    /// Takes a file back: its contents stand under its name, and its faults are added to the disk's. It never fails.
    fn retire(&mut self, file: Self::File)
        ensures stands { IsTrue (is_told self.old) → IsTrue (Self.File.is_told file) → stands self.new (Self.File.name file) ≡ Some (Self.File.seen file) }
        ensures crash { NoMore (Self.File.may_leave file) (may_leave self.new (Self.File.name file)) }
        ensures others { OthersStay (Self.File.name file) (stands self.old) (stands self.new) (may_leave self.old) (may_leave self.new) }
        ensures time { FolderElapses (λ (n : NameOf). n ≢ Self.File.name file) (moment self.old) (moment self.new) (left_since self.old) (left_since self.new) (may_leave self.new) }
        ensures faults { faults self.new ≡ plus_faults (faults self.old) (Self.File.faults file) }
        ensures later { faults self.old ≤ faults self.new }
        ensures told { is_told self.new ≡ is_told self.old }
        ensures model { keeps_model self.new ≡ keeps_model self.old };

    /// A disk that keeps the model tells what stands under its names.
    ghost model_tells: { (disk : Self) → IsTrue (keeps_model disk) → IsTrue (is_told disk) };

    /// What stands under a name now is one of the images that a crash may leave now.
    ghost now_stays: { (disk : Self) (n : NameOf) → IsTrue (keeps_model disk) → may_leave disk n (stands disk n) };

    /// This moment is one of those since an earlier one.
    ghost counts_now: { (disk : Self) (t : ℕ) (n : NameOf) (c : Image) → t ≤ moment disk → may_leave disk n c → left_since disk t n c };

    /// Since this moment there is no other.
    ghost only_now: { (disk : Self) (n : NameOf) (c : Image) → left_since disk (moment disk) n c → may_leave disk n c };
}

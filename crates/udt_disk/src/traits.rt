//! The traits of sources, sinks and hosts.

ghost use Rattle.std.specs.Prelude.{◌≡◌, ◌≤◌, ℕ, Bool, List, Option, Some, IsTrue, IsSome, IfNone, IfSome, OnSome, is_some};
ghost use Rattle.std.specs.Io.{ReadsAtMost};
ghost use Rattle.std.specs.Io.KnownBytes.{ReadConsumes, WriteAppends};
ghost use Rattle.udt_disk.specs.Causes.{HasCause, plus_faults};
ghost use Rattle.udt_disk.specs.Flows.{TakesSome};
ghost use Rattle.udt_disk.specs.Opens.{Standing, Opens, StaysBut};
ghost use Rattle.udt_disk.specs.OpensFolder.{Holding, MayStay, OpensFolder, KeepsFolders, KeepsFoldersBut, LeavesNoMore, LeavesNoMoreBut};
ghost use Rattle.udt_disk.specs.Folder.{opened};
ghost use Rattle.udt_disk.specs.Crash.{Image, NoMore};
ghost use Rattle.udt_disk.specs.declared.name.FileName.{FileName as NameOf};

use crate::{Disk, Text};

/// The outside failed. The count of faults of what answers this rose in the call.
#[derive(Clone, Copy, Debug, PartialEq, Eq)]
pub struct Failed;

/// Bytes that come in.
pub trait Source {
    /// The bytes that are left, where they are told.
    ghost left: { Self → Option (List ℕ) };

    /// How often it has failed. The count ends at 2^64 - 1.
    ghost faults: { Self → ℕ };

    /// Reads bytes to the front of `into`, and answers how many: 0 with room for one exactly at the end of the input.
    /// A read that fails takes nothing from the input.
    fn read(&mut self, into: &mut [u8]) -> Result<usize, Failed>
        ensures bound { ReadsAtMost result into.new }
        ensures bytes { ReadConsumes (left self.old) (left self.new) result into.new }
        ensures told { is_some (left self.new) ≡ is_some (left self.old) }
        ensures cause { HasCause (faults self.old) (faults self.new) result };
}

/// Bytes that go out.
pub trait Sink {
    /// The bytes that it has taken, where they are told.
    ghost taken: { Self → Option (List ℕ) };

    /// How often it has failed. The count ends at 2^64 - 1.
    ghost faults: { Self → ℕ };

    /// Takes bytes from the front of `piece`, and answers how many: at least one, where the piece has one.
    /// A write that fails takes none.
    fn write(&mut self, piece: &[u8]) -> Result<usize, Failed>
        ensures some { TakesSome result piece.now }
        ensures bytes { WriteAppends (taken self.old) (taken self.new) result piece.now }
        ensures told { is_some (taken self.new) ≡ is_some (taken self.old) }
        ensures cause { HasCause (faults self.old) (faults self.new) result };
}

/// What opens folders and sources by their paths.
pub trait Host {
    type Folder: Disk;

    type Input: Source;

    /// What source stands under a path, where it is told.
    ghost standing: { Self → List ℕ → Standing };

    /// What folder stands under a path, where it is told.
    ghost folder_at: { Self → List ℕ → Holding };

    /// What a crash at this moment may leave under the names of the folder that stands under a path. A host whose folders
    /// don't keep the model of crashes names nothing.
    ghost leaves_at: { Self → List ℕ → NameOf → Image → Type 0 };

    /// A folder was asked for by this path, so one can be put there.
    ghost has_place: { Self → List ℕ → Bool };

    /// Its folders keep the model of crashes.
    ghost keeps_model: { Self → Bool };

    /// How often it has failed, with the faults of what was given back to it. The count ends at 2^64 - 1.
    ghost faults: { Self → ℕ };

    /// Gives the folder that stands under the path, clean, or where there is none and `make` is true a new empty one. What
    /// it gives stands there no more. `None` comes exactly where there is none and `make` is false. All else stays.
    fn open_folder(&mut self, path: &Text, make: bool) -> Result<Option<Self::Folder>, Failed>
        ensures opens { OpensFolder (Self.Folder.is_told) (Self.Folder.faults) (Self.Folder.stands) (folder_at self.old) (folder_at self.new) path.now make result }
        // After a crash now its names would hold what they hold.
        ensures clean { IfSome (opened result) (λ d. (n : NameOf) (c : Image) → Self.Folder.may_leave d n c → c ≡ Self.Folder.stands d n) }
        ensures place { OnSome (opened result) (IsTrue (has_place self.new path.now)) }
        ensures folder_model { IfSome (opened result) (λ d. Self.Folder.keeps_model d ≡ keeps_model self.old) }
        ensures leaves { LeavesNoMoreBut path.now (leaves_at self.old) (leaves_at self.new) }
        ensures stays_crash { IfNone (opened result) (LeavesNoMore (leaves_at self.old) (leaves_at self.new)) }
        ensures sources { (p : List ℕ) → standing self.new p ≡ standing self.old p }
        ensures places { (p : List ℕ) → IsTrue (has_place self.old p) → IsTrue (has_place self.new p) }
        ensures model { keeps_model self.new ≡ keeps_model self.old }
        ensures cause { HasCause (faults self.old) (faults self.new) result };

    /// Puts a folder back under the path by which it was asked for, in the place of what stands there, and adds its faults
    /// to the host's.
    fn close_folder(&mut self, path: &Text, folder: Self::Folder)
        ensures stands { IsTrue (has_place self.old path.now) → IsTrue (Self.Folder.is_told folder) → IsSome (folder_at self.old path.now) → folder_at self.new path.now ≡ Some (Some (Self.Folder.stands folder)) }
        ensures crash { IsTrue (has_place self.old path.now) → (n : NameOf) → NoMore (Self.Folder.may_leave folder n) (leaves_at self.new path.now n) }
        ensures others { KeepsFoldersBut path.now (folder_at self.old) (folder_at self.new) }
        ensures leaves { LeavesNoMoreBut path.now (leaves_at self.old) (leaves_at self.new) }
        ensures sources { StaysBut path.now (standing self.old) (standing self.new) }
        ensures places { (p : List ℕ) → IsTrue (has_place self.old p) → IsTrue (has_place self.new p) }
        ensures model { keeps_model self.new ≡ keeps_model self.old }
        ensures faults { faults self.new ≡ plus_faults (faults self.old) (Self.Folder.faults folder) }
        ensures later { faults self.old ≤ faults self.new };

    /// Gives the source that stands under the path, which then stands there no more; `None` exactly where none stands
    /// there. What stands under other paths stays, and so does what stands under this one after `None` or `Failed`.
    fn open_source(&mut self, path: &Text) -> Result<Option<Self::Input>, Failed>
        ensures opens { Opens (Self.Input.left) (standing self.old) (standing self.new) path.now result }
        ensures folders { KeepsFolders (folder_at self.old) (folder_at self.new) }
        ensures leaves { LeavesNoMore (leaves_at self.old) (leaves_at self.new) }
        ensures places { (p : List ℕ) → IsTrue (has_place self.old p) → IsTrue (has_place self.new p) }
        ensures model { keeps_model self.new ≡ keeps_model self.old }
        ensures cause { HasCause (faults self.old) (faults self.new) result };

    /// Takes a source back, and adds its faults to the host's. It stands under no path by that.
    fn close_source(&mut self, input: Self::Input)
        ensures stays { (path : List ℕ) → standing self.new path ≡ standing self.old path }
        ensures folders { KeepsFolders (folder_at self.old) (folder_at self.new) }
        ensures leaves { LeavesNoMore (leaves_at self.old) (leaves_at self.new) }
        ensures places { (p : List ℕ) → IsTrue (has_place self.old p) → IsTrue (has_place self.new p) }
        ensures model { keeps_model self.new ≡ keeps_model self.old }
        ensures faults { faults self.new ≡ plus_faults (faults self.old) (Self.Input.faults input) }
        ensures later { faults self.old ≤ faults self.new };

    /// A host whose folders keep the model tells what folder stands under each path.
    ghost model_tells: { (host : Self) (path : List ℕ) → IsTrue (keeps_model host) → IsSome (folder_at host path) };

    /// What stands under the names of a folder now is one of the images that a crash may leave there now.
    ghost now_stays: { (host : Self) (path : List ℕ) → IsTrue (keeps_model host) → MayStay (folder_at host path) (leaves_at host path) };
}

//! Hosts in memory: what stands under their paths.

ghost use Rattle.std.specs.Prelude.{◌≡◌, ◌≢◌, ◌<◌, ◌≤◌, ℕ, List, Option, Some, None, IsTrue, IsSome, IfOk, IfNone, IfSome, MatchOption, OnOk, OnErr, OnSome, if◌then◌else◌, is_err, length, position, slice_index_or, slice_set};
ghost use Rattle.std.proofs.Common.{refl};
ghost use Rattle.udt_disk.specs.Causes.{HasCause, plus_faults};
ghost use Rattle.udt_disk.specs.Places.{has_path, stands_in, kind_in, source_of, folder_of, with_stands};
ghost use Rattle.udt_disk.specs.Hosting.{IsOpening, IsNewFolder};
ghost use Rattle.udt_disk.specs.declared.mem_host.Occupant.TheVariants.{Nothing, Source as ASource, Folder as AFolder};

use crate::{Disk, Failed, Host, MemDisk, MemSource, NoMemory, Text};
use std::alloc::Global;
use std::mem;

/// What stands under a path.
#[derive(Drop)]
pub(crate) enum Occupant {
    Nothing,
    Source(MemSource),
    Folder(MemDisk),
}

#[derive(Clone, Copy)]
pub(crate) enum Kind {
    Nothing,
    Source,
    Folder,
}

impl Occupant {
    fn kind(&self) -> Kind
        ensures { result ≡ kind_in self.now }
    {
        match self {
            Occupant::Nothing => Kind::Nothing,
            Occupant::Source(_) => Kind::Source,
            Occupant::Folder(_) => Kind::Folder,
        }
    }
}

/// A path of a host in memory, and what stands under it. A path stays once that is taken out.
#[derive(Drop)]
pub(crate) struct Place {
    path: Text,
    stands: Occupant,
}

/// A host over sources and folders in memory, by their paths.
#[derive(Drop)]
pub struct MemHost {
    alloc: Global,
    places: Vec<Place>,
    given_back: u64,
    starved: u64,
}

/// Which place has the path.
fn place_of(places: &[Place], path: &Text) -> Option<usize>
    ensures { result ≡ position (has_path path.now) places.now }
{
    let path = path.bytes();
    places.iter().position(|place| place.path.bytes() == path)
}

/// Puts what is to stand at a place there, and gives what stood there.
fn exchange(places: &mut Vec<Place>, i: usize, stands: Occupant) -> Occupant
    requires { i < length places.old.items }
    ensures old { (d : _) → result ≡ (slice_index_or places.old.items i d).stands }
    ensures new { (d : _) → places.new.items ≡ slice_set places.old.items i (with_stands (slice_index_or places.old.items i d) stands) }
{
    mem::replace(&mut places[i].stands, stands)
}

/// Puts what is to stand under a path there, in the place of what stood there.
fn put(places: &mut Vec<Place>, path: Text, stands: Occupant) -> Result<(), NoMemory>
    ensures put { OnOk result (stands_in places.new.items path ≡ stands) }
    ensures others { OnOk result ((other : List ℕ) → other ≢ path → stands_in places.new.items other ≡ stands_in places.old.items other) }
    ensures err { OnErr result (places.new.items ≡ places.old.items) }
{
    match place_of(places, &path) {
        Some(i) => {
            exchange(places, i, stands);
        }
        None => places.push(Place { path, stands })?,
    }
    Ok(())
}

/// Takes out what stands under a path.
fn take(places: &mut Vec<Place>, path: &Text) -> Occupant
    ensures taken { result ≡ stands_in places.old.items path.now }
    ensures gone { stands_in places.new.items path.now ≡ Nothing }
    ensures others { (other : List ℕ) → other ≢ path.now → stands_in places.new.items other ≡ stands_in places.old.items other }
    ensures places { (q : List ℕ) → position (has_path q) places.new.items ≡ position (has_path q) places.old.items }
{
    match place_of(places, path) {
        Some(i) => exchange(places, i, Occupant::Nothing),
        None => Occupant::Nothing,
    }
}

/// Makes a place of a path, if it has none.
fn make_place(alloc: Global, places: &mut Vec<Place>, path: &Text) -> Result<(), NoMemory>
    ensures place { OnOk result (IsSome (position (has_path path.now) places.new.items)) }
    ensures same { (q : List ℕ) → stands_in places.new.items q ≡ stands_in places.old.items q }
    ensures places { (q : List ℕ) → IsSome (position (has_path q) places.old.items) → IsSome (position (has_path q) places.new.items) }
{
    match place_of(places, path) {
        Some(_) => Ok(()),
        None => {
            let path = path.copy(alloc)?;
            places.push(Place {
                path,
                stands: Occupant::Nothing,
            })?;
            Ok(())
        }
    }
}

/// Puts a folder back under a path that has a place. A folder with no place is let go.
fn put_back(places: &mut Vec<Place>, path: &Text, folder: MemDisk)
    ensures put { IsSome (position (has_path path.now) places.old.items) → stands_in places.new.items path.now ≡ AFolder folder }
    ensures others { (other : List ℕ) → other ≢ path.now → stands_in places.new.items other ≡ stands_in places.old.items other }
    ensures places { (q : List ℕ) → position (has_path q) places.new.items ≡ position (has_path q) places.old.items }
{
    match place_of(places, path) {
        Some(i) => {
            exchange(places, i, Occupant::Folder(folder));
        }
        None => {}
    }
}

/// What stands under a path.
fn kind_at(places: &[Place], path: &Text) -> Kind
    ensures kind { result ≡ kind_in (stands_in places.now path.now) }
    ensures place { result ≡ Kind.Folder → IsSome (position (has_path path.now) places.now) }
{
    match place_of(places, path) {
        Some(i) => places[i].stands.kind(),
        None => Kind::Nothing,
    }
}

/// Takes the folder that stands under a path, clean.
fn take_folder(places: &mut Vec<Place>, path: &Text) -> Option<MemDisk>
    ensures taken { MatchOption result (folder_of (stands_in places.old.items path.now) ≡ None) (λ d. IfSome (folder_of (stands_in places.old.items path.now)) (IsOpening d)) }
    ensures gone { OnSome result (stands_in places.new.items path.now ≡ Nothing) }
    ensures others { (other : List ℕ) → other ≢ path.now → stands_in places.new.items other ≡ stands_in places.old.items other }
    ensures places { (q : List ℕ) → position (has_path q) places.new.items ≡ position (has_path q) places.old.items }
{
    match take(places, path) {
        Occupant::Folder(mut folder) => {
            folder.clean();
            Some(folder)
        }
        _ => None,
    }
}

/// A new folder to be put back under a path, which has a place from now on.
fn new_folder(alloc: Global, places: &mut Vec<Place>, path: &Text) -> Result<MemDisk, NoMemory>
    ensures empty { IfOk result IsNewFolder }
    ensures place { OnOk result (IsSome (position (has_path path.now) places.new.items)) }
    ensures same { (q : List ℕ) → stands_in places.new.items q ≡ stands_in places.old.items q }
    ensures places { (q : List ℕ) → IsSome (position (has_path q) places.old.items) → IsSome (position (has_path q) places.new.items) }
{
    make_place(alloc, places, path)?;
    MemDisk::new(alloc, Vec::new(alloc))
}

impl MemHost {
    ghost use Rattle.udt_disk.specs.Hosting.{source_at, folder_in, given_back_to, starved_in};

    /// A host with nothing under any path.
    pub fn new(alloc: Global) -> MemHost
        ensures no_source { (path : List ℕ) → source_at result path ≡ None }
        ensures no_folder { (path : List ℕ) → folder_in result path ≡ None }
        ensures given_back { given_back_to result ≡ 0 }
        ensures starved { starved_in result ≡ 0 }
    {
        MemHost {
            alloc,
            places: Vec::new(alloc),
            given_back: 0,
            starved: 0,
        }
    }

    /// Puts a source under a path, in the place of what stood there. Without memory for the path nothing changes.
    pub fn put_source(&mut self, path: Text, source: MemSource) -> Result<(), NoMemory>
        ensures put { OnOk result (source_at self.new path ≡ Some source) }
        ensures in_place { OnOk result (folder_in self.new path ≡ None) }
        ensures others { OnOk result ((other : List ℕ) → other ≢ path → source_at self.new other ≡ source_at self.old other) }
        ensures folders { OnOk result ((other : List ℕ) → other ≢ path → folder_in self.new other ≡ folder_in self.old other) }
        ensures given_back { given_back_to self.new ≡ given_back_to self.old }
        ensures starved { starved_in self.new ≡ starved_in self.old }
        ensures err { OnErr result ((other : List ℕ) → source_at self.new other ≡ source_at self.old other) }
        ensures err_folders { OnErr result ((other : List ℕ) → folder_in self.new other ≡ folder_in self.old other) }
    {
        put(&mut self.places, path, Occupant::Source(source))
    }

    /// Puts a folder under a path, in the place of what stood there. Without memory for the path nothing changes.
    pub fn put_folder(&mut self, path: Text, folder: MemDisk) -> Result<(), NoMemory>
        ensures put { OnOk result (folder_in self.new path ≡ Some folder) }
        ensures in_place { OnOk result (source_at self.new path ≡ None) }
        ensures others { OnOk result ((other : List ℕ) → other ≢ path → folder_in self.new other ≡ folder_in self.old other) }
        ensures sources { OnOk result ((other : List ℕ) → other ≢ path → source_at self.new other ≡ source_at self.old other) }
        ensures given_back { given_back_to self.new ≡ given_back_to self.old }
        ensures starved { starved_in self.new ≡ starved_in self.old }
        ensures err { OnErr result ((other : List ℕ) → folder_in self.new other ≡ folder_in self.old other) }
        ensures err_sources { OnErr result ((other : List ℕ) → source_at self.new other ≡ source_at self.old other) }
    {
        put(&mut self.places, path, Occupant::Folder(folder))
    }

    /// Takes out the folder that stands under a path, as it is.
    pub fn take_folder(&mut self, path: &Text) -> Option<MemDisk>
        ensures taken { result ≡ folder_in self.old path.now }
        ensures gone { folder_in self.new path.now ≡ None }
        ensures others { (other : List ℕ) → other ≢ path.now → folder_in self.new other ≡ folder_in self.old other }
        ensures sources { (other : List ℕ) → source_at self.new other ≡ source_at self.old other }
        ensures given_back { given_back_to self.new ≡ given_back_to self.old }
        ensures starved { starved_in self.new ≡ starved_in self.old }
    {
        match kind_at(&self.places, path) {
            Kind::Folder => match take(&mut self.places, path) {
                Occupant::Folder(folder) => Some(folder),
                _ => None,
            },
            _ => None,
        }
    }

    /// How many calls of the host found no memory. Those of `put_source` and `put_folder` don't count.
    pub fn starved(&self) -> u64
        ensures { result ≡ starved_in self.now }
    {
        self.starved
    }
}

impl Host for MemHost {
    ghost use Rattle.udt_disk.specs.Hosting.{source_at, folder_in, folder_stays, source_standing, folder_standing, folder_leaves, has_place, keeps_model, given_back_to, starved_in};
    ghost use Rattle.udt_disk.specs.Opens.{Opens, StaysBut};
    ghost use Rattle.udt_disk.specs.OpensFolder.{OpensFolder, KeepsFolders, KeepsFoldersBut, LeavesNoMore, LeavesNoMoreBut};
    ghost use Rattle.udt_disk.specs.Folder.{opened};
    ghost use Rattle.udt_disk.specs.Crash.{Image, NoMore};
    ghost use Rattle.udt_disk.specs.declared.name.FileName.{FileName as NameOf};

    type Folder = MemDisk;

    type Input = MemSource;

    ghost standing = { source_standing };

    ghost folder_at = { folder_standing };

    ghost leaves_at = { folder_leaves };

    ghost has_place = { has_place };

    ghost keeps_model = { keeps_model };

    ghost faults = { λ h. plus_faults h.given_back h.starved };

    ghost model_tells = { λ _ _ _. refl };

    ghost now_stays = { λ h path _. folder_stays (folder_in h path) };

    /// Fails only for want of memory, of which a folder that stands there needs none.
    fn open_folder(&mut self, path: &Text, make: bool) -> Result<Option<MemDisk>, Failed>
        ensures opens { OpensFolder (⟦<MemDisk as Disk>⟧.is_told) (⟦<MemDisk as Disk>⟧.faults) (⟦<MemDisk as Disk>⟧.stands) (folder_standing self.old) (folder_standing self.new) path.now make result }
        ensures clean { IfSome (opened result) (λ d. (n : NameOf) (c : Image) → ⟦<MemDisk as Disk>⟧.may_leave d n c → c ≡ ⟦<MemDisk as Disk>⟧.stands d n) }
        ensures place { OnSome (opened result) (IsTrue (has_place self.new path.now)) }
        ensures folder_model { IfSome (opened result) (λ d. ⟦<MemDisk as Disk>⟧.keeps_model d ≡ keeps_model self.old) }
        ensures leaves { LeavesNoMoreBut path.now (folder_leaves self.old) (folder_leaves self.new) }
        ensures stays_crash { IfNone (opened result) (LeavesNoMore (folder_leaves self.old) (folder_leaves self.new)) }
        ensures sources { (p : List ℕ) → source_standing self.new p ≡ source_standing self.old p }
        ensures places { (p : List ℕ) → IsTrue (has_place self.old p) → IsTrue (has_place self.new p) }
        ensures model { keeps_model self.new ≡ keeps_model self.old }
        ensures cause { HasCause (plus_faults (given_back_to self.old) (starved_in self.old)) (plus_faults (given_back_to self.new) (starved_in self.new)) result }

        ensures given_back { given_back_to self.new ≡ given_back_to self.old }
        ensures starved { starved_in self.new ≡ (if is_err result then plus_faults (starved_in self.old) 1 else starved_in self.old) }
    {
        match kind_at(&self.places, path) {
            Kind::Folder => Ok(take_folder(&mut self.places, path)),
            _ if !make => Ok(None),
            _ => match new_folder(self.alloc, &mut self.places, path) {
                Ok(folder) => Ok(Some(folder)),
                Err(_) => {
                    self.starved = self.starved.saturating_add(1);
                    Err(Failed)
                }
            },
        }
    }

    fn close_folder(&mut self, path: &Text, folder: MemDisk)
        ensures stands { IsTrue (has_place self.old path.now) → IsTrue (⟦<MemDisk as Disk>⟧.is_told folder) → IsSome (folder_standing self.old path.now) → folder_standing self.new path.now ≡ Some (Some (⟦<MemDisk as Disk>⟧.stands folder)) }
        ensures crash { IsTrue (has_place self.old path.now) → (n : NameOf) → NoMore (⟦<MemDisk as Disk>⟧.may_leave folder n) (folder_leaves self.new path.now n) }
        ensures others { KeepsFoldersBut path.now (folder_standing self.old) (folder_standing self.new) }
        ensures leaves { LeavesNoMoreBut path.now (folder_leaves self.old) (folder_leaves self.new) }
        ensures sources { StaysBut path.now (source_standing self.old) (source_standing self.new) }
        ensures places { (p : List ℕ) → IsTrue (has_place self.old p) → IsTrue (has_place self.new p) }
        ensures model { keeps_model self.new ≡ keeps_model self.old }
        ensures faults { plus_faults (given_back_to self.new) (starved_in self.new) ≡ plus_faults (plus_faults (given_back_to self.old) (starved_in self.old)) (⟦<MemDisk as Disk>⟧.faults folder) }
        ensures later { plus_faults (given_back_to self.old) (starved_in self.old) ≤ plus_faults (given_back_to self.new) (starved_in self.new) }

        ensures given_back { given_back_to self.new ≡ plus_faults (given_back_to self.old) (⟦<MemDisk as Disk>⟧.faults folder) }
        ensures starved { starved_in self.new ≡ starved_in self.old }
    {
        self.given_back = self.given_back.saturating_add(folder.faults());
        put_back(&mut self.places, path, folder);
    }

    /// Takes no memory, and never fails.
    fn open_source(&mut self, path: &Text) -> Result<Option<MemSource>, Failed>
        ensures opens { Opens (λ s. Some s.left) (source_standing self.old) (source_standing self.new) path.now result }
        ensures folders { KeepsFolders (folder_standing self.old) (folder_standing self.new) }
        ensures leaves { LeavesNoMore (folder_leaves self.old) (folder_leaves self.new) }
        ensures places { (p : List ℕ) → IsTrue (has_place self.old p) → IsTrue (has_place self.new p) }
        ensures model { keeps_model self.new ≡ keeps_model self.old }
        ensures cause { HasCause (plus_faults (given_back_to self.old) (starved_in self.old)) (plus_faults (given_back_to self.new) (starved_in self.new)) result }

        ensures source { result ≡ Ok (source_at self.old path.now) }
        ensures gone { source_at self.new path.now ≡ None }
        ensures others { (other : List ℕ) → other ≢ path.now → source_at self.new other ≡ source_at self.old other }
        ensures given_back { given_back_to self.new ≡ given_back_to self.old }
        ensures starved { starved_in self.new ≡ starved_in self.old }
    {
        match kind_at(&self.places, path) {
            Kind::Source => match take(&mut self.places, path) {
                Occupant::Source(source) => Ok(Some(source)),
                _ => Ok(None),
            },
            _ => Ok(None),
        }
    }

    fn close_source(&mut self, input: MemSource)
        ensures stays { (path : List ℕ) → source_standing self.new path ≡ source_standing self.old path }
        ensures folders { KeepsFolders (folder_standing self.old) (folder_standing self.new) }
        ensures leaves { LeavesNoMore (folder_leaves self.old) (folder_leaves self.new) }
        ensures places { (p : List ℕ) → IsTrue (has_place self.old p) → IsTrue (has_place self.new p) }
        ensures model { keeps_model self.new ≡ keeps_model self.old }
        ensures faults { plus_faults (given_back_to self.new) (starved_in self.new) ≡ plus_faults (plus_faults (given_back_to self.old) (starved_in self.old)) input.faults }
        ensures later { plus_faults (given_back_to self.old) (starved_in self.old) ≤ plus_faults (given_back_to self.new) (starved_in self.new) }

        ensures all { (path : List ℕ) → source_at self.new path ≡ source_at self.old path }
        ensures given_back { given_back_to self.new ≡ plus_faults (given_back_to self.old) input.faults }
        ensures starved { starved_in self.new ≡ starved_in self.old }
    {
        self.given_back = self.given_back.saturating_add(input.faults());
    }
}

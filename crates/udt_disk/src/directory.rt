//! The names of a folder in memory, with what stands under each and what a crash may leave there.

ghost use Rattle.std.specs.Prelude.{◌≡◌, ◌≢◌, ◌<◌, ◌≤◌, ℕ, ◌+◌, if◌then◌else◌, Option, Some, None, IfSome, IfNone, IfOk};
ghost use Rattle.udt_disk.specs.declared.name.FileName.{FileName as NameOf};
ghost use Rattle.udt_disk.specs.declared.tree.Place.TheVariants.{Home, Out};
ghost use Rattle.udt_disk.specs.Tree.{entry_named, place_in_entry, early};
ghost use Rattle.udt_disk.specs.Files.{place_stands, bytes_of, LeavesBirth};
ghost use Rattle.udt_disk.specs.Crashed.{emptied_by};
ghost use Rattle.udt_disk.specs.Late.{late_long, late_since};

use crate::mem_file::FileData;
use crate::tree::{Birth, Entry, Fork, Place, Tree};
use crate::{FileName, NoMemory};
use std::alloc::Global;
use std::mem;

/// The names under which files were given back once their count stood at its end, the last one first.
#[derive(Drop)]
pub(crate) enum Late {
    Never,
    After(FileName, Box<Late>),
}

/// The files of a folder by their names, and how many were given back to it.
#[derive(Drop)]
pub(crate) struct Directory {
    pub(crate) tree: Tree,
    pub(crate) returns: u64,
    /// Those that `returns` can't count, so that each file that is given back makes a new moment.
    pub(crate) late: Late,
    pub(crate) ghost counted: { (n : NameOf) → early (entry_named tree n) ≤ returns },
}

/// The room in which a file is given back, so that this takes no memory.
#[derive(Drop)]
pub(crate) struct Room {
    fork: Box<Fork>,
    late: Box<Late>,
}

/// Room for one name more.
pub(crate) fn new_fork(alloc: Global) -> Result<Box<Fork>, NoMemory> {
    let fork = Fork {
        entry: Entry::new(FileName::Made),
        even: Tree::Empty,
        odd: Tree::Empty,
    };
    Ok(Box::new(alloc, fork)?)
}

impl Room {
    pub(crate) fn new(alloc: Global) -> Result<Room, NoMemory> {
        Ok(Room {
            fork: new_fork(alloc)?,
            late: Box::new(alloc, Late::Never)?,
        })
    }
}

impl Directory {
    ghost use Rattle.udt_disk.specs.Directory.{Put, Moved, Removed, Same, Made, NameLeaves, comes_back, place_named};
    ghost use Rattle.udt_disk.specs.AfterCrash.{IsReopened};

    pub(crate) fn new() -> Directory
        ensures places { (n : NameOf) → place_named result n ≡ None }
        ensures back { (n : NameOf) → comes_back result n ≡ None }
    {
        Directory {
            tree: Tree::Empty,
            returns: 0,
            late: Late::Never,
        }
    }

    /// The bytes that stand under a name.
    pub(crate) fn contents(&self, name: FileName) -> Option<&[u8]>
        ensures { bytes_of result ≡ place_stands (place_named self.now name) }
    {
        match &self.tree.entry(name)?.place {
            Place::Home(file) => Some(&file.bytes),
            _ => None,
        }
    }

    /// What a file may be after a crash that is created now under a name.
    pub(crate) fn birth(&self, name: FileName) -> Birth
        ensures leaves { LeavesBirth result.may_miss result.may_differ (NameLeaves self.now name) }
        ensures emptied { result.emptied ≡ emptied_by (place_named self.now name) }
    {
        match self.tree.entry(name) {
            Some(entry) => entry.place.birth(),
            None => Birth {
                may_miss: true,
                may_differ: false,
                emptied: 0,
            },
        }
    }

    /// Notes that somebody holds a new file of the name.
    pub(crate) fn create(&mut self, name: FileName, room: Box<Fork>)
        ensures { Made name self.old self.new }
    {
        let entry = self.tree.take(name).create();
        self.tree.put(entry, room);
    }

    /// Takes the file of a name out, if it is there.
    pub(crate) fn take_out(&mut self, name: FileName) -> Option<FileData>
        ensures taken { IfSome result (λ f. (place_named self.old name ≡ Some (Home f)) × Moved name Out self.old self.new) }
        ensures missing { IfNone result (place_stands (place_named self.old name) ≡ None) }
        ensures same { IfNone result (Same self.old self.new) }
        ensures back { (n : NameOf) → comes_back self.new n ≡ comes_back self.old n }
    {
        let (entry, file) = self.tree.exchange(Entry::new(name))?.take_out();
        self.tree.exchange(entry);
        file
    }

    /// Removes the file of a name, which may come back.
    pub(crate) fn remove(&mut self, name: FileName)
        ensures removed { Removed name self.old self.new }
        ensures back { (n : NameOf) → comes_back self.new n ≡ comes_back self.old n }
    {
        if let Some(entry) = self.tree.exchange(Entry::new(name)) {
            self.tree.exchange(entry.remove());
        }
    }

    /// Puts a file back under a name, in the room that is given.
    pub(crate) fn put_back(&mut self, name: FileName, file: FileData, room: Room)
        ensures put { Put name (Home file) self.old self.new }
        ensures back { comes_back self.new name ≡ (if file.was_synced then None else comes_back self.old name) }
        ensures back_others { (n : NameOf) → n ≢ name → comes_back self.new n ≡ comes_back self.old n }
    {
        let Room { fork, late } = room;
        let since = count_return(&mut self.returns, &mut self.late, name, late);
        let entry = self.tree.take(name).give_back(file, since);
        self.tree.put(entry, fork);
    }

    /// Makes what stands now last, as if all of it had been synced, in a folder of which nobody holds a file.
    pub(crate) fn clean(&mut self)
        ensures { IsReopened self.old self.new }
    {
        self.tree.clean();
    }
}

/// Counts a file that is given back under a name, and gives the count as far as it goes.
fn count_return(returns: &mut u64, late: &mut Late, name: FileName, mut room: Box<Late>) -> u64
    ensures later { returns.old + late_long late.old < returns.new + late_long late.new }
    ensures returns { returns.old ≤ returns.new }
    ensures result { result ≡ returns.new }
    ensures put { late_since late.new returns.new result name ≡ returns.new + late_long late.new }
    ensures others { (n : NameOf) (first : ℕ) → n ≢ name → late_since late.new returns.new first n ≡ late_since late.old returns.old first n }
{
    match late {
        Late::Never if *returns < u64::MAX => *returns += 1,
        _ => {
            let before = mem::replace(late, Late::Never);
            *room = before;
            *late = Late::After(name, room);
        }
    }
    *returns
}

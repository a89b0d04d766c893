//! The entries of a folder in memory, by their names.

ghost use Rattle.std.specs.Prelude.{◌≡◌, ◌≢◌, ℕ, if◌then◌else◌, Some, None, IfSome, option_map};
ghost use Rattle.udt_disk.specs.declared.name.FileName.{FileName as NameOf};
ghost use Rattle.udt_disk.specs.Tree.{entry_from, entry_named, early, lent, Changed};
ghost use Rattle.udt_disk.specs.Files.{PlaceLeaves, LeavesBirth, place_stands, without_home, removed, file_at};
ghost use Rattle.udt_disk.specs.Crashed.{IsCleanPlace, IsCleaned, emptied_by, image_before, synced_before, file_crash, place_crash, entry_crash};
ghost use Rattle.udt_disk.specs.declared.tree.Place.TheVariants.{Home, Out, Missing};
ghost use Rattle.udt_disk.specs.declared.outcome.Outcome.TheVariants.{Lost};

use crate::FileName;
use crate::mem_file::FileData;
use std::mem;

/// Where the file of a name is.
#[derive(Drop)]
pub(crate) enum Place {
    Home(FileData),
    /// Somebody holds it.
    Out,
    /// It was removed, and may come back after a crash.
    Gone(FileData),
    /// There is none, and none comes back.
    Missing,
}

/// A name of a folder that was asked for, or whose file was given back.
#[derive(Drop)]
pub(crate) struct Entry {
    pub(crate) name: FileName,
    pub(crate) place: Place,
    /// What stood under the name before its file was made, and stands there again where that file is lost.
    pub(crate) before: Option<FileData>,
    /// When its file was last given back: the folder's count of such calls. 0 where none was.
    pub(crate) since: u64,
}

/// The entries of a folder, one for each name. Below the first fork the lowest bit of a name's number says which way to go,
/// below the next fork the second, and so on. So a name is found in at most 67 steps, since no four names have one number,
/// and a new one needs only its own fork.
#[derive(Drop)]
#[cycle(forks)]
pub(crate) enum Tree {
    Empty,
    Fork(Box<Fork>),
}

#[derive(Drop)]
#[cycle(forks)]
pub(crate) struct Fork {
    pub(crate) entry: Entry,
    pub(crate) even: Tree,
    pub(crate) odd: Tree,
}

impl Entry {
    /// The entry of a name that nothing is known of.
    pub(crate) fn new(name: FileName) -> Entry
        ensures name { result.name ≡ name }
        ensures place { result.place ≡ Missing }
        ensures since { result.since ≡ 0 }
        ensures back { image_before (Some result) ≡ None }
    {
        Entry {
            name,
            place: Place::Missing,
            before: None,
            since: 0,
        }
    }
}

/// What a file may be after a crash that is created now under a name.
#[derive(Clone, Copy)]
pub(crate) struct Birth {
    pub(crate) may_miss: bool,
    pub(crate) may_differ: bool,
    pub(crate) emptied: u64,
}

impl Place {
    fn clean(&mut self)
        ensures { IsCleanPlace (Some self.new) (place_stands (Some self.old)) }
    {
        match self {
            Place::Home(file) => file.clean(),
            _ => *self = Place::Missing,
        }
    }

    pub(crate) fn birth(&self) -> Birth
        ensures leaves { LeavesBirth result.may_miss result.may_differ (PlaceLeaves (Some self.now)) }
        ensures emptied { result.emptied ≡ emptied_by (Some self.now) }
    {
        match self {
            Place::Missing => Birth {
                may_miss: true,
                may_differ: false,
                emptied: 0,
            },
            Place::Home(file) => Birth {
                may_miss: file.may_miss && !file.was_synced,
                may_differ: true,
                emptied: file.spoilt_len(),
            },
            Place::Gone(file) => Birth {
                may_miss: true,
                may_differ: true,
                emptied: file.spoilt_len(),
            },
            Place::Out => Birth {
                may_miss: true,
                may_differ: true,
                emptied: 0,
            },
        }
    }
}

impl FileData {
    /// The file that stands under a name where all that wasn't synced is lost, of this one and what stood there before.
    fn or_before(self, before: Option<FileData>) -> Option<FileData>
        ensures { synced_before result ≡ file_crash Lost self (synced_before before) }
    {
        if self.was_synced {
            return Some(self);
        }
        match before {
            Some(file) if self.may_differ => Some(file),
            _ if self.may_miss => None,
            _ => Some(self),
        }
    }
}

impl Place {
    /// The place once its file is taken out, and that file, if it is there.
    fn take_out(self) -> (Place, Option<FileData>)
        ensures place { result.0 ≡ without_home self }
        ensures file { result.1 ≡ file_at self }
    {
        match self {
            Place::Home(file) => (Place::Out, Some(file)),
            Place::Out => (Place::Out, None),
            Place::Gone(file) => (Place::Gone(file), None),
            Place::Missing => (Place::Missing, None),
        }
    }

    /// The place once its file is removed.
    fn remove(self) -> Place
        ensures { result ≡ removed self }
    {
        match self {
            Place::Home(file) | Place::Gone(file) => Place::Gone(file),
            Place::Out => Place::Out,
            Place::Missing => Place::Missing,
        }
    }

    /// What stands here where all that wasn't synced is lost, of this place and what stood there before.
    fn or_before(self, before: Option<FileData>) -> Option<FileData>
        ensures { synced_before result ≡ place_crash Lost self (synced_before before) }
    {
        match self {
            Place::Home(file) | Place::Gone(file) => file.or_before(before),
            Place::Out => before,
            Place::Missing => None,
        }
    }
}

impl Entry {
    /// The entry once its file is taken out, and that file, if it is there.
    pub(crate) fn take_out(self) -> (Entry, Option<FileData>)
        ensures entry { result.0 ≡ record self { place = without_home self.place } }
        ensures file { result.1 ≡ file_at self.place }
    {
        let (place, file) = self.place.take_out();
        let entry = Entry {
            name: self.name,
            place,
            before: self.before,
            since: self.since,
        };
        (entry, file)
    }

    /// The entry once its file is removed.
    pub(crate) fn remove(self) -> Entry
        ensures { result ≡ record self { place = removed self.place } }
    {
        Entry {
            name: self.name,
            place: self.place.remove(),
            before: self.before,
            since: self.since,
        }
    }

    /// The entry once somebody holds a new file of the name.
    pub(crate) fn create(self) -> Entry
        ensures name { result.name ≡ self.name }
        ensures place { result.place ≡ Out }
        ensures since { result.since ≡ self.since }
        ensures back { image_before (Some result) ≡ entry_crash Lost (Some self) }
    {
        Entry {
            name: self.name,
            place: Place::Out,
            before: self.place.or_before(self.before),
            since: self.since,
        }
    }

    /// The entry once its file is given back. What stood there before can't come back once that file was synced.
    pub(crate) fn give_back(self, file: FileData, since: u64) -> Entry
        ensures name { result.name ≡ self.name }
        ensures place { result.place ≡ Home file }
        ensures since { result.since ≡ since }
        ensures back { image_before (Some result) ≡ (if file.was_synced then None else image_before (Some self)) }
    {
        let was_synced = file.was_synced;
        Entry {
            name: self.name,
            place: Place::Home(file),
            before: self.before.filter(|_| !was_synced),
            since,
        }
    }

    /// Makes what stands there now last.
    fn clean(&mut self)
        ensures name { self.new.name ≡ self.old.name }
        ensures cleaned { IsCleaned (Some self.old) (Some self.new) }
    {
        self.place.clean();
        self.before = None;
    }
}

impl Tree {
    /// Makes what stands under each name now last, as if all of it had been synced, in a folder of which nobody holds a file.
    pub(crate) fn clean(&mut self)
        ensures { (b : ℕ) (n : NameOf) → IsCleaned (entry_from self.old b n) (entry_from self.new b n) }
    {
        match self {
            Tree::Empty => {}
            Tree::Fork(fork) => {
                fork.entry.clean();
                fork.even.clean();
                fork.odd.clean();
            }
        }
    }

    /// The entry of a name.
    pub(crate) fn entry(&self, name: FileName) -> Option<&Entry>
        ensures { lent result ≡ entry_named self.now name }
    {
        self.entry_from(name.number(), name)
    }

    fn entry_from(&self, bits: u64, name: FileName) -> Option<&Entry>
        ensures { lent result ≡ entry_from self.now bits name }
    {
        match self {
            Tree::Empty => None,
            Tree::Fork(fork) => {
                if fork.entry.name == name {
                    Some(&fork.entry)
                } else if bits % 2 == 1 {
                    fork.odd.entry_from(bits / 2, name)
                } else {
                    fork.even.entry_from(bits / 2, name)
                }
            }
        }
    }

    /// Puts an entry in the place of that of its name, which it gives. Without one nothing changes.
    pub(crate) fn exchange(&mut self, entry: Entry) -> Option<Entry>
        ensures old { result ≡ entry_named self.old entry.name }
        ensures named { IfSome result (λ e. e.name ≡ entry.name) }
        ensures changed { Changed entry.name (option_map (λ _. entry) result) self.old self.new }
    {
        self.exchange_from(entry.name.number(), entry)
    }

    fn exchange_from(&mut self, bits: u64, entry: Entry) -> Option<Entry>
        ensures old { result ≡ entry_from self.old bits entry.name }
        ensures named { IfSome result (λ e. e.name ≡ entry.name) }
        ensures there { entry_from self.new bits entry.name ≡ option_map (λ _. entry) result }
        ensures others { (b : ℕ) (n : NameOf) → n ≢ entry.name → entry_from self.new b n ≡ entry_from self.old b n }
    {
        match self {
            Tree::Empty => None,
            Tree::Fork(fork) => {
                if fork.entry.name == entry.name {
                    Some(mem::replace(&mut fork.entry, entry))
                } else if bits % 2 == 1 {
                    fork.odd.exchange_from(bits / 2, entry)
                } else {
                    fork.even.exchange_from(bits / 2, entry)
                }
            }
        }
    }

    /// Takes the entry of a name, which then has a new one if it had one.
    pub(crate) fn take(&mut self, name: FileName) -> Entry
        ensures name { result.name ≡ name }
        ensures since { result.since ≡ early (entry_named self.old name) }
        ensures lost { entry_crash Lost (Some result) ≡ entry_crash Lost (entry_named self.old name) }
        ensures back { image_before (Some result) ≡ image_before (entry_named self.old name) }
        ensures others { (n : NameOf) → n ≢ name → entry_named self.new n ≡ entry_named self.old n }
    {
        match self.exchange(Entry::new(name)) {
            Some(entry) => entry,
            None => Entry::new(name),
        }
    }

    /// Puts an entry in the place of that of its name, or in the room that is given.
    pub(crate) fn put(&mut self, entry: Entry, room: Box<Fork>)
        ensures { Changed entry.name (Some entry) self.old self.new }
    {
        self.put_from(entry.name.number(), entry, room);
    }

    fn put_from(&mut self, bits: u64, entry: Entry, mut room: Box<Fork>)
        ensures there { entry_from self.new bits entry.name ≡ Some entry }
        ensures others { (b : ℕ) (n : NameOf) → n ≢ entry.name → entry_from self.new b n ≡ entry_from self.old b n }
    {
        match self {
            Tree::Empty => {
                room.entry = entry;
                room.even = Tree::Empty;
                room.odd = Tree::Empty;
                *self = Tree::Fork(room);
            }
            Tree::Fork(fork) => {
                if fork.entry.name == entry.name {
                    fork.entry = entry;
                } else if bits % 2 == 1 {
                    fork.odd.put_from(bits / 2, entry, room);
                } else {
                    fork.even.put_from(bits / 2, entry, room);
                }
            }
        }
    }
}

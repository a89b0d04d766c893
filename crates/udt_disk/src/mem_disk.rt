//! Folders and their files in memory.

ghost use Rattle.std.specs.Prelude.{◌≡◌, ◌≢◌, ◌⊎◌, ◌↔◌, [], if◌then◌else◌, IsErr, IsTrue, IfNone, OnSome, ℕ, ◌+◌, ◌-◌, ◌^◌, ◌≤◌, length, take, drop, true, List, reverse, Option, Some, None, IfOk, IfSome, OnOk, OnErr, MatchOption};
ghost use Rattle.std.proofs.Common.{refl, inl};
ghost use Rattle.udt_disk.specs.Causes.{plus_faults};
ghost use Rattle.udt_disk.specs.History.{LeftSince, counts_since, only_since};
ghost use Rattle.udt_disk.specs.Files.{FileLeaves, IsFresh, LeavesBirth, place_stands, file_stays, bytes_of};
ghost use Rattle.udt_disk.specs.Crashed.{emptied_by};
ghost use Rattle.udt_disk.specs.Directory.{Made, NameLeaves, place_named};
ghost use Rattle.udt_disk.specs.Crash.{Image};
ghost use Rattle.udt_disk.specs.declared.tree.Place.TheVariants.{Home, Out};
ghost use Rattle.udt_disk.specs.declared.name.FileName.{FileName as NameOf};

use crate::directory::{Directory, Room, new_fork};
use crate::mem_file::FileData;
use crate::tree::Birth;
use crate::trouble::{count_call, count_calls};
use crate::{Disk, DiskFile, Failed, FileName, NoMemory, Outcome, Trouble};
use std::alloc::Global;

/// A file of a folder in memory that somebody holds. It keeps the room in which it is given back.
#[derive(Drop)]
pub struct MemFile {
    data: FileData,
    room: Room,
}

impl MemFile {
    ghost use Rattle.udt_disk.specs.MemForms.{file_starved};
    ghost use Rattle.udt_disk.specs.Tried.{FileTried, SameFile, IsWritten, IsSynced};
    ghost use Rattle.std.specs.List.{list_any};
    ghost use Rattle.udt_disk.specs.Troubles.{is_due};

    /// How many of its calls found no memory since it was given out.
    pub fn starved(&self) -> u64
        ensures { result ≡ file_starved self.now }
    {
        self.data.starved
    }

    /// `DiskFile::len`. It takes no memory: it fails exactly where a trouble is due.
    pub fn len(&mut self) -> Result<u64, Failed>
        ensures tried { FileTried self.old.data self.new.data result }
        ensures exactly { IsErr result ↔ IsTrue (list_any (is_due self.old.data.name) self.old.data.troubles.items) }
        ensures same { SameFile self.old.data self.new.data }
        ensures name { self.new.data.name ≡ self.old.data.name }
        ensures len { IfOk result (λ n. n ≡ length self.old.data.bytes.items) }
    {
        self.data.len()
    }

    /// `DiskFile::read_at`. It takes no memory: it fails exactly where a trouble is due.
    pub fn read_at(&mut self, at: u64, into: &mut [u8]) -> Result<usize, Failed>
        ensures tried { FileTried self.old.data self.new.data result }
        ensures exactly { IsErr result ↔ IsTrue (list_any (is_due self.old.data.name) self.old.data.troubles.items) }
        ensures same { SameFile self.old.data self.new.data }
        ensures name { self.new.data.name ≡ self.old.data.name }
        ensures bound { IfOk result (λ n. n ≤ length into.old) }
        ensures read { IfOk result (λ n. take n into.new ≡ take (length into.old) (drop at self.old.data.bytes.items)) }
    {
        self.data.read_at(at, into)
    }

    /// `DiskFile::write_at`. A call that fails changes nothing, and fails only where a trouble is due or memory wanted.
    pub fn write_at(&mut self, at: u64, bytes: &[u8]) -> Result<(), Failed>
        requires { at ≤ length self.old.data.bytes.items }
        ensures tried { FileTried self.old.data self.new.data result }
        ensures name { self.new.data.name ≡ self.old.data.name }
        ensures fits { OnOk result (at + length bytes.now ≤ 2 ^ 64 - 1) }
        ensures written { OnOk result (IsWritten at bytes.now self.old.data self.new.data) }
    {
        self.data.write_at(at, bytes)
    }

    /// `DiskFile::sync`. A call that fails changes nothing, and fails only where a trouble is due or memory wanted.
    pub fn sync(&mut self) -> Result<(), Failed>
        ensures tried { FileTried self.old.data self.new.data result }
        ensures name { self.new.data.name ≡ self.old.data.name }
        ensures synced { OnOk result (IsSynced self.old.data self.new.data) }
    {
        self.data.sync()
    }
}

impl DiskFile for MemFile {
    ghost name = { λ m. m.data.name };

    ghost faults = { λ m. plus_faults m.data.troubled m.data.starved };

    ghost is_told = { λ _. true };

    ghost seen = { λ m. m.data.bytes.items };

    ghost keeps_model = { λ _. true };

    ghost may_leave = { λ m. FileLeaves m.data };

    ghost moment = { λ m. length (reverse m.data.calls.items) };

    ghost left_since = { λ m. LeftSince m.data.may_miss m.data.may_differ m.data.bytes.items (reverse m.data.calls.items) };

    ghost model_tells = { λ _ _. refl };

    ghost now_stays = { λ m _. file_stays m.data };

    ghost counts_now = { λ m t c _ now. counts_since m.data.may_miss m.data.may_differ m.data.bytes.items (reverse m.data.calls.items) t c now };

    ghost only_now = { λ m c left. only_since m.data.may_miss m.data.may_differ m.data.bytes.items (reverse m.data.calls.items) c left };

    fn len(&mut self) -> Result<u64, Failed> {
        MemFile::len(self)
    }

    fn read_at(&mut self, at: u64, into: &mut [u8]) -> Result<usize, Failed> {
        MemFile::read_at(self, at, into)
    }

    fn write_at(&mut self, at: u64, bytes: &[u8]) -> Result<(), Failed> {
        MemFile::write_at(self, at, bytes)
    }

    fn sync(&mut self) -> Result<(), Failed> {
        MemFile::sync(self)
    }
}

/// A folder in memory.
#[derive(Drop)]
pub struct MemDisk {
    alloc: Global,
    directory: Directory,
    troubles: Vec<Trouble>,
    troubled: u64,
    starved: u64,
    given_back: u64,
}

impl MemDisk {
    ghost use Rattle.udt_disk.specs.MemForms.{folder_starved, left_by};
    ghost use Rattle.udt_disk.specs.Tried.{FolderTried};
    ghost use Rattle.std.specs.List.{list_any};
    ghost use Rattle.udt_disk.specs.Troubles.{is_due, counted_by};
    ghost use Rattle.std.specs.Prelude.{map};
    ghost use Rattle.udt_disk.specs.Folder.{opened};
    ghost use Rattle.udt_disk.specs.Files.{IsGiven};
    ghost use Rattle.udt_disk.specs.Directory.{Put, Moved, Removed, Same, comes_back};
    ghost use Rattle.udt_disk.specs.declared.mem_file.FileData.{FileData as DataOf};

    /// An empty folder, with what is to go wrong in it.
    pub fn new(alloc: Global, troubles: Vec<Trouble>) -> Result<MemDisk, NoMemory>
        ensures empty { IfOk result (λ d. (n : NameOf) → ⟦<MemDisk as Disk>⟧.stands d n ≡ None) }
        ensures clean { IfOk result (λ d. (n : NameOf) (c : Image) → ⟦<MemDisk as Disk>⟧.may_leave d n c → c ≡ None) }
        ensures faults { IfOk result (λ d. ⟦<MemDisk as Disk>⟧.faults d ≡ 0) }
        ensures back { IfOk result (λ d. (n : NameOf) → comes_back d.directory n ≡ None) }
        ensures troubles { IfOk result (λ d. d.troubles.items ≡ troubles.items) }
    {
        Ok(MemDisk {
            alloc,
            directory: Directory::new(),
            troubles,
            troubled: 0,
            starved: 0,
            given_back: 0,
        })
    }

    /// The folder after a crash with the outcome, clean and with nothing to go wrong. A file that is held then is lost
    /// with the folder that held it: what stands under its name is one of the images all the same.
    pub fn after_crash(self, alloc: Global, outcome: Outcome) -> Result<MemDisk, NoMemory>
        ensures image { IfOk result (λ d. (n : NameOf) → ⟦<MemDisk as Disk>⟧.may_leave self n (⟦<MemDisk as Disk>⟧.stands d n)) }
        ensures outcome { IfOk result (λ d. (n : NameOf) → ⟦<MemDisk as Disk>⟧.stands d n ≡ left_by outcome self n) }
        ensures clean { IfOk result (λ d. (n : NameOf) (c : Image) → ⟦<MemDisk as Disk>⟧.may_leave d n c → c ≡ ⟦<MemDisk as Disk>⟧.stands d n) }
        ensures back { IfOk result (λ d. (n : NameOf) → comes_back d.directory n ≡ None) }
        ensures faults { IfOk result (λ d. ⟦<MemDisk as Disk>⟧.faults d ≡ 0) }
        ensures troubles { IfOk result (λ d. d.troubles.items ≡ []) }
    {
        Ok(MemDisk {
            alloc,
            directory: self.directory.after_crash(alloc, outcome)?,
            troubles: Vec::new(alloc),
            troubled: 0,
            starved: 0,
            given_back: 0,
        })
    }

    /// `Disk::create`. A call that fails changes nothing, and fails only where a trouble is due or memory wanted.
    pub fn create(&mut self, name: FileName) -> Result<MemFile, Failed>
        ensures tried { FolderTried name self.old self.new result }
        ensures file { IfOk result (λ f. IsFresh name f.data f.data.may_miss f.data.may_differ (emptied_by (place_named self.old.directory name))) }
        ensures birth { IfOk result (λ f. LeavesBirth f.data.may_miss f.data.may_differ (NameLeaves self.old.directory name)) }
        ensures made { OnOk result (Made name self.old.directory self.new.directory) }
        ensures troubles { IfOk result (λ f. f.data.troubles.items ≡ self.new.troubles.items) }
    {
        if count_call(&mut self.troubles, name) {
            self.troubled = self.troubled.saturating_add(1);
            return Err(Failed);
        }
        match create_in(self.alloc, &mut self.directory, name, &self.troubles) {
            Ok(file) => Ok(file),
            Err(_) => {
                self.starved = self.starved.saturating_add(1);
                Err(Failed)
            }
        }
    }

    /// `Disk::open_file`. A call that fails changes nothing, and fails only where a trouble is due or memory wanted.
    pub fn open_file(&mut self, name: FileName) -> Result<Option<MemFile>, Failed>
        ensures tried { FolderTried name self.old self.new result }
        ensures found { IfSome (opened result) (λ f. (was : DataOf) × (place_named self.old.directory name ≡ Some (Home was)) × IsGiven name was f.data) }
        ensures held { OnSome (opened result) (Moved name Out self.old.directory self.new.directory) }
        ensures missing { IfOk result (λ o. IfNone o (place_stands (place_named self.old.directory name) ≡ None)) }
        ensures same { IfOk result (λ o. IfNone o (Same self.old.directory self.new.directory)) }
        ensures back { (n : NameOf) → comes_back self.new.directory n ≡ comes_back self.old.directory n }
        ensures troubles { IfSome (opened result) (λ f. f.data.troubles.items ≡ self.new.troubles.items) }
    {
        if count_call(&mut self.troubles, name) {
            self.troubled = self.troubled.saturating_add(1);
            return Err(Failed);
        }
        match outfit(self.alloc, &self.troubles) {
            Ok((room, troubles)) => match self.directory.take_out(name) {
                None => Ok(None),
                Some(mut data) => {
                    data.name = name;
                    data.troubles = troubles;
                    data.uses = 0;
                    data.troubled = 0;
                    data.starved = 0;
                    Ok(Some(MemFile { data, room }))
                }
            },
            Err(_) => {
                self.starved = self.starved.saturating_add(1);
                Err(Failed)
            }
        }
    }

    /// `Disk::remove`. It takes no memory: it fails exactly where a trouble is due, and then changes nothing.
    pub fn remove(&mut self, name: FileName) -> Result<(), Failed>
        ensures tried { FolderTried name self.old self.new result }
        ensures exactly { IsErr result ↔ IsTrue (list_any (is_due name) self.old.troubles.items) }
        ensures removed { OnOk result (Removed name self.old.directory self.new.directory) }
        ensures back { (n : NameOf) → comes_back self.new.directory n ≡ comes_back self.old.directory n }
    {
        if count_call(&mut self.troubles, name) {
            self.troubled = self.troubled.saturating_add(1);
            return Err(Failed);
        }
        self.directory.remove(name);
        Ok(())
    }

    /// `Disk::retire`. It takes no memory and never fails, and has no number of its own: the calls of the file count now.
    pub fn retire(&mut self, file: MemFile)
        ensures put { Put file.data.name (Home file.data) self.old.directory self.new.directory }
        // What stood there before the file was made comes back where it is lost, until it is synced.
        ensures back { comes_back self.new.directory file.data.name ≡ (if file.data.was_synced then None else comes_back self.old.directory file.data.name) }
        ensures back_others { (n : NameOf) → n ≢ file.data.name → comes_back self.new.directory n ≡ comes_back self.old.directory n }
        ensures given_back { self.new.given_back ≡ plus_faults self.old.given_back (plus_faults file.data.troubled file.data.starved) }
        ensures troubled { self.new.troubled ≡ self.old.troubled }
        ensures starved { folder_starved self.new ≡ folder_starved self.old }
        ensures counted { self.new.troubles.items ≡ map (counted_by file.data.name file.data.uses) self.old.troubles.items }
    {
        let MemFile { data, room } = file;
        self.given_back = self
            .given_back
            .saturating_add(data.troubled.saturating_add(data.starved));
        count_calls(&mut self.troubles, data.name, data.uses);
        self.directory.put_back(data.name, data, room);
    }

    /// The bytes that stand under a name, unless the file is held.
    pub fn contents(&self, name: FileName) -> Option<&[u8]>
        ensures { bytes_of result ≡ ⟦<MemDisk as Disk>⟧.stands self.now name }
    {
        self.directory.contents(name)
    }

    /// Makes what stands now last, as an opening of the folder does. Who holds a file of it no longer does.
    pub(crate) fn clean(&mut self)
        ensures stands { (n : NameOf) → ⟦<MemDisk as Disk>⟧.stands self.new n ≡ ⟦<MemDisk as Disk>⟧.stands self.old n }
        ensures only { (n : NameOf) (c : Image) → ⟦<MemDisk as Disk>⟧.may_leave self.new n c → c ≡ ⟦<MemDisk as Disk>⟧.stands self.new n }
        ensures back { (n : NameOf) → comes_back self.new.directory n ≡ None }
        ensures faults { ⟦<MemDisk as Disk>⟧.faults self.new ≡ ⟦<MemDisk as Disk>⟧.faults self.old }
        ensures troubles { self.new.troubles.items ≡ self.old.troubles.items }
    {
        self.directory.clean();
    }

    /// How often it has failed, with the faults of the files that were given back.
    pub(crate) fn faults(&self) -> u64
        ensures { result ≡ ⟦<MemDisk as Disk>⟧.faults self.now }
    {
        self.troubled
            .saturating_add(self.starved)
            .saturating_add(self.given_back)
    }

    /// How many calls of the folder found no memory.
    pub fn starved(&self) -> u64
        ensures { result ≡ folder_starved self.now }
    {
        self.starved
    }
}

/// A new file, and the room for it to be given back in.
fn new_file(
    alloc: Global,
    name: FileName,
    birth: Birth,
    troubles: &[Trouble],
) -> Result<MemFile, NoMemory>
    ensures fresh { IfOk result (λ f. IsFresh name f.data birth.may_miss birth.may_differ birth.emptied) }
    ensures troubles { IfOk result (λ f. f.data.troubles.items ≡ troubles.now) }
{
    let room = Room::new(alloc)?;
    let data = FileData {
        alloc,
        name,
        bytes: Vec::new(alloc),
        calls: Vec::new(alloc),
        may_miss: birth.may_miss,
        may_differ: birth.may_differ,
        emptied: birth.emptied,
        was_synced: false,
        troubles: Vec::from_slice(alloc, troubles)?,
        uses: 0,
        troubled: 0,
        starved: 0,
    };
    Ok(MemFile { data, room })
}

/// A new file of the name, which is held from now on.
fn create_in(
    alloc: Global,
    directory: &mut Directory,
    name: FileName,
    troubles: &[Trouble],
) -> Result<MemFile, NoMemory>
    ensures file { IfOk result (λ f. IsFresh name f.data f.data.may_miss f.data.may_differ (emptied_by (place_named directory.old name))) }
    ensures birth { IfOk result (λ f. LeavesBirth f.data.may_miss f.data.may_differ (NameLeaves directory.old name)) }
    ensures made { OnOk result (Made name directory.old directory.new) }
    ensures err { OnErr result (directory.new ≡ directory.old) }
    ensures troubles { IfOk result (λ f. f.data.troubles.items ≡ troubles.now) }
{
    let file = new_file(alloc, name, directory.birth(name), troubles)?;
    directory.create(name, new_fork(alloc)?);
    Ok(file)
}

/// What a file needs to be given out: the room to be given back in, and what is to go wrong.
fn outfit(alloc: Global, troubles: &[Trouble]) -> Result<(Room, Vec<Trouble>), NoMemory>
    ensures { IfOk result (λ o. o.1.items ≡ troubles.now) }
{
    Ok((Room::new(alloc)?, Vec::from_slice(alloc, troubles)?))
}

impl Disk for MemDisk {
    ghost use Rattle.udt_disk.specs.Directory.{long, NameLeftSince, name_stays, name_only};

    type File = MemFile;

    ghost faults = { λ d. plus_faults (plus_faults d.troubled d.starved) d.given_back };

    ghost is_told = { λ _. true };

    ghost stands = { λ d n. place_stands (place_named d.directory n) };

    ghost keeps_model = { λ _. true };

    ghost may_leave = { λ d. NameLeaves d.directory };

    ghost moment = { λ d. long d.directory };

    ghost left_since = { λ d. NameLeftSince d.directory };

    ghost model_tells = { λ _ _. refl };

    ghost now_stays = { λ d n _. name_stays d.directory n };

    ghost counts_now = { λ d t n c _ now. inl now };

    ghost only_now = { λ d n c left. name_only d.directory n c left };

    fn create(&mut self, name: FileName) -> Result<MemFile, Failed> {
        MemDisk::create(self, name)
    }

    fn open_file(&mut self, name: FileName) -> Result<Option<MemFile>, Failed> {
        MemDisk::open_file(self, name)
    }

    fn remove(&mut self, name: FileName) -> Result<(), Failed> {
        MemDisk::remove(self, name)
    }

    fn retire(&mut self, file: MemFile) {
        MemDisk::retire(self, file);
    }
}

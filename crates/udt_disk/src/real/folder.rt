//! Folders of the operating system. One that is open is locked, and what is opened in it is synced before it is read, and
//! written again as it is read, since an earlier process may have been stopped between a write and its sync, or its sync
//! failed.
ghost use Rattle.std.specs.Prelude.{◌≡◌, None, IfOk, IfSome, true, false};
ghost use Rattle.udt_disk.specs.Folder.{opened};
ghost use Rattle.udt_disk.specs.Real.{not_told};

use super::{Faults, HostFile};
use crate::{Disk, Failed, FileName, NoMemory};
use std::alloc::Global;
use std::fs::{File, OpenOptions};
use std::io::ErrorKind;
use std::rt::Files;
use std::{fs, io};

/// A folder of the operating system, by its path. It is locked for as long as it is held.
pub struct HostFolder<'a, R: Files<File = File>> {
    pub(super) rt: &'a R,
    pub(super) alloc: Global,
    pub(super) path: String,
    /// The folder itself, which holds the lock.
    pub(super) handle: File,
    pub(super) faults: Faults,
}

/// The path of a file in a folder.
fn path_of(alloc: Global, folder: &str, name: FileName) -> Result<String, NoMemory> {
    match name {
        FileName::Manifest0 => format!(in alloc; "{folder}/MANIFEST-0"),
        FileName::Manifest1 => format!(in alloc; "{folder}/MANIFEST-1"),
        FileName::Current => format!(in alloc; "{folder}/CURRENT"),
        FileName::Made => format!(in alloc; "{folder}/MADE"),
        FileName::Log(number) => format!(in alloc; "{folder}/{number}.log"),
        FileName::Table(number) => format!(in alloc; "{folder}/{number}.table"),
    }
}

impl<'a, R: Files<File = File>> HostFolder<'a, R> {
    fn try_create(&self, name: FileName) -> io::Result<HostFile>
        ensures name { IfOk result (λ f. f.name ≡ name) }
        ensures fresh { IfOk result (λ f. f.faults.count ≡ 0) }
    {
        let path = path_of(self.alloc, &self.path, name)?;
        let file = OpenOptions::new()
            .read(true)
            .write(true)
            .create(true)
            .truncate(true)
            .open(self.rt, path.as_str())?;
        self.handle.sync_all()?;
        Ok(HostFile {
            file,
            name,
            faults: Faults::new(),
            is_found: false,
        })
    }

    fn try_open(&self, name: FileName) -> io::Result<Option<HostFile>>
        ensures name { IfSome (opened result) (λ f. f.name ≡ name) }
        ensures fresh { IfSome (opened result) (λ f. f.faults.count ≡ 0) }
    {
        let path = path_of(self.alloc, &self.path, name)?;
        let file = match OpenOptions::new()
            .read(true)
            .write(true)
            .open(self.rt, path.as_str())
        {
            Err(e) if e.kind() == ErrorKind::NotFound => return Ok(None),
            file => file?,
        };
        // A table is named only once its sync answered Ok.
        let is_found = !matches!(name, FileName::Table(_));
        if is_found {
            file.sync_all()?;
        }
        Ok(Some(HostFile {
            file,
            name,
            faults: Faults::new(),
            is_found,
        }))
    }

    fn try_remove(&self, name: FileName) -> io::Result<()> {
        let path = path_of(self.alloc, &self.path, name)?;
        match fs::remove_file(self.rt, path.as_str()) {
            Err(e) if e.kind() == ErrorKind::NotFound => Ok(()),
            Err(e) => Err(e),
            Ok(()) => self.handle.sync_all(),
        }
    }
}

impl<'a, R: Files<File = File> + Sync> Disk for HostFolder<'a, R> {
    type File = HostFile;

    ghost faults = { λ d. d.faults.count };

    ghost is_told = { λ _. false };

    ghost stands = { λ _ _. None };

    ghost keeps_model = { λ _. false };

    ghost may_leave = { λ _ _ _. ⊥ };

    ghost moment = { λ _. 0 };

    ghost left_since = { λ _ _ _ _. ⊥ };

    ghost model_tells = { λ _ told. told };

    ghost now_stays = { λ _ _ told. not_told told };

    ghost counts_now = { λ _ _ _ _ _ left. left };

    ghost only_now = { λ _ _ _ left. left };

    /// The name reaches the device too.
    fn create(&mut self, name: FileName) -> Result<HostFile, Failed> {
        let answer = self.try_create(name);
        self.faults.counted(answer)
    }

    fn open_file(&mut self, name: FileName) -> Result<Option<HostFile>, Failed> {
        let answer = self.try_open(name);
        self.faults.counted(answer)
    }

    /// That the name is gone reaches the device too.
    fn remove(&mut self, name: FileName) -> Result<(), Failed> {
        let answer = self.try_remove(name);
        self.faults.counted(answer)
    }

    fn retire(&mut self, file: HostFile) {
        self.faults.add(file.faults);
    }
}

impl<'a, R: Files<File = File>> Drop for HostFolder<'a, R> {
    fn drop(self) {
        let HostFolder {
            rt: _,
            alloc: _,
            path: _,
            handle: _,
            faults: _,
        } = self;
    }
}

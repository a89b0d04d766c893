//! The host of the process: the files and folders of the operating system by their paths.
ghost use Rattle.std.specs.Prelude.{◌≡◌, None, true, false};
ghost use Rattle.udt_disk.specs.Real.{not_told};

use super::{Faults, HostFolder, HostSource};
use crate::{Failed, Host, Text};
use std::fs::File;
use std::io::ErrorKind;
use std::path::Path;
use std::rt::Files;
use std::{fs, io};

/// The host of the process: files and folders by their paths. It tells nothing of what stands under them.
pub struct RealHost<'a, R: Files> {
    rt: &'a R,
    faults: Faults,
}

impl<'a, R: Files> RealHost<'a, R> {
    /// Why the last call failed that did, of the host's or of what was given back to it.
    pub fn last_error(&self) -> Option<ErrorKind> {
        self.faults.last
    }

    /// The host of the process whose runtime this is.
    pub fn new(rt: &'a R) -> RealHost<'a, R>
        ensures { result.faults.count ≡ 0 }
    {
        RealHost {
            rt,
            faults: Faults::new(),
        }
    }
}

/// The folder at a path, made where there is none and one is asked for. It is locked, so that no other process opens it
/// as long as it is held, and its names have reached the device; so has its own name where it may just have been made.
fn try_folder<'a, R: Files<File = File> + AllocGlobal>(
    rt: &'a R,
    path: &str,
    make: bool,
) -> io::Result<HostFolder<'a, R>> {
    let alloc = rt.alloc();
    let metadata = match fs::metadata(rt, path) {
        Err(e) if e.kind() == ErrorKind::NotFound && make => {
            make_folder(rt, path)?;
            fs::metadata(rt, path)?
        }
        metadata => metadata?,
    };
    if !metadata.is_dir() {
        return Err(ErrorKind::NotADirectory.into());
    }
    let handle = fs::open(rt, path)?;
    handle.try_lock()?;
    handle.sync_all()?;
    if make {
        sync_parent(rt, path)?;
    }
    Ok(HostFolder {
        rt,
        alloc,
        path: String::from_str(alloc, path)?,
        handle,
        faults: Faults::new(),
    })
}

/// Makes a folder. A call that a signal interrupts is made again.
fn make_folder<R: Files>(rt: &R, path: &str) -> io::Result<()> {
    for _ in 0..u64::MAX {
        match fs::create_dir(rt, path) {
            Err(e) if e.kind() == ErrorKind::Interrupted => {}
            made => return made,
        }
    }
    Err(ErrorKind::Interrupted.into())
}

/// Makes the name of a folder reach the device.
fn sync_parent<R: Files<File = File>>(rt: &R, path: &str) -> io::Result<()> {
    let Some(parent) = Path::new(path).parent() else {
        return Ok(());
    };
    let parent = match parent.as_str() {
        "" => ".",
        parent => parent,
    };
    fs::open(rt, parent)?.sync_all()
}

impl<'a, R: Files<File = File> + AllocGlobal + Sync> Host for RealHost<'a, R> {
    type Folder = HostFolder<'a, R>;

    type Input = HostSource<File>;

    ghost standing = { λ _ _. None };

    ghost folder_at = { λ _ _. None };

    ghost leaves_at = { λ _ _ _ _. ⊥ };

    ghost has_place = { λ _ _. true };

    ghost keeps_model = { λ _. false };

    ghost faults = { λ h. h.faults.count };

    ghost model_tells = { λ _ _ told. not_told told };

    ghost now_stays = { λ _ _ told. not_told told };

    /// Fails too where another process holds the folder, and where the path is no UTF-8: such a folder can't be named
    /// here, though there may be one.
    fn open_folder(
        &mut self,
        path: &Text,
        make: bool,
    ) -> Result<Option<HostFolder<'a, R>>, Failed> {
        let Ok(path) = str::from_utf8(path.bytes()) else {
            return self.faults.counted(Err(ErrorKind::InvalidInput.into()));
        };
        match try_folder(self.rt, path, make) {
            Ok(folder) => Ok(Some(folder)),
            Err(e) if e.kind() == ErrorKind::NotFound && !make => Ok(None),
            Err(e) => self.faults.counted(Err(e)),
        }
    }

    fn close_folder(&mut self, path: &Text, folder: HostFolder<'a, R>) {
        let _ = path;
        self.faults.add(folder.faults);
    }

    /// Fails too where the path is no UTF-8: such a file can't be named here, though there may be one.
    fn open_source(&mut self, path: &Text) -> Result<Option<HostSource<File>>, Failed> {
        let Ok(path) = str::from_utf8(path.bytes()) else {
            return self.faults.counted(Err(ErrorKind::InvalidInput.into()));
        };
        match fs::open(self.rt, path) {
            Ok(inner) => Ok(Some(HostSource::new(inner))),
            Err(e) if e.kind() == ErrorKind::NotFound => Ok(None),
            Err(e) => self.faults.counted(Err(e)),
        }
    }

    fn close_source(&mut self, input: HostSource<File>) {
        self.faults.add(input.faults());
    }
}

impl<'a, R: Files> Drop for RealHost<'a, R> {
    fn drop(self) {
        let RealHost { rt: _, faults: _ } = self;
    }
}

//! Files of the operating system.
ghost use Rattle.std.specs.Prelude.{◌≡◌, ◌≤◌, [], length, IfOk, true, false};
ghost use Rattle.udt_disk.specs.Causes.{HasCause};
ghost use Rattle.udt_disk.specs.Real.{not_told};

use super::Faults;
use crate::{DiskFile, Failed, FileName};
use std::fs::File;
use std::io::ErrorKind;
use std::os::unix::fs::FileExt;

/// A file of the operating system, open for reading and writing.
#[derive(Drop)]
pub struct HostFile {
    pub(super) file: File,
    pub(super) name: FileName,
    pub(super) faults: Faults,
    /// An earlier process may have written what it holds.
    pub(super) is_found: bool,
}

impl HostFile {
    /// What the system hands out. A read that a signal interrupts is tried again.
    fn read_once(&mut self, at: u64, into: &mut [u8]) -> Result<usize, Failed>
        ensures bound { IfOk result (λ n. n ≤ length into.old) }
        ensures cause { HasCause self.old.faults.count self.new.faults.count result }
        ensures name { self.new.name ≡ self.old.name }
    {
        let mut done = 0;
        for _ in 0..u64::MAX {
            if done == into.len() {
                return Ok(done);
            }
            let from = at.saturating_add(done as u64);
            match self.file.read_at(&mut into[done..], from) {
                Ok(0) => return Ok(done),
                Ok(count) => done += count,
                Err(e) if e.kind() == ErrorKind::Interrupted => {}
                Err(e) => return self.faults.counted(Err(e)),
            }
        }
        self.faults.counted(Err(ErrorKind::Interrupted.into()))
    }

    /// Brings what was just read to the device. Where a sync of an earlier process failed, the system may hand out bytes
    /// that never reached it and call them clean, so that a sync alone would pass them over. Written again, at the same
    /// place, they are dirty: the sync reaches the device with them, or fails. It is trusted that
    /// a crash between the two leaves at each place what was there or these bytes: the model of crashes promises less.
    fn rewrite_and_sync(&mut self, at: u64, bytes: &[u8]) -> Result<(), Failed>
        ensures cause { HasCause self.old.faults.count self.new.faults.count result }
        ensures name { self.new.name ≡ self.old.name }
    {
        self.write_at(at, bytes)?;
        self.sync()
    }
}

impl DiskFile for HostFile {
    ghost name = { λ f. f.name };

    ghost faults = { λ f. f.faults.count };

    ghost is_told = { λ _. false };

    ghost seen = { λ _. [] };

    ghost keeps_model = { λ _. false };

    ghost may_leave = { λ _ _. ⊥ };

    ghost moment = { λ _. 0 };

    ghost left_since = { λ _ _ _. ⊥ };

    ghost model_tells = { λ _ told. told };

    ghost now_stays = { λ _ told. not_told told };

    ghost counts_now = { λ _ _ _ _ left. left };

    ghost only_now = { λ _ _ left. left };

    fn len(&mut self) -> Result<u64, Failed> {
        let metadata = self.faults.counted(self.file.metadata())?;
        Ok(metadata.len())
    }

    /// What is read of a file that was found is written again and synced before it is handed out.
    fn read_at(&mut self, at: u64, into: &mut [u8]) -> Result<usize, Failed> {
        let count = self.read_once(at, into)?;
        if self.is_found && count > 0 {
            self.rewrite_and_sync(at, &into[..count])?;
        }
        Ok(count)
    }

    fn write_at(&mut self, at: u64, bytes: &[u8]) -> Result<(), Failed> {
        if at > u64::MAX - bytes.len() as u64 {
            return self.faults.counted(Err(ErrorKind::InvalidInput.into()));
        }
        self.faults.counted(self.file.write_all_at(bytes, at))
    }

    /// Reaches the device: the bytes, and the length where the file grew.
    fn sync(&mut self) -> Result<(), Failed> {
        self.faults.counted(self.file.sync_data())
    }
}

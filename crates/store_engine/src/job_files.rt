//! The files of jobs: each has a number of its own, and one that comes to nothing is given back.

ghost use Rattle.std.specs.Prelude.{IfOk};
ghost use Rattle.udt_model.specs.Crashes.{Course};
ghost use Rattle.udt_model.specs.State.{State};
ghost use Rattle.super_version.specs.declared.version.SuperVersion.{SuperVersion as Version};
ghost use Rattle.store_engine.specs.Asides.{IsGivenBack};
ghost use Rattle.store_engine.specs.JobCalls.{AnswersJobFile, IsDeadTable, IsDiscarded, IsJobFile, IsJobFileCalled};

use crate::EngineFault;
use crate::engine::Engine;
use manifest_fold::FILE_NUMBER_LIMIT;
use udt_disk::{Disk, Failed, FileName};

impl<D: Disk> Engine<D> {
    ghost use Rattle.store_engine.specs.Calls.{RanOn};
    ghost use Rattle.store_engine.specs.Engines.{HoldsAsBefore, HoldsNow, IsRunning};

    /// Gives a file back to the disk.
    pub(crate) fn give_back(&mut self, file: D::File)
        ensures { IsGivenBack D.Disk D.File.DiskFile file self.old self.new }
    {
        self.disk.retire(file);
    }

    /// Makes an empty file for the table of a job, and answers its number, which is that of the next file and is given to no other. The
    /// caller holds it until an install takes it, or `discard`. `FilesFull` comes exactly where that number is 2^63. Where the disk fails
    /// the engine goes on. A crash at any moment leaves what one might have left before. It takes no memory.
    pub fn new_job_file(&mut self) -> Result<(u64, D::File), EngineFault>
        requires { IsRunning self.old }

        ensures holds { HoldsAsBefore D.Disk D.File.DiskFile self.old self.new }
        ensures moments { (now : Version) (m : State) (c : Course) → HoldsNow D.Disk D.File.DiskFile self.old now m c → RanOn D.Disk D.File.DiskFile m c self.old self.new }

        // Whether or not the disk tells what it holds.
        ensures answers { AnswersJobFile self.old.next result }
        ensures made { IfOk result (λ made. IsJobFile D.Disk D.File.DiskFile self.old self.new made.0 made.1) }
        ensures called { IsJobFileCalled D.Disk D.File.DiskFile self.old self.new result }
    {
        if self.next == FILE_NUMBER_LIMIT {
            return Err(EngineFault::FilesFull { next: self.next });
        }
        let number = self.next;
        match self.disk.create(FileName::Table(number)) {
            Ok(file) => {
                self.next += 1;
                Ok((number, file))
            }
            Err(Failed) => Err(EngineFault::DiskFault),
        }
    }

    /// Gives the file of a table that isn't live back to the disk. A crash at any moment leaves what one might have left before.
    pub fn discard(&mut self, file: D::File)
        requires { IsDeadTable D.File.DiskFile self.old file }

        ensures holds { HoldsAsBefore D.Disk D.File.DiskFile self.old self.new }
        ensures moments { (now : Version) (m : State) (c : Course) → HoldsNow D.Disk D.File.DiskFile self.old now m c → RanOn D.Disk D.File.DiskFile m c self.old self.new }

        // Whether or not the disk tells what it holds.
        ensures given { IsGivenBack D.Disk D.File.DiskFile file self.old self.new }
        ensures discarded { IsDiscarded D.Disk D.File.DiskFile file self.old self.new }
    {
        self.give_back(file);
    }
}

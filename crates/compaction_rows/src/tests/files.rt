//! The files of jobs, on a disk in memory.

ghost use Rattle.std.specs.Prelude.{◌≤◌, ◌^◌};

use compaction::{JobCause, JobFiles};
use udt_disk::{Disk, FileName, MemDisk, MemFile};

/// Gives files with ascending numbers, up to the last that there may be.
#[derive(Drop)]
pub struct DiskFiles {
    pub disk: MemDisk,
    /// The next number.
    pub next: u64,
    /// The next number, as the last `next` saw it.
    seen: u64,
    pub halted: Option<u64>,
    /// How many files were given and not taken back.
    pub out: u64,
    ghost upto: { next ≤ 2 ^ 63 },
}

impl DiskFiles {
    pub fn new(disk: MemDisk, next: u64, halted: Option<u64>) -> DiskFiles {
        DiskFiles {
            disk,
            next: next.min(1 << 63),
            seen: next,
            halted,
            out: 0,
        }
    }
}

impl JobFiles for DiskFiles {
    ghost use Rattle.std.specs.Prelude.{true};

    type File = MemFile;

    ghost faults = { λ f. ⟦<MemDisk as Disk>⟧.faults f.disk };

    ghost is_told = { λ f. ⟦<MemDisk as Disk>⟧.is_told f.disk };

    ghost keeps_model = { λ f. ⟦<MemDisk as Disk>⟧.keeps_model f.disk };

    ghost halted = { λ f. f.halted };

    ghost next_number = { λ f. f.seen };

    ghost above = { λ f. f.next };

    ghost gave = { λ f n. true };

    fn next(&mut self) -> Result<(u64, MemFile), JobCause> {
        let number = self.next;
        self.seen = number;
        if let Some(since) = self.halted {
            return Err(JobCause::Halted { since });
        }
        if number >= 1 << 63 {
            return Err(JobCause::Files { next: number });
        }
        let Ok(file) = self.disk.create(FileName::Table(number)) else {
            return Err(JobCause::Fault);
        };
        self.next = number + 1;
        self.out = self.out.wrapping_add(1);
        Ok((number, file))
    }

    fn back(&mut self, file: MemFile) {
        self.out = self.out.wrapping_sub(1);
        self.disk.retire(file);
    }
}

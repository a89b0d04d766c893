//! What the jobs take and give: flushes and compactions.
ghost use Rattle.std.specs.Prelude.{◌≡◌, ◌≢◌, ◌<◌, ◌≤◌, ℕ, [], Bool, Option, IsTrue, IfOk, IfErr, OnOk};
ghost use Rattle.udt_disk.specs.declared.name.FileName.TheVariants.{Table as TableName};
ghost use Rattle.udt_disk.specs.Causes.{IsCause, plus_faults};
ghost use Rattle.super_version.specs.Jobs.{MayGive, MayRefuse, is_fault};

use crate::live_table::LiveTable;
use block_table::Table;
use ts_key::{Family, Ts};
use udt_disk::DiskFile;
use udt_model::{Items, KeySpan};

/// Why a job made no table.
#[derive(Clone, Copy, Debug, PartialEq, Eq)]
pub enum JobCause {
    /// The disk or a file failed.
    Fault,
    /// Memory ran out.
    Memory,
    /// There is no number left for a file: the next one is `next`.
    Files { next: u64 },
    /// The store is halted since the event of this number.
    Halted { since: u64 },
}

/// What a flush made: its table, how many versions that holds, and the floor that the family has with it.
#[derive(Drop)]
pub struct TableOut {
    pub table: Table,
    pub kept: u64,
    pub floor: Ts,
}

/// What a compaction is to do: the tables of the family that it takes, the level that it writes, and the spans of keys that
/// older tables below may hold.
#[derive(Drop)]
pub struct Plan {
    pub family: Family,
    pub inputs: Items<LiveTable>,
    pub level: u32,
    pub deeper: Items<KeySpan>,
}

/// A table that a compaction made, in its file, with how many versions it holds.
#[derive(Drop)]
pub struct Output<F> {
    pub number: u64,
    pub file: F,
    pub table: Table,
    pub kept: u64,
}

/// Where a job gets the files of its tables.
pub trait JobFiles {
    type File: DiskFile;

    /// How often it has failed, with the faults of the files that it took back. The count ends at 2^64 - 1.
    ghost faults: { Self → ℕ };

    /// The files that it gives tell what they hold.
    ghost is_told: { Self → Bool };

    /// The files that it gives keep the model of crashes.
    ghost keeps_model: { Self → Bool };

    /// The number of the event since which the store is halted, as the last `next` saw it.
    ghost halted: { Self → Option ℕ };

    /// The number of the next file, as the last `next` saw it.
    ghost next_number: { Self → ℕ };

    /// All numbers that it gave are below this one.
    ghost above: { Self → ℕ };

    /// It gave the file of this number, and didn't take it back.
    ghost gave: { Self → ℕ → Bool };

    /// Makes an empty file for a table, and answers its number, which is above those that it gave before. `Halted` comes
    /// exactly where the store is halted, else `Files` exactly where the next number is 2^63, else `Fault` only where the
    /// count rose.
    fn next(&mut self) -> Result<(u64, Self::File), JobCause>
        ensures given { IfOk result (λ made. MayGive (halted self.new) (next_number self.new) made.0) }
        ensures refused { IfErr result (MayRefuse (halted self.new) (next_number self.new)) }
        ensures higher { IfOk result (λ made. (above self.old ≤ made.0) × (made.0 < above self.new)) }
        ensures still { above self.old ≤ above self.new }
        ensures name { IfOk result (λ made. Self.File.name made.1 ≡ TableName made.0) }
        ensures gave { IfOk result (λ made. IsTrue (gave self.new made.0)) }
        ensures others { (n : ℕ) → IsTrue (gave self.old n) → IsTrue (gave self.new n) }
        ensures empty { IfOk result (λ made. IsTrue (is_told self.old) → Self.File.seen made.1 ≡ []) }
        ensures fresh { IfOk result (λ made. Self.File.faults made.1 ≡ 0) }
        ensures file_told { IfOk result (λ made. Self.File.is_told made.1 ≡ is_told self.old) }
        ensures file_model { IfOk result (λ made. Self.File.keeps_model made.1 ≡ keeps_model self.old) }
        ensures cause { IfErr result (λ why. IsCause (is_fault why) (faults self.old) (faults self.new)) }
        ensures kept { OnOk result (faults self.new ≡ faults self.old) }
        ensures later { faults self.old ≤ faults self.new }
        ensures told { is_told self.new ≡ is_told self.old }
        ensures model { keeps_model self.new ≡ keeps_model self.old };

    /// Takes a file back that `next` gave, and adds its faults. It never fails, and leaves what the last `next` saw.
    fn back(&mut self, file: Self::File)
        requires { (n : ℕ) × (Self.File.name file ≡ TableName n) × IsTrue (gave self.old n) }
        ensures others { (n : ℕ) → Self.File.name file ≢ TableName n → IsTrue (gave self.old n) → IsTrue (gave self.new n) }
        ensures faults { faults self.new ≡ plus_faults (faults self.old) (Self.File.faults file) }
        ensures later { faults self.old ≤ faults self.new }
        ensures still { above self.new ≡ above self.old }
        ensures seen { (halted self.new ≡ halted self.old) × (next_number self.new ≡ next_number self.old) }
        ensures told { is_told self.new ≡ is_told self.old }
        ensures model { keeps_model self.new ≡ keeps_model self.old };
}

//! What a file in memory holds, and its calls.

ghost use Rattle.std.specs.Prelude.{◌≡◌, map, ◌+◌, ◌-◌, ◌^◌, ◌<◌, ◌≤◌, min, [], ◌∷◌, ◌++◌, List, ℕ, length, reverse, true, take, drop, if◌then◌else◌, ◌↔◌, IsErr, IsTrue, IfOk, OnOk, OnErr, Some};
ghost use Rattle.std.specs.List.{list_any};
ghost use Rattle.udt_disk.specs.Bytes.{overwritten};
ghost use Rattle.udt_disk.specs.Causes.{plus_faults};
ghost use Rattle.udt_disk.specs.Crash.{Image};
ghost use Rattle.udt_disk.specs.History.{CallsLeave, is_synced};
ghost use Rattle.udt_disk.specs.Troubles.{is_due, counted_by};
ghost use Rattle.udt_disk.specs.declared.history.FileCall.TheVariants.{Wrote, Synced};

use crate::history::FileCall;
use crate::trouble::count_call;
use crate::{Failed, FileName, NoMemory, Trouble};
use std::alloc::Global;

/// A file of a folder in memory, wherever it is. It keeps its calls, so that each image of each moment is told.
#[derive(Drop)]
pub(crate) struct FileData {
    pub(crate) alloc: Global,
    pub(crate) name: FileName,
    /// What a read gives.
    pub(crate) bytes: Vec<u8>,
    /// Its calls since it was made, or since the folder was opened.
    pub(crate) calls: Vec<FileCall>,
    /// It may be missing after a crash until its first sync.
    pub(crate) may_miss: bool,
    /// It may hold any bytes after a crash until its first sync.
    pub(crate) may_differ: bool,
    /// How many bytes stood there when it was emptied.
    pub(crate) emptied: u64,
    /// It was synced since then.
    pub(crate) was_synced: bool,
    /// What is to go wrong, and how many calls it took since it was given out.
    pub(crate) troubles: Vec<Trouble>,
    pub(crate) uses: u64,
    pub(crate) troubled: u64,
    pub(crate) starved: u64,
    pub(crate) ghost synced: { was_synced ≡ is_synced (reverse calls.items) },
}

impl FileData {
    ghost use Rattle.udt_disk.specs.Crashed.{spoilt_len};

    /// Makes what a read gives now last, as if it had been synced.
    pub(crate) fn clean(&mut self)
        ensures bytes { self.new.bytes.items ≡ self.old.bytes.items }
        ensures only { (c : Image) → CallsLeave self.new.may_miss self.new.may_differ self.new.bytes.items (reverse self.new.calls.items) c → c ≡ Some self.old.bytes.items }
    {
        self.calls.clear();
        self.may_miss = false;
        self.may_differ = false;
        self.emptied = 0;
        self.was_synced = false;
    }

    /// How many bytes the file has after a crash whose outcome is `Hostile`.
    pub(crate) fn spoilt_len(&self) -> u64
        ensures { result ≡ spoilt_len self.now }
    {
        let len = self.bytes.len() as u64;
        if self.was_synced || !self.may_differ {
            return len;
        }
        len.max(self.emptied)
    }
}

/// Counts a call on a file that is held, and answers whether it is to fail.
fn is_troubled(
    troubles: &mut Vec<Trouble>,
    name: FileName,
    uses: &mut u64,
    troubled: &mut u64,
) -> bool
    ensures due { result ≡ list_any (is_due name) troubles.old.items }
    ensures counted { troubles.new.items ≡ map (counted_by name 1) troubles.old.items }
    ensures uses { uses.new ≡ plus_faults uses.old 1 }
    ensures troubled { troubled.new ≡ (if result then plus_faults troubled.old 1 else troubled.old) }
{
    let fails = count_call(troubles, name);
    *uses = uses.saturating_add(1);
    if fails {
        *troubled = troubled.saturating_add(1);
    }
    fails
}

/// Writes over the bytes and notes the call, or changes nothing.
fn write_over(
    alloc: Global,
    calls: &mut Vec<FileCall>,
    bytes: &mut Vec<u8>,
    at: u64,
    piece: &[u8],
) -> Result<(), NoMemory>
    requires { at ≤ length bytes.old.items }
    ensures bytes { OnOk result (bytes.new.items ≡ overwritten bytes.old.items at piece.now) }
    ensures noted { OnOk result ((over : _) × (over.items ≡ take (length piece.now) (drop at bytes.old.items)) × (calls.new.items ≡ calls.old.items ++ Wrote at (length piece.now) over ∷ [])) }
    ensures err { OnErr result (bytes.new.items ≡ bytes.old.items) }
    ensures err_calls { OnErr result (calls.new.items ≡ calls.old.items) }
{
    let from = at as usize;
    let over = piece.len().min(bytes.len() - from);
    let until = from + over;
    let written_over = Vec::from_slice(alloc, &bytes[from..until])?;
    calls.push(FileCall::Wrote(at, piece.len() as u64, written_over))?;
    if let Err(e) = bytes.extend_from_slice(&piece[over..]) {
        calls.pop();
        return Err(e);
    }
    bytes[from..until].copy_from_slice(&piece[..over]);
    Ok(())
}

/// Notes a sync, or changes nothing.
fn note_sync(calls: &mut Vec<FileCall>) -> Result<(), NoMemory>
    ensures noted { OnOk result (calls.new.items ≡ calls.old.items ++ Synced ∷ []) }
    ensures err { OnErr result (calls.new.items ≡ calls.old.items) }
{
    calls.push(FileCall::Synced)?;
    Ok(())
}

/// Reads from an offset on.
fn read_from(bytes: &[u8], at: u64, into: &mut [u8]) -> usize
    ensures bound { result ≤ length into.old }
    ensures read { take result into.new ≡ take (length into.old) (drop at bytes.now) }
{
    let from = (at as usize).min(bytes.len());
    let (_, rest) = bytes.split_at(from);
    let count = rest.len().min(into.len());
    into[..count].copy_from_slice(&rest[..count]);
    count
}

impl FileData {
    ghost use Rattle.udt_disk.specs.Tried.{FileTried, SameFile, IsWritten, IsSynced};

    pub(crate) fn len(&mut self) -> Result<u64, Failed>
        ensures tried { FileTried self.old self.new result }
        ensures exactly { IsErr result ↔ IsTrue (list_any (is_due self.old.name) self.old.troubles.items) }
        ensures same { SameFile self.old self.new }
        ensures name { self.new.name ≡ self.old.name }
        ensures len { IfOk result (λ n. n ≡ length self.old.bytes.items) }
    {
        if is_troubled(
            &mut self.troubles,
            self.name,
            &mut self.uses,
            &mut self.troubled,
        ) {
            return Err(Failed);
        }
        Ok(self.bytes.len() as u64)
    }

    pub(crate) fn read_at(&mut self, at: u64, into: &mut [u8]) -> Result<usize, Failed>
        ensures tried { FileTried self.old self.new result }
        ensures exactly { IsErr result ↔ IsTrue (list_any (is_due self.old.name) self.old.troubles.items) }
        ensures same { SameFile self.old self.new }
        ensures name { self.new.name ≡ self.old.name }
        ensures bound { IfOk result (λ n. n ≤ length into.old) }
        ensures read { IfOk result (λ n. take n into.new ≡ take (length into.old) (drop at self.old.bytes.items)) }
    {
        if is_troubled(
            &mut self.troubles,
            self.name,
            &mut self.uses,
            &mut self.troubled,
        ) {
            return Err(Failed);
        }
        Ok(read_from(&self.bytes, at, into))
    }

    pub(crate) fn write_at(&mut self, at: u64, bytes: &[u8]) -> Result<(), Failed>
        requires { at ≤ length self.old.bytes.items }
        ensures tried { FileTried self.old self.new result }
        ensures name { self.new.name ≡ self.old.name }
        ensures fits { OnOk result (at + length bytes.now ≤ 2 ^ 64 - 1) }
        ensures written { OnOk result (IsWritten at bytes.now self.old self.new) }
    {
        if is_troubled(
            &mut self.troubles,
            self.name,
            &mut self.uses,
            &mut self.troubled,
        ) {
            return Err(Failed);
        }
        match write_over(self.alloc, &mut self.calls, &mut self.bytes, at, bytes) {
            Ok(()) => Ok(()),
            Err(_) => {
                self.starved = self.starved.saturating_add(1);
                Err(Failed)
            }
        }
    }

    pub(crate) fn sync(&mut self) -> Result<(), Failed>
        ensures tried { FileTried self.old self.new result }
        ensures name { self.new.name ≡ self.old.name }
        ensures synced { OnOk result (IsSynced self.old self.new) }
    {
        if is_troubled(
            &mut self.troubles,
            self.name,
            &mut self.uses,
            &mut self.troubled,
        ) {
            return Err(Failed);
        }
        match note_sync(&mut self.calls) {
            Ok(()) => {
                self.was_synced = true;
                Ok(())
            }
            Err(_) => {
                self.starved = self.starved.saturating_add(1);
                Err(Failed)
            }
        }
    }
}

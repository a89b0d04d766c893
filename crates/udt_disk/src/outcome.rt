//! What a crash leaves of a folder in memory: three outcomes.

ghost use Rattle.std.specs.Prelude.{◌≡◌, ◌+◌, ℕ, length, reverse, replicate, Option, Some, IfOk, option_map, None};
ghost use Rattle.udt_disk.specs.History.{undone};
ghost use Rattle.udt_disk.specs.Outcomes.{synced_bytes, spoiled, spoiled_at};
ghost use Rattle.udt_disk.specs.Crashed.{synced_before, file_crash, place_crash, IsCleanPlace, IsCrashed};
ghost use Rattle.udt_disk.specs.Tree.{entry_from};
ghost use Rattle.udt_disk.specs.declared.name.FileName.{FileName as NameOf};

use crate::directory::{Directory, Late};
use crate::history::FileCall;
use crate::mem_file::FileData;
use crate::tree::{Entry, Fork, Place, Tree};
use crate::{FileName, NoMemory};
use std::alloc::Global;

/// What a crash leaves of all that wasn't synced.
#[derive(Clone, Copy, Debug, PartialEq, Eq)]
pub enum Outcome {
    /// None of it: bytes are as at the last sync, a created file is missing, an emptied or removed one is back.
    Lost,
    /// All of it.
    Kept,
    /// Files are as with `Kept`, but a removed one is back, and each unsynced byte is 0xA5: each that was written since the
    /// last sync, and each that a file had before it was emptied, where it wasn't synced since.
    Hostile,
}

/// The bytes before `count` bytes were written at an offset, over these.
fn undo(alloc: Global, now: &[u8], at: u64, count: u64, over: &[u8]) -> Result<Vec<u8>, NoMemory>
    ensures { IfOk result (λ bytes. bytes.items ≡ undone now.now at count over.now) }
{
    let front = (at as usize).min(now.len());
    let back = (at as usize).saturating_add(count as usize).min(now.len());
    let mut bytes = Vec::from_slice(alloc, &now[..front])?;
    bytes.extend_from_slice(over)?;
    bytes.extend_from_slice(&now[back..])?;
    Ok(bytes)
}

/// What a read gave at the last sync, or before the first call.
fn undo_unsynced(alloc: Global, now: &[u8], calls: &[FileCall]) -> Result<Vec<u8>, NoMemory>
    ensures { IfOk result (λ bytes. bytes.items ≡ synced_bytes now.now (reverse calls.now)) }
{
    match calls.split_last() {
        None | Some((FileCall::Synced, _)) => Vec::from_slice(alloc, now),
        Some((FileCall::Wrote(at, count, over), earlier)) => {
            let before = undo(alloc, now, *at, *count, over)?;
            undo_unsynced(alloc, &before, earlier)
        }
    }
}

/// `count` bytes 0xA5.
fn filler(alloc: Global, count: u64) -> Result<Vec<u8>, NoMemory>
    ensures { IfOk result (λ bytes. bytes.items ≡ replicate count 165) }
{
    let mut filler = Vec::new(alloc);
    filler.resize(count as usize, 0xA5)?;
    Ok(filler)
}

/// 0xA5 in each of `count` bytes from an offset on, where that isn't past the end.
fn spoil_at(alloc: Global, bytes: Vec<u8>, at: u64, count: u64) -> Result<Vec<u8>, NoMemory>
    ensures { IfOk result (λ spoilt. spoilt.items ≡ spoiled_at bytes.items at count) }
{
    if at > bytes.len() as u64 {
        return Ok(bytes);
    }
    let filler = filler(alloc, count)?;
    undo(alloc, &bytes, at, count, &filler)
}

/// What a read gives, with 0xA5 in place of what was written since the last sync, and of as many bytes as were emptied
/// before the first call.
fn spoil(alloc: Global, now: &[u8], calls: &[FileCall], emptied: u64) -> Result<Vec<u8>, NoMemory>
    ensures { IfOk result (λ bytes. bytes.items ≡ spoiled emptied now.now (reverse calls.now)) }
{
    match calls.split_last() {
        None => {
            let mut bytes = Vec::from_slice(alloc, now)?;
            let emptied = filler(alloc, emptied)?;
            bytes.extend_from_slice(&emptied)?;
            Ok(bytes)
        }
        Some((FileCall::Synced, _)) => Vec::from_slice(alloc, now),
        Some((FileCall::Wrote(at, count, over), earlier)) => {
            let before = undo(alloc, now, *at, *count, over)?;
            let bytes = spoil(alloc, &before, earlier, emptied)?;
            spoil_at(alloc, bytes, *at, *count)
        }
    }
}

impl FileData {
    /// What a read gave at the last sync, or before the first call.
    fn at_last_sync(&self, alloc: Global) -> Result<Vec<u8>, NoMemory>
        ensures { IfOk result (λ bytes. Some bytes.items ≡ synced_before (Some self.now)) }
    {
        undo_unsynced(alloc, &self.bytes, &self.calls)
    }

    /// What the outcome leaves of the file, where `before` stands under its name if it is lost.
    fn after_crash(
        &self,
        alloc: Global,
        outcome: Outcome,
        before: Option<Vec<u8>>,
    ) -> Result<Option<Vec<u8>>, NoMemory>
        ensures { IfOk result (λ left. option_map (λ v. v.items) left ≡ file_crash outcome self.now (option_map (λ v. v.items) before)) }
    {
        match outcome {
            Outcome::Kept => Ok(Some(Vec::from_slice(alloc, &self.bytes)?)),
            Outcome::Hostile => {
                let emptied = if self.may_differ { self.emptied } else { 0 };
                Ok(Some(spoil(alloc, &self.bytes, &self.calls, emptied)?))
            }
            Outcome::Lost => {
                let bytes = self.at_last_sync(alloc)?;
                if self.was_synced {
                    return Ok(Some(bytes));
                }
                match before {
                    Some(bytes) if self.may_differ => Ok(Some(bytes)),
                    _ if self.may_miss => Ok(None),
                    _ => Ok(Some(bytes)),
                }
            }
        }
    }
}

impl Place {
    /// The place after a crash with the outcome, as `FileData::after_crash` says.
    fn after_crash(
        &self,
        alloc: Global,
        outcome: Outcome,
        before: Option<Vec<u8>>,
    ) -> Result<Place, NoMemory>
        ensures { IfOk result (λ place. IsCleanPlace (Some place) (place_crash outcome self.now (option_map (λ v. v.items) before))) }
    {
        let left = match (self, outcome) {
            (Place::Home(file), _)
            | (Place::Gone(file), Outcome::Lost)
            | (Place::Gone(file), Outcome::Hostile) => file.after_crash(alloc, outcome, before)?,
            (Place::Out, Outcome::Lost) => before,
            _ => None,
        };
        Ok(clean_place(alloc, left))
    }
}

/// The place of a file with these bytes, or of none, of which a crash leaves nothing else.
fn clean_place(alloc: Global, bytes: Option<Vec<u8>>) -> Place
    ensures { IsCleanPlace (Some result) (option_map (λ v. v.items) bytes) }
{
    match bytes {
        None => Place::Missing,
        Some(bytes) => Place::Home(FileData {
            alloc,
            name: FileName::Made,
            bytes,
            calls: Vec::new(alloc),
            may_miss: false,
            may_differ: false,
            emptied: 0,
            was_synced: false,
            troubles: Vec::new(alloc),
            uses: 0,
            troubled: 0,
            starved: 0,
        }),
    }
}

impl Entry {
    /// The entry after a crash with the outcome.
    fn after_crash(&self, alloc: Global, outcome: Outcome) -> Result<Entry, NoMemory>
        ensures name { IfOk result (λ entry. entry.name ≡ self.now.name) }
        ensures crashed { IfOk result (λ entry. IsCrashed outcome (Some self.now) (Some entry)) }
    {
        let before = match &self.before {
            Some(file) => Some(file.at_last_sync(alloc)?),
            None => None,
        };
        Ok(Entry {
            name: self.name,
            place: self.place.after_crash(alloc, outcome, before)?,
            before: None,
            since: 0,
        })
    }
}

impl Tree {
    /// The entries after a crash with the outcome.
    fn after_crash(&self, alloc: Global, outcome: Outcome) -> Result<Tree, NoMemory>
        ensures { IfOk result (λ tree. (b : ℕ) (n : NameOf) → IsCrashed outcome (entry_from self.now b n) (entry_from tree b n)) }
    {
        match self {
            Tree::Empty => Ok(Tree::Empty),
            Tree::Fork(fork) => {
                let entry = fork.entry.after_crash(alloc, outcome)?;
                let even = fork.even.after_crash(alloc, outcome)?;
                let odd = fork.odd.after_crash(alloc, outcome)?;
                Ok(Tree::Fork(Box::new(alloc, Fork { entry, even, odd })?))
            }
        }
    }
}

impl Directory {
    ghost use Rattle.udt_disk.specs.AfterCrash.{IsAfterCrash};

    /// The files after a crash with the outcome.
    pub(crate) fn after_crash(&self, alloc: Global, outcome: Outcome) -> Result<Directory, NoMemory>
        ensures { IfOk result (IsAfterCrash outcome self.now) }
    {
        Ok(Directory {
            tree: self.tree.after_crash(alloc, outcome)?,
            returns: 0,
            late: Late::Never,
        })
    }
}

//! The flushes of a store: its one client starts and ends them.

ghost use Rattle.std.specs.Prelude.{◌≡◌, ℕ, List, None, Some, IsTrue, [], length};
ghost use Rattle.udt_model.specs.declared.event.Event.TheVariants.{FlushEnd as FlushEndEvent, FlushStart as FlushStartEvent};
ghost use Rattle.store_engine.specs.Installing.{flush_end_reply};
ghost use Rattle.solo_store.specs.Flushing.{IsFlushWritten, dropped_told, sealed_in, told_undone, told_without_file};
ghost use Rattle.solo_store.specs.Names.{family_named as number_named};
ghost use Rattle.solo_store.specs.Replies.{halted_behind};

use crate::flushable::are_flushable;
use crate::store::{RunningFlush, Store};
use flush_job::run_flush;
use std::alloc::Global;
use store_engine::{EngineFault, Sealed};
use super_version::{JobCause, SuperVersion, TableOut};
use ts_key::{Family, Name, Ts};
use udt_disk::{Disk, DiskFile};
use udt_model::Reply;

/// What is told of a flush that made no table.
fn dropped(cause: JobCause) -> Reply
    ensures { result ≡ dropped_told cause }
{
    match cause {
        JobCause::Fault => Reply::DroppedFault,
        JobCause::Memory => Reply::DroppedMemory,
        JobCause::Files { next } => Reply::DroppedFiles { next },
        JobCause::Halted { since } => Reply::Halted { since },
    }
}

/// What is told of a flush for which there was no file.
fn without_file(fault: EngineFault) -> Reply
    ensures { result ≡ told_without_file fault }
{
    match fault {
        EngineFault::FilesFull { next } => Reply::DroppedFiles { next },
        EngineFault::NoMemory => Reply::DroppedMemory,
        _ => Reply::DroppedFault,
    }
}

/// How many sealed memtables the family has.
fn count_sealed(version: &SuperVersion, family: Family) -> usize
    ensures { result ≡ length (sealed_in version.now family) }
{
    match version.family(family) {
        None => 0,
        Some(state) => state.sealed.len(),
    }
}

/// What is told of a flush that ended with this table.
fn table_told(version: &SuperVersion, family: Family, table: u64, out: &TableOut) -> Reply
    ensures { result ≡ flush_end_reply version.now family table out.now }
{
    let floor = match version.family(family) {
        None => out.floor,
        Some(state) => Ts(state.floor.0.max(out.floor.0)),
    };
    Reply::Table {
        table,
        kept: out.kept,
        floor,
    }
}

/// Writes the table of a flush into this file: of all sealed memtables of the family. Where there is no memory, and where the memtables
/// aren't such as may be flushed, no call is made on the file.
fn write_flush<F: DiskFile>(
    alloc: Global,
    version: &SuperVersion,
    flush: RunningFlush,
    file: &mut F,
) -> Result<TableOut, JobCause>
    requires { IsTrue (F.is_told file.old) → F.seen file.old ≡ [] }
    ensures { IsFlushWritten F.DiskFile version.now flush file.old file.new result }
{
    let Some(state) = version.family(flush.family) else {
        return Err(JobCause::Memory);
    };
    let mems = state.sealed.as_slice();
    match are_flushable(alloc, flush.family, mems) {
        Ok(true) => run_flush(alloc, mems, state.form, flush.floor, &[], file),
        _ => Err(JobCause::Memory),
    }
}

impl<D: Disk> Store<D> {
    ghost use Rattle.solo_store.specs.Steps.{IsStep, RunsFlush, StartsFlush};
    ghost use Rattle.solo_store.specs.Stores.{IsStoreReady, now_of};

    /// Notes that a flush of all that is sealed of the family runs, since the event of this number.
    fn note_flush(&mut self, start: u64, family: Family, floor: Ts) -> Reply
        ensures told { result ≡ Reply.OkAt (now_of self.old).last.0 }
        ensures runs { self.new ≡ record self.old { flush = Some (record { start = start; family = family; through = (now_of self.old).last; floor = floor }) } }
    {
        let through = self.version.as_ref().last;
        self.flush = Some(RunningFlush {
            start,
            family,
            through,
            floor,
        });
        Reply::OkAt { number: through.0 }
    }

    /// Starts a flush of what a family has in memory, as the event of this number. Where it answers `ok`, the flush runs until
    /// `end_flush`, and takes the versions up to the sequence that is told. `Unknown`, `Halted` and `Busy` are tested in this
    /// order, then `none` comes where nothing is unflushed, and `files` where no file number is left.
    pub fn start_flush(&mut self, alloc: Global, number: u64, family: &Name) -> Reply
        requires { IsStoreReady D.Disk D.File.DiskFile self.old }
        ensures step { IsStep D.Disk D.File.DiskFile self.old self.new number (FlushStartEvent family.now) result }
        ensures started { StartsFlush result self.old self.new number family.now }
    {
        let family = self.family_of(family);
        let Some(state) = self.version.as_ref().family(family) else {
            return Reply::Unknown;
        };
        let floor = state.floor;
        if let Some(since) = self.halted {
            return Reply::Halted { since };
        }
        if let Some(flush) = self.flush {
            return Reply::Busy { start: flush.start };
        }
        match self.engine.seal(alloc, self.version.as_ref(), family) {
            Ok(Sealed::Nothing) => Reply::Nothing,
            Ok(Sealed::Waiting) => self.note_flush(number, family, floor),
            Ok(Sealed::Rolled { version, mems: _ }) => {
                self.version = version;
                self.note_flush(number, family, floor)
            }
            Err(fault) => self.refused(number, fault),
        }
    }

    /// Ends the flush that runs, which is of this family and start, as the event of this number: its table is written and made live.
    /// Where that can't be, the flush is dropped and the memtables stay, and it tells why: `Halted` where the disk had failed
    /// before, `DroppedFiles` where no file number is left, `DroppedFault` where the disk failed before the log and the manifest were
    /// touched, `Fault` where it failed then, and `DroppedMemory`.
    pub fn end_flush(&mut self, alloc: Global, number: u64, family: &Name, start: u64) -> Reply
        requires ready { IsStoreReady D.Disk D.File.DiskFile self.old }
        requires runs { RunsFlush self.old start family.now }
        ensures step { IsStep D.Disk D.File.DiskFile self.old self.new number (FlushEndEvent family.now start) result }
        ensures ended { self.new.flush ≡ None }
    {
        let _named = family;
        let Some(flush) = self.flush else {
            unreachable!()
        };
        if let Some(since) = self.halted {
            self.flush = None;
            return Reply::Halted { since };
        }
        self.finish(alloc, number, flush)
    }

    /// The same where the disk hasn't failed, and this is the flush that runs.
    fn finish(&mut self, alloc: Global, number: u64, flush: RunningFlush) -> Reply
        requires ready { IsStoreReady D.Disk D.File.DiskFile self.old }
        requires works { self.old.halted ≡ None }
        requires runs { self.old.flush ≡ Some flush }
        ensures step { (name : List ℕ) → flush.family ≡ number_named self.old.names.items name → IsStep D.Disk D.File.DiskFile self.old self.new number (FlushEndEvent name flush.start) result }
        ensures ended { self.new.flush ≡ None }
    {
        self.flush = None;
        let (table, mut file) = match self.engine.new_job_file() {
            Ok(made) => made,
            Err(fault) => return without_file(fault),
        };
        let version = self.version.as_ref();
        let out = match write_flush(alloc, version, flush, &mut file) {
            Ok(out) => out,
            Err(cause) => {
                self.engine.discard(file);
                return dropped(cause);
            }
        };
        let told = table_told(version, flush.family, table, &out);
        let gone = count_sealed(version, flush.family);
        match self.engine.install_flush(
            alloc,
            version,
            flush.family,
            gone,
            flush.through,
            table,
            file,
            out,
        ) {
            Ok(next) => {
                self.version = next;
                told
            }
            Err(fault) => self.undone(number, fault),
        }
    }

    /// What is told of a flush whose table wasn't installed. After a fault of the disk the store is halted.
    fn undone(&mut self, number: u64, fault: EngineFault) -> Reply
        ensures told { result ≡ told_undone fault }
        ensures halted { self.new ≡ record self.old { halted = halted_behind self.old.halted number fault } }
    {
        match fault {
            EngineFault::DiskFault => {
                self.halted = Some(number);
                Reply::Fault
            }
            _ => Reply::DroppedMemory,
        }
    }
}

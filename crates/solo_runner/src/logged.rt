//! A plain store beside the write-ahead log that keeps it.
ghost use Rattle.std.specs.Prelude.{◌≡◌, ℕ, ◌+◌, ◌-◌, ◌^◌, ◌<◌, ◌≤◌, ◌++◌, length, drop, map, All, None};
ghost use Rattle.ts_key.specs.declared.limits.TheConstants.{BATCH_LIMIT, SEQUENCE_LIMIT};
ghost use Rattle.ts_key.specs.Batches.{IsBatch};
ghost use Rattle.ts_key.specs.declared.batch.WriteOp.{WriteOp as Operation};
ghost use Rattle.udt_model.specs.declared.event.Event.TheVariants.{Write, Get};
ghost use Rattle.udt_model.specs.declared.event.NamedOp.{NamedOp as Named};
ghost use Rattle.client_lang.specs.Print.{IsBuilt};
ghost use Rattle.wal.specs.Wals.{wal_file, wal_sizes};
ghost use Rattle.solo_runner.specs.Adding.{op_of_version};
ghost use Rattle.solo_runner.specs.Logging.{HasRoom, IsLogged, batch_behind};

use super::store::{PlainStore, told_or_want};
use gate_log::LogFault;
use ts_key::{Batch, Key, Name, Seq, Ts};
use udt_disk::DiskFile;
use udt_model::{Event, NamedOp, Reply};
use wal::{PENDING_LIMIT, Wal};

/// Adds a batch to those that wait, and syncs the log where that is asked or `PENDING_LIMIT` bytes wait then.
fn log_batch<F: DiskFile>(
    wal: &mut Wal<F>,
    first: Seq,
    batch: &Batch,
    sync: bool,
) -> Result<(), LogFault>
    requires first { 1 ≤ first.0 }
    requires last { first.0 + length batch.now ≤ SEQUENCE_LIMIT + 1 }
    requires families { All (λ (op : Operation). op.family.0 < length (wal_sizes wal.old)) batch.now }
    requires room { HasRoom F.DiskFile wal.old first.0 }
    ensures { IsLogged F.DiskFile wal.old wal.new (record { first = first; batch = batch.now }) sync result }
{
    match wal.append(first, batch) {
        Ok(()) => {}
        Err(_) => return Err(LogFault::NoMemory),
    }
    if !sync && wal.pending() < PENDING_LIMIT {
        return Ok(());
    }
    match wal.sync() {
        Ok(()) => Ok(()),
        Err(_) => Err(LogFault::DiskFault),
    }
}

/// Adds the batch of the versions behind the first `count` to the log, under the sequences behind the last one.
fn log_behind<F: DiskFile>(
    plain: &PlainStore,
    wal: &mut Wal<F>,
    count: usize,
    sync: bool,
) -> Result<(), LogFault>
    requires within { count ≤ length plain.now.versions }
    requires batch { IsBatch (map op_of_version (drop count plain.now.versions)) }
    requires last { plain.now.last.0 + length (map op_of_version (drop count plain.now.versions)) < SEQUENCE_LIMIT + 1 }
    requires families { All (λ (op : Operation). op.family.0 < length (wal_sizes wal.old)) (map op_of_version (drop count plain.now.versions)) }
    requires room { HasRoom F.DiskFile wal.old (plain.now.last.0 + 1) }
    ensures { IsLogged F.DiskFile wal.old wal.new (batch_behind plain.now count) sync result }
{
    let Ok(batch) = plain.batch_behind(count) else {
        return Err(LogFault::NoMemory);
    };
    let last = plain.last();
    log_batch(wal, Seq(last.0 + 1), &batch, sync)
}

/// A store in memory, the number of the event at which the disk failed, and the log. Until the disk failed the log
/// holds each write, or has it waiting.
pub struct LoggedStore<F: DiskFile> {
    plain: PlainStore,
    halted: Option<u64>,
    wal: Wal<F>,
}

impl<F: DiskFile> LoggedStore<F> {
    ghost use Rattle.client_lang.specs.Stamps.{IsStampedEvent};
    ghost use Rattle.solo_runner.specs.LoggedStores.{IsInStep, IsStep, store_state, wal_of};

    /// A store whose writes go on in this log.
    pub fn new(plain: PlainStore, wal: Wal<F>) -> LoggedStore<F>
        ensures state { store_state result ≡ record plain { halted = None } }
        ensures wal { wal_of result ≡ wal }
    {
        LoggedStore {
            plain,
            halted: None,
            wal,
        }
    }

    /// The reply to the event of this number, after which the store is as the model says. After a fault of the disk it
    /// takes no more writes. Want of memory changes nothing.
    pub fn step(&mut self, number: u64, event: &Event) -> Reply
        requires built { IsBuilt event.now }
        requires stamped { IsStampedEvent event.now }
        requires in_step { IsInStep F.DiskFile (wal_of self.old) (store_state self.old) }
        ensures { IsStep F.DiskFile (wal_of self.old) (wal_of self.new) (store_state self.old) (store_state self.new) number event.now result }
    {
        match event {
            Event::Sync => self.sync(number),
            Event::Write { ops, sync } => self.write(number, ops.as_slice(), *sync),
            Event::Get {
                family,
                key,
                t,
                snap: _,
            } => self.get(family, key, *t),
            _ => unreachable!(),
        }
    }

    /// Puts what waits on the disk.
    fn sync(&mut self, number: u64) -> Reply
        requires in_step { IsInStep F.DiskFile (wal_of self.old) (store_state self.old) }
        ensures { IsStep F.DiskFile (wal_of self.old) (wal_of self.new) (store_state self.old) (store_state self.new) number Event.Sync result }
    {
        if let Some(since) = self.halted {
            return Reply::Halted { since };
        }
        match self.wal.sync() {
            Ok(()) => Reply::Done,
            Err(_) => {
                self.halted = Some(number);
                Reply::Fault
            }
        }
    }

    /// Takes a write whole, or leaves the store as it was.
    fn write(&mut self, number: u64, ops: &[NamedOp], sync: bool) -> Reply
        requires some { 0 < length ops.now }
        requires within { length ops.now ≤ BATCH_LIMIT }
        requires stamped { All (λ (o : Named). o.ts.0 ≤ 2 ^ 64 - 2) ops.now }
        requires in_step { IsInStep F.DiskFile (wal_of self.old) (store_state self.old) }
        ensures { IsStep F.DiskFile (wal_of self.old) (wal_of self.new) (store_state self.old) (store_state self.new) number (Write ops.now sync) result }
    {
        match self.halted {
            Some(since) => match self.plain.unknown(ops) {
                Some(refusal) => refusal,
                None => Reply::Halted { since },
            },
            None => self.take(number, ops, sync),
        }
    }

    /// Takes a write whole, or leaves the store as it was, where it isn't halted.
    fn take(&mut self, number: u64, ops: &[NamedOp], sync: bool) -> Reply
        requires some { 0 < length ops.now }
        requires within { length ops.now ≤ BATCH_LIMIT }
        requires stamped { All (λ (o : Named). o.ts.0 ≤ 2 ^ 64 - 2) ops.now }
        requires in_step { IsInStep F.DiskFile (wal_of self.old) (store_state self.old) }
        requires works { (store_state self.old).halted ≡ None }
        ensures { IsStep F.DiskFile (wal_of self.old) (wal_of self.new) (store_state self.old) (store_state self.new) number (Write ops.now sync) result }
    {
        let count = self.plain.count();
        match self.plain.admit(ops) {
            Ok(None) => {}
            Ok(Some(refusal)) => return refusal,
            Err(_) => return Reply::NoMemory,
        }
        match log_behind(&self.plain, &mut self.wal, count, sync) {
            Ok(()) => self.plain.number(ops.len()),
            Err(LogFault::NoMemory) => {
                self.plain.take_back(count);
                Reply::NoMemory
            }
            Err(LogFault::DiskFault) => {
                self.plain.take_back(count);
                self.halted = Some(number);
                Reply::Fault
            }
        }
    }

    /// The value of a key at a timestamp, among all versions; also once the disk failed.
    fn get(&self, family: &Name, key: &Key, t: Ts) -> Reply
        requires in_step { IsInStep F.DiskFile (wal_of self.now) (store_state self.now) }
        ensures { (number : ℕ) → IsStep F.DiskFile (wal_of self.now) (wal_of self.now) (store_state self.now) (store_state self.now) number (Get family.now key.now t None) result }
    {
        told_or_want(self.plain.get(family, key, t))
    }

    /// The file of the log.
    pub fn into_file(self) -> F
        ensures { result ≡ wal_file (wal_of self) }
    {
        let LoggedStore {
            plain: _,
            halted: _,
            wal,
        } = self;
        wal.into_file()
    }
}

//! The write-ahead log and its calls.

ghost use Rattle.std.specs.Prelude.{◌≡◌, ◌⊎◌, ◌==◌, ◌&&◌, ℕ, ◌+◌, ◌^◌, ◌<◌, ◌≤◌, [], ◌∷◌, ◌++◌, List, Some, length, All, IfOk, IfErr, IsOk, OnOk, OnErr, IsTrue, false};
ghost use Rattle.udt_disk.specs.Causes.{HasCause, IsCause, Rose, plus_faults};
ghost use Rattle.udt_disk.specs.Touches.{Touches};
ghost use Rattle.udt_disk.specs.Joint.{Ran, IsFree};
ghost use Rattle.udt_disk.specs.Moments.{holding};
ghost use Rattle.udt_disk.specs.Runs.{Leaves, IsOnlyRead, IsSameFile, file_after};
ghost use Rattle.udt_disk.specs.declared.name.FileName.{FileName as NameOf};
ghost use Rattle.udt_disk.specs.declared.name.FileName.TheVariants.{Log};
ghost use Rattle.udt_disk.specs.Crash.{Only, NoMore};
ghost use Rattle.gate_log.specs.declared.frame.TheConstants.{FRAME_LIMIT};
ghost use Rattle.gate_log.specs.GateLog.{log_room};
ghost use Rattle.gate_log.specs.Outcomes.{IsFramesFault};
ghost use Rattle.gate_log.specs.Faults.{is_log_disk_fault, is_frames_disk_fault};
ghost use Rattle.gate_log.specs.Frames.{IsLog, with_frame};
ghost use Rattle.gate_log.specs.Reads.{IsBad};
ghost use Rattle.wal.specs.declared.numbered.Numbered.{Numbered as NumberedBatch};
ghost use Rattle.ts_key.specs.Batches.{IsBatch};
ghost use Rattle.ts_key.specs.declared.batch.WriteOp.{WriteOp as Operation};
ghost use Rattle.wal.specs.Records.{batch_bytes};
ghost use Rattle.wal.specs.Bodies.{front_bytes};
ghost use Rattle.ts_key.specs.Writing.{Extends};
ghost use Rattle.wal.specs.Writing.{IsShortOp};
ghost use Rattle.wal.specs.Sequences.{IsNumberedWithin};
ghost use Rattle.wal.specs.Making.{IsWhileMade, held_with};
ghost use Rattle.wal.specs.Reserving.{OnlyReserves};
ghost use Rattle.wal.specs.Replays.{LogHolds, IsBeforeOrAfter, IsReplayFault, is_replay_disk_fault, log_fault_of};

use crate::NoMemory;
use crate::fault::{FrameFault, ReplayFault};
use crate::frames::batches_of;
use crate::numbered::Numbered;
use crate::record::{put_batch, put_sizes};
use crate::sizes::Sizes;
use gate_log::{Frame, FramesFault, GateLog, LogFault};
use std::alloc::Global;
use ts_key::{Batch, FAMILY_LIMIT, SEQUENCE_LIMIT, Seq};
use udt_disk::{Disk, DiskFile, Failed, FileName};

/// Fewer bytes than these wait where a batch may be added.
pub const PENDING_LIMIT: u64 = 1_048_576;

/// A write-ahead log in a file that it holds, and the batches that wait for its next sync. After a call that answered
/// `Failed` it only allows `into_file`, but for `roll`, which leaves it as it was.
pub struct Wal<F: DiskFile> {
    log: GateLog<F>,
    sizes: Sizes,
    /// The body of the frame that the next sync writes.
    waiting: Vec<u8>,
    /// The log has no frame.
    is_fresh: bool,
    ghost fits: { length waiting.items ≤ FRAME_LIMIT },
    ghost reserved: { length waiting.items ≤ log_room log },
}

/// Adds the size record, where the body is that of the first frame.
fn put_front(waiting: &mut Vec<u8>, sizes: &[u8], is_first: bool) -> Result<(), NoMemory>
    requires { length sizes.now ≤ FAMILY_LIMIT }
    ensures written { OnOk result (waiting.new.items ≡ waiting.old.items ++ front_bytes sizes.now is_first) }
    ensures extends { Extends waiting.old.items waiting.new.items }
{
    if is_first {
        put_sizes(waiting, sizes)
    } else {
        Ok(())
    }
}

/// Adds a batch to the body of the next frame, and makes room for that in the log. Where memory runs out, what was there
/// still stands at the front.
fn lay_out<F: DiskFile>(
    log: &mut GateLog<F>,
    waiting: &mut Vec<u8>,
    sizes: &[u8],
    is_fresh: bool,
    first: Seq,
    batch: &Batch,
) -> Result<(), NoMemory>
    requires { length sizes.now ≤ FAMILY_LIMIT }
    ensures written { OnOk result (waiting.new.items ≡ waiting.old.items ++ (front_bytes sizes.now (is_fresh && (length waiting.old.items == 0)) ++ batch_bytes (record { first = first; batch = batch.now }))) }
    ensures valid { OnOk result (IsBatch batch.now) }
    ensures short { OnOk result (All IsShortOp batch.now) }
    ensures room { OnOk result (length waiting.new.items ≤ log_room log.new) }
    ensures extends { Extends waiting.old.items waiting.new.items }
    ensures kept { OnlyReserves F.DiskFile log.old log.new }
{
    let is_first = is_fresh && waiting.is_empty();
    put_front(waiting, sizes, is_first)?;
    put_batch(waiting, first, batch)?;
    log.reserve(waiting.len())
}

/// What is told of log `number`, by what is wrong with the bodies of its frames.
fn log_fault(number: u64, fault: FrameFault) -> ReplayFault
    ensures { result ≡ log_fault_of number fault }
{
    match fault {
        FrameFault::Bad { at } => ReplayFault::BadLog { number, at },
        FrameFault::NoMemory => ReplayFault::NoMemory,
    }
}

/// What is told of log `number` where these frames stand before one that isn't whole, at an offset. A bad body among them
/// stands first.
fn torn_fault(alloc: Global, before: &[Frame], at: u64, number: u64, sizes: &Sizes) -> ReplayFault
    ensures refused { (bytes : List ℕ) → IsBad before.now at bytes → ((bodies : List (List ℕ)) → IsLog bodies bytes → ⊥) → IsReplayFault sizes.now number bytes result }
    ensures cause { is_replay_disk_fault result ≡ false }
{
    let Err(earlier) = batches_of(alloc, before, sizes) else {
        return ReplayFault::BadLog { number, at };
    };
    log_fault(number, earlier)
}

/// What is told of log `number`, by what is wrong with its frames.
fn replay_fault(alloc: Global, fault: FramesFault, number: u64, sizes: &Sizes) -> ReplayFault
    ensures refused { (bytes : List ℕ) → IsFramesFault fault bytes → IsReplayFault sizes.now number bytes result }
    ensures cause { is_replay_disk_fault result ≡ is_frames_disk_fault fault }
{
    match fault {
        FramesFault::BadFrame { at, before } => torn_fault(alloc, &before, at, number, sizes),
        FramesFault::DiskFault => ReplayFault::DiskFault,
        FramesFault::NoMemory => ReplayFault::NoMemory,
    }
}

impl<F: DiskFile> Wal<F> {
    ghost use Rattle.wal.specs.Wals.{wal_file, wal_sizes, wal_pending, wal_waiting, waiting_with, wal_end, IsWalOf, Holds, IsWalReady, MayGoOn};

    /// Makes the file of log `number`, and in it a log without frames, on the disk. A crash at any moment leaves under its
    /// name what it might have left there before; or none, or a file of one byte at most; or, where a file was there, any
    /// bytes. Where that fails, the file is given back. Where memory ran out, the file reads as empty.
    pub fn create<D: Disk<File = F>>(
        alloc: Global,
        disk: &mut D,
        number: u64,
        sizes: Sizes,
    ) -> Result<Wal<F>, LogFault>
        ensures holds { IfOk result (λ wal. IsTrue (D.is_told disk.old) → Holds F.DiskFile wal [] []) }
        ensures goes_on { IfOk result (λ wal. (first : ℕ) → MayGoOn F.DiskFile wal first) }
        ensures durable { IfOk result (λ wal. Only (F.seen (wal_file wal)) (F.may_leave (wal_file wal))) }
        ensures name { IfOk result (λ wal. F.name (wal_file wal) ≡ Log number) }
        ensures sizes { IfOk result (λ wal. wal_sizes wal ≡ sizes) }
        ensures pending { IfOk result (λ wal. wal_pending wal ≡ 0) }
        ensures written { IfOk result (λ wal. IsTrue (D.is_told disk.old) → F.seen (wal_file wal) ≡ 90 ∷ []) }
        ensures fresh { IfOk result (λ wal. F.faults (wal_file wal) ≡ 0) }
        ensures told { IfOk result (λ wal. F.is_told (wal_file wal) ≡ D.is_told disk.old) }
        ensures model { IfOk result (λ wal. F.keeps_model (wal_file wal) ≡ D.keeps_model disk.old) }
        ensures touches { Touches D.Disk (λ (n : NameOf). n ≡ Log number) disk.old disk.new }
        ensures kept { OnOk result (D.faults disk.new ≡ D.faults disk.old) }
        ensures cause { IfErr result (λ fault. IsCause (is_log_disk_fault fault) (D.faults disk.old) (D.faults disk.new)) }
        ensures unmade { IfErr result (λ fault. fault ≡ LogFault.NoMemory → IsTrue (D.is_told disk.old) → D.stands disk.new (Log number) ≡ Some []) }
        // Other files may be held meanwhile.
        ensures moments { (others : List F) → IsFree D.Disk F.DiskFile (holding disk.old others) (Log number) → Ran D.Disk F.DiskFile (IsWhileMade D.Disk F.DiskFile (holding disk.old others) (Log number)) (holding disk.old others) (holding disk.new (held_with wal_file result others)) }
    {
        let Ok(file) = disk.create(FileName::Log(number)) else {
            return Err(LogFault::DiskFault);
        };
        match GateLog::create(alloc, file) {
            Ok(log) => Ok(Wal {
                log,
                sizes,
                waiting: Vec::new(alloc),
                is_fresh: true,
            }),
            Err((file, fault)) => {
                disk.retire(file);
                Err(fault)
            }
        }
    }

    /// The log in a file, and its batches. `BadLog` comes exactly where the file is outside of the grammar, with the number
    /// and the offset of the first frame that is. The file is only read, and handed back where that fails.
    pub fn replay(
        alloc: Global,
        file: F,
        number: u64,
        sizes: Sizes,
    ) -> Result<(Wal<F>, Vec<Numbered>), (F, ReplayFault)>
        ensures read { IfOk result (λ r. IsTrue (F.is_told file) → LogHolds sizes r.1.items (F.seen file)) }
        ensures only { IfOk result (λ r. IsTrue (F.is_told file) → (others : List NumberedBatch) → LogHolds sizes others (F.seen file) → others ≡ r.1.items) }
        ensures shown { IfOk result (λ r. IsTrue (F.is_told file) → IsWalOf F.DiskFile r.0 r.1.items []) }
        ensures at_rest { IfOk result (λ r. IsTrue (F.is_told file) → Only (F.seen file) (F.may_leave file) → Holds F.DiskFile r.0 r.1.items []) }
        ensures sizes { IfOk result (λ r. wal_sizes r.0 ≡ sizes) }
        ensures pending { IfOk result (λ r. wal_pending r.0 ≡ 0) }
        ensures within { IfOk result (λ r. All IsNumberedWithin r.1.items) }
        ensures refused { IfErr result (λ e. IsTrue (F.is_told file) → IsReplayFault sizes number (F.seen file) e.1) }
        ensures same { IsOnlyRead F.DiskFile file (file_after (λ r. wal_file r.0) result) }
        ensures kept { IfOk result (λ r. F.faults (wal_file r.0) ≡ F.faults file) }
        ensures cause { IfErr result (λ e. IsCause (is_replay_disk_fault e.1) (F.faults file) (F.faults e.0)) }
    {
        let (log, frames) = match GateLog::of(alloc, file) {
            Ok(read) => read,
            Err((file, fault)) => return Err((file, replay_fault(alloc, fault, number, &sizes))),
        };
        match batches_of(alloc, &frames, &sizes) {
            Ok(batches) => {
                let wal = Wal {
                    log,
                    sizes,
                    waiting: Vec::new(alloc),
                    is_fresh: frames.is_empty(),
                };
                Ok((wal, batches))
            }
            Err(fault) => Err((log.into_file(), log_fault(number, fault))),
        }
    }

    /// Adds a batch to those that wait. Its first sequence is at least 1, and one above the last sequence of this log,
    /// where it has one; those that wait count. Its last sequence is at most `SEQUENCE_LIMIT`, its families are in the
    /// list of sizes, and fewer than `PENDING_LIMIT` bytes wait. Want of memory leaves the log as it was. It makes no call
    /// on the file.
    pub fn append(&mut self, first: Seq, batch: &Batch) -> Result<(), NoMemory>
        requires first { 1 ≤ first.0 }
        requires last { first.0 + length batch.now ≤ SEQUENCE_LIMIT + 1 }
        requires families { All (λ (op : Operation). op.family.0 < length (wal_sizes self.old)) batch.now }
        requires room { wal_pending self.old < PENDING_LIMIT }
        requires next { MayGoOn F.DiskFile self.old first.0 }

        ensures waits { (batches waiting : List NumberedBatch) → IsWalOf F.DiskFile self.old batches waiting → OnOk result (IsWalOf F.DiskFile self.new batches (waiting ++ record { first = first; batch = batch.now } ∷ [])) }
        ensures holds { (batches waiting : List NumberedBatch) → Holds F.DiskFile self.old batches waiting → OnOk result (Holds F.DiskFile self.new batches (waiting ++ record { first = first; batch = batch.now } ∷ [])) }
        ensures goes_on { OnOk result (MayGoOn F.DiskFile self.new (first.0 + length batch.now)) }
        ensures more { OnOk result (wal_pending self.old < wal_pending self.new) }
        ensures bytes { OnOk result (wal_waiting self.new ≡ waiting_with self.old (record { first = first; batch = batch.now })) }

        ensures err_waits { (batches waiting : List NumberedBatch) → IsWalOf F.DiskFile self.old batches waiting → OnErr result (IsWalOf F.DiskFile self.new batches waiting) }
        ensures err_holds { (batches waiting : List NumberedBatch) → Holds F.DiskFile self.old batches waiting → OnErr result (Holds F.DiskFile self.new batches waiting) }
        ensures err_goes_on { OnErr result (MayGoOn F.DiskFile self.new first.0) }
        ensures err_pending { OnErr result (wal_pending self.new ≡ wal_pending self.old) }

        ensures file { wal_file self.new ≡ wal_file self.old }
        ensures sizes { wal_sizes self.new ≡ wal_sizes self.old }
    {
        let before = self.waiting.len();
        match lay_out(
            &mut self.log,
            &mut self.waiting,
            self.sizes.sizes(),
            self.is_fresh,
            first,
            batch,
        ) {
            Ok(()) => Ok(()),
            Err(fault) => {
                self.waiting.truncate(before);
                Err(fault)
            }
        }
    }

    /// How many bytes wait: the body of the frame that the next `sync` writes, and none where no batch waits.
    pub fn pending(&self) -> u64
        ensures { result ≡ wal_pending self.now }
    {
        self.waiting.len() as u64
    }

    /// Writes all batches that wait as one frame. After `Ok` they are on the disk. A crash at any moment of the call leaves the
    /// batches from before, or these and all that waited. Where nothing waits it does nothing. It takes no memory.
    pub fn sync(&mut self) -> Result<(), Failed>
        requires { IsWalReady F.DiskFile self.old }

        ensures synced { (batches waiting : List NumberedBatch) → IsWalOf F.DiskFile self.old batches waiting → OnOk result (IsWalOf F.DiskFile self.new (batches ++ waiting) []) }
        ensures holds { (batches waiting : List NumberedBatch) → Holds F.DiskFile self.old batches waiting → OnOk result (Holds F.DiskFile self.new (batches ++ waiting) []) }
        ensures durable { (batches waiting : List NumberedBatch) → IsWalOf F.DiskFile self.old batches waiting → 0 < wal_pending self.old → OnOk result (Holds F.DiskFile self.new (batches ++ waiting) []) }
        ensures goes_on { (first : ℕ) → MayGoOn F.DiskFile self.old first → OnOk result (MayGoOn F.DiskFile self.new first) }
        ensures moments { (batches waiting : List NumberedBatch) → Holds F.DiskFile self.old batches waiting → Leaves F.DiskFile (wal_file self.old) (wal_file self.new) (IsBeforeOrAfter (wal_sizes self.old) batches waiting) }
        ensures pending { OnOk result (wal_pending self.new ≡ 0) }
        ensures written { OnOk result (0 < wal_pending self.old → IsTrue (F.is_told (wal_file self.old)) → F.seen (wal_file self.new) ≡ with_frame (F.seen (wal_file self.old)) (wal_end self.old) (wal_waiting self.old)) }
        ensures none { wal_pending self.old ≡ 0 → IsOk result × (wal_file self.new ≡ wal_file self.old) }
        ensures cause { HasCause (F.faults (wal_file self.old)) (F.faults (wal_file self.new)) result }
        ensures same { IsSameFile F.DiskFile (wal_file self.old) (wal_file self.new) }
        ensures sizes { wal_sizes self.new ≡ wal_sizes self.old }
    {
        if self.waiting.is_empty() {
            return Ok(());
        }
        self.log.append(&self.waiting)?;
        self.waiting.clear();
        self.is_fresh = false;
        Ok(())
    }

    /// Goes on with a new file, that of log `number`, as a log without frames, and gives the old one back. Nothing may wait.
    /// Where that fails, the log is as it was. A crash at any moment leaves under the new name what it might have left
    /// there before; or none, or a file of one byte at most; or, where a file was there, any bytes. It takes no memory.
    pub fn roll<D: Disk<File = F>>(&mut self, disk: &mut D, number: u64) -> Result<(), Failed>
        requires { wal_pending self.old ≡ 0 }
        ensures holds { OnOk result (IsTrue (D.is_told disk.old) → Holds F.DiskFile self.new [] []) }
        ensures goes_on { OnOk result ((first : ℕ) → MayGoOn F.DiskFile self.new first) }
        ensures durable { OnOk result (Only (F.seen (wal_file self.new)) (F.may_leave (wal_file self.new))) }
        ensures name { OnOk result (F.name (wal_file self.new) ≡ Log number) }
        ensures written { OnOk result (IsTrue (D.is_told disk.old) → F.seen (wal_file self.new) ≡ 90 ∷ []) }
        ensures fresh { OnOk result (F.faults (wal_file self.new) ≡ 0) }
        ensures told { OnOk result (F.is_told (wal_file self.new) ≡ D.is_told disk.old) }
        ensures model { OnOk result (F.keeps_model (wal_file self.new) ≡ D.keeps_model disk.old) }

        ensures old_stands { OnOk result (IsTrue (D.is_told disk.old) → IsTrue (F.is_told (wal_file self.old)) → D.stands disk.new (F.name (wal_file self.old)) ≡ Some (F.seen (wal_file self.old))) }
        ensures old_leaves { OnOk result (NoMore (F.may_leave (wal_file self.old)) (D.may_leave disk.new (F.name (wal_file self.old)))) }
        ensures counted { OnOk result (D.faults disk.new ≡ plus_faults (D.faults disk.old) (F.faults (wal_file self.old))) }

        ensures err { OnErr result (self.new ≡ self.old) }
        ensures cause { OnErr result (Rose (D.faults disk.old) (D.faults disk.new)) }
        ensures later { D.faults disk.old ≤ D.faults disk.new }
        ensures sizes { wal_sizes self.new ≡ wal_sizes self.old }
        ensures pending { wal_pending self.new ≡ 0 }
        ensures touches { Touches D.Disk (λ (n : NameOf). (n ≡ Log number) ⊎ (n ≡ F.name (wal_file self.old))) disk.old disk.new }
        // Other files may be held meanwhile.
        ensures moments { (others : List F) → IsFree D.Disk F.DiskFile (holding disk.old (wal_file self.old ∷ others)) (Log number) → IsFree D.Disk F.DiskFile (holding disk.old others) (F.name (wal_file self.old)) → Ran D.Disk F.DiskFile (IsWhileMade D.Disk F.DiskFile (holding disk.old (wal_file self.old ∷ others)) (Log number)) (holding disk.old (wal_file self.old ∷ others)) (holding disk.new (wal_file self.new ∷ others)) }
    {
        let file = disk.create(FileName::Log(number))?;
        match self.log.restart(file) {
            Ok(old) => {
                self.is_fresh = true;
                disk.retire(old);
                Ok(())
            }
            Err((file, failed)) => {
                disk.retire(file);
                Err(failed)
            }
        }
    }

    /// The file that it holds.
    pub fn into_file(self) -> F
        ensures { result ≡ wal_file self }
    {
        let Wal {
            log,
            sizes: _,
            waiting: _,
            is_fresh: _,
        } = self;
        log.into_file()
    }
}

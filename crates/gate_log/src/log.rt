//! The calls of a log of frames.

ghost use Rattle.std.specs.Prelude.{◌≡◌, ℕ, ◌+◌, ◌-◌, ◌^◌, ◌<◌, ◌≤◌, [], ◌∷◌, ◌++◌, List, length, map, IfOk, IfErr, OnOk, OnErr, IsTrue};
ghost use Rattle.udt_disk.specs.Causes.{HasCause, IsCause, Rose};
ghost use Rattle.udt_disk.specs.Crash.{Only};
ghost use Rattle.udt_disk.specs.Runs.{Leaves, MayTear, IsOnlyRead, IsSameFile, WritesSynced, file_after};
ghost use Rattle.gate_log.specs.Faults.{is_log_disk_fault, is_frames_disk_fault, IsUntouched};
ghost use Rattle.gate_log.specs.Frames.{IsBody, IsWithOrWithout, with_frame};
ghost use Rattle.gate_log.specs.Reads.{body_of};
ghost use Rattle.gate_log.specs.Outcomes.{IsReading, IsFramesFault, IsOnlyPlace};

use crate::frame::{CLOSED, OPEN, lay_out};
use crate::image::read_frames;
use crate::{Frame, FramesFault, LogFault, NoMemory};
use std::alloc::{AllocError, Global};
use std::mem;
use udt_disk::{DiskFile, Failed};

/// How many bytes stand behind the gate of a frame beside its body: its length, and the next gate.
const BESIDES_BODY: usize = 5;

/// A log of frames in a file that it holds. After an `append` that answered `Failed` it only allows `into_file`. A `restart`
/// that fails leaves it as it was.
pub struct GateLog<F: DiskFile> {
    file: F,
    /// The offset of the gate behind the last frame.
    end: u64,
    /// The room in which the next frame is laid out.
    room: Vec<u8>,
    ghost fits: { end < 2 ^ 64 - 1 },
}

/// Writes what stands behind the closed gate at an offset, and syncs it.
fn stage<F: DiskFile>(file: &mut F, gate: u64, behind: &[u8]) -> Result<(), Failed>
    requires fits { gate < 2 ^ 64 - 1 }
    requires within { IsTrue (F.is_told file.old) → gate + 1 ≤ length (F.seen file.old) }
    ensures { WritesSynced F.DiskFile (gate + 1) behind.now file.old file.new result }
{
    file.write_at(gate + 1, behind)?;
    file.sync()
}

/// Opens the gate at an offset, and syncs it.
fn open_gate<F: DiskFile>(file: &mut F, gate: u64) -> Result<(), Failed>
    requires { IsTrue (F.is_told file.old) → gate ≤ length (F.seen file.old) }
    ensures { WritesSynced F.DiskFile gate (165 ∷ []) file.old file.new result }
{
    file.write_at(gate, &[OPEN])?;
    file.sync()
}

/// Makes a log without frames of an empty file, and syncs it.
fn close_first_gate<F: DiskFile>(file: &mut F) -> Result<(), Failed>
    ensures { WritesSynced F.DiskFile 0 (90 ∷ []) file.old file.new result }
{
    file.write_at(0, &[CLOSED])?;
    file.sync()
}

impl<F: DiskFile> GateLog<F> {
    ghost use Rattle.gate_log.specs.GateLog.{log_file, log_end, log_room, IsLogOf, IsAtRest, IsLogReady};

    /// A log without frames in a file that was just made, on the disk: one closed gate. The file is handed back where that
    /// fails, as it was given where memory ran out. A crash at any moment leaves the file as it might have left it before, but
    /// for its first byte. It takes no memory today.
    pub fn create(alloc: Global, file: F) -> Result<GateLog<F>, (F, LogFault)>
        requires empty { IsTrue (F.is_told file) → F.seen file ≡ [] }
        ensures at_rest { IfOk result (λ log. IsTrue (F.is_told file) → IsAtRest F.DiskFile log []) }
        ensures durable { IfOk result (λ log. Only (F.seen (log_file log)) (F.may_leave (log_file log))) }
        ensures moments { Leaves F.DiskFile file (file_after log_file result) (MayTear 0 1 (F.may_leave file)) }
        ensures same { IsSameFile F.DiskFile file (file_after log_file result) }
        ensures kept { IfOk result (λ log. F.faults (log_file log) ≡ F.faults file) }
        ensures cause { IfErr result (λ e. IsCause (is_log_disk_fault e.1) (F.faults file) (F.faults e.0)) }
        ensures written { IfOk result (λ log. IsTrue (F.is_told file) → F.seen (log_file log) ≡ 90 ∷ []) }
        ensures untouched { IfErr result (λ e. IsUntouched e.1 file e.0) }
    {
        let mut file = file;
        match close_first_gate(&mut file) {
            Ok(()) => Ok(GateLog {
                file,
                end: 0,
                room: Vec::new(alloc),
            }),
            Err(Failed) => Err((file, LogFault::DiskFault)),
        }
    }

    /// The log in a file, and its frames. `BadFrame` comes exactly where the file is no log: where an open gate stands before a
    /// frame that isn't whole, or at 0 where the file is empty. What stands behind a gate that isn't open is never looked
    /// at, and little of it is read. The file is only read, and handed back where that fails.
    pub fn of(alloc: Global, file: F) -> Result<(GateLog<F>, Vec<Frame>), (F, FramesFault)>
        ensures read { IfOk result (λ r. IsTrue (F.is_told file) → IsReading r.1.items (F.seen file)) }
        ensures logged { IfOk result (λ r. IsTrue (F.is_told file) → IsLogOf F.DiskFile r.0 (map body_of r.1.items)) }
        ensures at_rest { IfOk result (λ r. IsTrue (F.is_told file) → Only (F.seen file) (F.may_leave file) → IsAtRest F.DiskFile r.0 (map body_of r.1.items)) }
        ensures refused { IfErr result (λ e. IsTrue (F.is_told file) → IsFramesFault e.1 (F.seen file)) }
        ensures same { IsOnlyRead F.DiskFile file (file_after (λ r. log_file r.0) result) }
        ensures kept { IfOk result (λ r. F.faults (log_file r.0) ≡ F.faults file) }
        ensures cause { IfErr result (λ e. IsCause (is_frames_disk_fault e.1) (F.faults file) (F.faults e.0)) }
        ensures place { IfErr result (λ e. IsTrue (F.is_told file) → IsOnlyPlace e.1 (F.seen file)) }
    {
        let mut file = file;
        match read_frames(alloc, &mut file) {
            Ok((frames, end)) => {
                let log = GateLog {
                    file,
                    end: end as u64,
                    room: Vec::new(alloc),
                };
                Ok((log, frames))
            }
            Err(fault) => Err((file, fault)),
        }
    }

    /// Makes room for a frame of so many bytes, by which the next `append` takes no memory. It makes no call on the file.
    pub fn reserve(&mut self, len: usize) -> Result<(), NoMemory>
        ensures room { OnOk result (len ≤ log_room self.new) }
        ensures kept { log_room self.old ≤ log_room self.new }
        ensures failed { OnErr result (log_room self.new ≡ log_room self.old) }
        ensures file { log_file self.new ≡ log_file self.old }
        ensures end { log_end self.new ≡ log_end self.old }
        ensures logged { (bodies : List (List ℕ)) → IsLogOf F.DiskFile self.old bodies → IsLogOf F.DiskFile self.new bodies }
        ensures at_rest { (bodies : List (List ℕ)) → IsAtRest F.DiskFile self.old bodies → IsAtRest F.DiskFile self.new bodies }
    {
        let Some(room) = len.checked_add(BESIDES_BODY) else {
            return Err(AllocError);
        };
        self.room.clear();
        self.room.reserve(room)
    }

    /// Adds a frame, written over what stands from the closed gate on. After `Ok` it is on the disk. A crash at any moment of
    /// the call leaves the frames from before it, with the new one or without. It takes no memory.
    pub fn append(&mut self, frame: &[u8]) -> Result<(), Failed>
        requires size { IsBody frame.now }
        requires room { length frame.now ≤ log_room self.old }
        requires ready { IsLogReady F.DiskFile self.old }

        ensures appended { (bodies : List (List ℕ)) → IsLogOf F.DiskFile self.old bodies → OnOk result (IsAtRest F.DiskFile self.new (bodies ++ frame.now ∷ [])) }
        ensures moments { (bodies : List (List ℕ)) → IsAtRest F.DiskFile self.old bodies → Leaves F.DiskFile (log_file self.old) (log_file self.new) (IsWithOrWithout bodies frame.now) }
        ensures cause { HasCause (F.faults (log_file self.old)) (F.faults (log_file self.new)) result }
        ensures same { IsSameFile F.DiskFile (log_file self.old) (log_file self.new) }
        ensures written { OnOk result (IsTrue (F.is_told (log_file self.old)) → F.seen (log_file self.new) ≡ with_frame (F.seen (log_file self.old)) (log_end self.old) frame.now) }
        ensures kept { log_room self.old ≤ log_room self.new }
    {
        lay_out(&mut self.room, frame);
        stage(&mut self.file, self.end, &self.room)?;
        open_gate(&mut self.file, self.end)?;
        self.end += frame.len() as u64 + 5;
        Ok(())
    }

    /// Goes on with a file that was just made as a log without frames, and answers the old file. Where it fails it hands the
    /// new file back and is as it was. A crash at any moment leaves the new file as it might have left it before, but for
    /// its first byte. It takes no memory.
    pub fn restart(&mut self, file: F) -> Result<F, (F, Failed)>
        requires empty { IsTrue (F.is_told file) → F.seen file ≡ [] }
        ensures old { IfOk result (λ old. old ≡ log_file self.old) }
        ensures at_rest { OnOk result (IsTrue (F.is_told file) → IsAtRest F.DiskFile self.new []) }
        ensures durable { OnOk result (Only (F.seen (log_file self.new)) (F.may_leave (log_file self.new))) }
        ensures moments { OnOk result (Leaves F.DiskFile file (log_file self.new) (MayTear 0 1 (F.may_leave file))) }
        ensures same { OnOk result (IsSameFile F.DiskFile file (log_file self.new)) }
        ensures kept { OnOk result (F.faults (log_file self.new) ≡ F.faults file) }
        ensures room { log_room self.new ≡ log_room self.old }
        ensures written { OnOk result (IsTrue (F.is_told file) → F.seen (log_file self.new) ≡ 90 ∷ []) }

        ensures err { OnErr result (self.new ≡ self.old) }
        ensures err_moments { IfErr result (λ e. Leaves F.DiskFile file e.0 (MayTear 0 1 (F.may_leave file))) }
        ensures err_same { IfErr result (λ e. IsSameFile F.DiskFile file e.0) }
        ensures cause { IfErr result (λ e. Rose (F.faults file) (F.faults e.0)) }
    {
        let mut file = file;
        match close_first_gate(&mut file) {
            Ok(()) => {
                self.end = 0;
                Ok(mem::replace(&mut self.file, file))
            }
            Err(Failed) => Err((file, Failed)),
        }
    }

    /// The file that it holds.
    pub fn into_file(self) -> F
        ensures { result ≡ log_file self }
    {
        let GateLog {
            file,
            end: _,
            room: _,
        } = self;
        file
    }
}

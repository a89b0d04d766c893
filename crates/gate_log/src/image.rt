//! The frames of a file, read piece by piece up to the first gate that isn't open.

ghost use Rattle.std.specs.Prelude.{◌≡◌, ℕ, List, ◌+◌, ◌^◌, ◌≢◌, ◌<◌, ◌≤◌, [], ◌∷◌, ◌++◌, length, take, drop, slice_index, vec_len, IfOk, IfErr, IfSome, IfNone, OnOk, IsTrue, true, false};
ghost use Rattle.udt_disk.specs.Causes.{IsCause};
ghost use Rattle.udt_disk.specs.Runs.{IsOnlyRead};
ghost use Rattle.gate_log.specs.Faults.{is_log_disk_fault, is_frames_disk_fault};
ghost use Rattle.gate_log.specs.Reads.{IsWhole, IsFront};
ghost use Rattle.gate_log.specs.Fronts.{IsFrontOf, IsReadTo, TellsNext, HasBody};
ghost use Rattle.gate_log.specs.Outcomes.{IsFrontFault};
ghost use Rattle.gate_log.specs.declared.image.TheConstants.{PIECE};

use crate::frame::OPEN;
use crate::{FRAME_LIMIT, Frame, FramesFault, LogFault, NoMemory};
use std::alloc::Global;
use udt_disk::{DiskFile, Failed};

/// How many bytes are read at once. A real file that is found pays a sync for each such piece.
const PIECE: usize = 1_048_576;

/// What was read of a file so far, from its front, and the room for the next piece.
#[derive(Drop)]
struct Front {
    bytes: Vec<u8>,
    piece: Vec<u8>,
    ghost size: { length piece.items ≡ PIECE },
}

impl Front {
    fn new(alloc: Global) -> Result<Front, NoMemory>
        ensures { IfOk result (λ front. front.bytes.items ≡ []) }
    {
        let mut piece = Vec::new(alloc);
        piece.resize(PIECE, 0)?;
        Ok(Front {
            bytes: Vec::new(alloc),
            piece,
        })
    }
}

/// Reads one piece more, and tells whether it was a whole one.
fn read_piece<F: DiskFile>(file: &mut F, front: &mut Front) -> Result<bool, LogFault>
    requires { IsTrue (F.is_told file.old) → IsFrontOf front.old.bytes.items (F.seen file.old) }
    ensures front { IfOk result (λ _. IsTrue (F.is_told file.old) → IsFrontOf front.new.bytes.items (F.seen file.old)) }
    ensures more { IfOk result (λ whole. whole ≡ true → length front.new.bytes.items ≡ length front.old.bytes.items + PIECE) }
    ensures grows { length front.old.bytes.items ≤ length front.new.bytes.items }
    ensures last { IfOk result (λ whole. whole ≡ false → IsTrue (F.is_told file.old) → front.new.bytes.items ≡ F.seen file.old) }
    ensures same { IsOnlyRead F.DiskFile file.old file.new }
    ensures kept { OnOk result (F.faults file.new ≡ F.faults file.old) }
    ensures cause { IfErr result (λ fault. IsCause (is_log_disk_fault fault) (F.faults file.old) (F.faults file.new)) }
{
    match file.read_at(front.bytes.len() as u64, &mut front.piece) {
        Ok(count) => match front.bytes.extend_from_slice(&front.piece[..count]) {
            Ok(()) => Ok(count == PIECE),
            Err(_) => Err(LogFault::NoMemory),
        },
        Err(Failed) => Err(LogFault::DiskFault),
    }
}

/// Reads on until so many bytes were read, or the file ends.
fn read_to<F: DiskFile>(file: &mut F, front: &mut Front, want: usize) -> Result<(), LogFault>
    requires { IsTrue (F.is_told file.old) → IsFrontOf front.old.bytes.items (F.seen file.old) }
    ensures read { OnOk result (IsTrue (F.is_told file.old) → IsReadTo want front.new.bytes.items (F.seen file.old)) }
    ensures grows { length front.old.bytes.items ≤ length front.new.bytes.items }
    ensures same { IsOnlyRead F.DiskFile file.old file.new }
    ensures kept { OnOk result (F.faults file.new ≡ F.faults file.old) }
    ensures cause { IfErr result (λ fault. IsCause (is_log_disk_fault fault) (F.faults file.old) (F.faults file.new)) }
{
    while front.bytes.len() < want {
        if !read_piece(file, front)? {
            return Ok(());
        }
    }
    Ok(())
}

/// The length of the frame behind an open gate, where it is whole.
fn whole(rest: &[u8]) -> Option<usize>
    ensures found { IfSome result (λ n. IsWhole n rest.now) }
    ensures none { IfNone result ((n : ℕ) → IsWhole n rest.now → ⊥) }
{
    let (size, _) = rest.split_first_chunk::<4>()?;
    let n = u32::from_le_bytes(*size) as usize;
    if n == 0 || n > FRAME_LIMIT || rest.len() < n + 5 {
        return None;
    }
    Some(n)
}

/// Adds the frame whose gate stands at an offset, and behind whose gate stands `rest`.
fn push_frame(
    alloc: Global,
    rest: &[u8],
    at: usize,
    n: usize,
    frames: &mut Vec<Frame>,
) -> Result<(), NoMemory>
    requires { n + 5 ≤ length rest.now }
    ensures { OnOk result (frames.new.items ≡ frames.old.items ++ record { at = at; bytes = take n (drop 4 rest.now) } ∷ []) }
{
    frames.push(Frame {
        at: at as u64,
        bytes: rest[4..4 + n].to_vec(alloc)?,
    })?;
    Ok(())
}

/// What stands at an offset of a log: a gate that isn't open; an open one before a whole frame with so long a body; or
/// neither, where the log is bad.
enum Next {
    Shut,
    Frame(usize),
    Bad,
}

/// The length that stands in front, at most `FRAME_LIMIT`.
fn length_in(rest: &[u8]) -> usize
    ensures found { (n : ℕ) (behind : List ℕ) → 4 ≤ length rest.now → IsWhole n (rest.now ++ behind) → result ≡ n }
    ensures short { result ≤ FRAME_LIMIT }
{
    match rest.split_first_chunk::<4>() {
        Some((size, _)) => (u32::from_le_bytes(*size) as usize).min(FRAME_LIMIT),
        None => 0,
    }
}

/// What stands at an offset, for which as much is read as it takes.
fn next_at<F: DiskFile>(file: &mut F, front: &mut Front, at: usize) -> Result<Next, LogFault>
    requires front { IsTrue (F.is_told file.old) → IsFrontOf front.old.bytes.items (F.seen file.old) }
    requires within { at ≤ length front.old.bytes.items }
    ensures next { IfOk result (λ next. IsTrue (F.is_told file.old) → TellsNext next at (F.seen file.old)) }
    ensures front { IfOk result (λ _. IsTrue (F.is_told file.old) → IsFrontOf front.new.bytes.items (F.seen file.old)) }
    ensures body { IfOk result (λ next. HasBody next at front.new.bytes.items) }
    ensures same { IsOnlyRead F.DiskFile file.old file.new }
    ensures kept { OnOk result (F.faults file.new ≡ F.faults file.old) }
    ensures cause { IfErr result (λ fault. IsCause (is_log_disk_fault fault) (F.faults file.old) (F.faults file.new)) }
{
    read_to(file, front, at + 5)?;
    if front.bytes.len() <= at {
        return Ok(Next::Bad);
    }
    if front.bytes[at] != OPEN {
        return Ok(Next::Shut);
    }
    let n = length_in(&front.bytes[at + 1..]);
    read_to(file, front, at + n + 6)?;
    match whole(&front.bytes[at + 1..]) {
        Some(n) => Ok(Next::Frame(n)),
        None => Ok(Next::Bad),
    }
}

/// The frames of a file, and the offset of the gate behind them.
pub(crate) fn read_frames<F: DiskFile>(
    alloc: Global,
    file: &mut F,
) -> Result<(Vec<Frame>, usize), FramesFault>
    ensures front { IfOk result (λ r. IsTrue (F.is_told file.old) → IsFront r.0.items r.1 (F.seen file.old)) }
    ensures shut { IfOk result (λ r. IsTrue (F.is_told file.old) → TellsNext Next.Shut r.1 (F.seen file.old)) }
    ensures refused { IfErr result (λ fault. IsTrue (F.is_told file.old) → IsFrontFault fault (F.seen file.old)) }
    ensures bound { IfOk result (λ r. r.1 < 2 ^ 63) }
    ensures same { IsOnlyRead F.DiskFile file.old file.new }
    ensures kept { OnOk result (F.faults file.new ≡ F.faults file.old) }
    ensures cause { IfErr result (λ fault. IsCause (is_frames_disk_fault fault) (F.faults file.old) (F.faults file.new)) }
{
    let mut front = Front::new(alloc)?;
    let mut frames = Vec::new(alloc);
    let mut at: usize = 0;
    loop {
        match next_at(file, &mut front, at)? {
            Next::Shut => return Ok((frames, at)),
            Next::Bad => {
                return Err(FramesFault::BadFrame {
                    at: at as u64,
                    before: frames,
                });
            }
            Next::Frame(n) => {
                push_frame(alloc, &front.bytes[at + 1..], at, n, &mut frames)?;
                at += n + 5;
            }
        }
    }
}

//! The batches in the frames of a log.

ghost use Rattle.std.specs.Prelude.{◌≡◌, ℕ, ◌≤◌, ◌++◌, [], ◌∷◌, List, length, All};
ghost use Rattle.wal.specs.Bodies.{HoldsBatches, AddsBody};
ghost use Rattle.wal.specs.Sequences.{IsNumberedWithin};
ghost use Rattle.wal.specs.Replays.{ReadsFrames};

use crate::body::read_body;
use crate::fault::{BodyFault, FrameFault};
use crate::numbered::Numbered;
use crate::sequence::{goes_on, next_sequence};
use crate::sizes::Sizes;
use gate_log::Frame;
use std::alloc::Global;

/// Adds the batches of a frame's body to those of the frames before it. `Bad` comes exactly where the log doesn't go on with
/// this body.
fn add_body(
    alloc: Global,
    body: &[u8],
    sizes: &Sizes,
    batches: &mut Vec<Numbered>,
) -> Result<(), BodyFault>
    requires { All IsNumberedWithin batches.old.items }
    ensures { (bodies : List (List ℕ)) → HoldsBatches sizes.now bodies batches.old.items → AddsBody sizes.now bodies body.now batches.new.items result }
{
    let mut here = read_body(alloc, body, sizes, batches.is_empty())?;
    if !goes_on(next_sequence(batches), &here) {
        return Err(BodyFault::Bad);
    }
    batches.append(&mut here)?;
    Ok(())
}

/// The batches that the frames of a log hold. `Bad` names the first frame whose body is outside of the grammar.
pub(crate) fn batches_of(
    alloc: Global,
    frames: &[Frame],
    sizes: &Sizes,
) -> Result<Vec<Numbered>, FrameFault>
    ensures { ReadsFrames sizes.now frames.now result }
{
    let mut batches = Vec::new(alloc);
    for frame in frames {
        match add_body(alloc, &frame.bytes, sizes, &mut batches) {
            Ok(()) => {}
            Err(BodyFault::Bad) => return Err(FrameFault::Bad { at: frame.at }),
            Err(BodyFault::NoMemory) => return Err(FrameFault::NoMemory),
        }
    }
    Ok(batches)
}

//! What the later frames of a manifest make of the fold of its head.

ghost use Rattle.edit_log.specs.Replays.{FoldsEdits};

use crate::EditsFault;
use gate_log::Frame;
use manifest_fold::{Folded, fold_body};
use std::alloc::Global;

/// What frames make of a fold, one after another. `BadEdit` comes exactly where one of them is no edit, or none that the fold
/// of those before it accepts; it names the first. It costs time linear in the bytes times the logarithm of the live tables,
/// and linear in the live logs for each edit that drops one.
pub fn fold_edits(alloc: Global, start: Folded, frames: &[Frame]) -> Result<Folded, EditsFault>
    ensures { FoldsEdits start frames.now result }
{
    let mut fold = start;
    for frame in frames {
        match fold_body(alloc, fold, &frame.bytes)? {
            Some(next) => fold = next,
            None => return Err(EditsFault::BadEdit { at: frame.at }),
        }
    }
    Ok(fold)
}

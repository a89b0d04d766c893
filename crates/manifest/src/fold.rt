//! What the frames of a manifest add up to.
ghost use Rattle.std.specs.Prelude.{◌≡◌, map, IfOk};
ghost use Rattle.manifest.specs.Folds.{family_fold, fold_of};
ghost use Rattle.manifest.specs.Answers.{Folds};

use crate::reading::read_head;
use crate::{ManifestFault, NoMemory};
use edit_log::{EditsFault, fold_edits};
use gate_log::Frame;
use manifest_edit::LiveTables;
use manifest_fold::{FamilyFold, Folded};
use std::alloc::Global;
use ts_key::{FIRST_LOG, Seq, Ts};
use udt_model::{FamilyHead, Items};

/// The fold of frames, or None where there is none. `BadManifest` names the first frame that isn't in the grammar.
pub(crate) fn fold_frames(alloc: Global, frames: &[Frame]) -> Result<Option<Folded>, ManifestFault>
    ensures { Folds frames.now result }
{
    let Some((first, later)) = frames.split_first() else {
        return Ok(None);
    };
    let Some(families) = read_head(alloc, &first.bytes)? else {
        return Err(ManifestFault::BadManifest { at: first.at });
    };
    let start = new_fold(alloc, &families)?;
    match fold_edits(alloc, start, later) {
        Ok(fold) => Ok(Some(fold)),
        Err(EditsFault::BadEdit { at }) => Err(ManifestFault::BadManifest { at }),
        Err(EditsFault::NoMemory) => Err(ManifestFault::NoMemory),
    }
}

/// What the head of these families stands for. It shares their names' bytes.
pub(crate) fn new_fold(alloc: Global, families: &[FamilyHead]) -> Result<Folded, NoMemory>
    ensures { IfOk result (λ fold. fold ≡ fold_of families.now) }
{
    let families = new_families(alloc, families)?;
    Ok(Folded {
        families: Items::of(families),
        logs: Items::of(vec![in alloc; FIRST_LOG]?),
        next_file: FIRST_LOG + 1,
        last: Seq(0),
    })
}

fn new_families(alloc: Global, families: &[FamilyHead]) -> Result<Vec<FamilyFold>, NoMemory>
    ensures { IfOk result (λ folds. folds.items ≡ map family_fold families.now) }
{
    let mut folds = Vec::new(alloc);
    for family in families {
        folds.push(new_family(alloc, family)?)?;
    }
    Ok(folds)
}

/// A family as a head has it.
fn new_family(alloc: Global, family: &FamilyHead) -> Result<FamilyFold, NoMemory>
    ensures { IfOk result (λ fold. fold ≡ family_fold family.now) }
{
    Ok(FamilyFold {
        name: family.name.copy()?,
        form: family.form,
        floor: Ts(0),
        through: Seq(0),
        tables: LiveTables::new(alloc),
    })
}

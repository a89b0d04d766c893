//! What the frames of a manifest add up to.
ghost use Rattle.std.specs.Prelude.{◌≡◌, IfOk};
ghost use Rattle.udt_model.specs.declared.line.FamilyHead.{FamilyHead as FamilyOf};
ghost use Rattle.head_manifest.specs.Folds.{family_fold, fold_of};
ghost use Rattle.head_manifest.specs.Answers.{Folds};

use crate::edit::TableAt;
use crate::reading::read_head;
use crate::{ManifestFault, NoMemory};
use gate_log::Frame;
use std::alloc::Global;
use ts_key::{FIRST_LOG, Form, Name, Seq, Ts};
use udt_model::{FamilyHead, Items};

/// A family as the manifest has it: its floor, the sequence through which its versions are in tables, and its live tables.
#[derive(Debug, Drop)]
pub struct FamilyFold {
    pub name: Name,
    pub form: Form,
    pub floor: Ts,
    pub through: Seq,
    pub tables: Items<TableAt>,
}

/// What the frames of a manifest add up to: the families in order, the live logs in ascending order, the number of the next
/// file, and the last sequence.
#[derive(Debug, Drop)]
pub struct Folded {
    pub families: Items<FamilyFold>,
    pub logs: Items<u64>,
    pub next_file: u64,
    pub last: Seq,
}

/// The fold of frames, or None where there is none. `BadManifest` names the first frame that isn't in the grammar.
pub(crate) fn fold_frames(alloc: Global, frames: &[Frame]) -> Result<Option<Folded>, ManifestFault>
    ensures { Folds frames.now result }
{
    let Some((first, later)) = frames.split_first() else {
        return Ok(None);
    };
    let Some(families) = read_head(alloc, &first.bytes)? else {
        return Err(ManifestFault::BadManifest { at: first.at });
    };
    if let Some(edit) = later.first() {
        return Err(ManifestFault::BadManifest { at: edit.at });
    }
    Ok(Some(fold_head(alloc, families)?))
}

/// What the head of these families stands for.
fn fold_head(alloc: Global, families: Vec<FamilyHead>) -> Result<Folded, NoMemory>
    ensures { IfOk result (λ fold. fold ≡ fold_of families.items) }
{
    let families = families
        .into_iter()
        .map(|family| fold_family(alloc, family))
        .collect(alloc)?;
    Ok(Folded {
        families: Items::of(families),
        logs: Items::of(vec![in alloc; FIRST_LOG]?),
        next_file: FIRST_LOG + 1,
        last: Seq(0),
    })
}

/// A family as a head has it.
fn fold_family(alloc: Global, family: FamilyHead) -> FamilyFold
    ensures { result ≡ family_fold family }
{
    FamilyFold {
        name: family.name,
        form: family.form,
        floor: Ts(0),
        through: Seq(0),
        tables: Items::of(Vec::new(alloc)),
    }
}

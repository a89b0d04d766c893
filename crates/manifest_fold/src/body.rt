//! What the body of a later frame makes of a fold.

ghost use Rattle.std.specs.Prelude.{IfOk, MatchOption};
ghost use Rattle.manifest_fold.specs.Bodies.{LeadsTo, LeadsNowhere};

use crate::{Folded, NoMemory};
use manifest_edit::read_edit;
use std::alloc::Global;

/// What the edit of a body makes of a fold, or None where the body is no edit, or none that the fold accepts. It costs time
/// linear in the body times the logarithm of the live tables, and linear in the live logs where it drops one.
pub fn fold_body(alloc: Global, fold: Folded, body: &[u8]) -> Result<Option<Folded>, NoMemory>
    ensures { IfOk result (λ o. MatchOption o (LeadsNowhere fold body.now) (LeadsTo fold body.now)) }
{
    let Some(edit) = read_edit(alloc, body)? else {
        return Ok(None);
    };
    if !fold.accepts(&edit) {
        return Ok(None);
    }
    Ok(Some(fold.with(&edit)?))
}

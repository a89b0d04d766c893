//! Reading the entries of a block, one by one.

ghost use Rattle.std.specs.Prelude.{◌≡◌, ◌++◌, [], IfOk, OnOk};
ghost use Rattle.data_block.specs.Reading.{joined_key};
ghost use Rattle.data_block.specs.Regions.{HasRead, TakesNext, ReadsRegion};

use crate::NoMemory;
use crate::entry::{is_joined, key_at};
use crate::fields::{Fields, fields_at};
use crate::index::{Index, add, is_after};
use std::alloc::Global;
use ts_key::Form;

/// Puts the stored key of the entry in the place of the one before it.
fn join(last: &mut Vec<u8>, f: &Fields<'_>) -> Result<(), NoMemory>
    ensures { OnOk result (last.new.items ≡ joined_key last.old.items f.now) }
{
    last.truncate(f.shared);
    last.extend_from_slice(f.key)
}

/// Reads the entry at an offset, behind those that the index has, and answers where it ends.
pub(crate) fn take_next(
    form: Form,
    region: &[u8],
    at: usize,
    x: &mut Index,
    last: &mut Vec<u8>,
) -> Result<Option<usize>, NoMemory>
    requires { HasRead form region.now at x.old last.old.items }
    ensures { IfOk result (TakesNext form region.now at x.old last.old.items x.new last.new.items) }
{
    let (_, rest) = region.split_at(at);
    let Some(f) = fields_at(rest) else {
        return Ok(None);
    };
    let n = x.entries.len();
    if !is_joined(n, last, &f) {
        return Ok(None);
    }
    join(last, &f)?;
    let Some((k, kind)) = key_at(form, &f, last) else {
        return Ok(None);
    };
    if !is_after(region, x, &k) {
        return Ok(None);
    }
    add(region, x, at, &f, &k, kind)?;
    Ok(Some(at + 8 + f.key.len() + f.value.len()))
}

/// Reads the entries of a region up to its end, or answers the offset of the first that isn't in the grammar.
pub(crate) fn read_region(
    alloc: Global,
    form: Form,
    region: &[u8],
    x: &mut Index,
) -> Result<Option<usize>, NoMemory>
    requires keys { x.old.keys.items ≡ [] }
    requires entries { x.old.entries.items ≡ [] }
    requires restarts { x.old.restarts.items ≡ [] }
    ensures { IfOk result (ReadsRegion form region.now x.new) }
{
    let mut last = Vec::new(alloc);
    let mut at = 0;
    while at < region.len() {
        match take_next(form, region, at, x, &mut last)? {
            Some(end) => at = end,
            None => return Ok(Some(at)),
        }
    }
    Ok(None)
}

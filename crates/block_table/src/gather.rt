//! The blocks of a table, as they are read.

ghost use Rattle.std.specs.Prelude.{◌≡◌, ◌≤◌, ◌<◌, ◌+◌, length, IsTrue, ◌↔◌, ◌⊎◌, true};
ghost use Rattle.data_block.specs.Grammar.{block_target};
ghost use Rattle.block_table.specs.Gathering.{IsCutRightly, AddsBlock, ReadsBlocks};

use crate::TableFault;
use crate::handle::BlockHandle;
use bytes::Bytes;
use data_block::{BLOCK_TARGET, Block, BlockCut, BlockFault, Gathering};
use std::alloc::Global;
use ts_key::Form;

/// A block that was read has as many versions as its handle says, goes on behind those before it, and ends where it is to end.
fn is_cut_rightly(cut: &BlockCut, h: &BlockHandle, is_last: bool) -> bool
    ensures { IsTrue result ↔ IsCutRightly cut.now h.now is_last }
{
    cut.versions == h.versions as usize
        && cut.follows
        && cut.before_last < BLOCK_TARGET
        && (is_last || cut.entries >= BLOCK_TARGET)
}

/// The handle's block begins at an offset, and ends by `end`.
fn is_here(h: &BlockHandle, at: usize, end: usize) -> bool
    requires { at ≤ end }
    ensures { IsTrue result ↔ ((h.now.offset ≡ at) × (at + h.now.length ≤ end)) }
{
    h.offset == at as u64 && h.length <= (end - at) as u64
}

/// Reads the block of a handle, which is to stand at an offset, and answers where it ends.
fn add_block(
    alloc: Global,
    form: Form,
    g: &mut Gathering,
    h: &BlockHandle,
    at: usize,
    end: usize,
    is_last: bool,
) -> Result<usize, TableFault>
    requires order { at ≤ end }
    requires within { end ≤ length g.old.image }
    ensures image { g.new.image ≡ g.old.image }
    ensures added { AddsBlock form g.old.image g.old.items g.new.items h.now at end is_last result }
{
    if !is_here(h, at, end) {
        return Err(TableFault::Bad);
    }
    let to = at + h.length as usize;
    let cut = match g.add(alloc, form, at, to) {
        Ok(cut) => cut,
        Err(BlockFault::Bad { at: _ }) => return Err(TableFault::Bad),
        Err(BlockFault::NoMemory) => return Err(TableFault::NoMemory),
    };
    if !is_cut_rightly(&cut, h, is_last) {
        return Err(TableFault::Bad);
    }
    Ok(to)
}

/// Reads the blocks of the handles from the front of an image up to `end`.
pub(crate) fn read_blocks(
    alloc: Global,
    form: Form,
    image: Bytes,
    end: usize,
    handles: &[BlockHandle],
) -> Result<Block, TableFault>
    requires { end ≤ length image }
    ensures { ReadsBlocks form image end handles.now result }
{
    if handles.is_empty() {
        return Err(TableFault::Bad);
    }
    let mut g = Gathering::new(alloc, image);
    let mut at = 0;
    for (i, h) in handles.iter().enumerate() {
        at = add_block(alloc, form, &mut g, h, at, end, i + 1 == handles.len())?;
    }
    if at != end {
        return Err(TableFault::Bad);
    }
    Ok(g.finish())
}

//! The index of a table, as it is read.

ghost use Rattle.std.specs.Prelude.{◌≡◌, IfOk, length};
ghost use Rattle.block_table.specs.Tables.{handle_bytes};
ghost use Rattle.block_table.specs.Indexes.{ReadsIndex, IsHandle};

use crate::NoMemory;
use crate::handle::BlockHandle;
use std::alloc::Global;
use ts_key::coding::{u32_of, u64_of};

/// How many bytes a handle has.
const HANDLE_LEN: usize = 20;

fn handle_of(bytes: &[u8]) -> BlockHandle
    requires { length bytes.now ≡ HANDLE_LEN }
    ensures spelled { bytes.now ≡ handle_bytes result }
    ensures fits { IsHandle result }
{
    let (offset, rest) = bytes.split_at(8);
    let (length, versions) = rest.split_at(8);
    BlockHandle {
        offset: u64_of(offset),
        length: u64_of(length),
        versions: u32_of(versions),
    }
}

/// The handles of an index, where the bytes are one.
pub(crate) fn read_index(alloc: Global, bytes: &[u8]) -> Result<Option<Vec<BlockHandle>>, NoMemory>
    ensures { IfOk result (ReadsIndex bytes.now) }
{
    if bytes.len() < 4 {
        return Ok(None);
    }
    let (front, rest) = bytes.split_at(4);
    let count = u32_of(front);
    let n = count as usize;
    let wanted = n * HANDLE_LEN;
    if rest.len() != wanted {
        return Ok(None);
    }
    let mut handles = Vec::new(alloc);
    for i in 0..n {
        let from = i * HANDLE_LEN;
        let part = &rest[from..from + HANDLE_LEN];
        let h = handle_of(part);
        handles.push(h)?;
    }
    Ok(Some(handles))
}

//! Two blocks of one image, read into one: three versions with the keys `k0` to `k2`, and two with `k3` and `k4`.

ghost use Rattle.std.specs.Prelude.{◌≡◌, length};
ghost use Rattle.ts_key.specs.Lists.{IsSorted};
ghost use Rattle.ts_key.specs.Props.{sorted_prop};

use crate::tests::writing::{Writing, is_hit, is_shown, put};
use bytes::Bytes;
use data_block::{Block, BlockCut, BlockFault, Gathering};
use merge_cursor::Cursor;
use std::alloc::Global;
use std::test::Fail;
use ts_key::{Form, Version};

/// Where the first block ends and the second begins.
const SEAM: usize = 87;

/// Where the second ends.
const END: usize = 148;

const FIRST: BlockCut = BlockCut {
    versions: 3,
    entries: 79,
    before_last: 53,
    follows: true,
};

const SECOND: BlockCut = BlockCut {
    versions: 2,
    entries: 53,
    before_last: 27,
    follows: true,
};

/// The version with an index, over both blocks.
fn version(alloc: Global, i: u8) -> Result<Version, Fail> {
    put(alloc, &[b'k', b'0' + i % 10], 5, 1, b"v")
}

fn block_of(alloc: Global, from: u8, to: u8) -> Result<Vec<u8>, Fail> {
    let mut writing = Writing::new(alloc, Form::Persist)?;
    for i in from..to {
        let v = version(alloc, i)?;
        writing.push(&v)?;
    }
    writing.finish()
}

fn both(alloc: Global) -> Result<Vec<u8>, Fail> {
    let mut image = block_of(alloc, 0, 3)?;
    let second = block_of(alloc, 3, 5)?;
    image.extend_from_slice(&second)?;
    Ok(image)
}

/// Blocks of an image with so many bytes, which were read in order.
#[derive(Drop)]
struct InOrder {
    gathering: Gathering,
    len: usize,
    ghost len_is: { len ≡ length gathering.image },
    ghost sorted: { IsSorted gathering.items } by { sorted_prop gathering.items },
}

impl InOrder {
    fn new(alloc: Global, image: &[u8]) -> Result<InOrder, Fail> {
        let image = Bytes::copy_from_slice(alloc, image)?;
        let len = image.len();
        let gathering = Gathering::new(alloc, image);
        Ok(InOrder { gathering, len })
    }

    /// Reads one more block, which is cut so.
    fn added(self, alloc: Global, from: usize, to: usize, cut: BlockCut) -> Result<InOrder, Fail> {
        let InOrder { mut gathering, len } = self;
        if from > to || to > len {
            return Err(Fail::new("these bytes aren't there"));
        }
        let found = gathering.add(alloc, Form::Persist, from, to)?;
        if !found.follows || found != cut {
            return Err(Fail::new("this block isn't cut so"));
        }
        Ok(InOrder { gathering, len })
    }

    /// Tries bytes that are no block, whose fault stands at an offset of them.
    fn refused(self, alloc: Global, from: usize, to: usize, fault: u64) -> Result<InOrder, Fail> {
        let InOrder { mut gathering, len } = self;
        if from > to || to > len {
            return Err(Fail::new("these bytes aren't there"));
        }
        match gathering.add(alloc, Form::Persist, from, to) {
            Err(BlockFault::Bad { at }) => {
                if at != fault {
                    return Err(Fail::new("the fault stands elsewhere"));
                }
                Ok(InOrder { gathering, len })
            }
            _ => Err(Fail::new("these bytes are a block")),
        }
    }

    fn finish(self) -> Block {
        let InOrder { gathering, len: _ } = self;
        gathering.finish()
    }
}

fn gathered(alloc: Global) -> Result<Block, Fail> {
    let image = both(alloc)?;
    let none = InOrder::new(alloc, &image)?;
    let first = none.added(alloc, 0, SEAM, FIRST)?;
    let both = first.added(alloc, SEAM, END, SECOND)?;
    Ok(both.finish())
}

#[test]
fn versions_of_both_blocks_are_found(rt: HostRuntime) -> Result<(), Fail> {
    let alloc = rt.alloc();
    let block = gathered(alloc)?;
    for i in 0..5 {
        let v = version(alloc, i)?;
        let hit = block.find(v.key.bytes(), v.ts, v.seq).ok_or("not found")?;
        assert!(rt; is_hit(&v, &hit));
    }
    let other = version(alloc, 5)?;
    assert!(rt; block.find(other.key.bytes(), other.ts, other.seq).is_none());
    Ok(())
}

#[test]
fn a_cursor_walks_across_the_seam(rt: HostRuntime) -> Result<(), Fail> {
    let alloc = rt.alloc();
    let block = gathered(alloc)?;
    let mut cursor = block.cursor(alloc)?;
    for i in 0..5 {
        let v = version(alloc, i)?;
        let (key, hit) = cursor.at().ok_or("it ended early")?;
        assert!(rt; is_shown(&v, &key, &hit));
        cursor.next();
    }
    assert!(rt; cursor.at().is_none());
    for i in 0..5 {
        let v = version(alloc, 4 - i)?;
        cursor.prev();
        let (key, hit) = cursor.at().ok_or("it ended early")?;
        assert!(rt; is_shown(&v, &key, &hit));
    }
    Ok(())
}

#[test]
fn a_block_that_goes_back_does_not_follow(rt: HostRuntime) -> Result<(), Fail> {
    let alloc = rt.alloc();
    let image = both(alloc)?;
    let image = Bytes::copy_from_slice(alloc, &image)?;
    assert!(rt; image.len() == END);
    let mut gathering = Gathering::new(alloc, image);
    let second = gathering.add(alloc, Form::Persist, SEAM, END)?;
    assert!(rt; second == SECOND);
    let first = gathering.add(alloc, Form::Persist, 0, SEAM)?;
    assert!(rt;
        first
            == BlockCut {
                follows: false,
                ..FIRST
            }
    );
    Ok(())
}

#[test]
fn a_block_does_not_follow_itself(rt: HostRuntime) -> Result<(), Fail> {
    let alloc = rt.alloc();
    let image = block_of(alloc, 0, 3)?;
    let image = Bytes::copy_from_slice(alloc, &image)?;
    assert!(rt; image.len() == SEAM);
    let mut gathering = Gathering::new(alloc, image);
    let once = gathering.add(alloc, Form::Persist, 0, SEAM)?;
    assert!(rt; once == FIRST);
    let twice = gathering.add(alloc, Form::Persist, 0, SEAM)?;
    assert!(rt; !twice.follows);
    Ok(())
}

#[test]
fn bytes_that_are_no_block_leave_the_first_as_it_was(rt: HostRuntime) -> Result<(), Fail> {
    let alloc = rt.alloc();
    let mut image = both(alloc)?;
    let good = block_of(alloc, 3, 5)?;
    image.extend_from_slice(&good)?;
    if let Some(kind) = image.get_mut(SEAM + 44) {
        *kind = 7;
    }
    let none = InOrder::new(alloc, &image)?;
    let first = none.added(alloc, 0, SEAM, FIRST)?;
    let still = first.refused(alloc, SEAM, END, 27)?;
    let cut_short = still.refused(alloc, END, 2 * END - SEAM - 1, 60)?;
    let both = cut_short.added(alloc, END, 2 * END - SEAM, SECOND)?;
    let block = both.finish();
    for i in 0..5 {
        let v = version(alloc, i)?;
        assert!(rt; block.find(v.key.bytes(), v.ts, v.seq).is_some());
    }
    Ok(())
}

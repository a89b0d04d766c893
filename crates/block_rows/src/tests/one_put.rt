//! The block of one put: its bytes, its prefixes, and what is read of it.

use crate::tests::writing::{Writing, is_bad, put, read};
use merge_cursor::Cursor;
use std::test::Fail;
use ts_key::{Form, Seq, Ts};

/// The block of one put: key `a`, timestamp 5, sequence 1, value `v`.
const PUT_OF_A: [u8; 34] = [
    0, 0, 0x11, 0, 1, 0, 0, 0, b'a', 5, 0, 0, 0, 0, 0, 0, 0, 1, 1, 0, 0, 0, 0, 0, 0, b'v', 0, 0, 0,
    0, 1, 0, 0, 0,
];

#[test]
fn one_put_is_34_bytes(rt: HostRuntime) -> Result<(), Fail> {
    let alloc = rt.alloc();
    let a = put(alloc, b"a", 5, 1, b"v")?;
    let mut writing = Writing::new(alloc, Form::Persist)?;
    writing.push(&a)?;
    let image = writing.finish()?;
    assert_eq!(rt; image.as_slice(), PUT_OF_A.as_slice());
    Ok(())
}

#[test]
fn its_put_is_found(rt: HostRuntime) -> Result<(), Fail> {
    let alloc = rt.alloc();
    let block = read(alloc, PUT_OF_A.as_slice(), Form::Persist)??;
    let hit = block.find(b"a", Ts(5), Seq(1)).ok_or("not found")?;
    assert!(rt; hit.ts == Ts(5) && hit.seq == Seq(1) && hit.value == b"v".as_slice());
    assert!(rt; block.find(b"a", Ts(4), Seq(1)).is_none());
    let mut cursor = block.cursor(alloc)?;
    assert!(rt; cursor.at().is_some());
    cursor.next();
    assert!(rt; cursor.at().is_none());
    cursor.prev();
    assert!(rt; cursor.at().is_some());
    Ok(())
}

#[test]
fn none_of_its_prefixes_is_a_block(rt: HostRuntime) -> Result<(), Fail> {
    let alloc = rt.alloc();
    for n in 0..34 {
        assert!(rt; is_bad(alloc, &PUT_OF_A[..n], Form::Persist)?);
    }
    Ok(())
}

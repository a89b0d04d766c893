//! Both calls at every length from 0 to 70, against plain loops.
use std::alloc::Global;
use std::test::Fail;
use ts_lanes::{common_prefix, first_at_most};

fn plain_prefix(a: &[u8], b: &[u8]) -> usize {
    for (i, (x, y)) in a.iter().zip(b).enumerate() {
        if x != y {
            return i;
        }
    }
    a.len().min(b.len())
}

fn plain_first(ts: &[u64], t: u64) -> Option<usize> {
    for (i, x) in ts.iter().enumerate() {
        if *x <= t {
            return Some(i);
        }
    }
    None
}

/// So many bytes that are the same, but for the one at a place, where there is one.
fn bytes(alloc: Global, len: u64, apart: u64) -> Result<Vec<u8>, Fail> {
    let mut bytes = Vec::new(alloc);
    for i in 0..len {
        bytes.push(if i == apart { 8 } else { 7 })?;
    }
    Ok(bytes)
}

/// So many numbers of which the one at a place and all behind it are low.
fn numbers(alloc: Global, len: u64, low: u64) -> Result<Vec<u64>, Fail> {
    let mut numbers = Vec::new(alloc);
    for i in 0..len {
        numbers.push(if i < low { 6 } else { 5 })?;
    }
    Ok(numbers)
}

#[test]
fn common_prefixes_of_every_length(rt: HostRuntime) -> Result<(), Fail> {
    let alloc = rt.alloc();
    for len in 0..71 {
        let whole = bytes(alloc, len, len)?;
        for other in 0..71 {
            let same = bytes(alloc, other, other)?;
            assert_eq!(rt; common_prefix(&whole, &same), plain_prefix(&whole, &same));
            let apart = bytes(alloc, 70, other)?;
            assert_eq!(rt; common_prefix(&whole, &apart), plain_prefix(&whole, &apart));
        }
    }
    assert_eq!(rt; common_prefix(b"a", b"a\0"), 1);
    Ok(())
}

#[test]
fn the_first_at_most_of_every_length(rt: HostRuntime) -> Result<(), Fail> {
    let alloc = rt.alloc();
    for len in 0..71 {
        for low in 0..71 {
            let ts = numbers(alloc, len, low)?;
            for t in 4..7 {
                assert_eq!(rt; first_at_most(&ts, t), plain_first(&ts, t));
            }
        }
    }
    assert_eq!(rt; first_at_most(&[u64::MAX, u64::MAX], u64::MAX), Some(0));
    assert_eq!(rt; first_at_most(&[u64::MAX, 3, 2, 3], 2), Some(2));
    Ok(())
}

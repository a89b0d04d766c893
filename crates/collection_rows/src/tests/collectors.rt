//! `Collector`: versions that come and go one by one.

use super::collecting::{delete, put};
use history_gc::Collector;
use std::process::Abort;
use std::test::Fail;
use ts_key::{Key, Seq, Ts, Version};

/// The collector takes the version.
fn push(rt: &impl Abort, collector: &mut Collector<'_>, version: Version) {
    assert!(rt; collector.push(version).is_ok());
}

/// The next version that the collector gives has this sequence.
fn pop(rt: &impl Abort, collector: &mut Collector<'_>, seq: u64) {
    assert_eq!(rt; collector.pop().map(|v| v.seq.0), Some(seq));
}

#[test]
fn a_key_is_given_once_the_next_one_comes(rt: HostRuntime) -> Result<(), Fail> {
    let alloc = rt.alloc();
    let mut collector = Collector::new(alloc, Ts(0), &[], &[])?;
    push(&rt, &mut collector, delete(alloc, 6, 2)?);
    push(&rt, &mut collector, put(alloc, 5, 1)?);
    assert!(rt; collector.pop().is_none());
    assert_eq!(rt; collector.held(), 2);
    let mut other = put(alloc, 1, 3)?;
    other.key = Key::of(alloc, b"b")?;
    push(&rt, &mut collector, other);
    pop(&rt, &mut collector, 2);
    pop(&rt, &mut collector, 1);
    assert!(rt; collector.pop().is_none());
    collector.finish();
    pop(&rt, &mut collector, 3);
    assert!(rt; collector.pop().is_none());
    assert_eq!(rt; collector.held(), 0);
    Ok(())
}

#[test]
fn with_room_a_version_is_taken_and_given(rt: HostRuntime) -> Result<(), Fail> {
    let alloc = rt.alloc();
    let mut collector = Collector::with_capacity(alloc, 1, Ts(6), &[Seq(1)], &[])?;
    assert!(rt; collector.pop().is_none());
    push(&rt, &mut collector, put(alloc, 5, 1)?);
    collector.finish();
    pop(&rt, &mut collector, 1);
    assert!(rt; collector.pop().is_none());
    Ok(())
}

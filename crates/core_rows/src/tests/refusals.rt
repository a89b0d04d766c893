//! Each event that is refused, once.

use super::events::Ask::{
    CompactDrop, CompactEnd, CompactStart, FlushDrop, FlushEnd, FlushStart, Get, Halt, Pin,
    PinnedGet, Raise, Release, Snap, Write,
};
use super::events::Told::{Done, Refused, Written};
use super::events::{Ask, Told, replies, reply_to};
use floor_core::Core;
use std::test::Fail;
use ts_key::Form;

const UNKNOWN_FAMILIES: [(Ask, Told); 6] = [
    (Write(1, b'a', 5, None), Refused),
    (Get(1, b'a', 5, None), Refused),
    (Raise(1, 5), Refused),
    (FlushStart(1), Refused),
    (Pin, Done),
    (PinnedGet(5, 1, b'a', 5, None), Refused),
];

const NOT_THERE: [(Ask, Told); 11] = [
    (Get(0, b'a', 5, Some(1)), Refused),
    (Release(1), Refused),
    (PinnedGet(1, 0, b'a', 5, None), Refused),
    (FlushStart(0), Refused),
    (FlushEnd(1), Refused),
    (FlushDrop, Refused),
    (CompactStart(0, &[1], 6), Refused),
    (CompactEnd(&[]), Refused),
    (CompactDrop, Refused),
    (Pin, Done),
    (PinnedGet(10, 0, b'a', 5, Some(1)), Refused),
];

const FALLS: [(Ask, Told); 5] = [
    (Write(0, b'a', 5, Some(b'u')), Written(1)),
    (Raise(0, 3), Done),
    (Write(0, b'b', 2, Some(b'v')), Refused),
    (Write(0, b'a', 4, Some(b'v')), Refused),
    (Raise(0, 2), Refused),
];

const BUSY: [(Ask, Told); 10] = [
    (Write(0, b'a', 5, Some(b'v')), Written(1)),
    (FlushStart(0), Done),
    (FlushEnd(1), Done),
    (Write(0, b'a', 6, Some(b'v')), Written(2)),
    (FlushStart(0), Done),
    (FlushStart(0), Refused),
    (FlushEnd(1), Refused),
    (CompactStart(0, &[1], 6), Done),
    (CompactStart(0, &[1], 6), Refused),
    (CompactEnd(&[(1, 1)]), Refused),
];

const NOT_CLOSED: [(Ask, Told); 13] = [
    (Write(0, b'a', 5, Some(b'v')), Written(1)),
    (FlushStart(0), Done),
    (FlushEnd(1), Done),
    (Write(0, b'a', 6, Some(b'v')), Written(2)),
    (FlushStart(0), Done),
    (FlushEnd(2), Done),
    (CompactStart(0, &[], 6), Refused),
    (CompactStart(0, &[3], 6), Refused),
    (CompactStart(0, &[1], 6), Refused),
    (CompactStart(0, &[2, 1], 6), Refused),
    (CompactStart(0, &[1, 2], 0), Refused),
    (CompactStart(0, &[1, 2], 7), Refused),
    (CompactStart(0, &[1, 2], 6), Done),
];

const NO_PARTS: [(Ask, Told); 12] = [
    (Write(0, b'b', 5, Some(b'w')), Written(1)),
    (Write(0, b'a', 5, Some(b'u')), Written(2)),
    (Write(0, b'a', 6, Some(b'v')), Written(3)),
    (FlushStart(0), Done),
    (FlushEnd(1), Done),
    (CompactStart(0, &[1], 6), Done),
    (CompactEnd(&[(2, 1), (3, 2)]), Refused),
    (CompactEnd(&[(2, 0), (3, 3)]), Refused),
    (CompactEnd(&[(2, 2), (2, 1)]), Refused),
    (CompactEnd(&[(2, 2)]), Refused),
    (CompactEnd(&[(2, 4)]), Refused),
    (CompactEnd(&[(2, 2), (3, 1)]), Done),
];

const HALTED: [(Ask, Told); 16] = [
    (Write(0, b'a', 5, Some(b'v')), Written(1)),
    (FlushStart(0), Done),
    (FlushEnd(1), Done),
    (CompactStart(0, &[1], 6), Done),
    (Write(0, b'a', 6, Some(b'v')), Written(2)),
    (FlushStart(0), Done),
    (Halt, Done),
    (Write(0, b'a', 7, Some(b'v')), Refused),
    (Raise(0, 3), Refused),
    (FlushEnd(2), Refused),
    (CompactEnd(&[(2, 1)]), Refused),
    (FlushDrop, Done),
    (CompactDrop, Done),
    (FlushStart(0), Refused),
    (CompactStart(0, &[1], 6), Refused),
    (Snap, Done),
];

#[test]
fn unknown_families_are_refused(rt: HostRuntime) -> Result<(), Fail> {
    replies(&rt, Form::Persist, &UNKNOWN_FAMILIES)
}

#[test]
fn what_is_not_there_is_refused(rt: HostRuntime) -> Result<(), Fail> {
    replies(&rt, Form::Persist, &NOT_THERE)
}

#[test]
fn what_falls_is_refused(rt: HostRuntime) -> Result<(), Fail> {
    replies(&rt, Form::Persist, &FALLS)
}

#[test]
fn busy_jobs_and_numbers_in_use_are_refused(rt: HostRuntime) -> Result<(), Fail> {
    replies(&rt, Form::Persist, &BUSY)
}

#[test]
fn inputs_that_are_not_closed_are_refused(rt: HostRuntime) -> Result<(), Fail> {
    replies(&rt, Form::Persist, &NOT_CLOSED)
}

#[test]
fn pieces_that_are_no_parts_are_refused(rt: HostRuntime) -> Result<(), Fail> {
    replies(&rt, Form::Persist, &NO_PARTS)
}

#[test]
fn a_halted_core_refuses_work(rt: HostRuntime) -> Result<(), Fail> {
    replies(&rt, Form::Persist, &HALTED)
}

#[test]
fn no_more_than_1024_snapshots_are_registered(rt: HostRuntime) -> Result<(), Fail> {
    let alloc = rt.alloc();
    let mut core = Core::fresh(vec![in alloc; Form::Persist]?)?;
    for _ in 0..1024 {
        assert_eq!(rt; reply_to(alloc, &mut core, Snap)?, Done);
    }
    assert_eq!(rt; reply_to(alloc, &mut core, Snap)?, Refused);
    assert_eq!(rt; reply_to(alloc, &mut core, Release(7))?, Done);
    assert_eq!(rt; reply_to(alloc, &mut core, Snap)?, Done);
    Ok(())
}

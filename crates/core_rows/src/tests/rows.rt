//! A write that is read again, a flush that strips, and a view that keeps its lists.

use super::events::Ask::{
    CompactEnd, CompactStart, FlushEnd, FlushStart, Get, Pin, PinnedGet, Raise, Write,
};
use super::events::Told::{Collapsed, Done, Found, Written};
use super::events::{Ask, Told, replies};
use std::test::Fail;
use ts_key::{Form, Ts};
use udt_model::Stamp;

const WRITE: [(Ask, Told); 2] = [
    (Write(0, b'a', 5, Some(b'v')), Written(1)),
    (Get(0, b'a', 5, None), Found(b'v', Stamp::At(Ts(5)))),
];

const FLUSH: [(Ask, Told); 6] = [
    (Write(0, b'a', 10, Some(b'x')), Written(1)),
    (FlushStart(0), Done),
    (Write(0, b'b', 5, Some(b'y')), Written(2)),
    (FlushEnd(3), Done),
    (Get(0, b'b', 11, None), Found(b'y', Stamp::Below)),
    (Get(0, b'b', 10, None), Collapsed(11)),
];

const VIEW: [(Ask, Told); 10] = [
    (Write(0, b'a', 5, Some(b'u')), Written(1)),
    (Write(0, b'a', 6, Some(b'v')), Written(2)),
    (FlushStart(0), Done),
    (FlushEnd(1), Done),
    (Pin, Done),
    (Raise(0, 9), Done),
    (CompactStart(0, &[1], 6), Done),
    (CompactEnd(&[(2, 1)]), Done),
    (
        PinnedGet(5, 0, b'a', 5, None),
        Found(b'u', Stamp::At(Ts(5))),
    ),
    (Get(0, b'a', 5, None), Collapsed(9)),
];

#[test]
fn a_write_is_read(rt: HostRuntime) -> Result<(), Fail> {
    replies(&rt, Form::Persist, &WRITE)
}

#[test]
fn a_flush_strips(rt: HostRuntime) -> Result<(), Fail> {
    replies(&rt, Form::Strip, &FLUSH)
}

#[test]
fn a_view_keeps_its_lists(rt: HostRuntime) -> Result<(), Fail> {
    replies(&rt, Form::Persist, &VIEW)
}

//! The bytes of edits.

use manifest_edit::{Edit, FamilyEdit, NoMemory, TableAt, read_edit, write_edit};
use std::alloc::Global;
use std::test::Fail;
use ts_key::{Family, Seq, Ts};
use udt_model::Items;

/// A raise of family 0 to 8, behind a head.
const RAISE: &[u8] =
    b"\x02\0\0\0\0\0\0\0\0\x02\0\0\0\0\0\0\0\0\0\0\0\0\0\0\0\x01\0\0\0\0\x08\0\0\0\0\0\0\0\0\0\0\0\0\0\0\0\0\0\0\0\0\0\0\0";

/// Log 3 is live and log 1 isn't; the next file is 5 and the last sequence 7. Of family 1 the versions through 7 are in tables:
/// table 4 on level 0, and no longer table 2.
const FLUSH: &[u8] =
    b"\x02\x01\0\0\0\x03\0\0\0\0\0\0\0\x01\0\0\0\x01\0\0\0\0\0\0\0\x05\0\0\0\0\0\0\0\x07\0\0\0\0\0\0\0\x01\x01\0\0\0\0\0\0\0\0\0\0\0\x07\0\0\0\0\0\0\0\x01\0\0\0\0\x04\0\0\0\0\0\0\0\x01\0\0\0\x02\0\0\0\0\0\0\0";

/// The raise, with bytes behind it.
const OVER: &[u8] =
    b"\x02\0\0\0\0\0\0\0\0\x02\0\0\0\0\0\0\0\0\0\0\0\0\0\0\0\x01\0\0\0\0\x08\0\0\0\0\0\0\0\0\0\0\0\0\0\0\0\0\0\0\0\0\0\0\0\0";

/// The raise, of a third kind of part.
const OTHER_PART: &[u8] =
    b"\x02\0\0\0\0\0\0\0\0\x02\0\0\0\0\0\0\0\0\0\0\0\0\0\0\0\x02\0\0\0\0\x08\0\0\0\0\0\0\0\0\0\0\0\0\0\0\0\0\0\0\0\0\0\0\0";

fn raise(alloc: Global) -> Edit {
    Edit {
        add_logs: Items::of(Vec::new(alloc)),
        drop_logs: Items::of(Vec::new(alloc)),
        next_file: 2,
        last: Seq(0),
        family: Some(FamilyEdit {
            family: Family(0),
            floor: Ts(8),
            through: Seq(0),
            add: Items::of(Vec::new(alloc)),
            remove: Items::of(Vec::new(alloc)),
        }),
    }
}

fn flush(alloc: Global) -> Result<Edit, NoMemory> {
    Ok(Edit {
        add_logs: Items::of(vec![in alloc; 3]?),
        drop_logs: Items::of(vec![in alloc; 1]?),
        next_file: 5,
        last: Seq(7),
        family: Some(FamilyEdit {
            family: Family(1),
            floor: Ts(0),
            through: Seq(7),
            add: Items::of(vec![in alloc;
                TableAt {
                    level: 0,
                    number: 4
                },
            ]?),
            remove: Items::of(vec![in alloc; 2]?),
        }),
    })
}

/// The bytes of the edit that these bytes are.
fn again(alloc: Global, body: &[u8]) -> Result<Option<Vec<u8>>, NoMemory> {
    let Some(edit) = read_edit(alloc, body)? else {
        return Ok(None);
    };
    let body = write_edit(alloc, &edit)?;
    Ok(Some(body))
}

#[test]
fn a_raise_has_these_bytes(rt: HostRuntime) -> Result<(), Fail> {
    let alloc = rt.alloc();
    assert_eq!(rt; write_edit(alloc, &raise(alloc))?.as_slice(), RAISE);
    Ok(())
}

#[test]
fn a_flush_has_these_bytes(rt: HostRuntime) -> Result<(), Fail> {
    let alloc = rt.alloc();
    assert_eq!(rt; write_edit(alloc, &flush(alloc)?)?.as_slice(), FLUSH);
    Ok(())
}

#[test]
fn a_raise_is_read_back(rt: HostRuntime) -> Result<(), Fail> {
    assert_eq!(rt; again(rt.alloc(), RAISE)?.as_deref(), Some(RAISE));
    Ok(())
}

#[test]
fn a_flush_is_read_back(rt: HostRuntime) -> Result<(), Fail> {
    assert_eq!(rt; again(rt.alloc(), FLUSH)?.as_deref(), Some(FLUSH));
    Ok(())
}

#[test]
fn bytes_over_are_refused(rt: HostRuntime) -> Result<(), Fail> {
    assert_eq!(rt; again(rt.alloc(), OVER)?.as_deref(), None);
    Ok(())
}

#[test]
fn an_unknown_part_is_refused(rt: HostRuntime) -> Result<(), Fail> {
    assert_eq!(rt; again(rt.alloc(), OTHER_PART)?.as_deref(), None);
    Ok(())
}

#[test]
fn every_front_of_a_flush_is_refused(rt: HostRuntime) -> Result<(), Fail> {
    for len in 0..FLUSH.len() {
        assert_eq!(rt; again(rt.alloc(), &FLUSH[..len])?.as_deref(), None);
    }
    Ok(())
}

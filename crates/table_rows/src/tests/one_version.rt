//! The table of the put of `a` at 5 with sequence 1 and value `v`, with timestamps kept.

use crate::tests::writing::{TABLE, is_bad, is_sequence, is_stamp, put, read, write};
use block_table::{Table, TableCursor, TableWriteFault, TableWriter};
use merge_cursor::Cursor;
use std::alloc::Global;
use std::test::Fail;
use ts_key::{Family, Form, Hit, Kind, Seq, Ts, Version};
use udt_disk::{FileName, MemDisk, Trouble};

/// One block of 34 bytes, an index of 24, properties of 51, and the footer.
const IMAGE: &[u8] =
    b"\0\0\x11\0\x01\0\0\0a\x05\0\0\0\0\0\0\0\x01\x01\0\0\0\0\0\0v\0\0\0\0\x01\0\0\0\
\x01\0\0\0\0\0\0\0\0\0\0\0\x22\0\0\0\0\0\0\0\x01\0\0\0\
\0\0\0\0\0\x01\0\0\0\0\0\0\0\x01\0a\x01\0a\x01\0\0\0\0\0\0\0\x01\0\0\0\0\0\0\0\x05\0\0\0\0\0\0\0\0\0\0\0\0\0\0\0\
\x22\0\0\0\0\0\0\0\x3A\0\0\0\0\0\0\0udttab01";

fn version(alloc: Global) -> Result<Version, Fail> {
    put(alloc, b"a", 5, 1, b"v")
}

#[test]
fn it_has_one_spelling(rt: HostRuntime) -> Result<(), Fail> {
    let alloc = rt.alloc();
    let mut disk = MemDisk::new(alloc, Vec::new(alloc))?;
    let table = write(alloc, &mut disk, &[version(alloc)?], Form::Persist, Ts(0))??;
    assert_eq!(rt; table.size(), 133);
    assert!(rt; disk.contents(TABLE) == Some(IMAGE));
    Ok(())
}

#[test]
fn a_writer_tells_the_bytes_of_its_blocks(rt: HostRuntime) -> Result<(), Fail> {
    let v = version(rt.alloc())?;
    if !is_stamp(Form::Persist, v.ts) || !is_sequence(v.seq) {
        return Err("no spelling".into());
    }
    let mut writer = TableWriter::new(rt.alloc(), Family(0), Form::Persist, Ts(0))?;
    assert_eq!(rt; writer.bytes(), 0);
    writer.push(rt.alloc(), &v)?;
    assert_eq!(rt; writer.bytes(), 34);
    Ok(())
}

fn has_properties(table: &Table) -> bool {
    let p = table.properties();
    p.family == Family(0)
        && p.form == Form::Persist
        && p.count == 1
        && p.least.bytes() == b"a".as_slice()
        && p.greatest.bytes() == b"a".as_slice()
        && p.least_seq == Seq(1)
        && p.greatest_seq == Seq(1)
        && p.greatest_ts == Ts(5)
        && p.collected_by == Ts(0)
}

/// Is it the put of `a` at 5 with sequence 1 and value `v`?
fn is_it(hit: Option<Hit<'_>>) -> bool {
    match hit {
        None => false,
        Some(hit) => {
            (hit.ts, hit.seq, hit.kind) == (Ts(5), Seq(1), Kind::Put)
                && hit.value == b"v".as_slice()
        }
    }
}

/// What a cursor shows of the key `a`.
fn shown<'a>(cursor: &TableCursor<'a>) -> Option<Hit<'a>> {
    let (key, hit) = cursor.at()?;
    if key.key == b"a".as_slice() {
        Some(hit)
    } else {
        None
    }
}

/// A key, a timestamp and a sequence at which nothing is found.
const NOT_FOUND: [(&[u8], u64, u64); 3] = [(b"a", 4, 1), (b"a", 5, 0), (b"b", 5, 1)];

#[test]
fn it_is_read_and_looked_up(rt: HostRuntime) -> Result<(), Fail> {
    let table = read(rt.alloc(), IMAGE)??;
    assert!(rt; has_properties(&table));
    assert!(rt; table.newest(b"a") == Some(Ts(5)));
    assert!(rt; table.newest(b"b").is_none());
    assert!(rt; is_it(table.find(b"a", Ts(5), Seq(1))));
    for (key, ts, seq) in NOT_FOUND {
        assert!(rt; table.find(key, Ts(ts), Seq(seq)).is_none());
    }
    Ok(())
}

#[test]
fn it_is_walked(rt: HostRuntime) -> Result<(), Fail> {
    let table = read(rt.alloc(), IMAGE)??;
    let mut cursor = table.cursor(rt.alloc())?;
    assert!(rt; is_it(shown(&cursor)));
    cursor.next();
    assert!(rt; cursor.at().is_none());
    Ok(())
}

#[test]
fn no_prefix_is_a_table(rt: HostRuntime) -> Result<(), Fail> {
    let alloc = rt.alloc();
    for n in 0..IMAGE.len() {
        assert!(rt; is_bad(alloc, &IMAGE[..n])?);
    }
    Ok(())
}

#[test]
fn an_altered_last_byte_is_bad(rt: HostRuntime) -> Result<(), Fail> {
    let alloc = rt.alloc();
    let mut image = Vec::new(alloc);
    image.extend_from_slice(IMAGE)?;
    if let Some(last) = image.last_mut() {
        *last = b'2';
    }
    assert!(rt; is_bad(alloc, &image)?);
    Ok(())
}

/// What writing the table answers where the call with this number, of those on the table's file, fails.
fn failed_at(alloc: Global, call: u64) -> Result<Option<TableWriteFault>, Fail> {
    let mut troubles = Vec::new(alloc);
    troubles.push(Trouble {
        name: TABLE,
        call,
        lasting: false,
    })?;
    let mut disk = MemDisk::new(alloc, troubles)?;
    let result = write(alloc, &mut disk, &[version(alloc)?], Form::Persist, Ts(0))?;
    Ok(result.err())
}

#[test]
fn a_call_of_the_file_that_fails_is_told(rt: HostRuntime) -> Result<(), Fail> {
    let alloc = rt.alloc();
    // The first call makes the file.
    assert_eq!(rt; failed_at(alloc, 2)?, Some(TableWriteFault::DiskFault));
    assert_eq!(rt; failed_at(alloc, 3)?, Some(TableWriteFault::DiskFault));
    assert_eq!(rt; failed_at(alloc, 4)?, None);
    Ok(())
}

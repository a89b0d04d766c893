//! Tables of several blocks: each look-up, walks both ways and seeks, against the plain list.

use crate::tests::writing::{TABLE, is_hit, put, read, write};
use block_table::{Table, TableCursor};
use merge_cursor::Cursor;
use std::alloc::Global;
use std::process::Abort;
use std::test::Fail;
use ts_key::{Form, Hit, KeyRef, Op, Seq, Ts, Version};
use udt_disk::MemDisk;

/// Four versions of each key, every fifth version a delete.
fn of_four(alloc: Global, form: Form, count: u64) -> Result<Vec<Version>, Fail> {
    let mut versions = Vec::new(alloc);
    for i in 0..count {
        let key = [b'k', (i / 1024 % 256) as u8, (i / 4 % 256) as u8];
        let ts = match form {
            Form::Persist => 9 - 2 * (i % 4),
            Form::Strip => 0,
        };
        let value = &b"value of a version"[..(i % 18) as usize];
        let mut v = put(alloc, &key, ts, 10_000 - i % 10_000, value)?;
        if i % 5 == 4 {
            v.op = Op::Del;
        }
        versions.push(v)?;
    }
    Ok(versions)
}

/// Versions of one key, each timestamp with three sequences.
fn of_one(alloc: Global, count: u64) -> Result<Vec<Version>, Fail> {
    let mut versions = Vec::new(alloc);
    for i in 0..count {
        let v = put(
            alloc,
            b"one",
            5_000 - i / 3 % 5_000,
            10_000 - i % 10_000,
            b"v",
        )?;
        versions.push(v)?;
    }
    Ok(versions)
}

fn is_answer(wanted: Option<&Version>, hit: Option<Hit<'_>>) -> bool {
    match (wanted, hit) {
        (None, None) => true,
        (Some(v), Some(hit)) => is_hit(v, &hit),
        _ => false,
    }
}

/// The version, if it is of the key.
fn of_key<'a>(v: Option<&'a Version>, key: &[u8]) -> Option<&'a Version> {
    match v {
        Some(v) if v.key.bytes() == key => Some(v),
        _ => None,
    }
}

/// The version is found at its own timestamp and sequence, and at one below each the next one of its key.
fn is_found(table: &Table, v: &Version, next: Option<&Version>) -> bool {
    let key = v.key.bytes();
    let below = Seq(v.seq.0.saturating_sub(1));
    is_answer(Some(v), table.find(key, v.ts, v.seq))
        && is_answer(of_key(next, key), table.find(key, v.ts, below))
}

/// The first of the versions that isn't of the key at the version's timestamp.
fn behind<'a>(versions: &'a [Version], v: &Version) -> Option<&'a Version> {
    versions
        .iter()
        .find(|w| w.ts != v.ts || w.key.bytes() != v.key.bytes())
}

/// At the timestamp below the version's own, which isn't 0, the next one of its key is found. All sequences fall.
fn is_earlier(table: &Table, v: &Version, rest: &[Version]) -> bool {
    if v.ts == Ts(0) {
        return true;
    }
    let key = v.key.bytes();
    is_answer(
        of_key(behind(rest, v), key),
        table.find(key, Ts(v.ts.0 - 1), v.seq),
    )
}

fn are_found(table: &Table, versions: &[Version]) -> bool {
    for i in 0..versions.len() {
        let v = &versions[i];
        if !is_found(table, v, versions.get(i + 1)) || !is_earlier(table, v, &versions[i + 1..]) {
            return false;
        }
    }
    true
}

fn stands_at(cursor: &TableCursor<'_>, wanted: Option<&Version>) -> bool {
    match (wanted, cursor.at()) {
        (None, None) => true,
        (Some(v), Some((key, hit))) => key.key == v.key.bytes() && is_hit(v, &hit),
        _ => false,
    }
}

/// Steps on show the versions in their order.
fn is_walked_on(cursor: &mut TableCursor<'_>, versions: &[Version]) -> bool {
    for v in versions {
        if !stands_at(cursor, Some(v)) {
            return false;
        }
        cursor.next();
    }
    true
}

/// Steps back show the versions from the last on, and then none.
fn is_walked_back(cursor: &mut TableCursor<'_>, versions: &[Version]) -> bool {
    for v in versions.iter().rev() {
        cursor.prev();
        if !stands_at(cursor, Some(v)) {
            return false;
        }
    }
    cursor.prev();
    cursor.at().is_none()
}

fn is_walked(cursor: &mut TableCursor<'_>, versions: &[Version]) -> bool {
    is_walked_on(cursor, versions) && is_walked_back(cursor, versions)
}

/// A seek goes to the version, and from right behind it to the next one.
fn is_sought(cursor: &mut TableCursor<'_>, v: &Version, next: Option<&Version>) -> bool {
    cursor.seek(&v.key_ref());
    if !stands_at(cursor, Some(v)) {
        return false;
    }
    cursor.seek(&KeyRef {
        seq: Seq(v.seq.0.saturating_sub(1)),
        ..v.key_ref()
    });
    stands_at(cursor, next)
}

fn are_sought(cursor: &mut TableCursor<'_>, versions: &[Version]) -> bool {
    for i in 0..versions.len() {
        if !is_sought(cursor, &versions[i], versions.get(i + 1)) {
            return false;
        }
    }
    cursor.seek_end();
    cursor.at().is_none()
}

fn is_shown(alloc: Global, table: &Table, versions: &[Version]) -> Result<bool, Fail> {
    let mut cursor = table.cursor(alloc)?;
    Ok(is_walked(&mut cursor, versions) && are_sought(&mut cursor, versions))
}

/// The table holds the versions.
fn holds(alloc: Global, table: &Table, versions: &[Version]) -> Result<bool, Fail> {
    if table.properties().count != versions.len() as u64 || !are_found(table, versions) {
        return Ok(false);
    }
    is_shown(alloc, table, versions)
}

/// The table that is answered holds the versions, and its size is this.
fn is_written(
    alloc: Global,
    table: &Table,
    len: usize,
    versions: &[Version],
) -> Result<bool, Fail> {
    if table.size() != len as u64 {
        return Ok(false);
    }
    holds(alloc, table, versions)
}

/// The table that is read of the bytes holds the versions.
fn is_read(alloc: Global, image: &[u8], versions: &[Version]) -> Result<bool, Fail> {
    let table = read(alloc, image)??;
    holds(alloc, &table, versions)
}

/// The table that is answered holds the versions, and so does the one that is read of the file.
fn is_kept(rt: &(impl AllocGlobal + Abort), versions: &[Version], form: Form) -> Result<(), Fail> {
    let alloc = rt.alloc();
    let mut disk = MemDisk::new(alloc, Vec::new(alloc))?;
    let written = write(alloc, &mut disk, versions, form, Ts(0))??;
    let image = disk.contents(TABLE).ok_or("no contents")?;
    assert!(rt; is_written(alloc, &written, image.len(), versions)?);
    assert!(rt; is_read(alloc, image, versions)?);
    Ok(())
}

#[test]
fn two_versions(rt: HostRuntime) -> Result<(), Fail> {
    is_kept(&rt, &of_four(rt.alloc(), Form::Persist, 2)?, Form::Persist)
}

#[test]
fn forty_versions_in_both_forms(rt: HostRuntime) -> Result<(), Fail> {
    for form in [Form::Persist, Form::Strip] {
        is_kept(&rt, &of_four(rt.alloc(), form, 40)?, form)?;
    }
    Ok(())
}

#[test]
fn five_thousand_versions(rt: HostRuntime) -> Result<(), Fail> {
    is_kept(
        &rt,
        &of_four(rt.alloc(), Form::Persist, 5_000)?,
        Form::Persist,
    )
}

#[test]
fn three_thousand_versions_of_one_key(rt: HostRuntime) -> Result<(), Fail> {
    is_kept(&rt, &of_one(rt.alloc(), 3_000)?, Form::Persist)
}

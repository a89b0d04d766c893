//! A table of three versions with an altered byte is no table, or it is the one spelling of what it means.

use crate::tests::writing::{image_of, is_bad, put, read};
use block_table::{Table, TableCursor};
use merge_cursor::Cursor;
use std::alloc::Global;
use std::test::Fail;
use ts_key::{Family, Form, Hit, Key, KeyRef, Kind, Op, Ts, Value, Version};

fn image(alloc: Global) -> Result<Vec<u8>, Fail> {
    let mut versions = Vec::new(alloc);
    versions.push(put(alloc, b"a", 5, 2, b"v")?)?;
    versions.push(put(alloc, b"a", 3, 1, b"")?)?;
    versions.push(put(alloc, b"bc", 4, 3, b"word")?)?;
    versions[1].op = Op::Del;
    image_of(alloc, &versions, Form::Persist, Ts(2))
}

fn version_of(
    alloc: Global,
    family: Family,
    key: &KeyRef<'_>,
    hit: &Hit<'_>,
) -> Result<Version, Fail> {
    let op = match hit.kind {
        Kind::Put => Op::Put(Value::of(alloc, hit.value)?),
        Kind::Del => Op::Del,
    };
    Ok(Version {
        family,
        key: Key::of(alloc, key.key)?,
        ts: key.ts,
        seq: key.seq,
        op,
    })
}

/// So many versions of the family, from the cursor on.
fn versions_at(
    alloc: Global,
    family: Family,
    cursor: &mut TableCursor<'_>,
    count: u64,
) -> Result<Vec<Version>, Fail> {
    let mut versions = Vec::new(alloc);
    for _ in 0..count {
        let (key, hit) = cursor.at().ok_or("it ended early")?;
        versions.push(version_of(alloc, family, &key, &hit)?)?;
        cursor.next();
    }
    Ok(versions)
}

/// The bytes that the table's contents spell.
fn spelled(alloc: Global, table: &Table) -> Result<Vec<u8>, Fail> {
    let p = table.properties();
    let mut cursor = table.cursor(alloc)?;
    let versions = versions_at(alloc, p.family, &mut cursor, p.count)?;
    image_of(alloc, &versions, p.form, p.collected_by)
}

/// It is no table, or spells what it means.
fn is_sound(alloc: Global, image: &[u8]) -> Result<bool, Fail> {
    match read(alloc, image)? {
        Ok(table) => Ok(spelled(alloc, &table)?.as_slice() == image),
        Err(_) => is_bad(alloc, image),
    }
}

fn are_sound(alloc: Global, image: &mut [u8], turned: u8) -> Result<bool, Fail> {
    for i in 0..image.len() {
        image[i] ^= turned;
        if !is_sound(alloc, image)? {
            return Ok(false);
        }
        image[i] ^= turned;
    }
    Ok(true)
}

#[test]
fn each_byte_altered(rt: HostRuntime) -> Result<(), Fail> {
    let alloc = rt.alloc();
    let mut image = image(alloc)?;
    assert!(rt; is_sound(alloc, &image)?);
    assert!(rt; are_sound(alloc, &mut image, 1)?);
    assert!(rt; are_sound(alloc, &mut image, 0x80)?);
    Ok(())
}

//! Blocks of many versions with short keys, of few with long ones, and of 4,096 entries by hand.

use crate::tests::writing::{Writing, is_hit, put, read};
use data_block::Block;
use merge_cursor::Cursor;
use std::alloc::Global;
use std::test::Fail;
use ts_key::coding::{put_bytes, put_u16, put_u32};
use ts_key::{Form, Seq, Ts, Version};

/// One of 200 versions: four keys with fifty each, ten at a timestamp.
fn short(alloc: Global, i: u64) -> Result<Version, Fail> {
    let key = [b'a' + (i / 50 % 4) as u8];
    let tenth = i % 50 / 10;
    put(alloc, &key, 9 - tenth, 10 * tenth + 10 - i % 10, b"")
}

fn short_ones(alloc: Global) -> Result<Block, Fail> {
    let mut writing = Writing::new(alloc, Form::Persist)?;
    for i in 0..200 {
        let v = short(alloc, i)?;
        writing.push(&v)?;
    }
    let image = writing.finish()?;
    Ok(read(alloc, &image, Form::Persist)??)
}

#[test]
fn two_hundred_versions_of_short_keys_are_found(rt: HostRuntime) -> Result<(), Fail> {
    let alloc = rt.alloc();
    let block = short_ones(alloc)?;
    for i in 0..200 {
        let v = short(alloc, i)?;
        let hit = block.find(v.key.bytes(), v.ts, v.seq).ok_or("not found")?;
        assert!(rt; is_hit(&v, &hit));
    }
    assert!(rt; block.find(b"c", Ts(4), Seq(1000)).is_none());
    Ok(())
}

/// One of four versions with keys of 1,024 bytes, which differ in the last one.
fn long(alloc: Global, i: u8) -> Result<Version, Fail> {
    let mut key = [b'x'; 1024];
    key[1023] = i;
    put(alloc, &key, 7, 1 + i as u64, b"value")
}

#[test]
fn four_versions_of_long_keys_are_found(rt: HostRuntime) -> Result<(), Fail> {
    let alloc = rt.alloc();
    let mut writing = Writing::new(alloc, Form::Persist)?;
    for i in 0..4 {
        let v = long(alloc, i)?;
        writing.push(&v)?;
    }
    let image = writing.finish()?;
    let block = read(alloc, &image, Form::Persist)??;
    for i in 0..4 {
        let v = long(alloc, i)?;
        let hit = block.find(v.key.bytes(), Ts(7), Seq(9)).ok_or("not found")?;
        assert!(rt; is_hit(&v, &hit));
    }
    Ok(())
}

/// The stored key of an entry by hand: two bytes of the user key, timestamp 1, sequence 1, a put.
fn key_by_hand(i: u16) -> [u8; 18] {
    let [low, high] = i.to_le_bytes();
    [high, low, 1, 0, 0, 0, 0, 0, 0, 0, 1, 1, 0, 0, 0, 0, 0, 0]
}

fn put_parts(image: &mut Vec<u8>, shared: u16, key: &[u8]) -> Result<(), Fail> {
    put_u16(image, shared)?;
    put_u16(image, u16::try_from(key.len())?)?;
    put_u32(image, 0)?;
    put_bytes(image, key)?;
    Ok(())
}

/// An entry by hand that shares the first byte of its key with the one before, unless it is a restart.
fn put_entry(image: &mut Vec<u8>, i: u16) -> Result<(), Fail> {
    let key = key_by_hand(i);
    if i % 16 == 0 {
        put_parts(image, 0, &key)
    } else {
        put_parts(image, 1, &key[1..])
    }
}

fn by_hand(alloc: Global) -> Result<Vec<u8>, Fail> {
    let mut image = Vec::new(alloc);
    let mut restarts = Vec::new(alloc);
    for i in 0..4096 {
        if i % 16 == 0 {
            put_u32(&mut restarts, u32::try_from(image.len())?)?;
        }
        put_entry(&mut image, i)?;
    }
    put_bytes(&mut image, &restarts)?;
    put_u32(&mut image, 256)?;
    Ok(image)
}

#[test]
fn an_image_by_hand_of_4096_entries_is_read(rt: HostRuntime) -> Result<(), Fail> {
    let alloc = rt.alloc();
    let image = by_hand(alloc)?;
    let block = read(alloc, &image, Form::Persist)??;
    for i in 0..4096u16 {
        let [low, high] = i.to_le_bytes();
        assert!(rt; block.find(&[high, low], Ts(1), Seq(1)).is_some());
    }
    assert!(rt; block.find(&[16, 0], Ts(1), Seq(1)).is_none());
    let mut cursor = block.cursor(alloc)?;
    for _ in 0..4096 {
        assert!(rt; cursor.at().is_some());
        cursor.next();
    }
    assert!(rt; cursor.at().is_none());
    Ok(())
}

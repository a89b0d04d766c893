//! A block of forty versions: ten keys with four versions each, every fifth version a delete.

use crate::tests::writing::{Writing, is_bad, is_hit, is_shown, put, read};
use data_block::Block;
use merge_cursor::Cursor;
use std::alloc::Global;
use std::test::Fail;
use ts_key::{Family, Form, Hit, Key, KeyRef, Kind, Op, Seq, Ts, Value, Version};

const FORTY: u64 = 40;

/// The version with an index.
fn version(alloc: Global, form: Form, i: u64) -> Result<Version, Fail> {
    let key = [b'k', b'a' + (i / 4 % 10) as u8];
    let ts = match form {
        Form::Persist => 9 - 2 * (i % 4),
        Form::Strip => 0,
    };
    let mut v = put(
        alloc,
        &key,
        ts,
        100 - i % 100,
        &b"value of a version"[..(i % 18) as usize],
    )?;
    if i % 5 == 4 {
        v.op = Op::Del;
    }
    Ok(v)
}

fn image(alloc: Global, form: Form) -> Result<Vec<u8>, Fail> {
    let mut writing = Writing::new(alloc, form)?;
    for i in 0..FORTY {
        let v = version(alloc, form, i)?;
        writing.push(&v)?;
    }
    writing.finish()
}

fn block(alloc: Global, form: Form) -> Result<Block, Fail> {
    let image = image(alloc, form)?;
    Ok(read(alloc, &image, form)??)
}

/// The version is found at its own timestamp and sequence; at an earlier sequence another one is, or none.
fn is_found(block: &Block, v: &Version) -> bool {
    let key = v.key.bytes();
    let Some(hit) = block.find(key, v.ts, v.seq) else {
        return false;
    };
    match block.find(key, v.ts, Seq(v.seq.0.saturating_sub(1))) {
        Some(other) => is_hit(v, &hit) && other.seq < v.seq,
        None => is_hit(v, &hit),
    }
}

#[test]
fn each_is_found_in_form_persist(rt: HostRuntime) -> Result<(), Fail> {
    let alloc = rt.alloc();
    let block = block(alloc, Form::Persist)?;
    for i in 0..FORTY {
        let v = version(alloc, Form::Persist, i)?;
        assert!(rt; is_found(&block, &v));
    }
    assert!(rt; block.find(b"ka", Ts(2), Seq(1000)).is_none());
    assert!(rt; block.find(b"k", Ts(100), Seq(1000)).is_none());
    Ok(())
}

#[test]
fn each_is_found_in_form_strip(rt: HostRuntime) -> Result<(), Fail> {
    let alloc = rt.alloc();
    let block = block(alloc, Form::Strip)?;
    for i in 0..FORTY {
        let v = version(alloc, Form::Strip, i)?;
        assert!(rt; is_found(&block, &v));
    }
    Ok(())
}

#[test]
fn they_are_walked_on_and_back(rt: HostRuntime) -> Result<(), Fail> {
    let alloc = rt.alloc();
    let block = block(alloc, Form::Persist)?;
    let mut cursor = block.cursor(alloc)?;
    for i in 0..FORTY {
        let v = version(alloc, Form::Persist, i)?;
        let (key, hit) = cursor.at().ok_or("it ended early")?;
        assert!(rt; is_shown(&v, &key, &hit));
        cursor.next();
    }
    assert!(rt; cursor.at().is_none());
    for i in 0..FORTY {
        let v = version(alloc, Form::Persist, FORTY - 1 - i)?;
        cursor.prev();
        let (key, hit) = cursor.at().ok_or("it ended early")?;
        assert!(rt; is_shown(&v, &key, &hit));
    }
    cursor.prev();
    assert!(rt; cursor.at().is_none());
    Ok(())
}

#[test]
fn a_seek_goes_to_each(rt: HostRuntime) -> Result<(), Fail> {
    let alloc = rt.alloc();
    let block = block(alloc, Form::Persist)?;
    let mut cursor = block.cursor(alloc)?;
    for i in 0..FORTY {
        let v = version(alloc, Form::Persist, i)?;
        cursor.seek(&v.key_ref());
        let (key, hit) = cursor.at().ok_or("it isn't there")?;
        assert!(rt; is_shown(&v, &key, &hit));
    }
    cursor.seek_end();
    assert!(rt; cursor.at().is_none());
    Ok(())
}

#[test]
fn none_of_its_prefixes_is_a_block(rt: HostRuntime) -> Result<(), Fail> {
    let alloc = rt.alloc();
    let image = image(alloc, Form::Persist)?;
    for n in 0..image.len() {
        assert!(rt; is_bad(alloc, &image[..n], Form::Persist)?);
    }
    Ok(())
}

fn version_of(alloc: Global, key: &KeyRef<'_>, hit: &Hit<'_>) -> Result<Version, Fail> {
    let op = match hit.kind {
        Kind::Put => Op::Put(Value::of(alloc, hit.value)?),
        Kind::Del => Op::Del,
    };
    Ok(Version {
        family: Family(0),
        key: Key::of(alloc, key.key)?,
        ts: key.ts,
        seq: key.seq,
        op,
    })
}

/// The block that its versions spell.
fn spelled(alloc: Global, form: Form, block: &Block) -> Result<Vec<u8>, Fail> {
    let mut writing = Writing::new(alloc, form)?;
    let mut cursor = block.cursor(alloc)?;
    for _ in 0..1000 {
        let Some((key, hit)) = cursor.at() else {
            break;
        };
        let v = version_of(alloc, &key, &hit)?;
        writing.push(&v)?;
        cursor.next();
    }
    writing.finish()
}

/// The image with a bit of one byte turned.
fn turned(alloc: Global, image: &[u8], i: usize) -> Result<Vec<u8>, Fail> {
    let mut altered = Vec::from_slice(alloc, image)?;
    if let Some(byte) = altered.get_mut(i) {
        *byte ^= 1 << (i % 8);
    }
    Ok(altered)
}

/// It is bad, or means what its bytes spell.
fn is_bad_or_spelled(alloc: Global, form: Form, altered: &[u8]) -> Result<bool, Fail> {
    if is_bad(alloc, altered, form)? {
        return Ok(true);
    }
    let block = read(alloc, altered, form)??;
    let bytes = spelled(alloc, form, &block)?;
    Ok(bytes.as_slice() == altered)
}

fn turn_each_byte(alloc: Global, form: Form) -> Result<bool, Fail> {
    let image = image(alloc, form)?;
    for i in 0..image.len() {
        let altered = turned(alloc, &image, i)?;
        if !is_bad_or_spelled(alloc, form, &altered)? {
            return Ok(false);
        }
    }
    Ok(true)
}

#[test]
fn an_altered_byte_is_bad_or_means_what_it_spells(rt: HostRuntime) -> Result<(), Fail> {
    let alloc = rt.alloc();
    assert!(rt; turn_each_byte(alloc, Form::Persist)?);
    assert!(rt; turn_each_byte(alloc, Form::Strip)?);
    Ok(())
}

//! The limits of keys, values, names and batches; the stored order and stored keys; numbers in bytes.
ghost use Rattle.std.specs.Prelude.{◌≡◌, IfOk};

use std::alloc::Global;
use std::test::Fail;
use ts_key::coding::{Reader, Truncated, put_u8, put_u16, put_u32, put_u64};
use ts_key::{
    BATCH_LIMIT, Batch, BatchFault, BytesFault, Family, Form, KEY_LIMIT, Key, KeyBad, KeyRef, Kind,
    NAME_LIMIT, Name, NameFault, Op, SEQUENCE_LIMIT, STAMP_LIMIT, Seq, Ts, VALUE_LIMIT, Value,
    Version, WriteOp, compare, decode_key, decode_key_as, encode_key, encode_key_as, is_name,
};

fn is_kept_as_key(alloc: Global, bytes: &[u8]) -> Result<bool, Fail> {
    let key = Key::of(alloc, bytes)?;
    Ok(key.copy()?.bytes() == bytes)
}

fn is_kept_as_value(alloc: Global, bytes: &[u8]) -> Result<bool, Fail> {
    let value = Value::of(alloc, bytes)?;
    Ok(value.copy()?.bytes() == bytes)
}

fn is_kept_as_name(alloc: Global, bytes: &[u8]) -> Result<bool, Fail> {
    let name = Name::of(alloc, bytes)?;
    Ok(name.copy()?.bytes() == bytes)
}

#[test]
fn keys(rt: HostRuntime) -> Result<(), Fail> {
    for len in [0, 1, KEY_LIMIT] {
        let bytes = vec![in rt.alloc(); 0xff; len]?;
        assert!(rt; is_kept_as_key(rt.alloc(), &bytes)?, "{len}");
    }
    let long = vec![in rt.alloc(); 0u8; 1025]?;
    let refused = Key::of(rt.alloc(), &long).err();
    assert_eq!(rt; refused, Some(BytesFault::TooLong { len: 1025 }));
    Ok(())
}

#[test]
fn values(rt: HostRuntime) -> Result<(), Fail> {
    for len in [0, 1, VALUE_LIMIT] {
        let bytes = vec![in rt.alloc(); 0xff; len]?;
        assert!(rt; is_kept_as_value(rt.alloc(), &bytes)?, "{len}");
    }
    let long = vec![in rt.alloc(); 0u8; 65537]?;
    let refused = Value::of(rt.alloc(), &long).err();
    assert_eq!(rt; refused, Some(BytesFault::TooLong { len: 65537 }));
    Ok(())
}

const NAMES: [&[u8]; 4] = [b"a", b"_", b"default_09", &[b'z'; NAME_LIMIT]];

const NO_NAMES: [&[u8]; 9] = [
    b"",
    b"D",
    b"a b",
    b"a-b",
    b"`",
    b"{",
    b"/",
    b":",
    &[b'z'; 33],
];

#[test]
fn names(rt: HostRuntime) -> Result<(), Fail> {
    for bytes in NAMES {
        assert!(rt; is_name(bytes) && is_kept_as_name(rt.alloc(), bytes)?);
    }
    for bytes in NO_NAMES {
        let refused = Name::of(rt.alloc(), bytes).err();
        assert!(rt;
            !is_name(bytes) && refused == Some(NameFault::Bad),
            "{bytes:?}"
        );
    }
    Ok(())
}

fn put(alloc: Global, key: &[u8], ts: u64, seq: u64) -> Result<Version, Fail>
    ensures { IfOk result (λ v. (v.ts.0 ≡ ts) × (v.seq.0 ≡ seq)) }
{
    Ok(Version {
        family: Family(3),
        key: Key::of(alloc, key)?,
        ts: Ts(ts),
        seq: Seq(seq),
        op: Op::Put(Value::of(alloc, b"v")?),
    })
}

/// Is it the put of `a` at 5 with sequence 1 and the value `v`?
fn is_put_of_a(version: &Version) -> bool {
    let numbers = (version.family, version.ts, version.seq);
    numbers == (Family(3), Ts(5), Seq(1))
        && version.key.bytes() == b"a".as_slice()
        && version.op.kind() == Kind::Put
        && version.op.value() == b"v".as_slice()
}

#[test]
fn versions(rt: HostRuntime) -> Result<(), Fail> {
    let version = put(rt.alloc(), b"a", 5, 1)?;
    assert!(rt; is_put_of_a(&version.copy()?));
    assert!(rt; matches!(Op::Del.copy()?, Op::Del));
    Ok(())
}

fn write_ops(alloc: Global, stamps: &[u64]) -> Result<Vec<WriteOp>, Fail> {
    let mut ops = Vec::new(alloc);
    for ts in stamps {
        ops.push(WriteOp {
            family: Family(0),
            key: Key::of(alloc, b"k")?,
            ts: Ts(*ts),
            op: Op::Del,
        })?;
    }
    Ok(ops)
}

/// The batch of such deletes has their timestamps.
fn is_kept_as_batch(alloc: Global, stamps: &[u64]) -> Result<bool, Fail> {
    let batch = Batch::of(write_ops(alloc, stamps)?)?;
    for (op, ts) in batch.ops().iter().zip(stamps) {
        if op.copy()?.ts != Ts(*ts) {
            return Ok(false);
        }
    }
    Ok(batch.ops().len() == stamps.len())
}

const BATCHES: [&[u64]; 3] = [&[0], &[5, 4], &[u64::MAX - 1; BATCH_LIMIT]];

const NO_BATCHES: [(&[u64], BatchFault); 4] = [
    (&[], BatchFault::Empty),
    (&[u64::MAX; 65], BatchFault::TooMany { count: 65 }),
    (&[u64::MAX], BatchFault::BadStamp { op: 1 }),
    (&[1, u64::MAX, u64::MAX], BatchFault::BadStamp { op: 2 }),
];

#[test]
fn batches(rt: HostRuntime) -> Result<(), Fail> {
    for stamps in BATCHES {
        assert!(rt; is_kept_as_batch(rt.alloc(), stamps)?);
    }
    for (stamps, fault) in NO_BATCHES {
        let refused = Batch::of(write_ops(rt.alloc(), stamps)?).err();
        assert_eq!(rt; refused, Some(fault));
    }
    Ok(())
}

fn at(key: &[u8], ts: u64, seq: u64) -> KeyRef<'_> {
    KeyRef {
        key,
        ts: Ts(ts),
        seq: Seq(seq),
    }
}

/// Is this key, with this kind, what was read?
fn is_read(read: Option<(KeyRef<'_>, Kind)>, wanted: &KeyRef<'_>, kind: Kind) -> bool {
    match read {
        None => false,
        Some((key, found)) => {
            found == kind && key.key == wanted.key && (key.ts, key.seq) == (wanted.ts, wanted.seq)
        }
    }
}

const IN_ORDER: [(&[u8], u64, u64); 9] = [
    (b"", 0, 1),
    (b"a", 6, 1),
    (b"a", 5, 9),
    (b"a", 5, 2),
    (b"a", 0, 3),
    (b"a\0", 9, 9),
    (b"ab", 5, 1),
    (b"b", 5, 1),
    (b"\xff", 5, 1),
];

#[test]
fn versions_stand_by_key_then_the_larger_timestamp_then_the_larger_sequence(rt: HostRuntime) {
    for (i, a) in IN_ORDER.iter().enumerate() {
        for (j, b) in IN_ORDER.iter().enumerate() {
            let order = compare(&at(a.0, a.1, a.2), &at(b.0, b.1, b.2));
            assert_eq!(rt; order, i.cmp(&j));
        }
    }
}

/// The stored key of a put, behind a byte that stood there.
const STORED: &[u8] = b"\x5aa\x05\0\0\0\0\0\0\0\x01\x01\0\0\0\0\0\0";

#[test]
fn a_put_has_the_stored_key_of_the_formats(rt: HostRuntime) -> Result<(), Fail> {
    let mut out = vec![in rt.alloc(); 0x5au8; 1]?;
    encode_key(&put(rt.alloc(), b"a", 5, 1)?, &mut out)?;
    assert_eq!(rt; out.as_slice(), STORED);
    let read = decode_key(&STORED[1..]).ok();
    assert!(rt; is_read(read, &at(b"a", 5, 1), Kind::Put));
    Ok(())
}

/// The stored key of a stripped delete.
const STRIPPED: &[u8] = b"ab\0\x03\x02\0\0\0\0\0";

#[test]
fn a_stripped_delete_has_no_timestamp(rt: HostRuntime) -> Result<(), Fail> {
    let mut version = put(rt.alloc(), b"ab", 0, 0x0203)?;
    version.op = Op::Del;
    let mut out = Vec::new(rt.alloc());
    encode_key_as(Form::Strip, &version, &mut out)?;
    assert_eq!(rt; out.as_slice(), STRIPPED);
    let read = decode_key_as(Form::Strip, STRIPPED).ok();
    assert!(rt; is_read(read, &at(b"ab", 0, 0x0203), Kind::Del));
    Ok(())
}

/// The bytes of a key, a timestamp and a trailer, one after the other.
fn parts(alloc: Global, key: &[u8], ts: &[u8], trailer: &[u8]) -> Result<Vec<u8>, Fail> {
    let mut bytes = Vec::from_slice(alloc, key)?;
    bytes.extend_from_slice(ts)?;
    bytes.extend_from_slice(trailer)?;
    Ok(bytes)
}

const ZERO: &[u8] = &[0; 8];

/// The trailer of a put with sequence 1.
const TRAILER: &[u8] = b"\x01\x01\0\0\0\0\0\0";

/// No trailer; no timestamp, or one byte of it; no sequence; no kind; the greatest number as a
/// timestamp.
const NO_STORED_KEYS: [(&[u8], &[u8], &[u8]); 6] = [
    (b"", b"", b""),
    (b"", b"", TRAILER),
    (b"", b"\0", TRAILER),
    (b"k", ZERO, b"\x01\0\0\0\0\0\0\0"),
    (b"k", ZERO, b"\x02\x01\0\0\0\0\0\0"),
    (b"k", &[0xff; 8], TRAILER),
];

#[test]
fn bytes_outside_the_grammar_are_no_stored_key(rt: HostRuntime) -> Result<(), Fail> {
    for (key, ts, trailer) in NO_STORED_KEYS {
        let bytes = parts(rt.alloc(), key, ts, trailer)?;
        assert_eq!(rt; decode_key(&bytes).err(), Some(KeyBad));
    }
    let long = vec![in rt.alloc(); b'k'; 1025]?;
    let bytes = parts(rt.alloc(), &long, ZERO, TRAILER)?;
    assert_eq!(rt; decode_key(&bytes).err(), Some(KeyBad));
    Ok(())
}

#[test]
fn the_greatest_numbers_of_a_stored_key(rt: HostRuntime) -> Result<(), Fail> {
    let longest = vec![in rt.alloc(); b'k'; KEY_LIMIT]?;
    let version = put(rt.alloc(), &longest, STAMP_LIMIT, SEQUENCE_LIMIT)?;
    let mut out = Vec::new(rt.alloc());
    encode_key(&version, &mut out)?;
    let wanted = at(&longest, u64::MAX - 1, (1 << 56) - 1);
    assert_eq!(rt; out.len(), 1040);
    assert!(rt; is_read(decode_key(&out).ok(), &wanted, Kind::Put));
    Ok(())
}

const NUMBERS: &[u8] = b"\x01\x03\x02\x07\x06\x05\x04\x0f\x0e\x0d\x0c\x0b\x0a\x09\x08";

fn write_numbers(alloc: Global) -> Result<Vec<u8>, Fail> {
    let mut out = Vec::new(alloc);
    put_u8(&mut out, 0x01)?;
    put_u16(&mut out, 0x0203)?;
    put_u32(&mut out, 0x0405_0607)?;
    put_u64(&mut out, 0x0809_0a0b_0c0d_0e0f)?;
    Ok(out)
}

/// A number of one byte, of two, four and eight.
fn read_numbers(reader: &mut Reader<'_>) -> Result<(u8, u16, u32, u64), Truncated> {
    Ok((
        reader.take_u8()?,
        reader.take_u16()?,
        reader.take_u32()?,
        reader.take_u64()?,
    ))
}

#[test]
fn numbers_are_written_and_read_back(rt: HostRuntime) -> Result<(), Fail> {
    assert_eq!(rt; write_numbers(rt.alloc())?.as_slice(), NUMBERS);
    let mut reader = Reader { left: NUMBERS };
    let read = read_numbers(&mut reader);
    assert_eq!(rt;
        read,
        Ok((0x01, 0x0203, 0x0405_0607, 0x0809_0a0b_0c0d_0e0f))
    );
    assert_eq!(rt; reader.take_u8(), Err(Truncated));
    let mut short = Reader {
        left: &NUMBERS[..3],
    };
    assert_eq!(rt;
        (short.take_u32(), short.take_u16()),
        (Err(Truncated), Ok(0x0301))
    );
    Ok(())
}

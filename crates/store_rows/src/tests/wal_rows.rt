//! Write-ahead logs over folders in memory.

ghost use Rattle.std.specs.Prelude.{◌≡◌, ◌+◌, ◌^◌, ◌<◌, ◌≤◌, ◌∷◌, [], ℕ, length, All, IfOk, OnOk};
ghost use Rattle.ts_key.specs.declared.batch.WriteOp.{WriteOp as Operation};
ghost use Rattle.wal.specs.Wals.{wal_sizes, MayGoOn};

use byteorder::{ByteOrder, LittleEndian};
use std::alloc::Global;
use std::test::Fail;
use ts_key::{Batch, Family, Key, Op, Seq, Ts, Value, WriteOp};
use udt_disk::{Disk, DiskFile, Failed, FileName, MemDisk, MemFile, Outcome, Trouble};
use wal::{Numbered, PENDING_LIMIT, ReplayFault, Sizes, Wal};

/// Log 1 of a folder with one family, after one put of `a` at 5 with the value `v`, sequence 1.
const EXAMPLE: &[u8] =
    b"\xA5\x29\0\0\0\x01\x01\0\0\0\0\0\0\0\x08\x02\x01\0\0\0\0\0\0\0\x01\0\0\0\0\x01\x05\0\0\0\0\0\0\0\x01\0a\x01\0\0\0v\x5A";

/// The body of its frame, and the two records of that.
const BODY: &[u8] =
    b"\x01\x01\0\0\0\0\0\0\0\x08\x02\x01\0\0\0\0\0\0\0\x01\0\0\0\0\x01\x05\0\0\0\0\0\0\0\x01\0a\x01\0\0\0v";

/// What replaying a log gives: how many batches, or the offset of the bad frame.
#[derive(Clone, Copy, Debug, PartialEq, Eq)]
enum Replayed {
    Batches(usize),
    Bad(u64),
}

fn one_size(alloc: Global) -> Result<Sizes, Failed>
    ensures { IfOk result (λ sizes. sizes ≡ 8 ∷ []) }
{
    Sizes::of(alloc, &[8]).map_err(|_| Failed)
}

fn replay(alloc: Global, file: MemFile) -> Result<Replayed, Failed> {
    match Wal::replay(alloc, file, 1, one_size(alloc)?) {
        Ok((wal, batches)) => {
            let _file = wal.into_file();
            Ok(Replayed::Batches(batches.len()))
        }
        Err((_, ReplayFault::BadLog { number: 1, at })) => Ok(Replayed::Bad(at)),
        Err(_) => Err(Failed),
    }
}

fn replay_bytes(alloc: Global, bytes: &[u8]) -> Result<Replayed, Failed> {
    let Ok(mut disk) = MemDisk::new(alloc, Vec::new(alloc)) else {
        return Err(Failed);
    };
    let mut file = disk.create(FileName::Log(1))?;
    file.write_at(0, bytes)?;
    replay(alloc, file)
}

/// Adds a frame to the bytes of a log, in the place of its last gate.
fn add_frame(bytes: &mut Vec<u8>, body: &[u8]) -> Result<(), Failed> {
    let mut len = [0; 4];
    LittleEndian::write_u32(&mut len, u32::try_from(body.len()).map_err(|_| Failed)?);
    bytes.pop();
    for piece in [b"\xA5".as_slice(), &len, body, b"\x5A"] {
        bytes.extend_from_slice(piece).map_err(|_| Failed)?;
    }
    Ok(())
}

/// What replaying a log of these two bodies gives, or of the first alone where the second is empty.
fn replay_bodies(alloc: Global, first: &[u8], second: &[u8]) -> Result<Replayed, Failed> {
    let mut bytes = Vec::new(alloc);
    add_frame(&mut bytes, first)?;
    if !second.is_empty() {
        add_frame(&mut bytes, second)?;
    }
    replay_bytes(alloc, &bytes)
}

fn put_of(alloc: Global, ts: u64) -> Result<Batch, Failed>
    ensures one { IfOk result (λ batch. length batch ≡ 1) }
    ensures family { IfOk result (λ batch. All (λ (op : Operation). op.family.0 ≡ 0) batch) }
{
    let key = Key::of(alloc, b"a").map_err(|_| Failed)?;
    let value = Value::of(alloc, b"v").map_err(|_| Failed)?;
    let op = WriteOp {
        family: Family(0),
        key,
        ts: Ts(ts),
        op: Op::Put(value),
    };
    let mut ops = Vec::new(alloc);
    if ops.push(op).is_err() {
        return Err(Failed);
    }
    Batch::of(ops).map_err(|_| Failed)
}

/// Adds a put to a log, under the sequence.
fn add_put(alloc: Global, wal: &mut Wal<MemFile>, first: u64) -> Result<(), Failed>
    requires first { 1 ≤ first }
    requires last { first < 2 ^ 56 }
    requires families { 0 < length (wal_sizes wal.old) }
    requires next { MayGoOn (⟦<MemFile as DiskFile>⟧) wal.old first }
    ensures goes_on { OnOk result (MayGoOn (⟦<MemFile as DiskFile>⟧) wal.new (first + 1)) }
    ensures sizes { wal_sizes wal.new ≡ wal_sizes wal.old }
{
    if wal.pending() >= PENDING_LIMIT {
        return Err(Failed);
    }
    let batch = put_of(alloc, 5)?;
    match wal.append(Seq(first), &batch) {
        Ok(()) => Ok(()),
        Err(_) => Err(Failed),
    }
}

#[test]
fn the_example_is_written_and_read(rt: HostRuntime) -> Result<(), Fail> {
    let alloc = rt.alloc();
    let mut disk = MemDisk::new(alloc, Vec::new(alloc))?;
    let Ok(sizes) = one_size(alloc) else {
        assert!(rt; false, "sizes");
        return Ok(());
    };
    let Ok(mut wal) = Wal::create(alloc, &mut disk, 1, sizes) else {
        assert!(rt; false, "a new log");
        return Ok(());
    };
    assert_eq!(rt; wal.pending(), 0);
    if let Ok(()) = add_put(alloc, &mut wal, 1) {
        assert_eq!(rt; wal.pending(), 41);
        assert_eq!(rt; wal.sync(), Ok(()));
        assert_eq!(rt; wal.pending(), 0);
        assert_eq!(rt; wal.roll(&mut disk, 2), Ok(()));
    }
    disk.retire(wal.into_file());
    assert!(rt; disk.contents(FileName::Log(1)) == Some(EXAMPLE));
    assert!(rt; disk.contents(FileName::Log(2)) == Some(b"\x5A".as_slice()));
    Ok(())
}

#[test]
fn a_batch_is_read_as_it_was_written(rt: HostRuntime) -> Result<(), Fail> {
    let alloc = rt.alloc();
    let mut disk = MemDisk::new(alloc, Vec::new(alloc))?;
    let (Ok(mut file), Ok(sizes)) = (disk.create(FileName::Log(1)), one_size(alloc)) else {
        assert!(rt; false, "a file");
        return Ok(());
    };
    assert_eq!(rt; file.write_at(0, EXAMPLE), Ok(()));
    let Ok((wal, batches)) = Wal::replay(alloc, file, 1, sizes) else {
        assert!(rt; false, "the log");
        return Ok(());
    };
    disk.retire(wal.into_file());
    assert_eq!(rt; batches.len(), 1);
    let Numbered { first, batch } = &batches[0];
    assert_eq!(rt; *first, Seq(1));
    assert_eq!(rt; batch.ops().len(), 1);
    let op = &batch.ops()[0];
    assert_eq!(rt; (op.family, op.ts), (Family(0), Ts(5)));
    assert_eq!(rt; op.key.bytes(), b"a".as_slice());
    assert!(rt; matches!(&op.op, Op::Put(value) if value.bytes() == b"v".as_slice()));
    Ok(())
}

#[test]
fn bodies_outside_of_the_grammar_are_bad_at_their_frame(rt: HostRuntime) {
    let two: &[u8] = b"\x02\x02\0\0\0\0\0\0\0\x01\0\0\0\0\0\x05\0\0\0\0\0\0\0\x01\0a";
    let three: &[u8] = b"\x02\x03\0\0\0\0\0\0\0\x01\0\0\0\0\0\x05\0\0\0\0\0\0\0\x01\0a";
    for (first, second, want) in [
        (BODY, b"".as_slice(), Replayed::Batches(1)),
        (BODY, two, Replayed::Batches(2)),
        (&BODY[10..], b"", Replayed::Bad(0)),
        (&BODY[..10], b"", Replayed::Bad(0)),
        (&BODY[..40], b"", Replayed::Bad(0)),
        (BODY, BODY, Replayed::Bad(46)),
        (BODY, &BODY[10..], Replayed::Bad(46)),
        (BODY, three, Replayed::Bad(46)),
        (BODY, &two[..25], Replayed::Bad(46)),
        (&BODY[10..], three, Replayed::Bad(0)),
    ] {
        let replayed = replay_bodies(rt.alloc(), first, second);
        assert_eq!(rt; replayed, Ok(want), "{first:?} {second:?}");
    }
}

/// What replaying a log gives of this body, behind which the next frame isn't whole.
fn replay_torn(alloc: Global, body: &[u8]) -> Result<Replayed, Failed> {
    let mut bytes = Vec::new(alloc);
    add_frame(&mut bytes, body)?;
    bytes.pop();
    bytes
        .extend_from_slice(b"\xA5\x01\0\0")
        .map_err(|_| Failed)?;
    replay_bytes(alloc, &bytes)
}

#[test]
fn a_bad_body_stands_before_a_frame_that_is_not_whole(rt: HostRuntime) {
    assert_eq!(rt; replay_torn(rt.alloc(), BODY), Ok(Replayed::Bad(46)));
    assert_eq!(rt; replay_torn(rt.alloc(), &BODY[10..]), Ok(Replayed::Bad(0)));
}

/// What replaying a log gives whose body is the example's, with these bytes at the offset.
fn replay_altered(alloc: Global, at: usize, bytes: &[u8]) -> Result<Replayed, Failed> {
    let (front, rest) = BODY.split_at_checked(at).ok_or(Failed)?;
    let (_, behind) = rest.split_at_checked(bytes.len()).ok_or(Failed)?;
    let mut body = Vec::new(alloc);
    for piece in [front, bytes, behind] {
        body.extend_from_slice(piece).map_err(|_| Failed)?;
    }
    replay_bodies(alloc, &body, b"")
}

#[test]
fn records_outside_of_the_grammar_are_bad(rt: HostRuntime) {
    for (at, bytes) in [
        (0, b"\x03".as_slice()),
        (1, b"\x02"),
        (5, b"\x01"),
        (9, b"\0"),
        (10, b"\x01"),
        (11, b"\0\0\0\0\0\0\0\0"),
        (11, b"\0\0\0\0\0\0\0\x01"),
        (19, b"\0"),
        (19, b"\x41"),
        (20, b"\x01"),
        (24, b"\x02"),
        (25, b"\xFF\xFF\xFF\xFF\xFF\xFF\xFF\xFF"),
        (33, b"\x01\x04"),
        (36, b"\x02"),
        (36, b"\x01\0\x01"),
    ] {
        let replayed = replay_altered(rt.alloc(), at, bytes);
        assert_eq!(rt; replayed, Ok(Replayed::Bad(0)), "{bytes:?} at {at}");
    }
    for (at, bytes) in [
        (11, b"\xFF\xFF\xFF\xFF\xFF\xFF\xFF\0".as_slice()),
        (25, b"\xFE\xFF\xFF\xFF\xFF\xFF\xFF\xFF"),
    ] {
        let replayed = replay_altered(rt.alloc(), at, bytes);
        assert_eq!(rt; replayed, Ok(Replayed::Batches(1)), "{bytes:?} at {at}");
    }
}

/// Adds one batch and syncs it, and then two more. Tells whether the second sync went well.
fn sync_twice(alloc: Global, wal: &mut Wal<MemFile>) -> Result<bool, Failed>
    requires families { 0 < length (wal_sizes wal.old) }
    requires next { MayGoOn (⟦<MemFile as DiskFile>⟧) wal.old 1 }
{
    add_put(alloc, wal, 1)?;
    wal.sync()?;
    add_put(alloc, wal, 2)?;
    add_put(alloc, wal, 3)?;
    Ok(wal.sync().is_ok())
}

/// A log whose file fails at the call with this number.
fn log_with_trouble(alloc: Global, call: u64) -> Result<(MemDisk, Wal<MemFile>), Failed>
    ensures families { IfOk result (λ r. 0 < length (wal_sizes r.1)) }
    ensures next { IfOk result (λ r. MayGoOn (⟦<MemFile as DiskFile>⟧) r.1 1) }
{
    let trouble = Trouble {
        name: FileName::Log(1),
        call,
        lasting: false,
    };
    let Ok(troubles) = Vec::from_slice(alloc, &[trouble]) else {
        return Err(Failed);
    };
    let Ok(mut disk) = MemDisk::new(alloc, troubles) else {
        return Err(Failed);
    };
    match Wal::create(alloc, &mut disk, 1, one_size(alloc)?) {
        Ok(wal) => Ok((disk, wal)),
        Err(_) => Err(Failed),
    }
}

/// Syncs two batches behind a first one while the call on the file with this number fails. Tells whether the sync went
/// well, and what is replayed after a crash with the outcome.
fn sync_and_crash(alloc: Global, call: u64, outcome: Outcome) -> Result<(bool, Replayed), Failed> {
    let (mut disk, mut wal) = log_with_trouble(alloc, call)?;
    let synced = sync_twice(alloc, &mut wal);
    disk.retire(wal.into_file());
    let Ok(mut disk) = disk.after_crash(alloc, outcome) else {
        return Err(Failed);
    };
    match disk.open_file(FileName::Log(1))? {
        Some(file) => Ok((synced?, replay(alloc, file)?)),
        None => Err(Failed),
    }
}

#[test]
fn a_crash_leaves_all_that_waited_or_nothing_of_it(rt: HostRuntime) {
    // The calls on the file are its creation, a write and a sync, four for the first sync, and four for the second.
    for call in 8..13 {
        for outcome in [Outcome::Lost, Outcome::Kept, Outcome::Hostile] {
            let crashed = sync_and_crash(rt.alloc(), call, outcome);
            assert!(rt; crashed.is_ok(), "call {call}");
            if let Ok((synced, replayed)) = crashed {
                assert_eq!(rt; synced, call == 12, "call {call}");
                let left = [Replayed::Batches(1), Replayed::Batches(3)];
                assert!(rt; left.contains(&replayed), "call {call}, {outcome:?}");
                assert!(rt;
                    !synced || replayed == Replayed::Batches(3),
                    "call {call}, {outcome:?}"
                );
            }
        }
    }
}

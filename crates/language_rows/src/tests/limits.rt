//! Words, batches and files at their limits, and past them.

use client_lang::{COMMAND_LIMIT, FILE_LIMIT, ReadFault, read_client};
use std::alloc::{AllocError, Global};
use std::process::Abort;
use std::test::Fail;

/// A front, a part so many times and an end.
fn repeated(
    alloc: Global,
    front: &[u8],
    part: &[u8],
    count: usize,
    end: &[u8],
) -> Result<Vec<u8>, AllocError> {
    let mut file = Vec::from_slice(alloc, front)?;
    for _ in 0..count {
        file.extend_from_slice(part)?;
    }
    file.extend_from_slice(end)?;
    Ok(file)
}

/// The file has so many commands.
fn has(rt: &(impl AllocGlobal + Abort), file: &[u8], count: usize) -> Result<(), Fail> {
    assert_eq!(rt; read_client(rt.alloc(), file)?.len(), count);
    Ok(())
}

/// The file is refused for this.
fn refuses(rt: &(impl AllocGlobal + Abort), file: &[u8], wanted: ReadFault) -> Result<(), Fail> {
    assert_eq!(rt; read_client(rt.alloc(), file).err(), Some(wanted));
    Ok(())
}

/// A front with a part once more than `limit` times and an end is refused, and one with `limit` is a command.
fn ends_at(
    rt: &(impl AllocGlobal + Abort),
    front: &[u8],
    part: &[u8],
    limit: usize,
    end: &[u8],
) -> Result<(), Fail> {
    let most = repeated(rt.alloc(), front, part, limit, end)?;
    has(rt, &most, 1)?;
    let more = repeated(rt.alloc(), front, part, limit.saturating_add(1), end)?;
    refuses(rt, &more, ReadFault::BadLine { line: 1 })
}

#[test]
fn names_and_keys(rt: HostRuntime) -> Result<(), Fail> {
    ends_at(&rt, b"get ", b"n", 32, b" k 1")?;
    ends_at(&rt, b"get n ", b"k", 1024, b" 1")?;
    ends_at(&rt, b"get n 0x", b"6b", 1024, b" 1")
}

#[test]
fn values_and_batches(rt: HostRuntime) -> Result<(), Fail> {
    ends_at(&rt, b"put n k 1 ", b"v", 65536, b"\n")?;
    ends_at(&rt, b"put n k 1 0x", b"76", 65536, b"\n")?;
    ends_at(&rt, b"put f k 1 v", b" ; del f k 1", 63, b"\n")
}

#[test]
fn timestamps_of_writes(rt: HostRuntime) -> Result<(), Fail> {
    has(&rt, b"put f k 18446744073709551614 v", 1)?;
    refuses(
        &rt,
        b"put f k 18446744073709551615 v",
        ReadFault::BadLine { line: 1 },
    )
}

#[test]
fn commands_of_a_file(rt: HostRuntime) -> Result<(), Fail> {
    let full = repeated(rt.alloc(), b"", b"sync\n", COMMAND_LIMIT, b"")?;
    has(&rt, &full, 100_000)?;
    let more = repeated(rt.alloc(), b"", b"#\nsync\n", 100_001, b"x")?;
    refuses(&rt, &more, ReadFault::TooMany { line: 200_002 })?;
    let bad = repeated(rt.alloc(), b"", b"sync\n", 100_000, b"x\nsync\n")?;
    refuses(&rt, &bad, ReadFault::BadLine { line: 100_001 })
}

#[test]
fn bytes_of_a_file(rt: HostRuntime) -> Result<(), Fail> {
    let comment = repeated(rt.alloc(), b"#", b" ", 1022, b"\n")?;
    let full = repeated(rt.alloc(), b"", &comment, 8192, b"")?;
    assert_eq!(rt; full.len(), FILE_LIMIT);
    has(&rt, &full, 0)?;
    let more = repeated(rt.alloc(), b"", &comment, 8192, b"x")?;
    refuses(&rt, &more, ReadFault::TooLong)
}

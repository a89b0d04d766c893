//! Gate logs over files in memory.

use gate_log::{FramesFault, GateLog};
use std::alloc::Global;
use std::test::Fail;
use udt_disk::{Disk, DiskFile, Failed, FileName, MemDisk, MemFile};

const LOG: FileName = FileName::Log(1);

/// A log of the frames `ab`, `c` and `ddd`.
const THREE: &[u8] = b"\xA5\x02\0\0\0ab\xA5\x01\0\0\0c\xA5\x03\0\0\0ddd\x5A";

/// What reading these bytes as a log gives: how many frames, or the offset of the bad one and how many stand before it.
#[derive(Clone, Copy, Debug, PartialEq, Eq)]
enum Reading {
    Frames(usize),
    Bad(u64, usize),
}

fn log_file(disk: &mut MemDisk, bytes: &[u8]) -> Result<MemFile, Failed> {
    let mut file = disk.create(LOG)?;
    file.write_at(0, bytes)?;
    Ok(file)
}

fn reading_of(fault: FramesFault) -> Result<Reading, Failed> {
    match fault {
        FramesFault::BadFrame { at, before } => Ok(Reading::Bad(at, before.len())),
        FramesFault::DiskFault | FramesFault::NoMemory => Err(Failed),
    }
}

fn read(alloc: Global, file: MemFile) -> Result<Reading, Failed> {
    match GateLog::of(alloc, file) {
        Ok((log, frames)) => {
            let _file = log.into_file();
            Ok(Reading::Frames(frames.len()))
        }
        Err((_, fault)) => reading_of(fault),
    }
}

fn read_bytes(alloc: Global, bytes: &[u8]) -> Result<Reading, Failed> {
    let Ok(mut disk) = MemDisk::new(alloc, Vec::new(alloc)) else {
        return Err(Failed);
    };
    let file = log_file(&mut disk, bytes)?;
    read(alloc, file)
}

#[test]
fn a_frame_has_a_gate_a_length_and_a_body(rt: HostRuntime) -> Result<(), Fail> {
    let alloc = rt.alloc();
    let mut disk = MemDisk::new(alloc, Vec::new(alloc))?;
    let file = disk.create(LOG)?;
    let Ok(mut log) = GateLog::create(alloc, file) else {
        return Err("no new log".into());
    };
    assert!(rt; log.reserve(2).is_ok());
    assert_eq!(rt; log.append(b"ab"), Ok(()));
    disk.retire(log.into_file());
    assert!(rt; disk.contents(LOG) == Some(b"\xA5\x02\0\0\0ab\x5A".as_slice()));
    Ok(())
}

#[test]
fn a_cut_log_is_bad_at_its_last_frame(rt: HostRuntime) {
    for len in 0..THREE.len() {
        let want = match len {
            0..8 => Reading::Bad(0, 0),
            8..14 => Reading::Bad(7, 1),
            _ => Reading::Bad(13, 2),
        };
        let read = read_bytes(rt.alloc(), &THREE[..len]);
        assert_eq!(rt; read, Ok(want), "{len} bytes");
    }
    assert_eq!(rt; read_bytes(rt.alloc(), THREE), Ok(Reading::Frames(3)));
}

#[test]
fn what_stands_behind_a_closed_gate_does_not_count(rt: HostRuntime) {
    for (bytes, frames) in [
        (b"\x5A".as_slice(), 0),
        (b"\x5A\xA5\x01\0\0\0c\xA5", 0),
        (b"\0\xA5", 0),
        (b"\xA5\x01\0\0\0c\x5A\xA5\xA5", 1),
        (b"\xA5\x01\0\0\0c\xA4\xFF\xFF\xFF\xFF", 1),
    ] {
        let read = read_bytes(rt.alloc(), bytes);
        assert_eq!(rt; read, Ok(Reading::Frames(frames)), "{bytes:?}");
    }
}

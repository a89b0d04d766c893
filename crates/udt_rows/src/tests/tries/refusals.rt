//! Files and command lines that are refused, with what they print.

use super::stage::{ends, prints, ran, refuses, repeated};
use client_runner::{Status, refuse_words};
use std::test::Fail;
use udt_disk::MemSink;

/// Files, each with the refusal that it prints.
const BAD_LINES: [(&str, &str); 4] = [
    ("put d a 5 v\nget d a 5\nput d a\n", "bad line FILE 3\n"),
    ("\n#\nput d a 5 v\nbad", "bad line FILE 4\n"),
    ("put d a 18446744073709551615 v", "bad line FILE 1\n"),
    ("put d a 5 v ;put d a 6 w\n", "bad line FILE 1\n"),
];

#[test]
fn bad_lines_are_named(rt: HostRuntime) -> Result<(), Fail> {
    for (file, text) in BAD_LINES {
        refuses(&rt, file.as_bytes(), text.as_bytes())?;
    }
    Ok(())
}

#[test]
fn longer_ones_than_there_may_be(rt: HostRuntime) -> Result<(), Fail> {
    let batch = repeated(&rt, b"", b"put d a 5 v ; ", 64, b"put d a 5 v")?;
    refuses(&rt, &batch, b"bad line FILE 1\n")?;
    let put = repeated(&rt, b"put d ", b"k", 1025, b" 5 v")?;
    refuses(&rt, &put, b"bad line FILE 1\n")?;
    let syncs = repeated(&rt, b"", b"sync\n", 100_001, b"")?;
    refuses(&rt, &syncs, b"too many FILE 100001\n")
}

#[test]
fn a_file_has_a_most(rt: HostRuntime) -> Result<(), Fail> {
    let comment = repeated(&rt, b"#", b" ", 1022, b"\n")?;
    let most = repeated(&rt, b"", &comment, 8192, b"")?;
    prints(&rt, &most, b"")?;
    let more = repeated(&rt, b"", &comment, 8192, b"?")?;
    refuses(&rt, &more, b"too long FILE\n")
}

#[test]
fn words_that_are_no_command_line(rt: HostRuntime) -> Result<(), Fail> {
    for words in [
        [].as_slice(),
        &[b"frob".as_slice()],
        &[b"try"],
        &[b"try", b"FILE", b"FILE"],
        &[b"TRY", b"FILE"],
        &[b"try", b"\xff"],
        &[b"--help", b"x"],
    ] {
        ends(&rt, words, Status::Usage, b"bad words\n")?;
    }
    Ok(())
}

#[test]
fn words_that_print_a_text(rt: HostRuntime) -> Result<(), Fail> {
    ends(&rt, &[b"--version"], Status::Done, b"udtstore 0.1.0\n")?;
    ends(&rt, &[b"try", b"NONE"], Status::Usage, b"no file NONE\n")?;
    let help = ran(&rt, &[b"--help"], b"", None, None)?;
    assert_eq!(rt; help.status, Status::Done);
    assert!(rt;
        help.text.starts_with(b"udtstore: a key-value store whose keys carry timestamps\n")
    );
    Ok(())
}

#[test]
fn words_that_are_no_texts(rt: HostRuntime) {
    let mut out = MemSink::new(rt.alloc(), None);
    assert_eq!(rt; refuse_words(&mut out), Status::Usage);
    assert_eq!(rt; out.taken(), b"bad words\n".as_slice());
}

#[test]
fn statuses_have_their_codes(rt: HostRuntime) {
    assert!(rt; Status::Done.code() == 0 && Status::Usage.code() == 2);
    assert!(rt; Status::Folder.code() == 3 && Status::DiskFault.code() == 4);
    assert!(rt; Status::SinkFault.code() == 5 && Status::SourceFault.code() == 6);
    assert!(rt; Status::NoMemory.code() == 7);
}

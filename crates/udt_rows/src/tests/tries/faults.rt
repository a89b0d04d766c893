//! Reads of the file and writes of the sink that fail.

use super::stage::{Outcome, ran, repeated};
use client_runner::Status;
use std::process::Abort;
use std::test::Fail;

const TRY: [&[u8]; 2] = [b"try", b"FILE"];

/// A command line with one failing read or write ends with this status and text.
fn fails(
    rt: &(impl AllocGlobal + Abort),
    words: &[&[u8]],
    file: &[u8],
    read_fails: Option<u64>,
    write_fails: Option<u64>,
    status: Status,
    text: &[u8],
) -> Result<(), Fail> {
    let outcome = ran(rt, words, file, read_fails, write_fails)?;
    assert_eq!(rt; outcome.status, status);
    assert_eq!(rt; outcome.text.as_slice(), text);
    Ok(())
}

#[test]
fn the_first_or_a_later_read_fails(rt: HostRuntime) -> Result<(), Fail> {
    let long = repeated(&rt, b"", b"\n", 20_000, b"")?;
    let (status, text) = (Status::SourceFault, b"source fault\n");
    for read in [1, 2] {
        fails(&rt, &TRY, &long, Some(read), None, status, text)?;
    }
    Ok(())
}

/// Words and a file whose first write fails: of a transcript, of a refusal, and of a text.
const WRITES: [(&[&[u8]], &[u8]); 3] = [
    (&TRY, b"get d a 5\n"),
    (&TRY, b"x\n"),
    (&[b"--version"], b""),
];

#[test]
fn a_write_that_fails(rt: HostRuntime) -> Result<(), Fail> {
    for (words, file) in WRITES {
        fails(&rt, words, file, None, Some(1), Status::SinkFault, b"")?;
    }
    Ok(())
}

/// Did the sink fail behind more than one write, and take a front of what it takes else?
fn is_cut(cut: &Outcome, whole: &Outcome) -> bool {
    whole.status == Status::Done
        && cut.status == Status::SinkFault
        && cut.text.len() > 65_536
        && cut.text.len() < whole.text.len()
        && whole.text.starts_with(&cut.text)
}

/// The sink's third write fails.
fn takes_a_front(rt: &impl AllocGlobal, file: &[u8]) -> Result<bool, Fail> {
    let whole = ran(rt, &TRY, file, None, None)?;
    let cut = ran(rt, &TRY, file, None, Some(3))?;
    Ok(is_cut(&cut, &whole))
}

#[test]
fn a_sink_that_fails_has_taken_a_front(rt: HostRuntime) -> Result<(), Fail> {
    let put = repeated(&rt, b"put d a 5 ", b"v", 65_536, b"\n")?;
    let file = repeated(&rt, &put, b"get d a 5\n", 3, b"")?;
    assert!(rt; takes_a_front(&rt, &file)?);
    Ok(())
}

//! What the tests of command lines share: a host with one file, and a sink.

use client_runner::{Status, store_plain};
use std::alloc::Global;
use std::process::Abort;
use std::test::Fail;
use udt_disk::{MemHost, MemSink, MemSource, Text};

/// What a try prints before its lines.
const HEADER: &[u8] = b"udt 1\nopened 0\nfamily d persist 0\nbegin\n";

/// What a command line came to: its status, and all that the sink took.
#[derive(Drop)]
pub(crate) struct Outcome {
    pub(crate) status: Status,
    pub(crate) text: Vec<u8>,
}

fn texts(alloc: Global, words: &[&[u8]]) -> Result<Vec<Text>, Fail> {
    let mut texts = Vec::new(alloc);
    for word in words {
        texts.push(Text::of(alloc, word)?)?;
    }
    Ok(texts)
}

/// A host with this file under `FILE`, of which the read with this number fails.
fn host_with(alloc: Global, file: &[u8], read_fails: Option<u64>) -> Result<MemHost, Fail> {
    let mut host = MemHost::new(alloc);
    let source = MemSource::new(Vec::from_slice(alloc, file)?, read_fails);
    host.put_source(Text::of(alloc, b"FILE")?, source)?;
    Ok(host)
}

/// Runs words over a host with this file under `FILE`, whose reads and whose sink may fail once.
pub(crate) fn ran(
    rt: &impl AllocGlobal,
    words: &[&[u8]],
    file: &[u8],
    read_fails: Option<u64>,
    write_fails: Option<u64>,
) -> Result<Outcome, Fail> {
    let alloc = rt.alloc();
    let words = texts(alloc, words)?;
    let mut host = host_with(alloc, file, read_fails)?;
    let mut out = MemSink::new(alloc, write_fails);
    let status = store_plain(alloc, &words, &mut host, &mut out);
    let text = Vec::from_slice(alloc, out.taken())?;
    Ok(Outcome { status, text })
}

/// `try FILE` prints the header and these lines, with status 0.
pub(crate) fn prints(
    rt: &(impl AllocGlobal + Abort),
    file: &[u8],
    lines: &[u8],
) -> Result<(), Fail> {
    let outcome = ran(rt, &[b"try", b"FILE"], file, None, None)?;
    let mut wanted = Vec::from_slice(rt.alloc(), HEADER)?;
    wanted.extend_from_slice(lines)?;
    assert_eq!(rt; outcome.status, Status::Done);
    assert_eq!(rt; outcome.text.as_slice(), wanted.as_slice());
    Ok(())
}

/// The words print this text, with this status, over the file `sync`.
pub(crate) fn ends(
    rt: &(impl AllocGlobal + Abort),
    words: &[&[u8]],
    status: Status,
    text: &[u8],
) -> Result<(), Fail> {
    let outcome = ran(rt, words, b"sync\n", None, None)?;
    assert_eq!(rt; outcome.status, status);
    assert_eq!(rt; outcome.text.as_slice(), text);
    Ok(())
}

/// `try FILE` prints this refusal of the file alone, with status 2.
pub(crate) fn refuses(
    rt: &(impl AllocGlobal + Abort),
    file: &[u8],
    text: &[u8],
) -> Result<(), Fail> {
    let outcome = ran(rt, &[b"try", b"FILE"], file, None, None)?;
    assert_eq!(rt; outcome.status, Status::Usage);
    assert_eq!(rt; outcome.text.as_slice(), text);
    Ok(())
}

/// A front, a part so many times and an end.
pub(crate) fn repeated(
    rt: &impl AllocGlobal,
    front: &[u8],
    part: &[u8],
    count: usize,
    end: &[u8],
) -> Result<Vec<u8>, Fail> {
    let mut file = Vec::from_slice(rt.alloc(), front)?;
    for _ in 0..count {
        file.extend_from_slice(part)?;
    }
    file.extend_from_slice(end)?;
    Ok(file)
}

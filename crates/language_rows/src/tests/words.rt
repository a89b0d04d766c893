//! Words of lines as they are printed.

use client_lang::{Word, push_line};
use std::process::Abort;
use std::test::Fail;
use udt_model::{Mark, Who};

/// The word is printed so.
fn shows(rt: &(impl AllocGlobal + Abort), word: Word, text: &[u8]) -> Result<(), Fail> {
    let mut out = Vec::new(rt.alloc());
    push_line(&mut out, &[word])?;
    assert_eq!(rt; out.pop(), Some(b'\n'));
    assert_eq!(rt; out.as_slice(), text);
    Ok(())
}

/// The byte word is printed so.
fn spells(rt: &(impl AllocGlobal + Abort), bytes: &[u8], text: &[u8]) -> Result<(), Fail> {
    shows(rt, Word::Bytes(bytes), text)
}

#[test]
fn numbers(rt: HostRuntime) -> Result<(), Fail> {
    shows(&rt, Word::Number(0), b"0")?;
    shows(&rt, Word::Number(u64::MAX), b"18446744073709551615")
}

#[test]
fn marks(rt: HostRuntime) -> Result<(), Fail> {
    shows(&rt, Word::Mark(Mark { number: 5, sub: 0 }), b"5")?;
    shows(&rt, Word::Mark(Mark { number: 5, sub: 2 }), b"5.2")?;
    shows(&rt, Word::Mark(Mark { number: 0, sub: 1 }), b"0.1")
}

#[test]
fn actors(rt: HostRuntime) -> Result<(), Fail> {
    shows(&rt, Word::Who(Who::Client(16)), b"c16")?;
    shows(&rt, Word::Who(Who::Flusher), b"f")?;
    shows(&rt, Word::Who(Who::Compactor), b"m")?;
    shows(&rt, Word::Who(Who::Runner), b"r")
}

#[test]
fn plain_byte_words(rt: HostRuntime) -> Result<(), Fail> {
    spells(&rt, b"a", b"a")?;
    spells(&rt, b"AZaz09_-./:@+", b"AZaz09_-./:@+")?;
    spells(&rt, b"0", b"0")?;
    spells(&rt, b"0X1", b"0X1")?;
    spells(&rt, b"x0x", b"x0x")
}

#[test]
fn hex_byte_words(rt: HostRuntime) -> Result<(), Fail> {
    spells(&rt, b"", b"0x")?;
    spells(&rt, b"a\0", b"0x6100")?;
    spells(&rt, b"0x", b"0x3078")?;
    spells(&rt, b"\xab\xcd\xef", b"0xabcdef")?;
    spells(&rt, b"=", b"0x3d")?;
    spells(&rt, b"a,", b"0x612c")
}

#[test]
fn lines_of_words(rt: HostRuntime) -> Result<(), Fail> {
    let mut out = Vec::new(rt.alloc());
    let words = [Word::Text(b"bad"), Word::Bytes(b"a b"), Word::Number(3)];
    push_line(&mut out, &words)?;
    push_line(&mut out, &[])?;
    assert_eq!(rt; out.as_slice(), b"bad 0x612062 3\n\n".as_slice());
    Ok(())
}

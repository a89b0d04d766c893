//! Transcripts written to a sink, over one buffer whose room is reserved before the first write.
ghost use Rattle.std.specs.Prelude.{◌≡◌, ◌≤◌, ◌++◌, All, length, vec_len, vec_capacity, OnOk, OnErr, IfOk};
ghost use Rattle.std.specs.Io.KnownBytes.{Appends};
ghost use Rattle.udt_disk.specs.Causes.{Rose};
ghost use Rattle.client_runner.specs.Flows.{AppendsFront};
ghost use Rattle.client_runner.specs.Output.{HasRoomForLines, HasRoomFor, Passes, Flushes};
ghost use Rattle.client_lang.specs.Print.{IsBuiltLine, print_line as line_text, print_lines as lines_text, print_header as header_text};

use crate::flow::write_whole;
use client_lang::{print_header, print_line};
use std::alloc::{AllocError, Global};
use ts_key::NoMemory;
use udt_disk::{Failed, Sink};
use udt_model::{FamilyHead, Line};

/// So many bytes of lines are gathered before they are written.
const CHUNK: usize = 65_536;

/// A transcript that waits to be written: the header in a buffer that has the room for the lines.
#[derive(Drop)]
pub struct Ready {
    pub buffer: Vec<u8>,
    pub lines: Vec<Line>,
}

/// How many bytes the longest line has in print. Each line is printed for it, and once more to be written.
fn longest_line(alloc: Global, lines: &[Line]) -> Result<usize, NoMemory>
    requires { All IsBuiltLine lines.now }
    ensures { IfOk result (λ longest. All (λ l. length (line_text l) ≤ longest) lines.now) }
{
    let mut text = Vec::new(alloc);
    let mut longest = 0;
    for line in lines {
        text.clear();
        print_line(line, &mut text)?;
        longest = text.len().max(longest);
    }
    Ok(longest)
}

/// The header of a store that was opened at the sequence `last`.
pub fn header_of(alloc: Global, last: u64, heads: &[FamilyHead]) -> Result<Vec<u8>, NoMemory>
    ensures { IfOk result (λ buffer. buffer.items ≡ header_text last heads.now) }
{
    let mut buffer = Vec::new(alloc);
    print_header(last, heads, &mut buffer)?;
    Ok(buffer)
}

/// The transcript of these lines behind a header. Writing it needs no memory.
pub fn ready_of(alloc: Global, mut buffer: Vec<u8>, lines: Vec<Line>) -> Result<Ready, NoMemory>
    requires { All IsBuiltLine lines.items }
    ensures header { IfOk result (λ ready. ready.buffer.items ≡ buffer.items) }
    ensures lines { IfOk result (λ ready. ready.lines.items ≡ lines.items) }
    ensures room { IfOk result (λ ready. HasRoomForLines ready.buffer lines.items) }
{
    let Some(room) = longest_line(alloc, &lines)?.checked_add(CHUNK) else {
        return Err(AllocError);
    };
    buffer.reserve(room)?;
    Ok(Ready { buffer, lines })
}

/// Writes the buffer where it has a chunk of bytes.
fn flush_chunk<K: Sink>(out: &mut K, buffer: &mut Vec<u8>) -> Result<(), Failed>
    ensures ok { OnOk result (Flushes (K.taken out.old) (K.taken out.new) buffer.old buffer.new) }
    ensures front { OnErr result (AppendsFront (K.taken out.old) (K.taken out.new) buffer.old.items) }
    ensures failed { OnErr result (Rose (K.faults out.old) (K.faults out.new)) }
    ensures later { K.faults out.old ≤ K.faults out.new }
{
    if buffer.len() < CHUNK {
        return Ok(());
    }
    write_whole(out, buffer)?;
    buffer.clear();
    Ok(())
}

/// Adds a line to the buffer, which is written first where it has a chunk of bytes.
fn write_line<K: Sink>(out: &mut K, buffer: &mut Vec<u8>, line: &Line) -> Result<(), Failed>
    requires built { IsBuiltLine line.now }
    requires room { HasRoomFor buffer.old line.now }
    ensures ok { OnOk result (Passes (K.taken out.old) (K.taken out.new) buffer.old buffer.new (line_text line.now)) }
    ensures front { OnErr result (AppendsFront (K.taken out.old) (K.taken out.new) (buffer.old.items ++ line_text line.now)) }
    ensures failed { OnErr result (Rose (K.faults out.old) (K.faults out.new)) }
    ensures later { K.faults out.old ≤ K.faults out.new }
{
    flush_chunk(out, buffer)?;
    print_line(line, buffer).unwrap();
    Ok(())
}

/// Writes what the buffer holds, and the lines behind it. Where the sink fails, it has taken a front of that.
pub fn write_lines<K: Sink>(out: &mut K, buffer: &mut Vec<u8>, lines: &[Line]) -> Result<(), Failed>
    requires built { All IsBuiltLine lines.now }
    requires room { HasRoomForLines buffer.old lines.now }
    ensures ok { OnOk result (Appends (K.taken out.old) (K.taken out.new) (buffer.old.items ++ lines_text lines.now)) }
    ensures front { OnErr result (AppendsFront (K.taken out.old) (K.taken out.new) (buffer.old.items ++ lines_text lines.now)) }
    ensures failed { OnErr result (Rose (K.faults out.old) (K.faults out.new)) }
    ensures later { K.faults out.old ≤ K.faults out.new }
{
    for line in lines {
        write_line(out, buffer, line)?;
    }
    write_whole(out, buffer)
}

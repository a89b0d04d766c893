//! Whole sources in, whole texts out.
ghost use Rattle.std.specs.Prelude.{◌≡◌, ◌<◌, ◌≤◌, length, take, OnOk, OnErr, IfOk, IfSome};
ghost use Rattle.std.specs.Io.KnownBytes.{Appends};
ghost use Rattle.udt_disk.specs.Causes.{Rose};
ghost use Rattle.client_runner.specs.Flows.{AppendsFront};
ghost use Rattle.client_runner.specs.declared.flow.FlowFault.TheVariants.{NoMemory};

use client_lang::FILE_LIMIT;
use std::alloc::{AllocError, Global};
use udt_disk::{Failed, Sink, Source};

/// Why a source isn't read whole.
#[derive(Clone, Copy, Debug, PartialEq, Eq)]
pub enum FlowFault {
    /// The source failed.
    Failed,
    /// The source has more bytes than `FILE_LIMIT`.
    TooLong,
    /// There was no memory.
    NoMemory,
}

impl From<AllocError> for FlowFault {
    ghost from_gives = { λ _ e. e ≡ NoMemory };

    fn from(_: AllocError) -> Self {
        FlowFault::NoMemory
    }
}

/// All that a source has left, up to `FILE_LIMIT` bytes. It stops once it has more.
pub fn read_whole<S: Source>(alloc: Global, source: &mut S) -> Result<Vec<u8>, FlowFault>
    ensures ok { IfOk result (λ bytes. IfSome (S.left source.old) (λ left. left ≡ bytes.items)) }
    ensures short { IfOk result (λ bytes. length bytes.items ≤ FILE_LIMIT) }
    ensures long { result ≡ Err FlowFault.TooLong → IfSome (S.left source.old) (λ left. FILE_LIMIT < length left) }
    ensures failed { result ≡ Err FlowFault.Failed → Rose (S.faults source.old) (S.faults source.new) }
    ensures later { S.faults source.old ≤ S.faults source.new }
{
    let mut bytes = Vec::new(alloc);
    let mut buffer = [0u8; 16384];
    while bytes.len() <= FILE_LIMIT {
        let Ok(count) = source.read(&mut buffer) else {
            return Err(FlowFault::Failed);
        };
        if count == 0 {
            return Ok(bytes);
        }
        bytes.extend_from_slice(&buffer[..count])?;
    }
    Err(FlowFault::TooLong)
}

/// Writes the whole text. Where the sink fails, it has taken a front of the text.
pub fn write_whole<K: Sink>(out: &mut K, text: &[u8]) -> Result<(), Failed>
    ensures ok { OnOk result (Appends (K.taken out.old) (K.taken out.new) text.now) }
    ensures front { OnErr result (AppendsFront (K.taken out.old) (K.taken out.new) text.now) }
    ensures failed { OnErr result (Rose (K.faults out.old) (K.faults out.new)) }
    ensures later { K.faults out.old ≤ K.faults out.new }
{
    let mut at = 0;
    while at < text.len() {
        let count = out.write(&text[at..])?;
        at += count;
    }
    Ok(())
}

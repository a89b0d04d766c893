//! Sources and sinks over readers and writers of the operating system.
ghost use Rattle.std.specs.Prelude.{◌≡◌, None};

use super::Faults;
use crate::{Failed, Sink, Source};
use std::io::{ErrorKind, Read, Write};

/// A source over a reader, as a file.
#[derive(Drop)]
pub struct HostSource<R: Read + Drop> {
    inner: R,
    faults: Faults,
}

impl<R: Read + Drop> HostSource<R> {
    pub(super) fn new(inner: R) -> HostSource<R> {
        HostSource {
            inner,
            faults: Faults::new(),
        }
    }

    pub(super) fn faults(&self) -> Faults
        ensures { result ≡ self.now.faults }
    {
        self.faults
    }
}

impl<R: Read + Drop> Source for HostSource<R> {
    ghost left = { λ _. None };

    ghost faults = { λ s. s.faults.count };

    /// A read that a signal interrupts is tried again.
    fn read(&mut self, into: &mut [u8]) -> Result<usize, Failed> {
        for _ in 0..u64::MAX {
            match self.inner.read(into) {
                Ok(count) => return Ok(count),
                Err(e) if e.kind() == ErrorKind::Interrupted => {}
                Err(e) => return self.faults.counted(Err(e)),
            }
        }
        self.faults.counted(Err(ErrorKind::Interrupted.into()))
    }
}

/// A sink over a writer, as standard output.
#[derive(Drop)]
pub struct HostSink<W: Write + Drop> {
    inner: W,
    faults: Faults,
}

impl<W: Write + Drop> HostSink<W> {
    /// A sink that hands what it takes to the writer.
    pub fn new(inner: W) -> HostSink<W>
        ensures { ⟦<HostSink<W> as Sink>⟧.faults result ≡ 0 }
    {
        HostSink {
            inner,
            faults: Faults::new(),
        }
    }
}

impl<W: Write + Drop> Sink for HostSink<W> {
    ghost taken = { λ _. None };

    ghost faults = { λ s. s.faults.count };

    /// A write that a signal interrupts is tried again. A writer that takes nothing of a piece has failed.
    fn write(&mut self, piece: &[u8]) -> Result<usize, Failed> {
        for _ in 0..u64::MAX {
            match self.inner.write(piece) {
                Ok(count) if count > 0 || piece.is_empty() => return Ok(count),
                Ok(_) => return self.faults.counted(Err(ErrorKind::WriteZero.into())),
                Err(e) if e.kind() == ErrorKind::Interrupted => {}
                Err(e) => return self.faults.counted(Err(e)),
            }
        }
        self.faults.counted(Err(ErrorKind::Interrupted.into()))
    }
}

//! The outside in memory: for tests, and for callers that keep what comes in or goes out.

ghost use Rattle.std.specs.Prelude.{◌≡◌, ◌≢◌, ◌<◌, ◌↔◌, ◌&&◌, ℕ, [], List, IsErr, IsTrue, IfOk, IfSome, OnOk, OnErr, if◌then◌else◌, is_some, is_err, not, length, min, take, position};
ghost use Rattle.std.specs.Io.{ReadsAtMost};
ghost use Rattle.std.specs.Io.KnownBytes.{ReadConsumes, WriteAppends};
ghost use Rattle.udt_disk.specs.Causes.{HasCause, plus_faults};
ghost use Rattle.udt_disk.specs.Flows.{TakesSome};
ghost use Rattle.udt_disk.specs.Memory.{fails_now, fails_later};

use crate::{Failed, Sink, Source};
use std::alloc::Global;
use std::marker::Model;

/// A source over bytes in memory, one of whose reads can be made to fail.
#[derive(Drop)]
pub struct MemSource {
    bytes: Vec<u8>,
    at: usize,
    fails_in: Option<u64>,
    faults: u64,
}

impl Model for MemSource {
    ghost use Rattle.std.specs.Prelude.{◌≤◌, drop, length};
    ghost use Rattle.udt_disk.specs.Memory.{Reading};

    ghost Value = { Reading };

    ghost view = { λ s. record { left = drop s.at s.bytes.items; fails_in = s.fails_in; faults = s.faults } };

    ghost invariant = { λ s. s.at ≤ length s.bytes.items };
}

impl MemSource {
    /// A source of these bytes. The read with the number `fail_at`, counted from 1, fails.
    pub fn new(bytes: Vec<u8>, fail_at: Option<u64>) -> MemSource
        ensures left { result.left ≡ bytes.items }
        ensures fails_in { result.fails_in ≡ fail_at }
        ensures faults { result.faults ≡ 0 }
    {
        MemSource {
            bytes,
            at: 0,
            fails_in: fail_at,
            faults: 0,
        }
    }

    /// How often it has failed.
    pub(crate) fn faults(&self) -> u64
        ensures { result ≡ self.now.faults }
    {
        self.faults
    }
}

impl Source for MemSource {
    ghost use Rattle.std.specs.Prelude.{Some};

    ghost left = { λ s. Some s.left };

    ghost faults = { λ s. s.faults };

    /// Reads as much as is left and fits, and takes no memory.
    fn read(&mut self, into: &mut [u8]) -> Result<usize, Failed>
        ensures bound { ReadsAtMost result into.new }
        ensures bytes { ReadConsumes (Some self.old.left) (Some self.new.left) result into.new }
        ensures told { is_some (Some self.new.left) ≡ is_some (Some self.old.left) }
        ensures cause { HasCause self.old.faults self.new.faults result }

        ensures whole { IfOk result (λ n. n ≡ min (length self.old.left) (length into.new)) }
        ensures fails { IsErr result ↔ IsTrue (fails_now self.old.fails_in) }
        ensures faults { self.new.faults ≡ (if fails_now self.old.fails_in then plus_faults self.old.faults 1 else self.old.faults) }
        ensures later { self.new.fails_in ≡ fails_later self.old.fails_in }
    {
        if count_call(&mut self.fails_in) {
            self.faults = self.faults.saturating_add(1);
            return Err(Failed);
        }
        let (_, left) = self.bytes.split_at(self.at);
        let count = copy_front(left, into);
        self.at += count;
        Ok(count)
    }
}

/// Counts a call, and answers whether it is the one that is made to fail.
fn count_call(fails_in: &mut Option<u64>) -> bool
    ensures now { result ≡ fails_now fails_in.old }
    ensures later { fails_in.new ≡ fails_later fails_in.old }
{
    let Some(calls) = *fails_in else {
        return false;
    };
    *fails_in = Some(calls.saturating_sub(1));
    calls == 1
}

/// Copies as much as there is and fits, and answers how much.
fn copy_front(from: &[u8], into: &mut [u8]) -> usize
    ensures count { result ≡ min (length from.now) (length into.new) }
    ensures front { take result into.new ≡ take result from.now }
{
    let count = from.len().min(into.len());
    into[..count].copy_from_slice(&from[..count]);
    count
}

/// A sink that keeps what it takes, one of whose writes can be made to fail.
#[derive(Drop)]
pub struct MemSink {
    bytes: Vec<u8>,
    fails_in: Option<u64>,
    failed: u64,
    starved: u64,
}

impl Model for MemSink {
    ghost use Rattle.udt_disk.specs.Memory.{Writing};

    ghost Value = { Writing };

    ghost view = { λ s. record { taken = s.bytes.items; fails_in = s.fails_in; failed = s.failed; starved = s.starved } };
}

impl MemSink {
    /// A sink that has taken nothing. The write with the number `fail_at`, counted from 1, fails.
    pub fn new(alloc: Global, fail_at: Option<u64>) -> MemSink
        ensures taken { result.taken ≡ [] }
        ensures fails_in { result.fails_in ≡ fail_at }
        ensures failed { result.failed ≡ 0 }
        ensures starved { result.starved ≡ 0 }
    {
        MemSink {
            bytes: Vec::new(alloc),
            fails_in: fail_at,
            failed: 0,
            starved: 0,
        }
    }

    /// The bytes that it took.
    pub fn taken(&self) -> &[u8]
        ensures { result.now ≡ self.now.taken }
    {
        &self.bytes
    }

    /// How many writes found no memory.
    pub fn starved(&self) -> u64
        ensures { result ≡ self.now.starved }
    {
        self.starved
    }
}

impl Sink for MemSink {
    ghost use Rattle.std.specs.Prelude.{Some};

    ghost taken = { λ s. Some s.taken };

    ghost faults = { λ s. plus_faults s.failed s.starved };

    /// Takes the whole piece.
    fn write(&mut self, piece: &[u8]) -> Result<usize, Failed>
        ensures some { TakesSome result piece.now }
        ensures bytes { WriteAppends (Some self.old.taken) (Some self.new.taken) result piece.now }
        ensures told { is_some (Some self.new.taken) ≡ is_some (Some self.old.taken) }
        ensures cause { HasCause (plus_faults self.old.failed self.old.starved) (plus_faults self.new.failed self.new.starved) result }

        ensures whole { IfOk result (λ n. n ≡ length piece.now) }
        ensures fails { IsTrue (fails_now self.old.fails_in) → IsErr result }
        ensures failed { self.new.failed ≡ (if fails_now self.old.fails_in then plus_faults self.old.failed 1 else self.old.failed) }
        ensures starved { self.new.starved ≡ (if is_err result && not (fails_now self.old.fails_in) then plus_faults self.old.starved 1 else self.old.starved) }
        ensures later { self.new.fails_in ≡ fails_later self.old.fails_in }
    {
        if count_call(&mut self.fails_in) {
            self.failed = self.failed.saturating_add(1);
            return Err(Failed);
        }
        match self.bytes.extend_from_slice(piece) {
            Ok(()) => Ok(piece.len()),
            Err(_) => {
                self.starved = self.starved.saturating_add(1);
                Err(Failed)
            }
        }
    }
}

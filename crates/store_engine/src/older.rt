//! What an engine knows of the live logs that take no more batches.

ghost use Rattle.std.specs.Prelude.{◌≡◌, ◌++◌, ◌==◌, [], ◌∷◌, find, IfOk};
ghost use Rattle.std.specs.Option.{option_copied};
ghost use Rattle.store_engine.specs.Older.{last_in};

use crate::NoMemory;
use std::alloc::Global;
use ts_key::Seq;

/// A log that the engine has rolled, and the last sequence that there was then.
#[derive(Clone, Copy)]
pub(crate) struct RolledLog {
    number: u64,
    last: Seq,
}

/// Up to which sequence a live log that takes no more batches may have versions: one that the engine has rolled up to the last one
/// then, and any other, which was live at the opening, up to the last one of that.
#[derive(Drop)]
pub(crate) struct OlderLogs {
    opened: Seq,
    rolled: Vec<RolledLog>,
}

impl OlderLogs {
    /// Those of a store that was opened with this last sequence. It takes no memory.
    pub(crate) fn new(alloc: Global, opened: Seq) -> OlderLogs
        ensures opened { result.opened ≡ opened }
        ensures rolled { result.rolled.items ≡ [] }
    {
        OlderLogs {
            opened,
            rolled: Vec::new(alloc),
        }
    }

    /// The log of this number, where the engine has rolled it.
    fn log(&self, number: u64) -> Option<&RolledLog>
        ensures { option_copied result ≡ find (λ log. log.number == number) self.now.rolled.items }
    {
        self.rolled.iter().find(|log| log.number == number)
    }

    /// The sequence up to which the log may have versions.
    pub(crate) fn last_in(&self, number: u64) -> Seq
        ensures { result.0 ≡ last_in self.now number }
    {
        match self.log(number) {
            Some(log) => log.last,
            None => self.opened,
        }
    }

    /// The same, and a log that is rolled.
    pub(crate) fn with(&self, alloc: Global, number: u64, last: Seq) -> Result<OlderLogs, NoMemory>
        ensures opened { IfOk result (λ older. older.opened ≡ self.now.opened) }
        ensures rolled { IfOk result (λ older. older.rolled.items ≡ self.now.rolled.items ++ record { number = number; last = last } ∷ []) }
    {
        let mut rolled = Vec::with_capacity(alloc, self.rolled.len() + 1)?;
        rolled.extend_from_slice(&self.rolled)?;
        rolled.push(RolledLog { number, last })?;
        Ok(OlderLogs {
            opened: self.opened,
            rolled,
        })
    }
}

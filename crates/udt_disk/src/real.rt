//! The real outside: adapters over std, which are trusted to do what std says. They tell no contents, and claim no model of
//! crashes.

ghost use Rattle.std.specs.Prelude.{◌≡◌, ◌≤◌, Ok, IfOk};
ghost use Rattle.udt_disk.specs.Causes.{HasCause, plus_faults};

mod file;
mod flow;
mod folder;
mod host;

use crate::Failed;
pub use file::HostFile;
pub use flow::{HostSink, HostSource};
pub use folder::HostFolder;
pub use host::RealHost;
use std::io;
use std::io::ErrorKind;

/// How often calls failed, and why the last one did.
#[derive(Clone, Copy)]
struct Faults {
    count: u64,
    last: Option<ErrorKind>,
}

impl Faults {
    fn new() -> Faults
        ensures { result.count ≡ 0 }
    {
        Faults {
            count: 0,
            last: None,
        }
    }

    /// What the system answered. An error counts as a fault.
    fn counted<T>(&mut self, answer: io::Result<T>) -> Result<T, Failed>
        ensures value { IfOk result (λ value. answer ≡ Ok value) }
        ensures cause { HasCause self.old.count self.new.count result }
    {
        match answer {
            Ok(value) => Ok(value),
            Err(error) => {
                self.count = self.count.saturating_add(1);
                self.last = Some(error.kind());
                Err(Failed)
            }
        }
    }

    /// Adds those of an object that is given back.
    fn add(&mut self, other: Faults)
        ensures count { self.new.count ≡ plus_faults self.old.count other.count }
        ensures later { self.old.count ≤ self.new.count }
    {
        self.count = self.count.saturating_add(other.count);
        if other.last.is_some() {
            self.last = other.last;
        }
    }
}

//! The program: a key-value store whose keys carry timestamps. Its commands are those of `client_runner`.
#![tactic(auto)]

ghost use Rattle.std.specs.Prelude.{◌≡◌};
ghost use Rattle.std.specs.Process.{exit_status};
ghost use Rattle.client_runner.specs.Statuses.{exit_code};

mod reasons;

use client_runner::{Status, refuse_words, store_plain};
use std::alloc::AllocFailed;
use std::process::ExitCode;
use std::rt::Env;
use std::{env, io};
use udt_disk::{HostSink, RealHost, Text, TextFault};

/// Why there are no words.
enum WordsFault {
    /// One isn't text, or is longer than a `Text` may be.
    Refused,
    NoMemory,
}

impl From<TextFault> for WordsFault {
    ghost use Rattle.std.specs.Prelude.{◌≡◌};
    ghost use Rattle.udtstore.specs.Faults.{fault_of_word};

    ghost from_gives = { λ fault e. e ≡ fault_of_word fault };

    fn from(fault: TextFault) -> WordsFault {
        match fault {
            TextFault::TooLong { .. } => WordsFault::Refused,
            TextFault::NoMemory => WordsFault::NoMemory,
        }
    }
}

impl From<io::Error> for WordsFault {
    fn from(error: io::Error) -> WordsFault {
        match error.kind() {
            io::ErrorKind::InvalidData => WordsFault::Refused,
            _ => WordsFault::NoMemory,
        }
    }
}

impl From<AllocFailed<Text>> for WordsFault {
    fn from(_: AllocFailed<Text>) -> WordsFault {
        WordsFault::NoMemory
    }
}

/// The words of the command line.
fn command_words(rt: &(impl Env + AllocGlobal)) -> Result<Vec<Text>, WordsFault> {
    let mut words = Vec::new(rt.alloc());
    for word in env::args(rt)?.skip(1) {
        words.push(Text::of(rt.alloc(), word.as_bytes())?)?;
    }
    Ok(words)
}

/// What the process ends with.
fn exit_of(status: Status) -> ExitCode
    ensures { exit_status result ≡ exit_code status }
{
    ExitCode::from(status.code())
}

fn main(rt: HostRuntime) -> ExitCode {
    let mut out = HostSink::new(io::writer(&rt));
    let status = match command_words(&rt) {
        Ok(words) => {
            let mut host = RealHost::new(&rt);
            let status = store_plain(rt.alloc(), &words, &mut host, &mut out);
            if let Ok(Some(reason)) = reasons::reason(&rt, &words, status, host.last_error()) {
                let _ = eprintln!(rt; "udtstore: {reason}");
            }
            status
        }
        Err(WordsFault::Refused) => {
            let _ = eprintln!(rt; "udtstore: a word is no text, or has more than 4096 bytes");
            refuse_words(&mut out)
        }
        Err(WordsFault::NoMemory) => Status::NoMemory,
    };
    exit_of(status)
}

//! One client over a store, with no thread: the lines of its commands.
//!
//! The store is a list of every version that was written, in memory alone or beside the write-ahead log that keeps it.
#![tactic(auto)]

ghost use Rattle.std.specs.Prelude.{◌≡◌, ◌+◌, ◌-◌, ◌^◌, ◌<◌, ◌≤◌, [], ◌∷◌, ◌++◌, All, length, vec_len, vec_capacity};
ghost use Rattle.udt_model.specs.Histories.{IsSound};
ghost use Rattle.client_lang.specs.Print.{IsBuilt, IsBuiltCommand, IsBuiltLine, IsBuiltReply};
ghost use Rattle.solo_runner.specs.Solo.{mark_behind, HasRun};

mod logged;
mod session;
mod store;
mod versions;

use client_lang::Command;
pub use logged::LoggedStore;
pub use session::run_and_sync;
pub use store::{PlainStore, fresh_heads};
use udt_model::{Event, Line, Mark, Reply, Who, is_step};

/// The lines of a client's commands, and the mark of the last.
#[derive(Drop)]
pub struct Ran {
    pub lines: Vec<Line>,
    pub last: Mark,
}

/// The mark of a line behind the step `number`, where the last line of its actor has the mark `last`.
fn mark_of(number: u64, last: Mark, event: &Event, reply: &Reply) -> Mark
    requires number { number + 1 < 2 ^ 64 }
    requires sub { last.sub + 1 < 2 ^ 32 }
    ensures { result ≡ mark_behind number last event.now reply.now }
{
    if is_step(event, reply) {
        Mark {
            number: number + 1,
            sub: 0,
        }
    } else {
        Mark {
            number: last.number,
            sub: last.sub + 1,
        }
    }
}

/// The line of an event with its reply behind the step `number`, where the last line of its actor has the mark `last`.
fn line_of(who: Who, number: u64, last: Mark, event: Event, reply: Reply) -> Line
    requires event { IsBuilt event }
    requires reply { IsBuiltReply reply }
    requires number { number + 1 < 2 ^ 64 }
    requires sub { last.sub + 1 < 2 ^ 32 }
    ensures event { result.event ≡ event }
    ensures reply { result.reply ≡ reply }
    ensures who { result.who ≡ who }
    ensures mark { result.mark ≡ mark_behind number last event reply }
    ensures printed { IsBuiltLine result }
{
    let mark = mark_of(number, last, &event, &reply);
    Line {
        mark,
        who,
        event,
        reply,
    }
}

fn event_of(command: Command) -> Event
    ensures { command ≡ Command.Line result }
{
    match command {
        Command::Line(event) => event,
    }
}

/// Adds a line where there is room for one.
fn add_line(lines: &mut Vec<Line>, line: Line)
    requires { vec_len lines.old < vec_capacity lines.old }
    ensures items { lines.new.items ≡ lines.old.items ++ line ∷ [] }
    ensures room { vec_capacity lines.old ≤ vec_capacity lines.new }
{
    match lines.push(line) {
        Ok(()) => {}
        Err(_) => unreachable!(),
    }
}

/// Makes the commands of client 1 over a store in memory, and tells their lines, numbered from 1. A read or a write that finds no
/// memory says so in its line. The list of lines is given, and has the room for them.
pub fn run(store: &mut PlainStore, commands: Vec<Command>, mut lines: Vec<Line>) -> Ran
    requires built { All IsBuiltCommand commands.items }
    requires few { length commands.items < 2 ^ 32 - 1 }
    requires empty { lines.items ≡ [] }
    requires room { length commands.items ≤ vec_capacity lines }
    ensures run { HasRun store.old commands.items result.lines.items store.new result.last }
    ensures sound { All IsSound result.lines.items }
{
    let mut last = Mark { number: 0, sub: 0 };
    for command in commands {
        let event = event_of(command);
        let reply = store.step(&event);
        let line = line_of(Who::Client(1), last.number, last, event, reply);
        last = line.mark;
        add_line(&mut lines, line);
    }
    Ran { lines, last }
}

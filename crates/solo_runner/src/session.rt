//! One client over a store with its log, and the runner behind it.
ghost use Rattle.std.specs.Prelude.{◌≡◌, ◌+◌, ◌-◌, ◌^◌, ◌<◌, ◌≤◌, [], All, length, vec_capacity};
ghost use Rattle.client_lang.specs.Print.{IsBuilt, IsBuiltCommand, IsBuiltLine};
ghost use Rattle.client_lang.specs.Stamps.{IsStampedCommand, IsStampedEvent};
ghost use Rattle.solo_runner.specs.LoggedStores.{IsInStep, IsStep, store_state, wal_of};
ghost use Rattle.solo_runner.specs.Sessions.{HasSession, HasRunOn};
ghost use Rattle.solo_runner.specs.Solo.{mark_behind};

use super::logged::LoggedStore;
use super::{Ran, add_line, event_of, line_of};
use client_lang::Command;
use udt_disk::DiskFile;
use udt_model::{Event, Line, Mark, Who};

/// Makes an event behind the step `number`, where the last line of its actor has the mark `last`, and tells its line.
fn perform<F: DiskFile>(
    store: &mut LoggedStore<F>,
    who: Who,
    number: u64,
    last: Mark,
    event: Event,
) -> Line
    requires built { IsBuilt event }
    requires stamped { IsStampedEvent event }
    requires in_step { IsInStep F.DiskFile (wal_of store.old) (store_state store.old) }
    requires number { number + 1 < 2 ^ 64 }
    requires sub { last.sub + 1 < 2 ^ 32 }
    ensures event { result.event ≡ event }
    ensures who { result.who ≡ who }
    ensures mark { result.mark ≡ mark_behind number last result.event result.reply }
    ensures printed { IsBuiltLine result }
    ensures step { IsStep F.DiskFile (wal_of store.old) (wal_of store.new) (store_state store.old) (store_state store.new) (number + 1) result.event result.reply }
{
    let reply = store.step(number + 1, &event);
    line_of(who, number, last, event, reply)
}

/// Makes the commands of client 1 over a store with its log, and tells their lines, numbered from 1. A read or a write that finds no
/// memory says so in its line. The list of lines is given, and has the room for them.
fn run_logged<F: DiskFile>(
    store: &mut LoggedStore<F>,
    commands: Vec<Command>,
    mut lines: Vec<Line>,
) -> Ran
    requires built { All IsBuiltCommand commands.items }
    requires stamped { All IsStampedCommand commands.items }
    requires few { length commands.items < 2 ^ 32 - 1 }
    requires in_step { IsInStep F.DiskFile (wal_of store.old) (store_state store.old) }
    requires empty { lines.items ≡ [] }
    requires room { length commands.items ≤ vec_capacity lines }
    ensures run { HasRunOn F.DiskFile store.old store.new commands.items result.lines.items result.last }
    ensures room { vec_capacity lines ≤ vec_capacity result.lines }
{
    let mut last = Mark { number: 0, sub: 0 };
    for command in commands {
        let line = perform(store, Who::Client(1), last.number, last, event_of(command));
        last = line.mark;
        add_line(&mut lines, line);
    }
    Ran { lines, last }
}

/// The same, and then one sync of the runner, for which there is room too.
pub fn run_and_sync<F: DiskFile>(
    store: &mut LoggedStore<F>,
    commands: Vec<Command>,
    lines: Vec<Line>,
) -> Vec<Line>
    requires built { All IsBuiltCommand commands.items }
    requires stamped { All IsStampedCommand commands.items }
    requires few { length commands.items < 2 ^ 32 - 1 }
    requires in_step { IsInStep F.DiskFile (wal_of store.old) (store_state store.old) }
    requires empty { lines.items ≡ [] }
    requires room { length commands.items < vec_capacity lines }
    ensures session { HasSession F.DiskFile store.old store.new commands.items result.items }
    ensures printed { All IsBuiltLine result.items }
{
    let Ran { mut lines, last } = run_logged(store, commands, lines);
    let unseen = Mark { number: 0, sub: 0 };
    let sync = perform(store, Who::Runner, last.number, unseen, Event::Sync);
    add_line(&mut lines, sync);
    lines
}

//! Commands of clients.

use udt_model::Event;

/// A command of a client.
#[derive(Debug, Drop)]
pub enum Command {
    /// The event that gives the command its one line.
    Line(Event),
}

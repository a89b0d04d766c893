//! Which lines are steps of a history.
ghost use Rattle.std.specs.Prelude.{◌≡◌};
ghost use Rattle.udt_model.specs.Lines.{is_numbered as event_is_numbered, is_read as event_is_read, is_step as line_is_step};

use crate::event::Event;
use crate::reply::Reply;

fn is_numbered(event: &Event) -> bool
    ensures { result ≡ event_is_numbered event.now }
{
    !matches!(
        event,
        Event::ViewGet { .. }
            | Event::ViewScan { .. }
            | Event::ViewFloor { .. }
            | Event::Unpin { .. }
    )
}

fn is_read(event: &Event) -> bool
    ensures { result ≡ event_is_read event.now }
{
    matches!(event, Event::Get { .. } | Event::Scan { .. })
}

/// Whether an event with this reply is a step of the history, and so has a number of its own. A line without a step
/// stands behind its actor's last step.
pub fn is_step(event: &Event, reply: &Reply) -> bool
    ensures { result ≡ line_is_step event.now reply.now }
{
    if !is_numbered(event) {
        return false;
    }
    match reply {
        Reply::NoMemory => is_read(event),
        Reply::Unbound | Reply::History => false,
        _ => true,
    }
}

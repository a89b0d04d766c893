//! The model of the store: what it is asked, what it may reply, and the definitions that say which replies are legal.
//!
//! A history is a plain list of versions. The definitions in `specs/` say which version a read sees, which writes are
//! admitted, and which lines of a transcript are legal; this crate's calls compute them, plainly and slowly.
#![tactic(auto)]

mod definitions;
mod event;
mod items;
mod line;
mod place;
mod read;
mod reply;
mod sorting;
mod step;

pub use definitions::{images_rise, reads_see_the_greatest};
pub use event::{Event, NamedOp};
pub use items::Items;
pub use line::{FamilyHead, Line, Mark, Who};
pub use place::{Place, plain_place};
pub use read::{Answer, ModelRead, plain_newest, plain_read, plain_visible};
pub use reply::{KeySpan, Piece, Reply, Row, Stamp};
pub use sorting::{stored_keys_order_versions, the_first_is_the_newest};
pub use step::is_step;

//! Reads of one key at a timestamp, over a super version. They take no memory and always succeed.
#![tactic(auto)]

mod hits;
pub mod read;

pub use read::{Read, get};

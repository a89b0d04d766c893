//! What a collection keeps, plainly: the definition computed, and the laws of the stored order that it rests on (`proofs/`).
#![tactic(auto)]

mod collect;

pub use collect::{in_order, plain_collect};

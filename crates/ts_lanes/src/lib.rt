//! Common prefixes of keys, and a search among timestamps, several lanes at a time.
//!
//! Whole blocks of lanes are compared at once, and what is left at the end one by one.
#![tactic(auto)]

mod prefix;
mod stamps;

pub use prefix::common_prefix;
pub use stamps::first_at_most;

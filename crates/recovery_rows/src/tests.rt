//! Tests, by what they look at.

mod making;
mod opening;

//! Tests of super versions.

mod changes;
mod lists;
mod making;

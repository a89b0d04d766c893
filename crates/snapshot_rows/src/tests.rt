//! One module for each thing under test.

mod snapshots;
mod stripping;

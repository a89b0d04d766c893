//! Tests of scans.

mod making;
mod plain;
mod small;
mod wide;

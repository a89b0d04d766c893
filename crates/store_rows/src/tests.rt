//! The public calls of log files and manifests, each crate in a module of its own.

mod manifest_rows;
mod wal_rows;

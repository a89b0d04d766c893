//! Tests, by what they look at.

mod acceptance;
mod bytes_of_edits;
mod edits_on_disk;
mod live_tables;
mod manifests;

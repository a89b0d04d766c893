//! Flushes, and what the tests of jobs share.

mod flushes;
mod flushing;

//! Command lines over hosts and sinks in memory that try a file, each with its whole output and its status.

mod faults;
mod refusals;
mod stage;
mod transcripts;

//! The public calls of the outside and of gate logs, each crate in a module of its own.

mod gate_log_rows;
mod udt_disk_rows;

//! One sorted file of versions: written once, read whole, looked up and walked.
#![tactic(auto)]

pub mod fault;
mod file;
mod gather;
mod handle;
mod index;
mod laws;
mod parts;
pub mod properties;
mod spelling;
pub mod table;
mod tally;
pub mod write;
pub mod writer;

pub use fault::{TableFault, TableWriteFault};
pub use laws::tables_are_unique;
pub use properties::Properties;
pub use table::{Table, TableCursor};
pub use write::write_table;
pub use writer::TableWriter;

/// Memory ran out.
pub type NoMemory = std::alloc::AllocError;

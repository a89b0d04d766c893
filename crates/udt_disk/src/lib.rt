//! The outside of the store: bytes that come in, bytes that go out, and the host that opens what stands under a path.
//! Each is a trait with a count of its faults, with a form in memory, for tests, and a form over the real system.
#![tactic(auto)]

mod directory;
mod disk;
mod file;
mod history;
mod mem_disk;
mod mem_file;
mod mem_host;
mod memory;
mod name;
mod outcome;
mod real;
mod text;
mod traits;
mod tree;
mod trouble;

pub use disk::Disk;
pub use file::DiskFile;
pub use mem_disk::{MemDisk, MemFile};
pub use mem_host::MemHost;
pub use memory::{MemSink, MemSource};
pub use name::FileName;
pub use outcome::Outcome;
pub use real::{HostFile, HostFolder, HostSink, HostSource, RealHost};
pub use text::{TEXT_LIMIT, Text, TextFault};
pub use traits::{Failed, Host, Sink, Source};
pub use trouble::Trouble;

/// Memory ran out.
pub type NoMemory = std::alloc::AllocError;

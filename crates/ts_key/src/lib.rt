//! What a store of timestamped column families is made of: families, timestamps and sequences, keys, values and names,
//! versions in the stored order, and batches of write operations.
//!
//! A key, a value and a name share their bytes with their copies, so a copy of one, or of what holds one, copies no byte.
#![tactic(auto)]

pub mod batch;
pub mod bytes;
pub mod coding;
pub mod laws;
pub mod lent;
pub mod limits;
pub mod name;
pub mod numbers;
pub mod order;
pub mod stored_key;
pub mod version;

pub use batch::{Batch, BatchFault, WriteOp};
pub use bytes::{BytesFault, Key, Value};
pub use laws::one_spelling;
pub use lent::{Hit, KeyRef};
pub use limits::{
    BATCH_LIMIT, FAMILY_LIMIT, FIRST_LOG, KEY_LIMIT, NAME_LIMIT, SEQUENCE_LIMIT, SNAPSHOT_LIMIT,
    STAMP_LIMIT, STAMP_SIZE, VALUE_LIMIT,
};
pub use name::{Name, NameFault, is_name};
pub use numbers::{Family, Seq, Ts};
pub use order::{compare, lower_bound};
pub use stored_key::{KeyBad, decode_key, decode_key_as, encode_key, encode_key_as};
pub use version::{Form, Kind, Op, Version};

/// Memory ran out.
pub type NoMemory = std::alloc::AllocError;

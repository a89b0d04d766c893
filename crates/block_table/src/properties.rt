//! What a table says of its versions.

use ts_key::{Family, Form, Key, Seq, Ts};

/// The properties of a table. All but the family and `collected_by` follow from its versions.
#[derive(Debug, Drop)]
pub struct Properties {
    pub family: Family,
    pub form: Form,
    /// How many versions it has.
    pub count: u64,
    /// The key of its first version.
    pub least: Key,
    /// The key of its last version.
    pub greatest: Key,
    pub least_seq: Seq,
    pub greatest_seq: Seq,
    pub greatest_ts: Ts,
    /// The floor by which its versions were collected.
    pub collected_by: Ts,
}

//! A batch with its sequence.

use ts_key::{Batch, Seq};

/// A batch with the sequence of its first operation. The operations behind it have the sequences that follow.
#[derive(Debug, Drop)]
pub struct Numbered {
    pub first: Seq,
    pub batch: Batch,
}

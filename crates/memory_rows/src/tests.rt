//! Tests of sorted runs and memtables, one module each.

mod memtables;
mod runs;
mod versions;

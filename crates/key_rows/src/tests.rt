//! Tests of keys, lanes and cursors, one module each.

mod cursors;
mod keys;
mod lanes;

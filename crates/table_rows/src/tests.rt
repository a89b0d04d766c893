//! Tests of tables.

mod altered;
mod many;
mod one_version;
mod writing;

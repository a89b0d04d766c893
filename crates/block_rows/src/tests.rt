//! Tests of blocks, by what they hold.

mod forty;
mod gathered;
mod one_put;
mod sizes;
mod writing;

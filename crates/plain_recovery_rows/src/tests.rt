//! Stores that are made, opened and refused.

mod stores;

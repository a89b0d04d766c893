//! One module for each thing under test.

mod events;
mod refusals;
mod rows;
mod script;

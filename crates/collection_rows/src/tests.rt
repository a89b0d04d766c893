//! One module for each thing under test.

mod collecting;
mod collectors;
mod every_list;

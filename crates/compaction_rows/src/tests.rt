//! Plans and runs of compactions, and what their tests share.

mod files;
mod plans;
mod runs;
mod tables;

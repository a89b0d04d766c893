//! Command lines over hosts with folders, each with its whole output and its status.

mod bad_folders;
mod commits;
mod every_call;
mod inits;
mod many;
mod real;
mod sessions;
mod stage;
mod tries;
mod words;

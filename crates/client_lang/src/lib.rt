//! The language of clients: command files in, lines of transcripts out.
//!
//! A command file has one command a line. A transcript has one line an event, with its reply. Both are words with one
//! space between them. Reading finds the one list of commands that a file spells; printing has one spelling for a line.
#![tactic(auto)]

mod command;
mod grammar;
mod print;
mod wrong;

pub use command::Command;
pub use grammar::{COMMAND_LIMIT, FILE_LIMIT, ReadFault, read_client};
pub use print::{Word, print_header, print_line, push_line};
pub use wrong::{Wrong, wrong_with};

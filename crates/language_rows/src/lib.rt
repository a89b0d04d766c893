//! Tests of the language of clients, by its public calls: command files, lines that are no command, and what is printed.
#![tactic(auto)]

#[cfg(test)]
mod tests;

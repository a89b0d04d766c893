//! Tests of the public calls of log files and manifests.
#![tactic(auto)]

#[cfg(test)]
mod tests;

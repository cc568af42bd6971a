//! Tests of the crates of commands, by their public calls alone.
#![tactic(auto)]

#[cfg(test)]
mod tests;

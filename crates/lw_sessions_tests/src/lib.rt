//! Tests of the crates that ask sessions, by their public calls alone: the desk, the pool, learning by workers,
//! and the renumbering of its answers.
#![tactic(auto)]

#[cfg(test)]
mod tests;

//! Tests of the crates that keep answers and learn from them, by their public calls alone: the cache, the table, the tree and its settling, the rounds, the plain learner.
#![tactic(auto)]

#[cfg(test)]
mod tests;

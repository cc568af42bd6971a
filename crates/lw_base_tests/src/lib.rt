//! Tests of the crates below the learners by their public calls alone: lists, machines, oracles, cuts, suites and certificates.
#![tactic(auto)]

#[cfg(test)]
mod tests;

//! Tests of the crates that deal with the outside, by their public calls alone: JSON, words of texts, earlier answers,
//! files and links, the log, lines, children, reports, and `serve`.
#![tactic(auto)]

#[cfg(test)]
mod tests;

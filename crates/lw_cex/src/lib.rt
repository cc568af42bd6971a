//! Counterexample analysis: where a model has to be split.
#![tactic(auto)]

mod probe;
mod search;
mod splitting;

pub use splitting::split;

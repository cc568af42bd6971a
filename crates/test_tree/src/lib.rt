//! A machine that is asked, and a discrimination tree over it, for the tests of trees.
#![tactic(auto)]

mod trial;

pub use trial::{Trial, ask, closed, split_by_known};

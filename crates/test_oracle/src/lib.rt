//! An oracle for the tests of learners: a machine, and the batches that it was asked.
#![tactic(auto)]

mod recording;

pub use recording::Recording;

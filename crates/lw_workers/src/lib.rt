//! Learnings with a pool of workers.
#![tactic(auto)]

mod asking;
mod laws;
mod learning;
mod machine;
mod outcome;

pub use laws::runs_are_one;
pub use learning::{LearnedWith, learn_with};
pub use machine::learn_machine;
pub use outcome::{CutRun, LearningOutcome, Start};

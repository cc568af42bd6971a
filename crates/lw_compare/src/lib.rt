//! The command `compare`: whether two models give the same, or the least word on which they don't.
#![tactic(auto)]

mod command;
mod comparing;
mod dictionary;
mod laws;
mod reading;
mod telling;
mod walk;

pub use command::compare;
pub use comparing::compare_models;
pub use laws::comparison_is_unique;

//! Trials: machines that are drawn by a number, and learned.
#![tactic(auto)]

mod arguments;
mod command;
mod comparing;
mod drawing;
mod telling;

pub use arguments::TrialArguments;
pub use command::trial;
pub use drawing::drawn;

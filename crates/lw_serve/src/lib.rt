//! The command `serve`: a machine that is played as a child.
#![tactic(auto)]

mod command;

pub use command::serve;

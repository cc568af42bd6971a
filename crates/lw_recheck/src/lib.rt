//! The command `recheck`, over the files, streams and children that it is handed.
#![tactic(auto)]

mod arguments;
mod asking;
mod child;
mod command;
mod keeping;
mod reading;
mod telling;

pub use arguments::RecheckArguments;
pub use command::recheck;

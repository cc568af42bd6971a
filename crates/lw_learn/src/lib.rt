//! The command `learn`, over the files, streams and children that it is handed.
#![tactic(auto)]

mod arguments;
mod asking;
mod command;
mod ending;
mod journal;
mod last;
mod laws;
mod learning;
mod logging;
mod naming;
mod notes;
mod probing;
mod reading;
mod refusing;
mod reporting;
mod saving;
mod suffixes;
mod task;
mod wanted;
mod watching;
mod writing;

pub use arguments::{LearnArguments, LearnFiles};
pub use command::learn;
pub use journal::begin_journal;
pub use laws::{bad_is_refused, told_is_learned};
pub use saving::Saved;

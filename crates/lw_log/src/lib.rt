//! The log of a learning: a line for each step, put whole as it is done, for a person who reads on while the learning runs.
#![tactic(auto)]

mod escaped;
mod lines;
mod log;
mod memory_log;
mod progress;

pub use escaped::{bytes_are_told_readably, put_escaped};
pub use log::{Log, LogState};
pub use memory_log::MemoryLog;

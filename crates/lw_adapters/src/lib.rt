//! The real outside of a call: files, streams and child programs of the system, and the log. They count their faults and their
//! ends, and tell the calls that were made and the bytes that went over them.
#![tactic(auto)]

mod children;
mod files;
mod journal;
mod log;
mod names;
mod pace;
mod pipe_link;
mod record;
mod streams;
mod watch;
mod writing;

pub use children::{Errors, RealLink, RealSpawner};
pub use files::RealFiles;
pub use journal::JournalFault;
pub use log::RealLog;
pub use names::{TwoNames, is_among, two_names};
pub use pipe_link::PipeLink;
pub use streams::{Input, Stream};
pub use watch::Sends;

#[cfg(test)]
mod tests;

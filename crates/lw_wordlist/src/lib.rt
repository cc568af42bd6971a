//! Words as texts: the names of their letters.
#![tactic(auto)]

mod lines;
mod words;

pub use lines::read_lines;
pub use words::{WordStop, read_words};

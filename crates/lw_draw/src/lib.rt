//! Words that are drawn by a number: from the start, and from a machine's states.
#![tactic(auto)]

mod drawing;
mod generator;
mod laws;
mod parts;
mod walks;

pub use drawing::{Drawn, draw_words};
pub use generator::Generator;
pub use laws::{walks_are_of_words, walks_are_one, walks_exist};
pub use walks::Walks;

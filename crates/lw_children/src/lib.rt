//! A learning over children: they are started, asked over links, and retired once it has ended; and what the records of their
//! links say of what is kept and of why it stopped.
#![tactic(auto)]

mod cut;
mod learning;
mod retiring;
mod sorted;
mod starting;

pub use retiring::{retire_all, retire_with};
pub use sorted::learn_children;
pub use starting::{Broken, Unmade, start_all};

//! The line protocol: systems that are programs at the other end of a link, and the child's side of it.
#![tactic(auto)]

mod exchange;
mod inbox;
mod journal;
mod note;
mod outputs;
mod sent_line;
mod serving;
mod system;

pub use serving::{ServeFault, Served, ServedCause, serve};
pub use system::LineSul;

//! Workers over one desk: the words of a batch are divided among sessions, and all share one cache.
#![tactic(auto)]

mod crew;
mod hands;
pub mod laws;
mod oracle;
mod parts;
mod pool;
mod worker;

pub use crew::share;
pub use oracle::{ByCall, Telling};
pub use pool::Pool;

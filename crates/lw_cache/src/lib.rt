//! What was answered and what is being asked: a cache of recorded answers with claims, and the trait of what answers
//! words.
#![tactic(auto)]

mod cache;
mod cut;
mod filling;
mod known;
pub mod laws;
mod node;
mod oracle;
pub mod plain;
mod reckoning;
mod scanning;
mod stops;
mod trie;
mod upward;

pub use cache::Cache;
pub use cut::Cut;
pub use known::Known;
pub use oracle::Oracle;
pub use stops::{AskStop, Clash, GrowStop, KeepStop};

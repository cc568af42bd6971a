//! The answers of an earlier call, made ready for a new learning.
#![tactic(auto)]

mod filling;
mod prior;
mod stops;

pub use filling::{Prior, fill};
pub use prior::prior_of;
pub use stops::PriorStop;

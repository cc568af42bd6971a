//! A turnstile: many threads take turns with one core, and whatever they do there is one history.
#![tactic(auto)]

mod pass;
mod rule;
mod shared;
#[cfg(test)]
mod tests;
mod turnstile;
mod view;

pub use pass::{Pass, PassParts};
pub use shared::{Core, Entry};
pub use turnstile::Turnstile;
pub use view::{Doing, Ended, Stage, View};

//! Settling: the temporary nodes of a discrimination tree are replaced by final ones.
#![tactic(auto)]

mod classes;
mod laws;
mod parting;
mod settling;

pub use laws::some_block_is_parted;
pub use settling::{Settled, settle_block};

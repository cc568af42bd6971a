//! The desk: a batch of words that several actors take, ask and answer, one turn after another.
#![tactic(auto)]

mod ask;
mod asked;
mod board;
mod desk;
mod gathering;
mod opening;
mod places;

pub use ask::{Ask, Failed, Give, Reply};
pub use desk::Desk;
pub use opening::Opening;
pub use places::{MOST_PLACES, Places};

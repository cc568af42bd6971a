//! Mealy machines: the definitions that every theorem of the learner cites, and machines as tables.
#![tactic(auto)]

mod fault;
mod mealy;

pub use fault::MealyFault;
pub use mealy::Mealy;

//! The command `check`: whether an answers file fixes a model.
#![tactic(auto)]

mod arguments;
mod checking;
mod deciding;
mod laws;
mod reading;
mod telling;

pub use arguments::CheckArguments;
pub use checking::check;
pub use laws::{decision_exists, decision_is_unique};

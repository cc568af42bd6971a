//! Names of outputs: one name, lists of them, and the names that several instances share.
#![tactic(auto)]

mod named;
mod out_name;
mod out_names;
mod sorting;

pub use named::Named;
pub use out_name::{OutName, name_of};
pub use out_names::OutNames;

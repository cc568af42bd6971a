//! The spanning tree and the discrimination tree of a learner: which word reaches a state, and which state a word reaches.
#![tactic(auto)]

mod arrivals;
mod blocks;
mod laws;
mod levels;
mod linked;
mod machine;
mod nodes;
mod reading;
mod replacing;
mod splitting;
mod sprouts;
mod steps;
mod transitions;
mod tree;

pub use laws::{
    access_is_crowd, access_leads, branches_stay, closed_has_machine, discriminators_are_short,
    finals_are_few, inners_are_few, machine_gives_steps, new_is_read, one_machine,
};
pub use tree::DiscriminationTree;

//! Many lists over one set of numbered cells, in a few flat vectors: a list is found by its owner's
//! number, a cell by its own, and a whole list goes behind another in one call.
#![tactic(auto)]

pub mod laws;
mod links;

pub use links::Lists;

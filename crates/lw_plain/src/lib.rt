//! A learner with an observation table, as a function of the machine that it learns: no cache, claim or worker stands in it.
#![tactic(auto)]

mod laws;

pub use laws::{
    as_worked, asked_are_taken, asks_on_and_on, batch_is_known, cells_are_asked, crowd_is_full,
    first_is_revealed, known_outputs, nothing_is_known, plain_end_is_unique, search_finds_cut,
    settled_is_asked, taken_is_one, takes_on_and_on,
};

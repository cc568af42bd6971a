//! Answers that cover a machine, by apartness, whichever words they came from: they fix it, and else a word is missing.
#![tactic(auto)]

mod apart;
mod fronts;
mod laws;
mod missing;
mod pairs;
mod spelling;
mod unknown;

pub use laws::{
    covered_or_missing, covers_is_sure, missing_is_uncovered, missing_is_unique, missing_is_unknown,
};
pub use missing::missing_word;

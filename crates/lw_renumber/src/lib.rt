//! Outputs under other numbers: what was learned stays so.
#![tactic(auto)]

mod laws;
mod model_laws;
mod sorting;

pub use laws::{
    renamed_answers_are, renamed_clashes, renamed_gives, renamed_is_clear, renamed_is_crowd,
    renamed_is_known, renamed_is_read, renamed_never_clash,
};
pub use model_laws::{
    outputs_occur, renamed_is_canonical, renamed_is_certified, renamed_is_enough, renamed_is_least,
    renamed_is_suite, renamed_is_sure, renamed_is_too_large, renamed_is_too_many,
    renamed_learns_plainly,
};
pub use sorting::sort_outputs;

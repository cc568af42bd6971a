//! The final certificate: whether recorded answers fix a model among all machines of not many more states.
#![tactic(auto)]

mod certificate;
mod laws;
mod missing;
mod verdict;

pub use certificate::certify;
pub use laws::{
    enough_covers, suite_is_enough, suites_are_of_words, sure_is_not_vacuous, sure_is_sure,
    verdict_exists, verdict_is_unique,
};
pub use verdict::Verdict;

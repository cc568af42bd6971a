//! The suite of the W-method, in chunks: the words that tell a machine from all others of not many more states.
#![tactic(auto)]

mod laws;
mod parts;
mod places;
mod suite;

pub use laws::{suite_exists, suite_is_counted, suite_is_of_words, suite_is_unique};
pub use suite::Suite;

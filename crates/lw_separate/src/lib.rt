//! The canonical form of a Mealy machine, the access words of its states, and the words that separate them.
#![tactic(auto)]

mod access;
mod alike_states;
mod canonical_form;
mod classes;
mod classes_by_word;
mod columns;
mod laws;
mod levels;
mod rename;
mod separating_word;
mod separator_words;

pub use access::{access_words, least_access};
pub use alike_states::first_alike;
pub use canonical_form::{canonical, renumbered};
pub use classes_by_word::word_classes;
pub use laws::{
    access_word_is_unique, canonical_exists, canonical_is_unique, least_access_exists,
    least_access_is_unique, separating_word_is_unique, separators_are_unique, separators_exist,
};
pub use separating_word::separating;
pub use separator_words::separators;

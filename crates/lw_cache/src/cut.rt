//! Where a model has to be split.

use lw_words::Word;

/// A state that has to be split: what follows the letter from it isn't what follows the target, as the suffix tells.
#[derive(Drop)]
pub struct Cut {
    pub state: u16,
    pub letter: u16,
    pub suffix: Word,
    pub target: u16,
}

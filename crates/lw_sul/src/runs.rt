//! Runs of a system.

use lw_words::Word;

/// One finished run of a system: the letters that were sent and the outputs that came.
#[derive(Drop)]
pub struct Run {
    pub word: Word,
    pub outs: Word,
}

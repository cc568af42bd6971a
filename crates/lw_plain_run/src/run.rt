//! The result of the slow learner.
ghost use Rattle.lw_plain_run.specs.Run.{OnePlainRun};

use crate::Batches;
use lw_mealy::Mealy;
use lw_words::Words;

/// The result of the learner, and the batches that it asked.
#[derive(Drop)]
pub enum PlainRun {
    Learned {
        model: Mealy,
        refinements: u32,
        batches: Batches,
    },
    /// An access word more than there may be states would be needed: the access words and that one.
    Crowd {
        words: Words,
        batches: Batches,
    },
    /// The suite of the machine in hand would have this size, which is above the greatest.
    TooLarge {
        model: Mealy,
        number: u64,
        batches: Batches,
    },
}

/// A law, with no code: two answers about one machine are one.
pub fn plain_run_is_unique()
    ensures { OnePlainRun }
{}

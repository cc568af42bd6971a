//! What walks are made of.
ghost use Rattle.std.specs.Prelude.{◌≤◌};

use crate::Drawn;
use lw_words::Words;

/// The words that walks begin and end with, the number of letters, and what is drawn.
#[derive(Drop)]
pub(crate) struct Parts {
    pub(crate) access: Words,
    pub(crate) ends: Words,
    pub(crate) inputs: u16,
    pub(crate) drawn: Drawn,
    pub(crate) ghost letters: { 1 ≤ inputs },
}

//! What actors ask of a desk, and what they are told.
use crate::Places;
use lw_names::Named;
use lw_words::{RunStop, Word};

/// The answer to the word of a place: its outputs in the system's own numbers, the names that came up first in it, and the
/// number of the run.
#[derive(Drop)]
pub struct Give {
    pub place: u32,
    pub outs: Word,
    pub names: Named,
    pub run: u64,
}

/// Why the words of these places were not answered.
#[derive(Drop)]
pub struct Failed {
    pub places: Places,
    pub stop: RunStop,
}

/// What an actor asks in one turn: it gives answers, fails the other places that it holds, and wants this many new
/// ones.
#[derive(Drop)]
pub struct Ask {
    pub gives: Vec<Give>,
    pub failed: Option<Failed>,
    pub wanted: u32,
}

/// What an actor is told: the places that it holds now, whether it wanted some and there were none, whether the desk is
/// stopped, and, where it isn't, how many words are left to take.
#[derive(Drop)]
pub struct Reply {
    pub places: Places,
    pub done: bool,
    pub stopped: bool,
    pub left: u32,
}

//! What contracts call the opening of a desk.
use lw_names::OutNames;
use lw_words::{Kept, Words};
use std::marker::Model;

/// What a desk begins with: the recorded answers, the names, the batch, and how many actors there are. No value of it
/// is made: contracts speak of it (`DeskOpening`).
#[derive(Drop)]
pub struct Opening {
    kept: Kept,
    names: OutNames,
    batch: Words,
    actors: u32,
}

impl Model for Opening {
    ghost use Rattle.lw_desk.specs.History.{DeskOpening};

    ghost Value = { DeskOpening };

    ghost view = { λ o. record { kept = o.kept.answers; naming = o.names; batch = o.batch; actors = o.actors } };
}

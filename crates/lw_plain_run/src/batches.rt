//! Lists of batches.
ghost use Rattle.std.specs.Prelude.{◌≡◌, ◌∷◌, [], ◌++◌, map, length, OnOk, OnErr};

use lw_words::{NoMemory, Words};
use std::marker::Model;

/// Batches of words, in the order in which they are asked. Contracts see the list of their lists of words.
#[derive(Drop)]
pub struct Batches {
    batches: Vec<Words>,
}

impl Model for Batches {
    ghost use Rattle.std.specs.Prelude.{List, ℕ};

    ghost Value = { List (List (List ℕ)) };

    ghost view = { λ list. list.batches.items };
}

impl Batches {
    /// Takes no memory.
    pub fn new(value: Vec<Words>) -> Batches
        ensures { result ≡ value.items }
    {
        Batches { batches: value }
    }

    /// The batches, in the order of the list.
    pub fn get(&self) -> &Vec<Words>
        ensures { result.now.items ≡ self.now }
    {
        &self.batches
    }

    /// Puts a batch last.
    pub(crate) fn push(&mut self, batch: Words) -> Result<(), NoMemory>
        ensures { OnOk result (self.new ≡ self.old ++ batch ∷ []) }
    {
        self.batches.push(batch)?;
        Ok(())
    }
}

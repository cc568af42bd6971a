//! Lists of words.
ghost use Rattle.std.specs.Prelude.{◌≡◌, ℕ, ◌<◌, List, [], ◌∷◌, ◌++◌, length, OnOk, OnErr, IfErr, slice_get, Some};

use crate::{NoMemory, Word};
use std::alloc::Global;
use std::marker::Model;

/// A list of words. Contracts see the list of their lists of letters.
#[derive(Drop)]
pub struct Words {
    words: Vec<Word>,
}

impl Model for Words {
    ghost Value = { List (List ℕ) };

    ghost view = { λ list. list.words.items };
}

impl Words {
    /// The empty list. Takes no memory.
    pub fn new(alloc: Global) -> Self
        ensures { result ≡ [] }
    {
        Words {
            words: Vec::new(alloc),
        }
    }

    pub fn len(&self) -> usize
        ensures { result ≡ length self.now }
    {
        self.words.len()
    }

    /// The words as a slice, in the order of the list.
    pub fn as_slice(&self) -> &[Word]
        ensures { result.now ≡ self.now }
    {
        self.words.as_slice()
    }

    /// Puts a word last, or hands it back.
    pub fn push(&mut self, word: Word) -> Result<(), (Word, NoMemory)>
        ensures ok { OnOk result (self.new ≡ self.old ++ word ∷ []) }
        ensures err { OnErr result (self.new ≡ self.old) }
        ensures back { IfErr result (λ refusal. refusal.0 ≡ word) }
    {
        match self.words.push(word) {
            Ok(()) => Ok(()),
            Err(refused) => Err((refused.value, NoMemory)),
        }
    }

    pub fn get(&self, i: usize) -> &Word
        requires { i < length self.now }
        ensures { slice_get self.now i ≡ Some result.now }
    {
        &self.words[i]
    }
}

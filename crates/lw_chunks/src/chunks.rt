//! Words that come in chunks.
ghost use Rattle.std.specs.Prelude.{◌≡◌, ℕ, ◌≢◌, ◌↔◌, ◌<◌, ◌≤◌, ◌+◌, List, [], ◌∷◌, ◌++◌, length, take, drop, true, IfOk, OnOk, OnErr};

use lw_words::{NoMemory, Word};
use std::alloc::Global;

/// The greatest number of words of a chunk.
pub const CHUNK: usize = 512;

/// A place in a suite: the number of an access word with a middle word, and that of an end, 0 for none.
#[derive(Clone, Copy)]
pub struct Place {
    pub front: u64,
    pub end: usize,
}

/// Words that are given one chunk after the other, whatever they are made from.
pub trait Chunks {
    /// The words that are left.
    ghost left: { Self → List (List ℕ) };

    /// Replaces the contents of a chunk by the next 512 words, or by those that are left, and answers whether there
    /// were any.
    ///
    /// # Errors
    /// Only where memory runs out; the same words are left then, and the chunk is empty.
    fn next_chunk(&mut self, chunk: &mut Vec<Word>) -> Result<bool, NoMemory>
        ensures chunk { OnOk result (chunk.new.items ≡ take 512 (left self.old)) }
        ensures rest { OnOk result (left self.new ≡ drop 512 (left self.old)) }
        ensures more { IfOk result (λ more. (more ≡ true) ↔ (left self.old ≢ [])) }
        ensures err { OnErr result ((left self.new ≡ left self.old) × (chunk.new.items ≡ [])) };
}

/// Makes the word at this index of a chunk a prefix and an end, and keeps the memory of the word that was there.
pub fn put(
    alloc: Global,
    chunk: &mut Vec<Word>,
    index: usize,
    front: &Word,
    end: &[u16],
) -> Result<(), NoMemory>
    requires { index ≤ length chunk.old.items }
    ensures word { OnOk result (take (index + 1) chunk.new.items ≡
        take index chunk.old.items ++ (front.now ++ end.now) ∷ []) }
    ensures long { OnOk result (index < length chunk.new.items) }
{
    if index == chunk.len() {
        chunk.push(Word::new(alloc))?;
    }
    let word = &mut chunk[index];
    word.clear();
    word.extend(front.as_slice())?;
    word.extend(end)?;
    Ok(())
}

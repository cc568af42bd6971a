//! A suite by a table, of which the words are given in chunks.
ghost use Rattle.std.specs.Prelude.{◌≡◌, ◌≢◌, ◌↔◌, ◌≤◌, [], length, take, drop, true, IfOk, OnOk, OnErr};
ghost use Rattle.lw_wp.specs.bodies.Cursors.{AreParts, IsWithin, left_from, words_of};

use crate::cursor::{end_at, front_count, start, step};
use crate::parts::Parts;
use lw_chunks::{CHUNK, Place, put};
use lw_words::{NoMemory, Word};
use std::alloc::Global;
use std::marker::Model;

/// The parts of a suite, and the place of the next word. Contracts see the words that are left.
#[derive(Drop)]
pub(crate) struct Walk {
    parts: Parts,
    place: Place,
    alloc: Global,
}

impl Model for Walk {
    ghost use Rattle.std.specs.Prelude.{ℕ, List};
    ghost use Rattle.lw_wp.specs.bodies.Cursors.{AreParts, IsWithin, left_from};

    ghost Value = { List (List ℕ) };

    ghost view = { λ s. left_from s.parts s.place };

    ghost invariant = { λ s. AreParts s.parts × IsWithin s.parts s.place };
}

/// Makes a chunk the next words of a suite, at most 512, and answers the place after them.
fn fill(
    alloc: Global,
    parts: &Parts,
    place: Place,
    chunk: &mut Vec<Word>,
) -> Result<Place, NoMemory>
    requires parts { AreParts parts.now }
    requires place { IsWithin parts.now place }
    ensures place { IfOk result (IsWithin parts.now) }
    ensures words { OnOk result (chunk.new.items ≡ take 512 (left_from parts.now place)) }
    ensures rest { IfOk result (λ next.
        left_from parts.now next ≡ drop 512 (left_from parts.now place)) }
{
    let count = front_count(parts);
    let mut cursor = start(alloc, parts, place)?;
    let mut index = 0;
    while index < CHUNK && cursor.place.front < count {
        put(alloc, chunk, index, &cursor.front, end_at(parts, &cursor))?;
        step(parts, &mut cursor)?;
        index += 1;
    }
    chunk.truncate(index);
    Ok(cursor.place)
}

impl Walk {
    /// All words of the suite.
    pub(crate) fn new(alloc: Global, parts: Parts) -> Walk
        requires { AreParts parts }
        ensures { result ≡ words_of parts }
    {
        Walk {
            parts,
            place: Place { front: 0, end: 0 },
            alloc,
        }
    }

    /// Replaces the contents of a chunk by the next 512 words, or by those that are left, and answers whether there
    /// were any. The words of the chunk keep their memory.
    ///
    /// # Errors
    /// Only where memory runs out; the suite is then as before, and the chunk is empty.
    pub(crate) fn next_chunk(&mut self, chunk: &mut Vec<Word>) -> Result<bool, NoMemory>
        ensures chunk { OnOk result (chunk.new.items ≡ take 512 self.old) }
        ensures left { OnOk result (self.new ≡ drop 512 self.old) }
        ensures more { IfOk result (λ more. (more ≡ true) ↔ (self.old ≢ [])) }
        ensures err { OnErr result ((self.new ≡ self.old) × (chunk.new.items ≡ [])) }
    {
        match fill(self.alloc, &self.parts, self.place, chunk) {
            Ok(place) => {
                self.place = place;
                Ok(!chunk.is_empty())
            }
            Err(NoMemory) => {
                chunk.clear();
                Err(NoMemory)
            }
        }
    }
}

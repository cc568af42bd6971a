//! A suite that gives its words in chunks.
ghost use Rattle.std.specs.Prelude.{◌≡◌, ℕ, ◌≢◌, ◌↔◌, ◌<◌, ◌≤◌, ◌+◌, ◌*◌, List, [], ◌∷◌, ◌++◌, length, take, drop, map, true, Err, IfOk, IfErr, OnOk, OnErr, slice_index_or};
ghost use Rattle.lw_mealy.specs.Machine.{IsMinimal};
ghost use Rattle.lw_chunks.specs.Size.{powers, suite_size, greatest_suite};
ghost use Rattle.lw_suite.specs.Suite.{IsSuite};
ghost use Rattle.lw_chunks.specs.Middle.{suite_of, words_up_to};
ghost use Rattle.lw_suite.specs.bodies.Places.{all_words, ends, number_of, IsPlace};
ghost use Rattle.lw_separate.specs.Canonical.{AreLeastAccess};
ghost use Rattle.lw_separate.specs.Separators.{IsSeparators};
ghost use Rattle.lw_chunks.specs.declared.size.SuiteFault.{SuiteFault as Fault};

use crate::parts::Parts;
use crate::places::{end_at, front_at, number, step, word_count};
use lw_chunks::{CHUNK, Chunks, Place, SuiteFault, check_size, middle_count, put};
use lw_mealy::Mealy;
use lw_separate::{least_access, separators};
use lw_words::{NoMemory, Word, Words};
use std::alloc::Global;
use std::marker::Model;

/// The parts of a machine's suite that isn't too large.
fn parts_of(alloc: Global, m: &Mealy, access: Words, extra: u8) -> Result<Parts, NoMemory>
    requires minimal { IsMinimal m.now.inputs m.now.rows }
    requires few { extra ≤ 4 }
    requires least { AreLeastAccess m.now.inputs m.now.rows access }
    requires size { suite_size (length m.now.rows) m.now.inputs extra ≤ greatest_suite }
    ensures inputs { IfOk result (λ p. (p.inputs ≡ m.now.inputs) × (p.longest ≡ extra + 1)) }
    ensures access { IfOk result (λ p. p.access ≡ access) }
    ensures ends { IfOk result (λ p. IsSeparators m.now.inputs m.now.rows p.ends) }
{
    let ends = separators(alloc, m)?;
    Ok(Parts {
        inputs: m.inputs(),
        longest: extra + 1,
        middles: middle_count(m.inputs(), extra + 1),
        access,
        ends,
    })
}

/// The suite of a machine, of which some words were given. Contracts see the words that are left.
///
/// It keeps the access words and the separating words; the words of the suite are made as they are asked for.
#[derive(Drop)]
pub struct Suite {
    parts: Parts,
    place: Place,
    alloc: Global,
}

impl Model for Suite {
    ghost use Rattle.std.specs.Prelude.{ℕ, List, drop};
    ghost use Rattle.lw_suite.specs.bodies.Places.{all_words, number_of, IsPlace};

    ghost Value = { List (List ℕ) };

    ghost view = { λ s. drop (number_of s.parts s.place) (all_words s.parts) };

    ghost invariant = { λ s. IsPlace s.parts s.place };
}

/// Puts the next words of a suite into a chunk, and answers the place after them.
fn fill(
    alloc: Global,
    parts: &Parts,
    place: Place,
    chunk: &mut Vec<Word>,
    count: usize,
) -> Result<Place, NoMemory>
    requires place { IsPlace parts.now place }
    requires within { number_of parts.now place + count ≤
        length parts.now.access * parts.now.middles * length (ends parts.now) }
    ensures place { IfOk result (IsPlace parts.now) }
    ensures number { IfOk result (λ next. number_of parts.now next ≡
        number_of parts.now place + count) }
    ensures words { OnOk result (take count chunk.new.items ≡
        take count (drop (number_of parts.now place) (all_words parts.now))) }
    ensures long { OnOk result (count ≤ length chunk.new.items) }
{
    let mut front = Word::new(alloc);
    let mut at = place;
    front_at(parts, &mut front, at)?;
    for index in 0..count {
        put(alloc, chunk, index, &front, end_at(parts, at.end))?;
        at = step(parts, at, &mut front)?;
    }
    Ok(at)
}

impl Suite {
    /// The suite of a minimal machine for `extra` states more: the words S·M·(ε, W), where S are the least access
    /// words, M the words of at most `extra + 1` letters, and W the separating words (Vasilevskii 1973, Chow 1978).
    /// By access word, then by middle word in shortlex order, then the empty word before W in its order; words that
    /// come twice are given twice.
    ///
    /// # Errors
    /// `TooLarge` with the size of the suite where that is above 8,388,608, and no memory is taken then.
    pub fn new(alloc: Global, m: &Mealy, extra: u8) -> Result<Suite, SuiteFault>
        requires minimal { IsMinimal m.now.inputs m.now.rows }
        requires few { extra ≤ 4 }
        ensures ok { IfOk result (IsSuite m.now.inputs m.now.rows extra) }
        ensures within { OnOk result
            (suite_size (length m.now.rows) m.now.inputs extra ≤ greatest_suite) }
        ensures too_large { greatest_suite < suite_size (length m.now.rows) m.now.inputs extra →
            result ≡ Err (Fault.TooLarge (suite_size (length m.now.rows) m.now.inputs extra)) }
        ensures size { (size : ℕ) → result ≡ Err (Fault.TooLarge size) →
            (size ≡ suite_size (length m.now.rows) m.now.inputs extra) ×
            (greatest_suite < size) }
    {
        check_size(m, extra)?;
        Suite::with_access(alloc, m, least_access(alloc, m)?, extra)
    }

    /// The suite, as `new` makes it, of a machine whose least access words are at hand.
    ///
    /// # Errors
    /// As `new`.
    pub fn with_access(
        alloc: Global,
        m: &Mealy,
        access: Words,
        extra: u8,
    ) -> Result<Suite, SuiteFault>
        requires minimal { IsMinimal m.now.inputs m.now.rows }
        requires least { AreLeastAccess m.now.inputs m.now.rows access }
        requires few { extra ≤ 4 }
        ensures ok { IfOk result (IsSuite m.now.inputs m.now.rows extra) }
        ensures within { OnOk result
            (suite_size (length m.now.rows) m.now.inputs extra ≤ greatest_suite) }
        ensures too_large { greatest_suite < suite_size (length m.now.rows) m.now.inputs extra →
            result ≡ Err (Fault.TooLarge (suite_size (length m.now.rows) m.now.inputs extra)) }
        ensures size { (size : ℕ) → result ≡ Err (Fault.TooLarge size) →
            (size ≡ suite_size (length m.now.rows) m.now.inputs extra) ×
            (greatest_suite < size) }
    {
        check_size(m, extra)?;
        let parts = parts_of(alloc, m, access, extra)?;
        Ok(Suite {
            parts,
            place: Place { front: 0, end: 0 },
            alloc,
        })
    }

    /// Replaces the contents of a chunk by the next 512 words, or by those that are left, and answers whether there
    /// were any. The words of the chunk keep their memory.
    ///
    /// # Errors
    /// Only where memory runs out; the suite is then as before, and the chunk is empty.
    pub fn next_chunk(&mut self, chunk: &mut Vec<Word>) -> Result<bool, NoMemory>
        ensures chunk { OnOk result (chunk.new.items ≡ take 512 self.old) }
        ensures left { OnOk result (self.new ≡ drop 512 self.old) }
        ensures more { IfOk result (λ more. (more ≡ true) ↔ (self.old ≢ [])) }
        ensures err { OnErr result ((self.new ≡ self.old) × (chunk.new.items ≡ [])) }
    {
        let left = word_count(&self.parts) - number(&self.parts, self.place);
        let count = left.min(CHUNK as u64) as usize;
        match fill(self.alloc, &self.parts, self.place, chunk, count) {
            Ok(place) => {
                chunk.truncate(count);
                self.place = place;
                Ok(count > 0)
            }
            Err(NoMemory) => {
                chunk.clear();
                Err(NoMemory)
            }
        }
    }
}

impl Chunks for Suite {
    ghost left = { λ words. words };

    fn next_chunk(&mut self, chunk: &mut Vec<Word>) -> Result<bool, NoMemory> {
        Suite::next_chunk(self, chunk)
    }
}

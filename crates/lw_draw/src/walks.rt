//! Words that are drawn behind a machine's states.
ghost use Rattle.std.specs.Prelude.{◌≡◌, ◌≢◌, ◌↔◌, ℕ, ◌+◌, ◌*◌, ◌<◌, ◌≤◌, ◌++◌, ◌∷◌, List, [], length, take, drop, true, IfOk, OnOk, OnErr};
ghost use Rattle.lw_mealy.specs.Machine.{IsMinimal};
ghost use Rattle.lw_draw.specs.Drawn.{after_draws, drawn_word};
ghost use Rattle.lw_draw.specs.Walks.{AreWalks, walk_word, word_by};
ghost use Rattle.lw_draw.specs.bodies.Walking.{IsBehind, all_walks};

use crate::drawing::draw_letters;
use crate::parts::Parts;
use crate::{Drawn, Generator};
use lw_chunks::{CHUNK, Chunks, put};
use lw_mealy::Mealy;
use lw_separate::{least_access, separators};
use lw_words::{NoMemory, Word, Words};
use std::alloc::Global;
use std::marker::Model;

/// The walks of a machine, of which some were given. Contracts see the words that are left.
///
/// It keeps the access words and the separating words; the walks are made as they are asked for.
#[derive(Drop)]
pub struct Walks {
    parts: Parts,
    given: u32,
    random: Generator,
    alloc: Global,
}

impl Model for Walks {
    ghost use Rattle.std.specs.Prelude.{ℕ, List, drop};
    ghost use Rattle.lw_draw.specs.bodies.Walking.{IsBehind, all_walks};

    ghost Value = { List (List ℕ) };

    ghost view = { λ w. drop w.given (all_walks w.parts) };

    ghost invariant = { λ w. IsBehind w.parts w.given w.random };
}

/// The word that a number says among these.
fn word_by(words: &Words, number: u64) -> &[u16]
    ensures { result.now ≡ word_by words.now number }
{
    let count = words.len();
    if count == 0 {
        return &[];
    }
    words.get((number % count as u64) as usize).as_slice()
}

/// Makes a word the walk of this number without its end.
fn begin(
    parts: &Parts,
    number: u64,
    random: &mut Generator,
    word: &mut Word,
) -> Result<(), NoMemory>
    ensures word { OnOk result (word.new ≡ word_by parts.now.access number ++
        drawn_word parts.now.inputs parts.now.drawn.length random.old) }
    ensures random { OnOk result (random.new ≡ after_draws random.old parts.now.drawn.length) }
{
    word.clear();
    word.extend(word_by(&parts.access, number))?;
    draw_letters(word, random, parts.inputs, parts.drawn.length)
}

/// Puts the walk of this number at an index of a chunk.
fn put_walk(
    alloc: Global,
    parts: &Parts,
    number: u64,
    random: &mut Generator,
    front: &mut Word,
    chunk: &mut Vec<Word>,
    index: usize,
) -> Result<(), NoMemory>
    requires { index ≤ length chunk.old.items }
    ensures word { OnOk result (take (index + 1) chunk.new.items ≡ take index chunk.old.items ++
        walk_word parts.now.access parts.now.ends parts.now.inputs parts.now.drawn.length number
        random.old ∷ []) }
    ensures random { OnOk result
        (random.new ≡ after_draws random.old (parts.now.drawn.length + 1)) }
    ensures long { OnOk result (index < length chunk.new.items) }
{
    begin(parts, number, random, front)?;
    put(
        alloc,
        chunk,
        index,
        front,
        word_by(&parts.ends, random.draw()),
    )?;
    Ok(())
}

/// Puts the next walks into a chunk, and answers the generator behind their numbers.
fn fill(
    alloc: Global,
    parts: &Parts,
    given: u32,
    random: &Generator,
    chunk: &mut Vec<Word>,
    count: usize,
) -> Result<Generator, NoMemory>
    requires behind { IsBehind parts.now given random.now }
    requires within { given + count ≤ parts.now.drawn.count }
    ensures behind { IfOk result (IsBehind parts.now (given + count)) }
    ensures words { OnOk result (take count chunk.new.items ≡
        take count (drop given (all_walks parts.now))) }
    ensures long { OnOk result (count ≤ length chunk.new.items) }
{
    let mut front = Word::new(alloc);
    let mut random = random.copy()?;
    for index in 0..count {
        let number = u64::from(given) + index as u64;
        put_walk(alloc, parts, number, &mut random, &mut front, chunk, index)?;
    }
    Ok(random)
}

/// How many numbers the walks of machines with fewer states may take.
fn numbers_before(states: u16, drawn: Drawn) -> u128
    ensures { result ≡ states * drawn.count * (drawn.length + 1) }
{
    u128::from(states) * u128::from(drawn.count) * (u128::from(drawn.length) + 1)
}

impl Walks {
    /// The walks of a minimal machine: they go by the least access words to its states, to each in turn, go on by drawn letters,
    /// and end with a drawn one of the separating words, or with none where the machine has one state.
    ///
    /// # Errors
    /// Only where memory runs out.
    pub fn new(alloc: Global, m: &Mealy, drawn: Drawn) -> Result<Walks, NoMemory>
        requires minimal { IsMinimal m.now.inputs m.now.rows }
        ensures { IfOk result (AreWalks m.now.inputs m.now.rows drawn) }
    {
        let access = least_access(alloc, m)?;
        let ends = separators(alloc, m)?;
        let parts = Parts {
            access,
            ends,
            inputs: m.inputs(),
            drawn,
        };
        let mut random = Generator::of_seed(drawn.seed);
        random.skip(numbers_before(m.states(), drawn));
        Ok(Walks {
            parts,
            given: 0,
            random,
            alloc,
        })
    }
}

impl Chunks for Walks {
    ghost left = { λ words. words };

    fn next_chunk(&mut self, chunk: &mut Vec<Word>) -> Result<bool, NoMemory> {
        let left = self.parts.drawn.count - self.given;
        let count = left.min(CHUNK as u32);
        match fill(
            self.alloc,
            &self.parts,
            self.given,
            &self.random,
            chunk,
            count as usize,
        ) {
            Ok(random) => {
                chunk.truncate(count as usize);
                self.given += count;
                self.random = random;
                Ok(count > 0)
            }
            Err(NoMemory) => {
                chunk.clear();
                Err(NoMemory)
            }
        }
    }
}

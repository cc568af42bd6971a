//! What a batch needs before its words are handed out.
ghost use Rattle.std.specs.Prelude.{◌≡◌, ◌↔◌, ℕ, ◌+◌, ◌^◌, ◌<◌, List, [], ◌∷◌, ◌++◌, length, map, drop, slice_index, IfOk, IfSome, OnOk, IsTrue};
ghost use Rattle.std.specs.List.Sorted.{IsPermutation};
ghost use Rattle.lw_desk.specs.Step.{word_at_place};
ghost use Rattle.lw_desk.specs.bodies.Board.{letters_of};
ghost use Rattle.lw_desk.specs.bodies.Gathering.{IsGathered, IsReady, ComeBefore, by_words, AreByWords, AreWholeOf, BeginsNext};

use http_server::Log;
use lw_cache::{Cache, Known};
use lw_words::{NoMemory, Word};
use std::alloc::Global;
use std::cmp::{Ordering, Reverse};

/// Copies of the words of a batch that aren't known, at their places, and an empty word at each other place; and the places of
/// those that aren't known. The batch itself is there for contracts alone.
#[derive(Drop)]
struct Unknown {
    words: Vec<Word>,
    places: Vec<u32>,
    batch: Log<Word, ()>,
}

impl Unknown {
    /// Of no word, with room for this many.
    fn new(alloc: Global, words: usize) -> Result<Unknown, NoMemory>
        ensures batch { IfOk result (λ u. u.batch.items ≡ []) }
        ensures words { IfOk result (λ u. u.words.items ≡ []) }
        ensures places { IfOk result (λ u. u.places.items ≡ []) }
    {
        Ok(Unknown {
            words: Vec::with_capacity(alloc, words)?,
            places: Vec::new(alloc),
            batch: Log::new(),
        })
    }

    /// One more word.
    fn add(&mut self, alloc: Global, cache: &Cache, word: &Word) -> Result<(), NoMemory>
        requires few { length self.old.batch.items + 1 < 2 ^ 32 }
        requires unclaimed { cache.now.claims ≡ [] }
        requires gathered { IsGathered cache.now.kept (map (λ p. p.0) self.old.batch.items)
            self.old.words.items self.old.places.items }
        ensures batch { self.new.batch.items ≡ self.old.batch.items ++ (word.now, tt) ∷ [] }
        ensures gathered { OnOk result (IsGathered cache.now.kept
            (map (λ p. p.0) self.new.batch.items)
            self.new.words.items self.new.places.items) }
    {
        self.batch = self.batch.and(word, &());
        let Known::No = cache.known(word) else {
            self.words.push(Word::new(alloc))?;
            return Ok(());
        };
        self.places.push(self.words.len() as u32)?;
        self.words.push(word.copy()?)?;
        Ok(())
    }
}

/// What a batch brings, where nothing is claimed.
fn gather(alloc: Global, cache: &Cache, batch: &[Word]) -> Result<Unknown, NoMemory>
    requires few { length batch.now < 2 ^ 32 }
    requires unclaimed { cache.now.claims ≡ [] }
    ensures batch { IfOk result (λ u. map (λ p. p.0) u.batch.items ≡ batch.now) }
    ensures gathered { IfOk result (λ u. IsGathered cache.now.kept batch.now u.words.items
        u.places.items) }
{
    let mut unknown = Unknown::new(alloc, batch.len())?;
    for word in batch {
        unknown.add(alloc, cache, word)?;
    }
    Ok(unknown)
}

/// The word of a place.
fn word_of(words: &[Word], place: u32) -> &[u16]
    ensures { result.now ≡ word_at_place words.now place }
{
    match words.get(place as usize) {
        Some(word) => word.as_slice(),
        None => &[],
    }
}

/// Compares places by their words, letter by letter; of equal words the greater place comes first.
fn compare(words: &[Word], one: u32, other: u32) -> Ordering
    ensures { result ≡ by_words words.now one other }
{
    word_of(words, one)
        .cmp(word_of(words, other))
        .then(other.cmp(&one))
}

/// Sorts places by their words.
fn sort_by_words(places: &mut Vec<u32>, words: &[Word])
    ensures permutation { IsPermutation places.old.items places.new.items }
    ensures order { AreByWords words.now places.new.items }
{
    places.sort_unstable_by(|one: &u32, other: &u32| compare(words, *one, *other));
}

/// Whether the word of a place begins that of the next one of the list.
fn begins_next(words: &[Word], places: &[u32], at: usize) -> bool
    requires { at < length places.now }
    ensures { IsTrue result ↔
        BeginsNext words.now (slice_index places.now at) (drop (at + 1) places.now) }
{
    at + 1 < places.len() && word_of(words, places[at + 1]).starts_with(word_of(words, places[at]))
}

/// Of places that are sorted by their words, those whose words begin no other one, each word once; the last ones first.
fn whole_places(alloc: Global, words: &[Word], places: &[u32]) -> Result<Vec<u32>, NoMemory>
    ensures { IfOk result (λ whole. AreWholeOf words.now places.now whole.items) }
{
    let mut whole = Vec::with_capacity(alloc, places.len())?;
    let mut at = places.len();
    while at > 0 {
        at -= 1;
        if !begins_next(words, places, at) {
            whole.push(places[at])?;
        }
    }
    Ok(whole)
}

/// How many letters the word of a place has.
fn letters_at(words: &[Word], place: u32) -> usize
    ensures { result ≡ length (word_at_place words.now place) }
{
    word_of(words, place).len()
}

/// How many letters the words of places have together, if that is a number.
fn letters_in(words: &[Word], places: &[u32]) -> Option<usize>
    ensures { IfSome result (λ n. n ≡ letters_of words.now places.now) }
{
    let mut letters = 0usize;
    for place in places {
        letters = letters.checked_add(letters_at(words, *place))?;
    }
    Some(letters)
}

/// Sorts places: those of longer words come first, and of equally long ones the smaller places.
fn sort_places(places: &mut Vec<u32>, words: &[Word])
    ensures permutation { IsPermutation places.old.items places.new.items }
    ensures order { ComeBefore words.now places.new.items }
{
    places.sort_unstable_by_key(|place: &u32| -> (Reverse<usize>, u32) {
        (Reverse(letters_at(words, *place)), *place)
    });
}

/// Copies of the words of a batch that aren't known, at their places, and an empty word at each other place; the places of
/// those that have to be asked, first ones first: they aren't known, and no other word of the batch begins with them; and how
/// many letters these have together. The batch itself is there for contracts alone.
#[derive(Drop)]
pub(crate) struct Needs {
    pub(crate) words: Vec<Word>,
    pub(crate) places: Vec<u32>,
    pub(crate) letters: usize,
    pub(crate) batch: Log<Word, ()>,
}

/// What a batch needs, where nothing is claimed.
pub(crate) fn needs_of(alloc: Global, cache: &Cache, batch: &[Word]) -> Result<Needs, NoMemory>
    requires few { length batch.now < 2 ^ 32 }
    requires unclaimed { cache.now.claims ≡ [] }
    ensures batch { IfOk result (λ n. map (λ p. p.0) n.batch.items ≡ batch.now) }
    ensures ready { IfOk result (λ n. IsReady cache.now.kept batch.now n.words.items
        n.places.items n.letters) }
{
    let Unknown {
        words,
        places,
        batch,
    } = gather(alloc, cache, batch)?;
    let mut sorted = places;
    sort_by_words(&mut sorted, &words);
    let mut places = whole_places(alloc, &words, &sorted)?;
    sort_places(&mut places, &words);
    let letters = letters_in(&words, &places).ok_or(NoMemory)?;
    Ok(Needs {
        words,
        places,
        letters,
        batch,
    })
}

//! The least words that lead to the states, by one breadth-first search.
ghost use Rattle.std.specs.Prelude.{◌≡◌, ℕ, ◌+◌, ◌<◌, length, IfOk, OnOk};
ghost use Rattle.lw_mealy.specs.Machine.{MealyMachine, IsWithinLimits, IsMinimal};
ghost use Rattle.lw_separate.specs.Canonical.{IsAccessWord, AreAccessWords, AreLeastAccess};
ghost use Rattle.lw_separate.specs.bodies.Searched.{Searched};

use lw_mealy::Mealy;
use lw_words::{NoMemory, Word, Words};
use std::alloc::Global;

/// The words that a search found, in shortlex order, the state to which each leads,
/// and of each state the place of its word, where it is found.
#[derive(Drop)]
pub struct Search {
    pub words: Vec<Word>,
    pub states: Vec<u16>,
    pub places: Vec<Option<u16>>,
}

/// The search that has found state 0.
fn start(alloc: Global, m: &Mealy) -> Result<Search, NoMemory>
    ensures searched { IfOk result (λ s. Searched m.now s 0 0) }
    ensures complete { OnOk result (IsWithinLimits m.now) }
{
    let mut places = vec![in alloc; None; usize::from(m.states())]?;
    places[usize::from(m.initial())] = Some(0);
    Ok(Search {
        words: vec![in alloc; Word::new(alloc)]?,
        states: vec![in alloc; m.initial()]?,
        places,
    })
}

/// Goes by a letter from the i-th state. A target that is new gets the state's word and the letter.
fn reach(m: &Mealy, s: &mut Search, i: usize, x: u16) -> Result<(), NoMemory>
    requires so_far { Searched m.now s.old i x }
    requires found { i < length s.old.words.items }
    requires letter { x < m.now.inputs }
    requires complete { IsWithinLimits m.now }
    ensures so_far { OnOk result (Searched m.now s.new i (x + 1)) }
    ensures found { OnOk result (i < length s.new.words.items) }
{
    let target = m.step(s.states[i], x).0;
    if s.places[usize::from(target)].is_none() {
        let mut word = s.words[i].copy()?;
        word.push(x)?;
        let place = s.states.len() as u16;
        s.words.push(word)?;
        s.states.push(target)?;
        s.places[usize::from(target)] = Some(place);
    }
    Ok(())
}

/// Goes by all letters from the i-th state.
fn expand(m: &Mealy, s: &mut Search, i: usize) -> Result<(), NoMemory>
    requires so_far { Searched m.now s.old i 0 }
    requires found { i < length s.old.words.items }
    ensures so_far { OnOk result (Searched m.now s.new (i + 1) 0) }
    ensures found { OnOk result (i < length s.new.words.items) }
{
    for x in 0..m.inputs() {
        reach(m, s, i, x)?;
    }
    Ok(())
}

/// Finds the shortlex-least word to each state that is reached, by breadth-first search in letter order
/// (Moore 1959).
pub fn breadth_first(alloc: Global, m: &Mealy) -> Result<Search, NoMemory>
    ensures searched { IfOk result (λ s. Searched m.now s (length s.words.items) 0) }
    ensures complete { OnOk result (IsWithinLimits m.now) }
{
    let mut s = start(alloc, m)?;
    let mut i = 0;
    while i < s.words.len() {
        expand(m, &mut s, i)?;
        i += 1;
    }
    Ok(s)
}

/// The least word to a state, by the search.
fn word_to(s: &Search, m: &Mealy, q: usize) -> Result<Option<Word>, NoMemory>
    requires whole { Searched m.now s.now (length s.now.words.items) 0 }
    requires state { q < length m.now.rows }
    ensures { IfOk result (IsAccessWord m.now.inputs m.now.rows q) }
{
    match s.places[q] {
        Some(place) => Ok(Some(s.words[usize::from(place)].copy()?)),
        None => Ok(None),
    }
}

/// The shortlex-least word to each state, and None exactly where no word reaches it (Moore 1959).
/// One breadth-first search over states and letters: time in the number of states times the number of letters,
/// and the words themselves, at most half the square of the number of states in letters.
pub fn access_words(alloc: Global, m: &Mealy) -> Result<Vec<Option<Word>>, NoMemory>
    ensures { IfOk result (λ words. AreAccessWords m.now.inputs m.now.rows words.items) }
{
    let s = breadth_first(alloc, m)?;
    let mut words = Vec::with_capacity(alloc, s.places.len())?;
    for q in 0..usize::from(m.states()) {
        words.push(word_to(&s, m, q)?)?;
    }
    Ok(words)
}

/// The shortlex-least word to each state of a minimal machine, in the order of the states: the access words S of the
/// W-method (Chow 1978). One breadth-first search, as `access_words`.
pub fn least_access(alloc: Global, m: &Mealy) -> Result<Words, NoMemory>
    requires minimal { IsMinimal m.now.inputs m.now.rows }
    ensures { IfOk result (AreLeastAccess m.now.inputs m.now.rows) }
{
    let s = breadth_first(alloc, m)?;
    let mut words = Words::new(alloc);
    for q in 0..usize::from(m.states()) {
        let found = word_to(&s, m, q)?;
        let Some(word) = found else {
            unreachable!();
        };
        words.push(word)?;
    }
    Ok(words)
}

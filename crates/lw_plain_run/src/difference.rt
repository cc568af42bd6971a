//! Words to which two machines answer otherwise.
ghost use Rattle.std.specs.Prelude.{◌≡◌, ℕ, List, ◌∷◌, [], ◌++◌, IfOk, OnOk, MatchOption};
ghost use Rattle.std.specs.List.{All};
ghost use Rattle.lw_words.specs.Word.{IsWord};
ghost use Rattle.lw_plain.specs.Rounds.{AgreesOn, IsShortest, asked_words};
ghost use Rattle.lw_plain_run.specs.bodies.Differences.{IsLesser, IsLeast};
ghost use Rattle.lw_plain.specs.Tested.{FindsFirst};

use crate::batches::Batches;
use lw_mealy::Mealy;
use lw_words::{NoMemory, Word, Words, shortlex};
use std::alloc::Global;

/// The shortest prefix of a word to which a machine answers otherwise.
fn shortest_difference(m: &Mealy, h: &Mealy, word: &Word) -> Result<Option<Word>, NoMemory>
    requires letters { IsWord m.now.inputs word.now }
    requires same_letters { h.now.inputs ≡ m.now.inputs }
    ensures { IfOk result (λ found. MatchOption found (AgreesOn m.now.rows h.now.rows word.now)
        (IsShortest m.now.rows h.now.rows word.now)) }
{
    let outs = m.answer(word)?;
    match h.agrees(word, &outs) {
        Some(place) => Ok(Some(word.prefix(place + 1)?)),
        None => Ok(None),
    }
}

/// The lesser of two words, the second where they are equal.
fn lesser(best: Option<Word>, front: Word) -> Word
    ensures { IsLesser best front result }
{
    let Some(word) = best else {
        return front;
    };
    if shortlex(&front, &word).is_lt() {
        return front;
    }
    word
}

/// The least of a best word and what a word reveals.
fn better(m: &Mealy, h: &Mealy, word: &Word, best: Option<Word>) -> Result<Option<Word>, NoMemory>
    requires letters { IsWord m.now.inputs word.now }
    requires same_letters { h.now.inputs ≡ m.now.inputs }
    ensures { IfOk result (λ now. (words : List (List ℕ)) →
        IsLeast m.now.rows h.now.rows words best →
        IsLeast m.now.rows h.now.rows (words ++ word.now ∷ []) now) }
{
    let found = shortest_difference(m, h, word)?;
    let Some(front) = found else {
        return Ok(best);
    };
    Ok(Some(lesser(best, front)))
}

/// The least word to which a machine answers otherwise, of those that begin one of these.
fn least_difference(m: &Mealy, h: &Mealy, words: &Words) -> Result<Option<Word>, NoMemory>
    requires letters { All (IsWord m.now.inputs) words.now }
    requires same_letters { h.now.inputs ≡ m.now.inputs }
    ensures { IfOk result (IsLeast m.now.rows h.now.rows words.now) }
{
    let mut best = None;
    for word in words.as_slice() {
        best = better(m, h, word, best)?;
    }
    Ok(best)
}

/// Adds some words.
fn add_words(all: &mut Words, words: &[Word]) -> Result<(), NoMemory>
    ensures { OnOk result (all.new ≡ all.old ++ words.now) }
{
    for word in words {
        all.push(word.copy()?)?;
    }
    Ok(())
}

/// All words of the batches.
fn asked_words(alloc: Global, batches: &Batches) -> Result<Words, NoMemory>
    ensures { IfOk result (λ words. words ≡ asked_words batches.now) }
{
    let mut words = Words::new(alloc);
    for batch in batches.get() {
        add_words(&mut words, batch.as_slice())?;
    }
    Ok(words)
}

/// The least word that was asked for to which a machine answers otherwise.
pub fn least_revealed(
    alloc: Global,
    m: &Mealy,
    h: &Mealy,
    batches: &Batches,
) -> Result<Option<Word>, NoMemory>
    requires letters { All (IsWord m.now.inputs) (asked_words batches.now) }
    requires same_letters { h.now.inputs ≡ m.now.inputs }
    ensures { IfOk result (IsLeast m.now.rows h.now.rows (asked_words batches.now)) }
{
    let words = asked_words(alloc, batches)?;
    least_difference(m, h, &words)
}

/// The shortest prefix of the first word to which a machine answers otherwise.
pub fn first_difference(m: &Mealy, h: &Mealy, words: &[Word]) -> Result<Option<Word>, NoMemory>
    requires letters { All (IsWord m.now.inputs) words.now }
    requires same_letters { h.now.inputs ≡ m.now.inputs }
    ensures { IfOk result (FindsFirst m.now.rows h.now.rows words.now) }
{
    for word in words {
        if let Some(front) = shortest_difference(m, h, word)? {
            return Ok(Some(front));
        }
    }
    Ok(None)
}

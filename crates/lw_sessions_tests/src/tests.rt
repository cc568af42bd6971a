//! A module for each crate that is tested, and what they share.
ghost use Rattle.std.specs.Prelude.{◌≡◌, ◌<◌, IsTrue};
ghost use Rattle.std.specs.List.{All};
ghost use Rattle.lw_words.specs.Word.{IsWord};

mod desk;
mod pool;
mod renumber;
mod workers;

use lw_words::{Names, Word};
use std::alloc::Global;
use std::process::Abort;

/// These texts.
fn texts(rt: &impl Abort, alloc: Global, list: &[&str]) -> Vec<String> {
    let mut texts = Vec::new(alloc);
    for name in list {
        let text = String::from_str(alloc, name).expect(rt, "memory");
        texts.push(text).expect(rt, "memory");
    }
    texts
}

/// These names.
fn names(rt: &impl Abort, alloc: Global, list: &[&str]) -> Names {
    Names::from_list(alloc, &texts(rt, alloc, list)).expect(rt, "names")
}

/// This word.
fn word(rt: &impl Abort, alloc: Global, letters: &[u16]) -> Word
    ensures { result ≡ letters.now }
{
    Word::from_letters(alloc, letters.to_vec(alloc).expect(rt, "memory"))
}

/// These words.
fn words(rt: &impl Abort, alloc: Global, list: &[&[u16]]) -> Vec<Word> {
    let mut words = Vec::new(alloc);
    for letters in list {
        words.push(word(rt, alloc, letters)).expect(rt, "memory");
    }
    words
}

/// Whether all numbers are below a bound.
fn are_below(numbers: &[u16], bound: u16) -> bool
    ensures { IsTrue result → All (λ n. n < bound) numbers.now }
{
    numbers.iter().all(|n| *n < bound)
}

/// Whether the letters of a word are below a bound.
fn is_word(word: &Word, bound: u16) -> bool
    ensures { IsTrue result → IsWord bound word.now }
{
    word.as_slice().iter().all(|x| *x < bound)
}

/// Whether the letters of all words are below a bound.
fn are_words(words: &[Word], bound: u16) -> bool
    ensures { IsTrue result → All (IsWord bound) words.now }
{
    words.iter().all(|w| is_word(w, bound))
}

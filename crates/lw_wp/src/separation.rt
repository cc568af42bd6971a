//! The separating words of a machine, with the classes of states by their outputs on each.
ghost use Rattle.std.specs.Prelude.{◌≡◌, ◌<◌, [], ◌∷◌, length, MatchOption, IfOk, slice_index_or};
ghost use Rattle.std.specs.List.{All, list_any};
ghost use Rattle.lw_mealy.specs.Machine.{IsMinimal};
ghost use Rattle.lw_separate.specs.WordClasses.{AreClassesOn};
ghost use Rattle.lw_wp.specs.Identification.{separates, first_separating};
ghost use Rattle.lw_wp.specs.Tables.{chosen};
ghost use Rattle.lw_wp.specs.bodies.Chosen.{IsSeparation};

use lw_mealy::Mealy;
use lw_separate::{separators, word_classes};
use lw_words::{NoMemory, Words};
use std::alloc::Global;

/// The separating words of a machine, and of each the classes of states by their outputs on it, so that two states are
/// told apart without running a word.
#[derive(Drop)]
pub(crate) struct Separation {
    pub(crate) words: Words,
    pub(crate) classes: Vec<Vec<u16>>,
}

/// The separating words of a minimal machine, with their classes.
pub(crate) fn separation_of(alloc: Global, m: &Mealy) -> Result<Separation, NoMemory>
    requires minimal { IsMinimal m.now.inputs m.now.rows }
    ensures { IfOk result (IsSeparation m.now.inputs m.now.rows) }
{
    let words = separators(alloc, m)?;
    let classes = word_classes(alloc, m, &words)?;
    Ok(Separation { words, classes })
}

/// The classes of states by their outputs on the word with this number.
pub(crate) fn classes_on<'a>(m: &Mealy, by: &'a Separation, number: usize) -> &'a [u16]
    requires separation { IsSeparation m.now.inputs m.now.rows by.now }
    requires number { number < length by.now.words }
    ensures { AreClassesOn m.now.rows (slice_index_or by.now.words number []) result.now }
{
    by.classes[number].as_slice()
}

/// Whether the word with this number separates two states.
#[tactic(auto, using(crate::proofs::SeparationLemmas::separates_by))]
pub(crate) fn separates(m: &Mealy, by: &Separation, number: usize, q: u16, p: u16) -> bool
    requires separation { IsSeparation m.now.inputs m.now.rows by.now }
    requires number { number < length by.now.words }
    requires first { q < length m.now.rows }
    requires second { p < length m.now.rows }
    ensures { result ≡ separates m.now.rows q p (slice_index_or by.now.words number []) }
{
    let classes = classes_on(m, by, number);
    classes[usize::from(q)] != classes[usize::from(p)]
}

/// The number of the first word that separates two states.
pub(crate) fn first_separating(m: &Mealy, by: &Separation, q: u16, p: u16) -> Option<u16>
    requires separation { IsSeparation m.now.inputs m.now.rows by.now }
    requires first { q < length m.now.rows }
    requires second { p < length m.now.rows }
    ensures { MatchOption result
        (first_separating m.now.rows by.now.words q p ≡ [])
        (λ number. (number < length by.now.words) ×
        (first_separating m.now.rows by.now.words q p ≡
        slice_index_or by.now.words number [] ∷ [])) }
{
    let _states = m.states();
    for number in 0..by.words.len() {
        if separates(m, by, number, q, p) {
            return Some(number as u16);
        }
    }
    None
}

/// Whether one of the words with these numbers separates two states.
pub(crate) fn any_separates(m: &Mealy, by: &Separation, numbers: &[u16], q: u16, p: u16) -> bool
    requires separation { IsSeparation m.now.inputs m.now.rows by.now }
    requires numbers { All (λ i. i < length by.now.words) numbers.now }
    requires first { q < length m.now.rows }
    requires second { p < length m.now.rows }
    ensures { result ≡ list_any (separates m.now.rows q p) (chosen by.now.words numbers.now) }
{
    for number in numbers {
        if separates(m, by, usize::from(*number), q, p) {
            return true;
        }
    }
    false
}

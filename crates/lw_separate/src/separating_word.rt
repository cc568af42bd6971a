//! The least word that separates two states, read off the levels letter by letter.
ghost use Rattle.std.specs.Prelude.{◌≡◌, ◌≢◌, ℕ, ◌<◌, ◌≤◌, length, slice_index, IfOk};
ghost use Rattle.lw_separate.specs.Canonical.{IsLeastSeparating, IsSeparatingWord};
ghost use Rattle.lw_separate.specs.bodies.Levelled.{LevelsOf};
ghost use Rattle.lw_separate.specs.bodies.Levels.{AreApartBy};

use crate::levels::{Levels, classes_at, fill_levels, first_letter};
use lw_mealy::Mealy;
use lw_words::{NoMemory, Word};
use std::alloc::Global;

/// The number of letters of the shortest words that separate two states which some word does.
fn shortest(m: &Mealy, levels: &Levels, p: u16, q: u16) -> usize
    requires levels { LevelsOf m.now levels.now }
    requires first { p < length m.now.rows }
    requires second { q < length m.now.rows }
    requires differ { slice_index levels.now.names.items p ≢ slice_index levels.now.names.items q }
    ensures some { 0 < result }
    ensures within { result ≤ length levels.now.below.items }
    ensures apart { AreApartBy m.now.inputs m.now.rows result p q }
{
    for letters in 0..levels.below.len() {
        let classes = classes_at(levels, letters);
        if classes[usize::from(p)] != classes[usize::from(q)] {
            return letters;
        }
    }
    levels.below.len()
}

/// The least word of these letters that separates two states: each letter the least that begins one.
fn read_word(
    alloc: Global,
    m: &Mealy,
    levels: &Levels,
    letters: usize,
    p: u16,
    q: u16,
) -> Result<Word, NoMemory>
    requires levels { LevelsOf m.now levels.now }
    requires first { p < length m.now.rows }
    requires second { q < length m.now.rows }
    requires some { 0 < letters }
    requires within { letters ≤ length levels.now.below.items }
    requires apart { AreApartBy m.now.inputs m.now.rows letters p q }
    ensures { IfOk result (IsLeastSeparating m.now.inputs m.now.rows p q) }
{
    let mut word = Word::new(alloc);
    let mut left = letters;
    let mut first = p;
    let mut second = q;
    while left > 0 {
        left -= 1;
        let Some(x) = first_letter(m, classes_at(levels, left), first, second) else {
            unreachable!();
        };
        word.push(x)?;
        first = m.step(first, x).0;
        second = m.step(second, x).0;
    }
    Ok(word)
}

/// The least separating word of two states, by the levels.
pub fn least_word(
    alloc: Global,
    m: &Mealy,
    levels: &Levels,
    p: u16,
    q: u16,
) -> Result<Option<Word>, NoMemory>
    requires levels { LevelsOf m.now levels.now }
    requires first { p < length m.now.rows }
    requires second { q < length m.now.rows }
    ensures { IfOk result (IsSeparatingWord m.now.inputs m.now.rows p q) }
{
    if levels.names[usize::from(p)] == levels.names[usize::from(q)] {
        return Ok(None);
    }
    let letters = shortest(m, levels, p, q);
    let word = read_word(alloc, m, levels, letters, p, q)?;
    Ok(Some(word))
}

/// The shortlex-least word on which two states differ, and None exactly where they agree on all words.
/// Fills the levels (Moore 1956), then reads the word off them letter by letter.
pub fn separating(alloc: Global, m: &Mealy, p: u16, q: u16) -> Result<Option<Word>, NoMemory>
    requires first { p < length m.now.rows }
    requires second { q < length m.now.rows }
    ensures { IfOk result (IsSeparatingWord m.now.inputs m.now.rows p q) }
{
    let levels = fill_levels(alloc, m)?;
    least_word(alloc, m, &levels, p, q)
}

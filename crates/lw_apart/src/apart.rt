//! Whether two words are known apart.
ghost use Rattle.std.specs.Prelude.{◌≡◌, ◌≢◌, ◌↔◌, ◌<◌, true, false, length, IfOk};
ghost use Rattle.lw_words.specs.Word.{answer_of, answers_of, IsWord, IsPrefix};
ghost use Rattle.lw_mealy.specs.Machine.{after, IsMinimal};
ghost use Rattle.lw_separate.specs.Canonical.{IsLeastSeparating};
ghost use Rattle.lw_apart.specs.Covers.{KnownApart};
ghost use Rattle.lw_apart.specs.Pairs.{IsKnownApart};
ghost use Rattle.lw_apart.specs.bodies.Behind.{AreGiven, AreBehind, PartsBehind};

use crate::unknown::is_known;
use lw_cache::Cache;
use lw_mealy::Mealy;
use lw_separate::separating;
use lw_words::{Kept, KeptAnswer, NoMemory, Word};
use std::alloc::Global;

/// Whether an answer's word begins with a word.
fn begins_with(answer: &KeptAnswer, word: &Word) -> bool
    ensures { (result ≡ true) ↔ IsPrefix word.now answer.now.word }
{
    answer.word.as_slice().starts_with(word.as_slice())
}

/// The numbers of the answers whose words begin with a word.
pub(crate) fn answers_behind(
    alloc: Global,
    kept: &Kept,
    word: &Word,
) -> Result<Vec<usize>, NoMemory>
    ensures { IfOk result (λ numbers.
        AreBehind (answers_of kept.now.answers) word.now numbers.items) }
{
    let mut numbers = Vec::new(alloc);
    for number in 0..kept.len() {
        if begins_with(kept.get(number), word) {
            numbers.push(number)?;
        }
    }
    Ok(numbers)
}

/// Whether a prefix of some letters is known behind a word, on which the outputs from two states differ. Puts letters
/// behind the word as it goes on.
fn parts_behind(
    h: &Mealy,
    cache: &Cache,
    word: &mut Word,
    p: u16,
    q: u16,
    letters: &[u16],
) -> Result<bool, NoMemory>
    requires first { p < length h.now.rows }
    requires second { q < length h.now.rows }
    requires letters { IsWord h.now.inputs letters.now }
    ensures { IfOk result (λ parts. (parts ≡ true) ↔
        PartsBehind h.now.rows (answers_of cache.now.kept) word.old p q letters.now) }
{
    let mut first = p;
    let mut second = q;
    for letter in letters {
        word.push(*letter)?;
        if !is_known(cache, word) {
            return Ok(false);
        }
        let one = h.step(first, *letter);
        let other = h.step(second, *letter);
        if one.1 != other.1 {
            return Ok(true);
        }
        first = one.0;
        second = other.0;
    }
    Ok(false)
}

/// Whether two words are known apart, by the answers whose words begin with the second.
fn known_apart(
    h: &Mealy,
    cache: &Cache,
    behind: &[usize],
    one: &Word,
    other: &Word,
) -> Result<bool, NoMemory>
    requires given { AreGiven h.now (answers_of cache.now.kept) }
    requires behind { AreBehind (answers_of cache.now.kept) other.now behind.now }
    requires one { IsWord h.now.inputs one.now }
    requires other { IsWord h.now.inputs other.now }
    ensures { IfOk result (λ apart. (apart ≡ true) ↔
        KnownApart h.now.rows (answers_of cache.now.kept) one.now other.now) }
{
    let p = h.after(h.initial(), one);
    let q = h.after(h.initial(), other);
    for number in behind {
        let mut word = one.copy()?;
        let letters = &cache.kept().get(*number).word.as_slice()[other.len()..];
        if parts_behind(h, cache, &mut word, p, q, letters)? {
            return Ok(true);
        }
    }
    Ok(false)
}

/// Whether two words lead to different states and aren't known apart, by the answers whose words begin with the second.
pub(crate) fn is_open(
    h: &Mealy,
    cache: &Cache,
    behind: &[usize],
    one: &Word,
    other: &Word,
) -> Result<bool, NoMemory>
    requires given { AreGiven h.now (answers_of cache.now.kept) }
    requires behind { AreBehind (answers_of cache.now.kept) other.now behind.now }
    requires one { IsWord h.now.inputs one.now }
    requires other { IsWord h.now.inputs other.now }
    ensures { IfOk result (λ open_pair. (open_pair ≡ false) ↔
        IsKnownApart h.now.rows (answers_of cache.now.kept) (one.now, other.now)) }
{
    if h.after(h.initial(), one) == h.after(h.initial(), other) {
        return Ok(false);
    }
    Ok(!known_apart(h, cache, behind, one, other)?)
}

/// The least separating word of the states that two words lead to, which are different ones.
pub(crate) fn separating_suffix(
    alloc: Global,
    h: &Mealy,
    one: &Word,
    other: &Word,
) -> Result<Word, NoMemory>
    requires minimal { IsMinimal h.now.inputs h.now.rows }
    requires one { IsWord h.now.inputs one.now }
    requires other { IsWord h.now.inputs other.now }
    requires differ { after h.now.rows 0 one.now ≢ after h.now.rows 0 other.now }
    ensures { IfOk result (IsLeastSeparating h.now.inputs h.now.rows
        (after h.now.rows 0 one.now) (after h.now.rows 0 other.now)) }
{
    let p = h.after(h.initial(), one);
    let q = h.after(h.initial(), other);
    let found = separating(alloc, h, p, q)?;
    let Some(suffix) = found else {
        unreachable!();
    };
    Ok(suffix)
}

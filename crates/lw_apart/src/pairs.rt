//! The first pair of words that is to be known apart and isn't.
ghost use Rattle.std.specs.Prelude.{◌≡◌, ◌<◌, ◌≤◌, ◌+◌, ◌++◌, length, take, IfOk};
ghost use Rattle.std.specs.List.{All, flat_map};
ghost use Rattle.lw_words.specs.Word.{answers_of, IsWord};
ghost use Rattle.lw_chunks.specs.Middle.{words_of_length};
ghost use Rattle.lw_apart.specs.Pairs.{with_access, along_from, along, pairs};
ghost use Rattle.lw_apart.specs.bodies.Behind.{AreGiven};
ghost use Rattle.lw_apart.specs.bodies.Stages.{all_fronts, FirstOpen};

use crate::apart::{answers_behind, is_open};
use crate::fronts::Fronts;
use crate::spelling::{front_count, longest_count, spell_front, spell_longest};
use lw_cache::Cache;
use lw_mealy::Mealy;
use lw_words::{NoMemory, Word, Words};
use std::alloc::Global;

/// The first open pair of a word with an access word.
fn first_with_access(
    alloc: Global,
    h: &Mealy,
    cache: &Cache,
    access: &Words,
    word: &Word,
) -> Result<Option<(Word, Word)>, NoMemory>
    requires given { AreGiven h.now (answers_of cache.now.kept) }
    requires access { All (IsWord h.now.inputs) access.now }
    requires word { IsWord h.now.inputs word.now }
    ensures { IfOk result (FirstOpen h.now.rows (answers_of cache.now.kept)
        (with_access access.now word.now)) }
{
    let behind = answers_behind(alloc, cache.kept(), word)?;
    for one in access.as_slice() {
        if is_open(h, cache, &behind, one, word)? {
            return Ok(Some((one.copy()?, word.copy()?)));
        }
    }
    Ok(None)
}

/// The first open pair of a prefix with an access word.
fn first_of_fronts(
    alloc: Global,
    h: &Mealy,
    cache: &Cache,
    fronts: &Fronts,
) -> Result<Option<(Word, Word)>, NoMemory>
    requires given { AreGiven h.now (answers_of cache.now.kept) }
    requires inputs { fronts.now.inputs ≡ h.now.inputs }
    requires access { All (IsWord h.now.inputs) fronts.now.access }
    ensures { IfOk result (FirstOpen h.now.rows (answers_of cache.now.kept)
        (flat_map (with_access fronts.now.access) (all_fronts fronts.now))) }
{
    let mut front = Word::new(alloc);
    for number in 0..front_count(fronts) {
        spell_front(fronts, &mut front, number)?;
        if let Some(pair) = first_with_access(alloc, h, cache, &fronts.access, &front)? {
            return Ok(Some(pair));
        }
    }
    Ok(None)
}

/// A word with the first letters of another one behind it.
pub(crate) fn with_first(word: &Word, letters: &Word, count: usize) -> Result<Word, NoMemory>
    requires { count ≤ length letters.now }
    ensures { IfOk result (λ both. both ≡ word.now ++ take count letters.now) }
{
    let mut both = word.copy()?;
    both.extend(&letters.as_slice()[..count])?;
    Ok(both)
}

/// The first open pair of an access word with this many of some letters behind it and the same with more of them.
fn first_along_from(
    alloc: Global,
    h: &Mealy,
    cache: &Cache,
    access: &Word,
    letters: &Word,
    count: usize,
) -> Result<Option<(Word, Word)>, NoMemory>
    requires given { AreGiven h.now (answers_of cache.now.kept) }
    requires access { IsWord h.now.inputs access.now }
    requires letters { IsWord h.now.inputs letters.now }
    requires count { count ≤ length letters.now }
    ensures { IfOk result (FirstOpen h.now.rows (answers_of cache.now.kept)
        (along_from (length letters.now) access.now letters.now count)) }
{
    let one = with_first(access, letters, count)?;
    for more in 0..letters.len() - count {
        let other = with_first(access, letters, count + 1 + more)?;
        let behind = answers_behind(alloc, cache.kept(), &other)?;
        if is_open(h, cache, &behind, &one, &other)? {
            return Ok(Some((one, other)));
        }
    }
    Ok(None)
}

/// The first open pair of an access word with two beginnings of some letters behind it.
fn first_along(
    alloc: Global,
    h: &Mealy,
    cache: &Cache,
    access: &Word,
    letters: &Word,
) -> Result<Option<(Word, Word)>, NoMemory>
    requires given { AreGiven h.now (answers_of cache.now.kept) }
    requires access { IsWord h.now.inputs access.now }
    requires letters { IsWord h.now.inputs letters.now }
    ensures { IfOk result (FirstOpen h.now.rows (answers_of cache.now.kept)
        (along (length letters.now) access.now letters.now)) }
{
    for fewer in 0..letters.len() {
        if let Some(pair) = first_along_from(alloc, h, cache, access, letters, 1 + fewer)? {
            return Ok(Some(pair));
        }
    }
    Ok(None)
}

/// The first open pair of an access word with two beginnings of the same letters behind it, of the greatest number.
fn first_behind(
    alloc: Global,
    h: &Mealy,
    cache: &Cache,
    fronts: &Fronts,
    access: &Word,
) -> Result<Option<(Word, Word)>, NoMemory>
    requires given { AreGiven h.now (answers_of cache.now.kept) }
    requires inputs { fronts.now.inputs ≡ h.now.inputs }
    requires access { IsWord h.now.inputs access.now }
    ensures { IfOk result (FirstOpen h.now.rows (answers_of cache.now.kept)
        (flat_map (along fronts.now.longest access.now)
        (words_of_length fronts.now.inputs fronts.now.longest))) }
{
    let mut letters = Word::new(alloc);
    for number in 0..longest_count(fronts) {
        spell_longest(fronts, &mut letters, number)?;
        if let Some(pair) = first_along(alloc, h, cache, access, &letters)? {
            return Ok(Some(pair));
        }
    }
    Ok(None)
}

/// The first open pair of two beginnings of the same letters behind one access word.
fn first_of_beginnings(
    alloc: Global,
    h: &Mealy,
    cache: &Cache,
    fronts: &Fronts,
) -> Result<Option<(Word, Word)>, NoMemory>
    requires given { AreGiven h.now (answers_of cache.now.kept) }
    requires inputs { fronts.now.inputs ≡ h.now.inputs }
    requires access { All (IsWord h.now.inputs) fronts.now.access }
    ensures { IfOk result (FirstOpen h.now.rows (answers_of cache.now.kept)
        (flat_map (λ u. flat_map (along fronts.now.longest u)
        (words_of_length fronts.now.inputs fronts.now.longest)) fronts.now.access)) }
{
    for access in fronts.access.as_slice() {
        if let Some(pair) = first_behind(alloc, h, cache, fronts, access)? {
            return Ok(Some(pair));
        }
    }
    Ok(None)
}

/// The first pair that is to be known apart and isn't.
pub(crate) fn first_open(
    alloc: Global,
    h: &Mealy,
    cache: &Cache,
    fronts: &Fronts,
) -> Result<Option<(Word, Word)>, NoMemory>
    requires given { AreGiven h.now (answers_of cache.now.kept) }
    requires inputs { fronts.now.inputs ≡ h.now.inputs }
    requires access { All (IsWord h.now.inputs) fronts.now.access }
    ensures { IfOk result (FirstOpen h.now.rows (answers_of cache.now.kept)
        (pairs fronts.now.inputs fronts.now.access fronts.now.longest)) }
{
    if let Some(pair) = first_of_fronts(alloc, h, cache, fronts)? {
        return Ok(Some(pair));
    }
    first_of_beginnings(alloc, h, cache, fronts)
}

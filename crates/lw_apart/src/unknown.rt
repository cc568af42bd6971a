//! The least word that is to be known and isn't.
ghost use Rattle.std.specs.Prelude.{◌≡◌, true, false, IfOk};
ghost use Rattle.lw_words.specs.Word.{answers_of};
ghost use Rattle.lw_cache.specs.Known.{IsKnown};
ghost use Rattle.lw_apart.specs.bodies.Stages.{all_fronts, IsBestWith, LeastUnknown};

use crate::fronts::Fronts;
use crate::spelling::{front_count, spell_front};
use lw_cache::{Cache, Known};
use lw_words::{NoMemory, Word, shortlex};
use std::alloc::Global;
use std::cmp::Ordering;

/// Whether a word is known.
pub(crate) fn is_known(cache: &Cache, word: &Word) -> bool
    ensures yes { result ≡ true → IsKnown (answers_of cache.now.kept) word.now }
    ensures no { result ≡ false → ¬ IsKnown (answers_of cache.now.kept) word.now }
{
    match cache.known(word) {
        Known::Yes => true,
        Known::Pending(_) | Known::No => false,
    }
}

/// The first in shortlex order of the best word so far and a further one, if that isn't known.
fn best_with(cache: &Cache, best: Option<Word>, word: &Word) -> Result<Option<Word>, NoMemory>
    ensures { IfOk result (IsBestWith (answers_of cache.now.kept) best word.now) }
{
    if is_known(cache, word) {
        return Ok(best);
    }
    let Some(first) = best else {
        return Ok(Some(word.copy()?));
    };
    if shortlex(word, &first) == Ordering::Less {
        return Ok(Some(word.copy()?));
    }
    Ok(Some(first))
}

/// The first prefix in shortlex order that isn't known. Looks at each.
pub(crate) fn least_unknown(
    alloc: Global,
    cache: &Cache,
    fronts: &Fronts,
) -> Result<Option<Word>, NoMemory>
    ensures { IfOk result (LeastUnknown (answers_of cache.now.kept) (all_fronts fronts.now)) }
{
    let mut best = None;
    let mut front = Word::new(alloc);
    for number in 0..front_count(fronts) {
        spell_front(fronts, &mut front, number)?;
        best = best_with(cache, best, &front)?;
    }
    Ok(best)
}

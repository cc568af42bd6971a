//! The first of some words that isn't known.
ghost use Rattle.std.specs.Prelude.{◌≡◌, true, false, IfOk, IfNone, IfSome};
ghost use Rattle.std.specs.List.{All};
ghost use Rattle.lw_words.specs.Word.{answers_of};
ghost use Rattle.lw_words.specs.First.{FailsFirst};
ghost use Rattle.lw_cache.specs.Known.{IsKnown};
ghost use Rattle.lw_certify.specs.bodies.Stages.{IsFirstUnknown};

use lw_cache::{Cache, Known};
use lw_chunks::Chunks;
use lw_words::{NoMemory, Word};
use std::alloc::Global;

/// Whether a word is known.
fn is_known(cache: &Cache, word: &Word) -> bool
    ensures yes { result ≡ true → IsKnown (answers_of cache.now.kept) word.now }
    ensures no { result ≡ false → ¬ IsKnown (answers_of cache.now.kept) word.now }
{
    match cache.known(word) {
        Known::Yes => true,
        Known::Pending(_) | Known::No => false,
    }
}

/// The place of the first word that isn't known.
fn first_unknown(cache: &Cache, words: &[Word]) -> Option<usize>
    ensures none { IfNone result (All (IsKnown (answers_of cache.now.kept)) words.now) }
    ensures some { IfSome result (FailsFirst (IsKnown (answers_of cache.now.kept)) words.now) }
{
    for (place, word) in words.iter().enumerate() {
        if !is_known(cache, word) {
            return Some(place);
        }
    }
    None
}

/// The first word that is left and isn't known. Holds one chunk at a time.
pub(crate) fn first_missing<S: Chunks>(
    alloc: Global,
    cache: &Cache,
    suite: &mut S,
) -> Result<Option<Word>, NoMemory>
    ensures { IfOk result (IsFirstUnknown (answers_of cache.now.kept) (S.left suite.old)) }
{
    let mut chunk = Vec::new(alloc);
    while suite.next_chunk(&mut chunk)? {
        if let Some(place) = first_unknown(cache, &chunk) {
            return Ok(Some(chunk[place].copy()?));
        }
    }
    Ok(None)
}

//! What the cache says of a word's last letters.
ghost use Rattle.std.specs.Prelude.{◌≡◌, ℕ, ◌<◌, List, [], ◌∷◌, ◌++◌, length, IfOk};
ghost use Rattle.std.specs.List.{All};
ghost use Rattle.lw_words.specs.Word.{AreAnswers, answers_of, IsWord};
ghost use Rattle.lw_cache.specs.Known.{IsKnown};
ghost use Rattle.lw_tree.specs.Tree.{Tells};

use lw_cache::Cache;
use lw_words::{NoMemory, Word, join};
use std::alloc::Global;

/// The outputs on the suffix, after the word.
pub(crate) fn read_tail(
    alloc: Global,
    cache: &Cache,
    word: &Word,
    suffix: &Word,
) -> Result<Word, NoMemory>
    requires answers { (a : ℕ) × AreAnswers a (answers_of cache.now.kept) }
    requires known { IsKnown (answers_of cache.now.kept) (word.now ++ suffix.now) }
    ensures tells { IfOk result (λ outs. Tells (answers_of cache.now.kept) word.now suffix.now
        outs) }
    ensures size { IfOk result (λ outs. length outs ≡ length suffix.now) }
{
    let asked = join(word, suffix)?;
    let found = cache.read(&asked)?;
    let Some(outs) = found else { unreachable!() };
    let tail = outs.as_slice()[word.len()..].to_vec(alloc)?;
    Ok(Word::from_letters(alloc, tail))
}

/// The last output of a word that isn't empty.
pub(crate) fn read_output(cache: &Cache, word: &Word) -> Result<u16, NoMemory>
    requires answers { (a : ℕ) × AreAnswers a (answers_of cache.now.kept) }
    requires known { IsKnown (answers_of cache.now.kept) word.now }
    requires some { 0 < length word.now }
    ensures tells { IfOk result (λ y. (u : List ℕ) (x : ℕ) → word.now ≡ u ++ x ∷ [] →
        Tells (answers_of cache.now.kept) u (x ∷ []) (y ∷ [])) }
    ensures below { IfOk result (λ y. (b : ℕ) → All (λ k. IsWord b k.outs)
        (answers_of cache.now.kept) → y < b) }
{
    let found = cache.read(word)?;
    let Some(outs) = found else { unreachable!() };
    Ok(outs.as_slice()[word.len() - 1])
}

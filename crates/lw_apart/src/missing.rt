//! The word that is missing so that answers cover a model.
ghost use Rattle.std.specs.Prelude.{◌≢◌, ◌≤◌, length, IfOk, MatchOption};
ghost use Rattle.std.specs.List.{All};
ghost use Rattle.lw_words.specs.Word.{answers_of, IsWord};
ghost use Rattle.lw_mealy.specs.Machine.{after, Gives, IsMinimal};
ghost use Rattle.lw_chunks.specs.Size.{suite_size, greatest_suite};
ghost use Rattle.lw_apart.specs.Covers.{Covers};
ghost use Rattle.lw_apart.specs.Missing.{IsWanted, IsMissing};

use crate::apart::separating_suffix;
use crate::pairs::first_open;
use crate::spelling::fronts_of;
use crate::unknown::{is_known, least_unknown};
use lw_cache::Cache;
use lw_mealy::Mealy;
use lw_words::{NoMemory, Word, join};
use std::alloc::Global;

/// The word that two words want which lead to different states: with their least separating word behind it the first, or where
/// that is known the second.
fn wanted(
    alloc: Global,
    h: &Mealy,
    cache: &Cache,
    one: &Word,
    other: &Word,
) -> Result<Word, NoMemory>
    requires minimal { IsMinimal h.now.inputs h.now.rows }
    requires one { IsWord h.now.inputs one.now }
    requires other { IsWord h.now.inputs other.now }
    requires differ { after h.now.rows 0 one.now ≢ after h.now.rows 0 other.now }
    ensures { IfOk result (IsWanted h.now.inputs h.now.rows (answers_of cache.now.kept)
        (one.now, other.now)) }
{
    let suffix = separating_suffix(alloc, h, one, other)?;
    let word = join(one, &suffix)?;
    if is_known(cache, &word) {
        return join(other, &suffix);
    }
    Ok(word)
}

/// The word that is missing so that the recorded answers cover a minimal model which agrees with them, for `extra`
/// states more, and none exactly where they do, whichever words they came from: the first in shortlex order that is to
/// be known and isn't, or else the word that the first pair wants which is to be known apart (Dorofeeva, El-Fakih and
/// Koufareva 2005). The suite of the W-method isn't to be too large.
///
/// # Errors
/// Only where memory runs out.
pub fn missing_word(
    alloc: Global,
    h: &Mealy,
    cache: &Cache,
    extra: u8,
) -> Result<Option<Word>, NoMemory>
    requires few { extra ≤ 4 }
    requires minimal { IsMinimal h.now.inputs h.now.rows }
    requires size { suite_size (length h.now.rows) h.now.inputs extra ≤ greatest_suite }
    requires letters { All (λ k. IsWord h.now.inputs k.word) (answers_of cache.now.kept) }
    requires given { Gives h.now.rows (answers_of cache.now.kept) }
    ensures { IfOk result (λ word. MatchOption word
        (Covers h.now.inputs h.now.rows (answers_of cache.now.kept) extra)
        (IsMissing h.now.inputs h.now.rows (answers_of cache.now.kept) extra)) }
{
    let fronts = fronts_of(alloc, h, extra)?;
    if let Some(word) = least_unknown(alloc, cache, &fronts)? {
        return Ok(Some(word));
    }
    let Some((one, other)) = first_open(alloc, h, cache, &fronts)? else {
        return Ok(None);
    };
    Ok(Some(wanted(alloc, h, cache, &one, &other)?))
}

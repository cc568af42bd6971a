//! Where a model differs from what is read.
ghost use Rattle.std.specs.Prelude.{◌≡◌, ◌≤◌, IfOk, length, true};
ghost use Rattle.std.specs.List.{All, AllWithin};
ghost use Rattle.lw_words.specs.Word.{answer_of, answers_of, IsAnswer, IsWord};
ghost use Rattle.lw_cache.specs.Known.{IsKnown};
ghost use Rattle.lw_mealy.specs.Machine.{answer};
ghost use Rattle.lw_rounds.specs.bodies.Conformance.{FindsShortest, FindsFirst};

use lw_cache::Cache;
use lw_mealy::Mealy;
use lw_words::{Kept, NoMemory, Word};

/// The shortest prefix of a known word on which the model differs from what is read.
fn shortest_difference(cache: &Cache, model: &Mealy, word: &Word) -> Result<Option<Word>, NoMemory>
    requires answers { All (λ k. IsAnswer model.now.inputs (answer_of k)) cache.now.kept }
    requires known { IsKnown (answers_of cache.now.kept) word.now }
    requires letters { IsWord model.now.inputs word.now }
    ensures { IfOk result (FindsShortest model.now.rows (answers_of cache.now.kept) word.now) }
{
    let found = cache.read(word)?;
    let Some(outs) = found else { unreachable!() };
    match model.agrees(word, &outs) {
        Some(place) => Ok(Some(word.prefix(place + 1)?)),
        None => Ok(None),
    }
}

/// The same of the first of known words on which the model differs.
pub fn first_difference(
    cache: &Cache,
    model: &Mealy,
    words: &[Word],
) -> Result<Option<Word>, NoMemory>
    requires answers { All (λ k. IsAnswer model.now.inputs (answer_of k)) cache.now.kept }
    requires known { All (IsKnown (answers_of cache.now.kept)) words.now }
    requires letters { All (IsWord model.now.inputs) words.now }
    ensures { IfOk result (FindsFirst model.now.rows (answers_of cache.now.kept) words.now) }
{
    for word in words {
        if let Some(front) = shortest_difference(cache, model, word)? {
            return Ok(Some(front));
        }
    }
    Ok(None)
}

/// Whether the model agrees with each recorded answer from one on. Takes no memory.
pub fn gives_from(kept: &Kept, from: usize, model: &Mealy) -> bool
    requires from { from ≤ length kept.now.answers }
    requires answers { All (λ k. IsAnswer model.now.inputs (answer_of k)) kept.now.answers }
    ensures { result ≡ true → AllWithin (λ k. answer model.now.rows k.word ≡ k.outs)
        kept.now.answers from (length kept.now.answers) }
{
    for number in from..kept.len() {
        let answer = kept.get(number);
        if model.agrees(&answer.word, &answer.outs).is_some() {
            return false;
        }
    }
    true
}

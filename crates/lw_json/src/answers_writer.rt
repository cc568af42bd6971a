//! Writes answers files, in format 2.

ghost use Rattle.std.specs.Prelude.{◌≡◌, ◌≤◌, length, map, IfOk, OnOk};
ghost use Rattle.std.specs.List.Sorted.{IsPermutation};
ghost use Rattle.lw_json.specs.AnswersText.{answer_cmp, IsWrittenOrder, IsAnswersText, IsReadInOrder};
ghost use Rattle.lw_json.specs.KeptOver.{AreKeptOver};

use crate::answers_tokens::text_of;
use lw_words::{Kept, KeptAnswer, Names, NoMemory, shortlex};
use std::alloc::{AllocError, Global};
use std::cmp::Ordering;

/// Compares answers in the order in which they are written.
fn compare(a: &KeptAnswer, b: &KeptAnswer) -> Ordering
    ensures { result ≡ answer_cmp a.now b.now }
{
    shortlex(&a.word, &b.word)
        .then(a.instance.cmp(&b.instance))
        .then(a.run.cmp(&b.run))
}

/// The answers in the order of the list.
fn references(alloc: Global, kept: &Kept) -> Result<Vec<&KeptAnswer>, NoMemory>
    ensures { IfOk result (λ v. map (λ k. k.now) v.items ≡ kept.now.answers) }
{
    let mut all = Vec::with_capacity(alloc, kept.len())?;
    for i in 0..kept.len() {
        all.push(kept.get(i))?;
    }
    Ok(all)
}

/// Sorts answers into the order in which they are written.
fn sort(all: &mut Vec<&KeptAnswer>) -> Result<(), AllocError>
    ensures { OnOk result
        (IsWrittenOrder (map (λ k. k.now) all.old.items) (map (λ k. k.now) all.new.items)) }
{
    all.sort_by(|a, b| compare(*a, *b))
}

/// The one text of answers, in format 2: their compact JSON text and a line feed. The answers stand in shortlex
/// order of their words, then by instance, then by run, then as in the list.
pub fn answers_text(
    alloc: Global,
    inputs: &Names,
    outputs: &Names,
    kept: &Kept,
) -> Result<Vec<u8>, NoMemory>
    requires few { length inputs.now ≤ 64 }
    requires over { AreKeptOver (length inputs.now) (length outputs.now) kept.now.answers }
    ensures text { IfOk result
        (λ text. IsAnswersText inputs.now outputs.now kept.now.answers text.items) }
    ensures read_back { IfOk result
        (λ text. IsReadInOrder inputs.now outputs.now kept.now.answers text.items) }
{
    let mut answers = references(alloc, kept)?;
    sort(&mut answers)?;
    let mut text = text_of(alloc, &answers, inputs, outputs)?;
    text.push(b'\n')?;
    Ok(text)
}

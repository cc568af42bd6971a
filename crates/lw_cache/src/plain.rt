//! A plain, slow body that computes the definitions from the list of recorded answers.
ghost use Rattle.std.specs.Prelude.{◌≡◌, ◌↔◌, ℕ, ◌<◌, ◌≤◌, true, length, IfNone, IfSome, IfOk, false};
ghost use Rattle.std.specs.List.{All};
ghost use Rattle.lw_words.specs.Word.{IsPrefix, answer_at, answer_of, answers_of, IsWhole};
ghost use Rattle.lw_cache.specs.Clash.{Clash, ClashAt, IsClear, IsClearAfter};
ghost use Rattle.lw_cache.specs.Known.{IsKnown};
ghost use Rattle.lw_cache.specs.Plain.{AreFlags};

use lw_words::{Kept, KeptAnswer, NoMemory, Word};
use std::alloc::Global;

#[tactic(auto, using(crate::proofs::PlainLemmas::clash_steps))]
/// The place at which two answers clash, and None where they don't. Takes no memory.
pub fn clash(first: &KeptAnswer, second: &KeptAnswer) -> Option<usize>
    requires first { IsWhole (answer_of first.now) }
    requires second { IsWhole (answer_of second.now) }
    ensures none { IfNone result (¬ Clash (answer_of first.now) (answer_of second.now)) }
    ensures some { IfSome result (ClashAt (answer_of first.now) (answer_of second.now)) }
{
    let (first_word, second_word) = (first.word.as_slice(), second.word.as_slice());
    let (first_outs, second_outs) = (first.outs.as_slice(), second.outs.as_slice());
    for place in 0..first_word.len().min(second_word.len()) {
        if first_word[place] != second_word[place] {
            return None;
        }
        if first_outs[place] != second_outs[place] {
            return Some(place);
        }
    }
    None
}

/// Whether two answers clash.
fn clashes(first: &KeptAnswer, second: &KeptAnswer) -> bool
    requires first { IsWhole (answer_of first.now) }
    requires second { IsWhole (answer_of second.now) }
    ensures { (result ≡ true) ↔ Clash (answer_of first.now) (answer_of second.now) }
{
    match clash(first, second) {
        Some(_) => true,
        None => false,
    }
}

/// Whether an answer clashes with a clear one among those that have flags.
fn clashes_with_clear(kept: &Kept, flags: &[bool], answer: &KeptAnswer) -> bool
    requires whole { All IsWhole (answers_of kept.now.answers) }
    requires flags { AreFlags (answers_of kept.now.answers) (length flags.now) flags.now }
    requires few { length flags.now ≤ length kept.now.answers }
    requires answer { IsWhole (answer_of answer.now) }
    ensures clear { result ≡ false → IsClearAfter (answers_of kept.now.answers) (length flags.now)
        (answer_of answer.now) }
    ensures not { result ≡ true → ¬ IsClearAfter (answers_of kept.now.answers) (length flags.now)
        (answer_of answer.now) }
{
    for (number, is_clear) in flags.iter().enumerate() {
        if *is_clear && clashes(kept.get(number), answer) {
            return true;
        }
    }
    false
}

/// For each answer whether it is clear: whether it clashes with no clear answer before it. Compares each answer with all
/// before it.
pub fn clear(alloc: Global, kept: &Kept) -> Result<Vec<bool>, NoMemory>
    requires { All IsWhole (answers_of kept.now.answers) }
    ensures { IfOk result (λ flags. AreFlags (answers_of kept.now.answers) (length kept.now.answers)
        flags.items) }
{
    let mut flags = Vec::with_capacity(alloc, kept.len())?;
    for number in 0..kept.len() {
        let is_clear = !clashes_with_clear(kept, flags.as_slice(), kept.get(number));
        flags.push(is_clear)?;
    }
    Ok(flags)
}

/// Whether an answer's word begins with a word.
fn begins_with(answer: &KeptAnswer, word: &Word) -> bool
    ensures { (result ≡ true) ↔ IsPrefix word.now answer.now.word }
{
    answer.word.as_slice().starts_with(word.as_slice())
}

/// Whether a word is known: empty, or a prefix of a clear answer's word. Takes no memory.
pub fn known(kept: &Kept, flags: &[bool], word: &Word) -> bool
    requires { AreFlags (answers_of kept.now.answers) (length kept.now.answers) flags.now }
    ensures { (result ≡ true) ↔ IsKnown (answers_of kept.now.answers) word.now }
{
    for (number, is_clear) in flags.iter().enumerate() {
        if *is_clear && begins_with(kept.get(number), word) {
            return true;
        }
    }
    word.len() == 0
}

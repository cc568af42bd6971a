//! How two models compare.
ghost use Rattle.std.specs.Prelude.{◌≡◌, ◌<◌, [], ◌∷◌, ◌++◌, length, map, slice_index_or, string_bytes, IfOk, OnOk};
ghost use Rattle.std.specs.List.{All};
ghost use Rattle.lw_words.specs.Word.{IsWord, named};
ghost use Rattle.lw_compare.specs.Comparing.{SameInputs, reply as named_reply, translated};
ghost use Rattle.lw_compare.specs.Decision.{IsComparison, difference_of};
ghost use Rattle.lw_compare.specs.bodies.Joint.{IsDictionary};

use crate::dictionary::{Dictionary, lacking, look_up};
use crate::walk::least_difference;
use lw_json::{Machine, Texts};
use lw_report::{Comparison, Difference};
use lw_words::{Names, NoMemory, Word};
use std::alloc::Global;

/// Appends the name of a number.
fn put_name(
    alloc: Global,
    texts: &mut Vec<String>,
    names: &Names,
    number: u16,
) -> Result<(), NoMemory>
    requires { number < length names.now }
    ensures { OnOk result (map (λ s. string_bytes s) texts.new.items ≡
        map (λ s. string_bytes s) texts.old.items ++ slice_index_or names.now number [] ∷ []) }
{
    texts.push(String::from_str(alloc, names.name(number))?)?;
    Ok(())
}

/// The names of numbers, in their order.
#[tactic(auto, using(crate::proofs::NameLemmas::spell_step))]
fn spell(alloc: Global, names: &Names, numbers: &[u16]) -> Result<Texts, NoMemory>
    requires { All (λ x. x < length names.now) numbers.now }
    ensures { IfOk result (λ texts. texts ≡ named names.now numbers.now) }
{
    let mut texts = Vec::with_capacity(alloc, numbers.len())?;
    for number in numbers {
        put_name(alloc, &mut texts, names, *number)?;
    }
    Ok(Texts::new(texts))
}

/// What a model gives for a word, by the names of its outputs.
fn reply(alloc: Global, model: &Machine, word: &Word) -> Result<Texts, NoMemory>
    requires { IsWord model.now.mealy.inputs word.now }
    ensures { IfOk result (λ texts. texts ≡
        named_reply model.now word.now) }
{
    let _states = model.mealy.states();
    let outs = model.mealy.answer(word)?;
    spell(alloc, &model.outputs, outs.as_slice())
}

/// The word of the same names by the numbers of the second model.
fn translate(
    first: &Machine,
    second: &Machine,
    by: &Dictionary,
    word: &Word,
) -> Result<Word, NoMemory>
    requires by { IsDictionary first.now second.now by.now.letters.items by.now.outputs.items }
    requires word { IsWord first.now.mealy.inputs word.now }
    ensures value { IfOk result (λ v. v ≡ translated first.now.inputs second.now.inputs word.now) }
    ensures word { IfOk result (λ v. IsWord second.now.mealy.inputs v) }
{
    let mut other = word.copy()?;
    other.renumber(&by.letters);
    Ok(other)
}

/// The word on which two models differ, and what each of them gives for it, by their names.
fn describe(
    alloc: Global,
    first: &Machine,
    second: &Machine,
    by: &Dictionary,
    word: &Word,
) -> Result<Difference, NoMemory>
    requires by { IsDictionary first.now second.now by.now.letters.items by.now.outputs.items }
    requires word { IsWord first.now.mealy.inputs word.now }
    ensures { IfOk result (λ d. d ≡ difference_of first.now second.now word.now) }
{
    let other = translate(first, second, by, word)?;
    Ok(Difference {
        word: spell(alloc, &first.inputs, word.as_slice())?,
        first: reply(alloc, first, word)?,
        second: reply(alloc, second, &other)?,
    })
}

/// How two models with the same inputs compare.
fn compare_alike(alloc: Global, first: &Machine, second: &Machine) -> Result<Comparison, NoMemory>
    requires { SameInputs first.now second.now }
    ensures { IfOk result (IsComparison first.now second.now) }
{
    let by = look_up(alloc, first, second)?;
    let found = least_difference(alloc, first, second, &by)?;
    match found {
        None => Ok(Comparison::Equal),
        Some(word) => {
            let difference = describe(alloc, first, second, &by, &word)?;
            Ok(Comparison::Differ(difference))
        }
    }
}

/// How two models compare. At most as many steps as there are pairs of their states and letters, and a table of the pairs.
pub fn compare_models(
    alloc: Global,
    first: &Machine,
    second: &Machine,
) -> Result<Comparison, NoMemory>
    ensures { IfOk result (IsComparison first.now second.now) }
{
    let alone = lacking(alloc, &first.inputs, &second.inputs)?;
    let other = lacking(alloc, &second.inputs, &first.inputs)?;
    if alone.is_empty() && other.is_empty() {
        return compare_alike(alloc, first, second);
    }
    Ok(Comparison::OtherInputs {
        first: Texts::new(alone),
        second: Texts::new(other),
    })
}

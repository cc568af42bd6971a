//! The answers of a file, by the names of a system.
ghost use Rattle.std.specs.Prelude.{◌≡◌, ◌<◌, [], length, map, Contains, IfOk, OnOk, Err, None};
ghost use Rattle.std.specs.List.{All};
ghost use Rattle.lw_words.specs.Word.{answers_of, IsWhole, number_in};
ghost use Rattle.lw_words.specs.Renumbering.{renumbered_answers};
ghost use Rattle.lw_pool.specs.Opening.{MayBegin};
ghost use Rattle.lw_json.specs.FitNames.{FitNames};
ghost use Rattle.lw_prior.specs.Prior.{prior_answers, HasFirstClash};
ghost use Rattle.lw_prior.specs.bodies.Placed.{placed_from};
ghost use Rattle.lw_prior.specs.declared.stops.PriorStop.TheVariants as Stopped;

use crate::filling::keep;
use crate::{Prior, PriorStop};
use lw_cache::Cache;
use lw_json::Answers;
use lw_words::{Kept, Names, NoMemory};
use std::alloc::Global;

/// The instance of prior answers.
const PRIOR: u32 = 16;

/// The numbers that names have in another list.
fn numbers_among(alloc: Global, own: &Names, names: &Names) -> Result<Vec<u16>, PriorStop>
    ensures numbers { IfOk result (λ to. to.items ≡ map (number_in names.now) own.now) }
    ensures among { OnOk result (All (λ n. Contains names.now n) own.now) }
    ensures differ { result ≡ Err Stopped.NamesDiffer → ¬ All (λ n. Contains names.now n) own.now }
{
    let mut to = Vec::new(alloc);
    for y in 0..own.len() {
        match names.number(own.name(y)) {
            Some(number) => to.push(number)?,
            None => return Err(PriorStop::NamesDiffer),
        }
    }
    Ok(to)
}

/// The numbers that the names of a file's outputs have among the system's, where the names fit.
fn fitting(
    alloc: Global,
    answers: &Answers,
    inputs: &Names,
    outputs: &Names,
) -> Result<Vec<u16>, PriorStop>
    ensures numbers { IfOk result (λ to. to.items
        ≡ map (number_in outputs.now) answers.now.outputs) }
    ensures fits { OnOk result
        (FitNames answers.now.inputs answers.now.outputs inputs.now outputs.now) }
    ensures differ { result ≡ Err Stopped.NamesDiffer →
        ¬ FitNames answers.now.inputs answers.now.outputs inputs.now outputs.now }
{
    if !answers.inputs.same(inputs) {
        return Err(PriorStop::NamesDiffer);
    }
    numbers_among(alloc, &answers.outputs, outputs)
}

/// Keeps answers in their order as prior ones, each numbered by its place.
fn place(alloc: Global, kept: &Kept) -> Result<Prior, NoMemory>
    requires { All IsWhole (answers_of kept.now.answers) }
    ensures kept { IfOk result (λ p. p.cache.kept ≡ placed_from 0 kept.now.answers) }
    ensures claims { IfOk result (λ p. p.cache.claims ≡ []) }
    ensures clash { IfOk result (λ p. HasFirstClash (answers_of p.cache.kept) p.clash) }
{
    let mut cache = Cache::new(alloc);
    let mut clash = None;
    for number in 0..kept.len() {
        clash = keep(&mut cache, kept.get(number), PRIOR, number as u64, clash)?;
    }
    Ok(Prior { cache, clash })
}

/// The recorded answers of a file, with `to[y]` in place of each output `y`.
fn renumbered(answers: Answers, to: &[u16]) -> Kept
    requires { All (λ k. All (λ y. y < length to.now) k.outs) answers.kept.answers }
    ensures { result.answers ≡ renumbered_answers to.now answers.kept.answers }
{
    let mut kept = answers.kept;
    kept.renumber(to);
    kept
}

/// The answers of a file as the prior answers of a learning: under the number 16, in the runs of their places, and with
/// each output by the number that its name has among the system's. The letters must be the system's, and each name of an
/// output among the system's.
pub fn prior_of(
    alloc: Global,
    answers: Answers,
    inputs: &Names,
    outputs: &Names,
) -> Result<Prior, PriorStop>
    ensures kept { IfOk result (λ p. p.cache.kept ≡
        prior_answers answers.outputs outputs.now answers.kept.answers) }
    ensures claims { IfOk result (λ p. p.cache.claims ≡ []) }
    ensures clash { IfOk result (λ p. HasFirstClash (answers_of p.cache.kept) p.clash) }
    ensures may { IfOk result (λ p. MayBegin (record { names = outputs.now; brought = None })
        (length inputs.now) (length outputs.now) p.cache.kept) }
    ensures fits { OnOk result
        (FitNames answers.inputs answers.outputs inputs.now outputs.now) }
    ensures differ { result ≡ Err Stopped.NamesDiffer →
        ¬ FitNames answers.inputs answers.outputs inputs.now outputs.now }
{
    let to = fitting(alloc, &answers, inputs, outputs)?;
    let kept = renumbered(answers, to.as_slice());
    let prior = place(alloc, &kept)?;
    Ok(prior)
}

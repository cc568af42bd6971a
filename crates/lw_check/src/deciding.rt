//! The outcome of a model and answers.
ghost use Rattle.std.specs.Prelude.{◌≡◌, ◌≤◌, ◌⊎◌, true, false};
ghost use Rattle.std.specs.List.{All};
ghost use Rattle.lw_words.specs.Word.{answers_of, IsWord};
ghost use Rattle.lw_check.specs.Decision.{IsDecision, SameNames, pair_of};
ghost use Rattle.lw_check.specs.Naming.{NamesOutputs};
ghost use Rattle.lw_check.specs.bodies.Verdicts.{HasOutcome, outcome_of};
ghost use Rattle.lw_prior.specs.Prior.{HasFirstClash};
ghost use Rattle.lw_report.specs.declared.outcome.Outcome.{Outcome as Came};

use lw_cache::Cache;
use lw_certify::{Verdict, certify};
use lw_chunks::Method;
use lw_json::{Answers, Machine};
use lw_names::OutNames;
use lw_prior::{Prior, fill};
use lw_report::{Outcome, Role};
use std::alloc::Global;

/// The outcome of a model and answers, and the names of their outputs, where they share them.
#[derive(Drop)]
pub(crate) struct Decided {
    pub(crate) outcome: Outcome,
    pub(crate) outputs: Option<OutNames>,
}

/// The outcome of a verdict on a model of this many states.
fn verdict_outcome(states: u16, verdict: Verdict) -> Outcome
    ensures { result ≡ outcome_of states verdict }
{
    match verdict {
        Verdict::Sure => Outcome::Yes { states },
        Verdict::TooLarge(number) => Outcome::SuiteTooLarge { states, number },
        verdict => Outcome::No(verdict),
    }
}

/// The outcome by a method of a model and answers of which nothing clashes.
fn certified(alloc: Global, machine: &Machine, cache: &Cache, extra: u8, method: Method) -> Outcome
    requires few { extra ≤ 4 }
    requires letters { All (λ k. IsWord machine.now.mealy.inputs k.word)
        (answers_of cache.now.kept) }
    ensures { (result ≡ Came.NoMemory) ⊎
        HasOutcome method machine.now.mealy (answers_of cache.now.kept) extra result }
{
    match certify(alloc, &machine.mealy, cache, extra, method) {
        Ok(verdict) => verdict_outcome(machine.mealy.states(), verdict),
        Err(_) => Outcome::NoMemory,
    }
}

/// Whether the names of the answers are the model's.
fn same_names(machine: &Machine, answers: &Answers) -> bool
    ensures yes { result ≡ true → SameNames (pair_of machine.now answers.now) }
    ensures no { result ≡ false → ¬ SameNames (pair_of machine.now answers.now) }
{
    if !answers.inputs.same(&machine.inputs) {
        return false;
    }
    answers.outputs.same(&machine.outputs)
}

/// The outcome of a model and answers that are kept in a cache.
fn outcome_of_filled(
    alloc: Global,
    machine: &Machine,
    answers: &Answers,
    filled: &Prior,
    extra: u8,
    method: Method,
) -> Outcome
    requires few { extra ≤ 4 }
    requires names { SameNames (pair_of machine.now answers.now) }
    requires kept { filled.now.cache.kept ≡ answers.now.kept.answers }
    requires clash { HasFirstClash (answers_of filled.now.cache.kept) filled.now.clash }
    ensures { (result ≡ Came.NoMemory) ⊎
        IsDecision method (pair_of machine.now answers.now) extra result }
{
    match filled.clash {
        Some(clash) => Outcome::Nondeterministic(clash),
        None => certified(alloc, machine, &filled.cache, extra, method),
    }
}

/// The outcome of a model and answers of the same names.
fn decide_alike(
    alloc: Global,
    machine: &Machine,
    answers: &Answers,
    extra: u8,
    method: Method,
) -> Outcome
    requires few { extra ≤ 4 }
    requires names { SameNames (pair_of machine.now answers.now) }
    ensures { (result ≡ Came.NoMemory) ⊎
        IsDecision method (pair_of machine.now answers.now) extra result }
{
    match fill(alloc, &answers.kept) {
        Ok(filled) => outcome_of_filled(alloc, machine, answers, &filled, extra, method),
        Err(_) => Outcome::NoMemory,
    }
}

/// The outcome of a model and answers, and the names of their outputs.
pub(crate) fn decide(
    alloc: Global,
    machine: &Machine,
    answers: &Answers,
    extra: u8,
    method: Method,
) -> Decided
    requires few { extra ≤ 4 }
    ensures decided { (result.outcome ≡ Came.NoMemory) ⊎
        IsDecision method (pair_of machine.now answers.now) extra result.outcome }
    ensures named { NamesOutputs (pair_of machine.now answers.now) result.outcome result.outputs }
{
    let Ok(outputs) = OutNames::declared(alloc, &answers.outputs) else {
        return Decided {
            outcome: Outcome::NoMemory,
            outputs: None,
        };
    };
    if !same_names(machine, answers) {
        return Decided {
            outcome: Outcome::Alphabets(Role::Answers),
            outputs: Some(outputs),
        };
    }
    Decided {
        outcome: decide_alike(alloc, machine, answers, extra, method),
        outputs: Some(outputs),
    }
}

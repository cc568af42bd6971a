//! The end of a call of the program.
ghost use Rattle.std.specs.Prelude.{◌≡◌, ◌≤◌, None, Some, option_map};
ghost use Rattle.lw_words.specs.Cause.{CountedFault};
ghost use Rattle.lw_rounds.specs.Learner.{refinements_of};
ghost use Rattle.lw_report.specs.Ends.{IsWithoutLearner};
ghost use Rattle.lw_report.specs.Outcomes.{StandsOrWants, status_of};
ghost use Rattle.lw_report.specs.Writing.{TakesAll, TakesSome, said_text};

use crate::{Outcome, Said, say, status};
use lw_mealy::Mealy;
use lw_names::OutNames;
use lw_outside::Sink;
use lw_rounds::{Learned, Learner};
use lw_words::Kept;
use std::alloc::Global;

/// The end of a call of the program: its outcome with its exit status; the model where there is one, also where a later
/// write failed, with the learner that it was read off and how often that was refined; the recorded answers; and the
/// names of the outputs by which the model and the recorded answers are numbered, where a call has them.
#[derive(Drop)]
pub struct End {
    pub outcome: Outcome,
    pub status: u8,
    pub model: Option<Mealy>,
    pub kept: Kept,
    pub refinements: u32,
    pub learner: Option<Learner>,
    pub outputs: Option<OutNames>,
}

impl End {
    /// The end in this outcome, without a model, over these names of outputs.
    pub fn new(outcome: Outcome, kept: Kept, outputs: Option<OutNames>) -> End
        ensures outcome { result.outcome ≡ outcome }
        ensures status { result.status ≡ status_of outcome }
        ensures model { result.model ≡ None }
        ensures learner { IsWithoutLearner result }
        ensures kept { result.kept ≡ kept }
        ensures outputs { result.outputs ≡ outputs }
    {
        End {
            status: status(&outcome),
            outcome,
            model: None,
            kept,
            refinements: 0,
            learner: None,
            outputs,
        }
    }

    /// The end in this outcome, with what was learned, over these names of outputs.
    pub fn with_model(
        outcome: Outcome,
        learned: Learned,
        kept: Kept,
        outputs: Option<OutNames>,
    ) -> End
        ensures outcome { result.outcome ≡ outcome }
        ensures status { result.status ≡ status_of outcome }
        ensures model { result.model ≡ Some learned.model }
        ensures learner { result.learner ≡ Some learned.learner }
        ensures refinements { result.refinements ≡ refinements_of learned.learner }
        ensures kept { result.kept ≡ kept }
        ensures outputs { result.outputs ≡ outputs }
    {
        let refinements = learned.refinements();
        let Learned { model, learner } = learned;
        End {
            status: status(&outcome),
            outcome,
            model: Some(model),
            kept,
            refinements,
            learner: Some(learner),
            outputs,
        }
    }
}

/// Ends a call that has no model, over these named outputs: puts the outcome's text to `err`, with the names that a file has
/// said, if any.
pub fn refuse<E: Sink>(
    alloc: Global,
    outcome: Outcome,
    said: Said,
    kept: Kept,
    named: Option<OutNames>,
    extra: u8,
    err: &mut E,
) -> End
    ensures outcome { StandsOrWants outcome result.outcome }
    ensures status { result.status ≡ status_of result.outcome }
    ensures model { result.model ≡ None }
    ensures learner { IsWithoutLearner result }
    ensures kept { result.kept ≡ kept }
    ensures named { result.outputs ≡ named }
    ensures said { ¬ CountedFault (E.state err.old).faults (E.state err.new).faults →
        TakesAll (said_text (option_map (λ n. n.now) said.entry.inputs)
        (option_map (λ n. n.now) said.entry.outputs) kept.answers extra result.outcome)
        (E.state err.old).taken (E.state err.new).taken }
    ensures part { TakesSome (said_text (option_map (λ n. n.now) said.entry.inputs)
        (option_map (λ n. n.now) said.entry.outputs) kept.answers extra result.outcome)
        (E.state err.old).taken (E.state err.new).taken }
    ensures counts { (E.state err.old).faults ≤ (E.state err.new).faults }
{
    let outcome = say(alloc, outcome, said, &kept, extra, err);
    End::new(outcome, kept, named)
}

//! The command.
ghost use Rattle.std.specs.Prelude.{◌≡◌, ◌≢◌, ◌≤◌, [], None};
ghost use Rattle.lw_words.specs.Cause.{CountedFault};
ghost use Rattle.lw_report.specs.Ends.{IsWithoutLearner};
ghost use Rattle.lw_report.specs.Outcomes.{status_of};
ghost use Rattle.lw_report.specs.Writing.{TakesAll, TakesSome};
ghost use Rattle.lw_report.specs.declared.outcome.Outcome.{Outcome as Came};
ghost use Rattle.lw_compare.specs.CompareRun.{ComesTo, IsCompareRun, text};
ghost use Rattle.lw_compare.specs.Outcomes.{IsAnswered};
ghost use Rattle.lw_compare.specs.bodies.Telling.{HasCompared};

use crate::comparing::compare_models;
use crate::reading::read_models;
use crate::telling::tell;
use lw_json::Machine;
use lw_outside::{Files, Sink};
use lw_report::{End, Outcome, UNSAID, refuse};
use lw_words::Kept;
use std::alloc::Global;

/// The outcome of two models.
fn decide(alloc: Global, first: &Machine, second: &Machine) -> Outcome
    ensures { HasCompared first.now second.now result }
{
    match compare_models(alloc, first, second) {
        Ok(comparison) => Outcome::Compared(comparison),
        Err(_) => Outcome::NoMemory,
    }
}

/// Compares two models, and writes out the outcome.
fn finish<O: Sink, E: Sink>(
    alloc: Global,
    first: &Machine,
    second: &Machine,
    out: &mut O,
    err: &mut E,
) -> End
    ensures status { result.status ≡ status_of result.outcome }
    ensures model { result.model ≡ None }
    ensures learner { IsWithoutLearner result }
    ensures kept { result.kept.answers ≡ [] }
    ensures outputs { result.outputs ≡ None }
    ensures comes { ComesTo first.now second.now (O.state out.old) (O.state out.new)
        result.outcome }
    ensures written { IsAnswered result.outcome →
        TakesAll (text result.outcome) (O.state out.old).taken (O.state out.new).taken ×
        ((E.state err.new).taken ≡ (E.state err.old).taken) }
    ensures said { ¬ IsAnswered result.outcome → ¬ CountedFault (E.state err.old).faults
        (E.state err.new).faults → TakesAll (text result.outcome) (E.state err.old).taken
        (E.state err.new).taken }
    ensures said_part { ¬ IsAnswered result.outcome →
        TakesSome (text result.outcome) (E.state err.old).taken (E.state err.new).taken }
    ensures unwritten { ¬ IsAnswered result.outcome → result.outcome ≢ Came.SinkFault →
        O.state out.new ≡ O.state out.old }
    ensures quiet { IsAnswered result.outcome →
        ((O.state out.new).faults ≡ (O.state out.old).faults) ×
        ((E.state err.new).faults ≡ (E.state err.old).faults) }
    ensures counts { ((O.state out.old).faults ≤ (O.state out.new).faults) ×
        ((E.state err.old).faults ≤ (E.state err.new).faults) }
{
    let decision = decide(alloc, first, second);
    let outcome = tell(alloc, decision, first, out, err);
    let kept = Kept::new(alloc);
    End::new(outcome, kept, None)
}

/// `compare MODEL MODEL`: whether the models of two files give the same for every word, by names, or the shortlex-least word on
/// which they don't. Reads the first file, then the second; puts a verdict to `out`, and the text of every other outcome to `err`.
pub fn compare<F: Files, O: Sink, E: Sink>(
    alloc: Global,
    first: &str,
    second: &str,
    files: &mut F,
    out: &mut O,
    err: &mut E,
) -> End
    ensures status { result.status ≡ status_of result.outcome }
    ensures ran { IsCompareRun first.now second.now (F.state files.old) (F.state files.new)
        (O.state out.old) (O.state out.new) (E.state err.old) (E.state err.new) result }
    ensures counts { ((F.state files.old).faults ≤ (F.state files.new).faults) ×
        ((O.state out.old).faults ≤ (O.state out.new).faults) ×
        ((E.state err.old).faults ≤ (E.state err.new).faults) }
{
    match read_models(alloc, files, first, second) {
        Ok(models) => finish(alloc, &models.first, &models.second, out, err),
        Err(outcome) => refuse(alloc, outcome, UNSAID, Kept::new(alloc), None, 0, err),
    }
}

//! What the command writes.
ghost use Rattle.std.specs.Prelude.{◌≡◌, ◌≢◌, ◌⊎◌, ◌≤◌, [], true, false, None, Err, OnOk};
ghost use Rattle.lw_words.specs.Cause.{CountedFault};
ghost use Rattle.lw_compare.specs.Outcomes.{IsAnswered};
ghost use Rattle.lw_compare.specs.bodies.Telling.{IsTold};
ghost use Rattle.lw_report.specs.Text.{text_of};
ghost use Rattle.lw_report.specs.Writing.{TakesAll, TakesSome, said_text};
ghost use Rattle.lw_report.specs.declared.outcome.Outcome.{Outcome as Came};
ghost use Rattle.lw_report.specs.declared.role.Role.{Role as Part};
ghost use Rattle.lw_report.specs.declared.stops.TellStop.{TellStop as Stop};

use lw_json::Machine;
use lw_outside::{Sink, put_all};
use lw_report::{Comparison, Outcome, TellStop, UNSAID, say, text};
use lw_words::{Kept, Names};
use std::alloc::Global;

/// Whether an outcome says that two models are equal, or on which word they differ.
fn is_answered(outcome: &Outcome) -> bool
    ensures yes { result ≡ true → IsAnswered outcome.now }
    ensures no { result ≡ false → ¬ IsAnswered outcome.now }
{
    match outcome {
        Outcome::Compared(comparison) => match comparison {
            Comparison::OtherInputs { .. } => false,
            _ => true,
        },
        _ => false,
    }
}

/// Puts the text of a verdict on a model and another one.
fn put_verdict<O: Sink>(
    alloc: Global,
    outcome: &Outcome,
    inputs: &Names,
    outputs: &Names,
    kept: &Kept,
    out: &mut O,
) -> Result<(), TellStop>
    ensures ok { OnOk result
        (TakesAll (text_of inputs.now outputs.now kept.now.answers 0 outcome.now)
        (O.state out.old).taken (O.state out.new).taken) }
    ensures part { TakesSome (text_of inputs.now outputs.now kept.now.answers 0 outcome.now)
        (O.state out.old).taken (O.state out.new).taken }
    ensures memory { result ≡ Err Stop.NoMemory → (O.state out.new).taken ≡
        (O.state out.old).taken }
    ensures calm { result ≡ Err Stop.NoMemory → (O.state out.new).faults ≡
        (O.state out.old).faults }
    ensures failed { result ≡ Err Stop.Sink → CountedFault (O.state out.old).faults
        (O.state out.new).faults }
    ensures no_file { (role : Part) → ¬ (result ≡ Err (Stop.File role)) }
    ensures quiet { OnOk result ((O.state out.new).faults ≡ (O.state out.old).faults) }
    ensures counts { (O.state out.old).faults ≤ (O.state out.new).faults }
{
    let text = text(alloc, outcome, inputs, outputs, kept, 0)?;
    put_all(out, &text)?;
    Ok(())
}

/// Puts that two models are equal, or on which word they differ, to `out`, and the text of every other outcome to `err`.
pub(crate) fn tell<O: Sink, E: Sink>(
    alloc: Global,
    outcome: Outcome,
    first: &Machine,
    out: &mut O,
    err: &mut E,
) -> Outcome
    ensures outcome { IsTold outcome result }
    ensures refused { result ≡ Came.SinkFault → ¬ (outcome ≡ Came.SinkFault) →
        CountedFault (O.state out.old).faults (O.state out.new).faults }
    ensures written { IsAnswered result → TakesAll (said_text None None [] 0 result)
        (O.state out.old).taken (O.state out.new).taken }
    ensures part { TakesSome (said_text None None [] 0 outcome) (O.state out.old).taken
        (O.state out.new).taken }
    ensures unwritten { ¬ IsAnswered result → result ≢ Came.SinkFault → (O.state out.new).taken ≡
        (O.state out.old).taken }
    ensures uncounted { ¬ IsAnswered result → result ≢ Came.SinkFault → (O.state out.new).faults ≡
        (O.state out.old).faults }
    ensures quiet { IsAnswered result → ((O.state out.new).faults ≡ (O.state out.old).faults) ×
        ((E.state err.new).faults ≡ (E.state err.old).faults) }
    ensures said { ¬ IsAnswered result → ¬ CountedFault (E.state err.old).faults
        (E.state err.new).faults → TakesAll (said_text None None [] 0 result)
        (E.state err.old).taken (E.state err.new).taken }
    ensures said_part { ¬ IsAnswered result → TakesSome (said_text None None [] 0 result)
        (E.state err.old).taken (E.state err.new).taken }
    ensures silent { IsAnswered result → (E.state err.new).taken ≡ (E.state err.old).taken }
    ensures counts { ((O.state out.old).faults ≤ (O.state out.new).faults) ×
        ((E.state err.old).faults ≤ (E.state err.new).faults) }
{
    let kept = Kept::new(alloc);
    if !is_answered(&outcome) {
        return say(alloc, outcome, UNSAID, &kept, 0, err);
    }
    match put_verdict(alloc, &outcome, &first.inputs, &first.outputs, &kept, out) {
        Ok(()) => outcome,
        Err(stop) => say(alloc, Outcome::from(stop), UNSAID, &kept, 0, err),
    }
}

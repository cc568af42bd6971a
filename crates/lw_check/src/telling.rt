//! What the command writes.
ghost use Rattle.std.specs.Prelude.{◌≡◌, ◌≢◌, ◌⊎◌, ◌≤◌, true, false};
ghost use Rattle.lw_words.specs.Cause.{CountedFault};
ghost use Rattle.lw_check.specs.Decision.{IsYesOrNo};
ghost use Rattle.lw_check.specs.Telling.{OutcomeIsTold};
ghost use Rattle.lw_report.specs.Text.{text_of};
ghost use Rattle.lw_report.specs.Writing.{TakesAll, TakesSome};
ghost use Rattle.lw_report.specs.declared.outcome.Outcome.{Outcome as Came};

use lw_json::Machine;
use lw_outside::Sink;
use lw_report::{Outcome, Said, put_report, say};
use lw_words::Kept;
use std::alloc::Global;

/// Whether an outcome is a yes or a no.
fn is_answered(outcome: &Outcome) -> bool
    ensures yes { result ≡ true → IsYesOrNo outcome.now }
    ensures no { result ≡ false → ¬ IsYesOrNo outcome.now }
{
    match outcome {
        Outcome::Yes { .. } | Outcome::No(_) => true,
        _ => false,
    }
}

/// Puts a yes or a no to `out`, and the text of every other outcome to `err`.
pub(crate) fn tell<O: Sink, E: Sink>(
    alloc: Global,
    outcome: Outcome,
    machine: &Machine,
    kept: &Kept,
    extra: u8,
    out: &mut O,
    err: &mut E,
) -> Outcome
    ensures outcome { OutcomeIsTold outcome result }
    ensures refused { result ≡ Came.SinkFault → ¬ (outcome ≡ Came.SinkFault) →
        CountedFault (O.state out.old).faults (O.state out.new).faults }
    ensures written { IsYesOrNo result →
        TakesAll (text_of machine.now.inputs machine.now.outputs kept.now.answers extra result)
        (O.state out.old).taken (O.state out.new).taken }
    ensures part { TakesSome (text_of machine.now.inputs machine.now.outputs kept.now.answers
        extra outcome) (O.state out.old).taken (O.state out.new).taken }
    ensures unwritten { ¬ IsYesOrNo result → result ≢ Came.SinkFault → (O.state out.new).taken ≡
        (O.state out.old).taken }
    ensures quiet { IsYesOrNo result → ((O.state out.new).faults ≡ (O.state out.old).faults) ×
        ((E.state err.new).faults ≡ (E.state err.old).faults) }
    ensures left { ¬ IsYesOrNo outcome → (O.state out.new).taken ≡ (O.state out.old).taken }
    ensures said { ¬ IsYesOrNo result → ¬ CountedFault (E.state err.old).faults
        (E.state err.new).faults →
        TakesAll (text_of machine.now.inputs machine.now.outputs kept.now.answers extra result)
        (E.state err.old).taken (E.state err.new).taken }
    ensures said_part { ¬ IsYesOrNo result →
        TakesSome (text_of machine.now.inputs machine.now.outputs kept.now.answers extra result)
        (E.state err.old).taken (E.state err.new).taken }
    ensures silent { IsYesOrNo result → (E.state err.new).taken ≡ (E.state err.old).taken }
    ensures counts { ((O.state out.old).faults ≤ (O.state out.new).faults) ×
        ((E.state err.old).faults ≤ (E.state err.new).faults) }
{
    let (inputs, outputs) = (&machine.inputs, &machine.outputs);
    let said = Said {
        inputs: Some(inputs),
        outputs: Some(outputs),
    };
    if !is_answered(&outcome) {
        return say(alloc, outcome, said, kept, extra, err);
    }
    match put_report(alloc, &outcome, inputs, outputs, kept, extra, out) {
        Ok(()) => outcome,
        Err(stop) => say(alloc, Outcome::from(stop), said, kept, extra, err),
    }
}

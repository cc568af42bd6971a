//! What the command writes.
ghost use Rattle.std.specs.Prelude.{◌≡◌, ◌≤◌, ℕ, List, None, Some, Err, Option, OnOk, option_map};
ghost use Rattle.lw_words.specs.Cause.{CountedFault};
ghost use Rattle.lw_outside.specs.declared.links.StartFailure.{StartFailure as Cause};
ghost use Rattle.lw_outside.specs.Streams.{SinkState};
ghost use Rattle.lw_report.specs.Outcomes.{status_of};
ghost use Rattle.lw_report.specs.Text.{rechecked_line};
ghost use Rattle.lw_report.specs.Writing.{TakesAll, TakesSome};
ghost use Rattle.lw_report.specs.declared.outcome.Outcome.{Outcome as Came};
ghost use Rattle.lw_report.specs.declared.role.Role.{Role as Part};
ghost use Rattle.lw_report.specs.declared.stops.TellStop.{TellStop as Stop};
ghost use Rattle.lw_recheck.specs.Ending.{EndsSame, IsBare, IsEnd, IsTold};

use lw_outside::{Sink, put_all};
use lw_report::{End, Outcome, Said, TellStop, UNSAID, refuse, text};
use lw_words::{Kept, Names};
use std::alloc::Global;

/// Puts the line that this many answers were given again.
fn put_same<O: Sink>(
    alloc: Global,
    answers: u64,
    inputs: &Names,
    kept: &Kept,
    out: &mut O,
) -> Result<(), TellStop>
    ensures ok { OnOk result (TakesAll (rechecked_line answers) (O.state out.old).taken
        (O.state out.new).taken) }
    ensures part { TakesSome (rechecked_line answers) (O.state out.old).taken
        (O.state out.new).taken }
    ensures memory { result ≡ Err Stop.NoMemory → (O.state out.new).taken ≡
        (O.state out.old).taken }
    ensures calm { result ≡ Err Stop.NoMemory → (O.state out.new).faults ≡
        (O.state out.old).faults }
    ensures failed { result ≡ Err Stop.Sink → CountedFault (O.state out.old).faults
        (O.state out.new).faults }
    ensures no_file { (role : Part) → ¬ (result ≡ Err (Stop.File role)) }
    ensures quiet { OnOk result ((O.state out.new).faults ≡ (O.state out.old).faults) }
    ensures counts { (O.state out.old).faults ≤ (O.state out.new).faults }
{
    let outcome = Outcome::Rechecked { answers };
    let text = text(alloc, &outcome, inputs, inputs, kept, 0)?;
    put_all(out, &text)?;
    Ok(())
}

/// Ends a call in which this many answers were given again: puts the line to `out`, or the text of what came between to
/// `err`.
fn end_same<O: Sink, E: Sink>(
    alloc: Global,
    answers: u64,
    inputs: &Names,
    kept: Kept,
    out: &mut O,
    err: &mut E,
) -> End
    ensures status { result.status ≡ status_of result.outcome }
    ensures bare { IsBare kept.answers result }
    ensures started { (cause : Cause) → ¬ (result.outcome ≡ Came.Unstarted cause) }
    ensures same { EndsSame answers kept.answers (O.state out.old) (O.state out.new)
        (E.state err.old) (E.state err.new) result }
    ensures counts { ((O.state out.old).faults ≤ (O.state out.new).faults) ×
        ((E.state err.old).faults ≤ (E.state err.new).faults) }
{
    match put_same(alloc, answers, inputs, &kept, out) {
        Ok(()) => End::new(Outcome::Rechecked { answers }, kept, None),
        Err(stop) => refuse(alloc, Outcome::from(stop), UNSAID, kept, None, 0, err),
    }
}

/// Ends a call in this outcome: puts its text to `err`.
pub(crate) fn end_refused<E: Sink>(
    alloc: Global,
    outcome: Outcome,
    inputs: Option<&Names>,
    outputs: Option<&Names>,
    kept: Kept,
    err: &mut E,
) -> End
    ensures status { result.status ≡ status_of result.outcome }
    ensures bare { IsBare kept.answers result }
    ensures unstarted { (cause : Cause) → result.outcome ≡ Came.Unstarted cause →
        outcome ≡ Came.Unstarted cause }
    ensures told { (out : SinkState) → IsTold (option_map (λ n. n.now) inputs.entry)
        (option_map (λ n. n.now) outputs.entry) outcome kept.answers out out (E.state err.old)
        (E.state err.new) result }
    ensures counts { (E.state err.old).faults ≤ (E.state err.new).faults }
{
    let said = Said { inputs, outputs };
    refuse(alloc, outcome, said, kept, None, 0, err)
}

/// What came of asking a system again: the answers that are kept, the names of their outputs, where it was asked, and what it
/// comes to.
#[derive(Drop)]
pub(crate) struct Told {
    pub(crate) kept: Kept,
    pub(crate) names: Option<Names>,
    pub(crate) outcome: Outcome,
}

/// Ends a call over answers with these names of letters.
pub(crate) fn end_call<O: Sink, E: Sink>(
    alloc: Global,
    inputs: &Names,
    told: Told,
    out: &mut O,
    err: &mut E,
) -> End
    ensures status { result.status ≡ status_of result.outcome }
    ensures unstarted { (cause : Cause) → result.outcome ≡ Came.Unstarted cause →
        told.outcome ≡ Came.Unstarted cause }
    ensures ended { IsEnd (Some inputs.now) told.names told.outcome told.kept.answers
        (O.state out.old) (O.state out.new) (E.state err.old) (E.state err.new) result }
    ensures counts { ((O.state out.old).faults ≤ (O.state out.new).faults) ×
        ((E.state err.old).faults ≤ (E.state err.new).faults) }
{
    let Told {
        kept,
        names,
        outcome,
    } = told;
    match outcome {
        Outcome::Rechecked { answers } => end_same(alloc, answers, inputs, kept, out, err),
        other => end_refused(alloc, other, Some(inputs), names.as_ref(), kept, err),
    }
}

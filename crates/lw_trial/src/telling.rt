//! What is reported of a trial.
ghost use Rattle.std.specs.Prelude.{◌≡◌, ◌≢◌, ◌≤◌, length, Err, IfOk, OnOk};
ghost use Rattle.lw_words.specs.Cause.{CountedFault};
ghost use Rattle.lw_rounds.specs.Learner.{refinements_of};
ghost use Rattle.lw_report.specs.Text.{trial_lines};
ghost use Rattle.lw_report.specs.Writing.{TakesAll, TakesSome};
ghost use Rattle.lw_report.specs.declared.outcome.Tried.{Tried as Told};
ghost use Rattle.lw_report.specs.declared.role.Role.{Role as Part};
ghost use Rattle.lw_report.specs.declared.stops.TellStop.{TellStop as Stop};
ghost use Rattle.lw_trial.specs.bodies.Told.{IsToldOf};

use crate::TrialArguments;
use crate::comparing::is_canonical;
use lw_mealy::Mealy;
use lw_outside::Sink;
use lw_report::{Outcome, TellStop, Tried, put_report};
use lw_rounds::Learned;
use lw_words::{Kept, Names, NoMemory};
use std::alloc::Global;

/// A trial whose model was learned by this many answers.
fn tried(
    alloc: Global,
    arguments: &TrialArguments,
    machine: &Mealy,
    learned: &Learned,
    answers: usize,
) -> Result<Tried, NoMemory>
    requires alphabets { learned.now.model.inputs ≡ machine.now.inputs }
    ensures { IfOk result (IsToldOf arguments.now machine.now learned.now.model
        (refinements_of learned.now.learner) answers) }
{
    let equal = is_canonical(alloc, machine, &learned.model)?;
    Ok(Tried {
        states: arguments.states(),
        inputs: arguments.inputs(),
        seed: arguments.seed(),
        learned: learned.model.states(),
        refinements: learned.refinements(),
        answers: answers as u64,
        equal,
    })
}

/// Puts the text of a trial, in which no name stands, to `out`.
fn put_trial<O: Sink>(
    alloc: Global,
    tried: Tried,
    names: &Names,
    kept: &Kept,
    out: &mut O,
) -> Result<(), TellStop>
    ensures ok { OnOk result (TakesAll (trial_lines tried) (O.state out.old).taken
        (O.state out.new).taken) }
    ensures part { TakesSome (trial_lines tried) (O.state out.old).taken (O.state out.new).taken }
    ensures memory { result ≡ Err Stop.NoMemory → (O.state out.new).taken ≡
        (O.state out.old).taken }
    ensures failed { result ≡ Err Stop.Sink → CountedFault (O.state out.old).faults
        (O.state out.new).faults }
    ensures no_file { (role : Part) → ¬ (result ≡ Err (Stop.File role)) }
    ensures quiet { OnOk result ((O.state out.new).faults ≡ (O.state out.old).faults) }
    ensures counts { (O.state out.old).faults ≤ (O.state out.new).faults }
{
    put_report(alloc, &Outcome::Trial(tried), names, names, kept, 1, out)
}

/// Tells on `out` of a model that was learned of a machine.
pub(crate) fn tell<O: Sink>(
    alloc: Global,
    arguments: &TrialArguments,
    machine: &Mealy,
    names: &Names,
    learned: &Learned,
    kept: &Kept,
    out: &mut O,
) -> Result<Tried, TellStop>
    requires alphabets { learned.now.model.inputs ≡ machine.now.inputs }
    ensures told { IfOk result (IsToldOf arguments.now machine.now learned.now.model
        (refinements_of learned.now.learner) (length kept.now.answers)) }
    ensures ok { IfOk result (λ tried. TakesAll (trial_lines tried) (O.state out.old).taken
        (O.state out.new).taken) }
    ensures part { (O.state out.new).taken ≢ (O.state out.old).taken → (tried : Told) ×
        IsToldOf arguments.now machine.now learned.now.model (refinements_of learned.now.learner)
        (length kept.now.answers) tried × TakesSome (trial_lines tried) (O.state out.old).taken
        (O.state out.new).taken }
    ensures memory { result ≡ Err Stop.NoMemory → (O.state out.new).taken ≡
        (O.state out.old).taken }
    ensures failed { result ≡ Err Stop.Sink → CountedFault (O.state out.old).faults
        (O.state out.new).faults }
    ensures no_file { (role : Part) → ¬ (result ≡ Err (Stop.File role)) }
    ensures quiet { OnOk result ((O.state out.new).faults ≡ (O.state out.old).faults) }
    ensures counts { (O.state out.old).faults ≤ (O.state out.new).faults }
{
    let tried = tried(alloc, arguments, machine, learned, kept.len())?;
    put_trial(alloc, tried, names, kept, out)?;
    Ok(tried)
}

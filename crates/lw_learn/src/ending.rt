//! How a call ends whose system was learned: what is written of its model, and what is said of a stop.
ghost use Rattle.std.specs.Prelude.{◌≡◌, ◌≢◌, ◌⊎◌, ◌≤◌, [], length, Some, None, Ok, Err, IfErr, IfOk, IfSome};
ghost use Rattle.lw_words.specs.Cause.{CountedFault};
ghost use Rattle.lw_json.specs.KeptOver.{AreKeptOver};
ghost use Rattle.lw_rounds.specs.Learner.{refinements_of};
ghost use Rattle.lw_report.specs.Ends.{IsWithoutLearner};
ghost use Rattle.lw_report.specs.Learnings.{learn_outcome as outcome_of};
ghost use Rattle.lw_report.specs.Outcomes.{StandsOrWants, status_of};
ghost use Rattle.lw_report.specs.Text.{names_of as names_said, text_of};
ghost use Rattle.lw_report.specs.Writing.{TakesAll, TakesSome};
ghost use Rattle.lw_report.specs.declared.outcome.Outcome.{Outcome as Came};
ghost use Rattle.lw_report.specs.declared.role.Role.{Role as Part};
ghost use Rattle.lw_report.specs.declared.role.Role.TheVariants.{Kept as KeptRole};
ghost use Rattle.lw_learn.specs.Ending.{IsEndOf, IsToldOf, end_outputs};
ghost use Rattle.lw_learn.specs.Outcomes.{IsLearnedOutcome, IsUntold, ReportIsTold, told_of};
ghost use Rattle.lw_learn.specs.Saving.{MayTell};
ghost use Rattle.lw_system.specs.Goals.{IsSystemFor};
ghost use Rattle.lw_system.specs.Systems.{declared_of, letters_of};
ghost use Rattle.lw_learn.specs.Writing.{CountsStay, IsWritable, StaysBesides, TakesInTurn, WritesFiles, WritesOut, IsModelText, told_text};
ghost use Rattle.lw_learn.specs.declared.saving.Saved.TheVariants as Was;

use crate::naming::names_of;
use crate::reporting::model_report;
use crate::saving::save_kept;
use crate::writing::{NamedModel, Report, tell_model};
use crate::{LearnArguments, Saved};
use lw_json::Machine;
use lw_mealy::Mealy;
use lw_names::OutNames;
use lw_outside::{Files, Sink};
use lw_report::{End, Outcome, Said, UNSAID, learn_outcome, refuse, say};
use lw_rounds::{LearnStop, Learned};
use lw_system::{Goal, System};
use lw_words::{Kept, Names, NoMemory};
use lw_workers::LearningOutcome;
use std::alloc::Global;

/// How a learning ended, with the recorded answers, the names of their outputs, and whether these answers were saved.
#[derive(Drop)]
struct Ended<T> {
    came: T,
    kept: Kept,
    names: OutNames,
    saved: Saved,
}

/// Ends a call with its model, which is written out.
fn write_out<F: Files, O: Sink, E: Sink>(
    alloc: Global,
    arguments: &LearnArguments,
    model: NamedModel,
    report: Report,
    files: &mut F,
    out: &mut O,
    err: &mut E,
) -> End
    requires over { AreKeptOver (length model.machine.inputs) (length model.machine.outputs)
        model.kept.answers }
    requires tells { IsLearnedOutcome report.outcome }
    ensures outcome { ReportIsTold report.outcome result.outcome }
    ensures status { result.status ≡ status_of result.outcome }
    ensures model { result.model ≡ Some model.machine.mealy }
    ensures learner { result.learner ≡ Some model.learner }
    ensures refinements { result.refinements ≡ refinements_of model.learner }
    ensures kept { result.kept ≡ model.kept }
    ensures outputs { result.outputs ≡ model.outputs }
    ensures files { WritesFiles arguments.now report.text.items model.machine
        model.kept.answers result.outcome
        (F.state files.new).holds ((F.state files.old).calls, (F.state files.new).calls) }
    ensures out { WritesOut arguments.now.model report.text.items result.outcome
        ((O.state out.old).taken, (O.state out.new).taken)
        ((O.state out.old).faults, (O.state out.new).faults) }
    ensures beside { StaysBesides arguments.now.model arguments.now.answers None
        (F.state files.old).holds (F.state files.new).holds }
    ensures role { (role : Part) → result.outcome ≡ Came.FileFault role →
        IsWritable arguments.now role }
    ensures failed { (role : Part) → result.outcome ≡ Came.FileFault role → role ≢ KeptRole →
        CountedFault (F.state files.old).faults (F.state files.new).faults }
    ensures may { MayTell model.saved result.outcome }
    ensures refused { result.outcome ≡ Came.SinkFault → CountedFault (O.state out.old).faults
        (O.state out.new).faults ⊎ CountedFault (E.state err.old).faults
        (E.state err.new).faults }
    ensures said { ¬ CountedFault (E.state err.old).faults (E.state err.new).faults →
        TakesAll (told_text model.machine model.kept.answers arguments.now.extra result.outcome)
        (E.state err.old).taken (E.state err.new).taken }
    ensures part { TakesInTurn (told_text model.machine model.kept.answers arguments.now.extra
        report.outcome)
        (told_text model.machine model.kept.answers arguments.now.extra result.outcome)
        (E.state err.old).taken (E.state err.new).taken }
    ensures reads { (F.state files.new).reads ≡ (F.state files.old).reads }
    ensures quiet { IsLearnedOutcome result.outcome →
        CountsStay (F.state files.old) (F.state files.new) (O.state out.old) (O.state out.new)
        (E.state err.old) (E.state err.new) }
    ensures counts { ((F.state files.old).faults ≤ (F.state files.new).faults) ×
        ((O.state out.old).faults ≤ (O.state out.new).faults) ×
        ((E.state err.old).faults ≤ (E.state err.new).faults) }
{
    let outcome = tell_model(alloc, arguments, &model, report, files, out, err);
    let NamedModel {
        machine,
        learner,
        kept,
        outputs,
        saved: _,
    } = model;
    let learned = Learned {
        model: machine.mealy,
        learner,
    };
    End::with_model(outcome, learned, kept, outputs)
}

/// The names of outputs that an end has: of children that weren't declared only where something is kept.
fn outputs_of(system: &System, kept: &Kept, names: OutNames) -> Option<OutNames>
    ensures { result ≡ end_outputs (declared_of system.now) kept.now.answers names }
{
    if system.outputs().is_none() && kept.len() == 0 {
        return None;
    }
    Some(names)
}

/// A model with its names.
fn named(system: &System, names: &OutNames, model: Mealy, alloc: Global) -> Result<Machine, Mealy>
    requires inputs { model.inputs ≡ length (letters_of system.now) }
    requires outputs { model.outputs ≡ length names.now.names }
    requires few { length (letters_of system.now) ≤ 64 }
    ensures inputs { IfOk result (λ m. m.inputs ≡ letters_of system.now) }
    ensures outputs { IfOk result (λ m. m.outputs ≡ names.now.names) }
    ensures mealy { IfOk result (λ m. m.mealy ≡ model) }
    ensures back { IfErr result (λ m. m ≡ model) }
{
    match (system.inputs().copy(), names_of(alloc, names)) {
        (Ok(inputs), Ok(outputs)) => Ok(Machine {
            inputs,
            outputs,
            mealy: model,
        }),
        _ => Err(model),
    }
}

/// A model that isn't written out, and what is reported in its place.
#[derive(Drop)]
struct Untold {
    model: Mealy,
    outcome: Outcome,
}

/// A model with its names, and what is reported of it; or the model, and what is reported in its place.
fn reported(
    alloc: Global,
    goal: Goal,
    system: &System,
    names: &OutNames,
    model: Mealy,
    refinements: u32,
) -> Result<(Machine, Report), Untold>
    requires inputs { model.inputs ≡ length (letters_of system.now) }
    requires outputs { model.outputs ≡ length names.now.names }
    requires few { length (letters_of system.now) ≤ 64 }
    requires fits { IsSystemFor goal system.now }
    requires declared { IfSome (declared_of system.now) (λ own. names.now.names ≡ own) }
    ensures inputs { IfOk result (λ r. r.0.inputs ≡ letters_of system.now) }
    ensures outputs { IfOk result (λ r. r.0.outputs ≡ names.now.names) }
    ensures mealy { IfOk result (λ r. r.0.mealy ≡ model) }
    ensures text { IfOk result (λ r. IsModelText goal r.0 r.1.text.items) }
    ensures outcome { IfOk result (λ r. r.1.outcome ≡ told_of goal model refinements) }
    ensures back { IfErr result (λ u. u.model ≡ model) }
    ensures untold { IfErr result (λ u. IsUntold goal model.rows u.outcome) }
{
    let machine = match named(system, names, model, alloc) {
        Ok(machine) => machine,
        Err(model) => {
            let outcome = Outcome::NoMemory;
            return Err(Untold { model, outcome });
        }
    };
    match model_report(alloc, goal, &machine, refinements) {
        Ok(report) => Ok((machine, report)),
        Err(outcome) => {
            let model = machine.mealy;
            Err(Untold { model, outcome })
        }
    }
}

/// Ends a call with its model, which isn't written out: what is reported in its place goes to `err`.
fn leave_model<E: Sink>(
    alloc: Global,
    outcome: Outcome,
    learned: Learned,
    kept: Kept,
    outputs: Option<OutNames>,
    extra: u8,
    err: &mut E,
) -> End
    ensures outcome { StandsOrWants outcome result.outcome }
    ensures status { result.status ≡ status_of result.outcome }
    ensures model { result.model ≡ Some learned.model }
    ensures learner { result.learner ≡ Some learned.learner }
    ensures refinements { result.refinements ≡ refinements_of learned.learner }
    ensures kept { result.kept ≡ kept }
    ensures outputs { result.outputs ≡ outputs }
    ensures said { ¬ CountedFault (E.state err.old).faults (E.state err.new).faults →
        TakesAll (text_of [] [] kept.answers extra result.outcome) (E.state err.old).taken
        (E.state err.new).taken }
    ensures part { TakesSome (text_of [] [] kept.answers extra result.outcome)
        (E.state err.old).taken (E.state err.new).taken }
    ensures counts { (E.state err.old).faults ≤ (E.state err.new).faults }
{
    let outcome = say(alloc, outcome, UNSAID, &kept, extra, err);
    End::with_model(outcome, learned, kept, outputs)
}

/// Ends a call that has learned a model, which is written out.
fn end_model<F: Files, O: Sink, E: Sink>(
    alloc: Global,
    arguments: &LearnArguments,
    system: &System,
    ended: Ended<Learned>,
    files: &mut F,
    out: &mut O,
    err: &mut E,
) -> End
    requires few { length (letters_of system.now) ≤ 64 }
    requires fits { IsSystemFor arguments.now.goal system.now }
    requires declared { IfSome (declared_of system.now) (λ own. ended.names.names ≡ own) }
    requires sizes { (ended.came.model.inputs ≡ length (letters_of system.now)) ×
        (ended.came.model.outputs ≡ length ended.names.names) }
    requires over { AreKeptOver (length (letters_of system.now)) (length ended.names.names)
        ended.kept.answers }
    ensures status { result.status ≡ status_of result.outcome }
    ensures told { IsToldOf arguments.now system.now ended.names (Ok ended.came)
        ended.kept.answers ended.saved
        (F.state files.old) (F.state files.new) (O.state out.old) (O.state out.new)
        (E.state err.old) (E.state err.new) result }
{
    let Ended {
        came,
        kept,
        names,
        saved,
    } = ended;
    let Learned { model, learner } = came;
    let goal = arguments.goal();
    let read = reported(alloc, goal, system, &names, model, learner.refinements());
    let outputs = outputs_of(system, &kept, names);
    match read {
        Ok((machine, report)) => {
            let model = NamedModel {
                machine,
                learner,
                kept,
                outputs,
                saved,
            };
            write_out(alloc, arguments, model, report, files, out, err)
        }
        Err(untold) => {
            let Untold { model, outcome } = untold;
            let told = saved.outcome(outcome);
            let learned = Learned { model, learner };
            leave_model(alloc, told, learned, kept, outputs, arguments.extra(), err)
        }
    }
}

/// The names of outputs for a text: none where there are none.
pub(crate) fn text_names(alloc: Global, names: &OutNames) -> Result<Option<Names>, NoMemory>
    ensures { IfOk result (λ list. names_said list ≡ names.now.names) }
{
    if names.len() == 0 {
        return Ok(None);
    }
    Ok(Some(names_of(alloc, names)?))
}

/// Ends a call whose learning stopped.
fn end_stop<E: Sink>(
    alloc: Global,
    system: &System,
    ended: Ended<LearnStop>,
    extra: u8,
    err: &mut E,
) -> End
    ensures outcome { StandsOrWants (outcome_of ended.came) result.outcome }
    ensures wants { ended.saved ≡ Was.NoMemory → result.outcome ≡ Came.NoMemory }
    ensures status { result.status ≡ status_of result.outcome }
    ensures model { result.model ≡ None }
    ensures learner { IsWithoutLearner result }
    ensures kept { result.kept ≡ ended.kept }
    ensures outputs { result.outputs ≡ end_outputs (declared_of system.now) ended.kept.answers
        ended.names }
    ensures said { ¬ CountedFault (E.state err.old).faults (E.state err.new).faults →
        TakesAll (text_of (letters_of system.now) ended.names.names ended.kept.answers extra
        result.outcome)
        (E.state err.old).taken (E.state err.new).taken }
    ensures part { TakesSome (text_of (letters_of system.now) ended.names.names ended.kept.answers
        extra result.outcome) (E.state err.old).taken (E.state err.new).taken }
    ensures counts { (E.state err.old).faults ≤ (E.state err.new).faults }
{
    let Ended {
        came: stop,
        kept,
        names,
        saved,
    } = ended;
    let texts = text_names(alloc, &names);
    let outputs = outputs_of(system, &kept, names);
    let inputs = Some(system.inputs());
    match texts {
        Ok(texts) => {
            let outcome = saved.outcome(learn_outcome(stop));
            let said = Said {
                inputs,
                outputs: texts.as_ref(),
            };
            refuse(alloc, outcome, said, kept, outputs, extra, err)
        }
        Err(NoMemory) => {
            let said = Said {
                inputs,
                outputs: None,
            };
            refuse(alloc, Outcome::NoMemory, said, kept, outputs, extra, err)
        }
    }
}

/// Ends a call by what it learned, or by why it learned nothing, once what is kept was saved.
pub(crate) fn finish<F: Files, O: Sink, E: Sink>(
    alloc: Global,
    arguments: &LearnArguments,
    system: &System,
    found: LearningOutcome,
    files: &mut F,
    out: &mut O,
    err: &mut E,
) -> End
    requires few { length (letters_of system.now) ≤ 64 }
    requires fits { IsSystemFor arguments.now.goal system.now }
    requires declared { IfSome (declared_of system.now) (λ own. found.names.names ≡ own) }
    requires sizes { IfOk found.learned (λ l.
        (l.model.inputs ≡ length (letters_of system.now)) ×
        (l.model.outputs ≡ length found.names.names)) }
    requires over { AreKeptOver (length (letters_of system.now)) (length found.names.names)
        found.kept.answers }
    ensures status { result.status ≡ status_of result.outcome }
    ensures told { IsEndOf arguments.now system.now found.names found.learned found.kept.answers
        (F.state files.old) (F.state files.new) (O.state out.old) (O.state out.new)
        (E.state err.old) (E.state err.new) result }
{
    let LearningOutcome {
        learned,
        kept,
        names,
        cut,
    } = found;
    drop(cut);
    let saved = save_kept(alloc, arguments, system.inputs(), &names, &kept, files);
    match learned {
        Ok(came) => {
            let ended = Ended {
                came,
                kept,
                names,
                saved,
            };
            end_model(alloc, arguments, system, ended, files, out, err)
        }
        Err(came) => {
            let ended = Ended {
                came,
                kept,
                names,
                saved,
            };
            end_stop(alloc, system, ended, arguments.extra(), err)
        }
    }
}

//! How a call ends whose files were refused, or which had no memory for them: what was read stays, and what was
//! kept is saved.
ghost use Rattle.std.specs.Prelude.{◌≡◌, ◌⊎◌, ◌≤◌, [], length, option_and_then, option_map, Some, None, Ok, IfOk};
ghost use Rattle.lw_words.specs.Cause.{CountedFault};
ghost use Rattle.lw_json.specs.KeptOver.{AreKeptOver};
ghost use Rattle.lw_report.specs.Ends.{IsWithoutLearner};
ghost use Rattle.lw_report.specs.Outcomes.{status_of};
ghost use Rattle.lw_report.specs.Text.{names_of as names_said};
ghost use Rattle.lw_report.specs.Writing.{TakesAll, TakesSome, said_text};
ghost use Rattle.lw_report.specs.declared.outcome.Outcome.{Outcome as Came};
ghost use Rattle.lw_learn.specs.Saving.{HasSaved, IsSaved};
ghost use Rattle.lw_system.specs.Systems.{declared_of, letters_of};
ghost use Rattle.lw_learn.specs.Unread.{names_read};

use crate::reading::Unread;
use crate::saving::save_kept;
use crate::{LearnArguments, Saved};
use lw_names::OutNames;
use lw_outside::{Files, Sink};
use lw_report::{End, Outcome, Said, UNSAID, refuse};
use lw_system::System;
use lw_words::{Kept, Names, NoMemory};
use std::alloc::Global;

/// The declared names of outputs of a system that was read.
fn read_names(alloc: Global, system: &Option<System>) -> Result<Option<OutNames>, NoMemory>
    ensures { IfOk result (λ names. names ≡ names_read system.now) }
{
    let Some(system) = system else {
        return Ok(None);
    };
    match system.outputs() {
        Some(names) => Ok(Some(OutNames::declared(alloc, names)?)),
        None => Ok(None),
    }
}

/// The names of the letters of a system that was read.
pub(crate) fn letters_read(system: &Option<System>) -> Option<&Names>
    ensures { option_map (λ n. n.now) result ≡ option_map letters_of system.now }
{
    match system {
        Some(system) => Some(system.inputs()),
        None => None,
    }
}

/// The names of the outputs of a system that was read and declares them.
pub(crate) fn outputs_read(system: &Option<System>) -> Option<&Names>
    ensures { option_map (λ n. n.now) result ≡ option_and_then declared_of system.now }
{
    match system {
        Some(system) => system.outputs(),
        None => None,
    }
}

/// Ends a call that began no learning and kept nothing.
fn end_bare<E: Sink>(
    alloc: Global,
    outcome: Outcome,
    system: Option<System>,
    kept: Kept,
    extra: u8,
    err: &mut E,
) -> End
    requires none { kept.answers ≡ [] }
    ensures outcome { (result.outcome ≡ outcome) ⊎ (result.outcome ≡ Came.NoMemory) }
    ensures status { result.status ≡ status_of result.outcome }
    ensures model { result.model ≡ None }
    ensures learner { IsWithoutLearner result }
    ensures kept { result.kept.answers ≡ [] }
    ensures outputs { (result.outputs ≡ names_read system) ⊎
        ((result.outcome ≡ Came.NoMemory) × (result.outputs ≡ None)) }
    ensures said { ¬ CountedFault (E.state err.old).faults (E.state err.new).faults →
        TakesAll (said_text (option_map letters_of system) (option_and_then declared_of system)
        result.kept.answers extra result.outcome) (E.state err.old).taken
        (E.state err.new).taken }
    ensures part { TakesSome (said_text (option_map letters_of system)
        (option_and_then declared_of system) result.kept.answers extra result.outcome)
        (E.state err.old).taken (E.state err.new).taken }
    ensures counts { (E.state err.old).faults ≤ (E.state err.new).faults }
{
    let Ok(outputs) = read_names(alloc, &system) else {
        return refuse(alloc, Outcome::NoMemory, UNSAID, kept, None, extra, err);
    };
    let inputs = letters_read(&system);
    let names = outputs_read(&system);
    let said = Said {
        inputs,
        outputs: names,
    };
    refuse(alloc, outcome, said, kept, outputs, extra, err)
}

/// Saves the prior answers of a system that was read.
fn save_read<F: Files>(
    alloc: Global,
    arguments: &LearnArguments,
    system: &Option<System>,
    names: &OutNames,
    kept: &Kept,
    files: &mut F,
) -> Saved
    requires named { names_read system.now ≡ Some names.now }
    requires few { length (names_said (option_map letters_of system.now)) ≤ 64 }
    requires over { AreKeptOver (length (names_said (option_map letters_of system.now)))
        (length names.now.names) kept.now.answers }
    ensures { HasSaved arguments.now.kept (names_said (option_map letters_of system.now))
        (names_said (option_and_then declared_of system.now)) kept.now.answers (F.state files.old)
        (F.state files.new) result }
{
    let Some(system) = system else {
        unreachable!();
    };
    save_kept(alloc, arguments, system.inputs(), names, kept, files)
}

/// What was read of a task whose prior answers clash: its system, the recorded answers, and the names of their outputs.
#[derive(Drop)]
struct ReadTask {
    system: Option<System>,
    kept: Kept,
    names: OutNames,
}

/// Ends a call whose prior answers clash, which are kept, once they were saved.
fn end_kept<F: Files, E: Sink>(
    alloc: Global,
    arguments: &LearnArguments,
    outcome: Outcome,
    read: ReadTask,
    files: &mut F,
    err: &mut E,
) -> End
    requires named { names_read read.system ≡ Some read.names }
    requires few { length (names_said (option_map letters_of read.system)) ≤ 64 }
    requires over { AreKeptOver (length (names_said (option_map letters_of read.system)))
        (length read.names.names) read.kept.answers }
    ensures outcome { (result.outcome ≡ outcome) ⊎ (result.outcome ≡ Came.NoMemory) }
    ensures status { result.status ≡ status_of result.outcome }
    ensures model { result.model ≡ None }
    ensures learner { IsWithoutLearner result }
    ensures kept { result.kept.answers ≡ read.kept.answers }
    ensures outputs { result.outputs ≡ names_read read.system }
    ensures saved { IsSaved arguments.now.kept (names_said (option_map letters_of read.system))
        (names_said (option_and_then declared_of read.system)) read.kept.answers (F.state files.old)
        (F.state files.new) result.outcome }
    ensures said { ¬ CountedFault (E.state err.old).faults (E.state err.new).faults →
        TakesAll (said_text (option_map letters_of read.system)
        (option_and_then declared_of read.system)
        result.kept.answers arguments.now.extra result.outcome) (E.state err.old).taken
        (E.state err.new).taken }
    ensures part { TakesSome (said_text (option_map letters_of read.system)
        (option_and_then declared_of read.system) result.kept.answers arguments.now.extra
        result.outcome) (E.state err.old).taken (E.state err.new).taken }
    ensures counts { (E.state err.old).faults ≤ (E.state err.new).faults }
{
    let ReadTask {
        system,
        kept,
        names,
    } = read;
    let saved = save_read(alloc, arguments, &system, &names, &kept, files);
    let outcome = saved.outcome(outcome);
    let inputs = letters_read(&system);
    let outputs = outputs_read(&system);
    let extra = arguments.extra();
    let said = Said { inputs, outputs };
    refuse(alloc, outcome, said, kept, Some(names), extra, err)
}

/// Ends a call that began no learning, with what it kept of prior answers, once that was saved.
pub(crate) fn end_unread<F: Files, E: Sink>(
    alloc: Global,
    arguments: &LearnArguments,
    unread: Unread,
    files: &mut F,
    err: &mut E,
) -> End
    ensures outcome { (result.outcome ≡ unread.outcome) ⊎ (result.outcome ≡ Came.NoMemory) }
    ensures status { result.status ≡ status_of result.outcome }
    ensures model { result.model ≡ None }
    ensures learner { IsWithoutLearner result }
    ensures kept { result.kept.answers ≡ unread.kept }
    ensures outputs { (result.outputs ≡ names_read unread.system) ⊎
        ((result.outcome ≡ Came.NoMemory) × (result.outputs ≡ None) ×
        (result.kept.answers ≡ [])) }
    ensures saved { IsSaved arguments.now.kept (names_said (option_map letters_of unread.system))
        (names_said (option_and_then declared_of unread.system)) unread.kept (F.state files.old)
        (F.state files.new) result.outcome }
    ensures said { ¬ CountedFault (E.state err.old).faults (E.state err.new).faults →
        TakesAll (said_text (option_map letters_of unread.system)
        (option_and_then declared_of unread.system) result.kept.answers arguments.now.extra
        result.outcome) (E.state err.old).taken (E.state err.new).taken }
    ensures part { TakesSome (said_text (option_map letters_of unread.system)
        (option_and_then declared_of unread.system) result.kept.answers arguments.now.extra
        result.outcome) (E.state err.old).taken (E.state err.new).taken }
    ensures counts { (E.state err.old).faults ≤ (E.state err.new).faults }
{
    let Unread {
        outcome,
        system,
        kept,
        names,
    } = unread;
    match names {
        Some(names) => {
            let read = ReadTask {
                system,
                kept,
                names,
            };
            end_kept(alloc, arguments, outcome, read, files, err)
        }
        None => end_bare(alloc, outcome, system, kept, arguments.extra(), err),
    }
}

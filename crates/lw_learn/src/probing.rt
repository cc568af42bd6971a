//! The files that will be written, probed before the first child is started.
ghost use Rattle.std.specs.Prelude.{◌≡◌, ◌∷◌, [], Some, option_map};
ghost use Rattle.lw_learn.specs.Probes.{written_files};
ghost use Rattle.lw_learn.specs.bodies.Probing.{HasProbed, HasTried, IsProbedStage, unprobed_outcome};
ghost use Rattle.lw_report.specs.declared.role.Role.TheVariants.{Answers as AnswersRole, Kept as KeptRole, Model as ModelRole};

use crate::LearnArguments;
use crate::asking::read_worded;
use crate::reading::Unread;
use crate::task::{Task, WordedTask};
use lw_log::Log;
use lw_outside::{Files, LogFile, Sink, WriteStop};
use lw_report::{Outcome, Role};
use std::alloc::Global;

/// The outcome of a probe of the file in a role that didn't pass.
fn unprobed(role: Role, stop: WriteStop) -> Outcome
    ensures { result ≡ unprobed_outcome role stop }
{
    match stop {
        WriteStop::Failed => Outcome::FileFault(role),
        WriteStop::NoMemory => Outcome::NoMemory,
    }
}

/// Probes the file in a role.
fn probe_one<F: Files>(files: &mut F, role: Role, name: &str) -> Result<(), Outcome>
    ensures { HasProbed ((role, Some name.now) ∷ []) (F.state files.old) (F.state files.new)
        result }
{
    match files.probe(name) {
        Ok(()) => Ok(()),
        Err(stop) => Err(unprobed(role, stop)),
    }
}

/// Probes the file in a role, where one is named.
fn probe_named<F: Files>(files: &mut F, role: Role, name: Option<&str>) -> Result<(), Outcome>
    ensures { HasProbed ((role, option_map (λ n. n.now) name.entry) ∷ []) (F.state files.old)
        (F.state files.new) result }
{
    match name {
        Some(name) => probe_one(files, role, name),
        None => Ok(()),
    }
}

/// Probes the model's file, then the answers'.
fn probe_told<F: Files>(arguments: &LearnArguments, files: &mut F) -> Result<(), Outcome>
    ensures { HasProbed ((ModelRole, arguments.now.model) ∷ (AnswersRole, arguments.now.answers)
        ∷ []) (F.state files.old) (F.state files.new) result }
{
    match probe_named(files, Role::Model, arguments.model()) {
        Ok(()) => probe_named(files, Role::Answers, arguments.answers()),
        Err(outcome) => Err(outcome),
    }
}

/// Probes the recorded answers' file, then the model's and the answers'.
fn probe_saved<F: Files>(arguments: &LearnArguments, files: &mut F) -> Result<(), Outcome>
    ensures { HasProbed ((KeptRole, arguments.now.kept) ∷ (ModelRole, arguments.now.model) ∷
        (AnswersRole, arguments.now.answers) ∷ []) (F.state files.old) (F.state files.new)
        result }
{
    match probe_named(files, Role::Kept, arguments.kept()) {
        Ok(()) => probe_told(arguments, files),
        Err(outcome) => Err(outcome),
    }
}

/// Probes the files that will be written, in the order in which they are, up to the first that can't be.
fn probe_files<F: Files>(arguments: &LearnArguments, files: &mut F) -> Result<(), Outcome>
    ensures { HasProbed (written_files arguments.now) (F.state files.old) (F.state files.new)
        result }
{
    match probe_named(files, Role::Last, arguments.last()) {
        Ok(()) => probe_saved(arguments, files),
        Err(outcome) => Err(outcome),
    }
}

/// Why a task isn't begun of which a file can't be written: its prior answers are let go, so that nothing is written.
fn unwritable(alloc: Global, worded: WordedTask, outcome: Outcome) -> Unread
    ensures outcome { result.outcome ≡ outcome }
    ensures system { result.system ≡ Some worded.task.system }
    ensures kept { result.kept ≡ [] }
{
    let WordedTask {
        task,
        words: _words,
    } = worded;
    let Task {
        system,
        names: _names,
        cache: _cache,
    } = task;
    Unread::bare(alloc, outcome, Some(system))
}

/// The task, where the files that will be written can be, as far as that is seen before.
fn probe_for<F: Files>(
    alloc: Global,
    arguments: &LearnArguments,
    worded: WordedTask,
    files: &mut F,
) -> Result<WordedTask, Unread>
    ensures { HasTried arguments.now worded (F.state files.old) (F.state files.new) result }
{
    match probe_files(arguments, files) {
        Ok(()) => Ok(worded),
        Err(outcome) => Err(unwritable(alloc, worded, outcome)),
    }
}

/// Reads what is to be learned and the words that are asked first, and then probes the files that will be written.
pub(crate) fn read_probed<F: Files, L: LogFile, N: Sink>(
    alloc: Global,
    arguments: &LearnArguments,
    files: &mut F,
    log: &mut Log<L, N>,
) -> Result<WordedTask, Unread>
    ensures { IsProbedStage arguments.now (F.state files.old) (F.state files.new) result }
{
    match read_worded(alloc, arguments, files, log) {
        Ok(worded) => probe_for(alloc, arguments, worded, files),
        Err(unread) => Err(unread),
    }
}

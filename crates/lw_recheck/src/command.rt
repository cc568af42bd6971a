//! The command.
ghost use Rattle.std.specs.Prelude.{◌≡◌, ◌<◌, ◌≤◌, length};
ghost use Rattle.lw_outside.specs.declared.links.StartFailure.{StartFailure as Cause};
ghost use Rattle.lw_json.specs.KeptOver.{AreKeptOver};
ghost use Rattle.lw_report.specs.Outcomes.{status_of};
ghost use Rattle.lw_report.specs.declared.outcome.Outcome.{Outcome as Came};
ghost use Rattle.lw_system.specs.Systems.{FitsSystem, HasWords, letters_of};
ghost use Rattle.lw_recheck.specs.Outcomes.{came_outcome};
ghost use Rattle.lw_recheck.specs.RecheckRun.{AsksTask, IsRecheckRun, RechecksCommand, RechecksMachine, RechecksSystem};

use crate::RecheckArguments;
use crate::child::recheck_child;
use crate::keeping::{RecheckEnd, recheck_session};
use crate::reading::{Task, read_both};
use crate::telling::{Told, end_call, end_refused};
use lw_cache::Clash;
use lw_json::{Answers, Command, Machine};
use lw_outside::{Files, Sink, Spawner};
use lw_report::{End, Outcome, start_outcome, system_outcome};
use lw_sul::{Session, TableSul};
use lw_system::System;
use lw_words::{Kept, Names, RunStop};
use std::alloc::Global;

/// The outcome of asking this many answers again: a child is the one of instance 0.
fn came_outcome(answers: u64, came: Result<Option<Clash>, RunStop>) -> Outcome
    ensures { result ≡ came_outcome answers came }
{
    match came {
        Ok(None) => Outcome::Rechecked { answers },
        Ok(Some(clash)) => Outcome::Nondeterministic(clash),
        Err(RunStop::Sul(stop)) => system_outcome(0, stop),
        Err(RunStop::NoMemory) => Outcome::NoMemory,
    }
}

/// What came of asking this many answers again.
fn told_of(answers: u64, asked: RecheckEnd) -> Told
    ensures kept { result.kept.answers ≡ asked.kept.answers }
    ensures names { result.names ≡ Some asked.names }
    ensures outcome { result.outcome ≡ came_outcome answers asked.came }
{
    let RecheckEnd { kept, names, came } = asked;
    Told {
        kept,
        names: Some(names),
        outcome: came_outcome(answers, came),
    }
}

/// Asks a machine again.
fn recheck_table(alloc: Global, machine: Machine, outputs: Names, kept: Kept) -> Told
    requires { AreKeptOver (length machine.inputs) (length outputs) kept.answers }
    ensures { RechecksMachine machine outputs kept.answers result.names result.kept.answers
        result.outcome }
{
    let count = kept.len() as u64;
    let mut session = Session::new(alloc, 0, TableSul::new(machine.mealy, machine.outputs));
    let asked = recheck_session(alloc, &mut session, outputs, kept);
    told_of(count, asked)
}

/// Asks a child of a command again.
fn recheck_command<P: Spawner>(
    alloc: Global,
    command: Command,
    outputs: Names,
    kept: Kept,
    spawner: &mut P,
) -> Told
    requires command { 0 < length command.words }
    requires over { AreKeptOver (length command.inputs) (length outputs) kept.answers }
    ensures asks { RechecksCommand command outputs kept.answers (P.state spawner.old)
        (P.state spawner.new) result.names result.kept.answers result.outcome }
    ensures why { (cause : Cause) → result.outcome ≡ Came.Unstarted cause →
        cause ≡ (P.state spawner.new).cause }
{
    let count = kept.len() as u64;
    let Command {
        words,
        inputs,
        outputs: declared,
    } = command;
    match recheck_child(
        alloc,
        spawner,
        words.get(),
        &inputs,
        declared,
        outputs,
        kept,
    ) {
        Ok(asked) => told_of(count, asked),
        Err(stop) => Told {
            kept: Kept::new(alloc),
            names: None,
            outcome: start_outcome(spawner, stop),
        },
    }
}

/// Asks a system again.
fn recheck_system<P: Spawner>(
    alloc: Global,
    system: System,
    outputs: Names,
    kept: Kept,
    spawner: &mut P,
) -> Told
    requires command { HasWords system }
    requires over { AreKeptOver (length (letters_of system)) (length outputs) kept.answers }
    ensures asks { RechecksSystem system outputs kept.answers (P.state spawner.old)
        (P.state spawner.new) result.names result.kept.answers result.outcome }
    ensures why { (cause : Cause) → result.outcome ≡ Came.Unstarted cause →
        cause ≡ (P.state spawner.new).cause }
{
    match system {
        System::Table(machine) => recheck_table(alloc, machine, outputs, kept),
        System::Children(command) => recheck_command(alloc, command, outputs, kept, spawner),
    }
}

/// Asks a system that was read again, and ends the call.
fn recheck_task<P: Spawner, O: Sink, E: Sink>(
    alloc: Global,
    task: Task,
    spawner: &mut P,
    out: &mut O,
    err: &mut E,
) -> End
    requires command { HasWords task.system }
    requires fits { FitsSystem task.answers task.system }
    ensures status { result.status ≡ status_of result.outcome }
    ensures asks { AsksTask task.system task.answers (P.state spawner.old) (P.state spawner.new)
        (O.state out.old) (O.state out.new) (E.state err.old) (E.state err.new) result }
    ensures why { (cause : Cause) → result.outcome ≡ Came.Unstarted cause →
        cause ≡ (P.state spawner.new).cause }
    ensures counts { ((O.state out.old).faults ≤ (O.state out.new).faults) ×
        ((E.state err.old).faults ≤ (E.state err.new).faults) }
{
    let Task { system, answers } = task;
    let Answers {
        inputs,
        outputs,
        kept,
    } = answers;
    let told = recheck_system(alloc, system, outputs, kept, spawner);
    end_call(alloc, &inputs, told, out, err)
}

/// Asks the words of answers again, in their order, of a system: of one child, which is started and retired again whatever comes,
/// or of the machine that the setup names. First the setup's file is read, with the table file that it names, and the answers'
/// file, whose names have to be the system's. That each answer was given again is put to `out`; the text of every other
/// outcome, of the first run that came out otherwise too, goes to `err`. May wait for the child.
pub fn recheck<F: Files, P: Spawner, O: Sink, E: Sink>(
    alloc: Global,
    arguments: &RecheckArguments,
    files: &mut F,
    spawner: &mut P,
    out: &mut O,
    err: &mut E,
) -> End
    ensures status { result.status ≡ status_of result.outcome }
    ensures ran { IsRecheckRun arguments.now (F.state files.old) (F.state files.new)
        (P.state spawner.old) (P.state spawner.new) (O.state out.old) (O.state out.new)
        (E.state err.old) (E.state err.new) result }
    // Why no child was started is what the spawner tells.
    ensures why { (cause : Cause) → result.outcome ≡ Came.Unstarted cause →
        cause ≡ (P.state spawner.new).cause }
    // No count of faults falls.
    ensures counts { ((F.state files.old).faults ≤ (F.state files.new).faults) ×
        ((O.state out.old).faults ≤ (O.state out.new).faults) ×
        ((E.state err.old).faults ≤ (E.state err.new).faults) }
{
    match read_both(alloc, arguments.setup(), arguments.answers(), files) {
        Ok(task) => recheck_task(alloc, task, spawner, out, err),
        Err(outcome) => end_refused(alloc, outcome, None, None, Kept::new(alloc), err),
    }
}

//! The learning of a system that was read.
ghost use Rattle.std.specs.Prelude.{◌≡◌, ◌<◌, ◌≤◌, ◌^◌, [], length, IfOk, IfErr, IfSome, OnOk, Some, None, option_map};
ghost use Rattle.std.specs.List.{All};
ghost use Rattle.lw_words.specs.Word.{answers_of, IsWord};
ghost use Rattle.lw_cache.specs.Clash.{NothingClashes};
ghost use Rattle.lw_json.specs.KeptOver.{AreKeptOver};
ghost use Rattle.lw_pool.specs.Opening.{MayBegin};
ghost use Rattle.lw_workers.specs.Asking.{AnswersWords};
ghost use Rattle.lw_workers.specs.Plain.{RunsAsPlain};
ghost use Rattle.lw_system.specs.NewLines.{count_of};
ghost use Rattle.lw_children.specs.Children.{IsOfCommand};
ghost use Rattle.lw_rounds.specs.Learned.{IsEnoughFor};
ghost use Rattle.lw_learn.specs.Findings.{IsOfInstances, IsOfSystem, LearningStopsBy};
ghost use Rattle.lw_system.specs.declared.system.System.TheVariants as Of;
ghost use Rattle.lw_system.specs.Systems.{declared_of, letters_of};
ghost use Rattle.lw_learn.specs.bodies.Ready.{GivesModel, IsReady};

use crate::LearnArguments;
use crate::journal::{head_journal, write_journal};
use lw_children::learn_children;
use lw_json::{Command, Machine};
use lw_outside::Spawner;
use lw_rounds::Watcher;
use lw_system::System;
use lw_workers::{LearningOutcome, Start, learn_machine};
use std::alloc::Global;
use std::sync::Wait;
use std::thread::Threads;

/// Learns a machine, over this many instances of it.
fn learn_table<R: Threads + Wait + Sync + Drop, W: Watcher>(
    rt: R,
    alloc: Global,
    arguments: &LearnArguments,
    machine: &Machine,
    start: Start,
    watcher: &mut W,
) -> LearningOutcome
    requires ready { IsReady (Of.Table machine.now) start.names start.cache }
    requires letters { All (IsWord (length machine.now.inputs)) start.words }
    requires batch { length start.words < 2 ^ 32 }
    ensures found { IsOfInstances arguments.now machine.now start.cache.kept result.learned
        result.kept.answers result.names.names }
    ensures enough { IfOk result.learned (λ l. IsEnoughFor arguments.now.testing
        (length machine.now.inputs) arguments.now.extra (answers_of result.kept.answers) l.model) }
    ensures asked { OnOk result.learned (AnswersWords start.words result.kept.answers) }
    ensures plainly { RunsAsPlain arguments.now.learner arguments.now.testing
        (length machine.now.inputs) arguments.now.extra arguments.now.max_states start.words
        result.learned start.cache.kept result.kept.answers }
    ensures few { arguments.now.workers ≤ 16 }
{
    let settings = arguments.settings();
    learn_machine(
        rt,
        alloc,
        &machine.mealy,
        &machine.outputs,
        start,
        settings,
        watcher,
    )
}

/// Learns children by their command.
fn learn_command<P: Spawner, R: Threads + Wait + Sync + Drop, W: Watcher>(
    rt: R,
    alloc: Global,
    spawner: &mut P,
    arguments: &LearnArguments,
    command: &Command,
    start: Start,
    watcher: &mut W,
) -> LearningOutcome
    requires ready { IsReady (Of.Children command.now) start.names start.cache }
    requires letters { All (IsWord (length command.now.inputs)) start.words }
    requires batch { length start.words < 2 ^ 32 }
    ensures found { IsOfCommand arguments.now.learner command.now.words command.now.inputs
        command.now.outputs arguments.now.workers arguments.now.extra arguments.now.max_states
        start.cache.kept (P.state spawner.old) (P.state spawner.new) result.learned
        result.kept.answers result.names.names }
    ensures enough { IfOk result.learned (λ l. IsEnoughFor arguments.now.testing
        (length command.now.inputs) arguments.now.extra (answers_of result.kept.answers) l.model) }
    ensures asked { OnOk result.learned (AnswersWords start.words result.kept.answers) }
    ensures plainly { RunsAsPlain arguments.now.learner arguments.now.testing
        (length command.now.inputs) arguments.now.extra arguments.now.max_states start.words
        result.learned start.cache.kept result.kept.answers }
    ensures few { arguments.now.workers ≤ 16 }
{
    let settings = arguments.settings();
    head_journal(alloc, arguments, &command.inputs, spawner);
    learn_children(rt, alloc, spawner, command, start, settings, watcher)
}

/// Learns a system behind prior answers.
pub(crate) fn learn_system<P: Spawner, R: Threads + Wait + Sync + Drop, W: Watcher>(
    rt: R,
    alloc: Global,
    spawner: &mut P,
    arguments: &LearnArguments,
    system: &System,
    start: Start,
    watcher: &mut W,
) -> LearningOutcome
    requires ready { IsReady system.now start.names start.cache }
    requires letters { All (IsWord (length (letters_of system.now))) start.words }
    requires batch { length start.words < 2 ^ 32 }
    ensures found { IsOfSystem arguments.now system.now start.cache.kept (P.state spawner.old)
        (P.state spawner.new) result.learned result.kept.answers result.names.names }
    ensures model { IfOk result.learned
        (GivesModel arguments.now.learner arguments.now.testing (length (letters_of system.now))
        (length result.names.names) arguments.now.extra arguments.now.max_states
        result.kept.answers) }
    ensures sizes { IfOk result.learned (λ l.
        (l.model.inputs ≡ length (letters_of system.now)) ×
        (l.model.outputs ≡ length result.names.names)) }
    ensures stops { IfErr result.learned (LearningStopsBy (length (letters_of system.now))
        (count_of (declared_of system.now)) arguments.now.extra arguments.now.max_states
        (answers_of result.kept.answers)) }
    ensures over { AreKeptOver (length (letters_of system.now)) (length result.names.names)
        result.kept.answers }
    ensures named { IfSome (declared_of system.now) (λ own. result.names.names ≡ own) }
    ensures asked { OnOk result.learned (AnswersWords start.words result.kept.answers) }
    ensures plainly { RunsAsPlain arguments.now.learner arguments.now.testing
        (length (letters_of system.now)) arguments.now.extra arguments.now.max_states start.words
        result.learned start.cache.kept result.kept.answers }
{
    match system {
        System::Table(machine) => {
            let outcome = learn_table(rt, alloc, arguments, machine, start, watcher);
            let LearningOutcome { kept, names, .. } = &outcome;
            write_journal(alloc, arguments, &machine.inputs, names, kept, spawner);
            outcome
        }
        System::Children(command) => learn_command(
            rt, alloc, spawner, arguments, command, start, watcher,
        ),
    }
}

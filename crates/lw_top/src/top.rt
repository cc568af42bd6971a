//! The call that does all that the program does.
ghost use Rattle.std.specs.Prelude.{◌≡◌, ◌⊎◌, ◌++◌, ◌≤◌, [], false, codes, None, IfOk, OnOk, string_bytes};
ghost use Rattle.lw_words.specs.Cause.{CountedFault};
ghost use Rattle.lw_report.specs.Ends.{IsWithoutLearner};
ghost use Rattle.lw_report.specs.Outcomes.{status_of};
ghost use Rattle.lw_report.specs.Text.{usage_lines};
ghost use Rattle.lw_report.specs.Writing.{TakesAll, TakesSome};
ghost use Rattle.lw_report.specs.declared.outcome.Outcome.{Outcome as Came};
ghost use Rattle.lw_top.specs.Call.{call_of};
ghost use Rattle.lw_top.specs.CommandLine.{may_log, texts};
ghost use Rattle.lw_top.specs.Promises.{AcceptedIsRight, CausesAreTold, KeptAreRuns, LearnedIsRight, ModelIsReached, YesIsRight};
ghost use Rattle.lw_top.specs.Run.{IsRun, TellsNoMemory, TellsOutcome, TellsReason, argument_outcome};
ghost use Rattle.lw_top.specs.Untaken.{reason_line};
ghost use Rattle.lw_top.specs.World.{seen};
ghost use Rattle.lw_top.specs.declared.values.ArgumentStop.{ArgumentStop as Stop};

use crate::ArgumentStop;
use crate::call::{Call, read_call};
use crate::help::help;
use crate::refused::log_refused;
use crate::untaken::told_reason;
use lw_ask::ask;
use lw_check::check;
use lw_compare::compare;
use lw_learn::{begin_journal, learn};
use lw_log::Log;
use lw_outside::{Files, LogFile, Sink, Source, Spawner, World, put_all};
use lw_recheck::recheck;
use lw_report::{End, Outcome, UNSAID, outcome_text, refuse};
use lw_serve::serve;
use lw_trial::trial;
use lw_words::{Kept, NoMemory};
use std::alloc::Global;
use std::sync::Wait;
use std::thread::Threads;

/// The end of a call whose arguments weren't taken.
fn refuse_arguments<E: Sink>(alloc: Global, stop: ArgumentStop, err: &mut E) -> End
    ensures outcome { result.outcome ≡ argument_outcome stop }
    ensures status { result.status ≡ status_of result.outcome }
    ensures ended { TellsOutcome (E.state err.old) (E.state err.new) result }
    ensures counts { (E.state err.old).faults ≤ (E.state err.new).faults }
{
    refuse(
        alloc,
        Outcome::from(stop),
        UNSAID,
        Kept::new(alloc),
        None,
        0,
        err,
    )
}

/// Appends a line.
fn push_line(text: &mut String, line: &str) -> Result<(), NoMemory>
    ensures { OnOk result (string_bytes text.new ≡ string_bytes text.old ++
        (line.now ++ codes "\n")) }
{
    text.push_str(line)?;
    text.push_str("\n")?;
    Ok(())
}

/// The usage, and behind it why no command takes the arguments.
fn refusal(alloc: Global, arguments: &[String]) -> Result<String, NoMemory>
    ensures { IfOk result (λ text. string_bytes text ≡
        usage_lines ++ reason_line (texts arguments.now)) }
{
    let mut text = outcome_text(alloc, &Outcome::Usage, None, None, &Kept::new(alloc), 0)?;
    let reason = told_reason(alloc, arguments)?;
    push_line(&mut text, reason.as_str())?;
    Ok(text)
}

/// The end of a call whose arguments no command takes, with that text.
fn refuse_with<E: Sink>(alloc: Global, text: &str, err: &mut E) -> End
    ensures outcome { result.outcome ≡ Came.Usage }
    ensures status { result.status ≡ status_of result.outcome }
    ensures model { result.model ≡ None }
    ensures learner { IsWithoutLearner result }
    ensures kept { result.kept.answers ≡ [] }
    ensures outputs { result.outputs ≡ None }
    ensures said { ¬ CountedFault (E.state err.old).faults (E.state err.new).faults →
        TakesAll text.now (E.state err.old).taken (E.state err.new).taken }
    ensures part { TakesSome text.now (E.state err.old).taken (E.state err.new).taken }
    ensures counts { (E.state err.old).faults ≤ (E.state err.new).faults }
{
    let _refused = put_all(err, text.as_bytes()).is_err();
    End::new(Outcome::Usage, Kept::new(alloc), None)
}

/// The end of a call whose arguments no command takes, with the reason; or memory runs out for it.
fn refuse_usage<E: Sink>(alloc: Global, arguments: &[String], err: &mut E) -> End
    ensures status { result.status ≡ status_of result.outcome }
    ensures ended { TellsReason (texts arguments.now) (E.state err.old) (E.state err.new) result ⊎
        TellsNoMemory (E.state err.old) (E.state err.new) result }
    ensures counts { (E.state err.old).faults ≤ (E.state err.new).faults }
{
    match refusal(alloc, arguments) {
        Ok(text) => refuse_with(alloc, text.as_str(), err),
        Err(_) => without_arguments(alloc, err),
    }
}

/// The end of a call whose arguments weren't taken.
fn refuse_call<E: Sink>(alloc: Global, arguments: &[String], stop: ArgumentStop, err: &mut E) -> End
    ensures usage { result.outcome ≡ Came.Usage → stop ≡ Stop.Usage }
    ensures status { result.status ≡ status_of result.outcome }
    ensures ended { TellsReason (texts arguments.now) (E.state err.old) (E.state err.new) result ⊎
        TellsNoMemory (E.state err.old) (E.state err.new) result }
    ensures counts { (E.state err.old).faults ≤ (E.state err.new).faults }
{
    match stop {
        ArgumentStop::Usage => refuse_usage(alloc, arguments, err),
        ArgumentStop::NoMemory => without_arguments(alloc, err),
    }
}

/// The end of a call for whose arguments there was no memory.
pub fn without_arguments<E: Sink>(alloc: Global, err: &mut E) -> End
    ensures outcome { result.outcome ≡ Came.NoMemory }
    ensures status { result.status ≡ 5 }
    ensures ended { TellsOutcome (E.state err.old) (E.state err.new) result }
    ensures counts { (E.state err.old).faults ≤ (E.state err.new).faults }
{
    refuse_arguments(alloc, ArgumentStop::NoMemory, err)
}

/// What `run` does, by the command that the arguments name.
fn run_call<
    R: Threads + Wait + Sync + Drop,
    F: Files,
    P: Spawner,
    I: Source,
    O: Sink,
    E: Sink,
    L: LogFile,
    N: Sink,
>(rt: R, alloc: Global, arguments: &[String], world: &mut World<F, P, I, O, E, Log<L, N>>) -> End
    ensures ran { IsRun (texts arguments.now)
        (seen F.state P.state I.state O.state E.state (λ l. l.state) world.old)
        (seen F.state P.state I.state O.state E.state (λ l. l.state) world.new) result }
    ensures unlogged { may_log (texts arguments.now) ≡ false →
        world.new.log ≡ world.old.log }
{
    let call = match read_call(alloc, arguments) {
        Ok(call) => call,
        Err(stop) => {
            log_refused(alloc, arguments, stop, &mut world.log);
            return refuse_call(alloc, arguments, stop, &mut world.err);
        }
    };
    let World {
        files,
        spawner,
        input,
        out,
        err,
        log: _,
    } = world;
    match call {
        Call::Learn(values) => {
            let values = begin_journal(values, spawner);
            learn(rt, alloc, &values, world)
        }
        Call::Check(values) => check(alloc, &values, files, out, err),
        Call::Trial(values) => trial(rt, alloc, &values, out, err),
        Call::Serve(model) => serve(alloc, model.as_str(), files, input, out, err),
        Call::Ask(values) => ask(alloc, &values, files, spawner, out, err),
        Call::Compare(pair) => compare(alloc, pair.first(), pair.second(), files, out, err),
        Call::Recheck(values) => recheck(alloc, &values, files, spawner, out, err),
        Call::Help(topic) => help(alloc, topic, out, err),
    }
}

/// All that the program does. `arguments` are those of the command line, without the program's own name; the first names the
/// command. Each command has its own contract; a call whose arguments aren't taken touches nothing but `err`, and the log that
/// arguments of `learn` or `accept` name. Nothing but these two writes to a log. May wait for a child and for a turn of its
/// workers, and `serve` for its input.
pub fn run<
    R: Threads + Wait + Sync + Drop,
    F: Files,
    P: Spawner,
    I: Source,
    O: Sink,
    E: Sink,
    L: LogFile,
    N: Sink,
>(rt: R, alloc: Global, arguments: &[String], world: &mut World<F, P, I, O, E, Log<L, N>>) -> End
    ensures learned { LearnedIsRight (call_of (texts arguments.now)) result }
    ensures yes { YesIsRight (call_of (texts arguments.now)) (F.state world.old.files)
        (F.state world.new.files) result.outcome }
    ensures kept { KeptAreRuns (call_of (texts arguments.now))
        (seen F.state P.state I.state O.state E.state (λ l. l.state) world.old)
        (seen F.state P.state I.state O.state E.state (λ l. l.state) world.new) result }
    ensures reached { ModelIsReached (call_of (texts arguments.now))
        (seen F.state P.state I.state O.state E.state (λ l. l.state) world.old)
        (seen F.state P.state I.state O.state E.state (λ l. l.state) world.new) result }
    ensures accepted { AcceptedIsRight (call_of (texts arguments.now))
        (seen F.state P.state I.state O.state E.state (λ l. l.state) world.old)
        (seen F.state P.state I.state O.state E.state (λ l. l.state) world.new) result }
    ensures causes { CausesAreTold (call_of (texts arguments.now))
        (seen F.state P.state I.state O.state E.state (λ l. l.state) world.old)
        (seen F.state P.state I.state O.state E.state (λ l. l.state) world.new) result }
    ensures ran { IsRun (texts arguments.now)
        (seen F.state P.state I.state O.state E.state (λ l. l.state) world.old)
        (seen F.state P.state I.state O.state E.state (λ l. l.state) world.new) result }
    ensures unlogged { may_log (texts arguments.now) ≡ false →
        world.new.log ≡ world.old.log }
{
    run_call(rt, alloc, arguments, world)
}

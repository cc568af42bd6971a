//! The command.
ghost use Rattle.std.specs.Prelude.{◌≡◌, ◌≤◌, ◌<◌, [], IfOk, None, Some};
ghost use Rattle.lw_words.specs.Word.{answers_of};
ghost use Rattle.lw_mealy.specs.Machine.{IsWithinLimits};
ghost use Rattle.lw_rounds.specs.Learned.{IsEnoughFor, IsLearned};
ghost use Rattle.lw_rounds.specs.Learner.{refinements_of};
ghost use Rattle.lw_rounds.specs.Plain.{by_suites};
ghost use Rattle.lw_chunks.specs.Size.{suite_size, greatest_suite};
ghost use Rattle.lw_workers.specs.Machines.{KeepsRuns};
ghost use Rattle.lw_report.specs.Outcomes.{status_of};
ghost use Rattle.lw_trial.specs.TrialRun.{IsTrialRun, IsTriedPlainly, drawn_machine, drawn_naming, drawn_outputs};

use crate::telling::tell;
use crate::{TrialArguments, drawn};
use lw_cache::Cache;
use lw_mealy::Mealy;
use lw_names::OutNames;
use lw_outside::Sink;
use lw_report::{End, Outcome, UNSAID, learn_outcome, refuse, say};
use lw_rounds::{Learned, Settings, Testing, Unwatched};
use lw_words::{Kept, Names, NoMemory, Words};
use lw_workers::{LearningOutcome, Start, learn_machine};
use std::alloc::Global;
use std::sync::Wait;
use std::thread::Threads;

/// The extra states that a model is sure up to.
const EXTRA: u8 = 1;

/// The greatest number of states.
const MOST_STATES: u16 = 1024;

/// A machine that was drawn, and the names of its outputs.
#[derive(Drop)]
struct Drawn {
    machine: Mealy,
    outputs: Names,
}

/// A model that was learned, with the recorded answers and the names of their outputs.
#[derive(Drop)]
struct Found {
    learned: Learned,
    kept: Kept,
    names: OutNames,
}

/// The names of the two outputs, `0` and `1`.
fn output_names(alloc: Global) -> Result<Names, NoMemory>
    ensures { IfOk result (λ names. names ≡ drawn_outputs) }
{
    let mut list = Vec::with_capacity(alloc, 2)?;
    list.push(String::from_str(alloc, "0")?)?;
    list.push(String::from_str(alloc, "1")?)?;
    match Names::from_list(alloc, &list) {
        Ok(names) => Ok(names),
        Err(_) => Err(NoMemory),
    }
}

/// Draws the machine of the arguments. Beside it stand its outputs once more, as a learning takes them.
fn draw(alloc: Global, arguments: &TrialArguments) -> Result<(Drawn, OutNames), NoMemory>
    ensures machine { IfOk result (λ d. d.0.machine ≡ drawn_machine arguments.now) }
    ensures complete { IfOk result (λ d. IsWithinLimits d.0.machine) }
    ensures outputs { IfOk result (λ d. d.0.outputs ≡ drawn_outputs) }
    ensures named { IfOk result (λ d. d.1 ≡ drawn_naming) }
{
    let outputs = output_names(alloc)?;
    let machine = drawn(
        alloc,
        arguments.states(),
        arguments.inputs(),
        arguments.seed(),
    )?;
    let named = OutNames::declared(alloc, &outputs)?;
    Ok((Drawn { machine, outputs }, named))
}

/// Ends a call that learned a model: tells of it on `out`, or says on `err` why not.
fn report<O: Sink, E: Sink>(
    alloc: Global,
    arguments: &TrialArguments,
    drawn: &Drawn,
    found: Found,
    out: &mut O,
    err: &mut E,
) -> End
    requires machine { drawn.now.machine ≡ drawn_machine arguments.now }
    requires learned { IsLearned arguments.now.learner arguments.now.inputs 2 1 1024
        (answers_of found.kept.answers) found.learned.model found.learned.learner }
    requires enough { IsEnoughFor (by_suites arguments.now.suite) arguments.now.inputs 1
        (answers_of found.kept.answers) found.learned.model }
    requires kept { KeepsRuns (drawn_machine arguments.now) arguments.now.workers []
        found.kept.answers }
    requires plainly { IsTriedPlainly arguments.now found.learned.model.rows
        (refinements_of found.learned.learner) found.kept.answers }
    requires named { found.names ≡ drawn_naming }
    requires reached { suite_size arguments.now.states arguments.now.inputs 1 ≤ greatest_suite →
        refinements_of found.learned.learner < arguments.now.states }
    ensures status { result.status ≡ status_of result.outcome }
    ensures ran { IsTrialRun arguments.now (O.state out.old) (O.state out.new) (E.state err.old)
        (E.state err.new) result }
    ensures counts { ((O.state out.old).faults ≤ (O.state out.new).faults) ×
        ((E.state err.old).faults ≤ (E.state err.new).faults) }
{
    let Found {
        learned,
        kept,
        names,
    } = found;
    match tell(
        alloc,
        arguments,
        &drawn.machine,
        &drawn.outputs,
        &learned,
        &kept,
        out,
    ) {
        Ok(tried) => End::with_model(Outcome::Trial(tried), learned, kept, Some(names)),
        Err(stop) => {
            let outcome = say(alloc, Outcome::from(stop), UNSAID, &kept, EXTRA, err);
            End::with_model(outcome, learned, kept, Some(names))
        }
    }
}

/// Learns a machine that was drawn, and ends the call.
fn learn<R: Threads + Wait + Sync + Drop, O: Sink, E: Sink>(
    rt: R,
    alloc: Global,
    arguments: &TrialArguments,
    drawn: &Drawn,
    named: OutNames,
    out: &mut O,
    err: &mut E,
) -> End
    requires machine { drawn.now.machine ≡ drawn_machine arguments.now }
    requires complete { IsWithinLimits drawn.now.machine }
    requires outputs { drawn.now.outputs ≡ drawn_outputs }
    requires named { named ≡ drawn_naming }
    ensures status { result.status ≡ status_of result.outcome }
    ensures ran { IsTrialRun arguments.now (O.state out.old) (O.state out.new) (E.state err.old)
        (E.state err.new) result }
    ensures counts { ((O.state out.old).faults ≤ (O.state out.new).faults) ×
        ((E.state err.old).faults ≤ (E.state err.new).faults) }
{
    let start = Start {
        names: named,
        cache: Cache::new(alloc),
        words: Words::new(alloc),
    };
    let settings = Settings {
        workers: arguments.workers(),
        kind: arguments.learner(),
        extra: EXTRA,
        max_states: MOST_STATES,
        testing: Testing::by(arguments.suite()),
    };
    let LearningOutcome {
        learned,
        kept,
        names,
        cut: _,
    } = learn_machine(
        rt,
        alloc,
        &drawn.machine,
        &drawn.outputs,
        start,
        settings,
        &mut Unwatched,
    );
    match learned {
        Ok(learned) => {
            let found = Found {
                learned,
                kept,
                names,
            };
            report(alloc, arguments, drawn, found, out, err)
        }
        Err(stop) => {
            let outcome = learn_outcome(stop);
            refuse(alloc, outcome, UNSAID, kept, Some(names), EXTRA, err)
        }
    }
}

/// `trial --states N --inputs A --seed S [--workers N] [--learner table|ttt] [--suite w|wp|h]`: draws a machine, learns it over
/// this many instances with a learner of that kind and suites that are made so, and tells on `out` what was learned and
/// whether that is the machine. The text of every other outcome goes to `err`.
pub fn trial<R: Threads + Wait + Sync + Drop, O: Sink, E: Sink>(
    rt: R,
    alloc: Global,
    arguments: &TrialArguments,
    out: &mut O,
    err: &mut E,
) -> End
    ensures status { result.status ≡ status_of result.outcome }
    ensures ran { IsTrialRun arguments.now (O.state out.old) (O.state out.new) (E.state err.old)
        (E.state err.new) result }
    ensures counts { ((O.state out.old).faults ≤ (O.state out.new).faults) ×
        ((E.state err.old).faults ≤ (E.state err.new).faults) }
{
    match draw(alloc, arguments) {
        Ok((drawn, named)) => learn(rt, alloc, arguments, &drawn, named, out, err),
        Err(NoMemory) => refuse(
            alloc,
            Outcome::NoMemory,
            UNSAID,
            Kept::new(alloc),
            None,
            EXTRA,
            err,
        ),
    }
}

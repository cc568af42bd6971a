//! The command.
ghost use Rattle.std.specs.Prelude.{◌≡◌, ◌≤◌, [], None};
ghost use Rattle.lw_words.specs.Cause.{CountedFault};
ghost use Rattle.lw_report.specs.Ends.{IsWithoutLearner};
ghost use Rattle.lw_report.specs.Outcomes.{StandsOrWants, status_of};
ghost use Rattle.lw_report.specs.Stops.{read_outcome};
ghost use Rattle.lw_report.specs.Writing.{TakesAll, TakesSome, said_text};
ghost use Rattle.lw_report.specs.declared.role.Role.TheVariants.{Model as ModelRole};
ghost use Rattle.lw_serve.specs.Outcomes.{served_outcome};
ghost use Rattle.lw_serve.specs.ServeRun.{IsServeRun};
ghost use Rattle.lw_serve.specs.bodies.Served.{HasServed};

use lw_json::{JsonFault, Machine};
use lw_line::{ServeFault, Served};
use lw_outside::{Files, Sink, Source};
use lw_report::{End, Outcome, Role, UNSAID, read_outcome, refuse};
use lw_system::{ReadStop, read_machine_file};
use lw_words::Kept;
use std::alloc::Global;

/// The outcome of serving a machine.
fn played_outcome(served: Result<Served, ServeFault>) -> Outcome
    ensures { result ≡ served_outcome served }
{
    match served {
        Ok(served) => Outcome::Served(served),
        Err(ServeFault::SourceFault) => Outcome::SourceFault,
        Err(ServeFault::SinkFault) => Outcome::SinkFault,
        Err(ServeFault::BadLine(number)) => Outcome::BadAsk(number),
    }
}

/// The end of a call that read no machine.
fn refuse_model<E: Sink>(alloc: Global, stop: ReadStop<JsonFault>, err: &mut E) -> End
    ensures outcome { StandsOrWants (read_outcome ModelRole stop) result.outcome }
    ensures status { result.status ≡ status_of result.outcome }
    ensures model { result.model ≡ None }
    ensures learner { IsWithoutLearner result }
    ensures kept { result.kept.answers ≡ [] }
    ensures outputs { result.outputs ≡ None }
    ensures said { ¬ CountedFault (E.state err.old).faults (E.state err.new).faults →
        TakesAll (said_text None None [] 0 result.outcome) (E.state err.old).taken
        (E.state err.new).taken }
    ensures part { TakesSome (said_text None None [] 0 result.outcome) (E.state err.old).taken
        (E.state err.new).taken }
    ensures counts { (E.state err.old).faults ≤ (E.state err.new).faults }
{
    refuse(
        alloc,
        read_outcome(stop, Role::Model),
        UNSAID,
        Kept::new(alloc),
        None,
        0,
        err,
    )
}

/// Plays a machine that was read, and ends the call.
fn play<I: Source, O: Sink, E: Sink>(
    alloc: Global,
    machine: &Machine,
    input: &mut I,
    out: &mut O,
    err: &mut E,
) -> End
    ensures status { result.status ≡ status_of result.outcome }
    ensures model { result.model ≡ None }
    ensures learner { IsWithoutLearner result }
    ensures kept { result.kept.answers ≡ [] }
    ensures outputs { result.outputs ≡ None }
    ensures served { HasServed machine.now (I.state input.old) (I.state input.new)
        (O.state out.old) (O.state out.new) result.outcome }
    ensures said { ¬ CountedFault (E.state err.old).faults (E.state err.new).faults →
        TakesAll (said_text None None [] 0 result.outcome) (E.state err.old).taken
        (E.state err.new).taken }
    ensures part { TakesSome (said_text None None [] 0 result.outcome) (E.state err.old).taken
        (E.state err.new).taken }
    ensures counts { ((I.state input.old).faults ≤ (I.state input.new).faults) ×
        ((I.state input.old).ends ≤ (I.state input.new).ends) ×
        ((O.state out.old).faults ≤ (O.state out.new).faults) ×
        ((E.state err.old).faults ≤ (E.state err.new).faults) }
{
    let served = lw_line::serve(input, out, machine);
    refuse(
        alloc,
        played_outcome(served),
        UNSAID,
        Kept::new(alloc),
        None,
        0,
        err,
    )
}

/// `serve MODEL`: reads the model file and plays its machine as a child, which is asked on `input` and answers on `out`. The
/// text of every outcome goes to `err`; of a child that was served nothing is said. May wait for its input.
pub fn serve<F: Files, I: Source, O: Sink, E: Sink>(
    alloc: Global,
    model: &str,
    files: &mut F,
    input: &mut I,
    out: &mut O,
    err: &mut E,
) -> End
    ensures status { result.status ≡ status_of result.outcome }
    ensures ran { IsServeRun model.now (F.state files.old) (F.state files.new) (I.state input.old)
        (I.state input.new) (O.state out.old) (O.state out.new) (E.state err.old)
        (E.state err.new) result }
    ensures counts { ((F.state files.old).faults ≤ (F.state files.new).faults) ×
        ((I.state input.old).faults ≤ (I.state input.new).faults) ×
        ((I.state input.old).ends ≤ (I.state input.new).ends) ×
        ((O.state out.old).faults ≤ (O.state out.new).faults) ×
        ((E.state err.old).faults ≤ (E.state err.new).faults) }
{
    match read_machine_file(alloc, files, model) {
        Ok(machine) => play(alloc, &machine, input, out, err),
        Err(stop) => refuse_model(alloc, stop, err),
    }
}

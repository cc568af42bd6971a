//! The command.
ghost use Rattle.std.specs.Prelude.{◌≡◌, ◌≢◌, ◌⊎◌, ◌≤◌, ℕ, None, string_bytes};
ghost use Rattle.lw_json.specs.Formats.{IsAnswersFile, IsMachineFile};
ghost use Rattle.lw_json.specs.declared.files.Answers.{Answers as Given};
ghost use Rattle.lw_json.specs.declared.files.Machine.{Machine as Model};
ghost use Rattle.lw_check.specs.Decision.{IsYesOrNo, IsDecision, Pair, pair_of};
ghost use Rattle.lw_words.specs.Cause.{CountedFault};
ghost use Rattle.lw_report.specs.Text.{text_of};
ghost use Rattle.lw_report.specs.Writing.{TakesAll, TakesSome};
ghost use Rattle.lw_check.specs.Naming.{NamesOutputs};
ghost use Rattle.lw_check.specs.CheckRun.{IsCheckRun};
ghost use Rattle.lw_check.specs.Ending.{ComesTo, DecidesAs, EndsPairRead, EndsUnread};
ghost use Rattle.lw_system.specs.Reading.{TellsFile};
ghost use Rattle.lw_check.specs.Reading.{ReadsPair};
ghost use Rattle.lw_mealy.specs.Machine.{IsWithinLimits, Sure};
ghost use Rattle.lw_words.specs.Word.{answers_of};
ghost use Rattle.lw_report.specs.Ends.{IsWithoutLearner};
ghost use Rattle.lw_report.specs.Outcomes.{status_of};
ghost use Rattle.lw_report.specs.declared.outcome.Outcome.{Outcome as Came};

use crate::CheckArguments;
use crate::deciding::{Decided, decide};
use crate::reading::{Read, read_named};
use crate::telling::tell;
use lw_chunks::Method;
use lw_json::{Answers, Machine};
use lw_outside::{Files, Sink};
use lw_report::{End, UNSAID, refuse};
use lw_words::Kept;
use std::alloc::Global;

/// Decides on a model and answers, and writes out the outcome.
fn finish<O: Sink, E: Sink>(
    alloc: Global,
    machine: Machine,
    answers: Answers,
    extra: u8,
    method: Method,
    out: &mut O,
    err: &mut E,
) -> End
    requires few { extra ≤ 4 }
    ensures status { result.status ≡ status_of result.outcome }
    ensures model { result.model ≡ None }
    ensures learner { IsWithoutLearner result }
    ensures kept { result.kept.answers ≡ answers.kept.answers }
    ensures outputs { NamesOutputs (pair_of machine answers) result.outcome result.outputs }
    ensures complete { IsWithinLimits machine.mealy }
    ensures comes { ComesTo method (pair_of machine answers) extra (O.state out.old)
        (O.state out.new) result.outcome }
    ensures written { IsYesOrNo result.outcome →
        TakesAll (text_of machine.inputs machine.outputs answers.kept.answers extra
        result.outcome) (O.state out.old).taken (O.state out.new).taken ×
        ((E.state err.new).taken ≡ (E.state err.old).taken) }
    ensures said { ¬ IsYesOrNo result.outcome → ¬ CountedFault (E.state err.old).faults
        (E.state err.new).faults →
        TakesAll (text_of machine.inputs machine.outputs answers.kept.answers extra
        result.outcome) (E.state err.old).taken (E.state err.new).taken }
    ensures said_part { ¬ IsYesOrNo result.outcome →
        TakesSome (text_of machine.inputs machine.outputs answers.kept.answers extra
        result.outcome) (E.state err.old).taken (E.state err.new).taken }
    ensures unwritten { ¬ IsYesOrNo result.outcome → result.outcome ≢ Came.SinkFault →
        (O.state out.new).taken ≡ (O.state out.old).taken }
    ensures quiet { IsYesOrNo result.outcome →
        ((O.state out.new).faults ≡ (O.state out.old).faults) ×
        ((E.state err.new).faults ≡ (E.state err.old).faults) }
    ensures counts { ((O.state out.old).faults ≤ (O.state out.new).faults) ×
        ((E.state err.old).faults ≤ (E.state err.new).faults) }
{
    let _states = machine.mealy.states();
    let Decided {
        outcome: decision,
        outputs,
    } = decide(alloc, &machine, &answers, extra, method);
    let outcome = tell(alloc, decision, &machine, &answers.kept, extra, out, err);
    End::new(outcome, answers.kept, outputs)
}

/// `check (MODEL | --acceptor FILE) ANSWERS [--extra K] [--suite w|wp|h]`: whether the answers of a file fix the model of a file
/// among all machines of at most this many states more, by that method. The model is a machine, or the machine that is
/// asked in place of an acceptor. Reads the model file, then the answers file; puts a yes or a no to `out`, and the
/// text of every other outcome to `err`.
pub fn check<F: Files, O: Sink, E: Sink>(
    alloc: Global,
    arguments: &CheckArguments,
    files: &mut F,
    out: &mut O,
    err: &mut E,
) -> End
    ensures status { result.status ≡ status_of result.outcome }
    ensures ran { IsCheckRun arguments.now.goal arguments.now.suite
        (string_bytes arguments.now.model) (string_bytes arguments.now.answers)
        arguments.now.extra (F.state files.old) (F.state files.new) (O.state out.old)
        (O.state out.new) (E.state err.old) (E.state err.new) result }
    ensures counts { ((F.state files.old).faults ≤ (F.state files.new).faults) ×
        ((O.state out.old).faults ≤ (O.state out.new).faults) ×
        ((E.state err.old).faults ≤ (E.state err.new).faults) }
{
    let Read { machine, answers } = match read_named(alloc, files, arguments) {
        Ok(read) => read,
        Err(outcome) => {
            let kept = Kept::new(alloc);
            return refuse(alloc, outcome, UNSAID, kept, None, arguments.extra, err);
        }
    };
    let (extra, method) = (arguments.extra, arguments.suite);
    finish(alloc, machine, answers, extra, method, out, err)
}

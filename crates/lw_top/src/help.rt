//! The command `help`: puts out the commands, or the arguments of one.
ghost use Rattle.std.specs.Prelude.{◌≡◌, ◌++◌, ◌≤◌, [], None, Err, IfOk, OnOk, map, string_bytes};
ghost use Rattle.std.specs.List.{flat_map};
ghost use Rattle.lw_words.specs.Cause.{CountedFault};
ghost use Rattle.lw_report.specs.Ends.{IsWithoutLearner};
ghost use Rattle.lw_report.specs.Outcomes.{StandsOrWants, status_of};
ghost use Rattle.lw_report.specs.Stops.{tell_outcome};
ghost use Rattle.lw_report.specs.Writing.{TakesAll, TakesSome};
ghost use Rattle.lw_report.specs.declared.outcome.Outcome.{Outcome as Came};
ghost use Rattle.lw_report.specs.declared.role.Role.{Role as Part};
ghost use Rattle.lw_report.specs.declared.stops.TellStop.{TellStop as Stop};
ghost use Rattle.lw_top.specs.HelpCommand.{overview, topic_text};
ghost use Rattle.lw_top.specs.HelpRun.{IsHelpRun};
ghost use Rattle.lw_top.specs.HelpTexts.{command_line};
ghost use Rattle.lw_top.specs.Run.{TellsOutcome};
ghost use Rattle.lw_top.specs.Syntaxes.{syntax_values};

use crate::arguments::help::{Topic, commands};
use crate::options::Syntax;
use crate::pages::{page, push_command};
use lw_outside::{Sink, put_all};
use lw_report::{End, Outcome, TellStop, UNSAID, refuse};
use lw_words::{Kept, NoMemory};
use std::alloc::{AllocError, Global};

/// Appends commands, a line each.
fn push_commands(text: &mut String, list: &[&Syntax]) -> Result<(), AllocError>
    ensures { OnOk result (string_bytes text.new ≡ string_bytes text.old ++
        flat_map command_line (map (λ s. syntax_values s.now) list.now)) }
{
    for syntax in list {
        push_command(text, syntax)?;
    }
    Ok(())
}

/// All commands, a line each.
fn overview(alloc: Global) -> Result<String, AllocError>
    ensures { IfOk result (λ text. string_bytes text ≡ overview) }
{
    let mut text = String::new(alloc);
    push_commands(&mut text, &commands())?;
    Ok(text)
}

/// What is put out.
fn topic_page(alloc: Global, topic: Topic) -> Result<String, NoMemory>
    ensures { IfOk result (λ text. string_bytes text ≡ topic_text topic) }
{
    match topic {
        Topic::All => Ok(overview(alloc)?),
        Topic::One(syntax) => Ok(page(alloc, syntax)?),
    }
}

/// Puts it out.
fn put_topic<O: Sink>(alloc: Global, topic: Topic, out: &mut O) -> Result<(), TellStop>
    ensures ok { OnOk result (TakesAll (topic_text topic) (O.state out.old).taken
        (O.state out.new).taken) }
    ensures part { TakesSome (topic_text topic) (O.state out.old).taken (O.state out.new).taken }
    ensures memory { result ≡ Err Stop.NoMemory → O.state out.new ≡ O.state out.old }
    ensures failed { result ≡ Err Stop.Sink → CountedFault (O.state out.old).faults
        (O.state out.new).faults }
    ensures no_file { (role : Part) → ¬ (result ≡ Err (Stop.File role)) }
    ensures quiet { OnOk result ((O.state out.new).faults ≡ (O.state out.old).faults) }
    ensures counts { (O.state out.old).faults ≤ (O.state out.new).faults }
{
    let text = topic_page(alloc, topic)?;
    put_all(out, text.as_bytes())?;
    Ok(())
}

/// The end of a call whose text was put out.
fn helped(alloc: Global) -> End
    ensures outcome { result.outcome ≡ Came.Helped }
    ensures status { result.status ≡ status_of result.outcome }
    ensures model { result.model ≡ None }
    ensures learner { IsWithoutLearner result }
    ensures kept { result.kept.answers ≡ [] }
    ensures outputs { result.outputs ≡ None }
{
    End::new(Outcome::Helped, Kept::new(alloc), None)
}

/// The end of a call whose text was not put out.
fn refuse_help<E: Sink>(alloc: Global, stop: TellStop, err: &mut E) -> End
    ensures outcome { StandsOrWants (tell_outcome stop) result.outcome }
    ensures status { result.status ≡ status_of result.outcome }
    ensures ended { TellsOutcome (E.state err.old) (E.state err.new) result }
    ensures counts { (E.state err.old).faults ≤ (E.state err.new).faults }
{
    refuse(
        alloc,
        Outcome::from(stop),
        UNSAID,
        Kept::new(alloc),
        None,
        0,
        err,
    )
}

/// `help [COMMAND]`: puts the commands to `out`, or one with its arguments. Of a fault the text goes to `err`.
pub(crate) fn help<O: Sink, E: Sink>(alloc: Global, topic: Topic, out: &mut O, err: &mut E) -> End
    ensures status { result.status ≡ status_of result.outcome }
    ensures ran { IsHelpRun (topic_text topic) (O.state out.old) (O.state out.new)
        (E.state err.old) (E.state err.new) result }
    ensures counts { ((O.state out.old).faults ≤ (O.state out.new).faults) ×
        ((E.state err.old).faults ≤ (E.state err.new).faults) }
{
    match put_topic(alloc, topic, out) {
        Ok(()) => helped(alloc),
        Err(stop) => refuse_help(alloc, stop, err),
    }
}

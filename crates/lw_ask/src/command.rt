//! The command.
ghost use Rattle.std.specs.Prelude.{◌≡◌, ◌<◌, ◌≤◌, length, map, string_bytes};
ghost use Rattle.std.specs.List.{All};
ghost use Rattle.lw_words.specs.Word.{IsWord};
ghost use Rattle.lw_outside.specs.declared.links.StartFailure.{StartFailure as Cause};
ghost use Rattle.lw_system.specs.Systems.{HasWords, letters_of};
ghost use Rattle.lw_report.specs.Outcomes.{status_of};
ghost use Rattle.lw_report.specs.declared.outcome.Outcome.{Outcome as Came};
ghost use Rattle.lw_ask.specs.AskRun.{AsksCommand, AsksMachine, AsksSystem, AsksTexts, IsAskRun, IsEnd};
ghost use Rattle.lw_ask.specs.Hints.{TakesHint};
ghost use Rattle.lw_ask.specs.Outcomes.{came_outcome, stop_outcome, word_outcome};

use crate::AskArguments;
use crate::asking::{AskingEnd, ask_session};
use crate::child::ask_child;
use crate::stop::AskingStop;
use lw_json::{Command, Machine};
use lw_outside::{Files, Sink, Spawner, put_all};
use lw_report::{End, Outcome, UNSAID, no_system_outcome, refuse, start_outcome, system_outcome};
use lw_sul::{Session, TableSul};
use lw_system::{Found, System, find_for};
use lw_wordlist::{WordStop, read_words};
use lw_words::{Kept, Words};
use std::alloc::Global;

/// The outcome of asking.
fn came_outcome(came: Result<(), AskingStop>) -> Outcome
    ensures { result ≡ came_outcome came }
{
    match came {
        Ok(()) => Outcome::Asked,
        Err(stop) => stop_outcome(stop),
    }
}

/// The outcome of asking that stopped so: a child is the one of instance 0.
fn stop_outcome(stop: AskingStop) -> Outcome
    ensures { result ≡ stop_outcome stop }
{
    match stop {
        AskingStop::Sul(stop) => system_outcome(0, stop),
        AskingStop::Sink => Outcome::SinkFault,
        AskingStop::NoMemory => Outcome::NoMemory,
    }
}

/// The outcome of texts that are no words.
fn word_outcome(stop: WordStop) -> Outcome
    ensures { result ≡ word_outcome stop }
{
    match stop {
        WordStop::Unknown { word, place } => Outcome::UnknownLetter { word, place },
        WordStop::NoMemory => Outcome::NoMemory,
    }
}

/// What came of asking a system: the answers that are kept, and the outcome.
#[derive(Drop)]
struct Told {
    kept: Kept,
    outcome: Outcome,
}

/// Asks a machine.
fn ask_table<O: Sink>(alloc: Global, machine: Machine, words: &Words, out: &mut O) -> Told
    requires { All (IsWord (length machine.inputs)) words.now }
    ensures asks { AsksMachine machine words.now (O.state out.old) (O.state out.new)
        result.kept.answers result.outcome }
    ensures counts { (O.state out.old).faults ≤ (O.state out.new).faults }
{
    let Machine {
        inputs,
        outputs,
        mealy,
    } = machine;
    let mut session = Session::new(alloc, 0, TableSul::new(mealy, outputs));
    let AskingEnd { kept, came } = ask_session(alloc, &mut session, &inputs, words, out);
    Told {
        kept,
        outcome: came_outcome(came),
    }
}

/// Asks a child of a command.
fn ask_command<P: Spawner, O: Sink>(
    alloc: Global,
    command: Command,
    words: &Words,
    spawner: &mut P,
    out: &mut O,
) -> Told
    requires command { 0 < length command.words }
    requires words { All (IsWord (length command.inputs)) words.now }
    ensures asks { AsksCommand command words.now (P.state spawner.old) (P.state spawner.new)
        (O.state out.old) (O.state out.new) result.kept.answers result.outcome }
    ensures why { (cause : Cause) → result.outcome ≡ Came.Unstarted cause →
        cause ≡ (P.state spawner.new).cause }
    ensures counts { (O.state out.old).faults ≤ (O.state out.new).faults }
{
    let Command {
        words: command,
        inputs,
        outputs,
    } = command;
    match ask_child(alloc, spawner, command.get(), &inputs, outputs, words, out) {
        Ok(AskingEnd { kept, came }) => Told {
            kept,
            outcome: came_outcome(came),
        },
        Err(stop) => Told {
            kept: Kept::new(alloc),
            outcome: start_outcome(spawner, stop),
        },
    }
}

/// Asks a system these words.
fn ask_system<P: Spawner, O: Sink>(
    alloc: Global,
    system: System,
    words: &Words,
    spawner: &mut P,
    out: &mut O,
) -> Told
    requires command { HasWords system }
    requires words { All (IsWord (length (letters_of system))) words.now }
    ensures asks { AsksSystem system words.now (P.state spawner.old) (P.state spawner.new)
        (O.state out.old) (O.state out.new) result.kept.answers result.outcome }
    ensures why { (cause : Cause) → result.outcome ≡ Came.Unstarted cause →
        cause ≡ (P.state spawner.new).cause }
    ensures counts { (O.state out.old).faults ≤ (O.state out.new).faults }
{
    match system {
        System::Table(machine) => ask_table(alloc, machine, words, out),
        System::Children(command) => ask_command(alloc, command, words, spawner, out),
    }
}

/// Puts a hint to a stream that may refuse it.
fn put_hint<E: Sink>(hint: &[u8], err: &mut E)
    ensures { TakesHint hint.now (E.state err.old) (E.state err.new) }
{
    if hint.is_empty() {
        return;
    }
    let _refused = put_all(err, hint).is_err();
}

/// Ends a call: puts the outcome's text to `err`.
fn end_call<E: Sink>(alloc: Global, told: Told, err: &mut E) -> End
    ensures status { result.status ≡ status_of result.outcome }
    ensures ended { IsEnd told.outcome told.kept.answers (E.state err.old) (E.state err.new)
        result }
    ensures counts { (E.state err.old).faults ≤ (E.state err.new).faults }
{
    let Told { kept, outcome } = told;
    refuse(alloc, outcome, UNSAID, kept, None, 0, err)
}

/// Asks the words of these texts of a system that was read.
fn ask_texts<P: Spawner, O: Sink>(
    alloc: Global,
    system: System,
    texts: &[String],
    spawner: &mut P,
    out: &mut O,
) -> Told
    requires command { HasWords system }
    ensures asks { AsksTexts system (map (λ s. string_bytes s) texts.now) (P.state spawner.old)
        (P.state spawner.new) (O.state out.old) (O.state out.new) result.kept.answers
        result.outcome }
    ensures why { (cause : Cause) → result.outcome ≡ Came.Unstarted cause →
        cause ≡ (P.state spawner.new).cause }
    ensures counts { (O.state out.old).faults ≤ (O.state out.new).faults }
{
    match read_words(alloc, system.inputs(), texts) {
        Ok(words) => ask_system(alloc, system, &words, spawner, out),
        Err(stop) => Told {
            kept: Kept::new(alloc),
            outcome: word_outcome(stop),
        },
    }
}

/// Asks words of a system: of one child, which is started and retired again whatever comes, or of a machine. First the file is
/// read that says the system, and the table file that a setup names, by whether a machine is asked or an acceptor. A member
/// that the setup doesn't know is told to `err`. Then the texts of the words are read, each word is asked, and its line put to
/// `out` at once. The text of every other outcome goes to `err`. May wait for the child.
pub fn ask<F: Files, P: Spawner, O: Sink, E: Sink>(
    alloc: Global,
    arguments: &AskArguments,
    files: &mut F,
    spawner: &mut P,
    out: &mut O,
    err: &mut E,
) -> End
    ensures status { result.status ≡ status_of result.outcome }
    ensures ran { IsAskRun arguments.now (F.state files.old) (F.state files.new)
        (P.state spawner.old) (P.state spawner.new) (O.state out.old) (O.state out.new)
        (E.state err.old) (E.state err.new) result }
    // Why no child was started is what the spawner tells.
    ensures why { (cause : Cause) → result.outcome ≡ Came.Unstarted cause →
        cause ≡ (P.state spawner.new).cause }
    // No count of faults falls.
    ensures counts { ((F.state files.old).faults ≤ (F.state files.new).faults) ×
        ((O.state out.old).faults ≤ (O.state out.new).faults) ×
        ((E.state err.old).faults ≤ (E.state err.new).faults) }
{
    let Found { system, hint } = find_for(
        alloc,
        arguments.goal(),
        arguments.source(),
        arguments.system(),
        files,
    );
    put_hint(hint.as_slice(), err);
    match system {
        Ok(system) => {
            let told = ask_texts(alloc, system, arguments.words(), spawner, out);
            end_call(alloc, told, err)
        }
        Err(stop) => {
            let kept = Kept::new(alloc);
            let outcome = no_system_outcome(stop);
            end_call(alloc, Told { kept, outcome }, err)
        }
    }
}

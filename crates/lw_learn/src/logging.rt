//! What a log gets beside the steps of a learning: what stopped it midway, and the text of the outcome.
ghost use Rattle.std.specs.Prelude.{codes};
ghost use Rattle.lw_learn.specs.LearnRun.{SaysLog};

use crate::LearnArguments;
use crate::ending::text_names;
use crate::reading::Unread;
use crate::refusing::{letters_read, outputs_read};
use lw_cache::AskStop;
use lw_log::{Log, LogState};
use lw_outside::{LogFile, Sink, Spawner, put_all};
use lw_report::{End, Outcome, outcome_text};
use lw_rounds::LearnStop;
use lw_system::System;
use lw_words::{Names, NoMemory, SulStop};
use lw_workers::{CutRun, LearningOutcome};
use std::alloc::Global;

/// The text of a call that ran out of memory. Takes no memory itself.
const NO_MEMORY: &[u8] = b"no memory\n";

/// Puts the run that a child cut off when it stopped.
fn log_cut<L: LogFile, N: Sink>(inputs: &Names, cut: &CutRun, log: &mut Log<L, N>) {
    let received = match &cut.received {
        Some(line) => Some(line.as_slice()),
        None => None,
    };
    log.cut(
        cut.instance,
        inputs,
        cut.asked.as_slice(),
        received,
        cut.rest.as_slice(),
    );
}

/// Puts what stopped a learning midway: the run that was cut off, or why no child was started.
pub(crate) fn log_stop<P: Spawner, L: LogFile, N: Sink>(
    alloc: Global,
    spawner: &P,
    inputs: &Names,
    found: &LearningOutcome,
    log: &mut Log<L, N>,
) {
    if let Some(cut) = &found.cut {
        log_cut(inputs, cut, log);
        return;
    }
    if let Err(
        LearnStop::Ask(
            AskStop::Sul {
                instance: _,
                stop: SulStop::Failed,
            },
        ),
    ) = &found.learned
    {
        let cause = Outcome::Unstarted(spawner.failure());
        log.line(outcome_text(alloc, &cause, None, None, &found.kept, 0));
    }
}

/// The text of the outcome of a call that learned a system.
fn end_text(alloc: Global, system: &System, end: &End, extra: u8) -> Result<String, NoMemory> {
    let outputs = match &end.outputs {
        Some(names) => text_names(alloc, names)?,
        None => None,
    };
    let inputs = Some(system.inputs());
    outcome_text(
        alloc,
        &end.outcome,
        inputs,
        outputs.as_ref(),
        &end.kept,
        extra,
    )
}

/// Puts the text of the outcome of a call that learned a system.
pub(crate) fn log_end<L: LogFile, N: Sink>(
    alloc: Global,
    system: &System,
    end: &End,
    extra: u8,
    log: &mut Log<L, N>,
) {
    match end.outcome {
        Outcome::NoMemory => log.file_text(NO_MEMORY),
        _ => log.file_line(end_text(alloc, system, end, extra)),
    }
}

/// The text of the outcome of a call that began no learning.
pub(crate) fn unread_text(alloc: Global, unread: &Unread, extra: u8) -> Result<String, NoMemory> {
    let inputs = letters_read(&unread.system);
    let outputs = outputs_read(&unread.system);
    outcome_text(alloc, &unread.outcome, inputs, outputs, &unread.kept, extra)
}

/// Puts the text of the outcome of a call that began no learning, which stands but where memory ran out since.
pub(crate) fn log_unread<L: LogFile, N: Sink>(
    end: &End,
    text: Result<String, NoMemory>,
    log: &mut Log<L, N>,
) {
    match end.outcome {
        Outcome::NoMemory => log.file_text(NO_MEMORY),
        _ => log.file_line(text),
    }
}

/// Opens the log, where one is named, and notes what it gets on standard error, where that is wanted.
pub(crate) fn open_log<L: LogFile, N: Sink>(arguments: &LearnArguments, log: &mut Log<L, N>) {
    if arguments.verbose() {
        log.be_verbose();
    }
    if let Some(name) = arguments.log() {
        log.open(name);
    }
}

/// Says on `err` that a log that is named isn't open, so that it isn't whole.
pub(crate) fn say_log<L: LogFile, N: Sink, E: Sink>(
    arguments: &LearnArguments,
    log: &Log<L, N>,
    err: &mut E,
)
    ensures { SaysLog arguments.now.log log.now.state (E.state err.old) (E.state err.new) }
{
    if arguments.log().is_none() {
        return;
    }
    if log.state() != LogState::Open {
        let _refused = put_all(err, b"log fault\n").is_err();
    }
}

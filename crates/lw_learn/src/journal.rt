//! The journal, to which answers are appended as they come.
ghost use Rattle.std.specs.Prelude.{◌≡◌, IfOk};
ghost use Rattle.lw_words.specs.Word.{word_text};
ghost use Rattle.lw_json.specs.AnswersText.{run_data};
ghost use Rattle.lw_json.specs.Journal.{IsJournalLine};
ghost use Rattle.lw_learn.specs.Arguments.{AsBegun};

use crate::LearnArguments;
use crate::naming::names_of;
use lw_json::{journal_header, journal_line};
use lw_names::OutNames;
use lw_outside::{JournalStart, Spawner};
use lw_words::{Kept, KeptAnswer, Names, NoMemory, put_word};
use std::alloc::Global;

/// The number of an instance that stands for earlier answers, which are in a file already.
const EARLIER: u32 = 16;

/// Opens the journal, where one is named. Where it holds runs, the call goes on with them as with prior answers.
pub fn begin_journal<P: Spawner>(arguments: LearnArguments, spawner: &mut P) -> LearnArguments
    ensures begun { AsBegun arguments (λ a. result ≡ a) }
    ensures same { P.state spawner.new ≡ P.state spawner.old }
{
    let mut arguments = arguments;
    let Some(name) = arguments.journal() else {
        return arguments;
    };
    if spawner.open_journal(name) == JournalStart::Resumes {
        arguments.resume();
    }
    arguments
}

/// Begins a call's part of the journal, where one is named, with the names of the letters.
pub(crate) fn head_journal<P: Spawner>(
    alloc: Global,
    arguments: &LearnArguments,
    inputs: &Names,
    spawner: &mut P,
)
    ensures { P.state spawner.new ≡ P.state spawner.old }
{
    if arguments.journal().is_none() {
        return;
    }
    match journal_header(alloc, inputs) {
        Ok(line) => spawner.append_line(Some(line.as_slice())),
        Err(NoMemory) => spawner.append_line(None),
    }
}

/// The line of a recorded answer.
fn answer_line(
    alloc: Global,
    inputs: &Names,
    outputs: &Names,
    answer: &KeptAnswer,
) -> Result<Vec<u8>, NoMemory>
    ensures { IfOk result (λ line. IsJournalLine (run_data answer.now.instance answer.now.run
        (word_text inputs.now answer.now.word) (word_text outputs.now answer.now.outs))
        line.items) }
{
    let mut word = String::new(alloc);
    put_word(&mut word, inputs, answer.word.as_slice())?;
    let mut outs = String::new(alloc);
    put_word(&mut outs, outputs, answer.outs.as_slice())?;
    journal_line(
        alloc,
        answer.instance,
        answer.run,
        word.as_str(),
        outs.as_str(),
    )
}

/// Appends recorded answers, in their order, but for those that were there before the call.
fn append_answers<P: Spawner>(
    alloc: Global,
    inputs: &Names,
    outputs: &Names,
    kept: &Kept,
    spawner: &mut P,
)
    ensures { P.state spawner.new ≡ P.state spawner.old }
{
    for place in 0..kept.len() {
        let answer = kept.get(place);
        if answer.instance == EARLIER {
            continue;
        }
        match answer_line(alloc, inputs, outputs, answer) {
            Ok(line) => spawner.append_line(Some(line.as_slice())),
            Err(NoMemory) => spawner.append_line(None),
        }
    }
}

/// Writes a call's part of the journal at once, where one is named: of a system whose answers are not written as they come.
pub(crate) fn write_journal<P: Spawner>(
    alloc: Global,
    arguments: &LearnArguments,
    inputs: &Names,
    names: &OutNames,
    kept: &Kept,
    spawner: &mut P,
)
    ensures { P.state spawner.new ≡ P.state spawner.old }
{
    if arguments.journal().is_none() {
        return;
    }
    head_journal(alloc, arguments, inputs, spawner);
    match names_of(alloc, names) {
        Ok(outputs) => append_answers(alloc, inputs, &outputs, kept, spawner),
        Err(NoMemory) => spawner.append_line(None),
    }
}

//! The words that are asked before the rounds of a learning: those of a file, and drawn ones.
ghost use Rattle.std.specs.Prelude.{◌≡◌, ℕ, ◌<◌, ◌≤◌, ◌^◌, List, ◌++◌, length, Some, IfErr, IfOk, OnOk};
ghost use Rattle.std.specs.List.{All};
ghost use Rattle.lw_words.specs.Word.{IsWord};
ghost use Rattle.lw_learn.specs.Asking.{AreDrawn, IsWordsFile};
ghost use Rattle.lw_learn.specs.bodies.Ready.{IsReady};
ghost use Rattle.lw_learn.specs.bodies.Stages.{HasNamed, HasNamedWords, HasWorded, IsWordedStage, SaysNoWords};

use crate::LearnArguments;
use crate::notes::note_letter;
use crate::reading::{Unread, read_task};
use crate::task::{Task, WordedTask};
use lw_draw::{Drawn, draw_words};
use lw_log::Log;
use lw_outside::{Files, LogFile, Sink};
use lw_report::{Outcome, Role, read_outcome};
use lw_system::ReadStop;
use lw_wordlist::{WordStop, read_lines};
use lw_words::{Names, NoMemory, Words};
use std::alloc::Global;

/// The words that the bytes of a file say.
fn words_in(alloc: Global, inputs: &Names, bytes: &[u8]) -> Result<Words, Outcome>
    ensures ok { IfOk result (IsWordsFile inputs.now bytes.now) }
    ensures words { IfOk result (All (IsWord (length inputs.now))) }
    ensures err { IfErr result (SaysNoWords inputs.now bytes.now) }
{
    let Ok(text) = String::from_utf8_lossy(alloc, bytes) else {
        return Err(Outcome::NoMemory);
    };
    match read_lines(alloc, inputs, text.as_str()) {
        Ok(words) => Ok(words),
        Err(WordStop::Unknown { word, place }) => Err(Outcome::UnknownLetter { word, place }),
        Err(WordStop::NoMemory) => Err(Outcome::NoMemory),
    }
}

/// Reads the words of the file of this name. A letter that is no input is noted.
fn read_named<F: Files, L: LogFile, N: Sink>(
    alloc: Global,
    name: &str,
    inputs: &Names,
    files: &mut F,
    log: &mut Log<L, N>,
) -> Result<Words, Outcome>
    ensures { HasNamed name.now inputs.now (F.state files.old) (F.state files.new) result }
{
    let bytes = match files.read(name) {
        Ok(bytes) => bytes,
        Err(refusal) => return Err(read_outcome(ReadStop::from(refusal), Role::Words)),
    };
    let words = words_in(alloc, inputs, &bytes);
    note_letter(alloc, bytes.as_slice(), &words, log);
    words
}

/// The words of the file that is named for them, if one is.
fn named_words<F: Files, L: LogFile, N: Sink>(
    alloc: Global,
    arguments: &LearnArguments,
    inputs: &Names,
    files: &mut F,
    log: &mut Log<L, N>,
) -> Result<Words, Outcome>
    ensures { HasNamedWords arguments.now.words inputs.now (F.state files.old) (F.state files.new)
        result }
{
    match arguments.words() {
        Some(name) => read_named(alloc, name, inputs, files, log),
        None => Ok(Words::new(alloc)),
    }
}

/// Puts the words that are drawn behind these, if some are.
fn add_drawn(
    alloc: Global,
    arguments: &LearnArguments,
    inputs: &Names,
    words: &mut Words,
) -> Result<(), NoMemory>
    ensures ok { OnOk result ((drawn : List (List ℕ)) × (words.new ≡ words.old ++ drawn) ×
        AreDrawn arguments.now.drawn (length inputs.now) drawn) }
{
    let Some(
        Drawn {
            count,
            length,
            seed,
        },
    ) = arguments.drawn()
    else {
        return Ok(());
    };
    draw_words(alloc, words, inputs.len(), count, length, seed)
}

/// Gives up, as out of memory, where there are more words than a batch may have.
fn as_batch(words: Words) -> Result<Words, NoMemory>
    ensures value { IfOk result (λ w. w ≡ words) }
    ensures few { IfOk result (λ w. length w < 2 ^ 32) }
{
    if words.len() > u32::MAX as usize {
        return Err(NoMemory);
    }
    Ok(words)
}

/// These words, and drawn ones behind them, if some are drawn.
fn with_drawn(
    alloc: Global,
    arguments: &LearnArguments,
    inputs: &Names,
    mut words: Words,
) -> Result<Words, NoMemory>
    ensures drawn { IfOk result (λ all. (drawn : List (List ℕ)) × (all ≡ words ++ drawn) ×
        AreDrawn arguments.now.drawn (length inputs.now) drawn) }
    ensures few { IfOk result (λ all. length all < 2 ^ 32) }
    ensures some { OnOk result (1 ≤ length inputs.now) }
{
    let _some = inputs.len();
    add_drawn(alloc, arguments, inputs, &mut words)?;
    as_batch(words)
}

/// The words that are asked before the rounds.
fn words_to_ask<F: Files, L: LogFile, N: Sink>(
    alloc: Global,
    arguments: &LearnArguments,
    inputs: &Names,
    files: &mut F,
    log: &mut Log<L, N>,
) -> Result<Words, Outcome>
    ensures { HasWorded arguments.now inputs.now (F.state files.old) (F.state files.new) result }
{
    let named = named_words(alloc, arguments, inputs, files, log)?;
    match with_drawn(alloc, arguments, inputs, named) {
        Ok(words) => Ok(words),
        Err(NoMemory) => Err(Outcome::NoMemory),
    }
}

/// Why a task can't be begun, for which there are no words to ask: its prior answers are kept.
fn wordless(alloc: Global, task: Task, outcome: Outcome) -> Unread
    requires ready { IsReady task.system task.names task.cache }
    ensures outcome { result.outcome ≡ outcome }
    ensures system { result.system ≡ Some task.system }
    ensures kept { result.kept ≡ task.cache.kept }
{
    let Task {
        system,
        names,
        cache,
    } = task;
    let kept = cache.into_kept();
    if kept.len() == 0 {
        return Unread::bare(alloc, outcome, Some(system));
    }
    Unread {
        outcome,
        system: Some(system),
        kept,
        names: Some(names),
    }
}

/// Reads what is to be learned, and then the words that are asked first, where a file is named for them.
pub(crate) fn read_worded<F: Files, L: LogFile, N: Sink>(
    alloc: Global,
    arguments: &LearnArguments,
    files: &mut F,
    log: &mut Log<L, N>,
) -> Result<WordedTask, Unread>
    ensures { IsWordedStage arguments.now (F.state files.old) (F.state files.new) result }
{
    let task = read_task(alloc, arguments, files, log)?;
    match words_to_ask(alloc, arguments, task.system.inputs(), files, log) {
        Ok(words) => Ok(WordedTask { task, words }),
        Err(outcome) => Err(wordless(alloc, task, outcome)),
    }
}

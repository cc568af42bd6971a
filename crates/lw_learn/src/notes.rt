//! What a learning notes for a person who waits, beside the lines of its log. No contract speaks of notes.

use crate::ending::text_names;
use crate::suffixes::apart_line;
use crate::wanted::wanted_line;
use crate::{LearnArguments, Saved};
use lw_cache::{AskStop, Cache};
use lw_json::Answers;
use lw_log::{Log, put_escaped};
use lw_outside::{LogFile, Sink};
use lw_report::{Outcome, Role};
use lw_rounds::LearnStop;
use lw_system::{Source, System};
use lw_words::{Kept, Names, NoMemory, SulStop, Words};
use lw_workers::LearningOutcome;
use std::alloc::Global;

/// The instance of prior answers.
const PRIOR: u32 = 16;

/// The greatest number of bytes of a name.
const LONGEST_NAME: usize = 64;

/// Recorded answers, by where they came from, and the letters of those that were asked.
#[derive(Clone, Copy)]
struct Counts {
    prior: u64,
    asked: u64,
    letters: u64,
}

/// Counts recorded answers.
fn counts_of(kept: &Kept) -> Counts {
    let mut counts = Counts {
        prior: 0,
        asked: 0,
        letters: 0,
    };
    for number in 0..kept.len() {
        let answer = kept.get(number);
        if answer.instance == PRIOR {
            counts.prior = counts.prior.saturating_add(1);
        } else {
            counts.asked = counts.asked.saturating_add(1);
            counts.letters = counts.letters.saturating_add(answer.word.len() as u64);
        }
    }
    counts
}

fn prior_line(alloc: Global, count: usize) -> Result<String, NoMemory> {
    Ok(format!(in alloc; "answers: {count} from earlier files\n")?)
}

fn counts_line(alloc: Global, counts: Counts) -> Result<String, NoMemory> {
    let (prior, asked, letters) = (counts.prior, counts.asked, counts.letters);
    Ok(format!(in alloc;
        "answers: {prior} from earlier files, {asked} asked, {letters} letters\n"
    )?)
}

/// Notes how many prior answers a learning begins with, where a file of them is named.
pub(crate) fn note_prior<L: LogFile, N: Sink>(
    alloc: Global,
    arguments: &LearnArguments,
    cache: &Cache,
    log: &mut Log<L, N>,
) {
    if log.is_verbose() && arguments.prior().is_some() {
        log.note(prior_line(alloc, cache.kept().len()));
    }
}

/// Notes a line, where there is one.
fn note_some<L: LogFile, N: Sink>(line: Result<Option<String>, NoMemory>, log: &mut Log<L, N>) {
    if let Ok(Some(line)) = line {
        log.note(Ok(line));
    }
}

/// Notes what was wanted in place of a bad line.
fn note_wanted<L: LogFile, N: Sink>(
    alloc: Global,
    system: &System,
    found: &LearningOutcome,
    line: &[u8],
    log: &mut Log<L, N>,
) {
    let asked = match &found.cut {
        Some(cut) => Some(cut.asked.as_slice()),
        None => None,
    };
    note_some(wanted_line(alloc, asked, line, system.outputs()), log);
}

/// Notes what tells the last two of too many words apart.
fn note_apart<L: LogFile, N: Sink>(
    alloc: Global,
    system: &System,
    found: &LearningOutcome,
    words: &Words,
    log: &mut Log<L, N>,
) {
    if let Ok(Some(outputs)) = text_names(alloc, &found.names) {
        let line = apart_line(alloc, system.inputs(), &outputs, words, &found.kept);
        note_some(line, log);
    }
}

/// Notes more about what stopped a learning than its outcome's text has.
fn note_stop<L: LogFile, N: Sink>(
    alloc: Global,
    system: &System,
    found: &LearningOutcome,
    log: &mut Log<L, N>,
) {
    match &found.learned {
        Err(
            LearnStop::Ask(
                AskStop::Sul {
                    instance: _,
                    stop: SulStop::BadLine(line),
                },
            ),
        ) => note_wanted(alloc, system, found, line.as_slice(), log),
        Err(LearnStop::Crowd(words)) => note_apart(alloc, system, found, words, log),
        _ => {}
    }
}

/// Notes how a learning ended: what stopped it, and how many answers there are.
pub(crate) fn note_end<L: LogFile, N: Sink>(
    alloc: Global,
    system: &System,
    found: &LearningOutcome,
    log: &mut Log<L, N>,
) {
    if log.is_verbose() {
        note_stop(alloc, system, found, log);
        log.note(counts_line(alloc, counts_of(&found.kept)));
    }
}

/// The name at a place of a line, both counted from 1, in the bytes of a file of words.
fn letter_at(bytes: &[u8], line: u64, place: u64) -> Option<&[u8]> {
    let line = bytes
        .split(|b| *b == b'\n')
        .nth(line.checked_sub(1)? as usize)?;
    let line = line.strip_suffix(b"\r").unwrap_or(line);
    line.split(|b| *b == b' ')
        .filter(|name| !name.is_empty())
        .nth(place.checked_sub(1)? as usize)
}

/// The line about a letter that is no input: of one that is longer than a name only the front.
fn letter_line(alloc: Global, name: &[u8]) -> Result<String, NoMemory> {
    let mut line = String::from_str(alloc, "letter: ")?;
    let front = name.get(..LONGEST_NAME).unwrap_or(name);
    put_escaped(alloc, &mut line, front)?;
    if front.len() < name.len() {
        line.push_str(" ..")?;
    }
    line.push_str("\n")?;
    Ok(line)
}

/// Notes the letter of a file of words that is no input, where that is what was wrong with it.
pub(crate) fn note_letter<L: LogFile, N: Sink>(
    alloc: Global,
    bytes: &[u8],
    words: &Result<Words, Outcome>,
    log: &mut Log<L, N>,
) {
    if !log.is_verbose() {
        return;
    }
    if let Err(Outcome::UnknownLetter { word, place }) = words
        && let Some(name) = letter_at(bytes, *word, *place)
    {
        log.note(letter_line(alloc, name));
    }
}

/// The first name of a list that another lacks.
fn first_beside<'a>(names: &'a Names, others: &Names) -> Option<&'a str> {
    for number in 0..names.len() {
        let name = names.name(number);
        if others.number(name).is_none() {
            return Some(name);
        }
    }
    None
}

/// The line about names of prior answers that don't fit, where they don't.
fn misfit_line(
    alloc: Global,
    answers: &Answers,
    inputs: &Names,
    outputs: &Names,
) -> Result<Option<String>, NoMemory> {
    if let Some(name) = first_beside(&answers.inputs, inputs) {
        return Ok(Some(format!(in alloc; "no input of the setup: {name}\n")?));
    }
    if !answers.inputs.same(inputs) {
        let line = String::from_str(alloc, "the inputs differ in number or order\n")?;
        return Ok(Some(line));
    }
    match first_beside(&answers.outputs, outputs) {
        Some(name) => Ok(Some(format!(in alloc; "no output of the setup: {name}\n")?)),
        None => Ok(None),
    }
}

/// Notes the first name of prior answers that doesn't fit, where one doesn't.
pub(crate) fn note_misfit<L: LogFile, N: Sink>(
    alloc: Global,
    answers: &Answers,
    inputs: &Names,
    outputs: &Names,
    log: &mut Log<L, N>,
) {
    if log.is_verbose() {
        note_some(misfit_line(alloc, answers, inputs, outputs), log);
    }
}

/// The name of the file in a role, where the arguments have it. They lack the table that a setup names.
fn file_in(arguments: &LearnArguments, role: Role) -> Option<&str> {
    match (role, arguments.source()) {
        (Role::Setup, Source::Setup) | (Role::Table, Source::Table) => Some(arguments.system()),
        (Role::Model, _) => arguments.model(),
        (Role::Answers, _) => arguments.answers(),
        (Role::Prior, _) => arguments.prior(),
        (Role::Words, _) => arguments.words(),
        (Role::Kept, _) => arguments.kept(),
        (Role::Last, _) => arguments.last(),
        _ => None,
    }
}

fn file_line(alloc: Global, name: &str) -> Result<String, NoMemory> {
    let mut line = String::from_str(alloc, "file: ")?;
    put_escaped(alloc, &mut line, name.as_bytes())?;
    line.push_str("\n")?;
    Ok(line)
}

/// Notes the name of the file that could not be read or written, where that was the outcome.
pub(crate) fn note_file<L: LogFile, N: Sink>(
    alloc: Global,
    arguments: &LearnArguments,
    outcome: &Outcome,
    log: &mut Log<L, N>,
) {
    if !log.is_verbose() {
        return;
    }
    if let Outcome::FileFault(role) = outcome
        && let Some(name) = file_in(arguments, *role)
    {
        log.note(file_line(alloc, name));
    }
}

/// Notes the name of the file of the last machine, where it could not be written.
pub(crate) fn note_last<L: LogFile, N: Sink>(
    alloc: Global,
    arguments: &LearnArguments,
    left: Saved,
    log: &mut Log<L, N>,
) {
    if !log.is_verbose() || left != Saved::Failed {
        return;
    }
    if let Some(name) = arguments.last() {
        log.note(file_line(alloc, name));
    }
}

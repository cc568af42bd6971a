//! Learnings over children in memory, by hand.
ghost use Rattle.std.specs.Prelude.{◌≡◌, ◌<◌, ◌≤◌, ◌^◌, length, IsTrue};
ghost use Rattle.std.specs.List.{All};
ghost use Rattle.lw_words.specs.Word.{IsWord};
ghost use Rattle.lw_children.specs.Crews.{first_naming};

use super::{command, speakers};
use crate::tests::{is_line, names};
use lw_cache::{AskStop, Cache};
use lw_children::learn_children;
use lw_chunks::Method;
use lw_json::{Command, Machine, read_machine};
use lw_mealy::Mealy;
use lw_names::OutNames;
use lw_outside::{MemorySpawner, Spawner};
use lw_rounds::{Kind, LearnStop, Settings, Testing, Unwatched};
use lw_words::{Line, Names, SulStop, Word, Words};
use lw_workers::{CutRun, LearningOutcome, Start};
use std::alloc::Global;
use std::process::Abort;
use std::sync::Wait;
use std::thread::Threads;

/// A machine of two states, of which the first says z and the second a.
fn machine(rt: &impl Abort, alloc: Global) -> Machine {
    let text = br#"{"inputs":["t"],"outputs":["z","a"],"states":[[[1,"z"]],[[0,"a"]]]}"#;
    read_machine(alloc, text).expect(rt, "a machine")
}

/// A spawner of children that play the machine.
fn players(rt: &impl Abort, alloc: Global) -> MemorySpawner {
    let machine = machine(rt, alloc);
    MemorySpawner::serving(alloc, machine, 256, Vec::new(alloc), Vec::new(alloc)).expect(
        rt, "memory",
    )
}

/// The names that a learning begins with.
fn first_names(rt: &impl Abort, alloc: Global, outputs: &Option<Names>) -> OutNames
    ensures { result ≡ first_naming outputs.now }
{
    match outputs {
        Some(names) => OutNames::declared(alloc, names).expect(rt, "memory"),
        None => OutNames::free(alloc).expect(rt, "memory"),
    }
}

fn is_word(word: &Word, inputs: u16) -> bool
    ensures { IsTrue result → IsWord inputs word.now }
{
    word.as_slice().iter().all(|x| *x < inputs)
}

/// Whether the letters of all these words are below a number.
fn are_words(words: &[Word], inputs: u16) -> bool
    ensures { IsTrue result → All (IsWord inputs) words.now }
{
    words.iter().all(|w| is_word(w, inputs))
}

fn words_of(rt: &impl Abort, alloc: Global, list: &[&[u16]]) -> Words {
    let mut words = Words::new(alloc);
    for letters in list {
        let letters = Vec::from_slice(alloc, letters).expect(rt, "memory");
        assert!(rt; words.push(Word::from_letters(alloc, letters)).is_ok());
    }
    words
}

/// A learning over so many children, with nothing known before, and these words asked first.
fn learn<P: Spawner, R: Abort + Threads + Wait + Sync + Copy + Drop>(
    rt: R,
    alloc: Global,
    spawner: &mut P,
    command: &Command,
    words: Words,
    workers: u8,
    kind: Kind,
) -> LearningOutcome
    requires words { 0 < length command.now.words }
{
    let inputs = command.inputs.len();
    assert!(rt; inputs <= 64);
    assert!(rt; words.len() <= 9 && are_words(words.as_slice(), inputs));
    let settings = Settings::new(workers, kind, 1, 4, Testing::by(Method::W)).expect(
        &rt, "settings",
    );
    let start = Start {
        names: first_names(&rt, alloc, &command.outputs),
        cache: Cache::new(alloc),
        words,
    };
    let mut nobody = Unwatched;
    let ended = learn_children(rt, alloc, spawner, command, start, settings, &mut nobody);
    let Unwatched = nobody;
    ended
}

/// Whether these are the names, in this order.
fn are_named(names: &OutNames, want: &[&str]) -> bool {
    if usize::from(names.len()) != want.len() {
        return false;
    }
    for y in 0..names.len() {
        if names.name(y).as_slice() != want[usize::from(y)].as_bytes() {
            return false;
        }
    }
    true
}

/// Whether a model has two states, of which the first says the output of this number.
fn says_first(model: &Mealy, output: u16) -> bool {
    model.states() == 2 && model.inputs() == 1 && model.step(0, 0) == (1, output)
}

/// Whether so many links were started, and retired.
fn are_retired(spawner: &MemorySpawner, links: usize) -> bool {
    spawner.started().len() == links && spawner.retired().len() == links
}

/// What a learning over one child that plays the machine is asked for, and what comes of it.
struct Found {
    outputs: Option<&'static [&'static str]>,
    kind: Kind,
    /// Words that are asked first.
    words: &'static [&'static [u16]],
    /// The number of the first state's output.
    output: u16,
    names: &'static [&'static str],
    answers: usize,
    refinements: u32,
    /// What is sent at first.
    sent: &'static [u8],
}

/// A table asks words of two and three letters, and a tree one of one letter before them. A word of four tests the model.
static FOUND: [Found; 4] = [
    Found {
        outputs: None,
        kind: Kind::Table,
        words: &[],
        output: 1,
        names: &["a", "z"],
        answers: 3,
        refinements: 0,
        sent: b"reset\nin t\nin t\nreset\n",
    },
    Found {
        outputs: None,
        kind: Kind::Ttt,
        words: &[],
        output: 1,
        names: &["a", "z"],
        answers: 4,
        refinements: 1,
        sent: b"reset\nin t\nreset\n",
    },
    Found {
        outputs: Some(&["z", "a"]),
        kind: Kind::Table,
        words: &[],
        output: 0,
        names: &["z", "a"],
        answers: 3,
        refinements: 0,
        sent: b"reset\nin t\nin t\nreset\n",
    },
    // The words that a table asks are prefixes of one that was asked.
    Found {
        outputs: None,
        kind: Kind::Table,
        words: &[&[0, 0], &[0, 0, 0], &[]],
        output: 1,
        names: &["a", "z"],
        answers: 2,
        refinements: 0,
        sent: b"reset\nin t\nin t\nin t\nreset\nin t\nin t\nin t\nin t\n",
    },
];

/// Whether a model was found as a row says.
fn is_found(ended: &LearningOutcome, row: &Found) -> bool {
    let Ok(learned) = &ended.learned else {
        return false;
    };
    says_first(&learned.model, row.output)
        && ended.kept.len() == row.answers
        && learned.refinements() == row.refinements
        && ended.cut.is_none()
        && are_named(&ended.names, row.names)
}

/// Whether one link was retired, over which this was sent at first.
fn was_sent(spawner: &MemorySpawner, sent: &[u8]) -> bool {
    if !are_retired(spawner, 1) || spawner.retired().is_empty() {
        return false;
    }
    spawner.retired()[0].sent.get().as_slice().starts_with(sent)
}

fn finds_over<R: Abort + Threads + Wait + Sync + Copy + Drop>(
    rt: R,
    alloc: Global,
    spawner: &mut MemorySpawner,
    command: &Command,
    row: &Found,
) -> bool
    requires { 0 < length command.now.words }
{
    let words = words_of(&rt, alloc, row.words);
    let ended = learn(rt, alloc, spawner, command, words, 1, row.kind);
    is_found(&ended, row) && was_sent(spawner, row.sent)
}

/// The command of a row.
fn command_of(rt: &impl Abort, alloc: Global, row: &Found) -> Command
    ensures { 0 < length result.words }
{
    match row.outputs {
        Some(list) => command(rt, alloc, Some(names(rt, alloc, list))),
        None => command(rt, alloc, None),
    }
}

fn finds<R: Abort + Threads + Wait + Sync + Copy + Drop>(
    rt: R,
    alloc: Global,
    row: &Found,
) -> bool {
    let command = command_of(&rt, alloc, row);
    let mut spawner = players(&rt, alloc);
    finds_over(rt, alloc, &mut spawner, &command, row)
}

#[test]
fn a_machine_is_found(rt: HostRuntime) {
    for row in &FOUND {
        assert!(rt; finds(rt, rt.alloc(), row));
    }
}

/// How a learning over speakers ends.
#[derive(Clone, Copy)]
enum Ending {
    Gone,
    /// With this bad line.
    Bad(&'static [u8]),
    Failed,
}

/// What is told of the run that was cut off.
struct Cut {
    asked: &'static [u16],
    received: Option<&'static [u8]>,
    rest: &'static [u8],
}

/// Whether a stop is that of this instance, with this ending.
fn stops_so(stop: &LearnStop, number: u32, want: Ending) -> bool {
    let LearnStop::Ask(AskStop::Sul { instance, stop }) = stop else {
        return false;
    };
    *instance == number
        && match (stop, want) {
            (SulStop::Gone, Ending::Gone) => true,
            (SulStop::Failed, Ending::Failed) => true,
            (SulStop::BadLine(line), Ending::Bad(bytes)) => line.as_slice() == bytes,
            _ => false,
        }
}

/// Whether a learning ended so, and kept nothing.
fn has_stopped(ended: &LearningOutcome, number: u32, want: Ending) -> bool {
    match &ended.learned {
        Err(stop) => stops_so(stop, number, want) && ended.kept.len() == 0,
        Ok(_) => false,
    }
}

fn is_run(run: &CutRun, number: u32, want: &Cut) -> bool {
    run.instance == number
        && run.asked.as_slice() == want.asked
        && is_line(&run.received, want.received)
        && run.rest.as_slice() == want.rest
}

/// Whether the run of this instance that was cut off is told so.
fn is_cut(cut: &Option<CutRun>, number: u32, want: &Option<Cut>) -> bool {
    match (cut, want) {
        (Some(run), Some(want)) => is_run(run, number, want),
        (None, None) => true,
        _ => false,
    }
}

/// What two children are, how many of them a learning asks for, and how it ends.
struct Row {
    text: &'static [u8],
    failing: u64,
    workers: u8,
    starts: usize,
    links: usize,
    instance: u32,
    ending: Ending,
    cut: Option<Cut>,
}

static ROWS: [Row; 4] = [
    Row {
        text: b"",
        failing: 9,
        workers: 1,
        starts: 1,
        links: 1,
        instance: 0,
        ending: Ending::Gone,
        cut: Some(Cut {
            asked: &[],
            received: None,
            rest: b"",
        }),
    },
    Row {
        text: b"Ready\n",
        failing: 9,
        workers: 1,
        starts: 1,
        links: 1,
        instance: 0,
        ending: Ending::Bad(b"Ready"),
        cut: Some(Cut {
            asked: &[],
            received: Some(b"Ready"),
            rest: b"",
        }),
    },
    // The first word that a table asks has two letters.
    Row {
        text: b"ready\nout z\nou",
        failing: 9,
        workers: 1,
        starts: 1,
        links: 1,
        instance: 0,
        ending: Ending::Gone,
        cut: Some(Cut {
            asked: &[0, 0],
            received: Some(b"out z"),
            rest: b"ou",
        }),
    },
    Row {
        text: b"ready\n",
        failing: 1,
        workers: 2,
        starts: 2,
        links: 1,
        instance: 1,
        ending: Ending::Failed,
        cut: None,
    },
];

/// Whether a learning has ended as its row says.
fn has_ended(ended: &LearningOutcome, spawner: &MemorySpawner, row: &Row) -> bool {
    has_stopped(ended, row.instance, row.ending)
        && is_cut(&ended.cut, row.instance, &row.cut)
        && spawner.started().len() == row.starts
        && spawner.retired().len() == row.links
}

/// Whether a learning ends as its row says.
fn ends_over<R: Abort + Threads + Wait + Sync + Copy + Drop>(
    rt: R,
    alloc: Global,
    spawner: &mut MemorySpawner,
    command: &Command,
    row: &Row,
) -> bool
    requires { 0 < length command.now.words }
{
    let words = Words::new(alloc);
    let ended = learn(rt, alloc, spawner, command, words, row.workers, Kind::Table);
    has_ended(&ended, spawner, row)
}

/// The same over the row's children.
fn ends<R: Abort + Threads + Wait + Sync + Copy + Drop>(
    rt: R,
    alloc: Global,
    command: &Command,
    row: &Row,
) -> bool
    requires { 0 < length command.now.words }
{
    let mut spawner = speakers(&rt, alloc, row.text, row.failing);
    ends_over(rt, alloc, &mut spawner, command, row)
}

#[test]
fn a_childs_end_is_told(rt: HostRuntime) {
    let command = command(&rt, rt.alloc(), None);
    for row in &ROWS {
        assert!(rt; ends(rt, rt.alloc(), &command, row));
    }
}

//! A learning that was worked out by hand, and whether it goes so.
ghost use Rattle.std.specs.Prelude.{◌<◌, ◌≤◌, ◌^◌, length};
ghost use Rattle.std.specs.List.{All};
ghost use Rattle.lw_words.specs.Word.{answers_of, IsWord};
ghost use Rattle.lw_cache.specs.Clash.{NothingClashes};
ghost use Rattle.lw_cache.specs.Settling.{MayAsk};

use lw_cache::Oracle;
use lw_chunks::Method;
use lw_mealy::Mealy;
use lw_rounds::{Kind, LearnStop, Learned, Learner, Settings, Step, Testing, Watcher, learn};
use lw_words::{Word, Words};
use std::alloc::Global;
use std::process::Abort;
use test_oracle::Recording;

pub const A: u16 = 0;

pub const B: u16 = 1;

/// The targets and outputs of a machine's states, by letter.
pub type Rows = &'static [&'static [(u16, u16)]];

/// What comes of a learning.
#[derive(Clone, Copy)]
pub enum Ending {
    /// A model.
    Model,
    /// A model of so many states, of a learner that was refined so often.
    Found(u16, u32),
    /// A model of so many states.
    FoundOf(u16),
    /// Words of these lengths, which need too many states.
    Crowd(&'static [usize]),
    /// So many words that need too many states.
    CrowdOf(usize),
    /// A model of so many states whose suite would have so many words.
    TooLarge(u16, u64),
}

/// A learning.
#[derive(Clone, Copy)]
pub struct Case {
    pub name: &'static str,
    pub outputs: u16,
    pub rows: Rows,
    /// The length of the word a a .. that is asked before it, or 0.
    pub known: usize,
    pub kind: Kind,
    pub extra: u8,
    pub most: u16,
    pub ending: Ending,
    /// How many batches are settled.
    pub batches: usize,
    /// The lengths of the words of the batches with these numbers.
    pub lengths: &'static [(usize, &'static [usize])],
    /// The words of the batches with these numbers.
    pub words: &'static [(usize, &'static [&'static [u16]])],
    /// The numbers of words of all batches; none where they aren't looked at.
    pub sizes: &'static [usize],
    /// The lengths of a tree's discriminators, none of which is temporary; none where they aren't looked at.
    pub discriminators: &'static [usize],
    /// The steps that a watcher is told; none where they aren't looked at.
    pub steps: &'static [Step],
}

/// A learning of a machine of two outputs with a table.
pub const PLAIN: Case = Case {
    name: "",
    outputs: 2,
    rows: &[],
    known: 0,
    kind: Kind::Table,
    extra: 1,
    most: 12,
    ending: Ending::Model,
    batches: 0,
    lengths: &[],
    words: &[],
    sizes: &[],
    discriminators: &[],
    steps: &[],
};

/// What was told of a learning.
#[derive(Drop)]
struct Notes {
    steps: Vec<Step>,
    is_whole: bool,
}

impl Notes {
    fn new(alloc: Global) -> Notes {
        Notes {
            steps: Vec::new(alloc),
            is_whole: true,
        }
    }

    /// Whether just these steps were told.
    fn are(&self, steps: &[Step]) -> bool {
        let mut each = self.steps.iter().zip(steps.iter());
        self.is_whole && self.steps.len() == steps.len() && each.all(|(told, step)| told == step)
    }
}

impl Watcher for Notes {
    fn step(&mut self, step: Step) {
        self.is_whole = self.steps.push(step).is_ok() && self.is_whole;
    }
}

/// What came of a learning.
#[derive(Drop)]
struct Came {
    oracle: Recording,
    learned: Result<Learned, LearnStop>,
    notes: Notes,
}

/// The machine of these rows.
fn machine_of(rt: &impl Abort, alloc: Global, outputs: u16, rows: Rows) -> Mealy {
    let mut copies = Vec::new(alloc);
    for row in rows {
        let copy = Vec::from_slice(alloc, row).expect(rt, "memory");
        copies.push(copy).expect(rt, "memory");
    }
    let inputs = match rows.first() {
        Some(row) => row.len(),
        None => 0,
    };
    let inputs = u16::try_from(inputs).expect(rt, "a number of letters");
    assert!(rt; 1 <= inputs && inputs <= 64 && 1 <= outputs && outputs <= 4096);
    Mealy::new(alloc, inputs, outputs, copies).expect(rt, "a machine")
}

/// The word a a .. of this length, over so many letters.
fn word_of(rt: &impl Abort, alloc: Global, inputs: u16, long: usize) -> Words
    ensures letters { All (IsWord inputs) result }
    ensures few { length result < 2 ^ 32 }
{
    let mut words = Words::new(alloc);
    let word = Word::from_letters(alloc, vec![in alloc; A; long].expect(rt, "memory"));
    assert!(rt; word.as_slice().iter().all(|x| *x < inputs));
    assert!(rt; words.push(word).is_ok(), "memory");
    words
}

/// The oracle of a machine that was asked the word a a .. of this length, if that isn't 0.
fn oracle_of(rt: &impl Abort, alloc: Global, machine: Mealy, length: usize) -> Recording
    ensures letters { (1 ≤ result.machine.inputs) × (result.machine.inputs ≤ 64) }
    ensures signs { (1 ≤ result.machine.outputs) × (result.machine.outputs ≤ 4096) }
    ensures nothing { NothingClashes (answers_of result.kept) }
    ensures may { MayAsk result.stop }
{
    // The machine tells that it is within the limits.
    let inputs = machine.inputs();
    let mut oracle = Recording::new(alloc, machine);
    if length == 0 {
        return oracle;
    }
    let words = word_of(rt, alloc, inputs, length);
    match oracle.settle(words.as_slice()) {
        Ok(()) => oracle,
        Err(_) => rt.panic("the word was refused"),
    }
}

/// What comes of a learning: the clauses of `learn` would weigh down each proof that calls it.
fn call(
    alloc: Global,
    oracle: &mut Recording,
    settings: Settings,
    notes: &mut Notes,
) -> Result<Learned, LearnStop>
    requires letters { (1 ≤ oracle.old.machine.inputs) × (oracle.old.machine.inputs ≤ 64) }
    requires signs { (1 ≤ oracle.old.machine.outputs) × (oracle.old.machine.outputs ≤ 4096) }
    requires nothing { NothingClashes (answers_of oracle.old.kept) }
    requires may { MayAsk oracle.old.stop }
{
    learn(oracle, alloc, settings, notes)
}

/// What comes of a case.
fn play(rt: &impl Abort, alloc: Global, case: &Case) -> Came {
    let settings = Settings::new(
        1,
        case.kind,
        case.extra,
        case.most,
        Testing::by(Method::W),
    ).expect(rt, "settings");
    let machine = machine_of(rt, alloc, case.outputs, case.rows);
    let mut oracle = oracle_of(rt, alloc, machine, case.known);
    let mut notes = Notes::new(alloc);
    let learned = call(alloc, &mut oracle, settings, &mut notes);
    Came {
        oracle,
        learned,
        notes,
    }
}

/// Whether words have just these lengths, in this order.
fn are_long(words: &[Word], lengths: &[usize]) -> bool {
    if words.len() != lengths.len() {
        return false;
    }
    for number in 0..words.len() {
        if words[number].len() != lengths[number] {
            return false;
        }
    }
    true
}

/// Whether a model is meant.
fn ends_with_model(learned: &Learned, ending: Ending) -> bool {
    let states = learned.model.states();
    match ending {
        Ending::Model => true,
        Ending::Found(count, refinements) => {
            states == count && learned.refinements() == refinements
        }
        Ending::FoundOf(count) => states == count,
        _ => false,
    }
}

/// Whether a stop is meant.
fn ends_with_stop(stop: &LearnStop, ending: Ending) -> bool {
    match stop {
        LearnStop::Ask(_) => false,
        LearnStop::Crowd(words) => match ending {
            Ending::Crowd(lengths) => are_long(words.as_slice(), lengths),
            Ending::CrowdOf(count) => words.len() == count,
            _ => false,
        },
        LearnStop::TooLarge { model, number } => match ending {
            Ending::TooLarge(states, size) => model.states() == states && *number == size,
            _ => false,
        },
    }
}

/// Whether a learning ends as is meant.
fn ends_so(came: &Came, ending: Ending) -> bool {
    match &came.learned {
        Ok(learned) => ends_with_model(learned, ending),
        Err(stop) => ends_with_stop(stop, ending),
    }
}

/// Whether the batch with this number has words of just these lengths, in this order.
fn asked_long(oracle: &Recording, number: usize, lengths: &[usize]) -> bool {
    match oracle.batches().get(number) {
        Some(batch) => are_long(batch.as_slice(), lengths),
        None => false,
    }
}

/// Whether the batches are those of a case.
fn asks_so(oracle: &Recording, case: &Case) -> bool {
    oracle.batches().len() == case.batches
        && all_asked_long(oracle, case.lengths)
        && all_asked(oracle, case.words)
}

/// Whether the batches with these numbers have words of these lengths.
fn all_asked_long(oracle: &Recording, batches: &[(usize, &[usize])]) -> bool {
    for (number, lengths) in batches {
        if !asked_long(oracle, *number, lengths) {
            return false;
        }
    }
    true
}

/// Whether the batches with these numbers have these words.
fn all_asked(oracle: &Recording, batches: &[(usize, &[&[u16]])]) -> bool {
    for (number, words) in batches {
        if !oracle.asked(*number, words) {
            return false;
        }
    }
    true
}

/// Whether the batches have just these numbers of words, where a case tells them.
fn sizes_so(oracle: &Recording, sizes: &[usize]) -> bool {
    let batches = oracle.batches();
    if sizes.is_empty() || batches.len() != sizes.len() {
        return sizes.is_empty();
    }
    for number in 0..batches.len() {
        if batches[number].len() != sizes[number] {
            return false;
        }
    }
    true
}

/// Whether a learner is a tree whose discriminators have just these lengths, and none is temporary.
fn has_discriminators(rt: &impl Abort, learner: &Learner, lengths: &[usize]) -> bool {
    match learner {
        Learner::Tree(tree) => {
            let words = tree.discriminators().expect(rt, "memory");
            tree.temporary() == 0 && are_long(words.as_slice(), lengths)
        }
        Learner::Table(_) => false,
    }
}

/// Whether the discriminators are those of a case, where it tells them.
fn parts_so(rt: &impl Abort, came: &Came, lengths: &[usize]) -> bool {
    match &came.learned {
        Ok(learned) if !lengths.is_empty() => has_discriminators(rt, &learned.learner, lengths),
        _ => lengths.is_empty(),
    }
}

/// Whether what came of a case is what was worked out.
fn came_so(rt: &impl Abort, came: &Came, case: &Case) -> bool {
    ends_so(came, case.ending)
        && asks_so(&came.oracle, case)
        && sizes_so(&came.oracle, case.sizes)
        && parts_so(rt, came, case.discriminators)
        && (case.steps.is_empty() || came.notes.are(case.steps))
}

/// Whether a case goes as was worked out.
fn goes_so(rt: &impl Abort, alloc: Global, case: &Case) -> bool {
    let came = play(rt, alloc, case);
    came_so(rt, &came, case)
}

/// Lets each case go as was worked out.
pub fn all_go(rt: &impl Abort, alloc: Global, cases: &[Case]) {
    for case in cases {
        assert!(rt; goes_so(rt, alloc, case), "{}", case.name);
    }
}

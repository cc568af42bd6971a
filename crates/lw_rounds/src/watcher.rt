//! Who watches a learning, and what is told.
use crate::Learner;
use lw_cache::Oracle;
use lw_mealy::Mealy;
use lw_words::Kept;

/// What a step of a learning did.
#[derive(Clone, Copy, Debug, PartialEq, Eq)]
pub enum Phase {
    /// Words that a person named were settled.
    Words,
    /// The learner was closed.
    Table,
    /// Words of the suite were settled.
    Suite,
    /// Walks were settled, behind the suite.
    Walks,
    /// A difference was analysed, and the learner refined by it.
    Analysis,
    /// A block of a tree's temporary nodes was settled.
    Settling,
}

/// A step of a learning, once it is done.
#[derive(Clone, Copy, Debug, PartialEq, Eq)]
pub struct Step {
    /// The round that it belongs to. Each begins with the machine of a closed learner, and the first is 1; what comes before that
    /// is of the round 0.
    pub round: u32,
    pub phase: Phase,
    /// The states of the learner now, or 0 before it was closed.
    pub states: u16,
    /// The answers that were gained in it.
    pub asked: usize,
    /// The recorded answers now.
    pub known: usize,
    /// How often the learner was refined until now.
    pub refinements: u32,
}

/// Of a suite or of walks that are under way: how many of their words were settled, and how many there are at most.
#[derive(Clone, Copy, Debug, PartialEq, Eq)]
pub struct Tests {
    pub settled: u64,
    pub most: u64,
}

/// How far a learning got by a step, beside what the step tells.
#[derive(Clone, Copy, Debug, PartialEq, Eq)]
pub struct Progress {
    /// The letters of the words whose answers were gained in it.
    pub letters: u64,
    /// The tests of the model, where some are under way.
    pub tests: Option<Tests>,
}

/// One who watches a learning. Nothing of a learning depends on it.
pub trait Watcher {
    /// Is told of a step that is done. A step that ends in an error isn't told.
    fn step(&mut self, step: Step);

    /// Whether it wants to be told of progress, which takes a look at each answer.
    fn wants_progress(&self) -> bool {
        false
    }

    /// Is told of progress, before it is told of the step that made it.
    fn progress(&mut self, _: Progress) {}

    /// Is told of the machine of a closed learner, with which a round begins.
    fn hypothesis(&mut self, _: &Mealy) {}

    /// Is told that the outputs of machines have new numbers from now on, the list's at the place of the old one.
    fn renumber(&mut self, _: &[u16]) {}
}

/// Nobody watches.
#[derive(Clone, Copy, Debug)]
pub struct Unwatched;

impl Watcher for Unwatched {
    fn step(&mut self, _: Step) {}
}

/// The number of an oracle's recorded answers.
fn known<O: Oracle>(oracle: &O) -> usize {
    oracle.cache().kept().len()
}

/// The letters of the answers from this one on.
fn letters_from(kept: &Kept, first: usize) -> u64 {
    let mut letters: u64 = 0;
    for number in first..kept.len() {
        letters = letters.saturating_add(kept.get(number).word.len() as u64);
    }
    letters
}

/// Tells a watcher of a step, once it is done, by what is recorded now; and of the progress, where it wants that.
pub fn tell_step<W: Watcher>(watcher: &mut W, step: Step, kept: &Kept, tests: Option<Tests>) {
    if watcher.wants_progress() {
        let first = kept.len().saturating_sub(step.asked);
        watcher.progress(Progress {
            letters: letters_from(kept, first),
            tests,
        });
    }
    watcher.step(step);
}

/// What a watcher is told of a learning: each step follows on the one before.
#[derive(Drop)]
pub struct Account<'a, W> {
    watcher: &'a mut W,
    round: u32,
    states: u16,
    known: usize,
    refinements: u32,
    tests: Option<Tests>,
}

impl<'a, W: Watcher> Account<'a, W> {
    /// Before the learner was closed, with what the oracle keeps.
    pub fn new<O: Oracle>(watcher: &'a mut W, oracle: &O) -> Account<'a, W> {
        let known = known(oracle);
        Account {
            watcher,
            round: 0,
            states: 0,
            known,
            refinements: 0,
            tests: None,
        }
    }

    /// The next round begins, with this machine.
    pub fn begin_round(&mut self, hypothesis: &Mealy) {
        self.round = self.round.saturating_add(1);
        self.watcher.hypothesis(hypothesis);
    }

    /// Tests of the model begin, of so many words at most.
    pub fn begin_tests(&mut self, most: u64) {
        self.tests = Some(Tests { settled: 0, most });
    }

    /// Tells of tests, of this many words.
    pub fn tell_tests<O: Oracle>(&mut self, phase: Phase, words: usize, oracle: &O) {
        if let Some(tests) = &mut self.tests {
            tests.settled = tests.settled.saturating_add(words as u64);
        }
        self.tell(phase, oracle);
    }

    /// Tells of a step that left the learner as it was.
    fn tell<O: Oracle>(&mut self, phase: Phase, oracle: &O) {
        let known = known(oracle);
        let step = Step {
            round: self.round,
            phase,
            states: self.states,
            asked: known.saturating_sub(self.known),
            known,
            refinements: self.refinements,
        };
        tell_step(self.watcher, step, oracle.cache().kept(), self.tests);
        self.known = known;
    }

    /// Tells of a step of the learner.
    pub fn tell_learner<O: Oracle>(&mut self, phase: Phase, learner: &Learner, oracle: &O) {
        self.states = u16::try_from(learner.access().len()).unwrap_or(u16::MAX);
        self.refinements = learner.refinements();
        self.tests = None;
        self.tell(phase, oracle);
    }
}

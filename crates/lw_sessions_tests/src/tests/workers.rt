//! Learnings worked by hand, with pools of one to three sessions: what is asked, and what is answered.
ghost use Rattle.std.specs.Prelude.{◌≡◌, ◌<◌, ◌^◌, length, OnOk};
ghost use Rattle.std.specs.List.{All};
ghost use Rattle.lw_words.specs.Word.{answers_of, IsWord};
ghost use Rattle.lw_cache.specs.Clash.{NothingClashes};
ghost use Rattle.lw_cache.specs.Settling.{MayAsk};

use crate::tests::are_below;
use crate::tests::workers::crews::{Refusing, pool_of};
use lw_cache::AskStop;
use lw_chunks::Method;
use lw_pool::Pool;
use lw_rounds::{Kind, LearnStop, Learned, Phase, Settings, Step, Testing, Watcher};
use lw_words::{Kept, Word, Words};
use lw_workers::{LearnedWith, learn_with};
use std::alloc::Global;
use std::process::Abort;
use std::sync::Wait;
use std::thread::Threads;

mod crews;
mod machines;
mod prior;

/// The counter of three: each third letter is answered by 1.
const COUNTER: [(u16, u16); 3] = [(1, 0), (2, 0), (0, 1)];

/// What comes of a learning.
#[derive(Clone, Copy)]
enum Ending {
    /// A model of so many states, of a learner that was refined so often.
    Found(u16, u32),
    /// So many words that need too many states.
    Crowd(usize),
    /// A stop of the session with this number.
    Stopped(u32),
}

/// A learning, and the numbers of letters of the words whose answers are kept then, in their order.
#[derive(Clone, Copy)]
struct Case {
    name: &'static str,
    cells: &'static [(u16, u16)],
    sessions: usize,
    refused: Option<u32>,
    /// The length of the word that is asked first, or 0.
    first: usize,
    kind: Kind,
    extra: u8,
    most: u16,
    ending: Ending,
    kept: &'static [usize],
}

/// What was told of a learning.
#[derive(Drop)]
struct Notes {
    steps: Vec<Step>,
    is_whole: bool,
}

impl Notes {
    fn new(alloc: Global) -> Notes {
        Notes {
            steps: Vec::new(alloc),
            is_whole: true,
        }
    }

    /// Whether just these steps were told.
    fn are(&self, steps: &[Step]) -> bool {
        let mut each = self.steps.iter().zip(steps.iter());
        self.is_whole && self.steps.len() == steps.len() && each.all(|(told, step)| told == step)
    }
}

impl Watcher for Notes {
    fn step(&mut self, step: Step) {
        self.is_whole = self.steps.push(step).is_ok() && self.is_whole;
    }
}

/// Whether the recorded answers are to words of these numbers of letters, in this order.
fn are_long(kept: &Kept, letters: &[usize]) -> bool {
    let mut right = kept.len() == letters.len();
    for i in 0..kept.len() {
        right = right && letters.get(i).copied() == Some(kept.get(i).word.len());
    }
    right
}

/// Whether a pool of so many sessions has kept the answers to words of these numbers of letters.
fn has_asked<R>(ended: &LearnedWith<Refusing, R>, sessions: usize, letters: &[usize]) -> bool {
    ended.pool.sessions() == sessions && are_long(ended.pool.cache().kept(), letters)
}

/// Whether a model of so many states was found with so many refinements.
fn is_found(learned: &Result<Learned, LearnStop>, states: u16, refinements: u32) -> bool {
    let Ok(learned) = learned else {
        return false;
    };
    learned.model.states() == states && learned.refinements() == refinements
}

/// Whether it ended with this many pairwise apart words.
fn is_crowd(learned: &Result<Learned, LearnStop>, count: usize) -> bool {
    match learned {
        Err(LearnStop::Crowd(words)) => words.len() == count,
        _ => false,
    }
}

/// Whether it ended with a stop of this session.
fn is_stop(learned: &Result<Learned, LearnStop>, session: u32) -> bool {
    match learned {
        Err(LearnStop::Ask(AskStop::Sul { instance, .. })) => *instance == session,
        _ => false,
    }
}

fn ends_so(learned: &Result<Learned, LearnStop>, ending: Ending) -> bool {
    match ending {
        Ending::Found(states, refinements) => is_found(learned, states, refinements),
        Ending::Crowd(count) => is_crowd(learned, count),
        Ending::Stopped(session) => is_stop(learned, session),
    }
}

/// The empty word and the word of this length, where there is to be one.
fn words_of(rt: &impl Abort, alloc: Global, long: usize) -> Words
    ensures letters { All (IsWord 1) result }
    ensures few { length result < 2 ^ 32 }
{
    let mut words = Words::new(alloc);
    if long == 0 {
        return words;
    }
    let letters = vec![in alloc; 0u16; long].expect(rt, "memory");
    assert!(rt; are_below(&letters, 1));
    assert!(rt; words.push(Word::new(alloc)).is_ok());
    assert!(rt; words.push(Word::from_letters(alloc, letters)).is_ok());
    words
}

/// What comes of a pool that is as a case has it, after these words: the clauses of `learn_with` would weigh down each proof that
/// calls it.
fn learn_by<R: Abort + Threads + Wait + Sync + Copy + Drop>(
    rt: R,
    alloc: Global,
    pool: Pool<Refusing, R>,
    words: &[Word],
    case: &Case,
    notes: &mut Notes,
) -> LearnedWith<Refusing, R>
    requires may { MayAsk pool.stop }
    requires nothing { NothingClashes (answers_of pool.kept) }
    requires numbers { (pool.inputs ≡ 1) × (pool.outputs ≡ 2) }
    requires letters { All (IsWord 1) words.now }
    requires few { length words.now < 2 ^ 32 }
    ensures numbers { (result.pool.inputs ≡ 1) × (result.pool.outputs ≡ 2) }
    ensures may { OnOk result.learned (MayAsk result.pool.stop) }
    ensures nothing { OnOk result.learned (NothingClashes (answers_of result.pool.kept)) }
{
    let settings = Settings::new(
        1,
        case.kind,
        case.extra,
        case.most,
        Testing::by(Method::W),
    ).expect(&rt, "settings");
    learn_with(pool, alloc, words, settings, notes)
}

/// What comes of a case.
fn play<R: Abort + Threads + Wait + Sync + Copy + Drop>(
    rt: R,
    alloc: Global,
    case: &Case,
    notes: &mut Notes,
) -> LearnedWith<Refusing, R>
    ensures numbers { (result.pool.inputs ≡ 1) × (result.pool.outputs ≡ 2) }
    ensures may { OnOk result.learned (MayAsk result.pool.stop) }
    ensures nothing { OnOk result.learned (NothingClashes (answers_of result.pool.kept)) }
{
    let words = words_of(&rt, alloc, case.first);
    let pool = pool_of(rt, alloc, case.cells, case.sessions, case.refused);
    learn_by(rt, alloc, pool, words.as_slice(), case, notes)
}

/// Whether a case goes as was worked out.
fn goes<R: Abort + Threads + Wait + Sync + Copy + Drop>(rt: R, alloc: Global, case: &Case) -> bool {
    let ended = play(rt, alloc, case, &mut Notes::new(alloc));
    ends_so(&ended.learned, case.ending) && has_asked(&ended, case.sessions, case.kept)
}

/// The name of the first case that goes otherwise than was worked out.
fn first_wrong<R: Abort + Threads + Wait + Sync + Copy + Drop>(
    rt: R,
    alloc: Global,
    cases: &[Case],
) -> Option<&'static str> {
    for case in cases {
        if !goes(rt, alloc, case) {
            return Some(case.name);
        }
    }
    None
}

/// A counter of three with two sessions.
const PLAIN: Case = Case {
    name: "two sessions find a counter",
    cells: &COUNTER,
    sessions: 2,
    refused: None,
    first: 0,
    kind: Kind::Table,
    extra: 2,
    most: 4,
    ending: Ending::Found(3, 1),
    kept: &[2, 3, 4, 5, 7],
};

/// The tree begins with the word of one letter. Its temporary discriminator, of two, is settled without a further word.
const TREE: Case = Case {
    name: "two sessions find a counter by a tree",
    kind: Kind::Ttt,
    kept: &[1, 3, 4, 5, 7],
    ..PLAIN
};

/// Each batch of the counter's has one word to ask.
static CASES: [Case; 9] = [
    PLAIN,
    Case {
        name: "one session finds a counter",
        sessions: 1,
        ..PLAIN
    },
    Case {
        name: "three sessions find a counter",
        sessions: 3,
        ..PLAIN
    },
    TREE,
    Case {
        name: "one session finds a counter by a tree",
        sessions: 1,
        ..TREE
    },
    Case {
        name: "three sessions find a counter by a tree",
        sessions: 3,
        ..TREE
    },
    Case {
        name: "two sessions find a machine of one state",
        cells: &[(0, 0)],
        extra: 1,
        ending: Ending::Found(1, 0),
        kept: &[2],
        ..PLAIN
    },
    Case {
        name: "two states are too few for a counter",
        most: 2,
        ending: Ending::Crowd(3),
        kept: &[2, 3, 4],
        ..PLAIN
    },
    // The fourth call of the session is its second reset.
    Case {
        name: "a session that stops ends a learning",
        sessions: 1,
        refused: Some(3),
        ending: Ending::Stopped(0),
        kept: &[2],
        ..PLAIN
    },
];

#[test]
fn learnings_go_as_was_worked_out(rt: HostRuntime) {
    assert_eq!(rt; first_wrong(rt, rt.alloc(), &CASES), None);
}

/// The word of three letters tells the first table's machine apart, and the empty word is not asked.
static ASKED_FIRST: Case = Case {
    name: "a word that is asked first",
    first: 3,
    kept: &[3, 4, 5, 7],
    ..PLAIN
};

/// The table is closed by what is known. The refinement brings the words of four and of five letters, and the suite that of
/// seven.
static STEPS: [Step; 4] = [
    Step {
        round: 0,
        phase: Phase::Words,
        states: 0,
        asked: 1,
        known: 1,
        refinements: 0,
    },
    Step {
        round: 0,
        phase: Phase::Table,
        states: 1,
        asked: 0,
        known: 1,
        refinements: 0,
    },
    Step {
        round: 1,
        phase: Phase::Analysis,
        states: 3,
        asked: 2,
        known: 3,
        refinements: 1,
    },
    Step {
        round: 2,
        phase: Phase::Suite,
        states: 3,
        asked: 1,
        known: 4,
        refinements: 1,
    },
];

/// Whether the word is asked first, and each step is told.
fn asks_first<R: Abort + Threads + Wait + Sync + Copy + Drop>(rt: R, alloc: Global) -> bool {
    let mut notes = Notes::new(alloc);
    let ended = play(rt, alloc, &ASKED_FIRST, &mut notes);
    let right = ends_so(&ended.learned, ASKED_FIRST.ending);
    right && has_asked(&ended, 2, ASKED_FIRST.kept) && notes.are(&STEPS)
}

#[test]
fn words_are_asked_first(rt: HostRuntime) {
    assert!(rt; asks_first(rt, rt.alloc()));
}

/// A pool of two sessions that found the counter.
fn found_pool<R: Abort + Threads + Wait + Sync + Copy + Drop>(
    rt: R,
    alloc: Global,
) -> Pool<Refusing, R>
    ensures numbers { (result.inputs ≡ 1) × (result.outputs ≡ 2) }
    ensures may { MayAsk result.stop }
    ensures nothing { NothingClashes (answers_of result.kept) }
{
    let LearnedWith { learned, pool } = play(rt, alloc, &PLAIN, &mut Notes::new(alloc));
    match learned {
        Ok(_) => pool,
        Err(_) => rt.panic("the counter wasn't found"),
    }
}

/// Whether such a pool finds the counter again without asking anything.
fn finds_again<R: Abort + Threads + Wait + Sync + Copy + Drop>(rt: R, alloc: Global) -> bool {
    let pool = found_pool(rt, alloc);
    let again = learn_by(rt, alloc, pool, &[], &PLAIN, &mut Notes::new(alloc));
    is_found(&again.learned, 3, 1) && has_asked(&again, 2, PLAIN.kept)
}

#[test]
fn a_pool_that_has_learned_learns_again(rt: HostRuntime) {
    assert!(rt; finds_again(rt, rt.alloc()));
}

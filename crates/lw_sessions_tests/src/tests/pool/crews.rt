//! Pools of tables with two letters and two outputs, for the tests.
ghost use Rattle.std.specs.Prelude.{◌≡◌, ◌<◌, None, length};
ghost use Rattle.std.specs.List.{All};
ghost use Rattle.lw_pool.specs.Opening.{AllMayJoin, member_of};

use crate::tests::pool::acting::{Acting, Meeting};
use crate::tests::{are_below, are_words, names, words};
use lw_cache::{AskStop, Cache};
use lw_mealy::Mealy;
use lw_names::OutNames;
use lw_pool::Pool;
use lw_sul::{Session, Sul, TableSul};
use lw_words::{Kept, KeptAnswer, Names, Word};
use std::alloc::Global;
use std::process::Abort;
use std::sync::atomic::AtomicU32;
use std::sync::{Arc, Wait};
use std::thread::Threads;

/// A machine of two letters and two outputs.
pub fn machine(rt: &impl Abort, alloc: Global, rows: &[[(u16, u16); 2]]) -> Mealy {
    let mut copies = Vec::new(alloc);
    for row in rows {
        let copy = Vec::from_slice(alloc, row.as_slice()).expect(rt, "memory");
        copies.push(copy).expect(rt, "memory");
    }
    Mealy::new(alloc, 2, 2, copies).expect(rt, "a machine")
}

/// A number that two share.
type Shared = Arc<AtomicU32, Global>;

/// Both ends of one.
fn shared(rt: &impl Abort, alloc: Global) -> (Shared, Shared) {
    let one = Arc::new(alloc, AtomicU32::new(0)).expect(rt, "memory");
    let other = Arc::try_clone(&one).expect(rt, "a number that few share");
    (one, other)
}

/// Two ends of one meeting.
fn meeting(rt: &impl Abort, alloc: Global) -> (Meeting, Meeting) {
    let (one, first) = shared(rt, alloc);
    let (other, second) = shared(rt, alloc);
    let here = Meeting {
        here: first,
        there: second,
    };
    let there = Meeting {
        here: other,
        there: one,
    };
    (here, there)
}

/// A system of a pool that is to be: its machine, which of its calls it refuses, and whether it meets another one.
#[derive(Drop)]
pub struct Plan {
    pub machine: Mealy,
    pub refused: Option<u32>,
    pub meeting: Option<Meeting>,
}

impl Plan {
    /// Its system.
    fn acting(self, rt: &impl Abort, names: &Names) -> Acting
        ensures names { result.table.names ≡ names.now }
        ensures live { result.stop ≡ None }
        ensures numbers { (result.table.machine.inputs ≡ 2) × (result.table.machine.outputs ≡ 2) ×
            (length names.now ≡ 2) }
    {
        let Plan {
            machine,
            refused,
            meeting,
        } = self;
        assert!(rt; machine.inputs() == 2 && machine.outputs() == 2 && names.len() == 2);
        let table = TableSul::new(machine, names.copy().expect(rt, "memory"));
        Acting::new(table, refused, meeting)
    }
}

/// Sessions of these systems, in this order.
pub fn hired(
    rt: &impl Abort,
    alloc: Global,
    names: &Names,
    shared: &OutNames,
    plans: Vec<Plan>,
) -> Vec<Session<Acting>>
    requires { shared.now ≡ record { names = names.now; brought = None } }
    ensures { AllMayJoin (member_of ⟦<Acting as Sul>⟧.state) shared.now 2 2 result.items }
{
    let mut sessions = Vec::new(alloc);
    for plan in plans {
        let instance = u32::try_from(sessions.len()).expect(rt, "few sessions");
        let acting = plan.acting(rt, names);
        let session = Session::new(alloc, instance, acting);
        sessions.push(session).expect(rt, "memory");
    }
    sessions
}

/// A pool of these systems, in this order.
pub fn pool_of<R: Abort + Copy + Drop>(rt: R, alloc: Global, plans: Vec<Plan>) -> Pool<Acting, R>
    ensures { result.inputs ≡ 2 }
{
    let names = names(&rt, alloc, &["0", "1"]);
    let shared = OutNames::declared(alloc, &names).expect(&rt, "memory");
    let sessions = hired(&rt, alloc, &names, &shared, plans);
    assert!(rt; !sessions.is_empty() && sessions.len() <= 16);
    match Pool::new(rt, alloc, 2, 2, sessions, shared, Cache::new(alloc)) {
        Ok(pool) => pool,
        Err(_) => rt.panic("there is no memory"),
    }
}

/// Five states, in which letters and outputs matter.
pub const ROWS: [[(u16, u16); 2]; 5] = [
    [(1, 0), (4, 1)],
    [(3, 1), (1, 0)],
    [(0, 0), (2, 0)],
    [(2, 1), (4, 1)],
    [(4, 0), (0, 1)],
];

/// A system of this machine that does as it should.
pub fn sound(rt: &impl Abort, alloc: Global, rows: &[[(u16, u16); 2]]) -> Plan {
    Plan {
        machine: machine(rt, alloc, rows),
        refused: None,
        meeting: None,
    }
}

/// So many of them.
pub fn plans_of(
    rt: &impl Abort,
    alloc: Global,
    rows: &[[(u16, u16); 2]],
    count: usize,
) -> Vec<Plan> {
    let mut plans = Vec::new(alloc);
    for _ in 0..count {
        plans.push(sound(rt, alloc, rows)).expect(rt, "memory");
    }
    plans
}

/// So many of the machine of five states.
pub fn sound_plans(rt: &impl Abort, alloc: Global, count: usize) -> Vec<Plan> {
    plans_of(rt, alloc, &ROWS, count)
}

/// A system that gives each letter this output, and meets another one.
fn meets(rt: &impl Abort, alloc: Global, output: u16, meeting: Meeting) -> Plan {
    Plan {
        machine: machine(rt, alloc, &[[(0, output), (0, output)]]),
        refused: None,
        meeting: Some(meeting),
    }
}

/// Two systems that meet, of which the first gives output 0.
fn meeting_plans(rt: &impl Abort, alloc: Global, output: u16) -> Vec<Plan> {
    let (here, there) = meeting(rt, alloc);
    let mut plans = Vec::with_capacity(alloc, 2).expect(rt, "memory");
    plans.push_reserved(meets(rt, alloc, 0, here));
    plans.push_reserved(meets(rt, alloc, output, there));
    plans
}

/// Two systems that meet in their first steps: one that answers 0 to each letter, and another.
pub fn meeting_pool<R: Abort + Copy + Drop>(rt: R, alloc: Global, output: u16) -> Pool<Acting, R>
    ensures { result.inputs ≡ 2 }
{
    pool_of(rt, alloc, meeting_plans(&rt, alloc, output))
}

/// Settles a batch of words over two letters.
pub fn settle<S: Sul + Send, R: Abort + Threads + Wait + Sync>(
    rt: &R,
    pool: &mut Pool<S, R>,
    batch: &[Word],
) -> Result<(), AskStop>
    requires { pool.old.inputs ≡ 2 }
    ensures { pool.new.inputs ≡ 2 }
{
    assert!(rt; batch.len() <= 1000);
    assert!(rt; are_words(batch, 2));
    pool.settle_all(batch)
}

/// Settles these words; whether that succeeds.
pub fn settles<S: Sul + Send, R: Abort + Threads + Wait + Sync>(
    rt: &R,
    pool: &mut Pool<S, R>,
    alloc: Global,
    list: &[&[u16]],
) -> bool
    requires { pool.old.inputs ≡ 2 }
    ensures { pool.new.inputs ≡ 2 }
{
    settle(rt, pool, &words(rt, alloc, list)).is_ok()
}

/// The word whose letters are the last bits of a number.
fn word_of_bits(rt: &impl Abort, alloc: Global, bits: u16, count: u32) -> Word {
    let mut word = Word::new(alloc);
    for k in 0..count {
        word.push((bits >> (k % 16)) % 2).expect(rt, "memory");
    }
    word
}

/// Each word of so many letters.
pub fn all_words(rt: &impl Abort, alloc: Global, letters: u32) -> Vec<Word> {
    let mut words = Vec::new(alloc);
    for bits in 0..1u16 << (letters % 10) {
        let word = word_of_bits(rt, alloc, bits, letters);
        words.push(word).expect(rt, "memory");
    }
    words
}

/// Whether an answer is the machine's to a word of four letters.
fn is_answer(rt: &impl Abort, m: &Mealy, k: &KeptAnswer) -> bool {
    if m.inputs() != 2 || k.word.len() != 4 || !are_below(k.word.as_slice(), 2) {
        return false;
    }
    let outs = m.answer(&k.word).expect(rt, "memory");
    outs.as_slice() == k.outs.as_slice()
}

/// How many of the recorded answers are the machine's to this word of four letters.
fn answers_to(rt: &impl Abort, m: &Mealy, kept: &Kept, w: &Word) -> usize {
    let mut count = 0usize;
    for i in 0..kept.len() {
        let k = kept.get(i);
        if k.word.as_slice() == w.as_slice() && is_answer(rt, m, k) {
            count = count.saturating_add(1);
        }
    }
    count
}

/// Whether these are the machine's answers to all words of four letters, each once.
pub fn are_all_answers(rt: &impl Abort, alloc: Global, m: &Mealy, kept: &Kept) -> bool {
    let all = all_words(rt, alloc, 4);
    let mut right = kept.len() == all.len();
    for w in &all {
        right = right && answers_to(rt, m, kept, w) == 1;
    }
    right
}

//! How a crew shares a batch, and pools: what is asked, two at once, sessions that disagree and one that stops.
ghost use Rattle.std.specs.Prelude.{◌≡◌, ◌<◌, ◌^◌, length};
ghost use Rattle.std.specs.List.{All};
ghost use Rattle.lw_words.specs.Word.{IsWord};
ghost use Rattle.lw_pool.specs.Settling.{HasSettled};

mod acting;
mod crews;
mod drawn;
mod free;
mod growing;
mod prior;
mod telling;

use crate::tests::pool::acting::Acting;
use crate::tests::pool::crews::{
    Plan, ROWS, all_words, are_all_answers, machine, meeting_pool, pool_of, settle, settles, sound,
    sound_plans,
};
use crate::tests::{are_words, words};
use lw_cache::{AskStop, Clash, Oracle};
use lw_pool::{ByCall, Pool, share};
use lw_words::{Kept, SulStop, Word};
use std::alloc::Global;
use std::process::Abort;
use std::sync::Wait;
use std::thread::Threads;

#[test]
fn the_end_of_a_batch_is_shared_word_by_word(rt: HostRuntime) {
    assert_eq!(rt; share(1000, 8), 16);
    assert_eq!(rt; share(64, 4), 8);
    assert_eq!(rt; share(9, 4), 1);
    assert_eq!(rt; share(0, 16), 1);
}

/// Settles all words of so many letters; whether that succeeds.
fn settles_all<R: Abort + Threads + Wait + Sync>(
    rt: &R,
    pool: &mut Pool<Acting, R>,
    alloc: Global,
    letters: u32,
) -> bool
    requires { pool.old.inputs ≡ 2 }
    ensures { pool.new.inputs ≡ 2 }
{
    settle(rt, pool, &all_words(rt, alloc, letters)).is_ok()
}

/// Settles the empty word; whether that succeeds, and nothing is kept.
fn keeps_nothing<R: Abort + Threads + Wait + Sync>(
    rt: &R,
    pool: &mut Pool<Acting, R>,
    alloc: Global,
) -> bool
    requires { pool.old.inputs ≡ 2 }
    ensures { pool.new.inputs ≡ 2 }
{
    let settled = settles_all(rt, pool, alloc, 0);
    settled && pool.cache().kept().len() == 0
}

/// Settles all words of four letters; whether that succeeds, and the machine's answers are kept, each once.
fn keeps_all<R: Abort + Threads + Wait + Sync>(
    rt: &R,
    pool: &mut Pool<Acting, R>,
    alloc: Global,
) -> bool
    requires { pool.old.inputs ≡ 2 }
    ensures { pool.new.inputs ≡ 2 }
{
    let settled = settles_all(rt, pool, alloc, 4);
    let m = machine(rt, alloc, &ROWS);
    settled && are_all_answers(rt, alloc, &m, pool.cache().kept())
}

/// Settles all words of three letters, and all of four once more; whether that succeeds, and no more is kept.
fn keeps_no_more<R: Abort + Threads + Wait + Sync>(
    rt: &R,
    pool: &mut Pool<Acting, R>,
    alloc: Global,
) -> bool
    requires { pool.old.inputs ≡ 2 }
{
    let shorter = settles_all(rt, pool, alloc, 3);
    let again = settles_all(rt, pool, alloc, 4);
    shorter && again && pool.cache().kept().len() == 16
}

/// Whether a pool asks each word of four letters once, and none that is known.
fn keeps_each_once<R: Abort + Threads + Wait + Sync>(
    rt: &R,
    pool: &mut Pool<Acting, R>,
    alloc: Global,
) -> bool
    requires { pool.old.inputs ≡ 2 }
{
    let empty = keeps_nothing(rt, pool, alloc);
    let long = keeps_all(rt, pool, alloc);
    let known = keeps_no_more(rt, pool, alloc);
    empty && long && known
}

/// The same of a pool of so many.
fn asks_each_once<R: Abort + Threads + Wait + Sync + Copy + Drop>(
    rt: R,
    alloc: Global,
    count: usize,
) -> bool {
    let mut pool = pool_of(rt, alloc, sound_plans(&rt, alloc, count));
    keeps_each_once(&rt, &mut pool, alloc)
}

#[test]
fn each_word_is_asked_once_by_however_many(rt: HostRuntime) {
    for count in [1usize, 2, 8, 16] {
        assert!(rt; asks_each_once(rt, rt.alloc(), count), "{count} sessions");
    }
}

/// A word behind one of its prefixes, and the prefix again.
static PREFIXES: [&[u16]; 3] = [&[0], &[0, 0, 0], &[0]];

/// Settles them twice; whether that succeeds, and one answer is kept.
fn keeps_longest<R: Abort + Threads + Wait + Sync>(
    rt: &R,
    pool: &mut Pool<Acting, R>,
    alloc: Global,
) -> bool
    requires { pool.old.inputs ≡ 2 }
{
    let first = settles(rt, pool, alloc, &PREFIXES);
    let again = settles(rt, pool, alloc, &PREFIXES);
    first && again && pool.cache().kept().len() == 1
}

/// Whether a pool leaves so many sessions and one answer.
fn leaves_one<R: Drop>(pool: Pool<Acting, R>, count: usize) -> bool {
    let (sessions, _, cache) = pool.into_parts();
    sessions.len() == count && cache.kept().len() == 1
}

/// Whether a pool of so many keeps and leaves one answer to a word and its prefixes.
fn keeps_one<R: Abort + Threads + Wait + Sync + Copy + Drop>(
    rt: R,
    alloc: Global,
    count: usize,
) -> bool {
    let mut pool = pool_of(rt, alloc, sound_plans(&rt, alloc, count));
    let settled = keeps_longest(&rt, &mut pool, alloc);
    let left = leaves_one(pool, count);
    settled && left
}

#[test]
fn a_prefix_and_a_repeated_word_are_not_asked(rt: HostRuntime) {
    for count in [1usize, 2, 8] {
        assert!(rt; keeps_one(rt, rt.alloc(), count), "{count} sessions");
    }
}

static TWO_WORDS: [&[u16]; 2] = [&[0], &[1]];

/// Settles two words with two systems that meet; whether that succeeds, and both are kept.
fn asks_two_at_once<R: Abort + Threads + Wait + Sync + Copy + Drop>(rt: R, alloc: Global) -> bool {
    let mut pool = meeting_pool(rt, alloc, 0);
    let settled = settles(&rt, &mut pool, alloc, &TWO_WORDS);
    settled && pool.cache().kept().len() == 2
}

#[test]
fn two_words_are_asked_at_once(rt: HostRuntime) {
    assert!(rt; asks_two_at_once(rt, rt.alloc()));
}

/// Settles a batch; whether the first two answers clash in their first outputs, and no more than these are kept.
fn clashes<R: Abort + Threads + Wait + Sync>(
    rt: &R,
    pool: &mut Pool<Acting, R>,
    batch: &[Word],
) -> bool
    requires { pool.old.inputs ≡ 2 }
    ensures { pool.new.inputs ≡ 2 }
{
    let Err(AskStop::Clash(clash)) = settle(rt, pool, batch) else {
        return false;
    };
    let expected = Clash {
        first: 0,
        second: 1,
        place: 0,
    };
    clash == expected && pool.cache().kept().len() == 2
}

static ALIKE: [&[u16]; 2] = [&[0, 0], &[0, 1]];

/// Settles two words twice; whether they clash each time.
fn stays_clashed<R: Abort + Threads + Wait + Sync>(
    rt: &R,
    pool: &mut Pool<Acting, R>,
    alloc: Global,
) -> bool
    requires { pool.old.inputs ≡ 2 }
{
    let batch = words(rt, alloc, &ALIKE);
    let first = clashes(rt, pool, &batch);
    let again = clashes(rt, pool, &batch);
    first && again
}

/// The same of two systems that disagree.
fn disagrees<R: Abort + Threads + Wait + Sync + Copy + Drop>(rt: R, alloc: Global) -> bool {
    let mut pool = meeting_pool(rt, alloc, 1);
    stays_clashed(&rt, &mut pool, alloc)
}

#[test]
fn sessions_that_disagree_clash_and_stay_so(rt: HostRuntime) {
    assert!(rt; disagrees(rt, rt.alloc()));
}

/// Whether all of them are answers of the first system to words of three letters.
fn all_of_first(kept: &Kept) -> bool {
    let mut all = true;
    for i in 0..kept.len() {
        all = all && kept.get(i).instance == 0 && kept.get(i).word.len() == 3;
    }
    all
}

fn is_stop_of_second(answered: &Result<(), AskStop>) -> bool {
    let Err(AskStop::Sul { instance, stop }) = answered else {
        return false;
    };
    *instance == 1 && matches!(stop, SulStop::Failed)
}

/// A system of the machine that does as it should, and one that refuses this call of its own.
fn one_refusing(rt: &impl Abort, alloc: Global, call: u32) -> Vec<Plan> {
    let mut plans = sound_plans(rt, alloc, 1);
    let mut second = sound(rt, alloc, &ROWS);
    second.refused = Some(call);
    plans.push(second).expect(rt, "memory");
    plans
}

/// Settles all words of three letters; whether the second system stops that, and only whole runs of the first are kept.
fn is_stopped<R: Abort + Threads + Wait + Sync>(
    rt: &R,
    pool: &mut Pool<Acting, R>,
    alloc: Global,
) -> bool
    requires { pool.old.inputs ≡ 2 }
    ensures { pool.new.inputs ≡ 2 }
{
    let answered = settle(rt, pool, &all_words(rt, alloc, 3));
    is_stop_of_second(&answered) && all_of_first(pool.cache().kept())
}

/// Settles them twice; whether each time that is so, and no more is kept the second time.
fn stays_stopped<R: Abort + Threads + Wait + Sync>(
    rt: &R,
    pool: &mut Pool<Acting, R>,
    alloc: Global,
) -> bool
    requires { pool.old.inputs ≡ 2 }
{
    let first = is_stopped(rt, pool, alloc);
    let kept = pool.cache().kept().len();
    let again = is_stopped(rt, pool, alloc);
    first && again && kept > 0 && pool.cache().kept().len() == kept
}

/// The same with a second system that refuses this call of its own.
fn stops_at<R: Abort + Threads + Wait + Sync + Copy + Drop>(
    rt: R,
    alloc: Global,
    call: u32,
) -> bool {
    let mut pool = pool_of(rt, alloc, one_refusing(&rt, alloc, call));
    stays_stopped(&rt, &mut pool, alloc)
}

#[test]
fn a_session_that_stops_ends_the_batch(rt: HostRuntime) {
    for call in 0..4u32 {
        assert!(rt; stops_at(rt, rt.alloc(), call));
    }
}

/// Settles a batch of words over two letters by any oracle; how many answers are kept then.
fn kept_by<O: Oracle>(rt: &impl Abort, oracle: &mut O, batch: &[Word]) -> usize
    requires can { O.can_settle oracle.old }
    requires inputs { (O.state oracle.old).inputs ≡ 2 }
    ensures can { O.can_settle oracle.new }
    ensures inputs { (O.state oracle.new).inputs ≡ 2 }
{
    assert!(rt; batch.len() <= 1000);
    assert!(rt; are_words(batch, 2));
    assert!(rt; oracle.settle(batch).is_ok());
    oracle.cache().kept().len()
}

/// How many answers a pool keeps, asked as an oracle, once and again.
fn kept_by_pool<R: Abort + Threads + Wait + Sync + Copy + Drop>(
    rt: R,
    pool: Pool<Acting, R>,
    batch: &[Word],
) -> (usize, usize)
    requires { pool.inputs ≡ 2 }
{
    let settle = |pool: &mut Pool<Acting, R>, batch: &[Word]|
        requires letters { All (IsWord pool.now.inputs) batch.now }
        requires few { length batch.now < 2 ^ 32 }
        ensures { HasSettled batch.entry.now pool.entry.now pool.exit.now result }
    { pool.settle_all(batch) };
    let mut oracle = ByCall { pool, settle };
    let first = kept_by(&rt, &mut oracle, batch);
    (first, kept_by(&rt, &mut oracle, batch))
}

/// The same of a pool of three, and all words of three letters.
fn kept_by_three<R: Abort + Threads + Wait + Sync + Copy + Drop>(
    rt: R,
    alloc: Global,
) -> (usize, usize) {
    let pool = pool_of(rt, alloc, sound_plans(&rt, alloc, 3));
    kept_by_pool(rt, pool, &all_words(&rt, alloc, 3))
}

#[test]
fn a_pool_is_an_oracle(rt: HostRuntime) {
    assert!(rt; kept_by_three(rt, rt.alloc()) == (8, 8));
}

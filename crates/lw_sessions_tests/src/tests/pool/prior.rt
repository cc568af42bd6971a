//! Pools that begin with an answer that was kept before.
ghost use Rattle.std.specs.Prelude.{◌≡◌, ◌<◌, length, []};
ghost use Rattle.std.specs.List.{All};
ghost use Rattle.lw_pool.specs.Opening.{MayBegin};

use crate::tests::pool::acting::Acting;
use crate::tests::pool::crews::{hired, settle, settles, sound_plans};
use crate::tests::{are_below, names, word, words};
use lw_cache::{AskStop, Cache, Clash};
use lw_names::OutNames;
use lw_pool::Pool;
use lw_words::Kept;
use std::alloc::Global;
use std::process::Abort;
use std::sync::Wait;
use std::thread::Threads;

/// A cache that keeps the answer of these outputs to these letters of an earlier call.
fn with_prior(
    rt: &impl Abort,
    alloc: Global,
    naming: &OutNames,
    letters: &[u16],
    outs: &[u16],
) -> Cache
    ensures prior { MayBegin naming.now 2 2 result.kept }
    ensures claims { result.claims ≡ [] }
{
    assert!(rt; letters.len() == outs.len() && naming.len() == 2);
    assert!(rt; are_below(letters, 2) && are_below(outs, 2));
    let mut cache = Cache::new(alloc);
    match cache.keep(word(rt, alloc, letters), word(rt, alloc, outs), 16, 0) {
        Ok(()) => cache,
        Err(_) => rt.panic("the answer was refused"),
    }
}

/// A pool of one table, whose cache keeps this answer of an earlier call.
fn pool_knowing<R: Abort + Copy + Drop>(
    rt: R,
    alloc: Global,
    letters: &[u16],
    outs: &[u16],
) -> Pool<Acting, R>
    ensures { result.inputs ≡ 2 }
{
    let names = names(&rt, alloc, &["0", "1"]);
    let shared = OutNames::declared(alloc, &names).expect(&rt, "memory");
    let cache = with_prior(&rt, alloc, &shared, letters, outs);
    let sessions = hired(&rt, alloc, &names, &shared, sound_plans(&rt, alloc, 1));
    assert!(rt; !sessions.is_empty() && sessions.len() <= 16);
    match Pool::new(rt, alloc, 2, 2, sessions, shared, cache) {
        Ok(pool) => pool,
        Err(_) => rt.panic("there is no memory"),
    }
}

static TWO_LETTERS: [&[u16]; 1] = [&[0, 0]];

/// Whether the prior answer is kept, and one of the first session to the word of letter 1.
fn keeps_one_more(kept: &Kept) -> bool {
    if kept.len() != 2 || kept.get(0).instance != 16 {
        return false;
    }
    let answer = kept.get(1);
    answer.instance == 0 && answer.word.as_slice() == [1u16].as_slice()
}

static KNOWN_BUT_ONE: [&[u16]; 3] = [&[0, 0], &[1], &[0, 0, 1]];

/// Settles three words with a pool whose prior answer is to the last of them, and begins with the first; whether just the
/// second one is asked.
fn asks_one<R: Abort + Threads + Wait + Sync + Copy + Drop>(rt: R, alloc: Global) -> bool {
    let mut pool = pool_knowing(rt, alloc, &[0, 0, 1], &[0, 1, 0]);
    let settled = settles(&rt, &mut pool, alloc, &KNOWN_BUT_ONE);
    settled && keeps_one_more(pool.cache().kept())
}

#[test]
fn what_was_kept_before_is_not_asked(rt: HostRuntime) {
    assert!(rt; asks_one(rt, rt.alloc()));
}

/// Settles a batch with a pool whose prior answer is wrong from its first output on; the clash that is answered.
fn clash_with_prior<R: Abort + Threads + Wait + Sync + Copy + Drop>(
    rt: R,
    alloc: Global,
) -> Option<Clash> {
    let mut pool = pool_knowing(rt, alloc, &[0], &[1]);
    match settle(&rt, &mut pool, &words(&rt, alloc, &TWO_LETTERS)) {
        Err(AskStop::Clash(clash)) => Some(clash),
        _ => None,
    }
}

#[test]
fn an_answer_clashes_with_one_that_was_kept_before(rt: HostRuntime) {
    let expected = Clash {
        first: 0,
        second: 1,
        place: 0,
    };
    assert!(rt; clash_with_prior(rt, rt.alloc()) == Some(expected));
}

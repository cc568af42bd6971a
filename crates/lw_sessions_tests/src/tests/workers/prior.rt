//! Learnings of a counter of three that begin with an answer that was kept before.
ghost use Rattle.std.specs.Prelude.{◌≡◌, []};
ghost use Rattle.lw_words.specs.Word.{answers_of};
ghost use Rattle.lw_cache.specs.Clash.{NothingClashes};
ghost use Rattle.lw_pool.specs.Opening.{MayBegin};

use crate::tests::workers::crews::{machine, names_of};
use crate::tests::workers::machines::{call, let_go};
use crate::tests::workers::{COUNTER, are_long, is_found};
use crate::tests::{are_below, word};
use lw_cache::{AskStop, Cache, Clash};
use lw_chunks::Method;
use lw_mealy::Mealy;
use lw_names::OutNames;
use lw_rounds::{Kind, LearnStop, Settings, Testing};
use lw_words::{Kept, Words};
use lw_workers::{LearningOutcome, Start};
use std::alloc::Global;
use std::process::Abort;
use std::sync::Wait;
use std::thread::Threads;

/// A cache that keeps the answer of these outputs to these letters of an earlier call.
fn with_prior(
    rt: &impl Abort,
    alloc: Global,
    system: &Mealy,
    naming: &OutNames,
    letters: &[u16],
    outs: &[u16],
) -> Cache
    ensures prior { MayBegin naming.now system.now.inputs system.now.outputs result.kept }
    ensures nothing { NothingClashes (answers_of result.kept) }
    ensures claims { result.claims ≡ [] }
{
    let (inputs, outputs) = (system.inputs(), system.outputs());
    assert!(rt; letters.len() == outs.len() && naming.len() == outputs);
    assert!(rt; are_below(letters, inputs) && are_below(outs, outputs));
    let mut cache = Cache::new(alloc);
    match cache.keep(word(rt, alloc, letters), word(rt, alloc, outs), 16, 0) {
        Ok(()) => cache,
        Err(_) => rt.panic("the answer was refused"),
    }
}

/// What comes of the counter with one instance and two extra states, where this answer was kept before.
fn learned_after<R: Abort + Threads + Wait + Sync + Copy + Drop>(
    rt: R,
    alloc: Global,
    letters: &[u16],
    outs: &[u16],
) -> LearningOutcome {
    let system = machine(&rt, alloc, &COUNTER);
    let names = names_of(&rt, alloc, &["0", "1"]);
    let shared = OutNames::declared(alloc, &names).expect(&rt, "memory");
    let cache = with_prior(&rt, alloc, &system, &shared, letters, outs);
    let settings = Settings::new(1, Kind::Table, 2, 4, Testing::by(Method::W)).expect(
        &rt, "settings",
    );
    let start = Start {
        names: shared,
        cache,
        words: Words::new(alloc),
    };
    call(rt, alloc, &system, &names, start, settings)
}

/// Whether the first answer is the prior one, and the second that of the first run of the first instance.
fn begins_with_prior(kept: &Kept) -> bool {
    if kept.len() < 2 {
        return false;
    }
    let (prior, first) = (kept.get(0), kept.get(1));
    let right = prior.instance == 16 && prior.run == 0 && first.instance == 0 && first.run == 0;
    right && prior.outs.as_slice() == [0u16, 0, 1].as_slice()
}

/// Whether the counter is found, by the answers to words of these numbers of letters, of which the first is the prior one.
fn has_gone_on(ended: &LearningOutcome, letters: &[usize]) -> bool {
    is_found(&ended.learned, 3, 1)
        && are_long(&ended.kept, letters)
        && begins_with_prior(&ended.kept)
}

/// Whether it is, behind an answer of the counter.
fn goes_on<R: Abort + Threads + Wait + Sync + Copy + Drop>(rt: R, alloc: Global) -> bool {
    let ended = learned_after(rt, alloc, &[0, 0, 0], &[0, 0, 1]);
    let right = has_gone_on(&ended, &[3, 4, 5, 7]);
    let_go(ended);
    right
}

/// The words of two and three letters are known, and not asked again.
#[test]
fn a_learning_begins_with_what_was_kept_before(rt: HostRuntime) {
    assert!(rt; goes_on(rt, rt.alloc()));
}

/// The clash that a learning stopped with.
fn clash_of(ended: &LearningOutcome) -> Option<Clash> {
    match &ended.learned {
        Err(LearnStop::Ask(stop)) => match stop {
            AskStop::Clash(clash) => Some(*clash),
            _ => None,
        },
        _ => None,
    }
}

/// Whether the first two answers clash, and are to words of these numbers of letters.
fn has_clashed(ended: &LearningOutcome, letters: &[usize]) -> bool {
    let expected = Clash {
        first: 0,
        second: 1,
        place: 0,
    };
    clash_of(ended) == Some(expected) && are_long(&ended.kept, letters)
}

/// Whether they do, behind an answer that isn't the counter's.
fn clashes_at_once<R: Abort + Threads + Wait + Sync + Copy + Drop>(rt: R, alloc: Global) -> bool {
    let ended = learned_after(rt, alloc, &[0], &[1]);
    let right = has_clashed(&ended, &[1, 2]);
    let_go(ended);
    right
}

#[test]
fn an_answer_that_is_not_the_counters_is_told(rt: HostRuntime) {
    assert!(rt; clashes_at_once(rt, rt.alloc()));
}

//! Learnings of machines, worked by hand, with pools of one to sixteen instances: the model, and what the instances answered.
ghost use Rattle.std.specs.Prelude.{◌≡◌, [], length, None};
ghost use Rattle.lw_words.specs.Word.{answers_of};
ghost use Rattle.lw_cache.specs.Clash.{NothingClashes};
ghost use Rattle.lw_pool.specs.Opening.{MayBegin};

use crate::tests::workers::crews::{machine, names_of};
use crate::tests::workers::{COUNTER, are_long, is_crowd, is_found};
use lw_cache::Cache;
use lw_chunks::Method;
use lw_mealy::Mealy;
use lw_names::OutNames;
use lw_rounds::{Kind, LearnStop, Settings, Testing, Unwatched};
use lw_words::{Names, Words};
use lw_workers::{LearningOutcome, Start, learn_machine};
use std::alloc::Global;
use std::process::Abort;
use std::sync::Wait;
use std::thread::Threads;

/// What comes of a machine with a table, where a cache may keep answers: the clauses of `learn_machine` would weigh down each
/// proof that calls it.
pub fn call<R: Threads + Wait + Sync + Drop>(
    rt: R,
    alloc: Global,
    system: &Mealy,
    names: &Names,
    start: Start,
    settings: Settings,
) -> LearningOutcome
    requires named { length names.now ≡ system.now.outputs }
    requires shared { start.names ≡ record { names = names.now; brought = None } }
    requires unclaimed { start.cache.claims ≡ [] }
    requires nothing { NothingClashes (answers_of start.cache.kept) }
    requires prior { MayBegin start.names system.now.inputs system.now.outputs start.cache.kept }
    requires words { start.words ≡ [] }
{
    learn_machine(rt, alloc, system, names, start, settings, &mut Unwatched)
}

/// Lets what came of a learning go. A proof that does is long, so no other function of these tests does.
pub fn let_go(_ended: LearningOutcome) {}

/// What comes of a machine whose outputs have these names with so many instances.
fn learned_by<R: Abort + Threads + Wait + Sync + Copy + Drop>(
    rt: R,
    alloc: Global,
    system: &Mealy,
    names: &Names,
    workers: u8,
    extra: u8,
    max_states: u16,
) -> LearningOutcome
    requires named { length names.now ≡ system.now.outputs }
{
    let settings = Settings::new(
        workers,
        Kind::Table,
        extra,
        max_states,
        Testing::by(Method::W),
    )
    .expect(&rt, "settings");
    let start = Start {
        names: OutNames::declared(alloc, names).expect(&rt, "memory"),
        cache: Cache::new(alloc),
        words: Words::new(alloc),
    };
    call(rt, alloc, system, names, start, settings)
}

/// What comes of a counter of three.
fn counter_by<R: Abort + Threads + Wait + Sync + Copy + Drop>(
    rt: R,
    alloc: Global,
    workers: u8,
    extra: u8,
    max_states: u16,
) -> LearningOutcome {
    let names = names_of(&rt, alloc, &["0", "1"]);
    let system = machine(&rt, alloc, &COUNTER);
    learned_by(rt, alloc, &system, &names, workers, extra, max_states)
}

/// Whether a model of so many states was found with so many refinements, by the answers to words of these numbers of
/// letters, in this order.
fn has_found(ended: &LearningOutcome, states: u16, refinements: u32, letters: &[usize]) -> bool {
    is_found(&ended.learned, states, refinements) && are_long(&ended.kept, letters)
}

/// Whether so many instances take the counter for one state where there is no extra one.
fn finds_one<R: Abort + Threads + Wait + Sync + Copy + Drop>(
    rt: R,
    alloc: Global,
    workers: u8,
) -> bool {
    let ended = counter_by(rt, alloc, workers, 0, 4);
    let right = has_found(&ended, 1, 0, &[2]);
    let_go(ended);
    right
}

/// No suite word of fewer than three letters tells a counter of three from a machine of one state.
#[test]
fn a_counter_of_three_is_taken_for_one_state(rt: HostRuntime) {
    for workers in [1u8, 2, 16] {
        assert!(rt; finds_one(rt, rt.alloc(), workers), "{workers} instances");
    }
}

/// Whether so many instances find the counter's three states where there are two extra ones.
fn finds_three<R: Abort + Threads + Wait + Sync + Copy + Drop>(
    rt: R,
    alloc: Global,
    workers: u8,
) -> bool {
    let ended = counter_by(rt, alloc, workers, 2, 4);
    let right = has_found(&ended, 3, 1, &[2, 3, 4, 5, 7]);
    let_go(ended);
    right
}

#[test]
fn two_extra_states_tell_a_counter_of_three(rt: HostRuntime) {
    for workers in [1u8, 2, 16] {
        assert!(rt; finds_three(rt, rt.alloc(), workers), "{workers} instances");
    }
}

/// Whether it ended with this many pairwise apart words, by the answers to words of these numbers of letters, in this
/// order.
fn has_stopped(ended: &LearningOutcome, count: usize, letters: &[usize]) -> bool {
    is_crowd(&ended.learned, count) && are_long(&ended.kept, letters)
}

/// Whether a learning of the counter stops where there may be two states.
fn stops<R: Abort + Threads + Wait + Sync + Copy + Drop>(rt: R, alloc: Global) -> bool {
    let ended = counter_by(rt, alloc, 2, 2, 2);
    let right = has_stopped(&ended, 3, &[2, 3, 4]);
    let_go(ended);
    right
}

#[test]
fn two_states_are_too_few_for_a_counter(rt: HostRuntime) {
    assert!(rt; stops(rt, rt.alloc()));
}

/// The machine of one state over 64 letters.
fn of_many_letters(rt: &impl Abort, alloc: Global) -> Mealy
    ensures { result.outputs ≡ 1 }
{
    let mut rows = Vec::new(alloc);
    let row = vec![in alloc; (0, 0); 64].expect(rt, "memory");
    rows.push(row).expect(rt, "memory");
    Mealy::new(alloc, 64, 1, rows).expect(rt, "a machine")
}

/// Whether it ended with a model of so many states whose suite would have this size.
fn is_too_large(ended: &LearningOutcome, states: u16, size: u64) -> bool {
    match &ended.learned {
        Err(LearnStop::TooLarge { model, number }) => model.states() == states && *number == size,
        _ => false,
    }
}

/// What comes of it with two instances and three extra states.
fn many_letters_by<R: Abort + Threads + Wait + Sync + Copy + Drop>(
    rt: R,
    alloc: Global,
) -> LearningOutcome {
    let names = names_of(&rt, alloc, &["0"]);
    let system = of_many_letters(&rt, alloc);
    learned_by(rt, alloc, &system, &names, 2, 3, 4)
}

/// Whether the suite is too large, and so many answers are kept.
fn is_refused<R: Abort + Threads + Wait + Sync + Copy + Drop>(rt: R, alloc: Global) -> bool {
    let ended = many_letters_by(rt, alloc);
    let right = is_too_large(&ended, 1, 17_043_521) && ended.kept.len() == 4096;
    let_go(ended);
    right
}

/// Each word of two letters was asked, and the suite wasn't: 1 + 64 + 64² + 64³ + 64⁴ words are too many.
#[test]
fn a_suite_over_many_letters_is_too_large(rt: HostRuntime) {
    assert!(rt; is_refused(rt, rt.alloc()));
}

/// Four states that are their own canonical form.
static ROWS: [[(u16, u16); 2]; 4] = [
    [(1, 1), (2, 0)],
    [(3, 1), (3, 0)],
    [(2, 0), (2, 0)],
    [(3, 0), (1, 0)],
];

/// Their machine.
fn of_four_states(rt: &impl Abort, alloc: Global) -> Mealy
    ensures { result.outputs ≡ 2 }
{
    let mut rows = Vec::new(alloc);
    for row in &ROWS {
        let row = Vec::from_slice(alloc, row).expect(rt, "memory");
        rows.push(row).expect(rt, "memory");
    }
    Mealy::new(alloc, 2, 2, rows).expect(rt, "a machine")
}

/// Whether a model has just these rows.
fn has_rows(model: &Mealy, rows: &[[(u16, u16); 2]]) -> bool {
    let mut right = model.inputs() == 2 && usize::from(model.states()) == rows.len();
    for q in 0..model.states() {
        for x in 0..model.inputs() {
            let cell = rows
                .get(usize::from(q))
                .and_then(|row| row.get(usize::from(x)).copied());
            right = right && cell == Some(model.step(q, x));
        }
    }
    right
}

/// What comes of the four states with one extra state.
fn four_states_by<R: Abort + Threads + Wait + Sync + Copy + Drop>(
    rt: R,
    alloc: Global,
    workers: u8,
) -> LearningOutcome {
    let names = names_of(&rt, alloc, &["0", "1"]);
    let system = of_four_states(&rt, alloc);
    learned_by(rt, alloc, &system, &names, workers, 1, 12)
}

/// Whether the four states were found with two refinements.
fn has_found_them(ended: &LearningOutcome) -> bool {
    match &ended.learned {
        Ok(learned) => learned.refinements() == 2 && has_rows(&learned.model, &ROWS),
        Err(_) => false,
    }
}

/// Whether so many instances find them.
fn finds_them<R: Abort + Threads + Wait + Sync + Copy + Drop>(
    rt: R,
    alloc: Global,
    workers: u8,
) -> bool {
    let ended = four_states_by(rt, alloc, workers);
    let right = has_found_them(&ended);
    let_go(ended);
    right
}

#[test]
fn however_many_instances_find_the_same_model(rt: HostRuntime) {
    for workers in [1u8, 2, 8] {
        assert!(rt; finds_them(rt, rt.alloc(), workers), "{workers} instances");
    }
}

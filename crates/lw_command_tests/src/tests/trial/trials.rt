//! Trials worked by hand, streams that fail, and trials of several instances.
use crate::tests::let_go;
use crate::tests::memory::sink;
use lw_chunks::Method;
use lw_outside::MemorySink;
use lw_report::{End, Outcome, Tried};
use lw_rounds::Kind;
use lw_trial::{TrialArguments, trial};
use lw_words::Kept;
use std::alloc::Global;
use std::process::Abort;
use std::sync::Wait;
use std::thread::Threads;

/// The numbers of a trial, the calls of `out` that fail, and what comes of it.
#[derive(Drop)]
struct Case {
    states: u16,
    inputs: u16,
    out_plan: &'static [u64],
    status: u8,
    out: &'static str,
    err: &'static str,
    is_learned: bool,
}

/// One state.
const PLAIN: Case = Case {
    states: 1,
    inputs: 1,
    out_plan: &[],
    status: 0,
    out: "trial: states 1, inputs 1, seed 0\nlearned: states 1, refinements 0, answers 1\nequal: yes\n",
    err: "",
    is_learned: true,
};

/// The arguments, where they are within their limits.
fn arguments(
    rt: &impl Abort,
    states: u16,
    inputs: u16,
    seed: u64,
    workers: u8,
    learner: Kind,
) -> TrialArguments {
    assert!(rt; 1 <= states && states <= 1024 && 1 <= inputs && inputs <= 64);
    assert!(rt; 1 <= workers && workers <= 16);
    TrialArguments::new(states, inputs, seed, workers, learner, Method::W)
}

/// What a trial ends with: the clauses of `trial` would weigh down each proof that calls it.
fn end<R: Threads + Wait + Sync + Drop>(
    rt: R,
    alloc: Global,
    arguments: &TrialArguments,
    out: &mut MemorySink,
    err: &mut MemorySink,
) -> End {
    trial(rt, alloc, arguments, out, err)
}

/// Whether an end has the status, and a model just where one is learned.
fn ends_so(end: &End, case: &Case) -> bool {
    end.status == case.status && end.model.is_some() == case.is_learned
}

/// Whether the streams took just the texts.
fn wrote_so(out: &MemorySink, err: &MemorySink, case: &Case) -> bool {
    out.taken() == case.out.as_bytes() && err.taken() == case.err.as_bytes()
}

/// Whether a trial ends so.
fn is_ended_so<R: Abort + Threads + Wait + Sync + Copy + Drop>(
    rt: R,
    alloc: Global,
    case: &Case,
    out: &mut MemorySink,
    err: &mut MemorySink,
) -> bool {
    let arguments = arguments(&rt, case.states, case.inputs, 0, 1, Kind::Table);
    let end = end(rt, alloc, &arguments, out, err);
    let right = ends_so(&end, case);
    let_go(end);
    right
}

/// Whether a trial by seed 0 comes out so.
fn comes_so<R: Abort + Threads + Wait + Sync + Copy + Drop>(
    rt: R,
    alloc: Global,
    case: &Case,
) -> bool {
    let mut out = sink(&rt, alloc, case.out_plan);
    let mut err = sink(&rt, alloc, &[]);
    let ended = is_ended_so(rt, alloc, case, &mut out, &mut err);
    ended && wrote_so(&out, &err, case)
}

#[test]
fn one_state_is_found_and_three_are_not(rt: HostRuntime) {
    assert!(rt; comes_so(rt, rt.alloc(), &PLAIN));
    let three = Case {
        states: 3,
        out: "trial: states 3, inputs 1, seed 0\nlearned: states 1, refinements 0, answers 1\nequal: no\n",
        ..PLAIN
    };
    assert!(rt; comes_so(rt, rt.alloc(), &three));
}

#[test]
fn a_model_that_is_not_told_is_handed_back(rt: HostRuntime) {
    let refused = Case {
        out_plan: &[1],
        status: 8,
        out: "trial: ",
        err: "sink fault\n",
        ..PLAIN
    };
    assert!(rt; comes_so(rt, rt.alloc(), &refused));
}

#[test]
fn a_suite_that_is_too_large(rt: HostRuntime) {
    let large = Case {
        states: 45,
        inputs: 64,
        status: 7,
        out: "",
        err: "suite too large: states 45, extra 1, number 8426025\n",
        is_learned: false,
        ..PLAIN
    };
    assert!(rt; comes_so(rt, rt.alloc(), &large));
}

/// Whether the answers are of two instances and more.
fn is_shared(kept: &Kept) -> bool {
    let mut shared = false;
    for number in 0..kept.len() {
        shared = shared || kept.get(number).instance != kept.get(0).instance;
    }
    shared
}

/// Whether the answers of a trial are of two instances and more.
fn is_shared_trial<R: Abort + Threads + Wait + Sync + Copy + Drop>(
    rt: R,
    alloc: Global,
    out: &mut MemorySink,
    err: &mut MemorySink,
) -> bool {
    let arguments = arguments(&rt, 20, 4, 7, 8, Kind::Table);
    let end = end(rt, alloc, &arguments, out, err);
    let right = is_shared(&end.kept);
    let_go(end);
    right
}

/// Whether one of so many trials had the answers of two instances and more.
fn are_shared<R: Abort + Threads + Wait + Sync + Copy + Drop>(
    rt: R,
    alloc: Global,
    most: u32,
) -> bool {
    let mut out = sink(&rt, alloc, &[]);
    let mut err = sink(&rt, alloc, &[]);
    for _ in 0..most {
        if is_shared_trial(rt, alloc, &mut out, &mut err) {
            return true;
        }
    }
    false
}

#[test]
fn several_instances_answer(rt: HostRuntime) {
    assert!(rt; are_shared(rt, rt.alloc(), 100));
}

/// Whether a trial of 20 states and 4 inputs by seed 7 finds the machine; `out` takes its text.
fn finds<R: Abort + Threads + Wait + Sync + Copy + Drop>(
    rt: R,
    alloc: Global,
    workers: u8,
    out: &mut MemorySink,
) -> bool {
    let arguments = arguments(&rt, 20, 4, 7, workers, Kind::Table);
    let mut err = sink(&rt, alloc, &[]);
    let end = end(rt, alloc, &arguments, out, &mut err);
    let right = is_found(&end);
    let_go(end);
    right
}

/// Whether an end tells that the machine was found.
fn is_found(end: &End) -> bool {
    match &end.outcome {
        Outcome::Trial(tried) => tried.equal,
        _ => false,
    }
}

/// Whether a trial finds the machine, and tells so by this text.
fn is_told<R: Abort + Threads + Wait + Sync + Copy + Drop>(
    rt: R,
    alloc: Global,
    workers: u8,
    text: &[u8],
) -> bool {
    let mut out = sink(&rt, alloc, &[]);
    let found = finds(rt, alloc, workers, &mut out);
    found && out.taken() == text
}

#[test]
fn the_same_text_of_any_number_of_instances(rt: HostRuntime) {
    let mut one = sink(&rt, rt.alloc(), &[]);
    assert!(rt; finds(rt, rt.alloc(), 1, &mut one));
    assert!(rt; is_told(rt, rt.alloc(), 2, one.taken()));
    assert!(rt; is_told(rt, rt.alloc(), 8, one.taken()));
}

/// What an end tells of a trial.
fn tried(rt: &impl Abort, end: &End) -> Tried {
    match &end.outcome {
        Outcome::Trial(tried) => *tried,
        _ => rt.panic("no trial was told"),
    }
}

/// What a trial of 20 states and 2 inputs by seed 1 tells with a learner of this kind.
fn tried_by<R: Abort + Threads + Wait + Sync + Copy + Drop>(
    rt: R,
    alloc: Global,
    learner: Kind,
) -> Tried {
    let arguments = arguments(&rt, 20, 2, 1, 1, learner);
    let mut out = sink(&rt, alloc, &[]);
    let mut err = sink(&rt, alloc, &[]);
    let end = end(rt, alloc, &arguments, &mut out, &mut err);
    let tried = tried(&rt, &end);
    let_go(end);
    tried
}

#[test]
fn a_tree_finds_what_a_table_does(rt: HostRuntime) {
    let table = tried_by(rt, rt.alloc(), Kind::Table);
    let tree = tried_by(rt, rt.alloc(), Kind::Ttt);
    assert!(rt; table.equal && tree.equal);
    let same = Tried {
        refinements: table.refinements,
        answers: table.answers,
        ..tree
    };
    assert_eq!(rt; same, table);
}

//! Machines of three and of five states: their suites by each method, as `learn` asks them and `check` wants them.
use crate::tests::cases::{Case, PLAIN, check_all, check_files};
use lw_outside::MemoryFiles;
use std::alloc::Global;
use std::process::Abort;

/// The letters separate the states: a and b those of state 0 from both others, a state 1 and b state 2.
const TRI: &str =
    "{\"inputs\":[\"a\",\"b\"],\"outputs\":[\"0\",\"1\"],\"states\":[[[1,\"0\"],[2,\"0\"]],[[1,\"1\"],[0,\"0\"]],[[0,\"0\"],[0,\"1\"]]]}\n";

/// Behind each letter and another one the letters that identify the state that is reached.
const IDENTIFIED: &str =
    "{\"format\":1,\"inputs\":[\"a\",\"b\"],\"outputs\":[\"0\",\"1\"],\"answers\":[[\"a a a\",\"0 1 1\"],[\"a b a\",\"0 0 0\"],[\"a b b\",\"0 0 0\"],[\"b a a\",\"0 0 0\"],[\"b a b\",\"0 0 0\"],[\"b b a\",\"0 1 0\"],[\"b b b\",\"0 1 0\"]]}\n";

/// The same without the last.
const WITHOUT_LAST: &str =
    "{\"format\":1,\"inputs\":[\"a\",\"b\"],\"outputs\":[\"0\",\"1\"],\"answers\":[[\"a a a\",\"0 1 1\"],[\"a b a\",\"0 0 0\"],[\"a b b\",\"0 0 0\"],[\"b a a\",\"0 0 0\"],[\"b a b\",\"0 0 0\"],[\"b b a\",\"0 1 0\"]]}\n";

/// A machine of five states, on which the suites of the three methods differ.
const FIVE: &str =
    "{\"inputs\":[\"a\",\"b\"],\"outputs\":[\"0\",\"1\"],\"states\":[[[1,\"0\"],[0,\"1\"]],[[2,\"1\"],[2,\"0\"]],[[3,\"0\"],[4,\"1\"]],[[3,\"0\"],[3,\"0\"]],[[0,\"0\"],[2,\"0\"]]]}\n";

static LEARNED: [Case; 7] = [
    Case {
        arguments: &["learn", "--table", "m", "--extra", "0"],
        file: TRI,
        out: TRI,
        err: "learned: states 3, refinements 0, extra 0, answers 12\n",
        ..PLAIN
    },
    Case {
        arguments: &["learn", "--table", "m", "--extra", "0", "--suite", "wp"],
        file: TRI,
        out: TRI,
        err: "learned: states 3, refinements 0, extra 0, answers 12\n",
        ..PLAIN
    },
    Case {
        arguments: &["learn", "--table", "m", "--suite", "w"],
        file: TRI,
        out: TRI,
        err: "learned: states 3, refinements 0, extra 1, answers 28\n",
        ..PLAIN
    },
    Case {
        arguments: &["learn", "--table", "m", "--suite", "wp"],
        file: TRI,
        out: TRI,
        err: "learned: states 3, refinements 0, extra 1, answers 21\n",
        ..PLAIN
    },
    Case {
        arguments: &["learn", "--suite=wp", "--table", "m", "--workers", "2"],
        file: TRI,
        out: TRI,
        err: "learned: states 3, refinements 0, extra 1, answers 21\n",
        ..PLAIN
    },
    Case {
        arguments: &["learn", "--table", "m", "--suite", "wp"],
        file: FIVE,
        out: FIVE,
        err: "learned: states 5, refinements 2, extra 1, answers 56\n",
        ..PLAIN
    },
    Case {
        arguments: &["learn", "--table", "m", "--suite", "h"],
        file: FIVE,
        out: FIVE,
        err: "learned: states 5, refinements 2, extra 1, answers 52\n",
        ..PLAIN
    },
];

#[test]
fn suites_that_are_asked(rt: HostRuntime) {
    check_all(&rt, rt.alloc(), &LEARNED);
}

/// The files `m` and `k` of these texts.
fn two_files(rt: &impl Abort, alloc: Global, model: &str, answers: &str) -> MemoryFiles {
    let mut files = Vec::new(alloc);
    for (name, text) in &[("m", model), ("k", answers)] {
        let name = String::from_str(alloc, name).expect(rt, "memory");
        let bytes = Vec::from_slice(alloc, text.as_bytes()).expect(rt, "memory");
        files.push((name, bytes)).expect(rt, "memory");
    }
    MemoryFiles::new(alloc, files, Vec::new(alloc)).expect(rt, "memory")
}

const YES: Case = Case {
    out: "yes: states 3, extra 0, answers 7\n",
    err: "",
    ..PLAIN
};

/// What `check` says of the answers that identify the states: the W-method wants more of them.
static IDENTIFYING: [Case; 3] = [
    Case {
        arguments: &["check", "m", "k", "--extra", "0"],
        status: 1,
        out: "no: word \"a a b\" is missing\n",
        err: "",
        ..PLAIN
    },
    Case {
        arguments: &["check", "m", "k", "--extra", "0", "--suite", "wp"],
        ..YES
    },
    Case {
        arguments: &["check", "m", "k", "--extra", "0", "--suite", "h"],
        ..YES
    },
];

/// What it says where the last is left out: state 2 is told from state 0 behind b, and not behind b b.
static MISSING: [Case; 2] = [
    Case {
        arguments: &["check", "m", "k", "--extra", "0", "--suite", "wp"],
        status: 1,
        out: "no: word \"b b b\" is missing\n",
        err: "",
        ..PLAIN
    },
    Case {
        arguments: &["check", "--suite=h", "m", "k", "--extra=0"],
        status: 1,
        out: "no: word \"b b b\" is missing\n",
        err: "",
        ..PLAIN
    },
];

#[test]
fn answers_that_are_enough_by_one_method_alone(rt: HostRuntime) {
    let files = two_files(&rt, rt.alloc(), TRI, IDENTIFIED);
    check_files(&rt, rt.alloc(), files, &IDENTIFYING);
}

#[test]
fn answers_of_which_one_is_missing(rt: HostRuntime) {
    let files = two_files(&rt, rt.alloc(), TRI, WITHOUT_LAST);
    check_files(&rt, rt.alloc(), files, &MISSING);
}

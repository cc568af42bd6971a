//! Learnings behind earlier answers, worked by hand.
use crate::tests::cases::{Shell, check_call, stands, status_of};
use lw_outside::MemoryFiles;
use std::alloc::Global;
use std::process::Abort;
use std::sync::Wait;
use std::thread::Threads;

const COUNTER: &str =
    "{\"inputs\":[\"t\"],\"outputs\":[\"0\",\"1\"],\"states\":[[[1,\"0\"]],[[2,\"0\"]],[[0,\"1\"]]]}\n";

/// An answer of the counter.
const TRUE: &str =
    "{\"answers\":[[\"t t t\",\"0 0 1\"]],\"format\":1,\"inputs\":[\"t\"],\"outputs\":[\"0\",\"1\"]}\n";

/// The same, with the outputs in another order.
const TURNED: &str =
    "{\"answers\":[[\"t t t\",\"0 0 1\"]],\"format\":1,\"inputs\":[\"t\"],\"outputs\":[\"1\",\"0\"]}\n";

/// An answer that isn't the counter's.
const WRONG: &str =
    "{\"answers\":[[\"t\",\"1\"]],\"format\":1,\"inputs\":[\"t\"],\"outputs\":[\"0\",\"1\"]}\n";

/// Two answers of no machine.
const CLASHING: &str =
    "{\"answers\":[[\"t\",\"1\"],[\"t t\",\"0 0\"]],\"format\":1,\"inputs\":[\"t\"],\"outputs\":[\"0\",\"1\"]}\n";

const OTHER_LETTER: &str =
    "{\"answers\":[],\"format\":1,\"inputs\":[\"u\"],\"outputs\":[\"0\",\"1\"]}\n";

const OTHER_OUTPUT: &str =
    "{\"answers\":[],\"format\":1,\"inputs\":[\"t\"],\"outputs\":[\"0\",\"2\"]}\n";

const KEPT: &str =
    "{\"answers\":[[16,0,\"t t t\",\"0 0 1\"],[0,0,\"t t t t\",\"0 0 1 0\"],[0,1,\"t t t t t\",\"0 0 1 0 0\"]],\"format\":2,\"inputs\":[\"t\"],\"outputs\":[\"0\",\"1\"]}\n";

const DIFFER: &str = "bad file prior: names differ from the setup\n";

/// What comes of earlier answers of the counter.
#[derive(Clone, Copy)]
struct Row {
    prior: &'static str,
    status: u8,
    out: &'static str,
    err: &'static str,
}

static ROWS: [Row; 7] = [
    Row {
        prior: TRUE,
        status: 0,
        out: COUNTER,
        err: "learned: states 3, refinements 1, extra 0, answers 3\n",
    },
    Row {
        prior: TURNED,
        status: 0,
        out: COUNTER,
        err: "learned: states 3, refinements 1, extra 0, answers 3\n",
    },
    Row {
        prior: WRONG,
        status: 4,
        out: "",
        err: "nondeterministic at place 0\ninstance 16 run 0: t / 1\ninstance 0 run 0: t t / 0 0\n",
    },
    Row {
        prior: CLASHING,
        status: 4,
        out: "",
        err: "nondeterministic at place 0\ninstance 16 run 0: t / 1\ninstance 16 run 1: t t / 0 0\n",
    },
    Row {
        prior: OTHER_LETTER,
        status: 3,
        out: "",
        err: DIFFER,
    },
    Row {
        prior: OTHER_OUTPUT,
        status: 3,
        out: "",
        err: DIFFER,
    },
    Row {
        prior: "[]",
        status: 3,
        out: "",
        err: "bad file prior: shape of root\n",
    },
];

/// A learning of the counter behind earlier answers.
const LEARN: [&str; 7] = ["learn", "--table", "m", "--extra", "0", "--prior", "p"];

/// The same, where the answers are written.
const WRITE: [&str; 9] = [
    "learn",
    "--table",
    "m",
    "--extra",
    "0",
    "--prior",
    "p",
    "--answers",
    "k",
];

/// The files `m`, the counter, and `p`, the earlier answers.
fn files(rt: &impl Abort, alloc: Global, prior: &str) -> MemoryFiles {
    let mut files = Vec::new(alloc);
    for (name, text) in [("m", COUNTER), ("p", prior)] {
        let name = String::from_str(alloc, name).expect(rt, "memory");
        let bytes = Vec::from_slice(alloc, text.as_bytes()).expect(rt, "memory");
        files.push((name, bytes)).expect(rt, "memory");
    }
    MemoryFiles::new(alloc, files, Vec::new(alloc)).expect(rt, "memory")
}

/// Checks what comes of earlier answers.
fn check<R: Abort + Threads + Wait + Sync + Copy + Drop>(rt: &R, alloc: Global, row: &Row) {
    let files = files(rt, alloc, row.prior);
    check_call(rt, alloc, &LEARN, files, row.status, row.out, row.err);
}

#[test]
fn earlier_answers(rt: HostRuntime) {
    for row in &ROWS {
        check(&rt, rt.alloc(), row);
    }
}

/// Whether an earlier answer is written before those of the learning.
fn is_written_first<R: Abort + Threads + Wait + Sync + Copy + Drop>(rt: &R, alloc: Global) -> bool {
    let mut shell = Shell::new(rt, alloc, &WRITE, files(rt, alloc, TRUE));
    status_of(rt, alloc, &mut shell) == 0 && stands(&shell.world.files, "k", KEPT)
}

#[test]
fn earlier_answers_are_written_first(rt: HostRuntime) {
    assert!(rt; is_written_first(&rt, rt.alloc()));
}

//! The rows worked by hand, and faults at each place.
mod acceptors;
mod asking;
mod cases;
mod children;
mod flags;
mod helping;
mod naming;
mod nested;
mod prior;
mod probing;
mod refusals;
mod rows;
mod serving;
mod suites;
mod trial_arguments;
mod trials;
mod two_at_once;

use crate::tests::cases::{
    Case, LEARN, ONE, PLAIN, Shell, check_all, check_files, check_over, end_of, file_of, files_of,
    let_go, says, sink, stands,
};
use lw_outside::{MemoryFiles, MemorySink};
use lw_report::End;
use lw_top::without_arguments;
use lw_words::Kept;
use std::alloc::Global;
use std::process::Abort;
use std::sync::Wait;
use std::thread::Threads;

const EQUAL_STATES: &str =
    "{\"inputs\":[\"a\"],\"outputs\":[\"0\",\"1\"],\"states\":[[[1,\"0\"]],[[2,\"1\"]],[[1,\"0\"]],[[0,\"1\"]]]}\n";

const EQUAL_STATES_MODEL: &str =
    "{\"inputs\":[\"a\"],\"outputs\":[\"0\",\"1\"],\"states\":[[[1,\"0\"]],[[0,\"1\"]]]}\n";

const RING: &str =
    "{\"inputs\":[\"t\"],\"outputs\":[\"0\",\"1\",\"2\"],\"states\":[[[1,\"0\"]],[[2,\"1\"]],[[0,\"2\"]]]}\n";

const ONE_ANSWERS: &str =
    "{\"answers\":[[0,0,\"t t\",\"0 0\"]],\"format\":2,\"inputs\":[\"t\"],\"outputs\":[\"0\"]}\n";

static SHIPPED: [Case; 3] = [
    Case {
        file: EQUAL_STATES,
        out: EQUAL_STATES_MODEL,
        err: "learned: states 2, refinements 0, extra 1, answers 3\n",
        ..PLAIN
    },
    Case {
        arguments: &["learn", "--extra=2", "--max-states", "+3", "--table", "m"],
        file: RING,
        out: RING,
        err: "learned: states 3, refinements 0, extra 2, answers 4\n",
        ..PLAIN
    },
    Case {
        arguments: &["learn", "--table=m", "--max-states", "2"],
        file: RING,
        status: 7,
        out: "",
        err: "too many states: 3 words are pairwise apart\n\"\"\n\"t\"\n\"t t\"\n",
        ..PLAIN
    },
];

/// Whether this is the one answer of the first instance's first run, to a word of two letters.
fn is_first_run(kept: &Kept) -> bool {
    if kept.len() != 1 {
        return false;
    }
    let one = kept.get(0);
    one.instance == 0 && one.run == 0 && one.word.len() == 2
}

/// Whether there is a model, learned by that answer alone.
fn is_first_learned(end: &End) -> bool {
    end.model.is_some() && is_first_run(&end.kept)
}

/// Whether the plain case learns by that answer alone.
fn learns_first<R: Abort + Threads + Wait + Sync + Copy + Drop>(rt: &R, alloc: Global) -> bool {
    let end = end_of(rt, alloc, &PLAIN);
    let right = is_first_learned(&end);
    let_go(end);
    right
}

#[test]
fn shipped_machines(rt: HostRuntime) {
    assert!(rt; learns_first(&rt, rt.alloc()));
    check_all(&rt, rt.alloc(), &SHIPPED);
}

/// A call that writes both files.
const WRITES: Case = Case {
    arguments: &["learn", "--table", "m", "--model", "h", "--answers", "k"],
    out: "",
    ..PLAIN
};

/// Files and streams that fail.
static FAILING: [Case; 9] = [
    Case {
        arguments: &["learn", "--table", "other"],
        status: 8,
        out: "",
        err: "file fault: table\n",
        ..PLAIN
    },
    Case {
        file_plan: &[0],
        status: 8,
        out: "",
        err: "file fault: table\n",
        ..PLAIN
    },
    Case {
        file_plan: &[1],
        status: 8,
        err: "file fault: model\n",
        ..WRITES
    },
    Case {
        arguments: &["learn", "--table", "m", "--answers", "k"],
        file_plan: &[1],
        status: 8,
        out: "",
        err: "file fault: answers\n",
        ..PLAIN
    },
    Case {
        out_plan: &[0],
        status: 8,
        out: "",
        err: "sink fault\n",
        ..PLAIN
    },
    Case {
        piece: 8,
        out_plan: &[1],
        status: 8,
        out: "{\"inputs",
        err: "sink fault\n",
        ..PLAIN
    },
    Case { piece: 1, ..PLAIN },
    Case {
        file: "x",
        err_plan: &[0],
        status: 3,
        out: "",
        err: "",
        ..PLAIN
    },
    Case {
        err_plan: &[0],
        status: 8,
        err: "sink fault\n",
        ..PLAIN
    },
];

/// Whether answers are kept where there is a model, and nowhere else.
fn is_whole(end: &End) -> bool {
    end.model.is_some() == (end.kept.len() > 0)
}

/// Whether a case ends so.
fn ends_whole<R: Abort + Threads + Wait + Sync + Copy + Drop>(
    rt: &R,
    alloc: Global,
    case: &Case,
) -> bool {
    let end = end_of(rt, alloc, case);
    let right = is_whole(&end);
    let_go(end);
    right
}

#[test]
fn failing_files_and_streams(rt: HostRuntime) {
    for case in &FAILING {
        assert!(rt; ends_whole(&rt, rt.alloc(), case), "{}", case.err);
    }
}

/// Whether the texts stand under their names.
fn all_stand(files: &MemoryFiles, written: &[(&str, &str)]) -> bool {
    let mut all = true;
    for (name, text) in written {
        all = all && stands(files, name, text);
    }
    all
}

/// Plays a case over the file `m`, whose text is ONE; whether the texts then stand under their names.
fn leaves<R: Abort + Threads + Wait + Sync + Copy + Drop>(
    rt: &R,
    alloc: Global,
    case: &Case,
    written: &[(&str, &str)],
) -> bool {
    let files = files_of(rt, alloc, ONE, case.file_plan);
    let mut shell = Shell::new(rt, alloc, case.arguments, files);
    check_over(rt, alloc, case, &mut shell);
    all_stand(&shell.world.files, written)
}

/// A call that names one file twice: the later write stands.
static WRITES_TWICE: Case = Case {
    arguments: &["learn", "--table", "m", "--model", "h", "--answers", "h"],
    ..WRITES
};

/// A call whose second file fails: the first one is whole.
static FAILS_LATER: Case = Case {
    file_plan: &[2],
    status: 8,
    err: "file fault: answers\n",
    ..WRITES
};

#[test]
fn files_that_are_written(rt: HostRuntime) {
    let alloc = rt.alloc();
    assert!(rt; leaves(&rt, alloc, &WRITES, &[("h", ONE), ("k", ONE_ANSWERS)]));
    assert!(rt; leaves(&rt, alloc, &WRITES_TWICE, &[("h", ONE_ANSWERS)]));
    assert!(rt; leaves(&rt, alloc, &FAILS_LATER, &[("h", ONE)]));
}

/// The status of a call for whose arguments there is no memory.
fn status_without(alloc: Global, err: &mut MemorySink) -> u8 {
    let end = without_arguments(alloc, err);
    let status = end.status;
    let_go(end);
    status
}

#[test]
fn no_memory_for_arguments(rt: HostRuntime) {
    let mut err = sink(&rt, rt.alloc(), 3, &[]);
    assert!(rt; status_without(rt.alloc(), &mut err) == 5);
    assert!(rt; err.taken() == "no memory\n".as_bytes());
}

/// The file `m` of the text ONE and blanks up to so many bytes.
fn padded(rt: &impl Abort, alloc: Global, bytes: usize) -> MemoryFiles {
    let mut text = Vec::from_slice(alloc, ONE.as_bytes()).expect(rt, "memory");
    text.resize(bytes, b' ').expect(rt, "memory");
    file_of(rt, alloc, text, &[])
}

/// Whether a learning of such a table ends with this status, and says that.
fn ends_with<R: Abort + Threads + Wait + Sync + Copy + Drop>(
    rt: &R,
    alloc: Global,
    bytes: usize,
    status: u8,
    said: &str,
) -> bool {
    let mut shell = Shell::new(rt, alloc, &LEARN, padded(rt, alloc, bytes));
    says(rt, alloc, &mut shell, status, said)
}

#[test]
fn the_longest_file_and_a_longer_one(rt: HostRuntime) {
    let alloc = rt.alloc();
    let learned = "learned: states 1, refinements 0, extra 1, answers 1\n";
    assert!(rt; ends_with(&rt, alloc, 16_777_216, 0, learned));
    assert!(rt; ends_with(&rt, alloc, 16_777_217, 3, "file too long: table\n"));
}

/// Calls of `check` after a call that wrote both files.
static CHECKS: [Case; 4] = [
    WRITES,
    Case {
        arguments: &["check", "h", "k", "--extra", "0"],
        out: "yes: states 1, extra 0, answers 1\n",
        err: "",
        ..PLAIN
    },
    Case {
        arguments: &["check", "--extra=2", "h", "k"],
        status: 1,
        out: "no: word \"t t t\" is missing\n",
        err: "",
        ..PLAIN
    },
    Case {
        arguments: &["check", "h", "other"],
        status: 8,
        out: "",
        err: "file fault: answers\n",
        ..PLAIN
    },
];

#[test]
fn check_of_what_was_learned(rt: HostRuntime) {
    let files = files_of(&rt, rt.alloc(), ONE, &[]);
    check_files(&rt, rt.alloc(), files, &CHECKS);
}

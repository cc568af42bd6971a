//! Machines that are learned, worked by hand: at one worker, at two and at sixteen.
use crate::tests::cases::{
    Case, LEARN, PLAIN, Shell, call, check_all, check_call, end_of, files_of, let_go,
};
use lw_outside::MemorySink;
use lw_report::End;
use lw_rounds::Learner;
use lw_words::Kept;
use std::alloc::Global;
use std::process::Abort;
use std::sync::Wait;
use std::thread::Threads;

const COUNTER: &str =
    "{\"inputs\":[\"t\"],\"outputs\":[\"0\",\"1\"],\"states\":[[[1,\"0\"]],[[2,\"0\"]],[[0,\"1\"]]]}\n";

const ONE_OF_COUNTER: &str =
    "{\"inputs\":[\"t\"],\"outputs\":[\"0\",\"1\"],\"states\":[[[0,\"0\"]]]}\n";

/// A lock that takes the letters a, b, a and b.
const CODE: &str =
    "{\"inputs\":[\"a\",\"b\"],\"outputs\":[\"0\",\"1\"],\"states\":[[[1,\"0\"],[4,\"0\"]],[[4,\"0\"],[2,\"0\"]],[[3,\"0\"],[4,\"0\"]],[[4,\"0\"],[0,\"1\"]],[[4,\"0\"],[4,\"0\"]]]}\n";

/// The same lock in canonical form: the state of a wrong letter is met third.
const CODE_MODEL: &str =
    "{\"inputs\":[\"a\",\"b\"],\"outputs\":[\"0\",\"1\"],\"states\":[[[1,\"0\"],[2,\"0\"]],[[2,\"0\"],[3,\"0\"]],[[2,\"0\"],[2,\"0\"]],[[4,\"0\"],[2,\"0\"]],[[2,\"0\"],[0,\"1\"]]]}\n";

const RING: &str =
    "{\"inputs\":[\"t\"],\"outputs\":[\"0\",\"1\",\"2\"],\"states\":[[[1,\"0\"]],[[2,\"1\"]],[[0,\"2\"]]]}\n";

static LEARNED: [Case; 8] = [
    Case {
        arguments: &["learn", "--table", "m", "--extra", "0"],
        err: "learned: states 1, refinements 0, extra 0, answers 1\n",
        ..PLAIN
    },
    Case {
        arguments: &["learn", "--table", "m", "--extra", "0"],
        file: COUNTER,
        out: ONE_OF_COUNTER,
        err: "learned: states 1, refinements 0, extra 0, answers 1\n",
        ..PLAIN
    },
    Case {
        arguments: &LEARN,
        file: COUNTER,
        out: ONE_OF_COUNTER,
        ..PLAIN
    },
    Case {
        arguments: &["learn", "--table", "m", "--extra", "2"],
        file: COUNTER,
        out: COUNTER,
        err: "learned: states 3, refinements 1, extra 2, answers 5\n",
        ..PLAIN
    },
    Case {
        arguments: &["learn", "--table", "m", "--extra", "2", "--workers", "2"],
        file: COUNTER,
        out: COUNTER,
        err: "learned: states 3, refinements 1, extra 2, answers 5\n",
        ..PLAIN
    },
    Case {
        arguments: &["learn", "--learner=table", "--table", "m", "--extra=2"],
        file: COUNTER,
        out: COUNTER,
        err: "learned: states 3, refinements 1, extra 2, answers 5\n",
        ..PLAIN
    },
    Case {
        arguments: &["learn", "--workers=16", "--extra=2", "--table=m"],
        file: COUNTER,
        out: COUNTER,
        err: "learned: states 3, refinements 1, extra 2, answers 5\n",
        ..PLAIN
    },
    Case {
        arguments: &["learn", "--table", "m", "--max-states", "3"],
        file: RING,
        out: RING,
        err: "learned: states 3, refinements 0, extra 1, answers 4\n",
        ..PLAIN
    },
];

#[test]
fn models_that_are_learned(rt: HostRuntime) {
    check_all(&rt, rt.alloc(), &LEARNED);
}

/// Whether the recorded answers are to words of these numbers of letters, in this order.
fn are_long(kept: &Kept, letters: &[usize]) -> bool {
    let mut right = kept.len() == letters.len();
    for i in 0..kept.len() {
        right = right && letters.get(i).copied() == Some(kept.get(i).word.len());
    }
    right
}

/// Whether one refinement found the counter, by a table that asked words of these numbers of letters.
fn is_by_table(end: &End, letters: &[usize]) -> bool {
    let by_table = matches!(end.learner, Some(Learner::Table(_)));
    by_table && end.refinements == 1 && are_long(&end.kept, letters)
}

/// Whether a case ends so.
fn ends_by_table<R: Abort + Threads + Wait + Sync + Copy + Drop>(
    rt: &R,
    alloc: Global,
    case: &Case,
    letters: &[usize],
) -> bool {
    let end = end_of(rt, alloc, case);
    let right = is_by_table(&end, letters);
    let_go(end);
    right
}

#[test]
fn the_words_that_find_a_counter(rt: HostRuntime) {
    assert!(rt; ends_by_table(&rt, rt.alloc(), &LEARNED[3], &[2, 3, 4, 5, 7]));
}

/// The same call with a tree.
const COUNTER_BY_TREE: Case = Case {
    arguments: &["learn", "--table", "m", "--extra", "2", "--learner", "ttt"],
    file: COUNTER,
    out: COUNTER,
    err: "learned: states 3, refinements 1, extra 2, answers 5\n",
    ..PLAIN
};

/// Whether one refinement found the counter, by a tree that asked words of these numbers of letters.
fn is_by_tree(end: &End, letters: &[usize]) -> bool {
    let by_tree = matches!(end.learner, Some(Learner::Tree(_)));
    by_tree && end.refinements == 1 && are_long(&end.kept, letters)
}

/// Whether a case ends so.
fn ends_by_tree<R: Abort + Threads + Wait + Sync + Copy + Drop>(
    rt: &R,
    alloc: Global,
    case: &Case,
    letters: &[usize],
) -> bool {
    let end = end_of(rt, alloc, case);
    let right = is_by_tree(&end, letters);
    let_go(end);
    right
}

#[test]
fn the_words_that_find_a_counter_by_a_tree(rt: HostRuntime) {
    assert!(rt; ends_by_tree(&rt, rt.alloc(), &COUNTER_BY_TREE, &[1, 3, 4, 5, 7]));
}

/// Whether three refinements found the lock.
fn is_lock(end: &End, out: &MemorySink) -> bool {
    end.status == 0 && end.refinements == 3 && out.taken() == CODE_MODEL.as_bytes()
}

/// Whether a call finds the lock.
fn finds_lock<R: Threads + Wait + Sync + Copy + Drop>(
    rt: &R,
    alloc: Global,
    shell: &mut Shell,
) -> bool {
    let end = call(rt, alloc, shell);
    let right = is_lock(&end, &shell.world.out);
    let_go(end);
    right
}

/// Whether so many workers find the lock.
fn find_lock<R: Abort + Threads + Wait + Sync + Copy + Drop>(
    rt: &R,
    alloc: Global,
    workers: &str,
) -> bool {
    let arguments = [
        "learn",
        "--table",
        "m",
        "--extra",
        "3",
        "--workers",
        workers,
    ];
    let mut shell = Shell::new(rt, alloc, &arguments, files_of(rt, alloc, CODE, &[]));
    finds_lock(rt, alloc, &mut shell)
}

#[test]
fn kept_answers_refine_a_model(rt: HostRuntime) {
    for workers in ["1", "2"] {
        assert!(rt; find_lock(&rt, rt.alloc(), workers), "{workers} workers");
    }
}

/// Puts the names `i00` to `i63` to a text, with a comma between two.
fn put_names(rt: &impl Abort, alloc: Global, text: &mut String) {
    for number in 0u16..64 {
        let name = format!(in alloc; "\"i{number:02}\",").expect(rt, "memory");
        text.push_str(name.as_str()).expect(rt, "memory");
    }
    let _comma = text.pop();
}

/// Puts 64 cells to a text, with a comma between two.
fn put_cells(rt: &impl Abort, text: &mut String) {
    for _ in 0u16..64 {
        text.push_str("[0,\"0\"],").expect(rt, "memory");
    }
    let _comma = text.pop();
}

/// The inputs `i00` to `i63`, and a cell of one state for each.
fn wide(rt: &impl Abort, alloc: Global) -> String {
    let mut text = String::from_str(alloc, "{\"inputs\":[").expect(rt, "memory");
    put_names(rt, alloc, &mut text);
    text.push_str("],\"outputs\":[\"0\"],\"states\":[[")
        .expect(rt, "memory");
    put_cells(rt, &mut text);
    text.push_str("]]}\n").expect(rt, "memory");
    text
}

/// Checks a learning of a table at so many more states: its status, and what its streams take.
fn check_at<R: Abort + Threads + Wait + Sync + Copy + Drop>(
    rt: &R,
    alloc: Global,
    table: &str,
    extra: &str,
    status: u8,
    out: &str,
    err: &str,
) {
    let arguments = ["learn", "--table", "m", "--extra", extra];
    let files = files_of(rt, alloc, table, &[]);
    check_call(rt, alloc, &arguments, files, status, out, err);
}

#[test]
fn the_limit_of_suites(rt: HostRuntime) {
    let text = wide(&rt, rt.alloc());
    let table = text.as_str();
    let over = "suite too large: states 1, extra 3, number 17043521\n";
    check_at(&rt, rt.alloc(), table, "3", 7, "", over);
    let below = "learned: states 1, refinements 0, extra 2, answers 266240\n";
    check_at(&rt, rt.alloc(), table, "2", 0, table, below);
}

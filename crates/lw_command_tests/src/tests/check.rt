//! The rows worked by hand, over files and streams in memory.
use crate::tests::memory::{files, sink, string};
use crate::tests::status_of;
use lw_check::{CheckArguments, check, decision_exists, decision_is_unique};
use lw_chunks::Method;
use lw_outside::{MemoryFiles, MemorySink};
use lw_system::Goal;
use std::alloc::Global;
use std::process::Abort;

const COUNTER: &str =
    "{\"inputs\":[\"t\"],\"outputs\":[\"0\",\"1\"],\"states\":[[[1,\"0\"]],[[2,\"0\"]],[[0,\"1\"]]]}\n";

const ALIKE: &str =
    "{\"inputs\":[\"t\"],\"outputs\":[\"0\",\"1\"],\"states\":[[[1,\"0\"]],[[0,\"0\"]]]}\n";

const UNREACHED: &str =
    "{\"inputs\":[\"t\"],\"outputs\":[\"0\",\"1\"],\"states\":[[[0,\"0\"]],[[0,\"0\"]]]}\n";

/// A model and the list of an answers file over the names of the counter, which calls fail, and what comes of them.
#[derive(Clone, Copy)]
struct Case {
    file_plan: &'static [u64],
    out_plan: &'static [u64],
    err_plan: &'static [u64],
    model: &'static str,
    answers: &'static str,
    extra: u8,
    status: u8,
    out: &'static str,
    err: &'static str,
}

/// Answers that are enough for the counter, one letter short of what two extra states need.
const PLAIN: Case = Case {
    file_plan: &[],
    out_plan: &[],
    err_plan: &[],
    model: COUNTER,
    answers: "[\"t t t t t t\",\"0 0 1 0 0 1\"]",
    extra: 1,
    status: 0,
    out: "yes: states 3, extra 1, answers 1\n",
    err: "",
};

/// All that a call is handed.
#[derive(Drop)]
struct Outside {
    files: MemoryFiles,
    out: MemorySink,
    err: MemorySink,
}

/// The file of a model, and one of answers.
fn files_of<'a>(
    rt: &impl Abort,
    alloc: Global,
    model: &'a str,
    answers: &'a str,
    failing: &[u64],
) -> MemoryFiles {
    files(rt, alloc, &[("m", model), ("k", answers)], failing)
}

/// The file of the model, and that of the answers over the names of the counter.
fn held(rt: &impl Abort, alloc: Global, case: &Case) -> MemoryFiles {
    let (list, names) = (case.answers, NAMES);
    let answers = format!(in alloc; "{{\"answers\":[{list}],\"format\":1,{names}");
    let answers = answers.expect(rt, "memory");
    files_of(rt, alloc, case.model, answers.as_str(), case.file_plan)
}

fn prepare(rt: &impl Abort, alloc: Global, case: &Case) -> Outside {
    Outside {
        files: held(rt, alloc, case),
        out: sink(rt, alloc, case.out_plan),
        err: sink(rt, alloc, case.err_plan),
    }
}

fn arguments(rt: &impl Abort, alloc: Global, extra: u8) -> CheckArguments {
    CheckArguments {
        goal: Goal::Machine,
        model: string(rt, alloc, "m"),
        answers: string(rt, alloc, "k"),
        extra: extra.min(4),
        suite: Method::W,
    }
}

/// The exit status of a call: the clauses of `check` would weigh down each proof that calls it.
fn status(alloc: Global, arguments: &CheckArguments, outside: &mut Outside) -> u8 {
    let end = check(
        alloc,
        arguments,
        &mut outside.files,
        &mut outside.out,
        &mut outside.err,
    );
    status_of(end)
}

/// Checks what a call wrote to the streams.
fn check_written(rt: &impl Abort, case: &Case, outside: &Outside) {
    assert_eq!(rt; outside.out.taken(), case.out.as_bytes());
    assert_eq!(rt; outside.err.taken(), case.err.as_bytes());
}

fn checks(rt: &impl Abort, alloc: Global, case: &Case) {
    let mut outside = prepare(rt, alloc, case);
    let arguments = arguments(rt, alloc, case.extra);
    let status = status(alloc, &arguments, &mut outside);
    check_written(rt, case, &outside);
    assert!(rt; status == case.status);
}

const NAMES: &str = "\"inputs\":[\"t\"],\"outputs\":[\"0\",\"1\"]}\n";

/// The words of an even number of letters.
const EVEN: &str = "{\"accepting\":[true,false],\"inputs\":[\"a\"],\"targets\":[[1],[0]]}\n";

/// Answers that are enough for it, with no state more.
const ENOUGH: &str =
    "{\"format\":1,\"inputs\":[\"?\",\"a\"],\"outputs\":[\"yes\",\"no\",\"ok\"],\"answers\":[[\"a ? ?\",\"ok no no\"],[\"a a ?\",\"ok ok yes\"],[\"? ?\",\"yes yes\"]]}\n";

#[test]
fn an_acceptor_is_checked(rt: HostRuntime) {
    let alloc = rt.alloc();
    let mut outside = Outside {
        files: files_of(&rt, alloc, EVEN, ENOUGH, &[]),
        out: sink(&rt, alloc, &[]),
        err: sink(&rt, alloc, &[]),
    };
    let mut arguments = arguments(&rt, alloc, 0);
    arguments.goal = Goal::Acceptor;
    assert!(rt; status(alloc, &arguments, &mut outside) == 0);
    assert_eq!(rt;
        outside.out.taken(),
        "yes: states 2, extra 0, answers 3\n".as_bytes()
    );
}

fn check_all(rt: &impl Abort, alloc: Global, cases: &[Case]) {
    for case in cases {
        checks(rt, alloc, case);
    }
}

/// The answer that is one letter short, at two extra states.
const SHORT: Case = Case {
    extra: 2,
    status: 1,
    out: "no: word \"t t t t t t t\" is missing\n",
    ..PLAIN
};

static LENGTHS: [Case; 3] = [
    Case {
        answers: "[\"t t t t t t t\",\"0 0 1 0 0 1 0\"]",
        status: 0,
        out: "yes: states 3, extra 2, answers 1\n",
        ..SHORT
    },
    SHORT,
    PLAIN,
];

#[test]
fn enough_answers_and_one_too_short(rt: HostRuntime) {
    check_all(&rt, rt.alloc(), &LENGTHS);
}

static NOT_MINIMAL: [Case; 2] = [
    Case {
        model: ALIKE,
        answers: "",
        status: 1,
        out: "no: states 0 and 1 are alike\n",
        ..PLAIN
    },
    Case {
        model: UNREACHED,
        answers: "",
        status: 1,
        out: "no: state 1 is unreached\n",
        ..PLAIN
    },
];

#[test]
fn models_that_are_not_minimal(rt: HostRuntime) {
    check_all(&rt, rt.alloc(), &NOT_MINIMAL);
    decision_is_unique();
    decision_exists();
}

/// Two answers that contradict each other.
const CLASHING: Case = Case {
    answers: "[\"t\",\"0\"],[\"t\",\"1\"]",
    status: 4,
    out: "",
    err: "nondeterministic at place 0\ninstance 0 run 0: t / 0\ninstance 0 run 1: t / 1\n",
    ..PLAIN
};

static DIFFERING: [Case; 3] = [
    Case {
        answers: "[\"t t\",\"0 1\"]",
        status: 1,
        out: "no: answer 0 differs at place 1\n",
        ..PLAIN
    },
    CLASHING,
    Case {
        model: "{\"inputs\":[\"t\"],\"outputs\":[\"0\"],\"states\":[[[0,\"0\"]]]}\n",
        status: 3,
        err: "bad file answers: names differ from the model\n",
        ..CLASHING
    },
];

#[test]
fn answers_that_differ_or_clash(rt: HostRuntime) {
    check_all(&rt, rt.alloc(), &DIFFERING);
}

const FAULT: Case = Case {
    status: 8,
    out: "",
    ..PLAIN
};

static FAULTS: [Case; 6] = [
    Case {
        file_plan: &[0],
        err: "file fault: model\n",
        ..FAULT
    },
    Case {
        file_plan: &[1],
        err: "file fault: answers\n",
        ..FAULT
    },
    Case {
        out_plan: &[0],
        err: "sink fault\n",
        ..FAULT
    },
    Case {
        out_plan: &[1],
        out: "yes: st",
        err: "sink fault\n",
        ..FAULT
    },
    Case {
        err_plan: &[1],
        err: "nondete",
        ..CLASHING
    },
    Case {
        err_plan: &[0],
        ..PLAIN
    },
];

#[test]
fn failing_files_and_streams(rt: HostRuntime) {
    check_all(&rt, rt.alloc(), &FAULTS);
}

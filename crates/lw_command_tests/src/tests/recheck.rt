//! The rows worked by hand, over files, children and streams in memory.
use crate::tests::memory::{files, sink, spawner, string};
use crate::tests::status_and_kept;
use lw_outside::{MemoryFiles, MemorySink, MemorySpawner};
use lw_recheck::{RecheckArguments, recheck};
use std::alloc::Global;
use std::process::Abort;

/// Two states: a coin unlocks, a push locks again.
const TURNSTILE: &str =
    "{\"inputs\":[\"coin\",\"push\"],\"outputs\":[\"ok\",\"shut\"],\"states\":[[[1,\"ok\"],[0,\"shut\"]],[[1,\"ok\"],[0,\"ok\"]]]}\n";

/// A child with two letters, whose outputs are declared.
const DECLARED: &str =
    "{\"command\":[\"gate\"],\"inputs\":[\"coin\",\"push\"],\"outputs\":[\"shut\",\"ok\"]}\n";

/// The same child, whose outputs aren't.
const FREE: &str = "{\"command\":[\"gate\"],\"inputs\":[\"coin\",\"push\"]}\n";

/// Two answers of the turnstile.
const ANSWERS: &str =
    "{\"answers\":[[0,4,\"push\",\"shut\"],[3,7,\"coin push\",\"ok ok\"]],\"format\":2,\"inputs\":[\"coin\",\"push\"],\"outputs\":[\"ok\",\"shut\"]}\n";

/// What stands in the files `s` of the setup, `a` of the answers and `t` of a table, what the child says, which calls fail, and
/// what comes of it.
#[derive(Clone, Copy)]
struct Case {
    setup: &'static str,
    answers: &'static str,
    script: &'static str,
    start_plan: &'static [u64],
    file_plan: &'static [u64],
    out_plan: &'static [u64],
    status: u8,
    kept: usize,
    retired: usize,
    out: &'static str,
    err: &'static str,
}

/// A child that answers the same.
const SAME: Case = Case {
    setup: DECLARED,
    answers: ANSWERS,
    script: "ready\nout shut\nready\nout ok\nout ok\n",
    start_plan: &[],
    file_plan: &[],
    out_plan: &[],
    status: 0,
    kept: 2,
    retired: 1,
    out: "same: answers 2\n",
    err: "",
};

/// A call that ends before a child is started.
const UNREAD: Case = Case {
    kept: 0,
    retired: 0,
    out: "",
    ..SAME
};

static CASES: [Case; 23] = [
    SAME,
    // outputs that aren't declared come in another order than in the file
    Case {
        setup: FREE,
        ..SAME
    },
    // a table that the setup names
    Case {
        setup: "{\"table\":\"t\"}\n",
        retired: 0,
        ..SAME
    },
    // no answer
    Case {
        answers: "{\"answers\":[],\"format\":2,\"inputs\":[\"coin\",\"push\"],\"outputs\":[\"ok\"]}\n",
        script: "",
        kept: 0,
        out: "same: answers 0\n",
        ..SAME
    },
    // the empty word
    Case {
        answers: "{\"answers\":[[\"\",\"\"]],\"format\":1,\"inputs\":[\"coin\",\"push\"],\"outputs\":[\"ok\"]}\n",
        script: "ready\n",
        kept: 1,
        out: "same: answers 1\n",
        ..SAME
    },
    // otherwise in the second word
    Case {
        script: "ready\nout shut\nready\nout ok\nout shut\n",
        status: 4,
        kept: 3,
        out: "",
        err: "nondeterministic at place 1\ninstance 3 run 7: coin push / ok ok\ninstance 0 run 1: coin push / ok shut\n",
        ..SAME
    },
    // otherwise at once: the second word isn't asked
    Case {
        script: "ready\nout ok\n",
        status: 4,
        kept: 3,
        out: "",
        err: "nondeterministic at place 0\ninstance 0 run 4: push / shut\ninstance 0 run 0: push / ok\n",
        ..SAME
    },
    // by an output that the file hasn't
    Case {
        setup: FREE,
        script: "ready\nout shut\nready\nout open\nout no\n",
        status: 4,
        kept: 3,
        out: "",
        err: "nondeterministic at place 0\ninstance 3 run 7: coin push / ok ok\ninstance 0 run 1: coin push / open no\n",
        ..SAME
    },
    // by a declared output that the file hasn't
    Case {
        answers: "{\"answers\":[[\"push\",\"shut\"]],\"format\":1,\"inputs\":[\"coin\",\"push\"],\"outputs\":[\"shut\"]}\n",
        script: "ready\nout ok\n",
        status: 4,
        kept: 2,
        out: "",
        err: "nondeterministic at place 0\ninstance 0 run 0: push / shut\ninstance 0 run 0: push / ok\n",
        ..SAME
    },
    // a table gives one of two answers that contradict each other
    Case {
        setup: "{\"table\":\"t\"}\n",
        answers: "{\"answers\":[[\"push\",\"shut\"],[\"push\",\"ok\"]],\"format\":1,\"inputs\":[\"coin\",\"push\"],\"outputs\":[\"ok\",\"shut\"]}\n",
        status: 4,
        kept: 3,
        retired: 0,
        out: "",
        err: "nondeterministic at place 0\ninstance 0 run 1: push / ok\ninstance 0 run 1: push / shut\n",
        ..SAME
    },
    // the child ends in the second word, or before it
    Case {
        script: "ready\nout shut\nready\nout ok\n",
        status: 6,
        out: "",
        err: "system ended: instance 0\n",
        ..SAME
    },
    Case {
        script: "ready\nout shut\n",
        status: 6,
        out: "",
        err: "system ended: instance 0\n",
        ..SAME
    },
    // it says what is no line for its place, or an output that isn't declared
    Case {
        script: "ready\nout shut\nready\nin ok\n",
        status: 6,
        out: "",
        err: "bad line: instance 0: 696e206f6b\n",
        ..SAME
    },
    Case {
        script: "ready\nout open\n",
        status: 6,
        out: "",
        err: "bad line: instance 0: 6f7574206f70656e\n",
        ..SAME
    },
    // a start that fails
    Case {
        start_plan: &[0],
        status: 6,
        err: "system not started: unknown cause\n",
        ..UNREAD
    },
    // files that can't be read, or are none of their kind
    Case {
        file_plan: &[0],
        status: 8,
        err: "file fault: setup\n",
        ..UNREAD
    },
    Case {
        file_plan: &[1],
        status: 8,
        err: "file fault: prior\n",
        ..UNREAD
    },
    Case {
        answers: "x\n",
        status: 3,
        err: "bad file prior: not JSON\n",
        ..UNREAD
    },
    Case {
        setup: "x\n",
        status: 3,
        err: "bad file setup: not JSON\n",
        ..UNREAD
    },
    // letters that aren't the setup's, and outputs that aren't declared
    Case {
        answers: "{\"answers\":[],\"format\":2,\"inputs\":[\"push\",\"coin\"],\"outputs\":[\"ok\"]}\n",
        status: 3,
        err: "bad file prior: names differ from the setup\n",
        ..UNREAD
    },
    Case {
        answers: "{\"answers\":[],\"format\":2,\"inputs\":[\"coin\",\"push\"],\"outputs\":[\"ok\",\"open\"]}\n",
        status: 3,
        err: "bad file prior: names differ from the setup\n",
        ..UNREAD
    },
    // the output refuses the line, or what is left of it
    Case {
        out_plan: &[0],
        status: 8,
        out: "",
        err: "sink fault\n",
        ..SAME
    },
    Case {
        out_plan: &[1],
        status: 8,
        out: "same: a",
        err: "sink fault\n",
        ..SAME
    },
];

/// All that a call is handed.
#[derive(Drop)]
struct Outside {
    files: MemoryFiles,
    spawner: MemorySpawner,
    out: MemorySink,
    err: MemorySink,
}

fn prepare(rt: &impl Abort, alloc: Global, case: &Case) -> Outside {
    let texts = [("s", case.setup), ("a", case.answers), ("t", TURNSTILE)];
    Outside {
        files: files(rt, alloc, &texts, case.file_plan),
        spawner: spawner(rt, alloc, case.script, case.start_plan),
        out: sink(rt, alloc, case.out_plan),
        err: sink(rt, alloc, &[]),
    }
}

fn arguments(rt: &impl Abort, alloc: Global) -> RecheckArguments {
    RecheckArguments::new(string(rt, alloc, "s"), string(rt, alloc, "a"))
}

/// The exit status of a call, and how many answers are recorded.
fn end(alloc: Global, arguments: &RecheckArguments, outside: &mut Outside) -> (u8, usize) {
    let end = recheck(
        alloc,
        arguments,
        &mut outside.files,
        &mut outside.spawner,
        &mut outside.out,
        &mut outside.err,
    );
    status_and_kept(end)
}

/// Whether a call of the case ends as it says.
fn ends_so(case: &Case, end: (u8, usize), outside: &Outside) -> bool {
    end == (case.status, case.kept)
        && outside.spawner.retired().len() == case.retired
        && outside.out.taken() == case.out.as_bytes()
        && outside.err.taken() == case.err.as_bytes()
}

fn comes_so(rt: &impl Abort, alloc: Global, case: &Case) -> bool {
    let arguments = arguments(rt, alloc);
    let mut outside = prepare(rt, alloc, case);
    let end = end(alloc, &arguments, &mut outside);
    ends_so(case, end, &outside)
}

#[test]
fn each_case_ends_so(rt: HostRuntime) {
    for case in &CASES {
        assert!(rt; comes_so(&rt, rt.alloc(), case));
    }
}

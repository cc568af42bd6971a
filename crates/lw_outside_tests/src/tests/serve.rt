//! The rows worked by hand, over files and streams in memory.
use crate::tests::{files_of, sink_of, source_of};
use lw_outside::{MemoryFiles, MemorySink, MemorySource};
use lw_serve::serve;
use std::alloc::Global;
use std::process::Abort;

const COUNTER: &str =
    "{\"inputs\":[\"t\"],\"outputs\":[\"0\",\"1\"],\"states\":[[[1,\"0\"]],[[2,\"0\"]],[[0,\"1\"]]]}\n";

/// What stands in the file `counter`, the file that is named, the input, which calls fail, and what comes of them.
#[derive(Clone, Copy)]
struct Case {
    held: &'static str,
    named: &'static str,
    input: &'static str,
    input_plan: &'static [u64],
    out_plan: &'static [u64],
    err_plan: &'static [u64],
    status: u8,
    out: &'static str,
    err: &'static str,
}

/// A child that is asked for two letters, and to end.
const PLAIN: Case = Case {
    held: COUNTER,
    named: "counter",
    input: "reset\nin t\nin t\nquit\n",
    input_plan: &[],
    out_plan: &[],
    err_plan: &[],
    status: 0,
    out: "ready\nout 0\nout 0\n",
    err: "",
};

static CASES: [Case; 10] = [
    PLAIN,
    Case {
        input: "reset\nin t\nin t\nin t\n",
        out: "ready\nout 0\nout 0\nout 1\n",
        ..PLAIN
    },
    Case {
        input: "reset\nin z\n",
        status: 6,
        out: "ready\n",
        err: "bad line: 2\n",
        ..PLAIN
    },
    Case {
        input: "reset\nin z\n",
        err_plan: &[0],
        status: 6,
        out: "ready\n",
        ..PLAIN
    },
    Case {
        input_plan: &[0],
        status: 8,
        out: "",
        err: "source fault\n",
        ..PLAIN
    },
    Case {
        input_plan: &[1],
        status: 8,
        out: "ready\n",
        err: "source fault\n",
        ..PLAIN
    },
    Case {
        out_plan: &[0],
        status: 8,
        out: "",
        err: "sink fault\n",
        ..PLAIN
    },
    Case {
        named: "c4",
        status: 8,
        out: "",
        err: "file fault: model\n",
        ..PLAIN
    },
    Case {
        held: "x\n",
        status: 3,
        out: "",
        err: "bad file model: not JSON\n",
        ..PLAIN
    },
    Case {
        held: "{\"inputs\":[\"t\"],\"outputs\":[\"0\"],\"states\":[]}\n",
        status: 3,
        out: "",
        err: "bad file model: no state\n",
        ..PLAIN
    },
];

/// All that a call is handed.
#[derive(Drop)]
struct Outside {
    files: MemoryFiles,
    input: MemorySource,
    out: MemorySink,
    err: MemorySink,
}

fn prepare(rt: &impl Abort, alloc: Global, case: &Case) -> Outside {
    Outside {
        files: files_of(rt, alloc, &[("counter", case.held)], &[]),
        input: source_of(rt, alloc, case.input.as_bytes(), 6, case.input_plan),
        out: sink_of(rt, alloc, 200, 7, case.out_plan),
        err: sink_of(rt, alloc, 200, 7, case.err_plan),
    }
}

/// The exit status of a call.
fn status(alloc: Global, case: &Case, outside: &mut Outside) -> u8 {
    serve(
        alloc,
        case.named,
        &mut outside.files,
        &mut outside.input,
        &mut outside.out,
        &mut outside.err,
    )
    .status
}

/// Whether the call ends as the case says.
fn ends_so(alloc: Global, case: &Case, outside: &mut Outside) -> bool {
    status(alloc, case, outside) == case.status
        && outside.out.taken() == case.out.as_bytes()
        && outside.err.taken() == case.err.as_bytes()
}

fn serves(rt: &impl Abort, alloc: Global, case: &Case) -> bool {
    let mut outside = prepare(rt, alloc, case);
    ends_so(alloc, case, &mut outside)
}

#[test]
fn each_case_ends_so(rt: HostRuntime) {
    for case in &CASES {
        assert!(rt; serves(&rt, rt.alloc(), case));
    }
}

//! Models by hand: the rows of the command over files and streams in memory, and the walk beside a plain search.
use crate::tests::memory::{files, sink};
use crate::tests::status_of;
use lw_compare::{compare, comparison_is_unique};
use lw_outside::{MemoryFiles, MemorySink};
use std::alloc::Global;
use std::process::Abort;

mod drawn;

/// Every third `t` answers 1.
const COUNTER: &str =
    "{\"inputs\":[\"t\"],\"outputs\":[\"0\",\"1\"],\"states\":[[[1,\"0\"]],[[2,\"0\"]],[[0,\"1\"]]]}\n";

/// The counter once more: its states in another order, one of them twice, and its outputs numbered the other way.
const RENUMBERED: &str =
    "{\"inputs\":[\"t\"],\"outputs\":[\"1\",\"0\"],\"states\":[[[2,\"0\"]],[[3,\"1\"]],[[1,\"0\"]],[[2,\"0\"]]]}\n";

/// Every third `t` answers 0, too.
const STILL: &str = "{\"inputs\":[\"t\"],\"outputs\":[\"0\"],\"states\":[[[0,\"0\"]]]}\n";

/// A door: it opens and closes.
const DOOR: &str =
    "{\"inputs\":[\"open\",\"close\"],\"outputs\":[\"ok\",\"no\"],\"states\":[[[1,\"ok\"],[0,\"no\"]],[[1,\"no\"],[0,\"ok\"]]]}\n";

/// The door with its inputs in another order.
const TURNED: &str =
    "{\"inputs\":[\"close\",\"open\"],\"outputs\":[\"no\",\"ok\"],\"states\":[[[0,\"no\"],[1,\"ok\"]],[[0,\"ok\"],[1,\"no\"]]]}\n";

/// A door that says `yes` where the other one says `ok`.
const OTHER_WORDS: &str =
    "{\"inputs\":[\"open\",\"close\"],\"outputs\":[\"yes\",\"no\"],\"states\":[[[1,\"yes\"],[0,\"no\"]],[[1,\"no\"],[0,\"yes\"]]]}\n";

/// A door that stays closed once it was closed.
const STUCK: &str =
    "{\"inputs\":[\"close\",\"open\"],\"outputs\":[\"ok\",\"no\"],\"states\":[[[0,\"no\"],[1,\"ok\"]],[[2,\"ok\"],[1,\"no\"]],[[2,\"no\"],[2,\"no\"]]]}\n";

/// A door with a bell and no way to close it.
const BELL: &str =
    "{\"inputs\":[\"open\",\"ring\"],\"outputs\":[\"ok\"],\"states\":[[[0,\"ok\"],[0,\"ok\"]]]}\n";

/// What stands in both files, which calls fail, and what comes of them.
#[derive(Clone, Copy)]
struct Case {
    first: &'static str,
    second: &'static str,
    file_plan: &'static [u64],
    out_plan: &'static [u64],
    err_plan: &'static [u64],
    status: u8,
    out: &'static str,
    err: &'static str,
}

/// Two models that are equal.
const EQUAL: Case = Case {
    first: COUNTER,
    second: RENUMBERED,
    file_plan: &[],
    out_plan: &[],
    err_plan: &[],
    status: 0,
    out: "equal\n",
    err: "",
};

/// Two models of which one has inputs that the other one hasn't.
const OTHER_INPUTS: Case = Case {
    first: DOOR,
    second: BELL,
    status: 3,
    out: "",
    err: "inputs differ\nfirst only: close\nsecond only: ring\n",
    ..EQUAL
};

const FAULT: Case = Case {
    status: 8,
    out: "",
    ..EQUAL
};

static COMPARED: [Case; 9] = [
    EQUAL,
    Case {
        first: RENUMBERED,
        second: COUNTER,
        ..EQUAL
    },
    Case {
        first: DOOR,
        second: TURNED,
        ..EQUAL
    },
    Case {
        second: STILL,
        status: 1,
        out: "differ\nfirst: t t t / 0 0 1\nsecond: t t t / 0 0 0\n",
        ..EQUAL
    },
    Case {
        first: STILL,
        second: COUNTER,
        status: 1,
        out: "differ\nfirst: t t t / 0 0 0\nsecond: t t t / 0 0 1\n",
        ..EQUAL
    },
    Case {
        first: DOOR,
        second: OTHER_WORDS,
        status: 1,
        out: "differ\nfirst: open / ok\nsecond: open / yes\n",
        ..EQUAL
    },
    Case {
        first: DOOR,
        second: STUCK,
        status: 1,
        out: "differ\nfirst: open close open / ok ok ok\nsecond: open close open / ok ok no\n",
        ..EQUAL
    },
    OTHER_INPUTS,
    Case {
        first: BELL,
        second: STILL,
        err: "inputs differ\nfirst only: open ring\nsecond only: t\n",
        ..OTHER_INPUTS
    },
];

static REFUSED: [Case; 11] = [
    Case {
        first: "x\n",
        status: 3,
        err: "bad file model: not JSON\n",
        ..FAULT
    },
    Case {
        second: "{\"inputs\":[\"t\"],\"outputs\":[\"0\"],\"states\":[]}\n",
        status: 3,
        err: "bad file second model: no state\n",
        ..FAULT
    },
    Case {
        first: "x\n",
        second: "x\n",
        status: 3,
        err: "bad file model: not JSON\n",
        ..FAULT
    },
    Case {
        file_plan: &[0],
        err: "file fault: model\n",
        ..FAULT
    },
    Case {
        file_plan: &[1],
        err: "file fault: second model\n",
        ..FAULT
    },
    Case {
        out_plan: &[0],
        err: "sink fault\n",
        ..FAULT
    },
    Case {
        second: STILL,
        out_plan: &[1],
        out: "differ\n",
        err: "sink fault\n",
        ..FAULT
    },
    Case {
        out_plan: &[0],
        err_plan: &[0],
        ..FAULT
    },
    Case {
        err_plan: &[0],
        err: "",
        ..OTHER_INPUTS
    },
    Case {
        err_plan: &[1],
        err: "inputs ",
        ..OTHER_INPUTS
    },
    Case {
        err_plan: &[0],
        ..EQUAL
    },
];

/// All that a call is handed.
#[derive(Drop)]
struct Outside {
    files: MemoryFiles,
    out: MemorySink,
    err: MemorySink,
}

fn prepare(rt: &impl Abort, alloc: Global, case: &Case) -> Outside {
    let texts = [("m", case.first), ("n", case.second)];
    Outside {
        files: files(rt, alloc, &texts, case.file_plan),
        out: sink(rt, alloc, case.out_plan),
        err: sink(rt, alloc, case.err_plan),
    }
}

/// The exit status of a call.
fn status(alloc: Global, outside: &mut Outside) -> u8 {
    let end = compare(
        alloc,
        "m",
        "n",
        &mut outside.files,
        &mut outside.out,
        &mut outside.err,
    );
    status_of(end)
}

/// Whether the call ends as the case says.
fn ends_so(alloc: Global, case: &Case, outside: &mut Outside) -> bool {
    status(alloc, outside) == case.status
        && outside.out.taken() == case.out.as_bytes()
        && outside.err.taken() == case.err.as_bytes()
}

fn compares(rt: &impl Abort, alloc: Global, case: &Case) -> bool {
    let mut outside = prepare(rt, alloc, case);
    ends_so(alloc, case, &mut outside)
}

#[test]
fn models_are_compared(rt: HostRuntime) {
    for case in &COMPARED {
        assert!(rt; compares(&rt, rt.alloc(), case));
    }
    comparison_is_unique();
}

#[test]
fn refusals_and_faults(rt: HostRuntime) {
    for case in &REFUSED {
        assert!(rt; compares(&rt, rt.alloc(), case));
    }
}

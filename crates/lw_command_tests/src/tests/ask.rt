//! The rows worked by hand, over files, children and streams in memory.
use crate::tests::memory::{files, sink, spawner, string};
use crate::tests::status_and_kept;
use lw_ask::{AskArguments, ask};
use lw_outside::{MemoryFiles, MemorySink, MemorySpawner};
use lw_system::{Goal, Source};
use std::alloc::Global;
use std::process::Abort;

/// Two states: a coin unlocks, a push locks again.
const TURNSTILE: &str =
    "{\"inputs\":[\"coin\",\"push\"],\"outputs\":[\"ok\",\"shut\"],\"states\":[[[1,\"ok\"],[0,\"shut\"]],[[1,\"ok\"],[0,\"ok\"]]]}\n";

/// A child with two letters, whose outputs are declared.
const DECLARED: &str =
    "{\"command\":[\"gate\"],\"inputs\":[\"coin\",\"push\"],\"outputs\":[\"ok\",\"shut\"]}\n";

/// The same child, whose outputs aren't.
const FREE: &str = "{\"command\":[\"gate\"],\"inputs\":[\"coin\",\"push\"]}\n";

/// The same child, whose outputs are declared by a member that no setup has.
const MISSPELT: &str =
    "{\"command\":[\"gate\"],\"inputs\":[\"coin\",\"push\"],\"outpts\":[\"ok\",\"shut\"]}\n";

/// The same, with another member that no setup has, which stands behind it and comes before it by name.
const TWICE: &str =
    "{\"command\":[\"gate\"],\"inputs\":[\"coin\",\"push\"],\"outpts\":[\"ok\"],\"note\":1}\n";

/// What stands in the file `f`, what the child says, which calls fail, and what comes of the words.
#[derive(Clone, Copy)]
struct Case {
    source: Source,
    held: &'static str,
    words: &'static [&'static str],
    script: &'static str,
    start_plan: &'static [u64],
    file_plan: &'static [u64],
    out_plan: &'static [u64],
    err_plan: &'static [u64],
    status: u8,
    kept: usize,
    retired: usize,
    out: &'static str,
    err: &'static str,
}

/// A table that is asked one word.
const TABLE: Case = Case {
    source: Source::Table,
    held: TURNSTILE,
    words: &["push coin push push"],
    script: "",
    start_plan: &[],
    file_plan: &[],
    out_plan: &[],
    err_plan: &[],
    status: 0,
    kept: 1,
    retired: 0,
    out: "push coin push push / shut ok ok shut\n",
    err: "",
};

/// A child that is asked two words.
const CHILD: Case = Case {
    source: Source::Setup,
    held: DECLARED,
    words: &["push", "coin push"],
    script: "ready\nout shut\nready\nout ok\nout ok\n",
    kept: 2,
    retired: 1,
    out: "push / shut\ncoin push / ok ok\n",
    ..TABLE
};

static CASES: [Case; 27] = [
    TABLE,
    // an empty word, blanks at both ends and several between, and the same word again
    Case {
        words: &["", "  coin   push ", "coin push"],
        kept: 3,
        out: " / \ncoin push / ok ok\ncoin push / ok ok\n",
        ..TABLE
    },
    // no word
    Case {
        words: &[],
        kept: 0,
        out: "",
        ..TABLE
    },
    CHILD,
    // outputs that weren't declared
    Case {
        held: FREE,
        script: "ready\nout no\nready\nout 200\nout no\n",
        out: "push / no\ncoin push / 200 no\n",
        ..CHILD
    },
    // a member that no setup has
    Case {
        held: MISSPELT,
        err: "unknown member \"outpts\" in setup\n",
        ..CHILD
    },
    // two of them: the first by name is told
    Case {
        held: TWICE,
        err: "unknown member \"note\" in setup\n",
        ..CHILD
    },
    // it is told before the outcome's text
    Case {
        held: MISSPELT,
        words: &["kick"],
        status: 3,
        kept: 0,
        retired: 0,
        out: "",
        err: "unknown member \"outpts\" in setup\nbad word 1: letter 1 is no input\n",
        ..CHILD
    },
    // also where the table file that the setup names is refused
    Case {
        source: Source::Setup,
        held: "{\"table\":\"f\",\"note\":1}\n",
        status: 3,
        kept: 0,
        out: "",
        err: "unknown member \"note\" in setup\nbad file table: shape of inputs\n",
        ..TABLE
    },
    // but not at a setup that is refused itself
    Case {
        held: "{\"note\":1}\n",
        status: 3,
        kept: 0,
        retired: 0,
        out: "",
        err: "bad file setup: shape of neither\n",
        ..CHILD
    },
    // a stream that refuses the hint
    Case {
        held: MISSPELT,
        err_plan: &[0],
        err: "",
        ..CHILD
    },
    // the child says something else at the third word
    Case {
        words: &["push", "coin", "coin push"],
        script: "ready\nout shut\nready\nout ok\nready\nin ok\n",
        status: 6,
        out: "push / shut\ncoin / ok\n",
        err: "bad line: instance 0: 696e206f6b\n",
        ..CHILD
    },
    // an output that wasn't declared
    Case {
        script: "ready\nout shut\nready\nout open\n",
        status: 6,
        kept: 1,
        out: "push / shut\n",
        err: "bad line: instance 0: 6f7574206f70656e\n",
        ..CHILD
    },
    // the child ends in a word, and before a word
    Case {
        script: "ready\nout shut\nready\nout ok\n",
        status: 6,
        kept: 1,
        out: "push / shut\n",
        err: "system ended: instance 0\n",
        ..CHILD
    },
    Case {
        script: "ready\nout shut\n",
        status: 6,
        kept: 1,
        out: "push / shut\n",
        err: "system ended: instance 0\n",
        ..CHILD
    },
    // a start that fails
    Case {
        start_plan: &[0],
        status: 6,
        kept: 0,
        retired: 0,
        out: "",
        err: "system not started: unknown cause\n",
        ..CHILD
    },
    // a letter that is no input: nothing is started
    Case {
        words: &["push", "coin  kick push"],
        status: 3,
        kept: 0,
        retired: 0,
        out: "",
        err: "bad word 2: letter 2 is no input\n",
        ..CHILD
    },
    Case {
        words: &["push", "coin", "Coin"],
        status: 3,
        kept: 0,
        out: "",
        err: "bad word 3: letter 1 is no input\n",
        ..TABLE
    },
    // a setup that names a table file, which is itself
    Case {
        source: Source::Setup,
        held: "{\"table\":\"f\"}\n",
        status: 3,
        kept: 0,
        out: "",
        err: "bad file table: shape of inputs\n",
        ..TABLE
    },
    // files that can't be read, or are none of their kind
    Case {
        file_plan: &[0],
        status: 8,
        kept: 0,
        out: "",
        err: "file fault: table\n",
        ..TABLE
    },
    Case {
        file_plan: &[0],
        status: 8,
        kept: 0,
        retired: 0,
        out: "",
        err: "file fault: setup\n",
        ..CHILD
    },
    Case {
        held: "x\n",
        status: 3,
        kept: 0,
        retired: 0,
        out: "",
        err: "bad file setup: not JSON\n",
        ..CHILD
    },
    Case {
        source: Source::Setup,
        status: 3,
        kept: 0,
        out: "",
        err: "bad file setup: shape of neither\n",
        ..TABLE
    },
    // the output refuses the second line, or what is left of the first one
    Case {
        out_plan: &[2],
        status: 8,
        out: "push / shut\n",
        err: "sink fault\n",
        ..CHILD
    },
    Case {
        out_plan: &[1],
        status: 8,
        kept: 1,
        out: "push / ",
        err: "sink fault\n",
        ..CHILD
    },
    // what `err` refuses changes nothing
    Case {
        script: "ready\n",
        err_plan: &[0],
        status: 6,
        kept: 0,
        out: "",
        err: "",
        ..CHILD
    },
    Case {
        words: &["jump"],
        err_plan: &[0],
        status: 3,
        kept: 0,
        out: "",
        err: "",
        ..TABLE
    },
];

/// All that a call is handed.
#[derive(Drop)]
struct Outside {
    files: MemoryFiles,
    spawner: MemorySpawner,
    out: MemorySink,
    err: MemorySink,
}

fn prepare(rt: &impl Abort, alloc: Global, case: &Case) -> Outside {
    Outside {
        files: files(rt, alloc, &[("f", case.held)], case.file_plan),
        spawner: spawner(rt, alloc, case.script, case.start_plan),
        out: sink(rt, alloc, case.out_plan),
        err: sink(rt, alloc, case.err_plan),
    }
}

fn arguments(rt: &impl Abort, alloc: Global, case: &Case) -> AskArguments {
    let mut words = Vec::new(alloc);
    for word in case.words {
        words.push(string(rt, alloc, word)).expect(rt, "memory");
    }
    AskArguments::new(Goal::Machine, case.source, string(rt, alloc, "f"), words)
}

/// The exit status of a call, and how many answers are recorded.
fn end(alloc: Global, arguments: &AskArguments, outside: &mut Outside) -> (u8, usize) {
    let end = ask(
        alloc,
        arguments,
        &mut outside.files,
        &mut outside.spawner,
        &mut outside.out,
        &mut outside.err,
    );
    status_and_kept(end)
}

/// Whether a call of the case ends as it says.
fn ends_so(case: &Case, end: (u8, usize), outside: &Outside) -> bool {
    end == (case.status, case.kept)
        && outside.spawner.retired().len() == case.retired
        && outside.out.taken() == case.out.as_bytes()
        && outside.err.taken() == case.err.as_bytes()
}

fn asks(rt: &impl Abort, alloc: Global, case: &Case) -> bool {
    let arguments = arguments(rt, alloc, case);
    let mut outside = prepare(rt, alloc, case);
    let end = end(alloc, &arguments, &mut outside);
    ends_so(case, end, &outside)
}

#[test]
fn each_case_ends_so(rt: HostRuntime) {
    for case in &CASES {
        assert!(rt; asks(&rt, rt.alloc(), case));
    }
}

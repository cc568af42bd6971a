//! The answers that are kept at any end, worked by hand: their file at each outcome, and faults of each write.
ghost use Rattle.std.specs.Prelude.{◌≤◌};

use crate::tests::learn::{
    Outside, call, check_text, has, links_of, named, outside_of, push_file, speaker,
};
use crate::tests::memory::string;
use lw_chunks::Method;
use lw_json::read_machine;
use lw_learn::{LearnArguments, LearnFiles};
use lw_log::MemoryLog;
use lw_outside::{MemoryFiles, MemorySpawner};
use lw_rounds::{Kind, Settings, Testing};
use lw_system::{Goal, Source};
use std::alloc::Global;
use std::process::Abort;
use std::sync::Wait;
use std::thread::Threads;

/// Children with one letter and two outputs.
const SETUP: &str = "{\"command\":[\"c\"],\"inputs\":[\"t\"],\"outputs\":[\"0\",\"1\"]}";

/// Each second letter is answered by 1.
const TWO: &str =
    "{\"inputs\":[\"t\"],\"outputs\":[\"0\",\"1\"],\"states\":[[[1,\"0\"]],[[0,\"1\"]]]}\n";

/// What the one child does.
#[derive(Clone, Copy)]
enum Child {
    /// It plays the machine.
    Plays,
    /// It says this, whatever it is asked, and ends.
    Says(&'static str),
}

/// The outcome of a learning of the setup `s`: with prior answers `p` where they are there, recorded answers `k`, and
/// the files `h` and `a` of the model and its answers where they are asked for.
#[derive(Clone, Copy)]
struct Row {
    prior: Option<&'static str>,
    child: Child,
    extra: u8,
    max_states: u16,
    to_files: bool,
    /// The calls of files and of the link that fail.
    files: &'static [u64],
    link: &'static [u64],
    err: &'static str,
    status: u8,
    /// What the files hold in the end.
    kept: &'static str,
    model: &'static str,
    out: &'static str,
}

fn children(rt: &impl Abort, alloc: Global, row: &Row) -> MemorySpawner {
    match row.child {
        Child::Plays => {
            let machine = read_machine(alloc, TWO.as_bytes()).expect(rt, "a machine");
            let links = links_of(rt, alloc, row.link);
            MemorySpawner::serving(alloc, machine, 4096, Vec::new(alloc), links).expect(
                rt, "memory",
            )
        }
        Child::Says(text) => speaker(rt, alloc, text, row.link),
    }
}

/// The setup `s`, and the prior answers `p` where there are some.
fn files(rt: &impl Abort, alloc: Global, row: &Row) -> MemoryFiles {
    let mut files = Vec::new(alloc);
    push_file(rt, alloc, &mut files, "s", SETUP);
    if let Some(prior) = row.prior {
        push_file(rt, alloc, &mut files, "p", prior);
    }
    let plan = Vec::from_slice(alloc, row.files).expect(rt, "memory");
    MemoryFiles::new(alloc, files, plan).expect(rt, "memory")
}

fn arguments(rt: &impl Abort, alloc: Global, row: &Row) -> LearnArguments
    requires { (row.now.extra ≤ 4) × (1 ≤ row.now.max_states) × (row.now.max_states ≤ 1024) }
{
    let settings = Settings {
        workers: 1,
        kind: Kind::Table,
        extra: row.extra,
        max_states: row.max_states,
        testing: Testing::by(Method::W),
    };
    let files = LearnFiles {
        model: named(rt, alloc, "h", row.to_files),
        answers: named(rt, alloc, "a", row.to_files),
        prior: named(rt, alloc, "p", row.prior.is_some()),
        kept: named(rt, alloc, "k", true),
        last: None,
        words: None,
        log: None,
        journal: None,
    };
    LearnArguments::new(
        Goal::Machine,
        Source::Setup,
        string(rt, alloc, "s"),
        settings,
        None,
        files,
        false,
    )
}

fn prepare(rt: &impl Abort, alloc: Global, row: &Row) -> Outside {
    let files = files(rt, alloc, row);
    let children = children(rt, alloc, row);
    outside_of(rt, alloc, files, children, MemoryLog::new(alloc))
}

/// The exit status of a call.
fn status<R: Abort + Threads + Wait + Sync + Copy + Drop>(
    rt: R,
    alloc: Global,
    row: &Row,
    outside: &mut Outside,
) -> u8 {
    assert!(rt; row.extra <= 4 && 1 <= row.max_states && row.max_states <= 1024);
    let arguments = arguments(&rt, alloc, row);
    call(rt, alloc, &arguments, outside).status
}

/// Checks the outcome of a call.
fn check_end(rt: &impl Abort, row: &Row, status: u8, outside: &Outside) {
    let holds = has(&outside.files, "k", row.kept) && has(&outside.files, "h", row.model);
    assert!(rt; holds && status == row.status);
    check_text(rt, &outside.out, row.out);
    check_text(rt, &outside.err, row.err);
}

/// Checks a call.
fn check<R: Abort + Threads + Wait + Sync + Copy + Drop>(rt: R, alloc: Global, row: &Row) {
    let mut outside = prepare(&rt, alloc, row);
    let status = status(rt, alloc, row, &mut outside);
    check_end(&rt, row, status, &outside);
}

const LEARNED: Row = Row {
    prior: None,
    child: Child::Plays,
    extra: 1,
    max_states: 8,
    to_files: true,
    files: &[],
    link: &[],
    err: "learned: states 2, refinements 0, extra 1, answers 3\n",
    status: 0,
    kept: THREE,
    model: TWO,
    out: "",
};

const THREE: &str =
    "{\"answers\":[[0,0,\"t t\",\"0 1\"],[0,1,\"t t t\",\"0 1 0\"],[0,2,\"t t t t\",\"0 1 0 1\"]],\"format\":2,\"inputs\":[\"t\"],\"outputs\":[\"0\",\"1\"]}\n";

const PAIR: &str =
    "{\"answers\":[[0,0,\"t t\",\"0 1\"],[0,1,\"t t t\",\"0 1 0\"]],\"format\":2,\"inputs\":[\"t\"],\"outputs\":[\"0\",\"1\"]}\n";

const ONE: &str =
    "{\"answers\":[[0,0,\"t t\",\"0 1\"]],\"format\":2,\"inputs\":[\"t\"],\"outputs\":[\"0\",\"1\"]}\n";

const CLASH: &str =
    "nondeterministic at place 1\ninstance 0 run 0: t t / 0 1\ninstance 0 run 1: t t t / 0 0 0\n";

const ON: &str =
    "{\"answers\":[[16,0,\"t t\",\"0 1\"],[16,1,\"t t t\",\"0 1 0\"],[0,0,\"t t t t\",\"0 1 0 1\"]],\"format\":2,\"inputs\":[\"t\"],\"outputs\":[\"0\",\"1\"]}\n";

const CLASHING: &str =
    "{\"answers\":[[0,0,\"t t\",\"0 1\"],[0,1,\"t\",\"1\"]],\"format\":2,\"inputs\":[\"t\"],\"outputs\":[\"0\",\"1\"]}\n";

const OLD_CLASH: &str =
    "nondeterministic at place 0\ninstance 16 run 0: t t / 0 1\ninstance 16 run 1: t / 1\n";

const OLD: &str =
    "{\"answers\":[[16,1,\"t\",\"1\"],[16,0,\"t t\",\"0 1\"]],\"format\":2,\"inputs\":[\"t\"],\"outputs\":[\"0\",\"1\"]}\n";

/// A call that stopped.
const STOPPED: Row = Row {
    model: "",
    status: 6,
    ..LEARNED
};

/// The child ends in its third word.
const ENDED: Row = Row {
    child: Child::Says("ready\nout 0\nout 1\nready\nout 0\nout 1\nout 0\nready\nout 0\n"),
    err: "system ended: instance 0\n",
    kept: PAIR,
    ..STOPPED
};

static STOPS: [Row; 6] = [
    ENDED,
    // before its first answer: nothing is kept
    Row {
        child: Child::Says("ready\nout 0\n"),
        kept: "",
        ..ENDED
    },
    Row {
        child: Child::Says("ready\nout 0\nout 1\nno\n"),
        err: "bad line: instance 0: 6e6f\n",
        kept: ONE,
        ..STOPPED
    },
    Row {
        link: &[6],
        err: "system failed: instance 0\n",
        kept: ONE,
        ..STOPPED
    },
    Row {
        child: Child::Says("ready\nout 0\nout 1\nready\nout 0\nout 0\nout 0\n"),
        err: CLASH,
        kept: "{\"answers\":[[0,0,\"t t\",\"0 1\"],[0,1,\"t t t\",\"0 0 0\"]],\"format\":2,\"inputs\":[\"t\"],\"outputs\":[\"0\",\"1\"]}\n",
        status: 4,
        ..STOPPED
    },
    Row {
        max_states: 1,
        err: "too many states: 2 words are pairwise apart\n\"\"\n\"t\"\n",
        kept: ONE,
        status: 7,
        ..STOPPED
    },
];

/// With the answers of a child that ended, and with two that clash.
static GOES_ON: [Row; 2] = [
    Row {
        prior: Some(PAIR),
        kept: ON,
        ..LEARNED
    },
    Row {
        prior: Some(CLASHING),
        err: OLD_CLASH,
        kept: OLD,
        status: 4,
        ..STOPPED
    },
];

/// Writes that fail, the first of which is that of what is kept.
static FAULTS: [Row; 7] = [
    Row {
        files: &[1],
        err: "file fault: kept\n",
        status: 8,
        kept: "",
        ..LEARNED
    },
    Row {
        files: &[1],
        kept: "",
        ..ENDED
    },
    Row {
        files: &[2],
        err: "file fault: model\n",
        status: 8,
        model: "",
        ..LEARNED
    },
    Row {
        files: &[3],
        err: "file fault: answers\n",
        status: 8,
        ..LEARNED
    },
    Row {
        files: &[1, 2],
        err: "file fault: model\n",
        status: 8,
        kept: "",
        model: "",
        ..LEARNED
    },
    Row {
        to_files: false,
        model: "",
        out: TWO,
        ..LEARNED
    },
    Row {
        to_files: false,
        files: &[1],
        err: "file fault: kept\n",
        status: 8,
        kept: "",
        model: "",
        out: TWO,
        ..LEARNED
    },
];

/// Each row, by its outcome.
fn check_all<R: Abort + Threads + Wait + Sync + Copy + Drop>(rt: R, alloc: Global, rows: &[Row]) {
    for row in rows {
        check(rt, alloc, row);
    }
}

#[test]
fn what_is_kept_is_saved_whatever_comes(rt: HostRuntime) {
    check(rt, rt.alloc(), &LEARNED);
    check_all(rt, rt.alloc(), &STOPS);
}

#[test]
fn what_was_kept_is_gone_on_with(rt: HostRuntime) {
    check_all(rt, rt.alloc(), &GOES_ON);
}

#[test]
fn writes_that_fail(rt: HostRuntime) {
    check_all(rt, rt.alloc(), &FAULTS);
}

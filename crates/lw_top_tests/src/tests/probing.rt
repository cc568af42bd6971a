//! Files that will be written, which are probed behind the reads and before the first start: the calls on files in their order,
//! and how many children were started, worked by hand.
use crate::tests::cases::{Shell, check_play};
use lw_json::read_machine;
use lw_outside::{CallKind, FileCall, MemoryFiles, MemorySpawner};
use std::alloc::Global;
use std::process::Abort;
use std::sync::Wait;
use std::thread::Threads;

/// A child with one letter and two outputs.
const KID: &str = "{\"command\":[\"sys\"],\"inputs\":[\"t\"],\"outputs\":[\"0\",\"1\"]}\n";

/// What it plays.
const ONE: &str = "{\"inputs\":[\"t\"],\"outputs\":[\"0\"],\"states\":[[[0,\"0\"]]]}\n";

/// Prior answers of it.
const PRIOR: &str =
    "{\"answers\":[[0,0,\"t\",\"0\"]],\"format\":2,\"inputs\":[\"t\"],\"outputs\":[\"0\",\"1\"]}\n";

const LEARNED: &str = "learned: states 1, refinements 0, extra 0, answers 1\n";

/// All files that are written are named.
const ALL: [&str; 10] = [
    "learn",
    "m",
    "--extra=0",
    "--kept",
    "k",
    "--model",
    "h",
    "--answers",
    "a",
    "--workers=1",
];

/// The same, behind prior answers.
const BEHIND: [&str; 12] = [
    "learn",
    "m",
    "--extra=0",
    "--kept",
    "k",
    "--model",
    "h",
    "--answers",
    "a",
    "--workers=1",
    "--prior",
    "p",
];

/// One file is named.
const ANSWERS: [&str; 5] = ["learn", "m", "--extra=0", "--answers", "a"];

/// A call on files: the name, what it does, and whether it failed.
type Wanted = (&'static str, CallKind, bool);

/// A call of `learn` over the files `m` and `p`, where these probes fail: what it says, the calls on files, and how many
/// children were started.
#[derive(Clone, Copy)]
struct Row {
    arguments: &'static [&'static str],
    probes: &'static [u64],
    status: u8,
    out: &'static str,
    err: &'static str,
    calls: &'static [Wanted],
    started: usize,
}

static ROWS: [Row; 7] = [
    Row {
        arguments: &ALL,
        probes: &[],
        status: 0,
        out: "",
        err: LEARNED,
        calls: &[
            ("m", CallKind::Reads, false),
            ("k", CallKind::Probes, false),
            ("h", CallKind::Probes, false),
            ("a", CallKind::Probes, false),
            ("k", CallKind::Writes, false),
            ("h", CallKind::Writes, false),
            ("a", CallKind::Writes, false),
        ],
        started: 1,
    },
    Row {
        arguments: &ALL,
        probes: &[0],
        status: 8,
        out: "",
        err: "file fault: kept\n",
        calls: &[("m", CallKind::Reads, false), ("k", CallKind::Probes, true)],
        started: 0,
    },
    Row {
        arguments: &ALL,
        probes: &[1, 2],
        status: 8,
        out: "",
        err: "file fault: model\n",
        calls: &[
            ("m", CallKind::Reads, false),
            ("k", CallKind::Probes, false),
            ("h", CallKind::Probes, true),
        ],
        started: 0,
    },
    Row {
        arguments: &ALL,
        probes: &[2],
        status: 8,
        out: "",
        err: "file fault: answers\n",
        calls: &[
            ("m", CallKind::Reads, false),
            ("k", CallKind::Probes, false),
            ("h", CallKind::Probes, false),
            ("a", CallKind::Probes, true),
        ],
        started: 0,
    },
    // no probe has this number
    Row {
        arguments: &ANSWERS,
        probes: &[1],
        status: 0,
        out: "{\"inputs\":[\"t\"],\"outputs\":[\"0\",\"1\"],\"states\":[[[0,\"0\"]]]}\n",
        err: LEARNED,
        calls: &[
            ("m", CallKind::Reads, false),
            ("a", CallKind::Probes, false),
            ("a", CallKind::Writes, false),
        ],
        started: 1,
    },
    Row {
        arguments: &ANSWERS,
        probes: &[0],
        status: 8,
        out: "",
        err: "file fault: answers\n",
        calls: &[("m", CallKind::Reads, false), ("a", CallKind::Probes, true)],
        started: 0,
    },
    // prior answers that were read aren't saved
    Row {
        arguments: &BEHIND,
        probes: &[1],
        status: 8,
        out: "",
        err: "file fault: model\n",
        calls: &[
            ("m", CallKind::Reads, false),
            ("p", CallKind::Reads, false),
            ("k", CallKind::Probes, false),
            ("h", CallKind::Probes, true),
        ],
        started: 0,
    },
];

/// Puts a file of this text last.
fn push_file(
    rt: &impl Abort,
    alloc: Global,
    files: &mut Vec<(String, Vec<u8>)>,
    name: &str,
    text: &str,
) {
    let name = String::from_str(alloc, name).expect(rt, "memory");
    let bytes = Vec::from_slice(alloc, text.as_bytes()).expect(rt, "memory");
    files.push((name, bytes)).expect(rt, "memory");
}

/// The files `m` and `p`, of which these probes fail.
fn files_of(rt: &impl Abort, alloc: Global, probes: &[u64]) -> MemoryFiles {
    let mut files = Vec::new(alloc);
    push_file(rt, alloc, &mut files, "m", KID);
    push_file(rt, alloc, &mut files, "p", PRIOR);
    let mut files = MemoryFiles::new(alloc, files, Vec::new(alloc)).expect(rt, "memory");
    files.refuse_probes(Vec::from_slice(alloc, probes).expect(rt, "memory"));
    files
}

/// Children that play the machine.
fn players(rt: &impl Abort, alloc: Global) -> MemorySpawner {
    let machine = read_machine(alloc, ONE.as_bytes()).expect(rt, "a machine");
    let (starts, links) = (Vec::new(alloc), Vec::new(alloc));
    MemorySpawner::serving(alloc, machine, 10_000, starts, links).expect(rt, "memory")
}

fn is_call(call: &FileCall, wanted: &Wanted) -> bool {
    call.name.as_str() == wanted.0 && call.kind == wanted.1 && call.failed == wanted.2
}

/// Whether these are the calls that are wanted, in their order.
fn are_calls(calls: &[FileCall], wanted: &[Wanted]) -> bool {
    let mut all = calls.len() == wanted.len();
    for (call, one) in calls.iter().zip(wanted.iter()) {
        all = all && is_call(call, one);
    }
    all
}

/// Whether a call left what its row says.
fn is_left(shell: &Shell, row: &Row) -> bool {
    are_calls(shell.world.files.calls(), row.calls)
        && shell.world.spawner.started().len() == row.started
}

/// Checks a call.
fn check<R: Abort + Threads + Wait + Sync + Copy + Drop>(rt: &R, alloc: Global, row: &Row) {
    let files = files_of(rt, alloc, row.probes);
    let mut shell = Shell::new(rt, alloc, row.arguments, files);
    shell.world.spawner = players(rt, alloc);
    check_play(rt, alloc, &mut shell, row.status, row.out, row.err);
    assert!(rt; is_left(&shell, row), "{}", row.err);
}

#[test]
fn files_are_probed_before_the_first_start(rt: HostRuntime) {
    for row in &ROWS {
        check(&rt, rt.alloc(), row);
    }
}

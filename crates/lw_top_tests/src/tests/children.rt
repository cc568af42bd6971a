//! Children in memory that are learned, worked by hand: what they say, and faults at each call.
ghost use Rattle.std.specs.Prelude.{◌<◌};

use crate::tests::cases::{Shell, files_of, let_go, play, sink, status_of};
use lw_json::read_machine;
use lw_outside::{MemoryFiles, MemorySpawner};
use lw_report::End;
use std::alloc::Global;
use std::process::Abort;
use std::sync::Wait;
use std::thread::Threads;

/// A child with one letter and two outputs.
const KID: &str = "{\"command\":[\"sys\"],\"inputs\":[\"t\"],\"outputs\":[\"0\",\"1\"]}\n";

/// A child whose outputs aren't declared.
const FREE: &str = "{\"command\":[\"sys\"],\"inputs\":[\"t\"]}\n";

const ONE: &str = "{\"inputs\":[\"t\"],\"outputs\":[\"0\"],\"states\":[[[0,\"0\"]]]}\n";

const ONE_OF_KID: &str =
    "{\"inputs\":[\"t\"],\"outputs\":[\"0\",\"1\"],\"states\":[[[0,\"0\"]]]}\n";

const ZA: &str =
    "{\"inputs\":[\"t\"],\"outputs\":[\"z\",\"a\"],\"states\":[[[1,\"z\"]],[[0,\"a\"]]]}\n";

const AZ: &str =
    "{\"inputs\":[\"t\"],\"outputs\":[\"a\",\"z\"],\"states\":[[[1,\"z\"]],[[0,\"a\"]]]}\n";

const LEARNED: &str = "learned: states 1, refinements 0, extra 0, answers 1\n";

const FAILED: &str = "system failed: instance 0\n";

const ENDED: &str = "system ended: instance 0\n";

const BAD: &str = "bad line: instance 0: ";

const TO_FILES: [&str; 8] = [
    "learn",
    "m",
    "--extra",
    "0",
    "--model",
    "h",
    "--answers",
    "k",
];

const LEARN: [&str; 4] = ["learn", "m", "--extra", "0"];

/// What the children of a spawner do.
#[derive(Clone, Copy)]
enum Children {
    /// Each plays the machine of this text.
    Play(&'static str),
    /// One says this, whatever it is asked.
    Say(&'static str),
}

/// One call of `learn` over the setup file `m`, what its streams took, and how many links it retired.
#[derive(Clone, Copy)]
struct Row {
    arguments: &'static [&'static str],
    setup: &'static str,
    children: Children,
    file_plan: &'static [u64],
    starts: &'static [u64],
    calls: &'static [u64],
    piece: usize,
    out_plan: &'static [u64],
    err_plan: &'static [u64],
    status: u8,
    out: &'static str,
    err: &'static str,
    retired: usize,
    /// The file `h` at the end: nothing where there is none.
    model: &'static str,
}

const PLAYED: Row = Row {
    arguments: &TO_FILES,
    setup: KID,
    children: Children::Play(ONE),
    file_plan: &[],
    starts: &[],
    calls: &[],
    piece: 4096,
    out_plan: &[],
    err_plan: &[],
    status: 0,
    out: "",
    err: LEARNED,
    retired: 1,
    model: ONE_OF_KID,
};

const SAID: Row = Row {
    arguments: &LEARN,
    status: 6,
    err: ENDED,
    model: "",
    ..PLAYED
};

/// The script of one child, which says these bytes.
fn script_of(rt: &impl Abort, alloc: Global, text: &[u8]) -> Vec<Vec<u8>> {
    let mut scripts = Vec::new(alloc);
    let bytes = Vec::from_slice(alloc, text).expect(rt, "memory");
    scripts.push(bytes).expect(rt, "memory");
    scripts
}

/// Children whose starts and whose first link's calls fail by these plans.
fn spawner(rt: &impl Abort, alloc: Global, row: &Row) -> MemorySpawner {
    let starts = Vec::from_slice(alloc, row.starts).expect(rt, "memory");
    let calls = Vec::from_slice(alloc, row.calls).expect(rt, "memory");
    let mut links = Vec::new(alloc);
    links.push(calls).expect(rt, "memory");
    let children = match row.children {
        Children::Play(text) => {
            let machine = read_machine(alloc, text.as_bytes()).expect(rt, "a machine");
            MemorySpawner::serving(alloc, machine, 10_000, starts, links)
        }
        Children::Say(text) => {
            let scripts = script_of(rt, alloc, text.as_bytes());
            MemorySpawner::scripted(alloc, scripts, 10_000, starts, links)
        }
    };
    children.expect(rt, "memory")
}

/// The shell of a row.
fn shell_of(rt: &impl Abort, alloc: Global, row: &Row) -> Shell {
    assert!(rt; row.piece > 0);
    let files = files_of(rt, alloc, row.setup, row.file_plan);
    let mut shell = Shell::new(rt, alloc, row.arguments, files);
    shell.world.spawner = spawner(rt, alloc, row);
    shell.world.out = sink(rt, alloc, row.piece, row.out_plan);
    shell.world.err = sink(rt, alloc, row.piece, row.err_plan);
    shell
}

/// Whether the file `h` has these bytes, or isn't there where there are none.
fn has_model(files: &MemoryFiles, text: &str) -> bool {
    match files.bytes("h") {
        Some(bytes) => bytes.as_slice() == text.as_bytes(),
        None => text.is_empty(),
    }
}

/// Whether a call left the model file and the retired links of its row.
fn is_left(shell: &Shell, row: &Row) -> bool {
    has_model(&shell.world.files, row.model) && shell.world.spawner.retired().len() == row.retired
}

/// Checks a call, and gives its end.
fn check<R: Abort + Threads + Wait + Sync + Copy + Drop>(
    rt: &R,
    alloc: Global,
    row: &Row,
    shell: &mut Shell,
) -> End {
    let end = play(rt, alloc, shell, row.status, row.out, row.err);
    assert!(rt; is_left(shell, row), "{}", row.err);
    end
}

/// A file, a start, a call of the link or a stream fails.
static FAULTS: [Row; 14] = [
    Row {
        file_plan: &[0],
        status: 8,
        err: "file fault: setup\n",
        retired: 0,
        model: "",
        ..PLAYED
    },
    Row {
        file_plan: &[1],
        status: 8,
        err: "file fault: model\n",
        model: "",
        ..PLAYED
    },
    Row {
        file_plan: &[2],
        status: 8,
        err: "file fault: answers\n",
        ..PLAYED
    },
    Row {
        starts: &[0],
        retired: 0,
        ..BROKEN
    },
    Row {
        calls: &[0],
        ..BROKEN
    },
    Row {
        calls: &[1],
        ..BROKEN
    },
    Row {
        calls: &[2],
        ..BROKEN
    },
    Row {
        calls: &[3],
        ..BROKEN
    },
    Row {
        calls: &[4],
        ..BROKEN
    },
    Row {
        calls: &[5],
        ..BROKEN
    },
    // the one run takes six calls
    Row {
        calls: &[6],
        ..PLAYED
    },
    Row {
        err_plan: &[0],
        status: 8,
        err: "sink fault\n",
        ..PLAYED
    },
    Row {
        arguments: &LEARN,
        out_plan: &[0],
        status: 8,
        err: "sink fault\n",
        model: "",
        ..PLAYED
    },
    // the second piece of the model is refused
    Row {
        arguments: &LEARN,
        piece: 8,
        out_plan: &[1],
        status: 8,
        out: "{\"inputs",
        err: "sink fault\n",
        model: "",
        ..PLAYED
    },
];

/// The child could not be started, or its link failed.
const BROKEN: Row = Row {
    status: 6,
    err: FAILED,
    model: "",
    ..PLAYED
};

/// Whether there is a model where the child was learned, and answers are kept where there is a model.
fn is_whole(end: &End, row: &Row) -> bool {
    let learned = row.status == 8 && row.retired == 1 || row.status == 0;
    end.model.is_some() == learned && (end.kept.len() == 0) == end.model.is_none()
}

/// Whether a call over this shell ends so.
fn ends_whole_over<R: Abort + Threads + Wait + Sync + Copy + Drop>(
    rt: &R,
    alloc: Global,
    row: &Row,
    shell: &mut Shell,
) -> bool {
    let end = check(rt, alloc, row, shell);
    let right = is_whole(&end, row);
    let_go(end);
    right
}

/// Whether a call ends so.
fn ends_whole<R: Abort + Threads + Wait + Sync + Copy + Drop>(
    rt: &R,
    alloc: Global,
    row: &Row,
) -> bool {
    let mut shell = shell_of(rt, alloc, row);
    ends_whole_over(rt, alloc, row, &mut shell)
}

#[test]
fn faults_at_each_place(rt: HostRuntime) {
    for row in &FAULTS {
        assert!(rt; ends_whole(&rt, rt.alloc(), row), "{}", row.err);
    }
}

/// What a child says, and the outcome of that.
static SAYINGS: [Row; 14] = [
    Row {
        children: Children::Say(""),
        ..SAID
    },
    Row {
        children: Children::Say("ready\nout 0\nout 0"),
        ..SAID
    },
    Row {
        children: Children::Say("ready\r\nout 0\r\nout 0\n"),
        status: 0,
        out: ONE_OF_KID,
        err: LEARNED,
        ..SAID
    },
    // the last line answers nothing
    Row {
        children: Children::Say("ready\nout 0\nout 0\nready\n"),
        status: 0,
        out: ONE_OF_KID,
        err: LEARNED,
        ..SAID
    },
    Row {
        children: Children::Say("Ready\n"),
        err: "bad line: instance 0: 5265616479\n",
        ..SAID
    },
    Row {
        children: Children::Say("\n"),
        err: "bad line: instance 0: \n",
        ..SAID
    },
    Row {
        children: Children::Say("ready\rx\n"),
        err: "bad line: instance 0: 72656164790d78\n",
        ..SAID
    },
    Row {
        children: Children::Say("ready\nout  0\n"),
        err: "bad line: instance 0: 6f7574202030\n",
        ..SAID
    },
    Row {
        children: Children::Say("ready\nout 7\n"),
        err: "bad line: instance 0: 6f75742037\n",
        ..SAID
    },
    // a `ready` is no output
    Row {
        children: Children::Say("ready\nready\n"),
        err: "bad line: instance 0: 7265616479\n",
        ..SAID
    },
    Row {
        arguments: &["learn", "m"],
        children: Children::Say("ready\nout 0"),
        ..SAID
    },
    Row {
        arguments: &["learn", "m", "--extra", "2"],
        children: Children::Say("ready\nout 0\nout 0\nready\nout 1\nout 0\nout 0\n"),
        status: 4,
        err: "nondeterministic at place 0\ninstance 0 run 0: t t / 0 0\ninstance 0 run 1: t t t / 1 0 0\n",
        ..SAID
    },
    // outputs that aren't declared
    Row {
        arguments: &["learn", "m"],
        setup: FREE,
        children: Children::Play(ZA),
        status: 0,
        out: AZ,
        err: "learned: states 2, refinements 0, extra 1, answers 3\n",
        ..SAID
    },
    // the second start fails
    Row {
        arguments: &["learn", "m", "--workers", "2"],
        starts: &[1],
        err: "system failed: instance 1\n",
        ..PLAYED_TO_OUT
    },
];

const PLAYED_TO_OUT: Row = Row {
    children: Children::Play(ONE),
    ..SAID
};

/// Whether there is a model where the call succeeds, and answers are kept but where a system failed.
fn keeps(end: &End, row: &Row) -> bool {
    end.model.is_some() == (row.status == 0) && (end.kept.len() == 0) == (row.status == 6)
}

/// Whether a call over this shell ends so.
fn ends_keeping_over<R: Abort + Threads + Wait + Sync + Copy + Drop>(
    rt: &R,
    alloc: Global,
    row: &Row,
    shell: &mut Shell,
) -> bool {
    let end = check(rt, alloc, row, shell);
    let right = keeps(&end, row);
    let_go(end);
    right
}

/// Whether a call ends so.
fn ends_keeping<R: Abort + Threads + Wait + Sync + Copy + Drop>(
    rt: &R,
    alloc: Global,
    row: &Row,
) -> bool {
    let mut shell = shell_of(rt, alloc, row);
    ends_keeping_over(rt, alloc, row, &mut shell)
}

#[test]
fn what_children_say(rt: HostRuntime) {
    for row in &SAYINGS {
        assert!(rt; ends_keeping(&rt, rt.alloc(), row), "{}", row.err);
    }
}

/// So many bytes.
fn flood(rt: &impl Abort, alloc: Global, byte: u8, bytes: usize) -> Vec<u8> {
    let mut text = Vec::new(alloc);
    text.resize(bytes, byte).expect(rt, "memory");
    text
}

/// A child that sends these bytes.
fn flooding(rt: &impl Abort, alloc: Global, script: &[u8]) -> MemorySpawner {
    let (none, links) = (Vec::new(alloc), Vec::new(alloc));
    let scripts = script_of(rt, alloc, script);
    MemorySpawner::scripted(alloc, scripts, 10_000, none, links).expect(rt, "memory")
}

/// A learning over the setup `m` and this spawner.
fn shell_with(rt: &impl Abort, alloc: Global, spawner: MemorySpawner) -> Shell {
    let mut shell = Shell::new(rt, alloc, &LEARN, files_of(rt, alloc, KID, &[]));
    shell.world.spawner = spawner;
    shell
}

/// Whether a learning fails, and `err` takes this.
fn takes<R: Threads + Wait + Sync + Copy + Drop>(
    rt: &R,
    alloc: Global,
    shell: &mut Shell,
    said: &[u8],
) -> bool {
    status_of(rt, alloc, shell) == 6 && shell.world.err.taken() == said
}

/// Whether `err` takes this of a child that sends bytes without an end, or a line of so many.
fn says<R: Abort + Threads + Wait + Sync + Copy + Drop>(
    rt: &R,
    alloc: Global,
    script: &[u8],
    said: &[u8],
) -> bool {
    let mut shell = shell_with(rt, alloc, flooding(rt, alloc, script));
    takes(rt, alloc, &mut shell, said)
}

/// The text about a bad line of so many times `x`.
fn floods(rt: &impl Abort, alloc: Global, times: usize) -> Vec<u8> {
    let mut text = Vec::from_slice(alloc, BAD.as_bytes()).expect(rt, "memory");
    for _ in 0..times {
        text.extend_from_slice("78".as_bytes()).expect(rt, "memory");
    }
    text.push(b'\n').expect(rt, "memory");
    text
}

#[test]
fn a_child_that_floods(rt: HostRuntime) {
    let alloc = rt.alloc();
    let mut bytes = flood(&rt, alloc, b'x', 300);
    assert!(rt; says(&rt, alloc, &bytes, &floods(&rt, alloc, 256)));
    bytes.truncate(255);
    bytes.push(b'\n').expect(&rt, "memory");
    assert!(rt; says(&rt, alloc, &bytes, &floods(&rt, alloc, 255)));
}

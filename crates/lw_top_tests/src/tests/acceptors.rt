//! Acceptors that are learned, asked and checked, worked by hand.
use crate::tests::cases::{
    Case, PLAIN, Shell, check_all, check_all_over, check_files, check_over, files_of, let_go, play,
    stands,
};
use lw_json::read_machine;
use lw_outside::{MemoryFiles, MemorySpawner};
use lw_report::{Role, write_file};
use std::alloc::Global;
use std::process::Abort;
use std::sync::Wait;
use std::thread::Threads;

/// The words of an even number of letters.
const EVEN: &str = "{\"accepting\":[true,false],\"inputs\":[\"a\"],\"targets\":[[1],[0]]}\n";

/// The same with a state that can't be reached.
const UNREACHED: &str =
    "{\"accepting\":[true,false,true],\"inputs\":[\"a\"],\"targets\":[[1],[0],[0]]}\n";

/// A machine over `?` and a, which `?` moves.
const MOVED: &str =
    "{\"inputs\":[\"?\",\"a\"],\"outputs\":[\"yes\",\"no\",\"ok\"],\"states\":[[[1,\"yes\"],[0,\"ok\"]],[[0,\"no\"],[1,\"ok\"]]]}\n";

/// The machine of EVEN.
const VIEW: &str =
    "{\"inputs\":[\"?\",\"a\"],\"outputs\":[\"yes\",\"no\",\"ok\"],\"states\":[[[0,\"yes\"],[1,\"ok\"]],[[1,\"no\"],[0,\"ok\"]]]}\n";

/// Nothing or `a`, then at most one letter, then nothing or `?`: the three longest of these words.
const ENOUGH: &str =
    "{\"format\":1,\"inputs\":[\"?\",\"a\"],\"outputs\":[\"yes\",\"no\",\"ok\"],\"answers\":[[\"a ? ?\",\"ok no no\"],[\"a a ?\",\"ok ok yes\"],[\"? ?\",\"yes yes\"]]}\n";

const SETUP: &str = "{\"command\":[\"sys\"],\"inputs\":[\"a\"]}\n";

const ACCEPTED: &str = "accepted: states 2, refinements 0, extra 0, answers 8\n";

/// A call of `accept` over the acceptor of the file `m`.
const ACCEPT: Case = Case {
    arguments: &["accept", "--table", "m", "--extra", "0"],
    file: EVEN,
    out: EVEN,
    err: ACCEPTED,
    ..PLAIN
};

static LEARNED: [Case; 4] = [
    ACCEPT,
    Case {
        arguments: &["accept", "--extra=0", "--table=m", "--workers", "4"],
        ..ACCEPT
    },
    // by single letters alone no second state is found
    Case {
        arguments: &["accept", "--table", "m", "--extra", "0", "--learner", "ttt"],
        out: "{\"accepting\":[true],\"inputs\":[\"a\"],\"targets\":[[0]]}\n",
        err: "accepted: states 1, refinements 0, extra 0, answers 2\n",
        ..ACCEPT
    },
    Case {
        file: UNREACHED,
        ..ACCEPT
    },
];

#[test]
fn acceptors_that_are_learned(rt: HostRuntime) {
    check_all(&rt, rt.alloc(), &LEARNED);
}

/// Files that are no acceptor's, arguments that aren't taken, and faults of a file and a stream.
static REFUSED: [Case; 7] = [
    Case {
        file: MOVED,
        status: 3,
        out: "",
        err: "bad acceptor: shape of accepting\n",
        ..ACCEPT
    },
    Case {
        file: "{\"accepting\":[true],\"inputs\":[\"b\",\"?\"],\"targets\":[[0,0]]}",
        status: 3,
        out: "",
        err: "bad acceptor: reserved name at 1\n",
        ..ACCEPT
    },
    Case {
        arguments: &["accept", "m"],
        file: "{\"command\":[\"sys\"],\"inputs\":[\"a\",\"b\",\"?\"]}",
        status: 3,
        out: "",
        err: "bad acceptor: reserved name at 2\n",
        ..ACCEPT
    },
    Case {
        arguments: &["accept", "m"],
        file: "{\"command\":[],\"inputs\":[\"a\"]}",
        status: 3,
        out: "",
        err: "bad file setup: shape of command\n",
        ..ACCEPT
    },
    Case {
        file_plan: &[0],
        status: 8,
        out: "",
        err: "file fault: table\n",
        ..ACCEPT
    },
    Case {
        arguments: &["accept", "--table", "m", "--extra", "0", "--model", "h"],
        file_plan: &[1],
        status: 8,
        out: "",
        err: "file fault: model\n",
        ..ACCEPT
    },
    Case {
        out_plan: &[0],
        status: 8,
        out: "",
        err: "sink fault\n",
        ..ACCEPT
    },
];

#[test]
fn acceptors_that_are_refused(rt: HostRuntime) {
    check_all(&rt, rt.alloc(), &REFUSED);
}

/// A call that writes the acceptor and what it keeps, and calls of `check` and `ask` behind it.
const WRITES: Case = Case {
    arguments: &[
        "accept", "--table", "m", "--extra", "0", "--model", "h", "--kept", "k",
    ],
    out: "",
    ..ACCEPT
};

static BEHIND: [Case; 4] = [
    Case {
        arguments: &["check", "--acceptor", "h", "k", "--extra", "0"],
        out: "yes: states 2, extra 0, answers 8\n",
        err: "",
        ..ACCEPT
    },
    Case {
        arguments: &["check", "h", "k"],
        status: 3,
        out: "",
        err: "bad file model: shape of outputs\n",
        ..ACCEPT
    },
    Case {
        arguments: &["check", "--acceptor", "k", "k"],
        status: 3,
        out: "",
        err: "bad acceptor: shape of accepting\n",
        ..ACCEPT
    },
    Case {
        arguments: &["ask", "--acceptor", "h", "? a ?", "a a ?"],
        out: "? a ? / yes ok no\na a ? / ok ok yes\n",
        err: "",
        ..ACCEPT
    },
];

/// Checks the call that writes, the file that it writes, and the calls behind it.
fn check_written<R: Abort + Threads + Wait + Sync + Copy + Drop>(
    rt: &R,
    alloc: Global,
    shell: &mut Shell,
) {
    check_over(rt, alloc, &WRITES, shell);
    assert!(rt; stands(&shell.world.files, "h", EVEN));
    check_all_over(rt, alloc, &BEHIND, shell);
}

#[test]
fn an_acceptor_is_written_checked_and_asked(rt: HostRuntime) {
    let files = files_of(&rt, rt.alloc(), EVEN, &[]);
    let mut shell = Shell::new(&rt, rt.alloc(), WRITES.arguments, files);
    check_written(&rt, rt.alloc(), &mut shell);
}

/// What `check` says of EVEN and these answers.
static CHECKED: [Case; 2] = [
    Case {
        arguments: &["check", "--acceptor", "h", "m", "--extra", "0"],
        out: "yes: states 2, extra 0, answers 3\n",
        err: "",
        ..PLAIN
    },
    Case {
        arguments: &["check", "--acceptor", "h", "m"],
        status: 1,
        out: "no: word \"? ? ?\" is missing\n",
        err: "",
        ..PLAIN
    },
];

/// The file `h` of EVEN, and the file `m` of ENOUGH.
fn even_and_answers(rt: &impl Abort, alloc: Global) -> MemoryFiles {
    let mut files = files_of(rt, alloc, ENOUGH, &[]);
    assert!(rt; write_file(&mut files, Role::Model, "h", EVEN.as_bytes()) == Ok(()));
    files
}

#[test]
fn answers_that_fix_an_acceptor(rt: HostRuntime) {
    let alloc = rt.alloc();
    check_files(&rt, alloc, even_and_answers(&rt, alloc), &CHECKED);
}

/// Children that play the machine of this text.
fn players(rt: &impl Abort, alloc: Global, machine: &str) -> MemorySpawner {
    let played = read_machine(alloc, machine.as_bytes()).expect(rt, "a machine");
    let (starts, links) = (Vec::new(alloc), Vec::new(alloc));
    MemorySpawner::serving(alloc, played, 10_000, starts, links).expect(rt, "memory")
}

/// A call of `accept` over the setup `m` and children that play the machine of this text.
fn shell_over(rt: &impl Abort, alloc: Global, machine: &str) -> Shell {
    let files = files_of(rt, alloc, SETUP, &[]);
    let mut shell = Shell::new(rt, alloc, &["accept", "m", "--extra", "0"], files);
    shell.world.spawner = players(rt, alloc, machine);
    shell
}

/// Whether a call, which ends so, has a model and eight answers.
fn is_accepted<R: Abort + Threads + Wait + Sync + Copy + Drop>(
    rt: &R,
    alloc: Global,
    shell: &mut Shell,
    status: u8,
    out: &str,
    err: &str,
) -> bool {
    let end = play(rt, alloc, shell, status, out, err);
    let right = end.model.is_some() && end.kept.len() == 8;
    let_go(end);
    right
}

/// A child that plays the machine of this text is learned by a call of `accept` over the setup `m`, which ends so.
fn plays<R: Abort + Threads + Wait + Sync + Copy + Drop>(
    rt: &R,
    alloc: Global,
    machine: &str,
    status: u8,
    out: &str,
    err: &str,
) -> bool {
    let mut shell = shell_over(rt, alloc, machine);
    is_accepted(rt, alloc, &mut shell, status, out, err)
}

#[test]
fn children_that_are_asked_for_an_acceptor(rt: HostRuntime) {
    let alloc = rt.alloc();
    assert!(rt; plays(&rt, alloc, VIEW, 0, EVEN, ACCEPTED));
    let refusal = "not an acceptor: state 0, letter 0\n";
    assert!(rt; plays(&rt, alloc, MOVED, 9, "", refusal));
}

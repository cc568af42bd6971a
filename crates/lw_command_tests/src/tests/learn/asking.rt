//! Words that are asked first, drawn words, and the log of a learning: each row is worked by hand.
ghost use Rattle.std.specs.Prelude.{◌≤◌, IfSome, IsTrue};
ghost use Rattle.lw_learn.specs.Arguments.{AreFewDrawn};

use crate::tests::learn::{
    Outside, call, check_text, has, named, no_children, outside_of, push_file,
};
use crate::tests::memory::string;
use lw_chunks::Method;
use lw_draw::Drawn;
use lw_learn::{LearnArguments, LearnFiles};
use lw_log::MemoryLog;
use lw_outside::MemoryFiles;
use lw_rounds::{Kind, Settings, Testing};
use lw_system::{Goal, Source};
use std::alloc::Global;
use std::process::Abort;
use std::sync::Wait;
use std::thread::Threads;

/// Each second letter is answered by 1.
const TWO: &str =
    "{\"inputs\":[\"t\"],\"outputs\":[\"0\",\"1\"],\"states\":[[[1,\"0\"]],[[0,\"1\"]]]}\n";

/// The outcome of a learning of the table `m`: with the words `w`, where they are there, and a log `l`.
#[derive(Clone, Copy)]
struct Row {
    words: Option<&'static str>,
    drawn: Option<Drawn>,
    /// The earlier answers, where there are some.
    prior: Option<&'static str>,
    extra: u8,
    /// Whether a log is named.
    is_logged: bool,
    /// The call on the log that fails.
    fault: Option<usize>,
    status: u8,
    out: &'static str,
    err: &'static str,
    kept: &'static str,
    log: &'static [&'static str],
}

fn files(rt: &impl Abort, alloc: Global, row: &Row) -> MemoryFiles {
    let mut files = Vec::new(alloc);
    push_file(rt, alloc, &mut files, "m", TWO);
    if let Some(words) = row.words {
        push_file(rt, alloc, &mut files, "w", words);
    }
    if let Some(prior) = row.prior {
        push_file(rt, alloc, &mut files, "p", prior);
    }
    MemoryFiles::new(alloc, files, Vec::new(alloc)).expect(rt, "memory")
}

fn arguments(rt: &impl Abort, alloc: Global, row: &Row) -> LearnArguments
    requires extra { row.now.extra ≤ 4 }
    requires drawn { IfSome row.now.drawn AreFewDrawn }
{
    let settings = Settings {
        workers: 1,
        kind: Kind::Table,
        extra: row.extra,
        max_states: 8,
        testing: Testing::by(Method::W),
    };
    let files = LearnFiles {
        model: None,
        answers: None,
        prior: named(rt, alloc, "p", row.prior.is_some()),
        kept: named(rt, alloc, "k", true),
        last: None,
        words: named(rt, alloc, "w", row.drawn.is_none()),
        log: named(rt, alloc, "l", row.is_logged),
        journal: None,
    };
    LearnArguments::new(
        Goal::Machine,
        Source::Table,
        string(rt, alloc, "m"),
        settings,
        row.drawn,
        files,
        false,
    )
}

/// Whether the line with this number was put, and is this one.
fn is_put(log: &MemoryLog, number: usize, wanted: &str) -> bool {
    match log.lines().get(number) {
        Some(line) => line.as_slice() == wanted.as_bytes(),
        None => false,
    }
}

/// Whether the log has these lines, each put by itself.
fn has_lines(log: &MemoryLog, lines: &[&str]) -> bool {
    if log.lines().len() != lines.len() {
        return false;
    }
    for number in 0..lines.len() {
        if !is_put(log, number, lines[number]) {
            return false;
        }
    }
    true
}

fn log_of(alloc: Global, row: &Row) -> MemoryLog {
    match row.fault {
        Some(number) => MemoryLog::failing_at(alloc, number),
        None => MemoryLog::new(alloc),
    }
}

fn prepare(rt: &impl Abort, alloc: Global, row: &Row) -> Outside {
    let files = files(rt, alloc, row);
    let children = no_children(rt, alloc);
    outside_of(rt, alloc, files, children, log_of(alloc, row))
}

/// Whether the words that are drawn are few, where there are some.
fn is_within(drawn: Option<Drawn>) -> bool
    ensures { IsTrue result → IfSome drawn AreFewDrawn }
{
    match drawn {
        Some(drawn) => drawn.count <= 1_000_000 && drawn.length <= 65_536,
        None => true,
    }
}

/// The exit status of a call.
fn status<R: Abort + Threads + Wait + Sync + Copy + Drop>(
    rt: R,
    alloc: Global,
    row: &Row,
    outside: &mut Outside,
) -> u8 {
    assert!(rt; row.extra <= 4 && is_within(row.drawn));
    let arguments = arguments(&rt, alloc, row);
    call(rt, alloc, &arguments, outside).status
}

/// Checks the outcome of a call, besides its log.
fn check_end(rt: &impl Abort, row: &Row, status: u8, outside: &Outside) {
    assert!(rt; status == row.status && has(&outside.files, "k", row.kept));
    check_text(rt, &outside.out, row.out);
    check_text(rt, &outside.err, row.err);
}

/// Whether a call logged what its row says.
fn has_logged(row: &Row, outside: Outside) -> bool {
    let log = outside.log.into_file();
    has_lines(&log, row.log) && (row.is_logged || log.name().is_none())
}

/// Checks a call.
fn check<R: Abort + Threads + Wait + Sync + Copy + Drop>(rt: R, alloc: Global, row: &Row) {
    let mut outside = prepare(&rt, alloc, row);
    let status = status(rt, alloc, row, &mut outside);
    check_end(&rt, row, status, &outside);
    assert!(rt; has_logged(row, outside));
}

const FIVE: &str =
    "{\"answers\":[[0,0,\"t t t t t\",\"0 1 0 1 0\"]],\"format\":2,\"inputs\":[\"t\"],\"outputs\":[\"0\",\"1\"]}\n";

const PAIR: &str =
    "{\"answers\":[[16,0,\"t t\",\"0 1\"],[16,1,\"t t t\",\"0 1 0\"]],\"format\":2,\"inputs\":[\"t\"],\"outputs\":[\"0\",\"1\"]}\n";

const LEARNED: &str = "learned: states 2, refinements 0, extra 1, answers 1\n";

/// A word of five letters, behind an empty one, of which no later word is a new one.
const ASKED: Row = Row {
    words: Some("\r\nt  t t t t"),
    drawn: None,
    prior: None,
    extra: 1,
    is_logged: true,
    fault: None,
    status: 0,
    out: TWO,
    err: LEARNED,
    kept: FIVE,
    log: &[
        "round 0 words: states 0, asked 1, known 1, refinements 0\n",
        "round 0 table: states 2, asked 0, known 1, refinements 0\n",
        "round 1 suite: states 2, asked 0, known 1, refinements 0\n",
        LEARNED,
    ],
};

const UNKNOWN: Row = Row {
    words: Some("t\nt t x\ny"),
    status: 3,
    out: "",
    err: "bad word 2: letter 3 is no input\n",
    kept: "",
    log: &["bad word 2: letter 3 is no input\n"],
    ..ASKED
};

static ROWS: [Row; 8] = [
    ASKED,
    // three words that are drawn are the one word of five letters
    Row {
        words: None,
        drawn: Some(Drawn {
            count: 3,
            length: 5,
            seed: 7,
        }),
        ..ASKED
    },
    UNKNOWN,
    // the earlier answers are kept all the same
    Row {
        prior: Some(PAIR),
        kept: PAIR,
        ..UNKNOWN
    },
    // the file of words is not there
    Row {
        words: None,
        status: 8,
        out: "",
        err: "file fault: words\n",
        kept: "",
        log: &["file fault: words\n"],
        ..ASKED
    },
    // no log is named, and none is made
    Row {
        is_logged: false,
        log: &[],
        ..ASKED
    },
    // the log can't be made
    Row {
        fault: Some(0),
        err: "learned: states 2, refinements 0, extra 1, answers 1\nlog fault\n",
        log: &[],
        ..ASKED
    },
    // its second line can't be put
    Row {
        fault: Some(2),
        err: "learned: states 2, refinements 0, extra 1, answers 1\nlog fault\n",
        log: &["round 0 words: states 0, asked 1, known 1, refinements 0\n"],
        ..ASKED
    },
];

#[test]
fn words_are_asked_first_and_steps_are_logged(rt: HostRuntime) {
    for row in &ROWS {
        check(rt, rt.alloc(), row);
    }
}

/// A setup that names the table `t`, and has a member that a setup doesn't know.
const HINTED: &str = "{\"table\":\"t\",\"outpts\":[]}";

/// The arguments of a learning by the setup `m`, with a log.
fn by_setup(rt: &impl Abort, alloc: Global) -> LearnArguments {
    let settings = Settings {
        workers: 1,
        kind: Kind::Table,
        extra: 0,
        max_states: 8,
        testing: Testing::by(Method::W),
    };
    let files = LearnFiles {
        model: None,
        answers: None,
        prior: None,
        kept: None,
        last: None,
        words: None,
        log: named(rt, alloc, "l", true),
        journal: None,
    };
    LearnArguments::new(
        Goal::Machine,
        Source::Setup,
        string(rt, alloc, "m"),
        settings,
        None,
        files,
        false,
    )
}

/// Whether the first line of a log is this one.
fn begins_with(log: &MemoryLog, wanted: &str) -> bool {
    match log.lines().first() {
        Some(line) => line.as_slice() == wanted.as_bytes(),
        None => false,
    }
}

/// The log of a learning by that setup, which ends well.
fn hinted<R: Abort + Threads + Wait + Sync + Copy + Drop>(rt: R, alloc: Global) -> MemoryLog {
    let mut files = Vec::new(alloc);
    push_file(&rt, alloc, &mut files, "m", HINTED);
    push_file(&rt, alloc, &mut files, "t", TWO);
    let files = MemoryFiles::new(alloc, files, Vec::new(alloc)).expect(&rt, "memory");
    let children = no_children(&rt, alloc);
    let mut outside = outside_of(&rt, alloc, files, children, MemoryLog::new(alloc));
    let status = call(rt, alloc, &by_setup(&rt, alloc), &mut outside).status;
    assert!(rt; status == 0);
    outside.log.into_file()
}

#[test]
fn a_log_begins_with_the_member_that_the_setup_does_not_know(rt: HostRuntime) {
    let log = hinted(rt, rt.alloc());
    assert!(rt; begins_with(&log, "unknown member \"outpts\" in setup\n"));
}

//! Which lines are put, by hand, each by a call of its own, and that none is once a call failed.

use crate::tests::{names, sink_of};
use lw_log::{Log, LogState, MemoryLog};
use lw_outside::MemorySink;
use lw_rounds::{Phase, Progress, Step, Tests, Watcher};
use lw_words::Names;
use std::alloc::Global;
use std::process::Abort;

/// A step, and its line.
struct Told {
    step: Step,
    line: &'static str,
}

static STEPS: [Told; 6] = [
    Told {
        step: Step {
            round: 0,
            phase: Phase::Words,
            states: 0,
            asked: 3,
            known: 3,
            refinements: 0,
        },
        line: "round 0 words: states 0, asked 3, known 3, refinements 0\n",
    },
    Told {
        step: Step {
            round: 0,
            phase: Phase::Table,
            states: 1,
            asked: 10,
            known: 13,
            refinements: 0,
        },
        line: "round 0 table: states 1, asked 10, known 13, refinements 0\n",
    },
    Told {
        step: Step {
            round: 1,
            phase: Phase::Settling,
            states: 11,
            asked: 0,
            known: 13,
            refinements: 1,
        },
        line: "round 1 settling: states 11, asked 0, known 13, refinements 1\n",
    },
    Told {
        step: Step {
            round: 3,
            phase: Phase::Suite,
            states: 12,
            asked: 1024,
            known: 4312,
            refinements: 2,
        },
        line: "round 3 suite: states 12, asked 1024, known 4312, refinements 2\n",
    },
    Told {
        step: Step {
            round: 2,
            phase: Phase::Walks,
            states: 5,
            asked: 40,
            known: 1000,
            refinements: 3,
        },
        line: "round 2 walks: states 5, asked 40, known 1000, refinements 3\n",
    },
    Told {
        step: Step {
            round: 4_294_967_295,
            phase: Phase::Analysis,
            states: 1025,
            asked: 1,
            known: 18_446_744_073_709_551_615,
            refinements: 4_294_967_295,
        },
        line: "round 4294967295 analysis: states 1025, asked 1, known 18446744073709551615, refinements 4294967295\n",
    },
];

/// A cut, and its lines, one after the other.
struct Cut {
    asked: &'static [u16],
    received: Option<&'static str>,
    rest: &'static [u8],
    lines: &'static [&'static str],
}

/// The letters are `coin` and `tea`.
static CUTS: [Cut; 4] = [
    Cut {
        asked: &[0, 0, 1],
        received: Some("out x"),
        rest: b"ou",
        lines: &[
            "instance 7: cut at place 3 of: coin coin tea\n",
            "received: out x\n",
            "rest: ou\n",
        ],
    },
    Cut {
        asked: &[],
        received: None,
        rest: b"",
        lines: &["instance 7: cut in a reset\n"],
    },
    Cut {
        asked: &[1],
        received: Some("\\ ~\u{7f}"),
        rest: b"",
        lines: &[
            "instance 7: cut at place 1 of: tea\n",
            "received: \\\\ ~\\x7f\n",
        ],
    },
    Cut {
        asked: &[2, 1],
        received: None,
        rest: b"\x1f\n\r\xff",
        lines: &[
            "instance 7: cut at place 2 of:  tea\n",
            "rest: \\x1f\\x0a\\x0d\\xff\n",
        ],
    },
];

fn letters(rt: &impl Abort, alloc: Global) -> Names {
    names(rt, alloc, &["coin", "tea"])
}

/// A log over a file that fails at the call with this number, after the call that opens it, which has the number 0.
fn opened(rt: &impl Abort, alloc: Global, failing: usize) -> Log<MemoryLog, MemorySink> {
    let mut log = closed(rt, alloc, MemoryLog::failing_at(alloc, failing), &[]);
    log.open("steps");
    log
}

/// A log that isn't opened, whose notes fail at the calls with these numbers.
fn closed(
    rt: &impl Abort,
    alloc: Global,
    file: MemoryLog,
    failing: &[u64],
) -> Log<MemoryLog, MemorySink> {
    Log::new(alloc, file, sink_of(rt, alloc, 4096, 4096, failing))
}

/// Tells a watcher of all steps.
fn tell_all<W: Watcher>(watcher: &mut W) {
    for told in &STEPS {
        watcher.step(told.step);
    }
}

/// Whether the line with this number was put, and is this one.
fn is_put(file: &MemoryLog, number: usize, line: &str) -> bool {
    match file.lines().get(number) {
        Some(put) => put.as_slice() == line.as_bytes(),
        None => false,
    }
}

/// Whether these lines were put, each by a call.
fn has_lines(file: &MemoryLog, lines: &[&str]) -> bool {
    if file.lines().len() != lines.len() {
        return false;
    }
    for number in 0..lines.len() {
        if !is_put(file, number, lines[number]) {
            return false;
        }
    }
    true
}

/// Whether the first steps were put, as many as that, and nothing else.
fn has_steps(file: &MemoryLog, count: usize) -> bool {
    if file.lines().len() != count {
        return false;
    }
    for number in 0..count.min(STEPS.len()) {
        if !is_put(file, number, STEPS[number].line) {
            return false;
        }
    }
    true
}

#[test]
fn each_step_is_a_line(rt: HostRuntime) {
    let mut log = opened(&rt, rt.alloc(), usize::MAX);
    tell_all(&mut log);
    assert!(rt; log.state() == LogState::Open);
    let file = log.into_file();
    assert!(rt; file.name() == Some("steps"));
    assert!(rt; has_steps(&file, 6));
}

/// Whether a cut is told by its lines.
fn tells(rt: &impl Abort, alloc: Global, letters: &Names, cut: &Cut) -> bool {
    let mut log = opened(rt, alloc, usize::MAX);
    let received = match cut.received {
        Some(line) => Some(line.as_bytes()),
        None => None,
    };
    log.cut(7, letters, cut.asked, received, cut.rest);
    has_lines(&log.into_file(), cut.lines)
}

#[test]
fn each_cut_is_told(rt: HostRuntime) {
    let letters = letters(&rt, rt.alloc());
    for cut in &CUTS {
        assert!(rt; tells(&rt, rt.alloc(), &letters, cut));
    }
}

/// Whether a log whose file fails at a call puts so many lines, and nothing more is put when it is told.
fn puts_until(rt: &impl Abort, alloc: Global, failing: usize, lines: usize) -> bool {
    let mut log = opened(rt, alloc, failing);
    tell_all(&mut log);
    log.open("again");
    log.text(b"a text\n");
    log.state() == LogState::Failed && has_steps(&log.into_file(), lines)
}

#[test]
fn nothing_is_put_after_a_failure(rt: HostRuntime) {
    // At the call that opens, and at the second line.
    for (failing, lines) in [(0, 0), (2, 1)] {
        assert!(rt; puts_until(&rt, rt.alloc(), failing, lines));
    }
}

#[test]
fn a_closed_log_puts_nothing(rt: HostRuntime) {
    let mut log = closed(&rt, rt.alloc(), MemoryLog::new(rt.alloc()), &[]);
    tell_all(&mut log);
    log.text(b"a text\n");
    assert!(rt; log.state() == LogState::Closed);
    let file = log.into_file();
    assert!(rt; file.name().is_none());
    assert!(rt; has_lines(&file, &[]));
}

#[test]
fn a_text_is_put_as_it_is(rt: HostRuntime) {
    let mut log = opened(&rt, rt.alloc(), usize::MAX);
    log.text(b"yes: states 1\n\\\n");
    assert!(rt; has_lines(&log.into_file(), &["yes: states 1\n\\\n"]));
}

/// Tells a watcher of a step and of its progress, where it wants that.
fn tell_step<W: Watcher>(watcher: &mut W, step: Step, letters: u64, tests: Option<Tests>) {
    if watcher.wants_progress() {
        watcher.progress(Progress { letters, tests });
    }
    watcher.step(step);
}

/// Tells of the second step and of the fourth, with words of 21 and of 9,000 letters.
fn tell_two<W: Watcher>(watcher: &mut W) {
    tell_step(watcher, STEPS[1].step, 21, None);
    let tests = Some(Tests {
        settled: 1024,
        most: 5000,
    });
    tell_step(watcher, STEPS[3].step, 9000, tests);
}

const NOTES: &str =
    "round 0 table: states 1, asked 10, known 13, refinements 0, resets 10, letters 21\nround 3 suite: states 12, asked 1024, known 4312, refinements 2, resets 1034, letters 9021, tests 1024 of at most 5000\n";

#[test]
fn steps_are_noted_with_what_came_before(rt: HostRuntime) {
    let mut log = closed(&rt, rt.alloc(), MemoryLog::new(rt.alloc()), &[]);
    log.be_verbose();
    tell_two(&mut log);
    assert!(rt; log.notes().taken() == NOTES.as_bytes());
    assert!(rt; log.state() == LogState::Closed);
}

#[test]
fn nothing_is_noted_that_is_not_wanted(rt: HostRuntime) {
    let mut log = opened(&rt, rt.alloc(), usize::MAX);
    tell_two(&mut log);
    log.text(b"a text\n");
    assert!(rt; log.notes().taken().is_empty());
    assert!(rt; log.into_file().lines().len() == 3);
}

#[test]
fn the_outcome_is_for_the_file_alone(rt: HostRuntime) {
    let mut log = opened(&rt, rt.alloc(), usize::MAX);
    log.be_verbose();
    log.text(b"a reason\n");
    log.file_text(b"an outcome\n");
    assert!(rt; log.notes().taken() == b"a reason\n".as_slice());
    assert!(rt; has_lines(&log.into_file(), &["a reason\n", "an outcome\n"]));
}

#[test]
fn nothing_is_noted_after_a_refusal(rt: HostRuntime) {
    let mut log = closed(&rt, rt.alloc(), MemoryLog::new(rt.alloc()), &[1]);
    log.be_verbose();
    log.text(b"first\n");
    log.text(b"second\n");
    log.text(b"third\n");
    assert!(rt; log.notes().taken() == b"first\n".as_slice());
    assert!(rt; !log.is_verbose());
}

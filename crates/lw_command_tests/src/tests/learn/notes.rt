//! What a learning notes, where that is wanted: each row is worked by hand.
ghost use Rattle.std.specs.Prelude.{◌≤◌};

use crate::tests::learn::{Outside, call, check_text, named, outside_of, push_file, speaker};
use crate::tests::memory::string;
use lw_chunks::Method;
use lw_learn::{LearnArguments, LearnFiles};
use lw_log::MemoryLog;
use lw_outside::MemoryFiles;
use lw_rounds::{Kind, Settings, Testing};
use lw_system::{Goal, Source};
use std::alloc::Global;
use std::process::Abort;
use std::sync::Wait;
use std::thread::Threads;

/// Children with one letter and two outputs.
const SETUP: &str = "{\"command\":[\"c\"],\"inputs\":[\"t\"],\"outputs\":[\"0\",\"1\"]}";

/// The outcome of a learning of the setup `s`: with prior answers `p`, words `w` and a model file `h`, where they are asked for.
#[derive(Clone, Copy)]
struct Row {
    is_verbose: bool,
    setup: &'static str,
    /// What the one child says, whatever it is asked.
    child: &'static str,
    prior: Option<&'static str>,
    words: Option<&'static str>,
    /// Whether the files of both are named, but not there.
    are_missing: bool,
    has_model: bool,
    /// The calls of files that fail.
    faults: &'static [u64],
    max_states: u16,
    status: u8,
    notes: &'static str,
}

fn files(rt: &impl Abort, alloc: Global, row: &Row) -> MemoryFiles {
    let mut files = Vec::new(alloc);
    push_file(rt, alloc, &mut files, "s", row.setup);
    if let Some(prior) = row.prior
        && !row.are_missing
    {
        push_file(rt, alloc, &mut files, "p", prior);
    }
    if let Some(words) = row.words
        && !row.are_missing
    {
        push_file(rt, alloc, &mut files, "w", words);
    }
    let plan = Vec::from_slice(alloc, row.faults).expect(rt, "memory");
    MemoryFiles::new(alloc, files, plan).expect(rt, "memory")
}

fn arguments(rt: &impl Abort, alloc: Global, row: &Row) -> LearnArguments
    requires { (1 ≤ row.now.max_states) × (row.now.max_states ≤ 1024) }
{
    let settings = Settings {
        workers: 1,
        kind: Kind::Table,
        extra: 1,
        max_states: row.max_states,
        testing: Testing::by(Method::W),
    };
    let files = LearnFiles {
        model: named(rt, alloc, "h", row.has_model),
        answers: None,
        prior: named(rt, alloc, "p", row.prior.is_some()),
        kept: None,
        last: None,
        words: named(rt, alloc, "w", row.words.is_some()),
        log: None,
        journal: None,
    };
    LearnArguments::new(
        Goal::Machine,
        Source::Setup,
        string(rt, alloc, "s"),
        settings,
        None,
        files,
        row.is_verbose,
    )
}

fn prepare(rt: &impl Abort, alloc: Global, row: &Row, child: &str) -> Outside {
    let files = files(rt, alloc, row);
    let children = speaker(rt, alloc, child, &[]);
    outside_of(rt, alloc, files, children, MemoryLog::new(alloc))
}

/// The exit status of a call.
fn status<R: Abort + Threads + Wait + Sync + Copy + Drop>(
    rt: R,
    alloc: Global,
    row: &Row,
    outside: &mut Outside,
) -> u8 {
    assert!(rt; 1 <= row.max_states && row.max_states <= 1024);
    let arguments = arguments(&rt, alloc, row);
    call(rt, alloc, &arguments, outside).status
}

/// Checks a call.
fn check<R: Abort + Threads + Wait + Sync + Copy + Drop>(rt: R, alloc: Global, row: &Row) {
    let mut outside = prepare(&rt, alloc, row, row.child);
    let status = status(rt, alloc, row, &mut outside);
    assert!(rt; status == row.status);
    check_text(&rt, outside.log.notes(), row.notes);
}

/// Checks each row.
fn check_all<R: Abort + Threads + Wait + Sync + Copy + Drop>(rt: R, alloc: Global, rows: &[Row]) {
    for row in rows {
        check(rt, alloc, row);
    }
}

/// A child that answers its first reset by another line.
const BAD: Row = Row {
    is_verbose: true,
    setup: SETUP,
    child: "no\n",
    prior: None,
    words: None,
    are_missing: false,
    has_model: false,
    faults: &[],
    max_states: 8,
    status: 6,
    notes: "instance 0: cut in a reset\nreceived: no\nwanted: ready\nanswers: 0 from earlier files, 0 asked, 0 letters\n",
};

/// Bad lines in place of the answer to a reset, and of that to a letter.
static LINES: [Row; 4] = [
    BAD,
    Row {
        is_verbose: false,
        notes: "",
        ..BAD
    },
    Row {
        child: "ready\nready\n",
        notes: "instance 0: cut at place 1 of: t\nreceived: ready\nwanted: out and the name of an output\nanswers: 0 from earlier files, 0 asked, 0 letters\n",
        ..BAD
    },
    // more bytes than a line may have
    Row {
        child: "ready\nxxxxxxxxxxxxxxxxxxxxxxxxxxxxxxxxxxxxxxxxxxxxxxxxxxxxxxxxxxxxxxxxxxxxxxxxxxxxxxxxxxxxxxxxxxxxxxxxxxxxxxxxxxxxxxxxxxxxxxxxxxxxxxxxxxxxxxxxxxxxxxxxxxxxxxxxxxxxxxxxxxxxxxxxxxxxxxxxxxxxxxxxxxxxxxxxxxxxxxxxxxxxxxxxxxxxxxxxxxxxxxxxxxxxxxxxxxxxxxxxxxxxxxxxxxxxxxxx\n",
        notes: "instance 0: cut at place 1 of: t\nreceived: xxxxxxxxxxxxxxxxxxxxxxxxxxxxxxxxxxxxxxxxxxxxxxxxxxxxxxxxxxxxxxxxxxxxxxxxxxxxxxxxxxxxxxxxxxxxxxxxxxxxxxxxxxxxxxxxxxxxxxxxxxxxxxxxxxxxxxxxxxxxxxxxxxxxxxxxxxxxxxxxxxxxxxxxxxxxxxxxxxxxxxxxxxxxxxxxxxxxxxxxxxxxxxxxxxxxxxxxxxxxxxxxxxxxxxxxxxxxxxxxxxxxxxxxxxxxxxxx\nwanted: a line of at most 256 bytes\nanswers: 0 from earlier files, 0 asked, 0 letters\n",
        ..BAD
    },
];

/// Lines that begin with `out`, and then name no output.
static NAMES: [Row; 5] = [
    Row {
        child: "ready\r\nout \r\n",
        notes: "instance 0: cut at place 1 of: t\nreceived: out \nwanted: a name behind out\nanswers: 0 from earlier files, 0 asked, 0 letters\n",
        ..BAD
    },
    Row {
        child: "ready\nout nnnnnnnnnnnnnnnnnnnnnnnnnnnnnnnnnnnnnnnnnnnnnnnnnnnnnnnnnnnnnnnnn\n",
        notes: "instance 0: cut at place 1 of: t\nreceived: out nnnnnnnnnnnnnnnnnnnnnnnnnnnnnnnnnnnnnnnnnnnnnnnnnnnnnnnnnnnnnnnnn\nwanted: a name of at most 64 bytes\nanswers: 0 from earlier files, 0 asked, 0 letters\n",
        ..BAD
    },
    Row {
        child: "ready\nout 0 \nout 1\n",
        notes: "instance 0: cut at place 1 of: t\nreceived: out 0 \nrest: out 1\nwanted: a name of printable letters without blanks\nanswers: 0 from earlier files, 0 asked, 0 letters\n",
        ..BAD
    },
    Row {
        child: "ready\nout 0\nout 2\n",
        notes: "instance 0: cut at place 2 of: t t\nreceived: out 2\nwanted: a declared output: 0 1\nanswers: 0 from earlier files, 0 asked, 0 letters\n",
        ..BAD
    },
    // of 21 names 20 are told
    Row {
        setup: "{\"command\":[\"c\"],\"inputs\":[\"t\"],\"outputs\":[\"0\",\"1\",\"2\",\"3\",\"4\",\"5\",\"6\",\"7\",\"8\",\"9\",\"10\",\"11\",\"12\",\"13\",\"14\",\"15\",\"16\",\"17\",\"18\",\"19\",\"20\"]}",
        child: "ready\nout x\n",
        notes: "instance 0: cut at place 1 of: t\nreceived: out x\nwanted: a declared output: 0 1 2 3 4 5 6 7 8 9 10 11 12 13 14 15 16 17 18 19 ..\nanswers: 0 from earlier files, 0 asked, 0 letters\n",
        ..BAD
    },
];

#[test]
fn what_was_wanted_in_place_of_a_line(rt: HostRuntime) {
    check_all(rt, rt.alloc(), &LINES);
}

#[test]
fn what_was_wanted_in_place_of_a_name(rt: HostRuntime) {
    check_all(rt, rt.alloc(), &NAMES);
}

const PAIR: &str =
    "{\"answers\":[[0,0,\"t t\",\"0 1\"],[0,1,\"t t t\",\"0 1 0\"]],\"format\":2,\"inputs\":[\"t\"],\"outputs\":[\"0\",\"1\"]}\n";

static ANSWERS: [Row; 3] = [
    // the table is closed by earlier answers; the first word of the suite that they lack gets a bad line
    Row {
        prior: Some(PAIR),
        notes: "answers: 2 from earlier files\nround 0 table: states 2, asked 0, known 2, refinements 0, resets 0, letters 0\ninstance 0: cut in a reset\nreceived: no\nwanted: ready\nanswers: 2 from earlier files, 0 asked, 0 letters\n",
        ..BAD
    },
    // the empty word and `t` differ by `t`
    Row {
        child: "ready\nout 0\nout 1\n",
        max_states: 1,
        status: 7,
        notes: "apart:  and t by t: 0 and 1\nanswers: 0 from earlier files, 1 asked, 2 letters\n",
        ..BAD
    },
    // the suite has two access words, behind each the three words of at most two letters, and behind these nothing or `t`
    Row {
        child: "ready\nout 0\nout 1\nready\nout 0\nout 1\nout 0\nready\nout 0\nout 1\nout 0\nout 1\n",
        has_model: true,
        faults: &[1],
        status: 8,
        notes: "round 0 table: states 2, asked 2, known 2, refinements 0, resets 2, letters 5\nround 1 suite: states 2, asked 1, known 3, refinements 0, resets 3, letters 9, tests 12 of at most 12\nanswers: 0 from earlier files, 3 asked, 9 letters\nfile: h\n",
        ..BAD
    },
];

#[test]
fn how_many_answers_there_are(rt: HostRuntime) {
    check_all(rt, rt.alloc(), &ANSWERS);
}

/// A call that asks nothing.
const UNREAD: Row = Row { status: 3, ..BAD };

static FILES: [Row; 6] = [
    Row {
        words: Some("\r\nt  t \u{e9}\\\r\nx"),
        notes: "letter: \\xc3\\xa9\\\\\n",
        ..UNREAD
    },
    Row {
        prior: Some("{\"answers\":[],\"format\":2,\"inputs\":[\"t\",\"u\"],\"outputs\":[\"0\"]}\n"),
        notes: "no input of the setup: u\n",
        ..UNREAD
    },
    Row {
        setup: "{\"command\":[\"c\"],\"inputs\":[\"t\",\"u\"],\"outputs\":[\"0\",\"1\"]}",
        prior: Some(PAIR),
        notes: "the inputs differ in number or order\n",
        ..UNREAD
    },
    Row {
        prior: Some("{\"answers\":[],\"format\":2,\"inputs\":[\"t\"],\"outputs\":[\"1\",\"2\"]}\n"),
        notes: "no output of the setup: 2\n",
        ..UNREAD
    },
    Row {
        words: Some(""),
        are_missing: true,
        status: 8,
        notes: "file: w\n",
        ..UNREAD
    },
    Row {
        prior: Some(""),
        are_missing: true,
        status: 8,
        notes: "file: p\n",
        ..UNREAD
    },
];

#[test]
fn what_is_wrong_with_files(rt: HostRuntime) {
    check_all(rt, rt.alloc(), &FILES);
}

/// A child that answers one word of this many letters, each letter by another output.
fn chatter(rt: &impl Abort, alloc: Global, count: usize) -> String {
    let mut text = string(rt, alloc, "ready\n");
    for number in 0..count {
        let line = format!(in alloc; "out {number}\n").expect(rt, "memory");
        text.push_str(line.as_str()).expect(rt, "memory");
    }
    text
}

/// A word of this many letters.
fn long_word(rt: &impl Abort, alloc: Global, count: usize) -> String {
    let mut text = string(rt, alloc, "");
    for _ in 0..count {
        text.push_str("t ").expect(rt, "memory");
    }
    text
}

/// A learning of a child that says this, of which no output is declared, by this word first.
fn talkative(rt: &impl Abort, alloc: Global, word: &str, child: &str) -> Outside {
    let mut files = Vec::new(alloc);
    push_file(
        rt,
        alloc,
        &mut files,
        "s",
        "{\"command\":[\"c\"],\"inputs\":[\"t\"]}",
    );
    push_file(rt, alloc, &mut files, "w", word);
    let files = MemoryFiles::new(alloc, files, Vec::new(alloc)).expect(rt, "memory");
    let children = speaker(rt, alloc, child, &[]);
    outside_of(rt, alloc, files, children, MemoryLog::new(alloc))
}

#[test]
fn a_child_has_256_outputs_at_most(rt: HostRuntime) {
    let word = long_word(&rt, rt.alloc(), 257);
    let child = chatter(&rt, rt.alloc(), 257);
    let mut outside = talkative(&rt, rt.alloc(), word.as_str(), child.as_str());
    let status = status(rt, rt.alloc(), &FREE, &mut outside);
    assert!(rt; status == 6);
    let wanted =
        "received: out 256\nwanted: one of the 256 outputs that came before\nanswers: 0 from earlier files, 0 asked, 0 letters\n";
    assert!(rt; outside.log.notes().taken().ends_with(wanted.as_bytes()));
}

/// No output is declared, and words are asked first.
const FREE: Row = Row {
    words: Some(""),
    ..BAD
};

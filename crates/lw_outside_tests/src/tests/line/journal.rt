//! Finished runs that are written to a journal, over links that record its lines.
ghost use Rattle.lw_outside.specs.Links.{IsUntouched};

use super::session::{speaker, started};
use crate::tests::names;
use lw_line::LineSul;
use lw_outside::{Failed, Link, Spawner};
use lw_sul::Session;
use lw_words::Word;
use std::alloc::Global;
use std::process::Abort;

/// A link that records the lines of its journal.
#[derive(Drop)]
struct Recorder<L: Link> {
    link: L,
    lines: Vec<u8>,
    missing: u64,
}

impl<L: Link> Link for Recorder<L> {
    ghost state = { λ r. L.state r.link };

    fn send(&mut self, bytes: &[u8]) -> Result<(), Failed> {
        self.link.send(bytes)
    }

    fn take(&mut self, buffer: &mut [u8]) -> Result<usize, Failed> {
        self.link.take(buffer)
    }

    fn has_journal(&self) -> bool {
        true
    }

    fn append_run(&mut self, line: Option<&[u8]>) {
        let is_whole = match line {
            Some(line) => self.lines.extend_from_slice(line).is_ok(),
            None => false,
        };
        if !is_whole {
            self.missing = self.missing.saturating_add(1);
        }
    }
}

/// What a child says to the word of both letters and to the empty word, and what is then in the journal.
struct Row {
    says: &'static [u8],
    is_declared: bool,
    lines: &'static [u8],
}

static ROWS: [Row; 5] = [
    Row {
        says: b"ready\nout 0\nout 1\nready\n",
        is_declared: true,
        lines: b"[3,0,\"t u\",\"0 1\"]\n[3,1,\"\",\"\"]\n",
    },
    // Names are numbered as they come, and written as they are.
    Row {
        says: b"ready\r\nout \\z\r\nout a\"\r\nready\r\n",
        is_declared: false,
        lines: b"[3,0,\"t u\",\"\\\\z a\\\"\"]\n[3,1,\"\",\"\"]\n",
    },
    // Of a run that is cut off there is no line.
    Row {
        says: b"ready\nout 0\nout 1\n",
        is_declared: true,
        lines: b"[3,0,\"t u\",\"0 1\"]\n",
    },
    Row {
        says: b"ready\nout 0\n",
        is_declared: true,
        lines: b"",
    },
    Row {
        says: b"ready\nout 0\nout 2\nready\n",
        is_declared: true,
        lines: b"",
    },
];

/// Asks the word of both letters, and then the empty word.
fn ask_both<L: Link + Drop>(rt: &impl Abort, alloc: Global, session: &mut Session<LineSul<L>>) {
    assert!(rt; session.inputs() > 1);
    let letters = [0u16, 1].to_vec(alloc).expect(rt, "memory");
    let _first = session.ask(&Word::from_letters(alloc, letters));
    let _second = session.ask(&Word::new(alloc));
}

/// A session over a link, whose system has declared outputs.
fn declared<L: Link + Drop>(rt: &impl Abort, alloc: Global, link: L) -> Session<LineSul<L>>
    requires { IsUntouched (L.state link).transcript }
{
    let inputs = names(rt, alloc, &["t", "u"]);
    let outputs = names(rt, alloc, &["0", "1"]);
    Session::new(alloc, 3, LineSul::new(link, inputs, outputs))
}

/// And one whose outputs come as they are met.
fn free<L: Link + Drop>(rt: &impl Abort, alloc: Global, link: L) -> Option<Session<LineSul<L>>>
    requires { IsUntouched (L.state link).transcript }
{
    let inputs = names(rt, alloc, &["t", "u"]);
    match LineSul::free(alloc, link, inputs) {
        Ok(sul) => Some(Session::new(alloc, 3, sul)),
        Err(_) => None,
    }
}

fn holds_over<L: Link + Drop>(rt: &impl Abort, alloc: Global, link: L, row: &Row) -> bool
    requires { IsUntouched (L.state link).transcript }
{
    let recorder = Recorder {
        link,
        lines: Vec::new(alloc),
        missing: 0,
    };
    let mut session = if row.is_declared {
        declared(rt, alloc, recorder)
    } else {
        free(rt, alloc, recorder).expect(rt, "memory")
    };
    ask_both(rt, alloc, &mut session);
    let recorder = session.into_sul().into_link();
    recorder.lines.as_slice() == row.lines && recorder.missing == 0
}

fn row_holds(rt: &impl Abort, alloc: Global, row: &Row) -> bool {
    let mut spawner = speaker(rt, alloc, row.says);
    holds_over(rt, alloc, started(rt, alloc, &mut spawner), row)
}

#[test]
fn finished_runs_are_lines_of_a_journal(rt: HostRuntime) {
    for row in &ROWS {
        assert!(rt; row_holds(&rt, rt.alloc(), row));
    }
}

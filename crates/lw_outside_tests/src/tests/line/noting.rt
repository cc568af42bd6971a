//! What a system notes of the run that is under way, over links in memory.
ghost use Rattle.std.specs.Prelude.{◌≡◌, None, true};
ghost use Rattle.lw_outside.specs.Links.{IsUntouched};

use super::session::{speaker, started};
use crate::tests::{is_line, names};
use lw_line::LineSul;
use lw_outside::{Link, Spawner};
use lw_sul::Sul;
use std::alloc::Global;
use std::process::Abort;

/// What a child says to runs, and what is told of the last of them.
struct Row {
    says: &'static [u8],
    notes: bool,
    runs: &'static [&'static [u16]],
    asked: Option<&'static [u16]>,
    last: Option<&'static [u8]>,
    rest: &'static [u8],
}

static ROWS: [Row; 11] = [
    // Nothing was asked.
    Row {
        says: b"ready\n",
        notes: true,
        runs: &[],
        asked: Some(&[]),
        last: None,
        rest: b"",
    },
    Row {
        says: b"ready\nout 1\nout 0\n",
        notes: true,
        runs: &[&[0, 1]],
        asked: Some(&[0, 1]),
        last: Some(b"out 0"),
        rest: b"",
    },
    // A reset begins anew.
    Row {
        says: b"ready\r\nout 1\r\nready\r\n",
        notes: true,
        runs: &[&[1], &[]],
        asked: Some(&[]),
        last: Some(b"ready"),
        rest: b"",
    },
    // The child ends midway: within a line, behind one, and in a reset.
    Row {
        says: b"ready\nout 0\nou",
        notes: true,
        runs: &[&[1, 0, 1]],
        asked: Some(&[1, 0]),
        last: Some(b"out 0"),
        rest: b"ou",
    },
    Row {
        says: b"ready\n",
        notes: true,
        runs: &[&[0, 1]],
        asked: Some(&[0]),
        last: Some(b"ready"),
        rest: b"",
    },
    Row {
        says: b"ready\nout 1\n",
        notes: true,
        runs: &[&[1], &[0]],
        asked: Some(&[]),
        last: Some(b"out 1"),
        rest: b"",
    },
    Row {
        says: b"",
        notes: true,
        runs: &[&[1]],
        asked: Some(&[]),
        last: None,
        rest: b"",
    },
    // A bad line, with bytes behind it.
    Row {
        says: b"ready\nout 7\r\nout 0",
        notes: true,
        runs: &[&[1]],
        asked: Some(&[1]),
        last: Some(b"out 7"),
        rest: b"out 0",
    },
    Row {
        says: b"ready\nout 1\nno\nout 0\nout 1\n",
        notes: true,
        runs: &[&[0, 1]],
        asked: Some(&[0, 1]),
        last: Some(b"no"),
        rest: b"out 0",
    },
    // A line that is too long.
    Row {
        says: &[b'x'; 300],
        notes: true,
        runs: &[&[1]],
        asked: Some(&[]),
        last: Some(&[b'x'; 256]),
        rest: b"",
    },
    // Nothing is noted.
    Row {
        says: b"ready\nout 7\nou",
        notes: false,
        runs: &[&[1]],
        asked: None,
        last: None,
        rest: b"ou",
    },
];

/// Whether a run is answered to its end.
fn goes_on<S: Sul>(sul: &mut S, letters: &[u16]) -> bool
    requires { (S.state sul.old).stop ≡ None }
    ensures { result ≡ true → (S.state sul.new).stop ≡ None }
{
    if sul.reset().is_err() {
        return false;
    }
    for x in letters {
        if *x >= sul.inputs() || sul.step(*x).is_err() {
            return false;
        }
    }
    true
}

/// Goes through runs, up to the first that is not answered to its end.
fn run_all<S: Sul>(sul: &mut S, runs: &[&[u16]])
    requires { (S.state sul.old).stop ≡ None }
{
    for letters in runs {
        if !goes_on(sul, letters) {
            return;
        }
    }
}

fn are_letters(letters: Option<&[u16]>, want: Option<&[u16]>) -> bool {
    match (letters, want) {
        (Some(letters), Some(want)) => letters == want,
        (None, None) => true,
        _ => false,
    }
}

/// Whether a system tells what its row says.
fn tells<L: Link>(sul: &LineSul<L>, row: &Row) -> bool {
    are_letters(sul.asked(), row.asked)
        && is_line(&sul.last_line(), row.last)
        && sul.rest().as_slice() == row.rest
}

fn note_if<L: Link>(alloc: Global, sul: &mut LineSul<L>, notes: bool)
    ensures { sul.new ≡ sul.old }
{
    if notes {
        sul.note(alloc);
    }
}

/// Whether a system tells what its row says, after the row's runs.
fn tells_after<L: Link + Drop>(alloc: Global, sul: &mut LineSul<L>, row: &Row) -> bool
    requires { sul.old.stop ≡ None }
{
    note_if(alloc, sul, row.notes);
    run_all(sul, row.runs);
    tells(sul, row)
}

fn tells_over<L: Link + Drop>(rt: &impl Abort, alloc: Global, link: L, row: &Row) -> bool
    requires { IsUntouched (L.state link).transcript }
{
    let inputs = names(rt, alloc, &["t", "u"]);
    let outputs = names(rt, alloc, &["0", "1"]);
    let mut sul = LineSul::new(link, inputs, outputs);
    tells_after(alloc, &mut sul, row)
}

fn tells_of_child<P: Spawner>(rt: &impl Abort, alloc: Global, spawner: &mut P, row: &Row) -> bool {
    tells_over(rt, alloc, started(rt, alloc, spawner), row)
}

fn row_holds(rt: &impl Abort, alloc: Global, row: &Row) -> bool {
    let mut spawner = speaker(rt, alloc, row.says);
    tells_of_child(rt, alloc, &mut spawner, row)
}

#[test]
fn a_run_is_noted(rt: HostRuntime) {
    for row in &ROWS {
        assert!(rt; row_holds(&rt, rt.alloc(), row));
    }
}

//! Lines by hand, with the letter `t` and the outputs `0` and `1`.

use super::asking::{Ending, declared_ends};
use super::scripted::Script;
use std::alloc::Global;
use std::process::Abort;

/// What a child says, the outputs that are awaited, and how asking ends.
struct Row {
    says: &'static [u8],
    outs: &'static [u16],
    want: Ending,
}

static ROWS: [Row; 16] = [
    Row {
        says: b"ready\nout 0\nout 0\n",
        outs: &[0, 0],
        want: Ending::Answered,
    },
    Row {
        says: b"ready\r\nout 0\r\n",
        outs: &[0],
        want: Ending::Answered,
    },
    Row {
        says: b"ready\r\nout 1\r\nout 0\n",
        outs: &[1, 0],
        want: Ending::Answered,
    },
    Row {
        says: b"ready\nout 1\n",
        outs: &[0],
        want: Ending::Otherwise,
    },
    Row {
        says: b"ready\nout 7\n",
        outs: &[0],
        want: Ending::Bad(b"out 7"),
    },
    Row {
        says: b"Ready\n",
        outs: &[],
        want: Ending::Bad(b"Ready"),
    },
    Row {
        says: b"\n",
        outs: &[],
        want: Ending::Bad(b""),
    },
    Row {
        says: b"ready\rx\n",
        outs: &[],
        want: Ending::Bad(b"ready\rx"),
    },
    Row {
        says: b"ready\r\r\n",
        outs: &[],
        want: Ending::Bad(b"ready\r"),
    },
    Row {
        says: b"ready\nout  0\n",
        outs: &[0],
        want: Ending::Bad(b"out  0"),
    },
    Row {
        says: b"ready\nready\n",
        outs: &[0],
        want: Ending::Bad(b"ready"),
    },
    Row {
        says: b"out 0\n",
        outs: &[],
        want: Ending::Bad(b"out 0"),
    },
    Row {
        says: b"",
        outs: &[],
        want: Ending::Gone,
    },
    Row {
        says: b"ready",
        outs: &[],
        want: Ending::Gone,
    },
    Row {
        says: b"ready\nout 0\nout 0",
        outs: &[0, 0],
        want: Ending::Gone,
    },
    Row {
        says: b"ready\nout 0\n",
        outs: &[0, 0],
        want: Ending::Gone,
    },
];

fn row_holds(rt: &impl Abort, alloc: Global, row: &Row, piece: usize) -> bool {
    let script = Script {
        text: row.says,
        piece,
        fails: None,
    };
    declared_ends(rt, alloc, script, row.outs, row.want)
}

/// Whether each row holds where so many bytes come at a time.
fn rows_hold(rt: &impl Abort, alloc: Global, piece: usize) -> bool {
    for row in &ROWS {
        if !row_holds(rt, alloc, row, piece) {
            return false;
        }
    }
    true
}

#[test]
fn rows_hold_however_the_bytes_come(rt: HostRuntime) {
    assert!(rt; rows_hold(&rt, rt.alloc(), 1));
    assert!(rt; rows_hold(&rt, rt.alloc(), 7));
    assert!(rt; rows_hold(&rt, rt.alloc(), 256));
}

static LONG: [u8; 300] = [b'x'; 300];

static LONGEST_LINE: &[u8] = b"xxxxxxxxxxxxxxxxxxxxxxxxxxxxxxxxxxxxxxxxxxxxxxxxxxxxxxxxxxxxxxxx\
xxxxxxxxxxxxxxxxxxxxxxxxxxxxxxxxxxxxxxxxxxxxxxxxxxxxxxxxxxxxxxxx\
xxxxxxxxxxxxxxxxxxxxxxxxxxxxxxxxxxxxxxxxxxxxxxxxxxxxxxxxxxxxxxxx\
xxxxxxxxxxxxxxxxxxxxxxxxxxxxxxxxxxxxxxxxxxxxxxxxxxxxxxxxxxxxxxx\n";

fn answers_badly(rt: &impl Abort, alloc: Global, says: &'static [u8], want: &'static [u8]) -> bool {
    let script = Script {
        text: says,
        piece: 100,
        fails: None,
    };
    declared_ends(rt, alloc, script, &[], Ending::Bad(want))
}

#[test]
fn a_line_has_at_most_256_bytes(rt: HostRuntime) {
    assert!(rt; answers_badly(&rt, rt.alloc(), &LONG, &LONG[..256]));
    assert!(rt; answers_badly(&rt, rt.alloc(), LONGEST_LINE, &LONG[..255]));
}

fn fails_at(rt: &impl Abort, alloc: Global, call: u64) -> bool {
    let script = Script {
        text: b"ready\nout 0\nout 0\n",
        piece: 6,
        fails: Some(call),
    };
    declared_ends(rt, alloc, script, &[0, 0], Ending::Failed)
}

#[test]
fn each_call_may_fail(rt: HostRuntime) {
    for call in 0..6 {
        assert!(rt; fails_at(&rt, rt.alloc(), call));
    }
    assert!(rt; !fails_at(&rt, rt.alloc(), 6));
}

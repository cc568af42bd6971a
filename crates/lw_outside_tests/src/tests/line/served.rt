//! A machine that is served: a counter modulo three.

use super::streams::{counter, serves};
use lw_line::{ServeFault, Served, ServedCause};
use std::alloc::Global;
use std::process::Abort;

/// What a learner sends, what the child answers, and how serving ends.
struct Row {
    input: &'static [u8],
    answers: &'static [u8],
    end: Result<Served, ServeFault>,
}

static ROWS: [Row; 12] = [
    Row {
        input: b"reset\nin t\nin t\nquit\n",
        answers: b"ready\nout 0\nout 0\n",
        end: Ok(Served {
            lines: 4,
            cause: ServedCause::Quit,
        }),
    },
    Row {
        input: b"reset\nin z\n",
        answers: b"ready\n",
        end: Err(ServeFault::BadLine(2)),
    },
    Row {
        input: b"in t\n",
        answers: b"out 0\n",
        end: Ok(Served {
            lines: 1,
            cause: ServedCause::EndOfInput,
        }),
    },
    Row {
        input: b"",
        answers: b"",
        end: Ok(Served {
            lines: 0,
            cause: ServedCause::EndOfInput,
        }),
    },
    Row {
        input: b"reset\nin",
        answers: b"ready\n",
        end: Err(ServeFault::BadLine(2)),
    },
    Row {
        input: b"reset",
        answers: b"",
        end: Err(ServeFault::BadLine(1)),
    },
    Row {
        input: b"\n",
        answers: b"",
        end: Err(ServeFault::BadLine(1)),
    },
    Row {
        input: b"in \n",
        answers: b"",
        end: Err(ServeFault::BadLine(1)),
    },
    Row {
        input: b"in  t\n",
        answers: b"",
        end: Err(ServeFault::BadLine(1)),
    },
    Row {
        input: b"quit\r\nreset\n",
        answers: b"",
        end: Ok(Served {
            lines: 1,
            cause: ServedCause::Quit,
        }),
    },
    Row {
        input: b"in t\nin t\nin t\r\nin t\nreset\nin t\n",
        answers: b"out 0\nout 0\nout 1\nout 0\nready\nout 0\n",
        end: Ok(Served {
            lines: 6,
            cause: ServedCause::EndOfInput,
        }),
    },
    Row {
        input: &[b'x'; 300],
        answers: b"",
        end: Err(ServeFault::BadLine(1)),
    },
];

fn row_holds(rt: &impl Abort, alloc: Global, row: &Row, piece: usize) -> bool {
    let machine = counter(rt, alloc);
    serves(rt, alloc, &machine, row.input, piece, row.answers, &row.end)
}

/// Whether each row holds where so many bytes go at a time.
fn rows_hold(rt: &impl Abort, alloc: Global, piece: usize) -> bool {
    for row in &ROWS {
        if !row_holds(rt, alloc, row, piece) {
            return false;
        }
    }
    true
}

#[test]
fn rows_hold_however_the_bytes_go(rt: HostRuntime) {
    assert!(rt; rows_hold(&rt, rt.alloc(), 1));
    assert!(rt; rows_hold(&rt, rt.alloc(), 256));
}

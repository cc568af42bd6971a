//! Tables that are closed over machines, worked by hand: the words that are asked, in their order, and the machines.
ghost use Rattle.std.specs.Prelude.{◌<◌, IfOk, length};
ghost use Rattle.lw_table.specs.Table.{IsClosedTable};

use super::has;
use crate::tests::{Batch, are, has_settled};
use lw_cache::{AskStop, GrowStop};
use lw_mealy::Mealy;
use lw_table::ObservationTable;
use std::alloc::Global;
use std::process::Abort;
use test_oracle::Recording;

const A: u16 = 0;

const B: u16 = 1;

/// A machine that is asked, and the table over it.
#[derive(Drop)]
struct Trial {
    oracle: Recording,
    table: ObservationTable,
}

/// A new table that was closed over a machine, or the stop.
#[tactic(auto, using(lw_table::proofs::NewLemmas::new_is_read))]
fn closed_over(rt: &impl Abort, alloc: Global, mealy: Mealy, most: u16) -> Result<Trial, GrowStop>
    ensures { IfOk result (λ trial. IsClosedTable trial.table) }
{
    assert!(rt; 1 <= most && most <= 1024);
    let inputs = mealy.inputs();
    let outputs = mealy.outputs();
    let mut oracle = Recording::new(alloc, mealy);
    let Ok(mut table) = ObservationTable::new(alloc, inputs, outputs, most) else {
        rt.panic("no memory");
    };
    table.close(&mut oracle)?;
    Ok(Trial { oracle, table })
}

/// Such a table where it is closed.
fn closed(rt: &impl Abort, alloc: Global, mealy: Mealy, most: u16) -> Trial
    ensures { IsClosedTable result.table }
{
    match closed_over(rt, alloc, mealy, most) {
        Ok(trial) => trial,
        Err(_) => rt.panic("a table isn't closed"),
    }
}

/// The machine of these rows over one letter.
fn of_one_letter(rt: &impl Abort, alloc: Global, cells: &[(u16, u16)]) -> Mealy {
    let mut rows = Vec::new(alloc);
    for cell in cells {
        let row = Vec::from_slice(alloc, &[*cell]).expect(rt, "memory");
        rows.push(row).expect(rt, "memory");
    }
    Mealy::new(alloc, 1, 2, rows).expect(rt, "a machine")
}

/// The machine of these rows over two letters.
fn of_two_letters(rt: &impl Abort, alloc: Global, cells: &[[(u16, u16); 2]]) -> Mealy {
    let mut rows = Vec::new(alloc);
    for cell in cells {
        let row = Vec::from_slice(alloc, cell).expect(rt, "memory");
        rows.push(row).expect(rt, "memory");
    }
    Mealy::new(alloc, 2, 2, rows).expect(rt, "a machine")
}

/// The machine whose every third a is answered 1.
fn counter(rt: &impl Abort, alloc: Global) -> Mealy {
    of_one_letter(rt, alloc, &[(1, 0), (2, 0), (0, 1)])
}

/// The machine whose letter b does nothing, and whose every second a is answered 1.
fn toggle(rt: &impl Abort, alloc: Global) -> Mealy {
    of_two_letters(rt, alloc, &[[(1, 0), (0, 0)], [(0, 1), (1, 0)]])
}

/// The machine that answers 1 to the last letter of a b a b, each time from its start.
fn lock(rt: &impl Abort, alloc: Global) -> Mealy {
    let rows = [
        [(1, 0), (4, 0)],
        [(4, 0), (2, 0)],
        [(3, 0), (4, 0)],
        [(4, 0), (0, 1)],
        [(4, 0), (4, 0)],
    ];
    of_two_letters(rt, alloc, &rows)
}

/// The machine that stays where the first letter leads, and answers that letter by 1 from then on.
fn switch(rt: &impl Abort, alloc: Global) -> Mealy {
    let rows = [[(1, 0), (2, 0)], [(1, 1), (1, 0)], [(2, 0), (2, 1)]];
    of_two_letters(rt, alloc, &rows)
}

/// Which machine is asked.
#[derive(Clone, Copy)]
enum Asked {
    Counter,
    Toggle,
    Lock,
    Switch,
}

fn machine(rt: &impl Abort, alloc: Global, asked: Asked) -> Mealy {
    match asked {
        Asked::Counter => counter(rt, alloc),
        Asked::Toggle => toggle(rt, alloc),
        Asked::Lock => lock(rt, alloc),
        Asked::Switch => switch(rt, alloc),
    }
}

/// How many batches were asked, and the words of some; the access words and the suffixes.
struct Left {
    count: usize,
    batches: &'static [Batch],
    access: &'static [&'static [u16]],
    suffixes: &'static [&'static [u16]],
}

/// Whether that is left.
fn is_left(trial: &Trial, left: &Left) -> bool {
    let has_asked = has_settled(&trial.oracle, left.count, left.batches);
    has_asked && has(&trial.table, left.access, left.suffixes)
}

/// Whether a state of a machine has this row.
fn has_row(model: &Mealy, state: u16, row: &[(u16, u16)]) -> bool
    requires { state < length model.now.rows }
{
    if row.len() != usize::from(model.inputs()) {
        return false;
    }
    for letter in 0..model.inputs() {
        if model.step(state, letter) != row[usize::from(letter)] {
            return false;
        }
    }
    true
}

/// Whether a machine has these rows.
fn has_rows(model: &Mealy, rows: &[&[(u16, u16)]]) -> bool {
    if rows.len() != usize::from(model.states()) {
        return false;
    }
    for state in 0..model.states() {
        if !has_row(model, state, rows[usize::from(state)]) {
            return false;
        }
    }
    true
}

/// A machine that is asked, how many states there may be, what is left once a table is closed over it, and the table's
/// machine.
struct Case {
    asked: Asked,
    most: u16,
    left: Left,
    rows: &'static [&'static [(u16, u16)]],
}

/// Whether a case goes so.
fn goes(rt: &impl Abort, alloc: Global, case: &Case) -> bool {
    let trial = closed(rt, alloc, machine(rt, alloc, case.asked), case.most);
    let model = trial.table.machine().expect(rt, "memory");
    is_left(&trial, &case.left) && has_rows(&model, case.rows)
}

static COUNTER: Case = Case {
    asked: Asked::Counter,
    most: 3,
    left: Left {
        count: 1,
        batches: &[Batch {
            number: 0,
            words: &[&[A], &[A, A]],
        }],
        access: &[&[]],
        suffixes: &[&[A]],
    },
    rows: &[&[(0, 0)]],
};

#[test]
fn a_counter_has_one_row_at_first(rt: HostRuntime) {
    assert!(rt; goes(&rt, rt.alloc(), &COUNTER));
}

static TOGGLE: Case = Case {
    asked: Asked::Toggle,
    most: 2,
    left: Left {
        count: 2,
        batches: &[
            Batch {
                number: 0,
                words: &[&[A], &[B], &[A, A], &[A, B], &[B, A], &[B, B]],
            },
            Batch {
                number: 1,
                words: &[&[A, A, A], &[A, A, B], &[A, B, A], &[A, B, B]],
            },
        ],
        access: &[&[], &[A]],
        suffixes: &[&[A], &[B]],
    },
    rows: &[&[(1, 0), (0, 0)], &[(0, 1), (1, 0)]],
};

#[test]
fn an_extension_becomes_an_access_word(rt: HostRuntime) {
    assert!(rt; goes(&rt, rt.alloc(), &TOGGLE));
}

/// Whether no table of a toggle has one state: these are the pairwise apart words.
fn is_crowd(rt: &impl Abort, alloc: Global, expected: &[&[u16]]) -> bool {
    match closed_over(rt, alloc, toggle(rt, alloc), 1) {
        Err(GrowStop::Crowd(words)) => are(&words, expected),
        _ => false,
    }
}

static TWO_ROWS: [&[u16]; 2] = [&[], &[A]];

#[test]
fn one_access_word_too_many(rt: HostRuntime) {
    assert!(rt; is_crowd(&rt, rt.alloc(), &TWO_ROWS));
}

static LOCK: Case = Case {
    asked: Asked::Lock,
    most: 5,
    left: Left {
        count: 1,
        batches: &[],
        access: &[&[]],
        suffixes: &[&[A], &[B]],
    },
    rows: &[&[(0, 0), (0, 0)]],
};

#[test]
fn a_lock_shows_nothing_at_first(rt: HostRuntime) {
    assert!(rt; goes(&rt, rt.alloc(), &LOCK));
}

/// Two rows are open at once: that of a becomes an access word's first, its extensions are asked, and then that of b.
static SWITCH: Case = Case {
    asked: Asked::Switch,
    most: 3,
    left: Left {
        count: 3,
        batches: &[
            Batch {
                number: 1,
                words: &[&[A, A, A], &[A, A, B], &[A, B, A], &[A, B, B]],
            },
            Batch {
                number: 2,
                words: &[&[B, A, A], &[B, A, B], &[B, B, A], &[B, B, B]],
            },
        ],
        access: &[&[], &[A], &[B]],
        suffixes: &[&[A], &[B]],
    },
    rows: &[&[(1, 0), (2, 0)], &[(1, 1), (1, 0)], &[(2, 0), (2, 1)]],
};

#[test]
fn the_first_open_row_comes_first(rt: HostRuntime) {
    assert!(rt; goes(&rt, rt.alloc(), &SWITCH));
}

/// A table whose first closing is refused at its second batch, and that is closed again.
#[tactic(auto, using(lw_table::proofs::NewLemmas::new_is_read))]
fn closed_again(rt: &impl Abort, alloc: Global, mealy: Mealy) -> Trial {
    let inputs = mealy.inputs();
    let outputs = mealy.outputs();
    let mut oracle = Recording::refusing(alloc, mealy, 1);
    let Ok(mut table) = ObservationTable::new(alloc, inputs, outputs, 2) else {
        rt.panic("no memory");
    };
    let Err(GrowStop::Ask(AskStop::NoMemory)) = table.close(&mut oracle) else {
        rt.panic("no batch was refused");
    };
    let Ok(()) = table.close(&mut oracle) else {
        rt.panic("the table isn't closed");
    };
    Trial { oracle, table }
}

static REFUSED: Left = Left {
    count: 3,
    batches: &[
        Batch {
            number: 1,
            words: &[&[A, A, A], &[A, A, B], &[A, B, A], &[A, B, B]],
        },
        Batch {
            number: 2,
            words: &[&[A, A, A], &[A, A, B], &[A, B, A], &[A, B, B]],
        },
    ],
    access: &[&[], &[A]],
    suffixes: &[&[A], &[B]],
};

#[test]
fn a_closing_goes_on_after_a_refusal(rt: HostRuntime) {
    let trial = closed_again(&rt, rt.alloc(), toggle(&rt, rt.alloc()));
    assert!(rt; is_left(&trial, &REFUSED));
}

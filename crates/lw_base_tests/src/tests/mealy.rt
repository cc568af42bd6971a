//! The counter by hand, both results of a comparison, machines at their limits, and the definitions, computed by the checker on
//! four machines that were worked by hand.
ghost use Rattle.std.specs.Prelude.{◌≡◌, ◌<◌, [], ◌∷◌};
ghost use Rattle.lw_mealy.specs.Worked.{AsWorked};

use crate::tests::{Rows, machine, of_one_letter, rows, word};
use lw_mealy::{Mealy, MealyFault};
use lw_words::Word;
use std::alloc::Global;
use std::process::Abort;

fn as_worked()
    ensures { AsWorked }
{}

#[test]
fn worked_examples() {
    as_worked();
}

fn counter(rt: &impl Abort, alloc: Global) -> Mealy {
    of_one_letter(rt, alloc, &[(1, 0), (2, 0), (0, 1)])
}

/// Whether a machine has so many inputs, outputs and states.
fn has_sizes(m: &Mealy, inputs: u16, outputs: u16, states: u16) -> bool {
    m.inputs() == inputs && m.outputs() == outputs && m.states() == states
}

/// What a machine answers to these letters, and the state after them.
fn answers(rt: &impl Abort, m: &Mealy, alloc: Global, letters: &[u16]) -> (Word, u16) {
    let inputs = m.inputs();
    assert!(rt; letters.iter().all(|x| *x < inputs));
    let w = word(rt, alloc, letters);
    (m.answer(&w).expect(rt, "memory"), m.after(m.initial(), &w))
}

/// Where a machine's answer to these letters differs from these outputs.
fn differs(
    rt: &impl Abort,
    m: &Mealy,
    alloc: Global,
    letters: &[u16],
    outs: &[u16],
) -> Option<usize> {
    let inputs = m.inputs();
    assert!(rt; letters.len() == outs.len() && letters.iter().all(|x| *x < inputs));
    m.agrees(&word(rt, alloc, letters), &word(rt, alloc, outs))
}

/// Whether a machine answers so to these letters, and ends in this state.
fn answers_so(
    rt: &impl Abort,
    m: &Mealy,
    alloc: Global,
    letters: &[u16],
    outs: &[u16],
    end: u16,
) -> bool {
    let (word, state) = answers(rt, m, alloc, letters);
    word.as_slice() == outs && state == end
}

#[test]
fn the_counter_answers(rt: HostRuntime) {
    let alloc = rt.alloc();
    let counter = counter(&rt, alloc).copy().expect(&rt, "memory");
    assert!(rt; has_sizes(&counter, 1, 2, 3));
    let (letters, outs) = ([0, 0, 0, 0, 0, 0, 0], [0, 0, 1, 0, 0, 1, 0]);
    assert!(rt; answers_so(&rt, &counter, alloc, &letters, &outs, 1));
    assert!(rt; answers_so(&rt, &counter, alloc, &[], &[], 0));
}

/// Letters that the counter is asked, outputs, and the first place at which its own differ.
static DIFFERENCES: [(&[u16], &[u16], Option<usize>); 3] = [
    (&[0, 0, 0], &[0, 0, 1], None),
    (&[0, 0, 0], &[0, 1, 0], Some(1)),
    (&[], &[], None),
];

#[test]
fn the_first_difference_of_an_answer(rt: HostRuntime) {
    let counter = counter(&rt, rt.alloc());
    for (letters, outs, place) in &DIFFERENCES {
        assert!(rt; differs(&rt, &counter, rt.alloc(), *letters, *outs) == *place);
    }
}

/// The rows of a ring of so many states over so many letters, each cell of which has the last output.
fn ring(rt: &impl Abort, alloc: Global, states: u16, inputs: u16, outputs: u16) -> Rows {
    let mut rows = Vec::new(alloc);
    for state in 0..states {
        let target = if state + 1 < states { state + 1 } else { 0 };
        let cell = (target, outputs.saturating_sub(1));
        let row = vec![in alloc; cell; usize::from(inputs)].expect(rt, "memory");
        rows.push(row).expect(rt, "memory");
    }
    rows
}

/// Whether the greatest machine answers each of so many letters by its last output, and ends in this state.
fn greatest_answers(
    rt: &impl Abort,
    largest: &Mealy,
    alloc: Global,
    count: usize,
    end: u16,
) -> bool {
    let letters = vec![in alloc; 63u16; count].expect(rt, "memory");
    let (outs, state) = answers(rt, largest, alloc, letters.as_slice());
    outs.len() == count && state == end && outs.as_slice().iter().all(|y| *y == 4095)
}

#[test]
fn the_largest_machine(rt: HostRuntime) {
    let alloc = rt.alloc();
    let made = machine(&rt, alloc, 64, 4096, ring(&rt, alloc, 1024, 64, 4096));
    let largest = made.copy().expect(&rt, "memory");
    assert!(rt; has_sizes(&largest, 64, 4096, 1024));
    assert!(rt; greatest_answers(&rt, &largest, alloc, 70_000, 368));
}

fn fault(alloc: Global, rows: Rows) -> Option<MealyFault> {
    Mealy::new(alloc, 1, 2, rows).err()
}

#[test]
fn a_state_too_many(rt: HostRuntime) {
    let more = ring(&rt, rt.alloc(), 1025, 1, 2);
    assert!(rt; fault(rt.alloc(), more) == Some(MealyFault::TooMany(1025)));
}

/// Rows, and their first fault.
#[derive(Clone, Copy)]
struct Faulty {
    rows: &'static [&'static [(u16, u16)]],
    fault: MealyFault,
}

static FAULTS: [Faulty; 4] = [
    Faulty {
        rows: &[],
        fault: MealyFault::NoState,
    },
    Faulty {
        rows: &[&[(5, 7)], &[(0, 0), (0, 0)]],
        fault: MealyFault::Ragged(1),
    },
    Faulty {
        rows: &[&[(0, 7)], &[(2, 0)]],
        fault: MealyFault::Target(1, 0, 2),
    },
    Faulty {
        rows: &[&[(1, 1)], &[(0, 2)]],
        fault: MealyFault::Output(1, 0, 2),
    },
];

#[test]
fn the_first_fault_of_rows(rt: HostRuntime) {
    for faulty in &FAULTS {
        let rows = rows(&rt, rt.alloc(), faulty.rows);
        assert!(rt; fault(rt.alloc(), rows) == Some(faulty.fault));
    }
}

/// The machine of one state over one letter, with this output, of two.
fn one_state(rt: &impl Abort, alloc: Global, output: u16) -> Mealy
    requires { output < 2 }
    ensures { result.rows ≡ ((0, output) ∷ []) ∷ [] }
{
    let row = Vec::from_slice(alloc, &[(0, output)]).expect(rt, "memory");
    let mut rows = Vec::new(alloc);
    rows.push(row).expect(rt, "memory");
    Mealy::new(alloc, 1, 2, rows).expect(rt, "a machine")
}

/// That machine with output 1, renumbered to the last of 4,096.
fn renumbered(rt: &impl Abort, alloc: Global) -> Mealy {
    let mut m = one_state(rt, alloc, 1);
    m.renumber(4096, &[0, 4095]);
    m
}

#[test]
fn outputs_are_renumbered(rt: HostRuntime) {
    let m = renumbered(&rt, rt.alloc());
    assert!(rt; has_sizes(&m, 1, 4096, 1));
    assert!(rt; answers_so(&rt, &m, rt.alloc(), &[0, 0], &[4095, 4095], 0));
}

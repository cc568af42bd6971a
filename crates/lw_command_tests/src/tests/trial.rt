//! Small drawn machines beside cells that were computed apart, from the generator's published steps; and trials.
mod trials;

use lw_mealy::Mealy;
use lw_trial::drawn;
use std::alloc::Global;
use std::process::Abort;

/// Whether a machine has just these cells, state by state.
fn has_cells(machine: &Mealy, cells: &[&[(u16, u16)]]) -> bool {
    let mut each = cells.iter().enumerate();
    usize::from(machine.states()) == cells.len()
        && each.all(|(state, row)| has_row(machine, state as u16, row))
}

fn has_row(machine: &Mealy, state: u16, row: &[(u16, u16)]) -> bool {
    let mut each = row.iter().enumerate();
    usize::from(machine.inputs()) == row.len()
        && each.all(|(letter, cell)| has_cell(machine, state, letter as u16, *cell))
}

fn has_cell(machine: &Mealy, state: u16, letter: u16, cell: (u16, u16)) -> bool {
    let inside = state < machine.states() && letter < machine.inputs();
    inside && machine.step(state, letter) == cell
}

#[test]
fn one_letter_goes_round(rt: HostRuntime) {
    let machine = drawn(rt.alloc(), 3, 1, 0).expect(&rt, "memory");
    assert!(rt; has_cells(&machine, &[&[(1, 0)], &[(2, 0)], &[(0, 1)]]));
    assert_eq!(rt; machine.outputs(), 2);
}

#[test]
fn further_letters_are_drawn(rt: HostRuntime) {
    let machine = drawn(rt.alloc(), 3, 3, 7).expect(&rt, "memory");
    let rows: &[&[(u16, u16)]] = &[
        &[(1, 0), (2, 1), (2, 1)],
        &[(2, 0), (2, 1), (1, 0)],
        &[(0, 1), (0, 0), (2, 1)],
    ];
    assert!(rt; has_cells(&machine, rows));
}

#[test]
fn each_state_takes_its_words(rt: HostRuntime) {
    let machine = drawn(rt.alloc(), 5, 2, 2026).expect(&rt, "memory");
    let rows: &[&[(u16, u16)]] = &[
        &[(1, 0), (0, 1)],
        &[(2, 0), (2, 1)],
        &[(3, 0), (1, 1)],
        &[(4, 0), (1, 0)],
        &[(0, 1), (4, 1)],
    ];
    assert!(rt; has_cells(&machine, rows));
}

#[test]
fn the_greatest_machine(rt: HostRuntime) {
    let machine = drawn(rt.alloc(), 1024, 64, 1).expect(&rt, "memory");
    assert_eq!(rt; machine.states(), 1024);
    assert_eq!(rt; machine.inputs(), 64);
}

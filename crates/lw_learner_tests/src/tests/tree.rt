//! New trees, and the laws.
ghost use Rattle.std.specs.Prelude.{◌<◌, ◌≤◌, length};
ghost use Rattle.lw_tree.specs.Tree.{IsClosed};

mod children;
mod drawn;
mod levels;
mod replacing;
mod splits;

use crate::tests::{Batch, are, has_settled};
use lw_mealy::Mealy;
use lw_tree::{
    DiscriminationTree, access_is_crowd, access_leads, branches_stay, closed_has_machine,
    discriminators_are_short, finals_are_few, inners_are_few, machine_gives_steps, new_is_read,
    one_machine,
};
use lw_words::Words;
use std::alloc::Global;
use std::process::Abort;
use test_oracle::Recording;

const A: u16 = 0;

const B: u16 = 1;

/// No batch is refused.
const NEVER: usize = 1000;

/// Whether a state of a closed tree has this row.
fn has_row(tree: &DiscriminationTree, state: u16, row: &[(u16, u16)]) -> bool
    requires closed { IsClosed tree.now }
    requires state { state < length tree.now.access }
{
    if row.len() != usize::from(tree.inputs()) {
        return false;
    }
    for letter in 0..tree.inputs() {
        if tree.step(state, letter) != row[usize::from(letter)] {
            return false;
        }
    }
    true
}

/// Whether these are the rows of a closed tree.
fn has_rows(tree: &DiscriminationTree, rows: &[&[(u16, u16)]]) -> bool
    requires { IsClosed tree.now }
{
    if rows.len() != usize::from(tree.states()) {
        return false;
    }
    for state in 0..tree.states() {
        if !has_row(tree, state, rows[usize::from(state)]) {
            return false;
        }
    }
    true
}

/// The machine of these rows over one letter.
fn of_one_letter(rt: &impl Abort, alloc: Global, cells: &[(u16, u16)]) -> Mealy {
    let mut rows = Vec::new(alloc);
    for cell in cells {
        let row = Vec::from_slice(alloc, &[*cell]).expect(rt, "memory");
        rows.push(row).expect(rt, "memory");
    }
    Mealy::new(alloc, 1, 2, rows).expect(rt, "a machine")
}

/// The machine of these rows over two letters.
fn of_two_letters(rt: &impl Abort, alloc: Global, outputs: u16, cells: &[[(u16, u16); 2]]) -> Mealy
    requires { (1 ≤ outputs) × (outputs ≤ 4096) }
{
    let mut rows = Vec::new(alloc);
    for cell in cells {
        let row = Vec::from_slice(alloc, cell).expect(rt, "memory");
        rows.push(row).expect(rt, "memory");
    }
    Mealy::new(alloc, 2, outputs, rows).expect(rt, "a machine")
}

/// The machine whose every third a is answered 1.
fn counter(rt: &impl Abort, alloc: Global) -> Mealy {
    of_one_letter(rt, alloc, &[(1, 0), (2, 0), (0, 1)])
}

/// The machine that answers 1 to the last letter of a b a b, each time from its start.
fn lock(rt: &impl Abort, alloc: Global) -> Mealy {
    let rows = [
        [(1, 0), (4, 0)],
        [(4, 0), (2, 0)],
        [(3, 0), (4, 0)],
        [(4, 0), (0, 1)],
        [(4, 0), (4, 0)],
    ];
    of_two_letters(rt, alloc, 2, &rows)
}

/// A machine whose states are told apart by a and then by b, each with outputs of its own and some that both have.
fn fan(rt: &impl Abort, alloc: Global) -> Mealy {
    let rows = [
        [(1, 7), (3, 7)],
        [(2, 8), (0, 7)],
        [(0, 8), (3, 9)],
        [(1, 9), (4, 7)],
        [(2, 8), (1, 8)],
    ];
    of_two_letters(rt, alloc, 10, &rows)
}

/// Which machine is asked.
#[derive(Clone, Copy)]
enum Asked {
    Counter,
    Fan,
    Lock,
}

fn machine(rt: &impl Abort, alloc: Global, asked: Asked) -> Mealy {
    match asked {
        Asked::Counter => counter(rt, alloc),
        Asked::Fan => fan(rt, alloc),
        Asked::Lock => lock(rt, alloc),
    }
}

/// What a tree tells of itself.
struct Shown {
    access: &'static [&'static [u16]],
    discriminators: &'static [&'static [u16]],
    temporary: u32,
    refinements: u32,
}

/// Whether a tree tells this of itself.
fn shows(rt: &impl Abort, tree: &DiscriminationTree, shown: &Shown) -> bool {
    let words = tree.discriminators().expect(rt, "memory");
    let are_words = are(tree.access(), shown.access) && are(&words, shown.discriminators);
    let counts = (tree.temporary(), tree.refinements());
    are_words && counts == (shown.temporary, shown.refinements)
}

/// A tree of one state.
static ONE_STATE: Shown = Shown {
    access: &[&[]],
    discriminators: &[],
    temporary: 0,
    refinements: 0,
};

/// Whether these are the leaves of a tree's states.
fn has_leaves(tree: &DiscriminationTree, leaves: &[u32]) -> bool {
    if leaves.len() != usize::from(tree.states()) {
        return false;
    }
    for state in 0..tree.states() {
        if tree.leaf(state) != leaves[usize::from(state)] {
            return false;
        }
    }
    true
}

/// Whether the lowest node above the leaves of two states is this one.
fn is_fork(tree: &DiscriminationTree, one: u16, other: u16, node: u32) -> bool {
    let states = tree.states();
    one < states && other < states && tree.fork(tree.leaf(one), tree.leaf(other)) == node
}

#[test]
fn a_new_tree_of_two_letters(rt: HostRuntime) {
    let tree = DiscriminationTree::new(rt.alloc(), 2, 3, 5).expect(&rt, "memory");
    assert!(rt; shows(&rt, &tree, &ONE_STATE));
}

#[test]
fn the_laws() {
    new_is_read();
    branches_stay();
    closed_has_machine();
    one_machine();
    access_leads();
    machine_gives_steps();
    access_is_crowd();
    inners_are_few();
    finals_are_few();
    discriminators_are_short();
}

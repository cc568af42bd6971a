//! Children are found by their parent and their outputs: each transition ends at the leaf of its target, and where
//! there is no child, there is a state more.
use super::splits::{Start, split_as};
use super::{A, Asked, B, NEVER, Shown, has_leaves, has_rows, is_fork, shows};
use lw_tree::DiscriminationTree;
use std::alloc::Global;
use std::process::Abort;

/// The leaf of state 0 is split by a: below the root are nodes 1, 2 and 3, under 7, 8 and 9. Then node 2 is split by b: below it
/// are nodes 4 and 5, under 7 and 9 again, and node 6 under 8.
static FAN: Start = Start {
    asked: Asked::Fan,
    most: 8,
    refused: NEVER,
    word: &[A, A, B],
    splits: 2,
};

static SPLIT: Shown = Shown {
    access: &[&[], &[A], &[B], &[A, A], &[B, B]],
    discriminators: &[&[A], &[B]],
    temporary: 2,
    refinements: 2,
};

/// The machine's rows, with its states in the order of the access words.
static ROWS: [&[(u16, u16)]; 5] = [
    &[(1, 7), (2, 7)],
    &[(3, 8), (0, 7)],
    &[(1, 9), (4, 7)],
    &[(0, 8), (2, 9)],
    &[(3, 8), (1, 8)],
];

static LEAVES: [u32; 5] = [1, 4, 3, 5, 6];

/// Whether the leaves stand below the root and node 2 as they should.
fn has_nodes(tree: &DiscriminationTree) -> bool {
    let at_root = is_fork(tree, 0, 1, 0) && is_fork(tree, 0, 2, 0) && is_fork(tree, 1, 2, 0);
    at_root && is_fork(tree, 1, 3, 2) && is_fork(tree, 1, 4, 2) && has_leaves(tree, &LEAVES)
}

/// Whether the fan's tree, split twice, has these nodes and rows.
fn finds_children(rt: &impl Abort, alloc: Global) -> bool {
    let trial = split_as(rt, alloc, &FAN);
    let right = has_nodes(&trial.tree) && has_rows(&trial.tree, &ROWS);
    right && shows(rt, &trial.tree, &SPLIT)
}

#[test]
fn a_child_is_found_below_its_parent(rt: HostRuntime) {
    assert!(rt; finds_children(&rt, rt.alloc()));
}

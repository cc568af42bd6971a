//! First levels, worked by hand: the words that are asked, in their order, and the machines.
ghost use Rattle.lw_tree.specs.Tree.{IsClosed};

use super::{A, Asked, B, Batch, NEVER, ONE_STATE, counter, has_settled, machine, shows};
use lw_mealy::Mealy;
use lw_tree::{DiscriminationTree, new_is_read};
use std::alloc::Global;
use std::process::Abort;
use test_oracle::Recording;
use test_tree::closed;

/// Whether the machine of a closed tree has one state, which answers a by 0.
fn is_mute(rt: &impl Abort, tree: &DiscriminationTree) -> bool
    requires { IsClosed tree.now }
{
    let model = tree.machine().expect(rt, "memory");
    model.states() == 1 && model.inputs() > 0 && model.step(0, A) == (0, 0)
}

/// Whether a new tree has one state once it was closed over a machine, and this batch was all that was asked.
fn is_closed_by(rt: &impl Abort, alloc: Global, asked: Asked, batches: &[Batch]) -> bool {
    let Ok(trial) = closed(alloc, machine(rt, alloc, asked), 5, NEVER) else {
        rt.panic("a tree isn't closed");
    };
    let has_asked = has_settled(&trial.oracle, 1, batches);
    has_asked && is_mute(rt, &trial.tree) && shows(rt, &trial.tree, &ONE_STATE)
}

static ONE_LETTER: [Batch; 1] = [Batch {
    number: 0,
    words: &[&[A]],
}];

#[test]
fn a_counter_has_one_state_at_first(rt: HostRuntime) {
    assert!(rt; is_closed_by(&rt, rt.alloc(), Asked::Counter, &ONE_LETTER));
}

static TWO_LETTERS: [Batch; 1] = [Batch {
    number: 0,
    words: &[&[A], &[B]],
}];

#[test]
fn a_level_goes_by_letter(rt: HostRuntime) {
    assert!(rt; is_closed_by(&rt, rt.alloc(), Asked::Lock, &TWO_LETTERS));
}

/// Whether transitions are left without a target once one level of a new tree was sifted, and how many batches were settled.
fn after_a_level(rt: &impl Abort, alloc: Global, mealy: Mealy) -> (bool, usize) {
    new_is_read();
    let inputs = mealy.inputs();
    let outputs = mealy.outputs();
    let mut oracle = Recording::new(alloc, mealy);
    let Ok(mut tree) = DiscriminationTree::new(alloc, inputs, outputs, 8) else {
        rt.panic("no memory");
    };
    let Ok(left) = tree.sift_level(&mut oracle) else {
        rt.panic("a level is refused");
    };
    (left, oracle.batches().len())
}

/// A new tree has one leaf, where each transition has its target after one level.
#[test]
fn one_level_of_a_new_tree(rt: HostRuntime) {
    let alloc = rt.alloc();
    assert!(rt; after_a_level(&rt, alloc, counter(&rt, alloc)) == (false, 1));
}

//! The root of a block that is replaced, worked by hand.
ghost use Rattle.std.specs.Prelude.{◌≡◌, ◌≢◌, ◌<◌, List, [], ◌∷◌, length, true};
ghost use Rattle.lw_words.specs.Word.{Answer, answers_of};
ghost use Rattle.lw_mealy.specs.Machine.{Rows, output};
ghost use Rattle.lw_tree.specs.Blocks.{MayReplace};
ghost use Rattle.lw_tree.specs.Grown.{HasGrown};
ghost use Rattle.lw_tree.specs.Tree.{BranchesAreRead, IsClosed, IsMachineOf};
ghost use Rattle.test_tree.specs.Trials.{IsReady};

use super::splits::{LOCK, split_as};
use super::{A, B, are, has_leaves, has_rows, is_fork};
use lw_cache::Oracle;
use lw_tree::{DiscriminationTree, closed_has_machine};
use lw_words::Word;
use std::alloc::Global;
use std::process::Abort;

/// Whether two states answer a letter by different outputs.
fn differ(tree: &DiscriminationTree, one: u16, other: u16, letter: u16) -> bool
    requires closed { IsClosed tree.now }
    requires one { one < length tree.now.access }
    requires other { other < length tree.now.access }
    requires letter { letter < tree.now.inputs }
    ensures { result ≡ true → (m : Rows) → IsMachineOf tree.now m →
        output m one letter ≢ output m other letter }
{
    tree.step(one, letter).1 != tree.step(other, letter).1
}

/// Whether a letter may take the place of the root: two states of one class with the root answer it differently.
fn may_replace(tree: &DiscriminationTree, one: u16, other: u16, letter: u16) -> bool
    requires closed { IsClosed tree.now }
    ensures { result ≡ true → (ks : List Answer) → BranchesAreRead ks tree.now →
        MayReplace ks tree.now 0 (letter ∷ []) }
{
    closed_has_machine();
    let states = tree.states();
    if letter >= tree.inputs() || one >= states || other >= states {
        return false;
    }
    let root = tree.class_root(one);
    if root != 0 || tree.class_root(other) != 0 || !tree.is_temporary(root) {
        return false;
    }
    differ(tree, one, other, letter)
}

/// Replaces the root of a closed tree by a letter that two states answer differently.
fn replace_root<O: Oracle>(
    rt: &impl Abort,
    alloc: Global,
    oracle: &O,
    tree: &mut DiscriminationTree,
    states: (u16, u16),
    letter: u16,
)
    requires can { O.can_settle oracle.now }
    requires ready { IsReady (O.state oracle.now) tree.old }
    ensures { HasGrown (answers_of (O.state oracle.now).kept) tree.old tree.new }
{
    let cache = oracle.cache();
    assert!(rt; may_replace(tree, states.0, states.1, letter));
    let mut word = Word::new(alloc);
    let Ok(()) = word.push(letter) else {
        rt.panic("no memory");
    };
    tree.replace(cache, 0, word).expect(rt, "memory");
}

/// Whether the letter b parts three states of a lock from one: the one is a leaf below the new root, and the three have copies
/// of both nodes.
fn is_parted(rt: &impl Abort, tree: &DiscriminationTree) -> bool {
    let words = tree.discriminators().expect(rt, "memory");
    let are_words = are(&words, &[&[B], &[B, A, B], &[A, B]]);
    let has_nodes = is_fork(tree, 0, 3, 0) && is_fork(tree, 0, 1, 6) && is_fork(tree, 0, 2, 8);
    are_words && has_nodes && has_leaves(tree, &[10, 9, 11, 7]) && tree.temporary() == 2
}

/// The lock's states but for the last, in whose place is state 0.
static PARTED: [&[(u16, u16)]; 4] = [
    &[(1, 0), (0, 0)],
    &[(0, 0), (2, 0)],
    &[(3, 0), (0, 0)],
    &[(0, 0), (0, 1)],
];

/// Whether a lock's tree is parted once its root was replaced by b, and stays so when it is closed again. The transitions into
/// the states stand at the new root, and closing moves them down from there: so it finds the new nodes.
fn closes_again(rt: &impl Abort, alloc: Global) -> bool {
    let mut trial = split_as(rt, alloc, &LOCK.start);
    replace_root(rt, alloc, &trial.oracle, &mut trial.tree, (0, 3), B);
    let parted = is_parted(rt, &trial.tree);
    let Ok(()) = trial.tree.close(&mut trial.oracle) else {
        rt.panic("the tree isn't closed again");
    };
    parted && has_rows(&trial.tree, &PARTED) && is_parted(rt, &trial.tree)
}

#[test]
fn a_parted_block_is_closed_again(rt: HostRuntime) {
    assert!(rt; closes_again(&rt, rt.alloc()));
}

//! Splits by counterexamples, worked by hand: the words that are asked, in their order, and the machines.
ghost use Rattle.std.specs.Prelude.{OnOk};
ghost use Rattle.lw_tree.specs.Tree.{IsClosed};
ghost use Rattle.test_oracle.specs.Recording.{state_of};
ghost use Rattle.test_tree.specs.Trials.{IsReady};

use super::{A, Asked, B, Batch, NEVER, Shown, are, has_rows, has_settled, machine, shows};
use lw_cache::{AskStop, GrowStop, Oracle};
use lw_tree::DiscriminationTree;
use std::alloc::Global;
use std::process::Abort;
use test_tree::{Trial, ask, closed, split_by_known};

/// How the last split of a tree ends.
enum End {
    Split,
    /// With these words, which are pairwise apart.
    Crowd(&'static [&'static [u16]]),
    /// Out of memory.
    Refused,
}

/// A tree that is closed over a machine with so many states at most, by an oracle that refuses the batch with this number;
/// a word that is asked then; and how often the tree is split.
pub(super) struct Start {
    pub(super) asked: Asked,
    pub(super) most: u16,
    pub(super) refused: usize,
    pub(super) word: &'static [u16],
    pub(super) splits: usize,
}

/// How splits end, and what is left.
pub(super) struct Case {
    pub(super) start: Start,
    end: End,
    count: usize,
    batches: &'static [Batch],
    shown: Shown,
}

/// A closed tree, and a word that was asked.
fn begun(rt: &impl Abort, alloc: Global, start: &Start) -> Trial
    ensures { IsReady (state_of result.oracle) result.tree }
{
    assert!(rt; 1 <= start.most && start.most <= 1024);
    let mealy = machine(rt, alloc, start.asked);
    let Ok(mut trial) = closed(alloc, mealy, start.most, start.refused) else {
        rt.panic("a tree isn't closed");
    };
    assert!(rt; ask(alloc, &mut trial.oracle, &trial.tree, start.word));
    trial
}

/// Splits a tree so many times, or until that is refused: the stop then.
fn split_times<O: Oracle>(
    rt: &impl Abort,
    alloc: Global,
    oracle: &mut O,
    tree: &mut DiscriminationTree,
    times: usize,
) -> Result<(), GrowStop>
    requires can { O.can_settle oracle.old }
    requires ready { IsReady (O.state oracle.old) tree.old }
    ensures ready { OnOk result (IsReady (O.state oracle.new) tree.new) }
    ensures can { O.can_settle oracle.new }
{
    for _ in 0..times {
        let is_split = split_by_known(alloc, oracle, tree)?;
        assert!(rt; is_split);
    }
    Ok(())
}

/// Whether splits end so.
fn is_end(split: &Result<(), GrowStop>, end: &End) -> bool {
    match end {
        End::Split => split.is_ok(),
        End::Crowd(expected) => match split {
            Err(GrowStop::Crowd(words)) => are(words, expected),
            _ => false,
        },
        End::Refused => matches!(split, Err(GrowStop::Ask(AskStop::NoMemory))),
    }
}

/// Whether a case is left so.
fn is_left(rt: &impl Abort, trial: &Trial, case: &Case) -> bool {
    let has_asked = has_settled(&trial.oracle, case.count, case.batches);
    has_asked && shows(rt, &trial.tree, &case.shown)
}

/// Whether a case goes as it says.
fn goes(rt: &impl Abort, alloc: Global, case: &Case) -> bool {
    let mut trial = begun(rt, alloc, &case.start);
    let times = case.start.splits;
    let split = split_times(rt, alloc, &mut trial.oracle, &mut trial.tree, times);
    is_end(&split, &case.end) && is_left(rt, &trial, case)
}

/// The leaf of state 0 is split by a a, and the transition of the new state makes a third one.
static COUNTER: Case = Case {
    start: Start {
        asked: Asked::Counter,
        most: 3,
        refused: NEVER,
        word: &[A, A, A],
        splits: 1,
    },
    end: End::Split,
    count: 5,
    batches: &[
        Batch {
            number: 2,
            words: &[&[A, A]],
        },
        Batch {
            number: 3,
            words: &[&[A, A], &[A, A, A, A]],
        },
        Batch {
            number: 4,
            words: &[&[A, A, A], &[A, A, A, A, A]],
        },
    ],
    shown: Shown {
        access: &[&[], &[A], &[A, A]],
        discriminators: &[&[A, A]],
        temporary: 1,
        refinements: 1,
    },
};

#[test]
fn a_counter_is_split_once(rt: HostRuntime) {
    assert!(rt; goes(&rt, rt.alloc(), &COUNTER));
}

/// The leaf of state 0 is split by b a b: the transition by b, which led there, stands at the root, as those of the new state
/// do. Then it is split once more, by a b: its transitions stand at the lower node, those of the new states at the root.
pub(super) static LOCK: Case = Case {
    start: Start {
        asked: Asked::Lock,
        most: 5,
        refused: NEVER,
        word: &[A, B, A, B],
        splits: 2,
    },
    end: End::Split,
    count: 10,
    batches: &[
        Batch {
            number: 2,
            words: &[&[A, B]],
        },
        Batch {
            number: 3,
            words: &[&[B, A, B]],
        },
        Batch {
            number: 4,
            words: &[
                &[B],
                &[B, B, A, B],
                &[A, A],
                &[A, A, B, A, B],
                &[A, B],
                &[A, B, B, A, B],
            ],
        },
        Batch {
            number: 7,
            words: &[
                &[B],
                &[B, A, B],
                &[A, A],
                &[A, A, A, B],
                &[A, B, A],
                &[A, B, A, B, A, B],
                &[A, B, B],
                &[A, B, B, B, A, B],
            ],
        },
        Batch {
            number: 8,
            words: &[
                &[A, B, B],
                &[A, B, B, A, B],
                &[A, B, A, A],
                &[A, B, A, A, B, A, B],
                &[A, B, A, B],
                &[A, B, A, B, B, A, B],
            ],
        },
        Batch {
            number: 9,
            words: &[
                &[A, B, A, A],
                &[A, B, A, A, A, B],
                &[A, B, A, B],
                &[A, B, A, B, A, B],
            ],
        },
    ],
    shown: Shown {
        access: &[&[], &[A], &[A, B], &[A, B, A]],
        discriminators: &[&[B, A, B], &[A, B]],
        temporary: 2,
        refinements: 2,
    },
};

#[test]
fn a_lock_is_split_twice(rt: HostRuntime) {
    assert!(rt; goes(&rt, rt.alloc(), &LOCK));
}

/// There is no room for a second state.
static NO_SECOND: Case = Case {
    start: Start {
        asked: Asked::Counter,
        most: 1,
        refused: NEVER,
        word: &[A, A, A],
        splits: 1,
    },
    end: End::Crowd(&[&[], &[A]]),
    count: 3,
    batches: &[],
    shown: Shown {
        access: &[&[]],
        discriminators: &[],
        temporary: 0,
        refinements: 0,
    },
};

#[test]
fn a_split_is_one_state_too_many(rt: HostRuntime) {
    assert!(rt; goes(&rt, rt.alloc(), &NO_SECOND));
}

/// There is room for a second state, and then a level wants a third.
static NO_THIRD: Case = Case {
    start: Start {
        asked: Asked::Counter,
        most: 2,
        refused: NEVER,
        word: &[A, A, A],
        splits: 1,
    },
    end: End::Crowd(&[&[], &[A], &[A, A]]),
    count: 4,
    batches: &[],
    shown: Shown {
        access: &[&[], &[A]],
        discriminators: &[&[A, A]],
        temporary: 1,
        refinements: 0,
    },
};

#[test]
fn a_level_is_one_state_too_many(rt: HostRuntime) {
    assert!(rt; goes(&rt, rt.alloc(), &NO_THIRD));
}

/// A split whose first level is refused is one all the same, and closing goes on from there.
static NO_LEVEL: Case = Case {
    start: Start {
        asked: Asked::Counter,
        most: 3,
        refused: 3,
        word: &[A, A, A],
        splits: 1,
    },
    end: End::Refused,
    count: 4,
    batches: &[],
    shown: Shown {
        access: &[&[], &[A]],
        discriminators: &[&[A, A]],
        temporary: 1,
        refinements: 0,
    },
};

#[test]
fn a_refused_level_is_asked_again(rt: HostRuntime) {
    assert!(rt; goes(&rt, rt.alloc(), &NO_LEVEL));
}

/// A tree that was split so.
pub(super) fn split_as(rt: &impl Abort, alloc: Global, start: &Start) -> Trial
    ensures { IsReady (state_of result.oracle) result.tree }
{
    let mut trial = begun(rt, alloc, start);
    let split = split_times(rt, alloc, &mut trial.oracle, &mut trial.tree, start.splits);
    assert!(rt; split.is_ok());
    trial
}

/// Whether a tree of three states has one class, whose root is temporary and tells states 1 and 2 apart by a a.
#[tactic(auto, using(lw_tree::proofs::ClassLemmas::temporary_is_inner))]
fn is_one_block(tree: &DiscriminationTree) -> bool {
    if tree.states() != 3 {
        return false;
    }
    let root = tree.class_root(0);
    let fork = tree.fork(tree.leaf(1), tree.leaf(2));
    root == tree.class_root(1)
        && root == tree.class_root(2)
        && root == fork
        && tree.is_temporary(root)
        && tree.discriminator(root).as_slice() == [A, A].as_slice()
}

/// Three states that count, with output 1 at the last.
static COUNTS: [&[(u16, u16)]; 3] = [&[(1, 0)], &[(2, 0)], &[(0, 1)]];

#[test]
fn three_states_are_a_block(rt: HostRuntime) {
    let trial = split_as(&rt, rt.alloc(), &COUNTER.start);
    assert!(rt; is_one_block(&trial.tree) && has_rows(&trial.tree, &COUNTS));
}

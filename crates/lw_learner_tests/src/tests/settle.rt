//! Blocks that are settled, worked by hand: the words that are asked, in their order, and the discriminators.
ghost use Rattle.test_oracle.specs.Recording.{state_of};
ghost use Rattle.test_tree.specs.Trials.{IsReady};

mod trial;

use crate::tests::{Batch, has_settled};
use lw_mealy::Mealy;
use lw_settle::{Settled, some_block_is_parted};
use lw_words::Words;
use std::alloc::Global;
use std::process::Abort;
use test_oracle::Recording;
use test_tree::{Trial, closed};
use trial::{settle, split_by};

/// The only letter.
const T: u16 = 0;

/// Whether a list has just these words, in any order.
fn has_just(words: &Words, expected: &[&[u16]]) -> bool {
    for letters in expected {
        if !has_word(words, letters) {
            return false;
        }
    }
    words.len() == expected.len()
}

/// Whether a list has a word of these letters.
fn has_word(words: &Words, letters: &[u16]) -> bool {
    for word in words.as_slice() {
        if word.as_slice() == letters {
            return true;
        }
    }
    false
}

/// The machine that answers these outputs, one after the other, and then begins anew.
fn cycle(rt: &impl Abort, alloc: Global, outputs: [u16; 3]) -> Mealy {
    let cells = [(1, outputs[0]), (2, outputs[1]), (0, outputs[2])];
    let mut rows = Vec::new(alloc);
    for cell in &cells {
        let row = Vec::from_slice(alloc, &[*cell]).expect(rt, "memory");
        rows.push(row).expect(rt, "memory");
    }
    Mealy::new(alloc, 1, 2, rows).expect(rt, "a machine")
}

/// How many batches were settled, and the words of some; the discriminators, in any order, and how many nodes are temporary.
struct Left {
    count: usize,
    batches: &'static [Batch],
    discriminators: &'static [&'static [u16]],
    temporary: u32,
}

/// Whether that is left.
fn is_left(rt: &impl Abort, trial: &Trial, left: &Left) -> bool {
    let words = trial.tree.discriminators().expect(rt, "memory");
    let are_words = has_just(&words, left.discriminators);
    let has_asked = has_settled(&trial.oracle, left.count, left.batches);
    are_words && has_asked && trial.tree.temporary() == left.temporary
}

/// The tree of a cycle, split once by each of these words, over an oracle that refuses the batch with this number.
fn split_tree(
    rt: &impl Abort,
    alloc: Global,
    outputs: [u16; 3],
    refused: usize,
    words: &[&[u16]],
) -> Trial
    ensures { IsReady (state_of result.oracle) result.tree }
{
    let Ok(mut trial) = closed(alloc, cycle(rt, alloc, outputs), 8, refused) else {
        rt.panic("a tree isn't closed");
    };
    for word in words {
        split_by(rt, alloc, &mut trial.oracle, &mut trial.tree, word);
    }
    trial
}

/// Whether a settling of a counter's tree is refused with the batch of this number, and this is left.
fn is_refused_at(rt: &impl Abort, alloc: Global, refused: usize, left: &Left) -> bool {
    let mut trial = split_tree(rt, alloc, [0, 0, 1], refused, &[&[T, T, T]]);
    let settling = settle(rt, alloc, &mut trial.oracle, &mut trial.tree);
    settling.is_err() && is_left(rt, &trial, left)
}

/// Where the words of a block's states are refused, the tree is as it was.
static REFUSED_WORDS: Left = Left {
    count: 6,
    batches: &[],
    discriminators: &[&[T, T]],
    temporary: 1,
};

#[test]
fn the_words_of_a_block_are_refused(rt: HostRuntime) {
    assert!(rt; is_refused_at(&rt, rt.alloc(), 5, &REFUSED_WORDS));
}

/// Where the level after it is refused, the root was replaced.
static REFUSED_LEVEL: Left = Left {
    count: 7,
    batches: &[],
    discriminators: &[&[T], &[T, T]],
    temporary: 1,
};

#[test]
fn a_level_of_a_settling_is_refused(rt: HostRuntime) {
    assert!(rt; is_refused_at(&rt, rt.alloc(), 6, &REFUSED_LEVEL));
}

/// What a settling does, and what is left.
struct Step {
    settled: Settled,
    left: Left,
}

/// A tree of a cycle that was split by words, what is left then, and what settlings do after that.
struct Case {
    outputs: [u16; 3],
    words: &'static [&'static [u16]],
    begun: Left,
    steps: &'static [Step],
    refinements: u32,
}

/// Whether settlings do so, one after another.
fn settles(rt: &impl Abort, alloc: Global, trial: &mut Trial, steps: &[Step]) -> bool
    requires { IsReady (state_of trial.old.oracle) trial.old.tree }
{
    for step in steps {
        let Ok(settled) = settle(rt, alloc, &mut trial.oracle, &mut trial.tree) else {
            rt.panic("a settling is refused");
        };
        if settled != step.settled || !is_left(rt, trial, &step.left) {
            return false;
        }
    }
    true
}

/// Whether a tree that was split goes on as a case says.
fn goes_on(rt: &impl Abort, alloc: Global, trial: &mut Trial, case: &Case) -> bool
    requires { IsReady (state_of trial.old.oracle) trial.old.tree }
{
    let begun = is_left(rt, trial, &case.begun);
    let settled = settles(rt, alloc, trial, case.steps);
    begun && settled && trial.tree.refinements() == case.refinements
}

/// Whether a case goes so.
fn goes(rt: &impl Abort, alloc: Global, case: &Case) -> bool {
    let mut trial = split_tree(rt, alloc, case.outputs, usize::MAX, case.words);
    goes_on(rt, alloc, &mut trial, case)
}

/// The tree of a counter, split by t t: one block of all three states, which the letter parts.
///
/// States 0 and 1 answer 0 to the letter, and state 2 answers 1: so the letter is the root's new word, and the two stay a
/// block. The transition of state 2 stands at the root then, and goes down by two levels.
///
/// Then states 0 and 1 answer the letter alike, and go on to states that the root tells apart: the word is t t. After it no
/// node is temporary.
static COUNTER: Case = Case {
    outputs: [0, 0, 1],
    words: &[&[T, T, T]],
    begun: Left {
        count: 5,
        batches: &[],
        discriminators: &[&[T, T]],
        temporary: 1,
    },
    steps: &[
        Step {
            settled: Settled::Replaced,
            left: Left {
                count: 8,
                batches: &[
                    Batch {
                        number: 5,
                        words: &[&[T], &[T, T], &[T, T, T]],
                    },
                    Batch {
                        number: 6,
                        words: &[&[T, T, T], &[T, T, T, T]],
                    },
                    Batch {
                        number: 7,
                        words: &[&[T, T, T], &[T, T, T, T, T]],
                    },
                ],
                discriminators: &[&[T], &[T, T]],
                temporary: 1,
            },
        },
        Step {
            settled: Settled::Replaced,
            left: Left {
                count: 10,
                batches: &[
                    Batch {
                        number: 8,
                        words: &[&[T, T], &[T, T, T]],
                    },
                    Batch {
                        number: 9,
                        words: &[&[T, T, T], &[T, T, T, T, T]],
                    },
                ],
                discriminators: &[&[T], &[T, T]],
                temporary: 0,
            },
        },
        Step {
            settled: Settled::NoBlock,
            left: Left {
                count: 10,
                batches: &[],
                discriminators: &[&[T], &[T, T]],
                temporary: 0,
            },
        },
    ],
    refinements: 1,
};

#[test]
fn a_letter_parts_by_outputs_and_then_by_targets(rt: HostRuntime) {
    assert!(rt; goes(&rt, rt.alloc(), &COUNTER));
}

/// The tree of a machine that answers every second of three letters by 1, split by t and then by t t: below node t are a leaf,
/// and node t t with the two states that answer 0.
///
/// Of a block of three states 0 and 2 stay together, below a temporary node. Then their targets are states 1 and 0, which the
/// root tells apart.
static NESTED: Case = Case {
    outputs: [0, 1, 0],
    words: &[&[T, T], &[T, T, T, T]],
    begun: Left {
        count: 9,
        batches: &[],
        discriminators: &[&[T], &[T, T]],
        temporary: 2,
    },
    steps: &[
        Step {
            settled: Settled::Replaced,
            left: Left {
                count: 12,
                batches: &[
                    Batch {
                        number: 9,
                        words: &[&[T], &[T, T], &[T, T, T]],
                    },
                    Batch {
                        number: 10,
                        words: &[&[T, T, T], &[T, T, T, T]],
                    },
                    Batch {
                        number: 11,
                        words: &[&[T, T, T], &[T, T, T, T, T]],
                    },
                ],
                discriminators: &[&[T], &[T, T]],
                temporary: 1,
            },
        },
        Step {
            settled: Settled::Replaced,
            left: Left {
                count: 14,
                batches: &[
                    Batch {
                        number: 12,
                        words: &[&[T, T], &[T, T, T, T]],
                    },
                    Batch {
                        number: 13,
                        words: &[&[T, T, T], &[T, T, T, T, T]],
                    },
                ],
                discriminators: &[&[T], &[T, T]],
                temporary: 0,
            },
        },
        Step {
            settled: Settled::NoBlock,
            left: Left {
                count: 14,
                batches: &[],
                discriminators: &[&[T], &[T, T]],
                temporary: 0,
            },
        },
    ],
    refinements: 2,
};

#[test]
fn two_of_three_stay_a_block_and_are_parted_then(rt: HostRuntime) {
    assert!(rt; goes(&rt, rt.alloc(), &NESTED));
}

#[test]
fn the_law() {
    some_block_is_parted();
}

//! Learnings with a discrimination tree: the batches of levels, of analyses, of settlings and of suites, in their order.
use super::cases::{A, B, Case, Ending, PLAIN, Rows, all_go};
use super::tables::{COUNTER, COUNTER_SUITE, FOUR_STATES};
use lw_rounds::Kind;

const TREE: Case = Case {
    kind: Kind::Ttt,
    ..PLAIN
};

/// A level; the suite; one word of the analysis; two levels; the words on which a block's states are told apart and two levels;
/// those of the next block and one level; and the last suite.
pub const COUNTER_OF_THREE: Case = Case {
    name: "a counter of three",
    rows: COUNTER,
    extra: 2,
    most: 4,
    ending: Ending::Found(3, 1),
    batches: 11,
    lengths: &[
        (0, &[1]),
        (1, &[0, 1, 2, 3]),
        (2, &[2]),
        (3, &[2, 4]),
        (4, &[3, 5]),
        (5, &[1, 2, 3]),
        (6, &[3, 4]),
        (7, &[3, 5]),
        (8, &[2, 3]),
        (9, &[3, 5]),
        (10, COUNTER_SUITE),
    ],
    discriminators: &[1, 2],
    ..TREE
};

/// All batches of the four states' learning but the three long suites.
const FOUR_BATCHES: &[(usize, &[&[u16]])] = &[
    (0, &[&[A], &[B]]),
    (1, &[&[], &[A], &[B], &[A, A], &[A, B], &[B, A], &[B, B]]),
    (2, &[&[A]]),
    (
        3,
        &[&[A], &[A, A], &[B, A], &[B, A, A], &[B, B], &[B, B, A]],
    ),
    (4, &[&[A], &[B, A]]),
    (
        5,
        &[&[A], &[A, A], &[B, A], &[B, A, A], &[B, B], &[B, B, A]],
    ),
    (7, &[&[A, A]]),
    (8, &[&[A, A], &[A, A, A], &[A, B], &[A, B, A]]),
    (9, &[&[A, A], &[A, A, A]]),
    (11, &[&[B, B, A]]),
    (12, &[&[A, A, B, A]]),
    (
        13,
        &[
            &[B, A],
            &[B, A, B, A],
            &[B, B],
            &[B, B, B, A],
            &[A, B],
            &[A, B, B, A],
            &[A, A, A],
            &[A, A, A, A],
            &[A, A, B],
            &[A, A, B, A],
        ],
    ),
    (
        14,
        &[&[A, A, A], &[A, A, A, B, A], &[A, A, B], &[A, A, B, A, A]],
    ),
    (15, &[&[B, B, A], &[A, A, B, A]]),
    (
        16,
        &[
            &[B, A],
            &[B, A, B, A],
            &[B, B],
            &[B, B, B, A],
            &[A, B],
            &[A, B, B, A],
            &[A, A, A],
            &[A, A, A, B, A],
        ],
    ),
];

const FIVE_STATES: Rows = &[
    &[(1, 0), (2, 1)],
    &[(3, 0), (1, 0)],
    &[(3, 0), (0, 0)],
    &[(0, 0), (4, 0)],
    &[(0, 1), (0, 0)],
];

static CASES: [Case; 5] = [
    COUNTER_OF_THREE,
    // The third state is needed on the first level after the split.
    Case {
        name: "two states are too few for it",
        rows: COUNTER,
        extra: 2,
        most: 2,
        ending: Ending::Crowd(&[0, 1, 2]),
        batches: 4,
        ..TREE
    },
    // Three refinements, each followed by a settling. The first is by b a, the second by a a a, the third by a a b a.
    Case {
        name: "a machine of four states",
        rows: FOUR_STATES,
        ending: Ending::Found(4, 3),
        batches: 18,
        words: FOUR_BATCHES,
        discriminators: &[1, 2, 2],
        ..TREE
    },
    // The fifth state comes while a block is settled. Where there may be only four, that settling stops with the
    // pairwise apart words.
    Case {
        name: "a state comes while a block is settled",
        rows: FIVE_STATES,
        ending: Ending::FoundOf(5),
        batches: 20,
        ..TREE
    },
    Case {
        name: "a crowd while a block is settled",
        rows: FIVE_STATES,
        most: 4,
        ending: Ending::CrowdOf(5),
        batches: 16,
        ..TREE
    },
];

static ORDERS: [Case; 4] = [
    // Both letters part the first block: the first one is taken.
    Case {
        name: "letters are tried in order",
        rows: &[&[(1, 1), (1, 1)], &[(0, 0), (1, 0)], &[(2, 0), (1, 1)]],
        batches: 7,
        words: &[(4, &[&[A], &[A, A]])],
        ..TREE
    },
    // There are two blocks: that of the least state is taken first.
    Case {
        name: "blocks are tried by their least state",
        rows: &[
            &[(2, 1), (3, 0)],
            &[(3, 0), (2, 0)],
            &[(1, 1), (1, 0)],
            &[(2, 0), (1, 0)],
        ],
        batches: 18,
        words: &[
            (13, &[&[A, A], &[A, A, A]]),
            (15, &[&[B, A, A], &[B, B, A, A]]),
        ],
        ..TREE
    },
    // A block of three states: the word is that of the lowest node above all three targets.
    Case {
        name: "all targets tell the word",
        rows: &[
            &[(4, 0), (2, 0)],
            &[(2, 1), (4, 0)],
            &[(3, 0), (4, 1)],
            &[(2, 0), (3, 0)],
            &[(1, 0), (1, 0)],
        ],
        batches: 26,
        words: &[(20, &[&[A, B], &[A, A, B], &[B, A, A, B]])],
        ..TREE
    },
    // Two states come on one level: they are numbered in the order of their transitions.
    Case {
        name: "states of a level are numbered in order",
        rows: &[
            &[(1, 1), (2, 1)],
            &[(0, 1), (1, 1)],
            &[(3, 0), (3, 0)],
            &[(1, 1), (2, 0)],
        ],
        batches: 17,
        words: &[(
            9,
            &[
                &[A, A],
                &[A, A, B, A],
                &[A, B],
                &[A, B, B, A],
                &[B, A, A],
                &[B, A, A, A],
                &[B, A, B],
                &[B, A, B, A],
            ],
        )],
        ..TREE
    },
];

#[test]
fn trees_go_as_was_worked_out(rt: HostRuntime) {
    all_go(&rt, rt.alloc(), &CASES);
    all_go(&rt, rt.alloc(), &ORDERS);
}

//! Learnings with a table: the batches of closings, of suites, of analyses and of new suffixes, in their order.
use super::cases::{A, B, Case, Ending, PLAIN, Rows, all_go};

/// Each third letter is answered by 1.
pub const COUNTER: Rows = &[&[(1, 0)], &[(2, 0)], &[(0, 1)]];

/// A machine of four states whose learning takes two refinements.
pub const FOUR_STATES: Rows = &[
    &[(1, 1), (2, 0)],
    &[(3, 1), (3, 0)],
    &[(2, 0), (2, 0)],
    &[(3, 0), (1, 0)],
];

/// The lengths of the suite's words for a counter of three with two extra states.
pub const COUNTER_SUITE: &[usize] = &[
    0, 2, 1, 3, 2, 4, 3, 5, 1, 3, 2, 4, 3, 5, 4, 6, 2, 4, 3, 5, 4, 6, 5, 7,
];

/// The first table has one state; the word of three letters of its suite tells it apart, and the suffix of two letters that
/// is cut off it gives two states more.
pub const COUNTER_OF_THREE: Case = Case {
    name: "a counter of three",
    rows: COUNTER,
    extra: 2,
    most: 4,
    ending: Ending::Found(3, 1),
    batches: 7,
    lengths: &[
        (0, &[1, 2]),
        (1, &[0, 1, 2, 3]),
        (2, &[2]),
        (3, &[2, 3]),
        (4, &[3, 4]),
        (5, &[4, 5]),
        (6, COUNTER_SUITE),
    ],
    ..PLAIN
};

static OF_ONE_LETTER: [Case; 5] = [
    Case {
        name: "a machine of one state",
        rows: &[&[(0, 0)]],
        most: 4,
        ending: Ending::Found(1, 0),
        batches: 2,
        lengths: &[(0, &[1, 2]), (1, &[0, 1, 2])],
        ..PLAIN
    },
    COUNTER_OF_THREE,
    Case {
        name: "two states are too few for it",
        rows: COUNTER,
        extra: 2,
        most: 2,
        ending: Ending::Crowd(&[0, 1, 2]),
        batches: 5,
        ..PLAIN
    },
    // A word that was asked before the learning tells the first table's machine apart, so no suite is settled then.
    Case {
        name: "what is known comes before the suite",
        rows: COUNTER,
        known: 3,
        extra: 0,
        most: 4,
        ending: Ending::FoundOf(3),
        batches: 7,
        lengths: &[
            (1, &[1, 2]),
            (2, &[2]),
            (3, &[2, 3]),
            (6, &[0, 2, 1, 3, 1, 3, 2, 4, 2, 4, 3, 5]),
        ],
        ..PLAIN
    },
    // Of the words that are known and tell the machine apart the least is taken.
    Case {
        name: "the least known word comes first",
        rows: COUNTER,
        known: 6,
        extra: 0,
        most: 4,
        batches: 7,
        lengths: &[(2, &[2])],
        ..PLAIN
    },
];

static OF_MORE_LETTERS: [Case; 2] = [
    // The second suite has a a b a a as the first word on which the machine differs, and it differs at the fourth letter: the
    // word is cut to its prefix. A new suffix is asked of the rows by number, whatever the length of their words, and
    // an access word's cells stand where its word is an extension.
    Case {
        name: "a word of the suite is cut to its front, and cells are asked row by row",
        rows: FOUR_STATES,
        ending: Ending::Found(4, 2),
        batches: 12,
        words: &[
            (1, &[&[B, A, A], &[B, A, B], &[B, B, A], &[B, B, B]]),
            (3, &[&[A, A]]),
            (
                4,
                &[
                    &[A, A],
                    &[A, A, A],
                    &[B, A, A],
                    &[B, A, A, A],
                    &[B, B, A, A],
                ],
            ),
            (
                5,
                &[
                    &[A, A, A],
                    &[A, A, B],
                    &[A, A, A, A],
                    &[A, B, A],
                    &[A, B, B],
                    &[A, B, A, A],
                ],
            ),
            (7, &[&[B, B, A]]),
            (8, &[&[A, A, B, A]]),
            (
                9,
                &[
                    &[B, A],
                    &[A, B, A],
                    &[B, B, A],
                    &[B, A, B, A],
                    &[B, B, B, A],
                    &[A, A, B, A],
                    &[A, B, B, A],
                ],
            ),
            (
                10,
                &[
                    &[A, A, A, A],
                    &[A, A, A, B],
                    &[A, A, A, A, A],
                    &[A, A, A, B, A],
                    &[A, A, B, A],
                    &[A, A, B, B],
                    &[A, A, B, A, A],
                    &[A, A, B, B, A],
                ],
            ),
        ],
        ..PLAIN
    },
    // Of 25 letters and four extra states a suite is too large even for one state: 1 + 25 + .. + 25^5.
    Case {
        name: "a suite that is too large",
        outputs: 1,
        rows: &[&[(0, 0); 25]],
        extra: 4,
        most: 4,
        ending: Ending::TooLarge(1, 10_172_526),
        batches: 1,
        ..PLAIN
    },
];

#[test]
fn tables_go_as_was_worked_out(rt: HostRuntime) {
    all_go(&rt, rt.alloc(), &OF_ONE_LETTER);
    all_go(&rt, rt.alloc(), &OF_MORE_LETTERS);
}

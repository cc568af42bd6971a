//! Suites of more than one chunk: after each chunk the difference is looked for, and the chunks behind it aren't settled.
use super::cases::{Case, Ending, PLAIN, all_go};

/// A counter over four letters: each time that the first letter has come three times it is answered 1. The others do nothing.
const OF_THE_FIRST: Case = Case {
    name: "a difference in the first chunk",
    rows: &[
        &[(1, 0), (0, 0), (0, 0), (0, 0)],
        &[(2, 0), (1, 0), (1, 0), (1, 0)],
        &[(0, 1), (2, 0), (2, 0), (2, 0)],
    ],
    extra: 4,
    most: 1,
    ending: Ending::CrowdOf(2),
    batches: 4,
    words: &[(2, &[&[0, 0]])],
    sizes: &[20, 512, 1, 5],
    ..PLAIN
};

/// The same of the second letter and five times.
const OF_THE_SECOND: Case = Case {
    name: "a difference in the second chunk",
    rows: &[
        &[(0, 0), (1, 0), (0, 0), (0, 0)],
        &[(1, 0), (2, 0), (1, 0), (1, 0)],
        &[(2, 0), (3, 0), (2, 0), (2, 0)],
        &[(3, 0), (4, 0), (3, 0), (3, 0)],
        &[(4, 0), (0, 1), (4, 0), (4, 0)],
    ],
    extra: 4,
    most: 1,
    ending: Ending::CrowdOf(2),
    batches: 6,
    words: &[(3, &[&[1, 1, 1]]), (4, &[&[1, 1, 1, 1]])],
    sizes: &[20, 512, 512, 1, 1, 5],
    ..PLAIN
};

static CASES: [Case; 2] = [OF_THE_FIRST, OF_THE_SECOND];

/// The suite has 1,365 words. The first a a a stands in its first chunk, the word b b b b b in its second one.
#[test]
fn chunks_behind_a_difference_are_not_settled(rt: HostRuntime) {
    all_go(&rt, rt.alloc(), &CASES);
}

//! What a watcher is told of learnings of the counter of three with two extra states.
use super::cases::{Case, all_go};
use super::{tables, trees};
use lw_rounds::{Phase, Step};

/// The words of one and of two letters close the first table. Of the suite the word of three is new, and tells the machine
/// apart; that refinement brings the words of four and of five letters; and the last suite those of six and of seven.
const WITH_A_TABLE: &[Step] = &[
    Step {
        round: 0,
        phase: Phase::Table,
        states: 1,
        asked: 2,
        known: 2,
        refinements: 0,
    },
    Step {
        round: 1,
        phase: Phase::Suite,
        states: 1,
        asked: 1,
        known: 3,
        refinements: 0,
    },
    Step {
        round: 1,
        phase: Phase::Analysis,
        states: 3,
        asked: 2,
        known: 5,
        refinements: 1,
    },
    Step {
        round: 2,
        phase: Phase::Suite,
        states: 3,
        asked: 2,
        known: 7,
        refinements: 1,
    },
];

/// A tree is closed by the word of one letter, and the first suite brings those of two and of three. Two rounds settle a block
/// each, by words that are known.
const WITH_A_TREE: &[Step] = &[
    Step {
        round: 0,
        phase: Phase::Table,
        states: 1,
        asked: 1,
        known: 1,
        refinements: 0,
    },
    Step {
        round: 1,
        phase: Phase::Suite,
        states: 1,
        asked: 2,
        known: 3,
        refinements: 0,
    },
    Step {
        round: 1,
        phase: Phase::Analysis,
        states: 3,
        asked: 2,
        known: 5,
        refinements: 1,
    },
    Step {
        round: 2,
        phase: Phase::Settling,
        states: 3,
        asked: 0,
        known: 5,
        refinements: 1,
    },
    Step {
        round: 3,
        phase: Phase::Settling,
        states: 3,
        asked: 0,
        known: 5,
        refinements: 1,
    },
    Step {
        round: 4,
        phase: Phase::Suite,
        states: 3,
        asked: 2,
        known: 7,
        refinements: 1,
    },
];

static CASES: [Case; 2] = [
    Case {
        steps: WITH_A_TABLE,
        ..tables::COUNTER_OF_THREE
    },
    Case {
        steps: WITH_A_TREE,
        ..trees::COUNTER_OF_THREE
    },
];

#[test]
fn each_step_is_told(rt: HostRuntime) {
    all_go(&rt, rt.alloc(), &CASES);
}

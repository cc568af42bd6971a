//! Identification sets, Wp-suites and suites of the H-method worked by hand, and drawn machines beside the plain body.
ghost use Rattle.std.specs.Prelude.{◌≤◌};
ghost use Rattle.lw_mealy.specs.Machine.{IsMinimal};

mod plain;

use crate::tests::suite::{drawn, gather, same};
use crate::tests::{machine, of_one_state, rows, word};
use lw_chunks::SuiteFault;
use lw_mealy::Mealy;
use lw_separate::canonical;
use lw_words::Words;
use lw_wp::{
    HSuite, WpSuite, greedy_suite_exists, greedy_suite_is_h_suite, greedy_suite_is_of_words,
    greedy_suite_is_unique, identification, identification_identifies, identification_is_unique,
    wp_suite_exists, wp_suite_is_counted, wp_suite_is_h_suite, wp_suite_is_of_words,
    wp_suite_is_unique, wp_suite_tells,
};
use std::alloc::Global;
use std::process::Abort;

/// A machine of three states over two letters, whose separating words are its letters.
const THREE: &[&[(u16, u16)]] = &[&[(1, 0), (2, 0)], &[(1, 1), (0, 0)], &[(0, 0), (0, 1)]];

/// Another one, where the second letter leads from state 1 to state 2, which is told from it by another word.
const ONWARD: &[&[(u16, u16)]] = &[&[(1, 0), (2, 0)], &[(1, 1), (2, 0)], &[(0, 0), (0, 1)]];

/// The canonical machine over two letters with these cells.
fn of_cells(rt: &impl Abort, alloc: Global, cells: &[&[(u16, u16)]]) -> Mealy
    ensures { IsMinimal result.inputs result.rows }
{
    let m = machine(rt, alloc, 2, 2, rows(rt, alloc, cells));
    canonical(alloc, &m).expect(rt, "memory")
}

/// The list of these words.
fn words(rt: &impl Abort, alloc: Global, all: &[&[u16]]) -> Words {
    let mut list = Words::new(alloc);
    for letters in all {
        assert!(rt; list.push(word(rt, alloc, *letters)).is_ok(), "memory");
    }
    list
}

/// Whether these words are the identification set of a state.
fn identifies(rt: &impl Abort, alloc: Global, m: &Mealy, state: u16, all: &[&[u16]]) -> bool
    requires { IsMinimal m.now.inputs m.now.rows }
{
    assert!(rt; state < m.states());
    let set = identification(alloc, m, state).expect(rt, "memory");
    same(&set, &words(rt, alloc, all))
}

/// The chunks of a minimal machine's Wp-suite, one after the other.
fn all_words(rt: &impl Abort, alloc: Global, m: &Mealy, extra: u8, sizes: &mut Vec<usize>) -> Words
    requires minimal { IsMinimal m.now.inputs m.now.rows }
    requires few { extra ≤ 4 }
{
    let mut suite = WpSuite::new(alloc, m, extra).expect(rt, "a suite");
    gather(rt, alloc, &mut suite, sizes)
}

/// The chunks of a minimal machine's suite of the H-method, one after the other.
fn all_h_words(
    rt: &impl Abort,
    alloc: Global,
    m: &Mealy,
    extra: u8,
    sizes: &mut Vec<usize>,
) -> Words
    requires minimal { IsMinimal m.now.inputs m.now.rows }
    requires few { extra ≤ 4 }
{
    let mut suite = HSuite::new(alloc, m, extra).expect(rt, "a suite");
    gather(rt, alloc, &mut suite, sizes)
}

/// The Wp-suite of the three states for no extra state, by access word; that of the H-method has the same words.
const WORKED: &[&[u16]] = &[
    &[],
    &[0],
    &[1],
    &[0],
    &[0, 0],
    &[0, 1],
    &[1],
    &[1, 0],
    &[1, 1],
    &[0],
    &[0, 0],
    &[1],
    &[1, 1],
    &[0, 0],
    &[0, 0, 0],
    &[0, 1],
    &[0, 1, 0],
    &[0, 1, 1],
    &[1, 0],
    &[1, 0, 0],
    &[1, 0, 1],
    &[1, 1],
    &[1, 1, 0],
    &[1, 1, 1],
];

/// The H-method's suite of the other three states for one extra state. Behind a middle word of one letter stand both letters
/// where it leads to state 0 or 1, and the second where it leads to 2; behind one of two letters both where it leads to state
/// 0, the first where it leads to 1, and the second where it leads to 2.
const ONWARD_WORKED: &[&[u16]] = &[
    &[],
    &[0],
    &[1],
    &[0],
    &[0, 0],
    &[0, 1],
    &[1],
    &[1, 1],
    &[0],
    &[0, 0],
    &[0, 1],
    &[0, 0],
    &[0, 0, 0],
    &[0, 0, 1],
    &[0, 1],
    &[0, 1, 1],
    &[1],
    &[1, 0],
    &[1, 1],
    &[1, 0],
    &[1, 0, 0],
    &[1, 0, 1],
    &[1, 1],
    &[1, 1, 0],
    &[1, 1, 1],
    &[0, 0],
    &[0, 0, 0],
    &[0, 1],
    &[0, 1, 1],
    &[1, 0],
    &[1, 0, 0],
    &[1, 0, 1],
    &[1, 1],
    &[1, 1, 0],
    &[1, 1, 1],
    &[0, 0, 0],
    &[0, 0, 0, 0],
    &[0, 0, 1],
    &[0, 0, 1, 1],
    &[0, 1, 0],
    &[0, 1, 0, 0],
    &[0, 1, 0, 1],
    &[0, 1, 1],
    &[0, 1, 1, 0],
    &[0, 1, 1, 1],
    &[1, 0, 0],
    &[1, 0, 0, 0],
    &[1, 0, 1],
    &[1, 0, 1, 1],
    &[1, 1, 0],
    &[1, 1, 0, 0],
    &[1, 1, 1],
    &[1, 1, 1, 1],
];

#[test]
fn suites_of_the_h_method_by_hand(rt: HostRuntime) {
    let alloc = rt.alloc();
    let three = of_cells(&rt, alloc, THREE);
    let suite = all_h_words(&rt, alloc, &three, 0, &mut Vec::new(alloc));
    assert!(rt; same(&suite, &words(&rt, alloc, WORKED)));
    let onward = of_cells(&rt, alloc, ONWARD);
    let suite = all_h_words(&rt, alloc, &onward, 1, &mut Vec::new(alloc));
    assert!(rt; same(&suite, &words(&rt, alloc, ONWARD_WORKED)));
}

/// A machine over one letter, whose separating words are one letter and two. State 0 is separated from both others by the first
/// of them, and each of these from both others by the second.
const CIRCLE: &[&[(u16, u16)]] = &[&[(1, 1)], &[(2, 0)], &[(0, 0)]];

/// The lengths of the words of its suite of the H-method for two extra states, by hand.
const CIRCLE_WORKED: &[usize] = &[
    0, 1, 2, 1, 2, 3, 2, 3, 4, 1, 2, 3, 2, 3, 4, 3, 4, 5, 2, 3, 4, 3, 4, 5, 4, 6, 3, 4, 4, 6, 5, 7,
];

#[test]
fn a_suite_of_the_h_method_over_one_letter(rt: HostRuntime) {
    let alloc = rt.alloc();
    let drawn = machine(&rt, alloc, 1, 2, rows(&rt, alloc, CIRCLE));
    let m = canonical(alloc, &drawn).expect(&rt, "memory");
    let suite = all_h_words(&rt, alloc, &m, 2, &mut Vec::new(alloc));
    assert!(rt; suite.len() == CIRCLE_WORKED.len());
    for number in 0..suite.len() {
        assert!(rt; suite.get(number).len() == CIRCLE_WORKED[number]);
    }
}

#[test]
fn one_state_of_the_h_method_in_three_chunks(rt: HostRuntime) {
    let alloc = rt.alloc();
    let m = canonical(alloc, &of_one_state(&rt, alloc, 4)).expect(&rt, "memory");
    let mut sizes = Vec::new(alloc);
    let words = all_h_words(&rt, alloc, &m, 4, &mut sizes);
    assert!(rt; sizes.as_slice() == [512, 512, 341].as_slice());
    assert!(rt; words.len() == 1365);
}

#[test]
fn a_suite_of_the_h_method_that_is_too_large(rt: HostRuntime) {
    let alloc = rt.alloc();
    let m = canonical(alloc, &of_one_state(&rt, alloc, 64)).expect(&rt, "memory");
    let fault = HSuite::new(alloc, &m, 3).err();
    assert!(rt; fault == Some(SuiteFault::TooLarge(17_043_521)));
}

#[test]
fn three_states_by_hand(rt: HostRuntime) {
    let alloc = rt.alloc();
    let m = of_cells(&rt, alloc, THREE);
    assert!(rt; identifies(&rt, alloc, &m, 0, &[&[0], &[1]]));
    assert!(rt; identifies(&rt, alloc, &m, 1, &[&[0]]));
    assert!(rt; identifies(&rt, alloc, &m, 2, &[&[1]]));
    let suite = all_words(&rt, alloc, &m, 0, &mut Vec::new(alloc));
    assert!(rt; same(&suite, &words(&rt, alloc, WORKED)));
}

#[test]
fn one_state_in_three_chunks(rt: HostRuntime) {
    let alloc = rt.alloc();
    let m = canonical(alloc, &of_one_state(&rt, alloc, 4)).expect(&rt, "memory");
    let mut sizes = Vec::new(alloc);
    let words = all_words(&rt, alloc, &m, 4, &mut sizes);
    assert!(rt; sizes.as_slice() == [512, 512, 341].as_slice());
    assert!(rt; words.len() == 1365);
    assert!(rt; words.get(512).as_slice() == [0, 2, 2, 2, 3].as_slice());
}

#[test]
fn a_wp_suite_that_is_too_large(rt: HostRuntime) {
    let alloc = rt.alloc();
    let m = canonical(alloc, &of_one_state(&rt, alloc, 64)).expect(&rt, "memory");
    let fault = WpSuite::new(alloc, &m, 3).err();
    assert!(rt; fault == Some(SuiteFault::TooLarge(17_043_521)));
    assert!(rt; WpSuite::new(alloc, &m, 2).is_ok());
}

/// Whether the Wp-suite of a drawn machine is that of the plain body.
fn is_plain(rt: &impl Abort, alloc: Global, seed: u64, extra: u8) -> bool
    requires { extra ≤ 4 }
{
    let drawn = drawn(rt, alloc, 5, seed);
    let m = canonical(alloc, &drawn).expect(rt, "memory");
    let words = all_words(rt, alloc, &m, extra, &mut Vec::new(alloc));
    same(&words, &plain::wp_suite(rt, alloc, &m, extra))
}

#[test]
fn drawn_machines_beside_the_plain_body_of_wp(rt: HostRuntime) {
    for seed in 0..3 {
        assert!(rt; is_plain(&rt, rt.alloc(), seed, 1));
        assert!(rt; is_plain(&rt, rt.alloc(), seed, 0));
    }
}

#[test]
fn laws_of_wp_have_no_code() {
    identification_is_unique();
    identification_identifies();
    wp_suite_is_unique();
    wp_suite_exists();
    wp_suite_is_of_words();
    wp_suite_is_counted();
    wp_suite_is_h_suite();
    wp_suite_tells();
    greedy_suite_exists();
    greedy_suite_is_h_suite();
    greedy_suite_is_of_words();
    greedy_suite_is_unique();
}

//! Counterexamples worked by hand: the words that are asked, in their order, and the cuts.
mod checked;

use crate::tests::{machine, rows, word};
use checked::split_after;
use lw_cache::Cut;
use lw_mealy::Mealy;
use lw_words::Words;
use std::alloc::Global;
use std::process::Abort;
use test_oracle::Recording;

const A: u16 = 0;

const B: u16 = 1;

/// The words of a list.
fn words(rt: &impl Abort, alloc: Global, list: &[&[u16]]) -> Words {
    let mut words = Words::new(alloc);
    for letters in list {
        let word = word(rt, alloc, *letters);
        assert!(rt; words.push(word).is_ok(), "memory");
    }
    words
}

/// The machine of these rows over so many letters.
fn of_rows(rt: &impl Abort, alloc: Global, inputs: u16, list: &[&[(u16, u16)]]) -> Mealy {
    machine(rt, alloc, inputs, 2, rows(rt, alloc, list))
}

/// A system and a model over so many letters, the words that are known, of which the model differs on the first, and the access
/// words; and what comes: the words that are asked then, one after the other, and the cut.
#[derive(Clone, Copy)]
struct Case {
    inputs: u16,
    system: &'static [&'static [(u16, u16)]],
    model: &'static [&'static [(u16, u16)]],
    known: &'static [&'static [u16]],
    access: &'static [&'static [u16]],
    asked: &'static [&'static [u16]],
    state: u16,
    letter: u16,
    suffix: &'static [u16],
    target: u16,
}

/// The machine that answers 1 to the last letter of a b a b alone.
const LOCK: &[&[(u16, u16)]] = &[
    &[(1, 0), (4, 0)],
    &[(4, 0), (2, 0)],
    &[(3, 0), (4, 0)],
    &[(4, 0), (0, 1)],
    &[(4, 0), (4, 0)],
];

static CASES: [Case; 4] = [
    // the probe in the middle agrees
    Case {
        inputs: 1,
        system: &[&[(1, 0)], &[(2, 0)], &[(0, 1)]],
        model: &[&[(0, 0)]],
        known: &[&[A, A, A]],
        access: &[&[]],
        asked: &[&[A, A]],
        state: 0,
        letter: A,
        suffix: &[A, A],
        target: 0,
    },
    // the search goes both ways: each fourth a is answered 1
    Case {
        inputs: 2,
        system: &[
            &[(1, 0), (0, 0)],
            &[(2, 0), (1, 0)],
            &[(3, 0), (2, 0)],
            &[(0, 1), (3, 0)],
        ],
        model: &[&[(1, 0), (0, 0)], &[(1, 0), (1, 0)]],
        known: &[&[A, B, A, A, B, A], &[A, A], &[B]],
        access: &[&[], &[A]],
        asked: &[&[A, A, B, A], &[A, B, A, A, B, A], &[A, A, A, B, A]],
        state: 1,
        letter: A,
        suffix: &[A, B, A],
        target: 1,
    },
    // the first letter is cut off
    Case {
        inputs: 2,
        system: LOCK,
        model: &[&[(0, 0), (0, 0)]],
        known: &[&[A, B, A, B], &[B]],
        access: &[&[]],
        asked: &[&[A, B], &[B, A, B]],
        state: 0,
        letter: A,
        suffix: &[B, A, B],
        target: 0,
    },
    // the word itself is a probe
    Case {
        inputs: 2,
        system: LOCK,
        model: &[&[(1, 0), (0, 0)], &[(0, 0), (0, 0)]],
        known: &[&[A, B, A, B], &[B], &[A, A]],
        access: &[&[], &[A]],
        asked: &[&[A, B], &[A, B, A, B]],
        state: 1,
        letter: B,
        suffix: &[A, B],
        target: 0,
    },
];

/// Whether these words were asked one by one, behind the batch of the known words.
fn asked_in_turn(oracle: &Recording, words: &[&[u16]]) -> bool {
    let mut each = words.iter().enumerate();
    oracle.batches().len() == words.len() + 1 && each.all(|(i, word)| oracle.asked(i + 1, &[*word]))
}

/// Whether a cut is that of a case.
fn is_cut(cut: &Cut, case: &Case) -> bool {
    let same_suffix = cut.suffix.as_slice() == case.suffix;
    cut.state == case.state && cut.letter == case.letter && same_suffix && cut.target == case.target
}

/// What the model of a case is split by.
fn split(rt: &impl Abort, alloc: Global, oracle: &mut Recording, case: &Case) -> Cut {
    let model = of_rows(rt, alloc, case.inputs, case.model);
    let known = words(rt, alloc, case.known);
    let access = words(rt, alloc, case.access);
    split_after(rt, oracle, alloc, &known, &model, &access)
}

/// Whether a case ends as it says.
fn comes_so(rt: &impl Abort, alloc: Global, case: &Case) -> bool {
    let system = of_rows(rt, alloc, case.inputs, case.system);
    let mut oracle = Recording::new(alloc, system);
    let cut = split(rt, alloc, &mut oracle, case);
    is_cut(&cut, case) && asked_in_turn(&oracle, case.asked)
}

#[test]
fn each_case_comes_so(rt: HostRuntime) {
    for case in &CASES {
        assert!(rt; comes_so(&rt, rt.alloc(), case));
    }
}

//! Verdicts where nothing is kept, and the laws.
ghost use Rattle.std.specs.Prelude.{◌≤◌};

use crate::tests::{of_one_letter, of_one_state};
use lw_apart::{
    covered_or_missing, covers_is_sure, missing_is_uncovered, missing_is_unique, missing_is_unknown,
};
use lw_cache::Cache;
use lw_certify::{
    Verdict, certify, enough_covers, suite_is_enough, suites_are_of_words, sure_is_not_vacuous,
    sure_is_sure, verdict_exists, verdict_is_unique,
};
use lw_chunks::Method;
use lw_mealy::Mealy;
use std::alloc::Global;
use std::process::Abort;

/// The verdict on a machine where nothing is kept.
fn verdict_by(rt: &impl Abort, alloc: Global, m: &Mealy, extra: u8, method: Method) -> Verdict
    requires { extra ≤ 4 }
{
    certify(alloc, m, &Cache::new(alloc), extra, method).expect(rt, "memory")
}

/// The same by the W-method.
fn verdict(rt: &impl Abort, alloc: Global, m: &Mealy, extra: u8) -> Verdict
    requires { extra ≤ 4 }
{
    verdict_by(rt, alloc, m, extra, Method::W)
}

/// The verdict on the machine of these rows over one letter.
fn on_one_letter(rt: &impl Abort, alloc: Global, cells: &[(u16, u16)]) -> Verdict {
    verdict(rt, alloc, &of_one_letter(rt, alloc, cells), 0)
}

/// The verdict on the machine of one state over 64 letters.
fn on_one_state(rt: &impl Abort, alloc: Global, extra: u8) -> Verdict
    requires { extra ≤ 4 }
{
    verdict(rt, alloc, &of_one_state(rt, alloc, 64), extra)
}

/// Whether this word is missing.
fn is_missing(verdict: &Verdict, letters: &[u16]) -> bool {
    match verdict {
        Verdict::Missing(word) => word.as_slice() == letters,
        _ => false,
    }
}

#[test]
fn models_that_nothing_makes_sure(rt: HostRuntime) {
    let alloc = rt.alloc();
    let counter = on_one_letter(&rt, alloc, &[(1, 0), (2, 0), (0, 1)]);
    assert!(rt; is_missing(&counter, &[0, 0]), "the counter needs answers");
    let unreached = on_one_letter(&rt, alloc, &[(0, 0), (0, 1)]);
    assert!(rt;
        matches!(unreached, Verdict::Unreached(1)),
        "nothing leads to state 1"
    );
    let alike = on_one_letter(&rt, alloc, &[(1, 0), (0, 0)]);
    assert!(rt;
        matches!(alike, Verdict::Alike(0, 1)),
        "the states are alike"
    );
    let large = on_one_state(&rt, alloc, 3);
    assert!(rt;
        matches!(large, Verdict::TooLarge(17_043_521)),
        "the suite is too large"
    );
    let small = on_one_state(&rt, alloc, 2);
    assert!(rt;
        is_missing(&small, &[0]),
        "answers to single letters are missing"
    );
}

#[test]
fn words_that_are_missing_by_each_method(rt: HostRuntime) {
    let alloc = rt.alloc();
    let counter = of_one_letter(&rt, alloc, &[(1, 0), (2, 0), (0, 1)]);
    let by_wp = verdict_by(&rt, alloc, &counter, 0, Method::Wp);
    assert!(rt; is_missing(&by_wp, &[0, 0]), "its one separating word");
    let by_h = verdict_by(&rt, alloc, &counter, 0, Method::H);
    assert!(rt;
        is_missing(&by_h, &[0]),
        "the first word that is to be known"
    );
}

#[test]
fn laws_of_the_certificate_have_no_code() {
    covers_is_sure();
    missing_is_unknown();
    missing_is_unique();
    missing_is_uncovered();
    covered_or_missing();
    enough_covers();
    suite_is_enough();
    suites_are_of_words();
    sure_is_sure();
    sure_is_not_vacuous();
    verdict_is_unique();
    verdict_exists();
}

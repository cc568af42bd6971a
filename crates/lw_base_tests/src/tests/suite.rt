//! Suites worked by hand, their chunks, and drawn machines beside the plain body.
ghost use Rattle.std.specs.Prelude.{◌≤◌};

pub(super) mod plain;

use crate::tests::{machine, of_one_letter, of_one_state};
use lw_chunks::{Chunks, SuiteFault, suite_size};
use lw_mealy::Mealy;
use lw_separate::canonical;
use lw_suite::{Suite, suite_exists, suite_is_of_words, suite_is_unique};
use lw_words::{Word, Words};
use rand_core::SeedableRng;
use rand_core::utils::NextWord;
use rand_pcg::Lcg128Xsl64;
use std::alloc::Global;
use std::process::Abort;

/// Puts copies of a chunk's words behind a list.
fn put_all(rt: &impl Abort, all: &mut Words, chunk: &[Word]) {
    for word in chunk {
        plain::put(rt, all, word.copy().expect(rt, "memory"));
    }
}

/// The chunks of a suite, one after the other.
pub(super) fn gather(
    rt: &impl Abort,
    alloc: Global,
    suite: &mut impl Chunks,
    sizes: &mut Vec<usize>,
) -> Words {
    let mut all = Words::new(alloc);
    let mut chunk = Vec::new(alloc);
    for _ in 0..40 {
        if !suite.next_chunk(&mut chunk).expect(rt, "memory") {
            return all;
        }
        sizes.push(chunk.len()).expect(rt, "memory");
        put_all(rt, &mut all, &chunk);
    }
    rt.panic("the suite doesn't end")
}

/// The suite of a machine's canonical form.
fn suite_of(rt: &impl Abort, alloc: Global, m: &Mealy, extra: u8) -> Suite
    requires { extra ≤ 4 }
{
    let canonical = canonical(alloc, m).expect(rt, "memory");
    Suite::new(alloc, &canonical, extra).expect(rt, "a suite")
}

/// The chunks of that suite, one after the other.
fn all_words(rt: &impl Abort, alloc: Global, m: &Mealy, extra: u8, sizes: &mut Vec<usize>) -> Words
    requires { extra ≤ 4 }
{
    let mut suite = suite_of(rt, alloc, m, extra);
    gather(rt, alloc, &mut suite, sizes)
}

/// The words of that suite.
fn words_of(rt: &impl Abort, alloc: Global, m: &Mealy, extra: u8) -> Words
    requires { extra ≤ 4 }
{
    all_words(rt, alloc, m, extra, &mut Vec::new(alloc))
}

#[test]
fn a_suite_in_three_chunks(rt: HostRuntime) {
    let alloc = rt.alloc();
    let mut sizes = Vec::new(alloc);
    let words = all_words(&rt, alloc, &of_one_state(&rt, alloc, 4), 4, &mut sizes);
    assert!(rt; sizes.as_slice() == [512, 512, 341].as_slice());
    assert!(rt; words.len() == 1365);
    assert!(rt; words.get(512).as_slice() == [0, 2, 2, 2, 3].as_slice());
    assert!(rt; words.get(1024).as_slice() == [2, 2, 2, 2, 3].as_slice());
}

#[test]
fn laws_have_no_code() {
    suite_is_unique();
    suite_exists();
    suite_is_of_words();
}

/// Whether the words of a suite have so many letters.
fn has_lengths(rt: &impl Abort, alloc: Global, m: &Mealy, extra: u8, lengths: &[usize]) -> bool
    requires { extra ≤ 4 }
{
    let words = words_of(rt, alloc, m, extra);
    let mut each = words.as_slice().iter().zip(lengths);
    words.len() == lengths.len() && each.all(|(word, len)| word.len() == *len)
}

#[test]
fn suites_over_one_letter(rt: HostRuntime) {
    let alloc = rt.alloc();
    let counter = of_one_letter(&rt, alloc, &[(1, 0), (2, 0), (0, 1)]);
    let counted = [0, 2, 1, 3, 1, 3, 2, 4, 2, 4, 3, 5];
    assert!(rt; has_lengths(&rt, alloc, &counter, 0, &counted));
    let one = of_one_state(&rt, alloc, 1);
    assert!(rt; has_lengths(&rt, alloc, &one, 2, &[0, 1, 2, 3]));
}

#[test]
fn a_suite_that_is_too_large(rt: HostRuntime) {
    let alloc = rt.alloc();
    let one = of_one_state(&rt, alloc, 64);
    let m = canonical(alloc, &one).expect(&rt, "memory");
    let fault = Suite::new(alloc, &m, 3).err();
    assert!(rt; fault == Some(SuiteFault::TooLarge(17_043_521)));
    assert!(rt; Suite::new(alloc, &m, 2).is_ok());
    assert!(rt; (suite_size(1, 64, 2), suite_size(200, 4, 1)) == (266_305, 840_000));
}

/// A drawn machine over two letters.
pub(super) fn drawn(rt: &impl Abort, alloc: Global, states: u16, seed: u64) -> Mealy {
    let mut numbers = Lcg128Xsl64::seed_from_u64(seed);
    let mut rows = Vec::new(alloc);
    for _ in 0..states {
        let mut row = Vec::new(alloc);
        for _ in 0..2 {
            let target = (numbers.next_word() % u64::from(states)) as u16;
            let output = (numbers.next_word() % 2) as u16;
            row.push((target, output)).expect(rt, "memory");
        }
        rows.push(row).expect(rt, "memory");
    }
    machine(rt, alloc, 2, 2, rows)
}

/// Whether two lists have the same words.
pub(super) fn same(words: &Words, others: &Words) -> bool {
    let mut each = words.as_slice().iter().zip(others.as_slice());
    words.len() == others.len() && each.all(|(word, other)| word.as_slice() == other.as_slice())
}

/// Whether the suite of a drawn machine is that of the plain body.
fn is_plain(rt: &impl Abort, alloc: Global, seed: u64) -> bool {
    let m = drawn(rt, alloc, 4, seed);
    let words = words_of(rt, alloc, &m, 1);
    same(&words, &plain::suite(rt, alloc, &m, 1))
}

#[test]
fn drawn_machines_beside_the_plain_body(rt: HostRuntime) {
    for seed in 0..3 {
        assert!(rt; is_plain(&rt, rt.alloc(), seed));
    }
}

//! The suite as one list, made level by level.
ghost use Rattle.lw_mealy.specs.Machine.{IsMinimal};

use lw_mealy::Mealy;
use lw_separate::{canonical, least_access, separators};
use lw_words::{Word, Words, join};
use std::alloc::Global;
use std::process::Abort;

pub(in crate::tests) fn put(rt: &impl Abort, words: &mut Words, word: Word) {
    assert!(rt; words.push(word).is_ok(), "memory");
}

/// Each word of a list with each letter behind it.
pub(in crate::tests) fn longer(
    rt: &impl Abort,
    alloc: Global,
    words: &Words,
    inputs: u16,
) -> Words {
    let mut all = Words::new(alloc);
    for word in words.as_slice() {
        for letter in 0..inputs {
            let mut next = word.copy().expect(rt, "memory");
            next.push(letter).expect(rt, "memory");
            put(rt, &mut all, next);
        }
    }
    all
}

/// Puts copies of words behind a list.
fn put_copies(rt: &impl Abort, all: &mut Words, words: &Words) {
    for word in words.as_slice() {
        put(rt, all, word.copy().expect(rt, "memory"));
    }
}

/// The words of at most so many letters.
pub(in crate::tests) fn middles(rt: &impl Abort, alloc: Global, inputs: u16, longest: u8) -> Words {
    let mut all = Words::new(alloc);
    let mut level = Words::new(alloc);
    put(rt, &mut level, Word::new(alloc));
    for _ in 0..=longest {
        put_copies(rt, &mut all, &level);
        level = longer(rt, alloc, &level, inputs);
    }
    all
}

/// A word with the empty word, then with each of a list.
pub(in crate::tests) fn with_ends(rt: &impl Abort, all: &mut Words, front: &Word, ends: &Words) {
    put(rt, all, front.copy().expect(rt, "memory"));
    for end in ends.as_slice() {
        put(rt, all, join(front, end).expect(rt, "memory"));
    }
}

/// A word with each middle behind it, and each end behind that.
fn behind(rt: &impl Abort, all: &mut Words, access: &Word, middles: &Words, ends: &Words) {
    for middle in middles.as_slice() {
        let front = join(access, middle).expect(rt, "memory");
        with_ends(rt, all, &front, ends);
    }
}

/// The whole suite of a machine that is canonical.
pub(in crate::tests) fn suite_of(
    rt: &impl Abort,
    alloc: Global,
    m: &Mealy,
    middles: &Words,
) -> Words
    requires { IsMinimal m.now.inputs m.now.rows }
{
    let ends = separators(alloc, m).expect(rt, "memory");
    let least = least_access(alloc, m).expect(rt, "memory");
    let mut all = Words::new(alloc);
    for access in least.as_slice() {
        behind(rt, &mut all, access, middles, &ends);
    }
    all
}

/// The whole suite of a machine's canonical form.
pub(super) fn suite(rt: &impl Abort, alloc: Global, m: &Mealy, extra: u8) -> Words {
    let middles = middles(rt, alloc, m.inputs(), extra.saturating_add(1));
    let canonical = canonical(alloc, m).expect(rt, "memory");
    suite_of(rt, alloc, &canonical, &middles)
}

//! Where a machine differs first: at the shortest word, and of equally long ones at the first by its letters.
ghost use Rattle.std.specs.Prelude.{◌≡◌, [], true};
ghost use Rattle.std.specs.List.{All};
ghost use Rattle.lw_words.specs.Word.{answers_of, IsWord};

use super::word;
use lw_cache::Cache;
use lw_mealy::Mealy;
use lw_words::Word;
use std::alloc::Global;
use std::process::Abort;

/// Answers, and the first word on which the machine that answers each letter with its number differs from them, if any.
struct Case {
    answers: &'static [(&'static [u16], &'static [u16])],
    first: Option<&'static [u16]>,
}

static CASES: [Case; 9] = [
    // The machine differs nowhere.
    Case {
        answers: &[(&[0, 1, 0], &[0, 1, 0])],
        first: None,
    },
    // It differs twice.
    Case {
        answers: &[(&[0, 1, 0, 0], &[0, 0, 0, 1])],
        first: Some(&[0, 1]),
    },
    // Of words of one length the first different letter decides, not the last, in either order of the answers.
    Case {
        answers: &[(&[1, 0], &[1, 1]), (&[0, 1], &[0, 0])],
        first: Some(&[0, 1]),
    },
    Case {
        answers: &[(&[0, 1], &[0, 0]), (&[1, 0], &[1, 1])],
        first: Some(&[0, 1]),
    },
    // The words part at their last letter.
    Case {
        answers: &[(&[1, 0, 1], &[1, 0, 0]), (&[1, 0, 0], &[1, 0, 1])],
        first: Some(&[1, 0, 0]),
    },
    // A shorter word is before a longer one, whose letters are before it, in either order.
    Case {
        answers: &[(&[0, 0, 0], &[0, 0, 1]), (&[1, 1], &[1, 0])],
        first: Some(&[1, 1]),
    },
    Case {
        answers: &[(&[1, 1], &[1, 0]), (&[0, 0, 0], &[0, 0, 1])],
        first: Some(&[1, 1]),
    },
    // Below the first difference there are more.
    Case {
        answers: &[(&[0, 0, 1], &[1, 1, 0])],
        first: Some(&[0]),
    },
    // Of three ties the first is neither the first nor the last that is found.
    Case {
        answers: &[
            (&[1, 0, 1], &[1, 0, 0]),
            (&[0, 1, 1], &[0, 1, 0]),
            (&[1, 1, 0], &[1, 1, 1]),
        ],
        first: Some(&[0, 1, 1]),
    },
];

/// The machine of one state that answers each of two letters with its number.
fn echo(rt: &impl Abort, alloc: Global) -> Mealy
    ensures { result.inputs ≡ 2 }
{
    let row = vec![in alloc; (0u16, 0u16), (0, 1)].expect(rt, "memory");
    let rows = vec![in alloc; row].expect(rt, "memory");
    Mealy::new(alloc, 2, 2, rows).expect(rt, "a machine")
}

/// Whether all letters are 0 or 1.
fn are_of_two(letters: &[u16]) -> bool
    ensures { result ≡ true → IsWord 2 letters.now }
{
    for letter in letters {
        if *letter >= 2 {
            return false;
        }
    }
    true
}

/// Keeps an answer over the letters 0 and 1.
fn keep(rt: &impl Abort, cache: &mut Cache, word: Word, outs: Word)
    requires claims { cache.old.claims ≡ [] }
    requires letters { All (λ k. IsWord 2 k.word) (answers_of cache.old.kept) }
    ensures claims { cache.new.claims ≡ [] }
    ensures letters { All (λ k. IsWord 2 k.word) (answers_of cache.new.kept) }
{
    assert!(rt; outs.len() == word.len() && are_of_two(word.as_slice()));
    assert!(rt; cache.keep(word, outs, 0, 0).is_ok());
}

/// A cache that keeps these answers.
fn keeps(rt: &impl Abort, alloc: Global, answers: &[(&[u16], &[u16])]) -> Cache
    ensures { All (λ k. IsWord 2 k.word) (answers_of result.kept) }
{
    let mut cache = Cache::new(alloc);
    for (letters, outs) in answers {
        keep(
            rt,
            &mut cache,
            word(rt, alloc, letters),
            word(rt, alloc, outs),
        );
    }
    cache
}

/// Whether the first word on which the machine differs is this one, or it differs nowhere.
fn is_first(rt: &impl Abort, cache: &Cache, m: &Mealy, word: Option<&[u16]>) -> bool
    requires inputs { m.now.inputs ≡ 2 }
    requires letters { All (λ k. IsWord 2 k.word) (answers_of cache.now.kept) }
{
    match cache.against(m).expect(rt, "memory") {
        Some(first) => word == Some(first.as_slice()),
        None => word.is_none(),
    }
}

/// Whether the machine differs first as a case says.
fn goes(rt: &impl Abort, alloc: Global, m: &Mealy, case: &Case) -> bool
    requires { m.now.inputs ≡ 2 }
{
    let cache = keeps(rt, alloc, case.answers);
    is_first(rt, &cache, m, case.first)
}

#[test]
fn the_first_of_several_differences(rt: HostRuntime) {
    let m = echo(&rt, rt.alloc());
    for case in &CASES {
        assert!(rt; goes(&rt, rt.alloc(), &m, case));
    }
}

/// A word of this length: the first letter, then letter 0, and from a place on letter `last`.
fn level(rt: &impl Abort, alloc: Global, first: u16, len: usize, place: usize, last: u16) -> Word {
    let mut letters = Vec::with_capacity(alloc, len).expect(rt, "memory");
    for i in 0..len {
        let later = if i < place { 0 } else { last };
        let letter = if i == 0 { first } else { later };
        letters.push(letter).expect(rt, "memory");
    }
    Word::from_letters(alloc, letters)
}

/// Keeps an answer to the word of this length that begins with `first`, from which the machine differs at each letter from a
/// place on.
fn keep_level(
    rt: &impl Abort,
    alloc: Global,
    cache: &mut Cache,
    first: u16,
    len: usize,
    place: usize,
)
    requires claims { cache.old.claims ≡ [] }
    requires letters { All (λ k. IsWord 2 k.word) (answers_of cache.old.kept) }
    ensures claims { cache.new.claims ≡ [] }
    ensures letters { All (λ k. IsWord 2 k.word) (answers_of cache.new.kept) }
{
    let word = level(rt, alloc, first, len, len, 0);
    let outs = level(rt, alloc, first, len, place, 1);
    keep(rt, cache, word, outs);
}

/// A cache with answers to two words of this length, which part at their first letter. The machine differs from both at
/// each letter from a place on, which isn't the first.
fn keeps_long(rt: &impl Abort, alloc: Global, len: usize, place: usize) -> Cache
    ensures { All (λ k. IsWord 2 k.word) (answers_of result.kept) }
{
    let mut cache = Cache::new(alloc);
    keep_level(rt, alloc, &mut cache, 1, len, place);
    keep_level(rt, alloc, &mut cache, 0, len, place);
    cache
}

/// Whether the first difference is the prefix of the word that begins with 0, up to a place.
fn is_front(rt: &impl Abort, alloc: Global, cache: &Cache, len: usize, place: usize) -> bool
    requires { All (λ k. IsWord 2 k.word) (answers_of cache.now.kept) }
{
    let front = level(rt, alloc, 0, place.saturating_add(1), len, 0);
    is_first(rt, cache, &echo(rt, alloc), Some(front.as_slice()))
}

/// Whether the first difference from answers to two words of this length is the prefix of the later one up to the
/// place.
fn is_found(rt: &impl Abort, alloc: Global, len: usize, place: usize) -> bool {
    let cache = keeps_long(rt, alloc, len, place);
    is_front(rt, alloc, &cache, len, place)
}

#[test]
fn two_long_answers(rt: HostRuntime) {
    assert!(rt; is_found(&rt, rt.alloc(), 5000, 1));
    assert!(rt; is_found(&rt, rt.alloc(), 5000, 4999));
}

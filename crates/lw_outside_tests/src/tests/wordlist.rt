//! Words of texts and words of a seed, each beside its letters.
ghost use Rattle.std.specs.Prelude.{◌≤◌};

use crate::tests::{names, texts};
use lw_draw::draw_words;
use lw_wordlist::{WordStop, read_lines, read_words};
use lw_words::{Names, Words};
use std::alloc::Global;
use std::process::Abort;

/// The letters `a` and `in`.
fn letters(rt: &impl Abort, alloc: Global) -> Names {
    names(rt, alloc, &["a", "in"])
}

/// Whether words have these letters, with a 9 behind each word.
pub(super) fn are_spelled(rt: &impl Abort, alloc: Global, words: &Words, letters: &[u16]) -> bool {
    let mut spelled = Vec::new(alloc);
    for word in words.as_slice() {
        spelled
            .extend_from_slice(word.as_slice())
            .expect(rt, "memory");
        spelled.push(9).expect(rt, "memory");
    }
    spelled.as_slice() == letters
}

/// Whether a text's lines have these letters, with a 9 behind each line.
fn has_lines(rt: &impl Abort, alloc: Global, text: &str, lines: &[u16]) -> bool {
    let words = read_lines(alloc, &letters(rt, alloc), text).expect(rt, "words");
    are_spelled(rt, alloc, &words, lines)
}

/// Where a text of lines has its first unknown name.
fn unknown_in(rt: &impl Abort, alloc: Global, text: &str) -> (u64, u64) {
    match read_lines(alloc, &letters(rt, alloc), text) {
        Err(WordStop::Unknown { word, place }) => (word, place),
        _ => rt.panic("no name is unknown"),
    }
}

#[test]
fn a_line_is_a_word(rt: HostRuntime) {
    let lines = [0, 1, 9, 9, 1, 0, 1, 9, 9, 0, 9];
    assert!(rt; has_lines(&rt, rt.alloc(), "a in\n\n  in a in \r\n\r\na", &lines));
}

#[test]
fn the_last_line_may_lack_its_line_feed(rt: HostRuntime) {
    let alloc = rt.alloc();
    assert!(rt; has_lines(&rt, alloc, "", &[]));
    assert!(rt; has_lines(&rt, alloc, "a\nin\n", &[0, 9, 1, 9]));
    assert!(rt; has_lines(&rt, alloc, "a\nin", &[0, 9, 1, 9]));
    assert!(rt; has_lines(&rt, alloc, "a\n\n", &[0, 9, 9]));
}

#[test]
fn one_carriage_return_ends_a_line(rt: HostRuntime) {
    let alloc = rt.alloc();
    assert!(rt; has_lines(&rt, alloc, "a\r\nin\r", &[0, 9, 1, 9]));
    assert!(rt; has_lines(&rt, alloc, "a\n\r", &[0, 9, 9]));
    assert!(rt; unknown_in(&rt, alloc, "a\r\r\n") == (1, 1));
}

#[test]
fn the_first_unknown_name_is_told(rt: HostRuntime) {
    assert!(rt; unknown_in(&rt, rt.alloc(), "a\n\nin  a b c\nd\n") == (3, 3));
}

/// The words of these texts.
fn words_of(rt: &impl Abort, alloc: Global, list: &[&str]) -> Result<Words, WordStop> {
    read_words(alloc, &letters(rt, alloc), &texts(rt, alloc, list))
}

#[test]
fn texts_are_words(rt: HostRuntime) {
    let alloc = rt.alloc();
    let words = words_of(&rt, alloc, &["in a"]).expect(&rt, "words");
    assert!(rt; are_spelled(&rt, alloc, &words, &[1, 0, 9]));
    let stop = words_of(&rt, alloc, &["in a", "a\n"]).err();
    assert!(rt; stop == Some(WordStop::Unknown { word: 2, place: 1 }));
}

fn drawn(rt: &impl Abort, alloc: Global, inputs: u16, count: u32, length: u32, seed: u64) -> Words
    requires { 1 ≤ inputs }
{
    let mut words = Words::new(alloc);
    draw_words(alloc, &mut words, inputs, count, length, seed).expect(rt, "memory");
    words
}

// The letters are those of a plain body of PCG in another language, which gives the reference numbers of the generator.
#[test]
fn words_are_drawn_by_the_seed(rt: HostRuntime) {
    let alloc = rt.alloc();
    let words = drawn(&rt, alloc, 10, 3, 4, 42);
    let letters = [7, 3, 5, 8, 9, 4, 4, 8, 0, 9, 3, 5, 9, 2, 9];
    assert!(rt; are_spelled(&rt, alloc, &words, &letters));
    let words = drawn(&rt, alloc, 3, 2, 6, 7);
    let letters = [2, 0, 2, 2, 2, 1, 9, 1, 2, 0, 2, 2, 2, 9];
    assert!(rt; are_spelled(&rt, alloc, &words, &letters));
    assert!(rt; drawn(&rt, alloc, 1, 2, 0, 0).len() == 2);
}

#[test]
fn drawn_words_stand_behind_others(rt: HostRuntime) {
    let alloc = rt.alloc();
    let mut words = drawn(&rt, alloc, 3, 1, 6, 7);
    draw_words(alloc, &mut words, 10, 1, 4, 42).expect(&rt, "memory");
    let letters = [2, 0, 2, 2, 2, 1, 9, 7, 3, 5, 8, 9];
    assert!(rt; are_spelled(&rt, alloc, &words, &letters));
}

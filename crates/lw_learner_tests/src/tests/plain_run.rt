//! The worked machines: what is learned, and the batches. Over one letter a word is told by its number of letters.
ghost use Rattle.std.specs.Prelude.{◌≡◌, ◌≤◌};
ghost use Rattle.std.specs.List.{All};
ghost use Rattle.lw_words.specs.Word.{IsWord};

use lw_mealy::Mealy;
use lw_plain_run::{Batches, PlainRun, plain};
use lw_words::{Word, Words};
use std::alloc::Global;
use std::process::Abort;

/// The numbers of letters of the words of the second suite of the counter modulo three.
static SUITE: [usize; 24] = [
    0, 2, 1, 3, 2, 4, 3, 5, 1, 3, 2, 4, 3, 5, 4, 6, 2, 4, 3, 5, 4, 6, 5, 7,
];

/// The machine over one letter of these targets and outputs, which are below 3.
fn of_one_letter(rt: &impl Abort, alloc: Global, cells: &[(u16, u16)]) -> Mealy
    ensures { result.inputs ≡ 1 }
{
    let mut rows = Vec::new(alloc);
    for cell in cells {
        let row = vec![in alloc; *cell; 1].expect(rt, "memory");
        rows.push(row).expect(rt, "memory");
    }
    Mealy::new(alloc, 1, 3, rows).expect(rt, "a machine")
}

/// The machine of one state over so many letters.
fn of_one_state(rt: &impl Abort, alloc: Global, letters: u16) -> Mealy {
    assert!(rt; 1 <= letters && letters <= 64);
    let mut rows = Vec::new(alloc);
    let row = vec![in alloc; (0u16, 0u16); usize::from(letters)].expect(rt, "memory");
    rows.push(row).expect(rt, "memory");
    Mealy::new(alloc, letters, 1, rows).expect(rt, "a machine")
}

fn learned(rt: &impl Abort, alloc: Global, m: &Mealy, extra: u8, most: u16) -> PlainRun
    requires extra { extra ≤ 4 }
    requires most { (1 ≤ most) × (most ≤ 1024) }
{
    let none = Words::new(alloc);
    plain(alloc, m, extra, most, none.as_slice()).expect(rt, "memory")
}

/// The words have so many letters each.
fn have_lengths(words: &[Word], lengths: &[usize]) -> bool {
    if words.len() != lengths.len() {
        return false;
    }
    for number in 0..words.len() {
        if words[number].len() != lengths[number] {
            return false;
        }
    }
    true
}

fn are_of_lengths(batches: &Batches, lengths: &[&[usize]]) -> bool {
    let batches = batches.get();
    if batches.len() != lengths.len() {
        return false;
    }
    for number in 0..batches.len() {
        if !have_lengths(batches[number].as_slice(), lengths[number]) {
            return false;
        }
    }
    true
}

/// Whether a machine is the counter modulo three.
fn is_counter(m: &Mealy) -> bool {
    m.inputs() == 1
        && m.states() == 3
        && m.step(0, 0) == (1, 0)
        && m.step(1, 0) == (2, 0)
        && m.step(2, 0) == (0, 1)
}

/// Whether the counter was learned by one refinement and these batches, of words of so many letters.
fn learns_counter(run: &PlainRun, lengths: &[&[usize]]) -> bool {
    match run {
        PlainRun::Learned {
            model,
            refinements,
            batches,
        } => *refinements == 1 && is_counter(model) && are_of_lengths(batches, lengths),
        _ => false,
    }
}

fn is_crowd_of(run: &PlainRun, words: &[usize], lengths: &[&[usize]]) -> bool {
    match run {
        PlainRun::Crowd {
            words: found,
            batches,
        } => have_lengths(found.as_slice(), words) && are_of_lengths(batches, lengths),
        _ => false,
    }
}

fn is_too_large(run: &PlainRun, states: u16, size: u64, asked: usize) -> bool {
    match run {
        PlainRun::TooLarge {
            model,
            number,
            batches,
        } => model.states() == states && *number == size && batches.get().len() == asked,
        _ => false,
    }
}

#[test]
fn the_counter_takes_seven_batches(rt: HostRuntime) {
    let alloc = rt.alloc();
    let m = of_one_letter(&rt, alloc, &[(1, 0), (2, 0), (0, 1)]);
    let run = learned(&rt, alloc, &m, 2, 1024);
    let batches: [&[usize]; 7] = [
        &[1, 2],
        &[0, 1, 2, 3],
        &[2],
        &[2, 3],
        &[3, 4],
        &[4, 5],
        &SUITE,
    ];
    assert!(rt; learns_counter(&run, &batches));
}

/// The word of three letters.
fn of_three_letters(rt: &impl Abort, alloc: Global) -> Word
    ensures { IsWord 1 result }
{
    Word::from_letters(alloc, vec![in alloc; 0u16; 3].expect(rt, "memory"))
}

/// The counter, where this word is asked first.
fn learned_from(rt: &impl Abort, alloc: Global, m: &Mealy, word: Word) -> PlainRun
    requires letters { IsWord m.now.inputs word }
{
    let mut given = Words::new(alloc);
    let Ok(()) = given.push(word) else {
        rt.panic("memory")
    };
    plain(alloc, m, 2, 3, given.as_slice()).expect(rt, "memory")
}

#[test]
fn a_word_that_was_given_refines_before_a_suite(rt: HostRuntime) {
    let alloc = rt.alloc();
    let m = of_one_letter(&rt, alloc, &[(1, 0), (2, 0), (0, 1)]);
    let run = learned_from(&rt, alloc, &m, of_three_letters(&rt, alloc));
    let batches: [&[usize]; 7] = [&[3], &[1, 2], &[2], &[2, 3], &[3, 4], &[4, 5], &SUITE];
    assert!(rt; learns_counter(&run, &batches));
}

#[test]
fn the_ring_is_a_crowd_of_three(rt: HostRuntime) {
    let alloc = rt.alloc();
    let m = of_one_letter(&rt, alloc, &[(1, 0), (2, 1), (0, 2)]);
    let run = learned(&rt, alloc, &m, 1, 2);
    let batches: [&[usize]; 2] = [&[1, 2], &[3]];
    assert!(rt; is_crowd_of(&run, &[0, 1, 2], &batches));
}

#[test]
fn a_suite_that_is_too_large(rt: HostRuntime) {
    let alloc = rt.alloc();
    let m = of_one_state(&rt, alloc, 25);
    let run = learned(&rt, alloc, &m, 4, 1);
    assert!(rt; is_too_large(&run, 1, 10_172_526, 1));
}

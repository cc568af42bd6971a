//! Walks of a machine, beside those of a plain body in another language.

use crate::tests::machine;
use crate::tests::wordlist::are_spelled;
use lw_chunks::Chunks;
use lw_draw::{Drawn, Walks, walks_are_of_words, walks_are_one, walks_exist};
use lw_mealy::Mealy;
use lw_separate::canonical;
use lw_words::{Word, Words};
use std::alloc::Global;
use std::process::Abort;

/// A machine in canonical form. Its least access words are the empty one, 1, 2 and 1 0; its separating words are 2 0, 0 and 0 0.
const FOUR: &str =
    "{\"inputs\":[\"a\",\"b\",\"c\"],\"outputs\":[\"0\",\"1\"],\"states\":[[[0,\"0\"],[1,\"0\"],[2,\"0\"]],[[3,\"0\"],[3,\"0\"],[3,\"0\"]],[[0,\"1\"],[0,\"0\"],[3,\"0\"]],[[2,\"0\"],[2,\"0\"],[0,\"0\"]]]}";

/// One state, which no word has to be told from.
const ONE: &str =
    "{\"inputs\":[\"a\",\"b\",\"c\"],\"outputs\":[\"0\"],\"states\":[[[0,\"0\"],[0,\"0\"],[0,\"0\"]]]}";

/// Puts copies of a chunk's words behind a list.
fn put_all(rt: &impl Abort, all: &mut Words, chunk: &[Word]) {
    for word in chunk {
        let copy = word.copy().expect(rt, "memory");
        assert!(rt; all.push(copy).is_ok(), "memory");
    }
}

/// The walks that are left, chunk by chunk, and how many words each chunk has.
fn gather(rt: &impl Abort, alloc: Global, walks: &mut Walks, sizes: &mut Vec<usize>) -> Words {
    let mut all = Words::new(alloc);
    let mut chunk = Vec::new(alloc);
    for _ in 0..40 {
        if !walks.next_chunk(&mut chunk).expect(rt, "memory") {
            assert!(rt; chunk.is_empty());
            return all;
        }
        sizes.push(chunk.len()).expect(rt, "memory");
        put_all(rt, &mut all, &chunk);
    }
    rt.panic("the walks don't end")
}

/// The walks of a machine's canonical form, and how many words each chunk has.
fn walks_of(
    rt: &impl Abort,
    alloc: Global,
    m: &Mealy,
    drawn: Drawn,
    sizes: &mut Vec<usize>,
) -> Words {
    let m = canonical(alloc, m).expect(rt, "memory");
    let mut walks = Walks::new(alloc, &m, drawn).expect(rt, "memory");
    gather(rt, alloc, &mut walks, sizes)
}

/// Whether the walks of a file's machine have these letters, with a 9 behind each word.
fn walks_as(rt: &impl Abort, alloc: Global, file: &str, drawn: Drawn, letters: &[u16]) -> bool {
    let machine = machine(rt, alloc, file.as_bytes());
    let mut sizes = Vec::new(alloc);
    let words = walks_of(rt, alloc, &machine.mealy, drawn, &mut sizes);
    are_spelled(rt, alloc, &words, letters)
}

#[test]
fn walks_go_on_from_each_state_in_turn_and_end_with_separating_words(rt: HostRuntime) {
    let drawn = Drawn {
        count: 6,
        length: 3,
        seed: 42,
    };
    let letters = [
        0, 2, 1, 2, 0, 9, 1, 1, 1, 1, 0, 9, 2, 0, 1, 0, 0, 9, 1, 0, 1, 0, 2, 2, 0, 9, 0, 2, 1, 2,
        0, 9, 1, 1, 0, 2, 2, 0, 9,
    ];
    assert!(rt; walks_as(&rt, rt.alloc(), FOUR, drawn, &letters));
}

#[test]
fn the_greatest_seed_draws_walks(rt: HostRuntime) {
    let drawn = Drawn {
        count: 2,
        length: 3,
        seed: u64::MAX,
    };
    let letters = [1, 2, 0, 2, 0, 9, 1, 2, 0, 1, 0, 9];
    assert!(rt; walks_as(&rt, rt.alloc(), FOUR, drawn, &letters));
}

#[test]
fn walks_of_no_letters_take_a_number_each(rt: HostRuntime) {
    let drawn = Drawn {
        count: 5,
        length: 0,
        seed: 7,
    };
    let letters = [0, 0, 9, 1, 0, 9, 2, 0, 0, 9, 1, 0, 0, 9, 0, 9];
    assert!(rt; walks_as(&rt, rt.alloc(), FOUR, drawn, &letters));
}

#[test]
fn walks_of_one_state_have_drawn_letters_alone(rt: HostRuntime) {
    let drawn = Drawn {
        count: 3,
        length: 4,
        seed: 7,
    };
    let letters = [0, 0, 1, 0, 9, 2, 1, 2, 1, 9, 2, 2, 1, 1, 9];
    assert!(rt; walks_as(&rt, rt.alloc(), ONE, drawn, &letters));
}

#[test]
fn no_walks_have_no_chunk(rt: HostRuntime) {
    let drawn = Drawn {
        count: 0,
        length: 65_536,
        seed: 1,
    };
    let alloc = rt.alloc();
    let machine = machine(&rt, alloc, FOUR.as_bytes());
    let mut sizes = Vec::new(alloc);
    let words = walks_of(&rt, alloc, &machine.mealy, drawn, &mut sizes);
    assert!(rt; words.len() == 0 && sizes.is_empty());
}

/// Whether the word with this number has these letters.
fn is_at(words: &Words, number: usize, letters: &[u16]) -> bool {
    match words.as_slice().get(number) {
        Some(word) => word.as_slice() == letters,
        None => false,
    }
}

/// Some of 1,030 walks, by their numbers: the first and the last of each chunk.
static PLACES: [(usize, &[u16]); 6] = [
    (0, &[2, 0, 1, 0, 2, 0, 0]),
    (511, &[1, 0, 1, 2, 2, 2, 1, 0, 0]),
    (512, &[0, 2, 1, 2, 2, 2, 0]),
    (1023, &[1, 0, 1, 0, 1, 1, 2, 2, 0]),
    (1024, &[1, 1, 1, 0, 2, 0, 0]),
    (1029, &[1, 0, 0, 0, 1, 0, 2, 0]),
];

#[test]
fn a_chunk_has_as_many_walks_as_are_left_or_512(rt: HostRuntime) {
    let drawn = Drawn {
        count: 1030,
        length: 5,
        seed: 2026,
    };
    let alloc = rt.alloc();
    let machine = machine(&rt, alloc, FOUR.as_bytes());
    let mut sizes = Vec::new(alloc);
    let words = walks_of(&rt, alloc, &machine.mealy, drawn, &mut sizes);
    assert!(rt; sizes.as_slice() == [512, 512, 6].as_slice());
    assert!(rt; words.len() == 1030);
    for (number, letters) in &PLACES {
        assert!(rt; is_at(&words, *number, *letters));
    }
}

#[test]
fn laws_have_no_code() {
    walks_are_one();
    walks_exist();
    walks_are_of_words();
}

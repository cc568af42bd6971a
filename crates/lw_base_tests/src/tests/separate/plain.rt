//! The calls by trial: all words in shortlex order, on machines of at most five states.

use lw_mealy::Mealy;
use lw_words::Word;
use std::alloc::Global;
use std::process::Abort;

/// All words of at most four letters over two, or fewer over more, in shortlex order.
pub fn words(rt: &impl Abort, alloc: Global, inputs: u16) -> Vec<Word> {
    let mut all = Vec::new(alloc);
    all.push(Word::new(alloc)).expect(rt, "memory");
    for i in 0..15 {
        for x in 0..inputs {
            let Some(shorter) = all.get(i) else {
                return all;
            };
            let mut word = shorter.copy().expect(rt, "memory");
            word.push(x).expect(rt, "memory");
            all.push(word).expect(rt, "memory");
        }
    }
    all
}

/// A step, where there is one.
fn step(m: &Mealy, q: u16, x: u16) -> (u16, u16) {
    if q < m.states() && x < m.inputs() {
        m.step(q, x)
    } else {
        (0, 0)
    }
}

/// The state after a word from state 0.
fn end(m: &Mealy, word: &Word) -> u16 {
    let mut q = 0;
    for x in word.as_slice() {
        q = step(m, q, *x).0;
    }
    q
}

/// Whether the outputs of two states differ on a word.
fn differ(m: &Mealy, p: u16, q: u16, word: &Word) -> bool {
    let mut first = p;
    let mut second = q;
    for x in word.as_slice() {
        let (to_first, y) = step(m, first, *x);
        let (to_second, z) = step(m, second, *x);
        if y != z {
            return true;
        }
        first = to_first;
        second = to_second;
    }
    false
}

pub fn access<'a>(m: &Mealy, all: &'a [Word], q: u16) -> Option<&'a Word> {
    for word in all {
        if end(m, word) == q {
            return Some(word);
        }
    }
    None
}

pub fn separating<'a>(m: &Mealy, all: &'a [Word], p: u16, q: u16) -> Option<&'a Word> {
    for word in all {
        if differ(m, p, q, word) {
            return Some(word);
        }
    }
    None
}

/// The first pair of states that no word tells apart.
pub fn first_alike(m: &Mealy, all: &[Word]) -> Option<(u16, u16)> {
    for p in 0..m.states() {
        for q in 0..m.states() {
            if p < q && separating(m, all, p, q).is_none() {
                return Some((p, q));
            }
        }
    }
    None
}

/// Whether both are the same word, or none.
pub fn same(word: &Option<Word>, expected: Option<&Word>) -> bool {
    match (word, expected) {
        (Some(word), Some(expected)) => word.as_slice() == expected.as_slice(),
        (None, None) => true,
        _ => false,
    }
}

/// The states of a machine in the order of their least words, one of each class of equal ones.
fn classes(rt: &impl Abort, alloc: Global, m: &Mealy, all: &[Word]) -> Vec<u16> {
    let mut found = Vec::new(alloc);
    for word in all {
        let q = end(m, word);
        if class_of(m, all, found.as_slice(), q).is_none() {
            found.push(q).expect(rt, "memory");
        }
    }
    found
}

/// The place of the class of a state.
fn class_of(m: &Mealy, all: &[Word], found: &[u16], q: u16) -> Option<u16> {
    let mut place = 0u16;
    for p in found {
        if separating(m, all, *p, q).is_none() {
            return Some(place);
        }
        place = place.wrapping_add(1);
    }
    None
}

/// Whether `c` has the row of each class in their order.
pub fn is_canonical(rt: &impl Abort, alloc: Global, m: &Mealy, c: &Mealy, all: &[Word]) -> bool {
    let found = classes(rt, alloc, m, all);
    if usize::from(c.states()) != found.len() {
        return false;
    }
    let mut k = 0u16;
    for p in &found {
        for x in 0..m.inputs() {
            let (target, output) = step(m, *p, x);
            let place = class_of(m, all, found.as_slice(), target);
            if place != Some(step(c, k, x).0) || output != step(c, k, x).1 {
                return false;
            }
        }
        k = k.wrapping_add(1);
    }
    true
}

/// The walk over the pairs of states.
pub fn separators(rt: &impl Abort, alloc: Global, m: &Mealy, all: &[Word]) -> Vec<Word> {
    let mut list: Vec<Word> = Vec::new(alloc);
    for p in 0..m.states() {
        for q in 0..m.states() {
            if p < q && !list.iter().any(|word| differ(m, p, q, word)) {
                if let Some(word) = separating(m, all, p, q) {
                    let copy = word.copy().expect(rt, "memory");
                    list.push(copy).expect(rt, "memory");
                }
            }
        }
    }
    list
}

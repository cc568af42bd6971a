//! The walk beside a plain search through all words of at most three letters, on machines of two states, two inputs and two
//! outputs: two such machines that agree on these words are equal.
use lw_compare::compare_models;
use lw_json::{Machine, read_machine};
use lw_report::Comparison;
use std::alloc::Global;
use std::process::Abort;

/// All such words in shortlex order.
static WORDS: [&[u32]; 14] = [
    &[0],
    &[1],
    &[0, 0],
    &[0, 1],
    &[1, 0],
    &[1, 1],
    &[0, 0, 0],
    &[0, 0, 1],
    &[0, 1, 0],
    &[0, 1, 1],
    &[1, 0, 0],
    &[1, 0, 1],
    &[1, 1, 0],
    &[1, 1, 1],
];

/// The target and the output of a state at a letter, by the number of the machine.
fn cell(machine: u32, state: u32, letter: u32) -> (u32, u32) {
    let row = if state == 0 { machine } else { machine / 16 };
    let cell = if letter == 0 { row } else { row / 4 };
    (cell % 2, cell / 2 % 2)
}

fn differ_on(first: u32, second: u32, word: &[u32]) -> bool {
    let mut p = 0;
    let mut q = 0;
    for x in word {
        let (r, y) = cell(first, p, *x);
        let (s, z) = cell(second, q, *x);
        if y != z {
            return true;
        }
        p = r;
        q = s;
    }
    false
}

/// The first word on which two machines differ, by trying one after another.
fn plain(first: u32, second: u32) -> Option<&'static [u32]> {
    for word in &WORDS {
        if differ_on(first, second, word) {
            return Some(word);
        }
    }
    None
}

/// The target and the output of each letter of a state.
fn row(rt: &impl Abort, alloc: Global, first: (u32, u32), second: (u32, u32)) -> String {
    let (t, u) = (first, second);
    format!(in alloc; "[[{},\"{}\"],[{},\"{}\"]]", t.0, t.1, u.0, u.1).expect(rt, "memory")
}

/// The machine of a number, with these names; the letters in their order or turned.
fn machine(rt: &impl Abort, alloc: Global, number: u32, turned: bool) -> Machine {
    let (a, b) = if turned { (1, 0) } else { (0, 1) };
    let names = if turned {
        "{\"inputs\":[\"b\",\"a\"],\"outputs\":[\"1\",\"0\"],"
    } else {
        "{\"inputs\":[\"a\",\"b\"],\"outputs\":[\"0\",\"1\"],"
    };
    let first = row(rt, alloc, cell(number, 0, a), cell(number, 0, b));
    let second = row(rt, alloc, cell(number, 1, a), cell(number, 1, b));
    let text = format!(in alloc; "{names}\"states\":[{first},{second}]}}\n").expect(rt, "memory");
    read_machine(alloc, text.as_bytes()).expect(rt, "a machine")
}

/// Whether names are those of the letters.
fn spells(names: &[String], word: &[u32]) -> bool {
    if names.len() != word.len() {
        return false;
    }
    for (place, name) in names.iter().enumerate() {
        let letter = if word[place] == 0 { "a" } else { "b" };
        if name.as_str() != letter {
            return false;
        }
    }
    true
}

/// Whether a comparison says what trying all words says.
fn is_so(comparison: &Comparison, expected: Option<&[u32]>) -> bool {
    match comparison {
        Comparison::Equal => expected.is_none(),
        Comparison::Differ(difference) => match expected {
            Some(word) => spells(difference.word.get().as_slice(), word),
            None => false,
        },
        Comparison::OtherInputs { .. } => false,
    }
}

/// The outcome of a comparison: the clauses of `compare_models` would weigh down each proof that calls it.
fn compared(rt: &impl Abort, alloc: Global, one: &Machine, two: &Machine) -> Comparison {
    compare_models(alloc, one, two).expect(rt, "memory")
}

fn compares(rt: &impl Abort, alloc: Global, first: u32, second: u32) -> bool {
    let one = machine(rt, alloc, first, false);
    let two = machine(rt, alloc, second, true);
    let comparison = compared(rt, alloc, &one, &two);
    is_so(&comparison, plain(first, second))
}

#[test]
fn the_walk_finds_what_trying_all_words_finds(rt: HostRuntime) {
    for i in 0..13u32 {
        for j in 0..17u32 {
            assert!(rt; compares(&rt, rt.alloc(), i * 19 % 256, j * 15 % 256));
        }
    }
}

//! The calls on worked, drawn and greatest machines, beside the plain body.
ghost use Rattle.std.specs.Prelude.{◌<◌, ◌≤◌, length};
ghost use Rattle.lw_mealy.specs.Machine.{IsMinimal};

use lw_mealy::Mealy;
use lw_separate::{
    access_word_is_unique, access_words, canonical, canonical_exists, canonical_is_unique,
    first_alike, least_access, least_access_exists, least_access_is_unique, renumbered, separating,
    separating_word_is_unique, separators, separators_are_unique, separators_exist,
};
use lw_words::{Word, Words};
use rand_core::SeedableRng;
use rand_core::utils::NextWord;
use rand_pcg::Lcg128Xsl64;
use std::alloc::Global;
use std::process::Abort;

mod plain;

/// A machine of these rows over as many letters as the first row has, with outputs below 4.
fn machine(rt: &impl Abort, alloc: Global, rows: &[&[(u16, u16)]]) -> Mealy {
    let mut all = Vec::new(alloc);
    let mut letters = 0;
    for row in rows {
        letters = row.len();
        let copy = Vec::from_slice(alloc, *row).expect(rt, "memory");
        all.push(copy).expect(rt, "memory");
    }
    assert!(rt; 1 <= letters && letters <= 64);
    Mealy::new(alloc, letters as u16, 4, all).expect(rt, "a machine")
}

/// The counter modulo three.
fn counter_of_three(rt: &impl Abort, alloc: Global) -> Mealy {
    machine(rt, alloc, &[&[(1, 0)], &[(2, 0)], &[(0, 1)]])
}

/// States 0 and 2 are alike, and no word leads to state 3.
fn with_equal_states(rt: &impl Abort, alloc: Global) -> Mealy {
    machine(rt, alloc, &[&[(1, 0)], &[(2, 1)], &[(1, 0)], &[(0, 1)]])
}

/// The number of letters of a word, or None.
fn letters(word: &Option<Word>) -> Option<usize> {
    match word {
        Some(word) => Some(word.len()),
        None => None,
    }
}

/// The number of letters of the word that tells two states apart, or None.
fn separating_letters(rt: &impl Abort, alloc: Global, m: &Mealy, p: u16, q: u16) -> Option<usize>
    requires { (p < length m.now.rows) × (q < length m.now.rows) }
{
    letters(&separating(alloc, m, p, q).expect(rt, "memory"))
}

#[test]
fn worked_separating_words(rt: HostRuntime) {
    let alloc = rt.alloc();
    let counter = counter_of_three(&rt, alloc);
    assert!(rt; counter.states() == 3);
    assert!(rt; separating_letters(&rt, alloc, &counter, 0, 1) == Some(2));
    assert!(rt; separating_letters(&rt, alloc, &counter, 0, 2) == Some(1));
    let equal = with_equal_states(&rt, alloc);
    assert!(rt; equal.states() == 4);
    assert!(rt; separating_letters(&rt, alloc, &equal, 0, 2).is_none());
}

/// Whether the words have just these numbers of letters.
fn have_letters(words: &[Option<Word>], lengths: &[Option<usize>]) -> bool {
    let mut pairs = words.iter().zip(lengths);
    words.len() == lengths.len() && pairs.all(|(word, length)| letters(word) == *length)
}

#[test]
fn worked_access_words(rt: HostRuntime) {
    let alloc = rt.alloc();
    let m = with_equal_states(&rt, alloc);
    let words = access_words(alloc, &m).expect(&rt, "memory");
    assert!(rt; have_letters(&words, &[Some(0), Some(1), Some(2), None]));
}

#[test]
fn worked_separators(rt: HostRuntime) {
    let alloc = rt.alloc();
    let c = canonical(alloc, &counter_of_three(&rt, alloc)).expect(&rt, "memory");
    let words = separators(alloc, &c).expect(&rt, "memory");
    assert!(rt; words.len() == 1);
    assert!(rt; words.get(0).as_slice() == [0, 0].as_slice());
}

#[test]
fn worked_canonical_form(rt: HostRuntime) {
    let alloc = rt.alloc();
    let c = canonical(alloc, &with_equal_states(&rt, alloc)).expect(&rt, "memory");
    assert!(rt; (c.inputs(), c.outputs(), c.states()) == (1, 4, 2));
    assert!(rt; (c.step(0, 0), c.step(1, 0)) == ((1, 0), (0, 1)));
}

#[test]
fn calls_the_laws() {
    canonical_is_unique();
    canonical_exists();
    access_word_is_unique();
    separating_word_is_unique();
    least_access_is_unique();
    least_access_exists();
    separators_are_unique();
    separators_exist();
}

/// A chain of states that tells its last state alone.
fn chain(rt: &impl Abort, alloc: Global, states: u16) -> Mealy {
    let mut rows = Vec::new(alloc);
    for q in 0..states {
        let last = q + 1 == states;
        let cell = if last { (0, 1) } else { (q + 1, 0) };
        let row = Vec::from_slice(alloc, &[cell]).expect(rt, "memory");
        rows.push(row).expect(rt, "memory");
    }
    Mealy::new(alloc, 1, 2, rows).expect(rt, "a machine")
}

/// Letter 0 leads to the next state, letter 1 back to the first: the last state alone tells it.
fn ladder(rt: &impl Abort, alloc: Global, states: u16) -> Mealy {
    let mut rows = Vec::new(alloc);
    for q in 0..states {
        let last = q + 1 == states;
        let next = if last { (q, 0) } else { (q + 1, 0) };
        let cells = [next, (0, u16::from(last))];
        let row = Vec::from_slice(alloc, &cells).expect(rt, "memory");
        rows.push(row).expect(rt, "memory");
    }
    Mealy::new(alloc, 2, 2, rows).expect(rt, "a machine")
}

/// The canonical form of a chain of so many states, which is asked for one word first.
fn canonical_chain(rt: &impl Abort, alloc: Global, states: u16) -> Mealy
    ensures { IsMinimal result.inputs result.rows }
{
    let m = chain(rt, alloc, states);
    assert!(rt; 1 < m.states());
    let long = separating_letters(rt, alloc, &m, 0, 1);
    assert!(rt; long == Some(usize::from(states).saturating_sub(1)));
    canonical(alloc, &m).expect(rt, "memory")
}

/// How many separators a minimal machine has.
fn separators_of(rt: &impl Abort, alloc: Global, c: &Mealy) -> usize
    requires { IsMinimal c.now.inputs c.now.rows }
{
    separators(alloc, c).expect(rt, "memory").len()
}

#[test]
fn a_chain_needs_long_words(rt: HostRuntime) {
    let alloc = rt.alloc();
    for states in 2..40 {
        let c = canonical_chain(&rt, alloc, states);
        assert!(rt; c.states() == states);
        assert!(rt; separators_of(&rt, alloc, &c) == 1);
    }
}

/// A drawn number below a bound.
fn below(random: &mut Lcg128Xsl64, bound: u16) -> u16
    requires { 0 < bound }
{
    (random.next_word() % u64::from(bound)) as u16
}

/// A machine whose targets and outputs are drawn.
fn drawn(
    rt: &impl Abort,
    alloc: Global,
    random: &mut Lcg128Xsl64,
    states: u16,
    letters: u16,
    outputs: u16,
) -> Mealy
    requires states { 0 < states }
    requires letters { (1 ≤ letters) × (letters ≤ 64) }
    requires outputs { (1 ≤ outputs) × (outputs ≤ 4096) }
{
    let mut rows = Vec::new(alloc);
    for _ in 0..states {
        let mut row = Vec::new(alloc);
        for _ in 0..letters {
            let cell = (below(random, states), below(random, outputs));
            row.push(cell).expect(rt, "memory");
        }
        rows.push(row).expect(rt, "memory");
    }
    Mealy::new(alloc, letters, outputs, rows).expect(rt, "a machine")
}

/// Whether the access words are those of the plain body.
fn access_agrees(rt: &impl Abort, alloc: Global, m: &Mealy, all: &[Word]) -> bool {
    let words = access_words(alloc, m).expect(rt, "memory");
    let mut q = 0u16;
    for word in &words {
        if !plain::same(word, plain::access(m, all, q)) {
            return false;
        }
        q = q.wrapping_add(1);
    }
    q == m.states()
}

/// Whether the separating words of a state are those of the plain body.
fn separating_agrees(rt: &impl Abort, alloc: Global, m: &Mealy, all: &[Word], p: u16) -> bool
    requires { p < length m.now.rows }
{
    for q in 0..m.states() {
        let word = separating(alloc, m, p, q).expect(rt, "memory");
        if !plain::same(&word, plain::separating(m, all, p, q)) {
            return false;
        }
    }
    true
}

/// Whether the separating words are those of the plain body.
fn all_separating_agree(rt: &impl Abort, alloc: Global, m: &Mealy, all: &[Word]) -> bool {
    for p in 0..m.states() {
        if !separating_agrees(rt, alloc, m, all, p) {
            return false;
        }
    }
    true
}

/// Whether the first pair of equal states is that of the plain body.
fn first_alike_agrees(rt: &impl Abort, alloc: Global, m: &Mealy, all: &[Word]) -> bool {
    first_alike(alloc, m).expect(rt, "memory") == plain::first_alike(m, all)
}

/// Whether the separators are those of the plain body.
fn separators_agree(rt: &impl Abort, alloc: Global, m: &Mealy, all: &[Word]) -> bool
    requires { IsMinimal m.now.inputs m.now.rows }
{
    let list = separators(alloc, m).expect(rt, "memory");
    let expected = plain::separators(rt, alloc, m, all);
    let mut pairs = list.as_slice().iter().zip(expected.as_slice());
    list.len() == expected.len() && pairs.all(|(word, other)| word.as_slice() == other.as_slice())
}

/// Whether the words of the list are the access words of the plain body.
fn least_access_agrees(rt: &impl Abort, alloc: Global, m: &Mealy, all: &[Word]) -> bool
    requires { IsMinimal m.now.inputs m.now.rows }
{
    let list = least_access(alloc, m).expect(rt, "memory");
    let mut q = 0u16;
    for word in list.as_slice() {
        match plain::access(m, all, q) {
            Some(expected) if word.as_slice() == expected.as_slice() => {}
            _ => return false,
        }
        q = q.wrapping_add(1);
    }
    q == m.states()
}

/// Whether the canonical form of a minimal machine is that of the plain body.
fn renumbered_agrees(rt: &impl Abort, alloc: Global, m: &Mealy, c: &Mealy, all: &[Word]) -> bool
    requires { IsMinimal c.now.inputs c.now.rows }
{
    let again = renumbered(alloc, c).expect(rt, "memory");
    plain::is_canonical(rt, alloc, m, &again, all)
}

/// Whether the calls on any machine answer as the plain body.
fn words_agree(rt: &impl Abort, alloc: Global, m: &Mealy, all: &[Word]) -> bool {
    access_agrees(rt, alloc, m, all)
        && all_separating_agree(rt, alloc, m, all)
        && first_alike_agrees(rt, alloc, m, all)
}

/// Whether the canonical form of a machine, and the calls on it, are as the plain body's.
fn forms_agree(rt: &impl Abort, alloc: Global, m: &Mealy, all: &[Word]) -> bool {
    let c = canonical(alloc, m).expect(rt, "memory");
    plain::is_canonical(rt, alloc, m, &c, all)
        && renumbered_agrees(rt, alloc, m, &c, all)
        && least_access_agrees(rt, alloc, &c, all)
        && separators_agree(rt, alloc, &c, all)
}

/// Whether all calls answer as the plain body, on a machine of at most five states over one or two letters.
fn all_agree(rt: &impl Abort, alloc: Global, m: &Mealy) -> bool {
    let all = plain::words(rt, alloc, m.inputs());
    words_agree(rt, alloc, m, all.as_slice()) && forms_agree(rt, alloc, m, all.as_slice())
}

/// Whether they do on a machine of these rows.
fn all_agree_on(rt: &impl Abort, alloc: Global, rows: &[&[(u16, u16)]]) -> bool {
    all_agree(rt, alloc, &machine(rt, alloc, rows))
}

#[test]
fn one_state_as_the_plain_body(rt: HostRuntime) {
    let alloc = rt.alloc();
    assert!(rt; all_agree_on(&rt, alloc, &[&[(0, 0)]]));
    assert!(rt; all_agree_on(&rt, alloc, &[&[(0, 3), (0, 1)]]));
}

/// No other state is reached from state 0, and no two differ.
static ALIKE: [&[(u16, u16)]; 4] = [&[(0, 1)], &[(0, 1)], &[(1, 1)], &[(3, 1)]];

/// States 1 and 3 are alike, and so are 2 and 4; no word leads to 4.
static PAIRS: [&[(u16, u16)]; 5] = [
    &[(1, 0), (3, 0)],
    &[(2, 0), (1, 1)],
    &[(0, 1), (2, 0)],
    &[(2, 0), (3, 1)],
    &[(0, 1), (4, 0)],
];

#[test]
fn equal_and_unreachable_states_as_the_plain_body(rt: HostRuntime) {
    let alloc = rt.alloc();
    assert!(rt; all_agree(&rt, alloc, &with_equal_states(&rt, alloc)));
    assert!(rt; all_agree_on(&rt, alloc, &ALIKE));
    assert!(rt; all_agree_on(&rt, alloc, &PAIRS));
}

#[test]
fn chains_as_the_plain_body(rt: HostRuntime) {
    let alloc = rt.alloc();
    for states in 1..6 {
        assert!(rt; all_agree(&rt, alloc, &chain(&rt, alloc, states)));
        assert!(rt; all_agree(&rt, alloc, &ladder(&rt, alloc, states)));
    }
}

/// Whether the k-th word of a ladder has a letter less than there are states from the k-th on.
fn falls(list: &Words, states: usize) -> bool {
    let mut left = states;
    for word in list.as_slice() {
        left = left.wrapping_sub(1);
        if word.len() != left {
            return false;
        }
    }
    left == 1
}

#[test]
fn a_ladder_needs_a_word_for_each_step(rt: HostRuntime) {
    let alloc = rt.alloc();
    for states in 2..40 {
        let c = canonical(alloc, &ladder(&rt, alloc, states)).expect(&rt, "memory");
        assert!(rt; c.states() == states);
        let list = separators(alloc, &c).expect(&rt, "memory");
        assert!(rt; falls(&list, usize::from(states)));
    }
}

/// A drawn machine of at most five states, with one or two letters and outputs.
fn small_machine(rt: &impl Abort, alloc: Global, random: &mut Lcg128Xsl64) -> Mealy {
    let states = below(random, 5).wrapping_add(1);
    let inputs = if below(random, 2) == 0 { 1 } else { 2 };
    let outputs = if below(random, 2) == 0 { 1 } else { 2 };
    assert!(rt; states > 0);
    drawn(rt, alloc, random, states, inputs, outputs)
}

#[test]
fn drawn_machines_as_the_plain_body(rt: HostRuntime) {
    let alloc = rt.alloc();
    let mut random = Lcg128Xsl64::seed_from_u64(7);
    for _ in 0..300 {
        let m = small_machine(&rt, alloc, &mut random);
        assert!(rt; all_agree(&rt, alloc, &m));
    }
}

/// Whether the k-th word of the list has k letters.
fn rises(list: &Words) -> bool {
    let mut count = 0usize;
    for word in list.as_slice() {
        if word.len() != count {
            return false;
        }
        count = count.wrapping_add(1);
    }
    true
}

/// The first pair of equal states.
fn alike(rt: &impl Abort, alloc: Global, m: &Mealy) -> Option<(u16, u16)> {
    first_alike(alloc, m).expect(rt, "memory")
}

#[test]
fn a_chain_of_as_many_states_as_there_may_be(rt: HostRuntime) {
    let alloc = rt.alloc();
    assert!(rt; alike(&rt, alloc, &chain(&rt, alloc, 1024)).is_none());
    let c = canonical_chain(&rt, alloc, 1024);
    assert!(rt; c.states() == 1024);
    assert!(rt; separators_of(&rt, alloc, &c) == 1);
    assert!(rt; rises(&least_access(alloc, &c).expect(&rt, "memory")));
}

/// Whether a machine of so many states, no two of which are equal, keeps them all in its canonical form, and has separators.
fn keeps_all_states(rt: &impl Abort, alloc: Global, m: &Mealy, states: u16) -> bool {
    let c = canonical(alloc, m).expect(rt, "memory");
    let again = renumbered(alloc, &c).expect(rt, "memory");
    again.states() == states && separators_of(rt, alloc, &c) > 0
}

#[test]
fn as_many_states_and_letters_as_there_may_be(rt: HostRuntime) {
    let alloc = rt.alloc();
    let mut random = Lcg128Xsl64::seed_from_u64(7);
    let m = drawn(&rt, alloc, &mut random, 1024, 64, 4096);
    assert!(rt; alike(&rt, alloc, &m).is_none());
    assert!(rt; access_words(alloc, &m).expect(&rt, "memory").len() == 1024);
    assert!(rt; keeps_all_states(&rt, alloc, &m, 1024));
}

/// So many states of 64 letters, each with itself as its target.
fn loops(rt: &impl Abort, alloc: Global, states: u16) -> Mealy {
    let mut rows = Vec::new(alloc);
    for q in 0..states {
        let row = vec![in alloc; (q, 0u16); 64].expect(rt, "memory");
        rows.push(row).expect(rt, "memory");
    }
    Mealy::new(alloc, 64, 1, rows).expect(rt, "a machine")
}

#[test]
fn as_many_equal_states_as_there_may_be(rt: HostRuntime) {
    let alloc = rt.alloc();
    let m = loops(&rt, alloc, 1024);
    assert!(rt; alike(&rt, alloc, &m) == Some((0, 1)));
    assert!(rt; canonical(alloc, &m).expect(&rt, "memory").states() == 1);
}

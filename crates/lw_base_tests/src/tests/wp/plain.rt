//! The Wp-suite as one list, by runs of the machine.
ghost use Rattle.lw_mealy.specs.Machine.{IsMinimal};

use crate::tests::suite::plain::{longer, middles, put, suite_of, with_ends};
use lw_mealy::Mealy;
use lw_separate::{least_access, separators};
use lw_words::{Word, Words, join};
use std::alloc::Global;
use std::process::Abort;

/// Whether the outputs of two states on a word differ.
fn differ(rt: &impl Abort, m: &Mealy, q: u16, p: u16, word: &[u16]) -> bool {
    let (mut first, mut second) = (q, p);
    for x in word {
        assert!(rt; first < m.states() && second < m.states() && *x < m.inputs());
        let (to, output) = m.step(first, *x);
        let (other_to, other_output) = m.step(second, *x);
        if output != other_output {
            return true;
        }
        (first, second) = (to, other_to);
    }
    false
}

/// The first of the words on which two states differ.
fn first_of<'a>(rt: &impl Abort, m: &Mealy, q: u16, p: u16, words: &'a Words) -> Option<&'a Word> {
    for word in words.as_slice() {
        if differ(rt, m, q, p, word.as_slice()) {
            return Some(word);
        }
    }
    None
}

/// The identification set of a state among words.
fn identification(rt: &impl Abort, alloc: Global, m: &Mealy, q: u16, among: &Words) -> Words {
    let mut set = Words::new(alloc);
    for p in 0..m.states() {
        if first_of(rt, m, q, p, &set).is_some() {
            continue;
        }
        if let Some(word) = first_of(rt, m, q, p, among) {
            put(rt, &mut set, word.copy().expect(rt, "memory"));
        }
    }
    set
}

/// The state to which a word leads.
fn state_after(rt: &impl Abort, m: &Mealy, word: &[u16]) -> u16 {
    let mut state = m.initial();
    for x in word {
        assert!(rt; state < m.states() && *x < m.inputs());
        state = m.step(state, *x).0;
    }
    state
}

/// Puts an access word with each middle word, and behind these what identifies the state that is reached.
fn identified(
    rt: &impl Abort,
    alloc: Global,
    m: &Mealy,
    all: &mut Words,
    access: &Word,
    middles: &Words,
    among: &Words,
) {
    for middle in middles.as_slice() {
        let front = join(access, middle).expect(rt, "memory");
        let state = state_after(rt, m, front.as_slice());
        with_ends(rt, all, &front, &identification(rt, alloc, m, state, among));
    }
}

/// The words of so many letters.
fn exactly(rt: &impl Abort, alloc: Global, inputs: u16, letters: u8) -> Words {
    let mut level = Words::new(alloc);
    put(rt, &mut level, Word::new(alloc));
    for _ in 0..letters {
        level = longer(rt, alloc, &level, inputs);
    }
    level
}

/// The whole Wp-suite of a machine that is canonical.
pub(super) fn wp_suite(rt: &impl Abort, alloc: Global, m: &Mealy, extra: u8) -> Words
    requires { IsMinimal m.now.inputs m.now.rows }
{
    let shorter = middles(rt, alloc, m.inputs(), extra);
    let mut all = suite_of(rt, alloc, m, &shorter);
    let longest = exactly(rt, alloc, m.inputs(), extra.saturating_add(1));
    let among = separators(alloc, m).expect(rt, "memory");
    let least = least_access(alloc, m).expect(rt, "memory");
    for access in least.as_slice() {
        identified(rt, alloc, m, &mut all, access, &longest, &among);
    }
    all
}

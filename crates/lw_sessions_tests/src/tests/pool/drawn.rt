//! Drawn machines and batches: what sessions keep together is what one loop over the batch would ask.
use crate::tests::are_below;
use crate::tests::pool::crews::{all_words, machine, plans_of, pool_of, settle};
use lw_cache::{Cache, Known};
use lw_mealy::Mealy;
use lw_words::{Kept, KeptAnswer, Word};
use rand_core::SeedableRng;
use rand_core::utils::NextWord;
use rand_pcg::Lcg128Xsl64;
use std::alloc::Global;
use std::process::Abort;
use std::sync::Wait;
use std::thread::Threads;

/// A drawn number below `bound`.
fn draw(numbers: &mut Lcg128Xsl64, bound: u16) -> u16 {
    (numbers.next_word() % u64::from(bound.max(1))) as u16
}

/// Three drawn states.
fn drawn_rows(numbers: &mut Lcg128Xsl64) -> [[(u16, u16); 2]; 3] {
    let mut rows = [[(0, 0); 2]; 3];
    for q in 0..3 {
        for x in 0..2 {
            rows[q][x] = (draw(numbers, 3), draw(numbers, 2));
        }
    }
    rows
}

/// A drawn word of at most four letters.
fn drawn_word(rt: &impl Abort, alloc: Global, numbers: &mut Lcg128Xsl64) -> Word {
    let mut word = Word::new(alloc);
    for _ in 0..draw(numbers, 5) {
        word.push(draw(numbers, 2)).expect(rt, "memory");
    }
    word
}

/// Twelve of them.
fn drawn_batch(rt: &impl Abort, alloc: Global, numbers: &mut Lcg128Xsl64) -> Vec<Word> {
    let mut batch = Vec::new(alloc);
    for _ in 0..12u16 {
        let word = drawn_word(rt, alloc, numbers);
        batch.push(word).expect(rt, "memory");
    }
    batch
}

/// Whether the word of a place has to be asked: it has letters, begins no longer word, and stands at no place before.
fn is_asked(batch: &[Word], place: usize) -> bool {
    let Some(word) = batch.get(place) else {
        return false;
    };
    let mut asked = word.len() > 0;
    for (i, other) in batch.iter().enumerate() {
        let begins = other.as_slice().starts_with(word.as_slice());
        asked = asked && !(begins && (other.len() > word.len() || i < place));
    }
    asked
}

/// Whether an answer is the machine's to this word.
fn answers(rt: &impl Abort, m: &Mealy, k: &KeptAnswer, word: &Word) -> bool {
    if m.inputs() != 2 || !are_below(word.as_slice(), 2) {
        return false;
    }
    let outs = m.answer(word).expect(rt, "memory");
    k.word.as_slice() == word.as_slice() && k.outs.as_slice() == outs.as_slice()
}

/// How many of the recorded answers are the machine's to this word.
fn answers_to(rt: &impl Abort, m: &Mealy, kept: &Kept, word: &Word) -> usize {
    let mut count = 0usize;
    for i in 0..kept.len() {
        if answers(rt, m, kept.get(i), word) {
            count = count.saturating_add(1);
        }
    }
    count
}

/// Whether what is kept is just the machine's answers to the words that have to be asked, each once.
fn is_kept(rt: &impl Abort, m: &Mealy, kept: &Kept, batch: &[Word]) -> bool {
    let mut asked = 0usize;
    let mut right = true;
    for (place, word) in batch.iter().enumerate() {
        if is_asked(batch, place) {
            asked = asked.saturating_add(1);
            right = right && answers_to(rt, m, kept, word) == 1;
        }
    }
    right && kept.len() == asked
}

/// Whether a word begins one of the batch.
fn begins_one(batch: &[Word], word: &Word) -> bool {
    for longer in batch {
        if longer.as_slice().starts_with(word.as_slice()) {
            return true;
        }
    }
    false
}

/// Whether of the words of three letters just those are known that begin one of the batch.
fn knows(rt: &impl Abort, alloc: Global, cache: &Cache, batch: &[Word]) -> bool {
    let mut right = true;
    for word in &all_words(rt, alloc, 3) {
        right = right && begins_one(batch, word) == (cache.known(word) == Known::Yes);
    }
    right
}

/// The rows of a machine of three states.
type Rows = [[(u16, u16); 2]; 3];

/// Whether a cache keeps and knows what comes of a batch.
fn is_filled(rt: &impl Abort, alloc: Global, cache: &Cache, rows: &Rows, batch: &[Word]) -> bool {
    let kept = is_kept(rt, &machine(rt, alloc, rows), cache.kept(), batch);
    kept && knows(rt, alloc, cache, batch)
}

/// Lets so many sessions settle a batch; whether all came as it should.
fn settles_batch<R: Abort + Threads + Wait + Sync + Copy + Drop>(
    rt: R,
    alloc: Global,
    count: usize,
    rows: &Rows,
    batch: &[Word],
) -> bool {
    let mut pool = pool_of(rt, alloc, plans_of(&rt, alloc, rows, count));
    let settled = settle(&rt, &mut pool, batch).is_ok();
    settled && is_filled(&rt, alloc, pool.cache(), rows, batch)
}

/// The same of a drawn machine and a drawn batch.
fn settles_drawn<R: Abort + Threads + Wait + Sync + Copy + Drop>(
    rt: R,
    alloc: Global,
    count: usize,
) -> bool {
    let mut numbers = Lcg128Xsl64::seed_from_u64(count as u64);
    let rows = drawn_rows(&mut numbers);
    let batch = drawn_batch(&rt, alloc, &mut numbers);
    settles_batch(rt, alloc, count, &rows, &batch)
}

#[test]
fn drawn_batches_beside_a_plain_loop(rt: HostRuntime) {
    for count in [1usize, 2, 8, 16] {
        assert!(rt; settles_drawn(rt, rt.alloc(), count));
    }
}

//! A module for each crate that is tested, and what they share.

mod cache;
mod plain_run;
mod rounds;
mod settle;
mod table;
mod tree;

use lw_words::Words;
use test_oracle::Recording;

/// Whether a list has just these words, in this order.
fn are(words: &Words, expected: &[&[u16]]) -> bool {
    let words = words.as_slice();
    if words.len() != expected.len() {
        return false;
    }
    for number in 0..words.len() {
        if words[number].as_slice() != expected[number] {
            return false;
        }
    }
    true
}

/// A batch by its number, and its words in their order.
struct Batch {
    number: usize,
    words: &'static [&'static [u16]],
}

/// Whether an oracle settled so many batches, and these among them.
fn has_settled(oracle: &Recording, count: usize, batches: &[Batch]) -> bool {
    for batch in batches {
        if !oracle.asked(batch.number, batch.words) {
            return false;
        }
    }
    oracle.batches().len() == count
}

//! Shortlex order.
ghost use Rattle.std.specs.Prelude.{◌≡◌};
ghost use Rattle.lw_words.specs.Word.{shortlex_cmp, IsOrderOfWords};

use crate::Word;
use std::cmp::Ordering;

/// Compares words in shortlex order: the shorter word first, then by the first different letter. Takes no memory.
pub fn shortlex(a: &Word, b: &Word) -> Ordering
    ensures { result ≡ shortlex_cmp a.now b.now }
{
    a.len().cmp(&b.len()).then(a.as_slice().cmp(b.as_slice()))
}

/// A law, with no code: shortlex is a total order in which only equal words are equal.
pub fn shortlex_is_an_order()
    ensures { IsOrderOfWords }
{}

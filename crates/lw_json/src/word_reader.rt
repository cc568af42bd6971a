//! Reads words: the names of their letters, with one blank between them.

ghost use Rattle.std.specs.Prelude.{◌≡◌, ◌==◌, IfOk, map, option_map};
ghost use Rattle.std.specs.List.{slice_split};
ghost use Rattle.lw_json.specs.Formats.{each_of, word_of};
ghost use Rattle.lw_words.specs.Word.{number_of};

use lw_words::{Names, NoMemory, Word};
use std::alloc::{AllocError, Global};

/// The pieces between the blanks.
fn pieces(alloc: Global, text: &str) -> Result<Vec<&str>, AllocError>
    ensures { IfOk result (λ v. map (λ x. x.now) v.items ≡ slice_split (λ c. c == 32) text.now) }
{
    text.split(' ').collect(alloc)
}

/// The numbers of these names, or None where one is no name.
fn letters(alloc: Global, names: &Names, pieces: &[&str]) -> Result<Option<Vec<u16>>, NoMemory>
    ensures { IfOk result (λ r. option_map (λ v. v.items) r
        ≡ each_of (λ name. number_of name names.now) (map (λ x. x.now) pieces.now)) }
{
    let mut letters = Vec::with_capacity(alloc, pieces.len())?;
    for piece in pieces {
        let Some(letter) = names.number(piece) else {
            return Ok(None);
        };
        letters.push(letter)?;
    }
    Ok(Some(letters))
}

/// The word of a text, or None where the text is none.
pub fn read_word(alloc: Global, names: &Names, text: &str) -> Result<Option<Word>, NoMemory>
    ensures { IfOk result (λ r. r ≡ word_of names.now text.now) }
{
    if text.is_empty() {
        return Ok(Some(Word::new(alloc)));
    }
    let pieces = pieces(alloc, text)?;
    match letters(alloc, names, &pieces)? {
        Some(letters) => Ok(Some(Word::from_letters(alloc, letters))),
        None => Ok(None),
    }
}

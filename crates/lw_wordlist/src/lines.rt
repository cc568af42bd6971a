//! The words of a text of lines.
ghost use Rattle.std.specs.Prelude.{◌≡◌, ◌<◌, ℕ, length, map, Some, Err, IfOk};
ghost use Rattle.std.specs.List.{All};
ghost use Rattle.std.specs.Io.BufRead.{strip_last};
ghost use Rattle.lw_words.specs.Word.{IsWord};
ghost use Rattle.lw_wordlist.specs.Lines.{lines_in};
ghost use Rattle.lw_wordlist.specs.Words.{IsFirstUnknown, words_of_texts};
ghost use Rattle.lw_wordlist.specs.declared.words.WordStop.{WordStop as Whole};

use crate::words::{WordStop, words_from};
use lw_words::{Names, Words};
use std::alloc::{AllocError, Global};

/// A text without this character at its end, if it has it there.
fn without_last(text: &str, last: char) -> &str
    requires { last < 128 }
    ensures { result.now ≡ strip_last last text.now }
{
    text.strip_suffix(last).unwrap_or(text)
}

/// The lines of a text.
fn lines_of(alloc: Global, text: &str) -> Result<Vec<&str>, AllocError>
    ensures { IfOk result (λ lines. map (λ l. l.now) lines.items ≡ lines_in text.now) }
{
    if text.is_empty() {
        return Ok(Vec::new(alloc));
    }
    without_last(text, '\n')
        .split('\n')
        .map(|line| without_last(line, '\r'))
        .collect(alloc)
}

/// The words of a text of lines. Each line is a word, the names of its letters with blanks between them, and so the number of a
/// word is that of its line; a line without names is the empty word. A line ends in a line feed, which the last one may lack, and
/// a carriage return at the end of a line is passed over.
///
/// # Errors
/// `Unknown` at the first line that has a name which is no letter's, with the first such name in it.
pub fn read_lines(alloc: Global, letters: &Names, text: &str) -> Result<Words, WordStop>
    ensures ok { IfOk result (λ ws. words_of_texts letters.now (lines_in text.now) ≡ Some ws) }
    ensures words { IfOk result (All (IsWord (length letters.now))) }
    ensures err { (word place : ℕ) → result ≡ Err (Whole.Unknown word place) →
        IsFirstUnknown letters.now (lines_in text.now) word place }
{
    let lines = lines_of(alloc, text)?;
    words_from(alloc, letters, &lines)
}

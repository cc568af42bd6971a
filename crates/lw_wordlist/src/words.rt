//! Words as texts: the names of their letters, with blanks between them.
ghost use Rattle.std.specs.Prelude.{◌≡◌, ◌+◌, ◌∷◌, ◌++◌, ℕ, [], length, map, Contains, Some, Err, IfOk, OnOk, string_bytes};
ghost use Rattle.std.specs.List.{All};
ghost use Rattle.lw_words.specs.Word.{IsWord};
ghost use Rattle.lw_wordlist.specs.Words.{HasLetters, IsFirstUnknown, IsUnknownIn, names_in, word_of_names, words_of_texts};
ghost use Rattle.lw_wordlist.specs.declared.words.LetterStop.{LetterStop as Stop};
ghost use Rattle.lw_wordlist.specs.declared.words.WordStop.{WordStop as Whole};

use lw_words::{Names, NoMemory, Word, Words};
use std::alloc::{AllocError, Global};

/// Why texts are no words.
#[derive(Clone, Copy, Debug, PartialEq, Eq)]
pub enum WordStop {
    /// The name at this place of the word of this number, both counted from 1, is no letter's.
    Unknown { word: u64, place: u64 },
    NoMemory,
}

/// Why a text is no word.
#[derive(Clone, Copy, Debug, PartialEq, Eq)]
enum LetterStop {
    /// The name at this place, counted from 1, is no letter's.
    Unknown(u64),
    NoMemory,
}

impl From<NoMemory> for LetterStop {
    ghost use Rattle.std.specs.Prelude.{◌≡◌};
    ghost use Rattle.lw_wordlist.specs.declared.words.LetterStop.TheVariants.{NoMemory as Wanted};

    ghost from_gives = { λ _ stop. stop ≡ Wanted };

    fn from(_: NoMemory) -> LetterStop {
        LetterStop::NoMemory
    }
}

impl From<NoMemory> for WordStop {
    ghost use Rattle.std.specs.Prelude.{◌≡◌};
    ghost use Rattle.lw_wordlist.specs.declared.words.WordStop.TheVariants.{NoMemory as Wanted};

    ghost from_gives = { λ _ stop. stop ≡ Wanted };

    fn from(_: NoMemory) -> WordStop {
        WordStop::NoMemory
    }
}

impl From<AllocError> for LetterStop {
    ghost use Rattle.std.specs.Prelude.{◌≡◌};
    ghost use Rattle.lw_wordlist.specs.declared.words.LetterStop.TheVariants.{NoMemory as Wanted};

    ghost from_gives = { λ _ stop. stop ≡ Wanted };

    fn from(_: AllocError) -> LetterStop {
        LetterStop::NoMemory
    }
}

impl From<AllocError> for WordStop {
    ghost use Rattle.std.specs.Prelude.{◌≡◌};
    ghost use Rattle.lw_wordlist.specs.declared.words.WordStop.TheVariants.{NoMemory as Wanted};

    ghost from_gives = { λ _ stop. stop ≡ Wanted };

    fn from(_: AllocError) -> WordStop {
        WordStop::NoMemory
    }
}

/// The names in a text: what stands between its blanks.
fn names_of(alloc: Global, text: &str) -> Result<Vec<&str>, AllocError>
    ensures { IfOk result (λ names. map (λ n. n.now) names.items ≡ names_in text.now) }
{
    text.split(' ')
        .filter(|name| !name.is_empty())
        .collect(alloc)
}

/// The word of these names.
fn word_from(alloc: Global, letters: &Names, names: &[&str]) -> Result<Word, LetterStop>
    ensures ok { IfOk result
        (λ w. word_of_names letters.now (map (λ n. n.now) names.now) ≡ Some w) }
    ensures word { IfOk result (IsWord (length letters.now)) }
    ensures all { IfOk result (λ w. All (Contains letters.now) (map (λ n. n.now) names.now)) }
    ensures err { (place : ℕ) → result ≡ Err (Stop.Unknown place) →
        IsUnknownIn letters.now (map (λ n. n.now) names.now) place }
{
    let mut word = Word::new(alloc);
    for (place, name) in names.iter().enumerate() {
        let Some(letter) = letters.number(name) else {
            return Err(LetterStop::Unknown(place as u64 + 1));
        };
        word.push(letter)?;
    }
    Ok(word)
}

/// The word of a text.
fn read_word(alloc: Global, letters: &Names, text: &str) -> Result<Word, LetterStop>
    ensures ok { IfOk result (λ w. word_of_names letters.now (names_in text.now) ≡ Some w) }
    ensures word { IfOk result (IsWord (length letters.now)) }
    ensures all { IfOk result (λ w. HasLetters letters.now text.now) }
    ensures err { (place : ℕ) → result ≡ Err (Stop.Unknown place) →
        IsUnknownIn letters.now (names_in text.now) place }
{
    let names = names_of(alloc, text)?;
    word_from(alloc, letters, &names)
}

/// Puts a word last.
pub(crate) fn push_word(words: &mut Words, word: Word) -> Result<(), NoMemory>
    ensures { OnOk result (words.new ≡ words.old ++ word ∷ []) }
{
    match words.push(word) {
        Ok(()) => Ok(()),
        Err((_, NoMemory)) => Err(NoMemory),
    }
}

/// Why the text of this number is no word.
fn stop_in(word: u64, stop: LetterStop) -> WordStop
    ensures { (number place : ℕ) → result ≡ Whole.Unknown number place →
        (number ≡ word) × (stop ≡ Stop.Unknown place) }
{
    match stop {
        LetterStop::Unknown(place) => WordStop::Unknown { word, place },
        LetterStop::NoMemory => WordStop::NoMemory,
    }
}

/// The words of texts.
pub(crate) fn words_from(alloc: Global, letters: &Names, texts: &[&str]) -> Result<Words, WordStop>
    ensures ok { IfOk result (λ ws.
        words_of_texts letters.now (map (λ t. t.now) texts.now) ≡ Some ws) }
    ensures words { IfOk result (All (IsWord (length letters.now))) }
    ensures err { (word place : ℕ) → result ≡ Err (Whole.Unknown word place) →
        IsFirstUnknown letters.now (map (λ t. t.now) texts.now) word place }
{
    let mut words = Words::new(alloc);
    for (number, text) in texts.iter().enumerate() {
        let word = match read_word(alloc, letters, text) {
            Ok(word) => word,
            Err(stop) => return Err(stop_in(number as u64 + 1, stop)),
        };
        push_word(&mut words, word)?;
    }
    Ok(words)
}

/// The texts, borrowed.
fn borrowed(alloc: Global, texts: &[String]) -> Result<Vec<&str>, AllocError>
    ensures { IfOk result (λ borrowed.
        map (λ t. t.now) borrowed.items ≡ map (λ s. string_bytes s) texts.now) }
{
    texts.iter().map(|text| text.as_str()).collect(alloc)
}

/// The words of these texts.
pub fn read_words(alloc: Global, letters: &Names, texts: &[String]) -> Result<Words, WordStop>
    ensures ok { IfOk result (λ ws.
        words_of_texts letters.now (map (λ s. string_bytes s) texts.now) ≡ Some ws) }
    ensures words { IfOk result (All (IsWord (length letters.now))) }
    ensures err { (word place : ℕ) → result ≡ Err (Whole.Unknown word place) →
        IsFirstUnknown letters.now (map (λ s. string_bytes s) texts.now) word place }
{
    let texts = borrowed(alloc, texts)?;
    words_from(alloc, letters, &texts)
}

//! What words give to a command.
ghost use Rattle.std.specs.Prelude.{◌≡◌, ◌++◌, IfOk, OnOk, map, option_map, string_bytes};
ghost use Rattle.clap.specs.Lexer.{long_of, name_and_value, short_of, strip_byte};
ghost use Rattle.lw_top.specs.CommandLine.{texts};
ghost use Rattle.lw_top.specs.Given.{Text, first_word, given_by, given_short, given_values, givens, is_dashed, is_end, takes_next, value_behind, value_in};
ghost use Rattle.lw_top.specs.Syntaxes.{entry_values};

use crate::options::{Entry, has_flag};
use std::alloc::{AllocError, Global};

/// One thing that words give.
#[derive(Clone, Copy)]
pub(crate) enum Given<'a> {
    /// An option, with its value, if it has one.
    Named(&'a str, Option<&'a str>),
    /// A word of an option of one letter.
    Flag(&'a str),
    /// A text that is no option's value.
    Text(&'a str),
}

/// What follows a first hyphen.
fn strip_dash(word: &str) -> Option<&str>
    ensures { option_map (λ s. s.now) result ≡ strip_byte 45 word.now }
{
    word.strip_prefix('-')
}

/// What is before the first `=`, and what is behind it, if there is one.
fn split_value(text: &str) -> (&str, Option<&str>)
    ensures { (result.0.now, option_map (λ s. s.now) result.1) ≡ name_and_value text.now }
{
    match text.split_once('=') {
        Some((name, value)) => (name, Some(value)),
        None => (text, None),
    }
}

/// `--name` or `--name=value`, as the name and the value.
fn to_long(word: &str) -> Option<(&str, Option<&str>)>
    ensures { option_map (λ p. (p.0.now, option_map (λ s. s.now) p.1)) result ≡ long_of word.now }
{
    let rest = strip_dash(strip_dash(word)?)?;
    if rest.is_empty() {
        return None;
    }
    Some(split_value(rest))
}

/// What follows the hyphen of `-abc`.
fn to_short(word: &str) -> Option<&str>
    ensures { option_map (λ s. s.now) result ≡ short_of word.now }
{
    let rest = strip_dash(word)?;
    if rest.is_empty() || strip_dash(rest).is_some() {
        None
    } else {
        Some(rest)
    }
}

/// Whether all words behind this one are texts.
fn is_end(word: &str) -> bool
    ensures { result ≡ is_end word.now }
{
    word == "--"
}

/// Whether a word is no value of an option in the word before.
fn is_dashed(word: &str) -> bool
    ensures { result ≡ is_dashed word.now }
{
    to_long(word).is_some() || to_short(word).is_some() || is_end(word)
}

/// The next word, where it may be a value.
fn value_in<'a>(next: Option<&'a str>) -> Option<&'a str>
    ensures { option_map (λ s. s.now) result ≡ value_in (option_map (λ s. s.now) next.entry) }
{
    let word = next?;
    if is_dashed(word) {
        return None;
    }
    Some(word)
}

/// The value of an option whose word has none: the next word, where it may be one. A flag has none.
fn value_behind<'a>(entries: &[Entry], name: &str, next: Option<&'a str>) -> Option<&'a str>
    ensures { option_map (λ s. s.now) result ≡ value_behind (map entry_values entries.now)
        name.now (option_map (λ s. s.now) next.entry) }
{
    if has_flag(entries, name) {
        return None;
    }
    value_in(next)
}

/// Whether the word before has the next one for its value.
fn takes_next(entries: &[Entry], before: Option<&str>) -> bool
    ensures { result ≡ takes_next (map entry_values entries.now)
        (option_map (λ s. s.now) before.entry) }
{
    let Some(word) = before else {
        return false;
    };
    match to_long(word) {
        Some((name, None)) => !has_flag(entries, name),
        _ => false,
    }
}

/// What a word that is no long option gives.
fn given_short<'a>(entries: &[Entry], before: Option<&str>, word: &'a str) -> Option<Given<'a>>
    ensures { option_map given_values result ≡ given_short (map entry_values entries.now)
        (option_map (λ s. s.now) before.entry) word.now }
{
    if to_short(word).is_some() {
        return Some(Given::Flag(word));
    }
    if takes_next(entries, before) {
        return None;
    }
    Some(Given::Text(word))
}

/// What a word gives to a command with these arguments, by the words beside it.
fn given_by<'a>(
    entries: &[Entry],
    before: Option<&str>,
    word: &'a str,
    next: Option<&'a str>,
) -> Option<Given<'a>>
    ensures { option_map given_values result ≡ given_by (map entry_values entries.now)
        (option_map (λ s. s.now) before.entry) word.now (option_map (λ s. s.now) next.entry) }
{
    match to_long(word) {
        Some((name, value)) => match value {
            Some(value) => Some(Given::Named(name, Some(value))),
            None => Some(Given::Named(name, value_behind(entries, name, next))),
        },
        None => given_short(entries, before, word),
    }
}

/// The first of some words.
fn first_word(words: &[String]) -> Option<&str>
    ensures { option_map (λ s. s.now) result ≡ first_word (texts words.now) }
{
    match words.first() {
        Some(word) => Some(word.as_str()),
        None => None,
    }
}

/// Appends words that are texts.
fn put_texts<'a>(list: &mut Vec<Given<'a>>, words: &'a [String]) -> Result<(), AllocError>
    ensures { OnOk result (map given_values list.new.items ≡ map given_values list.old.items ++
        map Text (texts words.now)) }
{
    for word in words {
        list.push(Given::Text(word.as_str()))?;
    }
    Ok(())
}

/// What words give to a command with these arguments.
pub(crate) fn givens<'a>(
    alloc: Global,
    entries: &[Entry],
    words: &'a [String],
) -> Result<Vec<Given<'a>>, AllocError>
    ensures { IfOk result (λ list. map given_values list.items ≡
        givens (map entry_values entries.now) (texts words.now)) }
{
    let mut list = Vec::new(alloc);
    let mut before = None;
    let mut rest = words;
    while let Some((word, behind)) = rest.split_first() {
        let word = word.as_str();
        if is_end(word) {
            put_texts(&mut list, behind)?;
            return Ok(list);
        }
        if let Some(given) = given_by(entries, before, word, first_word(behind)) {
            list.push(given)?;
        }
        before = Some(word);
        rest = behind;
    }
    Ok(list)
}

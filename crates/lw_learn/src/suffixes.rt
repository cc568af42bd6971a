//! The shortest suffix by which recorded answers tell two words apart, for a person who looks for a state too many.

use lw_words::{Kept, KeptAnswer, Names, NoMemory, Words, put_word};
use std::alloc::Global;

/// How many answers behind a word are looked at: each is compared with each behind the other word.
const MOST_TAILS: usize = 4_096;

/// What was asked behind a word, and what came.
#[derive(Clone, Copy)]
struct Tail<'a> {
    letters: &'a [u16],
    outs: &'a [u16],
}

/// A suffix, and what came of it behind each of two words: the last outputs differ.
#[derive(Clone, Copy)]
struct Suffix<'a> {
    letters: &'a [u16],
    left: &'a [u16],
    right: &'a [u16],
}

/// What an answer tells behind a word, where it begins with it.
fn tail_of<'a>(answer: &'a KeptAnswer, word: &[u16]) -> Option<Tail<'a>> {
    Some(Tail {
        letters: answer.word.as_slice().strip_prefix(word)?,
        outs: answer.outs.as_slice().get(word.len()..)?,
    })
}

/// What the first answers tell behind a word.
fn tails_of<'a>(alloc: Global, kept: &'a Kept, word: &[u16]) -> Result<Vec<Tail<'a>>, NoMemory> {
    let mut tails = Vec::new(alloc);
    for number in 0..kept.len() {
        if tails.len() == MOST_TAILS {
            break;
        }
        if let Some(tail) = tail_of(kept.get(number), word) {
            tails.push(tail)?;
        }
    }
    Ok(tails)
}

/// The place of the first outputs that differ, behind letters that don't, where that is below a limit.
fn place_apart(left: Tail<'_>, right: Tail<'_>, limit: usize) -> Option<usize> {
    for place in 0..limit {
        if left.letters.get(place)? != right.letters.get(place)? {
            return None;
        }
        if left.outs.get(place)? != right.outs.get(place)? {
            return Some(place);
        }
    }
    None
}

/// The suffix by which two tails differ first, where it has at most this length.
fn suffix_of<'a>(left: Tail<'a>, right: Tail<'a>, most: usize) -> Option<Suffix<'a>> {
    let last = place_apart(left, right, most)?;
    Some(Suffix {
        letters: left.letters.get(..=last)?,
        left: left.outs.get(..=last)?,
        right: right.outs.get(..=last)?,
    })
}

/// The greatest length of a suffix that is shorter than this one.
fn below(best: Option<Suffix<'_>>) -> usize {
    match best {
        Some(suffix) => suffix.letters.len().saturating_sub(1),
        None => usize::MAX,
    }
}

/// The shortest suffix by which a tail differs from one of the others, where it is shorter than this one.
fn shorter<'a>(
    left: Tail<'a>,
    others: &[Tail<'a>],
    mut best: Option<Suffix<'a>>,
) -> Option<Suffix<'a>> {
    for right in others {
        if let Some(suffix) = suffix_of(left, *right, below(best)) {
            best = Some(suffix);
        }
    }
    best
}

/// The shortest suffix by which one of the tails differs from one of the others.
fn shortest<'a>(tails: &[Tail<'a>], others: &[Tail<'a>]) -> Option<Suffix<'a>> {
    let mut best = None;
    for left in tails {
        best = shorter(*left, others, best);
    }
    best
}

/// The shortest suffix by which the first answers behind two words tell them apart, if one does.
fn suffix_between<'a>(
    alloc: Global,
    kept: &'a Kept,
    left: &[u16],
    right: &[u16],
) -> Result<Option<Suffix<'a>>, NoMemory> {
    let tails = tails_of(alloc, kept, left)?;
    let others = tails_of(alloc, kept, right)?;
    Ok(shortest(&tails, &others))
}

/// Puts a text and then a word behind a text.
fn put_behind(
    text: &mut String,
    between: &str,
    names: &Names,
    word: &[u16],
) -> Result<(), NoMemory> {
    text.push_str(between)?;
    put_word(text, names, word)
}

/// The line about two words and a suffix that tells them apart.
fn suffix_line(
    alloc: Global,
    inputs: &Names,
    outputs: &Names,
    words: (&[u16], &[u16]),
    suffix: Suffix<'_>,
) -> Result<String, NoMemory> {
    let mut line = String::new(alloc);
    put_behind(&mut line, "apart: ", inputs, words.0)?;
    put_behind(&mut line, " and ", inputs, words.1)?;
    put_behind(&mut line, " by ", inputs, suffix.letters)?;
    put_behind(&mut line, ": ", outputs, suffix.left)?;
    put_behind(&mut line, " and ", outputs, suffix.right)?;
    line.push_str("\n")?;
    Ok(line)
}

/// The line about the shortest suffix by which answers tell the last two of some words apart, if one does.
pub(crate) fn apart_line(
    alloc: Global,
    inputs: &Names,
    outputs: &Names,
    words: &Words,
    kept: &Kept,
) -> Result<Option<String>, NoMemory> {
    let [.., left, right] = words.as_slice() else {
        return Ok(None);
    };
    let (left, right) = (left.as_slice(), right.as_slice());
    match suffix_between(alloc, kept, left, right)? {
        Some(suffix) => Ok(Some(suffix_line(alloc, inputs, outputs, (left, right), suffix)?)),
        None => Ok(None),
    }
}

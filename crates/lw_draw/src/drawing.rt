//! Words that are drawn by a number.
ghost use Rattle.std.specs.Prelude.{◌≡◌, ◌%◌, ◌<◌, ◌≤◌, ◌++◌, IfOk, OnOk};
ghost use Rattle.lw_draw.specs.Drawn.{after_draws, draw_at, drawn_word, drawn_words};

use crate::Generator;
use lw_words::{NoMemory, Word, Words};
use std::alloc::Global;

/// Words that are drawn: how many, how many letters are drawn for each, and the seed of the generator.
#[derive(Clone, Copy, Debug, PartialEq, Eq)]
pub struct Drawn {
    pub count: u32,
    pub length: u32,
    pub seed: u64,
}

/// A letter: what the next number leaves when it is divided by the number of inputs.
fn draw_letter(random: &mut Generator, inputs: u16) -> u16
    requires { 1 ≤ inputs }
    ensures letter { result ≡ draw_at random.old 0 % inputs }
    ensures random { random.new ≡ after_draws random.old 1 }
{
    let number = random.draw() % u64::from(inputs);
    number as u16
}

/// Appends this many letters.
pub(crate) fn draw_letters(
    word: &mut Word,
    random: &mut Generator,
    inputs: u16,
    count: u32,
) -> Result<(), NoMemory>
    requires { 1 ≤ inputs }
    ensures word { OnOk result (word.new ≡ word.old ++ drawn_word inputs count random.old) }
    ensures random { OnOk result (random.new ≡ after_draws random.old count) }
{
    for _ in 0..count {
        word.push(draw_letter(random, inputs))?;
    }
    Ok(())
}

/// A word of this many letters.
fn draw_word(
    alloc: Global,
    random: &mut Generator,
    inputs: u16,
    word_length: u32,
) -> Result<Word, NoMemory>
    requires { 1 ≤ inputs }
    ensures word { IfOk result (λ w. w ≡ drawn_word inputs word_length random.old) }
    ensures random { OnOk result (random.new ≡ after_draws random.old word_length) }
{
    let mut word = Word::new(alloc);
    draw_letters(&mut word, random, inputs, word_length)?;
    Ok(word)
}

/// Puts this many words of this many letters each behind these, drawn by a seed. Each letter is the next number of the
/// seed modulo the number of inputs: first the letters of the first word, then those of the second, and so on.
///
/// # Errors
/// Only where memory runs out: then some of the words stand there.
pub fn draw_words(
    alloc: Global,
    words: &mut Words,
    inputs: u16,
    count: u32,
    word_length: u32,
    seed: u64,
) -> Result<(), NoMemory>
    requires { 1 ≤ inputs }
    ensures { OnOk result (words.new ≡ words.old ++ drawn_words inputs count word_length seed) }
{
    let mut random = Generator::of_seed(seed);
    for _ in 0..count {
        words.push(draw_word(alloc, &mut random, inputs, word_length)?)?;
    }
    Ok(())
}

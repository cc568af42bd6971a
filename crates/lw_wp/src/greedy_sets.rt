//! Greedy sets of words, by which a state is separated from all others: each word is chosen by how many states it separates.
ghost use Rattle.std.specs.Prelude.{◌≡◌, ◌<◌, [], length, map, not, nat_eq, IfOk, slice_index_or};
ghost use Rattle.std.specs.List.{All, IsFirstMaxByKey, count_by, filter};
ghost use Rattle.lw_wp.specs.bodies.Chosen.{IsSeparation};
ghost use Rattle.lw_wp.specs.GreedySuite.{AreGreedySets, IsGreedy, is_alike, separated_of, states_of};

use crate::separation::{Separation, classes_on, separates};
use lw_mealy::Mealy;
use lw_words::NoMemory;
use std::alloc::Global;

/// All states.
fn all_states(alloc: Global, m: &Mealy) -> Result<Vec<u16>, NoMemory>
    ensures { IfOk result (λ states. states.items ≡ states_of m.now.rows) }
{
    let mut states = Vec::with_capacity(alloc, usize::from(m.states()))?;
    for q in 0..m.states() {
        states.push(q)?;
    }
    Ok(states)
}

/// The number of classes other than this one, each as often as it stands there.
fn other_count(classes: &[u16], own: u16) -> usize
    ensures { result ≡ count_by (λ class. not (nat_eq own class)) classes.now }
{
    let mut count = 0;
    for class in classes {
        if own != *class {
            count += 1;
        }
    }
    count
}

/// How many states the word with this number separates from q, by the classes on it.
fn count_of_all(m: &Mealy, by: &Separation, number: usize, q: u16) -> usize
    requires separation { IsSeparation m.now.inputs m.now.rows by.now }
    requires number { number < length by.now.words }
    requires state { q < length m.now.rows }
    ensures { result ≡ separated_of m.now.rows q (states_of m.now.rows)
        (slice_index_or by.now.words number []) }
{
    let classes = classes_on(m, by, number);
    other_count(classes, classes[usize::from(q)])
}

/// The number of the word that separates the most of all states from q, the first of these.
fn first_word(m: &Mealy, by: &Separation, q: u16) -> u16
    requires separation { IsSeparation m.now.inputs m.now.rows by.now }
    requires state { q < length m.now.rows }
    requires some { 0 < length by.now.words }
    ensures { IsFirstMaxByKey (separated_of m.now.rows q (states_of m.now.rows)) by.now.words
        (length by.now.words) result }
{
    let _states = m.states();
    let mut first = 0;
    let mut most = count_of_all(m, by, 0, q);
    for number in 1..by.words.len() {
        let others = count_of_all(m, by, number, q);
        if others > most {
            first = number as u16;
            most = others;
        }
    }
    first
}

/// How many of the states that are left the word with this number separates from q.
fn separated_count(m: &Mealy, by: &Separation, number: usize, q: u16, left: &[u16]) -> usize
    requires separation { IsSeparation m.now.inputs m.now.rows by.now }
    requires number { number < length by.now.words }
    requires state { q < length m.now.rows }
    requires left { All (λ p. p < length m.now.rows) left.now }
    ensures { result ≡ separated_of m.now.rows q left.now (slice_index_or by.now.words number []) }
{
    let mut count = 0;
    for p in left {
        if separates(m, by, number, q, *p) {
            count += 1;
        }
    }
    count
}

/// The number of the word that separates the most of the states that are left from q, the first of these.
fn next_word(m: &Mealy, by: &Separation, q: u16, left: &[u16]) -> u16
    requires separation { IsSeparation m.now.inputs m.now.rows by.now }
    requires state { q < length m.now.rows }
    requires left { All (λ p. p < length m.now.rows) left.now }
    requires some { 0 < length by.now.words }
    ensures { IsFirstMaxByKey (separated_of m.now.rows q left.now) by.now.words
        (length by.now.words) result }
{
    let _states = m.states();
    let mut best = 0;
    let mut most = separated_count(m, by, 0, q, left);
    for number in 1..by.words.len() {
        let count = separated_count(m, by, number, q, left);
        if count > most {
            best = number as u16;
            most = count;
        }
    }
    best
}

/// Those of some states, other than q, that the word with this number doesn't separate from it.
fn alike(
    alloc: Global,
    m: &Mealy,
    by: &Separation,
    number: u16,
    q: u16,
    states: &[u16],
) -> Result<Vec<u16>, NoMemory>
    requires separation { IsSeparation m.now.inputs m.now.rows by.now }
    requires number { number < length by.now.words }
    requires state { q < length m.now.rows }
    requires states { All (λ p. p < length m.now.rows) states.now }
    ensures { IfOk result (λ left. left.items ≡
        filter (is_alike m.now.rows q (slice_index_or by.now.words number [])) states.now) }
{
    let mut left = Vec::new(alloc);
    for p in states {
        if *p != q && !separates(m, by, usize::from(number), q, *p) {
            left.push(*p)?;
        }
    }
    Ok(left)
}

/// The numbers of words that separate a state from each other one, each chosen to separate the most of those that are
/// left, the first of these in the order of the words.
///
/// The first choice counts over all classes of each word, without a list of states; after it few states are left.
fn greedy_numbers(
    alloc: Global,
    m: &Mealy,
    by: &Separation,
    all: &[u16],
    q: u16,
) -> Result<Vec<u16>, NoMemory>
    requires separation { IsSeparation m.now.inputs m.now.rows by.now }
    requires state { q < length m.now.rows }
    requires all { all.now ≡ states_of m.now.rows }
    ensures { IfOk result (λ numbers.
        IsGreedy m.now.rows by.now.words q (states_of m.now.rows) numbers.items) }
{
    let mut numbers = Vec::new(alloc);
    if by.words.len() == 0 {
        return Ok(numbers); // there is one state alone
    }
    let first = first_word(m, by, q);
    numbers.push(first)?;
    let mut left = alike(alloc, m, by, first, q, all)?;
    while !left.is_empty() {
        let next = next_word(m, by, q, left.as_slice());
        numbers.push(next)?;
        left = alike(alloc, m, by, next, q, left.as_slice())?;
    }
    Ok(numbers)
}

/// The numbers for each state.
pub(crate) fn greedy_sets(
    alloc: Global,
    m: &Mealy,
    by: &Separation,
) -> Result<Vec<Vec<u16>>, NoMemory>
    requires separation { IsSeparation m.now.inputs m.now.rows by.now }
    ensures { IfOk result (λ own. AreGreedySets m.now.rows by.now.words
        (map (λ numbers. numbers.items) own.items)) }
{
    let all = all_states(alloc, m)?;
    let mut own = Vec::with_capacity(alloc, usize::from(m.states()))?;
    for q in 0..m.states() {
        own.push(greedy_numbers(alloc, m, by, all.as_slice(), q)?)?;
    }
    Ok(own)
}

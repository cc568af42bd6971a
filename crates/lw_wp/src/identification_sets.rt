//! The identification sets of states.
ghost use Rattle.std.specs.Prelude.{◌≡◌, ◌+◌, ◌<◌, [], ◌∷◌, length, map, IfOk, OnOk};
ghost use Rattle.std.specs.List.{All};
ghost use Rattle.lw_mealy.specs.Machine.{IsMinimal};
ghost use Rattle.lw_wp.specs.Identification.{identification_below, identification_of, IsIdentification};
ghost use Rattle.lw_wp.specs.Tables.{chosen};
ghost use Rattle.lw_wp.specs.bodies.Chosen.{Chooses, IsSeparation};
ghost use Rattle.lw_wp.specs.bodies.Tables.{IsWpTable, numbers_in};

use crate::separation::{Separation, any_separates, first_separating, separation_of};
use lw_mealy::Mealy;
use lw_words::{NoMemory, Words};
use std::alloc::Global;

/// Adds the number of the first word that separates two states, where no word of the list does yet.
fn add_state(
    m: &Mealy,
    by: &Separation,
    numbers: &mut Vec<u16>,
    q: u16,
    p: u16,
) -> Result<(), NoMemory>
    requires separation { IsSeparation m.now.inputs m.now.rows by.now }
    requires first { q < length m.now.rows }
    requires second { p < length m.now.rows }
    requires so_far { Chooses by.now.words numbers.old.items
        (identification_below m.now.rows by.now.words q p) }
    ensures so_far { OnOk result (Chooses by.now.words numbers.new.items
        (identification_below m.now.rows by.now.words q (p + 1))) }
{
    if any_separates(m, by, numbers.as_slice(), q, p) {
        return Ok(());
    }
    if let Some(number) = first_separating(m, by, q, p) {
        numbers.push(number)?;
    }
    Ok(())
}

/// The numbers of the words of a state's identification set.
fn numbers_of(alloc: Global, m: &Mealy, by: &Separation, q: u16) -> Result<Vec<u16>, NoMemory>
    requires separation { IsSeparation m.now.inputs m.now.rows by.now }
    requires state { q < length m.now.rows }
    ensures { IfOk result (λ numbers. Chooses by.now.words numbers.items
        (identification_of m.now.rows by.now.words q)) }
{
    let mut numbers = Vec::new(alloc);
    for p in 0..m.states() {
        add_state(m, by, &mut numbers, q, p)?;
    }
    Ok(numbers)
}

/// A list of one list.
fn alone(alloc: Global, numbers: Vec<u16>) -> Result<Vec<Vec<u16>>, NoMemory>
    ensures { IfOk result (λ rows. map (λ row. row.items) rows.items ≡ numbers.items ∷ []) }
{
    let mut rows = Vec::with_capacity(alloc, 1)?;
    rows.push(numbers)?;
    Ok(rows)
}

/// The table of the Wp-suite: for each state the numbers of its identification set, behind the longest middle words.
pub(crate) fn wp_table(
    alloc: Global,
    m: &Mealy,
    by: &Separation,
) -> Result<Vec<Vec<Vec<u16>>>, NoMemory>
    requires separation { IsSeparation m.now.inputs m.now.rows by.now }
    ensures { IfOk result (λ table. IsWpTable m.now.rows by.now.words (numbers_in table)) }
{
    let mut table = Vec::with_capacity(alloc, usize::from(m.states()))?;
    for q in 0..m.states() {
        table.push(alone(alloc, numbers_of(alloc, m, by, q)?)?)?;
    }
    Ok(table)
}

/// Copies of the words with these numbers.
fn words_of(alloc: Global, words: &Words, numbers: &[u16]) -> Result<Words, NoMemory>
    requires { All (λ i. i < length words.now) numbers.now }
    ensures { IfOk result (λ copies. copies ≡ chosen words.now numbers.now) }
{
    let mut copies = Words::new(alloc);
    for number in numbers {
        copies.push(words.get(usize::from(*number)).copy()?)?;
    }
    Ok(copies)
}

/// The identification set of a state of a minimal machine (Fujiwara and others 1991): goes through the other states by
/// number, and adds the first separating word that separates the two, where no word of the list does yet. So its words
/// are among those of `separators`, though not in their order.
///
/// Makes the separating words, and of each the classes of states, in a step for each state and letter; behind that, a
/// step for each other state and word of the set.
pub fn identification(alloc: Global, m: &Mealy, state: u16) -> Result<Words, NoMemory>
    requires minimal { IsMinimal m.now.inputs m.now.rows }
    requires state { state < length m.now.rows }
    ensures { IfOk result (IsIdentification m.now.inputs m.now.rows state) }
{
    let by = separation_of(alloc, m)?;
    let numbers = numbers_of(alloc, m, &by, state)?;
    let words = words_of(alloc, &by.words, numbers.as_slice())?;
    Ok(words)
}

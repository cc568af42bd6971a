//! The table of the H-method: what stands behind each middle word, by the state that is reached.
ghost use Rattle.std.specs.Prelude.{◌≡◌, ◌<◌, [], ◌∷◌, length, map, IfOk, OnOk, MatchOption};
ghost use Rattle.std.specs.List.{All};
ghost use Rattle.lw_wp.specs.GreedySuite.{AreGreedyRows, AreGreedySets, first_apart};
ghost use Rattle.lw_wp.specs.bodies.Chosen.{IsSeparation};
ghost use Rattle.lw_wp.specs.bodies.HTables.{AddsStates, AreMarked, HasGreedySets, IsOfPair, IsTarget, LeadsTo};
ghost use Rattle.lw_wp.specs.bodies.Tables.{numbers_in};

use crate::greedy_sets::greedy_sets;
use crate::marks::{mark_all, marked};
use crate::separation::{Separation, separates};
use lw_mealy::Mealy;
use lw_words::NoMemory;
use std::alloc::Global;

/// Adds the targets of a state.
fn add_targets(m: &Mealy, q: u16, reached: &mut Vec<u16>) -> Result<(), NoMemory>
    requires state { q < length m.now.rows }
    requires below { All (λ p. p < length m.now.rows) reached.old.items }
    ensures { OnOk result (AddsStates m.now.rows reached.old.items reached.new.items
        (LeadsTo m.now.rows q m.now.inputs)) }
{
    for x in 0..m.inputs() {
        reached.push(m.step(q, x).0)?;
    }
    Ok(())
}

/// The states to which these lead by one letter, each as often as a letter leads to it; its contract says which they are.
fn targets(alloc: Global, m: &Mealy, states: &[u16]) -> Result<Vec<u16>, NoMemory>
    requires { All (λ p. p < length m.now.rows) states.now }
    ensures { IfOk result (λ reached. AddsStates m.now.rows [] reached.items
        (IsTarget m.now.inputs m.now.rows states.now)) }
{
    let mut reached = Vec::new(alloc);
    for q in states {
        add_targets(m, *q, &mut reached)?;
    }
    Ok(reached)
}

/// The first of these numbers whose word separates two states.
fn first_of(m: &Mealy, by: &Separation, numbers: &[u16], q: u16, p: u16) -> Option<u16>
    requires separation { IsSeparation m.now.inputs m.now.rows by.now }
    requires numbers { All (λ i. i < length by.now.words) numbers.now }
    requires first { q < length m.now.rows }
    requires second { p < length m.now.rows }
    ensures { MatchOption result
        (first_apart m.now.rows by.now.words numbers.now q p ≡ [])
        (λ i. (i < length by.now.words) ×
        (first_apart m.now.rows by.now.words numbers.now q p ≡ i ∷ [])) }
{
    for number in numbers {
        if separates(m, by, usize::from(*number), q, p) {
            return Some(*number);
        }
    }
    None
}

/// Marks of each of these states, other than q, the first number of its own whose word separates it from q.
fn mark_pairs(
    m: &Mealy,
    by: &Separation,
    own: &[Vec<u16>],
    q: u16,
    states: &[u16],
    marks: &mut [bool],
)
    requires separation { IsSeparation m.now.inputs m.now.rows by.now }
    requires own { AreGreedySets m.now.rows by.now.words (map (λ numbers. numbers.items) own.now) }
    requires state { q < length m.now.rows }
    requires states { All (λ p. p < length m.now.rows) states.now }
    requires marks { length marks.old ≡ length by.now.words }
    ensures { AreMarked marks.old marks.new
        (IsOfPair m.now.rows by.now.words (map (λ numbers. numbers.items) own.now) q states.now) }
{
    for r in states {
        if let Some(number) = first_of(m, by, own[usize::from(*r)].as_slice(), *r, q) {
            marks[usize::from(number)] = true;
        }
    }
}

/// The rows of a state: its own numbers, and behind them, row by row, those of pairs with the states that one letter more
/// leads to. The states are found level by level, as often as words lead to them: all states and levels together, that is
/// less than a suite has words, which no clause says.
fn rows_of(
    alloc: Global,
    m: &Mealy,
    by: &Separation,
    own: &[Vec<u16>],
    q: u16,
    extra: u8,
) -> Result<Vec<Vec<u16>>, NoMemory>
    requires separation { IsSeparation m.now.inputs m.now.rows by.now }
    requires own { AreGreedySets m.now.rows by.now.words (map (λ numbers. numbers.items) own.now) }
    requires state { q < length m.now.rows }
    ensures { IfOk result (λ rows. AreGreedyRows m.now.inputs m.now.rows extra by.now.words
        (map (λ numbers. numbers.items) own.now) q (map (λ row. row.items) rows.items)) }
{
    let _states = m.states();
    let mut marks = vec![in alloc; false; by.words.len()]?;
    mark_all(marks.as_mut_slice(), own[usize::from(q)].as_slice());
    let mut reached = vec![in alloc; q]?;
    let mut rows = Vec::with_capacity(alloc, usize::from(extra) + 1)?;
    rows.push(marked(alloc, marks.as_slice())?)?;
    for _letters in 0..extra {
        reached = targets(alloc, m, reached.as_slice())?;
        mark_pairs(m, by, own, q, reached.as_slice(), marks.as_mut_slice());
        rows.push(marked(alloc, marks.as_slice())?)?;
    }
    Ok(rows)
}

/// The table of a machine's suite of the H-method, for `extra` states more.
pub(crate) fn h_table(
    alloc: Global,
    m: &Mealy,
    by: &Separation,
    extra: u8,
) -> Result<Vec<Vec<Vec<u16>>>, NoMemory>
    requires separation { IsSeparation m.now.inputs m.now.rows by.now }
    ensures { IfOk result (λ table.
        HasGreedySets m.now.inputs m.now.rows extra by.now.words (numbers_in table)) }
{
    let own = greedy_sets(alloc, m, by)?;
    let mut table = Vec::with_capacity(alloc, usize::from(m.states()))?;
    for q in 0..m.states() {
        table.push(rows_of(alloc, m, by, own.as_slice(), q, extra)?)?;
    }
    Ok(table)
}

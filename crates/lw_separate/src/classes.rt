//! Classes of states by their outputs on the words of a list.
ghost use Rattle.std.specs.Prelude.{◌≡◌, ℕ, ◌<◌, ◌≤◌, [], length, map, slice_index, IfOk, OnOk};
ghost use Rattle.std.specs.Bool.{OnFalse};
ghost use Rattle.lw_words.specs.Word.{IsWord};
ghost use Rattle.lw_separate.specs.bodies.Columns.{AreColumns};
ghost use Rattle.lw_separate.specs.bodies.Classes.{AllEqual, AreClasses, AreNames, Observes};
ghost use Rattle.lw_separate.specs.bodies.Classes.{IsLeastAlike, Refines, SplitsBy, RefinesBy};

use crate::canonical_form::all_states;
use crate::columns::column_of;
use lw_mealy::Mealy;
use lw_words::{NoMemory, Word};
use std::alloc::Global;

/// One class of all states, which no word separates.
pub fn one_class(alloc: Global, m: &Mealy) -> Result<Vec<u16>, NoMemory>
    ensures { IfOk result (λ classes. AreClasses m.now.rows 0 [] classes.items) }
{
    Ok(vec![in alloc; 0u16; usize::from(m.states())]?)
}

/// Goes on by a letter from each state, from the first one on, and keeps the outputs. Answers whether two of them differ.
fn observe(column: &[(u16, u16)], ends: &mut Vec<u16>, outputs: &mut Vec<u16>, first: usize) -> bool
    requires states { (q : ℕ) → q < length ends.old.items
        → slice_index ends.old.items q < length column.now }
    requires long { length outputs.old.items ≡ length ends.old.items }
    ensures observes { Observes column.now first (length ends.old.items)
        ends.old.items ends.new.items outputs.new.items }
    ensures equal { OnFalse result (AllEqual first (length ends.old.items) outputs.new.items) }
{
    let mut differ = false;
    for q in first..ends.len() {
        let (to, output) = column[usize::from(ends[q])];
        ends[q] = to;
        outputs[q] = output;
        differ |= output != outputs[first];
    }
    differ
}

/// The least state, from the first one on, with the class and the output of a state.
fn least_alike(classes: &[u16], outputs: &[u16], first: usize, q: usize) -> u16
    requires from { first ≤ q }
    requires state { q < length classes.now }
    requires long { length outputs.now ≡ length classes.now }
    requires few { length classes.now ≤ 1024 }
    requires low { (p : ℕ) → p ≤ q → slice_index classes.now p ≤ p }
    ensures { IsLeastAlike first classes.now outputs.now q result }
{
    for p in usize::from(classes[q]).max(first)..q {
        if classes[p] == classes[q] && outputs[p] == outputs[q] {
            return p as u16;
        }
    }
    q as u16
}

/// Names each state by the least of its class with its output, from the last state down.
fn rename_each(m: &Mealy, classes: &mut Vec<u16>, outputs: &[u16], first: usize)
    requires names { AreNames m.now.rows classes.old.items }
    requires long { length outputs.now ≡ length m.now.rows }
    requires state { first < length m.now.rows }
    ensures { Refines first outputs.now first classes.old.items classes.new.items }
{
    for q in (first..usize::from(m.states())).rev() {
        classes[q] = least_alike(classes.as_slice(), outputs, first, q);
    }
}

/// Splits each class by the outputs, where they differ.
fn split(m: &Mealy, classes: &mut Vec<u16>, outputs: &[u16], first: usize, differ: bool)
    requires state { first < length m.now.rows }
    requires names { AreNames m.now.rows classes.old.items }
    requires long { length outputs.now ≡ length m.now.rows }
    requires equal { OnFalse differ (AllEqual first (length outputs.now) outputs.now) }
    ensures { SplitsBy m.now.rows first outputs.now classes.old.items classes.new.items }
{
    if differ {
        rename_each(m, classes, outputs, first);
    }
}

/// Splits each class by the outputs on a word: for each letter a pass over the states from the first one on.
pub fn refine(
    alloc: Global,
    m: &Mealy,
    columns: &[Vec<(u16, u16)>],
    classes: &mut Vec<u16>,
    first: u16,
    w: &Word,
) -> Result<(), NoMemory>
    requires names { AreNames m.now.rows classes.old.items }
    requires state { first < length m.now.rows }
    requires letters { IsWord m.now.inputs w.now }
    requires columns { AreColumns m.now.inputs m.now.rows (map (λ c. c.items) columns.now) }
    ensures { OnOk result (RefinesBy m.now.rows first w.now classes.old.items classes.new.items) }
{
    let mut ends = all_states(alloc, m)?;
    let mut outputs = vec![in alloc; 0u16; ends.len()]?;
    let first = usize::from(first);
    for x in w.as_slice() {
        let differ = observe(column_of(m, columns, *x), &mut ends, &mut outputs, first);
        split(m, classes, outputs.as_slice(), first, differ);
    }
    Ok(())
}

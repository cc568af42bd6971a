//! The words that separate all states of a machine.
ghost use Rattle.std.specs.Prelude.{ℕ, ◌+◌, ◌<◌, length, map, IfOk, OnOk};
ghost use Rattle.std.specs.Bool.{OnTrue};
ghost use Rattle.lw_mealy.specs.Machine.{IsMinimal};
ghost use Rattle.lw_separate.specs.bodies.Levelled.{LevelsOf};
ghost use Rattle.lw_separate.specs.bodies.Columns.{AreColumns};
ghost use Rattle.lw_separate.specs.bodies.Classes.{AreClasses, OwnClasses};
ghost use Rattle.lw_separate.specs.Separators.{IsSeparators};
ghost use Rattle.lw_separate.specs.bodies.Walk.{SeparatesUpTo};

use crate::classes::{one_class, refine};
use crate::columns::columns;
use crate::levels::{Levels, fill_levels};
use crate::separating_word::least_word;
use lw_mealy::Mealy;
use lw_words::{NoMemory, Word, Words};
use std::alloc::Global;

/// What the walk over the pairs of states reads.
#[derive(Drop)]
struct Tables {
    /// The classes of states by the words of at most this many letters.
    levels: Levels,
    /// The targets and outputs of all states at each letter.
    columns: Vec<Vec<(u16, u16)>>,
}

/// Adds the least word that separates two states, where no word of the list does yet.
fn add_pair(
    alloc: Global,
    m: &Mealy,
    tables: &Tables,
    words: &mut Words,
    classes: &mut Vec<u16>,
    p: u16,
    q: u16,
) -> Result<(), NoMemory>
    requires levels { LevelsOf m.now tables.now.levels }
    requires columns { AreColumns m.now.inputs m.now.rows
        (map (λ c. c.items) tables.now.columns.items) }
    requires minimal { IsMinimal m.now.inputs m.now.rows }
    requires pair { p < q }
    requires state { q < length m.now.rows }
    requires so_far { SeparatesUpTo m.now.inputs m.now.rows (p, q) words.old }
    requires classes { AreClasses m.now.rows p words.old classes.old.items }
    ensures so_far { OnOk result (SeparatesUpTo m.now.inputs m.now.rows (p, q + 1) words.new) }
    ensures classes { OnOk result (AreClasses m.now.rows p words.new classes.new.items) }
{
    if classes[usize::from(p)] != classes[usize::from(q)] {
        return Ok(());
    }
    let found = least_word(alloc, m, &tables.levels, p, q)?;
    let Some(word) = found else {
        unreachable!();
    };
    refine(alloc, m, tables.columns.as_slice(), classes, p, &word)?;
    words.push(word)?;
    Ok(())
}

/// Goes through the pairs of a state and each later one.
fn add_row(
    alloc: Global,
    m: &Mealy,
    tables: &Tables,
    words: &mut Words,
    classes: &mut Vec<u16>,
    p: u16,
) -> Result<(), NoMemory>
    requires levels { LevelsOf m.now tables.now.levels }
    requires columns { AreColumns m.now.inputs m.now.rows
        (map (λ c. c.items) tables.now.columns.items) }
    requires minimal { IsMinimal m.now.inputs m.now.rows }
    requires state { p < length m.now.rows }
    requires so_far { SeparatesUpTo m.now.inputs m.now.rows (p, p + 1) words.old }
    requires classes { AreClasses m.now.rows p words.old classes.old.items }
    ensures so_far { OnOk result
        (SeparatesUpTo m.now.inputs m.now.rows (p + 1, p + 1 + 1) words.new) }
    ensures classes { OnOk result (AreClasses m.now.rows (p + 1) words.new classes.new.items) }
{
    let n = m.states();
    for q in p + 1..n {
        add_pair(alloc, m, tables, words, classes, p, q)?;
    }
    Ok(())
}

/// Whether each state from p on is the only one of its class, of the states from p on.
fn all_apart(classes: &[u16], p: u16) -> bool
    ensures { OnTrue result (OwnClasses p classes.now) }
{
    for q in usize::from(p)..classes.len() {
        if usize::from(classes[q]) != q {
            return false;
        }
    }
    true
}

/// The words W of the W-method (Vasilevskii 1973, Chow 1978): goes through the pairs of states p < q, by p, then by q,
/// and adds the least word that separates them, where no word of the list does yet.
/// Fills the levels, as `separating`, and keeps for each state the class of those that no word of the list separates
/// from it, which splits by each word that is added (Moore 1956); stops where each class has one state. Takes a step for
/// each pair at most, and a step for each state and each letter of the words, at most the cube of the number of states.
pub fn separators(alloc: Global, m: &Mealy) -> Result<Words, NoMemory>
    requires minimal { IsMinimal m.now.inputs m.now.rows }
    ensures separators { IfOk result (IsSeparators m.now.inputs m.now.rows) }
    ensures few { IfOk result (λ words. length words < length m.now.rows) }
{
    let tables = Tables {
        levels: fill_levels(alloc, m)?,
        columns: columns(alloc, m)?,
    };
    let mut words = Words::new(alloc);
    let mut classes = one_class(alloc, m)?;
    for p in 0..m.states() {
        if all_apart(classes.as_slice(), p) {
            return Ok(words);
        }
        add_row(alloc, m, &tables, &mut words, &mut classes, p)?;
    }
    Ok(words)
}

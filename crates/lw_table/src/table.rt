//! The observation table.
ghost use Rattle.std.specs.Prelude.{◌≡◌, ℕ, ◌+◌, ◌≤◌, List, [], ◌∷◌, map, replicate, nat_eq, cond, Some, None, IfOk};
ghost use Rattle.std.specs.HashMap.{get};
ghost use Rattle.std.specs.List.{range_with_len};
ghost use Rattle.lw_table.specs.Table.{IsTable, new_table};
ghost use Rattle.lw_table.specs.bodies.Rows.{no_cells};

use crate::classes::Classes;
use crate::rows::{EMPTY, Row};
use lw_words::{NoMemory, Word, Words};
use std::alloc::Global;
use std::collections::HashMap;
use std::marker::Model;

/// A table of outputs: a row for each access word and for each of its extensions by a letter, a column for each suffix
/// (Angluin 1987, with outputs for cells as Niese 2003).
///
/// Each row is kept as the number of its class, so equal rows are found without comparing them cell by cell.
#[derive(Drop)]
pub struct ObservationTable {
    pub(crate) inputs: u16,
    pub(crate) outputs: u16,
    pub(crate) most: u16,
    pub(crate) access: Words,
    pub(crate) suffixes: Words,
    pub(crate) classes: Classes,
    pub(crate) rows: Vec<Row>,
    /// The row of each access word.
    pub(crate) homes: Vec<usize>,
    /// The number of each access word, by the class of its row.
    pub(crate) states: HashMap<usize, usize>,
    pub(crate) refinements: u32,
    pub(crate) alloc: Global,
}

impl Model for ObservationTable {
    ghost use Rattle.std.specs.Prelude.{nat_eq};
    ghost use Rattle.std.specs.HashMap.{get};
    ghost use Rattle.lw_table.specs.Table.{TableState, IsTable};
    ghost use Rattle.lw_table.specs.bodies.Rows.{table_of, AreIndexed};

    ghost Value = { TableState };

    ghost view = { λ t. table_of t.inputs t.outputs t.most t.access t.suffixes t.classes
        t.rows.items t.homes.items t.refinements };

    ghost invariant = { λ t. IsTable (table_of t.inputs t.outputs t.most t.access t.suffixes
        t.classes t.rows.items t.homes.items t.refinements) ×
        AreIndexed t.classes t.rows.items t.homes.items (get nat_eq t.states) };
}

/// The list of the empty word alone.
fn the_empty_word(alloc: Global) -> Result<Words, NoMemory>
    ensures { IfOk result (λ words. words ≡ [] ∷ []) }
{
    let mut words = Words::new(alloc);
    words.push(Word::new(alloc))?;
    Ok(words)
}

/// The words of one letter, in the order of the letters.
#[tactic(auto, using(crate::proofs::NewLemmas::letters_more))]
fn single_letters(alloc: Global, inputs: u16) -> Result<Words, NoMemory>
    ensures { IfOk result (λ words. words ≡ map (λ x. x ∷ []) (range_with_len 0 inputs)) }
{
    let mut words = Words::new(alloc);
    for letter in 0..inputs {
        let mut word = Word::new(alloc);
        word.push(letter)?;
        words.push(word)?;
    }
    Ok(words)
}

/// The access words and the suffixes of a new table.
fn first_words(alloc: Global, inputs: u16) -> Result<(Words, Words), NoMemory>
    ensures access { IfOk result (λ words. words.0 ≡ [] ∷ []) }
    ensures suffixes { IfOk result (λ words.
        words.1 ≡ map (λ x. x ∷ []) (range_with_len 0 inputs)) }
{
    let access = the_empty_word(alloc)?;
    let suffixes = single_letters(alloc, inputs)?;
    Ok((access, suffixes))
}

/// The rows of a new table, which have no cells, and the row of the empty word.
fn first_rows(alloc: Global, inputs: u16) -> Result<(Vec<Row>, Vec<usize>), NoMemory>
    ensures rows { IfOk result (λ made. made.0.items ≡ replicate (inputs + 1) no_cells) }
    ensures homes { IfOk result (λ made. made.1.items ≡ 0 ∷ []) }
{
    let rows = vec![in alloc; EMPTY; usize::from(inputs) + 1]?;
    let homes = vec![in alloc; 0; 1]?;
    Ok((rows, homes))
}

/// The number of the one access word of a new table, by the class of its row.
fn first_states(alloc: Global) -> Result<HashMap<usize, usize>, NoMemory>
    ensures { IfOk result (λ states. (q : ℕ) →
        get nat_eq states q ≡ cond (nat_eq 0 q) (Some 0) None) }
{
    let mut states = HashMap::new(alloc);
    states.insert(0, 0)?;
    Ok(states)
}

impl ObservationTable {
    /// The table of the empty word and its extensions, before anything was asked.
    pub fn new(
        alloc: Global,
        inputs: u16,
        outputs: u16,
        max_states: u16,
    ) -> Result<ObservationTable, NoMemory>
        requires inputs { (1 ≤ inputs) × (inputs ≤ 64) }
        requires outputs { (1 ≤ outputs) × (outputs ≤ 4096) }
        requires max_states { (1 ≤ max_states) × (max_states ≤ 1024) }
        ensures value { IfOk result (λ t. t ≡ new_table inputs outputs max_states) }
        ensures table { IfOk result IsTable }
    {
        let states = first_states(alloc)?;
        let (access, suffixes) = first_words(alloc, inputs)?;
        let classes = Classes::new(alloc);
        let (rows, homes) = first_rows(alloc, inputs)?;
        Ok(ObservationTable {
            inputs,
            outputs,
            most: max_states,
            access,
            suffixes,
            classes,
            rows,
            homes,
            states,
            refinements: 0,
            alloc,
        })
    }

    /// The access words, in the order of the states.
    pub fn access(&self) -> &Words
        ensures value { result.now ≡ self.now.access }
        ensures table { IsTable self.now }
    {
        &self.access
    }

    /// The suffixes, in their order.
    pub fn suffixes(&self) -> &Words
        ensures value { result.now ≡ self.now.suffixes }
        ensures table { IsTable self.now }
    {
        &self.suffixes
    }

    /// How often the table was refined.
    pub fn refinements(&self) -> u32
        ensures value { result ≡ self.now.refinements }
        ensures table { IsTable self.now }
    {
        self.refinements
    }
}

//! The steps by which a table grows: cells are filled, an access word is added, a suffix is added.
ghost use Rattle.std.specs.Prelude.{◌≡◌, ◌≢◌, ℕ, ◌+◌, ◌*◌, ◌<◌, ◌≤◌, List, [], ◌++◌, length, map, take, replicate, nat_eq, Some, vec_len, vec_capacity, OnOk, OnErr, IfOk, MatchOption};
ghost use Rattle.std.specs.HashMap.{get, spare, Updates};
ghost use Rattle.std.specs.List.{All, AllPairs};
ghost use Rattle.lw_words.specs.Word.{Answer, answers_of, IsWord};
ghost use Rattle.lw_cache.specs.Settling.{Keeps, MayAsk, GainsOnly, Leaves, asked_stop};
ghost use Rattle.lw_plain.specs.Turns.{AsksBatch};
ghost use Rattle.lw_table.specs.Grown.{HasGrown, IsCellWord, IsCellWordOf};
ghost use Rattle.lw_table.specs.Plain.{open_words};
ghost use Rattle.lw_table.specs.Table.{row_at, home_at, access_row, IsTable, CellsAreRead};
ghost use Rattle.lw_table.specs.bodies.Classes.{row_of};
ghost use Rattle.lw_table.specs.bodies.Filling.{GoOn};
ghost use Rattle.lw_table.specs.bodies.Growing.{AreFull, AreFullBelow, ChangesCells, HasAdded, with_suffix};
ghost use Rattle.lw_table.specs.bodies.Numbered.{AreNumbered};
ghost use Rattle.lw_table.specs.bodies.Plain.{open_from, open_behind};
ghost use Rattle.lw_table.specs.bodies.Rows.{no_cells, class_at};

use crate::ObservationTable;
use crate::classes::Classes;
use crate::filling::{fill_rows, unfilled};
use crate::rows::{EMPTY, Row, row_word};
use lw_cache::{AskStop, Oracle};
use lw_words::{NoMemory, Word, Words};
use std::alloc::Global;
use std::collections::HashMap;

#[tactic(auto, using(lw_cache::proofs::SettlingLemmas::leaves_settled))]
/// Asks for the cells that aren't filled, of the rows from one on: these rows, with their cells filled.
fn answered<O: Oracle>(
    oracle: &mut O,
    inputs: u16,
    access: &Words,
    suffixes: &Words,
    classes: &mut Classes,
    rows: &[Row],
    first: usize,
) -> Result<Vec<Row>, AskStop>
    requires can { O.can_settle oracle.old }
    requires may { MayAsk (O.state oracle.old).stop }
    requires keeps { Keeps (O.state oracle.old) }
    requires same { inputs ≡ (O.state oracle.old).inputs }
    requires inputs { 1 ≤ inputs }
    requires access { All (IsWord inputs) access.now }
    requires suffixes { All (IsWord inputs) suffixes.now }
    requires rows { length rows.now ≡ 1 + length access.now * inputs }
    requires within { All (λ r. r.class < length classes.old) rows.now }
    requires counts { All (λ r. r.cells ≡ length (row_of classes.old r.class)) rows.now }
    requires few { All (λ r. r.cells ≤ length suffixes.now) rows.now }
    requires first { first ≤ length rows.now }
    requires differ { AllPairs (λ r s. r ≢ s) classes.old }
    ensures more { (more : List (List (List ℕ))) × (classes.new ≡ classes.old ++ more) }
    ensures differ { AllPairs (λ r s. r ≢ s) classes.new }
    ensures all { IfOk result (λ filled. first + length filled.items ≡ length rows.now) }
    ensures go_on { IfOk result (λ filled. GoOn (answers_of (O.state oracle.new).kept) inputs
        access.now suffixes.now classes.old rows.now first classes.new filled.items) }
    ensures asks { GainsOnly (IsCellWord inputs access.now suffixes.now)
        (O.state oracle.old).kept (O.state oracle.new).kept }
    ensures plainly { OnOk result (AsksBatch (open_from inputs access.now suffixes.now
        (map (λ r. r.cells) rows.now) first) (O.state oracle.old) (O.state oracle.new)) }
    ensures leaves { Leaves (O.state oracle.old) (O.state oracle.new) (asked_stop result) }
    ensures can { O.can_settle oracle.new }
{
    let batch = unfilled(classes.alloc, inputs, access, suffixes, rows, first)?;
    oracle.settle(batch.as_slice())?;
    let cache = oracle.cache();
    Ok(fill_rows(inputs, access, suffixes, classes, rows, first, cache)?)
}

/// The numbers of the access words, by the classes of their rows.
fn states_of(
    alloc: Global,
    rows: &[Row],
    homes: &[usize],
) -> Result<HashMap<usize, usize>, NoMemory>
    requires { All (λ home. home < length rows.now) homes.now }
    ensures { IfOk result (λ states. AreNumbered nat_eq (map (class_at rows.now) homes.now)
        (get nat_eq states)) }
{
    let mut states = HashMap::with_capacity(alloc, homes.len())?;
    for (state, home) in homes.iter().enumerate() {
        states.insert(rows[*home].class, state)?;
    }
    Ok(states)
}

/// Makes room for an access word more: the rows of its extensions, the row that it has, and the class of that.
fn make_room(
    rows: &mut Vec<Row>,
    homes: &mut Vec<usize>,
    states: &mut HashMap<usize, usize>,
    letters: usize,
) -> Result<(), NoMemory>
    ensures rows { rows.new.items ≡ rows.old.items }
    ensures homes { homes.new.items ≡ homes.old.items }
    ensures states { (q : ℕ) → get nat_eq states.new q ≡ get nat_eq states.old q }
    ensures letters { OnOk result (vec_len rows.new + letters ≤ vec_capacity rows.new) }
    ensures home { OnOk result (vec_len homes.new + 1 ≤ vec_capacity homes.new) }
    ensures class { OnOk result (0 < spare states.new) }
{
    rows.reserve(letters)?;
    homes.reserve(1)?;
    states.reserve(1)?;
    Ok(())
}

impl ObservationTable {
    /// Fills all cells, in one step.
    pub(crate) fn fill_all<O: Oracle>(&mut self, oracle: &mut O) -> Result<(), AskStop>
        requires can { O.can_settle oracle.old }
        requires may { MayAsk (O.state oracle.old).stop }
        requires keeps { Keeps (O.state oracle.old) }
        requires inputs { self.old.inputs ≡ (O.state oracle.old).inputs }
        requires outputs { self.old.outputs ≡ (O.state oracle.old).outputs }
        requires read { CellsAreRead (answers_of (O.state oracle.old).kept) self.old }
        ensures grown { HasGrown (answers_of (O.state oracle.new).kept) self.old self.new }
        ensures cells { ChangesCells self.old self.new }
        ensures full { OnOk result (AreFull self.new) }
        ensures asks { GainsOnly (IsCellWordOf self.new) (O.state oracle.old).kept
            (O.state oracle.new).kept }
        ensures plainly { OnOk result (AsksBatch (open_words self.old) (O.state oracle.old)
            (O.state oracle.new)) }
        ensures leaves { Leaves (O.state oracle.old) (O.state oracle.new) (asked_stop result) }
        ensures can { O.can_settle oracle.new }
    {
        let suffixes = &self.suffixes;
        let classes = &mut self.classes;
        let old = self.rows.as_slice();
        let rows = answered(oracle, self.inputs, &self.access, suffixes, classes, old, 0)?;
        self.states = states_of(self.alloc, &rows, &self.homes)?;
        self.rows = rows;
        Ok(())
    }

    /// Fills the cells of the rows from one on, in one step. The rows before it have theirs.
    pub(crate) fn fill_new<O: Oracle>(
        &mut self,
        oracle: &mut O,
        first: usize,
    ) -> Result<(), AskStop>
        requires can { O.can_settle oracle.old }
        requires may { MayAsk (O.state oracle.old).stop }
        requires keeps { Keeps (O.state oracle.old) }
        requires inputs { self.old.inputs ≡ (O.state oracle.old).inputs }
        requires outputs { self.old.outputs ≡ (O.state oracle.old).outputs }
        requires read { CellsAreRead (answers_of (O.state oracle.old).kept) self.old }
        requires first { first ≤ length self.old.cells }
        requires full { AreFullBelow self.old first }
        requires homes { (q : ℕ) → q < length self.old.access → home_at self.old q < first }
        ensures grown { HasGrown (answers_of (O.state oracle.new).kept) self.old self.new }
        ensures cells { ChangesCells self.old self.new }
        ensures full { OnOk result (AreFull self.new) }
        ensures asks { GainsOnly (IsCellWordOf self.new) (O.state oracle.old).kept
            (O.state oracle.new).kept }
        ensures plainly { OnOk result (AsksBatch (open_behind self.old first)
            (O.state oracle.old) (O.state oracle.new)) }
        ensures leaves { Leaves (O.state oracle.old) (O.state oracle.new) (asked_stop result) }
        ensures can { O.can_settle oracle.new }
    {
        let suffixes = &self.suffixes;
        let classes = &mut self.classes;
        let old = self.rows.as_slice();
        let filled = answered(
            oracle,
            self.inputs,
            &self.access,
            suffixes,
            classes,
            old,
            first,
        )?;
        replace(&mut self.rows, first, &filled);
        Ok(())
    }

    /// The number of the access word that has a row, if there is one.
    pub(crate) fn state_of_row(&self, row: usize) -> Option<usize>
        requires row { row < length self.now.cells }
        ensures { MatchOption result
            ((q : ℕ) → q < length self.now.access → row_at self.now row ≢ access_row self.now q)
            (λ q. (q < length self.now.access) × (row_at self.now row ≡ access_row self.now q)) }
    {
        self.states.get(&self.rows[row].class).copied()
    }

    /// Makes the word of a row an access word, whose extensions have no cells yet.
    pub(crate) fn add_access(&mut self, row: usize) -> Result<(), NoMemory>
        requires row { row < length self.old.cells }
        requires room { length self.old.access < self.old.most }
        requires full { AreFull self.old }
        requires new { (q : ℕ) → q < length self.old.access →
            row_at self.old row ≢ access_row self.old q }
        ensures ok { OnOk result (HasAdded row self.old self.new) }
        ensures err { OnErr result (self.new ≡ self.old) }
        ensures table { IsTable self.new }
    {
        let letters = usize::from(self.inputs);
        let state = self.homes.len();
        let word = row_word(self.alloc, self.inputs, &self.access, row)?;
        make_room(&mut self.rows, &mut self.homes, &mut self.states, letters)?;
        self.access.push(word)?;
        self.homes.push_reserved(row);
        add_empty(&mut self.rows, letters);
        add_class(&mut self.states, self.rows[row].class, state);
        Ok(())
    }

    /// Adds a suffix, of which no row has a cell yet.
    pub(crate) fn add_suffix(&mut self, suffix: &Word) -> Result<(), NoMemory>
        requires letters { IsWord self.old.inputs suffix.now }
        requires some { suffix.now ≢ [] }
        ensures was { IsTable self.old }
        ensures ok { OnOk result (self.new ≡ with_suffix self.old suffix.now) }
        ensures err { OnErr result (self.new ≡ self.old) }
        ensures table { IsTable self.new }
    {
        self.suffixes.push(suffix.copy()?)?;
        Ok(())
    }
}

/// Puts rows in place of those from one on.
fn replace(rows: &mut Vec<Row>, first: usize, by: &[Row])
    requires { first + length by.now ≡ length rows.old.items }
    ensures { rows.new.items ≡ take first rows.old.items ++ by.now }
{
    rows[first..].copy_from_slice(by);
}

/// Adds rows without cells. There is room for them.
fn add_empty(rows: &mut Vec<Row>, count: usize)
    requires room { vec_len rows.old + count ≤ vec_capacity rows.old }
    ensures { rows.new.items ≡ rows.old.items ++ replicate count no_cells }
{
    for _ in 0..count {
        rows.push_reserved(EMPTY);
    }
}

/// Gives a class a state. There is room for it.
fn add_class(states: &mut HashMap<usize, usize>, class: usize, state: usize)
    requires room { 0 < spare states.old }
    ensures { Updates nat_eq states.old states.new class (Some state) }
{
    let Ok(_) = states.insert(class, state) else {
        unreachable!();
    };
}

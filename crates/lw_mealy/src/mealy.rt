//! Machines as tables, which are complete and within the limits.
ghost use Rattle.std.specs.Prelude.{◌≡◌, ℕ, ◌<◌, ◌≤◌, List, length, map, slice_index_or, Some, Err, IfOk, OnOk, IfErr, IfSome, IfNone};
ghost use Rattle.std.specs.List.{All};
ghost use Rattle.lw_words.specs.First.{FailsFirst};
ghost use Rattle.lw_words.specs.Word.{IsWord};
ghost use Rattle.lw_mealy.specs.Machine.{Rows, IsMachine, after, out, answer, cell, row, MealyMachine, mealy_of, IsWithinLimits, AnswersBelow};
ghost use Rattle.lw_mealy.specs.CellHalf.{IsBelow};
ghost use Rattle.lw_mealy.specs.Difference.{DifferFirst};
ghost use Rattle.lw_mealy.specs.declared.fault.MealyFault.{MealyFault as Fault};
ghost use Rattle.lw_mealy.specs.Fault.{RowsHaveFault, IsCounted, IsSquare, TargetsAreStates, CellFailsFirst};
ghost use Rattle.lw_mealy.specs.Renumbering.{renumbered_cells, renumbered_rows, AllRenumber};

use crate::MealyFault;
use lw_words::{NoMemory, Word};
use std::alloc::Global;
use std::marker::Model;

/// The greatest number of states.
const MOST_STATES: usize = 1024;

/// A Mealy machine of 1 to 1,024 states, of which state 0 is initial (Mealy 1955).
/// Contracts see its rows and its numbers of inputs and outputs.
#[derive(Drop)]
pub struct Mealy {
    inputs: u16,
    outputs: u16,
    rows: Vec<Vec<(u16, u16)>>,
    alloc: Global,
}

impl Model for Mealy {
    ghost use Rattle.std.specs.Prelude.{map};
    ghost use Rattle.lw_mealy.specs.Machine.{MealyMachine, mealy_of, IsWithinLimits};

    ghost Value = { MealyMachine };

    ghost view = { λ m. mealy_of m.inputs m.outputs (map (λ r. r.items) m.rows.items) };

    ghost invariant = { λ m. IsWithinLimits (mealy_of m.inputs m.outputs (map (λ r. r.items) m.rows.items)) };
}

/// The first row that hasn't this many pairs.
fn first_ragged(rows: &[Vec<(u16, u16)>], inputs: u16) -> Option<usize>
    ensures none { IfNone result (IsSquare inputs (map (λ r. r.items) rows.now)) }
    ensures some { IfSome result (FailsFirst (λ r. length r ≡ inputs)
        (map (λ r. r.items) rows.now)) }
{
    for (state, row) in rows.iter().enumerate() {
        if row.len() != usize::from(inputs) {
            return Some(state);
        }
    }
    None
}

/// A half of the pair that a state has at a letter.
#[derive(Clone, Copy)]
enum Half {
    Target,
    Output,
}

impl Half {
    ghost use Rattle.lw_mealy.specs.CellHalf.{half_of};

    fn of(self, cell: (u16, u16)) -> u16
        ensures { result ≡ half_of self cell }
    {
        match self {
            Half::Target => cell.0,
            Half::Output => cell.1,
        }
    }
}

/// The first pair of a row whose half is not below a bound.
fn first_in_row(row: &[(u16, u16)], half: Half, bound: usize) -> Option<usize>
    ensures none { IfNone result (All (IsBelow half bound) row.now) }
    ensures some { IfSome result (FailsFirst (IsBelow half bound) row.now) }
{
    for (letter, cell) in row.iter().enumerate() {
        if usize::from(half.of(*cell)) >= bound {
            return Some(letter);
        }
    }
    None
}

/// The first pair of all rows whose half is not below a bound, by state, then by letter.
fn first_in_rows(rows: &[Vec<(u16, u16)>], half: Half, bound: usize) -> Option<(usize, usize)>
    ensures none { IfNone result (All (λ r. All (IsBelow half bound) r)
        (map (λ r. r.items) rows.now)) }
    ensures some { IfSome result (λ at. CellFailsFirst (IsBelow half bound)
        (map (λ r. r.items) rows.now) at.0 at.1) }
{
    for (state, row) in rows.iter().enumerate() {
        if let Some(letter) = first_in_row(row, half, bound) {
            return Some((state, letter));
        }
    }
    None
}

/// The fault of rows that are 1 to 1,024, if there is one.
fn fault_of(inputs: u16, outputs: u16, rows: &[Vec<(u16, u16)>]) -> Option<MealyFault>
    requires counted { IsCounted (map (λ r. r.items) rows.now) }
    ensures none { IfNone result (IsSquare inputs (map (λ r. r.items) rows.now) ×
        TargetsAreStates (map (λ r. r.items) rows.now) × AnswersBelow outputs
        (map (λ r. r.items) rows.now)) }
    ensures some { IfSome result (RowsHaveFault inputs outputs (map (λ r. r.items) rows.now)) }
    ensures memory { ¬ (result ≡ Some Fault.NoMemory) }
{
    if let Some(state) = first_ragged(rows, inputs) {
        return Some(MealyFault::Ragged(state as u16));
    }
    if let Some((state, letter)) = first_in_rows(rows, Half::Target, rows.len()) {
        let target = rows[state][letter].0;
        return Some(MealyFault::Target(state as u16, letter as u16, target));
    }
    if let Some((state, letter)) = first_in_rows(rows, Half::Output, usize::from(outputs)) {
        let output = rows[state][letter].1;
        return Some(MealyFault::Output(state as u16, letter as u16, output));
    }
    None
}

/// The same rows once more.
fn copy_rows(alloc: Global, rows: &[Vec<(u16, u16)>]) -> Result<Vec<Vec<(u16, u16)>>, NoMemory>
    ensures { IfOk result (λ copies. map (λ r. r.items) copies.items ≡
        map (λ r. r.items) rows.now) }
{
    let mut copies = Vec::with_capacity(alloc, rows.len())?;
    for row in rows {
        copies.push(Vec::from_slice(alloc, row)?)?;
    }
    Ok(copies)
}

/// Puts `to[y]` in place of each output `y` of a row.
fn renumber_row(row: &mut [(u16, u16)], to: &[u16])
    requires { All (λ c. c.1 < length to.now) row.old }
    ensures { row.new ≡ renumbered_cells to.now row.old }
{
    for cell in row.iter_mut() {
        cell.1 = to[usize::from(cell.1)];
    }
}

/// Puts `to[y]` in place of each output `y` of all rows.
fn renumber_rows(rows: &mut [Vec<(u16, u16)>], to: &[u16])
    requires { All (λ r. All (λ c. c.1 < length to.now) r) (map (λ r. r.items) rows.old) }
    ensures { map (λ r. r.items) rows.new ≡ renumbered_rows to.now (map (λ r. r.items) rows.old) }
{
    for row in rows.iter_mut() {
        renumber_row(row.as_mut_slice(), to);
    }
}

impl Mealy {
    /// The machine of these rows: `rows[q][x]` is the target and the output of state `q` at letter `x`. Takes no memory, and
    /// never answers `NoMemory`.
    pub fn new(
        alloc: Global,
        inputs: u16,
        outputs: u16,
        rows: Vec<Vec<(u16, u16)>>,
    ) -> Result<Mealy, MealyFault>
        requires inputs { (1 ≤ inputs) × (inputs ≤ 64) }
        requires outputs { (1 ≤ outputs) × (outputs ≤ 4096) }
        ensures ok { IfOk result (λ m. m ≡ mealy_of inputs outputs
            (map (λ r. r.items) rows.items)) }
        ensures complete { IfOk result IsWithinLimits }
        ensures err { IfErr result (RowsHaveFault inputs outputs (map (λ r. r.items) rows.items)) }
        ensures memory { ¬ (result ≡ Err Fault.NoMemory) }
    {
        if rows.is_empty() {
            return Err(MealyFault::NoState);
        }
        if rows.len() > MOST_STATES {
            return Err(MealyFault::TooMany(rows.len()));
        }
        if let Some(fault) = fault_of(inputs, outputs, &rows) {
            return Err(fault);
        }
        Ok(Mealy {
            inputs,
            outputs,
            rows,
            alloc,
        })
    }

    /// The machine of rows that are known to be complete and within the limits; they are not looked at again. Takes no memory.
    pub fn of_rows(alloc: Global, inputs: u16, outputs: u16, rows: Vec<Vec<(u16, u16)>>) -> Mealy
        requires { IsWithinLimits (mealy_of inputs outputs (map (λ r. r.items) rows.items)) }
        ensures { result ≡ mealy_of inputs outputs (map (λ r. r.items) rows.items) }
    {
        Mealy {
            inputs,
            outputs,
            rows,
            alloc,
        }
    }

    /// The initial state, which is 0. Takes no memory.
    pub fn initial(&self) -> u16
        ensures value { result ≡ 0 }
        ensures state { result < length self.now.rows }
    {
        let _rows = &self.rows;
        0
    }

    pub fn inputs(&self) -> u16
        ensures value { result ≡ self.now.inputs }
        ensures complete { IsWithinLimits self.now }
    {
        self.inputs
    }

    pub fn outputs(&self) -> u16
        ensures value { result ≡ self.now.outputs }
        ensures complete { IsWithinLimits self.now }
    {
        self.outputs
    }

    pub fn states(&self) -> u16
        ensures value { result ≡ length self.now.rows }
        ensures complete { IsWithinLimits self.now }
    {
        self.rows.len() as u16
    }

    /// The next state and the output. Takes no memory.
    pub fn step(&self, q: u16, x: u16) -> (u16, u16)
        requires state { q < length self.now.rows }
        requires letter { x < self.now.inputs }
        ensures value { result ≡ cell self.now.rows q x }
        ensures state { result.0 < length self.now.rows }
        ensures output { result.1 < self.now.outputs }
    {
        self.rows[usize::from(q)][usize::from(x)]
    }

    #[tactic(auto, using(crate::proofs::WordLemmas::word_steps))]
    /// The state after a word. Takes no memory.
    pub fn after(&self, q: u16, w: &Word) -> u16
        requires state { q < length self.now.rows }
        requires letters { IsWord self.now.inputs w.now }
        ensures value { result ≡ after self.now.rows q w.now }
        ensures state { result < length self.now.rows }
    {
        let mut state = q;
        for x in w.as_slice() {
            state = self.step(state, *x).0;
        }
        state
    }

    #[tactic(auto, using(crate::proofs::WordLemmas::word_steps))]
    /// The outputs on the way of a word from state 0.
    pub fn answer(&self, w: &Word) -> Result<Word, NoMemory>
        requires letters { IsWord self.now.inputs w.now }
        ensures { IfOk result (λ o. o ≡ answer self.now.rows w.now) }
    {
        let mut outs = Word::new(self.alloc);
        let mut state = self.initial();
        for x in w.as_slice() {
            let (target, output) = self.step(state, *x);
            outs.push(output)?;
            state = target;
        }
        Ok(outs)
    }

    /// The first place at which the machine's answer to `w` isn't `o`, or None where it is `o`. Takes no memory.
    pub fn agrees(&self, w: &Word, o: &Word) -> Option<usize>
        requires lengths { length w.now ≡ length o.now }
        requires letters { IsWord self.now.inputs w.now }
        ensures none { IfNone result (answer self.now.rows w.now ≡ o.now) }
        ensures some { IfSome result (DifferFirst (answer self.now.rows w.now) o.now) }
    {
        let outs = o.as_slice();
        let mut state = self.initial();
        for (place, x) in w.as_slice().iter().enumerate() {
            let (target, output) = self.step(state, *x);
            if output != outs[place] {
                return Some(place);
            }
            state = target;
        }
        None
    }

    pub fn copy(&self) -> Result<Mealy, NoMemory>
        ensures { IfOk result (λ m. m ≡ self.now) }
    {
        let rows = copy_rows(self.alloc, &self.rows)?;
        Ok(Mealy {
            inputs: self.inputs,
            outputs: self.outputs,
            rows,
            alloc: self.alloc,
        })
    }

    /// Puts `to[y]` in place of each output `y`, all of which are below the new number of outputs. Takes no memory.
    pub fn renumber(&mut self, outputs: u16, to: &[u16])
        requires outputs { (1 ≤ outputs) × (outputs ≤ 4096) }
        requires within { AllRenumber outputs to.now self.old.rows }
        ensures { self.new ≡ mealy_of self.old.inputs outputs
            (renumbered_rows to.now self.old.rows) }
    {
        renumber_rows(self.rows.as_mut_slice(), to);
        self.outputs = outputs;
    }
}

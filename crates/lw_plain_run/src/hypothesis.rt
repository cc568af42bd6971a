//! The machine of a closed table.
ghost use Rattle.std.specs.Prelude.{◌≡◌, ℕ, ◌<◌, ◌≤◌, List, length, None, IfOk, OnOk, map};
ghost use Rattle.lw_words.specs.Word.{IsWord};
ghost use Rattle.lw_plain.specs.Table.{row_state, transition_of, transitions_of, machine_of, first_new};
ghost use Rattle.lw_plain.specs.Over.{IsOver};

use crate::rows::have_same_row;
use crate::table::Table;
use lw_mealy::Mealy;
use lw_words::{NoMemory, Word};
use std::alloc::Global;

/// The state of a row: the number of the access word that has it.
fn state_of(m: &Mealy, table: &Table, word: &Word) -> usize
    requires over { IsOver m.now.inputs table.now }
    requires letters { IsWord m.now.inputs word.now }
    ensures { result ≡ row_state m.now.rows table.now word.now }
{
    for (state, access) in table.access().as_slice().iter().enumerate() {
        if have_same_row(m, table.suffixes(), word, access) {
            return state;
        }
    }
    table.access().len()
}

/// What the state of an access word does at a letter.
fn transition_of(
    m: &Mealy,
    table: &Table,
    access: &Word,
    letter: u16,
) -> Result<(u16, u16), NoMemory>
    requires over { IsOver m.now.inputs table.now }
    requires few { length table.now.access ≤ 1024 }
    requires letters { IsWord m.now.inputs access.now }
    requires letter { letter < m.now.inputs }
    ensures { IfOk result (λ c. c ≡ transition_of m.now.rows table.now access.now letter) }
{
    let mut longer = access.copy()?;
    longer.push(letter)?;
    let target = state_of(m, table, &longer);
    let (_, output) = m.step(m.after(m.initial(), access), letter);
    Ok((target as u16, output))
}

/// What the state of an access word does at each letter.
fn transitions_of(
    alloc: Global,
    m: &Mealy,
    table: &Table,
    access: &Word,
) -> Result<Vec<(u16, u16)>, NoMemory>
    requires over { IsOver m.now.inputs table.now }
    requires few { length table.now.access ≤ 1024 }
    requires letters { IsWord m.now.inputs access.now }
    ensures { IfOk result (λ row. row.items ≡
        transitions_of m.now.inputs m.now.rows table.now access.now) }
{
    let mut row = Vec::new(alloc);
    for letter in 0..m.inputs() {
        row.push(transition_of(m, table, access, letter)?)?;
    }
    Ok(row)
}

/// The machine of a closed table.
pub fn hypothesis_of(alloc: Global, m: &Mealy, table: &Table) -> Result<Mealy, NoMemory>
    requires over { IsOver m.now.inputs table.now }
    requires few { length table.now.access ≤ 1024 }
    requires closed { first_new m.now.inputs m.now.rows table.now ≡ None }
    ensures rows { IfOk result (λ h. h.rows ≡ machine_of m.now.inputs m.now.rows table.now) }
    ensures alphabets { IfOk result (λ h. (h.inputs ≡ m.now.inputs) ×
        (h.outputs ≡ m.now.outputs)) }
{
    let mut rows = Vec::new(alloc);
    for access in table.access().as_slice() {
        rows.push(transitions_of(alloc, m, table, access)?)?;
    }
    Ok(Mealy::of_rows(alloc, m.inputs(), m.outputs(), rows))
}

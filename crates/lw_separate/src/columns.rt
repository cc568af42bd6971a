//! The columns of a machine: the cells of all states at a letter.
ghost use Rattle.std.specs.Prelude.{ℕ, ◌<◌, map, IfOk};
ghost use Rattle.lw_separate.specs.bodies.Columns.{IsColumn, AreColumns};

use lw_mealy::Mealy;
use lw_words::NoMemory;
use std::alloc::Global;

/// The targets and outputs of all states at a letter.
fn column(alloc: Global, m: &Mealy, x: u16) -> Result<Vec<(u16, u16)>, NoMemory>
    requires { x < m.now.inputs }
    ensures { IfOk result (λ column. IsColumn m.now.rows x column.items) }
{
    let mut cells = Vec::with_capacity(alloc, usize::from(m.states()))?;
    for q in 0..m.states() {
        cells.push(m.step(q, x))?;
    }
    Ok(cells)
}

/// The targets and outputs of all states at each letter.
pub fn columns(alloc: Global, m: &Mealy) -> Result<Vec<Vec<(u16, u16)>>, NoMemory>
    ensures { IfOk result (λ all.
        AreColumns m.now.inputs m.now.rows (map (λ c. c.items) all.items)) }
{
    let mut all = Vec::with_capacity(alloc, usize::from(m.inputs()))?;
    for x in 0..m.inputs() {
        all.push(column(alloc, m, x)?)?;
    }
    Ok(all)
}

/// The targets and outputs of all states at a letter.
pub fn column_of<'a>(m: &Mealy, columns: &'a [Vec<(u16, u16)>], x: u16) -> &'a [(u16, u16)]
    requires columns { AreColumns m.now.inputs m.now.rows (map (λ c. c.items) columns.now) }
    requires letter { x < m.now.inputs }
    ensures { IsColumn m.now.rows x result.now }
{
    columns[usize::from(x)].as_slice()
}

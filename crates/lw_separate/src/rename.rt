//! A machine with its states renamed.
ghost use Rattle.std.specs.Prelude.{◌≡◌, ℕ, ◌<◌, length, map, IfOk};
ghost use Rattle.lw_mealy.specs.Machine.{IsWithinLimits};
ghost use Rattle.lw_separate.specs.bodies.Renaming.{CanRename, Renames, RenamesRow, RenamesRows};

use lw_mealy::{Mealy, MealyFault};
use lw_words::NoMemory;
use std::alloc::Global;

/// The row of a state, each target under its new name.
fn renamed_row(alloc: Global, m: &Mealy, names: &[u16], q: u16) -> Result<Vec<(u16, u16)>, NoMemory>
    requires state { q < length m.now.rows }
    requires named { length names.now ≡ length m.now.rows }
    ensures { IfOk result (λ row. RenamesRow m.now.inputs m.now.rows names.now q row.items) }
{
    let mut row = Vec::with_capacity(alloc, usize::from(m.inputs()))?;
    for x in 0..m.inputs() {
        let (target, output) = m.step(q, x);
        row.push((names[usize::from(target)], output))?;
    }
    Ok(row)
}

/// The rows of these states, in their order, each target under its new name.
fn renamed_rows(
    alloc: Global,
    m: &Mealy,
    states: &[u16],
    names: &[u16],
) -> Result<Vec<Vec<(u16, u16)>>, NoMemory>
    requires can { CanRename m.now.inputs m.now.rows states.now names.now }
    ensures { IfOk result (λ rows.
        RenamesRows m.now.inputs m.now.rows states.now names.now (map (λ r. r.items) rows.items)) }
{
    let mut rows = Vec::with_capacity(alloc, states.len())?;
    for state in states {
        rows.push(renamed_row(alloc, m, names, *state)?)?;
    }
    Ok(rows)
}

/// The machine of the rows of these states, in their order, each target under its new name.
pub fn rename(alloc: Global, m: &Mealy, states: &[u16], names: &[u16]) -> Result<Mealy, NoMemory>
    requires can { CanRename m.now.inputs m.now.rows states.now names.now }
    ensures renames { IfOk result (λ c.
        Renames m.now.inputs m.now.rows states.now names.now c.rows) }
    ensures alphabets { IfOk result (λ c. (c.inputs ≡ m.now.inputs) × (c.outputs ≡ m.now.outputs)) }
    ensures complete { IfOk result IsWithinLimits }
{
    let rows = renamed_rows(alloc, m, states, names)?;
    match Mealy::new(alloc, m.inputs(), m.outputs(), rows) {
        Ok(c) => Ok(c),
        Err(MealyFault::NoMemory) => Err(NoMemory),
        Err(_) => unreachable!(),
    }
}

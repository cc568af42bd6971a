//! Writes machine files.

ghost use Rattle.std.specs.Prelude.{◌≡◌, ◌<◌, length, IfOk, OnOk};
ghost use Rattle.serde_json.specs.Data.{put};
ghost use Rattle.serde_json.specs.View.{view, members_view};
ghost use Rattle.lw_words.specs.Word.{IsNames};
ghost use Rattle.lw_mealy.specs.Machine.{row, IsWithinLimits};
ghost use Rattle.lw_json.specs.Formats.{IsNamed, IsMachineFile};
ghost use Rattle.lw_json.specs.MachineText.{texts_data, cell_data, row_data, rows_data, machine_data, written_text};

use crate::Machine;
use crate::values::{put_member, put_names};
use lw_mealy::Mealy;
use lw_words::{Names, NoMemory};
use serde_json::{Map, Value};
use std::alloc::Global;

/// A cell as a list of its target and the name of its output.
fn cell_value(alloc: Global, cell: (u16, u16), outputs: &Names) -> Result<Value, NoMemory>
    requires { cell.1 < length outputs.now }
    ensures { IfOk result (λ v. view v ≡ cell_data outputs.now cell) }
{
    let mut pair = Vec::with_capacity(alloc, 2)?;
    pair.push_reserved(Value::from(cell.0));
    pair.push_reserved(Value::try_from_str(alloc, outputs.name(cell.1))?);
    Ok(Value::Array(pair))
}

/// The row of a state as a list of its cells.
fn row_value(alloc: Global, mealy: &Mealy, state: u16, outputs: &Names) -> Result<Value, NoMemory>
    requires state { state < length mealy.now.rows }
    requires outputs { mealy.now.outputs ≡ length outputs.now }
    ensures { IfOk result (λ v. view v ≡ row_data outputs.now (row mealy.now.rows state)) }
{
    let mut cells = Vec::with_capacity(alloc, usize::from(mealy.inputs()))?;
    for letter in 0..mealy.inputs() {
        cells.push(cell_value(alloc, mealy.step(state, letter), outputs)?)?;
    }
    Ok(Value::Array(cells))
}

/// The rows of all states as a list.
fn rows_value(alloc: Global, mealy: &Mealy, outputs: &Names) -> Result<Value, NoMemory>
    requires { mealy.now.outputs ≡ length outputs.now }
    ensures value { IfOk result (λ v. view v ≡ rows_data outputs.now mealy.now.rows) }
    ensures complete { OnOk result (IsWithinLimits mealy.now) }
{
    let mut rows = Vec::with_capacity(alloc, usize::from(mealy.states()))?;
    for state in 0..mealy.states() {
        rows.push(row_value(alloc, mealy, state, outputs)?)?;
    }
    Ok(Value::Array(rows))
}

fn machine_value(alloc: Global, m: &Machine) -> Result<Value, NoMemory>
    ensures value { IfOk result (λ v. view v ≡ machine_data m.now) }
    ensures named { OnOk result (IsNamed m.now) }
{
    let mut members = Map::new(alloc);
    put_names(alloc, &mut members, "inputs", &m.inputs)?;
    put_names(alloc, &mut members, "outputs", &m.outputs)?;
    let states = rows_value(alloc, &m.mealy, &m.outputs)?;
    put_member(alloc, &mut members, "states", states)?;
    Ok(Value::Object(members))
}

/// The one text of a machine: its compact JSON text and a line feed.
pub fn machine_text(alloc: Global, m: &Machine) -> Result<Vec<u8>, NoMemory>
    ensures text { IfOk result (λ text. text.items ≡ written_text m.now) }
    ensures read_back { IfOk result (λ text. IsMachineFile text.items m.now) }
{
    let mut text = machine_value(alloc, m)?.to_vec(alloc)?;
    text.push(b'\n')?;
    Ok(text)
}

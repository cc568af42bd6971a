//! Reads machine files: the shapes of the members, then the names, then the rows.

ghost use Rattle.std.specs.Prelude.{◌≡◌, List, ℕ, ◌+◌, ◌≤◌, IfOk, IfErr, Some, length, map, string_bytes, option_map};
ghost use Rattle.serde_json.specs.View.{view};
ghost use Rattle.lw_words.specs.First.{FailsFirst};
ghost use Rattle.lw_words.specs.Word.{IsNames};
ghost use Rattle.lw_mealy.specs.Machine.{mealy_of, IsWithinLimits};
ghost use Rattle.lw_json.specs.Formats.{each_of, AreInputs, cell_of, row_of, rows_at, numbered_cell, numbered_rows, SaysMachine, SpellsMachine, IsMachineFile, SameMachine};
ghost use Rattle.lw_json.specs.Fault.{first_failing};
ghost use Rattle.lw_json.specs.MachineFault.{machine_tests, HasOutputIn, SaysMachineFault, HasMachineFault};
ghost use Rattle.lw_json.specs.bodies.Found.{FindsRow, FindsRows, named_row};
ghost use Rattle.lw_json.specs.bodies.MachineParts.{said_machine, written, IsFaultOfRows, UnknownAt};
ghost use Rattle.lw_json.specs.bodies.Told.{Told, IsMisshapen};
ghost use Rattle.lw_json.specs.declared.fault.JsonFault.{JsonFault as Fault};
ghost use Rattle.lw_json.specs.declared.files.Machine.{Machine as Named};

use crate::members::{inputs_of, list, list_member, outputs_of, texts_member, value_of};
use crate::{Field, JsonFault, Machine};
use lw_mealy::{Mealy, MealyFault};
use lw_words::{Names, NoMemory};
use serde_json::Value;
use std::alloc::Global;

/// What a machine file says, before its names are looked at.
#[derive(Drop)]
struct Said<'a> {
    inputs: Vec<String>,
    outputs: Vec<String>,
    states: Vec<Vec<(u16, &'a str)>>,
}

/// A cell: the target and the name of the output.
fn cell<'a>(value: &'a Value) -> Option<(u16, &'a str)>
    ensures { option_map (λ c. (c.0, c.1.now)) result ≡ cell_of (view value.now) }
{
    let [target, output] = list(value)?.as_slice() else {
        return None;
    };
    let target = u16::try_from(target.as_u64()?).ok()?;
    Some((target, output.as_str()?))
}

/// The cells of a state, or None where one is no cell.
fn row<'a>(alloc: Global, value: &'a Value) -> Result<Option<Vec<(u16, &'a str)>>, NoMemory>
    ensures { IfOk result (FindsRow (row_of (view value.now))) }
{
    let Some(items) = list(value) else {
        return Ok(None);
    };
    let mut cells = Vec::with_capacity(alloc, items.len())?;
    for item in items {
        let Some(pair) = cell(item) else {
            return Ok(None);
        };
        cells.push(pair)?;
    }
    Ok(Some(cells))
}

/// The rows of the states, or None where one is no row.
fn rows<'a>(alloc: Global, items: &'a [Value]) -> Result<Option<Vec<Vec<(u16, &'a str)>>>, NoMemory>
    ensures { IfOk result (FindsRows (each_of row_of (map view items.now))) }
{
    let mut all = Vec::with_capacity(alloc, items.len())?;
    for item in items {
        let Some(cells) = row(alloc, item)? else {
            return Ok(None);
        };
        all.push(cells)?;
    }
    Ok(Some(all))
}

/// The member that is a list of rows, or None where there is no such member.
fn rows_member<'a>(
    alloc: Global,
    root: &'a Value,
    key: &str,
) -> Result<Option<Vec<Vec<(u16, &'a str)>>>, NoMemory>
    ensures { IfOk result (FindsRows (rows_at key.now (view root.now))) }
{
    match list_member(root, key) {
        Some(items) => rows(alloc, items),
        None => Ok(None),
    }
}

/// What the members say, where they have their shapes.
fn members_of<'a>(alloc: Global, root: &'a Value) -> Result<Said<'a>, JsonFault>
    ensures ok { IfOk result (λ s. SaysMachine (view root.now) (said_machine s)) }
    ensures err { IfErr result (IsMisshapen (machine_tests (view root.now))) }
{
    if !root.is_object() {
        return Err(JsonFault::Shape(Field::Root));
    }
    let Some(inputs) = texts_member(alloc, root, "inputs")? else {
        return Err(JsonFault::Shape(Field::Inputs));
    };
    let Some(outputs) = texts_member(alloc, root, "outputs")? else {
        return Err(JsonFault::Shape(Field::Outputs));
    };
    let Some(states) = rows_member(alloc, root, "states")? else {
        return Err(JsonFault::Shape(Field::States));
    };
    Ok(Said {
        inputs,
        outputs,
        states,
    })
}

/// The row of a state with the number of each output in place of its name.
fn numbered_row(
    alloc: Global,
    state: usize,
    row: &[(u16, &str)],
    outputs: &Names,
) -> Result<Vec<(u16, u16)>, JsonFault>
    ensures ok { IfOk result
        (λ r. each_of (numbered_cell outputs.now) (named_row row.now) ≡ Some r.items) }
    ensures err { IfErr result
        (Told (Fault.UnknownOutput state)
        (FailsFirst (HasOutputIn outputs.now) (named_row row.now))) }
{
    let mut cells = Vec::with_capacity(alloc, row.len())?;
    for (letter, cell) in row.iter().enumerate() {
        let Some(output) = outputs.number(cell.1) else {
            return Err(JsonFault::UnknownOutput(state, letter));
        };
        cells.push((cell.0, output))?;
    }
    Ok(cells)
}

/// The rows with the number of each output in place of its name.
fn numbered(
    alloc: Global,
    rows: &[Vec<(u16, &str)>],
    outputs: &Names,
) -> Result<Vec<Vec<(u16, u16)>>, JsonFault>
    ensures ok { IfOk result (λ v. numbered_rows outputs.now (map (λ w. named_row w.items) rows.now)
        ≡ Some (map (λ r. r.items) v.items)) }
    ensures err { IfErr result (UnknownAt outputs.now (map (λ w. named_row w.items) rows.now)) }
{
    let mut all = Vec::with_capacity(alloc, rows.len())?;
    for (state, row) in rows.iter().enumerate() {
        all.push(numbered_row(alloc, state, row, outputs)?)?;
    }
    Ok(all)
}

/// The machine of these rows.
fn mealy_of(
    alloc: Global,
    inputs: u16,
    outputs: u16,
    rows: Vec<Vec<(u16, u16)>>,
) -> Result<Mealy, JsonFault>
    requires inputs { (1 ≤ inputs) × (inputs ≤ 64) }
    requires outputs { (1 ≤ outputs) × (outputs ≤ 4096) }
    ensures ok { IfOk result (λ m. m ≡ mealy_of inputs outputs (map (λ r. r.items) rows.items)) }
    ensures machine { IfOk result IsWithinLimits }
    ensures err { IfErr result
        (Told Fault.Mealy (IsFaultOfRows inputs outputs (map (λ r. r.items) rows.items))) }
{
    match Mealy::new(alloc, inputs, outputs, rows) {
        Ok(mealy) => Ok(mealy),
        Err(MealyFault::NoMemory) => Err(JsonFault::NoMemory),
        Err(fault) => Err(JsonFault::Mealy(fault)),
    }
}

/// The machine of rows with names for their outputs.
fn mealy_said(
    alloc: Global,
    rows: &[Vec<(u16, &str)>],
    inputs: &Names,
    outputs: &Names,
) -> Result<Mealy, JsonFault>
    requires inputs { AreInputs inputs.now }
    requires outputs { IsNames outputs.now }
    ensures rows { IfOk result
        (λ m. numbered_rows outputs.now (map (λ w. named_row w.items) rows.now) ≡ Some m.rows) }
    ensures machine { IfOk result IsWithinLimits }
    ensures letters { IfOk result (λ m. m.inputs ≡ length inputs.now) }
    ensures answers { IfOk result (λ m. m.outputs ≡ length outputs.now) }
    ensures err { IfErr result (SaysMachineFault
        (written inputs.now outputs.now (map (λ w. named_row w.items) rows.now))) }
{
    let rows = numbered(alloc, rows, outputs)?;
    mealy_of(alloc, inputs.len(), outputs.len(), rows)
}

/// The machine that is said.
fn machine_of(alloc: Global, said: &Said<'_>) -> Result<Machine, JsonFault>
    ensures ok { IfOk result (SpellsMachine (said_machine said.now)) }
    ensures err { IfErr result (SaysMachineFault (said_machine said.now)) }
{
    let inputs = inputs_of(alloc, &said.inputs)?;
    let outputs = outputs_of(alloc, &said.outputs)?;
    let mealy = mealy_said(alloc, &said.states, &inputs, &outputs)?;
    Ok(Machine {
        inputs,
        outputs,
        mealy,
    })
}

/// Reads a machine file: an object with `inputs` and `outputs`, lists of names, and `states`, a list that has
/// for each state a list of cells, a target and the name of an output for each input.
pub fn read_machine(alloc: Global, bytes: &[u8]) -> Result<Machine, JsonFault>
    ensures ok { IfOk result (IsMachineFile bytes.now) }
    ensures only { IfOk result (λ m. (n : Named) → IsMachineFile bytes.now n → SameMachine n m) }
    ensures err { IfErr result (HasMachineFault bytes.now) }
{
    let root = value_of(alloc, bytes)?;
    let said = members_of(alloc, &root)?;
    machine_of(alloc, &said)
}

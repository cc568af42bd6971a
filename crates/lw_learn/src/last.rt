//! The machine of the last learner that was closed, written at an end without a model.
ghost use Rattle.std.specs.Prelude.{◌≡◌, ◌⊎◌, ◌<◌, ◌≤◌, length, IfOk, IfSome};
ghost use Rattle.lw_learn.specs.Last.{WritesHypothesis, LeavesLast, hypothesis_text, model_learned};
ghost use Rattle.lw_system.specs.Systems.{letters_of};

use crate::naming::names_of;
use crate::saving::write_text;
use crate::{LearnArguments, Saved};
use lw_json::{Machine, machine_text};
use lw_mealy::Mealy;
use lw_names::OutNames;
use lw_outside::Files;
use lw_system::System;
use lw_words::NoMemory;
use lw_workers::LearningOutcome;
use std::alloc::Global;

/// The new number of an output, which is its own where the list has none.
fn number_in(to: &[u16], output: u16) -> u16 {
    match to.get(usize::from(output)) {
        Some(number) => *number,
        None => output,
    }
}

/// The row of a state, with the new numbers of its outputs.
fn row_by(
    alloc: Global,
    machine: &Mealy,
    state: u16,
    to: &[u16],
) -> Result<Vec<(u16, u16)>, NoMemory>
    requires { state < length machine.now.rows }
{
    let mut row = Vec::new(alloc);
    for letter in 0..machine.inputs() {
        let (target, output) = machine.step(state, letter);
        row.push((target, number_in(to, output)))?;
    }
    Ok(row)
}

/// The rows of a machine, with the new numbers of its outputs.
fn rows_by(alloc: Global, machine: &Mealy, to: &[u16]) -> Result<Vec<Vec<(u16, u16)>>, NoMemory> {
    let mut rows = Vec::new(alloc);
    for state in 0..machine.states() {
        rows.push(row_by(alloc, machine, state, to)?)?;
    }
    Ok(rows)
}

/// A machine with the new numbers of its outputs, which are so many; None where there is no memory, or one is none of them.
pub(crate) fn machine_by(alloc: Global, machine: &Mealy, outputs: u16, to: &[u16]) -> Option<Mealy>
    ensures { IfSome result (λ m. (m.inputs ≡ machine.now.inputs) × (m.outputs ≡ outputs)) }
{
    if outputs < 1 || outputs > 4096 {
        return None;
    }
    let rows = rows_by(alloc, machine, to).ok()?;
    Mealy::new(alloc, machine.inputs(), outputs, rows).ok()
}

/// The machine that is left, with the names of letters and outputs.
fn named(alloc: Global, system: &System, names: &OutNames, last: &Mealy) -> Option<Machine>
    requires few { length (letters_of system.now) ≤ 64 }
    ensures inputs { IfSome result (λ m. m.inputs ≡ letters_of system.now) }
    ensures outputs { IfSome result (λ m. m.outputs ≡ names.now.names) }
{
    let inputs = system.inputs().copy().ok()?;
    if last.inputs() != inputs.len() {
        return None;
    }
    let mealy = machine_by(alloc, last, names.len(), &[])?;
    let outputs = names_of(alloc, names).ok()?;
    Some(Machine {
        inputs,
        outputs,
        mealy,
    })
}

/// The text of a machine file with the member that says that it is a hypothesis.
fn hypothesis_text(alloc: Global, machine: &Machine) -> Result<Vec<u8>, NoMemory>
    ensures { IfOk result (λ text. text.items ≡ hypothesis_text machine.now) }
{
    let own = machine_text(alloc, machine)?;
    let mut text = Vec::from_slice(alloc, b"{\"hypothesis\":true,")?;
    if let Some((_, rest)) = own.split_first() {
        text.extend_from_slice(rest)?;
    }
    Ok(text)
}

/// Writes a machine under a name, where there is memory for its text.
fn leave<F: Files>(alloc: Global, name: &str, machine: &Machine, files: &mut F) -> Saved
    ensures left { (F.state files.new ≡ F.state files.old) ⊎
        WritesHypothesis name.now machine.now.inputs machine.now.outputs
        (F.state files.old) (F.state files.new) }
    ensures reads { (F.state files.new).reads ≡ (F.state files.old).reads }
    ensures counts { (F.state files.old).faults ≤ (F.state files.new).faults }
{
    let _letters = machine.mealy.inputs();
    match hypothesis_text(alloc, machine) {
        Ok(text) => write_text(files, name, &text),
        Err(NoMemory) => Saved::NoMemory,
    }
}

/// Writes the machine of the last learner that was closed, if there was one, where a file is named for it and a learning came to
/// no model. That it can't be written changes nothing of the outcome; what became of it is answered for a note.
pub(crate) fn leave_last<F: Files>(
    alloc: Global,
    arguments: &LearnArguments,
    system: &System,
    found: &LearningOutcome,
    last: Option<Mealy>,
    files: &mut F,
) -> Saved
    requires few { length (letters_of system.now) ≤ 64 }
    ensures { LeavesLast arguments.now.last (model_learned found.now.learned)
        (letters_of system.now) found.now.names.names (F.state files.old) (F.state files.new) }
{
    let (Some(name), Some(last)) = (arguments.last(), &last) else {
        return Saved::Stand;
    };
    if found.learned.is_ok() {
        return Saved::Stand;
    }
    match named(alloc, system, &found.names, last) {
        Some(machine) => leave(alloc, name, &machine, files),
        None => Saved::NoMemory,
    }
}

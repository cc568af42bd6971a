//! What is put to streams and written to files.
ghost use Rattle.std.specs.Prelude.{◌≡◌, ◌≤◌, true, false, Err, OnOk, option_map};
ghost use Rattle.lw_words.specs.Cause.{CountedFault};
ghost use Rattle.lw_outside.specs.Files.{Holds, StaysBeside, noted, write_call};
ghost use Rattle.lw_report.specs.Outcomes.{StandsOrWants};
ghost use Rattle.lw_report.specs.Text.{text_of};
ghost use Rattle.lw_report.specs.Writing.{TakesAll, TakesSome, said_text};
ghost use Rattle.lw_report.specs.declared.role.Role.{Role as Part};
ghost use Rattle.lw_report.specs.declared.stops.TellStop.{TellStop as Stop};

use crate::texts::{NO_MEMORY, fixed_text, outcome_text};
use crate::{Outcome, Role, TellStop, text};
use lw_outside::{Files, Sink, WriteStop, put_all};
use lw_words::{Kept, Names, NoMemory};
use std::alloc::Global;

/// Puts a text to a stream that may refuse it.
fn put_text<K: Sink>(sink: &mut K, text: &str)
    ensures whole { ¬ CountedFault (K.state sink.old).faults (K.state sink.new).faults →
        TakesAll text.now (K.state sink.old).taken (K.state sink.new).taken }
    ensures part { TakesSome text.now (K.state sink.old).taken (K.state sink.new).taken }
    ensures counts { (K.state sink.old).faults ≤ (K.state sink.new).faults }
{
    let _refused = put_all(sink, text.as_bytes()).is_err();
}

/// The names of letters and of outputs that a file has said, where one has.
#[derive(Clone, Copy)]
pub struct Said<'a> {
    pub inputs: Option<&'a Names>,
    pub outputs: Option<&'a Names>,
}

/// What is said where no file was read.
pub const UNSAID: Said<'static> = Said {
    inputs: None,
    outputs: None,
};

/// Puts the text of an outcome to `err`, with the names that a file has said, if any. Where making the text takes more memory
/// than there is, that is the outcome, and its text is put.
pub fn say<E: Sink>(
    alloc: Global,
    outcome: Outcome,
    said: Said,
    kept: &Kept,
    extra: u8,
    err: &mut E,
) -> Outcome
    ensures outcome { StandsOrWants outcome result }
    ensures said { ¬ CountedFault (E.state err.old).faults (E.state err.new).faults →
        TakesAll (said_text (option_map (λ n. n.now) said.entry.inputs)
        (option_map (λ n. n.now) said.entry.outputs) kept.now.answers extra result)
        (E.state err.old).taken (E.state err.new).taken }
    ensures part { TakesSome (said_text (option_map (λ n. n.now) said.entry.inputs)
        (option_map (λ n. n.now) said.entry.outputs) kept.now.answers extra result)
        (E.state err.old).taken (E.state err.new).taken }
    ensures counts { (E.state err.old).faults ≤ (E.state err.new).faults }
{
    if let Some(text) = fixed_text(&outcome) {
        put_text(err, text);
        return outcome;
    }
    match outcome_text(alloc, &outcome, said.inputs, said.outputs, kept, extra) {
        Ok(text) => {
            put_text(err, text.as_str());
            outcome
        }
        Err(NoMemory) => {
            put_text(err, NO_MEMORY);
            Outcome::NoMemory
        }
    }
}

/// Puts the text of an outcome to a stream, for an outcome that stands only where its text is put.
pub fn put_report<K: Sink>(
    alloc: Global,
    outcome: &Outcome,
    inputs: &Names,
    outputs: &Names,
    kept: &Kept,
    extra: u8,
    sink: &mut K,
) -> Result<(), TellStop>
    ensures ok { OnOk result
        (TakesAll (text_of inputs.now outputs.now kept.now.answers extra outcome.now)
        (K.state sink.old).taken (K.state sink.new).taken) }
    ensures part { TakesSome (text_of inputs.now outputs.now kept.now.answers extra outcome.now)
        (K.state sink.old).taken (K.state sink.new).taken }
    ensures memory { result ≡ Err Stop.NoMemory → (K.state sink.new).taken ≡
        (K.state sink.old).taken }
    ensures failed { result ≡ Err Stop.Sink → CountedFault (K.state sink.old).faults
        (K.state sink.new).faults }
    ensures no_file { (role : Part) → ¬ (result ≡ Err (Stop.File role)) }
    ensures quiet { OnOk result ((K.state sink.new).faults ≡ (K.state sink.old).faults) }
    ensures counts { (K.state sink.old).faults ≤ (K.state sink.new).faults }
{
    let text = text(alloc, outcome, inputs, outputs, kept, extra)?;
    put_all(sink, &text)?;
    Ok(())
}

/// Writes the file in a role.
pub fn write_file<F: Files>(
    files: &mut F,
    role: Role,
    name: &str,
    bytes: &[u8],
) -> Result<(), TellStop>
    ensures told { OnOk result (Holds (F.state files.new).holds name.now bytes.now) }
    ensures beside { StaysBeside name.now (F.state files.old).holds (F.state files.new).holds }
    ensures ok { OnOk result ((F.state files.new).calls ≡ noted (write_call name.now false)
        (F.state files.old).calls) }
    ensures role { (other : Part) → result ≡ Err (Stop.File other) → other ≡ role }
    ensures failed { result ≡ Err (Stop.File role) → CountedFault (F.state files.old).faults
        (F.state files.new).faults }
    ensures failed_call { result ≡ Err (Stop.File role) → (F.state files.new).calls ≡
        noted (write_call name.now true) (F.state files.old).calls }
    ensures memory { result ≡ Err Stop.NoMemory → (F.state files.new).calls ≡
        (F.state files.old).calls }
    ensures no_sink { ¬ (result ≡ Err Stop.Sink) }
    ensures reads { (F.state files.new).reads ≡ (F.state files.old).reads }
    ensures quiet { OnOk result ((F.state files.new).faults ≡ (F.state files.old).faults) }
    ensures counts { (F.state files.old).faults ≤ (F.state files.new).faults }
{
    match files.write(name, bytes) {
        Ok(()) => Ok(()),
        Err(WriteStop::Failed) => Err(TellStop::File(role)),
        Err(WriteStop::NoMemory) => Err(TellStop::NoMemory),
    }
}

//! The recorded answers, saved in the file that is named for them, however a learning ended.
ghost use Rattle.std.specs.Prelude.{◌≡◌, ◌≤◌, length, None, Some, IfOk, OnOk, OnErr};
ghost use Rattle.lw_json.specs.AnswersText.{IsAnswersText};
ghost use Rattle.lw_json.specs.KeptOver.{AreKeptOver};
ghost use Rattle.lw_learn.specs.Saving.{HasSaved, IsTextWritten, IsWritten, saved_outcome};
ghost use Rattle.lw_learn.specs.Writing.{StaysBesides};
ghost use Rattle.lw_learn.specs.declared.saving.Saved.TheVariants as Was;

use crate::LearnArguments;
use crate::naming::names_of;
use lw_json::answers_text;
use lw_names::OutNames;
use lw_outside::{Files, WriteStop};
use lw_report::Outcome;
use lw_words::{Kept, Names, NoMemory};
use std::alloc::Global;

/// What became of the file of the recorded answers.
#[derive(Clone, Copy, Debug, PartialEq, Eq)]
pub enum Saved {
    /// They are in it, where one is named and some are kept.
    Stand,
    /// It could not be written.
    Failed,
    /// There was no memory to write it.
    NoMemory,
}

impl Saved {
    /// Refuses where memory ran out.
    pub(crate) fn memory(self) -> Result<(), NoMemory>
        ensures ok { OnOk result (¬ (self ≡ Was.NoMemory)) }
        ensures err { OnErr result (self ≡ Was.NoMemory) }
    {
        match self {
            Saved::Stand | Saved::Failed => Ok(()),
            Saved::NoMemory => Err(NoMemory),
        }
    }

    /// The outcome of a call without a model, which a file that failed does not change.
    pub(crate) fn outcome(self, outcome: Outcome) -> Outcome
        ensures { result ≡ saved_outcome self outcome }
    {
        match self {
            Saved::Stand | Saved::Failed => outcome,
            Saved::NoMemory => Outcome::NoMemory,
        }
    }
}

/// A text of recorded answers.
fn kept_text(
    alloc: Global,
    inputs: &Names,
    names: &OutNames,
    kept: &Kept,
) -> Result<Vec<u8>, NoMemory>
    requires few { length inputs.now ≤ 64 }
    requires over { AreKeptOver (length inputs.now) (length names.now.names) kept.now.answers }
    ensures { IfOk result
        (λ text. IsAnswersText inputs.now names.now.names kept.now.answers text.items) }
{
    let outputs = names_of(alloc, names)?;
    answers_text(alloc, inputs, &outputs, kept)
}

/// Writes a text under a name.
pub(crate) fn write_text<F: Files>(files: &mut F, name: &str, bytes: &[u8]) -> Saved
    ensures written { IsWritten name.now bytes.now (F.state files.old) (F.state files.new)
        result }
    ensures beside { StaysBesides (Some name.now) None None (F.state files.old).holds
        (F.state files.new).holds }
    ensures reads { (F.state files.new).reads ≡ (F.state files.old).reads }
    ensures counts { (F.state files.old).faults ≤ (F.state files.new).faults }
{
    match files.write(name, bytes) {
        Ok(()) => Saved::Stand,
        Err(WriteStop::Failed) => Saved::Failed,
        Err(WriteStop::NoMemory) => Saved::NoMemory,
    }
}

/// Saves recorded answers under a name.
fn save_as<F: Files>(
    alloc: Global,
    name: &str,
    inputs: &Names,
    names: &OutNames,
    kept: &Kept,
    files: &mut F,
) -> Saved
    requires few { length inputs.now ≤ 64 }
    requires over { AreKeptOver (length inputs.now) (length names.now.names) kept.now.answers }
    ensures written { IsTextWritten name.now inputs.now names.now.names kept.now.answers
        (F.state files.old) (F.state files.new) result }
    ensures beside { StaysBesides (Some name.now) None None (F.state files.old).holds
        (F.state files.new).holds }
    ensures reads { (F.state files.new).reads ≡ (F.state files.old).reads }
    ensures counts { (F.state files.old).faults ≤ (F.state files.new).faults }
{
    match kept_text(alloc, inputs, names, kept) {
        Ok(text) => write_text(files, name, &text),
        Err(NoMemory) => Saved::NoMemory,
    }
}

/// Saves what is kept, where a file is named for it and something is.
pub(crate) fn save_kept<F: Files>(
    alloc: Global,
    arguments: &LearnArguments,
    inputs: &Names,
    names: &OutNames,
    kept: &Kept,
    files: &mut F,
) -> Saved
    requires few { length inputs.now ≤ 64 }
    requires over { AreKeptOver (length inputs.now) (length names.now.names) kept.now.answers }
    ensures { HasSaved arguments.now.kept inputs.now names.now.names kept.now.answers
        (F.state files.old) (F.state files.new) result }
{
    let Some(name) = arguments.kept() else {
        return Saved::Stand;
    };
    if kept.len() == 0 {
        return Saved::Stand;
    }
    save_as(alloc, name, inputs, names, kept, files)
}

//! The files that say what is asked again: a setup, and answers.
ghost use Rattle.std.specs.Prelude.{◌≡◌, ◌≤◌, true, false, length, Contains, IfErr, IfOk};
ghost use Rattle.std.specs.List.{All};
ghost use Rattle.lw_report.specs.declared.outcome.Outcome.{Outcome as Came};
ghost use Rattle.lw_report.specs.declared.role.Role.{Role as Part};
ghost use Rattle.lw_system.specs.Systems.{FitsSystem, HasWords, letters_of};
ghost use Rattle.lw_recheck.specs.Reading.{HasReadBoth};

use lw_json::Answers;
use lw_outside::Files;
use lw_report::{Outcome, Role, read_outcome, unread_outcome};
use lw_system::{Source, System, read_answers_file, read_system};
use lw_words::Names;
use std::alloc::Global;

/// A system, and answers over its names.
#[derive(Drop)]
pub(crate) struct Task {
    pub(crate) system: System,
    pub(crate) answers: Answers,
}

/// Whether each name is among others.
fn are_among(own: &Names, others: &Names) -> bool
    ensures yes { result ≡ true → All (λ n. Contains others.now n) own.now }
    ensures no { result ≡ false → ¬ All (λ n. Contains others.now n) own.now }
{
    for y in 0..own.len() {
        match others.number(own.name(y)) {
            Some(_) => {}
            None => return false,
        }
    }
    true
}

/// Whether the names of answers are a system's: the same letters, and outputs that are among the declared ones.
fn fits(answers: &Answers, system: &System) -> bool
    ensures yes { result ≡ true → FitsSystem answers.now system.now }
    ensures no { result ≡ false → ¬ FitsSystem answers.now system.now }
{
    if !answers.inputs.same(system.inputs()) {
        return false;
    }
    match system.outputs() {
        Some(declared) => are_among(&answers.outputs, declared),
        None => true,
    }
}

/// A system with answers, where their names are its.
fn with_answers(system: System, answers: Answers) -> Result<Task, Outcome>
    ensures ok { IfOk result (λ t. (t.system ≡ system) × (t.answers ≡ answers) ×
        FitsSystem answers system) }
    ensures err { IfErr result (λ o. (o ≡ Came.Alphabets Part.Prior) ×
        ¬ FitsSystem answers system) }
{
    if fits(&answers, &system) {
        Ok(Task { system, answers })
    } else {
        Err(Outcome::Alphabets(Role::Prior))
    }
}

/// Reads the setup file, the table file that it names, if it names one, and the answers file.
pub(crate) fn read_both<F: Files>(
    alloc: Global,
    setup: &str,
    answers: &str,
    files: &mut F,
) -> Result<Task, Outcome>
    ensures read { HasReadBoth setup.now answers.now (F.state files.old) (F.state files.new)
        result }
    ensures letters { IfOk result (λ t. length (letters_of t.system) ≤ 64) }
    ensures words { IfOk result (λ t. HasWords t.system) }
{
    let system = match read_system(alloc, Source::Setup, setup, files) {
        Ok(system) => system,
        Err(stop) => return Err(unread_outcome(stop)),
    };
    match read_answers_file(alloc, files, answers) {
        Ok(answers) => with_answers(system, answers),
        Err(stop) => Err(read_outcome(stop, Role::Prior)),
    }
}

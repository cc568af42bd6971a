//! The two files of the command.
ghost use Rattle.std.specs.Prelude.{◌≡◌, ◌≤◌, IfOk, IfErr, string_bytes};
ghost use Rattle.lw_check.specs.Decision.{pair_of};
ghost use Rattle.lw_check.specs.Reading.{IsUnread, ReadsPair};
ghost use Rattle.lw_check.specs.bodies.Models.{HasReadModel};
ghost use Rattle.lw_system.specs.declared.goal.Goal.TheVariants as Aim;

use crate::CheckArguments;
use lw_json::{Answers, Machine};
use lw_outside::Files;
use lw_report::{Outcome, Role, acceptor_outcome, read_outcome};
use lw_system::{Goal, read_answers_file, read_machine_file, read_view_file};
use std::alloc::Global;

/// A model and answers, each with its names.
#[derive(Drop)]
pub(crate) struct Read {
    pub(crate) machine: Machine,
    pub(crate) answers: Answers,
}

/// Reads a model file that is a machine's.
fn read_machine<F: Files>(alloc: Global, files: &mut F, name: &str) -> Result<Machine, Outcome>
    ensures { HasReadModel Aim.Machine name.now (F.state files.old) (F.state files.new) result }
{
    match read_machine_file(alloc, files, name) {
        Ok(machine) => Ok(machine),
        Err(stop) => Err(read_outcome(stop, Role::Model)),
    }
}

/// Reads a model file that is an acceptor's, for the machine that is asked in the acceptor's place.
fn read_view<F: Files>(alloc: Global, files: &mut F, name: &str) -> Result<Machine, Outcome>
    ensures { HasReadModel Aim.Acceptor name.now (F.state files.old) (F.state files.new) result }
{
    match read_view_file(alloc, files, name) {
        Ok(machine) => Ok(machine),
        Err(stop) => Err(acceptor_outcome(stop, Role::Model)),
    }
}

/// Reads the model file, by what it is of.
fn read_model<F: Files>(
    alloc: Global,
    files: &mut F,
    goal: Goal,
    name: &str,
) -> Result<Machine, Outcome>
    ensures { HasReadModel goal name.now (F.state files.old) (F.state files.new) result }
{
    match goal {
        Goal::Machine => read_machine(alloc, files, name),
        Goal::Acceptor => read_view(alloc, files, name),
    }
}

/// Reads the model file, by what it is of, then the answers file.
fn read_pair<F: Files>(
    alloc: Global,
    files: &mut F,
    goal: Goal,
    model: &str,
    answers: &str,
) -> Result<Read, Outcome>
    ensures ok { IfOk result (λ read. ReadsPair goal model.now answers.now (F.state files.old)
        (F.state files.new) (pair_of read.machine read.answers)) }
    ensures err { IfErr result (IsUnread goal model.now answers.now (F.state files.old)
        (F.state files.new)) }
    ensures counts { (F.state files.old).faults ≤ (F.state files.new).faults }
    ensures same { (F.state files.new).holds ≡ (F.state files.old).holds }
{
    let machine = read_model(alloc, files, goal, model)?;
    match read_answers_file(alloc, files, answers) {
        Ok(answers) => Ok(Read { machine, answers }),
        Err(stop) => Err(read_outcome(stop, Role::Answers)),
    }
}

/// Reads the files that the arguments name, the model's first.
pub(crate) fn read_named<F: Files>(
    alloc: Global,
    files: &mut F,
    arguments: &CheckArguments,
) -> Result<Read, Outcome>
    ensures ok { IfOk result (λ read. ReadsPair arguments.now.goal
        (string_bytes arguments.now.model) (string_bytes arguments.now.answers)
        (F.state files.old) (F.state files.new) (pair_of read.machine read.answers)) }
    ensures err { IfErr result (IsUnread arguments.now.goal (string_bytes arguments.now.model)
        (string_bytes arguments.now.answers) (F.state files.old) (F.state files.new)) }
    ensures counts { (F.state files.old).faults ≤ (F.state files.new).faults }
    ensures same { (F.state files.new).holds ≡ (F.state files.old).holds }
{
    let model = arguments.model.as_str();
    let answers = arguments.answers.as_str();
    read_pair(alloc, files, arguments.goal, model, answers)
}

//! What is reported of a model: its text, and the outcome of the call that learned it; or what is reported in its
//! place.
ghost use Rattle.std.specs.Prelude.{◌≡◌, IfOk, IfErr, length};
ghost use Rattle.lw_accept.specs.AcceptorText.{acceptor_written};
ghost use Rattle.lw_json.specs.MachineText.{written_text};
ghost use Rattle.lw_report.specs.declared.outcome.Outcome.{Outcome as Came};
ghost use Rattle.lw_system.specs.declared.goal.Goal.TheVariants as Aim;
ghost use Rattle.lw_learn.specs.Outcomes.{IsUntold, told_of};
ghost use Rattle.lw_learn.specs.Writing.{IsModelText};
ghost use Rattle.lw_learn.specs.bodies.Ready.{IsMachineFor};

use crate::writing::Report;
use lw_accept::{Acceptor, ViewFault, acceptor_text, letters_behind, unview};
use lw_json::{Machine, machine_text};
use lw_report::Outcome;
use lw_system::Goal;
use lw_words::NoMemory;
use std::alloc::Global;

/// What is reported of a machine that was learned.
fn machine_report(alloc: Global, machine: &Machine, refinements: u32) -> Result<Report, NoMemory>
    ensures text { IfOk result (λ r. r.text.items ≡ written_text machine.now) }
    ensures outcome { IfOk result (λ r. r.outcome ≡ Came.Learned machine.now.mealy refinements) }
{
    let outcome = Outcome::Learned {
        model: machine.mealy.copy()?,
        refinements,
    };
    let text = machine_text(alloc, machine)?;
    Ok(Report { text, outcome })
}

/// What is reported of an acceptor that was learned.
fn acceptor_told(alloc: Global, acceptor: &Acceptor, refinements: u32) -> Result<Report, NoMemory>
    ensures text { IfOk result (λ r. r.text.items ≡ acceptor_written acceptor.now) }
    ensures outcome { IfOk result (λ r. r.outcome ≡
        Came.Accepted (length acceptor.now.automaton.targets) refinements) }
{
    let states = acceptor.states();
    let text = acceptor_text(alloc, acceptor)?;
    let outcome = Outcome::Accepted {
        states,
        refinements,
    };
    Ok(Report { text, outcome })
}

/// What is reported of an acceptor whose machine was learned; or that there is none, or no memory for it.
fn acceptor_report(alloc: Global, machine: &Machine, refinements: u32) -> Result<Report, Outcome>
    requires asked { IsMachineFor Aim.Acceptor machine.now }
    ensures text { IfOk result (λ r. IsModelText Aim.Acceptor machine.now r.text.items) }
    ensures outcome { IfOk result (λ r. r.outcome ≡
        told_of Aim.Acceptor machine.now.mealy refinements) }
    ensures err { IfErr result (IsUntold Aim.Acceptor machine.now.mealy.rows) }
{
    let Ok(letters) = letters_behind(alloc, &machine.inputs) else {
        return Err(Outcome::NoMemory);
    };
    let acceptor = match unview(alloc, &machine.mealy, &letters) {
        Ok(acceptor) => acceptor,
        Err(ViewFault::NotAcceptor { state, letter }) => {
            return Err(Outcome::NotAcceptor { state, letter });
        }
        Err(ViewFault::NoMemory) => return Err(Outcome::NoMemory),
    };
    match acceptor_told(alloc, &acceptor, refinements) {
        Ok(report) => Ok(report),
        Err(NoMemory) => Err(Outcome::NoMemory),
    }
}

/// What is reported of a model, by what was to be learned, or what is reported in its place.
pub(crate) fn model_report(
    alloc: Global,
    goal: Goal,
    machine: &Machine,
    refinements: u32,
) -> Result<Report, Outcome>
    requires fits { IsMachineFor goal machine.now }
    ensures text { IfOk result (λ r. IsModelText goal machine.now r.text.items) }
    ensures outcome { IfOk result (λ r. r.outcome ≡ told_of goal machine.now.mealy refinements) }
    ensures err { IfErr result (IsUntold goal machine.now.mealy.rows) }
{
    match goal {
        Goal::Machine => match machine_report(alloc, machine, refinements) {
            Ok(report) => Ok(report),
            Err(NoMemory) => Err(Outcome::NoMemory),
        },
        Goal::Acceptor => acceptor_report(alloc, machine, refinements),
    }
}

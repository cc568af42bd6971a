//! The texts about acceptors.
ghost use Rattle.std.specs.Prelude.{◌≡◌, ◌++◌, codes, IfOk, string_bytes};
ghost use Rattle.lw_report.specs.Reasons.{acceptor_reason, part_name};
ghost use Rattle.lw_report.specs.Text.{accepted_line, not_acceptor_line};

use crate::reasons::names_reason;
use lw_accept::{AcceptorFault, AcceptorField};
use lw_words::NoMemory;
use std::alloc::Global;

/// The line about an acceptor that was learned.
pub(crate) fn accepted_text(
    alloc: Global,
    states: u16,
    refinements: u32,
    extra: u8,
    answers: usize,
) -> Result<String, NoMemory>
    ensures { IfOk result (λ text. string_bytes text ≡
        accepted_line states refinements extra answers) }
{
    Ok(format!(in alloc;
        "accepted: states {states}, refinements {refinements}, extra {extra}, answers {answers}\n"
    )?)
}

/// The line about a model that is no acceptor's machine.
pub(crate) fn not_acceptor_text(alloc: Global, state: u16, letter: u16) -> Result<String, NoMemory>
    ensures { IfOk result (λ text. string_bytes text ≡ not_acceptor_line state letter) }
{
    Ok(format!(in alloc; "not an acceptor: state {state}, letter {letter}\n")?)
}

fn part_name(field: AcceptorField) -> &'static str
    ensures { result.now ≡ part_name field }
{
    match field {
        AcceptorField::Root => "root",
        AcceptorField::Accepting => "accepting",
        AcceptorField::Inputs => "inputs",
        AcceptorField::Targets => "targets",
    }
}

/// Why a file is no acceptor's.
fn acceptor_reason(alloc: Global, fault: AcceptorFault) -> Result<String, NoMemory>
    ensures { IfOk result (λ text. string_bytes text ≡ acceptor_reason fault) }
{
    match fault {
        AcceptorFault::NotJson => Ok(String::from_str(alloc, "not JSON")?),
        AcceptorFault::Shape(field) => {
            let name = part_name(field);
            Ok(format!(in alloc; "shape of {name}")?)
        }
        AcceptorFault::Inputs(fault) => names_reason(alloc, "inputs", fault),
        AcceptorFault::Reserved(place) => Ok(format!(in alloc; "reserved name at {place}")?),
        AcceptorFault::NoState => Ok(String::from_str(alloc, "no state")?),
        AcceptorFault::TooMany(count) => Ok(format!(in alloc; "too many states: {count}")?),
        AcceptorFault::Lengths => Ok(String::from_str(alloc, "lengths differ")?),
        AcceptorFault::Ragged(state) => {
            Ok(format!(in alloc; "wrong number of targets at state {state}")?)
        }
        AcceptorFault::Target(state, letter, target) => Ok(format!(in alloc;
            "no such target at state {state}, letter {letter}: {target}"
        )?),
        AcceptorFault::NoMemory => Ok(String::from_str(alloc, "no memory")?),
    }
}

/// The line about a file that is no acceptor's.
pub(crate) fn bad_acceptor_text(alloc: Global, fault: AcceptorFault) -> Result<String, NoMemory>
    ensures { IfOk result (λ text. string_bytes text ≡ codes "bad acceptor: " ++
        (acceptor_reason fault ++ codes "\n")) }
{
    let reason = acceptor_reason(alloc, fault)?;
    Ok(format!(in alloc; "bad acceptor: {reason}\n")?)
}

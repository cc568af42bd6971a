//! The machine that is asked in an acceptor's place.
ghost use Rattle.std.specs.Prelude.{◌≡◌, ◌<◌, ◌+◌, length, map, take, IfOk};
ghost use Rattle.lw_mealy.specs.Machine.{row};
ghost use Rattle.lw_accept.specs.Acceptor.{accepts_in};
ghost use Rattle.lw_accept.specs.View.{answer_names as answers, asked_names as asked, verdict, viewed, viewed_machine};

use crate::names::{answer_names, asked_names};
use crate::{Acceptor, AcceptorFault};
use lw_json::Machine;
use lw_mealy::Mealy;
use lw_words::{Names, NoMemory};
use std::alloc::Global;

/// The number of the output `ok`.
const OK: u16 = 2;

/// The number of the output that says whether a state accepts: that of `yes`, or that of `no`.
fn verdict(accepting: bool) -> u16
    ensures { result ≡ verdict accepting }
{
    if accepting { 0 } else { 1 }
}

/// The row of a state.
fn view_row(alloc: Global, acceptor: &Acceptor, state: u16) -> Result<Vec<(u16, u16)>, NoMemory>
    requires { state < length acceptor.now.automaton.targets }
    ensures { IfOk result (λ r. r.items ≡ row (viewed acceptor.now.automaton) state) }
{
    let letters = acceptor.inputs().len();
    let mut pairs = Vec::with_capacity(alloc, usize::from(letters) + 1)?;
    pairs.push_reserved((state, verdict(acceptor.accepts(state))));
    for letter in 0..letters {
        pairs.push((acceptor.target(state, letter), OK))?;
    }
    Ok(pairs)
}

/// The rows of all states.
fn view_rows(alloc: Global, acceptor: &Acceptor) -> Result<Vec<Vec<(u16, u16)>>, NoMemory>
    ensures { IfOk result (λ rows. map (λ r. r.items) rows.items ≡ viewed acceptor.now.automaton) }
{
    let mut rows = Vec::with_capacity(alloc, usize::from(acceptor.states()))?;
    for state in 0..acceptor.states() {
        rows.push(view_row(alloc, acceptor, state)?)?;
    }
    Ok(rows)
}

/// The names of the letters of its machine.
fn view_names(alloc: Global, inputs: &Names) -> Result<Names, NoMemory>
    ensures { IfOk result (λ names. names ≡ asked inputs.now) }
{
    match asked_names(alloc, inputs) {
        Ok(names) => Ok(names),
        Err(_) => Err(NoMemory),
    }
}

/// The machine that is asked in an acceptor's place, with its names. It has the acceptor's states and a letter more, `?`, the
/// first: that stays in a state, and says whether it accepts. Each other letter goes where it goes, and says `ok`.
pub fn view(alloc: Global, acceptor: &Acceptor) -> Result<Machine, NoMemory>
    ensures inputs { IfOk result (λ m. m.inputs ≡ asked acceptor.now.inputs) }
    ensures outputs { IfOk result (λ m. m.outputs ≡ answers) }
    ensures mealy { IfOk result (λ m. m.mealy ≡
        viewed_machine (length acceptor.now.inputs) acceptor.now.automaton) }
{
    let rows = view_rows(alloc, acceptor)?;
    let inputs = view_names(alloc, acceptor.inputs())?;
    let outputs = answer_names(alloc)?;
    let mealy = Mealy::of_rows(alloc, inputs.len(), outputs.len(), rows);
    Ok(Machine {
        inputs,
        outputs,
        mealy,
    })
}

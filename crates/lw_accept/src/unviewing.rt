//! The acceptor whose machine this is.
ghost use Rattle.std.specs.Prelude.{◌≡◌, ◌<◌, ◌+◌, length, map, IfOk, IfErr, IfSome, IfNone, IsTrue, ◌↔◌};
ghost use Rattle.lw_mealy.specs.Machine.{row, IsWithinLimits};
ghost use Rattle.lw_accept.specs.Acceptor.{IsNamedAcceptor};
ghost use Rattle.lw_accept.specs.AcceptorFile.{AreAcceptorLetters};
ghost use Rattle.lw_accept.specs.Laws.{IsUnviewable};
ghost use Rattle.lw_accept.specs.View.{IsFirstUnviewed, MayView, viewed};
ghost use Rattle.lw_accept.specs.bodies.Unviewed.{AreViewed, IsRowFirst, IsRowViewed, bit_of, targets_of_row};

use crate::{Acceptor, ViewFault};
use lw_mealy::Mealy;
use lw_words::{Names, NoMemory};
use std::alloc::Global;

/// Whether this pair of a state at a letter may be one of an acceptor's machine.
fn may_view(state: u16, letter: u16, pair: (u16, u16)) -> bool
    ensures { IsTrue result ↔ MayView state letter pair }
{
    let (target, output) = pair;
    if letter == 0 {
        target == state && output < 2
    } else {
        output == 2
    }
}

/// The first letter at which a state's pair is none of an acceptor's machine.
fn first_in_row(mealy: &Mealy, state: u16) -> Option<u16>
    requires { state < length mealy.now.rows }
    ensures none { IfNone result (IsRowViewed state (row mealy.now.rows state)) }
    ensures some { IfSome result (IsRowFirst state (row mealy.now.rows state)) }
{
    for letter in 0..mealy.inputs() {
        if !may_view(state, letter, mealy.step(state, letter)) {
            return Some(letter);
        }
    }
    None
}

/// The first pair that is none of an acceptor's machine, by state, then by letter.
fn first_unviewed(mealy: &Mealy) -> Option<(u16, u16)>
    ensures none { IfNone result (AreViewed mealy.now.rows) }
    ensures some { IfSome result (λ at. IsFirstUnviewed mealy.now.rows at.0 at.1) }
    ensures complete { IsWithinLimits mealy.now }
{
    for state in 0..mealy.states() {
        if let Some(letter) = first_in_row(mealy, state) {
            return Some((state, letter));
        }
    }
    None
}

/// Whether each state says yes to `?`.
fn bits_of(alloc: Global, mealy: &Mealy) -> Result<Vec<bool>, NoMemory>
    ensures { IfOk result (λ bits. bits.items ≡ map bit_of mealy.now.rows) }
{
    let mut bits = Vec::with_capacity(alloc, usize::from(mealy.states()))?;
    for state in 0..mealy.states() {
        bits.push(mealy.step(state, 0).1 == 0)?;
    }
    Ok(bits)
}

/// The next states of a state at the letters behind `?`.
fn targets_of(alloc: Global, mealy: &Mealy, state: u16) -> Result<Vec<u16>, NoMemory>
    requires { state < length mealy.now.rows }
    ensures { IfOk result (λ targets. targets.items ≡ targets_of_row (row mealy.now.rows state)) }
{
    let mut targets = Vec::with_capacity(alloc, usize::from(mealy.inputs()))?;
    for letter in 1..mealy.inputs() {
        targets.push(mealy.step(state, letter).0)?;
    }
    Ok(targets)
}

/// The next states of all states at the letters behind `?`.
fn all_targets(alloc: Global, mealy: &Mealy) -> Result<Vec<Vec<u16>>, NoMemory>
    ensures { IfOk result (λ all. map (λ r. r.items) all.items ≡
        map targets_of_row mealy.now.rows) }
{
    let mut all = Vec::with_capacity(alloc, usize::from(mealy.states()))?;
    for state in 0..mealy.states() {
        all.push(targets_of(alloc, mealy, state)?)?;
    }
    Ok(all)
}

/// The acceptor that stands in a machine's pairs.
fn acceptor_of(alloc: Global, mealy: &Mealy, inputs: &Names) -> Result<Acceptor, NoMemory>
    requires free { AreAcceptorLetters inputs.now }
    requires letters { mealy.now.inputs ≡ length inputs.now + 1 }
    requires viewed { AreViewed mealy.now.rows }
    requires complete { IsWithinLimits mealy.now }
    ensures inputs { IfOk result (λ a. a.inputs ≡ inputs.now) }
    ensures view { IfOk result (λ a. viewed a.automaton ≡ mealy.now.rows) }
    ensures named { IfOk result IsNamedAcceptor }
{
    let names = inputs.copy()?;
    let bits = bits_of(alloc, mealy)?;
    let targets = all_targets(alloc, mealy)?;
    Ok(Acceptor::of_parts(names, bits, targets))
}

/// The acceptor over these letters whose machine this is, or the first pair, by state, then by letter, that no machine of an
/// acceptor has there.
pub fn unview(alloc: Global, mealy: &Mealy, inputs: &Names) -> Result<Acceptor, ViewFault>
    requires free { AreAcceptorLetters inputs.now }
    requires letters { mealy.now.inputs ≡ length inputs.now + 1 }
    requires outputs { mealy.now.outputs ≡ 3 }
    ensures inputs { IfOk result (λ a. a.inputs ≡ inputs.now) }
    ensures view { IfOk result (λ a. viewed a.automaton ≡ mealy.now.rows) }
    ensures named { IfOk result IsNamedAcceptor }
    ensures err { IfErr result (IsUnviewable mealy.now.rows) }
{
    match first_unviewed(mealy) {
        Some((state, letter)) => Err(ViewFault::NotAcceptor { state, letter }),
        None => Ok(acceptor_of(alloc, mealy, inputs)?),
    }
}

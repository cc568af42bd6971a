//! Writes acceptor files.

ghost use Rattle.std.specs.Prelude.{◌≡◌, ◌<◌, [], length, slice_index_or, IfOk, OnOk};
ghost use Rattle.serde_json.specs.View.{view};
ghost use Rattle.lw_accept.specs.Acceptor.{IsNamedAcceptor};
ghost use Rattle.lw_accept.specs.AcceptorFile.{IsAcceptorFile};
ghost use Rattle.lw_accept.specs.AcceptorText.{bits_data, targets_row_data, targets_data, acceptor_data, acceptor_written};

use crate::Acceptor;
use lw_json::{put_member, put_names};
use lw_words::NoMemory;
use serde_json::{Map, Value};
use std::alloc::Global;

/// The truth values of all states as a list.
fn bits_value(alloc: Global, a: &Acceptor) -> Result<Value, NoMemory>
    ensures { IfOk result (λ v. view v ≡ bits_data a.now.automaton.accepting) }
{
    let mut bits = Vec::with_capacity(alloc, usize::from(a.states()))?;
    for state in 0..a.states() {
        bits.push(Value::Bool(a.accepts(state)))?;
    }
    Ok(Value::Array(bits))
}

/// The targets of a state as a list.
fn row_value(alloc: Global, a: &Acceptor, state: u16) -> Result<Value, NoMemory>
    requires { state < length a.now.automaton.targets }
    ensures { IfOk result (λ v. view v ≡
        targets_row_data (slice_index_or a.now.automaton.targets state [])) }
{
    let mut targets = Vec::with_capacity(alloc, usize::from(a.inputs().len()))?;
    for letter in 0..a.inputs().len() {
        targets.push(Value::from(a.target(state, letter)))?;
    }
    Ok(Value::Array(targets))
}

/// The rows of all states as a list.
fn rows_value(alloc: Global, a: &Acceptor) -> Result<Value, NoMemory>
    ensures value { IfOk result (λ v. view v ≡ targets_data a.now.automaton.targets) }
    ensures named { OnOk result (IsNamedAcceptor a.now) }
{
    let mut rows = Vec::with_capacity(alloc, usize::from(a.states()))?;
    for state in 0..a.states() {
        rows.push(row_value(alloc, a, state)?)?;
    }
    Ok(Value::Array(rows))
}

fn acceptor_value(alloc: Global, a: &Acceptor) -> Result<Value, NoMemory>
    ensures value { IfOk result (λ v. view v ≡ acceptor_data a.now) }
    ensures named { OnOk result (IsNamedAcceptor a.now) }
{
    let mut members = Map::new(alloc);
    let accepting = bits_value(alloc, a)?;
    put_member(alloc, &mut members, "accepting", accepting)?;
    put_names(alloc, &mut members, "inputs", a.inputs())?;
    let targets = rows_value(alloc, a)?;
    put_member(alloc, &mut members, "targets", targets)?;
    Ok(Value::Object(members))
}

/// The one text of an acceptor: its compact JSON text and a line feed.
pub fn acceptor_text(alloc: Global, a: &Acceptor) -> Result<Vec<u8>, NoMemory>
    ensures text { IfOk result (λ text. text.items ≡ acceptor_written a.now) }
    ensures read_back { IfOk result (λ text. IsAcceptorFile text.items a.now) }
{
    let mut text = acceptor_value(alloc, a)?.to_vec(alloc)?;
    text.push(b'\n')?;
    Ok(text)
}

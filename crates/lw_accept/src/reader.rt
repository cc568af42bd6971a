//! Reads acceptor files: the shapes of the members, then the names, then the states and their targets.

ghost use Rattle.std.specs.Prelude.{◌≡◌, ◌<◌, IfOk, IfErr, OnOk, IfSome, IfNone, Some, length, map};
ghost use Rattle.std.specs.List.{All};
ghost use Rattle.serde_json.specs.View.{view};
ghost use Rattle.serde_json.specs.Find.{as_bool};
ghost use Rattle.lw_words.specs.First.{FailsFirst};
ghost use Rattle.lw_json.specs.Formats.{each_of, IsJson, target_of};
ghost use Rattle.lw_accept.specs.Acceptor.{NamedAcceptor, IsNamedAcceptor};
ghost use Rattle.lw_accept.specs.AcceptorFile.{bits_at, targets_of, targets_at, acceptor_tests, SaysAcceptor, SpellsAcceptor, IsAcceptorFile, AreAcceptorLetters, IsEvenFile, TargetFailsFirst, SaysAcceptorFault, HasAcceptorFault};
ghost use Rattle.lw_accept.specs.bodies.Parts.{said_acceptor, acceptor_said, FindsBits, FindsRow, FindsRows, IsUnreadable, IsMisshapen};

use crate::{Acceptor, AcceptorFault, AcceptorField};
use lw_json::{JsonFault, list, list_member, texts_member, value_of};
use lw_words::{Names, NamesFault, NoMemory};
use serde_json::Value;
use std::alloc::Global;

/// The greatest number of inputs.
const MOST_INPUTS: usize = 63;

/// The greatest number of states.
const MOST_STATES: usize = 1024;

/// What an acceptor file says, before its names are looked at.
#[derive(Drop)]
struct Said {
    accepting: Vec<bool>,
    inputs: Vec<String>,
    targets: Vec<Vec<u16>>,
}

/// The value that bytes spell.
fn root_of(alloc: Global, bytes: &[u8]) -> Result<Value, AcceptorFault>
    ensures ok { IfOk result (λ v. IsJson bytes.now (view v)) }
    ensures err { IfErr result (IsUnreadable bytes.now) }
{
    match value_of(alloc, bytes) {
        Ok(root) => Ok(root),
        Err(JsonFault::NotJson) => Err(AcceptorFault::NotJson),
        Err(_) => Err(AcceptorFault::NoMemory),
    }
}

/// The truth values of a list, or None where one is none.
fn bits(alloc: Global, items: &[Value]) -> Result<Option<Vec<bool>>, NoMemory>
    ensures { IfOk result (FindsBits (each_of as_bool (map view items.now))) }
{
    let mut all = Vec::with_capacity(alloc, items.len())?;
    for item in items {
        let Some(bit) = item.as_bool() else {
            return Ok(None);
        };
        all.push(bit)?;
    }
    Ok(Some(all))
}

/// The member that is a list of truth values, or None where there is no such member.
fn bits_member(alloc: Global, root: &Value, key: &str) -> Result<Option<Vec<bool>>, NoMemory>
    ensures { IfOk result (FindsBits (bits_at key.now (view root.now))) }
{
    match list_member(root, key) {
        Some(items) => bits(alloc, items),
        None => Ok(None),
    }
}

/// A whole number up to 65,535.
fn target(value: &Value) -> Option<u16>
    ensures { result ≡ target_of (view value.now) }
{
    u16::try_from(value.as_u64()?).ok()
}

/// The targets of a state, or None where one is no target.
fn row(alloc: Global, value: &Value) -> Result<Option<Vec<u16>>, NoMemory>
    ensures { IfOk result (FindsRow (targets_of (view value.now))) }
{
    let Some(items) = list(value) else {
        return Ok(None);
    };
    let mut targets = Vec::with_capacity(alloc, items.len())?;
    for item in items {
        let Some(next) = target(item) else {
            return Ok(None);
        };
        targets.push(next)?;
    }
    Ok(Some(targets))
}

/// The rows of the states, or None where one is no row.
fn rows(alloc: Global, items: &[Value]) -> Result<Option<Vec<Vec<u16>>>, NoMemory>
    ensures { IfOk result (FindsRows (each_of targets_of (map view items.now))) }
{
    let mut all = Vec::with_capacity(alloc, items.len())?;
    for item in items {
        let Some(targets) = row(alloc, item)? else {
            return Ok(None);
        };
        all.push(targets)?;
    }
    Ok(Some(all))
}

/// The member that is a list of rows, or None where there is no such member.
fn rows_member(alloc: Global, root: &Value, key: &str) -> Result<Option<Vec<Vec<u16>>>, NoMemory>
    ensures { IfOk result (FindsRows (targets_at key.now (view root.now))) }
{
    match list_member(root, key) {
        Some(items) => rows(alloc, items),
        None => Ok(None),
    }
}

/// What the members say, where they have their shapes.
fn members_of(alloc: Global, root: &Value) -> Result<Said, AcceptorFault>
    ensures ok { IfOk result (λ s. SaysAcceptor (view root.now) (said_acceptor s)) }
    ensures err { IfErr result (IsMisshapen (acceptor_tests (view root.now))) }
{
    if !root.is_object() {
        return Err(AcceptorFault::Shape(AcceptorField::Root));
    }
    let Some(accepting) = bits_member(alloc, root, "accepting")? else {
        return Err(AcceptorFault::Shape(AcceptorField::Accepting));
    };
    let Some(inputs) = texts_member(alloc, root, "inputs")? else {
        return Err(AcceptorFault::Shape(AcceptorField::Inputs));
    };
    let Some(targets) = rows_member(alloc, root, "targets")? else {
        return Err(AcceptorFault::Shape(AcceptorField::Targets));
    };
    Ok(Said {
        accepting,
        inputs,
        targets,
    })
}

/// The names of the inputs, of which none is `?`.
fn inputs_of(alloc: Global, said: &Said) -> Result<Names, AcceptorFault>
    ensures ok { IfOk result (λ names. names ≡ (said_acceptor said.now).inputs) }
    ensures free { OnOk result (AreAcceptorLetters (said_acceptor said.now).inputs) }
    ensures err { IfErr result (SaysAcceptorFault (said_acceptor said.now)) }
{
    match Names::from_list_within(alloc, &said.inputs, MOST_INPUTS) {
        Ok(names) => match names.number("?") {
            Some(place) => Err(AcceptorFault::Reserved(usize::from(place))),
            None => Ok(names),
        },
        Err(NamesFault::NoMemory) => Err(AcceptorFault::NoMemory),
        Err(fault) => Err(AcceptorFault::Inputs(fault)),
    }
}

/// Looks whether there are 1 to 1,024 states, and a truth value for each.
fn check_counts(said: &Said) -> Result<(), AcceptorFault>
    requires { AreAcceptorLetters (said_acceptor said.now).inputs }
    ensures ok { OnOk result (IsEvenFile (said_acceptor said.now)) }
    ensures err { IfErr result (SaysAcceptorFault (said_acceptor said.now)) }
{
    if said.targets.is_empty() {
        return Err(AcceptorFault::NoState);
    }
    if said.targets.len() > MOST_STATES {
        return Err(AcceptorFault::TooMany(said.targets.len()));
    }
    if said.accepting.len() != said.targets.len() {
        return Err(AcceptorFault::Lengths);
    }
    Ok(())
}

/// The first row that hasn't this many targets.
fn first_ragged(rows: &[Vec<u16>], inputs: usize) -> Option<usize>
    ensures none { IfNone result (All (λ r. length r ≡ inputs) (map (λ r. r.items) rows.now)) }
    ensures some { IfSome result
        (FailsFirst (λ r. length r ≡ inputs) (map (λ r. r.items) rows.now)) }
{
    for (state, row) in rows.iter().enumerate() {
        if row.len() != inputs {
            return Some(state);
        }
    }
    None
}

/// The first target of a row that is none of this many states.
fn first_in_row(row: &[u16], states: usize) -> Option<usize>
    ensures none { IfNone result (All (λ t. t < states) row.now) }
    ensures some { IfSome result (FailsFirst (λ t. t < states) row.now) }
{
    for (letter, next) in row.iter().enumerate() {
        if usize::from(*next) >= states {
            return Some(letter);
        }
    }
    None
}

/// The first target that is no state, by state, then by letter.
fn first_in_rows(rows: &[Vec<u16>]) -> Option<(usize, usize)>
    ensures none { IfNone result
        (All (λ r. All (λ t. t < length rows.now) r) (map (λ r. r.items) rows.now)) }
    ensures some { IfSome result
        (λ at. TargetFailsFirst (map (λ r. r.items) rows.now) at.0 at.1) }
{
    for (state, row) in rows.iter().enumerate() {
        if let Some(letter) = first_in_row(row, rows.len()) {
            return Some((state, letter));
        }
    }
    None
}

/// Looks whether each state has one target for each input, and each target is a state.
fn check_targets(said: &Said) -> Result<(), AcceptorFault>
    requires { IsEvenFile (said_acceptor said.now) }
    ensures ok { OnOk result (IsNamedAcceptor (acceptor_said said.now)) }
    ensures err { IfErr result (SaysAcceptorFault (said_acceptor said.now)) }
{
    if let Some(state) = first_ragged(&said.targets, said.inputs.len()) {
        return Err(AcceptorFault::Ragged(state as u16));
    }
    if let Some((state, letter)) = first_in_rows(&said.targets) {
        let next = said.targets[state][letter];
        return Err(AcceptorFault::Target(state as u16, letter as u16, next));
    }
    Ok(())
}

/// The names of the acceptor that is said, where it is one.
fn names_of(alloc: Global, said: &Said) -> Result<Names, AcceptorFault>
    ensures ok { IfOk result (λ names. names ≡ (said_acceptor said.now).inputs) }
    ensures named { OnOk result (IsNamedAcceptor (acceptor_said said.now)) }
    ensures err { IfErr result (SaysAcceptorFault (said_acceptor said.now)) }
{
    let inputs = inputs_of(alloc, said)?;
    check_counts(said)?;
    check_targets(said)?;
    Ok(inputs)
}

/// The acceptor that is said.
fn acceptor_of(alloc: Global, said: Said) -> Result<Acceptor, AcceptorFault>
    ensures ok { IfOk result (SpellsAcceptor (said_acceptor said)) }
    ensures err { IfErr result (SaysAcceptorFault (said_acceptor said)) }
{
    let inputs = names_of(alloc, &said)?;
    Ok(Acceptor::of_parts(inputs, said.accepting, said.targets))
}

/// Reads an acceptor file: an object with `accepting`, a list of truth values, one for each state; `inputs`, a list of 1 to 63
/// names, none of them `?`; and `targets`, a list that has for each state a list of states, one for each input.
pub fn read_acceptor(alloc: Global, bytes: &[u8]) -> Result<Acceptor, AcceptorFault>
    ensures ok { IfOk result (IsAcceptorFile bytes.now) }
    ensures only { IfOk result (λ m. (n : NamedAcceptor) → IsAcceptorFile bytes.now n → n ≡ m) }
    ensures err { IfErr result (HasAcceptorFault bytes.now) }
{
    let root = root_of(alloc, bytes)?;
    let said = members_of(alloc, &root)?;
    acceptor_of(alloc, said)
}

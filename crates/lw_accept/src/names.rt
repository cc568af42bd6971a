//! The names of the letters and outputs of an acceptor's machine.
ghost use Rattle.std.specs.Prelude.{◌≡◌, ◌<◌, ◌∷◌, ℕ, List, drop, length, map, string_bytes, IfOk, IfErr, OnOk, OnErr, Some, take};
ghost use Rattle.lw_accept.specs.Acceptor.{question};
ghost use Rattle.lw_accept.specs.AcceptorFile.{AreAcceptorLetters};
ghost use Rattle.lw_accept.specs.AskedNames.{HaveNoRoom};
ghost use Rattle.lw_accept.specs.View.{answer_names, asked_names};

use crate::AcceptorFault;
use lw_words::{Names, NamesFault, NoMemory};
use std::alloc::Global;

/// The name of the letter that asks whether the word before it is accepted.
const QUESTION: &str = "?";

/// The greatest number of letters of an acceptor.
const MOST_INPUTS: u16 = 63;

/// Refuses names beside which `?` can't stand.
fn check_room(inputs: &Names) -> Result<(), AcceptorFault>
    ensures ok { OnOk result (AreAcceptorLetters inputs.now) }
    ensures err { IfErr result (HaveNoRoom inputs.now) }
{
    if inputs.len() > MOST_INPUTS {
        let fault = NamesFault::TooMany(usize::from(inputs.len()));
        return Err(AcceptorFault::Inputs(fault));
    }
    match inputs.number(QUESTION) {
        Some(place) => Err(AcceptorFault::Reserved(usize::from(place))),
        None => Ok(()),
    }
}

/// The texts of `?` and of these names.
fn asked_texts(alloc: Global, inputs: &Names) -> Result<Vec<String>, NoMemory>
    ensures { IfOk result (λ list. map (λ s. string_bytes s) list.items ≡ asked_names inputs.now) }
{
    let mut list = Vec::with_capacity(alloc, usize::from(inputs.len()) + 1)?;
    list.push_reserved(String::from_str(alloc, QUESTION)?);
    for n in 0..inputs.len() {
        list.push(String::from_str(alloc, inputs.name(n))?)?;
    }
    Ok(list)
}

/// The names of the letters of the machine of an acceptor over these: `?`, then these. The fault is `Inputs`, where they are
/// more than 63, or `Reserved`, where `?` is one of them.
pub fn asked_names(alloc: Global, inputs: &Names) -> Result<Names, AcceptorFault>
    ensures ok { IfOk result (λ names. names ≡ asked_names inputs.now) }
    ensures free { OnOk result (AreAcceptorLetters inputs.now) }
    ensures err { IfErr result (HaveNoRoom inputs.now) }
{
    check_room(inputs)?;
    match Names::from_list(alloc, &asked_texts(alloc, inputs)?) {
        Ok(names) => Ok(names),
        Err(_) => Err(AcceptorFault::NoMemory),
    }
}

/// The texts of the names behind `?`.
fn letter_texts(alloc: Global, asked: &Names) -> Result<Vec<String>, NoMemory>
    ensures { IfOk result (λ list. map (λ s. string_bytes s) list.items ≡ drop 1 asked.now) }
{
    let mut list = Vec::with_capacity(alloc, usize::from(asked.len()))?;
    for n in 1..asked.len() {
        list.push(String::from_str(alloc, asked.name(n))?)?;
    }
    Ok(list)
}

/// The names of an acceptor's letters, of those that its machine has.
pub fn letters_behind(alloc: Global, asked: &Names) -> Result<Names, NoMemory>
    requires { (letters : List (List ℕ)) × AreAcceptorLetters letters ×
        (asked.now ≡ asked_names letters) }
    ensures value { IfOk result (λ names. asked.now ≡ asked_names names) }
    ensures letters { IfOk result AreAcceptorLetters }
{
    match Names::from_list(alloc, &letter_texts(alloc, asked)?) {
        Ok(names) => Ok(names),
        Err(_) => Err(NoMemory),
    }
}

/// The names of its outputs: `yes`, `no` and `ok`.
pub fn answer_names(alloc: Global) -> Result<Names, NoMemory>
    ensures { IfOk result (λ names. names ≡ answer_names) }
{
    let yes = String::from_str(alloc, "yes")?;
    let no = String::from_str(alloc, "no")?;
    let ok = String::from_str(alloc, "ok")?;
    match Names::from_list(alloc, &[yes, no, ok]) {
        Ok(names) => Ok(names),
        Err(_) => Err(NoMemory),
    }
}

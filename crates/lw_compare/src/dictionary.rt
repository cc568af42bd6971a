//! The names of a model as another one numbers them.
ghost use Rattle.std.specs.Prelude.{◌≡◌, [], ◌∷◌, ◌++◌, cond, is_none, map, string_bytes, IfOk, OnOk};
ghost use Rattle.lw_words.specs.Word.{number_of};
ghost use Rattle.lw_compare.specs.Comparing.{SameInputs, lacking};
ghost use Rattle.lw_compare.specs.bodies.Joint.{AreLetters, AreNumbers, IsDictionary};

use lw_json::Machine;
use lw_words::{Names, NoMemory};
use std::alloc::Global;

/// How the second of two models numbers the names of the first one: each of its inputs, and each of its outputs that the second
/// one has too.
#[derive(Drop)]
pub struct Dictionary {
    pub letters: Vec<u16>,
    pub outputs: Vec<Option<u16>>,
}

/// Appends a name where others lack it.
fn put_lacking(
    alloc: Global,
    list: &mut Vec<String>,
    name: &str,
    others: &Names,
) -> Result<(), NoMemory>
    ensures { OnOk result (map (λ s. string_bytes s) list.new.items ≡
        map (λ s. string_bytes s) list.old.items ++
        cond (is_none (number_of name.now others.now)) (name.now ∷ []) []) }
{
    if others.number(name).is_some() {
        return Ok(());
    }
    list.push(String::from_str(alloc, name)?)?;
    Ok(())
}

/// The names that others lack, in their order.
pub fn lacking(alloc: Global, names: &Names, others: &Names) -> Result<Vec<String>, NoMemory>
    ensures { IfOk result (λ list. map (λ s. string_bytes s) list.items ≡
        lacking names.now others.now) }
{
    let mut list = Vec::new(alloc);
    for place in 0..names.len() {
        put_lacking(alloc, &mut list, names.name(place), others)?;
    }
    Ok(list)
}

/// The number of each name among others, where it has one.
fn numbers(alloc: Global, names: &Names, others: &Names) -> Result<Vec<Option<u16>>, NoMemory>
    ensures { IfOk result (λ list. AreNumbers names.now others.now list.items) }
{
    let mut list = Vec::with_capacity(alloc, usize::from(names.len()))?;
    for place in 0..names.len() {
        list.push(others.number(names.name(place)))?;
    }
    Ok(list)
}

/// The number of each name among others, and 0 where it has none.
fn letters(alloc: Global, names: &Names, others: &Names) -> Result<Vec<u16>, NoMemory>
    ensures { IfOk result (λ list. AreLetters names.now others.now list.items) }
{
    let mut list = Vec::with_capacity(alloc, usize::from(names.len()))?;
    for place in 0..names.len() {
        list.push(others.number(names.name(place)).unwrap_or(0))?;
    }
    Ok(list)
}

/// The dictionary of two models with the same inputs.
pub fn look_up(alloc: Global, first: &Machine, second: &Machine) -> Result<Dictionary, NoMemory>
    requires same { SameInputs first.now second.now }
    ensures { IfOk result (λ by.
        IsDictionary first.now second.now by.letters.items by.outputs.items) }
{
    let _first_states = first.mealy.states();
    let _second_states = second.mealy.states();
    let _outputs = second.outputs.len();
    Ok(Dictionary {
        letters: letters(alloc, &first.inputs, &second.inputs)?,
        outputs: numbers(alloc, &first.outputs, &second.outputs)?,
    })
}

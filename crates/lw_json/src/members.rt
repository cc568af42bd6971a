//! A file as a value of JSON, and its members: what the readers of all kinds of file have in common.

ghost use Rattle.std.specs.Prelude.{◌≡◌, List, ℕ, IfOk, IfErr, length, map, string_bytes, option_map};
ghost use Rattle.serde_json.specs.View.{view};
ghost use Rattle.serde_json.specs.Find.{as_str};
ghost use Rattle.lw_words.specs.Word.{IsNames};
ghost use Rattle.lw_json.specs.Formats.{each_of, AreInputs, IsJson, array_of, list_at, texts_at};
ghost use Rattle.lw_json.specs.Fault.{IsFaultOf};
ghost use Rattle.lw_json.specs.Members.{IsUnreadJson, FindsTexts};
ghost use Rattle.lw_json.specs.bodies.Told.{Told};
ghost use Rattle.lw_json.specs.declared.fault.JsonFault.{JsonFault as Fault};

use crate::JsonFault;
use lw_words::{Names, NamesFault, NoMemory};
use serde_json::Value;
use std::alloc::Global;

/// The greatest number of inputs.
const MOST_INPUTS: usize = 64;

/// The value that bytes spell. The fault is `NotJson` or `NoMemory`.
pub fn value_of(alloc: Global, bytes: &[u8]) -> Result<Value, JsonFault>
    ensures ok { IfOk result (λ v. IsJson bytes.now (view v)) }
    ensures err { IfErr result (IsUnreadJson bytes.now) }
{
    match Value::from_slice(alloc, bytes) {
        Ok(root) => Ok(root),
        Err(fault) if fault.is_memory() => Err(JsonFault::NoMemory),
        Err(_) => Err(JsonFault::NotJson),
    }
}

/// The values of a list.
pub fn list<'a>(value: &'a Value) -> Option<&'a Vec<Value>>
    ensures { option_map (λ v. map view v.now.items) result ≡ array_of (view value.now) }
{
    value.as_array()
}

/// The member that is a list.
pub fn list_member<'a>(root: &'a Value, key: &str) -> Option<&'a Vec<Value>>
    ensures { option_map (λ v. map view v.now.items) result ≡ list_at key.now (view root.now) }
{
    list(root.get(key)?)
}

/// The texts of a list, or None where one is no text.
pub fn texts(alloc: Global, items: &[Value]) -> Result<Option<Vec<String>>, NoMemory>
    ensures { IfOk result (FindsTexts (each_of as_str (map view items.now))) }
{
    let mut all = Vec::with_capacity(alloc, items.len())?;
    for item in items {
        let Some(text) = item.as_str() else {
            return Ok(None);
        };
        all.push(String::from_str(alloc, text)?)?;
    }
    Ok(Some(all))
}

/// The member that is a list of texts, or None where there is no such member.
pub fn texts_member(alloc: Global, root: &Value, key: &str) -> Result<Option<Vec<String>>, NoMemory>
    ensures { IfOk result (FindsTexts (texts_at key.now (view root.now))) }
{
    match list_member(root, key) {
        Some(items) => texts(alloc, items),
        None => Ok(None),
    }
}

/// The names of the inputs.
pub fn inputs_of(alloc: Global, list: &[String]) -> Result<Names, JsonFault>
    ensures ok { IfOk result (λ names. names ≡ map (λ s. string_bytes s) list.now) }
    ensures names { IfOk result AreInputs }
    ensures err { IfErr result
        (Told Fault.Inputs (IsFaultOf 64 (map (λ s. string_bytes s) list.now))) }
{
    match Names::from_list_within(alloc, list, MOST_INPUTS) {
        Ok(names) => Ok(names),
        Err(NamesFault::NoMemory) => Err(JsonFault::NoMemory),
        Err(fault) => Err(JsonFault::Inputs(fault)),
    }
}

/// The names of the outputs.
pub fn outputs_of(alloc: Global, list: &[String]) -> Result<Names, JsonFault>
    ensures ok { IfOk result (λ names. names ≡ map (λ s. string_bytes s) list.now) }
    ensures names { IfOk result IsNames }
    ensures err { IfErr result
        (Told Fault.Outputs (IsFaultOf 4096 (map (λ s. string_bytes s) list.now))) }
{
    match Names::from_list(alloc, list) {
        Ok(names) => Ok(names),
        Err(NamesFault::NoMemory) => Err(JsonFault::NoMemory),
        Err(fault) => Err(JsonFault::Outputs(fault)),
    }
}

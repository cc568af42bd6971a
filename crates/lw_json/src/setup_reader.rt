//! Reads setup files: the shapes of the members, then the names.

ghost use Rattle.std.specs.Prelude.{◌≡◌, List, ℕ, IfOk, IfErr, Some, true, false, map, string_bytes, option_map, codes};
ghost use Rattle.serde_json.specs.Data.{Data};
ghost use Rattle.serde_json.specs.View.{view};
ghost use Rattle.lw_json.specs.Fault.{first_failing};
ghost use Rattle.lw_json.specs.Hint.{hint_of};
ghost use Rattle.lw_json.specs.Formats.{IsJson, is_object};
ghost use Rattle.lw_json.specs.SetupFile.{has_member, text_at, is_child_command, command_at, outputs_at, AreOutputs, DeclaredFault, setup_tests, SaysSetup, SpellsSetup, IsSetupFile, SaysSetupFault, HasSetupFault};
ghost use Rattle.lw_json.specs.bodies.SetupParts.{said_setup, said_command, said_texts};
ghost use Rattle.lw_json.specs.bodies.Told.{Told, IsMisshapen};
ghost use Rattle.lw_json.specs.declared.fault.JsonFault.{JsonFault as Fault};
ghost use Rattle.lw_json.specs.declared.setup.Setup.{Setup as OneSetup};

use crate::hint::hint_of;
use crate::members::{inputs_of, outputs_of, texts_member, value_of};
use crate::{Command, Field, JsonFault, Setup, SetupFile, Text, Texts};
use lw_words::{Names, NoMemory};
use serde_json::Value;
use std::alloc::Global;

/// The greatest number of words of a command.
const MOST_WORDS: usize = 64;

/// What a setup says, before its names are looked at.
#[derive(Drop)]
enum Said {
    Table(String),
    Command {
        words: Vec<String>,
        inputs: Vec<String>,
        outputs: Option<Vec<String>>,
    },
}

/// The member that is a text, or None where there is no such member.
fn text_member(alloc: Global, root: &Value, key: &str) -> Result<Option<String>, NoMemory>
    ensures { IfOk result
        (λ r. option_map (λ s. string_bytes s) r ≡ text_at key.now (view root.now)) }
{
    let Some(value) = root.get(key) else {
        return Ok(None);
    };
    let Some(text) = value.as_str() else {
        return Ok(None);
    };
    Ok(Some(String::from_str(alloc, text)?))
}

/// Whether these are 1 to 64 words, the first not empty.
fn is_command(words: &[String]) -> bool
    ensures { result ≡ is_child_command (map (λ s. string_bytes s) words.now) }
{
    match words {
        [first, ..] => !first.is_empty() && words.len() <= MOST_WORDS,
        [] => false,
    }
}

/// The words of the command, or None where there are none.
fn command_member(alloc: Global, root: &Value) -> Result<Option<Vec<String>>, NoMemory>
    ensures { IfOk result (λ r. option_map (λ v. map (λ s. string_bytes s) v.items) r
        ≡ command_at (view root.now)) }
{
    let Some(words) = texts_member(alloc, root, "command")? else {
        return Ok(None);
    };
    if is_command(&words) {
        Ok(Some(words))
    } else {
        Ok(None)
    }
}

/// The outputs, which may be left out, or None where they haven't their shape.
fn outputs_member(alloc: Global, root: &Value) -> Result<Option<Option<Vec<String>>>, NoMemory>
    ensures { IfOk result (λ r. option_map said_texts r ≡ outputs_at (view root.now)) }
{
    if root.get("outputs").is_none() {
        return Ok(Some(None));
    }
    match texts_member(alloc, root, "outputs")? {
        Some(outputs) => Ok(Some(Some(outputs))),
        None => Ok(None),
    }
}

/// What a setup with a command alone says, where the members have their shapes.
fn command_of(alloc: Global, root: &Value) -> Result<Said, JsonFault>
    requires object { is_object (view root.now) ≡ true }
    requires command { has_member (codes "command") (view root.now) ≡ true }
    requires alone { has_member (codes "table") (view root.now) ≡ false }
    ensures ok { IfOk result (λ s. SaysSetup (view root.now) (said_setup s)) }
    ensures err { IfErr result (IsMisshapen (setup_tests (view root.now))) }
{
    let Some(inputs) = texts_member(alloc, root, "inputs")? else {
        return Err(JsonFault::Shape(Field::Inputs));
    };
    let Some(outputs) = outputs_member(alloc, root)? else {
        return Err(JsonFault::Shape(Field::Outputs));
    };
    let Some(words) = command_member(alloc, root)? else {
        return Err(JsonFault::Shape(Field::Command));
    };
    Ok(Said::Command {
        words,
        inputs,
        outputs,
    })
}

/// What a setup without a command says, where the members have their shapes.
fn table_of(alloc: Global, root: &Value) -> Result<Said, JsonFault>
    requires object { is_object (view root.now) ≡ true }
    requires alone { has_member (codes "command") (view root.now) ≡ false }
    ensures ok { IfOk result (λ s. SaysSetup (view root.now) (said_setup s)) }
    ensures err { IfErr result (IsMisshapen (setup_tests (view root.now))) }
{
    match text_member(alloc, root, "table")? {
        Some(name) => Ok(Said::Table(name)),
        None => Err(JsonFault::Shape(Field::Neither)),
    }
}

/// What the members say, where they have their shapes.
fn members_of(alloc: Global, root: &Value) -> Result<Said, JsonFault>
    ensures ok { IfOk result (λ s. SaysSetup (view root.now) (said_setup s)) }
    ensures err { IfErr result (IsMisshapen (setup_tests (view root.now))) }
{
    if !root.is_object() {
        return Err(JsonFault::Shape(Field::Root));
    }
    if root.get("command").is_none() {
        return table_of(alloc, root);
    }
    if root.get("table").is_some() {
        return Err(JsonFault::Shape(Field::Both));
    }
    command_of(alloc, root)
}

/// The names of the outputs, where they aren't left out.
fn declared(alloc: Global, outputs: Option<Vec<String>>) -> Result<Option<Names>, JsonFault>
    ensures ok { IfOk result
        (λ o. o ≡ option_map (λ v. map (λ s. string_bytes s) v.items) outputs) }
    ensures names { IfOk result AreOutputs }
    ensures err { IfErr result
        (Told Fault.Outputs
        (DeclaredFault (option_map (λ v. map (λ s. string_bytes s) v.items) outputs))) }
{
    match outputs {
        Some(list) => Ok(Some(outputs_of(alloc, &list)?)),
        None => Ok(None),
    }
}

/// The setup of a command.
fn command_setup(
    alloc: Global,
    words: Vec<String>,
    inputs: Vec<String>,
    outputs: Option<Vec<String>>,
) -> Result<Setup, JsonFault>
    ensures ok { IfOk result (SpellsSetup (said_command words inputs outputs)) }
    ensures err { IfErr result (SaysSetupFault (said_command words inputs outputs)) }
{
    let inputs_named = inputs_of(alloc, &inputs)?;
    let outputs_named = declared(alloc, outputs)?;
    Ok(Setup::Command(Command {
        words: Texts::new(words),
        inputs: inputs_named,
        outputs: outputs_named,
    }))
}

/// The setup that is said.
fn setup_of(alloc: Global, said: Said) -> Result<Setup, JsonFault>
    ensures ok { IfOk result (SpellsSetup (said_setup said)) }
    ensures err { IfErr result (SaysSetupFault (said_setup said)) }
{
    match said {
        Said::Table(name) => Ok(Setup::Table(Text::new(name))),
        Said::Command {
            words,
            inputs,
            outputs,
        } => command_setup(alloc, words, inputs, outputs),
    }
}

/// Reads a setup file as `read_setup` does, and tells the first of its members that a setup doesn't know, in the order of their
/// names, as a line `unknown member "outpts" in setup`. A byte of the name that isn't printable ASCII, or is a quote or a
/// backslash, is printed as `\xHH`, by two hexadecimal digits.
pub fn read_setup_with_hint(alloc: Global, bytes: &[u8]) -> Result<SetupFile, JsonFault>
    ensures ok { IfOk result (λ file. IsSetupFile bytes.now file.setup) }
    ensures only { IfOk result (λ file. (t : OneSetup) → IsSetupFile bytes.now t →
        t ≡ file.setup) }
    ensures hint { (d : Data) → IsJson bytes.now d → IfOk result (λ file.
        file.hint.items ≡ hint_of d) }
    ensures err { IfErr result (HasSetupFault bytes.now) }
{
    let root = value_of(alloc, bytes)?;
    let said = members_of(alloc, &root)?;
    let setup = setup_of(alloc, said)?;
    let hint = hint_of(alloc, &root)?;
    Ok(SetupFile { setup, hint })
}

/// Reads a setup file: an object with one of `table`, the name of a machine file, and `command`, the words of a
/// program, beside which stand `inputs` and, where they are declared, `outputs`.
pub fn read_setup(alloc: Global, bytes: &[u8]) -> Result<Setup, JsonFault>
    ensures ok { IfOk result (IsSetupFile bytes.now) }
    ensures only { IfOk result (λ s. (t : OneSetup) → IsSetupFile bytes.now t → t ≡ s) }
    ensures err { IfErr result (HasSetupFault bytes.now) }
{
    match read_setup_with_hint(alloc, bytes) {
        Ok(file) => Ok(file.setup),
        Err(fault) => Err(fault),
    }
}

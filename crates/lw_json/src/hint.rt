//! The members of a setup by their names, and the hint at one that a setup doesn't know.
ghost use Rattle.std.specs.Prelude.{◌≡◌, ◌++◌, option_map, IfOk, OnOk};
ghost use Rattle.serde_json.specs.View.{members_view, view};
ghost use Rattle.lw_json.specs.Hint.{first_unknown, hint_of, hint_text, is_known, is_unescaped, printed, unknown_in};

use crate::Setup;
use lw_words::NoMemory;
use serde_json::{Map, Value};
use std::alloc::Global;

/// A setup, and what is reported of its file: the hint at a member that a setup doesn't know, or nothing.
#[derive(Drop)]
pub struct SetupFile {
    pub setup: Setup,
    pub hint: Vec<u8>,
}

/// Whether a setup knows a member of this name.
fn is_known(name: &str) -> bool
    ensures { result ≡ is_known name.now }
{
    name == "table" || name == "command" || name == "inputs" || name == "outputs"
}

/// The first member that a setup doesn't know, in the order of the names.
fn first_unknown<'a>(members: &'a Map<String, Value>) -> Option<&'a str>
    ensures { option_map (λ n. n.now) result ≡ first_unknown (members_view members.now.entries) }
{
    for (name, _) in members.iter() {
        if !is_known(name.as_str()) {
            return Some(name.as_str());
        }
    }
    None
}

/// The first member of an object that a setup doesn't know.
fn unknown_in<'a>(root: &'a Value) -> Option<&'a str>
    ensures { option_map (λ n. n.now) result ≡ unknown_in (view root.now) }
{
    first_unknown(root.as_object()?)
}

/// Whether a byte stands for itself in a hint: printable ASCII, and neither the quote nor the backslash.
fn is_plain(byte: u8) -> bool
    ensures { result ≡ is_unescaped byte }
{
    matches!(byte, 32..=126) && byte != b'"' && byte != b'\\'
}

/// Appends a byte as it is printed.
fn put_printed(alloc: Global, line: &mut Vec<u8>, byte: u8) -> Result<(), NoMemory>
    ensures { OnOk result (line.new.items ≡ line.old.items ++ printed byte) }
{
    if is_plain(byte) {
        line.push(byte)?;
        return Ok(());
    }
    let digits = hex::encode(alloc, &[byte])?;
    line.extend_from_slice(b"\\x")?;
    line.extend_from_slice(digits.as_bytes())?;
    Ok(())
}

/// The hint at a member of this name, with its line feed.
fn hint_text(alloc: Global, name: &[u8]) -> Result<Vec<u8>, NoMemory>
    ensures { IfOk result (λ line. line.items ≡ hint_text name.now) }
{
    let mut line = Vec::new(alloc);
    line.extend_from_slice(b"unknown member \"")?;
    for byte in name {
        put_printed(alloc, &mut line, *byte)?;
    }
    line.extend_from_slice(b"\" in setup\n")?;
    Ok(line)
}

/// The hint at the first member of a setup file that a setup doesn't know, in the order of the names; it is empty where a setup
/// knows each.
pub(crate) fn hint_of(alloc: Global, root: &Value) -> Result<Vec<u8>, NoMemory>
    ensures { IfOk result (λ hint. hint.items ≡ hint_of (view root.now)) }
{
    match unknown_in(root) {
        Some(name) => hint_text(alloc, name.as_bytes()),
        None => Ok(Vec::new(alloc)),
    }
}

//! The names of outputs, as texts have them.
ghost use Rattle.std.specs.Prelude.{◌≡◌, ◌<◌, length, map, string_bytes, IfOk};

use lw_names::{OutName, OutNames};
use lw_words::{Names, NoMemory};
use std::alloc::Global;
use std::str;

/// A name as a text.
fn text_of(alloc: Global, name: &OutName) -> Result<String, NoMemory>
    ensures { IfOk result (λ text. string_bytes text ≡ name.now) }
{
    match str::from_utf8(name.as_slice()) {
        Ok(text) => Ok(String::from_str(alloc, text)?),
        Err(_) => unreachable!(),
    }
}

/// The names as texts, in their order.
fn texts_of(alloc: Global, names: &OutNames) -> Result<Vec<String>, NoMemory>
    ensures { IfOk result (λ texts. map (λ s. string_bytes s) texts.items ≡ names.now.names) }
{
    let mut texts = Vec::new(alloc);
    for n in 0..names.len() {
        texts.push(text_of(alloc, &names.name(n))?)?;
    }
    Ok(texts)
}

/// The names, of which there is one at least.
pub(crate) fn names_of(alloc: Global, names: &OutNames) -> Result<Names, NoMemory>
    ensures { IfOk result (λ list. list ≡ names.now.names) }
{
    match Names::from_list(alloc, &texts_of(alloc, names)?) {
        Ok(names) => Ok(names),
        Err(_) => Err(NoMemory),
    }
}

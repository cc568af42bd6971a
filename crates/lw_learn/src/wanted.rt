//! What was wanted of a child at the place of a bad line, for a person who mends the child.

use lw_words::{Names, NoMemory};
use std::alloc::Global;

/// The greatest number of bytes of a line, with its line feed. A bad line of this length is the front of a longer one.
const LINE_ROOM: usize = 256;

/// The greatest number of bytes of a name.
const LONGEST_NAME: usize = 64;

/// How many names are told at most.
const MOST_TOLD: u16 = 20;

/// What was wanted in place of a bad line.
#[derive(Clone, Copy)]
enum Wanted<'a> {
    /// A shorter line.
    ShortLine,
    /// The answer to a reset.
    Ready,
    /// The answer to a letter.
    Output,
    /// A name behind `out`.
    Name,
    /// A shorter name.
    ShortName,
    /// A name of other bytes.
    PrintableName,
    /// One of these.
    Declared(&'a Names),
    /// One of those that came before.
    Known,
}

/// What was wanted in place of a name.
fn name_wanted<'a>(name: &[u8], outputs: Option<&'a Names>) -> Wanted<'a> {
    if name.is_empty() {
        return Wanted::Name;
    }
    if name.len() > LONGEST_NAME {
        return Wanted::ShortName;
    }
    if !name.iter().all(|b| (0x21..=0x7e).contains(b)) {
        return Wanted::PrintableName;
    }
    match outputs {
        Some(names) => Wanted::Declared(names),
        None => Wanted::Known,
    }
}

/// What was wanted in place of a bad line behind these letters of a run, by the names of outputs where they are declared. None
/// where the letters aren't known and it depends on them.
fn line_wanted<'a>(
    asked: Option<&[u16]>,
    line: &[u8],
    outputs: Option<&'a Names>,
) -> Option<Wanted<'a>> {
    if line.len() == LINE_ROOM {
        return Some(Wanted::ShortLine);
    }
    if asked?.is_empty() {
        return Some(Wanted::Ready);
    }
    match line.strip_prefix(b"out ") {
        Some(name) => Some(name_wanted(name, outputs)),
        None => Some(Wanted::Output),
    }
}

/// The first names of a list, and whether there are more.
fn names_text(alloc: Global, names: &Names) -> Result<String, NoMemory> {
    let mut text = String::from_str(alloc, "a declared output:")?;
    for n in 0..names.len().min(MOST_TOLD) {
        text.push_str(" ")?;
        text.push_str(names.name(n))?;
    }
    if names.len() > MOST_TOLD {
        text.push_str(" ..")?;
    }
    Ok(text)
}

/// What was wanted, as a text.
fn wanted_text(alloc: Global, wanted: Wanted<'_>) -> Result<String, NoMemory> {
    let text = match wanted {
        Wanted::ShortLine => "a line of at most 256 bytes",
        Wanted::Ready => "ready",
        Wanted::Output => "out and the name of an output",
        Wanted::Name => "a name behind out",
        Wanted::ShortName => "a name of at most 64 bytes",
        Wanted::PrintableName => "a name of printable letters without blanks",
        Wanted::Known => "one of the 256 outputs that came before",
        Wanted::Declared(names) => return names_text(alloc, names),
    };
    Ok(String::from_str(alloc, text)?)
}

/// The line about what was wanted in place of a bad line, where that can be told.
pub(crate) fn wanted_line(
    alloc: Global,
    asked: Option<&[u16]>,
    line: &[u8],
    outputs: Option<&Names>,
) -> Result<Option<String>, NoMemory> {
    let Some(wanted) = line_wanted(asked, line, outputs) else {
        return Ok(None);
    };
    let text = wanted_text(alloc, wanted)?;
    Ok(Some(format!(in alloc; "wanted: {text}\n")?))
}

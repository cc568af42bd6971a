//! Classes of states by their outputs on single words.
ghost use Rattle.std.specs.Prelude.{map, IfOk};
ghost use Rattle.std.specs.List.{All};
ghost use Rattle.lw_words.specs.Word.{IsWord};
ghost use Rattle.lw_separate.specs.WordClasses.{AreClassesOn, AreWordClasses};
ghost use Rattle.lw_separate.specs.bodies.Columns.{AreColumns};

use crate::classes::{one_class, refine};
use crate::columns::columns;
use lw_mealy::Mealy;
use lw_words::{NoMemory, Word, Words};
use std::alloc::Global;

/// The classes of states by their outputs on one word.
fn classes_on(
    alloc: Global,
    m: &Mealy,
    columns: &[Vec<(u16, u16)>],
    w: &Word,
) -> Result<Vec<u16>, NoMemory>
    requires columns { AreColumns m.now.inputs m.now.rows (map (λ c. c.items) columns.now) }
    requires letters { IsWord m.now.inputs w.now }
    ensures { IfOk result (λ classes. AreClassesOn m.now.rows w.now classes.items) }
{
    let mut classes = one_class(alloc, m)?;
    refine(alloc, m, columns, &mut classes, m.initial(), w)?;
    Ok(classes)
}

/// For each of the words the classes of states by their outputs on it: two states have one number exactly where these
/// are equal. For each letter of each word a pass over the states.
pub fn word_classes(alloc: Global, m: &Mealy, words: &Words) -> Result<Vec<Vec<u16>>, NoMemory>
    requires letters { All (IsWord m.now.inputs) words.now }
    ensures { IfOk result (λ classes.
        AreWordClasses m.now.rows words.now (map (λ c. c.items) classes.items)) }
{
    let columns = columns(alloc, m)?;
    let mut classes = Vec::with_capacity(alloc, words.len())?;
    for word in words.as_slice() {
        classes.push(classes_on(alloc, m, columns.as_slice(), word)?)?;
    }
    Ok(classes)
}

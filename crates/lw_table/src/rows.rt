//! The rows of a table, and the words that they are of.
ghost use Rattle.std.specs.Prelude.{◌≡◌, ℕ, ◌+◌, ◌*◌, ◌<◌, ◌≤◌, length, IfOk};
ghost use Rattle.std.specs.List.{All};
ghost use Rattle.lw_words.specs.Word.{IsWord};
ghost use Rattle.lw_table.specs.bodies.Rows.{IsRowWord};

use lw_words::{NoMemory, Word, Words};
use std::alloc::Global;

/// A row: its class, and how many of its cells are filled.
#[derive(Clone, Copy, Drop)]
pub(crate) struct Row {
    pub(crate) class: usize,
    pub(crate) cells: usize,
}

/// A row without cells.
pub(crate) const EMPTY: Row = Row { class: 0, cells: 0 };

/// The word of a row: the empty word for row 0, then the extensions of each access word in turn, by letter.
pub(crate) fn row_word(
    alloc: Global,
    inputs: u16,
    access: &Words,
    row: usize,
) -> Result<Word, NoMemory>
    requires inputs { 1 ≤ inputs }
    requires words { All (IsWord inputs) access.now }
    requires row { row < 1 + length access.now * inputs }
    ensures word { IfOk result (IsRowWord inputs access.now row) }
    ensures letters { IfOk result (IsWord inputs) }
{
    if row == 0 {
        return Ok(Word::new(alloc));
    }
    let letters = usize::from(inputs);
    let mut word = access.get((row - 1) / letters).copy()?;
    word.push(((row - 1) % letters) as u16)?;
    Ok(word)
}

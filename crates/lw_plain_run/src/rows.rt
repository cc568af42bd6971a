//! The words of rows and of cells.
ghost use Rattle.std.specs.Prelude.{◌≡◌, ℕ, ◌<◌, List, [], ◌∷◌, ◌++◌, map, length, bytes_eq, IfOk, OnOk};
ghost use Rattle.std.specs.List.{All};
ghost use Rattle.lw_words.specs.Word.{IsWord};
ghost use Rattle.lw_mealy.specs.Machine.{out};
ghost use Rattle.lw_plain.specs.Table.{extensions, row_words, cell_words, row_cells, has_same_cell, has_same_row};

use lw_mealy::Mealy;
use lw_words::{NoMemory, Word, Words, join};
use std::alloc::Global;

#[tactic(auto, using(crate::proofs::ListLemmas::list_steps))]
/// Adds a word followed by each letter.
fn add_extensions(words: &mut Words, inputs: u16, word: &Word) -> Result<(), NoMemory>
    ensures { OnOk result (words.new ≡ words.old ++ extensions inputs word.now) }
{
    for letter in 0..inputs {
        let mut longer = word.copy()?;
        longer.push(letter)?;
        words.push(longer)?;
    }
    Ok(())
}

/// A word followed by each letter.
pub fn extensions(alloc: Global, inputs: u16, word: &Word) -> Result<Words, NoMemory>
    ensures { IfOk result (λ words. words ≡ extensions inputs word.now) }
{
    let mut words = Words::new(alloc);
    add_extensions(&mut words, inputs, word)?;
    Ok(words)
}

#[tactic(auto, using(crate::proofs::ListLemmas::list_steps))]
/// The words of all rows.
pub fn row_words(alloc: Global, inputs: u16, access: &Words) -> Result<Words, NoMemory>
    ensures { IfOk result (λ words. words ≡ row_words inputs access.now) }
{
    let mut words = Words::new(alloc);
    words.push(Word::new(alloc))?;
    for word in access.as_slice() {
        add_extensions(&mut words, inputs, word)?;
    }
    Ok(words)
}

#[tactic(auto, using(crate::proofs::ListLemmas::list_steps))]
/// Adds the words of the cells of a row.
fn add_cells(words: &mut Words, row: &Word, suffixes: &[Word]) -> Result<(), NoMemory>
    ensures { OnOk result (words.new ≡ words.old ++ row_cells suffixes.now row.now) }
{
    for suffix in suffixes {
        words.push(join(row, suffix)?)?;
    }
    Ok(())
}

#[tactic(auto, using(crate::proofs::ListLemmas::list_steps))]
/// The words of the cells of some rows and suffixes.
pub fn cell_words(alloc: Global, rows: &Words, suffixes: &[Word]) -> Result<Words, NoMemory>
    ensures { IfOk result (λ words. words ≡ cell_words rows.now suffixes.now) }
{
    let mut words = Words::new(alloc);
    for row in rows.as_slice() {
        add_cells(&mut words, row, suffixes)?;
    }
    Ok(words)
}

/// Whether states of two machines have the same outputs on some letters.
pub fn have_same_outputs(m: &Mealy, one: u16, n: &Mealy, other: u16, letters: &[u16]) -> bool
    requires one { one < length m.now.rows }
    requires other { other < length n.now.rows }
    requires letters { IsWord m.now.inputs letters.now }
    requires same_letters { n.now.inputs ≡ m.now.inputs }
    ensures { result ≡
        bytes_eq (out m.now.rows one letters.now) (out n.now.rows other letters.now) }
{
    let mut one = one;
    let mut other = other;
    for x in letters {
        let (one_target, one_output) = m.step(one, *x);
        let (other_target, other_output) = n.step(other, *x);
        if one_output != other_output {
            return false;
        }
        one = one_target;
        other = other_target;
    }
    true
}

/// Whether the rows of two words have the same cells.
pub fn have_same_row(m: &Mealy, suffixes: &Words, one: &Word, other: &Word) -> bool
    requires one { IsWord m.now.inputs one.now }
    requires other { IsWord m.now.inputs other.now }
    requires suffixes { All (IsWord m.now.inputs) suffixes.now }
    ensures { result ≡ has_same_row m.now.rows suffixes.now one.now other.now }
{
    let first = m.after(m.initial(), one);
    let second = m.after(m.initial(), other);
    for suffix in suffixes.as_slice() {
        if !have_same_outputs(m, first, m, second, suffix.as_slice()) {
            return false;
        }
    }
    true
}

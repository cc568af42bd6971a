//! Cells that aren't filled: their words, and what is known of them.
ghost use Rattle.std.specs.Prelude.{◌≡◌, ◌≢◌, ℕ, ◌+◌, ◌*◌, ◌<◌, ◌≤◌, ◌^◌, List, ◌++◌, length, map, drop, IfOk, OnOk, Contains};
ghost use Rattle.std.specs.List.{All, AllPairs};
ghost use Rattle.lw_words.specs.Word.{AreAnswers, answers_of, IsWord};
ghost use Rattle.lw_cache.specs.Known.{IsKnown};
ghost use Rattle.lw_plain.specs.Table.{row_cells};
ghost use Rattle.lw_table.specs.Grown.{IsCellWord, IsWordOfRow};
ghost use Rattle.lw_table.specs.bodies.Classes.{row_of};
ghost use Rattle.lw_table.specs.bodies.Rows.{IsRowWord, class_at, cells_at};
ghost use Rattle.lw_table.specs.bodies.Filling.{EachCell, EachRow, IsCellOf, GoesOn, GoOn};
ghost use Rattle.lw_table.specs.bodies.Plain.{open_from};

use crate::classes::Classes;
use crate::rows::{Row, row_word};
use lw_cache::Cache;
use lw_words::{NoMemory, Word, Words, join};
use std::alloc::Global;

/// Adds the word of each cell of a row from one on.
pub(crate) fn add_cells(
    words: &mut Words,
    word: &Word,
    suffixes: &Words,
    from: usize,
) -> Result<(), NoMemory>
    requires from { from ≤ length suffixes.now }
    ensures more { (more : List (List ℕ)) × (words.new ≡ words.old ++ more) }
    ensures row { OnOk result
        (words.new ≡ words.old ++ row_cells (drop from suffixes.now) word.now) }
    ensures each { OnOk result (EachCell (Contains words.new) suffixes.now word.now from
        (length suffixes.now)) }
    ensures letters { (a : ℕ) → IsWord a word.now → All (IsWord a) suffixes.now →
        All (IsWord a) words.old → All (IsWord a) words.new }
    ensures cells { (a : ℕ) (access : List (List ℕ)) → IsWordOfRow a access word.now →
        All (IsCellWord a access suffixes.now) words.old →
        All (IsCellWord a access suffixes.now) words.new }
{
    for cell in from..suffixes.len() {
        words.push(join(word, suffixes.get(cell))?)?;
    }
    Ok(())
}

/// What is known of a cell: the outputs of its word on the suffix.
fn read_cell(alloc: Global, cache: &Cache, word: &Word, suffix: &Word) -> Result<Vec<u16>, NoMemory>
    requires answers { (a : ℕ) × AreAnswers a (answers_of cache.now.kept) }
    requires known { IsKnown (answers_of cache.now.kept) (word.now ++ suffix.now) }
    ensures { IfOk result (λ cell.
        IsCellOf (answers_of cache.now.kept) word.now suffix.now cell.items) }
{
    let asked = join(word, suffix)?;
    let found = cache.read(&asked)?;
    let Some(outs) = found else { unreachable!() };
    Ok(outs.as_slice()[word.len()..].to_vec(alloc)?)
}

/// Fills the cells of a row that it doesn't have.
fn fill_row(
    classes: &mut Classes,
    cache: &Cache,
    word: &Word,
    suffixes: &Words,
    row: Row,
) -> Result<Row, NoMemory>
    requires answers { (a : ℕ) × AreAnswers a (answers_of cache.now.kept) }
    requires class { row.class < length classes.old }
    requires cells { row.cells ≡ length (row_of classes.old row.class) }
    requires few { row.cells ≤ length suffixes.now }
    requires known { EachCell (IsKnown (answers_of cache.now.kept)) suffixes.now word.now row.cells
        (length suffixes.now) }
    requires differ { AllPairs (λ r s. r ≢ s) classes.old }
    ensures more { (more : List (List (List ℕ))) × (classes.new ≡ classes.old ++ more) }
    ensures differ { AllPairs (λ r s. r ≢ s) classes.new }
    ensures class { IfOk result (λ filled. filled.class < length classes.new) }
    ensures cells { IfOk result (λ filled.
        filled.cells ≡ length (row_of classes.new filled.class)) }
    ensures whole { IfOk result (λ filled. filled.cells ≡ length suffixes.now) }
    ensures goes_on { IfOk result (λ filled.
        GoesOn (answers_of cache.now.kept) suffixes.now word.now
        (row_of classes.old row.class) (row_of classes.new filled.class)) }
{
    let mut class = row.class;
    for cell in row.cells..suffixes.len() {
        let outputs = read_cell(classes.alloc, cache, word, suffixes.get(cell))?;
        class = classes.enter(class, outputs)?;
    }
    Ok(Row {
        class,
        cells: suffixes.len(),
    })
}

/// The words of the cells that aren't filled, of the rows from one on, row by row.
pub(crate) fn unfilled(
    alloc: Global,
    inputs: u16,
    access: &Words,
    suffixes: &Words,
    rows: &[Row],
    first: usize,
) -> Result<Words, NoMemory>
    requires inputs { 1 ≤ inputs }
    requires access { All (IsWord inputs) access.now }
    requires suffixes { All (IsWord inputs) suffixes.now }
    requires rows { length rows.now ≡ 1 + length access.now * inputs }
    requires few { All (λ r. r.cells ≤ length suffixes.now) rows.now }
    requires first { first ≤ length rows.now }
    ensures each { IfOk result (λ words. EachRow (Contains words) inputs access.now suffixes.now
        rows.now first (length rows.now)) }
    ensures letters { IfOk result (All (IsWord inputs)) }
    ensures cells { IfOk result (All (IsCellWord inputs access.now suffixes.now)) }
    ensures small { IfOk result (λ words. length words < 2 ^ 32) }
    ensures left_open { IfOk result (λ words. words ≡ open_from inputs access.now suffixes.now
        (map (λ r. r.cells) rows.now) first) }
{
    let mut words = Words::new(alloc);
    for row in first..rows.len() {
        let word = row_word(alloc, inputs, access, row)?;
        add_cells(&mut words, &word, suffixes, rows[row].cells)?;
    }
    if words.len() > u32::MAX as usize {
        return Err(NoMemory);
    }
    Ok(words)
}

/// The rows from one on with their cells filled.
pub(crate) fn fill_rows(
    inputs: u16,
    access: &Words,
    suffixes: &Words,
    classes: &mut Classes,
    rows: &[Row],
    first: usize,
    cache: &Cache,
) -> Result<Vec<Row>, NoMemory>
    requires answers { (a : ℕ) × AreAnswers a (answers_of cache.now.kept) }
    requires inputs { 1 ≤ inputs }
    requires access { All (IsWord inputs) access.now }
    requires rows { length rows.now ≡ 1 + length access.now * inputs }
    requires within { All (λ r. r.class < length classes.old) rows.now }
    requires counts { All (λ r. r.cells ≡ length (row_of classes.old r.class)) rows.now }
    requires few { All (λ r. r.cells ≤ length suffixes.now) rows.now }
    requires first { first ≤ length rows.now }
    requires differ { AllPairs (λ r s. r ≢ s) classes.old }
    requires known { EachRow (IsKnown (answers_of cache.now.kept)) inputs access.now suffixes.now
        rows.now first (length rows.now) }
    ensures more { (more : List (List (List ℕ))) × (classes.new ≡ classes.old ++ more) }
    ensures differ { AllPairs (λ r s. r ≢ s) classes.new }
    ensures all { IfOk result (λ filled. first + length filled.items ≡ length rows.now) }
    ensures go_on { IfOk result (λ filled. GoOn (answers_of cache.now.kept) inputs access.now
        suffixes.now classes.old rows.now first classes.new filled.items) }
{
    let mut filled = Vec::with_capacity(classes.alloc, rows.len() - first)?;
    for row in first..rows.len() {
        let word = row_word(classes.alloc, inputs, access, row)?;
        filled.push(fill_row(classes, cache, &word, suffixes, rows[row])?)?;
    }
    Ok(filled)
}

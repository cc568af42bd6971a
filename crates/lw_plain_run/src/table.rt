//! The table, and how it is closed.
ghost use Rattle.std.specs.Prelude.{◌≡◌, ℕ, ◌-◌, ◌<◌, ◌≤◌, List, [], ◌∷◌, ◌++◌, length, IfOk, OnOk};
ghost use Rattle.std.specs.List.{All};
ghost use Rattle.lw_words.specs.Word.{IsWord};
ghost use Rattle.lw_plain.specs.Table.{first_table, with_access_word, with_suffix, unless_empty, is_new, first_new, close};
ghost use Rattle.lw_plain.specs.Over.{IsOver};

use crate::batches::Batches;
use crate::rows::{cell_words, extensions, have_same_row, row_words};
use lw_mealy::Mealy;
use lw_words::{NoMemory, Word, Words};
use std::alloc::Global;
use std::marker::Model;

/// Access words and suffixes, and the batches that were asked. Contracts see a table of the definition.
#[derive(Drop)]
pub struct Table {
    access: Words,
    suffixes: Words,
    batches: Batches,
}

impl Model for Table {
    ghost use Rattle.lw_plain.specs.Table.{PlainTable};

    ghost Value = { PlainTable };

    ghost view = { λ t. record { access = t.access; suffixes = t.suffixes; batches = t.batches } };
}

/// The same words once more.
pub fn copy_words(alloc: Global, words: &[Word]) -> Result<Words, NoMemory>
    ensures { IfOk result (λ copies. copies ≡ words.now) }
{
    let mut copies = Words::new(alloc);
    for word in words {
        copies.push(word.copy()?)?;
    }
    Ok(copies)
}

/// The list of one word.
pub fn one_word(alloc: Global, word: Word) -> Result<Words, NoMemory>
    ensures { IfOk result (λ words. words ≡ word ∷ []) }
{
    let mut words = Words::new(alloc);
    words.push(word)?;
    Ok(words)
}

/// The batch of the words that are given, if there are any.
fn given_batches(alloc: Global, given: &[Word]) -> Result<Batches, NoMemory>
    ensures { IfOk result (λ batches. batches ≡ unless_empty given.now) }
{
    let mut batches = Batches::new(Vec::new(alloc));
    if !given.is_empty() {
        batches.push(copy_words(alloc, given)?)?;
    }
    Ok(batches)
}

impl Table {
    /// The table of the empty word.
    pub fn first(alloc: Global, inputs: u16, given: &[Word]) -> Result<Table, NoMemory>
        ensures { IfOk result (λ t. t ≡ first_table inputs given.now) }
    {
        let access = one_word(alloc, Word::new(alloc))?;
        let suffixes = extensions(alloc, inputs, &Word::new(alloc))?;
        let rows = row_words(alloc, inputs, &access)?;
        let mut batches = given_batches(alloc, given)?;
        batches.push(cell_words(alloc, &rows, suffixes.as_slice())?)?;
        Ok(Table {
            access,
            suffixes,
            batches,
        })
    }

    pub fn access(&self) -> &Words
        ensures { result.now ≡ self.now.access }
    {
        &self.access
    }

    pub fn suffixes(&self) -> &Words
        ensures { result.now ≡ self.now.suffixes }
    {
        &self.suffixes
    }

    pub fn batches(&self) -> &Batches
        ensures { result.now ≡ self.now.batches }
    {
        &self.batches
    }

    /// Its access words and its batches, taken out of it.
    pub fn into_parts(self) -> (Words, Batches)
        ensures access { result.0 ≡ self.access }
        ensures batches { result.1 ≡ self.batches }
    {
        let Table {
            access,
            suffixes: _,
            batches,
        } = self;
        (access, batches)
    }

    /// Puts a batch last.
    pub fn add_batch(&mut self, batch: Words) -> Result<(), NoMemory>
        ensures access { OnOk result (self.new.access ≡ self.old.access) }
        ensures suffixes { OnOk result (self.new.suffixes ≡ self.old.suffixes) }
        ensures batches { OnOk result (self.new.batches ≡ self.old.batches ++ batch ∷ []) }
    {
        self.batches.push(batch)?;
        Ok(())
    }

    /// An access word more.
    fn add_access(&mut self, alloc: Global, inputs: u16, word: Word) -> Result<(), NoMemory>
        ensures { OnOk result (self.new ≡ with_access_word inputs self.old word) }
    {
        let rows = extensions(alloc, inputs, &word)?;
        self.batches
            .push(cell_words(alloc, &rows, self.suffixes.as_slice())?)?;
        self.access.push(word)?;
        Ok(())
    }

    /// A suffix more.
    pub fn add_suffix(&mut self, alloc: Global, inputs: u16, suffix: Word) -> Result<(), NoMemory>
        ensures { OnOk result (self.new ≡ with_suffix inputs self.old suffix) }
    {
        let rows = row_words(alloc, inputs, &self.access)?;
        let one = one_word(alloc, suffix.copy()?)?;
        self.batches
            .push(cell_words(alloc, &rows, one.as_slice())?)?;
        self.suffixes.push(suffix)?;
        Ok(())
    }

    /// Whether no access word has the row of a word.
    fn is_new(&self, m: &Mealy, word: &Word) -> bool
        requires over { IsOver m.now.inputs self.now }
        requires letters { IsWord m.now.inputs word.now }
        ensures { result ≡ is_new m.now.rows self.now word.now }
    {
        for access in self.access.as_slice() {
            if have_same_row(m, &self.suffixes, word, access) {
                return false;
            }
        }
        true
    }

    /// The first row that is new.
    pub fn first_new(&self, alloc: Global, m: &Mealy) -> Result<Option<Word>, NoMemory>
        requires over { IsOver m.now.inputs self.now }
        ensures { IfOk result (λ found. found ≡ first_new m.now.inputs m.now.rows self.now) }
    {
        let words = row_words(alloc, m.inputs(), &self.access)?;
        for word in words.as_slice() {
            if self.is_new(m, word) {
                return Ok(Some(word.copy()?));
            }
        }
        Ok(None)
    }

    /// Closes the table as far as there may be states, and tells the first row that is new then.
    pub fn close(&mut self, alloc: Global, m: &Mealy, most: u16) -> Result<Option<Word>, NoMemory>
        requires over { IsOver m.now.inputs self.old }
        requires few { length self.old.access ≤ most }
        ensures closed { OnOk result (self.new ≡
            close m.now.inputs m.now.rows (most - length self.old.access) self.old) }
        ensures over { OnOk result (IsOver m.now.inputs self.new) }
        ensures few { OnOk result (length self.new.access ≤ most) }
        ensures new { IfOk result (λ found. found ≡
            first_new m.now.inputs m.now.rows self.new) }
    {
        for count in self.access.len()..usize::from(most) {
            let found = self.first_new(alloc, m)?;
            let Some(word) = found else {
                return Ok(None);
            };
            self.add_access(alloc, m.inputs(), word)?;
        }
        self.first_new(alloc, m)
    }
}

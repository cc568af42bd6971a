//! The calls that ask: closing a table, and refining it.
ghost use Rattle.std.specs.Prelude.{◌≡◌, ◌≢◌, ℕ, ◌+◌, ◌<◌, ◌≤◌, List, ◌∷◌, [], ◌++◌, length, IfOk, IfSome, IfNone, OnOk};
ghost use Rattle.lw_words.specs.Word.{answers_of};
ghost use Rattle.lw_cache.specs.Cut.{IsCut};
ghost use Rattle.lw_cache.specs.Settling.{Keeps, MayAsk, GainsOnly, Leaves, grown_stop};
ghost use Rattle.lw_mealy.specs.Machine.{Rows};
ghost use Rattle.lw_table.specs.Grown.{HasGrown, TellsCrowd, IsCellWordOf, HasClosed, HasRefined};
ghost use Rattle.lw_table.specs.Plain.{ClosesPlainly, RefinesPlainly};
ghost use Rattle.lw_table.specs.Table.{row_at, access_row, IsTable, CellsAreRead, IsClosedTable, IsMachineOf};
ghost use Rattle.lw_table.specs.bodies.Growing.{AreFull, HasState, HaveStates, refined_once};
ghost use Rattle.lw_table.specs.bodies.Plain.{AddsPlainly};
ghost use Rattle.lw_table.specs.bodies.Rows.{IsRowWord};

use crate::ObservationTable;
use crate::rows::row_word;
use lw_cache::{Cut, GrowStop, Oracle};
use lw_words::{NoMemory, Words};

impl ObservationTable {
    /// The first row from one on that no access word has.
    fn first_open(&self, from: usize) -> Option<usize>
        requires from { from ≤ length self.now.cells }
        ensures some { IfSome result (λ row. (from ≤ row) × (row < length self.now.cells) ×
            HaveStates self.now from row) }
        ensures new { IfSome result (λ row. (q : ℕ) → q < length self.now.access →
            row_at self.now row ≢ access_row self.now q) }
        ensures none { IfNone result (HaveStates self.now from (length self.now.cells)) }
    {
        for row in from..self.rows.len() {
            let Some(_) = self.state_of_row(row) else {
                return Some(row);
            };
        }
        None
    }

    /// The access words, and the word of a row.
    fn with_row_word(&self, row: usize) -> Result<Words, NoMemory>
        requires row { row < length self.now.cells }
        ensures { IfOk result (λ words. (w : List ℕ) ×
            IsRowWord self.now.inputs self.now.access row w × (words ≡ self.now.access ++ w ∷ [])) }
    {
        let mut words = Words::new(self.alloc);
        for word in self.access.as_slice() {
            words.push(word.copy()?)?;
        }
        words.push(row_word(self.alloc, self.inputs, &self.access, row)?)?;
        Ok(words)
    }

    #[tactic(auto, using(lw_cache::proofs::SettlingLemmas::leaves_nothing))]
    /// Makes the word of a row an access word, and fills the cells of its extensions.
    fn add_state<O: Oracle>(&mut self, oracle: &mut O, row: usize) -> Result<(), GrowStop>
        requires can { O.can_settle oracle.old }
        requires may { MayAsk (O.state oracle.old).stop }
        requires keeps { Keeps (O.state oracle.old) }
        requires inputs { self.old.inputs ≡ (O.state oracle.old).inputs }
        requires outputs { self.old.outputs ≡ (O.state oracle.old).outputs }
        requires read { CellsAreRead (answers_of (O.state oracle.old).kept) self.old }
        requires row { row < length self.old.cells }
        requires full { AreFull self.old }
        requires new { (q : ℕ) → q < length self.old.access →
            row_at self.old row ≢ access_row self.old q }
        ensures grown { HasGrown (answers_of (O.state oracle.new).kept) self.old self.new }
        ensures full { OnOk result (AreFull self.new) }
        ensures one { OnOk result (length self.new.access ≡ length self.old.access + 1) }
        ensures state { OnOk result (HasState self.new row) }
        ensures suffixes { self.new.suffixes ≡ self.old.suffixes }
        ensures refinements { self.new.refinements ≡ self.old.refinements }
        ensures crowd { TellsCrowd (answers_of (O.state oracle.new).kept) self.new result }
        ensures asks { GainsOnly (IsCellWordOf self.new) (O.state oracle.old).kept
            (O.state oracle.new).kept }
        ensures plainly { OnOk result (AddsPlainly row self.old self.new (O.state oracle.old)
            (O.state oracle.new)) }
        ensures leaves { Leaves (O.state oracle.old) (O.state oracle.new) (grown_stop result) }
        ensures can { O.can_settle oracle.new }
    {
        if self.access.len() == usize::from(self.most) {
            return Err(GrowStop::Crowd(self.with_row_word(row)?));
        }
        let first = self.rows.len();
        self.add_access(row)?;
        Ok(self.fill_new(oracle, first)?)
    }

    /// Asks until each cell is filled and each extension has the row of an access word (Angluin 1987). Each answer that it gains
    /// is to the word of a cell.
    ///
    /// # Errors
    /// The stop of the oracle, or out of memory; or pairwise apart words, where an access word more than may be would
    /// be needed. The table stays as it was after the last access word that was added, and a later call goes on from
    /// there.
    pub fn close<O: Oracle>(&mut self, oracle: &mut O) -> Result<(), GrowStop>
        requires can { O.can_settle oracle.old }
        requires may { MayAsk (O.state oracle.old).stop }
        requires inputs { self.old.inputs ≡ (O.state oracle.old).inputs }
        requires outputs { self.old.outputs ≡ (O.state oracle.old).outputs }
        requires read { CellsAreRead (answers_of (O.state oracle.old).kept) self.old }
        ensures closes { HasClosed (answers_of (O.state oracle.new).kept) self.old self.new result }
        ensures asks { GainsOnly (IsCellWordOf self.new) (O.state oracle.old).kept
            (O.state oracle.new).kept }
        ensures plainly { OnOk result (ClosesPlainly self.old self.new (O.state oracle.old)
            (O.state oracle.new)) }
        ensures leaves { Leaves (O.state oracle.old) (O.state oracle.new) (grown_stop result) }
        ensures can { O.can_settle oracle.new }
    {
        // The cache tells that its answers are over the inputs and outputs.
        let _ = oracle.cache();
        self.fill_all(oracle)?;
        let mut from = 1;
        while let Some(row) = self.first_open(from) {
            self.add_state(oracle, row)?;
            from = row + 1;
        }
        Ok(())
    }

    /// Counts a refinement. There are more access words than before it.
    fn count_refinement(&mut self)
        requires { self.old.refinements + 1 < length self.old.access }
        ensures value { self.new ≡ refined_once self.old }
        ensures table { IsTable self.new }
    {
        self.refinements += 1;
    }

    /// Adds the suffix of a cut of the table's machine, and closes the table again; it asks what `close` asks.
    ///
    /// # Errors
    /// As `close`. Where the suffix was added, `close` goes on from there.
    pub fn refine<O: Oracle>(&mut self, oracle: &mut O, cut: &Cut) -> Result<(), GrowStop>
        requires can { O.can_settle oracle.old }
        requires may { MayAsk (O.state oracle.old).stop }
        requires inputs { self.old.inputs ≡ (O.state oracle.old).inputs }
        requires outputs { self.old.outputs ≡ (O.state oracle.old).outputs }
        requires read { CellsAreRead (answers_of (O.state oracle.old).kept) self.old }
        requires closed { IsClosedTable self.old }
        requires cut { (m : Rows) × IsMachineOf self.old m × IsCut
            (answers_of (O.state oracle.old).kept) self.old.inputs m self.old.access cut.now }
        ensures refines { HasRefined (answers_of (O.state oracle.new).kept) cut.now.suffix self.old
            self.new result }
        ensures asks { GainsOnly (IsCellWordOf self.new) (O.state oracle.old).kept
            (O.state oracle.new).kept }
        ensures plainly { OnOk result (RefinesPlainly cut.now.suffix self.old self.new
            (O.state oracle.old) (O.state oracle.new)) }
        ensures leaves { Leaves (O.state oracle.old) (O.state oracle.new) (grown_stop result) }
        ensures can { O.can_settle oracle.new }
    {
        // As in `close`.
        let _ = oracle.cache();
        self.add_suffix(&cut.suffix)?;
        self.close(oracle)?;
        self.count_refinement();
        Ok(())
    }
}

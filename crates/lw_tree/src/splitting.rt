//! Splitting a leaf by a cut.
ghost use Rattle.std.specs.Prelude.{◌≡◌, ◌≢◌, ℕ, ◌+◌, ◌<◌, List, length, IfOk, IfErr, OnOk, OnErr};
ghost use Rattle.lw_words.specs.Word.{AreAnswers, answers_of};
ghost use Rattle.lw_mealy.specs.Machine.{Rows};
ghost use Rattle.lw_cache.specs.Cut.{IsCut};
ghost use Rattle.lw_cache.specs.Settling.{GainsOnly, MayAsk, Leaves, grown_stop};
ghost use Rattle.lw_tree.specs.Grown.{cut_word, HasGrown, IsSplit, HasSplit, IsSifted, TellsCrowd};
ghost use Rattle.lw_tree.specs.Tree.{leaf_at, IsTree, BranchesAreRead, IsClosed, IsMachineOf};
ghost use Rattle.lw_tree.specs.bodies.Cuts.{edge_of, CanSplit};
ghost use Rattle.lw_tree.specs.bodies.Steps.{refined_once, IsOwn};

use crate::DiscriminationTree;
use crate::reading::read_tail;
use crate::transitions::Edge;
use lw_cache::{Cache, Cut, GrowStop, Oracle};
use lw_words::{NoMemory, Word};

impl DiscriminationTree {
    /// The outputs on a cut's suffix: those of the target's access word, and those of the word that leads there by the cut.
    fn tails(&self, cache: &Cache, cut: &Cut, word: &Word) -> Result<(Word, Word), NoMemory>
        requires answers { AreAnswers self.now.inputs (answers_of cache.now.kept) }
        requires cut { (m : Rows) × IsMachineOf self.now m × IsCut (answers_of cache.now.kept)
            self.now.inputs m self.now.access cut.now }
        requires word { word.now ≡ cut_word self.now.access cut.now }
        ensures { IfOk result (λ tails. CanSplit (answers_of cache.now.kept) self.now
            (edge_of cut.now) cut.now.target cut.now.suffix tails.0 tails.1) }
    {
        let target = self.access.get(usize::from(cut.target));
        let old = read_tail(self.alloc, cache, target, &cut.suffix)?;
        let new = read_tail(self.alloc, cache, word, &cut.suffix)?;
        Ok((old, new))
    }

    /// Makes the leaf of a cut's target a temporary node, with a new state beside the target below it.
    fn split_leaf(&mut self, cache: &Cache, cut: &Cut) -> Result<(), GrowStop>
        requires answers { AreAnswers self.old.inputs (answers_of cache.now.kept) }
        requires read { BranchesAreRead (answers_of cache.now.kept) self.old }
        requires closed { IsClosed self.old }
        requires cut { (m : Rows) × IsMachineOf self.old m × IsCut (answers_of cache.now.kept)
            self.old.inputs m self.old.access cut.now }
        ensures was { IsTree self.old }
        ensures grown { HasGrown (answers_of cache.now.kept) self.old self.new }
        ensures split { OnOk result (IsSplit (cut_word self.old.access cut.now) cut.now.suffix
            (leaf_at self.old.leaves cut.now.target) self.old self.new) }
        ensures refinements { self.new.refinements ≡ self.old.refinements }
        ensures err { OnErr result (self.new ≡ self.old) }
        ensures crowd { TellsCrowd (answers_of cache.now.kept) self.new result }
        ensures own { IfErr result IsOwn }
    {
        let edge = Edge {
            state: cut.state,
            letter: cut.letter,
        };
        let word = self.extension(edge)?;
        let (old, new) = self.tails(cache, cut, &word)?;
        if self.access.len() == usize::from(self.most) {
            return Err(self.crowd(word));
        }
        let suffix = cut.suffix.copy()?;
        Ok(self.push_split(edge, word, cut.target, suffix, old, new)?)
    }

    /// Counts a split. There are more states than before it.
    fn count_refinement(&mut self)
        requires { self.old.refinements + 1 < length self.old.access }
        ensures value { self.new ≡ refined_once self.old }
        ensures tree { IsTree self.new }
    {
        self.refinements += 1;
    }

    /// Splits the leaf of a cut's target with the suffix, and closes the tree again. The transitions that stood at the leaf stand
    /// below it then.
    ///
    /// # Errors
    /// As `close`. The tree is as before, or the leaf was split, and `close` goes on from there.
    pub fn split<O: Oracle>(&mut self, oracle: &mut O, cut: &Cut) -> Result<(), GrowStop>
        requires can { O.can_settle oracle.old }
        requires may { MayAsk (O.state oracle.old).stop }
        requires inputs { self.old.inputs ≡ (O.state oracle.old).inputs }
        requires outputs { self.old.outputs ≡ (O.state oracle.old).outputs }
        requires read { BranchesAreRead (answers_of (O.state oracle.old).kept) self.old }
        requires closed { IsClosed self.old }
        requires cut { (m : Rows) × IsMachineOf self.old m × IsCut
            (answers_of (O.state oracle.old).kept) self.old.inputs m self.old.access cut.now }
        ensures splits { HasSplit (answers_of (O.state oracle.new).kept)
            (cut_word self.old.access cut.now) cut.now.suffix
            (leaf_at self.old.leaves cut.now.target) self.old self.new result }
        ensures asks { GainsOnly (IsSifted self.new) (O.state oracle.old).kept
            (O.state oracle.new).kept }
        ensures leaves { Leaves (O.state oracle.old) (O.state oracle.new) (grown_stop result) }
        ensures can { O.can_settle oracle.new }
    {
        self.split_leaf(oracle.cache(), cut)?;
        self.close(oracle)?;
        self.count_refinement();
        Ok(())
    }
}

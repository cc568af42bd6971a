//! Sifting by levels: all transitions that have no target take one step down the discrimination tree.
ghost use Rattle.std.specs.Prelude.{◌≡◌, ℕ, ◌+◌, ◌*◌, ◌^◌, ◌<◌, ◌≤◌, List, [], ◌∷◌, ◌++◌, length, Contains, IfOk, IfErr, OnOk, true, false};
ghost use Rattle.std.specs.List.{All};
ghost use Rattle.lw_words.specs.Word.{Answer, AreAnswers, answers_of, IsWord};
ghost use Rattle.lw_cache.specs.Known.{IsKnown};
ghost use Rattle.lw_cache.specs.Settling.{GainsOnly, Keeps, MayAsk, Leaves, grown_stop};
ghost use Rattle.lw_tree.specs.Grown.{HasGrown, IsLevelWord, IsSifted, KeepsTree, AllStepOnce, HasLevelled, HasClosed, TellsCrowd, HasMoved, MovesOn};
ghost use Rattle.lw_cache.specs.declared.stops.GrowStop.TheVariants.{Crowd};
ghost use Rattle.lw_tree.specs.Tree.{IsTree, BranchesAreRead, HasOpen, IsClosed, IsInner, IsLive, discriminator, is_open, node_at, place_at};
ghost use Rattle.lw_tree.specs.bodies.Arrivals.{AreOpen};
ghost use Rattle.lw_tree.specs.bodies.Steps.{IsRead, IsOwn, HasStepped};
ghost use Rattle.lw_tree.specs.bodies.Transitions.{IsTransition, IsAsked, AreAsked, word_of, place_by, content_by, is_open_by};

use crate::DiscriminationTree;
use crate::nodes::Content;
use crate::reading::{read_output, read_tail};
use crate::transitions::{Edge, Place};
use lw_cache::{Cache, GrowStop, Oracle};
use lw_words::{NoMemory, Word, Words, join};

impl DiscriminationTree {
    /// The place of a transition.
    fn place_of(&self, edge: Edge) -> Place
        requires edge { IsTransition self.now edge }
        ensures value { result ≡ place_by self.now edge }
        ensures live { IsLive (node_at self.now.nodes result.node).content }
        ensures within { result.node < length self.now.nodes }
    {
        self.places[edge.number(self.inputs)]
    }

    /// What stands at the node where a transition is.
    fn content_of(&self, edge: Edge) -> &Content
        requires edge { IsTransition self.now edge }
        ensures value { result.now ≡ content_by self.now edge }
        ensures letters { IsWord self.now.inputs (discriminator (content_by self.now edge)) }
        ensures tree { IsTree self.now }
    {
        &self.nodes.get(self.place_of(edge).node).content
    }

    /// Whether some transition has no target.
    fn has_open(&self) -> bool
        ensures open { result ≡ true → HasOpen self.now }
        ensures closed { result ≡ false → IsClosed self.now }
    {
        self.arrivals.has_open()
    }

    /// The transitions that have no target, by state and then by letter.
    fn open_numbers(&self) -> Result<Vec<u32>, NoMemory>
        ensures numbers { IfOk result (λ numbers. AreOpen self.now numbers.items) }
        ensures tree { IsTree self.now }
    {
        self.arrivals.open_numbers(self.alloc)
    }

    /// The access word of a state, followed by a letter.
    pub(crate) fn extension(&self, edge: Edge) -> Result<Word, NoMemory>
        requires edge { IsTransition self.now edge }
        ensures value { IfOk result (λ word. word ≡ word_of self.now edge) }
        ensures letters { IfOk result (IsWord self.now.inputs) }
    {
        let mut word = self.access.get(usize::from(edge.state)).copy()?;
        word.push(edge.letter)?;
        Ok(word)
    }

    /// Adds the words by which a transition is asked: its own, and that followed by the discriminator where it stands.
    fn add_words(&self, words: &mut Words, edge: Edge) -> Result<(), NoMemory>
        requires edge { IsTransition self.now edge }
        ensures more { (more : List (List ℕ)) × (words.new ≡ words.old ++ more) }
        ensures asked { OnOk result (IsAsked (Contains words.new) self.now edge) }
        ensures letters { All (IsWord self.now.inputs) words.old →
            All (IsWord self.now.inputs) words.new }
        ensures level { OnOk result (is_open_by self.now edge ≡ true →
            All (IsLevelWord self.now) words.old → All (IsLevelWord self.now) words.new) }
    {
        let word = self.extension(edge)?;
        if let Content::Discriminator { word: suffix, .. } = self.content_of(edge) {
            let long = join(&word, suffix)?;
            words.push(word)?;
            words.push(long)?;
        } else {
            words.push(word)?;
        }
        Ok(())
    }

    /// The words by which the open transitions are asked, by state and then by letter.
    fn open_words(&self, numbers: &[u32]) -> Result<Words, NoMemory>
        requires numbers { AreOpen self.now numbers.now }
        ensures asked { IfOk result (λ words. AreAsked (Contains words) self.now 0
            (length self.now.places)) }
        ensures letters { IfOk result (All (IsWord self.now.inputs)) }
        ensures level { IfOk result (All (IsLevelWord self.now)) }
        ensures small { IfOk result (λ words. length words < 2 ^ 32) }
    {
        let mut words = Words::new(self.alloc);
        for number in numbers {
            let edge = Edge::with_number(self.inputs, *number as usize);
            self.add_words(&mut words, edge)?;
        }
        if words.len() > u32::MAX as usize {
            return Err(NoMemory);
        }
        Ok(words)
    }

    /// The access words, and one word more.
    pub(crate) fn with_word(&self, word: Word) -> Result<Words, NoMemory>
        ensures { IfOk result (λ words. words ≡ self.now.access ++ word ∷ []) }
    {
        let mut words = Words::new(self.alloc);
        for known in self.access.as_slice() {
            words.push(known.copy()?)?;
        }
        words.push(word)?;
        Ok(words)
    }

    /// The stop where a state for this word would be one too many.
    pub(crate) fn crowd(&self, word: Word) -> GrowStop
        ensures words { (words : List (List ℕ)) → result ≡ Crowd words →
            words ≡ self.now.access ++ word ∷ [] }
        ensures own { IsOwn result }
    {
        match self.with_word(word) {
            Ok(words) => GrowStop::Crowd(words),
            Err(stop) => GrowStop::from(stop),
        }
    }

    /// Moves a transition to the child for its outputs, or to a new state's leaf, where there is no such child.
    fn descend(&mut self, edge: Edge, word: Word, output: u16, branch: Word) -> Result<(), GrowStop>
        requires edge { IsTransition self.old edge }
        requires inner { IsInner (content_by self.old edge) }
        requires word { word ≡ word_of self.old edge }
        requires output { output < self.old.outputs }
        requires size { length branch ≡ length (discriminator (content_by self.old edge)) }
        ensures stepped { (ks : List Answer) → IsRead ks self.old edge output branch →
            HasStepped ks self.old edge self.new }
        ensures moved { OnOk result (MovesOn self.old self.new
            (edge.state * self.old.inputs + edge.letter)) }
        ensures crowd { (ks : List Answer) → IsRead ks self.old edge output branch →
            TellsCrowd ks self.new result }
        ensures own { IfErr result IsOwn }
    {
        let node = self.place_of(edge).node;
        if let Some(child) = self.nodes.child(node, branch.as_slice()) {
            self.place(edge, output, child);
            return Ok(());
        }
        if self.access.len() == usize::from(self.most) {
            return Err(self.crowd(word));
        }
        Ok(self.push_state(edge, word, output, branch)?)
    }

    /// Lets an open transition take its output, and one step down from an inner node.
    fn advance(&mut self, cache: &Cache, edge: Edge) -> Result<(), GrowStop>
        requires answers { AreAnswers self.old.inputs (answers_of cache.now.kept) }
        requires outs { All (λ k. IsWord self.old.outputs k.outs) (answers_of cache.now.kept) }
        requires read { BranchesAreRead (answers_of cache.now.kept) self.old }
        requires edge { IsTransition self.old edge }
        requires stands { is_open_by self.old edge ≡ true }
        requires known { IsAsked (IsKnown (answers_of cache.now.kept)) self.old edge }
        ensures stepped { HasStepped (answers_of cache.now.kept) self.old edge self.new }
        ensures moved { OnOk result (MovesOn self.old self.new
            (edge.state * self.old.inputs + edge.letter)) }
        ensures crowd { TellsCrowd (answers_of cache.now.kept) self.new result }
        ensures own { IfErr result IsOwn }
    {
        let word = self.extension(edge)?;
        let output = read_output(cache, &word)?;
        let Content::Discriminator { word: suffix, .. } = self.content_of(edge) else {
            let node = self.place_of(edge).node;
            self.place(edge, output, node);
            return Ok(());
        };
        let branch = read_tail(self.alloc, cache, &word, suffix)?;
        self.descend(edge, word, output, branch)
    }

    /// Lets all transitions that have no target take their step.
    fn advance_all(&mut self, cache: &Cache, numbers: &[u32]) -> Result<(), GrowStop>
        requires numbers { AreOpen self.old numbers.now }
        requires answers { AreAnswers self.old.inputs (answers_of cache.now.kept) }
        requires outs { All (λ k. IsWord self.old.outputs k.outs) (answers_of cache.now.kept) }
        requires read { BranchesAreRead (answers_of cache.now.kept) self.old }
        requires known { AreAsked (IsKnown (answers_of cache.now.kept)) self.old 0
            (length self.old.places) }
        ensures grown { HasGrown (answers_of cache.now.kept) self.old self.new }
        ensures keeps { KeepsTree self.old self.new }
        ensures steps { AllStepOnce self.old self.new }
        ensures moved { OnOk result (HasMoved self.old self.new) }
        ensures crowd { TellsCrowd (answers_of cache.now.kept) self.new result }
        ensures own { IfErr result IsOwn }
    {
        // The tree tells that it is one.
        let _ = &self.access;
        for number in numbers {
            self.advance(cache, Edge::with_number(self.inputs, *number as usize))?;
        }
        Ok(())
    }

    /// Sifts a level: whether transitions are left that have no target.
    fn sift<O: Oracle>(&mut self, oracle: &mut O) -> Result<bool, GrowStop>
        requires can { O.can_settle oracle.old }
        requires may { MayAsk (O.state oracle.old).stop }
        requires keeps { Keeps (O.state oracle.old) }
        requires inputs { self.old.inputs ≡ (O.state oracle.old).inputs }
        requires outputs { self.old.outputs ≡ (O.state oracle.old).outputs }
        requires read { BranchesAreRead (answers_of (O.state oracle.old).kept) self.old }
        ensures levels { HasLevelled (answers_of (O.state oracle.new).kept) self.old self.new
            result }
        ensures asks { GainsOnly (IsLevelWord self.old) (O.state oracle.old).kept
            (O.state oracle.new).kept }
        ensures leaves { Leaves (O.state oracle.old) (O.state oracle.new) (grown_stop result) }
        ensures can { O.can_settle oracle.new }
    {
        // All are asked in one batch.
        let numbers = self.open_numbers()?;
        let batch = self.open_words(&numbers)?;
        oracle.settle(batch.as_slice())?;
        self.advance_all(oracle.cache(), &numbers)?;
        Ok(self.has_open())
    }

    /// Sifts a level: each transition that has no target takes its output, and goes one step down the discrimination tree. Each
    /// answer that it gains is to the word of such a transition, or to that followed by the discriminator where the transition stands.
    ///
    /// Answers whether transitions are left that have no target.
    ///
    /// # Errors
    /// The stop of the oracle, or out of memory; or pairwise apart words, where a state more than may be would be
    /// needed. Each transition then stays where it was or goes one step below, and keeps its target and its output,
    /// where it had them; a later call goes on from there.
    pub fn sift_level<O: Oracle>(&mut self, oracle: &mut O) -> Result<bool, GrowStop>
        requires can { O.can_settle oracle.old }
        requires may { MayAsk (O.state oracle.old).stop }
        requires inputs { self.old.inputs ≡ (O.state oracle.old).inputs }
        requires outputs { self.old.outputs ≡ (O.state oracle.old).outputs }
        requires read { BranchesAreRead (answers_of (O.state oracle.old).kept) self.old }
        ensures levels { HasLevelled (answers_of (O.state oracle.new).kept) self.old self.new
            result }
        ensures asks { GainsOnly (IsLevelWord self.old) (O.state oracle.old).kept
            (O.state oracle.new).kept }
        ensures leaves { Leaves (O.state oracle.old) (O.state oracle.new) (grown_stop result) }
        ensures can { O.can_settle oracle.new }
    {
        // The cache tells that its answers are over the inputs and outputs.
        let _ = oracle.cache();
        self.sift(oracle)
    }

    /// Sifts levels until each transition has a target. Where each has one, nothing is asked.
    ///
    /// # Errors
    /// As `sift_level`; a transition may stand several steps below where it stood.
    pub fn close<O: Oracle>(&mut self, oracle: &mut O) -> Result<(), GrowStop>
        requires can { O.can_settle oracle.old }
        requires may { MayAsk (O.state oracle.old).stop }
        requires inputs { self.old.inputs ≡ (O.state oracle.old).inputs }
        requires outputs { self.old.outputs ≡ (O.state oracle.old).outputs }
        requires read { BranchesAreRead (answers_of (O.state oracle.old).kept) self.old }
        ensures closes { HasClosed (answers_of (O.state oracle.new).kept) self.old self.new result }
        ensures asks { GainsOnly (IsSifted self.new) (O.state oracle.old).kept
            (O.state oracle.new).kept }
        ensures unasked { IsClosed self.old → O.state oracle.new ≡ O.state oracle.old }
        ensures leaves { Leaves (O.state oracle.old) (O.state oracle.new) (grown_stop result) }
        ensures can { O.can_settle oracle.new }
    {
        // As in `sift_level`; and the tree tells that it is one.
        let _ = oracle.cache();
        let _ = &self.access;
        if !self.has_open() {
            return Ok(());
        }
        while self.sift(oracle)? {}
        Ok(())
    }
}

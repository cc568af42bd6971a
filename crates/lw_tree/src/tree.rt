//! The tree.
ghost use Rattle.std.specs.Prelude.{◌≡◌, ℕ, ◌<◌, ◌≤◌, List, [], ◌∷◌, length, IfOk};
ghost use Rattle.lw_tree.specs.Tree.{discriminators, temporaries, IsTree, new_tree};
ghost use Rattle.lw_tree.specs.bodies.Arrivals.{AreNewArrivals};

use crate::arrivals::Arrivals;
use crate::linked::Nodes;
use crate::nodes::Content;
use crate::transitions::{Edge, Place, UNASKED};
use lw_words::{NoMemory, Word, Words};
use std::alloc::Global;
use std::marker::Model;

/// A spanning tree, by which each state has its access word, and a discrimination tree, whose leaves are the states (Kearns and
/// Vazirani 1994, with the temporary discriminators of Isberner, Howar and Steffen 2014).
///
/// Nodes and transitions are found by their numbers. A transition stands at the node that it was sifted to; where a leaf is
/// split, what stood there stands at the inner node that it became.
#[derive(Drop)]
pub struct DiscriminationTree {
    pub(crate) inputs: u16,
    pub(crate) outputs: u16,
    pub(crate) most: u16,
    pub(crate) access: Words,
    pub(crate) nodes: Nodes,
    /// The leaf of each state.
    pub(crate) leaves: Vec<u32>,
    /// The place of each transition, by state and then by letter.
    pub(crate) places: Vec<Place>,
    /// The transitions by their targets: those that have none are found without a look at the others.
    pub(crate) arrivals: Arrivals,
    /// How each state but 0 was reached.
    pub(crate) spanning: Vec<Edge>,
    pub(crate) refinements: u32,
    pub(crate) alloc: Global,
}

impl Model for DiscriminationTree {
    ghost use Rattle.lw_tree.specs.Tree.{TreeState};
    ghost use Rattle.lw_tree.specs.bodies.Arrivals.{IsListedTree};
    ghost use Rattle.lw_tree.specs.bodies.Nodes.{tree_of};

    ghost Value = { TreeState };

    ghost view = { λ t. tree_of t.inputs t.outputs t.most t.access t.nodes.items t.leaves.items
        t.places.items t.spanning.items t.refinements };

    ghost invariant = { λ t. IsListedTree (tree_of t.inputs t.outputs t.most t.access
        t.nodes.items t.leaves.items t.places.items t.spanning.items t.refinements) t.arrivals };
}

/// The list of the empty word alone.
fn the_empty_word(alloc: Global) -> Result<Words, NoMemory>
    ensures { IfOk result (λ words. words ≡ [] ∷ []) }
{
    let mut words = Words::new(alloc);
    words.push(Word::new(alloc))?;
    Ok(words)
}

/// Lists for this many states, with the transitions of one, which have no target.
fn new_arrivals(alloc: Global, states: u16, letters: u16) -> Result<Arrivals, NoMemory>
    requires some { 1 ≤ states }
    ensures { IfOk result (λ a. AreNewArrivals a states letters) }
{
    let mut arrivals = Arrivals::new(alloc, states, letters)?;
    arrivals.add(0, usize::from(letters));
    Ok(arrivals)
}

impl DiscriminationTree {
    /// The tree of the empty word alone, before anything was asked.
    pub fn new(
        alloc: Global,
        inputs: u16,
        outputs: u16,
        max_states: u16,
    ) -> Result<DiscriminationTree, NoMemory>
        requires inputs { (1 ≤ inputs) × (inputs ≤ 64) }
        requires outputs { (1 ≤ outputs) × (outputs ≤ 4096) }
        requires max_states { (1 ≤ max_states) × (max_states ≤ 1024) }
        ensures value { IfOk result (λ t. t ≡ new_tree inputs outputs max_states) }
        ensures tree { IfOk result IsTree }
    {
        Ok(DiscriminationTree {
            inputs,
            outputs,
            most: max_states,
            access: the_empty_word(alloc)?,
            nodes: Nodes::of_root(alloc)?,
            leaves: vec![in alloc; 0; 1]?,
            places: vec![in alloc; UNASKED; usize::from(inputs)]?,
            arrivals: new_arrivals(alloc, max_states, inputs)?,
            spanning: vec![in alloc; Edge {
                state: 0,
                letter: 0
            }; 1]?,
            refinements: 0,
            alloc,
        })
    }

    /// The access words, in the order of the states.
    pub fn access(&self) -> &Words
        ensures value { result.now ≡ self.now.access }
        ensures tree { IsTree self.now }
    {
        &self.access
    }

    /// The number of inputs.
    pub fn inputs(&self) -> u16
        ensures { result ≡ self.now.inputs }
    {
        self.inputs
    }

    /// How many states there are.
    pub fn states(&self) -> u16
        ensures value { result ≡ length self.now.access }
        ensures tree { IsTree self.now }
    {
        self.access.len() as u16
    }

    /// The discriminators, in the order of their nodes.
    ///
    /// # Errors
    /// Only where memory runs out.
    pub fn discriminators(&self) -> Result<Words, NoMemory>
        ensures { IfOk result (λ words. words ≡ discriminators self.now.nodes) }
    {
        let mut words = Words::new(self.alloc);
        for node in self.nodes.as_slice() {
            if let Content::Discriminator { word, .. } = &node.content {
                words.push(word.copy()?)?;
            }
        }
        Ok(words)
    }

    /// How many discriminators are temporary.
    pub fn temporary(&self) -> u32
        ensures { result ≡ temporaries self.now.nodes }
    {
        let mut count = 0;
        for node in self.nodes.as_slice() {
            if node.is_temporary() {
                count += 1;
            }
        }
        count
    }

    /// How often the tree was split.
    pub fn refinements(&self) -> u32
        ensures value { result ≡ self.now.refinements }
        ensures tree { IsTree self.now }
    {
        self.refinements
    }
}

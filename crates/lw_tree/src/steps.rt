//! The steps by which a tree grows: a transition is placed, a state is added, a leaf is split.
ghost use Rattle.std.specs.Prelude.{◌≡◌, ◌≢◌, ◌⊎◌, ℕ, zero, ◌+◌, ◌*◌, ◌^◌, ◌<◌, ◌≤◌, List, ◌++◌, length, replicate, vec_len, vec_capacity, OnOk, OnErr, true};
ghost use Rattle.lw_words.specs.Word.{IsWord};
ghost use Rattle.lw_tree.specs.Tree.{node_at, no_place, IsLive, IsTree};
ghost use Rattle.lw_tree.specs.bodies.Steps.{with_place, with_state, split_tree, moved_edge, IsNextState, IsNextSplit};
ghost use Rattle.lw_tree.specs.bodies.Transitions.{IsTransition, word_of, place_by, is_open_by};

use crate::DiscriminationTree;
use crate::linked::Nodes;
use crate::transitions::{Edge, Place, UNASKED};
use lw_words::{NoMemory, Word};

/// Makes room for a state more: this many nodes, a leaf, the transition that leads to it, and its own transitions.
fn make_room(
    nodes: &mut Nodes,
    leaves: &mut Vec<u32>,
    spanning: &mut Vec<Edge>,
    places: &mut Vec<Place>,
    more: usize,
    letters: usize,
) -> Result<(), NoMemory>
    ensures nodes { nodes.new.items ≡ nodes.old.items }
    ensures leaves { leaves.new.items ≡ leaves.old.items }
    ensures spanning { spanning.new.items ≡ spanning.old.items }
    ensures places { places.new.items ≡ places.old.items }
    ensures more { OnOk result (more ≤ nodes.new.room) }
    ensures leaf { OnOk result (vec_len leaves.new + 1 ≤ vec_capacity leaves.new) }
    ensures edge { OnOk result (vec_len spanning.new + 1 ≤ vec_capacity spanning.new) }
    ensures letters { OnOk result (vec_len places.new + letters ≤ vec_capacity places.new) }
{
    nodes.reserve(more)?;
    leaves.reserve(1)?;
    spanning.reserve(1)?;
    places.reserve(letters)?;
    Ok(())
}

/// Adds the places of a new state's transitions. There is room for them.
fn push_places(places: &mut Vec<Place>, count: usize)
    requires room { vec_len places.old + count ≤ vec_capacity places.old }
    ensures { places.new.items ≡ places.old.items ++ replicate count no_place }
{
    for _ in 0..count {
        places.push_reserved(UNASKED);
    }
}

impl DiscriminationTree {
    /// Puts a transition that has no target at a node, with its output.
    pub(crate) fn place(&mut self, edge: Edge, output: u16, node: u32)
        requires edge { IsTransition self.old edge }
        requires open { is_open_by self.old edge ≡ true }
        requires output { output < self.old.outputs }
        requires node { IsLive (node_at self.old.nodes node).content }
        ensures value { self.new ≡ with_place self.old edge output node }
        ensures tree { IsTree self.new }
    {
        let number = edge.number(self.inputs);
        self.places[number] = Place {
            output: Some(output),
            node,
        };
        self.arrivals.arrive(number, &self.nodes.get(node).content);
    }

    /// Adds the state that a transition leads to, as a leaf below the inner node where it stands.
    pub(crate) fn push_state(
        &mut self,
        edge: Edge,
        word: Word,
        output: u16,
        branch: Word,
    ) -> Result<(), NoMemory>
        requires next { IsNextState self.old edge output branch }
        requires word { word ≡ word_of self.old edge }
        requires room { length self.old.access < self.old.most }
        ensures ok { OnOk result (self.new ≡ with_state self.old edge output branch) }
        ensures err { OnErr result (self.new ≡ self.old) }
        ensures tree { IsTree self.new }
    {
        let letters = usize::from(self.inputs);
        let number = edge.number(self.inputs);
        let node = self.nodes.len();
        if node >= u32::MAX as usize {
            return Err(NoMemory);
        }
        make_room(
            &mut self.nodes,
            &mut self.leaves,
            &mut self.spanning,
            &mut self.places,
            1,
            letters,
        )?;
        self.access.push(word)?;
        let parent = self.places[number].node;
        let state = self.leaves.len() as u16;
        self.nodes.push_leaf(parent, branch, state);
        self.leaves.push_reserved(node as u32);
        self.spanning.push_reserved(edge);
        self.places[number] = Place {
            output: Some(output),
            node: node as u32,
        };
        let first = self.places.len();
        self.arrivals.push_state(number, state, first, letters);
        push_places(&mut self.places, letters);
        Ok(())
    }
}

/// Puts the transition by which a state was reached at another node. State 0 was reached by none.
fn move_edge(places: &mut Vec<Place>, inputs: u16, edge: Edge, state: usize, node: u32)
    requires { 0 < state → edge.state * inputs + edge.letter < length places.old.items }
    ensures value { places.new.items ≡ moved_edge inputs places.old.items edge state node }
    ensures capacity { vec_capacity places.new ≡ vec_capacity places.old }
{
    if state > 0 {
        let number = edge.number(inputs);
        places[number] = Place {
            output: places[number].output,
            node,
        };
    }
}

impl DiscriminationTree {
    /// Makes the leaf of a state a temporary node with two leaves: that of the state, under its outputs on the suffix, and that of a
    /// new state, to which the transition leads.
    pub(crate) fn push_split(
        &mut self,
        edge: Edge,
        word: Word,
        target: u16,
        suffix: Word,
        old: Word,
        new: Word,
    ) -> Result<(), NoMemory>
        requires next { (output : ℕ) × IsNextSplit self.old edge output target suffix old new }
        requires word { word ≡ word_of self.old edge }
        requires room { length self.old.access < self.old.most }
        ensures ok { OnOk result ((output : ℕ) →
            IsNextSplit self.old edge output target suffix old new →
            self.new ≡ split_tree self.old edge output target suffix old new) }
        ensures err { OnErr result (self.new ≡ self.old) }
        ensures tree { IsTree self.new }
    {
        let letters = usize::from(self.inputs);
        let number = edge.number(self.inputs);
        let state = usize::from(target);
        let node = self.nodes.len();
        if node >= u32::MAX as usize - 1 {
            return Err(NoMemory);
        }
        make_room(
            &mut self.nodes,
            &mut self.leaves,
            &mut self.spanning,
            &mut self.places,
            2,
            letters,
        )?;
        self.access.push(word)?;
        let leaf = self.leaves[state];
        let count = self.leaves.len() as u16;
        self.nodes.split_leaf(leaf, suffix, old, target, new, count);
        self.leaves[state] = node as u32;
        self.leaves.push_reserved(node as u32 + 1);
        let reached = self.spanning[state];
        move_edge(&mut self.places, self.inputs, reached, state, node as u32);
        self.places[number] = Place {
            output: self.places[number].output,
            node: node as u32 + 1,
        };
        self.spanning.push_reserved(edge);
        self.arrivals.push_split(
            target,
            reached.number(self.inputs),
            number,
            count,
            self.places.len(),
            letters,
        );
        push_places(&mut self.places, letters);
        Ok(())
    }
}

//! Replacing the root of a block by a final node.
ghost use Rattle.std.specs.Prelude.{◌≡◌, ℕ, ◌<◌, length, map, slice_set, IfOk};
ghost use Rattle.lw_words.specs.Word.{AreAnswers, answers_of};
ghost use Rattle.lw_tree.specs.Blocks.{MayReplace, HasReplaced};
ghost use Rattle.lw_tree.specs.Tree.{BranchesAreRead, place_at};
ghost use Rattle.lw_tree.specs.bodies.Sprouts.{lifted_place, edge_number, AreEdgePlaces};

use crate::DiscriminationTree;
use crate::arrivals::Arrivals;
use crate::sprouts::lift;
use crate::transitions::{Edge, Place};
use lw_cache::Cache;
use lw_links::Lists;
use lw_words::{NoMemory, Word};
use std::alloc::Global;

/// The places of the transitions, with those below the root at it.
fn lifted_places(
    alloc: Global,
    places: &[Place],
    root: u32,
    below: &[bool],
) -> Result<Vec<Place>, NoMemory>
    ensures { IfOk result (λ moved. moved.items ≡ map (lifted_place below.now root) places.now) }
{
    let mut moved = Vec::with_capacity(alloc, places.len())?;
    for place in places {
        moved.push(Place {
            output: place.output,
            node: lift(below, root, place.node),
        })?;
    }
    Ok(moved)
}

/// Puts a transition at a node.
fn put_place(places: &mut Vec<Place>, number: usize, node: u32)
    requires { number < length places.old.items }
    ensures { places.new.items ≡ slice_set places.old.items number
        (record { output = (place_at places.old.items number).output; node = node }) }
{
    places[number] = Place {
        output: places[number].output,
        node,
    };
}

/// Puts each transition by which a state was reached where that state stands.
fn place_edges(places: &mut Vec<Place>, inputs: u16, spanning: &[Edge], leaves: &[u32])
    requires some { 0 < length leaves.now }
    requires each { length spanning.now ≡ length leaves.now }
    requires within { (q : ℕ) → 0 < q → q < length leaves.now →
        edge_number inputs spanning.now q < length places.old.items }
    ensures { AreEdgePlaces inputs spanning.now leaves.now (length leaves.now) places.old.items
        places.new.items }
{
    for state in 1..leaves.len() {
        let number = spanning[state].number(inputs);
        put_place(places, number, leaves[state]);
    }
}

impl DiscriminationTree {
    /// Puts a final node with this discriminator in place of a block's root. The members' leaves stay below it. The
    /// transitions that stood below it stand at it, but for those that states were reached by, which stand at these states'
    /// leaves; each keeps its output.
    ///
    /// # Errors
    /// Only where memory runs out; the tree is then as before.
    pub fn replace(&mut self, cache: &Cache, root: u32, word: Word) -> Result<(), NoMemory>
        requires answers { AreAnswers self.old.inputs (answers_of cache.now.kept) }
        requires read { BranchesAreRead (answers_of cache.now.kept) self.old }
        requires may { MayReplace (answers_of cache.now.kept) self.old root word }
        ensures { HasReplaced (answers_of cache.now.kept) root word self.old self.new result }
    {
        // Below the root comes, for each of the members' output words, what the block had of those members, with nodes of one
        // child left out.
        let below = self.below(root)?;
        let sprout = self.sprout(cache, root, &word, &below)?;
        let mut places = lifted_places(self.alloc, &self.places, root, &below)?;
        place_edges(&mut places, self.inputs, &self.spanning, &sprout.leaves);
        let mut arrivals = Arrivals::new(self.alloc, self.most, self.inputs)?;
        let count = (self.nodes.len() + sprout.nodes.len()) as u32;
        let children = Lists::new(self.alloc, count, count)?;
        self.nodes.reserve(sprout.nodes.len())?;
        self.nodes
            .replace(root, word, &below, sprout.nodes, children);
        arrivals.fill(&self.nodes, &places);
        self.leaves = sprout.leaves;
        self.places = places;
        self.arrivals = arrivals;
        Ok(())
    }
}

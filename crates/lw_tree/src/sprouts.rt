//! What is to stand below the root of a block once that is replaced, made beside the tree.
ghost use Rattle.std.specs.Prelude.{◌≡◌, ◌≢◌, ℕ, ◌+◌, ◌^◌, ◌<◌, ◌≤◌, List, length, map, MatchOption, OnOk, IfOk};
ghost use Rattle.lw_words.specs.Word.{AreAnswers, answers_of};
ghost use Rattle.lw_tree.specs.Blocks.{MayReplace};
ghost use Rattle.lw_tree.specs.Tree.{BranchesAreRead, node_at, leaf_at, IsLive};
ghost use Rattle.lw_tree.specs.declared.nodes.Node.{Node};
ghost use Rattle.lw_tree.specs.bodies.Sprouts.{AreMarks, IsNextMark, lifted, HasDescended, IsLowest, IsSproutOf, IsOpenOf, CanPart, IsCleared};

use crate::DiscriminationTree;
use crate::linked::lower;
use crate::nodes::{Content, Node};
use crate::reading::read_tail;
use lw_cache::Cache;
use lw_words::{NoMemory, Word};

/// Nodes that are to stand behind those of a tree, and where each state stands then.
#[derive(Drop)]
pub(crate) struct Sprout {
    pub(crate) nodes: Vec<Node>,
    pub(crate) leaves: Vec<u32>,
}

/// The place of a node with this branch, from a place on.
fn find_branch(nodes: &[Node], front: usize, branch: &Word) -> Option<usize>
    requires { front ≤ length nodes.now }
    ensures { MatchOption result
        ((j : ℕ) → front ≤ j → j < length nodes.now → (node_at nodes.now j).branch ≢ branch.now)
        (λ j. (front ≤ j) × (j < length nodes.now) × ((node_at nodes.now j).branch ≡ branch.now)) }
{
    for place in front..nodes.len() {
        if nodes[place].branch.as_slice() == branch.as_slice() {
            return Some(place);
        }
    }
    None
}

/// Whether a node stands below the root, where that is known of those before it.
fn is_next_below(below: &[bool], root: u32, number: usize, node: &Node) -> bool
    requires { 0 < number → IsLive node.now.content → node.now.parent < length below.now }
    ensures { IsNextMark below.now root number node.now result }
{
    let live = match &node.content {
        Content::Gone => false,
        _ => true,
    };
    let parent = node.parent as usize;
    number > root as usize && live && (parent == root as usize || below[parent])
}

/// The root for a node below it, and any other node for itself.
pub(crate) fn lift(below: &[bool], root: u32, node: u32) -> u32
    ensures { result ≡ lifted below.now root node }
{
    if (node as usize) < below.len() && below[node as usize] {
        root
    } else {
        node
    }
}

impl Sprout {
    /// Lets a state stand at the node with this branch, of those from a place on; it is a new one below the parent, where there
    /// is none. The first node has the number `first`.
    fn descend(
        &mut self,
        first: usize,
        front: usize,
        parent: u32,
        branch: Word,
        state: u16,
    ) -> Result<(), NoMemory>
        requires front { front ≤ length self.old.nodes.items }
        requires state { state < length self.old.leaves.items }
        ensures { OnOk result (HasDescended first front parent branch state
            self.old.nodes.items self.old.leaves.items self.new.nodes.items self.new.leaves.items) }
    {
        let place = match find_branch(&self.nodes, front, &branch) {
            Some(place) => place,
            None => {
                self.nodes.push(Node {
                    parent,
                    branch,
                    content: Content::State(state),
                })?;
                self.nodes.len() - 1
            }
        };
        if place >= u32::MAX as usize || first >= u32::MAX as usize - place {
            return Err(NoMemory);
        }
        self.leaves[usize::from(state)] = (first + place) as u32;
        Ok(())
    }
}

impl DiscriminationTree {
    /// Which nodes stand below the root of a block.
    pub(crate) fn below(&self, root: u32) -> Result<Vec<bool>, NoMemory>
        ensures marks { IfOk result (λ below. AreMarks (node_at self.now.nodes) root below.items) }
        ensures size { IfOk result (λ below. length below.items ≡ length self.now.nodes) }
    {
        let mut below = Vec::with_capacity(self.alloc, self.nodes.len())?;
        for number in 0..self.nodes.len() {
            let node = self.nodes.get(number as u32);
            let is_below = is_next_below(&below, root, number, node);
            below.push(is_below)?;
        }
        Ok(below)
    }

    /// The leaf of each state, but the root for the members of its block.
    fn lifted_leaves(&self, root: u32, below: &[bool]) -> Result<Vec<u32>, NoMemory>
        ensures { IfOk result (λ leaves.
            leaves.items ≡ map (lifted below.now root) self.now.leaves) }
    {
        let mut leaves = Vec::with_capacity(self.alloc, self.leaves.len())?;
        for leaf in &self.leaves {
            leaves.push(lift(below, root, *leaf))?;
        }
        Ok(leaves)
    }

    /// The lowest node above the leaves of the states that stand at a node of a sprout.
    fn lowest(&self, leaves: &[u32], number: u32, state: u16) -> u32
        requires state { state < length self.now.access }
        requires at { leaf_at leaves.now state ≡ number }
        requires each { length leaves.now ≡ length self.now.access }
        ensures { IsLowest (node_at self.now.nodes) (leaf_at self.now.leaves) (leaf_at leaves.now)
            (length self.now.access) number result }
    {
        let mut lowest = self.leaf(state);
        for other in 0..self.access.len() {
            if leaves[other] != number {
                continue;
            }
            lowest = self.fork(lowest, self.leaf(other as u16));
        }
        lowest
    }

    /// Lets each state that stands at a node take a step down from it, by its outputs on the discriminator there.
    fn part(
        &self,
        cache: &Cache,
        sprout: &mut Sprout,
        number: u32,
        word: &Word,
    ) -> Result<(), NoMemory>
        requires answers { AreAnswers self.now.inputs (answers_of cache.now.kept) }
        requires can { CanPart (answers_of cache.now.kept) self.now.access sprout.old.leaves.items
            number word.now }
        ensures longer { OnOk result
            (length sprout.old.nodes.items ≤ length sprout.new.nodes.items) }
        ensures grown { OnOk result ((base : List Node) (next : ℕ) →
            length base ≡ length self.now.nodes →
            IsOpenOf (answers_of cache.now.kept) self.now base sprout.old.nodes.items
            sprout.old.leaves.items next number word.now →
            IsSproutOf (answers_of cache.now.kept) self.now base sprout.new.nodes.items
            sprout.new.leaves.items next) }
    {
        let front = sprout.nodes.len();
        for state in 0..self.access.len() {
            if sprout.leaves[state] != number {
                continue;
            }
            let branch = read_tail(self.alloc, cache, self.access.get(state), word)?;
            sprout.descend(self.nodes.len(), front, number, branch, state as u16)?;
        }
        Ok(())
    }

    /// Makes a node of a sprout what it is to be: a leaf where one state stands there, else a copy of the lowest node above
    /// their leaves.
    fn grow_node(&self, cache: &Cache, sprout: &mut Sprout, place: usize) -> Result<(), NoMemory>
        requires answers { AreAnswers self.now.inputs (answers_of cache.now.kept) }
        requires read { BranchesAreRead (answers_of cache.now.kept) self.now }
        requires place { place < length sprout.old.nodes.items }
        requires few { length self.now.nodes + place < 2 ^ 32 }
        requires sprout { (base : List Node) × (length base ≡ length self.now.nodes) ×
            IsSproutOf (answers_of cache.now.kept) self.now base sprout.old.nodes.items
            sprout.old.leaves.items (length self.now.nodes + place) }
        ensures longer { OnOk result
            (length sprout.old.nodes.items ≤ length sprout.new.nodes.items) }
        ensures grown { OnOk result ((base : List Node) → length base ≡ length self.now.nodes →
            IsSproutOf (answers_of cache.now.kept) self.now base sprout.old.nodes.items
            sprout.old.leaves.items (length self.now.nodes + place) →
            IsSproutOf (answers_of cache.now.kept) self.now base sprout.new.nodes.items
            sprout.new.leaves.items (length self.now.nodes + place + 1)) }
    {
        let number = (self.nodes.len() + place) as u32;
        let Content::State(state) = &sprout.nodes[place].content else {
            unreachable!();
        };
        let lowest = self.lowest(&sprout.leaves, number, *state);
        let Content::Discriminator { word, .. } = &self.nodes.get(lowest).content else {
            return Ok(());
        };
        lower(&mut sprout.nodes, place as u32, word.copy()?);
        self.part(cache, sprout, number, word)?;
        Ok(())
    }

    /// Makes all nodes of a sprout what they are to be, in their order.
    fn grow(&self, cache: &Cache, sprout: &mut Sprout) -> Result<(), NoMemory>
        requires answers { AreAnswers self.now.inputs (answers_of cache.now.kept) }
        requires read { BranchesAreRead (answers_of cache.now.kept) self.now }
        requires sprout { (base : List Node) × (length base ≡ length self.now.nodes) ×
            IsSproutOf (answers_of cache.now.kept) self.now base sprout.old.nodes.items
            sprout.old.leaves.items (length self.now.nodes) }
        ensures few { OnOk result (length self.now.nodes + length sprout.new.nodes.items < 2 ^ 32) }
        ensures grown { OnOk result ((base : List Node) → length base ≡ length self.now.nodes →
            IsSproutOf (answers_of cache.now.kept) self.now base sprout.old.nodes.items
            sprout.old.leaves.items (length self.now.nodes) →
            IsSproutOf (answers_of cache.now.kept) self.now base sprout.new.nodes.items
            sprout.new.leaves.items (length self.now.nodes + length sprout.new.nodes.items)) }
    {
        for place in 0..u32::MAX as usize - self.nodes.len() {
            if place == sprout.nodes.len() {
                return Ok(());
            }
            self.grow_node(cache, sprout, place)?;
        }
        Err(NoMemory)
    }

    /// What is to stand below the root of a block, with this word as its discriminator.
    pub(crate) fn sprout(
        &self,
        cache: &Cache,
        root: u32,
        word: &Word,
        below: &[bool],
    ) -> Result<Sprout, NoMemory>
        requires answers { AreAnswers self.now.inputs (answers_of cache.now.kept) }
        requires read { BranchesAreRead (answers_of cache.now.kept) self.now }
        requires may { MayReplace (answers_of cache.now.kept) self.now root word.now }
        requires marks { AreMarks (node_at self.now.nodes) root below.now }
        requires each { length below.now ≡ length self.now.nodes }
        ensures few { IfOk result (λ s. length self.now.nodes + length s.nodes.items < 2 ^ 32) }
        ensures grown { IfOk result (λ s. (base : List Node) →
            length base ≡ length self.now.nodes →
            IsCleared (node_at self.now.nodes) (node_at base) root word.now below.now →
            IsSproutOf (answers_of cache.now.kept) self.now base s.nodes.items
            s.leaves.items (length self.now.nodes + length s.nodes.items)) }
    {
        let mut sprout = Sprout {
            nodes: Vec::new(self.alloc),
            leaves: self.lifted_leaves(root, below)?,
        };
        self.part(cache, &mut sprout, root, word)?;
        self.grow(cache, &mut sprout)?;
        Ok(sprout)
    }
}

//! The nodes of a discrimination tree by their numbers, with a list of those below each.
ghost use Rattle.std.specs.Prelude.{◌≡◌, ◌≢◌, ℕ, ◌+◌, ◌^◌, ◌<◌, ◌≤◌, [], ◌∷◌, ◌++◌, length, None, slice_set, vec_len, vec_capacity, MatchOption, IfOk, OnOk};
ghost use Rattle.lw_tree.specs.Tree.{node_at, IsLive};
ghost use Rattle.lw_tree.specs.bodies.Nodes.{IsChild, AreLinked, AreLower};
ghost use Rattle.lw_links.specs.Owners.{owner_of};
ghost use Rattle.lw_tree.specs.bodies.Steps.{leaf_below, inner_node};
ghost use Rattle.lw_tree.specs.bodies.Sprouts.{gone_node, cleared, final_node, replaced_root};

use crate::nodes::{Content, Node};
use lw_links::Lists;
use lw_words::{NoMemory, Word};
use std::alloc::Global;
use std::marker::Model;

/// Nodes, and a list of those below each, over their numbers. Contracts see the nodes in order, and beside them the room: so
/// many more can be added without memory.
#[derive(Drop)]
pub struct Nodes {
    nodes: Vec<Node>,
    children: Lists,
}

impl Model for Nodes {
    ghost use Rattle.std.specs.Prelude.{◌-◌, min, vec_len, vec_capacity};
    ghost use Rattle.lw_tree.specs.bodies.Nodes.{NodeList, AreLinked};

    ghost Value = { NodeList };

    ghost view = { λ n. record {
      items = n.nodes.items;
      room = min (vec_capacity n.nodes - vec_len n.nodes) (n.children.cells - vec_len n.nodes);
    } };

    ghost invariant = { λ n. AreLinked n.nodes.items n.children };
}

/// The leaf of state 0 alone.
fn the_root(alloc: Global) -> Result<Vec<Node>, NoMemory>
    ensures { IfOk result (λ nodes. nodes.items ≡ leaf_below 0 [] 0 ∷ []) }
{
    let mut nodes = Vec::new(alloc);
    nodes.push(Node {
        parent: 0,
        branch: Word::new(alloc),
        content: Content::State(0),
    })?;
    Ok(nodes)
}

/// The child of a node under these outputs, if there is one.
fn find_child(nodes: &[Node], children: &Lists, parent: u32, outputs: &[u16]) -> Option<u32>
    requires linked { AreLinked nodes.now children.now }
    requires parent { parent < length nodes.now }
    ensures { MatchOption result
        ((n : ℕ) → IsChild (node_at nodes.now) parent n →
        (node_at nodes.now n).branch ≢ outputs.now)
        (λ n. IsChild (node_at nodes.now) parent n × ((node_at nodes.now n).branch ≡ outputs.now)) }
{
    children.has_each_once();
    let mut cursor = children.first(parent);
    while let Some(child) = cursor {
        if nodes[child as usize].branch.as_slice() == outputs {
            return Some(child);
        }
        cursor = children.next(child);
    }
    None
}

/// Gives a node a temporary discriminator.
pub(crate) fn lower(nodes: &mut Vec<Node>, leaf: u32, word: Word)
    requires { leaf < length nodes.old.items }
    ensures items { nodes.new.items ≡ slice_set nodes.old.items leaf
        (inner_node (node_at nodes.old.items leaf) word) }
    ensures capacity { vec_capacity nodes.new ≡ vec_capacity nodes.old }
{
    nodes[leaf as usize].content = Content::Discriminator {
        word,
        temporary: true,
    };
}

/// Takes away what stands at a node.
fn take_away(nodes: &mut Vec<Node>, number: usize)
    requires { number < length nodes.old.items }
    ensures items { nodes.new.items ≡ slice_set nodes.old.items number
        (gone_node (node_at nodes.old.items number)) }
    ensures capacity { vec_capacity nodes.new ≡ vec_capacity nodes.old }
{
    nodes[number].content = Content::Gone;
}

/// Takes away what stands at the marked nodes.
fn clear(nodes: &mut Vec<Node>, below: &[bool])
    requires { length below.now ≡ length nodes.old.items }
    ensures items { nodes.new.items ≡ cleared nodes.old.items below.now }
    ensures capacity { vec_capacity nodes.new ≡ vec_capacity nodes.old }
{
    for number in 0..below.len() {
        if !below[number] {
            continue;
        }
        take_away(nodes, number);
    }
}

/// Gives a node a final discriminator.
fn make_final(nodes: &mut Vec<Node>, root: u32, word: Word)
    requires { root < length nodes.old.items }
    ensures items { nodes.new.items ≡ slice_set nodes.old.items root
        (final_node (node_at nodes.old.items root) word) }
    ensures capacity { vec_capacity nodes.new ≡ vec_capacity nodes.old }
{
    nodes[root as usize].content = Content::Discriminator {
        word,
        temporary: false,
    };
}

/// Puts nodes behind others. There is room for them.
fn append(nodes: &mut Vec<Node>, more: Vec<Node>)
    requires { vec_len nodes.old + length more.items ≤ vec_capacity nodes.old }
    ensures { nodes.new.items ≡ nodes.old.items ++ more.items }
{
    for node in more {
        nodes.push_reserved(node);
    }
}

/// Puts each live node into the list of its parent. All lists are empty.
fn relink(nodes: &[Node], children: &mut Lists)
    requires free { (k : ℕ) → owner_of children.old k ≡ None }
    requires owners { length children.old.lists ≡ children.old.cells }
    requires each { length nodes.now ≤ children.old.cells }
    requires lower { AreLower nodes.now }
    requires some { 0 < length nodes.now }
    requires few { length nodes.now < 2 ^ 32 }
    ensures { AreLinked nodes.now children.new }
{
    for number in 1..nodes.len() {
        let node = &nodes[number];
        if let Content::Gone = &node.content {
            continue;
        }
        children.push(node.parent, number as u32);
    }
}

impl Nodes {
    /// The leaf of state 0 alone, as the root.
    pub(crate) fn of_root(alloc: Global) -> Result<Nodes, NoMemory>
        ensures { IfOk result (λ nodes. nodes.items ≡ leaf_below 0 [] 0 ∷ []) }
    {
        Ok(Nodes {
            nodes: the_root(alloc)?,
            children: Lists::new(alloc, 1, 1)?,
        })
    }

    pub(crate) fn len(&self) -> usize
        ensures { result ≡ length self.now.items }
    {
        self.nodes.len()
    }

    pub(crate) fn get(&self, number: u32) -> &Node
        requires { number < length self.now.items }
        ensures { result.now ≡ node_at self.now.items number }
    {
        &self.nodes[number as usize]
    }

    pub(crate) fn as_slice(&self) -> &[Node]
        ensures { result.now ≡ self.now.items }
    {
        &self.nodes
    }

    /// The child of a node under these outputs, if there is one.
    pub(crate) fn child(&self, parent: u32, outputs: &[u16]) -> Option<u32>
        requires { parent < length self.now.items }
        ensures { MatchOption result
            ((n : ℕ) → IsChild (node_at self.now.items) parent n →
            (node_at self.now.items n).branch ≢ outputs.now)
            (λ n. IsChild (node_at self.now.items) parent n ×
            ((node_at self.now.items n).branch ≡ outputs.now)) }
    {
        find_child(&self.nodes, &self.children, parent, outputs)
    }

    /// Makes room for `more` nodes.
    pub(crate) fn reserve(&mut self, more: usize) -> Result<(), NoMemory>
        ensures items { self.new.items ≡ self.old.items }
        ensures room { OnOk result (more ≤ self.new.room) }
    {
        self.nodes.reserve(more)?;
        let count = self.nodes.len() + more;
        if count > u32::MAX as usize {
            return Err(NoMemory);
        }
        if self.children.cells() >= count {
            return Ok(());
        }
        self.children.grow(count as u32, count as u32)
    }

    /// Puts the leaf of a state below a node. There is room for it.
    pub(crate) fn push_leaf(&mut self, parent: u32, branch: Word, state: u16)
        requires room { 1 ≤ self.old.room }
        requires few { length self.old.items < 2 ^ 32 }
        requires parent { parent < length self.old.items }
        ensures items { self.new.items ≡ self.old.items ++ leaf_below parent branch state ∷ [] }
        ensures room { self.old.room ≤ self.new.room + 1 }
    {
        self.children.push(parent, self.nodes.len() as u32);
        self.nodes.push_reserved(Node {
            parent,
            branch,
            content: Content::State(state),
        });
    }

    /// Gives a leaf a temporary discriminator.
    pub(crate) fn lower_leaf(&mut self, leaf: u32, word: Word)
        requires { IsLive (node_at self.old.items leaf).content }
        ensures items { self.new.items ≡ slice_set self.old.items leaf
            (inner_node (node_at self.old.items leaf) word) }
        ensures room { self.new.room ≡ self.old.room }
    {
        lower(&mut self.nodes, leaf, word);
    }

    /// Gives the leaf of a state a temporary discriminator, and two leaves below it: that of the state, and that of another one.
    /// There is room for them.
    pub(crate) fn split_leaf(
        &mut self,
        leaf: u32,
        word: Word,
        branch: Word,
        state: u16,
        other_branch: Word,
        other: u16,
    )
        requires room { 2 ≤ self.old.room }
        requires few { length self.old.items + 1 < 2 ^ 32 }
        requires leaf { IsLive (node_at self.old.items leaf).content }
        ensures { self.new.items ≡ (slice_set self.old.items leaf
            (inner_node (node_at self.old.items leaf) word) ++ leaf_below leaf branch state ∷ []) ++
            leaf_below leaf other_branch other ∷ [] }
    {
        self.lower_leaf(leaf, word);
        self.push_leaf(leaf, branch, state);
        self.push_leaf(leaf, other_branch, other);
    }

    /// Puts a final node in place of another one, with these nodes behind all others, and takes away what stands at the
    /// marked ones. There is room for them, and the lists, which are empty, are to have those below each.
    pub(crate) fn replace(
        &mut self,
        root: u32,
        word: Word,
        below: &[bool],
        more: Vec<Node>,
        mut children: Lists,
    )
        requires free { (k : ℕ) → owner_of children k ≡ None }
        requires owners { length children.lists ≡ children.cells }
        requires cells { length self.old.items + length more.items ≤ children.cells }
        requires room { length more.items ≤ self.old.room }
        requires few { length self.old.items + length more.items < 2 ^ 32 }
        requires root { root < length self.old.items }
        requires each { length below.now ≡ length self.old.items }
        requires lower { AreLower (replaced_root self.old.items root word below.now ++ more.items) }
        ensures { self.new.items ≡ replaced_root self.old.items root word below.now ++ more.items }
    {
        clear(&mut self.nodes, below);
        make_final(&mut self.nodes, root, word);
        append(&mut self.nodes, more);
        relink(&self.nodes, &mut children);
        self.children = children;
    }
}

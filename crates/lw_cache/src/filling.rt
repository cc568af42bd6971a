//! A new answer: where it clashes with those before it, and the nodes that tell it.
ghost use Rattle.std.specs.Prelude.{◌≡◌, ◌≢◌, ℕ, ◌+◌, ◌<◌, ◌≤◌, List, length, vec_len, vec_capacity, MatchOption};
ghost use Rattle.lw_cache.specs.bodies.Trie.{node_at, word_of, IsTrie, no_answer};
ghost use Rattle.lw_cache.specs.bodies.Filling.{ComparedTo, AreMarked, IsTold};

use crate::node::{NONE, Node};
use crate::trie::{extend, reach};

/// The answer whose output is another one at the first place on the way to a node, and that place; `outs` are the outputs
/// of the node's word.
pub(crate) fn compare(nodes: &[Node], end: u32, outs: &[u16]) -> Option<(u32, usize)>
    requires trie { IsTrie (node_at nodes.now) (length nodes.now) }
    requires end { end < length nodes.now }
    requires outs { length outs.now ≡ length (word_of (node_at nodes.now) end) }
    ensures { ComparedTo (node_at nodes.now) (length nodes.now) (word_of (node_at nodes.now) end)
        outs.now 0 result }
{
    let mut found = None;
    let mut node = end;
    let mut depth = outs.len();
    while depth > 0 {
        depth -= 1;
        let here = nodes[node as usize];
        if here.answer != NONE && here.output != outs[depth] {
            found = Some((here.answer, depth));
        }
        node = here.parent;
    }
    found
}

/// Lets the nodes on the way to a node that tell no answer tell this one; `outs` are the outputs of the node's word.
pub(crate) fn mark(nodes: &mut [Node], end: u32, outs: &[u16], answer: u32)
    requires trie { IsTrie (node_at nodes.old) (length nodes.old) }
    requires end { end < length nodes.old }
    requires outs { length outs.now ≡ length (word_of (node_at nodes.old) end) }
    requires answer { answer < no_answer }
    ensures { AreMarked (node_at nodes.old) (node_at nodes.new) (length nodes.old)
        (word_of (node_at nodes.old) end) outs.now answer 0 }
{
    let mut node = end;
    let mut depth = outs.len();
    while depth > 0 {
        depth -= 1;
        let here = nodes[node as usize];
        if here.answer == NONE {
            nodes[node as usize] = Node {
                answer,
                output: outs[depth],
                ..here
            };
        }
        node = here.parent;
    }
}

/// Lets the nodes tell a new answer; or answers where it clashes, and changes nothing then.
pub(crate) fn tell(
    nodes: &mut Vec<Node>,
    word: &[u16],
    outs: &[u16],
    answer: u32,
) -> Option<(u32, usize)>
    requires trie { IsTrie (node_at nodes.old.items) (length nodes.old.items) }
    requires root { 0 < length nodes.old.items }
    requires lengths { length outs.now ≡ length word.now }
    requires room { vec_len nodes.old + length word.now ≤ vec_capacity nodes.old }
    requires few { vec_len nodes.old + length word.now ≤ no_answer }
    requires answer { answer < no_answer }
    ensures len { vec_len nodes.new ≤ vec_len nodes.old + length word.now }
    ensures more { vec_len nodes.old ≤ vec_len nodes.new }
    ensures capacity { vec_capacity nodes.new ≡ vec_capacity nodes.old }
    ensures found { ComparedTo (node_at nodes.old.items) (length nodes.old.items) word.now outs.now
        0 result }
    ensures told { MatchOption result (IsTold nodes.old.items nodes.new.items word.now outs.now
        answer) (λ _. nodes.new.items ≡ nodes.old.items) }
{
    let (node, depth) = reach(nodes, word);
    if let Some(found) = compare(nodes, node, &outs[..depth]) {
        return Some(found);
    }
    let end = extend(nodes, node, &word[depth..]);
    mark(nodes.as_mut_slice(), end, outs, answer);
    None
}

/// As `tell`, for the outputs of a node's word: no more nodes are needed.
pub(crate) fn tell_at(
    nodes: &mut Vec<Node>,
    end: u32,
    outs: &[u16],
    answer: u32,
) -> Option<(u32, usize)>
    requires trie { IsTrie (node_at nodes.old.items) (length nodes.old.items) }
    requires end { end < length nodes.old.items }
    requires outs { length outs.now ≡ length (word_of (node_at nodes.old.items) end) }
    requires answer { answer < no_answer }
    ensures len { vec_len nodes.new ≡ vec_len nodes.old }
    ensures capacity { vec_capacity nodes.new ≡ vec_capacity nodes.old }
    ensures found { ComparedTo (node_at nodes.old.items) (length nodes.old.items)
        (word_of (node_at nodes.old.items) end) outs.now 0 result }
    ensures told { MatchOption result (AreMarked (node_at nodes.old.items)
        (node_at nodes.new.items) (length nodes.old.items) (word_of (node_at nodes.old.items) end)
        outs.now answer 0) (λ _. nodes.new.items ≡ nodes.old.items) }
{
    if let Some(found) = compare(nodes, end, outs) {
        return Some(found);
    }
    mark(nodes.as_mut_slice(), end, outs, answer);
    None
}

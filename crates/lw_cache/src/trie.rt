//! The trie: from a node down by letters, and new nodes.
ghost use Rattle.std.specs.Prelude.{◌≡◌, ◌≢◌, ◌⊎◌, ℕ, ◌+◌, ◌<◌, ◌≤◌, List, length, drop, slice_index, vec_len, vec_capacity};
ghost use Rattle.lw_words.specs.Word.{IsPrefix};
ghost use Rattle.lw_cache.specs.bodies.Trie.{node_at, word_of, IsTrie, IsChildOf, no_answer};
ghost use Rattle.lw_cache.specs.bodies.Filling.{HasOneMore, IsExtended, IsPlaced, IsChildAt, IsReached, IsFound};

use crate::node::{NONE, Node, UNCLAIMED};

/// The child with this letter, or 0 where there is none.
fn child(nodes: &[Node], parent: u32, letter: u16) -> u32
    requires trie { IsTrie (node_at nodes.now) (length nodes.now) }
    requires parent { parent < length nodes.now }
    ensures { IsChildAt (node_at nodes.now) (length nodes.now) parent letter result }
{
    let mut cursor = nodes[parent as usize].first;
    while cursor != 0 {
        let node = &nodes[cursor as usize];
        if node.letter == letter {
            return cursor;
        }
        cursor = node.next;
    }
    0
}

/// The node of the longest prefix of a word that has one, and the length of that prefix.
pub(crate) fn reach(nodes: &[Node], letters: &[u16]) -> (u32, usize)
    requires trie { IsTrie (node_at nodes.now) (length nodes.now) }
    requires root { 0 < length nodes.now }
    ensures { IsReached (node_at nodes.now) (length nodes.now) letters.now result.0 result.1 }
{
    let mut node = 0;
    for (depth, letter) in letters.iter().enumerate() {
        let next = child(nodes, node, *letter);
        if next == 0 {
            return (node, depth);
        }
        node = next;
    }
    (node, letters.len())
}

/// The node of a word, or 0 where it is empty or has none.
pub(crate) fn find(nodes: &[Node], letters: &[u16]) -> u32
    requires { IsTrie (node_at nodes.now) (length nodes.now) }
    ensures { IsFound (node_at nodes.now) (length nodes.now) letters.now result }
{
    if nodes.is_empty() {
        return 0;
    }
    let (node, depth) = reach(nodes, letters);
    if depth < letters.len() { 0 } else { node }
}
/// Puts a node below another one, which has no child with this letter, and answers its number.
fn append(nodes: &mut Vec<Node>, parent: u32, letter: u16) -> u32
    requires parent { parent < length nodes.old.items }
    requires room { vec_len nodes.old < vec_capacity nodes.old }
    requires few { vec_len nodes.old < no_answer }
    ensures number { result ≡ length nodes.old.items }
    ensures one { length nodes.new.items ≡ length nodes.old.items + 1 }
    ensures len { vec_len nodes.new ≡ vec_len nodes.old + 1 }
    ensures capacity { vec_capacity nodes.new ≡ vec_capacity nodes.old }
    ensures nodes { HasOneMore (node_at nodes.old.items) (node_at nodes.new.items)
        (length nodes.old.items) parent letter }
{
    let number = nodes.len() as u32;
    let above = nodes[parent as usize];
    nodes.push_reserved(Node {
        letter,
        output: 0,
        parent,
        first: 0,
        next: above.first,
        answer: NONE,
        claim: UNCLAIMED,
        ends: UNCLAIMED,
    });
    nodes[parent as usize] = Node {
        first: number,
        ..above
    };
    number
}

/// Puts a node for each of these letters below a node, each below the one before, and answers the last of them, or the
/// node. It has no child with the first letter.
pub(crate) fn extend(nodes: &mut Vec<Node>, parent: u32, letters: &[u16]) -> u32
    requires trie { IsTrie (node_at nodes.old.items) (length nodes.old.items) }
    requires parent { parent < length nodes.old.items }
    requires free { 0 < length letters.now → (j : ℕ) →
        IsChildOf (node_at nodes.old.items) parent (length nodes.old.items) j →
        (node_at nodes.old.items j).letter ≢ slice_index letters.now 0 }
    requires room { vec_len nodes.old + length letters.now ≤ vec_capacity nodes.old }
    requires few { vec_len nodes.old + length letters.now ≤ no_answer }
    ensures len { vec_len nodes.new ≡ vec_len nodes.old + length letters.now }
    ensures capacity { vec_capacity nodes.new ≡ vec_capacity nodes.old }
    ensures nodes { IsExtended (node_at nodes.old.items) (node_at nodes.new.items)
        (length nodes.old.items) parent letters.now (length letters.now) result }
{
    let mut node = parent;
    for letter in letters {
        node = append(nodes, node, *letter);
    }
    node
}

/// The node of a word; puts more nodes at the end where some of its letters have none.
pub(crate) fn place(nodes: &mut Vec<Node>, letters: &[u16]) -> u32
    requires trie { IsTrie (node_at nodes.old.items) (length nodes.old.items) }
    requires root { 0 < length nodes.old.items }
    requires room { vec_len nodes.old + length letters.now ≤ vec_capacity nodes.old }
    requires few { vec_len nodes.old + length letters.now ≤ no_answer }
    ensures len { vec_len nodes.new ≤ vec_len nodes.old + length letters.now }
    ensures more { vec_len nodes.old ≤ vec_len nodes.new }
    ensures capacity { vec_capacity nodes.new ≡ vec_capacity nodes.old }
    ensures placed { IsPlaced nodes.old.items nodes.new.items letters.now result }
{
    let (node, depth) = reach(nodes, letters);
    extend(nodes, node, &letters[depth..])
}

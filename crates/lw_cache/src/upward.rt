//! Going up from nodes: the lengths of their words, their order, and the words themselves.
ghost use Rattle.std.specs.Prelude.{◌≡◌, ◌+◌, ◌<◌, ◌≤◌, List, length, IfOk, IfSome, OnOk};
ghost use Rattle.lw_words.specs.Word.{shortlex_cmp};
ghost use Rattle.lw_cache.specs.bodies.Trie.{node_at, word_of, IsTrie, no_answer};
ghost use Rattle.lw_cache.specs.bodies.Upward.{word_of_some, AreLengths, IsEarlierOf};

use crate::node::Node;
use lw_words::{NoMemory, Word};
use std::alloc::Global;
use std::cmp::Ordering;

/// Puts the length of one more node's word behind those of the nodes before it.
pub(crate) fn put_length(nodes: &[Node], lengths: &mut Vec<u32>) -> Result<(), NoMemory>
    requires trie { IsTrie (node_at nodes.now) (length nodes.now) }
    requires few { length nodes.now ≤ no_answer }
    requires some { 0 < length lengths.old.items }
    requires next { length lengths.old.items < length nodes.now }
    requires lengths { AreLengths (node_at nodes.now) (length lengths.old.items)
        lengths.old.items }
    ensures { OnOk result (AreLengths (node_at nodes.now) (length lengths.old.items + 1)
        lengths.new.items) }
{
    let above = nodes[lengths.len()].parent;
    let length = lengths[above as usize] + 1;
    lengths.push(length)?;
    Ok(())
}

/// How two nodes' words of one length compare in shortlex order. Goes up from both to where they part.
fn compare_same_length(nodes: &[Node], one: u32, other: u32) -> Ordering
    requires trie { IsTrie (node_at nodes.now) (length nodes.now) }
    requires one { one < length nodes.now }
    requires other { other < length nodes.now }
    requires same_length { length (word_of (node_at nodes.now) one) ≡
        length (word_of (node_at nodes.now) other) }
    ensures { result ≡ shortlex_cmp (word_of (node_at nodes.now) one)
        (word_of (node_at nodes.now) other) }
{
    let mut order = Ordering::Equal;
    let mut left = one;
    let mut right = other;
    while left != right {
        let here = nodes[left as usize];
        let there = nodes[right as usize];
        order = here.letter.cmp(&there.letter).then(order);
        left = here.parent;
        right = there.parent;
    }
    order
}

/// How two nodes' words compare in shortlex order.
fn compare(nodes: &[Node], lengths: &[u32], one: u32, other: u32) -> Ordering
    requires trie { IsTrie (node_at nodes.now) (length nodes.now) }
    requires lengths { AreLengths (node_at nodes.now) (length lengths.now) lengths.now }
    requires within { length lengths.now ≤ length nodes.now }
    requires one { one < length lengths.now }
    requires other { other < length lengths.now }
    ensures { result ≡ shortlex_cmp (word_of (node_at nodes.now) one)
        (word_of (node_at nodes.now) other) }
{
    let by_length = lengths[one as usize].cmp(&lengths[other as usize]);
    if by_length == Ordering::Equal {
        compare_same_length(nodes, one, other)
    } else {
        by_length
    }
}

/// The one of two nodes whose word comes first in shortlex order.
pub(crate) fn earlier(nodes: &[Node], lengths: &[u32], best: Option<u32>, at: u32) -> Option<u32>
    requires trie { IsTrie (node_at nodes.now) (length nodes.now) }
    requires lengths { AreLengths (node_at nodes.now) (length lengths.now) lengths.now }
    requires within { length lengths.now ≤ length nodes.now }
    requires best { IfSome best (λ b. b < length lengths.now) }
    requires at { at < length lengths.now }
    ensures within { IfSome result (λ b. b < length lengths.now) }
    ensures earlier { IsEarlierOf (word_of_some (node_at nodes.now) best)
        (word_of (node_at nodes.now) at) (word_of_some (node_at nodes.now) result) }
{
    let Some(first) = best else {
        return Some(at);
    };
    if compare(nodes, lengths, at, first) == Ordering::Less {
        Some(at)
    } else {
        Some(first)
    }
}

/// The word of a node.
pub(crate) fn spelled(alloc: Global, nodes: &[Node], end: u32) -> Result<Word, NoMemory>
    requires trie { IsTrie (node_at nodes.now) (length nodes.now) }
    requires end { end < length nodes.now }
    ensures { IfOk result (λ w. w ≡ word_of (node_at nodes.now) end) }
{
    let mut letters = Vec::new(alloc);
    let mut node = end;
    while node != 0 {
        let here = nodes[node as usize];
        letters.push(here.letter)?;
        node = here.parent;
    }
    letters.reverse();
    Ok(Word::from_letters(alloc, letters))
}

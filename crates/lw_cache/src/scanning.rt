//! Going through all nodes once: how many are live, and where a machine differs.
ghost use Rattle.std.specs.Prelude.{◌≡◌, ◌≢◌, ◌↔◌, ℕ, ◌<◌, ◌≤◌, List, length, IfOk, IfSome, IsTrue, true, false, slice_index};
ghost use Rattle.lw_mealy.specs.Machine.{next, output};
ghost use Rattle.lw_cache.specs.bodies.Trie.{node_at, word_of, IsTrie, no_answer};
ghost use Rattle.lw_cache.specs.bodies.Scanning.{IsLive, CountsLive, IsFirstTo, AreLetters};
ghost use Rattle.lw_cache.specs.bodies.Upward.{word_of_some, AreLengths, IsEarlierOf};

use crate::node::{NONE, Node, UNCLAIMED};
use crate::upward::{earlier, put_length, spelled};
use lw_mealy::Mealy;
use lw_words::{NoMemory, Word};
use std::alloc::Global;

/// Whether a node's word is known or begins a claimed word.
fn is_live(node: &Node) -> bool
    ensures { (result ≡ true) ↔ IsLive node.now }
{
    node.answer != NONE || node.claim != UNCLAIMED
}

/// How many nodes are live, the root aside.
pub(crate) fn count_live(nodes: &[Node]) -> usize
    requires { IsTrie (node_at nodes.now) (length nodes.now) }
    ensures { CountsLive (node_at nodes.now) (length nodes.now) result }
{
    if nodes.is_empty() {
        return 0;
    }
    let mut count = 0;
    for i in 1..nodes.len() {
        if is_live(&nodes[i]) {
            count += 1;
        }
    }
    count
}

/// The machine's state after the word of a node that tells an answer, and whether its output differs there.
fn step_to(m: &Mealy, states: &[u16], node: &Node) -> (u16, bool)
    requires parent { node.now.parent < length states.now }
    requires state { slice_index states.now node.now.parent < length m.now.rows }
    requires letter { node.now.answer ≢ no_answer → node.now.letter < m.now.inputs }
    ensures state { result.0 < length m.now.rows }
    ensures none { node.now.answer ≡ no_answer → result.1 ≡ false }
    ensures next { node.now.answer ≢ no_answer → result.0 ≡
        next m.now.rows (slice_index states.now node.now.parent) node.now.letter }
    ensures differs { node.now.answer ≢ no_answer → (result.1 ≡ true) ↔ (node.now.output ≢
        output m.now.rows (slice_index states.now node.now.parent) node.now.letter) }
{
    if node.answer == NONE {
        return (m.initial(), false);
    }
    let (state, output) = m.step(states[node.parent as usize], node.letter);
    (state, output != node.output)
}

/// The first of two nodes by their words in shortlex order, where the second counts only if a machine differs at it.
fn better(nodes: &[Node], lengths: &[u32], best: Option<u32>, at: u32, differs: bool) -> Option<u32>
    requires trie { IsTrie (node_at nodes.now) (length nodes.now) }
    requires lengths { AreLengths (node_at nodes.now) (length lengths.now) lengths.now }
    requires within { length lengths.now ≤ length nodes.now }
    requires best { IfSome best (λ b. b < length lengths.now) }
    requires at { at < length lengths.now }
    ensures within { IfSome result (λ b. b < length lengths.now) }
    ensures same { differs ≡ false → result ≡ best }
    ensures earlier { differs ≡ true → IsEarlierOf (word_of_some (node_at nodes.now) best)
        (word_of (node_at nodes.now) at) (word_of_some (node_at nodes.now) result) }
{
    if differs {
        earlier(nodes, lengths, best, at)
    } else {
        best
    }
}

/// The node whose word is the first in shortlex order of those at which a machine's output differs from the one that is
/// known there.
fn first_differing(alloc: Global, nodes: &[Node], m: &Mealy) -> Result<Option<u32>, NoMemory>
    requires trie { IsTrie (node_at nodes.now) (length nodes.now) }
    requires root { 0 < length nodes.now }
    requires few { length nodes.now ≤ no_answer }
    requires letters { AreLetters (node_at nodes.now) (length nodes.now) m.now.inputs }
    ensures within { IfOk result (λ r. IfSome r (λ b. b < length nodes.now)) }
    ensures first { IfOk result (λ r. IsFirstTo (node_at nodes.now) (length nodes.now) m.now.rows
        (length nodes.now) (word_of_some (node_at nodes.now) r)) }
{
    let mut states = Vec::with_capacity(alloc, nodes.len())?;
    let mut lengths = Vec::with_capacity(alloc, nodes.len())?;
    states.push(m.initial())?;
    lengths.push(0u32)?;
    let mut best = None;
    for i in 1..nodes.len() {
        let (state, differs) = step_to(m, &states, &nodes[i]);
        states.push(state)?;
        put_length(nodes, &mut lengths)?;
        best = better(nodes, &lengths, best, i as u32, differs);
    }
    Ok(best)
}

/// The first word in shortlex order of a node at which a machine's output differs from the one that is known there.
pub(crate) fn first_difference(
    alloc: Global,
    nodes: &[Node],
    m: &Mealy,
) -> Result<Option<Word>, NoMemory>
    requires trie { IsTrie (node_at nodes.now) (length nodes.now) }
    requires few { length nodes.now ≤ no_answer }
    requires letters { AreLetters (node_at nodes.now) (length nodes.now) m.now.inputs }
    ensures { IfOk result (IsFirstTo (node_at nodes.now) (length nodes.now) m.now.rows
        (length nodes.now)) }
{
    if nodes.is_empty() {
        return Ok(None);
    }
    let Some(first) = first_differing(alloc, nodes, m)? else {
        return Ok(None);
    };
    Ok(Some(spelled(alloc, nodes, first)?))
}

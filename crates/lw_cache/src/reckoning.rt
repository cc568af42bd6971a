//! The least claims, reckoned again from a node up.
ghost use Rattle.std.specs.Prelude.{◌≡◌, ◌≢◌, ℕ, ◌<◌, ◌≤◌, List, length, vec_len, vec_capacity};
ghost use Rattle.lw_cache.specs.bodies.Trie.{node_at, IsTrie, IsLeast, AreLeast};
ghost use Rattle.lw_cache.specs.bodies.Filling.{SameButClaims, IsReclaimed, IsHeld, IsEndOf, without_held};

use crate::node::{Held, Node};

/// The least of a node's own claim and its children's.
fn least_claim(nodes: &[Node], node: u32) -> u64
    requires trie { IsTrie (node_at nodes.now) (length nodes.now) }
    requires node { node < length nodes.now }
    ensures { IsLeast (node_at nodes.now) (length nodes.now) node result }
{
    let mut least = nodes[node as usize].ends;
    let mut cursor = nodes[node as usize].first;
    while cursor != 0 {
        let child = &nodes[cursor as usize];
        least = least.min(child.claim);
        cursor = child.next;
    }
    least
}

/// Reckons the least claims from a node up, where they are right at all others.
pub(crate) fn reckon(nodes: &mut [Node], from: u32)
    requires trie { IsTrie (node_at nodes.old) (length nodes.old) }
    requires from { from < length nodes.old }
    requires others { (i : ℕ) → 0 < i → i < length nodes.old → i ≢ from →
        IsLeast (node_at nodes.old) (length nodes.old) i (node_at nodes.old i).claim }
    ensures same { SameButClaims (node_at nodes.old) (node_at nodes.new) }
    ensures least { AreLeast (node_at nodes.new) (length nodes.old) }
{
    let mut node = from;
    while node != 0 {
        let claim = least_claim(nodes, node);
        let here = nodes[node as usize];
        if claim == here.claim {
            return;
        }
        nodes[node as usize] = Node { claim, ..here };
        node = here.parent;
    }
}

/// Gives a node's word a claim of its own, or takes it away with `UNCLAIMED`.
pub(crate) fn reclaim(nodes: &mut Vec<Node>, end: u32, ends: u64)
    requires trie { IsTrie (node_at nodes.old.items) (length nodes.old.items) }
    requires end { end < length nodes.old.items }
    requires least { AreLeast (node_at nodes.old.items) (length nodes.old.items) }
    ensures len { vec_len nodes.new ≡ vec_len nodes.old }
    ensures capacity { vec_capacity nodes.new ≡ vec_capacity nodes.old }
    ensures nodes { IsReclaimed (node_at nodes.old.items) (node_at nodes.new.items)
        (length nodes.old.items) end ends }
{
    let here = nodes[end as usize];
    nodes[end as usize] = Node { ends, ..here };
    reckon(nodes.as_mut_slice(), end);
}

/// The node at which the claim with this number ends.
pub(crate) fn end_of(held: &[Held], number: u32) -> u32
    requires { IsHeld held.now number }
    ensures { IsEndOf held.now number result }
{
    for claim in held {
        if claim.number == number {
            return claim.end;
        }
    }
    unreachable!()
}

/// Leaves the claim with this number out.
pub(crate) fn let_go(held: &mut Vec<Held>, number: u32)
    ensures held { held.new.items ≡ without_held number held.old.items }
    ensures len { vec_len held.new ≤ vec_len held.old }
    ensures capacity { vec_capacity held.new ≡ vec_capacity held.old }
{
    held.retain(|claim| claim.number != number);
}

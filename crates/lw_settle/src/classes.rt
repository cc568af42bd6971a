//! The classes of a tree's states.
ghost use Rattle.std.specs.Prelude.{◌≡◌, ℕ, ◌≤◌, length, IfOk};
ghost use Rattle.std.specs.List.{All};
ghost use Rattle.lw_tree.specs.Tree.{TreeState, IsTree};
ghost use Rattle.lw_settle.specs.bodies.Parting.{AreRoots, AreLeast, AreMembers};

use lw_tree::DiscriminationTree;
use lw_words::NoMemory;
use std::alloc::Global;

/// The root of the class of each state.
pub(crate) fn class_roots(alloc: Global, tree: &DiscriminationTree) -> Result<Vec<u32>, NoMemory>
    ensures { IfOk result (λ roots. AreRoots tree.now roots.items) }
{
    let mut roots = Vec::with_capacity(alloc, usize::from(tree.states()))?;
    for state in 0..tree.states() {
        roots.push(tree.class_root(state))?;
    }
    Ok(roots)
}

/// The greatest of these numbers, or 0 where there is none.
fn greatest(numbers: &[u32]) -> u32
    ensures { All (λ n. n ≤ result) numbers.now }
{
    let mut greatest = 0;
    for number in numbers {
        if *number > greatest {
            greatest = *number;
        }
    }
    greatest
}

/// The least state of the class of each state.
pub(crate) fn least_states(alloc: Global, roots: &[u32]) -> Result<Vec<u16>, NoMemory>
    requires { length roots.now ≤ 1024 }
    ensures { IfOk result (λ least. AreLeast roots.now least.items) }
{
    let mut least = Vec::with_capacity(alloc, roots.len())?;
    let mut known = vec![in alloc; None; greatest(roots) as usize + 1]?;
    for state in 0..roots.len() {
        let root = roots[state] as usize;
        let first = known[root].unwrap_or(state as u16);
        known[root] = Some(first);
        least.push(first)?;
    }
    Ok(least)
}

/// The states of the class with this root, in their order.
pub(crate) fn members_of(alloc: Global, roots: &[u32], root: u32) -> Result<Vec<u16>, NoMemory>
    requires { length roots.now ≤ 1024 }
    ensures { IfOk result (λ members. (t : TreeState) → IsTree t → AreRoots t roots.now →
        AreMembers t root members.items) }
{
    let mut members = Vec::new(alloc);
    for state in 0..roots.len() {
        if roots[state] == root {
            members.push(state as u16)?;
        }
    }
    Ok(members)
}

//! Settling a block.
ghost use Rattle.std.specs.Prelude.{◌≡◌, IfOk, MatchOption};
ghost use Rattle.lw_words.specs.Word.{answers_of};
ghost use Rattle.lw_mealy.specs.Machine.{Gives, Rows};
ghost use Rattle.lw_cache.specs.Settling.{GainsOnly, MayAsk, Leaves, grown_stop};
ghost use Rattle.lw_settle.specs.Settling.{HasSettledBlock};
ghost use Rattle.lw_settle.specs.bodies.Parting.{NothingIsParted, IsReplacement};
ghost use Rattle.lw_settle.specs.declared.settling.Settled.TheVariants.{NoBlock};
ghost use Rattle.lw_tree.specs.Grown.{IsSifted};
ghost use Rattle.lw_tree.specs.Tree.{BranchesAreRead, IsClosed, IsMachineOf};

use crate::classes::{class_roots, least_states, members_of};
use crate::parting::{find_parting, member_words, parting_word};
use lw_cache::{GrowStop, Oracle};
use lw_tree::DiscriminationTree;
use lw_words::{NoMemory, Word};
use std::alloc::Global;

/// What a settling did.
#[derive(Clone, Copy, Debug, PartialEq, Eq)]
pub enum Settled {
    /// No node is temporary.
    NoBlock,
    /// The temporary root of a block was replaced by a final node, and the tree closed again.
    Replaced,
}

/// A block that a letter parts: its root, its states, and the word that takes the root's place.
#[derive(Drop)]
struct Replacement {
    root: u32,
    members: Vec<u16>,
    word: Word,
}

/// The first block that a letter parts, with its word.
fn next_replacement(
    alloc: Global,
    tree: &DiscriminationTree,
) -> Result<Option<Replacement>, NoMemory>
    requires closed { IsClosed tree.now }
    ensures { IfOk result (λ found. MatchOption found (NothingIsParted tree.now)
        (IsReplacement tree.now)) }
{
    // The tree tells that it is one.
    let _ = tree.access();
    let roots = class_roots(alloc, tree)?;
    let least = least_states(alloc, &roots)?;
    let Some(parting) = find_parting(tree, &roots, &least) else {
        return Ok(None);
    };
    let root = roots[usize::from(parting.one)];
    let members = members_of(alloc, &roots, root)?;
    let word = parting_word(alloc, tree, &members, parting)?;
    Ok(Some(Replacement {
        root,
        members,
        word,
    }))
}

/// Settles the first block that a letter parts: by its least state, and then by letter.
///
/// The discriminator of the final node is the letter, where states of the block answer it differently; else the letter followed
/// by the discriminator of the lowest node above the states that it leads to.
///
/// # Errors
/// As the tree's `close`. The answers on the new discriminator are asked before the tree changes.
pub fn settle_block<O: Oracle>(
    oracle: &mut O,
    alloc: Global,
    tree: &mut DiscriminationTree,
) -> Result<Settled, GrowStop>
    requires can { O.can_settle oracle.old }
    requires may { MayAsk (O.state oracle.old).stop }
    requires inputs { tree.old.inputs ≡ (O.state oracle.old).inputs }
    requires outputs { tree.old.outputs ≡ (O.state oracle.old).outputs }
    requires read { BranchesAreRead (answers_of (O.state oracle.old).kept) tree.old }
    requires closed { IsClosed tree.old }
    requires gives { (m : Rows) × IsMachineOf tree.old m × Gives m
        (answers_of (O.state oracle.old).kept) }
    ensures settles { HasSettledBlock (answers_of (O.state oracle.new).kept) tree.old tree.new
        result }
    ensures asks { GainsOnly (IsSifted tree.new) (O.state oracle.old).kept
        (O.state oracle.new).kept }
    ensures unasked { IfOk result (λ s. s ≡ NoBlock → O.state oracle.new ≡ O.state oracle.old) }
    ensures leaves { Leaves (O.state oracle.old) (O.state oracle.new) (grown_stop result) }
    ensures can { O.can_settle oracle.new }
{
    // The cache tells that its answers are over the inputs, and the tree that it is one.
    let _ = oracle.cache();
    let _ = tree.access();
    let Some(replacement) = next_replacement(alloc, tree)? else {
        return Ok(Settled::NoBlock);
    };
    let Replacement {
        root,
        members,
        word,
    } = replacement;
    let batch = member_words(alloc, tree, &members, &word)?;
    oracle.settle(batch.as_slice())?;
    tree.replace(oracle.cache(), root, word)?;
    tree.close(oracle)?;
    Ok(Settled::Replaced)
}

//! A machine that is asked, and a tree over it that is closed and split.
ghost use Rattle.std.specs.Prelude.{◌≡◌, ◌≤◌, IfOk, IfSome, OnOk, true};
ghost use Rattle.lw_words.specs.Word.{IsWord};
ghost use Rattle.test_tree.specs.Trials.{IsReady};
ghost use Rattle.test_oracle.specs.Recording.{state_of};

use lw_cache::{GrowStop, Oracle};
use lw_mealy::Mealy;
use lw_tree::{DiscriminationTree, access_leads, machine_gives_steps, new_is_read};
use lw_words::Word;
use std::alloc::Global;
use test_oracle::Recording;

/// A machine that is asked, and the tree over it.
#[derive(Drop)]
pub struct Trial {
    pub oracle: Recording,
    pub tree: DiscriminationTree,
}

/// A new tree that was closed over a machine.
///
/// # Errors
/// As the tree's `close`.
pub fn closed(alloc: Global, mealy: Mealy, most: u16, refused: usize) -> Result<Trial, GrowStop>
    requires some { 1 ≤ most }
    requires few { most ≤ 1024 }
    ensures { IfOk result (λ trial. IsReady (state_of trial.oracle) trial.tree) }
{
    new_is_read();
    let inputs = mealy.inputs();
    let outputs = mealy.outputs();
    let mut oracle = Recording::refusing(alloc, mealy, refused);
    let mut tree = DiscriminationTree::new(alloc, inputs, outputs, most)?;
    tree.close(&mut oracle)?;
    Ok(Trial { oracle, tree })
}

/// A word over the inputs, where these letters are and there is memory.
fn word_over(alloc: Global, inputs: u16, letters: &[u16]) -> Option<Word>
    ensures { IfSome result (IsWord inputs) }
{
    let mut word = Word::new(alloc);
    for letter in letters {
        if *letter >= inputs || word.push(*letter).is_err() {
            return None;
        }
    }
    Some(word)
}

/// Settles one word, and answers whether it is one and was settled.
pub fn ask<O: Oracle>(
    alloc: Global,
    oracle: &mut O,
    tree: &DiscriminationTree,
    letters: &[u16],
) -> bool
    requires can { O.can_settle oracle.old }
    requires ready { IsReady (O.state oracle.old) tree.now }
    ensures ready { result ≡ true → IsReady (O.state oracle.new) tree.now }
    ensures can { O.can_settle oracle.new }
{
    let Some(word) = word_over(alloc, oracle.inputs(), letters) else {
        return false;
    };
    let Ok(batch) = vec![in alloc; word] else {
        return false;
    };
    let settled = oracle.settle(&batch);
    settled.is_ok()
}

/// Splits a closed tree by the least known word on which its machine differs, and answers whether there is one.
///
/// # Errors
/// What the oracle stopped by before the split, or as the tree's `split`.
pub fn split_by_known<O: Oracle>(
    alloc: Global,
    oracle: &mut O,
    tree: &mut DiscriminationTree,
) -> Result<bool, GrowStop>
    requires can { O.can_settle oracle.old }
    requires ready { IsReady (O.state oracle.old) tree.old }
    ensures ready { OnOk result (IsReady (O.state oracle.new) tree.new) }
    ensures can { O.can_settle oracle.new }
{
    // The laws of a closed tree say what a cut asks of its access words.
    access_leads();
    machine_gives_steps();
    let model = tree.machine()?;
    let Some(word) = oracle.cache().against(&model)? else {
        return Ok(false);
    };
    let cut = lw_cex::split(oracle, alloc, &model, tree.access(), &word)?;
    tree.split(oracle, &cut)?;
    Ok(true)
}

//! A tree over a machine that is asked, which is split and settled.
ghost use Rattle.std.specs.Prelude.{◌≡◌, OnOk, true};
ghost use Rattle.std.specs.List.{All};
ghost use Rattle.lw_words.specs.Word.{answer_of, IsAnswer};
ghost use Rattle.lw_mealy.specs.Machine.{answer};
ghost use Rattle.test_tree.specs.Trials.{IsReady};

use lw_cache::{GrowStop, Oracle};
use lw_mealy::Mealy;
use lw_settle::{Settled, settle_block};
use lw_tree::DiscriminationTree;
use lw_words::Kept;
use std::alloc::Global;
use std::process::Abort;
use test_tree::{ask, split_by_known};

/// Asks a word, and splits the tree by what is known then.
pub fn split_by<O: Oracle>(
    rt: &impl Abort,
    alloc: Global,
    oracle: &mut O,
    tree: &mut DiscriminationTree,
    letters: &[u16],
)
    requires can { O.can_settle oracle.old }
    requires ready { IsReady (O.state oracle.old) tree.old }
    ensures ready { IsReady (O.state oracle.new) tree.new }
    ensures can { O.can_settle oracle.new }
{
    assert!(rt; ask(alloc, oracle, tree, letters));
    let Ok(true) = split_by_known(alloc, oracle, tree) else {
        rt.panic("a split is refused");
    };
}

/// Whether a machine agrees with each recorded answer.
fn gives_all(model: &Mealy, kept: &Kept) -> bool
    requires { All (λ k. IsAnswer model.now.inputs (answer_of k)) kept.now.answers }
    ensures { result ≡ true → All (λ k. answer model.now.rows k.word ≡ k.outs) kept.now.answers }
{
    for number in 0..kept.len() {
        let answer = kept.get(number);
        if model.agrees(&answer.word, &answer.outs).is_some() {
            return false;
        }
    }
    true
}

/// Settles a block of a tree whose machine gives all that is known.
///
/// # Errors
/// As `settle_block`.
pub fn settle<O: Oracle>(
    rt: &impl Abort,
    alloc: Global,
    oracle: &mut O,
    tree: &mut DiscriminationTree,
) -> Result<Settled, GrowStop>
    requires can { O.can_settle oracle.old }
    requires ready { IsReady (O.state oracle.old) tree.old }
    ensures ready { OnOk result (IsReady (O.state oracle.new) tree.new) }
    ensures can { O.can_settle oracle.new }
{
    let Ok(model) = tree.machine() else {
        rt.panic("no memory");
    };
    assert!(rt; gives_all(&model, oracle.cache().kept()));
    settle_block(oracle, alloc, tree)
}

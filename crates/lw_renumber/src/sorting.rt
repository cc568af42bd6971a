//! The names of outputs in their order, and what was learned by their new numbers.
ghost use Rattle.std.specs.Prelude.{◌≡◌, ◌≤◌, length, is_some, true, IfOk};
ghost use Rattle.std.specs.List.{All};
ghost use Rattle.std.specs.List.Sorted.{IsPermutation};
ghost use Rattle.lw_words.specs.Word.{answers_of, IsWord};
ghost use Rattle.lw_words.specs.Renumbering.{renumbered_answers};
ghost use Rattle.lw_mealy.specs.Machine.{AnswersBelow};
ghost use Rattle.lw_desk.specs.Ending.{ComeUp};
ghost use Rattle.lw_names.specs.Naming.{AreSorted};
ghost use Rattle.lw_renumber.specs.Sorting.{MapsWithin, HasSorted, outs_named, renumbered_learned};

use lw_names::OutNames;
use lw_rounds::{LearnStop, Learned};
use lw_words::Kept;

/// Puts `to[y]` in place of each output `y` of a model, which has then this many outputs.
pub(crate) fn renumber_learned(learned: &mut Result<Learned, LearnStop>, outputs: u16, to: &[u16])
    requires few { outputs ≤ 4096 }
    requires room { outputs ≤ length to.now }
    requires within { MapsWithin outputs to.now }
    requires model { IfOk learned.old (λ l. AnswersBelow outputs l.model.rows) }
    ensures { learned.new ≡ renumbered_learned outputs to.now learned.old }
{
    if let Ok(found) = learned {
        // It tells that it is within the limits, so it has an output.
        let _ = found.model.inputs();
        found.model.renumber(outputs, to);
    }
}

/// Sorts the names of outputs that weren't declared, and gives the outputs of the recorded answers and of
/// the model their new numbers, which are in `to` then. Takes no memory.
///
/// The learner that the model was read off, and a model whose suite is too large, keep the old numbers.
pub fn sort_outputs(
    names: &mut OutNames,
    to: &mut [u16],
    learned: &mut Result<Learned, LearnStop>,
    kept: &mut Kept,
)
    requires free { is_some names.old.brought ≡ true }
    requires room { length names.old.names ≤ length to.old }
    requires answers { All (λ k. IsWord (length names.old.names) k.outs) kept.old.answers }
    requires model { IfOk learned.old (λ l. AnswersBelow (length names.old.names) l.model.rows) }
    ensures sorted { AreSorted names.new.names }
    ensures permuted { IsPermutation names.old.names names.new.names }
    ensures brought { names.new.brought ≡ names.old.brought }
    ensures count { length to.new ≡ length to.old }
    ensures answers { kept.new.answers ≡ renumbered_answers to.new kept.old.answers }
    ensures below { All (λ k. IsWord (length names.new.names) k.outs) kept.new.answers }
    ensures named { outs_named names.new.names kept.new.answers
        ≡ outs_named names.old.names kept.old.answers }
    ensures come_up { ComeUp kept.old.answers names.old.names →
        ComeUp kept.new.answers names.new.names }
    ensures room { kept.new.room ≡ kept.old.room }
    ensures stays { HasSorted to.new names.old.names names.new.names
        (answers_of kept.old.answers) (answers_of kept.new.answers) learned.old learned.new }
{
    let count = names.len();
    names.sort(to);
    kept.renumber(to);
    renumber_learned(learned, count, to);
}

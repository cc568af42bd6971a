//! Where a model has to be split.
ghost use Rattle.std.specs.Prelude.{◌≡◌, ◌<◌, length, IfOk};
ghost use Rattle.lw_words.specs.Word.{answers_of, IsWord};
ghost use Rattle.lw_cache.specs.Against.{Differs};
ghost use Rattle.lw_cache.specs.Cut.{AreAccess, StepsAreRead, IsCut};
ghost use Rattle.lw_cache.specs.Settling.{MayAsk, Leaves, asked_stop};
ghost use Rattle.lw_cex.specs.Plain.{SplitsPlainly};
ghost use Rattle.lw_cex.specs.Probe.{AsksProbes, CutsWord};
ghost use Rattle.lw_cex.specs.bodies.Search.{IsCutAt};

use crate::probe::state_after;
use crate::search::breakpoint;
use lw_cache::{AskStop, Cut, Oracle};
use lw_mealy::Mealy;
use lw_words::{NoMemory, Word, Words};
use std::alloc::Global;

/// The cut at a place.
fn cut_at(alloc: Global, model: &Mealy, word: &Word, place: usize) -> Result<Cut, NoMemory>
    requires letters { IsWord model.now.inputs word.now }
    requires place { place < length word.now }
    ensures { IfOk result (IsCutAt model.now.rows word.now place) }
{
    let state = state_after(model, &word.as_slice()[..place]);
    let letters = word.as_slice();
    let letter = letters[place];
    let (target, _) = model.step(state, letter);
    let mut suffix = Word::new(alloc);
    suffix.extend(&letters[place + 1..])?;
    Ok(Cut {
        state,
        letter,
        suffix,
        target,
    })
}

/// Where the model has to be split, by a known word to which it answers otherwise (binary search of Rivest and Schapire
/// 1993). Each batch has one word, and a word of n letters takes at most log n batches, to the base 2 and rounded up.
///
/// # Errors
/// What the oracle stopped by, or `NoMemory` of this call's own, after which the oracle may be asked again.
pub fn split<O: Oracle>(
    oracle: &mut O,
    alloc: Global,
    model: &Mealy,
    access: &Words,
    word: &Word,
) -> Result<Cut, AskStop>
    requires can { O.can_settle oracle.old }
    requires may { MayAsk (O.state oracle.old).stop }
    requires inputs { model.now.inputs ≡ (O.state oracle.old).inputs }
    requires access { AreAccess model.now.inputs model.now.rows access.now }
    requires steps { StepsAreRead (answers_of (O.state oracle.old).kept) model.now.inputs
        model.now.rows access.now }
    requires differs { Differs model.now.rows (answers_of (O.state oracle.old).kept) word.now }
    ensures cut { IfOk result (IsCut (answers_of (O.state oracle.new).kept) model.now.inputs
        model.now.rows access.now) }
    ensures within { IfOk result (λ cut. CutsWord model.now.rows word.now cut) }
    ensures plainly { IfOk result (λ cut. SplitsPlainly model.now.rows access.now word.now
        cut.suffix (O.state oracle.old) (O.state oracle.new)) }
    ensures asks { AsksProbes model.now.rows access.now word.now (O.state oracle.old).kept
        (O.state oracle.new).kept }
    ensures leaves { Leaves (O.state oracle.old) (O.state oracle.new) (asked_stop result) }
    ensures can { O.can_settle oracle.new }
{
    let _ = model.inputs();
    let _ = oracle.cache();
    let place = breakpoint(oracle, alloc, model, access, word)?;
    Ok(cut_at(alloc, model, word, place)?)
}

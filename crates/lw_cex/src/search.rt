//! The binary search for the place at which a counterexample is cut.
ghost use Rattle.std.specs.Prelude.{◌≡◌, ◌<◌, [], ◌∷◌, ◌+◌, length, IfOk, OnOk};
ghost use Rattle.std.specs.List.{All};
ghost use Rattle.lw_words.specs.Word.{answer_of, answers_of, IsAnswer, IsWord};
ghost use Rattle.lw_cache.specs.Cut.{AreAccess};
ghost use Rattle.lw_cache.specs.Known.{IsKnown};
ghost use Rattle.lw_cache.specs.Settling.{Keeps, GainsAnswers, MayAsk, Leaves, asked_stop};
ghost use Rattle.lw_plain.specs.Table.{probe, probe_batch};
ghost use Rattle.lw_plain.specs.Turns.{AsksBatch};
ghost use Rattle.lw_cex.specs.Probe.{AsksProbes};
ghost use Rattle.lw_cex.specs.bodies.Search.{Tells, IsBetween, FindsPlainly};

use crate::probe::probe_at;
use lw_cache::{AskStop, Cache, Oracle};
use lw_mealy::Mealy;
use lw_words::{NoMemory, Word, Words};
use std::alloc::Global;

/// The batch of one word.
fn batch_of(alloc: Global, word: Word) -> Result<Words, NoMemory>
    ensures { IfOk result (λ words. words ≡ word ∷ []) }
{
    let mut words = Words::new(alloc);
    words.push(word)?;
    Ok(words)
}

/// Whether the model's answer to a known word is what is read.
pub fn is_as_read(cache: &Cache, model: &Mealy, word: &Word) -> Result<bool, NoMemory>
    requires answers { All (λ k. IsAnswer model.now.inputs (answer_of k)) cache.now.kept }
    requires known { IsKnown (answers_of cache.now.kept) word.now }
    requires letters { IsWord model.now.inputs word.now }
    ensures { IfOk result (Tells model.now.rows (answers_of cache.now.kept) word.now) }
{
    let found = cache.read(word)?;
    let Some(outs) = found else { unreachable!() };
    Ok(model.agrees(word, &outs).is_none())
}

#[tactic(auto, using(lw_cache::proofs::SettlingLemmas::leaves_nothing, lw_cache::proofs::SettlingLemmas::leaves_own, lw_cache::proofs::SettlingLemmas::leaves_settled))]
/// Settles a word, and tells whether the model's answer to it is what is read then.
fn is_as_settled<O: Oracle>(
    oracle: &mut O,
    alloc: Global,
    model: &Mealy,
    word: Word,
) -> Result<bool, AskStop>
    requires can { O.can_settle oracle.old }
    requires may { MayAsk (O.state oracle.old).stop }
    requires keeps { Keeps (O.state oracle.old) }
    requires inputs { model.now.inputs ≡ (O.state oracle.old).inputs }
    requires letters { IsWord model.now.inputs word }
    ensures tells { IfOk result (Tells model.now.rows (answers_of (O.state oracle.new).kept) word) }
    ensures gains { GainsAnswers (word ∷ []) (O.state oracle.old).kept (O.state oracle.new).kept }
    ensures plainly { OnOk result (AsksBatch (word ∷ []) (O.state oracle.old)
        (O.state oracle.new)) }
    ensures leaves { Leaves (O.state oracle.old) (O.state oracle.new) (asked_stop result) }
    ensures can { O.can_settle oracle.new }
{
    let batch = batch_of(alloc, word)?;
    oracle.settle(batch.as_slice())?;
    Ok(is_as_read(oracle.cache(), model, batch.get(0))?)
}

#[tactic(auto, using(lw_cache::proofs::SettlingLemmas::leaves_nothing, lw_cache::proofs::SettlingLemmas::leaves_own))]
/// Settles the probe at a place, and tells whether the model's answer to it is what is read then.
fn agrees_at<O: Oracle>(
    oracle: &mut O,
    alloc: Global,
    model: &Mealy,
    access: &Words,
    word: &Word,
    place: usize,
) -> Result<bool, AskStop>
    requires can { O.can_settle oracle.old }
    requires may { MayAsk (O.state oracle.old).stop }
    requires keeps { Keeps (O.state oracle.old) }
    requires inputs { model.now.inputs ≡ (O.state oracle.old).inputs }
    requires access { AreAccess model.now.inputs model.now.rows access.now }
    requires letters { IsWord model.now.inputs word.now }
    requires inside { (0 < place) × (place < length word.now) }
    ensures tells { IfOk result (Tells model.now.rows (answers_of (O.state oracle.new).kept)
        (probe model.now.rows access.now word.now place)) }
    ensures plainly { OnOk result (AsksBatch (probe_batch model.now.rows access.now word.now place)
        (O.state oracle.old) (O.state oracle.new)) }
    ensures asks { AsksProbes model.now.rows access.now word.now (O.state oracle.old).kept
        (O.state oracle.new).kept }
    ensures leaves { Leaves (O.state oracle.old) (O.state oracle.new) (asked_stop result) }
    ensures can { O.can_settle oracle.new }
{
    let asked = probe_at(model, access, word, place)?;
    is_as_settled(oracle, alloc, model, asked)
}

/// A place such that the model differs on the probe there, and agrees on the one at the next place.
pub fn breakpoint<O: Oracle>(
    oracle: &mut O,
    alloc: Global,
    model: &Mealy,
    access: &Words,
    word: &Word,
) -> Result<usize, AskStop>
    requires can { O.can_settle oracle.old }
    requires may { MayAsk (O.state oracle.old).stop }
    requires keeps { Keeps (O.state oracle.old) }
    requires inputs { model.now.inputs ≡ (O.state oracle.old).inputs }
    requires access { AreAccess model.now.inputs model.now.rows access.now }
    requires letters { IsWord model.now.inputs word.now }
    requires between { IsBetween model.now.rows (answers_of (O.state oracle.old).kept) access.now
        word.now 0 (length word.now) }
    ensures between { IfOk result (λ place. IsBetween model.now.rows
        (answers_of (O.state oracle.new).kept) access.now word.now place (place + 1)) }
    ensures plainly { IfOk result (λ place. FindsPlainly model.now.rows access.now word.now place
        (O.state oracle.old) (O.state oracle.new)) }
    ensures asks { AsksProbes model.now.rows access.now word.now (O.state oracle.old).kept
        (O.state oracle.new).kept }
    ensures leaves { Leaves (O.state oracle.old) (O.state oracle.new) (asked_stop result) }
    ensures can { O.can_settle oracle.new }
{
    let mut low = 0;
    let mut high = word.len();
    while high - low > 1 {
        let middle = low + (high - low) / 2;
        if agrees_at(oracle, alloc, model, access, word, middle)? {
            high = middle;
        } else {
            low = middle;
        }
    }
    Ok(low)
}

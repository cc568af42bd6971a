//! The words of a suite, or walks, are settled until the hypothesis differs on one.
ghost use Rattle.std.specs.Prelude.{◌≡◌, ◌<◌, ◌^◌, length, IfOk, OnOk};
ghost use Rattle.std.specs.List.{All};
ghost use Rattle.lw_words.specs.Word.{answers_of, IsWord};
ghost use Rattle.lw_mealy.specs.Machine.{Gives};
ghost use Rattle.lw_cache.specs.Clash.{NothingClashes};
ghost use Rattle.lw_cache.specs.Settling.{Keeps, MayAsk, Leaves, asked_stop};
ghost use Rattle.lw_plain.specs.Turns.{AsksBatch};
ghost use Rattle.lw_rounds.specs.bodies.Conformance.{FindsFirst, Comes};
ghost use Rattle.lw_rounds.specs.bodies.Plain.{TestsPlainly};

use crate::difference::{first_difference, gives_from};
use crate::watcher::Account;
use crate::{Phase, Watcher};
use lw_cache::{AskStop, Oracle};
use lw_chunks::Chunks;
use lw_mealy::Mealy;
use lw_words::Word;
use std::alloc::Global;

#[tactic(auto, using(lw_cache::proofs::SettlingLemmas::leaves_settled))]
/// Settles some words, and tells the shortest prefix of the first of them on which the hypothesis differs.
fn settle_words<O: Oracle>(
    oracle: &mut O,
    hypothesis: &Mealy,
    words: &[Word],
) -> Result<Option<Word>, AskStop>
    requires can { O.can_settle oracle.old }
    requires may { MayAsk (O.state oracle.old).stop }
    requires keeps { Keeps (O.state oracle.old) }
    requires nothing { NothingClashes (answers_of (O.state oracle.old).kept) }
    requires inputs { hypothesis.now.inputs ≡ (O.state oracle.old).inputs }
    requires letters { All (IsWord hypothesis.now.inputs) words.now }
    requires few { length words.now < 2 ^ 32 }
    requires gives { Gives hypothesis.now.rows (answers_of (O.state oracle.old).kept) }
    ensures comes { IfOk result (Comes hypothesis.now.rows (answers_of (O.state oracle.new).kept)
        words.now) }
    ensures first { IfOk result (FindsFirst hypothesis.now.rows
        (answers_of (O.state oracle.new).kept) words.now) }
    ensures plainly { OnOk result (AsksBatch words.now (O.state oracle.old)
        (O.state oracle.new)) }
    ensures leaves { Leaves (O.state oracle.old) (O.state oracle.new) (asked_stop result) }
    ensures can { O.can_settle oracle.new }
{
    let before = oracle.cache().kept().len();
    oracle.settle(words)?;
    let cache = oracle.cache();
    if gives_from(cache.kept(), before, hypothesis) {
        return Ok(None);
    }
    Ok(first_difference(cache, hypothesis, words)?)
}

/// Settles what is left of a suite or of walks, chunk by chunk, until the hypothesis differs.
fn settle_chunks<O: Oracle, S: Chunks, W: Watcher>(
    oracle: &mut O,
    hypothesis: &Mealy,
    suite: &mut S,
    chunk: &mut Vec<Word>,
    phase: Phase,
    account: &mut Account<'_, W>,
) -> Result<Option<Word>, AskStop>
    requires can { O.can_settle oracle.old }
    requires may { MayAsk (O.state oracle.old).stop }
    requires keeps { Keeps (O.state oracle.old) }
    requires nothing { NothingClashes (answers_of (O.state oracle.old).kept) }
    requires inputs { hypothesis.now.inputs ≡ (O.state oracle.old).inputs }
    requires letters { All (IsWord hypothesis.now.inputs) (S.left suite.old) }
    requires gives { Gives hypothesis.now.rows (answers_of (O.state oracle.old).kept) }
    ensures comes { IfOk result (Comes hypothesis.now.rows (answers_of (O.state oracle.new).kept)
        (S.left suite.old)) }
    ensures plainly { IfOk result (λ found. TestsPlainly hypothesis.now.rows (S.left suite.old)
        found (O.state oracle.old) (O.state oracle.new)) }
    ensures leaves { Leaves (O.state oracle.old) (O.state oracle.new) (asked_stop result) }
    ensures can { O.can_settle oracle.new }
{
    while suite.next_chunk(chunk)? {
        let found = settle_words(oracle, hypothesis, chunk.as_slice())?;
        account.tell_tests(phase, chunk.len(), oracle);
        if let Some(word) = found {
            return Ok(Some(word));
        }
    }
    Ok(None)
}

/// Settles a suite or walks, chunk by chunk, until the hypothesis differs.
pub fn settle_suite<O: Oracle, S: Chunks, W: Watcher>(
    oracle: &mut O,
    alloc: Global,
    hypothesis: &Mealy,
    suite: &mut S,
    phase: Phase,
    account: &mut Account<'_, W>,
) -> Result<Option<Word>, AskStop>
    requires can { O.can_settle oracle.old }
    requires may { MayAsk (O.state oracle.old).stop }
    requires keeps { Keeps (O.state oracle.old) }
    requires nothing { NothingClashes (answers_of (O.state oracle.old).kept) }
    requires inputs { hypothesis.now.inputs ≡ (O.state oracle.old).inputs }
    requires letters { All (IsWord hypothesis.now.inputs) (S.left suite.old) }
    requires gives { Gives hypothesis.now.rows (answers_of (O.state oracle.old).kept) }
    ensures comes { IfOk result (Comes hypothesis.now.rows (answers_of (O.state oracle.new).kept)
        (S.left suite.old)) }
    ensures plainly { IfOk result (λ found. TestsPlainly hypothesis.now.rows (S.left suite.old)
        found (O.state oracle.old) (O.state oracle.new)) }
    ensures leaves { Leaves (O.state oracle.old) (O.state oracle.new) (asked_stop result) }
    ensures can { O.can_settle oracle.new }
{
    let mut chunk = Vec::new(alloc);
    settle_chunks(oracle, hypothesis, suite, &mut chunk, phase, account)
}

//! Words that are asked before a learning.
ghost use Rattle.std.specs.Prelude.{◌≡◌, ◌<◌, ◌≤◌, ◌^◌, IfOk, IfErr, OnOk, length};
ghost use Rattle.std.specs.List.{All};
ghost use Rattle.lw_words.specs.Word.{answers_of, IsWord};
ghost use Rattle.lw_cache.specs.Clash.{NothingClashes};
ghost use Rattle.lw_cache.specs.Settling.{MayAsk, Leaves, asked_stop};
ghost use Rattle.lw_rounds.specs.Learned.{IsEnoughFor, IsLearned, StopsAs};
ghost use Rattle.lw_rounds.specs.Learner.{refinements_of};
ghost use Rattle.lw_rounds.specs.Stops.{learn_stop};
ghost use Rattle.lw_workers.specs.Asking.{AnswersWords};
ghost use Rattle.lw_workers.specs.bodies.Plain.{AsksGiven, LearnsGiven};

use lw_cache::{AskStop, Oracle};
use lw_rounds::{LearnStop, Learned, Phase, Settings, Step, Watcher, learn, tell_step};
use lw_words::Word;
use std::alloc::Global;

/// Tells of words that were settled, before which the oracle kept this many answers.
fn tell_words<O: Oracle, W: Watcher>(watcher: &mut W, before: usize, oracle: &O) {
    let kept = oracle.cache().kept();
    let known = kept.len();
    let step = Step {
        round: 0,
        phase: Phase::Words,
        states: 0,
        asked: known.saturating_sub(before),
        known,
        refinements: 0,
    };
    tell_step(watcher, step, kept, None);
}

#[tactic(auto, using(lw_cache::proofs::SettlingLemmas::leaves_nothing, lw_cache::proofs::SettlingLemmas::leaves_settled))]
/// Settles words in one batch, where there are any.
fn settle_named<O: Oracle, W: Watcher>(
    oracle: &mut O,
    words: &[Word],
    watcher: &mut W,
) -> Result<(), AskStop>
    requires can { O.can_settle oracle.old }
    requires may { MayAsk (O.state oracle.old).stop }
    requires letters { All (IsWord (O.state oracle.old).inputs) words.now }
    requires few { length words.now < 2 ^ 32 }
    ensures asked { OnOk result (AnswersWords words.now (O.state oracle.new).kept) }
    ensures plainly { OnOk result (AsksGiven words.now (O.state oracle.old) (O.state oracle.new)) }
    ensures leaves { Leaves (O.state oracle.old) (O.state oracle.new) (asked_stop result) }
    ensures can { O.can_settle oracle.new }
{
    let before = oracle.cache().kept().len();
    if words.is_empty() {
        return Ok(());
    }
    oracle.settle(words)?;
    tell_words(watcher, before, oracle);
    Ok(())
}

/// Settles words, and then learns a model.
pub fn learn_after<O: Oracle, W: Watcher>(
    oracle: &mut O,
    alloc: Global,
    words: &[Word],
    settings: Settings,
    watcher: &mut W,
) -> Result<Learned, LearnStop>
    requires can { O.can_settle oracle.old }
    requires may { MayAsk (O.state oracle.old).stop }
    requires nothing { NothingClashes (answers_of (O.state oracle.old).kept) }
    requires letters { (1 ≤ (O.state oracle.old).inputs) × ((O.state oracle.old).inputs ≤ 64) }
    requires signs { (1 ≤ (O.state oracle.old).outputs) × ((O.state oracle.old).outputs ≤ 4096) }
    requires named_letters { All (IsWord (O.state oracle.old).inputs) words.now }
    requires named_few { length words.now < 2 ^ 32 }
    ensures asked { OnOk result (AnswersWords words.now (O.state oracle.new).kept) }
    ensures learned { IfOk result (λ l. IsLearned settings.kind (O.state oracle.old).inputs
        (O.state oracle.old).outputs settings.extra settings.max_states
        (answers_of (O.state oracle.new).kept) l.model l.learner) }
    ensures enough { IfOk result (λ l. IsEnoughFor settings.testing (O.state oracle.old).inputs
        settings.extra (answers_of (O.state oracle.new).kept) l.model) }
    ensures plainly { IfOk result (λ l. LearnsGiven settings.kind settings.testing
        (O.state oracle.old).inputs settings.extra settings.max_states words.now l.model.rows
        (refinements_of l.learner) (O.state oracle.old) (O.state oracle.new)) }
    ensures stops { IfErr result (StopsAs (O.state oracle.old).inputs
        (O.state oracle.old).outputs settings.extra settings.max_states
        (answers_of (O.state oracle.new).kept)) }
    ensures leaves { Leaves (O.state oracle.old) (O.state oracle.new) (learn_stop result) }
    ensures can { O.can_settle oracle.new }
{
    settle_named(oracle, words, watcher)?;
    learn(oracle, alloc, settings, watcher)
}

//! The rounds: the machine of a learner is tested, and a difference refines the learner.
ghost use Rattle.std.specs.Prelude.{◌≡◌, IfOk, IfErr, OnOk, MatchOption};
ghost use Rattle.lw_words.specs.Word.{answers_of};
ghost use Rattle.lw_mealy.specs.Machine.{Gives};
ghost use Rattle.lw_cache.specs.Against.{Differs};
ghost use Rattle.lw_cache.specs.Settling.{Leaves, grown_stop};
ghost use Rattle.lw_rounds.specs.Learner.{inputs_of, outputs_of, most_of, HasNoTemporary, IsMachineOf};
ghost use Rattle.lw_rounds.specs.Stops.{learn_stop};
ghost use Rattle.lw_rounds.specs.bodies.Plain.{RefinesByWord, RoundsAsPlain, EndsAsPlain};
ghost use Rattle.lw_rounds.specs.bodies.Rounds.{IsReady, IsAlike, GoesOn, IsLearnedFrom, StopsFrom, StopsGrowth};

use crate::hypothesis::{Tested, test_by_suite};
use crate::watcher::Account;
use crate::{LearnStop, Learner, Phase, Settings, Watcher};
use lw_cache::{GrowStop, Oracle};
use lw_cex::split;
use lw_mealy::Mealy;
use lw_settle::Settled;
use lw_words::Word;
use std::alloc::Global;

/// Refines a learner by a known word on which its machine differs.
fn refine<O: Oracle, W: Watcher>(
    oracle: &mut O,
    alloc: Global,
    learner: &mut Learner,
    hypothesis: &Mealy,
    word: &Word,
    account: &mut Account<'_, W>,
) -> Result<(), GrowStop>
    requires can { O.can_settle oracle.old }
    requires ready { IsReady (O.state oracle.old) learner.old }
    requires machine { IsMachineOf learner.old hypothesis.now.rows }
    requires inputs { hypothesis.now.inputs ≡ inputs_of learner.old }
    requires differs { Differs hypothesis.now.rows (answers_of (O.state oracle.old).kept) word.now }
    ensures ready { OnOk result (IsReady (O.state oracle.new) learner.new) }
    ensures alike { IsAlike learner.old learner.new }
    ensures goes { OnOk result (GoesOn learner.old learner.new) }
    ensures plainly { OnOk result (RefinesByWord hypothesis.now.rows word.now learner.old
        learner.new (O.state oracle.old) (O.state oracle.new)) }
    ensures stops { IfErr result (StopsGrowth (most_of learner.old)
        (answers_of (O.state oracle.new).kept)) }
    ensures leaves { Leaves (O.state oracle.old) (O.state oracle.new) (grown_stop result) }
    ensures can { O.can_settle oracle.new }
{
    let cut = split(oracle, alloc, hypothesis, learner.access(), word)?;
    learner.refine(oracle, &cut)?;
    account.tell_learner(Phase::Analysis, learner, oracle);
    Ok(())
}

/// The end of a round: the machine of a learner agrees with what is known, no node of a tree is temporary, and it is tested
/// by its suite and its walks.
fn round_by_suite<O: Oracle, W: Watcher>(
    oracle: &mut O,
    alloc: Global,
    learner: &mut Learner,
    hypothesis: &Mealy,
    settings: Settings,
    account: &mut Account<'_, W>,
) -> Result<Option<Mealy>, LearnStop>
    requires can { O.can_settle oracle.old }
    requires ready { IsReady (O.state oracle.old) learner.old }
    requires machine { IsMachineOf learner.old hypothesis.now.rows }
    requires inputs { hypothesis.now.inputs ≡ inputs_of learner.old }
    requires outputs { hypothesis.now.outputs ≡ outputs_of learner.old }
    requires gives { Gives hypothesis.now.rows (answers_of (O.state oracle.old).kept) }
    requires settled { HasNoTemporary learner.old }
    ensures ready { OnOk result (IsReady (O.state oracle.new) learner.new) }
    ensures alike { IsAlike learner.old learner.new }
    ensures goes { IfOk result (λ found. MatchOption found (GoesOn learner.old learner.new)
        (λ model. IsLearnedFrom learner.old settings.testing settings.extra
        (answers_of (O.state oracle.new).kept) model learner.new)) }
    ensures plainly { IfOk result (λ found. RoundsAsPlain learner.old learner.new settings.testing
        settings.extra found (O.state oracle.old) (O.state oracle.new)) }
    ensures stops { IfErr result (StopsFrom learner.old settings.extra
        (answers_of (O.state oracle.new).kept)) }
    ensures leaves { Leaves (O.state oracle.old) (O.state oracle.new) (learn_stop result) }
    ensures can { O.can_settle oracle.new }
{
    // The hypothesis tells that it is a machine.
    let _ = hypothesis.inputs();
    match test_by_suite(oracle, alloc, learner, hypothesis, settings, account)? {
        Tested::Differs(word) => {
            refine(oracle, alloc, learner, hypothesis, &word, account)?;
            Ok(None)
        }
        Tested::Sure(model) => Ok(Some(model)),
    }
}

#[tactic(auto, using(lw_cache::proofs::SettlingLemmas::leaves_nothing, crate::proofs::StopLemmas::leaves_learn_own))]
/// The rest of a round, with the machine of the learner.
fn round_with<O: Oracle, W: Watcher>(
    oracle: &mut O,
    alloc: Global,
    learner: &mut Learner,
    hypothesis: &Mealy,
    settings: Settings,
    account: &mut Account<'_, W>,
) -> Result<Option<Mealy>, LearnStop>
    requires can { O.can_settle oracle.old }
    requires ready { IsReady (O.state oracle.old) learner.old }
    requires machine { IsMachineOf learner.old hypothesis.now.rows }
    requires inputs { hypothesis.now.inputs ≡ inputs_of learner.old }
    requires outputs { hypothesis.now.outputs ≡ outputs_of learner.old }
    ensures ready { OnOk result (IsReady (O.state oracle.new) learner.new) }
    ensures alike { IsAlike learner.old learner.new }
    ensures goes { IfOk result (λ found. MatchOption found (GoesOn learner.old learner.new)
        (λ model. IsLearnedFrom learner.old settings.testing settings.extra
        (answers_of (O.state oracle.new).kept) model learner.new)) }
    ensures plainly { IfOk result (λ found. RoundsAsPlain learner.old learner.new settings.testing
        settings.extra found (O.state oracle.old) (O.state oracle.new)) }
    ensures stops { IfErr result (StopsFrom learner.old settings.extra
        (answers_of (O.state oracle.new).kept)) }
    ensures leaves { Leaves (O.state oracle.old) (O.state oracle.new) (learn_stop result) }
    ensures can { O.can_settle oracle.new }
{
    if let Some(word) = oracle.cache().against(hypothesis)? {
        refine(oracle, alloc, learner, hypothesis, &word, account)?;
        return Ok(None);
    }
    match learner.settle(oracle, alloc)? {
        Settled::Replaced => {
            account.tell_learner(Phase::Settling, learner, oracle);
            Ok(None)
        }
        Settled::NoBlock => round_by_suite(oracle, alloc, learner, hypothesis, settings, account),
    }
}

#[tactic(auto, using(lw_cache::proofs::SettlingLemmas::leaves_nothing, crate::proofs::StopLemmas::leaves_learn_own))]
/// One round: None where the learner was refined or settled, else the model.
fn round<O: Oracle, W: Watcher>(
    oracle: &mut O,
    alloc: Global,
    learner: &mut Learner,
    settings: Settings,
    account: &mut Account<'_, W>,
) -> Result<Option<Mealy>, LearnStop>
    requires can { O.can_settle oracle.old }
    requires ready { IsReady (O.state oracle.old) learner.old }
    ensures ready { OnOk result (IsReady (O.state oracle.new) learner.new) }
    ensures alike { IsAlike learner.old learner.new }
    ensures goes { IfOk result (λ found. MatchOption found (GoesOn learner.old learner.new)
        (λ model. IsLearnedFrom learner.old settings.testing settings.extra
        (answers_of (O.state oracle.new).kept) model learner.new)) }
    ensures plainly { IfOk result (λ found. RoundsAsPlain learner.old learner.new settings.testing
        settings.extra found (O.state oracle.old) (O.state oracle.new)) }
    ensures stops { IfErr result (StopsFrom learner.old settings.extra
        (answers_of (O.state oracle.new).kept)) }
    ensures leaves { Leaves (O.state oracle.old) (O.state oracle.new) (learn_stop result) }
    ensures can { O.can_settle oracle.new }
{
    let hypothesis = learner.machine()?;
    account.begin_round(&hypothesis);
    round_with(oracle, alloc, learner, &hypothesis, settings, account)
}

#[tactic(auto, using(crate::proofs::RoundLemmas::alike_then, crate::proofs::RoundLemmas::learned_alike, crate::proofs::RoundLemmas::stops_alike))]
/// Rounds until a model is sure. Each one but the last adds a state or a final node, and there are no more of either than there may
/// be states.
pub fn rounds<O: Oracle, W: Watcher>(
    oracle: &mut O,
    alloc: Global,
    learner: &mut Learner,
    settings: Settings,
    account: &mut Account<'_, W>,
) -> Result<Mealy, LearnStop>
    requires can { O.can_settle oracle.old }
    requires ready { IsReady (O.state oracle.old) learner.old }
    ensures learned { IfOk result (λ model. IsLearnedFrom learner.old settings.testing
        settings.extra (answers_of (O.state oracle.new).kept) model learner.new) }
    ensures plainly { IfOk result (λ model. EndsAsPlain learner.old learner.new settings.testing
        settings.extra model.rows (O.state oracle.old) (O.state oracle.new)) }
    ensures stops { IfErr result (StopsFrom learner.old settings.extra
        (answers_of (O.state oracle.new).kept)) }
    ensures leaves { Leaves (O.state oracle.old) (O.state oracle.new) (learn_stop result) }
    ensures can { O.can_settle oracle.new }
{
    loop {
        if let Some(model) = round(oracle, alloc, learner, settings, account)? {
            return Ok(model);
        }
    }
}

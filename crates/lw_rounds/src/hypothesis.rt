//! The test of a hypothesis by the words of its suite, then by its walks, then by the certificate.
ghost use Rattle.std.specs.Prelude.{◌≡◌, ℕ, ◌<◌, ◌≤◌, length, None, Ok, Err, IfOk, IfErr, OnOk};
ghost use Rattle.std.specs.List.{All};
ghost use Rattle.lw_words.specs.Word.{answers_of, IsWord};
ghost use Rattle.lw_mealy.specs.Machine.{Gives, IsMinimal};
ghost use Rattle.lw_cache.specs.Clash.{NothingClashes};
ghost use Rattle.lw_cache.specs.Settling.{Keeps, MayAsk, Leaves, asked_stop};
ghost use Rattle.lw_separate.specs.Canonical.{IsCanonical};
ghost use Rattle.lw_chunks.specs.Size.{suite_size, greatest_suite};
ghost use Rattle.lw_certify.specs.Verdict.{IsSuiteBy};
ghost use Rattle.lw_chunks.specs.declared.size.SuiteFault.{SuiteFault as Fault};
ghost use Rattle.lw_rounds.specs.Learned.{IsCertified, IsEnoughFor};
ghost use Rattle.lw_rounds.specs.Learner.{IsRead, HasNoTemporary, IsMachineOf};
ghost use Rattle.lw_rounds.specs.Stops.{learn_stop};
ghost use Rattle.lw_rounds.specs.bodies.Conformance.{ComesWalked, HasPassed};
ghost use Rattle.lw_rounds.specs.bodies.Plain.{TellsPlainly, TellsBySuite, TellsByForm};
ghost use Rattle.lw_rounds.specs.bodies.Rounds.{HasCrowd, IsTested, StopsTest, of_fault};
ghost use Rattle.lw_rounds.specs.declared.hypothesis.Tested.{Tested as Stands};

use crate::conformance::settle_suite;
use crate::watcher::Account;
use crate::{LearnStop, Learner, Phase, Settings, Watcher};
use lw_cache::{AskStop, Cache, Oracle};
use lw_certify::{Verdict, certify};
use lw_chunks::{Chunks, Method, SuiteFault, suite_size};
use lw_draw::{Drawn, Walks};
use lw_mealy::Mealy;
use lw_separate::canonical;
use lw_suite::Suite;
use lw_words::{NoMemory, Word};
use lw_wp::{HSuite, WpSuite};
use std::alloc::Global;

/// The result of a test.
#[derive(Drop)]
pub enum Tested {
    /// The hypothesis differs on this word, which is known.
    Differs(Word),
    /// The hypothesis in canonical form, which is certified.
    Sure(Mealy),
}

/// A model that the recorded answers suffice for, once `certify` has said so.
fn certified(
    alloc: Global,
    model: Mealy,
    cache: &Cache,
    settings: Settings,
) -> Result<Mealy, NoMemory>
    requires letters { All (λ k. IsWord model.inputs k.word) (answers_of cache.now.kept) }
    requires canonical { IsCanonical model.inputs model.rows model.rows }
    requires enough { IsEnoughFor settings.testing model.inputs settings.extra
        (answers_of cache.now.kept) model }
    ensures value { IfOk result (λ m. m ≡ model) }
    ensures enough { IfOk result (IsEnoughFor settings.testing model.inputs settings.extra
        (answers_of cache.now.kept)) }
    ensures certified { IfOk result (IsCertified model.inputs model.outputs settings.extra
        (answers_of cache.now.kept)) }
{
    // The model tells that it is within the limits.
    let _ = model.inputs();
    let verdict = certify(alloc, &model, cache, settings.extra, settings.testing.suite)?;
    match verdict {
        Verdict::Sure => Ok(model),
        _ => unreachable!(),
    }
}

/// Settles the walks of a model, where some are drawn, until the hypothesis differs.
fn settle_walks<O: Oracle, W: Watcher>(
    oracle: &mut O,
    alloc: Global,
    hypothesis: &Mealy,
    model: &Mealy,
    walks: Option<Drawn>,
    account: &mut Account<'_, W>,
) -> Result<Option<Word>, AskStop>
    requires can { O.can_settle oracle.old }
    requires may { MayAsk (O.state oracle.old).stop }
    requires keeps { Keeps (O.state oracle.old) }
    requires nothing { NothingClashes (answers_of (O.state oracle.old).kept) }
    requires inputs { hypothesis.now.inputs ≡ (O.state oracle.old).inputs }
    requires gives { Gives hypothesis.now.rows (answers_of (O.state oracle.old).kept) }
    requires same { model.now.inputs ≡ hypothesis.now.inputs }
    requires minimal { IsMinimal model.now.inputs model.now.rows }
    ensures comes { IfOk result (ComesWalked hypothesis.now.rows model.now.inputs model.now.rows
        walks (answers_of (O.state oracle.new).kept)) }
    ensures none { walks ≡ None → (result ≡ Ok None) × (O.state oracle.new ≡ O.state oracle.old) }
    ensures leaves { Leaves (O.state oracle.old) (O.state oracle.new) (asked_stop result) }
    ensures can { O.can_settle oracle.new }
{
    // The model tells that it has letters.
    let _ = model.inputs();
    let Some(drawn) = walks else {
        return Ok(None);
    };
    account.begin_tests(u64::from(drawn.count));
    let mut walks = Walks::new(alloc, model, drawn)?;
    settle_suite(oracle, alloc, hypothesis, &mut walks, Phase::Walks, account)
}

/// Walks behind a suite that the hypothesis has passed, and certifies its model.
fn walk_and_certify<O: Oracle, W: Watcher>(
    oracle: &mut O,
    alloc: Global,
    hypothesis: &Mealy,
    model: Mealy,
    settings: Settings,
    account: &mut Account<'_, W>,
) -> Result<Tested, LearnStop>
    requires can { O.can_settle oracle.old }
    requires may { MayAsk (O.state oracle.old).stop }
    requires keeps { Keeps (O.state oracle.old) }
    requires nothing { NothingClashes (answers_of (O.state oracle.old).kept) }
    requires inputs { hypothesis.now.inputs ≡ (O.state oracle.old).inputs }
    requires alphabets { (model.inputs ≡ hypothesis.now.inputs) ×
        (model.outputs ≡ hypothesis.now.outputs) }
    requires canonical { IsCanonical hypothesis.now.inputs hypothesis.now.rows model.rows }
    requires passed { HasPassed hypothesis.now.rows settings.testing.suite model settings.extra
        (answers_of (O.state oracle.old).kept) }
    requires size { suite_size (length model.rows) model.inputs settings.extra ≤
        greatest_suite }
    ensures tested { IfOk result (IsTested hypothesis.now settings.testing settings.extra
        (answers_of (O.state oracle.new).kept)) }
    ensures none { settings.testing.walks ≡ None → IfOk result (λ told.
        (told ≡ Stands.Sure model) × (O.state oracle.new ≡ O.state oracle.old)) }
    ensures stops { IfErr result (StopsTest hypothesis.now.inputs hypothesis.now.outputs
        settings.extra (length hypothesis.now.rows) (answers_of (O.state oracle.new).kept)) }
    ensures leaves { Leaves (O.state oracle.old) (O.state oracle.new) (learn_stop result) }
    ensures can { O.can_settle oracle.new }
{
    let found = settle_walks(
        oracle,
        alloc,
        hypothesis,
        &model,
        settings.testing.walks,
        account,
    )?;
    match found {
        Some(word) => Ok(Tested::Differs(word)),
        None => Ok(Tested::Sure(certified(alloc, model, oracle.cache(), settings)?)),
    }
}

/// Settles the suite of a model, which is the canonical form of the hypothesis, and walks behind it.
fn settle_and_certify<O: Oracle, S: Chunks, W: Watcher>(
    oracle: &mut O,
    alloc: Global,
    hypothesis: &Mealy,
    model: Mealy,
    suite: &mut S,
    settings: Settings,
    account: &mut Account<'_, W>,
) -> Result<Tested, LearnStop>
    requires can { O.can_settle oracle.old }
    requires may { MayAsk (O.state oracle.old).stop }
    requires keeps { Keeps (O.state oracle.old) }
    requires nothing { NothingClashes (answers_of (O.state oracle.old).kept) }
    requires inputs { hypothesis.now.inputs ≡ (O.state oracle.old).inputs }
    requires gives { Gives hypothesis.now.rows (answers_of (O.state oracle.old).kept) }
    requires alphabets { (model.inputs ≡ hypothesis.now.inputs) ×
        (model.outputs ≡ hypothesis.now.outputs) }
    requires canonical { IsCanonical hypothesis.now.inputs hypothesis.now.rows model.rows }
    requires suite { IsSuiteBy settings.testing.suite model.inputs model.rows settings.extra
        (S.left suite.old) }
    requires size { suite_size (length model.rows) model.inputs settings.extra ≤
        greatest_suite }
    ensures tested { IfOk result (IsTested hypothesis.now settings.testing settings.extra
        (answers_of (O.state oracle.new).kept)) }
    ensures plainly { settings.testing.walks ≡ None → IfOk result (λ told.
        TellsPlainly hypothesis.now.rows (S.left suite.old) model told (O.state oracle.old)
        (O.state oracle.new)) }
    ensures stops { IfErr result (StopsTest hypothesis.now.inputs hypothesis.now.outputs
        settings.extra (length hypothesis.now.rows) (answers_of (O.state oracle.new).kept)) }
    ensures leaves { Leaves (O.state oracle.old) (O.state oracle.new) (learn_stop result) }
    ensures can { O.can_settle oracle.new }
{
    let size = suite_size(model.states(), model.inputs(), settings.extra);
    account.begin_tests(size);
    let found = settle_suite(oracle, alloc, hypothesis, suite, Phase::Suite, account)?;
    match found {
        Some(word) => Ok(Tested::Differs(word)),
        None => walk_and_certify(oracle, alloc, hypothesis, model, settings, account),
    }
}

/// The result of a model without a suite.
fn without_suite(model: Mealy, fault: SuiteFault) -> LearnStop
    ensures { result ≡ of_fault model fault }
{
    match fault {
        SuiteFault::TooLarge(number) => LearnStop::TooLarge { model, number },
        SuiteFault::NoMemory => LearnStop::Ask(AskStop::NoMemory),
    }
}

#[tactic(auto, using(lw_cache::proofs::SettlingLemmas::leaves_nothing, crate::proofs::StopLemmas::leaves_learn_own))]
/// Settles the suite of a model, where it has one that isn't too large, as `settle_and_certify` does.
fn test_with<O: Oracle, S: Chunks + Drop, W: Watcher>(
    oracle: &mut O,
    alloc: Global,
    hypothesis: &Mealy,
    model: Mealy,
    made: Result<S, SuiteFault>,
    settings: Settings,
    account: &mut Account<'_, W>,
) -> Result<Tested, LearnStop>
    requires can { O.can_settle oracle.old }
    requires may { MayAsk (O.state oracle.old).stop }
    requires keeps { Keeps (O.state oracle.old) }
    requires nothing { NothingClashes (answers_of (O.state oracle.old).kept) }
    requires inputs { hypothesis.now.inputs ≡ (O.state oracle.old).inputs }
    requires gives { Gives hypothesis.now.rows (answers_of (O.state oracle.old).kept) }
    requires crowd { HasCrowd (answers_of (O.state oracle.old).kept)
        (length hypothesis.now.rows) }
    requires alphabets { (model.inputs ≡ hypothesis.now.inputs) ×
        (model.outputs ≡ hypothesis.now.outputs) }
    requires canonical { IsCanonical hypothesis.now.inputs hypothesis.now.rows model.rows }
    requires suite { IfOk made (λ suite. IsSuiteBy settings.testing.suite model.inputs model.rows
        settings.extra (S.left suite)) }
    requires size { OnOk made (suite_size (length model.rows) model.inputs settings.extra ≤
        greatest_suite) }
    requires large { (size : ℕ) → made ≡ Err (Fault.TooLarge size) →
        (size ≡ suite_size (length model.rows) model.inputs settings.extra) ×
        (greatest_suite < size) }
    ensures tested { IfOk result (IsTested hypothesis.now settings.testing settings.extra
        (answers_of (O.state oracle.new).kept)) }
    ensures plainly { IfOk result (λ told. TellsBySuite hypothesis.now.rows settings.testing
        settings.extra model told (O.state oracle.old) (O.state oracle.new)) }
    ensures stops { IfErr result (StopsTest hypothesis.now.inputs hypothesis.now.outputs
        settings.extra (length hypothesis.now.rows) (answers_of (O.state oracle.new).kept)) }
    ensures leaves { Leaves (O.state oracle.old) (O.state oracle.new) (learn_stop result) }
    ensures can { O.can_settle oracle.new }
{
    // The hypothesis and the model tell that they are machines.
    let _ = hypothesis.inputs();
    let _ = model.states();
    match made {
        Ok(mut suite) => settle_and_certify(
            oracle, alloc, hypothesis, model, &mut suite, settings, account,
        ),
        Err(fault) => Err(without_suite(model, fault)),
    }
}

#[tactic(auto, using(lw_cache::proofs::SettlingLemmas::leaves_nothing, crate::proofs::StopLemmas::leaves_learn_own))]
/// Tests the machine of a learner, which agrees with the recorded answers, by the suite and the walks of its canonical form. No node
/// of a tree is temporary then.
pub fn test_by_suite<O: Oracle, W: Watcher>(
    oracle: &mut O,
    alloc: Global,
    learner: &Learner,
    hypothesis: &Mealy,
    settings: Settings,
    account: &mut Account<'_, W>,
) -> Result<Tested, LearnStop>
    requires can { O.can_settle oracle.old }
    requires may { MayAsk (O.state oracle.old).stop }
    requires keeps { Keeps (O.state oracle.old) }
    requires nothing { NothingClashes (answers_of (O.state oracle.old).kept) }
    requires inputs { hypothesis.now.inputs ≡ (O.state oracle.old).inputs }
    requires gives { Gives hypothesis.now.rows (answers_of (O.state oracle.old).kept) }
    requires machine { IsMachineOf learner.now hypothesis.now.rows }
    requires read { IsRead (answers_of (O.state oracle.old).kept) learner.now }
    requires settled { HasNoTemporary learner.now }
    ensures tested { IfOk result (IsTested hypothesis.now settings.testing settings.extra
        (answers_of (O.state oracle.new).kept)) }
    ensures plainly { IfOk result (λ told. TellsByForm hypothesis.now settings.testing
        settings.extra told (O.state oracle.old) (O.state oracle.new)) }
    ensures stops { IfErr result (StopsTest hypothesis.now.inputs hypothesis.now.outputs
        settings.extra (length hypothesis.now.rows) (answers_of (O.state oracle.new).kept)) }
    ensures leaves { Leaves (O.state oracle.old) (O.state oracle.new) (learn_stop result) }
    ensures can { O.can_settle oracle.new }
{
    // The learner tells that it is one, and the hypothesis that it is a machine.
    let _ = learner.access();
    let _ = hypothesis.inputs();
    let model = canonical(alloc, hypothesis)?;
    match settings.testing.suite {
        Method::W => {
            let made = Suite::new(alloc, &model, settings.extra);
            test_with(oracle, alloc, hypothesis, model, made, settings, account)
        }
        Method::Wp => {
            let made = WpSuite::new(alloc, &model, settings.extra);
            test_with(oracle, alloc, hypothesis, model, made, settings, account)
        }
        Method::H => {
            let made = HSuite::new(alloc, &model, settings.extra);
            test_with(oracle, alloc, hypothesis, model, made, settings, account)
        }
    }
}

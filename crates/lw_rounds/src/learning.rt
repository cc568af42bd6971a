//! The learning of a model over an oracle.
ghost use Rattle.std.specs.Prelude.{◌≡◌, ◌≤◌, IfOk, IfErr};
ghost use Rattle.lw_words.specs.Word.{answers_of};
ghost use Rattle.lw_cache.specs.Clash.{NothingClashes};
ghost use Rattle.lw_cache.specs.Settling.{MayAsk, Leaves};
ghost use Rattle.lw_rounds.specs.Learned.{IsEnoughFor, IsLearned, StopsAs};
ghost use Rattle.lw_rounds.specs.Learner.{inputs_of, outputs_of, refinements_of, IsRead};
ghost use Rattle.lw_rounds.specs.Plain.{LearnsAsPlain};
ghost use Rattle.lw_rounds.specs.Stops.{learn_stop};
ghost use Rattle.lw_rounds.specs.bodies.Plain.{LearnsFromNew};
ghost use Rattle.lw_rounds.specs.bodies.Rounds.{IsLearnedFrom, StopsFrom};

use crate::rounds::rounds;
use crate::watcher::Account;
use crate::{LearnStop, Learned, Learner, Phase, Settings, Watcher};
use lw_cache::Oracle;
use lw_mealy::Mealy;
use std::alloc::Global;

/// Closes a new learner, and goes through the rounds until a model is sure.
fn learn_from<O: Oracle, W: Watcher>(
    oracle: &mut O,
    alloc: Global,
    learner: &mut Learner,
    settings: Settings,
    watcher: &mut W,
) -> Result<Mealy, LearnStop>
    requires can { O.can_settle oracle.old }
    requires may { MayAsk (O.state oracle.old).stop }
    requires nothing { NothingClashes (answers_of (O.state oracle.old).kept) }
    requires inputs { inputs_of learner.old ≡ (O.state oracle.old).inputs }
    requires outputs { outputs_of learner.old ≡ (O.state oracle.old).outputs }
    requires read { IsRead (answers_of (O.state oracle.old).kept) learner.old }
    ensures learned { IfOk result (λ model. IsLearnedFrom learner.old settings.testing
        settings.extra (answers_of (O.state oracle.new).kept) model learner.new) }
    ensures plainly { IfOk result (λ model. LearnsFromNew learner.old learner.new settings.testing
        settings.extra model.rows (O.state oracle.old) (O.state oracle.new)) }
    ensures stops { IfErr result (StopsFrom learner.old settings.extra
        (answers_of (O.state oracle.new).kept)) }
    ensures leaves { Leaves (O.state oracle.old) (O.state oracle.new) (learn_stop result) }
    ensures can { O.can_settle oracle.new }
{
    let mut account = Account::new(watcher, oracle);
    learner.close(oracle)?;
    account.tell_learner(Phase::Table, learner, oracle);
    rounds(oracle, alloc, learner, settings, &mut account)
}

#[tactic(auto, using(lw_cache::proofs::SettlingLemmas::leaves_nothing, crate::proofs::StopLemmas::leaves_learn_own))]
/// A model of the system behind an oracle, which every machine of at most the extra states more that agrees with the
/// recorded answers equals: a learner of the kind is closed and its machine tested, until nothing known, no word of its suite and
/// none of its walks, where some are drawn, tells it apart (Angluin 1987, or Isberner, Howar and Steffen 2014, with a suite that
/// is made as the settings say, as that of Vasilevskii 1973 and Chow 1978). Walks are drawn behind each suite that is passed.
///
/// The watcher is told of the first closing, of each chunk of a suite or of walks, of each refinement with the closing that it
/// makes, and of each settling that replaced a block.
///
/// # Errors
/// What the oracle stopped by, or out of memory; pairwise apart words, one more than there may be states; or the
/// canonical model whose suite would be too large.
pub fn learn<O: Oracle, W: Watcher>(
    oracle: &mut O,
    alloc: Global,
    settings: Settings,
    watcher: &mut W,
) -> Result<Learned, LearnStop>
    requires can { O.can_settle oracle.old }
    requires may { MayAsk (O.state oracle.old).stop }
    requires nothing { NothingClashes (answers_of (O.state oracle.old).kept) }
    requires letters { (1 ≤ (O.state oracle.old).inputs) × ((O.state oracle.old).inputs ≤ 64) }
    requires signs { (1 ≤ (O.state oracle.old).outputs) × ((O.state oracle.old).outputs ≤ 4096) }
    ensures learned { IfOk result (λ l. IsLearned settings.kind (O.state oracle.old).inputs
        (O.state oracle.old).outputs settings.extra settings.max_states
        (answers_of (O.state oracle.new).kept) l.model l.learner) }
    ensures enough { IfOk result (λ l. IsEnoughFor settings.testing (O.state oracle.old).inputs
        settings.extra (answers_of (O.state oracle.new).kept) l.model) }
    ensures plainly { IfOk result (λ l. LearnsAsPlain settings.kind settings.testing
        (O.state oracle.old).inputs settings.extra settings.max_states l.model.rows
        (refinements_of l.learner) (O.state oracle.old) (O.state oracle.new)) }
    ensures stops { IfErr result (StopsAs (O.state oracle.old).inputs
        (O.state oracle.old).outputs settings.extra settings.max_states
        (answers_of (O.state oracle.new).kept)) }
    ensures leaves { Leaves (O.state oracle.old) (O.state oracle.new) (learn_stop result) }
    ensures can { O.can_settle oracle.new }
{
    // The cache tells that its answers are over the inputs and outputs.
    let _ = oracle.cache();
    let (inputs, outputs) = (oracle.inputs(), oracle.outputs());
    let mut learner = Learner::new(alloc, inputs, outputs, settings)?;
    let model = learn_from(oracle, alloc, &mut learner, settings, watcher)?;
    Ok(Learned { model, learner })
}

//! The learning of a model over a pool.
ghost use Rattle.std.specs.Prelude.{◌≡◌, ◌<◌, ◌≤◌, ◌^◌, IfOk, IfErr, OnOk, length};
ghost use Rattle.std.specs.List.{All};
ghost use Rattle.lw_words.specs.Word.{answers_of, IsWord};
ghost use Rattle.lw_cache.specs.Clash.{NothingClashes};
ghost use Rattle.lw_cache.specs.Settling.{MayAsk};
ghost use Rattle.lw_pool.specs.Settling.{HasSettled};
ghost use Rattle.lw_rounds.specs.Learned.{IsEnoughFor, IsLearned, StopsAs};
ghost use Rattle.lw_rounds.specs.Stops.{learn_stop};
ghost use Rattle.lw_workers.specs.Asking.{AnswersWords};
ghost use Rattle.lw_workers.specs.Leaving.{HasLearned};
ghost use Rattle.lw_workers.specs.Plain.{RunsAsPlain};

use crate::asking::learn_after;
use lw_pool::{ByCall, Pool};
use lw_rounds::{LearnStop, Learned, Settings, Watcher};
use lw_sul::Sul;
use lw_words::Word;
use std::alloc::Global;
use std::sync::Wait;
use std::thread::Threads;

/// What came of a learning, and the pool that it was made with.
#[derive(Drop)]
pub struct LearnedWith<S: Sul, R> {
    pub learned: Result<Learned, LearnStop>,
    pub pool: Pool<S, R>,
}

/// A model of the system behind a pool's sessions, as `learn` of `lw_rounds` makes it of an oracle, after the words were asked in
/// one batch; and the pool, whatever comes of the learning. Where there are words, the watcher is told of that batch before all
/// else. May wait for a system.
pub fn learn_with<S: Sul + Send, R: Threads + Wait + Sync, W: Watcher>(
    pool: Pool<S, R>,
    alloc: Global,
    words: &[Word],
    settings: Settings,
    watcher: &mut W,
) -> LearnedWith<S, R>
    requires may { MayAsk pool.stop }
    requires nothing { NothingClashes (answers_of pool.kept) }
    requires letters { (1 ≤ pool.inputs) × (pool.inputs ≤ 64) }
    requires signs { (1 ≤ pool.outputs) × (pool.outputs ≤ 4096) }
    requires named_letters { All (IsWord pool.inputs) words.now }
    requires named_few { length words.now < 2 ^ 32 }
    ensures asked { OnOk result.learned (AnswersWords words.now result.pool.kept) }
    ensures learned { IfOk result.learned (λ l. IsLearned settings.kind pool.inputs
        pool.outputs settings.extra settings.max_states (answers_of result.pool.kept) l.model
        l.learner) }
    ensures enough { IfOk result.learned (λ l. IsEnoughFor settings.testing pool.inputs
        settings.extra (answers_of result.pool.kept) l.model) }
    ensures plainly { RunsAsPlain settings.kind settings.testing pool.inputs settings.extra
        settings.max_states words.now result.learned pool.kept result.pool.kept }
    ensures stops { IfErr result.learned (StopsAs pool.inputs pool.outputs settings.extra
        settings.max_states (answers_of result.pool.kept)) }
    ensures leaves { HasLearned pool result.pool (learn_stop result.learned) }
{
    // for the proof alone, here and below: the pool holds good
    let _ = pool.cache();
    let settle = |pool: &mut Pool<S, R>, batch: &[Word]|
        requires letters { All (IsWord pool.now.inputs) batch.now }
        requires few { length batch.now < 2 ^ 32 }
        ensures { HasSettled batch.entry.now pool.entry.now pool.exit.now result }
    { pool.settle_all(batch) };
    let mut oracle = ByCall { pool, settle };
    let learned = learn_after(&mut oracle, alloc, words, settings, watcher);
    let ByCall { pool, settle: _ } = oracle;
    let _ = pool.cache();
    LearnedWith { learned, pool }
}

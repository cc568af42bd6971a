//! The learning of a machine that stands in for a system, over instances of it.
ghost use Rattle.std.specs.Prelude.{◌≡◌, ◌<◌, ◌^◌, IfOk, IfErr, OnOk, [], length, None};
ghost use Rattle.std.specs.List.{All};
ghost use Rattle.lw_words.specs.Word.{answers_of, IsWord};
ghost use Rattle.lw_mealy.specs.Machine.{Gives, Rows};
ghost use Rattle.lw_cache.specs.Clash.{NothingClashes};
ghost use Rattle.lw_pool.specs.Opening.{MayBegin};
ghost use Rattle.lw_rounds.specs.Learned.{IsEnoughFor, IsLearned, StopsAs};
ghost use Rattle.lw_workers.specs.Asking.{AnswersWords};
ghost use Rattle.lw_workers.specs.Machines.{IsMachineStop, KeepsRuns, IsReached, IsWithin};
ghost use Rattle.lw_workers.specs.Plain.{RunsAsPlain};
ghost use Rattle.lw_workers.specs.bodies.Instances.{AreInstances, IsPoolOf};

use crate::{LearnedWith, LearningOutcome, Start, learn_with};
use lw_cache::Cache;
use lw_mealy::Mealy;
use lw_names::OutNames;
use lw_pool::Pool;
use lw_rounds::{
    LearnStop, Settings, Watcher, model_is_least, too_large_for_all, too_many_is_none,
};
use lw_sul::{Session, TableSul};
use lw_words::{Names, NoMemory};
use std::alloc::Global;
use std::sync::Wait;
use std::thread::Threads;

/// Sessions of this many instances of a machine, in their order.
fn instances(
    alloc: Global,
    system: &Mealy,
    names: &Names,
    workers: u8,
) -> Result<Vec<Session<TableSul>>, NoMemory>
    requires named { length names.now ≡ system.now.outputs }
    ensures count { IfOk result (λ sessions. length sessions.items ≡ workers) }
    ensures each { IfOk result (λ sessions. AreInstances system.now names.now sessions.items) }
{
    let mut sessions = Vec::new(alloc);
    for instance in 0..workers {
        let table = TableSul::new(system.copy()?, names.copy()?);
        sessions.push(Session::new(alloc, u32::from(instance), table))?;
    }
    Ok(sessions)
}

/// A pool of this many instances of a machine over these names, which begins with what the cache keeps. Where there is
/// no memory the names and the cache are handed back.
fn pool_of<R: Drop>(
    rt: R,
    alloc: Global,
    system: &Mealy,
    names: &Names,
    shared: OutNames,
    cache: Cache,
    settings: Settings,
) -> Result<Pool<TableSul, R>, (OutNames, Cache)>
    requires named { length names.now ≡ system.now.outputs }
    requires shared { shared ≡ record { names = names.now; brought = None } }
    requires unclaimed { cache.claims ≡ [] }
    requires prior { MayBegin shared system.now.inputs system.now.outputs cache.kept }
    ensures pool { IfOk result (IsPoolOf system.now settings.workers shared cache.kept) }
    ensures back { IfErr result (λ e. (e.0 ≡ shared) × (e.1 ≡ cache)) }
{
    let (inputs, outputs) = (system.inputs(), system.outputs());
    let Ok(sessions) = instances(alloc, system, names, settings.workers) else {
        return Err((shared, cache));
    };
    match Pool::new(rt, alloc, inputs, outputs, sessions, shared, cache) {
        Ok(pool) => Ok(pool),
        Err((_, unused, prior, NoMemory)) => Err((unused, prior)),
    }
}

/// A model of a machine, whose outputs have these names, as `learn_with` makes it of a pool of this many instances of
/// the machine; and the recorded answers, which bear out what came of the learning: first those that the cache begins
/// with, the prior ones, and then those of the instances. The names are handed back as they were.
///
/// A prior answer that isn't the machine's may be found out by a clash; without one, a learning stops only where there
/// may be no more states, memory runs out, or its suite is too large.
pub fn learn_machine<R: Threads + Wait + Sync + Drop, W: Watcher>(
    rt: R,
    alloc: Global,
    system: &Mealy,
    names: &Names,
    start: Start,
    settings: Settings,
    watcher: &mut W,
) -> LearningOutcome
    requires named { length names.now ≡ system.now.outputs }
    requires shared { start.names ≡ record { names = names.now; brought = None } }
    requires unclaimed { start.cache.claims ≡ [] }
    requires nothing { NothingClashes (answers_of start.cache.kept) }
    requires prior { MayBegin start.names system.now.inputs system.now.outputs start.cache.kept }
    requires named_letters { All (IsWord system.now.inputs) start.words }
    requires named_few { length start.words < 2 ^ 32 }
    ensures asked { OnOk result.learned (AnswersWords start.words result.kept.answers) }
    ensures learned { IfOk result.learned (λ l. IsLearned settings.kind system.now.inputs
        system.now.outputs settings.extra settings.max_states (answers_of result.kept.answers)
        l.model l.learner) }
    ensures enough { IfOk result.learned (λ l. IsEnoughFor settings.testing system.now.inputs
        settings.extra (answers_of result.kept.answers) l.model) }
    ensures plainly { RunsAsPlain settings.kind settings.testing system.now.inputs settings.extra
        settings.max_states start.words result.learned start.cache.kept result.kept.answers }
    ensures stops { IfErr result.learned (StopsAs system.now.inputs system.now.outputs
        settings.extra settings.max_states (answers_of result.kept.answers)) }
    ensures caused { IfErr result.learned (IsMachineStop result.kept.answers) }
    ensures reached { (m : Rows) → IsWithin system.now.inputs settings.extra settings.max_states m →
        Gives m (answers_of result.kept.answers) → IsReached (length m) result.learned }
    ensures kept { KeepsRuns system.now settings.workers start.cache.kept result.kept.answers }
    ensures names { result.names ≡ start.names }
    ensures cut { result.cut ≡ None }
{
    model_is_least();
    too_many_is_none();
    too_large_for_all();
    // for the proof alone: the machine is within the limits
    let _ = system.inputs();
    let Start {
        names: shared,
        cache,
        words,
    } = start;
    let pool = match pool_of(rt, alloc, system, names, shared, cache, settings) {
        Ok(pool) => pool,
        Err((unused, prior)) => {
            return LearningOutcome {
                learned: Err(LearnStop::from(NoMemory)),
                kept: prior.into_kept(),
                names: unused,
                cut: None,
            };
        }
    };
    let LearnedWith { learned, pool } = learn_with(
        pool,
        alloc,
        words.as_slice(),
        settings,
        watcher,
    );
    let (_, left, cache) = pool.into_parts();
    LearningOutcome {
        learned,
        kept: cache.into_kept(),
        names: left,
        cut: None,
    }
}

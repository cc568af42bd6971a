//! A learning over children, from their starts to their ends.
ghost use Rattle.std.specs.Prelude.{◌≡◌, ◌<◌, ◌≤◌, ◌^◌, [], length, Err, None, IfOk, IfSome, OnOk};
ghost use Rattle.std.specs.List.{All};
ghost use Rattle.lw_words.specs.Word.{answers_of, IsWord};
ghost use Rattle.lw_cache.specs.Clash.{NothingClashes};
ghost use Rattle.lw_cache.specs.Settling.{MayAsk};
ghost use Rattle.lw_desk.specs.Ending.{FreeComeUp};
ghost use Rattle.lw_pool.specs.Opening.{MayBegin};
ghost use Rattle.lw_pool.specs.Sharing.{declared_by};
ghost use Rattle.lw_rounds.specs.Learned.{IsEnoughFor};
ghost use Rattle.lw_workers.specs.Asking.{AnswersWords};
ghost use Rattle.lw_workers.specs.Plain.{RunsAsPlain};
ghost use Rattle.lw_children.specs.Children.{IsOfChildren};
ghost use Rattle.lw_children.specs.Crews.{AreLinkedWith, HasRetired, IsChildrenPool, RetiresWith, first_naming};
ghost use Rattle.lw_children.specs.Cuts.{IsStopOfInstance};
ghost use Rattle.lw_system.specs.NewLines.{count_of};
ghost use Rattle.lw_children.specs.bodies.Ends.{broken_stop};

use crate::cut::cut_off;
use crate::{Broken, retire_all, retire_with, start_all};
use lw_cache::{AskStop, Cache};
use lw_json::Command;
use lw_line::LineSul;
use lw_names::OutNames;
use lw_outside::{Spawner, StartStop};
use lw_pool::Pool;
use lw_rounds::{
    LearnStop, Settings, Watcher, model_is_least, too_large_for_all, too_many_is_none,
};
use lw_words::{Names, NoMemory, SulStop, Word};
use lw_workers::{LearnedWith, LearningOutcome, Start, learn_with};
use std::alloc::Global;
use std::sync::Wait;
use std::thread::Threads;

/// The greatest number of outputs where their names come as they are met.
const FREE_OUTPUTS: u16 = 4096;

/// Why a learning stops where this many sessions were made and then no more.
fn stop_of(stop: StartStop, made: usize) -> LearnStop
    requires few { made < 16 }
    ensures { result ≡ broken_stop stop made }
{
    match stop {
        StartStop::Failed => LearnStop::Ask(AskStop::Sul {
            instance: made as u32,
            stop: SulStop::Failed,
        }),
        StartStop::NoMemory => LearnStop::from(NoMemory),
    }
}

/// How many outputs a child may have.
fn count_outputs(outputs: &Option<Names>) -> u16
    ensures count { result ≡ count_of outputs.now }
    ensures few { (1 ≤ result) × (result ≤ 4096) }
{
    match outputs {
        Some(names) => names.len() as u16,
        None => FREE_OUTPUTS,
    }
}

/// What is left of a learning that no pool could be made for: the links are retired, and nothing but the prior answers is kept.
fn give_up<P: Spawner>(
    spawner: &mut P,
    broken: Broken<P::Link>,
    names: OutNames,
    cache: Cache,
) -> LearningOutcome
    requires few { length broken.sessions.items < 16 }
    requires linked { AreLinkedWith P.Link.state broken.sessions.items broken.unmade.link
        (P.state spawner.old) }
    ensures learned { result.learned ≡ Err (broken_stop broken.unmade.stop
        (length broken.sessions.items)) }
    ensures kept { result.kept.answers ≡ cache.kept }
    ensures names { result.names ≡ names }
    ensures cut { result.cut ≡ None }
    ensures retires { RetiresWith P.Link.state broken.sessions.items broken.unmade.link
        (P.state spawner.old) (P.state spawner.new) }
{
    let Broken { sessions, unmade } = broken;
    let learned = Err(stop_of(unmade.stop, sessions.len()));
    retire_with(spawner, sessions, unmade.link);
    LearningOutcome {
        learned,
        kept: cache.into_kept(),
        names,
        cut: None,
    }
}

/// Asks words and then learns over a pool of children, and retires all their links.
fn learn_and_retire<P: Spawner, R: Threads + Wait + Sync + Drop, W: Watcher>(
    spawner: &mut P,
    alloc: Global,
    pool: Pool<LineSul<P::Link>, R>,
    words: &[Word],
    settings: Settings,
    watcher: &mut W,
) -> LearningOutcome
    requires may { MayAsk pool.stop }
    requires nothing { NothingClashes (answers_of pool.kept) }
    requires letters { (1 ≤ pool.inputs) × (pool.inputs ≤ 64) }
    requires signs { (1 ≤ pool.outputs) × (pool.outputs ≤ 4096) }
    requires named_letters { All (IsWord pool.inputs) words.now }
    requires named_few { length words.now < 2 ^ 32 }
    requires children { IsChildrenPool P.Link.state (P.state spawner.old) pool }
    ensures asked { OnOk result.learned (AnswersWords words.now result.kept.answers) }
    ensures cut { IfSome result.cut (λ run. IsStopOfInstance run.instance result.learned) }
    ensures enough { IfOk result.learned (λ l. IsEnoughFor settings.testing pool.inputs
        settings.extra (answers_of result.kept.answers) l.model) }
    ensures plainly { RunsAsPlain settings.kind settings.testing pool.inputs settings.extra
        settings.max_states words.now result.learned pool.kept result.kept.answers }
    ensures ended { HasRetired settings.kind P.Link.state settings.extra settings.max_states
        pool (P.state spawner.old) (P.state spawner.new) result.learned result.kept.answers
        result.names }
{
    let LearnedWith { learned, pool } = learn_with(pool, alloc, words, settings, watcher);
    let (sessions, names, cache) = pool.into_parts();
    let cut = cut_off(alloc, &sessions, &learned);
    retire_all(spawner, sessions);
    LearningOutcome {
        learned,
        kept: cache.into_kept(),
        names,
        cut,
    }
}

/// Starts a child for each worker by the command, asks them the words, learns a model over them behind the cache's prior answers,
/// and retires every link that was started, in the order of their starts, whatever came. May wait for the children.
pub(crate) fn learn_over<P: Spawner, R: Threads + Wait + Sync + Drop, W: Watcher>(
    rt: R,
    alloc: Global,
    spawner: &mut P,
    command: &Command,
    start: Start,
    settings: Settings,
    watcher: &mut W,
) -> LearningOutcome
    requires words { 0 < length command.now.words }
    requires letters { length command.now.inputs ≤ 64 }
    requires named { start.names ≡ first_naming command.now.outputs }
    requires unclaimed { start.cache.claims ≡ [] }
    requires nothing { NothingClashes (answers_of start.cache.kept) }
    requires prior { MayBegin start.names (length command.now.inputs) (count_of command.now.outputs)
        start.cache.kept }
    requires named_letters { All (IsWord (length command.now.inputs)) start.words }
    requires named_few { length start.words < 2 ^ 32 }
    ensures found { IsOfChildren settings.kind command.now.words command.now.inputs
        command.now.outputs settings.workers settings.extra settings.max_states start.cache.kept
        (P.state spawner.old) (P.state spawner.new) result.learned result.kept.answers
        result.names.names }
    ensures enough { IfOk result.learned (λ l. IsEnoughFor settings.testing
        (length command.now.inputs) settings.extra (answers_of result.kept.answers) l.model) }
    ensures plainly { RunsAsPlain settings.kind settings.testing (length command.now.inputs)
        settings.extra settings.max_states start.words result.learned start.cache.kept
        result.kept.answers }
    ensures sharing { declared_by result.names.names result.names.brought ≡
        declared_by start.names.names start.names.brought }
    ensures come_up { FreeComeUp result.kept.answers result.names }
    ensures asked { OnOk result.learned (AnswersWords start.words result.kept.answers) }
    ensures cut { IfSome result.cut (λ run. IsStopOfInstance run.instance result.learned) }
{
    model_is_least();
    too_many_is_none();
    too_large_for_all();
    let Start {
        names,
        cache,
        words,
    } = start;
    let sessions = match start_all(alloc, spawner, command, settings.workers) {
        Ok(sessions) => sessions,
        Err(broken) => return give_up(spawner, broken, names, cache),
    };
    let inputs = command.inputs.len() as u16;
    let outputs = count_outputs(&command.outputs);
    match Pool::new(rt, alloc, inputs, outputs, sessions, names, cache) {
        Ok(pool) => learn_and_retire(spawner, alloc, pool, words.as_slice(), settings, watcher),
        Err((sessions, names, cache, NoMemory)) => {
            retire_all(spawner, sessions);
            LearningOutcome {
                learned: Err(LearnStop::from(NoMemory)),
                kept: cache.into_kept(),
                names,
                cut: None,
            }
        }
    }
}

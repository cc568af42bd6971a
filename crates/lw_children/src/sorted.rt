//! A learning over children, with the names of outputs that weren't declared sorted in the end.
ghost use Rattle.std.specs.Prelude.{◌≡◌, ◌<◌, ◌≤◌, ◌^◌, [], length, IfOk, IfSome, OnOk, None};
ghost use Rattle.std.specs.List.{All};
ghost use Rattle.lw_words.specs.Word.{answers_of, IsWord};
ghost use Rattle.lw_cache.specs.Clash.{NothingClashes};
ghost use Rattle.lw_pool.specs.Opening.{MayBegin};
ghost use Rattle.lw_rounds.specs.Learned.{IsEnoughFor};
ghost use Rattle.lw_workers.specs.Asking.{AnswersWords};
ghost use Rattle.lw_workers.specs.Plain.{RunsAsPlain};
ghost use Rattle.lw_children.specs.Children.{IsOfCommand, IsOfFree};
ghost use Rattle.lw_children.specs.Crews.{first_naming};
ghost use Rattle.lw_children.specs.Cuts.{IsStopOfInstance};
ghost use Rattle.lw_system.specs.NewLines.{count_of};

use crate::learning::learn_over;
use lw_json::Command;
use lw_outside::Spawner;
use lw_renumber::sort_outputs;
use lw_rounds::{LearnStop, Settings, Watcher};
use lw_words::NoMemory;
use lw_workers::{LearningOutcome, Start};
use std::alloc::Global;
use std::sync::Wait;
use std::thread::Threads;

/// The greatest number of names that children may bring.
const MOST_NAMES: usize = 4096;

/// Room for the new number of each name.
fn new_numbers(alloc: Global) -> Result<Vec<u16>, NoMemory>
    ensures { IfOk result (λ to. length to.items ≡ 4096) }
{
    Ok(vec![in alloc; 0u16; MOST_NAMES]?)
}

/// Learns over children whose outputs weren't declared. The room for new numbers is taken before the first child is started.
fn learn_free<P: Spawner, R: Threads + Wait + Sync + Drop, W: Watcher>(
    rt: R,
    alloc: Global,
    spawner: &mut P,
    command: &Command,
    start: Start,
    settings: Settings,
    watcher: &mut W,
) -> LearningOutcome
    requires words { 0 < length command.now.words }
    requires letters { length command.now.inputs ≤ 64 }
    requires free { command.now.outputs ≡ None }
    requires named { start.names ≡ first_naming None }
    requires unclaimed { start.cache.claims ≡ [] }
    requires none { start.cache.kept ≡ [] }
    requires named_letters { All (IsWord (length command.now.inputs)) start.words }
    requires named_few { length start.words < 2 ^ 32 }
    ensures asked { OnOk result.learned (AnswersWords start.words result.kept.answers) }
    ensures cut { IfSome result.cut (λ run. IsStopOfInstance run.instance result.learned) }
    ensures enough { IfOk result.learned (λ l. IsEnoughFor settings.testing
        (length command.now.inputs) settings.extra (answers_of result.kept.answers) l.model) }
    ensures plainly { RunsAsPlain settings.kind settings.testing (length command.now.inputs)
        settings.extra settings.max_states start.words result.learned start.cache.kept
        result.kept.answers }
    ensures found { IsOfFree settings.kind command.now.words command.now.inputs
        settings.workers settings.extra settings.max_states (P.state spawner.old)
        (P.state spawner.new) result.learned result.kept.answers result.names.names }
{
    let mut to = match new_numbers(alloc) {
        Ok(to) => to,
        Err(NoMemory) => return LearningOutcome {
            learned: Err(LearnStop::from(NoMemory)),
            kept: start.cache.into_kept(),
            names: start.names,
            cut: None,
        },
    };
    let LearningOutcome {
        mut learned,
        mut kept,
        mut names,
        cut,
    } = learn_over(rt, alloc, spawner, command, start, settings, watcher);
    let _few = names.len();
    sort_outputs(&mut names, &mut to, &mut learned, &mut kept);
    watcher.renumber(&to);
    LearningOutcome {
        learned,
        kept,
        names,
        cut,
    }
}

/// Starts a child for each worker by the command, asks them the words in one batch, learns a model over them behind the cache's
/// prior answers, and retires every link that was started, in the order of their starts, whatever came. Names of outputs that
/// weren't declared are sorted by their bytes in the end. The watcher is told of the steps. May wait for the children.
pub fn learn_children<P: Spawner, R: Threads + Wait + Sync + Drop, W: Watcher>(
    rt: R,
    alloc: Global,
    spawner: &mut P,
    command: &Command,
    start: Start,
    settings: Settings,
    watcher: &mut W,
) -> LearningOutcome
    requires words { 0 < length command.now.words }
    requires letters { length command.now.inputs ≤ 64 }
    requires named { start.names ≡ first_naming command.now.outputs }
    requires unclaimed { start.cache.claims ≡ [] }
    requires nothing { NothingClashes (answers_of start.cache.kept) }
    requires prior { MayBegin start.names (length command.now.inputs) (count_of command.now.outputs)
        start.cache.kept }
    requires free { command.now.outputs ≡ None → start.cache.kept ≡ [] }
    requires named_letters { All (IsWord (length command.now.inputs)) start.words }
    requires named_few { length start.words < 2 ^ 32 }
    ensures asked { OnOk result.learned (AnswersWords start.words result.kept.answers) }
    ensures cut { IfSome result.cut (λ run. IsStopOfInstance run.instance result.learned) }
    ensures enough { IfOk result.learned (λ l. IsEnoughFor settings.testing
        (length command.now.inputs) settings.extra (answers_of result.kept.answers) l.model) }
    ensures plainly { RunsAsPlain settings.kind settings.testing (length command.now.inputs)
        settings.extra settings.max_states start.words result.learned start.cache.kept
        result.kept.answers }
    ensures found { IsOfCommand settings.kind command.now.words command.now.inputs
        command.now.outputs settings.workers settings.extra settings.max_states start.cache.kept
        (P.state spawner.old) (P.state spawner.new) result.learned result.kept.answers
        result.names.names }
{
    match command.outputs {
        Some(_) => learn_over(rt, alloc, spawner, command, start, settings, watcher),
        None => learn_free(rt, alloc, spawner, command, start, settings, watcher),
    }
}

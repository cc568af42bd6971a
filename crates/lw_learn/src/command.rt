//! The command `learn`, over the files, streams and children that it is handed.
ghost use Rattle.std.specs.Prelude.{◌≡◌, ◌≢◌, ◌<◌, ◌≤◌, ◌^◌, length, None};
ghost use Rattle.std.specs.List.{All};
ghost use Rattle.lw_words.specs.Word.{IsWord};
ghost use Rattle.lw_workers.specs.Asking.{AnswersWords};
ghost use Rattle.lw_report.specs.Outcomes.{status_of};
ghost use Rattle.lw_learn.specs.Ending.{EndsLeaving, EndsPlainly};
ghost use Rattle.lw_learn.specs.LearnRun.{IsLearnEnd, IsLearnRun};
ghost use Rattle.lw_system.specs.Goals.{IsSystemFor};
ghost use Rattle.lw_system.specs.Systems.{letters_of};
ghost use Rattle.lw_learn.specs.bodies.Ready.{IsReady};

use crate::LearnArguments;
use crate::ending::finish;
use crate::last::leave_last;
use crate::learning::learn_system;
use crate::logging::{log_end, log_stop, log_unread, open_log, say_log, unread_text};
use crate::notes::{note_end, note_file, note_last, note_prior};
use crate::probing::read_probed;
use crate::refusing::end_unread;
use crate::task::{Task, WordedTask};
use crate::watching::Watch;
use lw_log::Log;
use lw_outside::{Files, LogFile, Sink, Spawner, World};
use lw_report::End;
use lw_workers::Start;
use std::alloc::Global;
use std::sync::Wait;
use std::thread::Threads;

/// Learns what was read, and ends the call.
fn learn_read<
    R: Threads + Wait + Sync + Drop,
    F: Files,
    P: Spawner,
    I,
    O: Sink,
    E: Sink,
    L: LogFile,
    N: Sink,
>(
    rt: R,
    alloc: Global,
    arguments: &LearnArguments,
    worded: WordedTask,
    world: &mut World<F, P, I, O, E, Log<L, N>>,
) -> End
    requires ready { IsReady worded.task.system worded.task.names worded.task.cache }
    requires fits { IsSystemFor arguments.now.goal worded.task.system }
    requires letters { All (IsWord (length (letters_of worded.task.system))) worded.words }
    requires batch { length worded.words < 2 ^ 32 }
    ensures status { result.status ≡ status_of result.outcome }
    ensures learned { EndsLeaving arguments.now worded.task.system worded.task.cache.kept
        (F.state world.old.files) (F.state world.new.files)
        (P.state world.old.spawner) (P.state world.new.spawner)
        (O.state world.old.out) (O.state world.new.out)
        (E.state world.old.err) (E.state world.new.err) result }
    ensures answered { result.model ≢ None → AnswersWords worded.words result.kept.answers }
    ensures plainly { EndsPlainly arguments.now (length (letters_of worded.task.system))
        worded.words worded.task.cache.kept result }
    ensures input { world.new.input ≡ world.old.input }
{
    let WordedTask { task, words } = worded;
    let Task {
        system,
        names,
        cache,
    } = task;
    note_prior(alloc, arguments, &cache, &mut world.log);
    let start = Start {
        names,
        cache,
        words,
    };
    let mut watch = Watch::new(alloc, &mut world.log, arguments.last().is_some());
    let found = learn_system(
        rt,
        alloc,
        &mut world.spawner,
        arguments,
        &system,
        start,
        &mut watch,
    );
    let last = watch.into_last();
    let (spawner, log) = (&world.spawner, &mut world.log);
    log_stop(alloc, spawner, system.inputs(), &found, log);
    note_end(alloc, &system, &found, log);
    let (files, out, err) = (&mut world.files, &mut world.out, &mut world.err);
    let left = leave_last(alloc, arguments, &system, &found, last, files);
    let end = finish(alloc, arguments, &system, found, files, out, err);
    log_end(alloc, &system, &end, arguments.extra(), &mut world.log);
    note_file(alloc, arguments, &end.outcome, &mut world.log);
    note_last(alloc, arguments, left, &mut world.log);
    end
}

/// Reads what is to be learned, probes what will be written, learns the system and ends the call.
fn learn_logged<
    R: Threads + Wait + Sync + Drop,
    F: Files,
    P: Spawner,
    I,
    O: Sink,
    E: Sink,
    L: LogFile,
    N: Sink,
>(
    rt: R,
    alloc: Global,
    arguments: &LearnArguments,
    world: &mut World<F, P, I, O, E, Log<L, N>>,
) -> End
    ensures status { result.status ≡ status_of result.outcome }
    ensures ends { IsLearnEnd arguments.now
        (F.state world.old.files) (F.state world.new.files)
        (P.state world.old.spawner) (P.state world.new.spawner)
        (O.state world.old.out) (O.state world.new.out)
        (E.state world.old.err) (E.state world.new.err) result }
    ensures counts { ((F.state world.old.files).faults ≤ (F.state world.new.files).faults) ×
        ((O.state world.old.out).faults ≤ (O.state world.new.out).faults) ×
        ((E.state world.old.err).faults ≤ (E.state world.new.err).faults) }
    ensures input { world.new.input ≡ world.old.input }
{
    match read_probed(alloc, arguments, &mut world.files, &mut world.log) {
        Ok(worded) => learn_read(rt, alloc, arguments, worded, world),
        Err(unread) => {
            let text = unread_text(alloc, &unread, arguments.extra());
            note_file(alloc, arguments, &unread.outcome, &mut world.log);
            let end = end_unread(alloc, arguments, unread, &mut world.files, &mut world.err);
            log_unread(&end, text, &mut world.log);
            end
        }
    }
}

/// Learns a system: the machine that it is, or the acceptor behind it. First the files are read that say what it is: a setup or
/// a table file, the table file that a setup names, the file of prior answers, and the file of words that are asked first,
/// where one is named. Then the files that will be written are probed, and the first that can't be ends the call, with no child
/// started and nothing written. Then the system is learned, over as many instances: of a table's machine, or children that a
/// setup's command starts, and that are all ended again, whatever comes: first those words and drawn ones are asked, in one
/// batch, then the rounds go on until a model is sure. At an end without a model the machine of the last learner that was
/// closed is written, where a file is named for it. Then the answers that are kept are saved, where a file is named for them,
/// whatever came of the learning; the model file and the answers file are written, where they are named, the model's text to
/// `out`, where no file is named for it, and a line about it to `err`. The text of every other outcome goes to `err`. A log,
/// where one is named, gets a line for each step, what stopped it midway, and the outcome's text; that it could not be written
/// is said once, last of all, on `err`. A journal, where one is named and the spawner has opened it, gets the names of the
/// letters before anything is asked, and then each answer: a child's as it comes, those of a table when the learning has ended.
/// May wait for a child, and for a turn of its workers.
pub fn learn<
    R: Threads + Wait + Sync + Drop,
    F: Files,
    P: Spawner,
    I,
    O: Sink,
    E: Sink,
    L: LogFile,
    N: Sink,
>(
    rt: R,
    alloc: Global,
    arguments: &LearnArguments,
    world: &mut World<F, P, I, O, E, Log<L, N>>,
) -> End
    ensures status { result.status ≡ status_of result.outcome }
    ensures run { IsLearnRun arguments.now
        (F.state world.old.files) (F.state world.new.files)
        (P.state world.old.spawner) (P.state world.new.spawner)
        (O.state world.old.out) (O.state world.new.out)
        (E.state world.old.err) (E.state world.new.err) world.new.log.state result }
    // No count of faults falls.
    ensures counts { ((F.state world.old.files).faults ≤ (F.state world.new.files).faults) ×
        ((O.state world.old.out).faults ≤ (O.state world.new.out).faults) ×
        ((E.state world.old.err).faults ≤ (E.state world.new.err).faults) }
    ensures input { world.new.input ≡ world.old.input }
{
    open_log(arguments, &mut world.log);
    let end = learn_logged(rt, alloc, arguments, world);
    say_log(arguments, &mut world.log, &mut world.err);
    end
}

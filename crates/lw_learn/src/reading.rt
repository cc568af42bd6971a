//! The files that say what is to be learned: a setup or a table, and prior answers.
ghost use Rattle.std.specs.Prelude.{◌≡◌, ℕ, ◌≤◌, List, [], length, None, Some, IfOk, IfErr};
ghost use Rattle.lw_words.specs.Word.{answers_of};
ghost use Rattle.lw_cache.specs.Clash.{NothingClashes};
ghost use Rattle.lw_pool.specs.Opening.{MayBegin};
ghost use Rattle.lw_children.specs.Crews.{first_naming};
ghost use Rattle.lw_prior.specs.Prior.{HasFirstClash};
ghost use Rattle.lw_system.specs.Systems.{HasWords, declared_of, letters_of, or_these};
ghost use Rattle.lw_report.specs.Stops.{read_outcome};
ghost use Rattle.lw_report.specs.declared.outcome.Outcome.{Outcome as Came};
ghost use Rattle.lw_report.specs.declared.role.Role.TheVariants.{Prior as PriorRole};
ghost use Rattle.lw_learn.specs.Tasks.{with_outputs};
ghost use Rattle.lw_learn.specs.bodies.Ready.{IsReady};
ghost use Rattle.lw_learn.specs.bodies.Stages.{HasPrior, IsBack, IsClash, IsStage, IsTaskWith, IsUnfit, SaysReady, SaysWhole};

use crate::LearnArguments;
use crate::notes::note_misfit;
use crate::task::Task;
use lw_cache::Cache;
use lw_json::{Answers, Command, JsonFault};
use lw_log::Log;
use lw_names::OutNames;
use lw_outside::{Files, LogFile, Sink};
use lw_prior::{Prior, PriorStop, prior_of};
use lw_report::{Outcome, Role, no_system_outcome};
use lw_system::{Found, ReadStop, System, find_for, read_answers_file};
use lw_words::{Kept, Names, NoMemory};
use std::alloc::Global;
use std::marker::Model;

/// Why no learning begins, with the system where that was read; and where two prior answers clash, all of them, and the names of
/// their outputs.
#[derive(Drop)]
pub(crate) struct Unread {
    pub(crate) outcome: Outcome,
    pub(crate) system: Option<System>,
    pub(crate) kept: Kept,
    pub(crate) names: Option<OutNames>,
}

impl Model for Unread {
    ghost use Rattle.lw_learn.specs.bodies.UnreadState.{IsNamed, UnreadState};

    ghost Value = { UnreadState };

    ghost view = { λ u. record { outcome = u.outcome; system = u.system; kept = u.kept.answers; names = u.names } };

    ghost invariant = { λ u. IsNamed u.system u.kept.answers u.names };
}

impl Unread {
    /// Nothing is kept.
    pub(crate) fn bare(alloc: Global, outcome: Outcome, system: Option<System>) -> Unread
        ensures outcome { result.outcome ≡ outcome }
        ensures system { result.system ≡ system }
        ensures kept { result.kept ≡ [] }
    {
        Unread {
            outcome,
            system,
            kept: Kept::new(alloc),
            names: None,
        }
    }
}

/// Reads the system that is to be learned: the setup or the table file, and the table file that a setup names, which is a
/// machine's, or an acceptor's where one is to be learned. The log is told the first member that the setup doesn't know.
fn read_whole<F: Files, L: LogFile, N: Sink>(
    alloc: Global,
    arguments: &LearnArguments,
    files: &mut F,
    log: &mut Log<L, N>,
) -> Result<System, Unread>
    ensures { IsStage arguments.now (F.state files.old) (F.state files.new)
        (SaysWhole arguments.now (F.state files.old) (F.state files.new)) result }
{
    let Found { system, hint } = find_for(
        alloc,
        arguments.goal(),
        arguments.source(),
        arguments.system(),
        files,
    );
    if !hint.is_empty() {
        log.text(&hint);
    }
    match system {
        Ok(system) => Ok(system),
        Err(stop) => Err(Unread::bare(alloc, no_system_outcome(stop), None)),
    }
}

/// The names of outputs with which a learning of a system begins.
fn first_names(alloc: Global, system: &System) -> Result<OutNames, NoMemory>
    ensures { IfOk result (λ n. n ≡ first_naming (declared_of system.now)) }
{
    match system.outputs() {
        Some(names) => OutNames::declared(alloc, names),
        None => OutNames::free(alloc),
    }
}

/// The task of a system of which there are no prior answers.
fn fresh_task(alloc: Global, system: System) -> Result<Task, Unread>
    requires letters { length (letters_of system) ≤ 64 }
    requires words { HasWords system }
    ensures ok { IfOk result (λ t. (t.system ≡ system) × (t.cache.kept ≡ []) ×
        IsReady t.system t.names t.cache) }
    ensures err { IfErr result (λ u. (u.outcome ≡ Came.NoMemory) × (u.kept ≡ []) ×
        (u.system ≡ None)) }
{
    match first_names(alloc, &system) {
        Ok(names) => Ok(Task {
            system,
            names,
            cache: Cache::new(alloc),
        }),
        Err(NoMemory) => Err(Unread::bare(alloc, Outcome::NoMemory, None)),
    }
}

/// A system with these names of outputs, which are its own where it declares some.
fn with_names(system: System, names: Names) -> System
    ensures value { (own : List (List ℕ)) → names ≡ or_these own (declared_of system) →
        result ≡ with_outputs own system }
    ensures declared { (own : List (List ℕ)) → names ≡ or_these own (declared_of system) →
        declared_of result ≡ Some names }
{
    match system {
        System::Table(machine) => System::Table(machine),
        System::Children(Command { words, inputs, .. }) => System::Children(Command {
            words,
            inputs,
            outputs: Some(names),
        }),
    }
}

/// A system with these names of outputs and prior answers, of which nothing clashes.
fn prior_task(system: System, names: Names, shared: OutNames, cache: Cache) -> Task
    requires letters { length (letters_of system) ≤ 64 }
    requires words { HasWords system }
    requires shared { shared ≡ record { names = names; brought = None } }
    requires unclaimed { cache.claims ≡ [] }
    requires nothing { NothingClashes (answers_of cache.kept) }
    requires may { MayBegin shared (length (letters_of system)) (length names) cache.kept }
    ensures { (own : List (List ℕ)) → names ≡ or_these own (declared_of system) →
        (result.system ≡ with_outputs own system) × (result.cache.kept ≡ cache.kept) ×
        IsReady result.system result.names result.cache }
{
    Task {
        system: with_names(system, names),
        names: shared,
        cache,
    }
}

/// The task of a system with prior answers, or the first clash of these.
fn join_prior(system: System, names: Names, shared: OutNames, prior: Prior) -> Result<Task, Unread>
    requires letters { length (letters_of system) ≤ 64 }
    requires words { HasWords system }
    requires named { (own : List (List ℕ)) × (names ≡ or_these own (declared_of system)) }
    requires shared { shared ≡ record { names = names; brought = None } }
    requires unclaimed { prior.cache.claims ≡ [] }
    requires clash { HasFirstClash (answers_of prior.cache.kept) prior.clash }
    requires may { MayBegin shared (length (letters_of system)) (length names)
        prior.cache.kept }
    ensures ok { (own : List (List ℕ)) → names ≡ or_these own (declared_of system) →
        IfOk result (λ t. (t.system ≡ with_outputs own system) ×
        (t.cache.kept ≡ prior.cache.kept) × IsReady t.system t.names t.cache) }
    ensures err { (own : List (List ℕ)) → names ≡ or_these own (declared_of system) →
        IfErr result (λ u. IsClash (with_outputs own system) prior.cache.kept u.system
        u.kept u.outcome) }
{
    let Prior { cache, clash } = prior;
    match clash {
        Some(clash) => Err(Unread {
            outcome: Outcome::Nondeterministic(clash),
            system: Some(with_names(system, names)),
            kept: cache.into_kept(),
            names: Some(shared),
        }),
        None => Ok(prior_task(system, names, shared, cache)),
    }
}

/// The names of a system's outputs, or these where none were declared, and the same as those that answers are numbered by.
fn outputs_or(alloc: Global, system: &System, names: &Names) -> Result<(Names, OutNames), NoMemory>
    ensures names { IfOk result (λ p. p.0 ≡ or_these names.now (declared_of system.now)) }
    ensures shared { IfOk result (λ p. p.1 ≡ record { names = p.0; brought = None }) }
{
    let names = match system.outputs() {
        Some(declared) => declared.copy()?,
        None => names.copy()?,
    };
    let shared = OutNames::declared(alloc, &names)?;
    Ok((names, shared))
}

/// The task of a system with these prior answers. All names are made before an answer is kept. The first name that doesn't fit is
/// noted.
fn with_answers<L: LogFile, N: Sink>(
    alloc: Global,
    system: System,
    answers: Answers,
    log: &mut Log<L, N>,
) -> Result<Task, Unread>
    requires letters { length (letters_of system) ≤ 64 }
    requires words { HasWords system }
    ensures ok { IfOk result (IsTaskWith system answers) }
    ensures err { IfErr result (λ u. IsUnfit system answers u.system u.kept u.outcome) }
{
    let Ok((names, shared)) = outputs_or(alloc, &system, &answers.outputs) else {
        return Err(Unread::bare(alloc, Outcome::NoMemory, None));
    };
    note_misfit(alloc, &answers, system.inputs(), &names, log);
    match prior_of(alloc, answers, system.inputs(), &names) {
        Ok(prior) => join_prior(system, names, shared, prior),
        Err(PriorStop::NamesDiffer) => Err(Unread::bare(
            alloc,
            Outcome::Alphabets(Role::Prior),
            Some(system),
        )),
        Err(PriorStop::NoMemory) => Err(Unread::bare(alloc, Outcome::NoMemory, None)),
    }
}

/// Why prior answers of a system weren't read. The system is handed back, but where memory ran out.
fn unread_prior(alloc: Global, system: System, stop: ReadStop<JsonFault>) -> Unread
    ensures outcome { result.outcome ≡ read_outcome PriorRole stop }
    ensures system { IsBack (read_outcome PriorRole stop) system result.system }
    ensures kept { result.kept ≡ [] }
{
    match stop {
        ReadStop::NoMemory => Unread::bare(alloc, Outcome::NoMemory, None),
        ReadStop::Failed => Unread::bare(alloc, Outcome::FileFault(Role::Prior), Some(system)),
        ReadStop::TooLong => Unread::bare(alloc, Outcome::FileTooLong(Role::Prior), Some(system)),
        ReadStop::Bad(fault) => {
            let role = Role::Prior;
            Unread::bare(alloc, Outcome::BadFile { role, fault }, Some(system))
        }
    }
}

/// Reads the prior answers of a system.
fn read_prior<F: Files, L: LogFile, N: Sink>(
    alloc: Global,
    system: System,
    name: &str,
    files: &mut F,
    log: &mut Log<L, N>,
) -> Result<Task, Unread>
    requires letters { length (letters_of system) ≤ 64 }
    requires words { HasWords system }
    ensures { HasPrior name.now system (F.state files.old) (F.state files.new) result }
{
    match read_answers_file(alloc, files, name) {
        Ok(answers) => with_answers(alloc, system, answers, log),
        Err(stop) => Err(unread_prior(alloc, system, stop)),
    }
}

/// Reads what is to be learned: the setup or the table file, the table file that a setup names, and the prior answers, in this
/// order.
pub(crate) fn read_task<F: Files, L: LogFile, N: Sink>(
    alloc: Global,
    arguments: &LearnArguments,
    files: &mut F,
    log: &mut Log<L, N>,
) -> Result<Task, Unread>
    ensures { IsStage arguments.now (F.state files.old) (F.state files.new)
        (SaysReady arguments.now (F.state files.old) (F.state files.new)) result }
{
    let system = read_whole(alloc, arguments, files, log)?;
    match arguments.prior() {
        Some(name) => read_prior(alloc, system, name, files, log),
        None => fresh_task(alloc, system),
    }
}

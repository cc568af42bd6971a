//! The starting of children, one for each instance.
ghost use Rattle.std.specs.Prelude.{◌≡◌, ℕ, ◌+◌, ◌<◌, ◌≤◌, List, [], length, Option, Some, None, IfErr, IfOk, IfSome, OnOk, OnErr};
ghost use Rattle.std.specs.List.{All};
ghost use Rattle.lw_words.specs.Cause.{CountedFault};
ghost use Rattle.lw_outside.specs.declared.links.StartStop.{StartStop as Why};
ghost use Rattle.lw_system.specs.Spawners.{StartsLinks, StartsSome};
ghost use Rattle.lw_children.specs.Crews.{AreEarlier, HasBegun, IsLoose, count_link, new_session};

use lw_json::Command;
use lw_line::LineSul;
use lw_outside::{Link, Spawner, StartStop};
use lw_sul::Session;
use lw_system::line_over;
use lw_words::{Names, NoMemory};
use std::alloc::Global;

/// A session that was not made, why, and the link to its child where that was started.
#[derive(Drop)]
pub struct Unmade<L> {
    pub stop: StartStop,
    pub link: Option<L>,
}

/// The sessions that were made before one was not.
#[derive(Drop)]
pub struct Broken<L: Link> {
    pub sessions: Vec<Session<LineSul<L>>>,
    pub unmade: Unmade<L>,
}

impl<L: Link> Broken<L> {
    /// No session was made, and no child started.
    fn of_none(alloc: Global) -> Broken<L>
        ensures sessions { result.sessions.items ≡ [] }
        ensures link { result.unmade.link ≡ None }
        ensures stop { result.unmade.stop ≡ Why.NoMemory }
    {
        Broken {
            sessions: Vec::new(alloc),
            unmade: Unmade {
                stop: StartStop::NoMemory,
                link: None,
            },
        }
    }
}

/// The same names once more.
fn copy_declared(outputs: &Option<Names>) -> Result<Option<Names>, NoMemory>
    ensures { IfOk result (λ copy. copy ≡ outputs.now) }
{
    match outputs {
        Some(names) => Ok(Some(names.copy()?)),
        None => Ok(None),
    }
}

/// A system that notes what it is asked.
fn noting<L: Link>(alloc: Global, system: LineSul<L>) -> LineSul<L>
    ensures { result ≡ system }
{
    let mut noting = system;
    noting.note(alloc);
    noting
}

/// Starts a child, and makes the session of it under this number.
fn start_one<P: Spawner>(
    alloc: Global,
    spawner: &mut P,
    command: &Command,
    instance: u32,
) -> Result<Session<LineSul<P::Link>>, Unmade<P::Link>>
    requires words { 0 < length command.now.words }
    ensures made { IfOk result
        (λ s. (s ≡ new_session instance s.sul.link command.now.inputs command.now.outputs) ×
        ((P.Link.state s.sul.link).number ≡ (P.state spawner.old).started)) }
    ensures unmade { IfErr result (λ u. IsLoose P.Link.state (P.state spawner.old).started
        u.link) }
    ensures earlier { OnOk result (AreEarlier (P.state spawner.old).retired
        (P.state spawner.old).started) }
    ensures earlier_too { IfErr result
        (λ u. IfSome u.link (λ l. AreEarlier (P.state spawner.old).retired
        (P.state spawner.old).started)) }
    ensures one { OnOk result (StartsLinks command.now.words (P.state spawner.old)
        (P.state spawner.new) 1) }
    ensures none { IfErr result (λ u. StartsSome command.now.words (P.state spawner.old)
        (P.state spawner.new) (count_link u.link)) }
    ensures failed { IfErr result (λ u. u.stop ≡ Why.Failed → (u.link ≡ None) ×
        CountedFault (P.state spawner.old).faults (P.state spawner.new).faults) }
{
    let (inputs, outputs) = match (command.inputs.copy(), copy_declared(&command.outputs)) {
        (Ok(inputs), Ok(outputs)) => (inputs, outputs),
        _ => return Err(Unmade {
            stop: StartStop::NoMemory,
            link: None,
        }),
    };
    let link = match spawner.start(command.words.get()) {
        Ok(link) => link,
        Err(stop) => return Err(Unmade { stop, link: None }),
    };
    match line_over(alloc, link, inputs, outputs) {
        Ok(system) => Ok(Session::new(alloc, instance, noting(alloc, system))),
        Err(link) => Err(Unmade {
            stop: StartStop::NoMemory,
            link: Some(link),
        }),
    }
}

/// Starts a child for each of this many instances, and makes their sessions, in the order of the instances.
pub fn start_all<P: Spawner>(
    alloc: Global,
    spawner: &mut P,
    command: &Command,
    workers: u8,
) -> Result<Vec<Session<LineSul<P::Link>>>, Broken<P::Link>>
    requires words { 0 < length command.now.words }
    ensures count { IfOk result (λ sessions. length sessions.items ≡ workers) }
    ensures made { IfOk result (λ sessions. HasBegun P.Link.state command.now.inputs
        command.now.outputs (P.state spawner.old) sessions.items None) }
    ensures all { OnOk result (StartsLinks command.now.words (P.state spawner.old)
        (P.state spawner.new) workers) }
    ensures few { IfErr result (λ b. length b.sessions.items + count_link b.unmade.link ≤ workers ×
        (length b.sessions.items < workers)) }
    ensures broken { IfErr result (λ b. HasBegun P.Link.state command.now.inputs
        command.now.outputs (P.state spawner.old) b.sessions.items b.unmade.link) }
    ensures some { IfErr result (λ b. StartsSome command.now.words (P.state spawner.old)
        (P.state spawner.new) (length b.sessions.items + count_link b.unmade.link)) }
    ensures failed { IfErr result (λ b. b.unmade.stop ≡ Why.Failed → (b.unmade.link ≡ None) ×
        CountedFault (P.state spawner.old).faults (P.state spawner.new).faults) }
{
    let mut sessions = match Vec::with_capacity(alloc, usize::from(workers)) {
        Ok(sessions) => sessions,
        Err(_) => return Err(Broken::of_none(alloc)),
    };
    for instance in 0..workers {
        match start_one(alloc, spawner, command, u32::from(instance)) {
            Ok(session) => sessions.push_reserved(session),
            Err(unmade) => return Err(Broken { sessions, unmade }),
        }
    }
    Ok(sessions)
}

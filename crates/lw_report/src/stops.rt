//! What comes of a file that was not read, a child that was not started, and a system or a learning that stopped; and why an
//! outcome was not reported.
ghost use Rattle.std.specs.Prelude.{◌≡◌};
ghost use Rattle.lw_report.specs.Learnings.{ask_outcome, learn_outcome, system_outcome};
ghost use Rattle.lw_report.specs.Stops.{acceptor_outcome, no_acceptor_outcome, no_system_outcome, read_outcome, role_of, start_outcome, unread_outcome};

use crate::{Outcome, Role};
use lw_accept::AcceptorFault;
use lw_cache::AskStop;
use lw_json::JsonFault;
use lw_outside::{Failed, Spawner, StartStop};
use lw_rounds::LearnStop;
use lw_system::{AcceptorStop, NoSystem, ReadStop, Source, SystemStop};
use lw_words::{NoMemory, SulStop};

/// Why an outcome was not reported.
#[derive(Clone, Copy, Debug, PartialEq, Eq)]
pub enum TellStop {
    /// The file in this role could not be written.
    File(Role),
    /// A stream refused what was to be written.
    Sink,
    NoMemory,
}

/// The outcome of a file in this role that was not read.
pub fn read_outcome(stop: ReadStop<JsonFault>, role: Role) -> Outcome
    ensures { result ≡ read_outcome role stop }
{
    match stop {
        ReadStop::Failed => Outcome::FileFault(role),
        ReadStop::TooLong => Outcome::FileTooLong(role),
        ReadStop::Bad(fault) => Outcome::BadFile { role, fault },
        ReadStop::NoMemory => Outcome::NoMemory,
    }
}

/// The role of a file that says a system.
fn role_of(file: Source) -> Role
    ensures { result ≡ role_of file }
{
    match file {
        Source::Setup => Role::Setup,
        Source::Table => Role::Table,
    }
}

/// The outcome of files that say no system.
pub fn unread_outcome(stop: SystemStop) -> Outcome
    ensures { result ≡ unread_outcome stop }
{
    read_outcome(stop.stop, role_of(stop.file))
}

/// The outcome of an acceptor file in this role that was not read.
pub fn acceptor_outcome(stop: ReadStop<AcceptorFault>, role: Role) -> Outcome
    ensures { result ≡ acceptor_outcome role stop }
{
    match stop {
        ReadStop::Failed => Outcome::FileFault(role),
        ReadStop::TooLong => Outcome::FileTooLong(role),
        ReadStop::Bad(fault) => Outcome::BadAcceptor(fault),
        ReadStop::NoMemory => Outcome::NoMemory,
    }
}

/// The outcome of files that say no system that is asked for an acceptor.
pub fn no_acceptor_outcome(stop: AcceptorStop) -> Outcome
    ensures { result ≡ no_acceptor_outcome stop }
{
    match stop {
        AcceptorStop::Setup(stop) => read_outcome(stop, Role::Setup),
        AcceptorStop::Table(stop) => acceptor_outcome(stop, Role::Table),
        AcceptorStop::Letters(fault) => Outcome::BadAcceptor(fault),
        AcceptorStop::NoMemory => Outcome::NoMemory,
    }
}

/// The outcome of files that say no system, by what is to be learned of it.
pub fn no_system_outcome(stop: NoSystem) -> Outcome
    ensures { result ≡ no_system_outcome stop }
{
    match stop {
        NoSystem::Machine(stop) => unread_outcome(stop),
        NoSystem::Acceptor(stop) => no_acceptor_outcome(stop),
    }
}

/// The outcome of a start that gave no child.
pub fn start_outcome<P: Spawner>(spawner: &P, stop: StartStop) -> Outcome
    ensures { result ≡ start_outcome (P.state spawner.now).cause stop }
{
    match stop {
        StartStop::Failed => Outcome::Unstarted(spawner.failure()),
        StartStop::NoMemory => Outcome::NoMemory,
    }
}

impl From<TellStop> for Outcome {
    ghost use Rattle.std.specs.Prelude.{◌≡◌};
    ghost use Rattle.lw_report.specs.Stops.{tell_outcome};

    ghost from_gives = { λ stop outcome. outcome ≡ tell_outcome stop };

    fn from(stop: TellStop) -> Outcome {
        match stop {
            TellStop::File(role) => Outcome::FileFault(role),
            TellStop::Sink => Outcome::SinkFault,
            TellStop::NoMemory => Outcome::NoMemory,
        }
    }
}

impl From<NoMemory> for TellStop {
    ghost use Rattle.std.specs.Prelude.{◌≡◌};
    ghost use Rattle.lw_report.specs.declared.stops.TellStop.TheVariants.{NoMemory as Wanted};

    ghost from_gives = { λ _ stop. stop ≡ Wanted };

    fn from(_: NoMemory) -> TellStop {
        TellStop::NoMemory
    }
}

impl From<Failed> for TellStop {
    ghost use Rattle.std.specs.Prelude.{◌≡◌};
    ghost use Rattle.lw_report.specs.declared.stops.TellStop.TheVariants.{Sink};

    ghost from_gives = { λ _ stop. stop ≡ Sink };

    fn from(_: Failed) -> TellStop {
        TellStop::Sink
    }
}

/// The outcome of a system that stopped so, by its instance.
pub fn system_outcome(instance: u32, stop: SulStop) -> Outcome
    ensures { result ≡ system_outcome instance stop }
{
    match stop {
        SulStop::Failed => Outcome::SulFailed(instance),
        SulStop::BadLine(line) => Outcome::BadLine(instance, line),
        SulStop::Gone => Outcome::Gone(instance),
    }
}

/// The outcome of an ask that stopped so.
fn ask_outcome(stop: AskStop) -> Outcome
    ensures { result ≡ ask_outcome stop }
{
    match stop {
        AskStop::Clash(clash) => Outcome::Nondeterministic(clash),
        AskStop::Sul { instance, stop } => system_outcome(instance, stop),
        AskStop::NoMemory => Outcome::NoMemory,
    }
}

/// The outcome of a learning that stopped so.
pub fn learn_outcome(stop: LearnStop) -> Outcome
    ensures { result ≡ learn_outcome stop }
{
    match stop {
        LearnStop::Ask(stop) => ask_outcome(stop),
        LearnStop::Crowd(words) => Outcome::TooManyStates(words),
        LearnStop::TooLarge { model, number } => Outcome::SuiteTooLarge {
            states: model.states(),
            number,
        },
    }
}

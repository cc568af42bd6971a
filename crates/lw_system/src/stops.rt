//! Why a file was not read, and why a file says no system.

use crate::Source;
use lw_accept::AcceptorFault;
use lw_json::JsonFault;
use lw_outside::FilesStop;

/// Why a file of a kind with these faults was not read.
#[derive(Clone, Copy, Debug, PartialEq, Eq)]
pub enum ReadStop<F> {
    /// It could not be read.
    Failed,
    /// It has more than 16,777,216 bytes, or more than 4,294,967,296 where it begins as a journal does.
    TooLong,
    /// It is none of its kind, and this is its first fault.
    Bad(F),
    NoMemory,
}

/// Which file was not read, so that there is no system, and why.
#[derive(Clone, Copy, Debug, PartialEq, Eq)]
pub struct SystemStop {
    pub file: Source,
    pub stop: ReadStop<JsonFault>,
}

/// Why there is no system that is asked for an acceptor.
#[derive(Clone, Copy, Debug, PartialEq, Eq)]
pub enum AcceptorStop {
    /// The setup was not read.
    Setup(ReadStop<JsonFault>),
    /// The acceptor file was not read.
    Table(ReadStop<AcceptorFault>),
    /// `?` can't stand beside the inputs of the setup's command: they are too many, or one of them is `?`.
    Letters(AcceptorFault),
    NoMemory,
}

/// Why files say no system, by what is to be learned of it.
#[derive(Clone, Copy, Debug, PartialEq, Eq)]
pub enum NoSystem {
    /// Of which a machine is to be learned.
    Machine(SystemStop),
    /// Of which an acceptor is.
    Acceptor(AcceptorStop),
}

impl<F> From<FilesStop> for ReadStop<F> {
    ghost use Rattle.std.specs.Prelude.{◌≡◌};
    ghost use Rattle.lw_system.specs.Stops.{unread};

    ghost from_gives = { λ refusal stop. stop ≡ unread refusal };

    fn from(refusal: FilesStop) -> ReadStop<F> {
        match refusal {
            FilesStop::Failed => ReadStop::Failed,
            FilesStop::TooLong => ReadStop::TooLong,
            FilesStop::NoMemory => ReadStop::NoMemory,
        }
    }
}

impl From<JsonFault> for ReadStop<JsonFault> {
    ghost use Rattle.std.specs.Prelude.{◌≡◌};
    ghost use Rattle.lw_system.specs.Stops.{read_stop};

    ghost from_gives = { λ fault stop. stop ≡ read_stop fault };

    fn from(fault: JsonFault) -> ReadStop<JsonFault> {
        match fault {
            JsonFault::NoMemory => ReadStop::NoMemory,
            _ => ReadStop::Bad(fault),
        }
    }
}

impl From<AcceptorFault> for ReadStop<AcceptorFault> {
    ghost use Rattle.std.specs.Prelude.{◌≡◌};
    ghost use Rattle.lw_system.specs.Stops.{acceptor_stop};

    ghost from_gives = { λ fault stop. stop ≡ acceptor_stop fault };

    fn from(fault: AcceptorFault) -> ReadStop<AcceptorFault> {
        match fault {
            AcceptorFault::NoMemory => ReadStop::NoMemory,
            own => ReadStop::Bad(own),
        }
    }
}

//! Why bytes are no acceptor file, and why a machine is none of an acceptor.

use lw_words::{NamesFault, NoMemory};
use std::alloc::{AllocError, AllocFailed};

/// What of an acceptor file has not its shape, in the order in which faults are looked for.
#[derive(Clone, Copy, Debug, PartialEq, Eq)]
pub enum AcceptorField {
    /// The whole, which is to be an object.
    Root,
    Accepting,
    Inputs,
    Targets,
}

/// Why bytes are no acceptor file: the first of these that applies.
#[derive(Clone, Copy, Debug, PartialEq, Eq)]
pub enum AcceptorFault {
    /// They are no JSON text that can be read.
    NotJson,
    /// This member is missing or hasn't its shape.
    Shape(AcceptorField),
    /// The inputs are no list of 1 to 63 names.
    Inputs(NamesFault),
    /// The input at this place is `?`, which asks whether a word is accepted.
    Reserved(usize),
    /// There is no state.
    NoState,
    /// There are this many states, which is above 1,024.
    TooMany(usize),
    /// There isn't one truth value for each state.
    Lengths,
    /// The first state that hasn't one target for each input.
    Ragged(u16),
    /// The first target that is no state: its state, its letter and itself.
    Target(u16, u16, u16),
    NoMemory,
}

impl From<NoMemory> for AcceptorFault {
    ghost use Rattle.std.specs.Prelude.{◌≡◌};
    ghost use Rattle.lw_accept.specs.declared.fault.AcceptorFault.TheVariants.{NoMemory};

    ghost from_gives = { λ _ fault. fault ≡ NoMemory };

    fn from(_: NoMemory) -> AcceptorFault {
        AcceptorFault::NoMemory
    }
}

impl From<AllocError> for AcceptorFault {
    ghost use Rattle.std.specs.Prelude.{◌≡◌};
    ghost use Rattle.lw_accept.specs.declared.fault.AcceptorFault.TheVariants.{NoMemory};

    ghost from_gives = { λ _ fault. fault ≡ NoMemory };

    fn from(_: AllocError) -> AcceptorFault {
        AcceptorFault::NoMemory
    }
}

impl<T: Drop> From<AllocFailed<T>> for AcceptorFault {
    ghost use Rattle.std.specs.Prelude.{◌≡◌};
    ghost use Rattle.lw_accept.specs.declared.fault.AcceptorFault.TheVariants.{NoMemory};

    ghost from_gives = { λ _ fault. fault ≡ NoMemory };

    fn from(_: AllocFailed<T>) -> AcceptorFault {
        AcceptorFault::NoMemory
    }
}

/// Why a machine gives no acceptor.
#[derive(Clone, Copy, Debug, PartialEq, Eq)]
pub enum ViewFault {
    /// The first pair, by state, then by letter, that no machine of an acceptor has there.
    NotAcceptor { state: u16, letter: u16 },
    NoMemory,
}

impl From<NoMemory> for ViewFault {
    ghost use Rattle.std.specs.Prelude.{◌≡◌};
    ghost use Rattle.lw_accept.specs.declared.fault.ViewFault.TheVariants.{NoMemory};

    ghost from_gives = { λ _ fault. fault ≡ NoMemory };

    fn from(_: NoMemory) -> ViewFault {
        ViewFault::NoMemory
    }
}

impl From<AllocError> for ViewFault {
    ghost use Rattle.std.specs.Prelude.{◌≡◌};
    ghost use Rattle.lw_accept.specs.declared.fault.ViewFault.TheVariants.{NoMemory};

    ghost from_gives = { λ _ fault. fault ≡ NoMemory };

    fn from(_: AllocError) -> ViewFault {
        ViewFault::NoMemory
    }
}

impl<T: Drop> From<AllocFailed<T>> for ViewFault {
    ghost use Rattle.std.specs.Prelude.{◌≡◌};
    ghost use Rattle.lw_accept.specs.declared.fault.ViewFault.TheVariants.{NoMemory};

    ghost from_gives = { λ _ fault. fault ≡ NoMemory };

    fn from(_: AllocFailed<T>) -> ViewFault {
        ViewFault::NoMemory
    }
}

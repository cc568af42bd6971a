//! Why answers were not made ready.
use lw_words::NoMemory;
use std::alloc::{AllocError, AllocFailed};

/// Why the answers of an earlier call were not made ready.
#[derive(Clone, Copy, Debug, PartialEq, Eq)]
pub enum PriorStop {
    /// The letters are others, or an output has a name that the other list lacks.
    NamesDiffer,
    NoMemory,
}

impl From<NoMemory> for PriorStop {
    ghost use Rattle.std.specs.Prelude.{◌≡◌};
    ghost use Rattle.lw_prior.specs.declared.stops.PriorStop.TheVariants.{NoMemory};

    ghost from_gives = { λ _ stop. stop ≡ NoMemory };

    fn from(_: NoMemory) -> PriorStop {
        PriorStop::NoMemory
    }
}

impl From<AllocError> for PriorStop {
    ghost use Rattle.std.specs.Prelude.{◌≡◌};
    ghost use Rattle.lw_prior.specs.declared.stops.PriorStop.TheVariants.{NoMemory};

    ghost from_gives = { λ _ stop. stop ≡ NoMemory };

    fn from(_: AllocError) -> PriorStop {
        PriorStop::NoMemory
    }
}

impl<T: Drop> From<AllocFailed<T>> for PriorStop {
    ghost use Rattle.std.specs.Prelude.{◌≡◌};
    ghost use Rattle.lw_prior.specs.declared.stops.PriorStop.TheVariants.{NoMemory};

    ghost from_gives = { λ _ stop. stop ≡ NoMemory };

    fn from(_: AllocFailed<T>) -> PriorStop {
        PriorStop::NoMemory
    }
}

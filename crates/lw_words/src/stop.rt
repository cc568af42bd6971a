//! Why a system or a run of it stopped.
ghost use Rattle.std.specs.Prelude.{◌≡◌};

use crate::{Line, NoMemory};

/// Why a system stopped.
#[derive(Drop)]
pub enum SulStop {
    /// It failed, as when a write to it was refused.
    Failed,
    /// It answered this line, which the protocol doesn't know at its place.
    BadLine(Line),
    /// Its output ended before the answer did.
    Gone,
}

impl SulStop {
    /// The same stop once more. Takes no memory.
    pub fn copy(&self) -> SulStop
        ensures { result ≡ self.now }
    {
        match self {
            SulStop::Failed => SulStop::Failed,
            SulStop::BadLine(line) => SulStop::BadLine(line.copy()),
            SulStop::Gone => SulStop::Gone,
        }
    }
}

/// Why a run of a system was not finished.
#[derive(Drop)]
pub enum RunStop {
    /// The system stopped.
    Sul(SulStop),
    /// Out of memory before the run began.
    NoMemory,
}

impl From<SulStop> for RunStop {
    ghost use Rattle.std.specs.Prelude.{◌≡◌};
    ghost use Rattle.lw_words.specs.declared.stop.RunStop.TheVariants.{Sul};

    ghost from_gives = { λ stop whole. whole ≡ Sul stop };

    fn from(stop: SulStop) -> RunStop {
        RunStop::Sul(stop)
    }
}

impl From<NoMemory> for RunStop {
    ghost use Rattle.std.specs.Prelude.{◌≡◌};
    ghost use Rattle.lw_words.specs.declared.stop.RunStop.TheVariants.{NoMemory};

    ghost from_gives = { λ _ whole. whole ≡ NoMemory };

    fn from(_: NoMemory) -> RunStop {
        RunStop::NoMemory
    }
}

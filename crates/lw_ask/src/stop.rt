//! Why no more words were asked.
ghost use Rattle.std.specs.Prelude.{◌≡◌};

use lw_outside::Failed;
use lw_words::{NoMemory, RunStop, SulStop};

/// Why no more words were asked.
#[derive(Drop)]
pub enum AskingStop {
    /// The system stopped.
    Sul(SulStop),
    /// The stream refused a line.
    Sink,
    NoMemory,
}

impl From<RunStop> for AskingStop {
    ghost use Rattle.std.specs.Prelude.{◌≡◌};
    ghost use Rattle.lw_ask.specs.Stops.{run_stop};

    ghost from_gives = { λ stop whole. whole ≡ run_stop stop };

    fn from(stop: RunStop) -> AskingStop {
        match stop {
            RunStop::Sul(stop) => AskingStop::Sul(stop),
            RunStop::NoMemory => AskingStop::NoMemory,
        }
    }
}

impl From<NoMemory> for AskingStop {
    ghost use Rattle.std.specs.Prelude.{◌≡◌};
    ghost use Rattle.lw_ask.specs.declared.stop.AskingStop.TheVariants.{NoMemory as Wanted};

    ghost from_gives = { λ _ whole. whole ≡ Wanted };

    fn from(_: NoMemory) -> AskingStop {
        AskingStop::NoMemory
    }
}

impl From<Failed> for AskingStop {
    ghost use Rattle.std.specs.Prelude.{◌≡◌};
    ghost use Rattle.lw_ask.specs.declared.stop.AskingStop.TheVariants.{Sink};

    ghost from_gives = { λ _ whole. whole ≡ Sink };

    fn from(_: Failed) -> AskingStop {
        AskingStop::Sink
    }
}

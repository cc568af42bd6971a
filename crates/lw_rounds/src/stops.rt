//! Why a learning stopped.
ghost use Rattle.std.specs.Prelude.{◌≡◌};

use lw_cache::{AskStop, GrowStop};
use lw_mealy::Mealy;
use lw_words::{NoMemory, Words};

/// Why a learning stopped.
#[derive(Drop)]
pub enum LearnStop {
    /// An ask stopped, or the learning itself ran out of memory, which is `AskStop::NoMemory`.
    Ask(AskStop),
    /// These words need more states than there may be.
    Crowd(Words),
    /// The suite of this model would have this size, which is above the greatest.
    TooLarge { model: Mealy, number: u64 },
}

impl From<AskStop> for LearnStop {
    ghost use Rattle.std.specs.Prelude.{◌≡◌};
    ghost use Rattle.lw_rounds.specs.declared.stops.LearnStop.TheVariants.{Ask};

    ghost from_gives = { λ stop whole. whole ≡ Ask stop };

    fn from(stop: AskStop) -> LearnStop {
        LearnStop::Ask(stop)
    }
}

impl From<NoMemory> for LearnStop {
    ghost use Rattle.std.specs.Prelude.{◌≡◌};
    ghost use Rattle.lw_cache.specs.declared.stops.AskStop.TheVariants.{NoMemory};
    ghost use Rattle.lw_rounds.specs.declared.stops.LearnStop.TheVariants.{Ask};

    ghost from_gives = { λ _ whole. whole ≡ Ask NoMemory };

    fn from(_: NoMemory) -> LearnStop {
        LearnStop::Ask(AskStop::NoMemory)
    }
}

impl From<GrowStop> for LearnStop {
    ghost use Rattle.std.specs.Prelude.{◌≡◌};
    ghost use Rattle.lw_rounds.specs.Stops.{of_growth};

    ghost from_gives = { λ stop whole. whole ≡ of_growth stop };

    fn from(stop: GrowStop) -> LearnStop {
        match stop {
            GrowStop::Ask(stop) => LearnStop::Ask(stop),
            GrowStop::Crowd(words) => LearnStop::Crowd(words),
        }
    }
}

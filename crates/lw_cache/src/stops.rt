//! Why an answer was not kept as a clear one, and why an ask or a learner stopped.
ghost use Rattle.std.specs.Prelude.{◌≡◌};

use lw_words::{NoMemory, SulStop, Words};

/// Two recorded answers, by their numbers, that no one machine agrees with: up to and with the place their letters
/// agree, and their outputs agree before it and differ at it.
#[derive(Clone, Copy, Debug, PartialEq, Eq)]
pub struct Clash {
    pub first: usize,
    pub second: usize,
    pub place: usize,
}

/// What came of an answer that was to be kept, where it isn't clear.
#[derive(Drop)]
pub enum KeepStop {
    /// It is kept, and clashes with a clear answer.
    Clash(Clash),
    /// Out of memory; nothing changed.
    NoMemory,
}

impl From<NoMemory> for KeepStop {
    ghost use Rattle.std.specs.Prelude.{◌≡◌};
    ghost use Rattle.lw_cache.specs.declared.stops.KeepStop.TheVariants.{NoMemory};

    ghost from_gives = { λ _ whole. whole ≡ NoMemory };

    fn from(_: NoMemory) -> KeepStop {
        KeepStop::NoMemory
    }
}

impl From<Clash> for KeepStop {
    ghost use Rattle.std.specs.Prelude.{◌≡◌};
    ghost use Rattle.lw_cache.specs.declared.stops.KeepStop.TheVariants.{Clash};

    ghost from_gives = { λ clash whole. whole ≡ Clash clash };

    fn from(clash: Clash) -> KeepStop {
        KeepStop::Clash(clash)
    }
}

/// Why words were not all answered.
#[derive(Drop)]
pub enum AskStop {
    /// The system of this instance stopped.
    Sul { instance: u32, stop: SulStop },
    /// Two recorded answers clash.
    Clash(Clash),
    /// Out of memory.
    NoMemory,
}

impl AskStop {
    /// The same stop once more. Takes no memory.
    pub fn copy(&self) -> AskStop
        ensures { result ≡ self.now }
    {
        match self {
            AskStop::Sul { instance, stop } => AskStop::Sul {
                instance: *instance,
                stop: stop.copy(),
            },
            AskStop::Clash(clash) => AskStop::Clash(*clash),
            AskStop::NoMemory => AskStop::NoMemory,
        }
    }
}

impl From<NoMemory> for AskStop {
    ghost use Rattle.std.specs.Prelude.{◌≡◌};
    ghost use Rattle.lw_cache.specs.declared.stops.AskStop.TheVariants.{NoMemory};

    ghost from_gives = { λ _ whole. whole ≡ NoMemory };

    fn from(_: NoMemory) -> AskStop {
        AskStop::NoMemory
    }
}

impl From<Clash> for AskStop {
    ghost use Rattle.std.specs.Prelude.{◌≡◌};
    ghost use Rattle.lw_cache.specs.declared.stops.AskStop.TheVariants.{Clash};

    ghost from_gives = { λ clash whole. whole ≡ Clash clash };

    fn from(clash: Clash) -> AskStop {
        AskStop::Clash(clash)
    }
}

/// Why a learner stopped.
#[derive(Drop)]
pub enum GrowStop {
    /// An ask stopped, or the learner itself ran out of memory, which is `AskStop::NoMemory`.
    Ask(AskStop),
    /// These words need more states than there may be.
    Crowd(Words),
}

impl From<AskStop> for GrowStop {
    ghost use Rattle.std.specs.Prelude.{◌≡◌};
    ghost use Rattle.lw_cache.specs.declared.stops.GrowStop.TheVariants.{Ask};

    ghost from_gives = { λ stop whole. whole ≡ Ask stop };

    fn from(stop: AskStop) -> GrowStop {
        GrowStop::Ask(stop)
    }
}

impl From<NoMemory> for GrowStop {
    ghost use Rattle.std.specs.Prelude.{◌≡◌};
    ghost use Rattle.lw_cache.specs.declared.stops.AskStop.TheVariants.{NoMemory};
    ghost use Rattle.lw_cache.specs.declared.stops.GrowStop.TheVariants.{Ask};

    ghost from_gives = { λ _ whole. whole ≡ Ask NoMemory };

    fn from(_: NoMemory) -> GrowStop {
        GrowStop::Ask(AskStop::NoMemory)
    }
}

//! The numbers of a learning, its kind, and how its models are tested.
ghost use Rattle.std.specs.Prelude.{◌≤◌};

use crate::Kind;
use lw_chunks::Method;
use lw_draw::Drawn;

/// How a model is tested before it is sure: how its suites are made, and the walks that are drawn behind them, if some are.
#[derive(Clone, Copy, Debug, PartialEq, Eq)]
pub struct Testing {
    pub suite: Method,
    pub walks: Option<Drawn>,
}

impl Testing {
    ghost use Rattle.std.specs.Prelude.{◌≡◌, None};

    /// By suites of this kind alone.
    pub const fn by(suite: Method) -> Testing
        ensures { result ≡ record { suite = suite; walks = None } }
    {
        Testing { suite, walks: None }
    }
}

/// What a learning is to keep to: how many instances of the system it may ask, the kind of its learner, how many states more than
/// the model a machine may have for which the model is sure, how many states the model may have, and how its models are tested.
#[derive(Clone, Copy, Debug, PartialEq, Eq)]
pub struct Settings {
    pub workers: u8,
    pub kind: Kind,
    pub extra: u8,
    pub max_states: u16,
    pub testing: Testing,
    pub ghost workers_in_range: { (1 ≤ workers) × (workers ≤ 16) },
    pub ghost extra_in_range: { extra ≤ 4 },
    pub ghost states_in_range: { (1 ≤ max_states) × (max_states ≤ 1024) },
}

impl Settings {
    ghost use Rattle.std.specs.Prelude.{◌≡◌, MatchOption};
    ghost use Rattle.lw_rounds.specs.Settings.{AreInRange};

    /// The settings of these values, or None where one is out of its range: 1 to 16 workers, 0 to 4 extra states, and 1 to 1,024
    /// states.
    pub fn new(
        workers: u8,
        kind: Kind,
        extra: u8,
        max_states: u16,
        testing: Testing,
    ) -> Option<Settings>
        ensures { MatchOption result (¬ AreInRange workers extra max_states)
            (λ s. (s.workers ≡ workers) × (s.kind ≡ kind) × (s.extra ≡ extra)
            × (s.max_states ≡ max_states) × (s.testing ≡ testing)) }
    {
        if workers < 1 || workers > 16 || extra > 4 || max_states < 1 || max_states > 1024 {
            return None;
        }
        Some(Settings {
            workers,
            kind,
            extra,
            max_states,
            testing,
        })
    }
}

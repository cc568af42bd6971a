//! What a learning answers.
ghost use Rattle.std.specs.Prelude.{◌≡◌};
ghost use Rattle.lw_rounds.specs.Learner.{refinements_of, IsLearner};

use crate::Learner;
use lw_mealy::Mealy;

/// A model that is sure, and the learner that it was read off.
#[derive(Drop)]
pub struct Learned {
    pub model: Mealy,
    pub learner: Learner,
}

impl Learned {
    /// How often the learner was refined.
    pub fn refinements(&self) -> u32
        ensures value { result ≡ refinements_of self.now.learner }
        ensures learner { IsLearner self.now.learner }
    {
        self.learner.refinements()
    }
}

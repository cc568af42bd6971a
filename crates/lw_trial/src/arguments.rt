//! The values of the arguments of `trial`.
ghost use Rattle.std.specs.Prelude.{◌≡◌, ◌<◌, ◌≤◌, ◌^◌};

use lw_chunks::Method;
use lw_rounds::Kind;
use std::marker::Model;

/// The values of the arguments of `trial`: the states and inputs of the machine that is drawn, the seed that it is drawn by, the
/// number of its instances, the kind of the learner, and how suites are made.
#[derive(Drop)]
pub struct TrialArguments {
    states: u16,
    inputs: u16,
    seed: u64,
    workers: u8,
    learner: Kind,
    suite: Method,
}

impl Model for TrialArguments {
    ghost use Rattle.lw_trial.specs.Arguments.{AreWithinLimits, TrialValues};

    ghost Value = { TrialValues };

    ghost view = { λ a. record {
      states = a.states;
      inputs = a.inputs;
      seed = a.seed;
      workers = a.workers;
      learner = a.learner;
      suite = a.suite;
    } };

    ghost invariant = { λ a. AreWithinLimits (record {
      states = a.states;
      inputs = a.inputs;
      seed = a.seed;
      workers = a.workers;
      learner = a.learner;
      suite = a.suite;
    }) };
}

impl TrialArguments {
    /// These values, which are within their limits.
    pub fn new(
        states: u16,
        inputs: u16,
        seed: u64,
        workers: u8,
        learner: Kind,
        suite: Method,
    ) -> TrialArguments
        requires states { (1 ≤ states) × (states ≤ 1024) }
        requires inputs { (1 ≤ inputs) × (inputs ≤ 64) }
        requires workers { (1 ≤ workers) × (workers ≤ 16) }
        ensures { result ≡ record {
          states = states;
          inputs = inputs;
          seed = seed;
          workers = workers;
          learner = learner;
          suite = suite;
        } }
    {
        TrialArguments {
            states,
            inputs,
            seed,
            workers,
            learner,
            suite,
        }
    }

    pub fn states(&self) -> u16
        ensures value { result ≡ self.now.states }
        ensures limits { (1 ≤ result) × (result ≤ 1024) }
    {
        self.states
    }

    pub fn inputs(&self) -> u16
        ensures value { result ≡ self.now.inputs }
        ensures limits { (1 ≤ result) × (result ≤ 64) }
    {
        self.inputs
    }

    pub fn seed(&self) -> u64
        ensures { result ≡ self.now.seed }
    {
        self.seed
    }

    pub fn workers(&self) -> u8
        ensures value { result ≡ self.now.workers }
        ensures limits { (1 ≤ result) × (result ≤ 16) }
    {
        self.workers
    }

    /// The kind of the learner.
    pub fn learner(&self) -> Kind
        ensures { result ≡ self.now.learner }
    {
        self.learner
    }

    pub fn suite(&self) -> Method
        ensures { result ≡ self.now.suite }
    {
        self.suite
    }
}

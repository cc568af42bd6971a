//! The values of the arguments of `recheck`.
ghost use Rattle.std.specs.Prelude.{◌≡◌, string_bytes};

use std::marker::Model;

/// The values of the arguments of `recheck`: the names of the setup's file and of the answers'.
#[derive(Drop)]
pub struct RecheckArguments {
    setup: String,
    answers: String,
}

impl Model for RecheckArguments {
    ghost use Rattle.std.specs.Prelude.{string_bytes};
    ghost use Rattle.lw_recheck.specs.Arguments.{RecheckValues};

    ghost Value = { RecheckValues };

    ghost view = { λ a. record { setup = string_bytes a.setup; answers = string_bytes a.answers } };
}

impl RecheckArguments {
    /// Takes no memory.
    pub fn new(setup: String, answers: String) -> RecheckArguments
        ensures { result ≡ record {
          setup = string_bytes setup;
          answers = string_bytes answers;
        } }
    {
        RecheckArguments { setup, answers }
    }

    /// The name of the setup's file.
    pub fn setup(&self) -> &str
        ensures { result.now ≡ self.now.setup }
    {
        self.setup.as_str()
    }

    /// The name of the answers' file.
    pub fn answers(&self) -> &str
        ensures { result.now ≡ self.now.answers }
    {
        self.answers.as_str()
    }
}

//! The values of the arguments of `ask`.
ghost use Rattle.std.specs.Prelude.{◌≡◌, map, string_bytes};

use lw_system::{Goal, Source};
use std::marker::Model;

/// The values of the arguments of `ask`: what is asked of the system, its file and the kind of this, and the words, each of
/// which is the names of its letters with blanks between them.
#[derive(Drop)]
pub struct AskArguments {
    goal: Goal,
    source: Source,
    system: String,
    words: Vec<String>,
}

impl Model for AskArguments {
    ghost use Rattle.std.specs.Prelude.{map, string_bytes};
    ghost use Rattle.lw_ask.specs.Arguments.{AskValues};

    ghost Value = { AskValues };

    ghost view = { λ a. record {
      goal = a.goal;
      source = a.source;
      system = string_bytes a.system;
      words = map (λ s. string_bytes s) a.words.items;
    } };
}

impl AskArguments {
    /// Takes no memory.
    pub fn new(goal: Goal, source: Source, system: String, words: Vec<String>) -> AskArguments
        ensures { result ≡ record {
          goal = goal;
          source = source;
          system = string_bytes system;
          words = map (λ s. string_bytes s) words.items;
        } }
    {
        AskArguments {
            goal,
            source,
            system,
            words,
        }
    }

    /// Whether the system is asked as a machine, or for an acceptor.
    pub fn goal(&self) -> Goal
        ensures { result ≡ self.now.goal }
    {
        self.goal
    }

    /// What kind of file the system is read of.
    pub fn source(&self) -> Source
        ensures { result ≡ self.now.source }
    {
        self.source
    }

    /// The name of the system's file.
    pub fn system(&self) -> &str
        ensures { result.now ≡ self.now.system }
    {
        self.system.as_str()
    }

    /// The texts of the words.
    pub fn words(&self) -> &[String]
        ensures { map (λ s. string_bytes s) result.now ≡ self.now.words }
    {
        self.words.as_slice()
    }
}

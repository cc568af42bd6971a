//! The values of the arguments of `learn` and of `accept`.
ghost use Rattle.std.specs.Prelude.{◌≡◌, ◌≤◌, IfSome, option_map, string_bytes};
ghost use Rattle.lw_learn.specs.Arguments.{AreFewDrawn, with_earlier};

use lw_draw::Drawn;
use lw_rounds::Settings;
use lw_system::{Goal, Source};
use std::marker::Model;

/// The files that `learn` is given beside the system's, where they are: for the model and for the answers, which are to be written,
/// of prior answers, for the answers that are kept at any end, for the machine that is left at an end without a model, of the words
/// that are asked first, for the log, and for the journal.
#[derive(Drop)]
pub struct LearnFiles {
    pub model: Option<String>,
    pub answers: Option<String>,
    pub prior: Option<String>,
    pub kept: Option<String>,
    pub last: Option<String>,
    pub words: Option<String>,
    pub log: Option<String>,
    pub journal: Option<String>,
}

/// The values of the arguments of `learn` and of `accept`: what is learned, the file of the system and its kind, the settings of
/// the learning, the words that are drawn to be asked first, the other files, and whether progress is told.
#[derive(Drop)]
pub struct LearnArguments {
    goal: Goal,
    source: Source,
    system: String,
    settings: Settings,
    drawn: Option<Drawn>,
    files: LearnFiles,
    verbose: bool,
    /// Whether the journal holds runs, which are then the prior answers.
    resumes: bool,
}

impl Model for LearnArguments {
    ghost use Rattle.std.specs.Prelude.{option_map, string_bytes};
    ghost use Rattle.lw_learn.specs.Arguments.{AreWithinLimits, LearnValues, earlier_of};

    ghost Value = { LearnValues };

    ghost view = { λ a. record {
      goal = a.goal;
      source = a.source;
      system = string_bytes a.system;
      workers = a.settings.workers;
      extra = a.settings.extra;
      learner = a.settings.kind;
      max_states = a.settings.max_states;
      testing = a.settings.testing;
      model = option_map (λ s. string_bytes s) a.files.model;
      answers = option_map (λ s. string_bytes s) a.files.answers;
      prior = earlier_of a.resumes (option_map (λ s. string_bytes s) a.files.journal)
          (option_map (λ s. string_bytes s) a.files.prior);
      kept = option_map (λ s. string_bytes s) a.files.kept;
      last = option_map (λ s. string_bytes s) a.files.last;
      words = option_map (λ s. string_bytes s) a.files.words;
      drawn = a.drawn;
      log = option_map (λ s. string_bytes s) a.files.log;
      journal = option_map (λ s. string_bytes s) a.files.journal;
      verbose = a.verbose;
    } };

    ghost invariant = { λ a. AreWithinLimits (record {
      goal = a.goal;
      source = a.source;
      system = string_bytes a.system;
      workers = a.settings.workers;
      extra = a.settings.extra;
      learner = a.settings.kind;
      max_states = a.settings.max_states;
      testing = a.settings.testing;
      model = option_map (λ s. string_bytes s) a.files.model;
      answers = option_map (λ s. string_bytes s) a.files.answers;
      prior = earlier_of a.resumes (option_map (λ s. string_bytes s) a.files.journal)
          (option_map (λ s. string_bytes s) a.files.prior);
      kept = option_map (λ s. string_bytes s) a.files.kept;
      last = option_map (λ s. string_bytes s) a.files.last;
      words = option_map (λ s. string_bytes s) a.files.words;
      drawn = a.drawn;
      log = option_map (λ s. string_bytes s) a.files.log;
      journal = option_map (λ s. string_bytes s) a.files.journal;
      verbose = a.verbose;
    }) };
}

impl LearnArguments {
    /// These values, which are within their limits.
    pub fn new(
        goal: Goal,
        source: Source,
        system: String,
        settings: Settings,
        drawn: Option<Drawn>,
        files: LearnFiles,
        verbose: bool,
    ) -> LearnArguments
        requires { IfSome drawn AreFewDrawn }
        ensures { result ≡ record {
          goal = goal;
          source = source;
          system = string_bytes system;
          workers = settings.workers;
          extra = settings.extra;
          learner = settings.kind;
          max_states = settings.max_states;
          testing = settings.testing;
          model = option_map (λ s. string_bytes s) files.model;
          answers = option_map (λ s. string_bytes s) files.answers;
          prior = option_map (λ s. string_bytes s) files.prior;
          kept = option_map (λ s. string_bytes s) files.kept;
          last = option_map (λ s. string_bytes s) files.last;
          words = option_map (λ s. string_bytes s) files.words;
          drawn = drawn;
          log = option_map (λ s. string_bytes s) files.log;
          journal = option_map (λ s. string_bytes s) files.journal;
          verbose = verbose;
        } }
    {
        LearnArguments {
            goal,
            source,
            system,
            settings,
            drawn,
            files,
            verbose,
            resumes: false,
        }
    }

    /// The journal holds runs, with which the call begins in place of prior answers.
    pub(crate) fn resume(&mut self)
        ensures { self.new ≡ with_earlier self.old.journal self.old }
    {
        self.resumes = true;
    }

    /// What is learned of the system.
    pub fn goal(&self) -> Goal
        ensures { result ≡ self.now.goal }
    {
        self.goal
    }

    /// What kind of file the system is read of.
    pub fn source(&self) -> Source
        ensures { result ≡ self.now.source }
    {
        self.source
    }

    /// The name of the system's file.
    pub fn system(&self) -> &str
        ensures { result.now ≡ self.now.system }
    {
        self.system.as_str()
    }

    /// What the learning keeps to.
    pub fn settings(&self) -> Settings
        ensures workers { result.workers ≡ self.now.workers }
        ensures kind { result.kind ≡ self.now.learner }
        ensures extra { result.extra ≡ self.now.extra }
        ensures states { result.max_states ≡ self.now.max_states }
        ensures testing { result.testing ≡ self.now.testing }
    {
        self.settings
    }

    pub fn extra(&self) -> u8
        ensures value { result ≡ self.now.extra }
        ensures limit { result ≤ 4 }
    {
        self.settings.extra
    }

    pub fn model(&self) -> Option<&str>
        ensures { option_map (λ s. s.now) result ≡ self.now.model }
    {
        text_of(&self.files.model)
    }

    pub fn answers(&self) -> Option<&str>
        ensures { option_map (λ s. s.now) result ≡ self.now.answers }
    {
        text_of(&self.files.answers)
    }

    /// The name of the file of prior answers: the journal, where the call goes on with one.
    pub fn prior(&self) -> Option<&str>
        ensures { option_map (λ s. s.now) result ≡ self.now.prior }
    {
        if self.resumes {
            text_of(&self.files.journal)
        } else {
            text_of(&self.files.prior)
        }
    }

    pub fn kept(&self) -> Option<&str>
        ensures { option_map (λ s. s.now) result ≡ self.now.kept }
    {
        text_of(&self.files.kept)
    }

    /// The name of the file for the machine that is left at an end without a model.
    pub fn last(&self) -> Option<&str>
        ensures { option_map (λ s. s.now) result ≡ self.now.last }
    {
        text_of(&self.files.last)
    }

    /// The name of the file of words that are asked first.
    pub fn words(&self) -> Option<&str>
        ensures { option_map (λ s. s.now) result ≡ self.now.words }
    {
        text_of(&self.files.words)
    }

    /// The words that are drawn and asked behind them.
    pub fn drawn(&self) -> Option<Drawn>
        ensures value { result ≡ self.now.drawn }
        ensures limits { IfSome result AreFewDrawn }
    {
        self.drawn
    }

    /// Whether progress is told on standard error.
    pub fn verbose(&self) -> bool
        ensures { result ≡ self.now.verbose }
    {
        self.verbose
    }

    /// The name of the file of the log.
    pub fn log(&self) -> Option<&str>
        ensures { option_map (λ s. s.now) result ≡ self.now.log }
    {
        text_of(&self.files.log)
    }

    /// The name of the file of the journal.
    pub fn journal(&self) -> Option<&str>
        ensures { option_map (λ s. s.now) result ≡ self.now.journal }
    {
        text_of(&self.files.journal)
    }
}

/// The text of a string that may be there.
fn text_of(text: &Option<String>) -> Option<&str>
    ensures { option_map (λ s. s.now) result ≡ option_map (λ s. string_bytes s) text.now }
{
    match text {
        Some(text) => Some(text.as_str()),
        None => None,
    }
}

//! The arguments that commands share.
use crate::options::{Argument, Entry};
use crate::ranges::{EXTRA, LENGTH, RANDOM, SEED, STATES, WORKERS};

/// The kinds of learner.
pub(crate) const KINDS: &[&str] = &["table", "ttt"];

/// How suites are made.
pub(crate) const METHODS: &[&str] = &["w", "wp", "h"];

pub(crate) const SETUP: Entry = Entry {
    argument: Argument::Optional("setup"),
    value: "(SETUP | --table FILE)",
    about: "the setup file of the program",
};

pub(crate) const TABLE: Entry = Entry {
    argument: Argument::Text("table"),
    value: "FILE",
    about: "the file of a machine in place of the setup",
};

pub(crate) const WORKERS_ENTRY: Entry = Entry {
    argument: Argument::NumberOr("workers", WORKERS, "1"),
    value: "N",
    about: "how many instances are asked at once",
};

pub(crate) const EXTRA_ENTRY: Entry = Entry {
    argument: Argument::NumberOr("extra", EXTRA, "1"),
    value: "K",
    about: "how many states more than the model a machine may have and is ruled out",
};

pub(crate) const LEARNER: Entry = Entry {
    argument: Argument::OneOf("learner", KINDS, "table"),
    value: "KIND",
    about: "the learner: an observation table or a discrimination tree",
};

pub(crate) const MAX_STATES: Entry = Entry {
    argument: Argument::NumberOr("max-states", STATES, "1024"),
    value: "N",
    about: "how many states a model may have",
};

pub(crate) const MODEL: Entry = Entry {
    argument: Argument::Text("model"),
    value: "FILE",
    about: "where the model is written",
};

pub(crate) const KEPT: Entry = Entry {
    argument: Argument::Text("kept"),
    value: "FILE",
    about: "where the recorded answers are saved at every end that has any",
};

pub(crate) const WORDS: Entry = Entry {
    argument: Argument::Text("words"),
    value: "FILE",
    about: "words that are asked first, one a line",
};

pub(crate) const RANDOM_ENTRY: Entry = Entry {
    argument: Argument::Number("random", RANDOM),
    value: "R",
    about: "how many words are drawn and asked first; with --length and --seed",
};

pub(crate) const WALKS: Entry = Entry {
    argument: Argument::Number("walks", RANDOM),
    value: "N",
    about: "how many walks are drawn behind the suite of each model; with --length and --seed",
};

pub(crate) const LENGTH_ENTRY: Entry = Entry {
    argument: Argument::Number("length", LENGTH),
    value: "L",
    about: "how many letters are drawn for each; with --seed and --random or --walks",
};

pub(crate) const SEED_ENTRY: Entry = Entry {
    argument: Argument::Number("seed", SEED),
    value: "S",
    about: "what the drawing begins with; with --length and --random or --walks",
};

pub(crate) const LOG: Entry = Entry {
    argument: Argument::Text("log"),
    value: "FILE",
    about: "where each step is logged",
};

pub(crate) const LAST: Entry = Entry {
    argument: Argument::Text("last"),
    value: "FILE",
    about: "where the machine of the last closed learner is written at an end without a model",
};

pub(crate) const JOURNAL: Entry = Entry {
    argument: Argument::Text("journal"),
    value: "FILE",
    about: "where each answer is written as it comes, behind those that the call begins with",
};

pub(crate) const VERBOSE: Entry = Entry {
    argument: Argument::Flag("verbose"),
    value: "",
    about: "tells reasons and progress on standard error",
};

pub(crate) const SUITE: Entry = Entry {
    argument: Argument::OneOf("suite", METHODS, "w"),
    value: "METHOD",
    about: "how suites are made: by the W-, Wp- or H-method",
};

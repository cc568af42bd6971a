//! The ranges of the options that take numbers: what clap takes, what is read, what a log is told of and what the specs say goes
//! by these.

/// The whole numbers from the least to the greatest.
#[derive(Clone, Copy)]
pub(crate) struct Range {
    pub(crate) low: u64,
    pub(crate) high: u64,
}

/// How many instances of the system are asked.
pub(crate) const WORKERS: Range = Range { low: 1, high: 16 };

/// How many states more than its model a machine may have.
pub(crate) const EXTRA: Range = Range { low: 0, high: 4 };

/// How many states a machine has.
pub(crate) const STATES: Range = Range { low: 1, high: 1024 };

/// How many inputs a machine has.
pub(crate) const INPUTS: Range = Range { low: 1, high: 64 };

/// How many words are drawn.
pub(crate) const RANDOM: Range = Range {
    low: 0,
    high: 1_000_000,
};

/// How many letters are drawn for a word.
pub(crate) const LENGTH: Range = Range {
    low: 0,
    high: 65_536,
};

/// What a generator of random numbers begins with.
pub(crate) const SEED: Range = Range {
    low: 0,
    high: u64::MAX,
};

//! What is to be learned.

use lw_cache::Cache;
use lw_names::OutNames;
use lw_system::System;
use lw_words::Words;

/// A system, the names of its outputs as a learning begins with them, and the prior answers.
#[derive(Drop)]
pub(crate) struct Task {
    pub(crate) system: System,
    pub(crate) names: OutNames,
    pub(crate) cache: Cache,
}

/// A task, and the words that are asked before its rounds.
#[derive(Drop)]
pub(crate) struct WordedTask {
    pub(crate) task: Task,
    pub(crate) words: Words,
}

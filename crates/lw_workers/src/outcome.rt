//! What a learning begins with, and what comes of it.

use lw_cache::Cache;
use lw_names::OutNames;
use lw_rounds::{LearnStop, Learned};
use lw_words::{Kept, Line, Words};

/// What is there before a learning: the names of the system's outputs, the prior answers, and the words that are asked first.
#[derive(Drop)]
pub struct Start {
    pub names: OutNames,
    pub cache: Cache,
    pub words: Words,
}

/// What came of a learning: what was learned, the recorded answers, and the names of their outputs.
#[derive(Drop)]
pub struct LearningOutcome {
    pub learned: Result<Learned, LearnStop>,
    pub kept: Kept,
    pub names: OutNames,
    /// The run in which an instance stopped, where that ended the learning and the instance noted it. None too where memory ran
    /// out for it.
    pub cut: Option<CutRun>,
}

/// The run in which an instance stopped, for a log that a person reads.
#[derive(Drop)]
pub struct CutRun {
    /// The number of the instance's session.
    pub instance: u32,
    /// The letters that it was sent since its last reset, the last of them perhaps in vain.
    pub asked: Vec<u16>,
    /// The line that it answered last.
    pub received: Option<Line>,
    /// The bytes behind that line.
    pub rest: Line,
}

//! The notes of a learning's steps, which say more than the lines of a log: how far it is.
use crate::lines::{counts_text, phase_name};
use lw_rounds::{Progress, Step, Tests};
use lw_words::NoMemory;
use std::alloc::Global;

/// How far a learning is: the runs that were finished since it began, each of which took one reset, the letters of their words, and
/// the tests of the model, where some are under way.
#[derive(Clone, Copy, Debug)]
pub(crate) struct SoFar {
    resets: u64,
    letters: u64,
    tests: Option<Tests>,
}

impl SoFar {
    pub(crate) fn new() -> SoFar {
        SoFar {
            resets: 0,
            letters: 0,
            tests: None,
        }
    }

    pub(crate) fn progress(&mut self, progress: Progress) {
        self.letters = self.letters.saturating_add(progress.letters);
        self.tests = progress.tests;
    }

    pub(crate) fn step(&mut self, step: Step) {
        self.resets = self.resets.saturating_add(step.asked as u64);
    }
}

/// How far the tests of a model are, where some are under way.
fn tests_text(alloc: Global, tests: Option<Tests>) -> Result<String, NoMemory> {
    match tests {
        Some(Tests { settled, most }) => {
            Ok(format!(in alloc; ", tests {settled} of at most {most}")?)
        }
        None => Ok(String::new(alloc)),
    }
}

/// The note of a step, and how far the learning is after it.
pub(crate) fn note_of_step(alloc: Global, step: Step, so_far: SoFar) -> Result<String, NoMemory> {
    let (round, phase) = (step.round, phase_name(step.phase));
    let counts = counts_text(alloc, step.states, step.asked, step.known, step.refinements)?;
    let (resets, letters) = (so_far.resets, so_far.letters);
    let tests = tests_text(alloc, so_far.tests)?;
    Ok(format!(in alloc;
        "round {round} {phase}: {counts}, resets {resets}, letters {letters}{tests}\n"
    )?)
}

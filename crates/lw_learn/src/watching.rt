//! Who watches a learning: the log is told of its steps, and the last machine is kept, where it is wanted.
use crate::last::machine_by;
use lw_log::Log;
use lw_mealy::Mealy;
use lw_outside::{LogFile, Sink};
use lw_rounds::{Progress, Step, Watcher};
use std::alloc::Global;

/// A log, and the machine of the last learner that was closed.
#[derive(Drop)]
pub(crate) struct Watch<'a, L: LogFile, N: Sink> {
    alloc: Global,
    log: &'a mut Log<L, N>,
    keeps: bool,
    last: Option<Mealy>,
}

impl<'a, L: LogFile, N: Sink> Watch<'a, L, N> {
    /// Keeps machines where they are wanted.
    pub(crate) fn new(alloc: Global, log: &'a mut Log<L, N>, keeps: bool) -> Watch<'a, L, N> {
        Watch {
            alloc,
            log,
            keeps,
            last: None,
        }
    }

    /// The machine of the last learner that was closed, where there was memory for it.
    pub(crate) fn into_last(self) -> Option<Mealy> {
        self.last
    }
}

impl<'a, L: LogFile, N: Sink> Watcher for Watch<'a, L, N> {
    fn step(&mut self, step: Step) {
        self.log.step(step);
    }

    fn wants_progress(&self) -> bool {
        self.log.wants_progress()
    }

    fn progress(&mut self, progress: Progress) {
        self.log.progress(progress);
    }

    fn hypothesis(&mut self, machine: &Mealy) {
        if self.keeps {
            self.last = machine.copy().ok();
        }
    }

    fn renumber(&mut self, to: &[u16]) {
        let renumbered = match &self.last {
            Some(last) => machine_by(self.alloc, last, last.outputs(), to),
            None => None,
        };
        self.last = renumbered;
    }
}

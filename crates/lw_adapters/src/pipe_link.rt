//! Links over a pipe each way.
ghost use Rattle.std.specs.Prelude.{◌≡◌, []};
ghost use Rattle.lw_adapters.specs.Recorded.{bytes_of};

use crate::journal::Writer;
use crate::pace::Pace;
use crate::streams::{Input, Stream};
use crate::watch::Watched;
use lw_outside::{Failed, Link, Source, put_all};
use std::fs::File;
use std::io::{Read, Write};

/// A link over a writer and a reader, as the two pipes of a child program. Contracts see what went over it. Where there is a
/// journal, it appends runs to it.
#[derive(Drop)]
pub struct PipeLink<W: Write, R: Read> {
    number: u64,
    input: Stream<W>,
    output: Input<R>,
    pace: Pace,
    faults: u64,
    journal: Option<Writer<File>>,
}

impl<W: Write, R: Read> PipeLink<W, R> {
    /// The link of this number, over which nothing went so far. Its sends aren't watched, and it has no journal.
    pub fn new(number: u64, input: W, output: R) -> PipeLink<W, R>
        ensures wrapped { (result.input.stream ≡ input) × (result.output.stream ≡ output) }
        ensures starts { (result.input.start.value ≡ input) × (result.output.start.value ≡ output) }
        ensures number { result.number ≡ number }
        ensures faults { result.faults ≡ 0 }
        ensures ends { result.output.ends ≡ 0 }
        ensures untouched { (bytes_of result.input.taken.items ≡ []) ×
            (bytes_of result.output.given.items ≡ []) }
    {
        PipeLink::watched(number, input, output, None, None)
    }

    /// The same of a link whose sends are watched where there are marks for them, and that has this journal.
    pub(crate) fn watched(
        number: u64,
        input: W,
        output: R,
        watched: Option<Watched>,
        journal: Option<Writer<File>>,
    ) -> PipeLink<W, R>
        ensures wrapped { (result.input.stream ≡ input) × (result.output.stream ≡ output) }
        ensures starts { (result.input.start.value ≡ input) × (result.output.start.value ≡ output) }
        ensures number { result.number ≡ number }
        ensures faults { result.faults ≡ 0 }
        ensures ends { result.output.ends ≡ 0 }
        ensures untouched { (bytes_of result.input.taken.items ≡ []) ×
            (bytes_of result.output.given.items ≡ []) }
    {
        PipeLink {
            number,
            input: Stream::new(input),
            output: Input::new(output),
            pace: Pace::new(watched),
            faults: 0,
            journal,
        }
    }
}

impl<W: Write, R: Read> Link for PipeLink<W, R> {
    ghost use Rattle.lw_adapters.specs.Recorded.{told_pipes};

    ghost state = { λ l. told_pipes l.number l.faults l.output.ends l.input.taken.items
        l.output.given.items };

    /// Fails too where the other end says line after line that it wasn't sent for, before the pipe to it is full, and behind a
    /// send that waited too long at a full pipe.
    fn send(&mut self, bytes: &[u8]) -> Result<(), Failed> {
        if !self.pace.sends(bytes) {
            self.faults = self.faults.saturating_add(1);
            return Err(Failed);
        }
        let sent = put_all(&mut self.input, bytes);
        self.pace.ended();
        if sent.is_err() {
            self.faults = self.faults.saturating_add(1);
        }
        sent
    }

    /// Fails too behind a send that waited too long at a full pipe.
    fn take(&mut self, buffer: &mut [u8]) -> Result<usize, Failed> {
        if self.pace.is_over() {
            self.faults = self.faults.saturating_add(1);
            return Err(Failed);
        }
        match self.output.read(buffer) {
            Ok(count) => {
                self.pace.receives(&buffer[..count]);
                Ok(count)
            }
            Err(Failed) => {
                self.faults = self.faults.saturating_add(1);
                Err(Failed)
            }
        }
    }

    fn has_journal(&self) -> bool {
        self.journal.is_some()
    }

    fn append_run(&mut self, line: Option<&[u8]>) {
        if let Some(journal) = &mut self.journal {
            let _whole = journal.append(line);
        }
    }
}

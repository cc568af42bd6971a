//! Logs, which are closed until a file is named for them, and silent once a call on it failed.
ghost use Rattle.std.specs.Prelude.{◌≡◌, ◌≢◌, option_map, string_bytes, IfOk, OnErr};
ghost use Rattle.lw_log.specs.Lines.{rest_line};
ghost use Rattle.lw_log.specs.Putting.{IsMade, Puts, PutsEach, cut_lines, received_lines, rest_lines};
ghost use Rattle.lw_log.specs.declared.log.LogState.TheVariants.{Closed, Open};
ghost use Rattle.lw_log.specs.declared.log.LogState.TheVariants as states;

use crate::lines::{cut_line, received_line, rest_line, step_line};
use crate::progress::{SoFar, note_of_step};
use lw_outside::{Failed, LogFile, Sink, put_all};
use lw_rounds::{Progress, Step, Watcher};
use lw_words::{Names, NoMemory};
use std::alloc::Global;
use std::marker::Model;

/// Whether lines are put.
#[derive(Clone, Copy, Debug, PartialEq, Eq)]
pub enum LogState {
    /// No file was named.
    Closed,
    Open,
    /// A line was not put, or the file not made, or memory ran out. Nothing is put any more.
    Failed,
}

/// A log of a learning: closed until a file is named for it. Beside its file it has a stream for notes, which gets the same lines,
/// once they are wanted there, and those that only a person wants who waits. Contracts see the file and whether lines are put.
#[derive(Drop)]
pub struct Log<L: LogFile, N: Sink> {
    alloc: Global,
    file: L,
    state: LogState,
    notes: N,
    is_verbose: bool,
    so_far: SoFar,
}

impl<L: LogFile, N: Sink> Model for Log<L, N> {
    ghost use Rattle.lw_log.specs.Putting.{LogValue};

    ghost Value = { LogValue L };

    ghost view = { λ l. record { file = l.file; state = l.state } };
}

impl<L: LogFile, N: Sink> Log<L, N> {
    /// Nothing is noted. Takes no memory.
    pub fn new(alloc: Global, file: L, notes: N) -> Log<L, N>
        ensures { result ≡ record { file = file; state = Closed } }
    {
        Log {
            alloc,
            file,
            state: LogState::Closed,
            notes,
            is_verbose: false,
            so_far: SoFar::new(),
        }
    }

    /// Notes from now on, until the stream of notes fails.
    pub fn be_verbose(&mut self)
        ensures { self.new ≡ self.old }
    {
        self.is_verbose = true;
    }

    pub fn is_verbose(&self) -> bool {
        self.is_verbose
    }

    fn note_bytes(&mut self, lines: &[u8])
        ensures { self.new ≡ self.old }
    {
        if self.is_verbose && put_all(&mut self.notes, lines).is_err() {
            self.is_verbose = false;
        }
    }

    /// Notes whole lines that the file doesn't get, where there was memory to make them.
    pub fn note(&mut self, lines: Result<String, NoMemory>)
        ensures { self.new ≡ self.old }
    {
        if let Ok(lines) = &lines {
            self.note_bytes(lines.as_bytes());
        }
    }

    /// Makes the file. A log that is not closed stays as it is.
    pub fn open(&mut self, name: &str)
        ensures kept { self.old.state ≢ Closed → self.new ≡ self.old }
        ensures closed { self.new.state ≢ Closed }
        ensures made { self.old.state ≡ Closed → IsMade name.now self.new.state
            (L.state self.old.file) (L.state self.new.file) }
    {
        if self.state == LogState::Closed {
            self.state = match self.file.open(name) {
                Ok(()) => LogState::Open,
                Err(Failed) => LogState::Failed,
            };
        }
    }

    pub fn state(&self) -> LogState
        ensures { result ≡ self.now.state }
    {
        self.state
    }

    /// Puts whole lines at once into the file alone, where there was memory to make them; where there wasn't, the log has failed.
    pub fn file_line(&mut self, line: Result<String, NoMemory>)
        ensures kept { self.old.state ≢ Open → self.new ≡ self.old }
        ensures open { self.old.state ≡ Open → self.new.state ≢ Closed }
        ensures put { self.old.state ≡ Open → IfOk line (λ l. Puts (string_bytes l) self.new.state
            (L.state self.old.file) (L.state self.new.file)) }
        ensures unmade { self.old.state ≡ Open → OnErr line ((self.new.state ≡ states.Failed) ×
            (self.new.file ≡ self.old.file)) }
    {
        if self.state != LogState::Open {
            return;
        }
        let is_put = match line {
            Ok(line) => self.file.put(line.as_bytes()).is_ok(),
            Err(NoMemory) => false,
        };
        if !is_put {
            self.state = LogState::Failed;
        }
    }

    /// The same, and notes them.
    pub fn line(&mut self, line: Result<String, NoMemory>)
        ensures kept { self.old.state ≢ Open → self.new ≡ self.old }
        ensures open { self.old.state ≡ Open → self.new.state ≢ Closed }
        ensures put { self.old.state ≡ Open → IfOk line (λ l. Puts (string_bytes l) self.new.state
            (L.state self.old.file) (L.state self.new.file)) }
        ensures unmade { self.old.state ≡ Open → OnErr line ((self.new.state ≡ states.Failed) ×
            (self.new.file ≡ self.old.file)) }
    {
        if let Ok(line) = &line {
            self.note_bytes(line.as_bytes());
        }
        self.file_line(line);
    }

    /// Tells of the last line that was received, where there is one.
    fn received(&mut self, received: Option<&[u8]>)
        ensures kept { self.old.state ≢ Open → self.new ≡ self.old }
        ensures put { self.old.state ≡ Open → PutsEach
            (received_lines (option_map (λ line. line.now) received.entry)) self.new.state
            (L.state self.old.file) (L.state self.new.file) }
    {
        if let Some(received) = received {
            self.line(received_line(self.alloc, received));
        }
    }

    /// Tells of the bytes behind it, where there are some.
    fn rest(&mut self, rest: &[u8])
        ensures kept { self.old.state ≢ Open → self.new ≡ self.old }
        ensures put { self.old.state ≡ Open → PutsEach (rest_lines rest.now) self.new.state
            (L.state self.old.file) (L.state self.new.file) }
    {
        if !rest.is_empty() {
            self.line(rest_line(self.alloc, rest));
        }
    }

    /// Tells of the run that was under way when a system stopped: the letters that it was asked, the last line that was
    /// received, and the bytes after that.
    pub fn cut(
        &mut self,
        instance: u32,
        letters: &Names,
        asked: &[u16],
        received: Option<&[u8]>,
        rest: &[u8],
    )
        ensures kept { self.old.state ≢ Open → self.new ≡ self.old }
        ensures open { self.old.state ≡ Open → self.new.state ≢ Closed }
        ensures put { self.old.state ≡ Open → PutsEach
            (cut_lines instance letters.now asked.now (option_map (λ line. line.now) received.entry)
            rest.now) self.new.state (L.state self.old.file) (L.state self.new.file) }
    {
        if self.state != LogState::Open && !self.is_verbose {
            return;
        }
        self.line(cut_line(self.alloc, instance, letters, asked));
        self.received(received);
        self.rest(rest);
    }

    /// Puts whole lines into the file alone, as they are and at once.
    pub fn file_text(&mut self, text: &[u8])
        ensures kept { self.old.state ≢ Open → self.new ≡ self.old }
        ensures open { self.old.state ≡ Open → self.new.state ≢ Closed }
        ensures put { self.old.state ≡ Open → Puts text.now self.new.state (L.state self.old.file)
            (L.state self.new.file) }
    {
        if self.state == LogState::Open && self.file.put(text).is_err() {
            self.state = LogState::Failed;
        }
    }

    /// The same, and notes them.
    pub fn text(&mut self, text: &[u8])
        ensures kept { self.old.state ≢ Open → self.new ≡ self.old }
        ensures open { self.old.state ≡ Open → self.new.state ≢ Closed }
        ensures put { self.old.state ≡ Open → Puts text.now self.new.state (L.state self.old.file)
            (L.state self.new.file) }
    {
        self.note_bytes(text);
        self.file_text(text);
    }

    /// Where notes go.
    pub fn notes(&self) -> &N {
        &self.notes
    }
}

impl<L: LogFile, N: Sink + Drop> Log<L, N> {
    pub fn into_file(self) -> L
        ensures { result ≡ self.file }
    {
        self.file
    }
}

impl<L: LogFile, N: Sink> Watcher for Log<L, N> {
    ghost use Rattle.std.specs.Prelude.{◌≡◌, ◌≢◌};
    ghost use Rattle.lw_log.specs.Lines.{step_line};
    ghost use Rattle.lw_log.specs.Putting.{PutsIfMade};

    fn step(&mut self, step: Step)
        ensures kept { self.old.state ≢ Open → self.new ≡ self.old }
        ensures open { self.old.state ≡ Open → self.new.state ≢ Closed }
        ensures put { self.old.state ≡ Open → PutsIfMade (step_line step) self.new.state
            (L.state self.old.file) (L.state self.new.file) }
    {
        if self.is_verbose {
            self.so_far.step(step);
            self.note(note_of_step(self.alloc, step, self.so_far));
        }
        if self.state == LogState::Open {
            self.file_line(step_line(self.alloc, step));
        }
    }

    fn wants_progress(&self) -> bool {
        self.is_verbose
    }

    fn progress(&mut self, progress: Progress)
        ensures { self.new ≡ self.old }
    {
        self.so_far.progress(progress);
    }
}

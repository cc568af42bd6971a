//! Systems that are programs at the other end of a link.
ghost use Rattle.std.specs.Prelude.{◌≡◌, [], length, IfOk, IfErr, IfSome, None, false};
ghost use Rattle.lw_words.specs.Word.{IsWord};
ghost use Rattle.lw_outside.specs.Links.{IsUntouched};
ghost use Rattle.lw_line.specs.Causes.{StopIsCounted, IsTranscriptOf};
ghost use Rattle.lw_line.specs.LineState.{AreToldIfFree, IsNaming, told_runs};
ghost use Rattle.lw_sul.specs.SessionState.{NoRuns};

use crate::exchange::{ask, start};
use crate::inbox::Inbox;
use crate::journal::run_line;
use crate::note::{Note, Received, line_naming};
use crate::outputs::OutputNames;
use lw_names::OutName;
use lw_outside::Link;
use lw_sul::Sul;
use lw_words::{Line, Names, NoMemory, SulStop, Word};
use std::alloc::Global;
use std::marker::Model;

/// A system that is a program at the other end of a link: it is asked line by line, and answers each with a line.
/// Contracts see its link, the names of its letters and of its outputs so far, and why it stopped (`LineState`).
#[derive(Drop)]
pub struct LineSul<L: Link> {
    link: L,
    letters: Names,
    outputs: OutputNames,
    inbox: Inbox,
    started: bool,
    stop: Option<SulStop>,
    cut: bool,
    note: Note,
}

impl<L: Link> Model for LineSul<L> {
    ghost use Rattle.std.specs.Prelude.{length, IfSome};
    ghost use Rattle.lw_words.specs.Word.{IsWord};
    ghost use Rattle.lw_line.specs.LineState.{AreToldIfFree, LineState};
    ghost use Rattle.lw_line.specs.bodies.Standing.{Stands};

    ghost Value = { LineState L };

    ghost view = { λ s. record { link = s.link; letters = s.letters; names = s.outputs.names; most = s.outputs.most; outputs = s.outputs.range; started = s.started; stop = s.stop; cut = s.cut } };

    ghost invariant = { λ s. Stands s.letters s.outputs.names s.outputs.most (L.state s.link).faults (L.state s.link).ends s.started s.inbox s.stop s.cut (L.state s.link).transcript
        × AreToldIfFree s.outputs.names s.outputs.most s.outputs.range (L.state s.link).transcript
        × IfSome s.note (IsWord (length s.letters)) };
}

impl<L: Link> LineSul<L> {
    /// The system behind a link, whose outputs have these names. Takes no memory.
    pub fn new(link: L, inputs: Names, outputs: Names) -> LineSul<L>
        requires { IsUntouched (L.state link).transcript }
        ensures value { result ≡ record {
          link = link;
          letters = inputs;
          names = outputs;
          most = length outputs;
          outputs = length outputs;
          started = false;
          stop = None;
          cut = false;
        } }
        ensures fresh { NoRuns (told_runs result.letters result.names
            (L.state result.link).transcript) }
    {
        LineSul {
            link,
            letters: inputs,
            outputs: OutputNames::declared(outputs),
            inbox: Inbox::new(),
            started: false,
            stop: None,
            cut: false,
            note: Note::closed(),
        }
    }

    /// The system behind a link, whose outputs get their numbers as they come: at most 256. Takes the room for their names.
    pub fn free(alloc: Global, link: L, inputs: Names) -> Result<LineSul<L>, (L, NoMemory)>
        requires { IsUntouched (L.state link).transcript }
        ensures ok { IfOk result (λ s. s ≡ record {
          link = link;
          letters = inputs;
          names = [];
          most = 256;
          outputs = 4096;
          started = false;
          stop = None;
          cut = false;
        }) }
        ensures fresh { IfOk result
            (λ s. NoRuns (told_runs s.letters s.names (L.state s.link).transcript)) }
        ensures back { IfErr result (λ e. e.0 ≡ link) }
    {
        match OutputNames::free(alloc) {
            Ok(outputs) => Ok(LineSul {
                link,
                letters: inputs,
                outputs,
                inbox: Inbox::new(),
                started: false,
                stop: None,
                cut: false,
                note: Note::closed(),
            }),
            Err(stop) => Err((link, stop)),
        }
    }

    /// Notes what it is asked from now on, for a log, while there is room. Takes the room for 65,536 letters; where there is no
    /// memory for that nothing is noted.
    pub fn note(&mut self, alloc: Global)
        ensures { self.new ≡ self.old }
    {
        self.note.open(alloc);
    }

    /// The letters that were sent since the last reset, the last of them perhaps in vain. None where they are not noted.
    pub fn asked(&self) -> Option<&[u16]>
        ensures { IfSome result (λ w. IsWord (length self.now.letters) w.now) }
    {
        self.note.letters()
    }

    /// The line that was received last, without its end. None where nothing is noted, or no line came since.
    pub fn last_line(&self) -> Option<Line> {
        self.note.letters()?;
        if let Some(SulStop::BadLine(line)) = &self.stop {
            return Some(line.copy());
        }
        match self.note.received() {
            Received::Nothing => None,
            Received::Ready => Some(Line::new(b"ready")),
            Received::Output(y) if y < self.outputs.len() => {
                Some(line_naming(&self.outputs.name(y)))
            }
            Received::Output(_) => None,
        }
    }

    /// The bytes that were received behind the last line, up to a line feed if there is one.
    pub fn rest(&self) -> Line {
        self.inbox.front()
    }

    /// The link. Its counts and what went over it bear out the system's stop, and whether that was in a step.
    pub fn into_link(self) -> L
        ensures link { result ≡ self.link }
        ensures counted { StopIsCounted (L.state self.link).faults (L.state self.link).ends
            self.stop }
        ensures told { IsTranscriptOf self.letters self.names self.most (L.state self.link).faults
            self.stop self.cut (L.state self.link).transcript }
        ensures naming { IsNaming self.names self.most self.outputs }
        ensures told_names { AreToldIfFree self.names self.most self.outputs
            (L.state self.link).transcript }
    {
        self.outputs.tells_naming();
        let LineSul {
            link,
            letters: _,
            outputs: _,
            inbox: _,
            started: _,
            stop: _,
            cut: _,
            note: _,
        } = self;
        link
    }
}

impl<L: Link> Sul for LineSul<L> {
    ghost use Rattle.std.specs.Prelude.{length, None, Some};
    ghost use Rattle.lw_line.specs.LineState.{told_runs};

    ghost state = { λ s. record {
      inputs = length s.letters;
      outputs = s.outputs;
      origin = record { machine = None; link = Some (L.state s.link).number; letters = Some s.letters };
      place = 0;
      started = s.started;
      faults = (L.state s.link).faults;
      stop = s.stop;
      cut = s.cut;
      runs = told_runs s.letters s.names (L.state s.link).transcript;
      names = s.names;
      most = s.most;
    } };

    fn inputs(&self) -> u16 {
        self.letters.len()
    }

    fn outputs(&self) -> u16 {
        self.outputs.range()
    }

    fn named(&self) -> u16 {
        self.outputs.len()
    }

    fn most(&self) -> u16 {
        self.outputs.most()
    }

    fn name(&self, y: u16) -> OutName {
        self.outputs.name(y)
    }

    fn reset(&mut self) -> Result<(), SulStop> {
        self.note.begin_run();
        match start(&mut self.link, &mut self.inbox) {
            Ok(()) => {
                self.started = true;
                self.note.receive(Received::Ready);
                Ok(())
            }
            Err(stop) => {
                self.stop = Some(stop.copy());
                self.cut = false;
                Err(stop)
            }
        }
    }

    fn step(&mut self, x: u16) -> Result<u16, SulStop> {
        let _letters = self.letters.len();
        self.note.add_letter(x);
        let letter = self.letters.name(x);
        match ask(&mut self.link, &mut self.inbox, letter, &mut self.outputs) {
            Ok(y) => {
                self.note.receive(Received::Output(y));
                Ok(y)
            }
            Err(stop) => {
                self.stop = Some(stop.copy());
                self.cut = true;
                Err(stop)
            }
        }
    }

    /// Makes the line of the run only where the link has a journal.
    fn keep(&mut self, alloc: Global, instance: u32, run: u64, word: &Word, outs: &Word) {
        if !self.link.has_journal() {
            return;
        }
        let (letters, outputs) = (&self.letters, &self.outputs);
        match run_line(alloc, instance, run, letters, word, outputs, outs) {
            Ok(line) => self.link.append_run(Some(line.as_slice())),
            Err(NoMemory) => self.link.append_run(None),
        }
    }
}

//! What a system was asked and what came last, for a log that a person reads.
ghost use Rattle.std.specs.Prelude.{◌≡◌, ◌⊎◌, [], ◌∷◌, ◌++◌, Some, None, IfSome, option_map};
ghost use Rattle.lw_outside.specs.Protocol.{out_line};

use crate::sent_line::SentLine;
use lw_names::OutName;
use lw_words::Line;
use std::alloc::Global;
use std::marker::Model;

/// The room for letters: as many as a drawn word has at most. Words of files may be longer.
const ROOM: usize = 65_536;

/// What a system received last.
#[derive(Clone, Copy)]
pub(crate) enum Received {
    Nothing,
    /// That it is ready.
    Ready,
    /// The output of this number.
    Output(u16),
}

/// The letters since the last reset, as long as there is room for them, and what was received last. Contracts see the letters.
#[derive(Drop)]
pub(crate) struct Note {
    letters: Option<Vec<u16>>,
    received: Received,
}

impl Model for Note {
    ghost use Rattle.std.specs.Prelude.{ℕ, List, Option, option_map};

    ghost Value = { Option (List ℕ) };

    ghost view = { λ note. option_map (λ letters. letters.items) note.letters };
}

impl Note {
    /// Nothing is noted.
    pub fn closed() -> Note
        ensures { result ≡ None }
    {
        Note {
            letters: None,
            received: Received::Nothing,
        }
    }

    /// Notes from now on, and takes all the room for it; where there is no memory for that nothing is noted.
    pub fn open(&mut self, alloc: Global)
        ensures { (self.new ≡ None) ⊎ (self.new ≡ Some []) }
    {
        self.letters = Vec::with_capacity(alloc, ROOM).ok();
    }

    /// A reset goes out.
    pub fn begin_run(&mut self)
        ensures { self.new ≡ option_map (λ _. []) self.old }
    {
        if let Some(letters) = &mut self.letters {
            letters.clear();
        }
    }

    /// A letter goes out. Where there is no room for it nothing is noted any more. Takes no memory.
    pub fn add_letter(&mut self, x: u16)
        ensures { (self.new ≡ None) ⊎ (self.new ≡ option_map (λ w. w ++ x ∷ []) self.old) }
    {
        let Some(letters) = &mut self.letters else {
            return;
        };
        if letters.len() < letters.capacity() {
            letters.push_reserved(x);
        } else {
            self.letters = None;
        }
    }

    pub fn receive(&mut self, received: Received)
        ensures { self.new ≡ self.old }
    {
        self.received = received;
    }

    pub fn letters(&self) -> Option<&[u16]>
        ensures { IfSome result (λ w. self.now ≡ Some w.now) }
    {
        match &self.letters {
            Some(letters) => Some(letters.as_slice()),
            None => None,
        }
    }

    pub fn received(&self) -> Received {
        self.received
    }
}

/// The line that tells an output of this name.
pub(crate) fn line_naming(name: &OutName) -> Line
    ensures { result ≡ out_line name.now }
{
    let sent = SentLine::naming(b"out ", name.as_slice());
    let ended = sent.as_slice();
    Line::new(&ended[..ended.len() - 1])
}

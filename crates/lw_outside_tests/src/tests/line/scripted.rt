//! A link for tests that gives a text piece by piece, fails by a plan, and records its calls.
ghost use Rattle.std.specs.Prelude.{◌≡◌, ◌≤◌, length, true, false};
ghost use Rattle.lw_words.specs.Cause.{CountedFault};

use lw_outside::{Failed, Link};
use std::alloc::Global;
use std::process::Abort;

/// A call, with how many bytes were sent, or how many were offered to take.
#[derive(Clone, Copy, Debug, PartialEq, Eq)]
pub enum Call {
    Send(usize),
    Take(usize),
}

/// What a link says, and how.
#[derive(Clone, Copy)]
pub struct Script<'a> {
    pub text: &'a [u8],
    /// The greatest number of bytes that a take gives.
    pub piece: usize,
    /// The number of the call that fails.
    pub fails: Option<u64>,
}

/// A link to a child that says a script, whatever is sent, and then ends. It keeps the calls and the sent bytes for which
/// it has room.
#[derive(Drop)]
pub struct ScriptedLink {
    text: Vec<u8>,
    piece: usize,
    fails: Option<u64>,
    given: usize,
    made: u64,
    faults: u64,
    ends: u64,
    calls: Vec<Call>,
    sent: Vec<u8>,
}

/// Copies a prefix of a text into the start of a buffer, at most a piece, and says how many bytes.
fn give(text: &[u8], piece: usize, buffer: &mut [u8]) -> usize
    ensures { (result ≤ length buffer.old) × (result ≤ length text.now) }
{
    let count = text.len().min(piece).min(buffer.len());
    buffer[..count].copy_from_slice(&text[..count]);
    count
}

impl ScriptedLink {
    pub fn new(rt: &impl Abort, alloc: Global, script: Script<'_>) -> ScriptedLink {
        ScriptedLink {
            text: Vec::from_slice(alloc, script.text).expect(rt, "memory"),
            piece: script.piece,
            fails: script.fails,
            given: 0,
            made: 0,
            faults: 0,
            ends: 0,
            calls: Vec::with_capacity(alloc, 64).expect(rt, "memory"),
            sent: Vec::with_capacity(alloc, 1024).expect(rt, "memory"),
        }
    }

    pub fn calls(&self) -> &[Call] {
        self.calls.as_slice()
    }

    pub fn sent(&self) -> &[u8] {
        self.sent.as_slice()
    }

    /// Notes a call, and says whether it is to fail.
    fn note(&mut self, call: Call) -> bool
        ensures fails { result ≡ true → CountedFault self.old.faults self.new.faults }
        ensures stays { result ≡ false → self.new.faults ≡ self.old.faults }
        ensures counts { self.old.faults ≤ self.new.faults }
        ensures ends { self.new.ends ≡ self.old.ends }
    {
        if self.calls.len() < self.calls.capacity() {
            self.calls.push_reserved(call);
        }
        let fails = self.fails == Some(self.made);
        self.made = self.made.saturating_add(1);
        if fails {
            self.faults = self.faults.saturating_add(1);
        }
        fails
    }

    /// Keeps sent bytes.
    fn keep(&mut self, bytes: &[u8])
        ensures { (self.new.faults ≡ self.old.faults) × (self.new.ends ≡ self.old.ends) }
    {
        for b in bytes {
            if self.sent.len() < self.sent.capacity() {
                self.sent.push_reserved(*b);
            }
        }
    }
}

impl Link for ScriptedLink {
    ghost use Rattle.std.specs.Prelude.{None};

    ghost state = { λ l. record {
      number = 0;
      faults = l.faults;
      ends = l.ends;
      transcript = None;
    } };

    fn send(&mut self, bytes: &[u8]) -> Result<(), Failed> {
        if self.note(Call::Send(bytes.len())) {
            return Err(Failed);
        }
        self.keep(bytes);
        Ok(())
    }

    fn take(&mut self, buffer: &mut [u8]) -> Result<usize, Failed> {
        if self.note(Call::Take(buffer.len())) {
            return Err(Failed);
        }
        let given = self.given.min(self.text.len());
        let count = give(&self.text[given..], self.piece, buffer);
        self.given = given + count;
        if count == 0 {
            self.ends = self.ends.saturating_add(1);
        }
        Ok(count)
    }
}

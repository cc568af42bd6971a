//! The lines that a child answers.
ghost use Rattle.std.specs.Prelude.{◌≡◌, ◌<◌, ◌≤◌, ◌+◌, [], ◌∷◌, ◌++◌, length, slice_index_or};
ghost use Rattle.lw_outside.specs.Protocol.{out_line, ready_line};

use lw_json::Machine;
use std::marker::Model;

/// The greatest number of bytes of an answer: `out `, a name of 64 bytes, and a line feed.
const LONGEST_ANSWER: usize = 69;

/// A line that a child answers, with its line feed, kept without memory. Contracts see the list of its bytes.
#[derive(Drop)]
pub struct AnswerLine {
    bytes: [u8; LONGEST_ANSWER],
    len: u8,
}

impl Model for AnswerLine {
    ghost use Rattle.std.specs.Prelude.{ℕ, ◌≤◌, List, take};

    ghost Value = { List ℕ };

    ghost view = { λ line. take line.len line.bytes };

    ghost invariant = { λ line. line.len ≤ 69 };
}

impl AnswerLine {
    /// A line that is still to be written.
    pub(crate) fn empty() -> AnswerLine
        ensures { result ≡ [] }
    {
        AnswerLine {
            bytes: [0; LONGEST_ANSWER],
            len: 0,
        }
    }

    fn push(&mut self, part: &[u8])
        requires { length self.old + length part.now ≤ 69 }
        ensures { self.new ≡ self.old ++ part.now }
    {
        let start = usize::from(self.len);
        let end = start + part.len();
        self.bytes[start..end].copy_from_slice(part);
        self.len = end as u8;
    }

    fn with_name(name: &[u8]) -> AnswerLine
        requires { length name.now ≤ 64 }
        ensures { result ≡ out_line name.now ++ 10 ∷ [] }
    {
        let mut line = AnswerLine::empty();
        line.push(b"out ");
        line.push(name);
        line.push(b"\n");
        line
    }

    /// Says that the child is in the initial state.
    pub fn ready() -> AnswerLine
        ensures { result ≡ ready_line ++ 10 ∷ [] }
    {
        let mut line = AnswerLine::empty();
        line.push(b"ready\n");
        line
    }

    /// Says the output with this number.
    pub fn out(m: &Machine, y: u16) -> AnswerLine
        requires { y < length m.now.outputs }
        ensures { result ≡ out_line (slice_index_or m.now.outputs y []) ++ 10 ∷ [] }
    {
        let _names = m.outputs.len();
        AnswerLine::with_name(m.outputs.name(y).as_bytes())
    }

    /// How many bytes it has, with the line feed.
    pub fn len(&self) -> usize
        ensures { result ≡ length self.now }
    {
        usize::from(self.len)
    }

    /// Its bytes, with the line feed.
    pub fn as_slice(&self) -> &[u8]
        ensures { result.now ≡ self.now }
    {
        &self.bytes[..usize::from(self.len)]
    }
}

//! The bytes that were received and not yet taken as lines.
ghost use Rattle.std.specs.Prelude.{◌≡◌, ◌↔◌, ℕ, ◌<◌, ◌≤◌, List, [], ◌∷◌, ◌++◌, length, take, slice_index, MatchOption, IsTrue, IfOk, OnOk, OnErr, option_map};
ghost use Rattle.lw_words.specs.Cause.{CountedFault};
ghost use Rattle.lw_outside.specs.Links.{receives};
ghost use Rattle.lw_outside.specs.Streams.{Gave, IsSpent};
ghost use Rattle.lw_line.specs.bodies.Pieces.{NoFeed};

use lw_outside::{Failed, Link, Source};
use lw_words::Line;
use std::marker::Model;

/// The greatest number of bytes of a line, with its line feed.
const LINE_ROOM: usize = 256;

/// Received bytes, as many as one line may have. Contracts see their list.
#[derive(Drop)]
pub(crate) struct Inbox {
    bytes: [u8; LINE_ROOM],
    held: usize,
}

impl Model for Inbox {
    ghost use Rattle.std.specs.Prelude.{ℕ, ◌≤◌, List, take};

    ghost Value = { List ℕ };

    ghost view = { λ inbox. take inbox.held inbox.bytes };

    ghost invariant = { λ inbox. inbox.held ≤ 256 };
}

impl Inbox {
    pub fn new() -> Inbox
        ensures { result ≡ [] }
    {
        Inbox {
            bytes: [0; LINE_ROOM],
            held: 0,
        }
    }

    pub fn is_empty(&self) -> bool
        ensures { IsTrue result ↔ (self.now ≡ []) }
    {
        self.held == 0
    }

    pub fn is_full(&self) -> bool
        ensures full { IsTrue result ↔ (length self.now ≡ 256) }
        ensures few { length self.now ≤ 256 }
    {
        self.held == LINE_ROOM
    }

    /// All the bytes.
    pub fn line(&self) -> Line
        ensures { result ≡ self.now }
    {
        Line::new(&self.bytes[..self.held])
    }

    /// The bytes before the first line feed, or all where there is none; of a line that is too long none.
    pub fn front(&self) -> Line {
        if self.is_full() {
            return Line::new(b"");
        }
        let held = &self.bytes[..self.held];
        match line_end(held) {
            Some(end) => Line::new(&held[..end]),
            None => Line::new(held),
        }
    }

    /// Takes the first line out, without its line feed. The bytes behind it move to the front.
    pub fn take_line(&mut self) -> Option<Line>
        ensures { MatchOption result (NoFeed self.old × (self.new ≡ self.old))
            (λ raw. (self.old ≡ raw ++ 10 ∷ self.new) × NoFeed raw) }
    {
        let end = line_end(&self.bytes[..self.held])?;
        let line = Line::new(&self.bytes[..end]);
        self.bytes.copy_within(end + 1..self.held, 0);
        self.held -= end + 1;
        Some(line)
    }

    /// Takes bytes from a link into the free rest, and says how many.
    pub fn take_from<L: Link>(&mut self, link: &mut L) -> Result<usize, Failed>
        requires { length self.old < 256 }
        ensures took { IfOk result (λ n. (more : List ℕ) × (length more ≡ n) ×
            (self.new ≡ self.old ++ more) ×
            ((L.state link.new).transcript ≡ option_map (receives more)
            (L.state link.old).transcript)) }
        ensures kept { OnErr result ((self.new ≡ self.old) ×
            ((L.state link.new).transcript ≡ (L.state link.old).transcript)) }
        ensures end { IfOk result (λ n. n ≡ 0 → CountedFault (L.state link.old).ends
            (L.state link.new).ends) }
        ensures failed { OnErr result (CountedFault (L.state link.old).faults
            (L.state link.new).faults) }
        ensures counts { ((L.state link.old).faults ≤ (L.state link.new).faults) ×
            ((L.state link.old).ends ≤ (L.state link.new).ends) }
        ensures same { (L.state link.new).number ≡ (L.state link.old).number }
    {
        let count = link.take(&mut self.bytes[self.held..])?;
        self.held += count;
        Ok(count)
    }

    /// Reads bytes of a source into the free rest, and says how many.
    pub fn read_from<I: Source>(&mut self, source: &mut I) -> Result<usize, Failed>
        requires { length self.old < 256 }
        ensures gave { IfOk result (λ n. (more : List ℕ) × (length more ≡ n) ×
            (self.new ≡ self.old ++ more) × Gave more (I.state source.old).left
            (I.state source.new).left) }
        ensures kept { OnErr result ((self.new ≡ self.old) ×
            ((I.state source.new).left ≡ (I.state source.old).left)) }
        ensures end { IfOk result (λ n. n ≡ 0 → IsSpent (I.state source.old).left ×
            CountedFault (I.state source.old).ends (I.state source.new).ends) }
        ensures failed { OnErr result (CountedFault (I.state source.old).faults
            (I.state source.new).faults) }
        ensures quiet { OnOk result ((I.state source.new).faults ≡ (I.state source.old).faults) }
        ensures counts { ((I.state source.old).faults ≤ (I.state source.new).faults) ×
            ((I.state source.old).ends ≤ (I.state source.new).ends) }
    {
        let count = source.read(&mut self.bytes[self.held..])?;
        self.held += count;
        Ok(count)
    }
}

/// The place of the first line feed.
fn line_end(bytes: &[u8]) -> Option<usize>
    ensures { MatchOption result (NoFeed bytes.now) (λ end. (end < length bytes.now) ×
        NoFeed (take end bytes.now) ×
        (slice_index bytes.now end ≡ 10)) }
{
    bytes.iter().position(|b| *b == b'\n')
}

//! What stands at the other end of a link in memory.
ghost use Rattle.std.specs.Prelude.{◌≡◌, ◌<◌, ◌≤◌, ◌∷◌, [], length, take, true, false, IfSome, IfNone};
ghost use Rattle.lw_outside.specs.bodies.Child.{Says, Stands, speaker_of, to_say};

use crate::script::Script;
use crate::served::Served;

/// A child that plays a machine, or one that says its script whatever it is sent.
#[derive(Drop)]
pub(crate) enum Child {
    Serves(Served),
    Reads(Script),
}

impl Child {
    /// Whether there is a byte to be said, of what was sent so far.
    pub(crate) fn is_ready(&mut self, sent: &[u8]) -> bool
        requires { Stands self.old sent.now }
        ensures says { Says [] sent.now self.old self.new }
        ensures ready { result ≡ true → 0 < length (to_say self.new sent.now []) }
        ensures silent { result ≡ false → to_say self.new sent.now [] ≡ [] }
    {
        match self {
            Child::Serves(served) => served.is_ready(sent),
            Child::Reads(script) => script.is_ready(),
        }
    }

    /// Says the next byte.
    pub(crate) fn next(&mut self, sent: &[u8]) -> Option<u8>
        requires { Stands self.old sent.now }
        ensures some { IfSome result (λ b. Says (b ∷ []) sent.now self.old self.new) }
        ensures none { IfNone result (Says [] sent.now self.old self.new) }
        ensures silent { IfNone result (to_say self.new sent.now [] ≡ []) }
    {
        match self {
            Child::Serves(served) => served.next(sent),
            Child::Reads(script) => script.next(),
        }
    }

    /// Puts the next bytes into the start of a buffer, as many as there are but at most this many, and says how many.
    pub(crate) fn fill_front(&mut self, sent: &[u8], buffer: &mut [u8], most: usize) -> usize
        requires stands { Stands self.old sent.now }
        requires within { most ≤ length buffer.old }
        ensures bound { result ≤ most }
        ensures says { Says (take result buffer.new) sent.now self.old self.new }
        ensures whole { result < most → to_say self.new sent.now [] ≡ [] }
    {
        self.fill(sent, &mut buffer[..most])
    }

    /// Puts the next bytes into the start of a buffer, as many as there are or fit, and says how many.
    fn fill(&mut self, sent: &[u8], buffer: &mut [u8]) -> usize
        requires { Stands self.old sent.now }
        ensures bound { result ≤ length buffer.new }
        ensures says { Says (take result buffer.new) sent.now self.old self.new }
        ensures whole { result < length buffer.new → to_say self.new sent.now [] ≡ [] }
    {
        for (count, slot) in buffer.iter_mut().enumerate() {
            let Some(byte) = self.next(sent) else {
                return count;
            };
            *slot = byte;
        }
        buffer.len()
    }
}

//! Lines that name a letter or an output.
ghost use Rattle.std.specs.Prelude.{◌≡◌, ◌+◌, ◌<◌, ◌≤◌, ◌++◌, length, take, drop};
ghost use Rattle.lw_line.specs.bodies.Exchanges.{ended};

use std::marker::Model;

/// The greatest number of bytes of such a line: four in front, a name, the line feed, and three to make it even.
const SENT_ROOM: usize = 72;

/// A line to be sent, with its line feed, kept without memory. Contracts see the list of its bytes.
#[derive(Drop)]
pub(crate) struct SentLine {
    bytes: [u8; SENT_ROOM],
    len: usize,
}

impl Model for SentLine {
    ghost use Rattle.std.specs.Prelude.{ℕ, ◌≤◌, List, take};

    ghost Value = { List ℕ };

    ghost view = { λ line. take line.len line.bytes };

    ghost invariant = { λ line. line.len ≤ 72 };
}

/// Writes a text over the bytes from a place on.
fn write_at(bytes: &mut [u8], at: usize, text: &[u8])
    requires { at + length text.now ≤ length bytes.old }
    ensures { bytes.new ≡ take at bytes.old ++ (text.now ++ drop (at + length text.now) bytes.old) }
{
    bytes[at..at + text.len()].copy_from_slice(text);
}

impl SentLine {
    /// The line of a name behind some bytes.
    pub fn naming(front: &[u8], name: &[u8]) -> SentLine
        requires { length front.now + length name.now < 72 }
        ensures { result ≡ ended (front.now ++ name.now) }
    {
        let mut bytes = [b'\n'; SENT_ROOM];
        write_at(&mut bytes, 0, front);
        write_at(&mut bytes, front.len(), name);
        SentLine {
            bytes,
            len: front.len() + name.len() + 1,
        }
    }

    pub fn as_slice(&self) -> &[u8]
        ensures { result.now ≡ self.now }
    {
        &self.bytes[..self.len]
    }
}

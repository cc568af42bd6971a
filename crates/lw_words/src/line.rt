//! A received line.
ghost use Rattle.std.specs.Prelude.{◌≡◌, ℕ, ◌≤◌, List, length, take};

use std::marker::Model;

/// The greatest number of bytes of a line.
pub const LINE_ROOM: usize = 256;

/// A received line of at most 256 bytes, kept without memory. Contracts see the list of its bytes.
#[derive(Drop)]
pub struct Line {
    bytes: [u8; LINE_ROOM],
    len: u16,
}

impl Model for Line {
    ghost Value = { List ℕ };

    ghost view = { λ line. take line.len line.bytes };

    ghost invariant = { λ line. line.len ≤ 256 };
}

impl Line {
    /// The line of these bytes.
    pub fn new(bytes: &[u8]) -> Line
        requires { length bytes.now ≤ 256 }
        ensures { result ≡ bytes.now }
    {
        let mut room = [0u8; LINE_ROOM];
        room[..bytes.len()].copy_from_slice(bytes);
        Line {
            bytes: room,
            len: bytes.len() as u16,
        }
    }

    pub fn as_slice(&self) -> &[u8]
        ensures { result.now ≡ self.now }
    {
        &self.bytes[..usize::from(self.len)]
    }

    /// The same line once more. Takes no memory.
    pub fn copy(&self) -> Line
        ensures { result ≡ self.now }
    {
        Line {
            bytes: self.bytes,
            len: self.len,
        }
    }
}

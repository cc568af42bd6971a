//! A stream in memory that takes a turn for the worse at one of its calls.

use std::alloc::{AllocError, Global};
use std::collections::VecDeque;
use std::io::{self, ErrorKind, Read, Write};

/// What comes of the call.
#[derive(Clone, Copy, Debug, PartialEq, Eq)]
pub enum Turn {
    Interrupted,
    /// One byte is taken or given.
    Short,
    /// None is.
    Empty,
    Broken,
}

/// Takes and gives three bytes at a time, but at the call with this number.
#[derive(Drop)]
pub struct Shaky {
    bytes: VecDeque<u8>,
    turn: Turn,
    at: usize,
    calls: usize,
}

impl Shaky {
    /// It is empty.
    pub fn new(alloc: Global, turn: Turn, at: usize) -> Shaky {
        Shaky {
            bytes: VecDeque::new(alloc),
            turn,
            at,
            calls: 0,
        }
    }

    /// It holds this text.
    pub fn holding(alloc: Global, turn: Turn, at: usize, text: &[u8]) -> Result<Shaky, AllocError> {
        let mut stream = Shaky::new(alloc, turn, at);
        for byte in text {
            stream.bytes.push_back(*byte)?;
        }
        Ok(stream)
    }

    pub fn into_bytes(self) -> Vec<u8> {
        Vec::from(self.bytes)
    }

    /// How many bytes the next call takes or gives at the most.
    fn next(&mut self) -> io::Result<usize> {
        let call = self.calls;
        self.calls = call.saturating_add(1);
        if call != self.at {
            return Ok(3);
        }
        match self.turn {
            Turn::Interrupted => Err(io::Error::from(ErrorKind::Interrupted)),
            Turn::Short => Ok(1),
            Turn::Empty => Ok(0),
            Turn::Broken => Err(io::Error::from(ErrorKind::Other)),
        }
    }
}

impl Write for Shaky {
    fn write(&mut self, buf: &[u8]) -> io::Result<usize> {
        let most = self.next()?.min(buf.len());
        self.bytes.write(&buf[..most])
    }

    fn flush(&mut self) -> io::Result<()> {
        Ok(())
    }
}

impl Read for Shaky {
    fn read(&mut self, buf: &mut [u8]) -> io::Result<usize> {
        let most = self.next()?.min(buf.len());
        self.bytes.read(&mut buf[..most])
    }
}

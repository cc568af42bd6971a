//! How far a child is ahead of what it is sent.

use crate::watch::Watched;

/// How many bytes are sent to a child that is ahead: half of what the smallest pipe holds.
const MOST_AHEAD: usize = 2048;

/// Whether a child still reads what it is sent. It does where it answers each line behind it; one that says more lines than it
/// was sent may have read none of them, and nothing more is sent to it before its pipe is full, since whoever writes into a
/// full pipe waits.
///
/// One that says each line only when it is waited for isn't seen to be ahead: a send to it waits, and is watched.
#[derive(Drop)]
pub(crate) struct Pace {
    sent: u64,
    received: u64,
    /// The bytes that were sent while it was ahead.
    unheard: usize,
    watched: Option<Watched>,
}

/// How many lines end in these bytes.
fn lines_in(bytes: &[u8]) -> u64 {
    let mut lines = 0u64;
    for byte in bytes {
        if *byte == b'\n' {
            lines = lines.saturating_add(1);
        }
    }
    lines
}

impl Pace {
    /// Nothing was sent, and nothing received.
    pub fn new(watched: Option<Watched>) -> Pace {
        Pace {
            sent: 0,
            received: 0,
            unheard: 0,
            watched,
        }
    }

    /// These bytes are to be sent. Says whether the pipe has room for them, as far as that is seen; if so, `ended` is called behind
    /// their sending.
    pub fn sends(&mut self, bytes: &[u8]) -> bool {
        if self.received > self.sent {
            self.unheard = self.unheard.saturating_add(bytes.len());
        }
        self.sent = self.sent.saturating_add(lines_in(bytes));
        self.unheard <= MOST_AHEAD && self.watched.as_ref().is_none_or(|it| it.begins())
    }

    /// Whether what came behind a send that waited at a full pipe is no answer to it.
    pub fn is_over(&self) -> bool {
        self.watched.as_ref().is_some_and(|it| it.is_closed())
    }

    /// What was to be sent was sent, or can't be.
    pub fn ended(&self) {
        if let Some(watched) = &self.watched {
            watched.ends();
        }
    }

    pub fn receives(&mut self, bytes: &[u8]) {
        self.received = self.received.saturating_add(lines_in(bytes));
    }
}

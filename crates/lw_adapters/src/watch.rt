//! Sends that wait at a full pipe, since the child at its other end doesn't read.
//!
//! A child that answers line by line leaves one line unread at most, so no send to it waits. To one that says lines unasked, and
//! reads none, a send would wait for ever. A thread looks at the sends once a second; of one that waits at six looks in a row it
//! makes room in the pipe, by reading what the child doesn't, so that the send ends, and no other begins over this link.
use std::alloc::{AllocError, Global};
use std::fs::{self, Files};
use std::io::Read;
use std::sync::Arc;
use std::sync::atomic::{AtomicU64, Ordering};
use std::thread;
use std::time::{Clock, Duration};

/// How many links are watched: one for each worker.
const MOST_LINKS: usize = 16;
/// At how many looks after the first a send is still found under way, before room is made for it.
const MOST_LOOKS: u8 = 5;
/// How often room is made for one send: the pages of a large pipe.
const MOST_PAGES: u8 = 16;

/// The mark of a send for which room is to be made. One more is 0, the mark of a link over which nothing was sent: where it ends
/// before that, it was only held up.
const GIVEN_UP: u64 = u64::MAX;
/// The mark of one for which room is made: what it sends may be read here.
const MADE_ROOM: u64 = u64::MAX - 2;
/// One more: the mark of a link behind such a send.
const CLOSED: u64 = u64::MAX - 1;

/// How far the sends over a link are: twice their number, and one less while the last is under way. With the pipe's descriptor.
#[derive(Drop)]
pub(crate) struct Mark {
    sends: AtomicU64,
    pipe: AtomicU64,
}

impl Mark {
    fn new() -> Mark {
        Mark {
            sends: AtomicU64::new(0),
            pipe: AtomicU64::new(0),
        }
    }

    fn is(&self, mark: u64) -> bool {
        self.sends.load(Ordering::SeqCst) == mark
    }

    /// Puts one mark in the place of another. Says whether that one was still there.
    fn replace(&self, old: u64, new: u64) -> bool {
        self.sends
            .compare_exchange(old, new, Ordering::SeqCst, Ordering::SeqCst)
            .is_ok()
    }
}

/// The sends over all links of a call, which a thread looks at.
#[derive(Drop)]
pub struct Sends {
    marks: Arc<Vec<Mark>, Global>,
}

impl Sends {
    /// No link is watched yet.
    pub fn new(alloc: Global) -> Result<Sends, AllocError> {
        let mut marks = Vec::with_capacity(alloc, MOST_LINKS)?;
        for _ in 0..MOST_LINKS {
            marks.push(Mark::new())?;
        }
        let marks = Arc::new(alloc, marks)?;
        Ok(Sends { marks })
    }

    /// The same sends, for another thread.
    pub fn share(&self) -> Result<Sends, AllocError> {
        let marks = Arc::try_clone(&self.marks)?;
        Ok(Sends { marks })
    }

    /// Looks at them once a second, without an end.
    pub fn watch<R: Files + Clock + AllocGlobal>(&self, rt: &R) {
        let mut looks = [Look::NONE; MOST_LINKS];
        for _ in 0..u64::MAX {
            thread::sleep(rt, Duration::from_secs(1));
            look_at_all(rt, &self.marks, &mut looks);
        }
    }
}

/// The sends over one link, as far as they are watched.
#[derive(Drop)]
pub(crate) struct Watched {
    sends: Sends,
    place: u64,
}

impl Watched {
    /// Those of the link of this number, into the pipe of this descriptor.
    pub fn new(sends: Sends, number: u64, pipe: u64) -> Watched {
        let watched = Watched {
            sends,
            place: number,
        };
        if let Some(mark) = watched.mark() {
            mark.pipe.store(pipe, Ordering::SeqCst);
        }
        watched
    }

    fn mark(&self) -> Option<&Mark> {
        self.sends.marks.get(usize::try_from(self.place).ok()?)
    }

    /// Whether a send over this link was given up, and bytes that it had sent may have been read here.
    pub fn is_closed(&self) -> bool {
        self.mark().is_some_and(|it| it.is(CLOSED))
    }

    /// A send begins. Not over a link that is closed.
    pub fn begins(&self) -> bool {
        let Some(mark) = self.mark() else {
            return true;
        };
        let before = mark.sends.load(Ordering::SeqCst);
        if before == CLOSED {
            return false;
        }
        mark.sends.store(before.wrapping_add(1), Ordering::SeqCst);
        true
    }

    /// The send that began has ended.
    pub fn ends(&self) {
        if let Some(mark) = self.mark() {
            mark.sends.fetch_add(1, Ordering::SeqCst);
        }
    }
}

/// The mark that was seen at the last look, and at how many looks in a row.
#[derive(Clone, Copy)]
struct Look {
    mark: u64,
    looks: u8,
}

impl Look {
    const NONE: Look = Look { mark: 0, looks: 0 };

    /// Looks once more. Says whether the send that has this mark was found under way too often.
    fn is_too_long(&mut self, mark: u64) -> bool {
        let same = mark == self.mark && mark % 2 == 1;
        let looks = if same {
            self.looks.saturating_add(1)
        } else {
            0
        };
        *self = Look { mark, looks };
        looks >= MOST_LOOKS
    }
}

/// Reads from the pipe of a send that was given up, until it has ended. Nothing where it can't be opened.
fn make_room<R: Files + Clock + AllocGlobal>(rt: &R, mark: &Mark) {
    let number = mark.pipe.load(Ordering::SeqCst);
    let Ok(name) = format!(in rt.alloc(); "/proc/self/fd/{number}") else {
        return;
    };
    let Ok(mut pipe) = fs::open(rt, name.as_str()) else {
        return;
    };
    // (where the send is still under way, the descriptor was that of its pipe when it was opened)
    mark.replace(GIVEN_UP, MADE_ROOM);
    let mut page = [0u8; 4096];
    for _ in 0..MOST_PAGES {
        if !mark.is(MADE_ROOM) {
            return;
        }
        let _count = pipe.read(&mut page);
        thread::sleep(rt, Duration::from_millis(1));
    }
}

/// Looks at each send, and makes room for those that are under way too long.
fn look_at_all<R: Files + Clock + AllocGlobal>(rt: &R, marks: &[Mark], looks: &mut [Look]) {
    for (mark, look) in marks.iter().zip(looks.iter_mut()) {
        let now = mark.sends.load(Ordering::SeqCst);
        if look.is_too_long(now) {
            if now < MADE_ROOM {
                mark.replace(now, GIVEN_UP);
            }
            make_room(rt, mark);
        }
    }
}

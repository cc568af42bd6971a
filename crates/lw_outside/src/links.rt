//! Links to children, and what starts and retires them.
ghost use Rattle.std.specs.Prelude.{◌≡◌, ◌<◌, length, map, Contains, IfOk, string_bytes};
ghost use Rattle.lw_outside.specs.Links.{LinkState, SpawnerState, LinkSend, LinkTake, SpawnerStart, SpawnerRetire};

use crate::Failed;
use lw_words::NoMemory;
use std::alloc::{AllocError, Global};

/// A link to a child that was started: bytes go to it, and bytes come from it.
pub trait Link {
    ghost state: { Self → LinkState };

    /// Sends all the bytes. Where that fails some may have been sent, but not all.
    fn send(&mut self, bytes: &[u8]) -> Result<(), Failed>
        requires { 0 < length bytes.now }
        ensures { LinkSend bytes.now (state self.old) (state self.new) result };

    /// Puts some received bytes into the start of the buffer, and says how many; 0 is the end. Behind them the buffer
    /// may hold anything. May wait for the child.
    fn take(&mut self, buffer: &mut [u8]) -> Result<usize, Failed>
        requires { 0 < length buffer.old }
        ensures { LinkTake buffer.new (state self.old) (state self.new) result };

    /// Whether the runs of this child are written to a journal.
    fn has_journal(&self) -> bool {
        false
    }

    /// Appends the line of a finished run to the journal; None counts a line that there was no memory for.
    fn append_run(&mut self, line: Option<&[u8]>)
        ensures { state self.new ≡ state self.old }
    {
        let _ = line;
    }
}

/// Why no child was started.
#[derive(Clone, Copy, Debug, PartialEq, Eq)]
pub enum StartStop {
    Failed,
    NoMemory,
}

/// Why a start failed, as far as its spawner knows.
#[derive(Clone, Copy, Debug, PartialEq, Eq)]
pub enum StartFailure {
    /// There is no such program.
    NotFound,
    /// The program may not be run.
    NotExecutable,
    /// It is a folder.
    Folder,
    /// What the system says, by the number of its error.
    System(u32),
    Unknown,
}

/// What a journal holds when it is opened.
#[derive(Clone, Copy, Debug, PartialEq, Eq)]
pub enum JournalStart {
    /// No run: it is new, or holds nothing but heads.
    Fresh,
    /// Runs of earlier calls, with which this one goes on.
    Resumes,
}

/// What starts children, and retires the links to them.
pub trait Spawner {
    type Link: Link + Send + Drop;

    ghost state: { Self → SpawnerState };

    /// Why the last of its starts that failed did so.
    fn failure(&self) -> StartFailure
        ensures { result ≡ (state self.now).cause };

    /// Starts the program of the first word, with the others as its arguments.
    fn start(&mut self, words: &[String]) -> Result<Self::Link, StartStop>
        requires { 0 < length words.now }
        ensures { SpawnerStart Self.Link.state (map (λ w. string_bytes w) words.now)
            (state self.old) (state self.new) result };

    /// Ends a link that it has started and not yet retired, and records what became of it. Takes no memory. May wait for the
    /// child's end.
    fn retire(&mut self, link: Self::Link)
        requires started { (Self.Link.state link).number < (state self.old).started }
        requires once { ¬ Contains (map (λ r. r.number) (state self.old).retired)
            (Self.Link.state link).number }
        ensures { SpawnerRetire (Self.Link.state link) (state self.old) (state self.new) };

    /// Opens a journal, to which the runs of all children are appended that are started from now on.
    fn open_journal(&mut self, name: &str) -> JournalStart
        ensures { state self.new ≡ state self.old }
    {
        let _ = name;
        JournalStart::Fresh
    }

    /// Appends a line to the journal; None counts a line that there was no memory for.
    fn append_line(&mut self, line: Option<&[u8]>)
        ensures { state self.new ≡ state self.old }
    {
        let _ = line;
    }

    /// Whether the journal lacks lines: those of some runs couldn't be written whole.
    fn lacks_lines(&self) -> bool {
        false
    }
}

/// The words of a command, once more.
pub fn copy_words(alloc: Global, words: &[String]) -> Result<Vec<String>, NoMemory>
    ensures { IfOk result (λ copies. map (λ w. string_bytes w) copies.items ≡
        map (λ w. string_bytes w) words.now) }
{
    let mut copies = Vec::with_capacity(alloc, words.len())?;
    for word in words {
        copies.push(String::from_str(alloc, word.as_str())?)?;
    }
    Ok(copies)
}

impl From<NoMemory> for StartStop {
    ghost use Rattle.std.specs.Prelude.{◌≡◌};
    ghost use Rattle.lw_outside.specs.declared.links.StartStop.TheVariants.{NoMemory};

    ghost from_gives = { λ _ stop. stop ≡ NoMemory };

    fn from(_: NoMemory) -> StartStop {
        StartStop::NoMemory
    }
}

impl From<AllocError> for StartStop {
    ghost use Rattle.std.specs.Prelude.{◌≡◌};
    ghost use Rattle.lw_outside.specs.declared.links.StartStop.TheVariants.{NoMemory};

    ghost from_gives = { λ _ stop. stop ≡ NoMemory };

    fn from(_: AllocError) -> StartStop {
        StartStop::NoMemory
    }
}

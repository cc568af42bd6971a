//! Two children that wait for each other: a call that puts every word to one of them fails.
ghost use Rattle.std.specs.Prelude.{◌≡◌, ◌<◌, ◌≤◌, length, map, None, IfOk};
ghost use Rattle.std.specs.List.{All};
ghost use Rattle.lw_outside.specs.Links.{LinkState};

use crate::tests::cases::{Shell, files_of, let_go};
use http_server::Log;
use lw_log::MemoryLog;
use lw_outside::{
    Failed, Link, MemoryFiles, MemorySink, MemorySource, Spawner, StartFailure, StartStop, World,
};
use lw_top::run;
use std::alloc::Global;
use std::process::Abort;
use std::sync::atomic::{AtomicU32, Ordering};
use std::sync::{Arc, Wait};
use std::thread;
use std::thread::Threads;

/// Where two links tell each other that they were sent a letter.
#[derive(Drop)]
struct Meeting {
    here: Arc<AtomicU32, Global>,
    there: Arc<AtomicU32, Global>,
}

impl Meeting {
    /// Whether the other link is sent a letter in time.
    fn is_kept(&self) -> bool {
        for _ in 0..10_000_000 {
            if self.there.load(Ordering::SeqCst) > 0 {
                return true;
            }
            thread::yield_now();
        }
        false
    }
}

/// A link to a machine of one state with one output, which answers its first letter only once the other link was sent one.
#[derive(Drop)]
struct MeetingLink {
    number: u64,
    answer: &'static [u8],
    meeting: Option<Meeting>,
    faults: u64,
    ends: u64,
}

impl MeetingLink {
    /// Whether this is no answer to the first letter, or the other link is sent one in time.
    fn has_met(&mut self) -> bool
        ensures number { self.new.number ≡ self.old.number }
        ensures faults { self.new.faults ≡ self.old.faults }
        ensures ends { self.new.ends ≡ self.old.ends }
    {
        if self.answer == b"ready\n".as_slice() {
            return true;
        }
        match self.meeting.take() {
            Some(meeting) => meeting.is_kept(),
            None => true,
        }
    }
}

/// Puts a prefix of the text into the start of the buffer, as much as fits, and says how much.
fn put_front(text: &[u8], buffer: &mut [u8]) -> usize
    ensures size { result ≤ length buffer.new }
    ensures within { result ≤ length text.now }
{
    let count = if text.len() < buffer.len() {
        text.len()
    } else {
        buffer.len()
    };
    buffer[..count].copy_from_slice(&text[..count]);
    count
}

impl Link for MeetingLink {
    ghost use Rattle.std.specs.Prelude.{None};

    ghost state = { λ l. record {
      number = l.number;
      faults = l.faults;
      ends = l.ends;
      transcript = None;
    } };

    fn send(&mut self, bytes: &[u8]) -> Result<(), Failed> {
        if bytes == b"reset\n".as_slice() {
            self.answer = b"ready\n";
            return Ok(());
        }
        if let Some(meeting) = &self.meeting {
            meeting.here.store(1, Ordering::SeqCst);
        }
        self.answer = b"out 0\n";
        Ok(())
    }

    fn take(&mut self, buffer: &mut [u8]) -> Result<usize, Failed> {
        if !self.has_met() {
            self.faults = self.faults.saturating_add(1);
            return Err(Failed);
        }
        let count = put_front(self.answer, buffer);
        self.answer = &self.answer[count..];
        if count == 0 {
            self.ends = self.ends.saturating_add(1);
        }
        Ok(count)
    }
}

/// What starts two such links. A third one would meet no other.
#[derive(Drop)]
struct MeetingSpawner {
    first: Option<Meeting>,
    second: Option<Meeting>,
    started: u64,
    faults: u64,
    retired: Log<MeetingLink, ()>,
    ghost earlier: { All (λ r. r.0.number < started) retired.items },
}

impl MeetingSpawner {
    fn new(rt: &impl Abort, alloc: Global) -> MeetingSpawner {
        let one = Arc::new(alloc, AtomicU32::new(0)).expect(rt, "memory");
        let other = Arc::new(alloc, AtomicU32::new(0)).expect(rt, "memory");
        let here = Arc::try_clone(&one).expect(rt, "memory");
        let there = Arc::try_clone(&other).expect(rt, "memory");
        MeetingSpawner {
            first: Some(Meeting { here, there }),
            second: Some(Meeting {
                here: other,
                there: one,
            }),
            started: 0,
            faults: 0,
            retired: Log::new(),
        }
    }
}

impl MeetingSpawner {
    /// For the proof alone: each link that was retired was started before.
    fn keeps_earlier(&self)
        ensures { All (λ (r : LinkState). r.number < self.now.started) (map (λ r. record {
          number = r.0.number;
          faults = r.0.faults;
          ends = r.0.ends;
          transcript = None;
        }) self.now.retired.items) }
    {
        let _ = &self.started;
    }
}

impl Spawner for MeetingSpawner {
    type Link = MeetingLink;

    ghost use Rattle.std.specs.Prelude.{None, map};
    ghost use Rattle.lw_outside.specs.declared.links.StartFailure.TheVariants.{Unknown};

    ghost state = { λ s. record {
      faults = s.faults;
      started = s.started;
      retired = map (λ r. record {
        number = r.0.number;
        faults = r.0.faults;
        ends = r.0.ends;
        transcript = None;
      }) s.retired.items;
      commands = None;
      cause = Unknown;
    } };

    fn failure(&self) -> StartFailure {
        StartFailure::Unknown
    }

    fn start(&mut self, _words: &[String]) -> Result<MeetingLink, StartStop> {
        self.keeps_earlier();
        let Some(started) = self.started.checked_add(1) else {
            return Err(StartStop::NoMemory);
        };
        let meeting = self.first.take();
        self.first = self.second.take();
        let link = MeetingLink {
            number: self.started,
            answer: b"",
            meeting,
            faults: 0,
            ends: 0,
        };
        self.started = started;
        Ok(link)
    }

    fn retire(&mut self, link: MeetingLink) {
        self.retired = self.retired.and(&link, &());
    }
}

const SETUP: &str = "{\"command\":[\"sys\"],\"inputs\":[\"a\",\"b\"],\"outputs\":[\"0\"]}";

const MODEL: &str =
    "{\"inputs\":[\"a\",\"b\"],\"outputs\":[\"0\"],\"states\":[[[0,\"0\"],[0,\"0\"]]]}\n";

const LEARNED: &str = "learned: states 1, refinements 0, extra 0, answers 4\n";

const LEARN: [&str; 6] = ["learn", "m", "--workers", "2", "--extra", "0"];

/// A world in memory whose children are such ones.
type MeetingWorld = World<
    MemoryFiles,
    MeetingSpawner,
    MemorySource,
    MemorySink,
    MemorySink,
    lw_log::Log<MemoryLog, MemorySink>,
>;

/// The status of the top call over such children.
fn status_over<R: Threads + Wait + Sync + Copy + Drop>(
    rt: &R,
    alloc: Global,
    arguments: &[String],
    world: &mut MeetingWorld,
) -> u8 {
    let end = run(*rt, alloc, arguments, world);
    let status = end.status;
    let_go(end);
    status
}

/// The status of the top call over a shell, with two such children in place of its own.
fn meet<R: Abort + Threads + Wait + Sync + Copy + Drop>(rt: &R, alloc: Global, shell: Shell) -> u8 {
    let Shell { arguments, world } = shell;
    let mut world = World {
        files: world.files,
        spawner: MeetingSpawner::new(rt, alloc),
        input: world.input,
        out: world.out,
        err: world.err,
        log: world.log,
    };
    let status = status_over(rt, alloc, &arguments, &mut world);
    assert_eq!(rt; world.out.taken(), MODEL.as_bytes());
    assert_eq!(rt; world.err.taken(), LEARNED.as_bytes());
    status
}

#[test]
fn two_children_are_asked_at_once(rt: HostRuntime) {
    let alloc = rt.alloc();
    let shell = Shell::new(&rt, alloc, &LEARN, files_of(&rt, alloc, SETUP, &[]));
    assert!(rt; meet(&rt, alloc, shell) == 0);
}

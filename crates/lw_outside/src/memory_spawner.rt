//! A spawner in memory.
ghost use Rattle.std.specs.Prelude.{◌≡◌, ◌<◌, ◌≤◌, ◌+◌, [], ◌∷◌, ◌++◌, length, map, slice_index_or, true, false, Contains, Some, None, Err, IfOk, IfSome, OnOk, OnErr, option_map, string_bytes, vec_capacity, vec_len};
ghost use Rattle.std.specs.List.{All};
ghost use Rattle.lw_words.specs.Cause.{CountedFault};
ghost use Rattle.lw_outside.specs.Links.{IsUntouched, with_start, SpawnerStart, SpawnerRetire};
ghost use Rattle.lw_outside.specs.Memory.{AllPlay, EachRecites, HasHeard, is_planned, new_link, new_spawner, next_link, one_more, told_link, speaker_at, transcript_of, told_spawner};
ghost use Rattle.lw_outside.specs.bodies.Cast.{cast_of};
ghost use Rattle.lw_outside.specs.bodies.Child.{IsFresh, speaker_of};
ghost use Rattle.lw_outside.specs.bodies.Link.{HasRoom};
ghost use Rattle.lw_outside.specs.declared.links.StartStop.{StartStop as StartRefusal};

use crate::cast::Cast;
use crate::child::Child;
use crate::memory_link::LinkParts;
use crate::{Link, MemoryLink, Spawner, StartFailure, StartStop, Transcript, copy_words};
use http_server::Log;
use lw_json::Machine;
use lw_words::NoMemory;
use std::alloc::Global;
use std::marker::Model;

/// A spawner of links in memory. The program that a start names is not looked at.
/// Contracts see what stands at the other ends of its links, the room and the plan of each, the plan of the starts with the
/// number of the next one, what was started and retired, the words of the starts, and the count of faults.
#[derive(Drop)]
pub struct MemorySpawner {
    cast: Cast,
    room: usize,
    links: Vec<Vec<u64>>,
    plan: Vec<u64>,
    made: u64,
    started: usize,
    commands: Vec<Vec<String>>,
    transcripts: Vec<Transcript>,
    retired: Log<MemoryLink, ()>,
    faults: u64,
    alloc: Global,
}

impl Model for MemorySpawner {
    ghost use Rattle.std.specs.Prelude.{map, string_bytes, vec_capacity};
    ghost use Rattle.lw_outside.specs.Memory.{MemorySpawnerState};

    ghost Value = { MemorySpawnerState };

    ghost use Rattle.lw_outside.specs.bodies.Cast.{cast_of};
    ghost use Rattle.lw_outside.specs.bodies.Spawner.{KeepsRetired};

    ghost view = { λ s. record {
      speakers = cast_of s.cast;
      room = s.room;
      links = map (λ l. l.items) s.links.items;
      plan = s.plan.items;
      made = s.made;
      started = s.started;
      commands = map (λ c. map (λ w. string_bytes w) c.items) s.commands.items;
      retired = map (λ r. r.0) s.retired.items;
      faults = s.faults;
    } };

    ghost invariant = { λ s. KeepsRetired s.started (vec_capacity s.transcripts) (map (λ r. r.0) s.retired.items)
        (map (λ t. record { sent = t.sent; received = t.received }) s.transcripts.items) };
}

/// The plan of a link by its number: none where the list is shorter.
fn plan_of(alloc: Global, links: &[Vec<u64>], number: usize) -> Result<Vec<u64>, NoMemory>
    ensures { IfOk result (λ plan. plan.items ≡
        slice_index_or (map (λ l. l.items) links.now) number []) }
{
    match links.get(number) {
        Some(plan) => Ok(Vec::from_slice(alloc, plan)?),
        None => Ok(Vec::new(alloc)),
    }
}

/// Takes the room for the transcripts of one more link than were started, and says how many that are.
fn make_room(transcripts: &mut Vec<Transcript>, started: usize) -> Result<usize, NoMemory>
    requires { vec_len transcripts.old ≤ started }
    ensures items { transcripts.new.items ≡ transcripts.old.items }
    ensures more { IfOk result (λ n. (n ≡ started + 1) × (n ≤ vec_capacity transcripts.new)) }
    ensures capacity { vec_capacity transcripts.old ≤ vec_capacity transcripts.new }
{
    let Some(more) = started.checked_add(1) else {
        return Err(NoMemory);
    };
    transcripts.reserve(more - transcripts.len())?;
    Ok(more)
}

/// What a start takes memory for before its link: its words once more, with a place for them, and the room of `make_room`.
fn make_ready(
    alloc: Global,
    words: &[String],
    commands: &mut Vec<Vec<String>>,
    transcripts: &mut Vec<Transcript>,
    started: usize,
) -> Result<(Vec<String>, usize), NoMemory>
    requires { vec_len transcripts.old ≤ started }
    ensures commands { commands.new.items ≡ commands.old.items }
    ensures items { transcripts.new.items ≡ transcripts.old.items }
    ensures words { IfOk result (λ made. map (λ w. string_bytes w) made.0.items ≡
        map (λ w. string_bytes w) words.now) }
    ensures room { OnOk result (vec_len commands.new < vec_capacity commands.new) }
    ensures more { IfOk result (λ made. (made.1 ≡ started + 1) ×
        (made.1 ≤ vec_capacity transcripts.new)) }
    ensures capacity { vec_capacity transcripts.old ≤ vec_capacity transcripts.new }
{
    let command = copy_words(alloc, words)?;
    commands.reserve(1)?;
    let more = make_room(transcripts, started)?;
    Ok((command, more))
}

impl MemorySpawner {
    /// Each link is to a child that plays the machine, and has room for `room` bytes that are sent and received. The starts
    /// whose numbers from 0 the plan has are to fail, and of the i-th link the calls that the i-th plan of `links` has.
    pub fn serving(
        alloc: Global,
        m: Machine,
        room: usize,
        plan: Vec<u64>,
        links: Vec<Vec<u64>>,
    ) -> Result<MemorySpawner, NoMemory>
        ensures { IfOk result (λ s. s ≡ new_spawner (AllPlay m) room plan.items
            (map (λ l. l.items) links.items)) }
    {
        Ok(MemorySpawner::with_cast(alloc, Cast::AllServe(m), room, plan, links))
    }

    /// The i-th link says the i-th script, whatever is sent, and then ends. A start past the last script fails. Room and plans
    /// are those of `serving`.
    pub fn scripted(
        alloc: Global,
        scripts: Vec<Vec<u8>>,
        room: usize,
        plan: Vec<u64>,
        links: Vec<Vec<u64>>,
    ) -> Result<MemorySpawner, NoMemory>
        ensures { IfOk result (λ s. s ≡ new_spawner
            (EachRecites (map (λ b. b.items) scripts.items)) room plan.items
            (map (λ l. l.items) links.items)) }
    {
        Ok(MemorySpawner::with_cast(alloc, Cast::EachReads(scripts), room, plan, links))
    }

    fn with_cast(
        alloc: Global,
        cast: Cast,
        room: usize,
        plan: Vec<u64>,
        links: Vec<Vec<u64>>,
    ) -> MemorySpawner
        ensures { result ≡ new_spawner (cast_of cast) room plan.items
            (map (λ l. l.items) links.items) }
    {
        MemorySpawner {
            cast,
            room,
            links,
            plan,
            made: 0,
            started: 0,
            commands: Vec::new(alloc),
            transcripts: Vec::new(alloc),
            retired: Log::new(),
            faults: 0,
            alloc,
        }
    }

    /// The words of its starts so far, failed ones too, but not those for which there was no memory.
    pub fn started(&self) -> &[Vec<String>]
        ensures { map (λ c. map (λ w. string_bytes w) c.items) result.now ≡ self.now.commands }
    {
        self.commands.as_slice()
    }

    /// What went over the links that were retired, in the order of their retirement.
    pub fn retired(&self) -> &[Transcript]
        ensures told { map (λ t. record { sent = t.sent; received = t.received }) result.now ≡
            map transcript_of self.now.retired }
        ensures heard { All HasHeard self.now.retired }
    {
        self.transcripts.as_slice()
    }

    /// Whether the next start is planned to fail.
    fn fails_by_plan(&self) -> bool
        ensures { result ≡ is_planned self.now.plan self.now.made }
    {
        self.plan.contains(&self.made)
    }

    /// What stands at the other end of the next link, if anything does.
    fn next_child(&self) -> Result<Option<Child>, NoMemory>
        ensures { IfOk result (λ child. (option_map speaker_of child ≡
            speaker_at self.now.speakers self.now.started) × IfSome child IsFresh) }
    {
        self.cast.child(self.alloc, self.started)
    }

    /// The plan of the next link.
    fn next_plan(&self) -> Result<Vec<u64>, NoMemory>
        ensures { IfOk result (λ plan. plan.items ≡
            slice_index_or self.now.links self.now.started []) }
    {
        plan_of(self.alloc, &self.links, self.started)
    }

    /// What the next link takes memory for besides its child.
    fn next_parts(&self) -> Result<LinkParts, NoMemory>
        ensures plan { IfOk result (λ parts. parts.plan.items ≡
            slice_index_or self.now.links self.now.started []) }
        ensures room { IfOk result (HasRoom self.now.room) }
    {
        let plan = self.next_plan()?;
        let sent = Vec::with_capacity(self.alloc, self.room)?;
        let received = Vec::with_capacity(self.alloc, self.room)?;
        Ok(LinkParts {
            plan,
            sent,
            received,
        })
    }

    /// A link to this child, with the room, the number and the plan of the next one.
    fn link_to(&self, child: Child) -> Result<MemoryLink, NoMemory>
        requires { IsFresh child }
        ensures { IfOk result (λ link. link ≡ new_link self.now.started (speaker_of child)
            self.now.room (slice_index_or self.now.links self.now.started [])) }
    {
        let parts = self.next_parts()?;
        Ok(MemoryLink::start(self.started, child, self.room, parts))
    }

    /// The link that is started next. None where the start is to fail.
    fn next_link(&self) -> Result<Option<MemoryLink>, NoMemory>
        ensures { IfOk result (λ link. link ≡ next_link self.now) }
    {
        if self.fails_by_plan() {
            return Ok(None);
        }
        match self.next_child()? {
            Some(child) => Ok(Some(self.link_to(child)?)),
            None => Ok(None),
        }
    }
}

impl MemorySpawner {
    /// For the proof alone: each link that was retired was started before.
    fn keeps_earlier(&self)
        ensures { All (λ r. r.number < self.now.started) (map told_link self.now.retired) }
    {
        let _ = &self.started;
    }
}

impl Spawner for MemorySpawner {
    type Link = MemoryLink;

    ghost use Rattle.lw_outside.specs.Memory.{told_spawner};

    ghost state = { told_spawner };

    /// Its starts fail by their plan, for no cause of a system's.
    fn failure(&self) -> StartFailure {
        StartFailure::Unknown
    }

    fn start(&mut self, words: &[String]) -> Result<MemoryLink, StartStop>
        requires { 0 < length words.now }
        ensures every { SpawnerStart told_link (map (λ w. string_bytes w) words.now)
            (told_spawner self.old) (told_spawner self.new) result }

        // By the plan and what stands at the other end, and nothing else.
        ensures exact { IfOk result (λ l. Some l ≡ next_link self.old) }
        ensures refused { result ≡ Err StartRefusal.Failed → None ≡ next_link self.old }
        ensures done { OnOk result (self.new ≡ record self.old {
          made = one_more self.old.made;
          started = self.old.started + 1;
          commands =
              self.old.commands ++ map (λ w. string_bytes w) words.now ∷ [];
        }) }
        ensures noted { result ≡ Err StartRefusal.Failed → self.new ≡ record self.old {
          made = one_more self.old.made;
          commands =
              self.old.commands ++ map (λ w. string_bytes w) words.now ∷ [];
          faults = one_more self.old.faults;
        } }
        ensures unnoted { result ≡ Err StartRefusal.NoMemory → self.new ≡ self.old }
    {
        self.keeps_earlier();
        let Ok((command, started)) = make_ready(
            self.alloc,
            words,
            &mut self.commands,
            &mut self.transcripts,
            self.started,
        ) else {
            return Err(StartStop::NoMemory);
        };
        let Ok(next) = self.next_link() else {
            return Err(StartStop::NoMemory);
        };
        self.made = self.made.saturating_add(1);
        self.commands.push_reserved(command);
        match next {
            Some(link) => {
                self.started = started;
                Ok(link)
            }
            None => {
                self.faults = self.faults.saturating_add(1);
                Err(StartStop::Failed)
            }
        }
    }

    fn retire(&mut self, link: MemoryLink)
        requires started { link.number < self.old.started }
        requires once { ¬ Contains (map (λ r. r.number) (map told_link self.old.retired))
            link.number }
        ensures every { SpawnerRetire (told_link link) (told_spawner self.old)
            (told_spawner self.new) }

        // The link is kept whole, and nothing else changes.
        ensures done { self.new ≡ record self.old { retired = self.old.retired ++ link ∷ [] } }
    {
        let _number = link.number();
        self.retired = self.retired.and(&link, &());
        self.transcripts.push_reserved(link.into_transcript());
    }
}

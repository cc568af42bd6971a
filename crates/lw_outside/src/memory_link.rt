//! A link in memory.
ghost use Rattle.std.specs.Prelude.{◌≡◌, ◌≢◌, ◌<◌, ◌≤◌, ◌+◌, ◌-◌, ◌⊎◌, [], ◌++◌, length, take, true, false, min, Some, IfOk, OnOk, OnErr, option_map, vec_capacity, vec_len};
ghost use Rattle.lw_words.specs.Cause.{CountedFault};
ghost use Rattle.lw_outside.specs.Links.{SendsPart, receives, sends, LinkSend, LinkTake};
ghost use Rattle.lw_outside.specs.Memory.{HasHeard, NotesFault, is_planned, new_link, one_more, waiting, told_link};
ghost use Rattle.lw_outside.specs.bodies.Child.{IsFresh, speaker_of};
ghost use Rattle.lw_outside.specs.bodies.Link.{HasRoom};

use crate::child::Child;
use crate::{Bytes, Failed, Link, Transcript};
use std::marker::Model;

/// A link in memory, to a child that plays a machine or to one that says a script. A spawner makes it.
/// Contracts see what stands at its other end, what went over it, the room that is left, the plan of the calls that are to
/// fail with the number of the next one, and the counts of faults and of ends.
#[derive(Drop)]
pub struct MemoryLink {
    number: usize,
    child: Child,
    sent: Vec<u8>,
    received: Vec<u8>,
    left: usize,
    plan: Vec<u64>,
    made: u64,
    faults: u64,
    ends: u64,
}

impl Model for MemoryLink {
    ghost use Rattle.std.specs.Prelude.{◌≤◌, ◌-◌, vec_capacity, vec_len};
    ghost use Rattle.lw_outside.specs.Memory.{MemoryLinkState};

    ghost Value = { MemoryLinkState };

    ghost use Rattle.lw_outside.specs.bodies.Child.{HasSaid, speaker_of};

    ghost view = { λ l. record { number = l.number; speaker = speaker_of l.child; sent = l.sent.items; received = l.received.items; room = l.left; plan = l.plan.items; made = l.made; faults = l.faults; ends = l.ends } };

    ghost invariant = { λ l. HasSaid l.child l.sent.items l.received.items
        × (l.left ≤ vec_capacity l.sent - vec_len l.sent)
        × (l.left ≤ vec_capacity l.received - vec_len l.received) };
}

/// What a link takes memory for besides its child: its plan, and the room for what is sent and received.
#[derive(Drop)]
pub(crate) struct LinkParts {
    pub(crate) plan: Vec<u64>,
    pub(crate) sent: Vec<u8>,
    pub(crate) received: Vec<u8>,
}

/// Puts bytes last, for which there is room.
fn push_within(list: &mut Vec<u8>, bytes: &[u8])
    requires { length bytes.now ≤ vec_capacity list.old - vec_len list.old }
    ensures items { list.new.items ≡ list.old.items ++ bytes.now }
    ensures length { vec_len list.new ≡ vec_len list.old + length bytes.now }
    ensures room { vec_capacity list.old ≤ vec_capacity list.new }
{
    if list.extend_from_slice(bytes).is_err() {
        unreachable!();
    }
}

impl MemoryLink {
    /// A link to this child, of these parts, with room for this many bytes that are sent and received.
    pub(crate) fn start(number: usize, child: Child, room: usize, parts: LinkParts) -> MemoryLink
        requires fresh { IsFresh child }
        requires room { HasRoom room parts }
        ensures { result ≡ new_link number (speaker_of child) room parts.plan.items }
    {
        MemoryLink {
            number,
            child,
            sent: parts.sent,
            received: parts.received,
            left: room,
            plan: parts.plan,
            made: 0,
            faults: 0,
            ends: 0,
        }
    }

    pub(crate) fn number(&self) -> usize
        ensures value { result ≡ self.now.number }
        ensures received { HasHeard self.now }
    {
        self.number
    }

    /// What went over it. Takes no memory.
    pub(crate) fn into_transcript(self) -> Transcript
        ensures { (result.sent ≡ self.sent) × (result.received ≡ self.received) }
    {
        Transcript {
            sent: Bytes::new(self.sent),
            received: Bytes::new(self.received),
        }
    }

    /// Counts a call, and a fault where the call is planned to fail. Says whether it is.
    fn fails_by_plan(&mut self) -> bool
        ensures planned { result ≡ is_planned self.old.plan self.old.made }
        ensures fault { result ≡ true → NotesFault self.old self.new }
        ensures made { result ≡ false →
            self.new ≡ record self.old { made = one_more self.old.made } }
        ensures counts { self.old.faults ≤ self.new.faults }
        ensures received { HasHeard self.new }
    {
        let planned = self.plan.contains(&self.made);
        self.made = self.made.saturating_add(1);
        if planned {
            self.faults = self.faults.saturating_add(1);
        }
        planned
    }
}

impl Link for MemoryLink {
    ghost use Rattle.lw_outside.specs.Memory.{told_link};

    ghost state = { told_link };

    fn send(&mut self, bytes: &[u8]) -> Result<(), Failed>
        requires { 0 < length bytes.now }
        ensures every { LinkSend bytes.now (told_link self.old) (told_link self.new) result }

        // By the plan and the room, and nothing else.
        ensures refused { OnErr result ((is_planned self.old.plan self.old.made ≡ true) ⊎
            (self.old.room < length bytes.now)) }
        ensures unplanned { OnOk result (is_planned self.old.plan self.old.made ≡ false) }
        ensures noted { OnErr result (NotesFault self.old self.new) }
        ensures done { OnOk result (self.new ≡ record self.old {
          sent =
              self.old.sent ++ bytes.now;
          room = self.old.room - length bytes.now;
          made =
              one_more self.old.made;
        }) }
        ensures fits { OnOk result (length bytes.now ≤ self.old.room) }
        ensures received { HasHeard self.new }
    {
        if self.fails_by_plan() {
            return Err(Failed);
        }
        if bytes.len() > self.left {
            self.faults = self.faults.saturating_add(1);
            return Err(Failed);
        }
        self.left -= bytes.len();
        push_within(&mut self.sent, bytes);
        Ok(())
    }

    fn take(&mut self, buffer: &mut [u8]) -> Result<usize, Failed>
        requires { 0 < length buffer.old }
        ensures every { LinkTake buffer.new (told_link self.old) (told_link self.new) result }

        // By the plan, by what is waiting and by the room, and nothing else.
        ensures refused { OnErr result ((is_planned self.old.plan self.old.made ≡ true) ⊎
            ((self.old.room ≡ 0) × (0 < length (waiting self.old)))) }
        ensures unplanned { OnOk result (is_planned self.old.plan self.old.made ≡ false) }
        ensures noted { OnErr result (NotesFault self.old self.new) }
        ensures whole { IfOk result (λ n. n ≡ min (min (length buffer.old) self.old.room)
            (length (waiting self.old))) }
        ensures ended { IfOk result (λ n. n ≡ 0 → waiting self.old ≡ []) }
        ensures done { IfOk result (λ n. self.new ≡ record self.old {
          received = self.old.received ++ take n buffer.new;
          room = self.old.room - n;
          made = one_more self.old.made;
          ends =
              self.new.ends;
        }) }
        ensures counted { IfOk result (λ n. n ≡ 0 → self.new.ends ≡ one_more self.old.ends) }
        ensures received { HasHeard self.new }
    {
        if self.fails_by_plan() {
            return Err(Failed);
        }
        if !self.child.is_ready(&self.sent) {
            self.ends = self.ends.saturating_add(1);
            return Ok(0);
        }
        if self.left == 0 {
            self.faults = self.faults.saturating_add(1);
            return Err(Failed);
        }
        let most = buffer.len().min(self.left);
        let count = self.child.fill_front(&self.sent, buffer, most);
        self.left -= count;
        push_within(&mut self.received, &buffer[..count]);
        Ok(count)
    }
}

//! A stream in memory that takes bytes.
ghost use Rattle.std.specs.Prelude.{◌≡◌, ◌<◌, ◌≤◌, ◌-◌, ◌⊎◌, [], length, take, true, false, min, Some, IfOk, OnOk, OnErr};
ghost use Rattle.lw_words.specs.Cause.{CountedFault};
ghost use Rattle.lw_outside.specs.Streams.{taken_more, SinkPut};
ghost use Rattle.lw_outside.specs.Memory.{is_planned, one_more, told_sink};

use crate::{Failed, Sink};
use lw_words::NoMemory;
use std::alloc::Global;
use std::marker::Model;

/// A stream in memory with room for this many bytes, of which it takes at most a piece at a time.
/// Contracts see the bytes that it took, the room that is left, the piece, the plan of the calls that are to fail with the
/// number of the next one, and the count of faults.
#[derive(Drop)]
pub struct MemorySink {
    taken: Vec<u8>,
    left: usize,
    piece: usize,
    plan: Vec<u64>,
    made: u64,
    faults: u64,
}

impl Model for MemorySink {
    ghost use Rattle.std.specs.Prelude.{◌≤◌, ◌-◌, vec_capacity, vec_len};
    ghost use Rattle.lw_outside.specs.Memory.{MemorySinkState};

    ghost Value = { MemorySinkState };

    ghost view = { λ s. record { taken = s.taken.items; room = s.left; piece = s.piece; plan = s.plan.items; made = s.made; faults = s.faults } };

    ghost invariant = { λ s. (1 ≤ s.piece) × (s.left ≤ vec_capacity s.taken - vec_len s.taken) };
}

impl MemorySink {
    /// Room for `room` bytes, `piece` at most a call. The calls whose numbers from 0 the plan has are to fail.
    pub fn new(
        alloc: Global,
        room: usize,
        piece: usize,
        plan: Vec<u64>,
    ) -> Result<MemorySink, NoMemory>
        requires { 1 ≤ piece }
        ensures { IfOk result (λ s. s ≡ record {
          taken = [];
          room = room;
          piece = piece;
          plan =
              plan.items;
          made = 0;
          faults = 0;
        }) }
    {
        Ok(MemorySink {
            taken: Vec::with_capacity(alloc, room)?,
            left: room,
            piece,
            plan,
            made: 0,
            faults: 0,
        })
    }

    /// The bytes that were taken.
    pub fn taken(&self) -> &[u8]
        ensures { result.now ≡ self.now.taken }
    {
        self.taken.as_slice()
    }
}

impl Sink for MemorySink {
    ghost use Rattle.lw_outside.specs.Memory.{told_sink};

    ghost state = { told_sink };

    fn put(&mut self, bytes: &[u8]) -> Result<usize, Failed>
        requires { 0 < length bytes.now }
        ensures every { SinkPut bytes.now (told_sink self.old) (told_sink self.new) result }

        // By the plan, the piece and the room, and nothing else.
        ensures refused { OnErr result ((is_planned self.old.plan self.old.made ≡ true) ⊎
            (self.old.room ≡ 0)) }
        ensures unplanned { OnOk result (is_planned self.old.plan self.old.made ≡ false) }
        ensures whole { IfOk result (λ n. n ≡ min (min (length bytes.now) self.old.piece)
            self.old.room) }
        ensures room { IfOk result (λ n. self.new.room ≡ self.old.room - n) }
        ensures kept { OnErr result (self.new.room ≡ self.old.room) }
        ensures counted { OnErr result (self.new.faults ≡ one_more self.old.faults) }
        ensures made { self.new.made ≡ one_more self.old.made }
        ensures same { (self.new.plan ≡ self.old.plan) × (self.new.piece ≡ self.old.piece) }
    {
        let planned = self.plan.contains(&self.made);
        self.made = self.made.saturating_add(1);
        if planned || self.left == 0 {
            self.faults = self.faults.saturating_add(1);
            return Err(Failed);
        }
        let count = bytes.len().min(self.piece).min(self.left);
        self.left -= count;
        if self.taken.extend_from_slice(&bytes[..count]).is_err() {
            unreachable!();
        }
        Ok(count)
    }
}

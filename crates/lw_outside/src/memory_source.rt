//! A stream in memory that gives bytes.
ghost use Rattle.std.specs.Prelude.{◌≡◌, ◌≢◌, ◌<◌, ◌≤◌, ◌+◌, ◌-◌, ◌++◌, length, take, drop, true, false, min, Some, IfOk, OnOk, OnErr};
ghost use Rattle.lw_words.specs.Cause.{CountedFault};
ghost use Rattle.lw_outside.specs.Streams.{Gave, IsSpent, SourceRead};
ghost use Rattle.lw_outside.specs.Memory.{is_planned, one_more, told_source};

use crate::{Failed, Source};
use lw_words::NoMemory;
use std::marker::Model;

/// A stream in memory of these bytes, of which it gives at most a piece at a time.
/// Contracts see the bytes that are left, the piece, the plan of the calls that are to fail with the number of the next
/// one, and the counts of faults and of ends.
#[derive(Drop)]
pub struct MemorySource {
    bytes: Vec<u8>,
    given: usize,
    piece: usize,
    plan: Vec<u64>,
    made: u64,
    faults: u64,
    ends: u64,
}

impl Model for MemorySource {
    ghost use Rattle.std.specs.Prelude.{◌≤◌, drop, length};
    ghost use Rattle.lw_outside.specs.Memory.{MemorySourceState};

    ghost Value = { MemorySourceState };

    ghost view = { λ s. record { left = drop s.given s.bytes.items; piece = s.piece; plan = s.plan.items; made = s.made; faults = s.faults; ends = s.ends } };

    ghost invariant = { λ s. (1 ≤ s.piece) × (s.given ≤ length s.bytes.items) };
}

#[tactic(auto, using(crate::proofs::StreamLemmas::gave_front))]
/// Copies bytes from a place on to the start of a buffer, at most a piece, and says how many.
fn give(bytes: &[u8], given: usize, piece: usize, buffer: &mut [u8]) -> usize
    requires { given ≤ length bytes.now }
    ensures count { result ≡ min (min (length buffer.old) piece) (length bytes.now - given) }
    ensures gave { drop given bytes.now ≡ take result buffer.new ++
        drop (given + result) bytes.now }
{
    let count = buffer.len().min(piece).min(bytes.len() - given);
    buffer[..count].copy_from_slice(&bytes[given..given + count]);
    count
}

impl MemorySource {
    /// These bytes, `piece` at most a call. The calls whose numbers from 0 the plan has are to fail.
    pub fn new(bytes: Vec<u8>, piece: usize, plan: Vec<u64>) -> Result<MemorySource, NoMemory>
        requires { 1 ≤ piece }
        ensures { IfOk result (λ s. s ≡ record {
          left = bytes.items;
          piece = piece;
          plan =
              plan.items;
          made = 0;
          faults = 0;
          ends = 0;
        }) }
    {
        Ok(MemorySource {
            bytes,
            given: 0,
            piece,
            plan,
            made: 0,
            faults: 0,
            ends: 0,
        })
    }
}

impl Source for MemorySource {
    ghost use Rattle.lw_outside.specs.Memory.{told_source};

    ghost state = { told_source };

    fn read(&mut self, buffer: &mut [u8]) -> Result<usize, Failed>
        requires { 0 < length buffer.old }
        ensures every { SourceRead buffer.new (told_source self.old) (told_source self.new)
            result }

        // By the plan and the piece, and nothing else.
        ensures planned { OnErr result (is_planned self.old.plan self.old.made ≡ true) }
        ensures unplanned { OnOk result (is_planned self.old.plan self.old.made ≡ false) }
        ensures whole { IfOk result (λ n. n ≡ min (min (length buffer.old) self.old.piece)
            (length self.old.left)) }
        ensures counted { OnErr result (self.new.faults ≡ one_more self.old.faults) }
        ensures ended { IfOk result (λ n. n ≡ 0 → self.new.ends ≡ one_more self.old.ends) }
        ensures made { self.new.made ≡ one_more self.old.made }
        ensures same { (self.new.plan ≡ self.old.plan) × (self.new.piece ≡ self.old.piece) }
    {
        let planned = self.plan.contains(&self.made);
        self.made = self.made.saturating_add(1);
        if planned {
            self.faults = self.faults.saturating_add(1);
            return Err(Failed);
        }
        let count = give(&self.bytes, self.given, self.piece, buffer);
        self.given += count;
        if count == 0 {
            self.ends = self.ends.saturating_add(1);
        }
        Ok(count)
    }
}

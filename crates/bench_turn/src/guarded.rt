//! A tally under a lock, which one actor may add to so many times.
ghost use Rattle.std.specs.Prelude.{◌≡◌, ◌-◌, ◌<◌, ◌≤◌, [], IfNone, IfSome};

use crate::tally::Tally;
use lw_turn::Core;
use std::marker::Model;

#[derive(Drop)]
pub struct Guarded {
    tally: Tally,
    left: u32,
}

impl Model for Guarded {
    ghost use Rattle.std.specs.Prelude.{◌≡◌, ℕ, ◌+◌, ◌<◌, ◌≤◌, length};
    ghost use Rattle.lw_turn.specs.History.{entries_of};

    ghost Value = { ℕ };

    ghost view = { λ g. g.left };

    ghost invariant = { λ g. (0 < g.tally.0.actors) × (g.left + length (entries_of 0 g.tally.1) ≤ g.tally.0.each) };
}

impl Guarded {
    pub fn new(tally: Tally, times: u32) -> Guarded
        requires fresh { (tally.1 ≡ []) × (0 < tally.0.actors) }
        requires times { times ≤ tally.0.each }
    {
        Guarded { tally, left: times }
    }

    /// Adds 1, if it may be added to.
    pub fn add(&mut self) -> Option<u64>
        ensures none { IfNone result (self.old ≡ 0) }
        ensures some { IfSome result (λ _. 0 < self.old) }
        ensures left { self.new ≡ self.old - 1 }
    {
        if self.left == 0 {
            return None;
        }
        self.left -= 1;
        Some(self.tally.on(0, 1))
    }

    pub fn count(&self) -> usize {
        self.tally.count()
    }
}

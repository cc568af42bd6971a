//! A core for tests: actors add to one sum, and each is answered the sum before.
ghost use Rattle.std.specs.Prelude.{◌≡◌, ◌+◌, ◌*◌, ◌^◌, ◌<◌, ◌≤◌, [], ◌∷◌, ◌++◌, IfOk};

use crate::shared::{Core, Entry};
use lw_words::NoMemory;
use std::alloc::Global;
use std::marker::Model;

/// How many actors there are, and how often each may add.
#[derive(Clone, Copy)]
pub struct Limits {
    pub actors: u32,
    pub each: u32,
}

/// The sum, and the history of all that was added.
#[derive(Drop)]
pub struct Tally {
    limits: Limits,
    total: u64,
    history: Vec<Entry<u32, u64>>,
}

impl Model for Tally {
    ghost use Rattle.std.specs.Prelude.{◌≡◌, ℕ, ◌*◌, ◌≤◌, List, vec_capacity};
    ghost use Rattle.lw_turn.specs.declared.shared.Entry.{Entry};
    ghost use Rattle.lw_turn.specs.Tally.{IsTally, sum_of};
    ghost use Rattle.lw_turn.specs.declared.tests.tally.Limits.{Limits};

    ghost Value = { Limits × List (Entry ℕ ℕ) };

    ghost view = { λ t. (t.limits, t.history.items) };

    ghost invariant = { λ t. IsTally t.limits.actors t.limits.each t.history.items × (t.total ≡ sum_of t.history.items) × (t.limits.actors * t.limits.each ≤ vec_capacity t.history) };
}

impl Tally {
    pub fn new(alloc: Global, actors: u32, each: u32) -> Result<Tally, NoMemory>
        requires { actors * each < 2 ^ 32 }
        ensures { IfOk result (λ t. t ≡ (record { actors = actors; each = each }, [])) }
    {
        Ok(Tally {
            limits: Limits { actors, each },
            total: 0,
            history: Vec::with_capacity(alloc, actors as usize * each as usize)?,
        })
    }

    pub fn total(&self) -> u64 {
        self.total
    }

    pub fn count(&self) -> usize {
        self.history.len()
    }
}

impl Core for Tally {
    type Opening = Limits;

    type Ask = u32;

    type Reply = u64;

    ghost use Rattle.std.specs.Prelude.{◌*◌};
    ghost use Rattle.lw_turn.specs.Tally.{IsTally, MayAdd, tally_bounded};

    ghost opening = { λ t. t.0 };

    ghost entries = { λ t. t.1 };

    ghost some_opening = { record { actors = 0; each = 0 } };

    ghost actor_count = { λ o. o.actors };

    ghost legal = { λ o es. IsTally o.actors o.each es };

    ghost may = { λ o mine ask. MayAdd o.each mine ask };

    ghost most = { λ o. o.actors * o.each };

    ghost bounded = { λ o es t. tally_bounded o.actors o.each es t };

    fn actors(&self) -> u32 {
        self.limits.actors
    }

    fn on(&mut self, actor: u32, ask: u32) -> u64 {
        let reply = self.total;
        self.total += u64::from(ask);
        self.history.push_reserved(Entry { actor, ask, reply });
        reply
    }
}

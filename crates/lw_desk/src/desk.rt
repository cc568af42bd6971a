//! The desk.
ghost use Rattle.std.specs.Prelude.{◌≡◌, ℕ, ◌^◌, ◌<◌, ◌≤◌, List, [], length, IfOk, IfErr};
ghost use Rattle.lw_desk.specs.Desk.{Finishes, HasLeft};
ghost use Rattle.lw_desk.specs.History.{Replays, opened};
ghost use Rattle.lw_desk.specs.Step.{DeskState};

use crate::asked::Asked;
use crate::board::Board;
use crate::{Ask, Opening, Reply};
use http_server::Log;
use lw_cache::{AskStop, Cache};
use lw_names::OutNames;
use lw_turn::Core;
use lw_words::{NoMemory, Word};
use std::alloc::Global;
use std::marker::Model;
use std::snapshot::Snapshot;

/// A batch of words that several actors take, ask and answer, one turn after another. The answers go into a cache, and the
/// names of their outputs into one shared list.
/// Contracts see what it began with, and the entries since (`DeskHistory`).
#[derive(Drop)]
pub struct Desk {
    board: Board,
    actors: u32,
    cache_then: Snapshot<Cache>,
    names_then: Snapshot<OutNames>,
    history: Log<Asked, Reply>,
}

impl Model for Desk {
    ghost use Rattle.lw_desk.specs.Desk.{DeskHistory};
    ghost use Rattle.lw_desk.specs.bodies.DeskBody.{opening_of, entries_in, IsDesk};

    ghost Value = { DeskHistory };

    ghost view = { λ d. record { opening = opening_of d.cache_then.value.kept d.names_then.value d.board.batch d.actors; entries = entries_in d.history.items } };

    ghost invariant = { λ d. IsDesk (opening_of d.cache_then.value.kept d.names_then.value d.board.batch d.actors) (entries_in d.history.items) d.board };
}

impl Desk {
    /// A desk of a batch. Takes all memory that the batch needs; no later call takes any.
    pub fn new(
        alloc: Global,
        cache: Cache,
        names: OutNames,
        batch: &[Word],
        actors: u32,
    ) -> Result<Desk, (Cache, OutNames, NoMemory)>
        requires actors { (1 ≤ actors) × (actors ≤ 16) }
        requires few { length batch.now < 2 ^ 32 }
        requires unclaimed { cache.claims ≡ [] }
        ensures opening { IfOk result (λ d. d.opening ≡ record {
          kept = cache.kept;
          naming = names;
          batch = batch.now;
          actors = actors;
        }) }
        ensures entries { IfOk result (λ d. d.entries ≡ []) }
        ensures back { IfErr result (λ e. (e.0.kept ≡ cache.kept) × (e.0.claims ≡ []) ×
            (e.1 ≡ names)) }
    {
        // for the proof alone: where names are free there are sixteen lists
        let _ = names.is_free();
        let cache_then = Snapshot::of(&cache);
        let names_then = Snapshot::of(&names);
        let board = Board::new(alloc, cache, names, batch)?;
        Ok(Desk {
            board,
            actors,
            cache_then,
            names_then,
            history: Log::new(),
        })
    }

    /// How many words are left to take: before the first ask, how many have to be asked.
    pub fn left(&self) -> u32
        ensures left { HasLeft self.now result }
        ensures few { result ≤ length self.now.opening.batch }
    {
        self.board.left()
    }

    /// The cache, the names, and why the desk was stopped, or None where it wasn't. Takes no memory.
    pub fn finish(self) -> (Cache, OutNames, Option<AskStop>)
        requires idle { (t : DeskState) →
            Replays self.opening (opened self.opening) self.entries t →
            t.claims ≡ [] }
        ensures { Finishes self result }
    {
        let Desk {
            board,
            actors: _,
            cache_then: _,
            names_then: _,
            history: _,
        } = self;
        board.into_parts()
    }
}

impl Core for Desk {
    type Opening = Opening;

    type Ask = Ask;

    type Reply = Reply;

    ghost use Rattle.std.specs.Prelude.{None, []};
    ghost use Rattle.lw_desk.specs.History.{Legal, May, most_entries};
    ghost use Rattle.lw_desk.specs.lemmas.Bounds.{bounded as few_entries};

    ghost opening = { λ d. d.opening };

    ghost entries = { λ d. d.entries };

    ghost some_opening = { record { kept = []; naming = record { names = []; brought = None }; batch = []; actors = 0 } };

    ghost actor_count = { λ o. o.actors };

    ghost legal = { Legal };

    ghost may = { May };

    ghost most = { most_entries };

    ghost bounded = { few_entries };

    fn actors(&self) -> u32 {
        self.actors
    }

    fn on(&mut self, actor: u32, ask: Ask) -> Reply {
        let asked = Asked {
            actor,
            ask: Snapshot::of(&ask),
        };
        let reply = self.board.turn(actor, ask);
        self.history = self.history.and(&asked, &reply);
        reply
    }
}

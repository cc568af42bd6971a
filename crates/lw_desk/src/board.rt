//! The board: what a desk keeps between two turns.
ghost use Rattle.std.specs.Prelude.{◌≡◌, ◌≢◌, ◌↔◌, ℕ, ◌+◌, ◌^◌, ◌<◌, ◌≤◌, List, [], ◌∷◌, ◌++◌, length, map, drop, slice_index, Contains, IfOk, IfErr, IfSome, IfNone, Some, None, is_some, IsTrue};
ghost use Rattle.std.specs.List.{All};
ghost use Rattle.lw_names.specs.Naming.{own_names, MayBring};
ghost use Rattle.lw_desk.specs.Step.{DeskState, word_at_place, IsFirstFree, NothingToTake, CountsLeft, ActorGives, GivesAll, ActorTakesAll, after_take, after_fail, first_stop, stop_of};
ghost use Rattle.lw_desk.specs.History.{DeskOpening, Makes, MayMake, MayGiveAll, seat_in, failed_places};
ghost use Rattle.lw_desk.specs.bodies.DeskBody.{entry};
ghost use Rattle.lw_desk.specs.bodies.Board.{BoardState, Agrees, AreHeld, numbers_of, stop_after, without_all, without_number, without_numbers};

use crate::gathering::{Needs, needs_of};
use crate::{Ask, Failed, Give, Places, Reply};
use http_server::Log;
use lw_cache::{AskStop, Cache, Clash};
use lw_names::OutNames;
use lw_words::{NoMemory, RunStop, Word};
use std::alloc::Global;
use std::marker::Model;
use std::mem;

/// The cache and the names; a copy of each word of the batch that was not known at the opening, until its answer is given;
/// the places of those that had to be asked, first ones first, of which those from `next` on wait; and the first stop.
#[derive(Drop)]
pub(crate) struct Board {
    cache: Cache,
    names: OutNames,
    words: Vec<Word>,
    order: Vec<u32>,
    next: usize,
    stop: Option<AskStop>,
    batch: Log<Word, ()>,
    alloc: Global,
}

impl Model for Board {
    ghost use Rattle.std.specs.Prelude.{◌≤◌, length, map, drop};
    ghost use Rattle.lw_desk.specs.bodies.Board.{BoardState, numbers_of, IsBoard};

    ghost Value = { BoardState };

    ghost view = { λ b. record { naming = b.names; kept = b.cache.kept; claimed = numbers_of b.cache.claims; stop = b.stop; batch = map (λ p. p.0) b.batch.items; waiting = drop b.next b.order.items } };

    ghost invariant = { λ b. (b.next ≤ length b.order.items) × IsBoard (map (λ p. p.0) b.batch.items) b.cache.kept b.cache.claims b.stop b.words.items (drop b.next b.order.items) b.cache.words b.cache.letters };
}

/// The stop of a clash, where there is one.
fn stop_by(stop: Option<AskStop>, filled: Result<(), Clash>) -> Option<AskStop>
    ensures { result ≡ stop_after stop filled }
{
    match (stop, filled) {
        (Some(first), _) => Some(first),
        (None, Err(clash)) => Some(AskStop::Clash(clash)),
        (None, Ok(())) => None,
    }
}

/// The first stop, where one more comes by an actor.
fn stop_first(stop: Option<AskStop>, actor: u32, last: RunStop) -> Option<AskStop>
    ensures { result ≡ first_stop stop (stop_of actor last) }
{
    match stop {
        Some(first) => Some(first),
        None => Some(match last {
            RunStop::Sul(stop) => AskStop::Sul {
                instance: actor,
                stop,
            },
            RunStop::NoMemory => AskStop::NoMemory,
        }),
    }
}

/// Whether nothing was left for one who wanted places.
fn is_done(wanted: u32, places: &Places) -> bool
    ensures { IsTrue result ↔ ((0 < wanted) × (places.now ≡ [])) }
{
    wanted > 0 && places.is_empty()
}

/// Gives up claims one after the other.
fn release_all(cache: &mut Cache, places: &[u32])
    requires held { AreHeld (numbers_of cache.old.claims) places.now }
    ensures kept { cache.new.kept ≡ cache.old.kept }
    ensures claims { cache.new.claims ≡ without_all places.now cache.old.claims }
    ensures room { (cache.new.words ≡ cache.old.words) ×
        (cache.new.letters ≡ cache.old.letters) }
{
    for place in places {
        cache.release(*place);
    }
}

impl Board {
    /// The board of a batch of which nothing is claimed. Takes all memory that the batch needs.
    pub(crate) fn new(
        alloc: Global,
        cache: Cache,
        names: OutNames,
        batch: &[Word],
    ) -> Result<Board, (Cache, OutNames, NoMemory)>
        requires few { length batch.now < 2 ^ 32 }
        requires unclaimed { cache.claims ≡ [] }
        ensures kept { IfOk result (λ b. b.kept ≡ cache.kept) }
        ensures naming { IfOk result (λ b. b.naming ≡ names) }
        ensures batch { IfOk result (λ b. b.batch ≡ batch.now) }
        ensures claimed { IfOk result (λ b. b.claimed ≡ []) }
        ensures stop { IfOk result (λ b. b.stop ≡ None) }
        ensures back { IfErr result (λ e. (e.0.kept ≡ cache.kept) × (e.0.claims ≡ []) ×
            (e.1 ≡ names)) }
    {
        let Ok(needs) = needs_of(alloc, &cache, batch) else {
            return Err((cache, names, NoMemory));
        };
        let mut cache = cache;
        if cache.reserve(needs.places.len(), needs.letters).is_err() {
            return Err((cache, names, NoMemory));
        }
        let Needs {
            words,
            places,
            letters: _,
            batch,
        } = needs;
        Ok(Board {
            cache,
            names,
            words,
            order: places,
            next: 0,
            stop: None,
            batch,
            alloc,
        })
    }

    /// An actor gives the answer to the word of a place. Takes no memory.
    pub(crate) fn give(&mut self, actor: u32, answer: Give)
        requires actor { actor < 16 }
        requires claimed { Contains self.old.claimed answer.place }
        requires outs { length answer.outs ≡ length (word_at_place self.old.batch answer.place) }
        requires names { MayBring (is_some self.old.naming.brought)
            (own_names self.old.naming actor) answer.names answer.outs }
        ensures gives { (s : DeskState) → Agrees self.old s → (t : DeskState) ×
            ActorGives self.old.batch actor answer s t × Agrees self.new t }
        ensures claimed { self.new.claimed ≡ without_number answer.place self.old.claimed }
        ensures own { own_names self.new.naming actor ≡
            own_names self.old.naming actor ++ answer.names }
        ensures kind { is_some self.new.naming.brought ≡ is_some self.old.naming.brought }
        ensures batch { self.new.batch ≡ self.old.batch }
    {
        let Give {
            place,
            outs,
            names,
            run,
        } = answer;
        self.names.bring(actor, &names);
        let outs = self.names.renumber(actor, outs);
        let word = mem::replace(&mut self.words[place as usize], Word::new(self.alloc));
        let filled = self.cache.fill(place, word, outs, actor, run);
        let stop = mem::replace(&mut self.stop, None);
        self.stop = stop_by(stop, filled);
    }

    /// An actor gives answers one after the other. Takes no memory.
    pub(crate) fn give_all(&mut self, actor: u32, answers: Vec<Give>)
        requires actor { actor < 16 }
        requires held { AreHeld self.old.claimed (map (λ g. g.place) answers.items) }
        requires may { MayGiveAll self.old.batch (is_some self.old.naming.brought)
            (own_names self.old.naming actor) answers.items }
        ensures gives { (s : DeskState) → Agrees self.old s → (t : DeskState) ×
            GivesAll self.old.batch actor answers.items s t × Agrees self.new t }
        ensures claimed { self.new.claimed ≡
            without_numbers (map (λ g. g.place) answers.items) self.old.claimed }
        ensures kind { is_some self.new.naming.brought ≡ is_some self.old.naming.brought }
        ensures batch { self.new.batch ≡ self.old.batch }
    {
        for answer in answers {
            self.give(actor, answer);
        }
    }

    /// An actor gives up the places whose words it could not ask. Takes no memory.
    pub(crate) fn fail(&mut self, actor: u32, failed: Failed)
        requires held { AreHeld self.old.claimed failed.places }
        ensures fails { (s : DeskState) → Agrees self.old s →
            Agrees self.new (after_fail actor (Some failed) s) }
        ensures naming { self.new.naming ≡ self.old.naming }
        ensures batch { self.new.batch ≡ self.old.batch }
    {
        let Failed { places, stop: last } = failed;
        let stop = mem::replace(&mut self.stop, None);
        self.stop = stop_first(stop, actor, last);
        release_all(&mut self.cache, places.as_slice());
    }

    /// The same, where anything failed.
    pub(crate) fn fail_some(&mut self, actor: u32, failed: Option<Failed>)
        requires held { AreHeld self.old.claimed (failed_places failed) }
        ensures fails { (s : DeskState) → Agrees self.old s →
            Agrees self.new (after_fail actor failed s) }
        ensures naming { self.new.naming ≡ self.old.naming }
        ensures batch { self.new.batch ≡ self.old.batch }
    {
        match failed {
            Some(failed) => self.fail(actor, failed),
            None => {}
        }
    }

    /// Claims the first place that waits, where there is one: it is the first free one. Takes no memory.
    pub(crate) fn take_one(&mut self) -> Option<u32>
        requires live { self.old.stop ≡ None }
        ensures some { IfSome result (λ place. (actor : ℕ) (s : DeskState) → Agrees self.old s →
            IsFirstFree self.old.batch s place × Agrees self.new (after_take actor place s)) }
        ensures none { IfNone result ((s : DeskState) → Agrees self.old s →
            NothingToTake self.old.batch s × Agrees self.new s) }
        ensures stop { self.new.stop ≡ None }
        ensures naming { self.new.naming ≡ self.old.naming }
        ensures batch { self.new.batch ≡ self.old.batch }
    {
        if self.next == self.order.len() {
            return None;
        }
        let place = self.order[self.next];
        self.next += 1;
        self.cache.claim(&self.words[place as usize], place);
        Some(place)
    }

    /// Claims free places, first ones first, until there are this many or nothing is left to take. Takes no memory.
    pub(crate) fn take(&mut self, wanted: u32) -> Places
        requires few { wanted ≤ 16 }
        ensures takes { (actor : ℕ) (s : DeskState) → Agrees self.old s → (t : DeskState) ×
            ActorTakesAll self.old.batch actor wanted result s t × Agrees self.new t }
        ensures naming { self.new.naming ≡ self.old.naming }
        ensures batch { self.new.batch ≡ self.old.batch }
    {
        let mut places = Places::new();
        if self.stop.is_some() {
            return places;
        }
        for _ in 0..wanted {
            let Some(place) = self.take_one() else {
                return places;
            };
            places.push(place);
        }
        places
    }

    /// How many words are left to take, where nothing stopped the desk.
    pub(crate) fn left(&self) -> u32
        ensures counts { (s : DeskState) → Agrees self.now s → CountsLeft self.now.batch s result }
        ensures none { result ≡ 0 → (s : DeskState) → Agrees self.now s →
            NothingToTake self.now.batch s }
        ensures few { result ≤ length self.now.batch }
    {
        (self.order.len() - self.next) as u32
    }

    pub(crate) fn is_stopped(&self) -> bool
        ensures { result ≡ is_some self.now.stop }
    {
        self.stop.is_some()
    }

    /// An actor gives, fails and takes in one turn. Takes no memory.
    pub(crate) fn turn(&mut self, actor: u32, ask: Ask) -> Reply
        requires actor { actor < 16 }
        requires may { (s : DeskState) × Agrees self.old s × MayMake self.old.batch
            (is_some self.old.naming.brought) (seat_in s actor) ask }
        ensures makes { (o : DeskOpening) (s : DeskState) → o.batch ≡ self.old.batch →
            actor < o.actors →
            MayMake o.batch (is_some o.naming.brought) (seat_in s actor) ask →
            Agrees self.old s → (t : DeskState) × Makes o s (entry actor ask result) t ×
            Agrees self.new t }
        ensures kind { is_some self.new.naming.brought ≡ is_some self.old.naming.brought }
        ensures batch { self.new.batch ≡ self.old.batch }
    {
        // for the proof alone: a field of it tells the invariant
        let _ = &self.next;
        let Ask {
            gives,
            failed,
            wanted,
        } = ask;
        self.give_all(actor, gives);
        self.fail_some(actor, failed);
        let places = self.take(wanted);
        let done = is_done(wanted, &places);
        Reply {
            places,
            done,
            stopped: self.is_stopped(),
            left: self.left(),
        }
    }

    /// The cache, the names and the first stop. Takes no memory.
    pub(crate) fn into_parts(self) -> (Cache, OutNames, Option<AskStop>)
        ensures kept { result.0.kept ≡ self.kept }
        ensures claims { self.claimed ≡ [] → result.0.claims ≡ [] }
        ensures naming { result.1 ≡ self.naming }
        ensures stop { result.2 ≡ self.stop }
    {
        let Board {
            cache,
            names,
            words: _,
            order: _,
            next: _,
            stop,
            batch: _,
            alloc: _,
        } = self;
        (cache, names, stop)
    }
}

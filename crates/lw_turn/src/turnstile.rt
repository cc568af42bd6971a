//! The turnstile and its calls.
ghost use Rattle.std.specs.Prelude.{◌≡◌, ℕ, ◌+◌, ◌<◌, ◌≤◌, ◌≢◌, [], ◌∷◌, ◌++◌, IfOk, IfErr, IsSome};
ghost use Rattle.std.specs.Bool.{OnTrue, OnFalse};
ghost use mathlib.Core.List.{IsPrefix};
ghost use Rattle.lw_turn.specs.History.{entries_of};
ghost use Rattle.lw_turn.specs.Views.{first_view, next_view, joined_view, ended_of, IsTurned, IsWhole};
ghost use Rattle.lw_turn.specs.Steps.{IsServed, carried_history, grown};
ghost use Rattle.lw_turn.specs.Turns.{Carries, WasAsked};

use crate::pass::{Pass, PassParts};
use crate::rule::{Draws, Ends, Joins, Law, Learns, Looks, Splits};
use crate::shared::Core;
use crate::view::{Doing, Stage};
use atomic_table::{Refused, Seat, Table};
use lw_words::NoMemory;
use std::alloc::{AllocFailed, Global};
use std::marker::Model;
use std::snapshot::Snapshot;
use std::sync::Wait;
use std::thread;

// The word that has the next ticket.
const NEXT: usize = 0;

// The word that has the ticket that is served.
const NOW: usize = 1;

type Place<C> = Seat<Option<C>, Doing<<C as Core>::Opening, <C as Core>::Ask, <C as Core>::Reply>>;

/// A core that actors ask one at a time, in the order in which they drew their tickets.
#[derive(Drop)]
pub struct Turnstile<C: Core> {
    table: Table<Option<C>, Doing<C::Opening, C::Ask, C::Reply>, Snapshot<C>, Law<C>, Global>,
}

impl<C: Core> Model for Turnstile<C> {
    ghost use Rattle.std.specs.Prelude.{◌≡◌};
    ghost use Rattle.atomic_table.specs.Seated.{TableId};

    ghost Value = { TableId };

    ghost view = { λ t. t.table.shared.table_id };

    ghost invariant = { λ t. (t.table.shared.table_id.words ≡ 2) × (t.table.shared.table_id.slots ≡ 1) };
}

impl<C: Core> Turnstile<C> {
    /// A turnstile, and its pass 0.
    pub fn new(alloc: Global, core: C) -> Result<(Turnstile<C>, Pass<C>), (C, NoMemory)>
        requires actors { 0 < C.actor_count (C.opening core) }
        requires entries { C.entries core ≡ [] }
        ensures made { IfOk result (λ t. (t.1.turnstile ≡ t.0) ×
            (t.1.knows ≡ first_view (C.opening core))) }
        ensures back { IfErr result (λ e. e.0 ≡ core) }
    {
        // The count is a `u32`, and the empty list is legal.
        let _ = core.actors();
        let origin = Snapshot::of(&core);
        let mut slots = Vec::new(alloc);
        if let Err(AllocFailed { value }) = slots.push(Some(core)) {
            let Some(core) = value else { unreachable!() };
            slots.destroy_empty();
            return Err((core, NoMemory));
        }
        match Table::new(alloc, &[0, 0], slots, &origin) {
            Ok((table, seat)) => {
                let pass = PassParts {
                    seat,
                    number: 0,
                    made: 1,
                };
                Ok((Turnstile { table }, pass))
            }
            Err(Refused { mut slots }) => {
                let Some(Some(core)) = slots.pop() else {
                    unreachable!()
                };
                slots.destroy_empty();
                Err((core, NoMemory))
            }
        }
    }

    // Draws the next ticket.
    fn draw(&self, seat: &mut Place<C>) -> u64
        requires table { seat.old.table_id ≡ self.now }
        requires idle { (seat.old.me.0.stage ≡ Stage.Idle) × (seat.old.me.1 ≡ []) }
        ensures table { seat.new.table_id ≡ seat.old.table_id }
        ensures waits { seat.new.me ≡ (
          record {
            stage = Stage.Waiting result;
            view =
                seat.old.me.0.view;
          },
          [],
        ) }
    {
        self.table.shared.fetch_add::<Draws>(seat, NEXT, 1)
    }

    // Looks whether the ticket is served. Where it is, the core comes out of the slot.
    fn look(&self, seat: &mut Place<C>, ticket: u64) -> bool
        requires table { seat.old.table_id ≡ self.now }
        requires waits { seat.old.me ≡ (
          record {
            stage = Stage.Waiting ticket;
            view =
                seat.old.me.0.view;
          },
          [],
        ) }
        ensures table { seat.new.table_id ≡ seat.old.table_id }
        ensures served { OnTrue result ((core : C) ×
            IsServed C.actor_count C.opening C.entries ticket seat.old.me.0.view core seat.new.me) }
        ensures waits { OnFalse result (seat.new.me ≡ seat.old.me) }
    {
        self.table.shared.load::<Looks<C>>(seat, NOW) == ticket
    }

    // Looks until the ticket is served, and yields between two looks.
    fn wait<R: Wait>(&self, rt: &R, seat: &mut Place<C>, ticket: u64)
        requires table { seat.old.table_id ≡ self.now }
        requires waits { seat.old.me ≡ (
          record {
            stage = Stage.Waiting ticket;
            view =
                seat.old.me.0.view;
          },
          [],
        ) }
        ensures table { seat.new.table_id ≡ seat.old.table_id }
        ensures served { (core : C) × IsServed C.actor_count C.opening C.entries ticket
            seat.old.me.0.view core seat.new.me }
    {
        for _ in rt.forever() {
            if self.look(seat, ticket) {
                return;
            }
            thread::yield_now();
        }
        unreachable!()
    }

    // Asks the core that is out with the caller.
    fn apply(&self, seat: &mut Place<C>, number: u32, ask: C::Ask) -> C::Reply
        requires table { seat.old.table_id ≡ self.now }
        requires carries { (core : C) × Carries C.opening C.entries core seat.old.me.0.view.seen
            seat.old.me }
        requires actor { number < C.actor_count seat.old.me.0.view.opening }
        requires may { C.may seat.old.me.0.view.opening (entries_of number seat.old.me.0.view.seen)
            ask }
        ensures table { seat.new.table_id ≡ seat.old.table_id }
        ensures place { seat.new.me.0 ≡ seat.old.me.0 }
        ensures asked { (core : C) × WasAsked C.opening C.entries C.legal core seat.old.me.0.view
            number ask result seat.new.me }
    {
        let found = self.table.shared.exchange(seat, 0, None);
        let Some(mut core) = found else {
            unreachable!()
        };
        let reply = core.on(number, ask);
        let empty = self.table.shared.exchange(seat, 0, Some(core));
        let None = empty else { unreachable!() };
        reply
    }

    // Gives the core back, and serves the next ticket.
    fn end(&self, seat: &mut Place<C>)
        requires table { seat.old.table_id ≡ self.now }
        requires turning { (t : ℕ) × (seat.old.me.0.stage ≡ Stage.Turning t) }
        requires asked { (core : C) × (ask : C.Ask) × (reply : C.Reply) ×
            WasAsked C.opening C.entries C.legal core seat.old.me.0.view seat.old.me.0.view.number
            ask reply seat.old.me }
        ensures table { seat.new.table_id ≡ seat.old.table_id }
        ensures place { seat.new.me ≡ (
          record {
            stage = Stage.Idle;
            view = grown seat.old.me.0.view
                (carried_history C.entries seat.old.me.1);
          },
          [],
        ) }
    {
        self.table.shared.fetch_add::<Ends<C>>(seat, NOW, 1);
    }

    /// Draws a ticket, waits until it is served, and asks the core.
    pub fn turn<R: Wait>(&self, rt: &R, pass: &mut Pass<C>, ask: C::Ask) -> C::Reply
        requires ours { pass.old.turnstile ≡ self.now }
        requires may { C.may pass.old.knows.opening pass.old.knows.mine ask }
        ensures ours { pass.new.turnstile ≡ pass.old.turnstile }
        ensures entry { IsTurned C.legal pass.old.knows ask result pass.new.knows }
    {
        let ticket = self.draw(&mut pass.seat);
        self.wait(rt, &mut pass.seat, ticket);
        let reply = self.apply(&mut pass.seat, pass.number, ask);
        self.end(&mut pass.seat);
        reply
    }

    /// The next pass, which has seen as much as pass 0.
    pub fn split(&self, first: &mut Pass<C>) -> Pass<C>
        requires ours { first.old.turnstile ≡ self.now }
        requires first { first.old.knows.number ≡ 0 }
        requires room { first.old.knows.made < C.actor_count first.old.knows.opening }
        ensures ours { (first.new.turnstile ≡ first.old.turnstile) ×
            (result.turnstile ≡ first.old.turnstile) }
        ensures first { first.new.knows ≡ record first.old.knows
            { made = first.old.knows.made + 1 } }
        ensures next { result.knows ≡ next_view first.old.knows }
    {
        let number = first.made;
        let seat = self.table.shared.split_seat::<Splits>(&mut first.seat);
        first.made = number + 1;
        PassParts {
            seat,
            number,
            made: 0,
        }
    }

    /// Pass 0 keeps what a pass that has ended knew, and has seen the longer of the two.
    pub fn join(&self, first: &mut Pass<C>, ended: Pass<C>)
        requires ours { (first.old.turnstile ≡ self.now) × (ended.turnstile ≡ self.now) }
        requires first { first.old.knows.number ≡ 0 }
        requires other { ended.knows.number ≢ 0 }
        ensures ours { first.new.turnstile ≡ first.old.turnstile }
        ensures joined { first.new.knows ≡ joined_view first.old.knows ended.knows }
        ensures seen { IsPrefix first.old.knows.seen first.new.knows.seen ×
            IsPrefix ended.knows.seen first.new.knows.seen }
    {
        let PassParts { seat, .. } = ended;
        self.table
            .shared
            .join_seat::<Joins<C>>(&mut first.seat, seat);
        self.table.shared.load::<Learns>(&mut first.seat, NEXT);
    }

    /// The core, once every other pass was joined.
    pub fn close(self, last: Pass<C>) -> C
        requires ours { last.turnstile ≡ self }
        requires first { last.knows.number ≡ 0 }
        requires joined { (n : ℕ) → 0 < n → n < last.knows.made →
            IsSome (ended_of n last.knows.ended) }
        ensures opening { C.opening result ≡ last.knows.opening }
        ensures entries { IsWhole C.legal last.knows (C.entries result) }
    {
        let Turnstile { table } = self;
        let PassParts { seat, .. } = last;
        let mut closed = table.close_with(seat);
        let slot = closed.take(0);
        closed.free();
        let Some(core) = slot else { unreachable!() };
        core
    }
}

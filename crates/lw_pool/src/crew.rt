//! How a worker asks the words of a batch, place by place, until nothing is left to take.
ghost use Rattle.std.specs.Prelude.{◌≡◌, ℕ, ◌*◌, ◌<◌, ◌≤◌, [], length, is_some, Bool};
ghost use Rattle.std.specs.List.{All};
ghost use Rattle.lw_words.specs.Word.{IsWord};
ghost use Rattle.lw_turn.specs.Views.{IsTurned};
ghost use Rattle.lw_names.specs.Naming.{own_names};
ghost use Rattle.lw_desk.specs.History.{Legal};
ghost use Rattle.lw_pool.specs.bodies.Engaged.{Working, IsReady};
ghost use Rattle.lw_pool.specs.Pool.{Same};

use crate::worker::Worker;
use lw_desk::{Ask, Desk, MOST_PLACES, Reply};
use lw_sul::Sul;
use lw_turn::{Pass, Turnstile};
use lw_words::Word;
use std::alloc::Global;
use std::sync::Wait;

/// A pass of the turnstile, and the reply that it was given last.
#[derive(Drop)]
pub(crate) struct Engaged {
    pub(crate) pass: Pass<Desk>,
    pub(crate) reply: Reply,
}

/// How many places a worker takes at once, where this many are left: few enough that all workers share the end of a
/// batch.
pub fn share(left: u32, crew: u32) -> u32
    ensures some { 0 < result }
    ensures few { result ≤ 16 }
{
    (left / crew.saturating_mul(2).max(1)).clamp(1, MOST_PLACES as u32)
}

/// Takes the first places of a pass.
pub(crate) fn engage<R: Wait>(
    rt: &R,
    alloc: Global,
    turnstile: &Turnstile<Desk>,
    pass: &mut Pass<Desk>,
    left: u32,
    crew: u32,
) -> Reply
    requires ours { pass.old.turnstile ≡ turnstile.now }
    requires fresh { pass.old.knows.mine ≡ [] }
    ensures ours { pass.new.turnstile ≡ turnstile.now }
    ensures begun { (start : _) → Working start start pass.new.knows result }
    ensures same { (pass.new.knows.opening ≡ pass.old.knows.opening) ×
        (pass.new.knows.number ≡ pass.old.knows.number) ×
        (pass.new.knows.made ≡ pass.old.knows.made) ×
        (pass.new.knows.ended ≡ pass.old.knows.ended) }
{
    let ask = Ask {
        gives: Vec::new(alloc),
        failed: None,
        wanted: share(left, crew),
    };
    turnstile.turn(rt, pass, ask)
}

impl<S: Sul> Worker<S> {
    /// Asks the words of its places, gives the answers and takes more, until it is told that nothing is left, or its system
    /// stops, or it has no memory.
    pub(crate) fn work<R: Wait>(
        &mut self,
        rt: &R,
        alloc: Global,
        turnstile: &Turnstile<Desk>,
        batch: &[Word],
        engaged: Engaged,
        crew: u32,
    ) -> Engaged
        requires ours { engaged.pass.turnstile ≡ turnstile.now }
        requires batch { engaged.pass.knows.opening.batch ≡ batch.now }
        requires begun { Working self.old.seen self.old.seen engaged.pass.knows engaged.reply }
        requires ready { IsReady (is_some engaged.pass.knows.opening.naming.brought)
            (own_names engaged.pass.knows.opening.naming engaged.pass.knows.number) self.old.seen }
        requires letters { All (IsWord self.old.seen.inputs) batch.now }
        ensures ours { result.pass.turnstile ≡ turnstile.now }
        ensures worked { Working self.old.seen self.new.seen result.pass.knows result.reply }
        ensures idle { result.reply.places ≡ [] }
        ensures session { Same self.old.seen self.new.seen }
        ensures same { (result.pass.knows.opening ≡ engaged.pass.knows.opening) ×
            (result.pass.knows.number ≡ engaged.pass.knows.number) ×
            (result.pass.knows.made ≡ engaged.pass.knows.made) ×
            (result.pass.knows.ended ≡ engaged.pass.knows.ended) }
    {
        let Engaged {
            mut pass,
            mut reply,
        } = engaged;
        for _ in rt.forever() {
            if reply.places.as_slice().is_empty() {
                return Engaged { pass, reply };
            }
            let ask = self.answer(alloc, batch, &reply.places, share(reply.left, crew));
            reply = turnstile.turn(rt, &mut pass, ask);
        }
        unreachable!()
    }
}

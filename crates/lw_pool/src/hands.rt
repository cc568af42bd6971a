//! The hands of a crew: sessions, each with its place in a batch.
ghost use Rattle.std.specs.Prelude.{IfOk, IfErr, map, ◌≡◌, ℕ, ◌+◌, ◌<◌, ◌≤◌, [], length, Some};
ghost use Rattle.std.specs.List.{All};
ghost use Rattle.lw_turn.specs.History.{entries_of};
ghost use Rattle.lw_turn.specs.Views.{first_view};
ghost use Rattle.lw_desk.specs.History.{Legal};
ghost use Rattle.lw_pool.specs.Opening.{member_of};
ghost use Rattle.lw_pool.specs.bodies.PoolBody.{HasRoom};
ghost use Rattle.lw_pool.specs.declared.crew.Engaged.{Engaged};
ghost use Rattle.lw_pool.specs.bodies.Engaged.{Working};
ghost use Rattle.lw_pool.specs.bodies.Crew.{CanRun, HasRun, AllRun, AllHired, OthersHold, OthersJoined, SameWorkers, AllReady, AllRead, AllWorkedOff};

use crate::crew::{Engaged, engage};
use crate::worker::Worker;
use lw_desk::{Desk, Reply};
use lw_sul::{Session, Sul};
use lw_turn::{Pass, Turnstile};
use lw_words::Word;
use std::alloc::Global;
use std::sync::Wait;
use std::thread;
use std::thread::Threads;

/// A worker, and its place in a batch, where one is under way.
#[derive(Drop)]
pub(crate) struct Hand<S: Sul> {
    pub(crate) worker: Worker<S>,
    pub(crate) engaged: Option<Engaged>,
}

impl<S: Sul> Hand<S> {
    /// Works until nothing of the batch is left.
    fn run<R: Wait>(
        &mut self,
        rt: &R,
        alloc: Global,
        turnstile: &Turnstile<Desk>,
        batch: &[Word],
        crew: u32,
    )
        requires can { CanRun (λ p. p.turnstile ≡ turnstile.now) batch.now self.old }
        ensures run { HasRun (λ p. p.turnstile ≡ turnstile.now) self.old self.new }
    {
        let Some(engaged) = self.engaged.take() else {
            unreachable!()
        };
        let done = self.worker.work(rt, alloc, turnstile, batch, engaged, crew);
        self.engaged = Some(done);
    }

    /// Hands its pass out.
    fn leave(&mut self) -> Pass<Desk>
        requires some { (e : Engaged) × (self.old.engaged ≡ Some e) }
        ensures pass { (e : Engaged) → self.old.engaged ≡ Some e → result ≡ e.pass }
        ensures worker { self.new.worker ≡ self.old.worker }
    {
        let Some(Engaged { pass, reply: _ }) = self.engaged.take() else {
            unreachable!()
        };
        pass
    }
}

/// Hands for these sessions, or the sessions, where there is no memory.
pub(crate) fn hands_of<S: Sul + Drop>(
    alloc: Global,
    sessions: Vec<Session<S>>,
) -> Result<Vec<Hand<S>>, Vec<Session<S>>>
    ensures hands { IfOk result (λ hs. map (λ h. h.worker) hs.items ≡ map (member_of S.state)
        sessions.items) }
    ensures back { IfErr result (λ back. back ≡ sessions) }
{
    let Ok(mut hands) = Vec::with_capacity(alloc, sessions.len()) else {
        return Err(sessions);
    };
    for session in sessions {
        let worker = Worker { session };
        hands.push_reserved(Hand {
            worker,
            engaged: None,
        });
    }
    Ok(hands)
}

/// The sessions of these hands, in a list that has room for them.
pub(crate) fn sessions_of<S: Sul + Drop>(
    hands: Vec<Hand<S>>,
    room: Vec<Session<S>>,
) -> Vec<Session<S>>
    requires { HasRoom room hands }
    ensures { map (member_of S.state) result.items ≡ map (λ h. h.worker) hands.items }
{
    let mut sessions = room;
    for hand in hands {
        sessions.push_reserved(hand.worker.session);
    }
    sessions
}

/// 1 for a hand that holds a place, and else 0.
fn holding(reply: &Reply) -> usize
    ensures { result ≤ 1 }
{
    if reply.places.as_slice().is_empty() {
        return 0;
    }
    1
}

/// Makes the next pass, and takes its first places.
fn engage_next<R: Wait>(
    rt: &R,
    alloc: Global,
    turnstile: &Turnstile<Desk>,
    first: &mut Pass<Desk>,
    left: u32,
    crew: u32,
) -> Engaged
    requires ours { first.old.turnstile ≡ turnstile.now }
    requires first { first.old.knows.number ≡ 0 }
    requires room { first.old.knows.made < first.old.knows.opening.actors }
    ensures ours { (first.new.turnstile ≡ turnstile.now) × (result.pass.turnstile ≡ turnstile.now) }
    ensures first { first.new.knows ≡ record first.old.knows
        { made = first.old.knows.made + 1 } }
    ensures next { (result.pass.knows.opening ≡ first.old.knows.opening) ×
        (result.pass.knows.number ≡ first.old.knows.made) }
    ensures begun { (start : _) → Working start start result.pass.knows result.reply }
{
    let mut pass = turnstile.split(first);
    let reply = engage(rt, alloc, turnstile, &mut pass, left, crew);
    Engaged { pass, reply }
}

/// Gives each hand the place of its number, and tells how many of them hold words to ask.
fn hire<S: Sul, R: Wait>(
    rt: &R,
    alloc: Global,
    turnstile: &Turnstile<Desk>,
    first: Pass<Desk>,
    left: u32,
    hands: &mut [Hand<S>],
) -> usize
    requires ours { first.turnstile ≡ turnstile.now }
    requires fresh { first.knows ≡ first_view first.knows.opening }
    requires crew { first.knows.opening.actors ≡ length hands.old }
    requires some { 0 < length hands.old }
    ensures hired { AllHired (λ p. p.turnstile ≡ turnstile.now) first.knows.opening
        hands.old hands.new }
    ensures busy { result ≤ length hands.old }
    ensures length { length hands.new ≡ length hands.old }
{
    let crew = hands.len() as u32;
    let mut pass = first;
    let reply = engage(rt, alloc, turnstile, &mut pass, left, crew);
    let mut left = reply.left;
    let mut busy = holding(&reply);
    for i in 1..hands.len() {
        let place = engage_next(rt, alloc, turnstile, &mut pass, left, crew);
        left = place.reply.left;
        busy += holding(&place.reply);
        hands[i].engaged = Some(place);
    }
    hands[0].engaged = Some(Engaged { pass, reply });
    busy
}

/// Joins the passes of the hands after the first one into the pass of the first one.
fn gather<S: Sul>(
    turnstile: &Turnstile<Desk>,
    first: Pass<Desk>,
    hands: &mut [Hand<S>],
) -> Pass<Desk>
    requires ours { first.turnstile ≡ turnstile.now }
    requires first { (first.knows.number ≡ 0) × (first.knows.ended ≡ []) }
    requires others { OthersHold (λ p. p.turnstile ≡ turnstile.now) hands.old }
    ensures ours { result.turnstile ≡ turnstile.now }
    ensures same { (result.knows.number ≡ 0) × (result.knows.opening ≡ first.knows.opening) ×
        (result.knows.made ≡ first.knows.made) × (result.knows.mine ≡ first.knows.mine) }
    ensures joined { OthersJoined result.knows hands.old }
    ensures workers { SameWorkers hands.old hands.new }
    ensures length { length hands.new ≡ length hands.old }
{
    let mut whole = first;
    for i in 1..hands.len() {
        let pass = hands[i].leave();
        turnstile.join(&mut whole, pass);
    }
    whole
}

/// Runs the hands one after the other.
fn run_each<S: Sul, R: Wait>(
    rt: &R,
    alloc: Global,
    turnstile: &Turnstile<Desk>,
    batch: &[Word],
    crew: u32,
    hands: &mut [Hand<S>],
)
    requires can { All (CanRun (λ p. p.turnstile ≡ turnstile.now) batch.now) hands.old }
    ensures run { AllRun (λ p. p.turnstile ≡ turnstile.now) hands.old hands.new }
    ensures length { length hands.new ≡ length hands.old }
{
    for i in 0..hands.len() {
        hands[i].run(rt, alloc, turnstile, batch, crew);
    }
}

/// Runs the hands, each in a thread of its own.
fn run_threads<S: Sul + Send, R: Threads + Wait + Sync>(
    rt: &R,
    alloc: Global,
    turnstile: &Turnstile<Desk>,
    batch: &[Word],
    crew: u32,
    hands: &mut [Hand<S>],
)
    requires can { All (CanRun (λ p. p.turnstile ≡ turnstile.now) batch.now) hands.old }
    ensures run { AllRun (λ p. p.turnstile ≡ turnstile.now) hands.old hands.new }
    ensures length { length hands.new ≡ length hands.old }
{
    let threads = hands.len().max(1);
    let run = |_: usize, hand: &mut Hand<S>|
        requires { CanRun (λ p. p.turnstile ≡ turnstile.now) batch.now hand.now }
        ensures { HasRun (λ p. p.turnstile ≡ turnstile.entry.now) hand.entry.now hand.exit.now }
    { hand.run(rt, alloc, turnstile, batch, crew) };
    thread::for_each_mut(rt, hands, threads, &run);
}

/// Runs this many hands at once, and then the others one after the other. Hands whose systems never wait are run one after the
/// other, all of them: the first works the batch off.
fn run_all<S: Sul + Send, R: Threads + Wait + Sync>(
    rt: &R,
    alloc: Global,
    turnstile: &Turnstile<Desk>,
    batch: &[Word],
    busy: usize,
    crew: u32,
    hands: &mut [Hand<S>],
)
    requires busy { busy ≤ length hands.old }
    requires can { All (CanRun (λ p. p.turnstile ≡ turnstile.now) batch.now) hands.old }
    ensures run { AllRun (λ p. p.turnstile ≡ turnstile.now) hands.old hands.new }
    ensures length { length hands.new ≡ length hands.old }
{
    if busy <= 1 || !S::WAITS {
        run_each(rt, alloc, turnstile, batch, crew, hands);
        return;
    }
    let (front, back) = hands.split_at_mut(busy);
    run_threads(rt, alloc, turnstile, batch, crew, front);
    run_each(rt, alloc, turnstile, batch, crew, back);
}

/// Lets the sessions work a batch off, each in its own turn at the turnstile, and as many at once as found words to ask.
pub(crate) fn work_off<S: Sul + Send, R: Threads + Wait + Sync>(
    rt: &R,
    alloc: Global,
    turnstile: Turnstile<Desk>,
    first: Pass<Desk>,
    left: u32,
    hands: &mut [Hand<S>],
    batch: &[Word],
) -> Desk
    requires ours { first.turnstile ≡ turnstile }
    requires fresh { first.knows ≡ first_view first.knows.opening }
    requires batch { first.knows.opening.batch ≡ batch.now }
    requires crew { first.knows.opening.actors ≡ length hands.old }
    requires some { 0 < length hands.old }
    requires ready { AllReady first.knows.opening hands.old }
    requires letters { AllRead batch.now hands.old }
    ensures opening { result.opening ≡ first.knows.opening }
    ensures lawful { Legal first.knows.opening result.entries }
    ensures worked { AllWorkedOff first.knows.opening result.entries hands.old hands.new }
    ensures others { (n : ℕ) → length hands.old ≤ n → entries_of n result.entries ≡ [] }
    ensures length { length hands.new ≡ length hands.old }
{
    let crew = hands.len() as u32;
    let busy = hire(rt, alloc, &turnstile, first, left, hands);
    run_all(rt, alloc, &turnstile, batch, busy, crew, hands);
    let own = hands[0].leave();
    let last = gather(&turnstile, own, hands);
    turnstile.close(last)
}

//! Pools: several sessions that settle batches together, over one cache.
ghost use Rattle.std.specs.Prelude.{◌≡◌, ℕ, ◌^◌, ◌<◌, ◌≤◌, List, [], length, map, slice_index_or, false, IfOk, IfErr, IfSome, IfNone, Option, Some, None, is_some, ◌||◌};
ghost use Rattle.std.specs.List.{All};
ghost use Rattle.lw_words.specs.Word.{IsWord};
ghost use Rattle.lw_turn.specs.Views.{first_view};
ghost use Rattle.lw_cache.specs.Settling.{KeepsAnswers, MayAsk, TellsStop};
ghost use Rattle.lw_desk.specs.Desk.{Finishes};
ghost use Rattle.lw_desk.specs.History.{Replays, opened};
ghost use Rattle.lw_names.specs.Naming.{HasLists};
ghost use Rattle.lw_desk.specs.Step.{DeskState};
ghost use Rattle.lw_pool.specs.Opening.{MayBegin, AllMayJoin, member_of};
ghost use Rattle.lw_pool.specs.Pool.{seen_of, origins_of};
ghost use Rattle.lw_pool.specs.Settling.{HasSettled};
ghost use Rattle.lw_pool.specs.Standing.{PoolStands};
ghost use Rattle.lw_desk.specs.Ending.{IsShared, FreeComeUp};
ghost use Rattle.lw_pool.specs.bodies.Crew.{AllReady, AllRead};
ghost use Rattle.lw_pool.specs.bodies.Running.{AfterBatch, AreWhole, opening_of};

use crate::hands::{Hand, hands_of, sessions_of, work_off};
use crate::parts::Parts;
use lw_cache::{AskStop, Cache};
use lw_desk::Desk;
use lw_names::OutNames;
use lw_sul::{Session, Sul};
use lw_turn::{Pass, Turnstile};
use lw_words::{NoMemory, Word};
use std::alloc::Global;
use std::marker::Model;
use std::snapshot::Snapshot;
use std::sync::Wait;
use std::thread::Threads;

/// Sessions that settle batches together: each word is asked by one of them, and what one has answered all know.
/// Contracts see them, the names, the prior answers and all that is kept (`PoolState`). `spare` has room for the sessions.
#[derive(Drop)]
pub struct Pool<S: Sul, R> {
    rt: R,
    hands: Vec<Hand<S>>,
    spare: Vec<Session<S>>,
    parts: Option<Parts>,
    prior: Snapshot<Cache>,
    stop: Option<AskStop>,
    refused: bool,
    inputs: u16,
    outputs: u16,
    alloc: Global,
}

impl<S: Sul, R> Model for Pool<S, R> {
    ghost use Rattle.std.specs.Prelude.{map};
    ghost use Rattle.lw_pool.specs.Pool.{PoolState};
    ghost use Rattle.lw_pool.specs.bodies.PoolBody.{kept_in, naming_in, AreThere, HasRoom};
    ghost use Rattle.lw_pool.specs.Standing.{IsPool};

    ghost Value = { PoolState S };

    ghost view = { λ p. record { members = map (λ h. h.worker) p.hands.items; naming = naming_in p.parts; prior = p.prior.value.kept; kept = kept_in p.parts; stop = p.stop; refused = p.refused; inputs = p.inputs; outputs = p.outputs } };

    ghost invariant = { λ p. AreThere p.parts × HasRoom p.spare p.hands × IsPool (map (λ m. m.seen) (map (λ h. h.worker) p.hands.items)) (naming_in p.parts) p.prior.value.kept (kept_in p.parts) p.stop p.refused p.inputs p.outputs };
}

/// A desk of a batch behind a turnstile, its first pass, and how many places wait; or the parts, where there is no memory.
fn open(
    alloc: Global,
    parts: Parts,
    batch: &[Word],
    actors: u32,
) -> Result<(Turnstile<Desk>, Pass<Desk>, u32), Parts>
    requires actors { (1 ≤ actors) × (actors ≤ 16) }
    requires few { length batch.now < 2 ^ 32 }
    requires unclaimed { parts.cache.claims ≡ [] }
    ensures ours { IfOk result (λ t. t.1.turnstile ≡ t.0) }
    ensures first { IfOk result (λ t. t.1.knows ≡ first_view (record {
      kept = parts.cache.kept;
      naming = parts.names;
      batch = batch.now;
      actors = actors;
    })) }
    ensures back { IfErr result (λ p. (p.cache.kept ≡ parts.cache.kept) ×
        (p.cache.claims ≡ []) × (p.names ≡ parts.names)) }
{
    let Parts { cache, names } = parts;
    let desk = match Desk::new(alloc, cache, names, batch, actors) {
        Ok(desk) => desk,
        Err((cache, names, NoMemory)) => return Err(Parts { cache, names }),
    };
    let left = desk.left();
    match Turnstile::new(alloc, desk) {
        Ok((turnstile, first)) => Ok((turnstile, first, left)),
        Err((desk, NoMemory)) => {
            let (cache, names, _stop) = desk.finish();
            Err(Parts { cache, names })
        }
    }
}

/// The parts of a desk that is done, and its stop.
fn close(desk: Desk) -> (Parts, Option<AskStop>)
    requires idle { (t : DeskState) → Replays desk.opening (opened desk.opening) desk.entries t →
        t.claims ≡ [] }
    ensures finishes { Finishes desk (result.0.cache, result.0.names, result.1) }
    ensures whole { AreWhole result.0 }
{
    let (cache, names, stop) = desk.finish();
    // for the proof alone: the answers are whole, and the names are few and differ
    let _ = cache.kept();
    let _ = names.len();
    (Parts { cache, names }, stop)
}

/// Lets the hands work a batch off, where there is memory to begin it.
fn run<S: Sul + Send, R: Threads + Wait + Sync>(
    rt: &R,
    alloc: Global,
    parts: Parts,
    hands: &mut [Hand<S>],
    batch: &[Word],
) -> (Parts, Option<AskStop>)
    requires some { 0 < length hands.old }
    requires few_hands { length hands.old ≤ 16 }
    requires few { length batch.now < 2 ^ 32 }
    requires unclaimed { parts.cache.claims ≡ [] }
    requires lists { HasLists parts.names.brought (length hands.old) }
    requires ready { AllReady (opening_of parts batch.now (length hands.old)) hands.old }
    requires letters { AllRead batch.now hands.old }
    ensures after { AfterBatch (opening_of parts batch.now (length hands.old)) hands.old hands.new
        result.0 result.1 }
    ensures whole { AreWhole result.0 }
{
    match open(alloc, parts, batch, hands.len() as u32) {
        Ok((turnstile, first, left)) => {
            let desk = work_off(rt, alloc, turnstile, first, left, hands, batch);
            close(desk)
        }
        Err(parts) => {
            // for the proof alone, as in `close`
            let _ = parts.cache.kept();
            let _ = parts.names.len();
            (parts, Some(AskStop::NoMemory))
        }
    }
}

/// The stop after which nothing more is asked: of a system, or a clash.
fn last_stop(stop: &Option<AskStop>) -> Option<AskStop>
    ensures some { IfSome result (λ s. stop.now ≡ Some s) }
    ensures none { IfNone result (MayAsk stop.now) }
{
    match stop {
        Some(AskStop::Sul { instance, stop }) => Some(AskStop::Sul {
            instance: *instance,
            stop: stop.copy(),
        }),
        Some(AskStop::Clash(clash)) => Some(AskStop::Clash(*clash)),
        Some(AskStop::NoMemory) => None,
        None => None,
    }
}

/// The same stop once more.
fn copy_of(stop: &Option<AskStop>) -> Option<AskStop>
    ensures { result ≡ stop.now }
{
    match stop {
        Some(stop) => Some(stop.copy()),
        None => None,
    }
}

/// Whether a settling was ever refused, once this one was stopped so, or not at all.
fn was_refused(refused: bool, stop: &Option<AskStop>) -> bool
    ensures { result ≡ (refused || is_some stop.now) }
{
    refused || stop.is_some()
}

/// What a settling answers that was stopped so, or not at all.
fn answer_of(stop: Option<AskStop>) -> Result<(), AskStop>
    ensures { TellsStop result stop }
{
    match stop {
        Some(stop) => Err(stop),
        None => Ok(()),
    }
}

impl<S: Sul + Drop, R: Drop> Pool<S, R> {
    /// A pool of these sessions, in the order of their instances, over these names; all systems have this many inputs
    /// and outputs. What the cache keeps are prior answers.
    /// Where there is no memory all is handed back.
    pub fn new(
        rt: R,
        alloc: Global,
        inputs: u16,
        outputs: u16,
        sessions: Vec<Session<S>>,
        names: OutNames,
        cache: Cache,
    ) -> Result<Pool<S, R>, (Vec<Session<S>>, OutNames, Cache, NoMemory)>
        requires some { 0 < length sessions.items }
        requires few { length sessions.items ≤ 16 }
        requires unclaimed { cache.claims ≡ [] }
        requires lists { HasLists names.brought (length sessions.items) }
        requires shared { IsShared names }
        requires come_up { FreeComeUp cache.kept names }
        requires join { AllMayJoin (member_of S.state) names inputs outputs sessions.items }
        requires prior { MayBegin names inputs outputs cache.kept }
        ensures members { IfOk result (λ p. p.members ≡ map (member_of S.state) sessions.items) }
        ensures begun { IfOk result (λ p. (p.naming ≡ names) × (p.prior ≡ cache.kept) ×
            (p.kept ≡ cache.kept) × (p.stop ≡ None) × (p.refused ≡ false)) }
        ensures numbers { IfOk result (λ p.
            (p.inputs ≡ inputs) × (p.outputs ≡ outputs)) }
        ensures stands { IfOk result PoolStands }
        ensures back { IfErr result (λ e. (e.0 ≡ sessions) × (e.1 ≡ names) × (e.2 ≡ cache)) }
    {
        let prior = Snapshot::of(&cache);
        let Ok(spare) = Vec::with_capacity(alloc, sessions.len()) else {
            return Err((sessions, names, cache, NoMemory));
        };
        let hands = match hands_of(alloc, sessions) {
            Ok(hands) => hands,
            Err(sessions) => return Err((sessions, names, cache, NoMemory)),
        };
        Ok(Pool {
            rt,
            hands,
            spare,
            parts: Some(Parts { cache, names }),
            prior,
            stop: None,
            refused: false,
            inputs,
            outputs,
            alloc,
        })
    }
}

impl<S: Sul + Send, R: Threads + Wait + Sync> Pool<S, R> {
    /// Settles a batch: each word that has to be asked is asked once, by one of the sessions. May wait for a system.
    ///
    /// # Errors
    /// The first stop of the batch, in the order of the turns. After a stop of a system or a clash every later call answers the
    /// same and asks nothing. After `NoMemory` a later call may succeed; what came behind it in that batch, a clash too, is
    /// kept and not reported, and a system that stopped then reports it again when it is asked.
    pub fn settle_all(&mut self, batch: &[Word]) -> Result<(), AskStop>
        requires letters { All (IsWord self.old.inputs) batch.now }
        requires few { length batch.now < 2 ^ 32 }
        ensures { HasSettled batch.now self.old self.new result }
    {
        if let Some(stop) = last_stop(&self.stop) {
            return Err(stop);
        }
        let Some(parts) = self.parts.take() else {
            unreachable!()
        };
        let (parts, stop) = run(&self.rt, self.alloc, parts, &mut self.hands, batch);
        self.parts = Some(parts);
        self.stop = copy_of(&stop);
        self.refused = was_refused(self.refused, &stop);
        answer_of(stop)
    }
}

impl<S: Sul, R> Pool<S, R> {
    /// The prior answers and all that the sessions have answered.
    pub fn cache(&self) -> &Cache
        ensures kept { result.now.kept ≡ self.now.kept }
        ensures claims { result.now.claims ≡ [] }
        ensures keeps { KeepsAnswers self.now.inputs self.now.outputs
            (origins_of (seen_of self.now))
            self.now.kept }
        ensures stands { PoolStands self.now }
    {
        let Some(parts) = &self.parts else {
            unreachable!()
        };
        &parts.cache
    }

    /// The names of the recorded answers' outputs.
    pub fn names(&self) -> &OutNames
        ensures names { result.now ≡ self.now.naming }
        ensures stands { PoolStands self.now }
    {
        let Some(parts) = &self.parts else {
            unreachable!()
        };
        &parts.names
    }

    pub fn inputs(&self) -> u16
        ensures { result ≡ self.now.inputs }
    {
        self.inputs
    }

    pub fn outputs(&self) -> u16
        ensures { result ≡ self.now.outputs }
    {
        self.outputs
    }

    /// How many sessions there are.
    pub fn sessions(&self) -> usize
        ensures { result ≡ length self.now.members }
    {
        self.hands.len()
    }

    /// The session of an instance.
    pub fn session(&self, instance: usize) -> &Session<S>
        requires { instance < length self.now.members }
        ensures member { (d : _) → member_of S.state result.now ≡ slice_index_or self.now.members
            instance d }
        ensures stands { PoolStands self.now }
    {
        &self.hands[instance].worker.session
    }
}

impl<S: Sul + Drop, R: Drop> Pool<S, R> {
    /// The sessions by instance, the names, and all that is known. Takes no memory.
    pub fn into_parts(self) -> (Vec<Session<S>>, OutNames, Cache)
        ensures sessions { map (member_of S.state) result.0.items ≡ self.members }
        ensures names { result.1 ≡ self.naming }
        ensures cache { (result.2.kept ≡ self.kept) × (result.2.claims ≡ []) }
        ensures stands { PoolStands self }
    {
        let Pool {
            hands,
            spare,
            parts,
            ..
        } = self;
        let Some(Parts { cache, names }) = parts else {
            unreachable!()
        };
        (sessions_of(hands, spare), names, cache)
    }
}

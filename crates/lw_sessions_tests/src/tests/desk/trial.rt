//! Desks for tests: what an ask needs is tested when it is made.
ghost use Rattle.std.specs.Prelude.{◌≡◌, ℕ, ◌+◌, ◌≤◌, ◌<◌, ◌||◌, true, false, List, [], ◌++◌, length, map, take, IsTrue, is_some};
ghost use Rattle.std.specs.List.{All};
ghost use Rattle.lw_words.specs.Word.{IsName, AllDiffer, number_of, named};
ghost use Rattle.lw_names.specs.Names.{with_names};
ghost use Rattle.lw_names.specs.Naming.{own_names, MayBring};
ghost use Rattle.lw_desk.specs.Step.{word_at_place};
ghost use Rattle.lw_desk.specs.History.{MayMake, MayGiveAll, failed_places, names_given, settled_places};
ghost use Rattle.lw_sessions_tests.specs.TestTrial.{seat_by};

use lw_cache::{AskStop, Cache};
use lw_desk::{Ask, Desk, Give, Places};
use lw_names::{Named, OutName, OutNames};
use lw_turn::Core;
use lw_words::{Names, Word};
use std::alloc::Global;
use std::marker::Model;
use std::process::Abort;

/// The state of an actor: what it holds, whether it has ended, and the names that its own numbers stand for.
#[derive(Drop)]
pub struct Standing {
    pub held: Places,
    pub ended: bool,
    pub own: Vec<OutName>,
}

/// A desk, and the states of its actors.
#[derive(Drop)]
pub struct Trial {
    desk: Desk,
    words: Vec<Word>,
    free: bool,
    seats: Vec<Standing>,
    alloc: Global,
}

impl Model for Trial {
    ghost use Rattle.std.specs.Prelude.{map};
    ghost use Rattle.lw_desk.specs.Desk.{DeskHistory};
    ghost use Rattle.lw_sessions_tests.specs.TestTrial.{seat_by, IsDeskTrial};

    ghost Value = { DeskHistory };

    ghost view = { λ t. t.desk };

    ghost invariant = { λ t. IsDeskTrial t.desk t.words.items t.free (map (λ x. seat_by x.held x.ended x.own.items) t.seats.items) };
}

fn copies(rt: &impl Abort, alloc: Global, names: &[OutName]) -> Vec<OutName>
    ensures { result.items ≡ names.now }
{
    let mut v = Vec::new(alloc);
    for name in names {
        v.push(name.copy()).expect(rt, "memory");
    }
    v
}

/// A list, and names behind it.
fn joined(rt: &impl Abort, alloc: Global, own: &[OutName], names: &Named) -> Vec<OutName>
    ensures { result.items ≡ own.now ++ names.now }
{
    let mut v = copies(rt, alloc, own);
    for i in 0..names.len() {
        v.push(names.get(i).copy()).expect(rt, "memory");
    }
    v
}

/// The number of a name, where the list has it.
fn find(names: &[OutName], name: &[u8]) -> Option<usize>
    ensures { result ≡ number_of name.now names.now }
{
    names.iter().position(|n| name == n.as_slice())
}

/// Whether no name stands twice.
fn differ(all: &[OutName]) -> bool
    ensures differ { IsTrue result → AllDiffer all.now }
    ensures names { IsTrue result → All IsName all.now }
{
    for i in 0..all.len() {
        if find(&all[..i], all[i].as_slice()).is_some() {
            return false;
        }
    }
    true
}

/// Whether the names behind the first ones are those that the outputs name, in the order in which they come.
fn come_in_order(all: &[OutName], own: usize, outs: &[u16]) -> bool
    requires own { own ≤ length all.now }
    requires differ { AllDiffer all.now }
    requires numbers { All (λ y. y < length all.now) outs.now }
    ensures { IsTrue result →
        all.now ≡ with_names (take own all.now) (named all.now outs.now) }
{
    let mut seen = own;
    for y in outs {
        let number = usize::from(*y);
        if number > seen {
            return false;
        }
        if number == seen {
            seen += 1;
        }
    }
    seen == all.len()
}

/// Whether an instance may have so many names, and bring so many.
fn few_enough(free: bool, all: usize, names: usize) -> bool
    ensures free { IsTrue result → free ≡ true → all ≤ 256 }
    ensures declared { IsTrue result → free ≡ false → names ≡ 0 }
{
    if free { all <= 256 } else { names == 0 }
}

fn below(outs: &[u16], limit: usize) -> bool
    ensures { IsTrue result → All (λ y. y < limit) outs.now }
{
    outs.iter().all(|y| usize::from(*y) < limit)
}

/// Whether an instance may bring the names with these outputs.
fn may_bring(free: bool, own: &[OutName], names: &Named, all: &[OutName], outs: &[u16]) -> bool
    requires { all.now ≡ own.now ++ names.now }
    ensures { IsTrue result → MayBring free own.now names.now outs.now }
{
    if !few_enough(free, all.len(), names.len()) {
        return false;
    }
    if !below(outs, all.len()) {
        return false;
    }
    if !differ(all) {
        return false;
    }
    come_in_order(all, own.len(), outs)
}

/// The places that are given or failed.
fn settled(rt: &impl Abort, alloc: Global, ask: &Ask) -> Vec<u32>
    ensures { result.items ≡ settled_places ask.now }
{
    let places = ask.gives.iter().map(|g| g.place).collect(alloc);
    let mut v: Vec<u32> = places.expect(rt, "memory");
    if let Some(failed) = &ask.failed {
        v.extend_from_slice(failed.places.as_slice())
            .expect(rt, "memory");
    }
    v
}

/// An actor's own names after it gave an answer, where it may.
fn after_give(
    rt: &impl Abort,
    alloc: Global,
    words: &[Word],
    free: bool,
    own: &[OutName],
    g: &Give,
) -> Vec<OutName>
    ensures may { MayBring free own.now g.now.names g.now.outs }
    ensures long { length g.now.outs ≡ length (word_at_place words.now g.now.place) }
    ensures own { result.items ≡ own.now ++ g.now.names }
{
    let all = joined(rt, alloc, own, &g.names);
    let Some(word) = words.get(g.place as usize) else {
        rt.panic("no such place");
    };
    assert!(rt; word.len() == g.outs.len());
    assert!(rt; may_bring(free, own, &g.names, &all, g.outs.as_slice()));
    all
}

/// An actor's own names after it gave answers, where it may.
fn after_gives(
    rt: &impl Abort,
    alloc: Global,
    words: &[Word],
    free: bool,
    own: &[OutName],
    gives: &[Give],
) -> Vec<OutName>
    ensures may { MayGiveAll words.now free own.now gives.now }
    ensures own { result.items ≡ own.now ++ names_given gives.now }
{
    let mut names = copies(rt, alloc, own);
    for g in gives {
        names = after_give(rt, alloc, words, free, &names, g);
    }
    names
}

fn same_places(a: &[u32], b: &[u32]) -> bool
    ensures { IsTrue result → a.now ≡ b.now }
{
    a == b
}

fn asks_something(places: &[u32], wanted: u32) -> bool
    ensures { IsTrue result → 0 < length places.now + wanted }
{
    !places.is_empty() || wanted > 0
}

/// Whether an ask that fails places fails some, and wants none.
fn fails_well(ask: &Ask) -> bool
    ensures { IsTrue result → is_some ask.now.failed ≡ true →
        (0 < length (failed_places ask.now.failed)) × (ask.now.wanted ≡ 0) }
{
    match &ask.failed {
        Some(failed) => failed.places.as_slice().len() > 0 && ask.wanted == 0,
        None => true,
    }
}

fn either(a: bool, b: bool) -> bool
    ensures { result ≡ (a || b) }
{
    a || b
}

/// An actor's own names after an ask, where it may make it.
fn after_ask(
    rt: &impl Abort,
    alloc: Global,
    words: &[Word],
    free: bool,
    seat: &Standing,
    ask: &Ask,
) -> Vec<OutName>
    ensures may { MayMake words.now free
        (seat_by seat.now.held seat.now.ended seat.now.own.items) ask.now }
    ensures own { result.items ≡ seat.now.own.items ++ names_given ask.now.gives.items }
{
    let places = settled(rt, alloc, ask);
    assert!(rt; !seat.ended);
    assert!(rt; same_places(&places, seat.held.as_slice()));
    assert!(rt; ask.wanted <= 16);
    assert!(rt; asks_something(&places, ask.wanted));
    assert!(rt; fails_well(ask));
    after_gives(rt, alloc, words, free, &seat.own, &ask.gives)
}

/// Whether no actor holds a place.
fn nothing_held(seats: &[Standing]) -> bool
    ensures { IsTrue result → All (λ x. x.held ≡ []) seats.now }
{
    seats.iter().all(|seat| seat.held.is_empty())
}

impl Trial {
    /// A trial of this batch.
    fn new(
        rt: &impl Abort,
        alloc: Global,
        names: OutNames,
        own: &[OutName],
        words: Vec<Word>,
        actors: u32,
    ) -> Trial
        requires alike { (a : ℕ) → own_names names a ≡ own.now }
    {
        assert!(rt; words.len() <= 1000);
        assert!(rt; actors > 0);
        assert!(rt; actors <= 16);
        let free = names.is_free();
        let mut seats = Vec::new(alloc);
        for _ in 0..actors {
            let seat = Standing {
                held: Places::new(),
                ended: false,
                own: copies(rt, alloc, own),
            };
            seats.push(seat).expect(rt, "memory");
        }
        let Ok(desk) = Desk::new(alloc, Cache::new(alloc), names, &words, actors) else {
            rt.panic("memory");
        };
        Trial {
            desk,
            words,
            free,
            seats,
            alloc,
        }
    }

    /// With declared names.
    pub fn declared(
        rt: &impl Abort,
        alloc: Global,
        names: &Names,
        words: Vec<Word>,
        actors: u32,
    ) -> Trial {
        let shared = OutNames::declared(alloc, names).expect(rt, "memory");
        let mut own = Vec::new(alloc);
        for n in 0..shared.len() {
            own.push(shared.name(n)).expect(rt, "memory");
        }
        Trial::new(rt, alloc, shared, &own, words, actors)
    }

    /// With free names.
    pub fn free(rt: &impl Abort, alloc: Global, words: Vec<Word>, actors: u32) -> Trial {
        let names = OutNames::free(alloc).expect(rt, "memory");
        Trial::new(rt, alloc, names, &[], words, actors)
    }

    /// What an actor holds.
    pub fn held(&self, actor: usize) -> &[u32] {
        match self.seats.get(actor) {
            Some(seat) => seat.held.as_slice(),
            None => &[],
        }
    }

    /// An ask, where the actor may make it: whether nothing was left, whether the desk was stopped, and how many are left.
    pub fn ask(&mut self, rt: &impl Abort, actor: u32, ask: Ask) -> (bool, bool, u32) {
        let Some(seat) = self.seats.get(actor as usize) else {
            rt.panic("no such actor");
        };
        let own = after_ask(rt, self.alloc, &self.words, self.free, seat, &ask);
        let failed = ask.failed.is_some();
        let reply = self.desk.on(actor, ask);
        let told = (reply.done, reply.stopped, reply.left);
        self.seats[actor as usize] = Standing {
            held: reply.places,
            ended: either(reply.done, failed),
            own,
        };
        told
    }

    /// What the desk leaves, where no actor holds a place.
    pub fn finish(self, rt: &impl Abort) -> (Cache, OutNames, Option<AskStop>) {
        let _ = self.desk.actors();
        assert!(rt; nothing_held(&self.seats));
        let Trial {
            desk,
            words: _,
            free: _,
            seats: _,
            alloc: _,
        } = self;
        desk.finish()
    }
}

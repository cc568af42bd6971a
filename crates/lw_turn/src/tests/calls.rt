//! Each call of the turnstile, by hand and in threads.
ghost use Rattle.std.specs.Prelude.{◌≡◌, ◌+◌, ◌*◌, ◌^◌, ◌<◌, ◌≤◌, ℕ, [], ◌∷◌, All, IsSome};
ghost use Rattle.lw_turn.specs.Views.{first_view, ended_of};

use super::tally::Tally;
use crate::pass::Pass;
use crate::shared::Core;
use crate::turnstile::Turnstile;
use std::alloc::Global;
use std::process::Abort;
use std::sync::Wait;
use std::thread;
use std::thread::{Threads, join};

fn opened(rt: &impl Abort, alloc: Global, actors: u32, each: u32) -> (Turnstile<Tally>, Pass<Tally>)
    requires some { 0 < actors }
    requires few { actors * each < 2 ^ 32 }
    ensures ours { result.1.turnstile ≡ result.0 }
    ensures first { result.1.knows ≡ first_view (record { actors = actors; each = each }) }
{
    let tally = Tally::new(alloc, actors, each).expect(rt, "memory");
    match Turnstile::new(alloc, tally) {
        Ok(made) => made,
        Err(_) => rt.panic("no memory for a turnstile"),
    }
}

// Adds 1 so many times.
fn adds<R: Wait>(rt: &R, turnstile: &Turnstile<Tally>, pass: Pass<Tally>, times: u32) -> Pass<Tally>
    requires ours { pass.turnstile ≡ turnstile.now }
    requires fresh { pass.knows.mine ≡ [] }
    requires often { times ≤ pass.knows.opening.each }
    ensures ours { result.turnstile ≡ turnstile.now }
    ensures number { result.knows.number ≡ pass.knows.number }
    ensures parts { (result.knows.made ≡ pass.knows.made) ×
        (result.knows.ended ≡ pass.knows.ended) }
{
    let mut own = pass;
    for _ in 0..times {
        turnstile.turn(rt, &mut own, 1);
    }
    own
}

#[test]
fn each_turn_is_answered_the_sum_before(rt: HostRuntime) {
    let (turnstile, mut first) = opened(&rt, rt.alloc(), 2, 8);
    let mut second = turnstile.split(&mut first);
    assert!(rt; turnstile.turn(&rt, &mut first, 5) == 0);
    assert!(rt; turnstile.turn(&rt, &mut second, 7) == 5);
    assert!(rt; turnstile.turn(&rt, &mut first, 1) == 12);
    turnstile.join(&mut first, second);
    let tally = turnstile.close(first);
    assert!(rt; tally.count() == 3);
    assert!(rt; tally.total() == 13);
}

#[test]
fn one_actor_takes_all_turns(rt: HostRuntime) {
    let (turnstile, first) = opened(&rt, rt.alloc(), 1, 8);
    let first = adds(&rt, &turnstile, first, 8);
    let tally = turnstile.close(first);
    assert!(rt; tally.count() == 8);
    assert!(rt; tally.total() == 8);
}

#[test]
fn two_threads_leave_sixteen_entries(rt: HostRuntime) {
    let (turnstile, mut first) = opened(&rt, rt.alloc(), 2, 8);
    let second = turnstile.split(&mut first);
    let (mut first, second) = join(
        &rt,
        || adds(&rt, &turnstile, first, 8),
        || adds(&rt, &turnstile, second, 8),
    );
    turnstile.join(&mut first, second);
    let tally = turnstile.close(first);
    assert!(rt; tally.count() == 16);
    assert!(rt; tally.total() == 16);
}

// A pass with the replies that it was given.
#[derive(Drop)]
struct Worker {
    pass: Pass<Tally>,
    replies: Vec<u64>,
}

impl Worker {
    // Adds 1 so many times, and keeps the replies.
    fn work<R: Wait>(&mut self, rt: &R, turnstile: &Turnstile<Tally>, times: u32)
        requires ours { self.old.pass.turnstile ≡ turnstile.now }
        requires fresh { self.old.pass.knows.mine ≡ [] }
        requires often { times ≤ self.old.pass.knows.opening.each }
        ensures ours { self.new.pass.turnstile ≡ turnstile.now }
    {
        for _ in 0..times {
            let reply = turnstile.turn(rt, &mut self.pass, 1);
            if self.replies.len() < self.replies.capacity() {
                self.replies.push_reserved(reply);
            }
        }
    }
}

fn all_work<R: Threads + Wait + Sync>(
    rt: &R,
    turnstile: &Turnstile<Tally>,
    workers: &mut [Worker],
    times: u32,
)
    requires ours { All (λ w. w.pass.turnstile ≡ turnstile.now) workers.old }
    requires fresh { All (λ w. w.pass.knows.mine ≡ []) workers.old }
    requires often { All (λ w. times ≤ w.pass.knows.opening.each) workers.old }
    ensures ours { All (λ w. w.pass.turnstile ≡ turnstile.now) workers.new }
{
    thread::for_each_mut(rt, workers, 8, &|_, w| w.work(rt, turnstile, times));
}

// The passes 1 to `more`, each with room for its replies.
fn hire(
    rt: &impl Abort,
    alloc: Global,
    turnstile: &Turnstile<Tally>,
    first: &mut Pass<Tally>,
    more: u32,
    each: u32,
) -> Vec<Worker>
    requires ours { first.old.turnstile ≡ turnstile.now }
    requires first { (first.old.knows.number ≡ 0) × (first.old.knows.made ≡ 1) }
    requires room { more < first.old.knows.opening.actors }
    requires often { each ≤ first.old.knows.opening.each }
    ensures ours { (first.new.turnstile ≡ turnstile.now) ×
        All (λ w. w.pass.turnstile ≡ turnstile.now) result.items }
    ensures fresh { All (λ w. w.pass.knows.mine ≡ []) result.items }
    ensures often { All (λ w. each ≤ w.pass.knows.opening.each) result.items }
    ensures first { (first.new.knows.mine ≡ first.old.knows.mine) ×
        (first.new.knows.opening ≡ first.old.knows.opening) }
{
    let mut workers = Vec::new(alloc);
    for _ in 0..more {
        let replies = Vec::with_capacity(alloc, each as usize).expect(rt, "memory");
        let pass = turnstile.split(first);
        workers.push(Worker { pass, replies }).expect(rt, "memory");
    }
    workers
}

// Whether each reply is below the length and was not seen before.
fn mark(seen: &mut [bool], replies: &[u64]) -> bool {
    for reply in replies {
        let at = *reply as usize;
        if at >= seen.len() || seen[at] {
            return false;
        }
        seen[at] = true;
    }
    true
}

fn take_last(rt: &impl Abort, turnstile: &Turnstile<Tally>, workers: &mut Vec<Worker>) -> Worker
    requires ours { All (λ w. w.pass.turnstile ≡ turnstile.now) workers.old.items }
    ensures last { result.pass.turnstile ≡ turnstile.now }
    ensures ours { All (λ w. w.pass.turnstile ≡ turnstile.now) workers.new.items }
{
    let _ = turnstile;
    workers.pop().expect(rt, "a worker is left")
}

// Joins the passes 1 to 7 into pass 0, the last one first, and marks their replies.
fn gather(
    rt: &impl Abort,
    turnstile: &Turnstile<Tally>,
    first: Pass<Tally>,
    mut workers: Vec<Worker>,
    seen: &mut [bool],
) -> Pass<Tally>
    requires ours { (first.turnstile ≡ turnstile.now) ×
        All (λ w. w.pass.turnstile ≡ turnstile.now) workers.items }
    requires first { (first.knows.number ≡ 0) × (first.knows.made ≡ 8) }
    ensures ours { result.turnstile ≡ turnstile.now }
    ensures first { (result.knows.number ≡ 0) × (result.knows.made ≡ 8) }
    ensures joined { (n : ℕ) → 0 < n → n < 8 → IsSome (ended_of n result.knows.ended) }
{
    let mut whole = first;
    let mut left = 8;
    while left > 1 {
        left -= 1;
        let Worker { pass, replies } = take_last(rt, turnstile, &mut workers);
        assert!(rt; pass.number == left);
        assert!(rt; mark(seen, &replies), "each reply is another number");
        turnstile.join(&mut whole, pass);
    }
    whole
}

// The passes 1 to 7 and, last, pass 0, each with room for so many replies.
fn crew(
    rt: &impl Abort,
    alloc: Global,
    turnstile: &Turnstile<Tally>,
    mut first: Pass<Tally>,
    each: u32,
) -> Vec<Worker>
    requires ours { first.turnstile ≡ turnstile.now }
    requires first { (first.knows.number ≡ 0) × (first.knows.made ≡ 1) }
    requires fresh { first.knows.mine ≡ [] }
    requires room { 7 < first.knows.opening.actors }
    requires often { each ≤ first.knows.opening.each }
    ensures ours { All (λ w. w.pass.turnstile ≡ turnstile.now) result.items }
    ensures fresh { All (λ w. w.pass.knows.mine ≡ []) result.items }
    ensures often { All (λ w. each ≤ w.pass.knows.opening.each) result.items }
{
    let mut workers = hire(rt, alloc, turnstile, &mut first, 7, each);
    let replies = Vec::with_capacity(alloc, each as usize).expect(rt, "memory");
    let last = Worker {
        pass: first,
        replies,
    };
    workers.push(last).expect(rt, "memory");
    workers
}

// Joins the passes of eight workers into pass 0, and marks their replies.
fn gather_all(
    rt: &impl Abort,
    turnstile: &Turnstile<Tally>,
    mut workers: Vec<Worker>,
    seen: &mut [bool],
) -> Pass<Tally>
    requires ours { All (λ w. w.pass.turnstile ≡ turnstile.now) workers.items }
    ensures ours { result.turnstile ≡ turnstile.now }
    ensures first { (result.knows.number ≡ 0) × (result.knows.made ≡ 8) }
    ensures joined { (n : ℕ) → 0 < n → n < 8 → IsSome (ended_of n result.knows.ended) }
{
    let Worker { pass, replies } = take_last(rt, turnstile, &mut workers);
    assert!(rt; pass.number == 0 && pass.made == 8);
    assert!(rt; mark(seen, &replies));
    gather(rt, turnstile, pass, workers, seen)
}

#[test]
fn eight_threads_are_answered_each_number_once(rt: HostRuntime) {
    let alloc = rt.alloc();
    let (turnstile, first) = opened(&rt, alloc, 8, 1000);
    let mut workers = crew(&rt, alloc, &turnstile, first, 1000);
    all_work(&rt, &turnstile, workers.as_mut_slice(), 1000);
    let mut seen = vec![in alloc; false; 8000].expect(&rt, "memory");
    let first = gather_all(&rt, &turnstile, workers, seen.as_mut_slice());
    assert!(rt; seen.iter().all(|s| *s));
    let tally = turnstile.close(first);
    assert!(rt; tally.count() == 8000 && tally.total() == 8000);
}

// Where the core may go to another thread, a pass may, and the turnstile may be shared.
fn crosses<C: Core + Send>(turnstile: &Turnstile<C>, pass: Pass<C>) -> Pass<C>
    ensures { result ≡ pass }
{
    shared(turnstile);
    sent(pass)
}

fn shared<T: Sync>(_value: &T) {}

fn sent<T: Send>(value: T) -> T
    ensures { result ≡ value }
{
    value
}

#[test]
fn a_pass_goes_where_its_core_may_go(rt: HostRuntime) {
    let (turnstile, first) = opened(&rt, rt.alloc(), 1, 8);
    let first = crosses(&turnstile, first);
    assert!(rt; turnstile.close(first).count() == 0);
}

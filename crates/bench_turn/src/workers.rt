//! Threads that take turns, at a turnstile and at a lock.
ghost use Rattle.std.specs.Prelude.{◌≡◌, ℕ, ◌+◌, ◌*◌, ◌^◌, ◌<◌, ◌≤◌, [], All, IfOk};
ghost use Rattle.lw_turn.specs.Views.{first_view};

use crate::guarded::Guarded;
use crate::tally::Tally;
use lw_turn::{Pass, Turnstile};
use lw_words::NoMemory;
use std::alloc::Global;
use std::sync::{Mutex, Wait};
use std::thread;
use std::thread::Threads;

/// What one thread works with.
#[derive(Drop)]
pub struct Worker {
    pass: Pass<Tally>,
}

fn turns<R: Wait>(rt: &R, turnstile: &Turnstile<Tally>, worker: &mut Worker, times: u32)
    requires ours { worker.old.pass.turnstile ≡ turnstile.now }
    requires fresh { worker.old.pass.knows.mine ≡ [] }
    requires often { times ≤ worker.old.pass.knows.opening.each }
{
    for _ in 0..times {
        turnstile.turn(rt, &mut worker.pass, 1);
    }
}

/// Each worker takes so many turns, in a thread of its own.
pub fn all_turns<R: Threads + Wait + Sync>(
    rt: &R,
    turnstile: &Turnstile<Tally>,
    workers: &mut [Worker],
    times: u32,
)
    requires ours { All (λ w. w.pass.turnstile ≡ turnstile.now) workers.old }
    requires fresh { All (λ w. w.pass.knows.mine ≡ []) workers.old }
    requires often { All (λ w. times ≤ w.pass.knows.opening.each) workers.old }
{
    thread::for_each_mut(rt, workers, 8, &|_, w| turns(rt, turnstile, w, times));
}

/// A turnstile with so many workers.
pub fn hired(
    alloc: Global,
    threads: u32,
    each: u32,
) -> Result<(Turnstile<Tally>, Vec<Worker>), NoMemory>
    requires some { 0 < threads }
    requires few { threads * each < 2 ^ 32 }
    ensures ours { IfOk result (λ t. All (λ w. w.pass.turnstile ≡ t.0) t.1.items) }
    ensures fresh { IfOk result (λ t. All (λ w. w.pass.knows.mine ≡ []) t.1.items) }
    ensures often { IfOk result (λ t. All (λ w. each ≤ w.pass.knows.opening.each) t.1.items) }
{
    let (turnstile, mut first) = opened(alloc, threads, each)?;
    let mut workers = hire(alloc, &turnstile, &mut first, threads - 1, each)?;
    workers.push(Worker { pass: first })?;
    Ok((turnstile, workers))
}

fn opened(
    alloc: Global,
    actors: u32,
    each: u32,
) -> Result<(Turnstile<Tally>, Pass<Tally>), NoMemory>
    requires some { 0 < actors }
    requires few { actors * each < 2 ^ 32 }
    ensures { IfOk result (λ t. (t.1.turnstile ≡ t.0) ×
        (t.1.knows ≡ first_view (record { actors = actors; each = each }))) }
{
    match Turnstile::new(alloc, Tally::new(alloc, actors, each)?) {
        Ok(made) => Ok(made),
        Err((_tally, no_memory)) => Err(no_memory),
    }
}

fn hire(
    alloc: Global,
    turnstile: &Turnstile<Tally>,
    first: &mut Pass<Tally>,
    more: u32,
    each: u32,
) -> Result<Vec<Worker>, NoMemory>
    requires ours { first.old.turnstile ≡ turnstile.now }
    requires first { (first.old.knows.number ≡ 0) × (first.old.knows.made ≡ 1) }
    requires room { more < first.old.knows.opening.actors }
    requires often { each ≤ first.old.knows.opening.each }
    ensures ours { IfOk result (λ v. (first.new.turnstile ≡ turnstile.now) ×
        All (λ w. w.pass.turnstile ≡ turnstile.now) v.items) }
    ensures fresh { IfOk result (λ v. All (λ w. w.pass.knows.mine ≡ []) v.items) }
    ensures often { IfOk result (λ v. All (λ w. each ≤ w.pass.knows.opening.each) v.items) }
    ensures first { IfOk result (λ v. (first.new.knows.mine ≡ first.old.knows.mine) ×
        (first.new.knows.opening ≡ first.old.knows.opening)) }
{
    let mut workers = Vec::new(alloc);
    for _ in 0..more {
        let pass = turnstile.split(first);
        workers.push(Worker { pass })?;
    }
    Ok(workers)
}

fn locks<R: Wait>(rt: &R, shared: &Mutex<Guarded>, times: u32) {
    for _ in 0..times {
        let _ = shared.lock(rt).add();
    }
}

/// So many threads add so many times each, under the lock.
pub fn all_locks<R: Threads + Wait + Sync>(
    rt: &R,
    shared: &Mutex<Guarded>,
    threads: &mut [u32],
    times: u32,
) {
    thread::for_each_mut(rt, threads, 8, &|_, _| locks(rt, shared, times));
}

//! Turns a second at a turnstile, beside those at a `Mutex` of the same core.
#![tactic(auto)]

ghost use Rattle.std.specs.Prelude.{◌*◌, ◌^◌, ◌<◌, ◌≤◌};

use guarded::Guarded;
use lw_words::NoMemory;
use std::alloc::Global;
use std::io;
use std::sync::{Mutex, Wait};
use std::thread::Threads;
use std::time::{Clock, Duration, Instant};
use tally::Tally;

mod guarded;
mod tally;
#[cfg(test)]
mod tests;
mod workers;

// Turns of one thread where times are asked for, and where not.
const MANY: u32 = 200_000;

const FEW: u32 = 50;

// How long so many threads take for so many turns each at a turnstile.
fn at_turnstile<R: Threads + Wait + Clock + Sync>(
    rt: &R,
    alloc: Global,
    threads: u32,
    each: u32,
) -> Result<Option<Duration>, NoMemory>
    requires some { 0 < threads }
    requires few { threads * each < 2 ^ 32 }
{
    let (turnstile, mut workers) = workers::hired(alloc, threads, each)?;
    let start = Instant::now(rt);
    workers::all_turns(rt, &turnstile, workers.as_mut_slice(), each);
    Ok(since(rt, start))
}

// The same under a lock.
fn at_lock<R: Threads + Wait + Clock + Sync>(
    rt: &R,
    alloc: Global,
    threads: u32,
    each: u32,
) -> Result<Option<Duration>, NoMemory>
    requires threads { (0 < threads) × (threads ≤ 8) }
    requires few { threads * each < 2 ^ 32 }
{
    let shared = Mutex::new(Guarded::new(Tally::new(alloc, 1, threads * each)?, threads * each));
    let mut own = [0u32; 8];
    let start = Instant::now(rt);
    workers::all_locks(rt, &shared, &mut own[..threads as usize], each);
    Ok(since(rt, start))
}

fn since(rt: &impl Clock, start: io::Result<Instant>) -> Option<Duration> {
    start.ok()?.elapsed(rt).ok()
}

fn micros(took: Option<Duration>) -> u64
    ensures { 0 < result }
{
    took.and_then(|d| u64::try_from(d.as_micros()).ok())
        .unwrap_or(0)
        .max(1)
}

fn main(rt: HostRuntime) -> io::Result<()> {
    let timed = std::env::args(&rt)?.count() > 1;
    let each = if timed { MANY } else { FEW };
    for threads in [1u32, 2, 4, 8] {
        let (Ok(turnstile), Ok(lock)) = (
            at_turnstile(&rt, rt.alloc(), threads, each),
            at_lock(&rt, rt.alloc(), threads, each),
        ) else {
            println!(rt; "no memory")?;
            return Ok(());
        };
        if timed {
            let (a, b) = (micros(turnstile), micros(lock));
            let turns = u64::from(threads * each).saturating_mul(1_000_000) / a;
            let percent = b.saturating_mul(100) / a;
            println!(rt;
                "threads {threads}: {turns} turns a second, {percent}% of those at a Mutex"
            )?;
        } else {
            println!(rt; "threads {threads}")?;
        }
    }
    Ok(())
}

//! Times of batches that pools of 1, 2, 4 and 8 sessions settle: over tables, and over systems whose steps take a while.
#![tactic(auto)]

ghost use Rattle.std.specs.Prelude.{◌<◌, ◌≤◌, IfOk};

use crews::{Kind, batch_of, pool_of};
use lw_words::NoMemory;
use paced::spun;
use rand_core::SeedableRng;
use rand_pcg::Lcg128Xsl64;
use std::alloc::Global;
use std::io;
use std::sync::Wait;
use std::thread::Threads;
use std::time::{Clock, Instant};

mod crews;
mod paced;

const STATES: u16 = 200;

const LETTERS: u32 = 16;

/// How many microseconds have gone by since then, 1 at least.
fn micros_since<R: Clock>(rt: &R, start: io::Result<Instant>) -> u64
    ensures { 0 < result }
{
    let Ok(start) = start else {
        return 1;
    };
    match start.elapsed(rt) {
        Ok(d) => u64::try_from(d.as_micros()).unwrap_or(u64::MAX).max(1),
        Err(_) => 1,
    }
}

/// How many turns of the loop a microsecond has.
fn turns_a_micro<R: Clock>(rt: &R) -> u64 {
    let turns = 20_000_000u64;
    let start = Instant::now(rt);
    let noise = spun(1, turns);
    let took = micros_since(rt, start);
    (turns / took).max(noise % 2)
}

/// How long a pool of this many sessions takes for this many words, in microseconds, and how many answers it then has.
fn settled<R: Threads + Wait + Clock + Sync + Copy + Drop>(
    rt: R,
    alloc: Global,
    kind: &Kind,
    sessions: u32,
    words: u32,
) -> Result<(u64, usize), NoMemory>
    requires { (1 ≤ sessions) × (sessions ≤ 16) }
    ensures { IfOk result (λ r. 0 < r.0) }
{
    let mut numbers = Lcg128Xsl64::seed_from_u64(1);
    let batch = batch_of(alloc, &mut numbers, words, LETTERS)?;
    let mut pool = pool_of(rt, alloc, kind, sessions)?;
    let start = Instant::now(&rt);
    let done = pool.settle_all(&batch).is_ok();
    let took = micros_since(&rt, start);
    if !done {
        return Err(NoMemory);
    }
    Ok((took, pool.cache().kept().len()))
}

/// A number of sessions, and what came of them: microseconds, and how many answers are kept.
type Row = (u32, u64, usize);

/// What pools of 1, 2, 4 and 8 sessions take for this many words over systems whose steps take this many microseconds.
fn rows<R: Threads + Wait + Clock + Sync + Copy + Drop>(
    rt: R,
    alloc: Global,
    micros: u64,
    words: u32,
) -> Result<Vec<Row>, NoMemory> {
    let turns = micros.saturating_mul(if micros > 0 { turns_a_micro(&rt) } else { 0 });
    let kind = Kind::new(alloc, STATES, turns)?;
    let mut rows = Vec::new(alloc);
    for sessions in [1u32, 2, 4, 8] {
        let (took, answers) = settled(rt, alloc, &kind, sessions, words)?;
        rows.push((sessions, took, answers))?;
    }
    Ok(rows)
}

fn print_rows(rt: &HostRuntime, micros: u64, words: u32, rows: &[Row]) -> io::Result<()> {
    println!(rt; "{words} words of {LETTERS} letters, {micros} us a step")?;
    let one = rows.first().map_or(1, |row| row.1).max(1);
    for (sessions, took, answers) in rows {
        let percent = took.saturating_mul(100) / one;
        println!(rt;
            "  {sessions} sessions: {} ms, {percent}% of one's, {answers} answers",
            *took / 1000
        )?;
    }
    Ok(())
}

fn print_answers(rt: &HostRuntime, rows: &[Row]) -> io::Result<()> {
    for (sessions, _, answers) in rows {
        println!(rt; "{sessions} sessions: {answers} answers")?;
    }
    Ok(())
}

fn main(rt: HostRuntime) -> io::Result<()> {
    let timed = std::env::args(&rt)?.count() > 1;
    if !timed {
        return match rows(rt, rt.alloc(), 0, 100) {
            Ok(rows) => print_answers(&rt, &rows),
            Err(NoMemory) => println!(&rt; "no memory"),
        };
    }
    for (micros, words) in [(0u64, 100_000u32), (20, 2_000), (200, 500)] {
        match rows(rt, rt.alloc(), micros, words) {
            Ok(rows) => print_rows(&rt, micros, words, &rows)?,
            Err(NoMemory) => println!(&rt; "no memory")?,
        }
    }
    Ok(())
}

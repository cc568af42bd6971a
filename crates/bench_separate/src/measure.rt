//! How long the calls take on a machine.
ghost use Rattle.std.specs.Prelude.{◌<◌, ◌≤◌};

use lw_mealy::Mealy;
use lw_separate::{access_words, canonical, first_alike, renumbered, separating, separators};
use lw_words::{NoMemory, Words};
use std::alloc::Global;
use std::io;
use std::time::{Clock, Instant};

/// Microseconds of each call, and the separators that there are.
#[derive(Clone, Copy)]
pub struct Row {
    pub access_words: u64,
    pub canonical: u64,
    pub first_alike: u64,
    pub renumbered: u64,
    pub separating: u64,
    pub separators: u64,
    pub words: usize,
    pub longest: usize,
}

fn micros(rt: &impl Clock, start: io::Result<Instant>) -> u64 {
    start
        .ok()
        .and_then(|start| start.elapsed(rt).ok())
        .and_then(|took| u64::try_from(took.as_micros()).ok())
        .unwrap_or(0)
}

/// The calls on a machine, the last four on its canonical one.
pub fn measure(rt: &impl Clock, alloc: Global, m: &Mealy) -> Result<Row, NoMemory> {
    let start = Instant::now(rt);
    let _words = access_words(alloc, m)?;
    let access_words = micros(rt, start);
    let start = Instant::now(rt);
    let c = canonical(alloc, m)?;
    let canonical = micros(rt, start);
    let start = Instant::now(rt);
    let _pair = first_alike(alloc, &c)?;
    let first_alike = micros(rt, start);
    let start = Instant::now(rt);
    let _same = renumbered(alloc, &c)?;
    let renumbered = micros(rt, start);
    let start = Instant::now(rt);
    let _word = separating(alloc, &c, 0, c.states() - 1)?;
    let separating = micros(rt, start);
    let start = Instant::now(rt);
    let list = separators(alloc, &c)?;
    let separators = micros(rt, start);
    Ok(Row {
        access_words,
        canonical,
        first_alike,
        renumbered,
        separating,
        separators,
        words: list.len(),
        longest: longest(&list),
    })
}

fn longest(list: &Words) -> usize {
    list.as_slice()
        .iter()
        .map(|word| word.len())
        .max()
        .unwrap_or(0)
}

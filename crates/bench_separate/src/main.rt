//! Times of the calls of `lw_separate` on drawn machines and on chains.
#![tactic(auto)]

ghost use Rattle.std.specs.Prelude.{◌≤◌};

use lw_words::NoMemory;
use machines::{Kind, machine};
use measure::{Row, measure};
use std::alloc::Global;
use std::io;
use std::time::Clock;

mod machines;
mod measure;

// The numbers of states where times are asked for, and where not.
const MANY: [u16; 2] = [256, 1024];

const FEW: [u16; 2] = [4, 8];

const LETTERS: u16 = 8;

// What the calls took on a machine of this kind.
fn row(
    rt: &impl Clock,
    alloc: Global,
    kind: Kind,
    states: u16,
    letters: u16,
) -> Result<Row, NoMemory>
    requires { (1 ≤ letters) × (letters ≤ 64) }
{
    let m = machine(alloc, kind, states, letters)?;
    measure(rt, alloc, &m)
}

fn print_times(rt: &HostRuntime, row: &Row) -> io::Result<()> {
    println!(rt;
        "  canonical {} us, access words {} us, first alike {} us, renumbered {} us, separating {} us, separators {} us ({} words, the longest of {} letters)",
        row.canonical,
        row.access_words,
        row.first_alike,
        row.renumbered,
        row.separating,
        row.separators,
        row.words,
        row.longest
    )
}

// How often the times of the row before stand in these.
fn print_growth(rt: &HostRuntime, now: &Row, before: &Row) -> io::Result<()> {
    println!(rt;
        "  growth: canonical {}, access words {}, first alike {}, renumbered {}, separating {}, separators {}",
        now.canonical / before.canonical.max(1),
        now.access_words / before.access_words.max(1),
        now.first_alike / before.first_alike.max(1),
        now.renumbered / before.renumbered.max(1),
        now.separating / before.separating.max(1),
        now.separators / before.separators.max(1)
    )
}

fn print_kind(rt: &HostRuntime, kind: Kind, letters: u16) -> io::Result<()>
    requires { (1 ≤ letters) × (letters ≤ 64) }
{
    let mut before = None;
    for states in MANY {
        let Ok(now) = row(rt, rt.alloc(), kind, states, letters) else {
            return println!(rt; "no memory");
        };
        println!(rt; "{}, {states} states, {letters} letters", kind.name())?;
        print_times(rt, &now)?;
        if let Some(before) = before {
            print_growth(rt, &now, &before)?;
        }
        before = Some(now);
    }
    Ok(())
}

// The separators of small machines.
fn print_small(rt: &HostRuntime, kind: Kind) -> io::Result<()> {
    for states in FEW {
        let Ok(now) = row(rt, rt.alloc(), kind, states, LETTERS) else {
            return println!(rt; "no memory");
        };
        println!(rt;
            "{} {states}: the longest word has {} letters",
            kind.name(),
            now.longest
        )?;
    }
    Ok(())
}

fn main(rt: HostRuntime) -> io::Result<()> {
    if std::env::args(&rt)?.count() > 1 {
        print_kind(&rt, Kind::Drawn, 2)?;
        print_kind(&rt, Kind::Drawn, LETTERS)?;
        print_kind(&rt, Kind::Drawn, 64)?;
        print_kind(&rt, Kind::Counter, LETTERS)?;
        print_kind(&rt, Kind::Ladder, LETTERS)
    } else {
        print_small(&rt, Kind::Counter)?;
        print_small(&rt, Kind::Ladder)
    }
}

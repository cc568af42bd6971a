//! Turns of a desk's actors, for the tests: what each asks, what it is told, and what it holds then.

use crate::tests::desk::trial::Trial;
use crate::tests::{names, word, words};
use lw_desk::{Ask, Failed, Give, Places};
use lw_names::{Named, OutName};
use lw_words::{RunStop, SulStop};
use std::alloc::Global;
use std::process::Abort;

/// An answer that is given to a place, with the names that it brings.
#[derive(Drop)]
pub struct Given {
    pub place: u32,
    pub outs: &'static [u16],
    pub run: u64,
    pub brought: &'static [&'static str],
}

/// An actor's ask, what it is told, and what it holds then. It is told whether nothing was left, whether the desk was
/// stopped, and how many places are left.
pub struct Turn {
    pub actor: u32,
    pub gives: &'static [Given],
    pub fails: Option<(u32, u32)>,
    pub wanted: u32,
    pub told: (bool, bool, u32),
    pub held: &'static [u32],
}

/// The first actor wants one place, and is told that no other one is left.
pub const WANTS: Turn = Turn {
    actor: 0,
    gives: &[],
    fails: None,
    wanted: 1,
    told: (false, false, 0),
    held: &[],
};

pub fn give(rt: &impl Abort, alloc: Global, given: &Given) -> Give {
    let mut names = Named::new(alloc);
    for name in given.brought {
        let name = OutName::new(name).expect(rt, "a name");
        names.push(name).expect(rt, "memory");
    }
    Give {
        place: given.place,
        outs: word(rt, alloc, given.outs),
        names,
        run: given.run,
    }
}

/// What it fails, if anything.
fn failed(fails: Option<(u32, u32)>) -> Option<Failed> {
    let (first, second) = fails?;
    let mut places = Places::new();
    places.push(first);
    places.push(second);
    Some(Failed {
        places,
        stop: RunStop::Sul(SulStop::Failed),
    })
}

fn ask(rt: &impl Abort, alloc: Global, turn: &Turn) -> Ask {
    let mut gives = Vec::new(alloc);
    for given in turn.gives {
        gives.push(give(rt, alloc, given)).expect(rt, "memory");
    }
    Ask {
        gives,
        failed: failed(turn.fails),
        wanted: turn.wanted,
    }
}

fn are_same(places: &[u32], expected: &[u32]) -> bool {
    places == expected
}

/// How many of the turns, from the first on, go as they say.
pub fn taken(rt: &impl Abort, alloc: Global, desk: &mut Trial, turns: &[Turn]) -> usize {
    for (i, turn) in turns.iter().enumerate() {
        let told = desk.ask(rt, turn.actor, ask(rt, alloc, turn));
        if told != turn.told || !are_same(desk.held(turn.actor as usize), turn.held) {
            return i;
        }
    }
    turns.len()
}

/// A desk whose outputs have these names.
pub fn declared(
    rt: &impl Abort,
    alloc: Global,
    outputs: &[&str],
    list: &[&[u16]],
    actors: u32,
) -> Trial {
    let names = names(rt, alloc, outputs);
    Trial::declared(rt, alloc, &names, words(rt, alloc, list), actors)
}

pub fn free(rt: &impl Abort, alloc: Global, list: &[&[u16]], actors: u32) -> Trial {
    Trial::free(rt, alloc, words(rt, alloc, list), actors)
}

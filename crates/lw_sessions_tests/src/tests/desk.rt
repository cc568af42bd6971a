//! What no clause says: that the calls succeed, and desks by hand.
mod left;
mod sorted;
mod trial;
mod turns;

use crate::tests::desk::trial::Trial;
use crate::tests::desk::turns::{Given, Turn, WANTS, declared, free, taken};
use lw_cache::{AskStop, Cache};
use lw_names::OutNames;
use lw_words::SulStop;
use std::alloc::Global;
use std::process::Abort;

/// Whether the recorded answer with this number is of this instance, in this run, with these outputs.
fn kept_is(cache: &Cache, i: usize, instance: u32, run: u64, outs: &[u16]) -> bool {
    if i >= cache.kept().len() {
        return false;
    }
    let kept = cache.kept().get(i);
    kept.instance == instance && kept.run == run && kept.outs.as_slice() == outs
}

/// Whether the name with this number is this text.
fn name_is(names: &OutNames, n: u16, text: &str) -> bool {
    n < names.len() && names.name(n).as_slice() == text.as_bytes()
}

/// Each actor holds a word, both are answered, and the answers clash.
static CLASH: [Turn; 6] = [
    Turn {
        told: (false, false, 1),
        held: &[0],
        ..WANTS
    },
    Turn {
        actor: 1,
        held: &[1],
        ..WANTS
    },
    Turn {
        gives: &[Given {
            place: 0,
            outs: &[0, 0, 0, 0],
            run: 0,
            brought: &[],
        }],
        wanted: 0,
        ..WANTS
    },
    Turn {
        actor: 1,
        gives: &[Given {
            place: 1,
            outs: &[0, 0, 1, 0],
            run: 0,
            brought: &[],
        }],
        wanted: 0,
        told: (false, true, 0),
        ..WANTS
    },
    Turn {
        told: (true, true, 0),
        ..WANTS
    },
    Turn {
        actor: 1,
        told: (true, true, 0),
        ..WANTS
    },
];

/// Whether both clashing answers are kept, and no more.
fn are_both_kept(cache: &Cache) -> bool {
    let first = kept_is(cache, 0, 0, 0, &[0, 0, 0, 0]);
    let second = kept_is(cache, 1, 1, 0, &[0, 0, 1, 0]);
    cache.kept().len() == 2 && first && second
}

/// Whether the two answers clash at their third place.
fn is_third_clash(stop: &Option<AskStop>) -> bool {
    match stop {
        Some(AskStop::Clash(clash)) => clash.first == 0 && clash.second == 1 && clash.place == 2,
        _ => false,
    }
}

/// Whether a desk leaves that.
fn leaves_clash(rt: &impl Abort, desk: Trial) -> bool {
    let (cache, names, stop) = desk.finish(rt);
    let named = !names.is_free() && name_is(&names, 1, "1");
    are_both_kept(&cache) && named && is_third_clash(&stop)
}

#[test]
fn a_clash_stops_the_desk(rt: HostRuntime) {
    let alloc = rt.alloc();
    let mut desk = declared(&rt, alloc, &["0", "1"], &[&[0, 0, 0, 0], &[0, 0, 0, 1]], 2);
    assert!(rt; taken(&rt, alloc, &mut desk, &CLASH) == 6);
    assert!(rt; leaves_clash(&rt, desk));
}

static LONGER_FIRST: [&[u16]; 7] = [
    &[0, 1],
    &[0, 1, 2],
    &[2],
    &[1, 1, 1],
    &[0],
    &[1, 1],
    &[3, 3],
];

static WANTS_ALL: [Turn; 1] = [Turn {
    wanted: 16,
    held: &[1, 3, 6, 2],
    ..WANTS
}];

#[test]
fn longer_words_come_first_and_then_smaller_places(rt: HostRuntime) {
    let alloc = rt.alloc();
    let mut desk = declared(&rt, alloc, &["0"], &LONGER_FIRST, 1);
    assert!(rt; taken(&rt, alloc, &mut desk, &WANTS_ALL) == 1);
}

static CLAIMED: [Turn; 3] = [
    Turn {
        held: &[1],
        ..WANTS
    },
    Turn {
        actor: 1,
        told: (true, false, 0),
        ..WANTS
    },
    Turn {
        gives: &[Given {
            place: 1,
            outs: &[0, 0],
            run: 5,
            brought: &[],
        }],
        told: (true, false, 0),
        ..WANTS
    },
];

/// Whether a desk leaves this answer first, and was not stopped.
fn leaves_one(rt: &impl Abort, desk: Trial) -> bool {
    let (cache, _, stop) = desk.finish(rt);
    kept_is(&cache, 0, 0, 5, &[0, 0]) && stop.is_none()
}

#[test]
fn a_word_that_begins_a_claimed_one_is_not_handed_out(rt: HostRuntime) {
    let alloc = rt.alloc();
    let mut desk = declared(&rt, alloc, &["0"], &[&[0], &[0, 1], &[]], 2);
    assert!(rt; taken(&rt, alloc, &mut desk, &CLAIMED) == 3);
    assert!(rt; leaves_one(&rt, desk));
}

static FAILING: [Turn; 3] = [
    Turn {
        wanted: 2,
        told: (false, false, 1),
        held: &[0, 1],
        ..WANTS
    },
    Turn {
        fails: Some((0, 1)),
        wanted: 0,
        told: (false, true, 1),
        ..WANTS
    },
    Turn {
        actor: 1,
        told: (true, true, 1),
        ..WANTS
    },
];

fn is_stop_of_first(stop: &Option<AskStop>) -> bool {
    match stop {
        Some(AskStop::Sul { instance, stop }) => {
            *instance == 0 && matches!(stop, SulStop::Failed)
        }
        _ => false,
    }
}

/// Whether a desk was stopped by the first actor's system, and leaves no answer.
fn leaves_none(rt: &impl Abort, desk: Trial) -> bool {
    let (cache, _, stop) = desk.finish(rt);
    cache.kept().len() == 0 && cache.nodes() == 0 && is_stop_of_first(&stop)
}

#[test]
fn who_fails_gives_its_places_up(rt: HostRuntime) {
    let alloc = rt.alloc();
    let mut desk = declared(&rt, alloc, &["0"], &[&[0], &[1], &[2]], 2);
    assert!(rt; taken(&rt, alloc, &mut desk, &FAILING) == 3);
    assert!(rt; leaves_none(&rt, desk));
}

static SHARING: [Turn; 4] = [
    Turn {
        told: (false, false, 1),
        held: &[0],
        ..WANTS
    },
    Turn {
        actor: 1,
        held: &[1],
        ..WANTS
    },
    Turn {
        gives: &[Given {
            place: 0,
            outs: &[0, 1],
            run: 0,
            brought: &["x", "y"],
        }],
        told: (true, false, 0),
        ..WANTS
    },
    Turn {
        actor: 1,
        gives: &[Given {
            place: 1,
            outs: &[0, 1],
            run: 0,
            brought: &["y", "x"],
        }],
        told: (true, false, 0),
        ..WANTS
    },
];

/// Whether there are two free names, in the order in which they came.
fn are_in_order(names: &OutNames) -> bool {
    let both = name_is(names, 0, "x") && name_is(names, 1, "y");
    names.is_free() && names.len() == 2 && both
}

/// Whether a desk leaves them, and each answer with the shared numbers.
fn leaves_shared(rt: &impl Abort, desk: Trial) -> bool {
    let (cache, names, _) = desk.finish(rt);
    let first = kept_is(&cache, 0, 0, 0, &[0, 1]);
    let second = kept_is(&cache, 1, 1, 0, &[1, 0]);
    are_in_order(&names) && first && second
}

#[test]
fn free_names_are_shared(rt: HostRuntime) {
    let alloc = rt.alloc();
    let mut desk = free(&rt, alloc, &[&[0, 0], &[1, 1]], 2);
    assert!(rt; taken(&rt, alloc, &mut desk, &SHARING) == 4);
    assert!(rt; leaves_shared(&rt, desk));
}

static GIVING_BOTH: [Turn; 2] = [
    Turn {
        wanted: 3,
        held: &[0, 1],
        ..WANTS
    },
    Turn {
        gives: &[
            Given {
                place: 0,
                outs: &[0, 0],
                run: 0,
                brought: &["x"],
            },
            Given {
                place: 1,
                outs: &[1],
                run: 1,
                brought: &["y"],
            },
        ],
        told: (true, false, 0),
        ..WANTS
    },
];

/// Whether a desk leaves both answers and both names, and was not stopped.
fn leaves_both(rt: &impl Abort, desk: Trial) -> bool {
    let (cache, names, stop) = desk.finish(rt);
    let first = kept_is(&cache, 0, 0, 0, &[0, 0]);
    let second = kept_is(&cache, 1, 0, 1, &[1]);
    cache.kept().len() == 2 && names.len() == 2 && first && second && stop.is_none()
}

#[test]
fn several_answers_in_one_ask(rt: HostRuntime) {
    let alloc = rt.alloc();
    let mut desk = free(&rt, alloc, &[&[0, 0], &[1]], 1);
    assert!(rt; taken(&rt, alloc, &mut desk, &GIVING_BOTH) == 2);
    assert!(rt; leaves_both(&rt, desk));
}

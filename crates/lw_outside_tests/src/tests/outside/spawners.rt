//! Spawners in memory through their trait, by hand.
ghost use Rattle.std.specs.Prelude.{◌≡◌, []};

use super::links::{sends, starts, takes};
use super::player::ring_of_three;
use crate::tests::scripts;
use lw_outside::{Link, MemorySpawner, Spawner, StartStop, Transcript};
use std::alloc::Global;
use std::process::Abort;

/// A spawner of links to children that play the ring, of whose starts these fail.
fn served(rt: &impl Abort, alloc: Global, plan: &[u64]) -> MemorySpawner {
    let m = ring_of_three(rt, alloc);
    let plan = plan.to_vec(alloc).expect(rt, "memory");
    MemorySpawner::serving(alloc, m, 100, plan, Vec::new(alloc)).expect(rt, "memory")
}

/// A spawner of links to two children, of which the first says `a` and the second `b`.
fn scripted(rt: &impl Abort, alloc: Global) -> MemorySpawner
    ensures { result.retired ≡ [] }
{
    let two = scripts(rt, alloc, &[b"a", b"b"]);
    let (starts, plans) = (Vec::new(alloc), Vec::new(alloc));
    MemorySpawner::scripted(alloc, two, 100, starts, plans).expect(rt, "memory")
}

/// What a start is refused for, if it is.
fn refusal<P: Spawner>(
    rt: &impl Abort,
    alloc: Global,
    spawner: &mut P,
    name: &str,
) -> Option<StartStop> {
    starts(rt, alloc, spawner, name).err()
}

/// Whether a start is noted at this place, with its name as its one word.
fn noted(spawner: &MemorySpawner, place: usize, name: &str) -> bool {
    match spawner.started().get(place) {
        Some(words) => words.len() == 1 && words[0].as_str() == name,
        None => false,
    }
}

fn went_over(transcript: &Transcript, sent: &str, received: &str) -> bool {
    transcript.sent.get().as_slice() == sent.as_bytes()
        && transcript.received.get().as_slice() == received.as_bytes()
}

/// Whether this went over the link that was retired at this place.
fn retired(spawner: &MemorySpawner, place: usize, sent: &str, received: &str) -> bool {
    match spawner.retired().get(place) {
        Some(transcript) => went_over(transcript, sent, received),
        None => false,
    }
}

/// Whether the starts with these names end so, and are noted in their order.
fn start_so<P: Spawner>(
    rt: &impl Abort,
    alloc: Global,
    spawner: &mut P,
    starts: &[(&str, Option<StartStop>)],
) -> bool {
    for (name, stop) in starts {
        if refusal(rt, alloc, spawner, name) != *stop {
            return false;
        }
    }
    true
}

/// Whether these names, and no others, are noted in their order.
fn all_noted(spawner: &MemorySpawner, names: &[(&str, Option<StartStop>)]) -> bool {
    for (place, (name, _)) in names.iter().enumerate() {
        if !noted(spawner, place, name) {
            return false;
        }
    }
    spawner.started().len() == names.len()
}

static SECOND_FAILS: [(&str, Option<StartStop>); 3] = [
    ("first", None),
    ("second", Some(StartStop::Failed)),
    ("third", None),
];

static THIRD_FAILS: [(&str, Option<StartStop>); 3] = [
    ("first", None),
    ("second", None),
    ("third", Some(StartStop::Failed)),
];

/// Whether the second start fails where that is planned, and is noted.
fn second_fails(rt: &impl Abort, alloc: Global) -> bool {
    let mut spawner = served(rt, alloc, &[1]);
    start_so(rt, alloc, &mut spawner, &SECOND_FAILS) && all_noted(&spawner, &SECOND_FAILS)
}

/// Whether the third start of two scripts fails, and is noted.
fn third_fails(rt: &impl Abort, alloc: Global) -> bool {
    let mut spawner = scripted(rt, alloc);
    start_so(rt, alloc, &mut spawner, &THIRD_FAILS) && all_noted(&spawner, &THIRD_FAILS)
}

#[test]
fn planned_starts_fail(rt: HostRuntime) {
    assert!(rt; second_fails(&rt, rt.alloc()));
}

#[test]
fn starts_past_the_last_script_fail(rt: HostRuntime) {
    assert!(rt; third_fails(&rt, rt.alloc()));
}

/// Whether the first link says `a` and the second, to which a byte is sent, `b`.
fn say_two<L: Link>(first: &mut L, second: &mut L) -> bool
    ensures { ((L.state first.new).number ≡ (L.state first.old).number) ×
        ((L.state second.new).number ≡ (L.state second.old).number) }
{
    let sent = sends(second, "?");
    let last = takes(second, "b");
    let before = takes(first, "a");
    sent && last && before
}

/// Two links, of which the second is retired first.
fn use_two<P: Spawner>(rt: &impl Abort, alloc: Global, spawner: &mut P) -> bool
    requires { (P.state spawner.old).retired ≡ [] }
{
    let mut first = starts(rt, alloc, spawner, "first").expect(rt, "a link");
    let mut second = starts(rt, alloc, spawner, "second").expect(rt, "a link");
    let said = say_two(&mut first, &mut second);
    spawner.retire(second);
    spawner.retire(first);
    said
}

/// Whether two links are kept in the order of their retirement.
fn two_are_kept(rt: &impl Abort, alloc: Global) -> bool {
    let mut spawner = scripted(rt, alloc);
    let said = use_two(rt, alloc, &mut spawner);
    said && retired(&spawner, 0, "?", "b")
        && retired(&spawner, 1, "", "a")
        && spawner.retired().len() == 2
}

#[test]
fn links_are_kept_in_the_order_of_their_retirement(rt: HostRuntime) {
    assert!(rt; two_are_kept(&rt, rt.alloc()));
}

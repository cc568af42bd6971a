//! Links in memory through their trait, by hand.
ghost use Rattle.std.specs.Prelude.{◌≡◌, ◌+◌, IfOk, OnOk};

use super::player::ring_of_three;
use crate::tests::scripts;
use lw_outside::{Link, MemoryLink, MemorySpawner, Spawner, StartStop};
use std::alloc::Global;
use std::process::Abort;

/// What is asked of a link, and how it is to go.
enum Turn {
    Sends(&'static str),
    RefusesSend(&'static str),
    /// Into a buffer of eight bytes.
    Takes(&'static str),
    RefusesTake,
}

use Turn::{RefusesSend, RefusesTake, Sends, Takes};

/// Whether a text, which is not empty, is sent.
pub(super) fn sends<L: Link>(link: &mut L, text: &str) -> bool
    ensures { (L.state link.new).number ≡ (L.state link.old).number }
{
    if text.is_empty() {
        return false;
    }
    link.send(text.as_bytes()).is_ok()
}

/// Whether a take into a buffer of eight bytes gives this text.
pub(super) fn takes<L: Link>(link: &mut L, text: &str) -> bool
    ensures { (L.state link.new).number ≡ (L.state link.old).number }
{
    let mut buffer = [0u8; 8];
    match link.take(&mut buffer) {
        Ok(count) => &buffer[..count] == text.as_bytes(),
        Err(_) => false,
    }
}

/// Whether a take fails.
fn refuses_take<L: Link>(link: &mut L) -> bool {
    let mut buffer = [0u8; 8];
    link.take(&mut buffer).is_err()
}

fn goes<L: Link>(link: &mut L, turn: &Turn) -> bool {
    match turn {
        Sends(text) => sends(link, text),
        RefusesSend(text) => !sends(link, text),
        Takes(text) => takes(link, text),
        RefusesTake => refuses_take(link),
    }
}

/// Whether each turn goes as it is to.
fn all_go<L: Link>(link: &mut L, turns: &[Turn]) -> bool {
    for turn in turns {
        if !goes(link, turn) {
            return false;
        }
    }
    true
}

/// Starts a link to the program of this name.
pub(super) fn starts<P: Spawner>(
    rt: &impl Abort,
    alloc: Global,
    spawner: &mut P,
    name: &str,
) -> Result<P::Link, StartStop>
    ensures number { IfOk result (λ l. (P.Link.state l).number ≡ (P.state spawner.old).started) }
    ensures more { OnOk result ((P.state spawner.new).started ≡ (P.state spawner.old).started +
        1) }
    ensures retired { (P.state spawner.new).retired ≡ (P.state spawner.old).retired }
{
    let mut words = Vec::with_capacity(alloc, 1).expect(rt, "memory");
    words.push_reserved(String::from_str(alloc, name).expect(rt, "memory"));
    spawner.start(&words)
}

/// The one plan of this list.
fn only(rt: &impl Abort, alloc: Global, plan: &[u64]) -> Vec<Vec<u64>> {
    let mut plans = Vec::new(alloc);
    let plan = Vec::from_slice(alloc, plan).expect(rt, "memory");
    plans.push(plan).expect(rt, "memory");
    plans
}

/// A link to a child that plays the ring, with this room, of which these calls fail.
fn served(rt: &impl Abort, alloc: Global, room: usize, plan: &[u64]) -> MemoryLink {
    let plans = only(rt, alloc, plan);
    let m = ring_of_three(rt, alloc);
    let served = MemorySpawner::serving(alloc, m, room, Vec::new(alloc), plans);
    let mut spawner = served.expect(rt, "memory");
    starts(rt, alloc, &mut spawner, "ring").expect(rt, "a link")
}

/// A link to a child that says this text, with this room, of which these calls fail.
fn scripted(rt: &impl Abort, alloc: Global, text: &str, room: usize, plan: &[u64]) -> MemoryLink {
    let plans = only(rt, alloc, plan);
    let one = scripts(rt, alloc, &[text.as_bytes()]);
    let scripted = MemorySpawner::scripted(alloc, one, room, Vec::new(alloc), plans);
    let mut spawner = scripted.expect(rt, "memory");
    starts(rt, alloc, &mut spawner, "script").expect(rt, "a link")
}

/// Whether all turns go as they are to, at a new link to a child that plays the ring.
fn ring_goes(rt: &impl Abort, alloc: Global, room: usize, plan: &[u64], turns: &[Turn]) -> bool {
    let mut link = served(rt, alloc, room, plan);
    all_go(&mut link, turns)
}

/// Whether all turns go as they are to, at a new link to a child that says `ready` and `out 0`.
fn script_goes(rt: &impl Abort, alloc: Global, room: usize, plan: &[u64], turns: &[Turn]) -> bool {
    let mut link = scripted(rt, alloc, "ready\nout 0\n", room, plan);
    all_go(&mut link, turns)
}

static LINE_BY_LINE: [Turn; 10] = [
    Sends("reset\n"),
    Takes("ready\n"),
    Sends("in t\n"),
    Takes("out 0\n"),
    Sends("in t\n"),
    Takes("out 0\n"),
    Sends("quit\n"),
    Takes(""),
    Sends("reset\n"),
    Takes(""),
];

static AT_ONCE: [Turn; 5] = [
    Sends("reset\nin t\r\nin t\nquit\nreset\n"),
    Takes("ready\nou"),
    Takes("t 0\nout "),
    Takes("0\n"),
    Takes(""),
];

static IN_PARTS: [Turn; 7] = [
    Takes(""),
    Sends("res"),
    Takes(""),
    Sends("et\nin"),
    Takes("ready\n"),
    Sends(" t\n"),
    Takes("out 0\n"),
];

static BAD_LINE: [Turn; 4] = [
    Sends("in t\nin z\nin t\n"),
    Takes("out 0\n"),
    Takes(""),
    Takes(""),
];

static LITTLE_ROOM: [Turn; 5] = [
    Sends("reset\n"),
    RefusesSend("in t\n"),
    Takes("read"),
    RefusesTake,
    RefusesSend("\n"),
];

#[test]
fn a_served_child_answers_line_by_line(rt: HostRuntime) {
    assert!(rt; ring_goes(&rt, rt.alloc(), 100, &[], &LINE_BY_LINE));
}

#[test]
fn a_served_child_answers_at_once(rt: HostRuntime) {
    assert!(rt; ring_goes(&rt, rt.alloc(), 100, &[], &AT_ONCE));
}

#[test]
fn a_served_child_waits_for_whole_lines(rt: HostRuntime) {
    assert!(rt; ring_goes(&rt, rt.alloc(), 100, &[], &IN_PARTS));
}

#[test]
fn a_bad_line_ends_a_served_child(rt: HostRuntime) {
    assert!(rt; ring_goes(&rt, rt.alloc(), 100, &[], &BAD_LINE));
}

#[test]
fn a_link_fails_past_its_room(rt: HostRuntime) {
    assert!(rt; ring_goes(&rt, rt.alloc(), 10, &[], &LITTLE_ROOM));
}

static WHATEVER_IS_SENT: [Turn; 5] = [
    Takes("ready\nou"),
    Sends("?"),
    Takes("t 0\n"),
    Takes(""),
    Takes(""),
];

static FIRST_AND_THIRD_FAIL: [Turn; 4] = [
    RefusesSend("reset\n"),
    Sends("reset\n"),
    RefusesTake,
    Takes("ready\nou"),
];

static JUST_ENOUGH: [Turn; 4] = [
    Takes("ready\nou"),
    Takes("t 0\n"),
    Takes(""),
    RefusesSend("?"),
];

#[test]
fn a_script_is_said_whatever_is_sent(rt: HostRuntime) {
    assert!(rt; script_goes(&rt, rt.alloc(), 100, &[], &WHATEVER_IS_SENT));
}

#[test]
fn a_link_fails_by_its_plan(rt: HostRuntime) {
    assert!(rt; script_goes(&rt, rt.alloc(), 100, &[0, 2], &FIRST_AND_THIRD_FAIL));
}

#[test]
fn a_full_link_still_tells_its_end(rt: HostRuntime) {
    assert!(rt; script_goes(&rt, rt.alloc(), 12, &[], &JUST_ENOUGH));
}

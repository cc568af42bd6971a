//! A child that plays a machine, line by line.
use crate::tests::machine;
use lw_json::Machine;
use lw_outside::{AnswerLine, Player, Reply};
use std::alloc::Global;
use std::process::Abort;

/// A machine of three states in a ring, of which the last says 1.
pub(super) fn ring_of_three(rt: &impl Abort, alloc: Global) -> Machine {
    let text = br#"{"inputs":["t"],"outputs":["0","1"],"states":[[[1,"0"]],[[2,"0"]],[[0,"1"]]]}"#;
    machine(rt, alloc, text)
}

static TURNS: [(&str, Reply); 10] = [
    ("in t", Reply::Out(0)),
    ("in t\r", Reply::Out(0)),
    ("reset\r", Reply::Ready),
    ("in t", Reply::Out(0)),
    ("in t", Reply::Out(0)),
    ("in t", Reply::Out(1)),
    ("in t", Reply::Out(0)),
    ("reset", Reply::Ready),
    ("in t", Reply::Out(0)),
    ("quit", Reply::Quit),
];

static UNKNOWN: [&str; 12] = [
    "",
    "\r",
    "in",
    "in ",
    "in z",
    "in t ",
    "in  t",
    " in t",
    "IN t",
    "reset\r\r",
    "resets",
    "out 0",
];

/// Whether a new player's replies to some lines are these.
fn replies(m: &Machine, turns: &[(&str, Reply)]) -> bool {
    let _initial = m.mealy.initial();
    let mut player = Player::new();
    for (line, expected) in turns {
        if player.reply(m, line.as_bytes()) != *expected {
            return false;
        }
    }
    true
}

/// Whether a new player refuses a line.
fn refuses(m: &Machine, line: &str) -> bool {
    let _initial = m.mealy.initial();
    Player::new().reply(m, line.as_bytes()) == Reply::Refused
}

#[test]
fn a_player_replies_to_lines(rt: HostRuntime) {
    let m = ring_of_three(&rt, rt.alloc());
    assert!(rt; replies(&m, &TURNS));
}

#[test]
fn a_player_refuses_other_lines(rt: HostRuntime) {
    let m = ring_of_three(&rt, rt.alloc());
    for line in &UNKNOWN {
        assert!(rt; refuses(&m, line), "{line:?}");
    }
}

/// Whether the answer with output 1 is this line.
fn says_one(m: &Machine, text: &str) -> bool {
    m.outputs.len() > 1 && AnswerLine::out(m, 1).as_slice() == text.as_bytes()
}

#[test]
fn answers_are_lines(rt: HostRuntime) {
    let m = ring_of_three(&rt, rt.alloc());
    assert!(rt; AnswerLine::ready().as_slice() == b"ready\n".as_slice());
    assert!(rt; says_one(&m, "out 1\n"));
}

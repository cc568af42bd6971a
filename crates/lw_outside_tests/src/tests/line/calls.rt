//! Which calls a system makes of its link.

use super::asking::{Ending, declared, ends};
use super::scripted::{Call, Script, ScriptedLink};
use std::alloc::Global;
use std::process::Abort;

/// The link after a reset and two letters.
fn after_two(rt: &impl Abort, alloc: Global, piece: usize) -> ScriptedLink {
    let script = Script {
        text: b"ready\nout 0\nout 1\n",
        piece,
        fails: None,
    };
    let mut sul = declared(rt, alloc, script);
    assert!(rt; ends(&mut sul, &[0, 1], Ending::Answered));
    sul.into_link()
}

/// Whether these are the calls, where so many bytes come at a time.
fn calls_so(rt: &impl Abort, alloc: Global, piece: usize, calls: &[Call]) -> bool {
    let link = after_two(rt, alloc, piece);
    link.sent() == b"reset\nin t\nin t\n".as_slice() && link.calls() == calls
}

#[test]
fn each_line_is_sent_by_one_call(rt: HostRuntime) {
    let calls = [Call::Send(6), Call::Take(256), Call::Send(5), Call::Send(5)];
    assert!(rt; calls_so(&rt, rt.alloc(), 256, &calls));
}

#[test]
fn a_take_offers_the_free_rest(rt: HostRuntime) {
    let calls = [
        Call::Send(6),
        Call::Take(256),
        Call::Take(252),
        Call::Send(5),
        Call::Take(254),
        Call::Send(5),
        Call::Take(256),
        Call::Take(252),
    ];
    assert!(rt; calls_so(&rt, rt.alloc(), 4, &calls));
}

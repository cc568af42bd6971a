//! Words that are asked over links in memory.
ghost use Rattle.lw_outside.specs.Links.{IsUntouched};

use super::streams::counter;
use crate::tests::{names, scripts};
use lw_line::LineSul;
use lw_outside::{Link, MemorySpawner, Spawner};
use lw_sul::Session;
use lw_words::Word;
use std::alloc::Global;
use std::process::Abort;

/// Whether a session over a link to a counter answers a word, which is then its one run.
fn asks<L: Link + Drop>(rt: &impl Abort, alloc: Global, link: L) -> bool
    requires { IsUntouched (L.state link).transcript }
{
    let inputs = names(rt, alloc, &["t"]);
    let outputs = names(rt, alloc, &["0", "1"]);
    let mut session = Session::new(alloc, 0, LineSul::new(link, inputs, outputs));
    answers(rt, alloc, &mut session)
}

fn answers<L: Link + Drop>(
    rt: &impl Abort,
    alloc: Global,
    session: &mut Session<LineSul<L>>,
) -> bool {
    assert!(rt; session.inputs() > 0);
    let letters = [0u16, 0, 0].to_vec(alloc).expect(rt, "memory");
    match session.ask(&Word::from_letters(alloc, letters)) {
        Ok(answer) => answer.as_slice() == [0u16, 0, 1].as_slice() && session.runs() == 1,
        Err(_) => false,
    }
}

/// A link to a child that was started.
pub fn started<P: Spawner>(rt: &impl Abort, alloc: Global, spawner: &mut P) -> P::Link
    ensures { IsUntouched (P.Link.state result).transcript }
{
    let words = [String::from_str(alloc, "child").expect(rt, "memory")];
    spawner.start(&words).expect(rt, "a child")
}

fn asks_a_child<P: Spawner>(rt: &impl Abort, alloc: Global, spawner: &mut P) -> bool {
    asks(rt, alloc, started(rt, alloc, spawner))
}

/// A spawner of children that play the counter.
fn players(rt: &impl Abort, alloc: Global) -> MemorySpawner {
    let machine = counter(rt, alloc);
    MemorySpawner::serving(alloc, machine, 256, Vec::new(alloc), Vec::new(alloc)).expect(
        rt, "memory",
    )
}

/// A spawner of one child that says this and then ends.
pub fn speaker(rt: &impl Abort, alloc: Global, text: &[u8]) -> MemorySpawner {
    let one = scripts(rt, alloc, &[text]);
    MemorySpawner::scripted(alloc, one, 512, Vec::new(alloc), Vec::new(alloc)).expect(rt, "memory")
}

#[test]
fn a_served_machine_is_asked(rt: HostRuntime) {
    let mut spawner = players(&rt, rt.alloc());
    assert!(rt; asks_a_child(&rt, rt.alloc(), &mut spawner));
}

#[test]
fn a_script_is_asked(rt: HostRuntime) {
    let mut spawner = speaker(&rt, rt.alloc(), b"ready\nout 0\nout 0\nout 1\n");
    assert!(rt; asks_a_child(&rt, rt.alloc(), &mut spawner));
}

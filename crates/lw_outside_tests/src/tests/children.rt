//! What no clause says: that children are started where there is memory, by hand, and learned over.
ghost use Rattle.std.specs.Prelude.{◌≡◌, ◌<◌, length};

use crate::tests::{names, scripts};
use lw_children::start_all;
use lw_json::{Command, Texts};
use lw_outside::MemorySpawner;
use lw_words::Names;
use std::alloc::Global;
use std::process::Abort;

mod learnings;

/// The command `sys`, over the letter `t`, with these outputs or none declared.
fn command(rt: &impl Abort, alloc: Global, outputs: Option<Names>) -> Command
    ensures words { 0 < length result.words }
    ensures outputs { result.outputs ≡ outputs }
{
    let mut words = Vec::new(alloc);
    let program = String::from_str(alloc, "sys").expect(rt, "memory");
    words.push(program).expect(rt, "memory");
    Command {
        words: Texts::new(words),
        inputs: names(rt, alloc, &["t"]),
        outputs,
    }
}

/// A spawner of two children that say this and then end; the start of this number fails.
fn speakers(rt: &impl Abort, alloc: Global, text: &[u8], failing: u64) -> MemorySpawner {
    let two = scripts(rt, alloc, &[text, text]);
    let plan = Vec::from_slice(alloc, &[failing]).expect(rt, "memory");
    MemorySpawner::scripted(alloc, two, 256, plan, Vec::new(alloc)).expect(rt, "memory")
}

/// Starts two children, and counts those that were started.
fn start_two(alloc: Global, spawner: &mut MemorySpawner, command: &Command) -> usize
    requires { 0 < length command.now.words }
{
    match start_all(alloc, spawner, command, 2) {
        Ok(sessions) => sessions.len(),
        Err(broken) => broken.sessions.len(),
    }
}

/// How many of two children are started, where the start of this number fails.
fn started(rt: &impl Abort, alloc: Global, failing: u64) -> usize {
    let command = command(rt, alloc, None);
    let mut spawner = speakers(rt, alloc, b"", failing);
    start_two(alloc, &mut spawner, &command)
}

#[test]
fn children_are_started_up_to_a_failure(rt: HostRuntime) {
    assert!(rt; started(&rt, rt.alloc(), 9) == 2);
    assert!(rt; started(&rt, rt.alloc(), 1) == 1);
}

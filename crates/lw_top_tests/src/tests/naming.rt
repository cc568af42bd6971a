//! Children in memory whose outputs aren't declared: the lock controller, and rings of as many outputs as may be named and one more.
use crate::tests::cases::{Shell, check_play, files_of, stands};
use lw_json::read_machine;
use lw_outside::MemorySpawner;
use std::alloc::Global;
use std::process::Abort;
use std::sync::Wait;
use std::thread::Threads;

/// The controller of a door with a lock: four letters, nine outputs and twelve states.
const LOCK: &str =
    "{\"inputs\":[\"open\",\"close\",\"good\",\"bad\"],\"outputs\":[\"refused\",\"already\",\"free\",\"locked\",\"opened\",\"closed\",\"warn1\",\"warn2\",\"alarm\"],\"states\":[[[0,\"refused\"],[0,\"already\"],[1,\"free\"],[2,\"warn1\"]],[[3,\"opened\"],[1,\"already\"],[0,\"locked\"],[4,\"warn1\"]],[[2,\"refused\"],[2,\"already\"],[1,\"free\"],[5,\"warn2\"]],[[3,\"already\"],[1,\"closed\"],[6,\"locked\"],[7,\"warn1\"]],[[7,\"opened\"],[4,\"already\"],[0,\"locked\"],[8,\"warn2\"]],[[5,\"refused\"],[5,\"already\"],[1,\"free\"],[5,\"alarm\"]],[[6,\"already\"],[0,\"closed\"],[3,\"free\"],[9,\"warn1\"]],[[7,\"already\"],[4,\"closed\"],[6,\"locked\"],[10,\"warn2\"]],[[10,\"opened\"],[8,\"already\"],[0,\"locked\"],[8,\"alarm\"]],[[9,\"already\"],[2,\"closed\"],[3,\"free\"],[11,\"warn2\"]],[[10,\"already\"],[8,\"closed\"],[6,\"locked\"],[10,\"alarm\"]],[[11,\"already\"],[5,\"closed\"],[3,\"free\"],[11,\"alarm\"]]]}\n";

/// The same with its outputs in the order of their bytes.
const SORTED: &str =
    "{\"inputs\":[\"open\",\"close\",\"good\",\"bad\"],\"outputs\":[\"alarm\",\"already\",\"closed\",\"free\",\"locked\",\"opened\",\"refused\",\"warn1\",\"warn2\"],\"states\":[[[0,\"refused\"],[0,\"already\"],[1,\"free\"],[2,\"warn1\"]],[[3,\"opened\"],[1,\"already\"],[0,\"locked\"],[4,\"warn1\"]],[[2,\"refused\"],[2,\"already\"],[1,\"free\"],[5,\"warn2\"]],[[3,\"already\"],[1,\"closed\"],[6,\"locked\"],[7,\"warn1\"]],[[7,\"opened\"],[4,\"already\"],[0,\"locked\"],[8,\"warn2\"]],[[5,\"refused\"],[5,\"already\"],[1,\"free\"],[5,\"alarm\"]],[[6,\"already\"],[0,\"closed\"],[3,\"free\"],[9,\"warn1\"]],[[7,\"already\"],[4,\"closed\"],[6,\"locked\"],[10,\"warn2\"]],[[10,\"opened\"],[8,\"already\"],[0,\"locked\"],[8,\"alarm\"]],[[9,\"already\"],[2,\"closed\"],[3,\"free\"],[11,\"warn2\"]],[[10,\"already\"],[8,\"closed\"],[6,\"locked\"],[10,\"alarm\"]],[[11,\"already\"],[5,\"closed\"],[3,\"free\"],[11,\"alarm\"]]]}\n";

/// A child with the letters and the outputs of the lock.
const DECLARED: &str =
    "{\"command\":[\"sys\"],\"inputs\":[\"open\",\"close\",\"good\",\"bad\"],\"outputs\":[\"refused\",\"already\",\"free\",\"locked\",\"opened\",\"closed\",\"warn1\",\"warn2\",\"alarm\"]}\n";

/// A child with the letters of the lock.
const FREE: &str = "{\"command\":[\"sys\"],\"inputs\":[\"open\",\"close\",\"good\",\"bad\"]}\n";

/// A child with one letter.
const COIN: &str = "{\"command\":[\"sys\"],\"inputs\":[\"t\"]}\n";

/// Children that play the machine of this text.
fn players(rt: &impl Abort, alloc: Global, machine: &str) -> MemorySpawner {
    let machine = read_machine(alloc, machine.as_bytes()).expect(rt, "a machine");
    let (starts, links) = (Vec::new(alloc), Vec::new(alloc));
    MemorySpawner::serving(alloc, machine, 1_000_000, starts, links).expect(rt, "memory")
}

/// A call over children that play the machine of this text, and over the file `m`, their setup.
fn shell_over(
    rt: &impl Abort,
    alloc: Global,
    arguments: &[&str],
    setup: &str,
    machine: &str,
) -> Shell {
    let mut shell = Shell::new(rt, alloc, arguments, files_of(rt, alloc, setup, &[]));
    shell.world.spawner = players(rt, alloc, machine);
    shell
}

/// Checks a learning of the lock: the model is put to `out`, and the counts are those of the table.
fn check_lock<R: Abort + Threads + Wait + Sync + Copy + Drop>(
    rt: &R,
    alloc: Global,
    setup: &str,
    out: &str,
) {
    let mut shell = shell_over(rt, alloc, &["learn", "m"], setup, LOCK);
    let said = "learned: states 12, refinements 0, extra 1, answers 636\n";
    check_play(rt, alloc, &mut shell, 0, out, said);
}

#[test]
fn a_lock_whose_outputs_are_declared_and_one_whose_outputs_are_not(rt: HostRuntime) {
    for (setup, out) in [(DECLARED, LOCK), (FREE, SORTED)] {
        check_lock(&rt, rt.alloc(), setup, out);
    }
}

/// Puts the names of the outputs 0 to `last` to a text.
fn put_outputs(rt: &impl Abort, alloc: Global, text: &mut String, last: u16) {
    for number in 0..last {
        let name = format!(in alloc; "\"o{number:03}\",").expect(rt, "memory");
        text.push_str(name.as_str()).expect(rt, "memory");
    }
    let name = format!(in alloc; "\"o{last:03}\"").expect(rt, "memory");
    text.push_str(name.as_str()).expect(rt, "memory");
}

/// Puts the rows of the states 0 to `last` to a text: each leads to the next one, and the last to the first.
fn put_states(rt: &impl Abort, alloc: Global, text: &mut String, last: u16) {
    for number in 0..last {
        let row = format!(in alloc; "[[{},\"o{number:03}\"]],", number + 1).expect(rt, "memory");
        text.push_str(row.as_str()).expect(rt, "memory");
    }
    let row = format!(in alloc; "[[0,\"o{last:03}\"]]").expect(rt, "memory");
    text.push_str(row.as_str()).expect(rt, "memory");
}

/// The ring of the states 0 to `last`, each of which gives an output of its own.
fn ring(rt: &impl Abort, alloc: Global, last: u16) -> String {
    let mut text = String::from_str(alloc, "{\"inputs\":[\"t\"],\"outputs\":[").expect(
        rt, "memory",
    );
    put_outputs(rt, alloc, &mut text, last);
    text.push_str("],\"states\":[").expect(rt, "memory");
    put_states(rt, alloc, &mut text, last);
    text.push_str("]}\n").expect(rt, "memory");
    text
}

/// Whether the file `h` has this text.
fn has_written(shell: &Shell, text: &str) -> bool {
    stands(&shell.world.files, "h", text)
}

/// Whether a learning of a ring ends with this status and this text on `err`, and writes this model.
fn ends_with<R: Abort + Threads + Wait + Sync + Copy + Drop>(
    rt: &R,
    alloc: Global,
    machine: &str,
    status: u8,
    err: &str,
    written: bool,
) -> bool {
    let arguments = ["learn", "m", "--model", "h"];
    let mut shell = shell_over(rt, alloc, &arguments, COIN, machine);
    check_play(rt, alloc, &mut shell, status, "", err);
    has_written(&shell, machine) == written
}

#[test]
fn as_many_outputs_as_a_child_may_name(rt: HostRuntime) {
    let machine = ring(&rt, rt.alloc(), 255);
    let said = "learned: states 256, refinements 0, extra 1, answers 257\n";
    assert!(rt; ends_with(&rt, rt.alloc(), machine.as_str(), 0, said, true));
}

#[test]
fn one_output_more_than_a_child_may_name(rt: HostRuntime) {
    let machine = ring(&rt, rt.alloc(), 256);
    // "out o256"
    let said = "bad line: instance 0: 6f7574206f323536\n";
    assert!(rt; ends_with(&rt, rt.alloc(), machine.as_str(), 6, said, false));
}

//! A file of brackets alone, nested deeper than any file of the program, in each of its roles.
use crate::tests::cases::{ONE, check_call};
use lw_outside::MemoryFiles;
use std::alloc::Global;
use std::process::Abort;
use std::sync::Wait;
use std::thread::Threads;

/// Two hundred brackets, none of which is closed.
fn brackets(rt: &impl Abort, alloc: Global) -> Vec<u8> {
    let mut text = Vec::new(alloc);
    text.resize(200, b'[').expect(rt, "memory");
    text
}

/// The files `deep`, of brackets, and `m`, a machine.
fn files(rt: &impl Abort, alloc: Global) -> MemoryFiles {
    let machine = Vec::from_slice(alloc, ONE.as_bytes()).expect(rt, "memory");
    let mut files = Vec::new(alloc);
    for (name, bytes) in [("deep", brackets(rt, alloc)), ("m", machine)] {
        let name = String::from_str(alloc, name).expect(rt, "memory");
        files.push((name, bytes)).expect(rt, "memory");
    }
    MemoryFiles::new(alloc, files, Vec::new(alloc)).expect(rt, "memory")
}

/// Calls that read the file, with what is said of it.
static CALLS: [(&[&str], &str); 7] = [
    (&["learn", "--table", "deep"], "bad file table: not JSON\n"),
    (&["learn", "deep"], "bad file setup: not JSON\n"),
    (
        &["learn", "--table", "m", "--prior", "deep"],
        "bad file prior: not JSON\n",
    ),
    (&["check", "deep", "m"], "bad file model: not JSON\n"),
    (&["check", "m", "deep"], "bad file answers: not JSON\n"),
    (&["serve", "deep"], "bad file model: not JSON\n"),
    (
        &["compare", "m", "deep"],
        "bad file second model: not JSON\n",
    ),
];

/// Checks a call over the two files.
fn check<R: Abort + Threads + Wait + Sync + Copy + Drop>(
    rt: &R,
    alloc: Global,
    arguments: &[&str],
    err: &str,
) {
    check_call(rt, alloc, arguments, files(rt, alloc), 3, "", err);
}

#[test]
fn brackets_in_each_role(rt: HostRuntime) {
    for (arguments, err) in &CALLS {
        check(&rt, rt.alloc(), arguments, err);
    }
}

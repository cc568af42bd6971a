//! Files, children and streams in memory, of which some calls fail.
use lw_outside::{MemoryFiles, MemorySink, MemorySpawner};
use std::alloc::Global;
use std::process::Abort;

/// A copy of the numbers of the calls that fail.
pub fn plan(rt: &impl Abort, alloc: Global, failing: &[u64]) -> Vec<u64> {
    Vec::from_slice(alloc, failing).expect(rt, "memory")
}

pub fn string(rt: &impl Abort, alloc: Global, text: &str) -> String {
    String::from_str(alloc, text).expect(rt, "memory")
}

/// A file with its name.
fn file(rt: &impl Abort, alloc: Global, name: &str, text: &str) -> (String, Vec<u8>) {
    let bytes = Vec::from_slice(alloc, text.as_bytes()).expect(rt, "memory");
    (string(rt, alloc, name), bytes)
}

/// The files of these names and texts.
pub fn files(
    rt: &impl Abort,
    alloc: Global,
    texts: &[(&str, &str)],
    failing: &[u64],
) -> MemoryFiles {
    let mut held = Vec::new(alloc);
    for (name, text) in texts {
        held.push(file(rt, alloc, name, text)).expect(rt, "memory");
    }
    MemoryFiles::new(alloc, held, plan(rt, alloc, failing)).expect(rt, "memory")
}

/// A spawner whose one child says the script.
pub fn spawner(rt: &impl Abort, alloc: Global, script: &str, failing: &[u64]) -> MemorySpawner {
    let mut scripts = Vec::new(alloc);
    let script = Vec::from_slice(alloc, script.as_bytes()).expect(rt, "memory");
    scripts.push(script).expect(rt, "memory");
    let starts = plan(rt, alloc, failing);
    MemorySpawner::scripted(alloc, scripts, 4096, starts, Vec::new(alloc)).expect(rt, "memory")
}

/// A stream that takes seven bytes at most a put.
pub fn sink(rt: &impl Abort, alloc: Global, failing: &[u64]) -> MemorySink {
    MemorySink::new(alloc, 20_000, 7, plan(rt, alloc, failing)).expect(rt, "memory")
}

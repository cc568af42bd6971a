//! A module for each crate that is tested, and what they share.

mod acceptors;
mod children;
mod json_files;
mod line;
mod log;
mod outside;
mod prior;
mod report;
mod serve;
mod views;
mod walks;
mod wordlist;

use lw_json::{Machine, machine_text, read_machine};
use lw_outside::{MemoryFiles, MemorySink, MemorySource};
use lw_words::{Line, Names};
use std::alloc::Global;
use std::process::Abort;

/// These texts, one after another.
fn texts(rt: &impl Abort, alloc: Global, list: &[&str]) -> Vec<String> {
    let mut texts = Vec::new(alloc);
    for text in list {
        let text = String::from_str(alloc, text).expect(rt, "memory");
        texts.push(text).expect(rt, "memory");
    }
    texts
}

fn names(rt: &impl Abort, alloc: Global, list: &[&str]) -> Names {
    Names::from_list(alloc, &texts(rt, alloc, list)).expect(rt, "names")
}

/// These texts, one after another, as bytes.
fn scripts(rt: &impl Abort, alloc: Global, list: &[&[u8]]) -> Vec<Vec<u8>> {
    let mut scripts = Vec::new(alloc);
    for bytes in list {
        let script = Vec::from_slice(alloc, bytes).expect(rt, "memory");
        scripts.push(script).expect(rt, "memory");
    }
    scripts
}

/// The machine of a file's bytes.
fn machine(rt: &impl Abort, alloc: Global, bytes: &[u8]) -> Machine {
    read_machine(alloc, bytes).expect(rt, "a machine")
}

/// What is written of a machine.
fn written(rt: &impl Abort, alloc: Global, machine: &Machine) -> Vec<u8> {
    machine_text(alloc, machine).expect(rt, "memory")
}

/// Puts a name and its text to a list.
fn put_file(
    rt: &impl Abort,
    alloc: Global,
    files: &mut Vec<(String, Vec<u8>)>,
    name: &str,
    text: &str,
) {
    let name = String::from_str(alloc, name).expect(rt, "memory");
    let bytes = Vec::from_slice(alloc, text.as_bytes()).expect(rt, "memory");
    files.push((name, bytes)).expect(rt, "memory");
}

/// Names and their texts.
fn named(rt: &impl Abort, alloc: Global, list: &[(&str, &str)]) -> Vec<(String, Vec<u8>)> {
    let mut files = Vec::new(alloc);
    for (name, text) in list {
        put_file(rt, alloc, &mut files, name, text);
    }
    files
}

/// Files of these names and texts, of which the calls of the plan fail.
fn files_of(rt: &impl Abort, alloc: Global, list: &[(&str, &str)], plan: &[u64]) -> MemoryFiles {
    let files = named(rt, alloc, list);
    let plan = Vec::from_slice(alloc, plan).expect(rt, "memory");
    MemoryFiles::new(alloc, files, plan).expect(rt, "memory")
}

/// A source of these bytes, so many at most a read, of which the calls of the plan fail.
fn source_of(
    rt: &impl Abort,
    alloc: Global,
    input: &[u8],
    piece: usize,
    plan: &[u64],
) -> MemorySource {
    assert!(rt; piece > 0);
    let bytes = Vec::from_slice(alloc, input).expect(rt, "memory");
    let plan = Vec::from_slice(alloc, plan).expect(rt, "memory");
    MemorySource::new(bytes, piece, plan).expect(rt, "memory")
}

/// A sink with this room, of so many bytes at most a call, of which the calls of the plan fail.
fn sink_of(rt: &impl Abort, alloc: Global, room: usize, piece: usize, plan: &[u64]) -> MemorySink {
    assert!(rt; piece > 0);
    let plan = Vec::from_slice(alloc, plan).expect(rt, "memory");
    MemorySink::new(alloc, room, piece, plan).expect(rt, "memory")
}

/// Whether there is a line, and it is this one, or there is none.
fn is_line(line: &Option<Line>, want: Option<&[u8]>) -> bool {
    match (line, want) {
        (Some(line), Some(bytes)) => line.as_slice() == bytes,
        (None, None) => true,
        _ => false,
    }
}

//! What no clause says: that the calls succeed, and the forms in memory through the traits, by hand.
mod links;
mod player;
mod spawners;

use crate::tests::{files_of, sink_of, source_of};
use lw_outside::{Files, FilesStop, MemoryFiles, Sink, Source, WriteStop};
use std::alloc::Global;
use std::process::Abort;

static FILES: [(&str, &str); 3] = [("a", "old"), ("b", "two"), ("a", "new")];

/// Files `a` and `b`, where a later `a` wins, and the calls of the plan fail.
fn two_files(rt: &impl Abort, alloc: Global, plan: &[u64]) -> MemoryFiles {
    files_of(rt, alloc, &FILES, plan)
}

fn reads<F: Files>(files: &mut F, name: &str, text: &str) -> bool {
    match files.read(name) {
        Ok(bytes) => bytes.as_slice() == text.as_bytes(),
        Err(_) => false,
    }
}

fn read_stop<F: Files>(files: &mut F, name: &str) -> Option<FilesStop> {
    files.read(name).err()
}

/// What is asked of files, and how it is to go.
enum Turn {
    Reads(&'static str, &'static str),
    RefusesRead(&'static str),
    Writes(&'static str, &'static str),
    RefusesWrite(&'static str, &'static str),
    Probes(&'static str),
    RefusesProbe(&'static str),
}

fn goes<F: Files>(files: &mut F, turn: &Turn) -> bool {
    match turn {
        Turn::Reads(name, text) => reads(files, name, text),
        Turn::RefusesRead(name) => read_stop(files, name) == Some(FilesStop::Failed),
        Turn::Writes(name, text) => files.write(name, text.as_bytes()) == Ok(()),
        Turn::RefusesWrite(name, text) => {
            files.write(name, text.as_bytes()) == Err(WriteStop::Failed)
        }
        Turn::Probes(name) => files.probe(name) == Ok(()),
        Turn::RefusesProbe(name) => files.probe(name) == Err(WriteStop::Failed),
    }
}

/// Whether each turn goes as it is to.
fn all_go<F: Files>(files: &mut F, turns: &[Turn]) -> bool {
    for turn in turns {
        if !goes(files, turn) {
            return false;
        }
    }
    true
}

static BY_NAME: [Turn; 5] = [
    Turn::Reads("a", "new"),
    Turn::Reads("b", "two"),
    Turn::RefusesRead("c"),
    Turn::Writes("c", "three"),
    Turn::Reads("c", "three"),
];

/// Whether files are found by their names, and the calls are noted.
fn are_found(rt: &impl Abort, alloc: Global) -> bool {
    let mut files = two_files(rt, alloc, &[]);
    let found = all_go(&mut files, &BY_NAME);
    found && files.calls().len() == 5 && files.bytes("d").is_none()
}

#[test]
fn files_by_name(rt: HostRuntime) {
    assert!(rt; are_found(&rt, rt.alloc()));
}

/// The second probe fails and the second of the other calls, each by its own plan.
static PROBED: [Turn; 6] = [
    Turn::Probes("d"),
    Turn::Reads("b", "two"),
    Turn::RefusesProbe("a"),
    Turn::RefusesWrite("a", "other"),
    Turn::Probes("a"),
    Turn::Reads("a", "new"),
];

/// Whether probes fail by a plan of their own, are noted, and change no file.
fn are_probed(rt: &impl Abort, alloc: Global) -> bool {
    let mut files = two_files(rt, alloc, &[1]);
    files.refuse_probes(Vec::from_slice(alloc, &[1]).expect(rt, "memory"));
    let gone = all_go(&mut files, &PROBED);
    gone && files.calls().len() == 6 && files.bytes("d").is_none()
}

#[test]
fn probes_of_files(rt: HostRuntime) {
    assert!(rt; are_probed(&rt, rt.alloc()));
}

static BY_PLAN: [Turn; 4] = [
    Turn::Reads("b", "two"),
    Turn::RefusesRead("b"),
    Turn::RefusesWrite("b", "three"),
    Turn::Reads("b", "two"),
];

/// Whether the calls of a plan fail.
fn fail_by_plan(rt: &impl Abort, alloc: Global) -> bool {
    let mut files = two_files(rt, alloc, &[1, 2]);
    all_go(&mut files, &BY_PLAN)
}

#[test]
fn files_fail_by_their_plan(rt: HostRuntime) {
    assert!(rt; fail_by_plan(&rt, rt.alloc()));
}

/// Files of one letter, so many times each.
fn long_files(rt: &impl Abort, alloc: Global, lengths: &[(&str, usize)]) -> MemoryFiles {
    let mut files = Vec::new(alloc);
    for (name, length) in lengths {
        let name = String::from_str(alloc, name).expect(rt, "memory");
        let bytes = vec![in alloc; b'x'; *length].expect(rt, "memory");
        files.push((name, bytes)).expect(rt, "memory");
    }
    MemoryFiles::new(alloc, files, Vec::new(alloc)).expect(rt, "memory")
}

static LENGTHS: [(&str, usize); 2] = [("long", 16_777_216), ("longer", 16_777_217)];

/// Whether the longer of two files is too long.
fn longer_is_too_long<F: Files>(files: &mut F) -> bool {
    let long = read_stop(files, "long");
    long.is_none() && read_stop(files, "longer") == Some(FilesStop::TooLong)
}

#[test]
fn a_long_file_is_not_read(rt: HostRuntime) {
    let mut files = long_files(&rt, rt.alloc(), &LENGTHS);
    assert!(rt; longer_is_too_long(&mut files));
}

/// Whether a sink takes so many of these bytes, which are not none, or fails where it is to.
fn takes_so<K: Sink>(sink: &mut K, bytes: &[u8], count: Option<usize>) -> bool {
    if bytes.is_empty() {
        return false;
    }
    sink.put(bytes).ok() == count
}

/// Whether it does, one time after another.
fn takes_all_so<K: Sink>(sink: &mut K, puts: &[(&[u8], Option<usize>)]) -> bool {
    for (bytes, count) in puts {
        if !takes_so(sink, bytes, *count) {
            return false;
        }
    }
    true
}

static PUTS: [(&[u8], Option<usize>); 4] = [
    (b"abcd", Some(3)),
    (b"d", None),
    (b"def", Some(2)),
    (b"f", None),
];

/// Whether a sink with a room of five bytes takes three at a time, but for a call that fails.
fn sink_goes(rt: &impl Abort, alloc: Global) -> bool {
    let mut sink = sink_of(rt, alloc, 5, 3, &[1]);
    takes_all_so(&mut sink, &PUTS) && sink.taken() == b"abcde".as_slice()
}

#[test]
fn a_sink_takes_pieces_up_to_its_room(rt: HostRuntime) {
    assert!(rt; sink_goes(&rt, rt.alloc()));
}

/// How many bytes a source gives into a buffer of four, and its first one; None where it fails.
fn take<S: Source>(source: &mut S) -> Option<(usize, u8)> {
    let mut buffer = [0u8; 4];
    match source.read(&mut buffer) {
        Ok(count) => Some((count, buffer[0])),
        Err(_) => None,
    }
}

/// Whether a source gives these, one after another.
fn gives_so<S: Source>(source: &mut S, reads: &[Option<(usize, u8)>]) -> bool {
    for read in reads {
        if take(source) != *read {
            return false;
        }
    }
    true
}

static READS: [Option<(usize, u8)>; 4] = [Some((3, b'a')), None, Some((2, b'd')), Some((0, 0))];

/// Whether a source of five bytes gives three at a time, but for a call that fails.
fn source_goes(rt: &impl Abort, alloc: Global) -> bool {
    let mut source = source_of(rt, alloc, b"abcde", 3, &[1]);
    gives_so(&mut source, &READS)
}

#[test]
fn a_source_gives_pieces_up_to_its_end(rt: HostRuntime) {
    assert!(rt; source_goes(&rt, rt.alloc()));
}

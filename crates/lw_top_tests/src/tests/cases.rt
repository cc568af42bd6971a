//! Calls of the program over memory, with what its streams take.
ghost use Rattle.std.specs.Prelude.{◌<◌};

use lw_log::{Log, MemoryLog};
use lw_outside::{MemoryFiles, MemorySink, MemorySource, MemorySpawner, World};
use lw_report::End;
use lw_top::run;
use std::alloc::Global;
use std::process::Abort;
use std::sync::Wait;
use std::thread::Threads;

pub const ONE: &str = "{\"inputs\":[\"t\"],\"outputs\":[\"0\"],\"states\":[[[0,\"0\"]]]}\n";

pub const LEARN: [&str; 3] = ["learn", "--table", "m"];

/// One call of the program over memory, and what its streams took.
#[derive(Clone, Copy)]
pub struct Case {
    pub arguments: &'static [&'static str],
    pub file: &'static str,
    pub file_plan: &'static [u64],
    pub input: &'static str,
    pub input_plan: &'static [u64],
    pub piece: usize,
    pub out_plan: &'static [u64],
    pub err_plan: &'static [u64],
    pub status: u8,
    pub out: &'static str,
    pub err: &'static str,
}

pub const PLAIN: Case = Case {
    arguments: &LEARN,
    file: ONE,
    file_plan: &[],
    input: "",
    input_plan: &[],
    piece: 1024,
    out_plan: &[],
    err_plan: &[],
    status: 0,
    out: ONE,
    err: "learned: states 1, refinements 0, extra 1, answers 1\n",
};

pub fn texts(rt: &impl Abort, alloc: Global, words: &[&str]) -> Vec<String> {
    let mut all = Vec::new(alloc);
    for word in words {
        let text = String::from_str(alloc, word).expect(rt, "memory");
        all.push(text).expect(rt, "memory");
    }
    all
}

/// The file `m` of these bytes.
pub fn file_of(rt: &impl Abort, alloc: Global, bytes: Vec<u8>, plan: &[u64]) -> MemoryFiles {
    let name = String::from_str(alloc, "m").expect(rt, "memory");
    let mut files = Vec::new(alloc);
    files.push((name, bytes)).expect(rt, "memory");
    let plan = Vec::from_slice(alloc, plan).expect(rt, "memory");
    MemoryFiles::new(alloc, files, plan).expect(rt, "memory")
}

/// The file `m` of this text.
pub fn files_of(rt: &impl Abort, alloc: Global, text: &str, plan: &[u64]) -> MemoryFiles {
    let bytes = Vec::from_slice(alloc, text.as_bytes()).expect(rt, "memory");
    file_of(rt, alloc, bytes, plan)
}

/// Whether the text stands under the name.
pub fn stands(files: &MemoryFiles, name: &str, text: &str) -> bool {
    match files.bytes(name) {
        Some(bytes) => bytes.as_slice() == text.as_bytes(),
        None => false,
    }
}

/// A stream that takes so many bytes at once.
pub fn sink(rt: &impl Abort, alloc: Global, piece: usize, plan: &[u64]) -> MemorySink
    requires { 0 < piece }
{
    let calls = Vec::from_slice(alloc, plan).expect(rt, "memory");
    MemorySink::new(alloc, 4096, piece, calls).expect(rt, "memory")
}

/// An input of this text.
pub fn source(rt: &impl Abort, alloc: Global, text: &str, plan: &[u64]) -> MemorySource {
    let bytes = Vec::from_slice(alloc, text.as_bytes()).expect(rt, "memory");
    let calls = Vec::from_slice(alloc, plan).expect(rt, "memory");
    MemorySource::new(bytes, 6, calls).expect(rt, "memory")
}

/// A spawner that starts no child.
fn no_children(rt: &impl Abort, alloc: Global) -> MemorySpawner {
    let (scripts, links) = (Vec::new(alloc), Vec::new(alloc));
    MemorySpawner::scripted(alloc, scripts, 0, Vec::new(alloc), links).expect(rt, "memory")
}

/// A world in memory.
type MemoryWorld = World<
    MemoryFiles,
    MemorySpawner,
    MemorySource,
    MemorySink,
    MemorySink,
    Log<MemoryLog, MemorySink>,
>;

/// What a call is over: its arguments and a world, in memory.
#[derive(Drop)]
pub struct Shell {
    pub arguments: Vec<String>,
    pub world: MemoryWorld,
}

/// A world with these files, no child, an empty input, and streams that don't fail.
fn world_over(rt: &impl Abort, alloc: Global, files: MemoryFiles) -> MemoryWorld {
    World {
        files,
        spawner: no_children(rt, alloc),
        input: source(rt, alloc, "", &[]),
        out: sink(rt, alloc, 4096, &[]),
        err: sink(rt, alloc, 4096, &[]),
        log: Log::new(alloc, MemoryLog::new(alloc), sink(rt, alloc, 4096, &[])),
    }
}

impl Shell {
    /// These arguments over a world with these files.
    pub fn new(rt: &impl Abort, alloc: Global, arguments: &[&str], files: MemoryFiles) -> Shell {
        Shell {
            arguments: texts(rt, alloc, arguments),
            world: world_over(rt, alloc, files),
        }
    }

    /// Puts the arguments and the streams of a case in place of its own.
    fn renew(&mut self, rt: &impl Abort, alloc: Global, case: &Case) {
        assert!(rt; case.piece > 0);
        self.arguments = texts(rt, alloc, case.arguments);
        self.world.input = source(rt, alloc, case.input, case.input_plan);
        self.world.out = sink(rt, alloc, case.piece, case.out_plan);
        self.world.err = sink(rt, alloc, case.piece, case.err_plan);
    }

    /// Checks what the streams took.
    pub fn check_streams(&self, rt: &impl Abort, out: &str, err: &str) {
        assert_eq!(rt; self.world.out.taken(), out.as_bytes());
        assert_eq!(rt; self.world.err.taken(), err.as_bytes());
    }
}

/// The top call over a shell. What its contract says ends here: a test looks at what came.
pub fn call<R: Threads + Wait + Sync + Copy + Drop>(
    rt: &R,
    alloc: Global,
    shell: &mut Shell,
) -> End {
    run(*rt, alloc, &shell.arguments, &mut shell.world)
}

/// Lets an end go. A proof that does is long, so no other function of these tests does.
pub fn let_go(_end: End) {}

/// The status of the top call over a shell.
pub fn status_of<R: Threads + Wait + Sync + Copy + Drop>(
    rt: &R,
    alloc: Global,
    shell: &mut Shell,
) -> u8 {
    let end = call(rt, alloc, shell);
    let status = end.status;
    let_go(end);
    status
}

/// Whether a call ends with this status, and says that.
pub fn says<R: Threads + Wait + Sync + Copy + Drop>(
    rt: &R,
    alloc: Global,
    shell: &mut Shell,
    status: u8,
    said: &str,
) -> bool {
    status_of(rt, alloc, shell) == status && shell.world.err.taken() == said.as_bytes()
}

/// The end of a call, which has this status and puts these texts to its streams.
pub fn play<R: Abort + Threads + Wait + Sync + Copy + Drop>(
    rt: &R,
    alloc: Global,
    shell: &mut Shell,
    status: u8,
    out: &str,
    err: &str,
) -> End {
    let end = call(rt, alloc, shell);
    assert_eq!(rt; end.status, status);
    shell.check_streams(rt, out, err);
    end
}

/// Checks a call: its status, and what it puts to its streams.
pub fn check_play<R: Abort + Threads + Wait + Sync + Copy + Drop>(
    rt: &R,
    alloc: Global,
    shell: &mut Shell,
    status: u8,
    out: &str,
    err: &str,
) {
    let_go(play(rt, alloc, shell, status, out, err));
}

/// The end of a case over the files of this shell.
fn end_over<R: Abort + Threads + Wait + Sync + Copy + Drop>(
    rt: &R,
    alloc: Global,
    case: &Case,
    shell: &mut Shell,
) -> End {
    shell.renew(rt, alloc, case);
    play(rt, alloc, shell, case.status, case.out, case.err)
}

/// The end of a case over its own file.
pub fn end_of<R: Abort + Threads + Wait + Sync + Copy + Drop>(
    rt: &R,
    alloc: Global,
    case: &Case,
) -> End {
    let files = files_of(rt, alloc, case.file, case.file_plan);
    let mut shell = Shell::new(rt, alloc, case.arguments, files);
    end_over(rt, alloc, case, &mut shell)
}

/// Checks a case over the files of this shell.
pub fn check_over<R: Abort + Threads + Wait + Sync + Copy + Drop>(
    rt: &R,
    alloc: Global,
    case: &Case,
    shell: &mut Shell,
) {
    let_go(end_over(rt, alloc, case, shell));
}

/// Checks a case over its own file.
pub fn check<R: Abort + Threads + Wait + Sync + Copy + Drop>(rt: &R, alloc: Global, case: &Case) {
    let_go(end_of(rt, alloc, case));
}

/// Checks cases, one after another, over the files of this shell.
pub fn check_all_over<R: Abort + Threads + Wait + Sync + Copy + Drop>(
    rt: &R,
    alloc: Global,
    cases: &[Case],
    shell: &mut Shell,
) {
    for case in cases {
        check_over(rt, alloc, case, shell);
    }
}

/// Checks cases, one after another, over these files.
pub fn check_files<R: Abort + Threads + Wait + Sync + Copy + Drop>(
    rt: &R,
    alloc: Global,
    files: MemoryFiles,
    cases: &[Case],
) {
    let mut shell = Shell::new(rt, alloc, &[], files);
    check_all_over(rt, alloc, cases, &mut shell);
}

/// Checks cases, each over its own file.
pub fn check_all<R: Abort + Threads + Wait + Sync + Copy + Drop>(
    rt: &R,
    alloc: Global,
    cases: &[Case],
) {
    for case in cases {
        check(rt, alloc, case);
    }
}

/// Checks a call of these arguments over these files.
pub fn check_call<R: Abort + Threads + Wait + Sync + Copy + Drop>(
    rt: &R,
    alloc: Global,
    arguments: &[&str],
    files: MemoryFiles,
    status: u8,
    out: &str,
    err: &str,
) {
    let mut shell = Shell::new(rt, alloc, arguments, files);
    check_play(rt, alloc, &mut shell, status, out, err);
}

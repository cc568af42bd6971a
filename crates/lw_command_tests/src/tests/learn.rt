//! What no clause says: that the calls succeed.
ghost use Rattle.std.specs.Prelude.{◌≤◌};

use crate::tests::let_go;
use crate::tests::memory::string;
use lw_chunks::Method;
use lw_learn::{LearnArguments, LearnFiles, bad_is_refused, learn, told_is_learned};
use lw_log::{Log, MemoryLog};
use lw_outside::{MemoryFiles, MemorySink, MemorySpawner, World};
use lw_report::{End, Outcome};
use lw_rounds::{Kind, Learner, Settings, Testing};
use lw_system::{Goal, Source};
use std::alloc::Global;
use std::process::Abort;
use std::sync::Wait;
use std::thread::Threads;

mod asking;
mod kept;
mod notes;

const TWO: &str =
    "{\"inputs\":[\"t\"],\"outputs\":[\"0\",\"1\"],\"states\":[[[1,\"0\"]],[[0,\"1\"]]]}";

/// A child with one letter, whose outputs aren't declared.
const CHILD: &str = "{\"command\":[\"child\"],\"inputs\":[\"t\"]}";

/// What a call is over, in memory. No call reads an input.
type Outside = World<
    MemoryFiles,
    MemorySpawner,
    (),
    MemorySink,
    MemorySink,
    Log<MemoryLog, MemorySink>,
>;

/// These files, children and log, and three empty streams, of which one is for notes.
fn outside_of(
    rt: &impl Abort,
    alloc: Global,
    files: MemoryFiles,
    children: MemorySpawner,
    log: MemoryLog,
) -> Outside {
    World {
        files,
        spawner: children,
        input: (),
        out: sink(rt, alloc),
        err: sink(rt, alloc),
        log: Log::new(alloc, log, sink(rt, alloc)),
    }
}

/// The name of a file that is asked for.
fn named(rt: &impl Abort, alloc: Global, name: &str, asked: bool) -> Option<String> {
    if asked {
        Some(string(rt, alloc, name))
    } else {
        None
    }
}

/// Puts a file of this text last.
fn push_file(
    rt: &impl Abort,
    alloc: Global,
    files: &mut Vec<(String, Vec<u8>)>,
    name: &str,
    text: &str,
) {
    let name = string(rt, alloc, name);
    let bytes = Vec::from_slice(alloc, text.as_bytes()).expect(rt, "memory");
    files.push((name, bytes)).expect(rt, "memory");
}

/// The file `m` of this text.
fn files_of(rt: &impl Abort, alloc: Global, text: &str) -> MemoryFiles {
    let mut files = Vec::new(alloc);
    push_file(rt, alloc, &mut files, "m", text);
    MemoryFiles::new(alloc, files, Vec::new(alloc)).expect(rt, "memory")
}

/// A spawner that starts no child.
fn no_children(rt: &impl Abort, alloc: Global) -> MemorySpawner {
    let (scripts, links) = (Vec::new(alloc), Vec::new(alloc));
    MemorySpawner::scripted(alloc, scripts, 0, Vec::new(alloc), links).expect(rt, "memory")
}

/// The plan of one link, of which these calls fail.
fn links_of(rt: &impl Abort, alloc: Global, failing: &[u64]) -> Vec<Vec<u64>> {
    let mut links = Vec::new(alloc);
    let link = Vec::from_slice(alloc, failing).expect(rt, "memory");
    links.push(link).expect(rt, "memory");
    links
}

/// A spawner of one child that says this, over a link of which these calls fail.
fn speaker(rt: &impl Abort, alloc: Global, text: &str, failing: &[u64]) -> MemorySpawner {
    let mut scripts = Vec::new(alloc);
    let script = Vec::from_slice(alloc, text.as_bytes()).expect(rt, "memory");
    scripts.push(script).expect(rt, "memory");
    let links = links_of(rt, alloc, failing);
    MemorySpawner::scripted(alloc, scripts, 4096, Vec::new(alloc), links).expect(rt, "memory")
}

fn sink(rt: &impl Abort, alloc: Global) -> MemorySink {
    MemorySink::new(alloc, 4096, 4096, Vec::new(alloc)).expect(rt, "memory")
}

/// The outcome of a call.
#[derive(Clone, Copy, PartialEq, Eq)]
enum Came {
    /// A model was found without a refinement.
    Learned,
    /// The first child had ended.
    Gone,
    TooManyStates,
    Otherwise,
}

/// What is looked at of a call's end.
#[derive(Clone, Copy)]
struct Seen {
    status: u8,
    came: Came,
    kept: usize,
    has_model: bool,
    has_outputs: bool,
    has_learner: bool,
    has_table: bool,
}

fn came_to(outcome: &Outcome) -> Came {
    match outcome {
        Outcome::Learned { refinements: 0, .. } => Came::Learned,
        Outcome::Gone(0) => Came::Gone,
        Outcome::TooManyStates(_) => Came::TooManyStates,
        _ => Came::Otherwise,
    }
}

fn look(end: &End) -> Seen {
    Seen {
        status: end.status,
        came: came_to(&end.outcome),
        kept: end.kept.len(),
        has_model: end.model.is_some(),
        has_outputs: end.outputs.is_some(),
        has_learner: end.learner.is_some(),
        has_table: matches!(end.learner, Some(Learner::Table(_))),
    }
}

/// The outcome of a learning: the clauses of `learn` would weigh down each proof that calls it.
fn end<R: Threads + Wait + Sync + Drop>(
    rt: R,
    alloc: Global,
    arguments: &LearnArguments,
    outside: &mut Outside,
) -> End {
    learn(rt, alloc, arguments, outside)
}

/// The same, and the end is dropped: a proof of what owns it beside all that a call is handed would be a long one.
fn call<R: Threads + Wait + Sync + Drop>(
    rt: R,
    alloc: Global,
    arguments: &LearnArguments,
    outside: &mut Outside,
) -> Seen {
    let end = end(rt, alloc, arguments, outside);
    let seen = look(&end);
    let_go(end);
    seen
}

/// Whether a file has these bytes, or isn't there where there are none.
fn has(files: &MemoryFiles, name: &str, text: &str) -> bool {
    match files.bytes(name) {
        Some(bytes) => bytes.as_slice() == text.as_bytes(),
        None => text.is_empty(),
    }
}

/// Checks what a stream took.
fn check_text(rt: &impl Abort, sink: &MemorySink, text: &str) {
    assert_eq!(rt; sink.taken(), text.as_bytes());
}

/// The table `m`, and no child.
fn with_table(rt: &impl Abort, alloc: Global) -> Outside {
    let files = files_of(rt, alloc, TWO);
    let children = no_children(rt, alloc);
    outside_of(rt, alloc, files, children, MemoryLog::new(alloc))
}

/// The setup `m`, and a child that says what is listed.
fn with_child(rt: &impl Abort, alloc: Global, script: &str) -> Outside {
    let files = files_of(rt, alloc, CHILD);
    let children = speaker(rt, alloc, script, &[]);
    outside_of(rt, alloc, files, children, MemoryLog::new(alloc))
}

/// The arguments that name no file but the system's, and draw no words.
fn bare(source: Source, system: String, settings: Settings) -> LearnArguments {
    let files = LearnFiles {
        model: None,
        answers: None,
        prior: None,
        kept: None,
        last: None,
        words: None,
        log: None,
        journal: None,
    };
    LearnArguments::new(Goal::Machine, source, system, settings, None, files, false)
}

/// The outcome of a learning of `m` at a limit of states.
fn limited<R: Abort + Threads + Wait + Sync + Copy + Drop>(
    rt: R,
    alloc: Global,
    max_states: u16,
    outside: &mut Outside,
) -> Seen
    requires { (1 ≤ max_states) × (max_states ≤ 1024) }
{
    let settings = Settings {
        workers: 2,
        kind: Kind::Table,
        extra: 1,
        max_states,
        testing: Testing::by(Method::W),
    };
    let arguments = bare(Source::Table, string(&rt, alloc, "m"), settings);
    call(rt, alloc, &arguments, outside)
}

/// The outcome of a learning of the setup `m`.
fn told<R: Abort + Threads + Wait + Sync + Copy + Drop>(
    rt: R,
    alloc: Global,
    outside: &mut Outside,
) -> Seen {
    let settings = Settings {
        workers: 1,
        kind: Kind::Table,
        extra: 0,
        max_states: 8,
        testing: Testing::by(Method::W),
    };
    let arguments = bare(Source::Setup, string(&rt, alloc, "m"), settings);
    call(rt, alloc, &arguments, outside)
}

#[test]
fn laws_have_no_code(_: HostRuntime) {
    told_is_learned();
    bad_is_refused();
}

/// Checks the end of a child that is learned.
fn check_learned(rt: &impl Abort, end: Seen, outside: &Outside) {
    assert!(rt; end.came == Came::Learned && end.has_outputs && end.kept == 1);
    assert!(rt; outside.spawner.retired().len() == 1);
    let model = "{\"inputs\":[\"t\"],\"outputs\":[\"z\"],\"states\":[[[0,\"z\"]]]}\n";
    check_text(rt, &outside.out, model);
}

#[test]
fn a_child_is_learned(rt: HostRuntime) {
    let mut outside = with_child(&rt, rt.alloc(), "ready\nout z\nout z\n");
    let end = told(rt, rt.alloc(), &mut outside);
    check_learned(&rt, end, &outside);
}

/// Checks the end of a child that ends early.
fn check_early(rt: &impl Abort, end: Seen, outside: &Outside) {
    assert!(rt; end.came == Came::Gone && !end.has_model && !end.has_outputs);
    assert!(rt; outside.spawner.retired().len() == 1);
    check_text(rt, &outside.err, "system ended: instance 0\n");
}

#[test]
fn a_child_ends_early(rt: HostRuntime) {
    let mut outside = with_child(&rt, rt.alloc(), "ready\nout z\n");
    let end = told(rt, rt.alloc(), &mut outside);
    check_early(&rt, end, &outside);
}

/// Checks the end at a limit of states.
fn check_limit(rt: &impl Abort, end: Seen, outside: &Outside) {
    assert!(rt; end.came == Came::TooManyStates && !end.has_model && !end.has_learner);
    let lines = "too many states: 2 words are pairwise apart\n\"\"\n\"t\"\n";
    check_text(rt, &outside.err, lines);
    check_text(rt, &outside.out, "");
}

#[test]
fn a_limit_of_states(rt: HostRuntime) {
    let mut outside = with_table(&rt, rt.alloc());
    let end = limited(rt, rt.alloc(), 1, &mut outside);
    check_limit(&rt, end, &outside);
}

/// Checks the end with a model and its table.
fn check_model(rt: &impl Abort, end: Seen, outside: &Outside) {
    assert!(rt; end.came == Came::Learned && end.has_model && end.has_table && end.kept == 3);
    let line = "learned: states 2, refinements 0, extra 1, answers 3\n";
    check_text(rt, &outside.err, line);
}

#[test]
fn a_model_with_its_table(rt: HostRuntime) {
    let mut outside = with_table(&rt, rt.alloc());
    let end = limited(rt, rt.alloc(), 2, &mut outside);
    check_model(&rt, end, &outside);
}

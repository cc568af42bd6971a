//! What no clause says: that the calls succeed. The texts are worked by hand.
use crate::tests::{files_of, names, sink_of};
use lw_accept::AcceptorFault;
use lw_json::{Field, JsonFault};
use lw_mealy::MealyFault;
use lw_outside::{MemoryFiles, MemorySink};
use lw_report::{
    End, Outcome, Role, TellStop, UNSAID, acceptor_outcome, no_acceptor_outcome, no_system_outcome,
    put_report, read_outcome, refuse, text, write_file,
};
use lw_system::{
    AcceptorStop, NoSystem, ReadStop, read_answers_file, read_machine_file, read_setup_file,
};
use lw_words::{Kept, NamesFault, Word, Words};
use std::alloc::Global;
use std::process::Abort;

mod systems;

const MACHINE: &str = "{\"inputs\":[\"t\"],\"outputs\":[\"0\"],\"states\":[[[0,\"0\"]]]}\n";

const ANSWERS: &str =
    "{\"answers\":[[0,0,\"t\",\"0\"]],\"format\":2,\"inputs\":[\"t\"],\"outputs\":[\"0\"]}\n";

const SETUP: &str = "{\"command\":[\"child\"],\"inputs\":[\"t\"]}\n";

/// Whether this is the line of the outcome, over the inputs `t` and `u`.
fn says(rt: &impl Abort, alloc: Global, outcome: Outcome, line: &str) -> bool {
    let inputs = names(rt, alloc, &["t", "u"]);
    let text = text(alloc, &outcome, &inputs, &inputs, &Kept::new(alloc), 1);
    text.expect(rt, "memory").as_slice() == line.as_bytes()
}

/// Whether this is the line of a fault in a machine file that is a table.
fn table_says(rt: &impl Abort, alloc: Global, fault: JsonFault, line: &str) -> bool {
    let role = Role::Table;
    says(rt, alloc, Outcome::BadFile { role, fault }, line)
}

#[test]
fn faults_in_words(rt: HostRuntime) {
    let alloc = rt.alloc();
    let root = JsonFault::Shape(Field::Root);
    assert!(rt; table_says(&rt, alloc, root, "bad file table: shape of root\n"));
    let twice = JsonFault::Inputs(NamesFault::Repeated(0, 2));
    let line = "bad file table: inputs: repeated name at 0 and 2\n";
    assert!(rt; table_says(&rt, alloc, twice, line));
    let target = JsonFault::Mealy(MealyFault::Target(1, 0, 7));
    let line = "bad file table: no such target at state 1, letter 0: 7\n";
    assert!(rt; table_says(&rt, alloc, target, line));
}

/// The empty word and two longer ones.
fn crowd(rt: &impl Abort, alloc: Global) -> Words {
    let mut words = Words::new(alloc);
    let mut word = Word::new(alloc);
    for letter in [1, 0] {
        let copy = word.copy().expect(rt, "memory");
        assert!(rt; words.push(copy).is_ok(), "memory");
        word.push(letter).expect(rt, "memory");
    }
    assert!(rt; words.push(word).is_ok(), "memory");
    words
}

#[test]
fn a_crowd_by_its_names(rt: HostRuntime) {
    let alloc = rt.alloc();
    let outcome = Outcome::TooManyStates(crowd(&rt, alloc));
    let lines = "too many states: 3 words are pairwise apart\n\"\"\n\"u\"\n\"u t\"\n";
    assert!(rt; says(&rt, alloc, outcome, lines));
}

/// Whether a model and answers are written, and a third file is refused.
fn two_are_written(files: &mut MemoryFiles) -> bool {
    let model = write_file(files, Role::Model, "m", MACHINE.as_bytes());
    let answers = write_file(files, Role::Answers, "k", ANSWERS.as_bytes());
    let refused = write_file(files, Role::Answers, "k2", ANSWERS.as_bytes());
    model == Ok(()) && answers == Ok(()) && refused == Err(TellStop::File(Role::Answers))
}

/// What a machine file of this name is refused for, if it is.
fn machine_stop(alloc: Global, files: &mut MemoryFiles, name: &str) -> Option<ReadStop<JsonFault>> {
    read_machine_file(alloc, files, name).err()
}

/// What an answers file of this name is refused for, if it is.
fn answers_stop(alloc: Global, files: &mut MemoryFiles, name: &str) -> Option<ReadStop<JsonFault>> {
    read_answers_file(alloc, files, name).err()
}

/// What a setup file of this name is refused for, if it is.
fn setup_stop(alloc: Global, files: &mut MemoryFiles, name: &str) -> Option<ReadStop<JsonFault>> {
    read_setup_file(alloc, files, name).err()
}

#[test]
fn files_are_read_and_written(rt: HostRuntime) {
    let alloc = rt.alloc();
    let mut files = files_of(&rt, alloc, &[], &[2]);
    assert!(rt; two_are_written(&mut files));
    assert!(rt; machine_stop(alloc, &mut files, "m").is_none());
    assert!(rt; answers_stop(alloc, &mut files, "k").is_none());
    let states = ReadStop::Bad(JsonFault::Shape(Field::States));
    assert!(rt; machine_stop(alloc, &mut files, "k") == Some(states));
}

/// Whether a setup is read just after it was written.
fn setup_goes(alloc: Global, files: &mut MemoryFiles) -> bool {
    let before = setup_stop(alloc, files, "s");
    let written = write_file(files, Role::Setup, "s", SETUP.as_bytes());
    let after = setup_stop(alloc, files, "s");
    before == Some(ReadStop::Failed) && written == Ok(()) && after.is_none()
}

#[test]
fn a_setup_is_read(rt: HostRuntime) {
    let alloc = rt.alloc();
    let mut files = files_of(&rt, alloc, &[], &[]);
    assert!(rt; setup_goes(alloc, &mut files));
}

/// Whether the fault of a sink is told.
fn tells_fault(rt: &impl Abort, alloc: Global, sink: &mut MemorySink) -> bool {
    let list = names(rt, alloc, &["t"]);
    let kept = Kept::new(alloc);
    put_report(alloc, &Outcome::SinkFault, &list, &list, &kept, 1, sink) == Ok(())
}

/// The status after a model is refused, which isn't JSON.
fn refusal(alloc: Global, sink: &mut MemorySink) -> u8 {
    let stop = read_outcome(ReadStop::Bad(JsonFault::NotJson), Role::Model);
    told(alloc, stop, sink)
}

/// The status after an outcome, whose text is put.
fn told(alloc: Global, outcome: Outcome, sink: &mut MemorySink) -> u8 {
    let End { status, .. } = refuse(alloc, outcome, UNSAID, Kept::new(alloc), None, 1, sink);
    status
}

#[test]
fn acceptors_that_are_not_read(rt: HostRuntime) {
    let alloc = rt.alloc();
    let mut sink = sink_of(&rt, alloc, 100, 4, &[]);
    let letters = AcceptorStop::Letters(AcceptorFault::Reserved(2));
    let reserved = no_system_outcome(NoSystem::Acceptor(letters));
    assert!(rt; told(alloc, reserved, &mut sink) == 3);
    let long = no_acceptor_outcome(AcceptorStop::Table(ReadStop::TooLong));
    assert!(rt; told(alloc, long, &mut sink) == 3);
    let model = acceptor_outcome(ReadStop::Failed, Role::Model);
    assert!(rt; told(alloc, model, &mut sink) == 8);
    assert_eq!(rt;
        sink.taken(),
        "bad acceptor: reserved name at 2\nfile too long: table\nfile fault: model\n".as_bytes()
    );
}

#[test]
fn reports_and_refusals(rt: HostRuntime) {
    let alloc = rt.alloc();
    let mut sink = sink_of(&rt, alloc, 100, 4, &[]);
    assert!(rt; tells_fault(&rt, alloc, &mut sink));
    assert!(rt; refusal(alloc, &mut sink) == 3);
    assert_eq!(rt;
        sink.taken(),
        "sink fault\nbad file model: not JSON\n".as_bytes()
    );
}

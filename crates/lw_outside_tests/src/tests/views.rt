//! Acceptors and the machines that are asked in their place. Machines and faults are worked by hand.

use crate::tests::acceptors::{accepted, acceptor};
use crate::tests::{files_of, machine, written};
use lw_accept::{
    Acceptor, AcceptorFault, AcceptorField, ViewFault, answer_names, asked_names, letters_behind,
    unview, view,
};
use lw_json::{Field, JsonFault, Machine};
use lw_mealy::Mealy;
use lw_outside::MemoryFiles;
use lw_report::{Role, write_file};
use lw_system::{
    AcceptorStop, Found, Goal, NoSystem, ReadStop, Source, find_acceptor, find_for,
    read_acceptor_file, read_view_file,
};
use lw_words::{Names, NamesFault};
use std::alloc::Global;
use std::process::Abort;

/// The acceptor of the words of even length over one letter.
const EVEN: &str = "{\"accepting\":[true,false],\"inputs\":[\"a\"],\"targets\":[[1],[0]]}\n";

/// The machine that is asked in its place.
const EVEN_MACHINE: &str =
    "{\"inputs\":[\"?\",\"a\"],\"outputs\":[\"yes\",\"no\",\"ok\"],\"states\":[[[0,\"yes\"],[1,\"ok\"]],[[1,\"no\"],[0,\"ok\"]]]}\n";

/// Machines over `?` and a letter that are no acceptor's, by their states, each with its first pair that is none.
static NO_VIEWS: [(&str, u16, u16); 6] = [
    ("[[[1,\"yes\"],[0,\"ok\"]],[[0,\"no\"],[1,\"ok\"]]]", 0, 0),
    ("[[[0,\"ok\"],[0,\"ok\"]]]", 0, 0),
    ("[[[0,\"yes\"],[0,\"yes\"]]]", 0, 1),
    ("[[[0,\"no\"],[0,\"no\"]]]", 0, 1),
    ("[[[0,\"yes\"],[1,\"ok\"]],[[1,\"no\"],[0,\"no\"]]]", 1, 1),
    ("[[[0,\"yes\"],[1,\"no\"]],[[0,\"no\"],[0,\"ok\"]]]", 0, 1),
];

/// The machine that is asked in the place of a text's acceptor.
fn view_of(rt: &impl Abort, alloc: Global, acceptor: &Acceptor) -> Machine {
    view(alloc, acceptor).expect(rt, "memory")
}

/// The text of the machine that is asked in an acceptor's place.
fn viewed(rt: &impl Abort, alloc: Global, text: &str) -> Vec<u8> {
    let acceptor = acceptor(rt, alloc, text);
    written(rt, alloc, &view_of(rt, alloc, &acceptor))
}

/// The acceptor that stands in its machine.
fn back(rt: &impl Abort, alloc: Global, acceptor: &Acceptor) -> Acceptor {
    let machine = view(alloc, acceptor).expect(rt, "memory");
    let Ok(back) = unview(alloc, &machine.mealy, acceptor.inputs()) else {
        rt.panic("an acceptor's machine is refused");
    };
    back
}

/// The text of the acceptor that stands in its machine.
fn viewed_back(rt: &impl Abort, alloc: Global, text: &str) -> Vec<u8> {
    let acceptor = acceptor(rt, alloc, text);
    accepted(rt, alloc, &back(rt, alloc, &acceptor))
}

#[test]
fn an_acceptor_is_asked_by_its_machine(rt: HostRuntime) {
    let alloc = rt.alloc();
    assert!(rt; viewed(&rt, alloc, EVEN).as_slice() == EVEN_MACHINE.as_bytes());
    assert!(rt; viewed_back(&rt, alloc, EVEN).as_slice() == EVEN.as_bytes());
}

/// The machine of these states over `?` and one letter.
fn over_one(rt: &impl Abort, alloc: Global, states: &str) -> Machine {
    let text = format!(in alloc;
        "{{\"inputs\":[\"?\",\"a\"],\"outputs\":[\"yes\",\"no\",\"ok\"],\"states\":{states}}}"
    );
    machine(rt, alloc, text.expect(rt, "memory").as_bytes())
}

/// The first pair of a machine over `?` and an acceptor's letters that is none of an acceptor's machine.
fn fault_in(alloc: Global, mealy: &Mealy, acceptor: &Acceptor) -> Option<ViewFault> {
    if mealy.inputs() != acceptor.inputs().len() + 1 || mealy.outputs() != 3 {
        return None;
    }
    unview(alloc, mealy, acceptor.inputs()).err()
}

/// The first pair of these states that is none of an acceptor's machine over `?` and one letter.
fn first_fault(rt: &impl Abort, alloc: Global, states: &str) -> Option<ViewFault> {
    let even = acceptor(rt, alloc, EVEN);
    let machine = over_one(rt, alloc, states);
    fault_in(alloc, &machine.mealy, &even)
}

#[test]
fn the_first_pair_of_no_acceptor_is_told(rt: HostRuntime) {
    let alloc = rt.alloc();
    for (states, state, letter) in &NO_VIEWS {
        let told = ViewFault::NotAcceptor {
            state: *state,
            letter: *letter,
        };
        assert!(rt; first_fault(&rt, alloc, states) == Some(told), "{states}");
    }
}

/// Puts so many names to a list.
fn put_names(rt: &impl Abort, alloc: Global, list: &mut Vec<String>, count: u16) {
    for n in 0..count {
        let name = format!(in alloc; "n{n}").expect(rt, "memory");
        list.push(name).expect(rt, "memory");
    }
}

/// So many names, and one more.
fn names_and(rt: &impl Abort, alloc: Global, count: u16, last: &str) -> Names {
    let mut list = Vec::new(alloc);
    put_names(rt, alloc, &mut list, count);
    let last = String::from_str(alloc, last).expect(rt, "memory");
    list.push(last).expect(rt, "memory");
    Names::from_list(alloc, &list).expect(rt, "names")
}

/// Why `?` can't stand before so many names and one more.
fn no_room(rt: &impl Abort, alloc: Global, count: u16, last: &str) -> Option<AcceptorFault> {
    asked_names(alloc, &names_and(rt, alloc, count, last)).err()
}

#[test]
fn the_question_stands_before_at_most_63_letters(rt: HostRuntime) {
    let alloc = rt.alloc();
    assert!(rt; no_room(&rt, alloc, 62, "a").is_none());
    let many = AcceptorFault::Inputs(NamesFault::TooMany(64));
    assert!(rt; no_room(&rt, alloc, 63, "a") == Some(many));
    assert!(rt; no_room(&rt, alloc, 63, "?") == Some(many));
    assert!(rt; no_room(&rt, alloc, 4, "?") == Some(AcceptorFault::Reserved(4)));
}

/// Whether the letters behind `?` are the same as before.
fn letters_go_back(rt: &impl Abort, alloc: Global) -> bool {
    let letters = names_and(rt, alloc, 2, "a");
    let asked = asked_names(alloc, &letters).expect(rt, "room");
    let back = letters_behind(alloc, &asked).expect(rt, "memory");
    back.same(&letters)
}

#[test]
fn letters_and_answers_have_their_names(rt: HostRuntime) {
    let alloc = rt.alloc();
    assert!(rt; letters_go_back(&rt, alloc));
    let answers = answer_names(alloc).expect(&rt, "memory");
    assert!(rt; answers.number("yes") == Some(0));
    assert!(rt; answers.number("no") == Some(1));
    assert!(rt; answers.number("ok") == Some(2));
}

/// Whether a file is written.
fn is_written(files: &mut MemoryFiles, role: Role, name: &str, text: &str) -> bool {
    write_file(files, role, name, text.as_bytes()) == Ok(())
}

/// Files with this setup, `s`, and the acceptor `e`.
fn files_with(rt: &impl Abort, alloc: Global, setup: &str) -> MemoryFiles {
    let mut files = files_of(rt, alloc, &[], &[]);
    assert!(rt; is_written(&mut files, Role::Setup, "s", setup));
    assert!(rt; is_written(&mut files, Role::Table, "e", EVEN));
    files
}

/// How many letters the system has that a setup says, or why it says none that is asked for an acceptor.
fn found(rt: &impl Abort, alloc: Global, setup: &str) -> Result<u16, AcceptorStop> {
    let mut files = files_with(rt, alloc, setup);
    let Found { system, hint } = find_acceptor(alloc, Source::Setup, "s", &mut files);
    drop(hint);
    match system {
        Ok(system) => Ok(system.inputs().len()),
        Err(stop) => Err(stop),
    }
}

#[test]
fn a_setup_is_asked_for_an_acceptor(rt: HostRuntime) {
    let alloc = rt.alloc();
    let child = "{\"command\":[\"child\"],\"inputs\":[\"a\",\"b\"],\"outputs\":[\"x\"]}";
    assert!(rt; found(&rt, alloc, child) == Ok(3));
    assert!(rt; found(&rt, alloc, "{\"table\":\"e\"}") == Ok(2));
    let reserved = "{\"command\":[\"child\"],\"inputs\":[\"a\",\"?\"]}";
    let letters = AcceptorStop::Letters(AcceptorFault::Reserved(1));
    assert!(rt; found(&rt, alloc, reserved) == Err(letters));
}

#[test]
fn an_acceptor_file_that_is_none_is_refused(rt: HostRuntime) {
    let alloc = rt.alloc();
    let missing = AcceptorStop::Table(ReadStop::Failed);
    assert!(rt; found(&rt, alloc, "{\"table\":\"none\"}") == Err(missing));
    let shape = AcceptorFault::Shape(AcceptorField::Accepting);
    let itself = AcceptorStop::Table(ReadStop::Bad(shape));
    assert!(rt; found(&rt, alloc, "{\"table\":\"s\"}") == Err(itself));
    let bad = AcceptorStop::Setup(ReadStop::Bad(JsonFault::Shape(Field::Neither)));
    assert!(rt; found(&rt, alloc, "{}") == Err(bad));
}

/// How many letters the system has that a table file says, by what is to be learned, or why there is none. The file `s` is the
/// machine in place of the acceptor `e`.
fn found_for(rt: &impl Abort, alloc: Global, goal: Goal, name: &str) -> Result<u16, NoSystem> {
    let mut files = files_with(rt, alloc, EVEN_MACHINE);
    let Found { system, hint } = find_for(alloc, goal, Source::Table, name, &mut files);
    drop(hint);
    match system {
        Ok(system) => Ok(system.inputs().len()),
        Err(stop) => Err(stop),
    }
}

#[test]
fn a_table_is_found_by_what_is_learned(rt: HostRuntime) {
    let alloc = rt.alloc();
    assert!(rt; found_for(&rt, alloc, Goal::Machine, "s") == Ok(2));
    assert!(rt; found_for(&rt, alloc, Goal::Acceptor, "e") == Ok(2));
    let shape = AcceptorFault::Shape(AcceptorField::Accepting);
    let none = NoSystem::Acceptor(AcceptorStop::Table(ReadStop::Bad(shape)));
    assert!(rt; found_for(&rt, alloc, Goal::Acceptor, "s") == Err(none));
    assert!(rt; found_for(&rt, alloc, Goal::Machine, "e").is_err());
}

/// What is written of the acceptor of a file.
fn acceptor_file_text(rt: &impl Abort, alloc: Global, files: &mut MemoryFiles) -> Vec<u8> {
    let acceptor = read_acceptor_file(alloc, files, "e").expect(rt, "an acceptor");
    accepted(rt, alloc, &acceptor)
}

/// What is written of the machine in place of the acceptor of a file.
fn view_file_text(rt: &impl Abort, alloc: Global, files: &mut MemoryFiles) -> Vec<u8> {
    let machine = read_view_file(alloc, files, "e").expect(rt, "an acceptor");
    written(rt, alloc, &machine)
}

/// Whether an acceptor file is read for itself and for its machine.
fn is_read_twice(rt: &impl Abort, alloc: Global) -> bool {
    let mut files = files_with(rt, alloc, EVEN_MACHINE);
    let itself = acceptor_file_text(rt, alloc, &mut files);
    let machine = view_file_text(rt, alloc, &mut files);
    itself.as_slice() == EVEN.as_bytes() && machine.as_slice() == EVEN_MACHINE.as_bytes()
}

#[test]
fn an_acceptor_file_is_read_for_itself_and_for_its_machine(rt: HostRuntime) {
    assert!(rt; is_read_twice(&rt, rt.alloc()));
}

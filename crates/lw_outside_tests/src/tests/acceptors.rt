//! Acceptor files: how they are read and written, and the first fault of bytes that are none.

use lw_accept::{Acceptor, AcceptorFault, AcceptorField, acceptor_text, read_acceptor};
use lw_words::NamesFault;
use std::alloc::Global;
use std::process::Abort;

/// The acceptor of the words of even length over one letter, as it is written.
const EVEN: &str = "{\"accepting\":[true,false],\"inputs\":[\"a\"],\"targets\":[[1],[0]]}\n";

/// The same acceptor, written otherwise.
static SPELLED: [&str; 4] = [
    "{\"accepting\":[true,false],\"inputs\":[\"a\"],\"targets\":[[1],[0]]}\n",
    "{\"targets\":[[1],[0]],\"inputs\":[\"a\"],\"accepting\":[true,false]}",
    " { \"accepting\" : [ true , false ] ,\r\n\"inputs\":[\"\\u0061\"],\t\"targets\":[[1],[0]] }\n\n",
    "{\"accepting\":7,\"inputs\":[\"a\"],\"more\":[null],\"targets\":[[1],[0]],\"accepting\":[true,false]}",
];

/// Bytes that are no acceptor file, each with its first fault.
static NO_ACCEPTORS: [(&str, AcceptorFault); 37] = [
    ("", AcceptorFault::NotJson),
    (
        "{\"accepting\":[true],\"inputs\":[\"a\"],\"targets\":[[0]]",
        AcceptorFault::NotJson,
    ),
    (
        "{\"accepting\":[true],\"inputs\":[\"a\"],\"targets\":[[00]]}",
        AcceptorFault::NotJson,
    ),
    ("[]", AcceptorFault::Shape(AcceptorField::Root)),
    ("null", AcceptorFault::Shape(AcceptorField::Root)),
    ("{}", AcceptorFault::Shape(AcceptorField::Accepting)),
    (
        "{\"accepting\":true,\"inputs\":0,\"targets\":0}",
        AcceptorFault::Shape(AcceptorField::Accepting),
    ),
    (
        "{\"accepting\":[true,1],\"inputs\":[\"a\"],\"targets\":[[0],[0]]}",
        AcceptorFault::Shape(AcceptorField::Accepting),
    ),
    (
        "{\"accepting\":[null],\"inputs\":[\"a\"],\"targets\":[[0]]}",
        AcceptorFault::Shape(AcceptorField::Accepting),
    ),
    (
        "{\"accepting\":[],\"targets\":0}",
        AcceptorFault::Shape(AcceptorField::Inputs),
    ),
    (
        "{\"accepting\":[true],\"inputs\":[\"a\",0],\"targets\":[[0]]}",
        AcceptorFault::Shape(AcceptorField::Inputs),
    ),
    (
        "{\"accepting\":[],\"inputs\":[]}",
        AcceptorFault::Shape(AcceptorField::Targets),
    ),
    (
        "{\"accepting\":[true],\"inputs\":[\"a\"],\"targets\":{}}",
        AcceptorFault::Shape(AcceptorField::Targets),
    ),
    (
        "{\"accepting\":[true],\"inputs\":[\"a\"],\"targets\":[0]}",
        AcceptorFault::Shape(AcceptorField::Targets),
    ),
    (
        "{\"accepting\":[true],\"inputs\":[\"a\"],\"targets\":[[\"0\"]]}",
        AcceptorFault::Shape(AcceptorField::Targets),
    ),
    (
        "{\"accepting\":[true],\"inputs\":[\"a\"],\"targets\":[[-1]]}",
        AcceptorFault::Shape(AcceptorField::Targets),
    ),
    (
        "{\"accepting\":[true],\"inputs\":[\"a\"],\"targets\":[[0.5]]}",
        AcceptorFault::Shape(AcceptorField::Targets),
    ),
    (
        "{\"accepting\":[true],\"inputs\":[\"a\"],\"targets\":[[65536]]}",
        AcceptorFault::Shape(AcceptorField::Targets),
    ),
    (
        "{\"accepting\":[],\"inputs\":[],\"targets\":[]}",
        AcceptorFault::Inputs(NamesFault::Empty),
    ),
    (
        "{\"accepting\":[],\"inputs\":[\"?\",\"a b\"],\"targets\":[]}",
        AcceptorFault::Inputs(NamesFault::BadName(1)),
    ),
    (
        "{\"accepting\":[],\"inputs\":[\"?\",\"a\",\"?\"],\"targets\":[]}",
        AcceptorFault::Inputs(NamesFault::Repeated(0, 2)),
    ),
    (
        "{\"accepting\":[],\"inputs\":[\"a\",\"b\",\"c\",\"d\",\"e\",\"f\",\"g\",\"h\",\"i\",\"j\",\"k\",\"l\",\"m\",\"n\",\"o\",\"p\",\"q\",\"r\",\"s\",\"t\",\"u\",\"v\",\"w\",\"x\",\"y\",\"z\",\"A\",\"B\",\"C\",\"D\",\"E\",\"F\",\"G\",\"H\",\"I\",\"J\",\"K\",\"L\",\"M\",\"N\",\"O\",\"P\",\"Q\",\"R\",\"S\",\"T\",\"U\",\"V\",\"W\",\"X\",\"Y\",\"Z\",\"0\",\"1\",\"2\",\"3\",\"4\",\"5\",\"6\",\"7\",\"8\",\"9\",\"+\",\"?\"],\"targets\":[]}",
        AcceptorFault::Inputs(NamesFault::TooMany(64)),
    ),
    (
        "{\"accepting\":[],\"inputs\":[\"a\",\"b\",\"c\",\"d\",\"e\",\"f\",\"g\",\"h\",\"i\",\"j\",\"k\",\"l\",\"m\",\"n\",\"o\",\"p\",\"q\",\"r\",\"s\",\"t\",\"u\",\"v\",\"w\",\"x\",\"y\",\"z\",\"A\",\"B\",\"C\",\"D\",\"E\",\"F\",\"G\",\"H\",\"I\",\"J\",\"K\",\"L\",\"M\",\"N\",\"O\",\"P\",\"Q\",\"R\",\"S\",\"T\",\"U\",\"V\",\"W\",\"X\",\"Y\",\"Z\",\"0\",\"1\",\"2\",\"3\",\"4\",\"5\",\"6\",\"7\",\"8\",\"9\",\"?\"],\"targets\":[]}",
        AcceptorFault::Reserved(62),
    ),
    (
        "{\"accepting\":[true],\"inputs\":[\"?\"],\"targets\":[[0]]}",
        AcceptorFault::Reserved(0),
    ),
    (
        "{\"accepting\":[true],\"inputs\":[\"??\",\"?\"],\"targets\":[]}",
        AcceptorFault::Reserved(1),
    ),
    (
        "{\"accepting\":[],\"inputs\":[\"a\"],\"targets\":[]}",
        AcceptorFault::NoState,
    ),
    (
        "{\"accepting\":[true],\"inputs\":[\"??\"],\"targets\":[]}",
        AcceptorFault::NoState,
    ),
    (
        "{\"accepting\":[],\"inputs\":[\"a\"],\"targets\":[[0]]}",
        AcceptorFault::Lengths,
    ),
    (
        "{\"accepting\":[true,false],\"inputs\":[\"a\"],\"targets\":[[]]}",
        AcceptorFault::Lengths,
    ),
    (
        "{\"accepting\":[true],\"inputs\":[\"a\"],\"targets\":[[]]}",
        AcceptorFault::Ragged(0),
    ),
    (
        "{\"accepting\":[true],\"inputs\":[\"a\"],\"targets\":[[0,0]]}",
        AcceptorFault::Ragged(0),
    ),
    (
        "{\"accepting\":[true,true,true],\"inputs\":[\"a\",\"b\"],\"targets\":[[0,9],[0],[0,0,0]]}",
        AcceptorFault::Ragged(1),
    ),
    (
        "{\"accepting\":[true],\"inputs\":[\"a\"],\"targets\":[[1]]}",
        AcceptorFault::Target(0, 0, 1),
    ),
    (
        "{\"accepting\":[true],\"inputs\":[\"a\"],\"targets\":[[65535]]}",
        AcceptorFault::Target(0, 0, 65535),
    ),
    (
        "{\"accepting\":[true,false],\"inputs\":[\"a\",\"b\"],\"targets\":[[0,9],[8,7]]}",
        AcceptorFault::Target(0, 1, 9),
    ),
    (
        "{\"accepting\":[true,false],\"inputs\":[\"a\",\"b\"],\"targets\":[[1,0],[2,3]]}",
        AcceptorFault::Target(1, 0, 2),
    ),
    (
        "{\"accepting\":[true,false],\"inputs\":[\"a\",\"b\"],\"targets\":[[1,0],[1,2]]}",
        AcceptorFault::Target(1, 1, 2),
    ),
];

/// The acceptor of a text.
pub fn acceptor(rt: &impl Abort, alloc: Global, text: &str) -> Acceptor {
    read_acceptor(alloc, text.as_bytes()).expect(rt, "an acceptor")
}

/// What is written of an acceptor.
pub fn accepted(rt: &impl Abort, alloc: Global, acceptor: &Acceptor) -> Vec<u8> {
    acceptor_text(alloc, acceptor).expect(rt, "memory")
}

/// Whether the acceptor of a text is written so.
fn is_written_so(rt: &impl Abort, alloc: Global, text: &str, expected: &str) -> bool {
    let acceptor = acceptor(rt, alloc, text);
    accepted(rt, alloc, &acceptor).as_slice() == expected.as_bytes()
}

/// Whether it is the acceptor of the words of even length over one letter.
fn is_even(acceptor: &Acceptor) -> bool {
    if acceptor.states() != 2 || acceptor.inputs().len() != 1 {
        return false;
    }
    let leaves = acceptor.target(0, 0) == 1 && acceptor.target(1, 0) == 0;
    leaves && acceptor.accepts(0) && !acceptor.accepts(1)
}

#[test]
fn an_acceptor_is_read_and_written(rt: HostRuntime) {
    let alloc = rt.alloc();
    for text in &SPELLED {
        assert!(rt; is_written_so(&rt, alloc, text, EVEN), "{text}");
    }
    let even = acceptor(&rt, alloc, EVEN);
    assert!(rt; is_even(&even));
    assert!(rt; even.inputs().number("a") == Some(0));
}

/// The first fault of bytes, which are no acceptor file.
fn fault_of(rt: &impl Abort, alloc: Global, bytes: &[u8]) -> AcceptorFault {
    match read_acceptor(alloc, bytes) {
        Ok(_) => rt.panic("bytes outside the grammar were taken"),
        Err(fault) => fault,
    }
}

#[test]
fn the_first_fault_of_an_acceptor_file_is_told(rt: HostRuntime) {
    let alloc = rt.alloc();
    for (text, first) in &NO_ACCEPTORS {
        assert!(rt; fault_of(&rt, alloc, text.as_bytes()) == *first, "{text}");
    }
}

/// The first fault of a file with so many empty rows and no truth values.
fn fault_of_states(rt: &impl Abort, alloc: Global, count: usize) -> AcceptorFault {
    let head = "{\"accepting\":[],\"inputs\":[\"a\"],\"targets\":[[]";
    let mut text = String::from_str(alloc, head).expect(rt, "memory");
    for _ in 1..count {
        text.push_str(",[]").expect(rt, "memory");
    }
    text.push_str("]}").expect(rt, "memory");
    fault_of(rt, alloc, text.as_bytes())
}

#[test]
fn an_acceptor_has_at_most_1024_states(rt: HostRuntime) {
    let alloc = rt.alloc();
    assert!(rt; fault_of_states(&rt, alloc, 1024) == AcceptorFault::Lengths);
    assert!(rt; fault_of_states(&rt, alloc, 1025) == AcceptorFault::TooMany(1025));
}

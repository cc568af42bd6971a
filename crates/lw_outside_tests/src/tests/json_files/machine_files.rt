//! Machine files: how they are read and written, and the first fault of bytes that are none.

use crate::tests::{machine, written};
use lw_json::{Field, JsonFault, read_machine};
use lw_mealy::MealyFault;
use lw_words::NamesFault;
use std::alloc::Global;
use std::process::Abort;

const ONE: &str = "{\"inputs\":[\"t\"],\"outputs\":[\"0\"],\"states\":[[[0,\"0\"]]]}\n";

/// The counter modulo three over one input, as it is written.
const THREE: &str =
    "{\"inputs\":[\"t\"],\"outputs\":[\"0\",\"1\"],\"states\":[[[1,\"0\"]],[[2,\"0\"]],[[0,\"1\"]]]}\n";

/// Machine files that are written otherwise than they are read.
static SPELLED: [&str; 6] = [
    "{\"states\":[[[0,\"0\"]]],\"outputs\":[\"0\"],\"inputs\":[\"t\"]}",
    " { \"inputs\" : [ \"t\" ] ,\n\"outputs\":[\"0\"],\t\"states\":[[[0,\"0\"]]] }\n\n",
    "{\"inputs\":[\"t\"],\"outputs\":[\"0\"],\"states\":[[[0,\"0\"]]],\"more\":{\"a\":[null]}}",
    "{\"inputs\":[\"\\u0074\"],\"outputs\":[\"0\"],\"states\":[[[0,\"\\u0030\"]]]}",
    "\r\n{\"inputs\":[\"t\"],\r\n\"outputs\":[\"0\"],\"states\":[[[0,\"0\"]]]}\r\n",
    "{\"inputs\":7,\"states\":[],\"outputs\":[\"0\"],\"inputs\":[\"t\"],\"states\":[[[0,\"0\"]]]}",
];

/// Bytes that are no machine file, each with its first fault.
static NO_MACHINES: [(&str, JsonFault); 54] = [
    ("", JsonFault::NotJson),
    ("x", JsonFault::NotJson),
    ("{\"inputs\":[\"t\"]", JsonFault::NotJson),
    (
        "{\"inputs\":[\"t\"],\"outputs\":[\"0\"],\"states\":[[[0,\"0\"]]]} x",
        JsonFault::NotJson,
    ),
    (
        "﻿{\"inputs\":[\"t\"],\"outputs\":[\"0\"],\"states\":[[[0,\"0\"]]]}",
        JsonFault::NotJson,
    ),
    ("{\"a\":1e999}", JsonFault::NotJson),
    ("{\"a\":\"\\ud800\"}", JsonFault::NotJson),
    ("[]", JsonFault::Shape(Field::Root)),
    ("null", JsonFault::Shape(Field::Root)),
    ("7", JsonFault::Shape(Field::Root)),
    ("{}", JsonFault::Shape(Field::Inputs)),
    (
        "{\"outputs\":0,\"states\":0}",
        JsonFault::Shape(Field::Inputs),
    ),
    (
        "{\"inputs\":\"t\",\"outputs\":0,\"states\":[[[0,\"0\"]]]}",
        JsonFault::Shape(Field::Inputs),
    ),
    (
        "{\"inputs\":[1],\"outputs\":[\"0\"],\"states\":[[[0,\"0\"]]]}",
        JsonFault::Shape(Field::Inputs),
    ),
    (
        "{\"inputs\":null,\"outputs\":[\"0\"],\"states\":[[[0,\"0\"]]]}",
        JsonFault::Shape(Field::Inputs),
    ),
    (
        "{\"inputs\":[],\"states\":0}",
        JsonFault::Shape(Field::Outputs),
    ),
    (
        "{\"inputs\":[\"t\"],\"outputs\":{\"0\":0},\"states\":0}",
        JsonFault::Shape(Field::Outputs),
    ),
    (
        "{\"inputs\":[],\"outputs\":[[\"0\"]],\"states\":[[[0,\"0\"]]]}",
        JsonFault::Shape(Field::Outputs),
    ),
    (
        "{\"inputs\":[],\"outputs\":[]}",
        JsonFault::Shape(Field::States),
    ),
    (
        "{\"inputs\":[],\"outputs\":[\"0\"],\"states\":{}}",
        JsonFault::Shape(Field::States),
    ),
    (
        "{\"inputs\":[\"t\"],\"outputs\":[\"0\"],\"states\":[0]}",
        JsonFault::Shape(Field::States),
    ),
    (
        "{\"inputs\":[\"t\"],\"outputs\":[\"0\"],\"states\":[[0]]}",
        JsonFault::Shape(Field::States),
    ),
    (
        "{\"inputs\":[\"t\"],\"outputs\":[\"0\"],\"states\":[[[0]]]}",
        JsonFault::Shape(Field::States),
    ),
    (
        "{\"inputs\":[\"t\"],\"outputs\":[\"0\"],\"states\":[[[0,\"0\",0]]]}",
        JsonFault::Shape(Field::States),
    ),
    (
        "{\"inputs\":[\"t\"],\"outputs\":[\"0\"],\"states\":[[[\"0\",\"0\"]]]}",
        JsonFault::Shape(Field::States),
    ),
    (
        "{\"inputs\":[\"t\"],\"outputs\":[\"0\"],\"states\":[[[-1,\"0\"]]]}",
        JsonFault::Shape(Field::States),
    ),
    (
        "{\"inputs\":[\"t\"],\"outputs\":[\"0\"],\"states\":[[[0.5,\"0\"]]]}",
        JsonFault::Shape(Field::States),
    ),
    (
        "{\"inputs\":[\"t\"],\"outputs\":[\"0\"],\"states\":[[[0.0,\"0\"]]]}",
        JsonFault::Shape(Field::States),
    ),
    (
        "{\"inputs\":[\"t\"],\"outputs\":[\"0\"],\"states\":[[[1e0,\"0\"]]]}",
        JsonFault::Shape(Field::States),
    ),
    (
        "{\"inputs\":[\"t\"],\"outputs\":[\"0\"],\"states\":[[[-0,\"0\"]]]}",
        JsonFault::Shape(Field::States),
    ),
    (
        "{\"inputs\":[\"t\"],\"outputs\":[\"0\"],\"states\":[[[65536,\"0\"]]]}",
        JsonFault::Shape(Field::States),
    ),
    (
        "{\"inputs\":[\"t\"],\"outputs\":[\"0\"],\"states\":[[[18446744073709551616,\"0\"]]]}",
        JsonFault::Shape(Field::States),
    ),
    (
        "{\"inputs\":[\"t\"],\"outputs\":[\"0\"],\"states\":[[[0,0]]]}",
        JsonFault::Shape(Field::States),
    ),
    (
        "{\"inputs\":[\"t\"],\"outputs\":[\"0\"],\"states\":[[[0,\"x\"],[0]]]}",
        JsonFault::Shape(Field::States),
    ),
    (
        "{\"inputs\":[],\"outputs\":[],\"states\":[]}",
        JsonFault::Inputs(NamesFault::Empty),
    ),
    (
        "{\"inputs\":[\"t t\"],\"outputs\":[],\"states\":[[[0,\"0\"]]]}",
        JsonFault::Inputs(NamesFault::BadName(0)),
    ),
    (
        "{\"inputs\":[\"t\",\"\"],\"outputs\":[\"0\"],\"states\":[[[0,\"0\"]]]}",
        JsonFault::Inputs(NamesFault::BadName(1)),
    ),
    (
        "{\"inputs\":[\"t\",\"t\",\"t t\"],\"outputs\":[\"0\"],\"states\":[[[0,\"0\"]]]}",
        JsonFault::Inputs(NamesFault::BadName(2)),
    ),
    (
        "{\"inputs\":[\"a\",\"t\",\"t\"],\"outputs\":[],\"states\":[[[0,\"0\"]]]}",
        JsonFault::Inputs(NamesFault::Repeated(1, 2)),
    ),
    (
        "{\"inputs\":[\"\\u007f\"],\"outputs\":[\"0\"],\"states\":[[[0,\"0\"]]]}",
        JsonFault::Inputs(NamesFault::BadName(0)),
    ),
    (
        "{\"inputs\":[\"\\u0020\"],\"outputs\":[\"0\"],\"states\":[[[0,\"0\"]]]}",
        JsonFault::Inputs(NamesFault::BadName(0)),
    ),
    (
        "{\"inputs\":[\"\\u00e9\"],\"outputs\":[\"0\"],\"states\":[[[0,\"0\"]]]}",
        JsonFault::Inputs(NamesFault::BadName(0)),
    ),
    (
        "{\"inputs\":[\"nnnnnnnnnnnnnnnnnnnnnnnnnnnnnnnnnnnnnnnnnnnnnnnnnnnnnnnnnnnnnnnnn\"],\"outputs\":[\"0\"],\"states\":[[[0,\"0\"]]]}",
        JsonFault::Inputs(NamesFault::BadName(0)),
    ),
    (
        "{\"inputs\":[\"t\"],\"outputs\":[],\"states\":[]}",
        JsonFault::Outputs(NamesFault::Empty),
    ),
    (
        "{\"inputs\":[\"t\"],\"outputs\":[\"0\",\"\"],\"states\":[]}",
        JsonFault::Outputs(NamesFault::BadName(1)),
    ),
    (
        "{\"inputs\":[\"t\"],\"outputs\":[\"0\",\"0\"],\"states\":[[[0,\"x\"]]]}",
        JsonFault::Outputs(NamesFault::Repeated(0, 1)),
    ),
    (
        "{\"inputs\":[\"t\"],\"outputs\":[\"0\"],\"states\":[[[0,\"1\"]],[]]}",
        JsonFault::UnknownOutput(0, 0),
    ),
    (
        "{\"inputs\":[\"a\",\"b\"],\"outputs\":[\"0\"],\"states\":[[[0,\"0\"],[0,\"0\"]],[[9,\"0\"],[0,\"1\"]],[[0,\"2\"]]]}",
        JsonFault::UnknownOutput(1, 1),
    ),
    (
        "{\"inputs\":[\"t\"],\"outputs\":[\"0\"],\"states\":[[[0,\"0\"],[0,\"1\"]]]}",
        JsonFault::UnknownOutput(0, 1),
    ),
    (
        "{\"inputs\":[\"t\"],\"outputs\":[\"0\"],\"states\":[]}",
        JsonFault::Mealy(MealyFault::NoState),
    ),
    (
        "{\"inputs\":[\"t\"],\"outputs\":[\"0\"],\"states\":[[]]}",
        JsonFault::Mealy(MealyFault::Ragged(0)),
    ),
    (
        "{\"inputs\":[\"t\"],\"outputs\":[\"0\"],\"states\":[[[9,\"0\"]],[[0,\"0\"],[0,\"0\"]]]}",
        JsonFault::Mealy(MealyFault::Ragged(1)),
    ),
    (
        "{\"inputs\":[\"t\"],\"outputs\":[\"0\"],\"states\":[[[1,\"0\"]]]}",
        JsonFault::Mealy(MealyFault::Target(0, 0, 1)),
    ),
    (
        "{\"inputs\":[\"t\"],\"outputs\":[\"0\"],\"states\":[[[0,\"0\"]],[[65535,\"0\"]]]}",
        JsonFault::Mealy(MealyFault::Target(1, 0, 65535)),
    ),
];

/// What is written of the machine that is read.
fn rewritten(rt: &impl Abort, alloc: Global, bytes: &[u8]) -> Vec<u8> {
    written(rt, alloc, &machine(rt, alloc, bytes))
}

/// Whether the machine of a text is written so.
fn is_written_so(rt: &impl Abort, alloc: Global, text: &str, expected: &str) -> bool {
    is_rewritten_so(rt, alloc, text.as_bytes(), expected)
}

fn is_rewritten_so(rt: &impl Abort, alloc: Global, bytes: &[u8], expected: &str) -> bool {
    rewritten(rt, alloc, bytes).as_slice() == expected.as_bytes()
}

#[test]
fn a_machine_is_read_and_written(rt: HostRuntime) {
    let alloc = rt.alloc();
    for text in &SPELLED {
        assert!(rt; is_written_so(&rt, alloc, text, ONE), "{text}");
    }
}

#[test]
fn a_written_machine_is_read_as_the_same(rt: HostRuntime) {
    let alloc = rt.alloc();
    let once = rewritten(&rt, alloc, THREE.as_bytes());
    assert!(rt; once.as_slice() == THREE.as_bytes());
    assert!(rt; is_rewritten_so(&rt, alloc, &once, THREE));
}

/// The first fault of bytes, which are no machine file.
pub fn fault_of(rt: &impl Abort, alloc: Global, bytes: &[u8]) -> JsonFault {
    match read_machine(alloc, bytes) {
        Ok(_) => rt.panic("bytes outside the grammar were taken"),
        Err(fault) => fault,
    }
}

#[test]
fn the_first_fault_of_a_machine_file_is_told(rt: HostRuntime) {
    let alloc = rt.alloc();
    for (text, first) in &NO_MACHINES {
        assert!(rt; fault_of(&rt, alloc, text.as_bytes()) == *first, "{text}");
    }
    assert!(rt; fault_of(&rt, alloc, b"\xff{}") == JsonFault::NotJson);
}

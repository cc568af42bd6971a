//! Setup files: what is read of them, and the first fault of bytes that are none.

use lw_json::{Field, JsonFault, Setup, Texts, read_setup};
use lw_words::{Names, NamesFault};
use std::alloc::Global;
use std::process::Abort;

/// A setup with a table, beside members that are then ignored.
const TABLE: &str = "{\"table\":\"a b.json\",\"inputs\":7,\"outputs\":null}";

/// A setup with the longest command, and outputs that are left out.
const OPEN: &str =
    "{\"command\":[\"p\",\"p\",\"p\",\"p\",\"p\",\"p\",\"p\",\"p\",\"p\",\"p\",\"p\",\"p\",\"p\",\"p\",\"p\",\"p\",\"p\",\"p\",\"p\",\"p\",\"p\",\"p\",\"p\",\"p\",\"p\",\"p\",\"p\",\"p\",\"p\",\"p\",\"p\",\"p\",\"p\",\"p\",\"p\",\"p\",\"p\",\"p\",\"p\",\"p\",\"p\",\"p\",\"p\",\"p\",\"p\",\"p\",\"p\",\"p\",\"p\",\"p\",\"p\",\"p\",\"p\",\"p\",\"p\",\"p\",\"p\",\"p\",\"p\",\"p\",\"p\",\"p\",\"p\",\"p\"],\"inputs\":[\"a\",\"b\"]}";

/// A setup with declared outputs.
const DECLARED: &str = "{\"command\":[\"p\",\"\"],\"inputs\":[\"a\"],\"outputs\":[\"x\",\"y\"]}";

/// Bytes that are no setup file, each with its first fault.
static NO_SETUPS: [(&str, JsonFault); 23] = [
    ("x", JsonFault::NotJson),
    ("[]", JsonFault::Shape(Field::Root)),
    ("{}", JsonFault::Shape(Field::Neither)),
    (
        "{\"inputs\":7,\"outputs\":7}",
        JsonFault::Shape(Field::Neither),
    ),
    (
        "{\"table\":7,\"inputs\":7}",
        JsonFault::Shape(Field::Neither),
    ),
    ("{\"table\":null}", JsonFault::Shape(Field::Neither)),
    ("{\"command\":[\"p\"]}", JsonFault::Shape(Field::Inputs)),
    (
        "{\"command\":7,\"inputs\":7,\"outputs\":7}",
        JsonFault::Shape(Field::Inputs),
    ),
    (
        "{\"command\":7,\"inputs\":[],\"outputs\":7}",
        JsonFault::Shape(Field::Outputs),
    ),
    (
        "{\"command\":7,\"inputs\":[],\"outputs\":null}",
        JsonFault::Shape(Field::Outputs),
    ),
    (
        "{\"table\":\"m\",\"command\":[\"p\"],\"inputs\":7,\"outputs\":7}",
        JsonFault::Shape(Field::Both),
    ),
    (
        "{\"table\":null,\"command\":null}",
        JsonFault::Shape(Field::Both),
    ),
    (
        "{\"command\":7,\"inputs\":[]}",
        JsonFault::Shape(Field::Command),
    ),
    (
        "{\"command\":null,\"inputs\":[\"a\"]}",
        JsonFault::Shape(Field::Command),
    ),
    (
        "{\"command\":[],\"inputs\":[],\"outputs\":[]}",
        JsonFault::Shape(Field::Command),
    ),
    (
        "{\"command\":[\"\",\"p\"],\"inputs\":[\"a\"]}",
        JsonFault::Shape(Field::Command),
    ),
    (
        "{\"command\":[\"p\",7],\"inputs\":[\"a\"]}",
        JsonFault::Shape(Field::Command),
    ),
    (
        "{\"command\":\"p\",\"inputs\":[\"a\"]}",
        JsonFault::Shape(Field::Command),
    ),
    (
        "{\"command\":[\"p\",\"p\",\"p\",\"p\",\"p\",\"p\",\"p\",\"p\",\"p\",\"p\",\"p\",\"p\",\"p\",\"p\",\"p\",\"p\",\"p\",\"p\",\"p\",\"p\",\"p\",\"p\",\"p\",\"p\",\"p\",\"p\",\"p\",\"p\",\"p\",\"p\",\"p\",\"p\",\"p\",\"p\",\"p\",\"p\",\"p\",\"p\",\"p\",\"p\",\"p\",\"p\",\"p\",\"p\",\"p\",\"p\",\"p\",\"p\",\"p\",\"p\",\"p\",\"p\",\"p\",\"p\",\"p\",\"p\",\"p\",\"p\",\"p\",\"p\",\"p\",\"p\",\"p\",\"p\",\"p\"],\"inputs\":[\"a\"]}",
        JsonFault::Shape(Field::Command),
    ),
    (
        "{\"command\":[\"p\"],\"inputs\":[],\"outputs\":[]}",
        JsonFault::Inputs(NamesFault::Empty),
    ),
    (
        "{\"command\":[\"p\"],\"inputs\":[\"a\",\"a\"],\"outputs\":[\"\"]}",
        JsonFault::Inputs(NamesFault::Repeated(0, 1)),
    ),
    (
        "{\"command\":[\"p\"],\"inputs\":[\"a\"],\"outputs\":[]}",
        JsonFault::Outputs(NamesFault::Empty),
    ),
    (
        "{\"command\":[\"p\"],\"inputs\":[\"a\"],\"outputs\":[\"0\",\"\"]}",
        JsonFault::Outputs(NamesFault::BadName(1)),
    ),
];

/// The first fault of a text, which is no setup file.
fn fault_of(rt: &impl Abort, alloc: Global, text: &str) -> JsonFault {
    match read_setup(alloc, text.as_bytes()) {
        Ok(_) => rt.panic("bytes outside the grammar were taken"),
        Err(fault) => fault,
    }
}

#[test]
fn the_first_fault_of_a_setup_file_is_told(rt: HostRuntime) {
    let alloc = rt.alloc();
    for (text, first) in &NO_SETUPS {
        assert!(rt; fault_of(&rt, alloc, text) == *first, "{text}");
    }
}

/// The setup of a text.
fn setup_of(rt: &impl Abort, alloc: Global, text: &str) -> Setup {
    read_setup(alloc, text.as_bytes()).expect(rt, "a setup")
}

/// Whether a setup has a table of this name.
fn is_table(setup: &Setup, name: &str) -> bool {
    match setup {
        Setup::Table(text) => text.get().as_str() == name,
        Setup::Command(_) => false,
    }
}

/// Whether a setup is a command of so many words and inputs, whose outputs are left out.
fn is_open(setup: &Setup, count: usize, letters: u16) -> bool {
    match setup {
        Setup::Table(_) => false,
        Setup::Command(command) => {
            command.words.get().len() == count
                && command.inputs.len() == letters
                && command.outputs.is_none()
        }
    }
}

/// Whether the second word is this one.
fn second_word_is(words: &Texts, word: &str) -> bool {
    match words.get().get(1) {
        Some(text) => text.as_str() == word,
        None => false,
    }
}

/// Whether there are names, and the second one is this one.
fn second_name_is(names: &Option<Names>, name: &str) -> bool {
    match names {
        Some(names) => names.len() > 1 && names.name(1) == name,
        None => false,
    }
}

/// Whether a setup is a command with this as its second word and that as its second output.
fn has_seconds(setup: &Setup, word: &str, output: &str) -> bool {
    match setup {
        Setup::Table(_) => false,
        Setup::Command(command) => {
            second_word_is(&command.words, word) && second_name_is(&command.outputs, output)
        }
    }
}

fn is_table_read(rt: &impl Abort, alloc: Global) -> bool {
    is_table(&setup_of(rt, alloc, TABLE), "a b.json")
}

fn is_open_read(rt: &impl Abort, alloc: Global) -> bool {
    is_open(&setup_of(rt, alloc, OPEN), 64, 2)
}

fn is_declared_read(rt: &impl Abort, alloc: Global) -> bool {
    has_seconds(&setup_of(rt, alloc, DECLARED), "", "y")
}

#[test]
fn a_setup_is_read(rt: HostRuntime) {
    let alloc = rt.alloc();
    assert!(rt; is_table_read(&rt, alloc));
    assert!(rt; is_open_read(&rt, alloc));
    assert!(rt; is_declared_read(&rt, alloc));
}

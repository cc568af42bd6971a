//! The limits of a machine file: how many names and states, how long a name, how deep lists nest.

use crate::tests::json_files::machine_files::fault_of;
use lw_json::{JsonFault, read_machine};
use lw_mealy::MealyFault;
use lw_words::NamesFault;
use std::alloc::Global;
use std::process::Abort;

/// So many different names, as a list in JSON.
fn many_names(rt: &impl Abort, alloc: Global, count: usize) -> String {
    let mut text = String::from_str(alloc, "[").expect(rt, "memory");
    for n in 0..count {
        if n > 0 {
            text.push_str(",").expect(rt, "memory");
        }
        let name = format!(in alloc; "\"n{n}\"").expect(rt, "memory");
        text.push_str(name.as_str()).expect(rt, "memory");
    }
    text.push_str("]").expect(rt, "memory");
    text
}

/// A machine file with these lists of names, and of so many states, each with itself as its target.
fn machine_file(
    rt: &impl Abort,
    alloc: Global,
    inputs: &str,
    outputs: &str,
    states: usize,
) -> String {
    let head = format!(in alloc; "{{\"inputs\":{inputs},\"outputs\":{outputs},\"states\":[");
    let mut text = head.expect(rt, "memory");
    for q in 0..states {
        if q > 0 {
            text.push_str(",").expect(rt, "memory");
        }
        let state = format!(in alloc; "[[{q},\"n0\"]]").expect(rt, "memory");
        text.push_str(state.as_str()).expect(rt, "memory");
    }
    text.push_str("]}").expect(rt, "memory");
    text
}

/// The first fault of a file with so many inputs, outputs and states.
fn fault_of_many(
    rt: &impl Abort,
    alloc: Global,
    inputs: usize,
    outputs: usize,
    states: usize,
) -> JsonFault {
    let letters = many_names(rt, alloc, inputs);
    let names = many_names(rt, alloc, outputs);
    let text = machine_file(rt, alloc, letters.as_str(), names.as_str(), states);
    fault_of(rt, alloc, text.as_bytes())
}

/// Whether a file with one input and so many outputs and states is read as a machine that has them.
fn has_many(rt: &impl Abort, alloc: Global, outputs: u16, states: u16) -> bool {
    let names = many_names(rt, alloc, usize::from(outputs));
    let text = machine_file(rt, alloc, "[\"n0\"]", names.as_str(), usize::from(states));
    let machine = read_machine(alloc, text.as_bytes()).expect(rt, "a machine");
    machine.outputs.len() == outputs && machine.mealy.states() == states
}

/// The first fault of a file with so many inputs, one output that is no name, and one state.
fn fault_of_inputs(rt: &impl Abort, alloc: Global, inputs: usize) -> JsonFault {
    let letters = many_names(rt, alloc, inputs);
    let text = machine_file(rt, alloc, letters.as_str(), "[\"\"]", 1);
    fault_of(rt, alloc, text.as_bytes())
}

#[test]
fn limits_of_a_machine_file(rt: HostRuntime) {
    let alloc = rt.alloc();
    assert!(rt; has_many(&rt, alloc, 4096, 1024));
    let states = JsonFault::Mealy(MealyFault::TooMany(1025));
    assert!(rt; fault_of_many(&rt, alloc, 1, 1, 1025) == states);
    let outputs = JsonFault::Outputs(NamesFault::TooMany(4097));
    assert!(rt; fault_of_many(&rt, alloc, 1, 4097, 1) == outputs);
    let row = JsonFault::Mealy(MealyFault::Ragged(0));
    assert!(rt; fault_of_many(&rt, alloc, 64, 1, 1) == row);
    let inputs = JsonFault::Inputs(NamesFault::TooMany(65));
    assert!(rt; fault_of_inputs(&rt, alloc, 65) == inputs);
}

fn is_read(alloc: Global, text: &str) -> bool {
    read_machine(alloc, text.as_bytes()).is_ok()
}

#[test]
fn a_name_has_at_most_64_bytes(rt: HostRuntime) {
    let alloc = rt.alloc();
    let longest = "nnnnnnnnnnnnnnnnnnnnnnnnnnnnnnnnnnnnnnnnnnnnnnnnnnnnnnnnnnnnnnnn";
    let names = format!(in alloc; "[\"{longest}\"]").expect(&rt, "memory");
    let text = machine_file(&rt, alloc, names.as_str(), "[\"n0\"]", 1);
    assert!(rt; is_read(alloc, text.as_str()));
}

/// A machine file with a further member of so many lists in one another.
fn nested_file(rt: &impl Abort, alloc: Global, lists: usize) -> String {
    let mut text = String::from_str(alloc, "{\"deep\":").expect(rt, "memory");
    for _ in 0..lists {
        text.push_str("[").expect(rt, "memory");
    }
    for _ in 0..lists {
        text.push_str("]").expect(rt, "memory");
    }
    let rest = ",\"inputs\":[\"t\"],\"outputs\":[\"0\"],\"states\":[[[0,\"0\"]]]}";
    text.push_str(rest).expect(rt, "memory");
    text
}

#[test]
fn a_file_nests_to_127_levels(rt: HostRuntime) {
    let alloc = rt.alloc();
    let text = nested_file(&rt, alloc, 126);
    assert!(rt; is_read(alloc, text.as_str()));
    let text = nested_file(&rt, alloc, 127);
    assert!(rt; fault_of(&rt, alloc, text.as_bytes()) == JsonFault::NotJson);
}

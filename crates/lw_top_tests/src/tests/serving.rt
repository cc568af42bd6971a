//! A counter modulo three that is served, worked by hand, and what is asked of other commands.
use crate::tests::cases::{Case, PLAIN, Shell, check_all, files_of, source, status_of, texts};
use lw_outside::{MemorySource, Source};
use lw_top::serve_arguments;
use std::alloc::Global;
use std::process::Abort;
use std::sync::Wait;
use std::thread::Threads;

const COUNTER: &str =
    "{\"inputs\":[\"t\"],\"outputs\":[\"0\",\"1\"],\"states\":[[[1,\"0\"]],[[2,\"0\"]],[[0,\"1\"]]]}\n";

/// A child that is asked for two letters, and to end.
const SERVED: Case = Case {
    arguments: &["serve", "m"],
    file: COUNTER,
    input: "reset\nin t\nin t\nquit\n",
    out: "ready\nout 0\nout 0\n",
    err: "",
    ..PLAIN
};

static SERVINGS: [Case; 9] = [
    SERVED,
    Case {
        input: "reset\r\nin t\r\nin t\r\nin t\r\n",
        out: "ready\nout 0\nout 0\nout 1\n",
        ..SERVED
    },
    Case {
        input: "reset\nin z\n",
        status: 6,
        out: "ready\n",
        err: "bad line: 2\n",
        ..SERVED
    },
    Case {
        input_plan: &[1],
        status: 8,
        out: "ready\n",
        err: "source fault\n",
        ..SERVED
    },
    Case {
        out_plan: &[0],
        status: 8,
        out: "",
        err: "sink fault\n",
        ..SERVED
    },
    Case {
        file_plan: &[0],
        status: 8,
        out: "",
        err: "file fault: model\n",
        ..SERVED
    },
    Case {
        arguments: &["serve", "other"],
        status: 8,
        out: "",
        err: "file fault: model\n",
        ..SERVED
    },
    Case {
        file: "x",
        status: 3,
        out: "",
        err: "bad file model: not JSON\n",
        ..SERVED
    },
    Case {
        input: "",
        out: "",
        ..SERVED
    },
];

#[test]
fn a_counter_that_is_served(rt: HostRuntime) {
    check_all(&rt, rt.alloc(), &SERVINGS);
}

/// The model file that `serve` takes the arguments for, if it takes them.
fn model(rt: &impl Abort, alloc: Global, arguments: &[&str]) -> Option<String> {
    serve_arguments(alloc, &texts(rt, alloc, arguments)).ok()
}

/// Whether `serve` takes the arguments for this model file.
fn names(rt: &impl Abort, alloc: Global, arguments: &[&str], name: &str) -> bool {
    match model(rt, alloc, arguments) {
        Some(model) => model.as_str() == name,
        None => false,
    }
}

#[test]
fn arguments_of_serve(rt: HostRuntime) {
    let alloc = rt.alloc();
    assert!(rt; names(&rt, alloc, &["serve", "counter"], "counter"));
    assert!(rt; names(&rt, alloc, &["serve", "--", "--counter"], "--counter"));
    assert!(rt; model(&rt, alloc, &["serve"]).is_none());
    assert!(rt; model(&rt, alloc, &["serve", "counter", "counter"]).is_none());
    assert!(rt; model(&rt, alloc, &["serve", "counter", "--extra", "1"]).is_none());
}

/// Whether the input still gives its line.
fn is_unread(input: &mut MemorySource) -> bool {
    let mut buffer = [0u8; 6];
    match input.read(&mut buffer) {
        Ok(count) => count == 6 && buffer.as_slice() == "reset\n".as_bytes(),
        Err(_) => false,
    }
}

/// Whether a call over the file `m` leaves its input.
fn leaves_input<R: Abort + Threads + Wait + Sync + Copy + Drop>(
    rt: &R,
    alloc: Global,
    arguments: &[&str],
) -> bool {
    let mut shell = Shell::new(rt, alloc, arguments, files_of(rt, alloc, COUNTER, &[]));
    shell.world.input = source(rt, alloc, "reset\n", &[]);
    let _status = status_of(rt, alloc, &mut shell);
    is_unread(&mut shell.world.input)
}

#[test]
fn only_serve_asks_for_input(rt: HostRuntime) {
    let alloc = rt.alloc();
    assert!(rt; leaves_input(&rt, alloc, &["learn", "--table", "m"]));
    assert!(rt; leaves_input(&rt, alloc, &["check", "m", "m"]));
    assert!(rt; leaves_input(&rt, alloc, &["serve", "other"]));
    assert!(rt; leaves_input(&rt, alloc, &["serve"]));
    assert!(rt; !leaves_input(&rt, alloc, &["serve", "m"]));
}

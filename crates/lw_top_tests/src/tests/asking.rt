//! `ask` and `compare` over memory, worked by hand, and arguments that they don't take.
use crate::tests::cases::{Case, PLAIN, check_all, texts};
use lw_top::{ArgumentStop, ask_arguments, compare_arguments};
use std::alloc::Global;
use std::process::Abort;

const COUNTER: &str =
    "{\"inputs\":[\"t\"],\"outputs\":[\"0\",\"1\"],\"states\":[[[1,\"0\"]],[[2,\"0\"]],[[0,\"1\"]]]}\n";

/// A table that is asked, and models that are compared.
const ASKED: Case = Case {
    arguments: &["ask", "--table", "m", "t t t", "t"],
    file: COUNTER,
    out: "t t t / 0 0 1\nt / 0\n",
    err: "",
    ..PLAIN
};

static CASES: [Case; 7] = [
    ASKED,
    Case {
        arguments: &["ask", "t t t", "--table=m", "t"],
        ..ASKED
    },
    Case {
        arguments: &["ask", "--table", "m", "t", "t x"],
        status: 3,
        out: "",
        err: "bad word 2: letter 2 is no input\n",
        ..ASKED
    },
    Case {
        arguments: &["ask", "other", "t"],
        status: 8,
        out: "",
        err: "file fault: setup\n",
        ..ASKED
    },
    Case {
        arguments: &["compare", "m", "m"],
        out: "equal\n",
        ..ASKED
    },
    Case {
        arguments: &["compare", "m", "other"],
        status: 8,
        out: "",
        err: "file fault: second model\n",
        ..ASKED
    },
    Case {
        arguments: &["compare", "other", "m"],
        status: 8,
        out: "",
        err: "file fault: model\n",
        ..ASKED
    },
];

#[test]
fn commands_that_ask_and_compare(rt: HostRuntime) {
    check_all(&rt, rt.alloc(), &CASES);
}

/// Whether the command of these arguments takes them.
fn is_taken(rt: &impl Abort, alloc: Global, arguments: &[&str]) -> bool {
    let arguments = texts(rt, alloc, arguments);
    let ask = !matches!(ask_arguments(alloc, &arguments), Err(ArgumentStop::Usage));
    let compare = !matches!(
        compare_arguments(alloc, &arguments),
        Err(ArgumentStop::Usage)
    );
    ask || compare
}

static TAKEN: [&[&str]; 5] = [
    &["ask", "s", "a"],
    &["ask", "s", ""],
    &["ask", "--table=m", "a", "b"],
    &["ask", "s", "--", "-a"],
    &["compare", "m", "n"],
];

static REFUSED: [&[&str]; 8] = [
    &["ask"],
    &["ask", "s"],
    &["ask", "--table=m"],
    &["ask", "--table=m", "--table=n", "a"],
    &["ask", "s", "a", "--other"],
    &["compare", "m"],
    &["compare", "m", "n", "more"],
    &["compared", "m", "n"],
];

#[test]
fn arguments_of_ask_and_compare(rt: HostRuntime) {
    for arguments in &TAKEN {
        assert!(rt; is_taken(&rt, rt.alloc(), arguments));
    }
    for arguments in &REFUSED {
        assert!(rt; !is_taken(&rt, rt.alloc(), arguments));
    }
}

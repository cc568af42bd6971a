//! The flag `--verbose`, which takes no value, and the option `--last`.
use crate::tests::cases::{ONE, Shell, files_of, status_of, texts};
use crate::tests::refusals::is_refused;
use lw_top::{accept_arguments, learn_arguments};
use std::alloc::Global;
use std::process::Abort;
use std::sync::Wait;
use std::thread::Threads;

/// Arguments that are not taken, and why.
static REFUSED: [(&[&str], &str); 16] = [
    (&["learn", "m", "--verbose", "x"], "too many arguments: x\n"),
    (&["learn", "--verbose", "m", "x"], "too many arguments: x\n"),
    (
        &["learn", "--table", "m", "--verbose", "x"],
        "one of SETUP and --table is wanted\n",
    ),
    (
        &["learn", "--verbose"],
        "one of SETUP and --table is wanted\n",
    ),
    (
        &["learn", "--table", "m", "--verbose=1"],
        "--verbose takes no value\n",
    ),
    (
        &["learn", "--table", "m", "--verbose=true"],
        "--verbose takes no value\n",
    ),
    (
        &["learn", "--table", "m", "--verbose="],
        "--verbose takes no value\n",
    ),
    (
        &["learn", "--table", "m", "--verbose", "--verbose"],
        "--verbose is given twice\n",
    ),
    (
        &["accept", "--verbose", "m", "--verbose"],
        "--verbose is given twice\n",
    ),
    (
        &["accept", "m", "--verbose=1"],
        "--verbose takes no value\n",
    ),
    (
        &["accept", "m", "--verbose", "x"],
        "too many arguments: x\n",
    ),
    (
        &["learn", "--table", "--verbose"],
        "--table needs a value\n",
    ),
    (
        &["learn", "--table", "m", "--last"],
        "--last needs a value\n",
    ),
    (
        &["accept", "--table", "m", "--last=a", "--last", "b"],
        "--last is given twice\n",
    ),
    (
        &["check", "m", "k", "--verbose"],
        "unknown option --verbose\n",
    ),
    (&["serve", "m", "--last", "x"], "unknown option --last\n"),
];

#[test]
fn flags_that_are_not_taken(rt: HostRuntime) {
    for (arguments, reason) in &REFUSED {
        assert!(rt; is_refused(&rt, rt.alloc(), arguments, reason), "{reason}");
    }
}

/// Whether `learn` takes the arguments, and tells progress.
fn learn_tells(rt: &impl Abort, alloc: Global, arguments: &[&str]) -> bool {
    match learn_arguments(alloc, &texts(rt, alloc, arguments)) {
        Ok(values) => values.verbose(),
        Err(_) => false,
    }
}

/// The same of `accept`.
fn accept_tells(rt: &impl Abort, alloc: Global, arguments: &[&str]) -> bool {
    match accept_arguments(alloc, &texts(rt, alloc, arguments)) {
        Ok(values) => values.verbose(),
        Err(_) => false,
    }
}

#[test]
fn flags_before_and_behind_a_text(rt: HostRuntime) {
    let alloc = rt.alloc();
    assert!(rt; learn_tells(&rt, alloc, &["learn", "m", "--verbose"]));
    assert!(rt; learn_tells(&rt, alloc, &["learn", "--verbose", "m"]));
    assert!(rt;
        learn_tells(
            &rt,
            alloc,
            &["learn", "--verbose", "--last", "l", "--", "m"]
        )
    );
    assert!(rt; !learn_tells(&rt, alloc, &["learn", "m", "--last", "l"]));
    assert!(rt; !learn_tells(&rt, alloc, &["learn", "--", "--verbose"]));
    assert!(rt; accept_tells(&rt, alloc, &["accept", "--verbose", "m"]));
    assert!(rt; !accept_tells(&rt, alloc, &["accept", "m"]));
}

/// Whether `learn` takes the arguments, with this file for the last machine.
fn is_last(rt: &impl Abort, alloc: Global, arguments: &[&str], file: &str) -> bool {
    match learn_arguments(alloc, &texts(rt, alloc, arguments)) {
        Ok(values) => values.last() == Some(file),
        Err(_) => false,
    }
}

#[test]
fn file_of_the_last_machine(rt: HostRuntime) {
    let alloc = rt.alloc();
    assert!(rt;
        is_last(
            &rt,
            alloc,
            &["learn", "m", "--kept", "k", "--last", "l"],
            "l"
        )
    );
    assert!(rt; is_last(&rt, alloc, &["learn", "m", "--last=l", "--verbose"], "l"));
    assert!(rt; !is_last(&rt, alloc, &["learn", "m", "--kept", "l"], "l"));
}

/// Whether a call that learns a model notes anything.
fn notes<R: Abort + Threads + Wait + Sync + Copy + Drop>(
    rt: &R,
    alloc: Global,
    arguments: &[&str],
) -> bool {
    let mut shell = Shell::new(rt, alloc, arguments, files_of(rt, alloc, ONE, &[]));
    assert!(rt; status_of(rt, alloc, &mut shell) == 0);
    assert_eq!(rt; shell.world.out.taken(), ONE.as_bytes());
    !shell.world.log.notes().taken().is_empty()
}

#[test]
fn notes_where_they_are_wanted(rt: HostRuntime) {
    let alloc = rt.alloc();
    assert!(rt; notes(&rt, alloc, &["learn", "--table", "m", "--verbose"]));
    assert!(rt; !notes(&rt, alloc, &["learn", "--table", "m"]));
}

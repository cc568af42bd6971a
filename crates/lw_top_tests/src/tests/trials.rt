//! Trials: small ones worked by hand, and greater ones that many workers make as one does.
use crate::tests::cases::{Case, PLAIN, Shell, call, check_all, files_of, let_go, status_of};
use lw_outside::MemorySink;
use lw_report::End;
use std::alloc::Global;
use std::process::Abort;
use std::sync::Wait;
use std::thread::Threads;

static SMALL: [Case; 3] = [
    Case {
        arguments: &["trial", "--states", "1", "--inputs", "1", "--seed", "0"],
        out: "trial: states 1, inputs 1, seed 0\nlearned: states 1, refinements 0, answers 1\nequal: yes\n",
        err: "",
        ..PLAIN
    },
    Case {
        arguments: &["trial", "--states", "3", "--inputs", "1", "--seed", "0"],
        out: "trial: states 3, inputs 1, seed 0\nlearned: states 1, refinements 0, answers 1\nequal: no\n",
        err: "",
        ..PLAIN
    },
    Case {
        arguments: &["trial", "--states", "1", "--inputs", "1", "--seed", "0"],
        out_plan: &[0],
        status: 8,
        out: "",
        err: "sink fault\n",
        ..PLAIN
    },
];

#[test]
fn small_trials(rt: HostRuntime) {
    check_all(&rt, rt.alloc(), &SMALL);
}

/// The shell of a trial, over an empty file.
fn shell_of(rt: &impl Abort, alloc: Global, arguments: &[&str]) -> Shell {
    Shell::new(rt, alloc, arguments, files_of(rt, alloc, "", &[]))
}

/// What a trial, which succeeds, tells.
fn told<R: Abort + Threads + Wait + Sync + Copy + Drop>(
    rt: &R,
    alloc: Global,
    shell: &mut Shell,
) -> Vec<u8> {
    assert!(rt; status_of(rt, alloc, shell) == 0);
    Vec::from_slice(alloc, shell.world.out.taken()).expect(rt, "memory")
}

/// What a trial of two hundred states with so many workers, which succeeds, tells.
fn two_hundred<R: Abort + Threads + Wait + Sync + Copy + Drop>(
    rt: &R,
    alloc: Global,
    workers: &str,
) -> Vec<u8> {
    let arguments = [
        "trial",
        "--states=200",
        "--inputs=4",
        "--seed=7",
        "--workers",
        workers,
    ];
    let mut shell = shell_of(rt, alloc, &arguments);
    told(rt, alloc, &mut shell)
}

#[test]
fn two_hundred_states_at_any_number_of_workers(rt: HostRuntime) {
    let one = two_hundred(&rt, rt.alloc(), "1");
    for workers in ["2", "8"] {
        let other = two_hundred(&rt, rt.alloc(), workers);
        assert!(rt; other.as_slice() == one.as_slice(), "{workers} workers");
    }
}

/// Whether twenty states were learned, and the machine that was found is the one that was drawn.
fn is_found(out: &MemorySink) -> bool {
    let begun = "trial: states 20, inputs 2, seed 1\nlearned: states 20, refinements ".as_bytes();
    out.taken().starts_with(begun) && out.taken().ends_with("\nequal: yes\n".as_bytes())
}

/// Whether this learner finds a machine of twenty states and two inputs that is drawn by seed 1.
fn finds<R: Abort + Threads + Wait + Sync + Copy + Drop>(
    rt: &R,
    alloc: Global,
    learner: &str,
) -> bool {
    let arguments = [
        "trial",
        "--states=20",
        "--inputs=2",
        "--seed=1",
        "--learner",
        learner,
    ];
    let mut shell = shell_of(rt, alloc, &arguments);
    let _status = status_of(rt, alloc, &mut shell);
    is_found(&shell.world.out)
}

#[test]
fn a_machine_is_found_by_either_learner(rt: HostRuntime) {
    for learner in ["table", "ttt"] {
        assert!(rt; finds(&rt, rt.alloc(), learner), "{learner}");
    }
}

/// Whether answers of two instances are kept.
fn has_two_instances(end: &End) -> bool {
    let mut later = false;
    let mut first = false;
    for i in 0..end.kept.len() {
        later = later || end.kept.get(i).instance > 0;
        first = first || end.kept.get(i).instance == 0;
    }
    first && later
}

/// Whether a trial has answers of two instances.
fn shares<R: Threads + Wait + Sync + Copy + Drop>(
    rt: &R,
    alloc: Global,
    shell: &mut Shell,
) -> bool {
    let end = call(rt, alloc, shell);
    let right = has_two_instances(&end);
    let_go(end);
    right
}

/// Whether a trial with eight workers has answers of two instances.
fn is_shared<R: Abort + Threads + Wait + Sync + Copy + Drop>(rt: &R, alloc: Global) -> bool {
    let arguments = [
        "trial",
        "--states=20",
        "--inputs=4",
        "--seed=7",
        "--workers=8",
    ];
    let mut shell = shell_of(rt, alloc, &arguments);
    shares(rt, alloc, &mut shell)
}

/// Whether one of a hundred such trials has.
fn is_once_shared<R: Abort + Threads + Wait + Sync + Copy + Drop>(rt: &R, alloc: Global) -> bool {
    for _ in 0u8..100 {
        if is_shared(rt, alloc) {
            return true;
        }
    }
    false
}

#[test]
fn workers_share_a_trial(rt: HostRuntime) {
    assert!(rt; is_once_shared(&rt, rt.alloc()));
}

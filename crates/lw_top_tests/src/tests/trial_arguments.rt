//! Arguments that `trial` takes, and some that it doesn't.
use crate::tests::cases::texts;
use lw_rounds::Kind;
use lw_top::trial_arguments;
use lw_trial::TrialArguments;
use std::alloc::Global;
use std::process::Abort;

/// What `trial` takes the arguments for, if it takes them.
fn taken(rt: &impl Abort, alloc: Global, arguments: &[&str]) -> Option<TrialArguments> {
    trial_arguments(alloc, &texts(rt, alloc, arguments)).ok()
}

/// Whether the arguments are taken, as these states, inputs, seed and instances.
fn is_trial(
    rt: &impl Abort,
    alloc: Global,
    arguments: &[&str],
    sizes: (u16, u16, u8),
    seed: u64,
) -> bool {
    match taken(rt, alloc, arguments) {
        Some(t) => seed == t.seed() && sizes == (t.states(), t.inputs(), t.workers()),
        None => false,
    }
}

#[test]
fn arguments_of_trial(rt: HostRuntime) {
    let alloc = rt.alloc();
    let least = ["trial", "--seed", "0", "--inputs", "1", "--states", "1"];
    assert!(rt; is_trial(&rt, alloc, &least, (1, 1, 1), 0));
    let greatest = [
        "trial",
        "--states=1024",
        "--inputs=64",
        "--seed=18446744073709551615",
        "--workers=16",
    ];
    assert!(rt; is_trial(&rt, alloc, &greatest, (1024, 64, 16), 18446744073709551615));
}

/// The kind of learner that the arguments name to `trial`, if it takes them.
fn learner_of(rt: &impl Abort, alloc: Global, arguments: &[&str]) -> Option<Kind> {
    match taken(rt, alloc, arguments) {
        Some(t) => Some(t.learner()),
        None => None,
    }
}

#[test]
fn learners_of_trial(rt: HostRuntime) {
    let alloc = rt.alloc();
    let plain = ["trial", "--seed=0", "--inputs=1", "--states=1"];
    assert!(rt; learner_of(&rt, alloc, &plain) == Some(Kind::Table));
    let table = [
        "trial",
        "--learner",
        "table",
        "--seed=0",
        "--inputs=1",
        "--states=1",
    ];
    assert!(rt; learner_of(&rt, alloc, &table) == Some(Kind::Table));
    let tree = [
        "trial",
        "--seed=0",
        "--inputs=1",
        "--states=1",
        "--learner=ttt",
    ];
    assert!(rt; learner_of(&rt, alloc, &tree) == Some(Kind::Ttt));
}

/// The arguments of a trial, of which one is missing, out of its range or there twice.
static REFUSED: [&[&str]; 15] = [
    &["trial"],
    &["trial", "--inputs=1", "--seed=0"],
    &["trial", "--states=1", "--seed=0"],
    &["trial", "--states=1", "--inputs=1"],
    &["trial", "--states=0", "--inputs=1", "--seed=0"],
    &["trial", "--states=1025", "--inputs=1", "--seed=0"],
    &["trial", "--states=1", "--inputs=0", "--seed=0"],
    &["trial", "--states=1", "--inputs=65", "--seed=0"],
    &[
        "trial",
        "--states=1",
        "--inputs=1",
        "--seed=18446744073709551616",
    ],
    &[
        "trial",
        "--states=1",
        "--inputs=1",
        "--seed=0",
        "--workers=0",
    ],
    &[
        "trial",
        "--states=1",
        "--inputs=1",
        "--seed=0",
        "--workers=17",
    ],
    &["trial", "--states=1", "--inputs=1", "--seed=0", "--seed=0"],
    &["trial", "--states=1", "--inputs=1", "--seed=0", "more"],
    &[
        "trial",
        "--states=1",
        "--inputs=1",
        "--seed=0",
        "--learner=TTT",
    ],
    &[
        "trial",
        "--states=1",
        "--inputs=1",
        "--seed=0",
        "--learner=ttt",
        "--learner=ttt",
    ],
];

#[test]
fn arguments_that_are_no_trial(rt: HostRuntime) {
    for arguments in &REFUSED {
        assert!(rt; taken(&rt, rt.alloc(), arguments).is_none());
    }
}

//! What is refused: arguments that are not taken, and texts that are no machine file.
use crate::tests::cases::{Case, ONE, PLAIN, Shell, check, files_of, status_of, texts};
use lw_top::{check_arguments, learn_arguments};
use std::alloc::Global;
use std::process::Abort;
use std::sync::Wait;
use std::thread::Threads;

pub const USAGE: &str =
    "usage: learn (SETUP | --table FILE) [--workers N] [--extra K] [--learner table|ttt] [--max-states N] [--model FILE] [--answers FILE] [--prior FILE] [--suite w|wp]
       accept (SETUP | --table FILE) [--workers N] [--extra K] [--learner table|ttt] [--max-states N] [--model FILE]
       check MODEL ANSWERS [--extra K] [--suite w|wp]
       serve MODEL
       trial --states N --inputs A --seed S [--workers N] [--learner table|ttt]
added: learn .. [--kept FILE] [--words FILE] [[--random R] [--walks N] --length L --seed S] [--log FILE] [--suite w|wp|h] [--last FILE] [--journal FILE] [--verbose]
       accept .. [--kept FILE] [--words FILE] [[--random R] [--walks N] --length L --seed S] [--log FILE] [--last FILE] [--journal FILE] [--verbose]
       check (MODEL | --acceptor FILE) ANSWERS [--extra K] [--suite w|wp|h]
       ask (SETUP | --table FILE | --accept SETUP | --acceptor FILE) WORD...
       recheck SETUP ANSWERS
       compare MODEL MODEL
       trial .. [--suite w|wp|h]
       help [COMMAND]
";

/// Arguments that are not taken, and why.
static REFUSED: [(&[&str], &str); 61] = [
    (&[], "no command, or an argument that is no text\n"),
    (&["learns"], "unknown command learns\n"),
    (&["--help"], "try help\n"),
    (&["-V"], "try help\n"),
    (&["--version"], "try help\n"),
    (&["learn"], "one of SETUP and --table is wanted\n"),
    (&["learn", "--table"], "--table needs a value\n"),
    (
        &["learn", "--table", "m", "m"],
        "one of SETUP and --table is wanted\n",
    ),
    (&["learn", "m", "m"], "too many arguments: m\n"),
    (
        &["learn", "--table", "m", "--table", "m"],
        "--table is given twice\n",
    ),
    (
        &["learn", "--table", "m", "--extra", "5"],
        "--extra is out of range: 0 to 4\n",
    ),
    (
        &["learn", "--table", "m", "--extra", "many"],
        "--extra is out of range: 0 to 4\n",
    ),
    (
        &["learn", "--table", "m", "--extra", "-0"],
        "--extra needs a value\n",
    ),
    (
        &["learn", "--table", "m", "--max-states", "0"],
        "--max-states is out of range: 1 to 1024\n",
    ),
    (
        &["learn", "--table", "m", "--workers", "17"],
        "--workers is out of range: 1 to 16\n",
    ),
    (
        &["learn", "--table", "m", "--workers", "0"],
        "--workers is out of range: 1 to 16\n",
    ),
    (
        &["learn", "--table", "m", "--worker", "1"],
        "unknown option --worker\n",
    ),
    (
        &["learn", "--table", "m", "--worker=1"],
        "unknown option --worker\n",
    ),
    (&["learn", "-x", "--table", "m"], "unknown option -x\n"),
    (
        &["learn", "--table", "m", "--learner", "tree"],
        "--learner is none of table, ttt\n",
    ),
    (
        &["learn", "--table", "m", "--learner", ""],
        "--learner is none of table, ttt\n",
    ),
    (
        &["learn", "--table", "m", "--learner"],
        "--learner needs a value\n",
    ),
    (
        &["learn", "--table", "m", "--learner=ttt", "--learner=ttt"],
        "--learner is given twice\n",
    ),
    (
        &["learn", "--table", "m", "--suite", "x"],
        "--suite is none of w, wp, h\n",
    ),
    (
        &["learn", "--table", "m", "--suite"],
        "--suite needs a value\n",
    ),
    (
        &["learn", "--table", "m", "--words"],
        "--words needs a value\n",
    ),
    (&["learn", "--help"], "try help learn\n"),
    (&["accept", "m", "--suite", "w"], "unknown option --suite\n"),
    (&["accept", "-h"], "try help accept\n"),
    (
        &["trial", "--states", "3", "--inputs", "1"],
        "--seed is missing\n",
    ),
    (
        &["trial", "--states", "0", "--inputs", "1", "--seed", "0"],
        "--states is out of range: 1 to 1024\n",
    ),
    (
        &["trial", "--states", "3", "--inputs", "65", "--seed", "0"],
        "--inputs is out of range: 1 to 64\n",
    ),
    (
        &[
            "trial", "m", "--states", "3", "--inputs", "1", "--seed", "0",
        ],
        "too many arguments: m\n",
    ),
    (&["serve"], "MODEL is missing\n"),
    (&["serve", "m", "m"], "too many arguments: m\n"),
    (&["serve", "--", "m", "-k"], "too many arguments: -k\n"),
    (&["serve", "m", "--extra", "1"], "unknown option --extra\n"),
    (&["serve", "m", "--suite", "wp"], "unknown option --suite\n"),
    (&["check"], "one of MODEL and --acceptor is wanted\n"),
    (&["check", "m"], "ANSWERS is missing\n"),
    (&["check", "m", "k", "l"], "too many arguments: l\n"),
    (&["check", "--acceptor", "m"], "ANSWERS is missing\n"),
    (
        &["check", "--acceptor", "m", "k", "l"],
        "one of MODEL and --acceptor is wanted\n",
    ),
    (&["check", "--table", "m"], "unknown option --table\n"),
    (
        &["check", "m", "k", "--suite", "W"],
        "--suite is none of w, wp, h\n",
    ),
    (
        &["ask"],
        "one of SETUP and --table and --accept and --acceptor is wanted\n",
    ),
    (&["ask", "s"], "WORD is missing\n"),
    (&["ask", "--table", "m"], "WORD is missing\n"),
    (
        &["ask", "--table", "m", "--accept", "s", "a"],
        "one of SETUP and --table and --accept and --acceptor is wanted\n",
    ),
    (&["recheck"], "SETUP is missing\n"),
    (&["recheck", "s"], "ANSWERS is missing\n"),
    (&["recheck", "s", "a", "b"], "too many arguments: b\n"),
    (
        &["recheck", "--table", "s", "a"],
        "unknown option --table\n",
    ),
    (&["compare", "m"], "MODEL is missing\n"),
    (&["help", "learns"], "unknown command learns\n"),
    (&["help", "learn", "accept"], "too many arguments: accept\n"),
    (&["help", "--all"], "unknown option --all\n"),
    (&["learn\u{7f}"], "unknown command\n"),
    (&["learn", "--löwe"], "unknown option\n"),
    (
        &["0123456789012345678901234567890123456789012345678901234567890123"],
        "unknown command 0123456789012345678901234567890123456789012345678901234567890123\n",
    ),
    (
        &["01234567890123456789012345678901234567890123456789012345678901234"],
        "unknown command\n",
    ),
];

/// The same of words and walks that are to be drawn.
static UNDRAWN: [(&[&str], &str); 14] = [
    (
        &["learn", "--table", "m", "--random", "3"],
        "--random needs --length and --seed\n",
    ),
    (
        &["learn", "--table", "m", "--length", "3", "--seed", "1"],
        "--length needs --random or --walks\n",
    ),
    (
        &["learn", "--table", "m", "--length", "3"],
        "--length needs --random or --walks and --seed\n",
    ),
    (
        &["accept", "--table", "m", "--seed", "1"],
        "--seed needs --random or --walks and --length\n",
    ),
    (
        &["learn", "--table", "m", "--random", "3", "--seed", "1"],
        "--random needs --length\n",
    ),
    (
        &["learn", "--table", "m", "--walks", "3"],
        "--walks needs --length and --seed\n",
    ),
    (
        &["learn", "--table", "m", "--walks", "3", "--seed", "1"],
        "--walks needs --length\n",
    ),
    (
        &[
            "learn", "--table", "m", "--random", "3", "--walks", "3", "--length", "3",
        ],
        "--walks needs --seed\n",
    ),
    (
        &["accept", "--table", "m", "--walks", "3"],
        "--walks needs --length and --seed\n",
    ),
    (
        &[
            "learn", "--table", "m", "--walks", "1000001", "--length", "3", "--seed", "1",
        ],
        "--walks is out of range: 0 to 1000000\n",
    ),
    (
        &["check", "m", "k", "--walks", "3"],
        "unknown option --walks\n",
    ),
    (
        &[
            "learn", "--table", "m", "--random", "1000001", "--length", "3", "--seed", "1",
        ],
        "--random is out of range: 0 to 1000000\n",
    ),
    (
        &[
            "learn", "--table", "m", "--random", "3", "--length", "65537", "--seed", "1",
        ],
        "--length is out of range: 0 to 65536\n",
    ),
    (
        &[
            "learn", "--table", "m", "--random", "3", "--length", "3", "--seed", "-1",
        ],
        "--seed needs a value\n",
    ),
];

/// Whether bytes are two texts, one behind the other.
fn are_both(bytes: &[u8], first: &str, second: &str) -> bool {
    match bytes.strip_prefix(first.as_bytes()) {
        Some(rest) => rest == second.as_bytes(),
        None => false,
    }
}

/// Whether a call ends with the usage, this line behind it, and nothing else.
fn tells<R: Threads + Wait + Sync + Copy + Drop>(
    rt: &R,
    alloc: Global,
    shell: &mut Shell,
    reason: &str,
) -> bool {
    status_of(rt, alloc, shell) == 2
        && shell.world.out.taken().is_empty()
        && are_both(shell.world.err.taken(), USAGE, reason)
}

/// Whether these arguments are not taken, for this reason.
pub fn is_refused<R: Abort + Threads + Wait + Sync + Copy + Drop>(
    rt: &R,
    alloc: Global,
    arguments: &[&str],
    reason: &str,
) -> bool {
    let mut shell = Shell::new(rt, alloc, arguments, files_of(rt, alloc, ONE, &[]));
    tells(rt, alloc, &mut shell, reason)
}

#[test]
fn arguments_that_are_not_taken(rt: HostRuntime) {
    for (arguments, reason) in &REFUSED {
        assert!(rt; is_refused(&rt, rt.alloc(), arguments, reason), "{reason}");
    }
}

#[test]
fn draws_that_are_not_taken(rt: HostRuntime) {
    for (arguments, reason) in &UNDRAWN {
        assert!(rt; is_refused(&rt, rt.alloc(), arguments, reason), "{reason}");
    }
}

/// Whether `check` takes the arguments.
fn is_check(rt: &impl Abort, alloc: Global, arguments: &[&str]) -> bool {
    check_arguments(alloc, &texts(rt, alloc, arguments)).is_ok()
}

#[test]
fn arguments_of_check(rt: HostRuntime) {
    let alloc = rt.alloc();
    assert!(rt; is_check(&rt, alloc, &["check", "m", "k"]));
    assert!(rt; is_check(&rt, alloc, &["check", "--extra", "0", "m", "k"]));
    assert!(rt; !is_check(&rt, alloc, &["check", "m"]));
    assert!(rt; !is_check(&rt, alloc, &["check", "m", "k", "--extra", "5"]));
}

/// Arguments of `learn` with each number at the least and the greatest of its range.
static ENDS: [&[&str]; 3] = [
    &[
        "learn",
        "s",
        "--workers=1",
        "--extra=0",
        "--max-states=1",
        "--random=0",
        "--length=0",
        "--seed=0",
    ],
    &["learn", "s", "--walks=0", "--length=0", "--seed=0"],
    &[
        "learn",
        "s",
        "--workers=16",
        "--extra=4",
        "--max-states=1024",
        "--random=1000000",
        "--walks=1000000",
        "--length=65536",
        "--seed=18446744073709551615",
    ],
];

/// Whether `learn` takes the arguments.
fn is_learn(rt: &impl Abort, alloc: Global, arguments: &[&str]) -> bool {
    learn_arguments(alloc, &texts(rt, alloc, arguments)).is_ok()
}

#[test]
fn numbers_at_the_ends_of_their_ranges(rt: HostRuntime) {
    for arguments in &ENDS {
        assert!(rt; is_learn(&rt, rt.alloc(), arguments));
    }
}

/// Texts that are no machine file, with what is said of each.
static FAULTS: [(&str, &str); 14] = [
    ("", "bad file table: not JSON\n"),
    ("[1]", "bad file table: shape of root\n"),
    ("{}", "bad file table: shape of inputs\n"),
    ("{\"inputs\":[\"t\"]}", "bad file table: shape of outputs\n"),
    (
        "{\"inputs\":[\"t\"],\"outputs\":[\"0\"]}",
        "bad file table: shape of states\n",
    ),
    (
        "{\"inputs\":[],\"outputs\":[\"0\"],\"states\":[[]]}",
        "bad file table: inputs: empty list\n",
    ),
    (
        "{\"inputs\":[\"t\",\"\"],\"outputs\":[\"0\"],\"states\":[]}",
        "bad file table: inputs: bad name at 1\n",
    ),
    (
        "{\"inputs\":[\"t\"],\"outputs\":[\"0\",\"1\",\"0\"],\"states\":[]}",
        "bad file table: outputs: repeated name at 0 and 2\n",
    ),
    (
        "{\"inputs\":[\"t\"],\"outputs\":[\"0\"],\"states\":[[[0,\"0\"]],[[0,\"1\"]]]}",
        "bad file table: unknown output at state 1, letter 0\n",
    ),
    (
        "{\"inputs\":[\"t\"],\"outputs\":[\"0\"],\"states\":[]}",
        "bad file table: no state\n",
    ),
    (
        "{\"inputs\":[\"t\"],\"outputs\":[\"0\"],\"states\":[[[0,\"0\"]],[]]}",
        "bad file table: wrong number of cells at state 1\n",
    ),
    (
        "{\"inputs\":[\"t\"],\"outputs\":[\"0\"],\"states\":[[[7,\"0\"]]]}",
        "bad file table: no such target at state 0, letter 0: 7\n",
    ),
    ("{\"table\":\"x\"}", "bad file table: shape of inputs\n"),
    ("x", "bad file table: not JSON\n"),
];

/// Checks what is said of a text that is no machine file.
fn check_fault<R: Abort + Threads + Wait + Sync + Copy + Drop>(
    rt: &R,
    alloc: Global,
    file: &'static str,
    err: &'static str,
) {
    let case = Case {
        file,
        status: 3,
        out: "",
        err,
        ..PLAIN
    };
    check(rt, alloc, &case);
}

#[test]
fn each_fault_of_a_table(rt: HostRuntime) {
    for (file, err) in &FAULTS {
        check_fault(&rt, rt.alloc(), file, err);
    }
}

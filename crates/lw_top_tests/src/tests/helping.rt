//! What `help` puts out, also where its stream fails.
use crate::tests::cases::{Case, PLAIN, check_all};

/// All commands.
const COMMANDS: &str = "learn: learns a program, or the machine of a file
accept: learns which words a program accepts, or the acceptor of a file
ask: asks a program, a machine or an acceptor words
recheck: asks a program the words of recorded answers again
check: says whether answers fix a model, or why not
compare: reports the least word on which two models differ
serve: plays a machine as a program that answers lines
trial: draws a machine by a number, and learns it
help: lists the commands, or the arguments of one
";

const LEARN: &str = "learn: learns a program, or the machine of a file
usage: learn (SETUP | --table FILE) [--workers N] [--extra K] [--learner KIND] [--max-states N] [--model FILE] [--answers FILE] [--prior FILE] [--kept FILE] [--words FILE] [--random R] [--walks N] [--length L] [--seed S] [--log FILE] [--suite METHOD] [--last FILE] [--journal FILE] [--verbose]
  (SETUP | --table FILE): a text; the setup file of the program
  --table FILE: a text, or left out; the file of a machine in place of the setup
  --workers N: 1 to 16, by default 1; how many instances are asked at once
  --extra K: 0 to 4, by default 1; how many states more than the model a machine may have and is ruled out
  --learner KIND: one of table, ttt, by default table; the learner: an observation table or a discrimination tree
  --max-states N: 1 to 1024, by default 1024; how many states a model may have
  --model FILE: a text, or left out; where the model is written
  --answers FILE: a text, or left out; where the recorded answers are written with the model
  --prior FILE: a text, or left out; recorded answers of an earlier call, to begin with
  --kept FILE: a text, or left out; where the recorded answers are saved at every end that has any
  --words FILE: a text, or left out; words that are asked first, one a line
  --random R: 0 to 1000000, or left out; how many words are drawn and asked first; with --length and --seed
  --walks N: 0 to 1000000, or left out; how many walks are drawn behind the suite of each model; with --length and --seed
  --length L: 0 to 65536, or left out; how many letters are drawn for each; with --seed and --random or --walks
  --seed S: 0 to 18446744073709551615, or left out; what the drawing begins with; with --length and --random or --walks
  --log FILE: a text, or left out; where each step is logged
  --suite METHOD: one of w, wp, h, by default w; how suites are made: by the W-, Wp- or H-method
  --last FILE: a text, or left out; where the machine of the last closed learner is written at an end without a model
  --journal FILE: a text, or left out; where each answer is written as it comes, behind those that the call begins with
  --verbose: a flag; tells reasons and progress on standard error
";

const ACCEPT: &str = "accept: learns which words a program accepts, or the acceptor of a file
usage: accept (SETUP | --table FILE) [--workers N] [--extra K] [--learner KIND] [--max-states N] [--model FILE] [--kept FILE] [--words FILE] [--random R] [--walks N] [--length L] [--seed S] [--log FILE] [--last FILE] [--journal FILE] [--verbose]
  (SETUP | --table FILE): a text; the setup file of the program
  --table FILE: a text, or left out; the file of an acceptor in place of the setup
  --workers N: 1 to 16, by default 1; how many instances are asked at once
  --extra K: 0 to 4, by default 1; how many states more than the model a machine may have and is ruled out
  --learner KIND: one of table, ttt, by default table; the learner: an observation table or a discrimination tree
  --max-states N: 1 to 1024, by default 1024; how many states a model may have
  --model FILE: a text, or left out; where the acceptor is written
  --kept FILE: a text, or left out; where the recorded answers are saved at every end that has any
  --words FILE: a text, or left out; words that are asked first, one a line
  --random R: 0 to 1000000, or left out; how many words are drawn and asked first; with --length and --seed
  --walks N: 0 to 1000000, or left out; how many walks are drawn behind the suite of each model; with --length and --seed
  --length L: 0 to 65536, or left out; how many letters are drawn for each; with --seed and --random or --walks
  --seed S: 0 to 18446744073709551615, or left out; what the drawing begins with; with --length and --random or --walks
  --log FILE: a text, or left out; where each step is logged
  --last FILE: a text, or left out; where the machine of the last closed learner is written at an end without a model
  --journal FILE: a text, or left out; where each answer is written as it comes, behind those that the call begins with
  --verbose: a flag; tells reasons and progress on standard error
";

const ASK: &str = "ask: asks a program, a machine or an acceptor words
usage: ask (SETUP | --table FILE | --accept SETUP | --acceptor FILE) WORD...
  --table FILE: a text, or left out; the file of a machine in place of the setup
  --accept SETUP: a text, or left out; the setup of a program that is asked as acceptors are
  --acceptor FILE: a text, or left out; the file of an acceptor in place of the setup
  (SETUP | --table FILE | --accept SETUP | --acceptor FILE) WORD...: texts; the setup, where no option is in its place, and words
";

const RECHECK: &str = "recheck: asks a program the words of recorded answers again
usage: recheck SETUP ANSWERS
  SETUP: a text; the setup file of the program
  ANSWERS: a text; the file of the answers
";

const CHECK: &str = "check: says whether answers fix a model, or why not
usage: check (MODEL | --acceptor FILE) ANSWERS [--extra K] [--suite METHOD]
  (MODEL | --acceptor FILE): a text; the file of the model
  ANSWERS: a text; the file of the answers
  --acceptor FILE: a text, or left out; the file of an acceptor in place of the model
  --extra K: 0 to 4, by default 1; how many states more than the model a machine may have and is ruled out
  --suite METHOD: one of w, wp, h, by default w; how suites are made: by the W-, Wp- or H-method
";

const COMPARE: &str = "compare: reports the least word on which two models differ
usage: compare MODEL MODEL
  MODEL: a text; the file of the first model
  MODEL: a text; the file of the second model
";

const SERVE: &str = "serve: plays a machine as a program that answers lines
usage: serve MODEL
  MODEL: a text; the file of the machine
";

const TRIAL: &str = "trial: draws a machine by a number, and learns it
usage: trial --states N --inputs A --seed S [--workers N] [--learner KIND] [--suite METHOD]
  --states N: 1 to 1024, required; how many states the machine has
  --inputs A: 1 to 64, required; how many inputs it has
  --seed S: 0 to 18446744073709551615, required; what its drawing begins with
  --workers N: 1 to 16, by default 1; how many instances are asked at once
  --learner KIND: one of table, ttt, by default table; the learner: an observation table or a discrimination tree
  --suite METHOD: one of w, wp, h, by default w; how suites are made: by the W-, Wp- or H-method
";

const HELP: &str = "help: lists the commands, or the arguments of one
usage: help [COMMAND]
  [COMMAND]: a text; the command whose arguments are listed
";

/// A call of `help`.
const CALL: Case = Case {
    arguments: &["help"],
    file: "",
    out: COMMANDS,
    err: "",
    ..PLAIN
};

static PAGES: [Case; 11] = [
    CALL,
    Case {
        arguments: &["help", "learn"],
        out: LEARN,
        ..CALL
    },
    Case {
        arguments: &["help", "accept"],
        out: ACCEPT,
        ..CALL
    },
    Case {
        arguments: &["help", "ask"],
        out: ASK,
        ..CALL
    },
    Case {
        arguments: &["help", "recheck"],
        out: RECHECK,
        ..CALL
    },
    Case {
        arguments: &["help", "check"],
        out: CHECK,
        ..CALL
    },
    Case {
        arguments: &["help", "compare"],
        out: COMPARE,
        ..CALL
    },
    Case {
        arguments: &["help", "serve"],
        out: SERVE,
        ..CALL
    },
    Case {
        arguments: &["help", "trial"],
        out: TRIAL,
        ..CALL
    },
    Case {
        arguments: &["help", "help"],
        out: HELP,
        ..CALL
    },
    Case {
        arguments: &["help", "--", "serve"],
        out: SERVE,
        ..CALL
    },
];

#[test]
fn pages(rt: HostRuntime) {
    check_all(&rt, rt.alloc(), &PAGES);
}

/// Streams that fail: at the first piece, behind it, and where nothing is said.
static FAILING: [Case; 4] = [
    Case {
        out_plan: &[0],
        status: 8,
        out: "",
        err: "sink fault\n",
        ..CALL
    },
    Case {
        arguments: &["help", "serve"],
        piece: 8,
        out_plan: &[1],
        status: 8,
        out: "serve: p",
        err: "sink fault\n",
        ..CALL
    },
    Case {
        out_plan: &[0],
        err_plan: &[0],
        status: 8,
        out: "",
        ..CALL
    },
    Case {
        err_plan: &[0],
        ..CALL
    },
];

#[test]
fn streams_that_fail(rt: HostRuntime) {
    check_all(&rt, rt.alloc(), &FAILING);
}

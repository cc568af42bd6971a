//! Systems that stopped, children that were served, and names that differ. The texts are worked by hand.
use super::says;
use lw_cache::{AskStop, Clash};
use lw_line::{Served, ServedCause};
use lw_report::{Outcome, Role, learn_outcome, status};
use lw_rounds::LearnStop;
use lw_words::{Line, SulStop};
use std::alloc::Global;
use std::process::Abort;

/// Whether this is the exit status of the outcome, and this its line.
fn ends_as(rt: &impl Abort, alloc: Global, outcome: Outcome, code: u8, line: &str) -> bool {
    let right = status(&outcome) == code;
    says(rt, alloc, outcome, line) && right
}

/// Whether a learning that a system stopped ends so.
fn stops_as(rt: &impl Abort, alloc: Global, stop: SulStop, line: &str) -> bool {
    let outcome = learn_outcome(LearnStop::Ask(AskStop::Sul { instance: 3, stop }));
    ends_as(rt, alloc, outcome, 6, line)
}

#[test]
fn systems_that_stop_a_learning(rt: HostRuntime) {
    let alloc = rt.alloc();
    assert!(rt; stops_as(&rt, alloc, SulStop::Failed, "system failed: instance 3\n"));
    assert!(rt; stops_as(&rt, alloc, SulStop::Gone, "system ended: instance 3\n"));
    let stop = SulStop::BadLine(Line::new("Ready".as_bytes()));
    assert!(rt; stops_as(&rt, alloc, stop, "bad line: instance 3: 5265616479\n"));
}

#[test]
fn answers_that_stop_a_learning(rt: HostRuntime) {
    let alloc = rt.alloc();
    let clash = Clash {
        first: 0,
        second: 1,
        place: 4,
    };
    let outcome = learn_outcome(LearnStop::Ask(AskStop::Clash(clash)));
    assert!(rt; ends_as(&rt, alloc, outcome, 4, "nondeterministic at place 4\n"));
}

#[test]
fn a_learning_out_of_memory(rt: HostRuntime) {
    let outcome = learn_outcome(LearnStop::Ask(AskStop::NoMemory));
    assert!(rt; ends_as(&rt, rt.alloc(), outcome, 5, "no memory\n"));
}

#[test]
fn lines_in_digits(rt: HostRuntime) {
    let alloc = rt.alloc();
    let outcome = Outcome::BadLine(0, Line::new("out o256".as_bytes()));
    let line = "bad line: instance 0: 6f7574206f323536\n";
    assert!(rt; ends_as(&rt, alloc, outcome, 6, line));
    let outcome = Outcome::BadLine(0, Line::new(&[]));
    assert!(rt; ends_as(&rt, alloc, outcome, 6, "bad line: instance 0: \n"));
    let outcome = Outcome::BadLine(15, Line::new(&[0, 13, 255]));
    assert!(rt; ends_as(&rt, alloc, outcome, 6, "bad line: instance 15: 000dff\n"));
}

/// The line about 256 bytes `x` of the instance 0.
fn longest(rt: &impl Abort, alloc: Global) -> String {
    let mut text = String::from_str(alloc, "bad line: instance 0: ").expect(rt, "memory");
    for _ in 0..256 {
        text.push_str("78").expect(rt, "memory");
    }
    text.push_str("\n").expect(rt, "memory");
    text
}

#[test]
fn the_longest_line(rt: HostRuntime) {
    let alloc = rt.alloc();
    let outcome = Outcome::BadLine(0, Line::new(&[120; 256]));
    let line = longest(&rt, alloc);
    assert!(rt; ends_as(&rt, alloc, outcome, 6, line.as_str()));
}

#[test]
fn children_that_were_served(rt: HostRuntime) {
    let alloc = rt.alloc();
    let served = Served {
        lines: 4,
        cause: ServedCause::Quit,
    };
    assert!(rt; ends_as(&rt, alloc, Outcome::Served(served), 0, ""));
    assert!(rt; ends_as(&rt, alloc, Outcome::BadAsk(2), 6, "bad line: 2\n"));
    assert!(rt; ends_as(&rt, alloc, Outcome::SourceFault, 8, "source fault\n"));
}

#[test]
fn names_that_differ(rt: HostRuntime) {
    let alloc = rt.alloc();
    let answers = "bad file answers: names differ from the model\n";
    assert!(rt; ends_as(&rt, alloc, Outcome::Alphabets(Role::Answers), 3, answers));
    let prior = "bad file prior: names differ from the setup\n";
    assert!(rt; ends_as(&rt, alloc, Outcome::Alphabets(Role::Prior), 3, prior));
    let fault = "file fault: prior\n";
    assert!(rt; ends_as(&rt, alloc, Outcome::FileFault(Role::Prior), 8, fault));
    let long = "file too long: prior\n";
    assert!(rt; ends_as(&rt, alloc, Outcome::FileTooLong(Role::Prior), 3, long));
}

//! What no clause says: that the calls succeed, and sessions by hand.
ghost use Rattle.std.specs.Prelude.{◌≡◌, [], None};

mod scripted;

use lw_mealy::Mealy;
use lw_names::{Named, OutName};
use lw_sul::{NamedAnswer, Session, Sul, TableSul};
use lw_words::{Names, RunStop, SulStop, Word};
use scripted::{Reply, Scripted};
use std::alloc::Global;
use std::process::Abort;

/// A counter modulo three.
fn counter(rt: &impl Abort, alloc: Global) -> Mealy {
    let mut rows = Vec::new(alloc);
    for (target, output) in [(1u16, 0u16), (2, 0), (0, 1)] {
        let row = Vec::from_slice(alloc, &[(target, output)]).expect(rt, "memory");
        rows.push(row).expect(rt, "memory");
    }
    Mealy::new(alloc, 1, 2, rows).expect(rt, "a machine")
}

fn names(rt: &impl Abort, alloc: Global, list: &[&str]) -> Names {
    let mut texts = Vec::new(alloc);
    for name in list {
        let text = String::from_str(alloc, name).expect(rt, "memory");
        texts.push(text).expect(rt, "memory");
    }
    Names::from_list(alloc, &texts).expect(rt, "names")
}

/// The counter as a system.
fn table(rt: &impl Abort, alloc: Global) -> TableSul {
    let mealy = counter(rt, alloc);
    let names = names(rt, alloc, &["tick", "tock"]);
    assert!(rt; names.len() == mealy.outputs());
    TableSul::new(mealy, names)
}

fn numbers_of<S: Sul>(sul: &S) -> (u16, u16) {
    (sul.inputs(), sul.outputs())
}

fn word(rt: &impl Abort, alloc: Global, letters: &[u16]) -> Word
    ensures { result ≡ letters.now }
{
    Word::from_letters(alloc, letters.to_vec(alloc).expect(rt, "memory"))
}

/// What a session answers to these letters.
fn ask<S: Sul>(
    rt: &impl Abort,
    alloc: Global,
    session: &mut Session<S>,
    letters: &[u16],
) -> Result<Word, RunStop> {
    let inputs = session.inputs();
    assert!(rt; letters.iter().all(|x| *x < inputs));
    session.ask(&word(rt, alloc, letters))
}

fn answers<S: Sul>(
    rt: &impl Abort,
    alloc: Global,
    session: &mut Session<S>,
    letters: &[u16],
    outs: &[u16],
) -> bool {
    match ask(rt, alloc, session, letters) {
        Ok(answer) => answer.as_slice() == outs,
        Err(_) => false,
    }
}

/// Whether a session answers that its system failed.
fn fails<S: Sul>(
    rt: &impl Abort,
    alloc: Global,
    session: &mut Session<S>,
    letters: &[u16],
) -> bool {
    matches!(
        ask(rt, alloc, session, letters),
        Err(RunStop::Sul(SulStop::Failed))
    )
}

/// Takes what may go to another thread.
fn sends<T: Send>(_value: &T) {}

/// A session may go to another thread where its system may.
fn session_sends<S: Sul + Send>(session: &Session<S>) {
    sends(session);
}

/// Letters that a session is asked, and the outputs that come, or none where its system fails.
struct Asked {
    letters: &'static [u16],
    outs: Option<&'static [u16]>,
}

/// Whether a session is asked so, one after another.
fn goes<S: Sul>(rt: &impl Abort, alloc: Global, session: &mut Session<S>, list: &[Asked]) -> bool {
    for asked in list {
        let right = match asked.outs {
            Some(outs) => answers(rt, alloc, session, asked.letters, outs),
            None => fails(rt, alloc, session, asked.letters),
        };
        if !right {
            return false;
        }
    }
    true
}

/// The numbers of a session over the counter.
fn is_fourth<S: Sul + Send>(session: &Session<S>) -> bool {
    session_sends(session);
    let numbers = (session.instance(), session.inputs(), session.outputs());
    numbers_of(session.sul()) == (1, 2) && numbers == (4, 1, 2)
}

static COUNTED: [Asked; 3] = [
    Asked {
        letters: &[0, 0],
        outs: Some(&[0, 0]),
    },
    Asked {
        letters: &[0, 0, 0, 0],
        outs: Some(&[0, 0, 1, 0]),
    },
    Asked {
        letters: &[],
        outs: Some(&[]),
    },
];

/// Whether a session over the counter has its numbers, and counts three runs.
fn counts_runs(rt: &impl Abort, alloc: Global) -> bool {
    let mut session = Session::new(alloc, 4, table(rt, alloc));
    let fourth = is_fourth(&session);
    let counted = goes(rt, alloc, &mut session, &COUNTED);
    fourth && counted && session.runs() == 3 && session.stopped().is_none()
}

#[test]
fn a_session_counts_its_runs(rt: HostRuntime) {
    assert!(rt; counts_runs(&rt, rt.alloc()));
}

/// A system of three names, so many of which came already.
fn three_names(rt: &impl Abort, alloc: Global, script: Vec<Reply>, known: u16) -> Scripted
    ensures { (result.stop ≡ None) × (result.log.items ≡ []) }
{
    let names = names(rt, alloc, &["a", "b", "c"]);
    assert!(rt; known <= names.len());
    Scripted::new(alloc, script, names, known).expect(rt, "memory")
}

/// A session over a script, so many of whose names came already.
fn over(rt: &impl Abort, alloc: Global, replies: &[Reply], known: u16) -> Session<Scripted> {
    let script = replies.to_vec(alloc).expect(rt, "memory");
    Session::new(alloc, 0, three_names(rt, alloc, script, known))
}

/// Two finished runs and one that stops, and how many calls the system answered and was asked.
struct Stop {
    replies: &'static [Reply],
    asked: &'static [Asked],
    log: usize,
    made: usize,
}

static IN_A_RESET: Stop = Stop {
    replies: &[
        Reply::Ready,
        Reply::Output(2),
        Reply::Ready,
        Reply::Output(1),
        Reply::Output(0),
        Reply::Refused,
    ],
    asked: &[
        Asked {
            letters: &[1],
            outs: Some(&[2]),
        },
        Asked {
            letters: &[0, 1],
            outs: Some(&[1, 0]),
        },
        Asked {
            letters: &[0],
            outs: None,
        },
    ],
    log: 5,
    made: 6,
};

static IN_A_STEP: Stop = Stop {
    replies: &[
        Reply::Ready,
        Reply::Output(2),
        Reply::Ready,
        Reply::Output(1),
        Reply::Output(0),
        Reply::Ready,
        Reply::Output(2),
        Reply::Refused,
    ],
    asked: &[
        Asked {
            letters: &[1],
            outs: Some(&[2]),
        },
        Asked {
            letters: &[0, 1],
            outs: Some(&[1, 0]),
        },
        Asked {
            letters: &[0, 1, 1],
            outs: None,
        },
    ],
    log: 7,
    made: 8,
};

/// The two finished runs alone are counted, and the system isn't asked again.
fn keeps_two_runs(rt: &impl Abort, alloc: Global, session: &mut Session<Scripted>) -> bool {
    let made = session.sul().made();
    let again = fails(rt, alloc, session, &[1]);
    again && session.sul().made() == made && session.runs() == 2
}

/// Whether a session's system answered so many calls, and was asked so many.
fn leaves(session: Session<Scripted>, log: usize, made: usize) -> bool {
    session.sul().log().len() == log && session.into_sul().made() == made
}

/// Whether a session stops so, and keeps its two runs.
fn stops(rt: &impl Abort, alloc: Global, stop: &Stop) -> bool {
    let mut session = over(rt, alloc, stop.replies, 3);
    let gone = goes(rt, alloc, &mut session, stop.asked);
    let kept = keeps_two_runs(rt, alloc, &mut session);
    gone && kept && leaves(session, stop.log, stop.made)
}

#[test]
fn a_stop_in_a_reset_cuts_no_run_off(rt: HostRuntime) {
    assert!(rt; stops(&rt, rt.alloc(), &IN_A_RESET));
}

#[test]
fn a_stop_in_a_step_cuts_the_run_off(rt: HostRuntime) {
    assert!(rt; stops(&rt, rt.alloc(), &IN_A_STEP));
}

/// Whether a word of so many letters is answered.
fn answers_long<S: Sul>(
    rt: &impl Abort,
    alloc: Global,
    session: &mut Session<S>,
    len: usize,
) -> bool {
    let long = vec![in alloc; 0u16; len].expect(rt, "memory");
    match ask(rt, alloc, session, &long) {
        Ok(answer) => answer.len() == len,
        Err(_) => false,
    }
}

/// Whether a counter answers so many runs of three letters.
fn answers_often<S: Sul>(
    rt: &impl Abort,
    alloc: Global,
    session: &mut Session<S>,
    times: u32,
) -> bool {
    for _ in 0..times {
        if !answers(rt, alloc, session, &[0, 0, 0], &[0, 0, 1]) {
            return false;
        }
    }
    true
}

/// Whether a session over the counter answers a word of so many letters and then so many runs, and counts them all.
fn lasts(rt: &impl Abort, alloc: Global, len: usize, times: u32) -> bool {
    let mut session = Session::new(alloc, 0, table(rt, alloc));
    let long = answers_long(rt, alloc, &mut session, len);
    let often = answers_often(rt, alloc, &mut session, times);
    long && often && session.runs() == u64::from(times).saturating_add(1)
}

#[test]
fn long_runs_and_many(rt: HostRuntime) {
    assert!(rt; lasts(&rt, rt.alloc(), 70_000, 100_000));
}

/// Whether the names of an answer are these.
fn names_are(answer: &NamedAnswer, list: &[&str]) -> bool {
    if answer.names.len() != list.len() {
        return false;
    }
    for (i, text) in list.iter().enumerate() {
        match OutName::new(text) {
            Some(name) if name.same(answer.names.get(i)) => {}
            _ => return false,
        }
    }
    true
}

/// Whether a session answers these outputs to the letters, and these names came up first.
fn brings<S: Sul>(
    rt: &impl Abort,
    alloc: Global,
    session: &mut Session<S>,
    letters: &[u16],
    outs: &[u16],
    list: &[&str],
) -> bool {
    let inputs = session.inputs();
    assert!(rt; letters.iter().all(|x| *x < inputs));
    match session.ask_named(&word(rt, alloc, letters)) {
        Ok(answer) => answer.outs.as_slice() == outs && names_are(&answer, list),
        Err(_) => false,
    }
}

/// Letters that a session is asked, the outputs that come, and the names that came up first.
struct Brought {
    letters: &'static [u16],
    outs: &'static [u16],
    names: &'static [&'static str],
}

/// Whether a session is asked so, one after another.
fn all_come<S: Sul>(
    rt: &impl Abort,
    alloc: Global,
    session: &mut Session<S>,
    list: &[Brought],
) -> bool {
    for one in list {
        if !brings(rt, alloc, session, one.letters, one.outs, one.names) {
            return false;
        }
    }
    true
}

static NAMING: [Reply; 11] = [
    Reply::Ready,
    Reply::Output(0),
    Reply::Output(1),
    Reply::Output(0),
    Reply::Ready,
    Reply::Output(1),
    Reply::Output(0),
    Reply::Ready,
    Reply::Output(2),
    Reply::Ready,
    Reply::Output(3),
];

static NAMED: [Brought; 3] = [
    Brought {
        letters: &[0, 1, 0],
        outs: &[0, 1, 0],
        names: &["a", "b"],
    },
    Brought {
        letters: &[1, 0],
        outs: &[1, 0],
        names: &[],
    },
    Brought {
        letters: &[0],
        outs: &[2],
        names: &["c"],
    },
];

/// Whether so many of three names came.
fn has_named<S: Sul>(sul: &S, named: u16) -> bool {
    sul.named() == named && sul.most() == 3
}

/// Whether all three names come in three runs, and an output without a name isn't answered.
fn names_come(rt: &impl Abort, alloc: Global) -> bool {
    let mut session = over(rt, alloc, &NAMING, 0);
    let none = has_named(session.sul(), 0);
    let come = all_come(rt, alloc, &mut session, &NAMED);
    let all = has_named(session.sul(), 3) && session.runs() == 3;
    let refused = fails(rt, alloc, &mut session, &[0]);
    none && come && all && refused && session.runs() == 3
}

#[test]
fn names_come_once_and_in_order(rt: HostRuntime) {
    assert!(rt; names_come(&rt, rt.alloc()));
}

/// Whether the name with number 1 is `tock`.
fn has_tock<S: Sul>(sul: &S) -> bool {
    sul.named() > 1 && sul.name(1).copy().as_slice() == b"tock".as_slice()
}

/// Whether a session over the counter brings no name, and its system has its second one.
fn table_is_named(rt: &impl Abort, alloc: Global) -> bool {
    let mut session = Session::new(alloc, 0, table(rt, alloc));
    let none = brings(rt, alloc, &mut session, &[0, 0, 0], &[0, 0, 1], &[]);
    none && has_tock(session.sul())
}

#[test]
fn a_table_has_its_names(rt: HostRuntime) {
    assert!(rt; table_is_named(&rt, rt.alloc()));
    assert!(rt; OutName::new("a b").is_none());
}

#[test]
fn names_are_put_last(rt: HostRuntime) {
    let mut list = Named::with_room(rt.alloc(), 1).expect(&rt, "memory");
    let name = OutName::new("a").expect(&rt, "a name");
    list.push(name).expect(&rt, "memory");
    assert!(rt; (list.len(), Named::new(rt.alloc()).len()) == (1, 0));
}

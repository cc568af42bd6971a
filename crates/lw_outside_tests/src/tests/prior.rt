//! Answers files by hand: what is made ready of them, the first answers that clash, and names that don't fit.
use crate::tests::names;
use lw_cache::Clash;
use lw_json::{Answers, read_answers};
use lw_prior::{Prior, PriorStop, fill, prior_of};
use lw_words::NoMemory;
use std::alloc::Global;
use std::process::Abort;

/// An answers file over the letter `t`, the outputs of its answers among `0`, `1` and `2`, and the first answers that clash.
struct Case {
    file: &'static str,
    outs: &'static [&'static [u16]],
    clash: Option<Clash>,
}

static CASES: [Case; 5] = [
    Case {
        file: "{\"answers\":[[3,7,\"t t\",\"1 0\"],[0,2,\"t\",\"1\"]],\"format\":2,\"inputs\":[\"t\"],\"outputs\":[\"1\",\"0\"]}",
        outs: &[&[1, 0], &[1]],
        clash: None,
    },
    Case {
        file: "{\"answers\":[[\"t t\",\"1 0\"],[\"t\",\"0\"]],\"format\":1,\"inputs\":[\"t\"],\"outputs\":[\"1\",\"0\"]}",
        outs: &[&[1, 0], &[0]],
        clash: Some(Clash {
            first: 0,
            second: 1,
            place: 0,
        }),
    },
    Case {
        file: "{\"answers\":[[\"t\",\"2\"],[\"t t\",\"2 0\"],[\"t t\",\"2 2\"],[\"t\",\"0\"]],\"format\":1,\"inputs\":[\"t\"],\"outputs\":[\"2\",\"0\"]}",
        outs: &[&[2], &[2, 0], &[2, 2], &[0]],
        clash: Some(Clash {
            first: 1,
            second: 2,
            place: 1,
        }),
    },
    Case {
        file: "{\"answers\":[],\"format\":1,\"inputs\":[\"t\"],\"outputs\":[\"2\"]}",
        outs: &[],
        clash: None,
    },
    Case {
        file: "{\"answers\":[[5,5,\"\",\"\"],[5,6,\"t\",\"0\"]],\"format\":2,\"inputs\":[\"t\"],\"outputs\":[\"0\",\"1\",\"2\"]}",
        outs: &[&[], &[0]],
        clash: None,
    },
];

/// Files with other letters, with more letters, and with a name of an output that the system lacks.
static DIFFERENT: [&str; 3] = [
    "{\"answers\":[],\"format\":1,\"inputs\":[\"u\"],\"outputs\":[\"0\",\"1\",\"2\"]}",
    "{\"answers\":[],\"format\":1,\"inputs\":[\"t\",\"u\"],\"outputs\":[\"0\"]}",
    "{\"answers\":[[\"t\",\"0\"]],\"format\":1,\"inputs\":[\"t\"],\"outputs\":[\"0\",\"3\"]}",
];

/// Makes a file's answers ready for a system with the letter `t` and the outputs `0`, `1` and `2`.
fn made(rt: &impl Abort, alloc: Global, file: &str) -> Result<Prior, PriorStop> {
    let inputs = names(rt, alloc, &["t"]);
    let outputs = names(rt, alloc, &["0", "1", "2"]);
    let answers = read_answers(alloc, file.as_bytes()).expect(rt, "answers");
    prior_of(alloc, answers, &inputs, &outputs)
}

/// Whether the answers of a case were made ready.
fn is_ready(prior: &Prior, case: &Case) -> bool {
    let kept = prior.cache.kept();
    if kept.len() != case.outs.len() || prior.clash != case.clash {
        return false;
    }
    for (number, outs) in case.outs.iter().enumerate() {
        if number >= kept.len() {
            return false;
        }
        let answer = kept.get(number);
        if answer.instance != 16 || answer.run != number as u64 || answer.outs.as_slice() != *outs {
            return false;
        }
    }
    true
}

/// Keeps a file's answers as they are.
fn filled(alloc: Global, answers: &Answers) -> Result<Prior, NoMemory> {
    fill(alloc, &answers.kept)
}

#[test]
fn answers_are_made_ready(rt: HostRuntime) {
    for case in &CASES {
        let prior = made(&rt, rt.alloc(), case.file).expect(&rt, "answers made ready");
        assert!(rt; is_ready(&prior, case));
    }
}

#[test]
fn names_that_differ(rt: HostRuntime) {
    for file in &DIFFERENT {
        let stop = made(&rt, rt.alloc(), file).err();
        assert!(rt; stop == Some(PriorStop::NamesDiffer));
    }
}

#[test]
fn answers_stay_as_they_are(rt: HostRuntime) {
    let answers = read_answers(rt.alloc(), CASES[0].file.as_bytes()).expect(&rt, "answers");
    let prior = filled(rt.alloc(), &answers).expect(&rt, "memory");
    assert!(rt; prior.clash.is_none());
    assert!(rt; prior.cache.kept().len() == 2);
}

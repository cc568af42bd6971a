//! Words, names, recorded answers and lines by hand, and at their limits.
ghost use Rattle.std.specs.Prelude.{◌≡◌};

use lw_words::{
    Kept, KeptAnswer, Line, Names, NamesFault, NoMemory, SulStop, Word, Words, join, shortlex,
};
use std::alloc::Global;
use std::cmp::Ordering;
use std::process::Abort;

fn texts(rt: &impl Abort, alloc: Global, names: &[&str]) -> Vec<String> {
    let mut all = Vec::new(alloc);
    for name in names {
        let text = String::from_str(alloc, name).expect(rt, "memory");
        all.push(text).expect(rt, "memory");
    }
    all
}

fn fault_of(rt: &impl Abort, alloc: Global, names: &[&str]) -> Option<NamesFault> {
    Names::from_list(alloc, &texts(rt, alloc, names)).err()
}

/// The word of these letters.
fn word(rt: &impl Abort, alloc: Global, letters: &[u16]) -> Word
    ensures { result ≡ letters.now }
{
    Word::from_letters(alloc, letters.to_vec(alloc).expect(rt, "memory"))
}

#[test]
fn words_join_and_copy(rt: HostRuntime) {
    let a = word(&rt, rt.alloc(), &[3]);
    let b = join(&a, &a.copy().expect(&rt, "memory")).expect(&rt, "memory");
    assert_eq!(rt; b.as_slice(), [3, 3].as_slice());
    let front = b.prefix(1).expect(&rt, "memory");
    assert_eq!(rt; front.as_slice(), [3].as_slice());
}

#[test]
fn words_grow(rt: HostRuntime) {
    let mut a = word(&rt, rt.alloc(), &[5]);
    a.clear();
    a.push(1).expect(&rt, "memory");
    a.extend(&[2, 3]).expect(&rt, "memory");
    assert_eq!(rt; a.as_slice(), [1, 2, 3].as_slice());
}

#[test]
fn words_are_listed(rt: HostRuntime) {
    let mut list = Words::new(rt.alloc());
    let pushed = list.push(Word::new(rt.alloc())).is_ok();
    assert_eq!(rt; (pushed, list.len(), list.as_slice().len()), (true, 1, 1));
}

/// Names that are to be taken.
fn named(rt: &impl Abort, alloc: Global, names: &[&str]) -> Names {
    Names::from_list(alloc, &texts(rt, alloc, names)).expect(rt, "names")
}

#[test]
fn names_are_numbered(rt: HostRuntime) {
    let names = named(&rt, rt.alloc(), &["open", "close"]);
    assert_eq!(rt; names.len(), 2);
    assert!(rt; names.number("close") == Some(1) && names.number("bad").is_none());
    let copy = names.copy().expect(&rt, "memory");
    assert!(rt; names.same(&copy));
}

/// Names, and their first fault.
#[derive(Clone, Copy)]
struct Faulty {
    names: &'static [&'static str],
    fault: NamesFault,
}

static FAULTS: [Faulty; 7] = [
    Faulty {
        names: &[],
        fault: NamesFault::Empty,
    },
    Faulty {
        names: &[""],
        fault: NamesFault::BadName(0),
    },
    Faulty {
        names: &["a", "b c"],
        fault: NamesFault::BadName(1),
    },
    Faulty {
        names: &["a", "~", "\u{7f}"],
        fault: NamesFault::BadName(2),
    },
    // a byte more than a name may have
    Faulty {
        names: &[
            "a",
            "0123456789012345678901234567890123456789012345678901234567890123x",
        ],
        fault: NamesFault::BadName(1),
    },
    Faulty {
        names: &["a", "b", "b", "a"],
        fault: NamesFault::Repeated(1, 2),
    },
    Faulty {
        names: &["a", "a", "b c"],
        fault: NamesFault::BadName(2),
    },
];

#[test]
fn the_first_fault_of_names(rt: HostRuntime) {
    for faulty in &FAULTS {
        assert!(rt; fault_of(&rt, rt.alloc(), faulty.names) == Some(faulty.fault));
    }
}

/// So many names, all different.
fn many(rt: &impl Abort, alloc: Global, count: u32) -> Vec<String> {
    let mut many = Vec::new(alloc);
    for n in 0..count {
        let name = format!(in alloc; "n{n}").expect(rt, "memory");
        many.push(name).expect(rt, "memory");
    }
    many
}

#[test]
fn names_too_many(rt: HostRuntime) {
    let fault = Names::from_list(rt.alloc(), &many(&rt, rt.alloc(), 4097)).err();
    assert_eq!(rt; fault, Some(NamesFault::TooMany(4097)));
}

#[test]
fn answers_are_kept_in_their_room(rt: HostRuntime) {
    let alloc = rt.alloc();
    let mut kept = Kept::new(alloc);
    kept.reserve(1).expect(&rt, "memory");
    let answer = KeptAnswer {
        instance: 0,
        run: 7,
        word: Word::new(alloc),
        outs: Word::new(alloc),
    };
    assert!(rt; kept.push(answer).is_ok());
    assert_eq!(rt; kept.len(), 1);
    let answers = kept.into_answers();
    assert_eq!(rt; answers.len(), 1);
}

#[test]
fn kept_outputs_are_renumbered(rt: HostRuntime) {
    let alloc = rt.alloc();
    let mut kept = Kept::new(alloc);
    let answer = KeptAnswer {
        instance: 0,
        run: 7,
        word: word(&rt, alloc, &[0, 0]),
        outs: word(&rt, alloc, &[2, 0]),
    };
    assert!(rt; kept.push(answer).is_ok());
    kept.renumber(&[4095, 0, 1]);
    assert_eq!(rt; kept.get(0).outs.as_slice(), [1, 4095].as_slice());
}

#[test]
fn lines_and_stops_are_copied(rt: HostRuntime) {
    let line = Line::new(b"out 7");
    match SulStop::BadLine(line).copy() {
        SulStop::BadLine(copy) => assert_eq!(rt; copy.as_slice(), b"out 7".as_slice()),
        _ => rt.panic("another stop"),
    }
    let text = format!(in rt.alloc(); "{NoMemory}").expect(&rt, "memory");
    assert_eq!(rt; text.as_str(), "no memory");
}

#[test]
fn words_in_order(rt: HostRuntime) {
    let short = word(&rt, rt.alloc(), &[3]);
    let long = word(&rt, rt.alloc(), &[0, 2]);
    assert_eq!(rt; shortlex(&short, &long), Ordering::Less);
    let later = word(&rt, rt.alloc(), &[3, 3]);
    assert_eq!(rt; shortlex(&later, &long), Ordering::Greater);
    assert_eq!(rt; shortlex(&long, &long), Ordering::Equal);
}

#[test]
fn long_words(rt: HostRuntime) {
    let alloc = rt.alloc();
    let letters = vec![in alloc; 7u16; 70_000].expect(&rt, "memory");
    let mut long = Word::from_letters(alloc, letters);
    long.push(9).expect(&rt, "memory");
    let copy = long.copy().expect(&rt, "memory");
    let both = join(&long, &copy).expect(&rt, "memory");
    assert_eq!(rt; (both.len(), both.as_slice().last()), (140_002, Some(&9)));
    assert_eq!(rt; both.into_letters().len(), 140_002);
}

#[test]
fn as_many_names_as_there_may_be(rt: HostRuntime) {
    let names = Names::from_list(rt.alloc(), &many(&rt, rt.alloc(), 4096)).expect(&rt, "names");
    assert_eq!(rt; names.number("n4095"), Some(4095));
}

/// Keeps so many answers, each with the run of its place.
fn keeps(rt: &impl Abort, alloc: Global, count: u64) -> Kept {
    let mut kept = Kept::new(alloc);
    kept.reserve(10_000).expect(rt, "memory");
    for run in 0..count {
        let answer = KeptAnswer {
            instance: 15,
            run,
            word: Word::new(alloc),
            outs: Word::new(alloc),
        };
        assert!(rt; kept.push(answer).is_ok());
    }
    kept
}

#[test]
fn many_kept_answers(rt: HostRuntime) {
    let kept = keeps(&rt, rt.alloc(), 100_000);
    assert_eq!(rt; kept.len(), 100_000);
    if kept.len() > 99_999 {
        let last = kept.get(99_999);
        assert_eq!(rt; (last.instance, last.run), (15, 99_999));
    }
}

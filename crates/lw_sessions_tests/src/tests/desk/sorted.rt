//! Names that instances brought, sorted: the expected orders are by hand, from the codes of the characters.
ghost use Rattle.std.specs.Prelude.{◌≤◌, length};

use crate::tests::desk::name_is;
use crate::tests::desk::trial::Trial;
use crate::tests::desk::turns::{Given, give};
use crate::tests::word;
use lw_desk::Ask;
use lw_names::OutNames;
use lw_words::Word;
use std::alloc::Global;
use std::process::Abort;

/// The two names that an instance brings, in this order.
type Pair = [&'static str; 2];

/// A word for each of so many instances: its number, twice.
fn own_words(rt: &impl Abort, alloc: Global, instances: u16) -> Vec<Word> {
    let mut own = Vec::new(alloc);
    for instance in 0..instances {
        own.push(word(rt, alloc, &[instance, instance]))
            .expect(rt, "memory");
    }
    own
}

/// Each instance takes its word.
fn take_words(rt: &impl Abort, alloc: Global, desk: &mut Trial, instances: u16) {
    for instance in 0..instances {
        let ask = Ask {
            gives: Vec::new(alloc),
            failed: None,
            wanted: 1,
        };
        desk.ask(rt, u32::from(instance), ask);
    }
}

/// An instance answers its word, and brings both names.
fn give_pair(rt: &impl Abort, alloc: Global, desk: &mut Trial, instance: u32, pair: &'static Pair) {
    let given = Given {
        place: instance,
        outs: &[0, 1],
        run: 0,
        brought: pair,
    };
    let ask = Ask {
        gives: vec![in alloc; give(rt, alloc, &given)].expect(rt, "memory"),
        failed: None,
        wanted: 0,
    };
    desk.ask(rt, instance, ask);
}

/// The names that instances bring, one after another.
fn brought(rt: &impl Abort, alloc: Global, pairs: &'static [Pair]) -> OutNames
    requires { length pairs.now ≤ 16 }
{
    let instances = pairs.len() as u16;
    let words = own_words(rt, alloc, instances);
    let mut desk = Trial::free(rt, alloc, words, u32::from(instances));
    take_words(rt, alloc, &mut desk, instances);
    for (instance, pair) in pairs.iter().enumerate() {
        give_pair(rt, alloc, &mut desk, instance as u32, pair);
    }
    let (_, names, _) = desk.finish(rt);
    names
}

/// Whether these are the names, in their order.
fn are(names: &OutNames, expected: &[&str]) -> bool {
    for n in 0..names.len() {
        let Some(text) = expected.get(usize::from(n)) else {
            return false;
        };
        if !name_is(names, n, text) {
            return false;
        }
    }
    usize::from(names.len()) == expected.len()
}

/// Whether names become these ones when they are sorted, and their numbers these ones.
fn sort_to(rt: &impl Abort, mut names: OutNames, sorted: &[&str], to: &[u16]) -> bool {
    let mut numbers = [9u16; 20];
    assert!(rt; names.is_free());
    assert!(rt; usize::from(names.len()) <= numbers.len());
    names.sort(&mut numbers);
    are(&names, sorted) && numbers.starts_with(to)
}

static FALLING: [Pair; 1] = [["z", "a"]];

#[test]
fn names_are_sorted(rt: HostRuntime) {
    let names = brought(&rt, rt.alloc(), &FALLING);
    assert!(rt; sort_to(&rt, names, &["a", "z"], &[1, 0]));
}

static RISING: [Pair; 1] = [["Ok", "ok"]];

#[test]
fn sorted_names_stay(rt: HostRuntime) {
    let names = brought(&rt, rt.alloc(), &RISING);
    assert!(rt; sort_to(&rt, names, &["Ok", "ok"], &[0, 1, 9]));
}

#[test]
fn no_name_is_sorted(rt: HostRuntime) {
    let names = OutNames::free(rt.alloc()).expect(&rt, "memory");
    assert!(rt; sort_to(&rt, names, &[], &[9]));
}

static OF_SIXTEEN: [Pair; 16] = [
    ["m", "z"],
    ["m", "Z"],
    ["a", "m"],
    ["m", "aa"],
    ["m", "0"],
    ["10", "z"],
    ["m", "9"],
    ["~", "m"],
    ["!", "m"],
    ["m", "b"],
    ["ab", "a"],
    ["m", "B"],
    ["_", "m"],
    ["m", "-"],
    ["m", "M"],
    ["mm", "m"],
];

static SORTED: [&str; 17] = [
    "!", "-", "0", "10", "9", "B", "M", "Z", "_", "a", "aa", "ab", "b", "m", "mm", "z", "~",
];

static NUMBERS: [u16; 17] = [13, 15, 7, 9, 10, 2, 3, 4, 16, 0, 12, 11, 5, 8, 1, 6, 14];

#[test]
fn names_of_sixteen_instances_are_sorted(rt: HostRuntime) {
    let names = brought(&rt, rt.alloc(), &OF_SIXTEEN);
    assert!(rt; sort_to(&rt, names, &SORTED, &NUMBERS));
}

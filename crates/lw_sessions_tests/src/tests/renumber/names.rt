//! Names that an instance brings to a desk.
ghost use Rattle.std.specs.Prelude.{◌≡◌, [], ◌∷◌, false, true, None, IsTrue};
ghost use Rattle.lw_names.specs.Naming.{MayBring};
ghost use Rattle.lw_sessions_tests.specs.TestNames.{pair_names, turned_names, one_give, one_word};

use crate::tests::word;
use lw_cache::Cache;
use lw_desk::{Ask, Desk, Give, Reply};
use lw_names::{Named, OutName, OutNames};
use lw_turn::Core;
use lw_words::Word;
use std::alloc::Global;
use std::process::Abort;

fn are_same(numbers: &[u32], expected: &[u32]) -> bool
    ensures { IsTrue result → numbers.now ≡ expected.now }
{
    numbers == expected
}

/// Whether an actor holds the first place, and may ask again.
fn holds_first(reply: &Reply) -> bool
    ensures { IsTrue result → (reply.now.done ≡ false) × (reply.now.places ≡ 0 ∷ []) }
{
    !reply.done && are_same(reply.places.as_slice(), &[0])
}

/// An ask for one place.
fn one_place(alloc: Global) -> Ask
    ensures gives { result.gives.items ≡ [] }
    ensures failed { result.failed ≡ None }
    ensures wanted { result.wanted ≡ 1 }
{
    Ask {
        gives: Vec::new(alloc),
        failed: None,
        wanted: 1,
    }
}

/// The names `z` and `a`.
fn pair(rt: &impl Abort, alloc: Global) -> Named
    ensures { result ≡ pair_names }
{
    let mut names = Named::new(alloc);
    names
        .push(OutName::new("z").expect(rt, "a name"))
        .expect(rt, "memory");
    names
        .push(OutName::new("a").expect(rt, "a name"))
        .expect(rt, "memory");
    names
}

/// The names `b`, `c` and `a`.
fn turned(rt: &impl Abort, alloc: Global) -> Named
    ensures { result ≡ turned_names }
{
    let mut names = Named::new(alloc);
    names
        .push(OutName::new("b").expect(rt, "a name"))
        .expect(rt, "memory");
    names
        .push(OutName::new("c").expect(rt, "a name"))
        .expect(rt, "memory");
    names
        .push(OutName::new("a").expect(rt, "a name"))
        .expect(rt, "memory");
    names
}

/// The answer to the word, which brings names.
fn answer(rt: &impl Abort, alloc: Global, names: Named, outs: &[u16]) -> Give
    ensures { result ≡ one_give names outs.now }
{
    Give {
        place: 0,
        outs: word(rt, alloc, outs),
        names,
        run: 0,
    }
}

/// An ask that gives the answer, and wants no place.
fn one_answer(rt: &impl Abort, alloc: Global, names: Named, outs: &[u16]) -> Ask
    ensures gives { result.gives.items ≡ one_give names outs.now ∷ [] }
    ensures failed { result.failed ≡ None }
    ensures wanted { result.wanted ≡ 0 }
{
    let mut gives = Vec::new(alloc);
    gives
        .push(answer(rt, alloc, names, outs))
        .expect(rt, "memory");
    Ask {
        gives,
        failed: None,
        wanted: 0,
    }
}

/// A desk of one actor with one word.
fn desk_of_one(rt: &impl Abort, alloc: Global, letters: &[u16]) -> Desk
    ensures opening { result.opening ≡ one_word letters.now }
    ensures entries { result.entries ≡ [] }
{
    let mut words = Vec::new(alloc);
    words.push(word(rt, alloc, letters)).expect(rt, "memory");
    let names = OutNames::free(alloc).expect(rt, "memory");
    match Desk::new(alloc, Cache::new(alloc), names, &words, 1) {
        Ok(desk) => desk,
        Err(_) => rt.panic("out of memory"),
    }
}

/// The names after an answer with these outputs brings some, to a word of the same letters.
fn brought(rt: &impl Abort, alloc: Global, names: Named, outs: &[u16]) -> OutNames
    requires { MayBring true [] names outs.now }
{
    let mut desk = desk_of_one(rt, alloc, outs);
    let first = desk.on(0, one_place(alloc));
    assert!(rt; holds_first(&first));
    let given = one_answer(rt, alloc, names, outs);
    let second = desk.on(0, given);
    assert!(rt; second.places.is_empty());
    let (_, names, _) = desk.finish();
    names
}

/// The names that came as `z`, `a`.
pub fn falling(rt: &impl Abort, alloc: Global) -> OutNames {
    brought(rt, alloc, pair(rt, alloc), &[0, 1])
}

/// The names that came as `b`, `c`, `a`.
pub fn turning(rt: &impl Abort, alloc: Global) -> OutNames {
    brought(rt, alloc, turned(rt, alloc), &[0, 1, 2])
}

//! What no clause says: that the calls succeed, and clashes and known words by hand.
ghost use Rattle.std.specs.Prelude.{◌≡◌, length, List, [], ◌∷◌, ◌<◌};
ghost use Rattle.std.specs.List.{All};
ghost use Rattle.lw_words.specs.Word.{answer_of, answers_of, IsWhole};
ghost use Rattle.lw_cache.specs.Caching.{claim_of};
ghost use Rattle.lw_cache.specs.Plain.{AreFlags};

mod against;

use lw_cache::plain::{clash, clear, known};
use lw_cache::{AskStop, Cache, Clash, GrowStop, KeepStop, Known};
use lw_words::{Kept, KeptAnswer, NoMemory, SulStop, Word, Words};
use rand_core::SeedableRng;
use rand_core::utils::NextWord;
use rand_pcg::Lcg128Xsl64;
use std::alloc::Global;
use std::process::Abort;

fn word(rt: &impl Abort, alloc: Global, letters: &[u16]) -> Word
    ensures { result ≡ letters.now }
{
    Word::from_letters(alloc, letters.to_vec(alloc).expect(rt, "memory"))
}

/// An answer of instance 0 in its run 0.
fn answer(rt: &impl Abort, alloc: Global, letters: &[u16], outs: &[u16]) -> KeptAnswer
    ensures { IsWhole (answer_of result) }
{
    assert!(rt; outs.len() == letters.len());
    KeptAnswer {
        instance: 0,
        run: 0,
        word: word(rt, alloc, letters),
        outs: word(rt, alloc, outs),
    }
}

/// Letters and outputs of an answer.
type Said = (&'static [u16], &'static [u16]);

/// Where two answers clash.
fn clash_of(rt: &impl Abort, alloc: Global, first: Said, second: Said) -> Option<usize> {
    let first = answer(rt, alloc, first.0, first.1);
    let second = answer(rt, alloc, second.0, second.1);
    clash(&first, &second)
}

/// Two answers, and where they clash.
static CLASHES: [(Said, Said, Option<usize>); 3] = [
    (
        (&[0, 0, 0, 0], &[0, 0, 0, 0]),
        (&[0, 0, 0, 1], &[0, 0, 1, 0]),
        Some(2),
    ),
    ((&[0, 0, 0, 0], &[0, 0, 0, 0]), (&[0, 1], &[0, 5]), None),
    (
        (&[0, 0, 0, 0], &[0, 0, 0, 0]),
        (&[0, 0, 0, 0], &[0, 0, 0, 0]),
        None,
    ),
];

#[test]
fn answers_clash_at_the_first_difference(rt: HostRuntime) {
    for (first, second, place) in &CLASHES {
        assert!(rt; clash_of(&rt, rt.alloc(), *first, *second) == *place);
    }
}

/// Two answers, of which the second clashes with the first.
fn clashing(rt: &impl Abort, alloc: Global) -> Kept
    ensures { All IsWhole (answers_of result.answers) }
{
    let mut kept = Kept::new(alloc);
    let first = answer(rt, alloc, &[0, 1], &[0, 1]);
    assert!(rt; kept.push(first).is_ok());
    let second = answer(rt, alloc, &[0, 2, 2], &[1, 0, 0]);
    assert!(rt; kept.push(second).is_ok());
    kept
}

/// Words, and whether they are known by two answers that clash.
static KNOWN: [(&[u16], bool); 5] = [
    (&[], true),
    (&[0], true),
    (&[0, 1], true),
    (&[0, 2], false),
    (&[1], false),
];

/// Whether these words are known, or not, as they say.
fn are_known(
    rt: &impl Abort,
    alloc: Global,
    kept: &Kept,
    flags: &[bool],
    words: &[(&[u16], bool)],
) -> bool
    requires { AreFlags (answers_of kept.now.answers) (length kept.now.answers) flags.now }
{
    for (letters, is_known) in words {
        if known(kept, flags, &word(rt, alloc, letters)) != *is_known {
            return false;
        }
    }
    true
}

/// Whether just the first of two answers that clash is clear, and makes words known.
fn first_is_clear(rt: &impl Abort, alloc: Global) -> bool {
    let kept = clashing(rt, alloc);
    let flags = clear(alloc, &kept).expect(rt, "memory");
    flags.as_slice() == [true, false].as_slice() && are_known(rt, alloc, &kept, &flags, &KNOWN)
}

#[test]
fn an_answer_that_clashes_makes_nothing_known(rt: HostRuntime) {
    assert!(rt; first_is_clear(&rt, rt.alloc()));
}

/// A cache that keeps one answer of instance 0 in its run 0.
fn keeps_one(rt: &impl Abort, alloc: Global, letters: &[u16], outs: &[u16]) -> Cache
    requires { length outs.now ≡ length letters.now }
    ensures { result.claims ≡ [] }
{
    let mut cache = Cache::new(alloc);
    let kept = cache.keep(word(rt, alloc, letters), word(rt, alloc, outs), 0, 0);
    assert!(rt; kept.is_ok());
    cache
}

/// Claims two words, of which one begins with the other, in a cache with one answer.
fn claims_two(rt: &impl Abort, alloc: Global) -> Cache
    ensures { result.claims ≡
        claim_of 5 (0 ∷ 2 ∷ []) ∷ claim_of 7 (0 ∷ 2 ∷ 2 ∷ []) ∷ [] }
{
    let mut cache = keeps_one(rt, alloc, &[0, 1], &[0, 1]);
    cache.reserve(2, 5).expect(rt, "memory");
    let (short, long) = (word(rt, alloc, &[0, 2]), word(rt, alloc, &[0, 2, 2]));
    assert!(rt; matches!(cache.known(&short), Known::No));
    cache.claim(&short, 5);
    assert!(rt; matches!(cache.known(&long), Known::No));
    cache.claim(&long, 7);
    cache
}

/// The same once the first claim is given up.
fn gives_one_up(rt: &impl Abort, alloc: Global) -> Cache
    ensures { result.claims ≡ claim_of 7 (0 ∷ 2 ∷ 2 ∷ []) ∷ [] }
{
    let mut cache = claims_two(rt, alloc);
    cache.release(5);
    cache
}

/// Words, and their states.
type Told = (&'static [u16], Known);

/// Whether words have these states.
fn tells(rt: &impl Abort, alloc: Global, cache: &Cache, told: &[Told]) -> bool {
    for (letters, stands) in told {
        if cache.known(&word(rt, alloc, letters)) != *stands {
            return false;
        }
    }
    true
}

static CLAIMED: [Told; 2] = [(&[0, 2], Known::Pending(5)), (&[0], Known::Yes)];

/// Whether two claims are told.
fn tells_claims(rt: &impl Abort, alloc: Global) -> bool {
    let cache = claims_two(rt, alloc);
    tells(rt, alloc, &cache, &CLAIMED) && cache.nodes() == 4
}

static GIVEN_UP: [Told; 1] = [(&[0, 2], Known::Pending(7))];

/// Whether the second one is told once the first is given up.
fn tells_second(rt: &impl Abort, alloc: Global) -> bool {
    let cache = gives_one_up(rt, alloc);
    tells(rt, alloc, &cache, &GIVEN_UP) && cache.nodes() == 4
}

#[test]
fn claims_are_told_and_given_up(rt: HostRuntime) {
    assert!(rt; tells_claims(&rt, rt.alloc()));
    assert!(rt; tells_second(&rt, rt.alloc()));
}

/// The claim that is left is filled with these outputs; the clash, if there is one.
fn fills(rt: &impl Abort, alloc: Global, outs: Word) -> (Cache, Option<Clash>)
    requires { length outs ≡ 3 }
{
    let mut cache = gives_one_up(rt, alloc);
    let word = word(rt, alloc, &[0, 2, 2]);
    let filled = cache.fill(7, word, outs, 0, 1);
    (cache, filled.err())
}

static NOT_FILLED: [Told; 1] = [(&[0, 2], Known::No)];

/// Whether a cache keeps two answers in two nodes.
fn keeps_two(cache: Cache) -> bool {
    cache.nodes() == 2 && cache.kept().len() == 2 && cache.into_kept().len() == 2
}

/// Whether the claim is filled with an answer that clashes.
fn fills_with_clash(rt: &impl Abort, alloc: Global) -> bool {
    let (cache, clash) = fills(rt, alloc, word(rt, alloc, &[1, 0, 0]));
    let expected = Clash {
        first: 0,
        second: 1,
        place: 0,
    };
    clash == Some(expected) && tells(rt, alloc, &cache, &NOT_FILLED) && keeps_two(cache)
}

#[test]
fn a_claim_is_filled_with_a_clash(rt: HostRuntime) {
    assert!(rt; fills_with_clash(&rt, rt.alloc()));
}

/// Words, and their outputs where they are known.
type Read = (&'static [u16], Option<&'static [u16]>);

static READ: [Read; 3] = [(&[0, 2], Some(&[0, 3])), (&[1], None), (&[], Some(&[]))];

/// Whether a word is read so.
fn is_read(rt: &impl Abort, alloc: Global, cache: &Cache, read: &Read) -> bool {
    match cache.read(&word(rt, alloc, read.0)).expect(rt, "memory") {
        Some(outs) => read.1 == Some(outs.as_slice()),
        None => read.1.is_none(),
    }
}

static FILLED: [Told; 1] = [(&[0, 2, 2], Known::Yes)];

/// Whether words are read so.
fn are_read(rt: &impl Abort, alloc: Global, cache: &Cache, words: &[Read]) -> bool {
    for read in words {
        if !is_read(rt, alloc, cache, read) {
            return false;
        }
    }
    true
}

/// Whether the claim is filled with an answer that clashes with none, and the cache tells and reads it.
fn fills_clear(rt: &impl Abort, alloc: Global) -> bool {
    let (cache, clash) = fills(rt, alloc, word(rt, alloc, &[0, 3, 4]));
    clash.is_none() && tells(rt, alloc, &cache, &FILLED) && are_read(rt, alloc, &cache, &READ)
}

#[test]
fn a_claim_is_filled(rt: HostRuntime) {
    assert!(rt; fills_clear(&rt, rt.alloc()));
}

/// A drawn number below `bound`.
pub(super) fn draw(numbers: &mut Lcg128Xsl64, bound: u32) -> u32
    requires { 0 < bound }
    ensures { result < bound }
{
    (numbers.next_word() % u64::from(bound)) as u32
}

/// A drawn word of this length over two letters.
fn drawn(rt: &impl Abort, alloc: Global, numbers: &mut Lcg128Xsl64, len: usize) -> Word
    ensures { length result ≡ len }
{
    let mut letters = Vec::new(alloc);
    for _ in 0..len {
        letters.push(draw(numbers, 2) as u16).expect(rt, "memory");
    }
    Word::from_letters(alloc, letters)
}

/// Whether a cache and the plain body say the same of a word.
fn same_known(rt: &impl Abort, alloc: Global, cache: &Cache, w: &Word) -> bool {
    let flags = clear(alloc, cache.kept()).expect(rt, "memory");
    let plain = known(cache.kept(), flags.as_slice(), w);
    plain == (cache.known(w) == Known::Yes)
}

/// Keeps a drawn answer, and tells whether it clashes.
fn keeps_drawn(
    rt: &impl Abort,
    alloc: Global,
    numbers: &mut Lcg128Xsl64,
    cache: &mut Cache,
    run: u64,
) -> bool
    requires { cache.old.claims ≡ [] }
    ensures { cache.new.claims ≡ [] }
{
    let len = draw(numbers, 5) as usize;
    let w = drawn(rt, alloc, numbers, len);
    let outs = drawn(rt, alloc, numbers, len);
    match cache.keep(w, outs, 0, run) {
        Ok(()) => false,
        Err(KeepStop::Clash(_)) => true,
        Err(KeepStop::NoMemory) => rt.panic("no memory"),
    }
}

/// Whether a cache and the plain body say the same of a drawn word.
fn same_drawn(rt: &impl Abort, alloc: Global, numbers: &mut Lcg128Xsl64, cache: &Cache) -> bool {
    let len = draw(numbers, 4) as usize;
    same_known(rt, alloc, cache, &drawn(rt, alloc, numbers, len))
}

/// Keeps so many drawn answers, and compares what is said of a drawn word after each; how many of the answers clash.
fn drawn_clashes(rt: &impl Abort, alloc: Global, count: u64) -> u32 {
    let mut numbers = Lcg128Xsl64::seed_from_u64(7);
    let mut cache = Cache::new(alloc);
    let mut clashes = 0u32;
    for run in 0..count {
        if keeps_drawn(rt, alloc, &mut numbers, &mut cache, run) {
            clashes = clashes.saturating_add(1);
        }
        assert!(rt; same_drawn(rt, alloc, &mut numbers, &cache));
    }
    clashes
}

#[test]
fn drawn_answers_beside_the_plain_body(rt: HostRuntime) {
    let clashes = drawn_clashes(&rt, rt.alloc(), 24);
    assert!(rt; 0 < clashes && clashes < 24);
}

/// Whether a stop is that a system of this instance failed.
fn is_sul_stop(stop: &GrowStop, number: u32) -> bool {
    match stop {
        GrowStop::Ask(AskStop::Sul { instance, stop: _ }) => *instance == number,
        _ => false,
    }
}

/// Whether a stop is one of too many states, with no words.
fn is_empty_crowd(stop: &GrowStop) -> bool {
    match stop {
        GrowStop::Crowd(words) => words.len() == 0,
        GrowStop::Ask(_) => false,
    }
}

#[test]
fn stops_are_copied_and_carried_up(rt: HostRuntime) {
    let stop = AskStop::Sul {
        instance: 3,
        stop: SulStop::Gone,
    };
    assert!(rt; is_sul_stop(&GrowStop::from(stop.copy()), 3));
    let told = GrowStop::from(NoMemory);
    assert!(rt; matches!(told, GrowStop::Ask(AskStop::NoMemory)));
    assert!(rt; is_empty_crowd(&GrowStop::Crowd(Words::new(rt.alloc()))));
}

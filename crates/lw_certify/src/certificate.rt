//! The verdict on a model and recorded answers.
ghost use Rattle.std.specs.Prelude.{◌≡◌, ℕ, ◌≤◌, length, map, IfOk, OnOk, IfNone, IfSome, Ok};
ghost use Rattle.std.specs.List.{All};
ghost use Rattle.lw_words.specs.Word.{answers_of, IsWhole, IsWord};
ghost use Rattle.lw_mealy.specs.Machine.{Gives, IsWithinLimits, IsMinimal, Sure};
ghost use Rattle.lw_separate.specs.Canonical.{AreLeastAccess};
ghost use Rattle.lw_chunks.specs.Size.{suite_size, greatest_suite};
ghost use Rattle.lw_wp.specs.HSuite.{IsHSuite};
ghost use Rattle.lw_certify.specs.Verdict.{IsVerdict, IsFirstUnreached, AllReached, DiffersAt};
ghost use Rattle.lw_certify.specs.bodies.Access.{IsAccess};
ghost use Rattle.lw_certify.specs.bodies.Stages.{IsJudged, IsOfFault};
ghost use Rattle.lw_certify.specs.declared.verdict.Verdict.{Verdict as Came};
ghost use Rattle.lw_chunks.specs.declared.method.Method.TheVariants as by;

use crate::Verdict;
use crate::missing::first_missing;
use lw_apart::missing_word;
use lw_cache::Cache;
use lw_chunks::{Chunks, Method, SuiteFault};
use lw_mealy::Mealy;
use lw_separate::{access_words, first_alike};
use lw_suite::Suite;
use lw_words::{Kept, NoMemory, Words};
use lw_wp::{HSuite, WpSuite};
use std::alloc::Global;

/// The least access words of a machine's states, or the least state that no word reaches.
#[derive(Drop)]
enum Access {
    Words(Words),
    Unreached(u16),
}

/// The least access words, one for each state, or the first state that has none.
fn find_access(alloc: Global, h: &Mealy) -> Result<Access, NoMemory>
    ensures access { IfOk result (IsAccess h.now.inputs h.now.rows) }
    ensures complete { OnOk result (IsWithinLimits h.now) }
{
    let mut found = access_words(alloc, h)?;
    let mut words = Words::new(alloc);
    for state in 0..h.states() {
        let Some(word) = found[usize::from(state)].take() else {
            return Ok(Access::Unreached(state));
        };
        words.push(word)?;
    }
    Ok(Access::Words(words))
}

/// The number of the first answer that a machine disagrees with, and the first place at which it does.
fn first_difference(h: &Mealy, kept: &Kept) -> Option<(usize, usize)>
    requires letters { All (λ k. IsWord h.now.inputs k.word) (answers_of kept.now.answers) }
    requires whole { All IsWhole (answers_of kept.now.answers) }
    ensures none { IfNone result (Gives h.now.rows (answers_of kept.now.answers)) }
    ensures some { IfSome result (λ at.
        DiffersAt h.now.rows (answers_of kept.now.answers) at.0 at.1) }
{
    for number in 0..kept.len() {
        let answer = kept.get(number);
        if let Some(place) = h.agrees(&answer.word, &answer.outs) {
            return Some((number, place));
        }
    }
    None
}

/// The verdict where there is no suite.
fn without_suite(fault: SuiteFault) -> Result<Verdict, NoMemory>
    ensures { IfOk result (IsOfFault fault) }
{
    match fault {
        SuiteFault::TooLarge(size) => Ok(Verdict::TooLarge(size)),
        SuiteFault::NoMemory => Err(NoMemory),
    }
}

/// The verdict by the words of a suite: the first that isn't known is missing.
fn judge<S: Chunks>(alloc: Global, cache: &Cache, suite: &mut S) -> Result<Verdict, NoMemory>
    ensures { IfOk result (IsJudged (answers_of cache.now.kept) (S.left suite.old)) }
{
    match first_missing(alloc, cache, suite)? {
        Some(word) => Ok(Verdict::Missing(word)),
        None => Ok(Verdict::Sure),
    }
}

/// The verdict by the H-method on a minimal model that agrees with the recorded answers: whether they cover it. Looks
/// at each pair of words.
fn judge_pairs(alloc: Global, h: &Mealy, cache: &Cache, extra: u8) -> Result<Verdict, NoMemory>
    requires few { extra ≤ 4 }
    requires letters { All (λ k. IsWord h.now.inputs k.word) (answers_of cache.now.kept) }
    requires minimal { IsMinimal h.now.inputs h.now.rows }
    requires given { Gives h.now.rows (answers_of cache.now.kept) }
    requires size { suite_size (length h.now.rows) h.now.inputs extra ≤ greatest_suite }
    ensures { IfOk result (IsVerdict by.H h.now.inputs h.now.rows
        (answers_of cache.now.kept) extra) }
{
    match missing_word(alloc, h, cache, extra)? {
        Some(word) => Ok(Verdict::Missing(word)),
        None => Ok(Verdict::Sure),
    }
}

/// The same, where a suite of the H-method is at hand: where all of its words are known, the recorded answers cover the
/// model, and no pair is looked at.
fn judge_apart<S: Chunks>(
    alloc: Global,
    h: &Mealy,
    cache: &Cache,
    suite: &mut S,
    extra: u8,
) -> Result<Verdict, NoMemory>
    requires few { extra ≤ 4 }
    requires letters { All (λ k. IsWord h.now.inputs k.word) (answers_of cache.now.kept) }
    requires minimal { IsMinimal h.now.inputs h.now.rows }
    requires given { Gives h.now.rows (answers_of cache.now.kept) }
    requires size { suite_size (length h.now.rows) h.now.inputs extra ≤ greatest_suite }
    requires suite { IsHSuite h.now.inputs h.now.rows extra (S.left suite.old) }
    ensures { IfOk result (IsVerdict by.H h.now.inputs h.now.rows
        (answers_of cache.now.kept) extra) }
{
    let missing = first_missing(alloc, cache, suite)?;
    let Some(_) = missing else {
        return Ok(Verdict::Sure);
    };
    judge_pairs(alloc, h, cache, extra)
}

/// The verdict by a method on a minimal model that agrees with the recorded answers: whether they are enough.
fn certify_suite(
    alloc: Global,
    h: &Mealy,
    cache: &Cache,
    access: Words,
    extra: u8,
    method: Method,
) -> Result<Verdict, NoMemory>
    requires few { extra ≤ 4 }
    requires letters { All (λ k. IsWord h.now.inputs k.word) (answers_of cache.now.kept) }
    requires minimal { IsMinimal h.now.inputs h.now.rows }
    requires least { AreLeastAccess h.now.inputs h.now.rows access }
    requires given { Gives h.now.rows (answers_of cache.now.kept) }
    ensures verdict { IfOk result (IsVerdict method h.now.inputs h.now.rows
        (answers_of cache.now.kept) extra) }
{
    match method {
        Method::W => match Suite::with_access(alloc, h, access, extra) {
            Ok(mut suite) => judge(alloc, cache, &mut suite),
            Err(fault) => without_suite(fault),
        },
        Method::Wp => match WpSuite::with_access(alloc, h, access, extra) {
            Ok(mut suite) => judge(alloc, cache, &mut suite),
            Err(fault) => without_suite(fault),
        },
        Method::H => match HSuite::with_access(alloc, h, access, extra) {
            Ok(mut suite) => judge_apart(alloc, h, cache, &mut suite, extra),
            Err(fault) => without_suite(fault),
        },
    }
}

/// The verdict on a model and the recorded answers of a cache, for `extra` states more, with suites that are made so:
/// the first that applies of an unreached state, two states that agree on all words, an answer that the model disagrees
/// with, a suite that is too large, a word that is missing, and `Sure`. By the W-method and by the Wp-method the
/// missing word is the first of the suite that isn't known (Vasilevskii 1973, Chow 1978, Fujiwara and others 1991). By
/// the H-method it is `Sure` where the answers cover the model, whichever words they came from; else that word is
/// missing which is first to be known, or which the first pair wants that is to be known apart (Dorofeeva, El-Fakih and
/// Koufareva 2005): where an H-suite's words aren't all known, each such pair is looked at by itself, among all
/// answers. One chunk of a suite is held at a time; by the W- and the Wp-method the access words, the first alike pair
/// and the separating words are found once.
///
/// # Errors
/// Only where memory runs out.
pub fn certify(
    alloc: Global,
    h: &Mealy,
    cache: &Cache,
    extra: u8,
    method: Method,
) -> Result<Verdict, NoMemory>
    requires few { extra ≤ 4 }
    requires letters { All (λ k. IsWord h.now.inputs k.word) (answers_of cache.now.kept) }
    ensures verdict { IfOk result (IsVerdict method h.now.inputs h.now.rows
        (answers_of cache.now.kept) extra) }
    ensures sure { result ≡ Ok Came.Sure →
        Sure h.now.inputs h.now.rows (answers_of cache.now.kept) extra }
{
    let access = match find_access(alloc, h)? {
        Access::Words(words) => words,
        Access::Unreached(state) => return Ok(Verdict::Unreached(state)),
    };
    if let Some((p, q)) = first_alike(alloc, h)? {
        return Ok(Verdict::Alike(p, q));
    }
    if let Some((answer, place)) = first_difference(h, cache.kept()) {
        return Ok(Verdict::Differs { answer, place });
    }
    certify_suite(alloc, h, cache, access, extra, method)
}
